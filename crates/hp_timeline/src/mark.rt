//! The mark of an entry.

ghost use Rattle.std.specs.Prelude.{◌≡◌, ◌+◌, ◌<◌, ◌≤◌, ◌++◌, true, Some, OnOk, length, slice_get, vec_len, vec_capacity};
ghost use Rattle.std.specs.List.{flat_map};
ghost use Rattle.hp_event.specs.declared.event.Event.TheVariants.{Call};
ghost use Rattle.hp_text.specs.Appends.{Appends};
ghost use Rattle.hp_timeline.specs.Spans.{numbered_at};
ghost use Rattle.hp_timeline.specs.Marks.{IsEntry, marked, shape, how_word, mark_text};
ghost use Rattle.hp_timeline.specs.Ran.{IsShort, spot_text, ran_line};

use crate::sheet::height;
use crate::text::{LONG, append, append_before, append_two, push_with, push_with_few};
use crate::window::Window;
use hp_event::{Event, How};
use hp_print::append_event;
use hp_states::Dir;
use hp_text::{FEW, push, put_back, take_out};
use std::alloc::AllocError;

/// So many bytes the two parts of a mark take at most whose numbers are short.
const SPOT_BYTES: usize = 72;

const LINE_BYTES: usize = 64;

/// The mark of an entry.
#[derive(Clone, Copy)]
pub struct Mark {
    /// The place of its event.
    pub place: u32,
    pub cpu: u32,
    pub state: u32,
    pub dir: Dir,
    pub how: How,
}

/// Appends the shape of a mark: it points up for a startup, and down for a teardown.
fn append_shape(out: &mut Vec<u8>, dir: Dir) -> Result<(), AllocError>
    ensures { OnOk result (Appends out.old out.new (shape dir)) }
{
    match dir {
        Dir::Up => append(out, b"m0-12l12 24h-24z' class='"),
        Dir::Down => append(out, b"m0 12l12-24h-24z' class='"),
    }
}

/// Appends the word that says how an entry was made.
fn append_how(out: &mut Vec<u8>, how: How) -> Result<(), AllocError>
    ensures { OnOk result (Appends out.old out.new (how_word how)) }
{
    match how {
        How::RanOk => append(out, b"ok'><title>"),
        How::RanFault(_) => append(out, b"fault'><title>"),
        How::Injected => append(out, b"injected'><title>"),
        How::Empty => append(out, b"empty'><title>"),
        How::Presumed => append(out, b"presumed'><title>"),
        How::Overruled(_) => append(out, b"overruled'><title>"),
    }
}

/// Appends the line of an entry, with its event's number. The line of an entry has no number of an operation.
fn append_line(out: &mut Vec<u8>, events: &[Event], mark: Mark) -> Result<(), AllocError>
    requires { IsEntry mark (slice_get events.now mark.place) }
    ensures { OnOk result (Appends out.old out.new (numbered_at events.now mark.place)) }
{
    let at = mark.place as usize;
    append_before(out, at + 1, b": ")?;
    append_event(out, &events[at], 0)
}

/// Appends the mark of any entry, which is the event of a place.
#[tactic(auto, unfolding(crate::specs::Marks::mark_text))]
fn append_entry(
    out: &mut Vec<u8>,
    window: Window,
    events: &[Event],
    mark: Mark,
) -> Result<(), AllocError>
    requires { IsEntry mark (slice_get events.now mark.place) }
    ensures { OnOk result (Appends out.old out.new (mark_text window events.now mark)) }
{
    append_two(
        out,
        b"<path d='M",
        window.middle(mark.place),
        b" ",
        height(mark.cpu, mark.state),
    )?;
    append_shape(out, mark.dir)?;
    append_how(out, mark.how)?;
    append_line(out, events, mark)?;
    append(out, b"</title></path>\n")
}

/// What the mark of an entry says that ran and was ok: where it stands, from left and from above, the number of its event,
/// and what stands in its line.
#[derive(Clone, Copy)]
pub struct Ran {
    pub left: usize,
    pub top: usize,
    pub number: usize,
    pub seat: u32,
    pub cpu: u32,
    pub state: u32,
    pub inst: u32,
    pub dir: Dir,
}

impl Ran {
    /// Whether its numbers are short.
    #[inline(always)]
    fn is_short(self) -> bool
        ensures { result ≡ true → IsShort self }
    {
        let is_near = self.left < LONG && self.top < LONG && self.number < LONG;
        let is_key_short = self.state < FEW && self.inst < FEW;
        is_near && is_key_short && self.seat < FEW && self.cpu < FEW
    }
}

/// Pushes where the mark stands, its shape, and the number of its event.
#[inline(always)]
fn push_spot(out: &mut Vec<u8>, ran: Ran)
    requires short { IsShort ran }
    requires room { vec_len out.old + SPOT_BYTES ≤ vec_capacity out.old }
    ensures text { Appends out.old out.new (spot_text ran) }
    ensures many { vec_len out.new ≤ vec_len out.old + SPOT_BYTES }
    ensures room { vec_capacity out.new ≡ vec_capacity out.old }
{
    push_with(out, b"<path d='M", ran.left);
    push_with(out, b" ", ran.top);
    match ran.dir {
        Dir::Up => push_with(out, b"m0-12l12 24h-24z' class='ok'><title>", ran.number),
        Dir::Down => push_with(out, b"m0 12l12-24h-24z' class='ok'><title>", ran.number),
    }
}

/// Pushes the line of its event, and the end of the mark.
#[inline(always)]
fn push_line(out: &mut Vec<u8>, ran: Ran)
    requires short { IsShort ran }
    requires room { vec_len out.old + LINE_BYTES ≤ vec_capacity out.old }
    ensures { Appends out.old out.new (ran_line ran) }
{
    push_with_few(out, b": call ", ran.seat);
    push_with_few(out, b" ", ran.cpu);
    push_with_few(out, b" ", ran.state);
    push_with_few(out, b" ", ran.inst);
    match ran.dir {
        Dir::Up => push(out, b" up ok\n</title></path>\n"),
        Dir::Down => push(out, b" down ok\n</title></path>\n"),
    }
}

/// Appends the mark of an entry that ran and was ok, in one piece.
#[inline(always)]
fn append_ran(out: &mut Vec<u8>, ran: Ran) -> Result<(), AllocError>
    requires { IsShort ran }
    ensures { OnOk result (Appends out.old out.new (spot_text ran ++ ran_line ran)) }
{
    out.reserve(SPOT_BYTES + LINE_BYTES)?;
    let mut text = take_out(out);
    push_spot(&mut text, ran);
    push_line(&mut text, ran);
    put_back(out, text);
    Ok(())
}

/// Appends the mark of an entry, which is the event of a place. Most ran and were ok, with short numbers.
fn append_one(
    out: &mut Vec<u8>,
    window: Window,
    events: &[Event],
    mark: Mark,
    seat: u32,
    inst: u32,
) -> Result<(), AllocError>
    requires { slice_get events.now mark.place ≡ Some (Call seat mark.cpu mark.state inst mark.dir mark.how) }
    ensures { OnOk result (Appends out.old out.new (mark_text window events.now mark)) }
{
    if let How::RanOk = mark.how {
        let ran = Ran {
            left: window.middle(mark.place),
            top: height(mark.cpu, mark.state),
            number: mark.place as usize + 1,
            seat,
            cpu: mark.cpu,
            state: mark.state,
            inst,
            dir: mark.dir,
        };
        if ran.is_short() {
            return append_ran(out, ran);
        }
    }
    append_entry(out, window, events, mark)
}

/// Appends the mark of the event at a place, where that is an entry.
pub fn append_mark(
    out: &mut Vec<u8>,
    window: Window,
    events: &[Event],
    place: u32,
) -> Result<(), AllocError>
    requires { place < length events.now }
    ensures { OnOk result (Appends out.old out.new
        (flat_map (mark_text window events.now) (marked place (slice_get events.now place)))) }
{
    match events[place as usize] {
        Event::Call {
            seat,
            cpu,
            state,
            inst,
            dir,
            how,
        } => append_one(
            out,
            window,
            events,
            Mark {
                place,
                cpu,
                state,
                dir,
                how,
            },
            seat,
            inst,
        ),
        _ => Ok(()),
    }
}
