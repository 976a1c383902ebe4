//! How what lasts is drawn.

ghost use Rattle.std.specs.Prelude.{◌≡◌, ◌+◌, ◌≤◌, ◌++◌, OnOk, slice_get, codes, decimal, vec_len, vec_capacity};
ghost use Rattle.hp_timeline.specs.Numbers.{AreNumbers};
ghost use Rattle.hp_text.specs.Appends.{Appends};
ghost use Rattle.hp_timeline.specs.Sheet.{HasFewClients};
ghost use Rattle.hp_timeline.specs.Spans.{row_top as row_top_of, row_height, row_word, class_word, numbered_at, title_text, words_text, label_by, span_from, span_width, box_text, fill_text, span_text};

use crate::sheet::{Sheet, lane_top};
use crate::span::{Class, Row, Span};
use crate::text::{append, append_before, append_two_before};
use crate::window::Window;
use hp_event::{Event, Op};
use hp_print::append_event;
use hp_text::{append_op, push, put_back, take_out};
use std::alloc::AllocError;

impl Row {
    /// Where it begins, from above.
    #[tactic(auto, unfolding(crate::specs::Spans::row_top))]
    fn top(self, sheet: &Sheet) -> usize
        requires { HasFewClients sheet.now }
        ensures { result ≡ row_top_of sheet.now self }
    {
        match self {
            Row::Processor(cpu) => lane_top(cpu),
            Row::Operations(seat) => sheet.seat_top(seat) + 12,
            Row::Section(seat) => sheet.seat_top(seat) + 93,
        }
    }
}

/// So many bytes the two parts of what fills a box take at most.
const ROW_BYTES: usize = 32;

const CLASS_BYTES: usize = 40;

/// Appends how wide and how high what stands in a row is.
#[tactic(auto, unfolding(crate::specs::Spans::row_height))]
fn append_size(out: &mut Vec<u8>, width: usize, row: Row) -> Result<(), AllocError>
    ensures { OnOk result (Appends out.old out.new
        (decimal width ++ (codes "' height='" ++ (decimal (row_height row) ++ codes "'><title>")))) }
{
    match row {
        Row::Processor(_) => append_before(out, width, b"' height='220'><title>"),
        Row::Operations(_) => append_before(out, width, b"' height='78'><title>"),
        Row::Section(_) => append_before(out, width, b"' height='18'><title>"),
    }
}

/// Pushes the word of a row, and what stands before it.
#[inline(always)]
fn push_row_word(out: &mut Vec<u8>, row: Row)
    requires room { vec_len out.old + ROW_BYTES ≤ vec_capacity out.old }
    ensures text { Appends out.old out.new
        (codes "</title><rect class='" ++ (row_word row ++ codes " ")) }
    ensures many { vec_len out.new ≤ vec_len out.old + ROW_BYTES }
    ensures room { vec_capacity out.new ≡ vec_capacity out.old }
{
    match row {
        Row::Processor(_) => push(out, b"</title><rect class='walk "),
        Row::Operations(_) => push(out, b"</title><rect class='bar "),
        Row::Section(_) => push(out, b"</title><rect class='section "),
    }
}

/// Pushes the word that says how something ended, and what stands behind it.
#[inline(always)]
fn push_class(out: &mut Vec<u8>, class: Class)
    requires room { vec_len out.old + CLASS_BYTES ≤ vec_capacity out.old }
    ensures { Appends out.old out.new (class_word class ++ codes "' width='100%' height='100%'/>") }
{
    match class {
        Class::Done => push(out, b"ok' width='100%' height='100%'/>"),
        Class::Refused => push(out, b"refused' width='100%' height='100%'/>"),
        Class::Faulted => push(out, b"fault' width='100%' height='100%'/>"),
        Class::Stuck => push(out, b"stuck' width='100%' height='100%'/>"),
        Class::Full => push(out, b"full' width='100%' height='100%'/>"),
        Class::Going => push(out, b"going' width='100%' height='100%'/>"),
    }
}

/// Appends the line of the event at a place, with its number, where there is one.
fn append_numbered(
    out: &mut Vec<u8>,
    events: &[Event],
    numbers: &[u32],
    place: u32,
) -> Result<(), AllocError>
    requires { AreNumbers events.now numbers.now }
    ensures { OnOk result (Appends out.old out.new (numbered_at events.now place)) }
{
    let at = place as usize;
    if at < events.len() {
        append_before(out, at + 1, b": ")?;
        append_event(out, &events[at], numbers[at])?;
    }
    Ok(())
}

/// Appends the lines of the first event and, where it is over, of the last.
#[tactic(auto, unfolding(crate::specs::Spans::title_text))]
fn append_title(
    out: &mut Vec<u8>,
    events: &[Event],
    numbers: &[u32],
    span: Span,
) -> Result<(), AllocError>
    requires { AreNumbers events.now numbers.now }
    ensures { OnOk result (Appends out.old out.new (title_text events.now span)) }
{
    append_numbered(out, events, numbers, span.first)?;
    if span.is_over && span.first != span.last {
        append_numbered(out, events, numbers, span.last)?;
    }
    Ok(())
}

/// Appends the words of an operation, as they stand in its bar, and the bar's end.
fn append_words(out: &mut Vec<u8>, op: &Op) -> Result<(), AllocError>
    ensures { OnOk result (Appends out.old out.new (words_text op.now ++ codes "</svg>\n")) }
{
    append(out, b"<text x='9' y='51'>")?;
    append_op(out, op)?;
    append(out, b"</text></svg>\n")
}

/// Appends the words of the operation that the event at a place begins, where it begins one, and the end.
fn append_label(out: &mut Vec<u8>, events: &[Event], place: u32) -> Result<(), AllocError>
    ensures { OnOk result (Appends out.old out.new
        (label_by (slice_get events.now place) ++ codes "</svg>\n")) }
{
    match events.get(place as usize) {
        Some(Event::Enter { op, .. } | Event::RegBegin { op, .. }) => append_words(out, op),
        _ => append(out, b"</svg>\n"),
    }
}

/// Where something begins, from left.
#[tactic(auto, unfolding(crate::specs::Spans::span_from))]
fn left_of(window: Window, span: Span) -> usize
    ensures { result ≡ span_from window span }
{
    453 + 36 * (span.first.max(window.before) - window.before) as usize
}

/// How wide it is.
#[tactic(auto, unfolding(crate::specs::Spans::span_width))]
fn width_of(window: Window, span: Span) -> usize
    ensures { result ≡ span_width window span }
{
    let first = span.first.max(window.before) as usize;
    (36 * (span.last as usize + 1).saturating_sub(first)).saturating_sub(6)
}

/// Appends the box of something that lasts.
#[tactic(auto, unfolding(crate::specs::Spans::box_text))]
fn append_box(out: &mut Vec<u8>, sheet: &Sheet, span: Span) -> Result<(), AllocError>
    requires { HasFewClients sheet.now }
    ensures { OnOk result (Appends out.old out.new (box_text sheet.now span)) }
{
    let left = left_of(sheet.window, span);
    let top = span.row.top(sheet);
    append_two_before(out, b"<svg x='", left, b"' y='", top, b"' width='")?;
    append_size(out, width_of(sheet.window, span), span.row)
}

/// Appends what fills that box.
#[tactic(auto, unfolding(crate::specs::Spans::fill_text))]
fn append_fill(out: &mut Vec<u8>, span: Span) -> Result<(), AllocError>
    ensures { OnOk result (Appends out.old out.new (fill_text span)) }
{
    out.reserve(ROW_BYTES + CLASS_BYTES)?;
    let mut text = take_out(out);
    push_row_word(&mut text, span.row);
    push_class(&mut text, span.class);
    put_back(out, text);
    Ok(())
}

/// Appends something that lasts.
#[inline(never)]
#[tactic(auto, unfolding(crate::specs::Spans::span_text))]
pub fn append_span(
    out: &mut Vec<u8>,
    sheet: &Sheet,
    events: &[Event],
    numbers: &[u32],
    span: Span,
) -> Result<(), AllocError>
    requires few { HasFewClients sheet.now }
    requires numbers { AreNumbers events.now numbers.now }
    ensures { OnOk result (Appends out.old out.new (span_text sheet.now events.now span)) }
{
    append_box(out, sheet, span)?;
    append_title(out, events, numbers, span)?;
    append_fill(out, span)?;
    append_label(out, events, span.first)
}
