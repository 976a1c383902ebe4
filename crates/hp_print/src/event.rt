//! The line of an event.

ghost use Rattle.std.specs.Prelude.{◌≡◌, ◌<◌, ◌++◌, ◌∷◌, [], OnOk, IfOk, true, decimal};
ghost use Rattle.hp_event.specs.declared.answer.Answer.TheVariants as answer;
ghost use Rattle.hp_event.specs.declared.event.Event.TheVariants as event;
ghost use Rattle.hp_event.specs.declared.how.How.TheVariants as how;
ghost use Rattle.hp_model.specs.Words.{spaced, joined};
ghost use Rattle.hp_model.specs.HasLine.{lists_one as lists_one_of, has_line as has_line_of};
ghost use Rattle.hp_model.specs.EventLine.{how_words, answer_words, walk_answer_words, role_words, file_words, event_line as line_of};
ghost use Rattle.hp_event.specs.declared.version.Version.TheVariants.{Two};
ghost use Rattle.hp_print.specs.Appends.{Appends, AppendsWords};

use hp_event::{Answer, Event, File, How, Key, Op, Role};
use hp_states::{Dir, NoMemory};
use hp_text::{
    FEW, FEW_DIGITS, append, append_dir, append_number, append_of, append_op, append_signed,
    end_line, push, push_number, put_back, take_out,
};
use std::alloc::{AllocError, Global};

/// Appends how an entry was made.
fn append_how(out: &mut Vec<u8>, how: How) -> Result<(), AllocError>
    ensures { OnOk result (Appends out.old out.new (spaced (how_words how))) }
{
    match how {
        How::RanOk => append(out, b" ok"),
        How::RanFault(code) => append_of(out, b" fault", code),
        How::Injected => append(out, b" injected"),
        How::Empty => append(out, b" empty"),
        How::Presumed => append(out, b" presumed"),
        How::Overruled(code) => append_of(out, b" overruled", code),
    }
}

/// Appends the words of an operation that is ok, with the value that it read.
fn append_ok(out: &mut Vec<u8>, value: i32) -> Result<(), AllocError>
    ensures { OnOk result (Appends out.old out.new (spaced (answer_words (answer.Ok value)))) }
{
    append(out, b" ok")?;
    append_signed(out, value)
}

/// Appends the words of an operation that is stuck: its two codes, and the state where it is.
fn append_stuck(out: &mut Vec<u8>, first: u32, second: u32, at: u32) -> Result<(), AllocError>
    ensures { OnOk result (Appends out.old out.new (spaced (answer_words (answer.Stuck first second at)))) }
{
    append_of(out, b" stuck", first)?;
    append_number(out, second)?;
    append_number(out, at)
}

/// Appends the words of the answer of an operation or a registration, each behind a space.
///
/// Takes memory; where it is wanting, the buffer may have a part of that. This project's own.
pub fn append_answer(out: &mut Vec<u8>, answer: Answer) -> Result<(), AllocError>
    ensures { OnOk result (Appends out.old out.new (spaced (answer_words answer))) }
{
    match answer {
        Answer::Ok(value) => append_ok(out, value),
        Answer::Refused(errno) => append_of(out, b" refused", errno),
        Answer::Fault(code) => append_of(out, b" fault", code),
        Answer::Stuck { first, second, at } => append_stuck(out, first, second, at),
        Answer::LogFull => append(out, b" full"),
    }
}

/// Appends the answer of a walk, which has no number where it is ok.
fn append_walk_answer(out: &mut Vec<u8>, answer: Answer) -> Result<(), AllocError>
    ensures { OnOk result (Appends out.old out.new (spaced (walk_answer_words answer))) }
{
    match answer {
        Answer::Ok(_) => append(out, b" ok"),
        other => append_answer(out, other),
    }
}

/// Appends the role of a seat.
fn append_role(out: &mut Vec<u8>, role: Role) -> Result<(), AllocError>
    ensures { OnOk result (Appends out.old out.new (spaced (role_words role))) }
{
    match role {
        Role::Client => append(out, b" client"),
        Role::Ap(cpu) => append_of(out, b" ap", cpu),
    }
}

/// Appends which file was shown; the file of all states belongs to no processor.
fn append_file(out: &mut Vec<u8>, file: File, cpu: u32) -> Result<(), AllocError>
    ensures { OnOk result (Appends out.old out.new (spaced (file_words file cpu))) }
{
    match file {
        File::State => append_of(out, b" state", cpu),
        File::Target => append_of(out, b" target", cpu),
        File::Fail => append_of(out, b" fail", cpu),
        File::States => append(out, b" states"),
    }
}

/// Appends the words of a seat that comes in.
fn append_admit(out: &mut Vec<u8>, seat: u32, role: Role) -> Result<(), AllocError>
    ensures { OnOk result (AppendsWords out.old out.new 0 (event.Admit seat role)) }
{
    append_of(out, b"admit", seat)?;
    append_role(out, role)
}

/// Appends the words of an operation that takes the map lock.
fn append_enter(out: &mut Vec<u8>, seat: u32, number: u32, op: &Op) -> Result<(), AllocError>
    ensures { OnOk result (AppendsWords out.old out.new number (event.Enter seat op.now)) }
{
    append_of(out, b"enter", seat)?;
    append_number(out, number)?;
    append_op(out, op)
}

/// Appends the words of an operation that gives the map lock back.
fn append_done(out: &mut Vec<u8>, seat: u32, number: u32, answer: Answer) -> Result<(), AllocError>
    ensures { OnOk result (AppendsWords out.old out.new number (event.OpEnd seat answer)) }
{
    append_of(out, b"done", seat)?;
    append_number(out, number)?;
    append_answer(out, answer)
}

/// Appends the words of a registration that ends.
fn append_regged(
    out: &mut Vec<u8>,
    seat: u32,
    number: u32,
    answer: Answer,
) -> Result<(), AllocError>
    ensures { OnOk result (AppendsWords out.old out.new number (event.RegEnd seat answer)) }
{
    append_of(out, b"regged", seat)?;
    append_number(out, number)?;
    append_answer(out, answer)
}

/// Appends the words of an operation that is refused.
fn append_refused(
    out: &mut Vec<u8>,
    seat: u32,
    number: u32,
    errno: u32,
    op: &Op,
) -> Result<(), AllocError>
    ensures { OnOk result (AppendsWords out.old out.new number (event.Refused seat errno op.now)) }
{
    append_of(out, b"refused", seat)?;
    append_number(out, number)?;
    append_number(out, errno)?;
    append_op(out, op)
}

/// Appends the words of a walk that begins.
fn append_walk(out: &mut Vec<u8>, seat: u32, cpu: u32, from: u32, to: u32) -> Result<(), AllocError>
    ensures { OnOk result (AppendsWords out.old out.new 0 (event.WalkBegin seat cpu from to)) }
{
    append_of(out, b"walk", seat)?;
    append_number(out, cpu)?;
    append_number(out, from)?;
    append_number(out, to)
}

/// The most bytes of the words of an entry with short numbers that ran and was ok: `call`, four numbers behind spaces, and
/// ` down ok`.
const SHORT_CALL: usize = 4 + 4 * (1 + FEW_DIGITS) + 8;

/// Appends the words of an entry of a key that ran and was ok, whose numbers are short: most are, and go in one piece.
fn append_call_ok(
    out: &mut Vec<u8>,
    seat: u32,
    cpu: u32,
    key: Key,
    dir: Dir,
) -> Result<(), AllocError>
    requires seat { seat < FEW }
    requires cpu { cpu < FEW }
    requires state { key.state < FEW }
    requires inst { key.inst < FEW }
    ensures { OnOk result (AppendsWords out.old out.new 0 (event.Call seat cpu key.state key.inst dir how.RanOk)) }
{
    out.reserve(SHORT_CALL)?;
    let mut text = take_out(out);
    push(&mut text, b"call");
    push_number(&mut text, seat);
    push_number(&mut text, cpu);
    push_number(&mut text, key.state);
    push_number(&mut text, key.inst);
    match dir {
        Dir::Up => push(&mut text, b" up ok"),
        Dir::Down => push(&mut text, b" down ok"),
    }
    put_back(out, text);
    Ok(())
}

/// Appends the words of an entry of a key.
fn append_call(
    out: &mut Vec<u8>,
    seat: u32,
    cpu: u32,
    key: Key,
    dir: Dir,
    how: How,
) -> Result<(), AllocError>
    ensures { OnOk result (AppendsWords out.old out.new 0 (event.Call seat cpu key.state key.inst dir how)) }
{
    if let How::RanOk = how {
        if seat < FEW && cpu < FEW && key.state < FEW && key.inst < FEW {
            return append_call_ok(out, seat, cpu, key, dir);
        }
    }
    append_of(out, b"call", seat)?;
    append_number(out, cpu)?;
    append_number(out, key.state)?;
    append_number(out, key.inst)?;
    append_dir(out, dir)?;
    append_how(out, how)
}

/// Appends the words of a walk that ends.
fn append_walked(out: &mut Vec<u8>, seat: u32, cpu: u32, answer: Answer) -> Result<(), AllocError>
    ensures { OnOk result (AppendsWords out.old out.new 0 (event.WalkEnd seat cpu answer)) }
{
    append_of(out, b"walked", seat)?;
    append_number(out, cpu)?;
    append_walk_answer(out, answer)
}

/// Appends the words of a registration that begins.
fn append_reg(
    out: &mut Vec<u8>,
    seat: u32,
    number: u32,
    state: u32,
    op: &Op,
) -> Result<(), AllocError>
    ensures { OnOk result (AppendsWords out.old out.new number (event.RegBegin seat state op.now)) }
{
    append_of(out, b"reg", seat)?;
    append_number(out, number)?;
    append_number(out, state)?;
    append_op(out, op)
}

/// Appends the words of a `fail` file that was written.
fn append_armed(
    out: &mut Vec<u8>,
    seat: u32,
    number: u32,
    cpu: u32,
    value: i32,
) -> Result<(), AllocError>
    ensures { OnOk result (AppendsWords out.old out.new number (event.Armed seat cpu value)) }
{
    append_of(out, b"armed", seat)?;
    append_number(out, number)?;
    append_number(out, cpu)?;
    append_signed(out, value)
}

/// Appends the words of a file that was shown.
fn append_shown(
    out: &mut Vec<u8>,
    seat: u32,
    number: u32,
    file: File,
    cpu: u32,
    value: i32,
) -> Result<(), AllocError>
    ensures { OnOk result (AppendsWords out.old out.new number (event.Shown seat file cpu value)) }
{
    append_of(out, b"shown", seat)?;
    append_number(out, number)?;
    append_file(out, file, cpu)?;
    append_signed(out, value)
}

/// Appends the words of an operation's event that has no others.
fn append_alone(out: &mut Vec<u8>, word: &[u8], seat: u32, number: u32) -> Result<(), AllocError>
    ensures { OnOk result (Appends out.old out.new (joined (word.now ∷ decimal seat ∷ decimal number ∷ []))) }
{
    append_of(out, word, seat)?;
    append_number(out, number)
}

/// Appends the words of an event, with this number of its operation where it is one's.
fn append_words(out: &mut Vec<u8>, event: &Event, number: u32) -> Result<(), AllocError>
    ensures { OnOk result (AppendsWords out.old out.new number event.now) }
{
    match *event {
        Event::Admit { seat, role } => append_admit(out, seat, role),
        Event::Leave { seat } => append_of(out, b"leave", seat),
        Event::Enter { seat, op } => append_enter(out, seat, number, &op),
        Event::Refused { seat, errno, op } => append_refused(out, seat, number, errno, &op),
        Event::WalkBegin {
            seat,
            cpu,
            from,
            to,
        } => append_walk(out, seat, cpu, from, to),
        Event::Call {
            seat,
            cpu,
            state,
            inst,
            dir,
            how,
        } => append_call(out, seat, cpu, Key { state, inst }, dir, how),
        Event::WalkEnd { seat, cpu, answer } => append_walked(out, seat, cpu, answer),
        Event::OpEnd { seat, answer } => append_done(out, seat, number, answer),
        Event::RegBegin { seat, state, op } => append_reg(out, seat, number, state, &op),
        Event::RegEnd { seat, answer } => append_regged(out, seat, number, answer),
        Event::ReadLock { seat } => append_alone(out, b"lock", seat, number),
        Event::ReadUnlock { seat } => append_alone(out, b"unlock", seat, number),
        Event::Armed { seat, cpu, value } => append_armed(out, seat, number, cpu, value),
        Event::Shown {
            seat,
            file,
            cpu,
            value,
        } => append_shown(out, seat, number, file, cpu, value),
        Event::Wakeup { seat } => append_alone(out, b"wakeup", seat, number),
    }
}

/// Appends the line of an event, with this number of its operation where it is one's.
pub fn append_event(out: &mut Vec<u8>, event: &Event, number: u32) -> Result<(), AllocError>
    ensures { OnOk result (Appends out.old out.new (line_of Two number event.now)) }
{
    append_words(out, event, number)?;
    end_line(out)
}

/// Whether an operation lists a processor, where it is an upmany.
fn lists_one(op: &Op) -> bool
    ensures { result ≡ lists_one_of op.now }
{
    match op {
        Op::UpMany(set) => !set.is_empty(),
        _ => true,
    }
}

/// Whether an event has a line: it has, unless it is of an upmany of no processor.
///
/// Takes no memory. The rule is `has_line` of `specs/HasLine.antt` of hp_model.
pub fn has_line(event: &Event) -> bool
    ensures { result ≡ has_line_of event.now }
{
    match event {
        Event::Enter { op, .. } | Event::Refused { op, .. } | Event::RegBegin { op, .. } => {
            lists_one(op)
        }
        _ => true,
    }
}

/// The line of an event, as the text of a journal has it.
///
/// `number` is that of its operation among those of its seat, from 1; of an event of no operation it isn't
/// looked at. The event is one that has a line, as each of a lawful journal has. Takes memory for the
/// line; where it is wanting the answer is `NoMemory`. The form of the line is this project's own: the
/// kind's word, the seat, the operation's number where it is of one, and what else the kind has, one space
/// between two words and a newline at the end.
pub fn event_line(alloc: Global, event: &Event, number: u32) -> Result<Vec<u8>, NoMemory>
    requires { has_line_of event.now ≡ true }
    ensures { IfOk result (λ v. v.items ≡ line_of Two number event.now) }
{
    let mut out = Vec::new(alloc);
    append_event(&mut out, event, number)?;
    Ok(out)
}
