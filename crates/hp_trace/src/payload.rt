//! What the words of an event say behind its name.

ghost use Rattle.std.specs.Prelude.{◌≡◌, option_map, IsSome};
ghost use Rattle.hp_trace.specs.Pieces.{pieces, others_of};
ghost use Rattle.hp_trace.specs.Readers.{first_says, padded as padded_at, number as number_at, integer as integer_at};
ghost use Rattle.hp_trace.specs.Payload as spec;
ghost use Rattle.hp_trace.specs.declared.event.Payload.TheVariants as payload;

use crate::event::{Function, Mark, Name, Payload};
use crate::pieces::{Pieces, Words};
use crate::words::padded;
use hp_text::{integer, number};

/// The event that a word names, where it names one.
#[tactic(auto, unfolding(crate::specs::Payload::name_of))]
pub fn name_of(word: &[u8]) -> Option<Name>
    ensures { result ≡ spec.name_of word.now }
{
    if word == b"cpuhp_enter:".as_slice() {
        Some(Name::Enter)
    } else if word == b"cpuhp_multi_enter:".as_slice() {
        Some(Name::MultiEnter)
    } else if word == b"cpuhp_exit:".as_slice() {
        Some(Name::Exit)
    } else {
        None
    }
}

/// The name of a symbol: what a compiler or a disassembler adds behind `.` or `+` is no part of it.
#[tactic(auto, unfolding(crate::specs::Payload::symbol))]
fn symbol(text: &[u8]) -> Option<&[u8]>
    ensures { option_map (λ w. w.now) result ≡ spec.symbol text.now }
{
    let before_dot = Pieces::of(text, b'.').next()?;
    Pieces::of(before_dot, b'+').next()
}

/// The function of this name.
#[tactic(auto, unfolding(crate::specs::Payload::function_named))]
fn function_named(symbol: &[u8]) -> Function
    ensures { result ≡ spec.function_named symbol.now }
{
    if symbol == b"cpuhp_kick_ap_work".as_slice() {
        Function::Mark(Mark::Kick)
    } else if symbol == b"bringup_cpu".as_slice() || symbol == b"cpuhp_bringup_ap".as_slice() {
        Function::Mark(Mark::BringUp)
    } else if symbol == b"takedown_cpu".as_slice() {
        Function::Mark(Mark::TakeDown)
    } else {
        Function::Callback
    }
}

/// Whether a text can be a name: an address begins with a digit.
fn is_name(text: &[u8]) -> bool
    ensures { result ≡ spec.is_name text.now }
{
    match text {
        [] => false,
        [first, ..] => !first.is_ascii_digit(),
    }
}

/// The function that a text names.
#[tactic(auto, unfolding(crate::specs::Payload::function_of))]
fn function_of(text: &[u8]) -> Option<Function>
    ensures { result ≡ spec.function_of text.now }
{
    if is_name(text) {
        Some(function_named(symbol(text)?))
    } else {
        None
    }
}

/// What stands before a byte that ends a word, where it has no other such byte.
pub fn closed(word: &[u8], by: u8) -> Option<&[u8]>
    ensures { option_map (λ w. w.now) result ≡ spec.closed (pieces by word.now) }
{
    let mut pieces = Pieces::of(word, by);
    let front = pieces.next()?;
    let rest = pieces.next()?;
    if rest.is_empty() && pieces.is_done() {
        Some(front)
    } else {
        None
    }
}

/// What stands behind a byte that begins a word.
pub fn opened(word: &[u8], by: u8) -> Option<&[u8]>
    ensures { option_map (λ w. w.now) result ≡ spec.opened by word.now }
{
    match word {
        [first, rest @ ..] if *first == by => Some(rest),
        _ => None,
    }
}

/// The function of `(F)`.
#[tactic(auto, unfolding(crate::specs::Payload::in_parentheses))]
fn in_parentheses(word: &[u8]) -> Option<Function>
    ensures { result ≡ spec.in_parentheses word.now }
{
    function_of(opened(closed(word, b')')?, b'(')?)
}

/// The function of `(F [M])`, of which these are the words.
#[tactic(auto, unfolding(crate::specs::Payload::of_module))]
fn of_module(word: &[u8], last: &[u8]) -> Option<Function>
    ensures { result ≡ spec.of_module word.now last.now }
{
    let module = opened(closed(last, b')')?, b'[')?;
    closed(module, b']')?;
    function_of(opened(word, b'(')?)
}

/// The function that the words that are left name, and nothing else: the last part of the text of an enter.
#[tactic(auto, unfolding(crate::specs::Payload::function_words))]
fn with_function(
    multi: bool,
    cpu: u32,
    target: i32,
    step: u32,
    words: &mut Words<'_>,
) -> Option<Payload>
    ensures { result ≡ spec.function_words (λ function. payload.Entered multi cpu target step function) words.old }
{
    let word = words.next()?;
    let function = match words.next() {
        None => in_parentheses(word)?,
        Some(last) => {
            if words.next().is_some() {
                return None;
            }
            of_module(word, last)?
        }
    };
    Some(Payload::Entered {
        multi,
        cpu,
        target,
        step,
        function,
    })
}

/// The words of an enter, in the text of the tracepoints.
#[tactic(auto, unfolding(crate::specs::Payload::entered))]
fn entered(multi: bool, words: &mut Words<'_>) -> Option<Payload>
    ensures { result ≡ spec.entered multi words.old }
{
    words.exactly(b"cpu:")?;
    let cpu = words.padded()?;
    words.exactly(b"target:")?;
    let target = words.integer()?;
    words.exactly(b"step:")?;
    let step = words.number()?;
    with_function(multi, cpu, target, step, words)
}

/// The words of an exit, in the text of the tracepoints.
#[tactic(auto, unfolding(crate::specs::Payload::left))]
fn left(words: &mut Words<'_>) -> Option<Payload>
    ensures { result ≡ spec.left words.old }
{
    words.exactly(b"cpu:")?;
    let cpu = words.padded()?;
    words.exactly(b"state:")?;
    let state = words.integer()?;
    words.exactly(b"step:")?;
    let step = words.number()?;
    words.exactly(b"ret:")?;
    let code = words.integer()?;
    words.done(Payload::Left {
        cpu,
        state,
        step,
        code,
    })
}

/// The value of `LABEL=VALUE`.
fn behind<'a>(word: &'a [u8], label: &[u8]) -> Option<&'a [u8]>
    ensures { option_map (λ w. w.now) result ≡ spec.value_behind label.now (pieces 61 word.now) }
{
    let mut pieces = Pieces::of(word, b'=');
    let front = pieces.next()?;
    let value = pieces.next()?;
    if front == label && pieces.is_done() {
        Some(value)
    } else {
        None
    }
}

impl<'a> Words<'a> {
    /// Takes the next word, where it is this label with a number, which may have zeros in front.
    fn padded_behind(&mut self, label: &[u8]) -> Option<u32>
        ensures said { result ≡ first_says (spec.behind label.now padded_at) self.old }
        ensures rest { IsSome result → self.new ≡ others_of self.old }
    {
        padded(behind(self.next()?, label)?)
    }

    /// Takes the next word, where it is this label with a number.
    fn number_behind(&mut self, label: &[u8]) -> Option<u32>
        ensures said { result ≡ first_says (spec.behind label.now number_at) self.old }
        ensures rest { IsSome result → self.new ≡ others_of self.old }
    {
        number(behind(self.next()?, label)?).ok()
    }

    /// Takes the next word, where it is this label with a signed number.
    fn integer_behind(&mut self, label: &[u8]) -> Option<i32>
        ensures said { result ≡ first_says (spec.behind label.now integer_at) self.old }
        ensures rest { IsSome result → self.new ≡ others_of self.old }
    {
        integer(behind(self.next()?, label)?).ok()
    }

    /// Takes the next word, where it is this label with the name of a function.
    fn function_behind(&mut self, label: &[u8]) -> Option<Function>
        ensures said { result ≡ first_says (spec.behind label.now spec.function_of) self.old }
        ensures rest { IsSome result → self.new ≡ others_of self.old }
    {
        function_of(behind(self.next()?, label)?)
    }
}

/// The words of an enter, as `trace-cmd report -R` writes them.
#[tactic(auto, unfolding(crate::specs::Payload::entered_raw))]
fn entered_raw(multi: bool, words: &mut Words<'_>) -> Option<Payload>
    ensures { result ≡ spec.entered_raw multi words.old }
{
    let cpu = words.padded_behind(b"cpu")?;
    let target = words.integer_behind(b"target")?;
    let step = words.number_behind(b"idx")?;
    let function = words.function_behind(b"fun")?;
    words.done(Payload::Entered {
        multi,
        cpu,
        target,
        step,
        function,
    })
}

/// The words of an exit, as `trace-cmd report -R` writes them.
#[tactic(auto, unfolding(crate::specs::Payload::left_raw))]
fn left_raw(words: &mut Words<'_>) -> Option<Payload>
    ensures { result ≡ spec.left_raw words.old }
{
    let cpu = words.padded_behind(b"cpu")?;
    let state = words.integer_behind(b"state")?;
    let step = words.number_behind(b"idx")?;
    let code = words.integer_behind(b"ret")?;
    words.done(Payload::Left {
        cpu,
        state,
        step,
        code,
    })
}

/// What the words say that stand behind an event's name.
#[tactic(auto, unfolding(crate::specs::Payload::payload_at))]
pub fn payload(name: Name, words: &mut Words<'_>) -> Option<Payload>
    ensures { result ≡ spec.payload_at name words.old }
{
    let is_own = words.ahead().exactly(b"cpu:").is_some();
    match (name, is_own) {
        (Name::Enter, true) => entered(false, words),
        (Name::Enter, false) => entered_raw(false, words),
        (Name::MultiEnter, true) => entered(true, words),
        (Name::MultiEnter, false) => entered_raw(true, words),
        (Name::Exit, true) => left(words),
        (Name::Exit, false) => left_raw(words),
    }
}
