//! The operation that words say.

ghost use Rattle.std.specs.Prelude.{◌≡◌, Ok, IfOk};
ghost use Rattle.hp_event.specs.declared.op.Op.{Op};
ghost use Rattle.hp_model.specs.EventLine.{op_words};
ghost use Rattle.hp_text.specs.Fits.{IsSayable};
ghost use Rattle.hp_text.specs.OpAt.{shown_tail, show_tail, op_tail, op_at};

use crate::first_word::{OpWord, file_of, op_word};
use crate::set::set;
use crate::tails::{
    done, integer_alone, number_alone, number_and_form, number_and_integer, numbers_and_form,
};
use crate::unread::Unread;
use crate::words::Words;
use hp_event::{File, Op};

/// The words behind the name of a file that is shown.
fn shown<'a, W: Words<'a>>(file: Option<File>, words: &mut W) -> Result<Op, Unread>
    ensures { result ≡ shown_tail file (W.left words.old) }
{
    match file {
        None => Err(Unread::NotOfForm),
        Some(File::State) => Ok(Op::ShowState(number_alone(words)?)),
        Some(File::Target) => Ok(Op::ShowTarget(number_alone(words)?)),
        Some(File::Fail) => Ok(Op::ShowFail(number_alone(words)?)),
        Some(File::States) => done(words, Op::ShowStates),
    }
}

/// The words behind `show`.
fn show<'a, W: Words<'a>>(words: &mut W) -> Result<Op, Unread>
    ensures { result ≡ show_tail (W.left words.old) }
{
    let Some(name) = words.next_word() else {
        return Err(Unread::NotOfForm);
    };
    shown(file_of(name), words)
}

/// The operation that the words say which are left behind its first word.
///
/// - `NotOfForm` where they are the words of no operation with that first word.
/// - `OutOfRange` where they are, and a number is out of its type's range, or the processors of an
///   upmany don't rise or aren't below 256.
///
/// There is no condition. Takes no memory. The forms are this project's own.
#[tactic(auto, unfolding(crate::specs::OpAt::op_tail))]
pub fn read_op_behind<'a, W: Words<'a>>(first: OpWord, words: &mut W) -> Result<Op, Unread>
    ensures { result ≡ op_tail first (W.left words.old) }
{
    match first {
        OpWord::Up => Ok(Op::Up(number_alone(words)?)),
        OpWord::Down => Ok(Op::Down(number_alone(words)?)),
        OpWord::Target => {
            let (cpu, value) = number_and_integer(words)?;
            Ok(Op::Target(cpu, value))
        }
        OpWord::Fail => {
            let (cpu, value) = number_and_integer(words)?;
            Ok(Op::Arm(cpu, value))
        }
        OpWord::Show => show(words),
        OpWord::Setup => {
            let (state, (sub, form)) = numbers_and_form(words)?;
            Ok(Op::Setup { state, sub, form })
        }
        OpWord::Remove => {
            let (state, form) = number_and_form(words)?;
            Ok(Op::Remove { state, form })
        }
        OpWord::Add => {
            let (state, (inst, form)) = numbers_and_form(words)?;
            Ok(Op::Add { state, inst, form })
        }
        OpWord::Del => {
            let (state, (inst, form)) = numbers_and_form(words)?;
            Ok(Op::Del { state, inst, form })
        }
        OpWord::Lock => done(words, Op::Lock),
        OpWord::Unlock => done(words, Op::Unlock),
        OpWord::Boot => Ok(Op::Boot(number_alone(words)?)),
        OpWord::Disable => done(words, Op::Disable),
        OpWord::Enable => done(words, Op::Enable),
        OpWord::Freeze => Ok(Op::Freeze(integer_alone(words)?)),
        OpWord::Thaw => done(words, Op::Thaw),
        OpWord::Wakeup => done(words, Op::Wakeup),
        OpWord::UpMany => Ok(Op::UpMany(set(words)?)),
    }
}

/// The words of an operation.
#[tactic(auto, unfolding(crate::specs::OpAt::op_at))]
fn any_op<'a, W: Words<'a>>(words: &mut W) -> Result<Op, Unread>
    ensures { result ≡ op_at (W.left words.old) }
{
    let Some(word) = words.next_word() else {
        return Err(Unread::NotOfForm);
    };
    match op_word(word) {
        Some(first) => read_op_behind(first, words),
        None => Err(Unread::NotOfForm),
    }
}

/// The operation that the words say which are left.
///
/// - `NotOfForm` where they are the words of no operation.
/// - `OutOfRange` where they are, and a number is out of its type's range, or the processors of an
///   upmany don't rise or aren't below 256.
///
/// There is no condition. Takes no memory. The forms are this project's own.
#[tactic(auto, using(crate::proofs::OpLaws::op_spelled))]
pub fn read_op<'a, W: Words<'a>>(words: &mut W) -> Result<Op, Unread>
    ensures said { result ≡ op_at (W.left words.old) }
    // Words that are read are the spelling of their operation, and the spelling of one is read.
    ensures spelled { IfOk result (λ op. W.left words.old ≡ op_words op) }
    ensures read { (op : Op) → IsSayable op → W.left words.old ≡ op_words op → result ≡ Ok op }
{
    any_op(words)
}
