//! The law that the numbers that the code holds are within their types.
//!
//! A definition says of the numbers of an operation only that they are numbers. Of one that the
//! code holds more is known, and these functions say it: they look at each number and do nothing.

ghost use Rattle.std.specs.Prelude.{ℤ};
ghost use Rattle.hp_text.specs.Fits.{IsU32, IsI32, OpFits};

use hp_event::Op;
use hp_model::set_is_of_its_numbers;

/// A number of the type `u32` is within it. Takes no memory. This project's own.
pub fn number_fits(_number: u32)
    ensures { IsU32 _number }
{}

/// A number of the type `i32` is within it. Takes no memory. This project's own.
pub fn integer_fits(_number: i32)
    ensures { IsI32 _number }
{}

/// Each number of an operation is within the range of its field. Takes no memory. This project's
/// own.
pub fn op_fits(op: Op)
    ensures { OpFits op }
{
    match op {
        Op::Up(cpu)
        | Op::Down(cpu)
        | Op::ShowState(cpu)
        | Op::ShowTarget(cpu)
        | Op::ShowFail(cpu)
        | Op::Boot(cpu) => number_fits(cpu),
        Op::Target(cpu, value) => {
            number_fits(cpu);
            integer_fits(value)
        }
        Op::Arm(cpu, value) => {
            number_fits(cpu);
            integer_fits(value)
        }
        Op::Setup { state, sub, .. } => {
            number_fits(state);
            number_fits(sub)
        }
        Op::Remove { state, .. } => number_fits(state),
        Op::Add { state, inst, .. } | Op::Del { state, inst, .. } => {
            number_fits(state);
            number_fits(inst)
        }
        Op::Freeze(primary) => integer_fits(primary),
        Op::UpMany(set) => set_is_of_its_numbers(set),
        Op::ShowStates | Op::Lock | Op::Unlock | Op::Disable | Op::Enable | Op::Thaw | Op::Wakeup =>
            {}
    }
}
