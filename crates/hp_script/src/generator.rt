//! The script that is generated of a seed and a size.

ghost use Rattle.std.specs.Prelude.{ℕ, ◌≡◌, ◌≤◌, ◌<◌, ◌++◌, OnOk, IfOk, decimal, map};
ghost use Rattle.hp_model.specs.Words.{line, kind_word};
ghost use Rattle.hp_model.specs.EventLine.{op_words};
ghost use Rattle.hp_states.specs.declared.limits.TheConstants.{MAX_GENERATED_SIZE};
ghost use Rattle.hp_script.specs.Generated.{rule_words, setup_lines, state_behind, state_behind_all, ops_drawn, sub_words, three_subs, heading, schedule_words, actor_words, setup_words, drawn_lines, actors, generated, numbered_line, instance_line, AppendsLines};
ghost use Rattle.hp_script.specs.GeneratedJudged.{TakesGenerated, LacksHooks};

use crate::drawn::{Drawn, draw_one};
use crate::draws::Draws;
use hp_states::NoMemory;
use itoa::Buffer;
use std::alloc::{AllocError, Global};

/// Appends some bytes, and a number behind them.
fn append_number(out: &mut Vec<u8>, front: &[u8], number: u64) -> Result<(), AllocError>
    ensures { OnOk result (out.new.items ≡ out.old.items ++ (front.now ++ decimal number)) }
{
    let mut buffer = Buffer::new();
    out.extend_from_slice(front)?;
    out.extend_from_slice(buffer.format(number).as_bytes())
}

/// Appends a line of which the last word ends with a number.
fn append_line(out: &mut Vec<u8>, front: &[u8], number: u32) -> Result<(), AllocError>
    ensures { OnOk result (out.new.items ≡ out.old.items ++ numbered_line front.now number) }
{
    append_number(out, front, number as u64)?;
    out.extend_from_slice(b"\n")
}

/// Appends a line of a word, a state and an instance.
fn append_instance(out: &mut Vec<u8>, front: &[u8], state: u32, inst: u32) -> Result<(), AllocError>
    ensures { OnOk result (out.new.items ≡ out.old.items ++ instance_line front.now state inst) }
{
    append_number(out, front, state as u64)?;
    append_line(out, b" ", inst)
}

/// Appends the lines of what is drawn.
fn append_drawn(out: &mut Vec<u8>, drawn: Drawn) -> Result<(), AllocError>
    ensures { OnOk result (AppendsLines out.old out.new (map op_words (ops_drawn drawn))) }
{
    match drawn {
        Drawn::Up(cpu) => append_line(out, b"up ", cpu),
        Drawn::Down(cpu) => append_line(out, b"down ", cpu),
        Drawn::Section => out.extend_from_slice(b"lock\nunlock\n"),
        Drawn::Add(state, inst) => append_instance(out, b"add ", state, inst),
        Drawn::Del(state, inst) => append_instance(out, b"del ", state, inst),
        Drawn::Show(cpu) => append_line(out, b"show state ", cpu),
    }
}

/// Appends what is drawn of this size.
fn append_all_drawn(out: &mut Vec<u8>, draws: &mut Draws, size: u32) -> Result<(), AllocError>
    ensures text { OnOk result (AppendsLines out.old out.new (drawn_lines size draws.old.state)) }
    ensures state { OnOk result (draws.new.state ≡ state_behind_all size draws.old.state) }
{
    for _ in 0..size {
        append_drawn(out, draw_one(draws))?;
    }
    Ok(())
}

/// The word that says whether states have instances.
fn kind_word(multi: bool) -> &'static [u8]
    ensures { result.now ≡ kind_word multi }
{
    if multi { b"multi" } else { b"single" }
}

/// Appends a subsystem.
#[tactic(auto, unfolding(crate::specs::Generated::sub_words))]
fn append_sub(out: &mut Vec<u8>, number: u32) -> Result<(), AllocError>
    ensures { OnOk result (out.new.items ≡ out.old.items ++ line (sub_words number)) }
{
    append_number(out, b"sub gen:", number as u64)?;
    out.extend_from_slice(b" both ")?;
    out.extend_from_slice(kind_word(number % 4 == 0))?;
    out.extend_from_slice(b"\n")
}

/// Appends a rule, by the number of the call that fails.
#[tactic(auto, unfolding(crate::specs::Generated::rule_words))]
fn append_rule(out: &mut Vec<u8>, nth: u32) -> Result<(), AllocError>
    ensures { OnOk result (out.new.items ≡ out.old.items ++ line (rule_words nth)) }
{
    append_number(out, b"rule up * * ", nth as u64)?;
    out.extend_from_slice(b" 5\n")
}

/// Appends three subsystems from this number on, and the rule of the third.
#[tactic(auto, unfolding(crate::specs::Generated::three_subs))]
fn append_three_subs(out: &mut Vec<u8>, draws: &mut Draws, number: u32) -> Result<(), AllocError>
    requires { number < 11 }
    ensures text { OnOk result (AppendsLines out.old out.new (three_subs number draws.old.state)) }
    ensures state { OnOk result (draws.new.state ≡ state_behind 1 draws.old.state) }
{
    append_sub(out, number)?;
    append_sub(out, number + 1)?;
    append_sub(out, number + 2)?;
    append_rule(out, 20 + draws.draw(20))
}

/// Appends the schedule.
#[tactic(auto, unfolding(crate::specs::Generated::schedule_words))]
fn append_schedule(out: &mut Vec<u8>, seed: u64) -> Result<(), AllocError>
    ensures { OnOk result (out.new.items ≡ out.old.items ++ line (schedule_words seed)) }
{
    out.extend_from_slice(b"schedule mix")?;
    append_number(out, b" ", seed)?;
    append_line(out, b" ", 10_000)
}

/// Appends the lines before the actors.
#[tactic(auto, unfolding(crate::specs::Generated::heading))]
fn append_heading(out: &mut Vec<u8>, draws: &mut Draws, seed: u64) -> Result<(), AllocError>
    requires { draws.old.state ≡ seed }
    ensures text { OnOk result (AppendsLines out.old out.new (heading seed)) }
    ensures state { OnOk result (draws.new.state ≡ state_behind 4 seed) }
{
    out.extend_from_slice(b"cpus 8\n")?;
    append_three_subs(out, draws, 1)?;
    append_three_subs(out, draws, 4)?;
    append_three_subs(out, draws, 7)?;
    append_three_subs(out, draws, 10)?;
    append_schedule(out, seed)
}

/// Appends the line that an actor begins with.
#[tactic(auto, unfolding(crate::specs::Generated::actor_words))]
fn append_actor(out: &mut Vec<u8>, number: u32) -> Result<(), AllocError>
    ensures { OnOk result (out.new.items ≡ out.old.items ++ line (actor_words number)) }
{
    append_line(out, b"actor g", number)
}

/// Appends a setup of a subsystem.
#[tactic(auto, unfolding(crate::specs::Generated::setup_words))]
fn append_setup(out: &mut Vec<u8>, state: u32, sub: u32) -> Result<(), AllocError>
    ensures { OnOk result (out.new.items ≡ out.old.items ++ line (setup_words state sub)) }
{
    append_instance(out, b"setup ", state, sub)
}

/// Appends the setups that the first actor begins with.
#[tactic(auto, unfolding(crate::specs::Generated::setup_lines))]
fn append_setups(out: &mut Vec<u8>) -> Result<(), AllocError>
    ensures { OnOk result (AppendsLines out.old out.new setup_lines) }
{
    append_setup(out, 10, 1)?;
    append_setup(out, 30, 2)?;
    append_setup(out, 41, 3)?;
    append_setup(out, 42, 4)?;
    append_setup(out, 70, 5)?;
    append_setup(out, 80, 6)?;
    append_setup(out, 110, 7)?;
    append_setup(out, 120, 8)?;
    append_setup(out, 141, 9)?;
    append_setup(out, 150, 10)?;
    append_setup(out, 160, 11)?;
    append_setup(out, 180, 12)
}

/// Appends six actors.
#[tactic(auto, unfolding(crate::specs::Generated::actors))]
fn append_actors(out: &mut Vec<u8>, draws: &mut Draws, size: u32) -> Result<(), AllocError>
    ensures { OnOk result (AppendsLines out.old out.new (actors size draws.old.state)) }
{
    append_actor(out, 1)?;
    append_setups(out)?;
    append_all_drawn(out, draws, size)?;
    for number in 2..7 {
        append_actor(out, number)?;
        append_all_drawn(out, draws, size)?;
    }
    Ok(())
}

/// The script that is generated of a seed and a size, for trying the machine.
///
/// The seed may be any, `size` is 1 to `MAX_GENERATED_SIZE`: how many operations are drawn for each
/// of the six actors. The answer is the script's bytes, of at most `MAX_SCRIPT_BYTES`, in one
/// buffer; they follow from the seed and the size alone. The script has twelve subsystems and twelve
/// setups, so it wants twelve hooks. Takes memory for the bytes; where there is none: `NoMemory`.
/// The form of the script is this project's own.
pub fn generate(alloc: Global, seed: u64, size: u32) -> Result<Vec<u8>, NoMemory>
    requires some { 1 ≤ size }
    requires few { size ≤ MAX_GENERATED_SIZE }
    ensures { IfOk result (λ text. text.items ≡ generated seed size) }
{
    let mut out = Vec::new(alloc);
    let mut draws = Draws::new(seed);
    append_heading(&mut out, &mut draws, seed)?;
    append_actors(&mut out, &mut draws, size)?;
    Ok(out)
}

/// The law that a rack of twelve hooks is enough for a generated script: none of its lines is
/// refused, nor its end.
///
/// It holds of any seed and each size of at most `MAX_GENERATED_SIZE`. The function does nothing,
/// and takes no memory.
pub fn generated_scripts_read()
    ensures { (hooks seed size : ℕ) → 12 ≤ hooks → TakesGenerated hooks seed size }
{}

/// The law that with fewer than twelve hooks a generated script is refused: at the line of the first
/// setup that finds none, behind the nineteen lines in front of the setups, there are too many.
///
/// It holds of any seed and each size of at most `MAX_GENERATED_SIZE`. The function does nothing,
/// and takes no memory.
pub fn generated_scripts_want_hooks()
    ensures { (hooks seed size : ℕ) → hooks < 12 → LacksHooks hooks seed size }
{}
