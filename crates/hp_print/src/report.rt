//! The report of a journal: what its summary says, as JSON for other programs.

ghost use Rattle.std.specs.Prelude.{◌≡◌, ◌+◌, ◌<◌, ◌≤◌, false, [], ◌∷◌, ◌++◌, IfOk, OnOk, length, map};
ghost use Rattle.std.specs.Str.Lossy.{utf8_lossy};
ghost use Rattle.serde_json.specs.Data.{depth};
ghost use Rattle.serde_json.specs.Read.{max_depth};
ghost use Rattle.serde_json.specs.View.{view};
ghost use Rattle.serde_json.specs.Written.{has_float, compact_text};
ghost use Rattle.hp_model.specs.Heads.{IsHead};
ghost use Rattle.hp_model.specs.Lists.{numbers};
ghost use Rattle.hp_print.specs.Report.{array_of, whole, key_pair, cpu_object, sub_object, report, report_text};
ghost use Rattle.hp_print.specs.ReportLaws.{IsLineOf};
ghost use Rattle.hp_print.specs.TallyReport.{cpu_tallied, frozen_tallied, sub_tallied, subs_tallied, tallied};
ghost use Rattle.hp_print.specs.TallyText.{keys_of};

use crate::keys::KeyCount;
use crate::processor_tally::ProcessorTally;
use crate::state_tally::StateTally;
use crate::summary_lines::name_of;
use crate::tally::{Tally, tally_of};
use hp_event::{Head, Journal, Key};
use hp_states::{NoMemory, ONLINE, TEARDOWN_CPU};
use serde_json::{Value, json};
use std::alloc::{AllocError, Global};

/// A key: its state and its instance.
fn key_value(alloc: Global, key: Key) -> Result<Value, AllocError>
    ensures { IfOk result (λ v. view v ≡ key_pair key) }
{
    json!(in alloc; [key.state, key.inst])
}

/// The keys that count as in force.
fn keys_value(alloc: Global, counts: &[KeyCount]) -> Result<Value, AllocError>
    ensures { IfOk result (λ v. view v ≡ array_of key_pair (keys_of counts.now)) }
{
    let mut keys = Vec::new(alloc);
    for count in counts {
        if count.downs < count.ups {
            keys.push(key_value(alloc, count.key)?)?;
        }
    }
    Ok(Value::Array(keys))
}

/// Some numbers.
fn numbers_value(alloc: Global, numbers: &[u32]) -> Result<Value, AllocError>
    ensures { IfOk result (λ v. view v ≡ array_of whole numbers.now) }
{
    let mut values = Vec::new(alloc);
    for number in numbers {
        values.push(Value::from(*number))?;
    }
    Ok(Value::Array(values))
}

/// A processor.
fn cpu_value(
    alloc: Global,
    cpu: u32,
    present: bool,
    state: u32,
    counts: &[KeyCount],
) -> Result<Value, AllocError>
    ensures { IfOk result (λ v. view v ≡ cpu_object cpu present state (keys_of counts.now)) }
{
    json!(in alloc; {
        "cpu": cpu,
        "keys": keys_value(alloc, counts)?,
        "online": state >= TEARDOWN_CPU,
        "present": present,
        "state": state,
    })
}

/// A processor as it is tallied.
#[tactic(auto, unfolding(crate::specs::TallyReport::cpu_tallied))]
fn tallied_cpu_value(
    alloc: Global,
    head: &Head,
    processors: &ProcessorTally,
    cpu: u32,
) -> Result<Value, AllocError>
    requires possible { cpu < head.now.possible }
    requires settled { length processors.now.settled.items ≡ head.now.possible }
    requires keys { length processors.now.keys.items ≡ head.now.possible }
    ensures { IfOk result (λ v. view v ≡ cpu_tallied head.now processors.now cpu) }
{
    let at = cpu as usize;
    let present = head.is_present(cpu);
    let state = processors.settled[at];
    cpu_value(alloc, cpu, present, state, processors.keys[at].as_slice())
}

/// The possible processors, in rising number.
fn cpus_value(alloc: Global, head: &Head, processors: &ProcessorTally) -> Result<Value, AllocError>
    requires settled { length processors.now.settled.items ≡ head.now.possible }
    requires keys { length processors.now.keys.items ≡ head.now.possible }
    ensures { IfOk result (λ v. view v
        ≡ array_of (cpu_tallied head.now processors.now) (numbers head.now.possible)) }
{
    let mut cpus = Vec::new(alloc);
    for cpu in 0..head.possible {
        cpus.push(tallied_cpu_value(alloc, head, processors, cpu)?)?;
    }
    Ok(Value::Array(cpus))
}

/// The processors that are frozen, in rising number.
fn frozen_value(alloc: Global, frozen: &[u32], possible: u32) -> Result<Value, AllocError>
    ensures { IfOk result (λ v. view v ≡ array_of whole (frozen_tallied possible frozen.now)) }
{
    let mut cpus = Vec::new(alloc);
    for cpu in 0..possible {
        if frozen.contains(&cpu) {
            cpus.push(Value::from(cpu))?;
        }
    }
    Ok(Value::Array(cpus))
}

/// A state that is registered.
fn registered_value(
    alloc: Global,
    state: u32,
    name: &[u8],
    made: usize,
    faults: usize,
    insts: &[u32],
) -> Result<Value, AllocError>
    ensures { IfOk result (λ v. view v
        ≡ sub_object state (utf8_lossy name.now) made faults insts.now) }
{
    json!(in alloc; {
        "faults": faults,
        "instances": numbers_value(alloc, insts)?,
        "made": made,
        "name": String::from_utf8_lossy(alloc, name)?,
        "state": state,
    })
}

/// Pushes a state, where it is registered.
#[tactic(auto, unfolding(crate::specs::TallyReport::sub_tallied))]
fn push_state(
    alloc: Global,
    values: &mut Vec<Value>,
    head: &Head,
    states: &StateTally,
    state: u32,
) -> Result<(), AllocError>
    requires subs { state < length states.now.subs.items }
    requires insts { state < length states.now.insts.items }
    requires made { state < length states.now.made.items }
    requires faults { state < length states.now.faults.items }
    ensures { OnOk result (map view values.new.items
        ≡ map view values.old.items ++ sub_tallied head.now states.now state) }
{
    let at = state as usize;
    if let Some(sub) = states.subs[at] {
        values.push(registered_value(
            alloc,
            state,
            name_of(head, sub),
            states.made[at],
            states.faults[at],
            states.insts[at].as_slice(),
        )?)?;
    }
    Ok(())
}

/// The registered ones of the states below a number, in rising number.
#[tactic(auto, unfolding(crate::specs::TallyReport::subs_tallied))]
fn states_value(
    alloc: Global,
    head: &Head,
    states: &StateTally,
    many: u32,
) -> Result<Value, AllocError>
    requires subs { length states.now.subs.items ≡ many }
    requires insts { length states.now.insts.items ≡ many }
    requires made { length states.now.made.items ≡ many }
    requires faults { length states.now.faults.items ≡ many }
    ensures { IfOk result (λ v. view v ≡ subs_tallied head.now states.now many) }
{
    let mut values = Vec::new(alloc);
    for state in 0..many {
        push_state(alloc, &mut values, head, states, state)?;
    }
    Ok(Value::Array(values))
}

/// What a tally makes.
#[tactic(auto, unfolding(crate::specs::TallyReport::tallied))]
fn report_value(
    alloc: Global,
    head: &Head,
    tally: &Tally,
    count: usize,
) -> Result<Value, AllocError>
    requires settled { length tally.now.processors.settled.items ≡ head.now.possible }
    requires keys { length tally.now.processors.keys.items ≡ head.now.possible }
    requires subs { length tally.now.states.subs.items ≡ ONLINE + 1 }
    requires insts { length tally.now.states.insts.items ≡ ONLINE + 1 }
    requires made { length tally.now.states.made.items ≡ ONLINE + 1 }
    requires faults { length tally.now.states.faults.items ≡ ONLINE + 1 }
    ensures { IfOk result (λ v. view v ≡ tallied head.now tally.now count) }
{
    json!(in alloc; {
        "cpus": cpus_value(alloc, head, &tally.processors)?,
        "disabled": tally.suspended.disabled,
        "events": count,
        "frozen": frozen_value(alloc, tally.suspended.frozen.as_slice(), head.possible)?,
        "subs": states_value(alloc, head, &tally.states, ONLINE + 1)?,
    })
}

/// The text of a value, on a line of its own.
fn line_of(alloc: Global, value: &Value) -> Result<Vec<u8>, AllocError>
    ensures text { has_float (view value.now) ≡ false
        → IfOk result (λ v. v.items ≡ compact_text (view value.now) ++ 10 ∷ []) }
    ensures line { depth (view value.now) ≤ max_depth
        → IfOk result (λ v. IsLineOf (view value.now) v.items) }
{
    let mut text = value.to_vec(alloc)?;
    text.push(b'\n')?;
    Ok(text)
}

/// The report of a journal: one JSON value without spaces, and a newline. It says what the summary
/// says, but for how operations were answered, and of each processor whether it is online.
///
/// What it says is promised of a journal whose head is that of a lawful one, as a board's is; of
/// another head a name that is no text is mended. The journal may be in flight: the same holds as
/// of its summary. Goes over the events once. Takes memory for a tally of them, for the value and
/// for its text; where it is wanting the answer is `NoMemory`, and the journal is as before. The
/// form of the report is this project's own.
pub fn report_json(alloc: Global, journal: &Journal) -> Result<Vec<u8>, NoMemory>
    ensures text { IsHead journal.now.head
        → IfOk result (λ v. v.items ≡ report_text journal.now.head journal.now.events) }
    ensures line { IsHead journal.now.head
        → IfOk result (λ v. IsLineOf (report journal.now.head journal.now.events) v.items) }
{
    let tally = tally_of(alloc, journal.head(), journal.events())?;
    let value = report_value(alloc, journal.head(), &tally, journal.events().len())?;
    Ok(line_of(alloc, &value)?)
}
