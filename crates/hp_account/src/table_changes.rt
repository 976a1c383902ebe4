//! What registrations change in the table of states.

ghost use Rattle.std.specs.Prelude.{◌≡◌, ◌<◌, true, false, None, Some, IfSome, IsSome, OnOk, OnErr, is_some, option_map, slice_set, []};
ghost use Rattle.hp_event.specs.Heads.{sub_numbered};
ghost use Rattle.hp_states.specs.declared.limits.TheConstants.{OFFLINE, ONLINE};
ghost use Rattle.hp_model.specs.Events.{is_call, is_registration_op};
ghost use Rattle.hp_model.specs.Lawful.{Stands};
ghost use Rattle.hp_model.specs.Needs.{need};
ghost use Rattle.hp_model.specs.Registrations.{registration};
ghost use Rattle.hp_table.specs.Instances.{instances_at};
ghost use Rattle.hp_table.specs.Named.{is_named};
ghost use Rattle.hp_table.specs.Step.{step_at, bare, is_home, AllHome, HasCounted};
ghost use Rattle.hp_account.specs.TableChanges.{new_record, is_setup, takes_out, with_added, CanChange, without_left, taken_out, CanTakeOut, hands_out, is_registering, brings_hook, ChangesTable, IsTableWith, HandsHook, HandsAsItStood};
ghost use Rattle.hp_account.specs.Registering.{IsRegisteringOf};
ghost use Rattle.hp_account.specs.Table.{IsTableOf};

use crate::account::Account;
use hp_event::{Answer, Event, Head, Journal, Op, Sub};
use hp_hook::Hook;
use hp_states::NoMemory;
use hp_table::{Record, Table, TableError};

/// Changes the table as an event does that stands and is no entry: a registration that begins adds, and
/// one that ends leaves.
///
/// The account and the table are the journal's. The begin of a setup brings its hook, and no other registration
/// brings any. Where the end of one hands a hook out, that of a setup that answers a fault or of a state
/// that is removed, it is in `hook` then, as it stood in the table; otherwise there is none. Every other
/// event leaves `hook` as it is. Where a registration begins or ends no hook is lent. Takes memory where an
/// instance is added, which is at the begin of a registration; where that is wanting nothing has changed:
/// `NoMemory`. After `cpuhp_store_callbacks` of `kernel/cpu.c`.
pub fn change_table<H: Hook>(
    table: &mut Table<H>,
    journal: &Journal,
    account: &Account,
    event: &Event,
    hook: &mut Option<H>,
) -> Result<(), NoMemory>
    requires stands { Stands journal.now.head journal.now.events event.now }
    requires no_entry { is_call event.now ≡ false }
    requires account { IsRegisteringOf journal.now.head journal.now.events account.now.registration }
    requires table { IsTableOf journal.now.head journal.now.events table.old }
    requires brings { is_registering event.now ≡ true → is_some hook.old ≡ brings_hook event.now }
    requires home { is_registering event.now ≡ true → AllHome table.old }
    ensures changed { OnOk result (ChangesTable journal.now event.now table.old table.new) }
    ensures table { OnOk result (IsTableWith journal.now event.now table.new) }
    ensures hands { OnOk result (HandsHook journal.now.events event.now hook.new) }
    ensures hook { OnOk result (HandsAsItStood H.counts journal.now.events event.now table.old hook.new) }
    ensures left { OnOk result (is_registering event.now ≡ false → hook.new ≡ hook.old) }
    ensures err { OnErr result (table.new ≡ table.old) }
    ensures kept { OnErr result (hook.new ≡ hook.old) }
    ensures memory { OnErr result (IsSome (need journal.now.head journal.now.events event.now)) }
{
    match *event {
        Event::RegBegin { state, ref op, .. } => {
            table.sound();
            add_to_table(table, journal.head(), op, state, hook)
        }
        Event::RegEnd { answer, .. } => match in_flight(journal, account) {
            Some((op, state)) => {
                *hook = take_from_table(table, op, state, answer);
                Ok(())
            }
            None => unreachable!(),
        },
        _ => Ok(()),
    }
}

/// The registration of a journal in flight, if one is, as its account has it: its operation, and its state. Takes
/// no memory.
fn in_flight(_journal: &Journal, account: &Account) -> Option<(Op, u32)>
    requires { IsRegisteringOf _journal.now.head _journal.now.events account.now.registration }
    ensures there { result ≡ option_map (λ r. (r.op, r.state)) (registration _journal.now.events) }
    ensures op { IfSome result (λ found. is_registration_op found.0 ≡ true) }
{
    match &account.registration {
        Some(registration) => Some((registration.reg.op(), registration.reg.state())),
        None => None,
    }
}

/// Puts into the table what a registration adds as it begins: a setup's state with its hook, loaded
/// with the subsystem's plan, or an add's instance. A remove and a del add nothing.
///
/// The registration can be made (`CanChange`), and exactly a setup has a hook, which it takes. Only an
/// add takes memory; where that is wanting the table is as before. After `cpuhp_store_callbacks` of
/// `kernel/cpu.c`.
pub fn add_to_table<H: Hook>(
    table: &mut Table<H>,
    head: &Head,
    op: &Op,
    state: u32,
    hook: &mut Option<H>,
) -> Result<(), NoMemory>
    requires can { CanChange head.now op.now state table.old }
    requires hook { is_some hook.old ≡ is_setup op.now }
    ensures added { OnOk result (table.new ≡ with_added head.now op.now state table.old) }
    ensures taken { OnOk result (hook.new ≡ None) }
    ensures err { OnErr result (table.new ≡ table.old) }
    ensures kept { OnErr result (hook.new ≡ hook.old) }
{
    match (*op, hook.take()) {
        (Op::Setup { sub, .. }, Some(taken)) => match head.sub(sub) {
            Some(found) => set_up(table, state, sub, found, taken),
            None => unreachable!(),
        },
        (Op::Add { inst, .. }, None) => match table.add_instance(state, inst) {
            Ok(()) => {}
            Err(TableError::NoMemory) => return Err(NoMemory),
            Err(_) => unreachable!(),
        },
        (Op::Remove { .. } | Op::Del { .. }, None) => {}
        _ => unreachable!(),
    }
    Ok(())
}

/// Gives a free state its subsystem and its hook, loaded with the subsystem's plan.
fn set_up<H: Hook>(table: &mut Table<H>, state: u32, number: u32, sub: &Sub, mut hook: H)
    requires { (OFFLINE < state) × (state < ONLINE) × (is_named table.old state ≡ false) }
    ensures { table.new ≡ slice_set table.old state (Some (bare (new_record number sub.now))) }
{
    hook.load(sub.plan);
    let record = Record::new(number, sub.multi, sub.up, sub.down, hook);
    if table.install(state, record).is_err() {
        unreachable!();
    }
}

/// Takes out of the table what a registration doesn't leave there at its end: what a setup or an add
/// added where it answers a fault, and what a remove or a del takes away where it answers Ok.
///
/// What it has there can be taken out (`CanTakeOut`), and its hook is not lent. Answers the hook that leaves the table: that of
/// a setup that answers a fault, or of a state that is removed, as it stood in the table. Takes no
/// memory. After `__cpuhp_setup_state_cpuslocked` and `__cpuhp_remove_state_cpuslocked` of
/// `kernel/cpu.c`, which clear the state's callbacks there.
pub fn take_from_table<H: Hook>(
    table: &mut Table<H>,
    op: Op,
    state: u32,
    answer: Answer,
) -> Option<H>
    requires can { CanTakeOut op (step_at table.old state) }
    requires home { is_home (step_at table.old state) ≡ true }
    ensures left { table.new ≡ without_left op answer state table.old }
    ensures handed { is_some result ≡ hands_out op answer }
    ensures hook { IfSome result (λ h. HasCounted (H.counts h) (step_at table.old state)) }
{
    if !takes_out(op, answer) {
        return None;
    }
    match op {
        Op::Setup { .. } | Op::Remove { .. } => Some(take_hook(table, state)),
        Op::Add { inst, .. } | Op::Del { inst, .. } => {
            if table.remove_instance(state, inst).is_err() {
                unreachable!();
            }
            None
        }
        _ => unreachable!(),
    }
}

/// Takes a registered state without instances out of the table, and hands out its hook.
fn take_hook<H: Hook>(table: &mut Table<H>, state: u32) -> H
    requires registered { IsSome (step_at table.old state) }
    requires no_instances { instances_at table.old state ≡ [] }
    requires home { is_home (step_at table.old state) ≡ true }
    ensures gone { table.new ≡ slice_set table.old state None }
    ensures hook { HasCounted (H.counts result) (step_at table.old state) }
{
    match table.uninstall(state) {
        Ok(record) => record.into_hook(),
        Err(_) => unreachable!(),
    }
}

/// Whether what an operation has in the table leaves it at its end.
fn takes_out(op: Op, answer: Answer) -> bool
    ensures { result ≡ takes_out op answer }
{
    if op.is_adding() {
        !answer.is_ok()
    } else {
        answer.is_ok()
    }
}
