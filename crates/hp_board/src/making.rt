//! The making of an event on the machine, which the called set follows.

ghost use Rattle.std.specs.Prelude.{◌≡◌, false, OnOk, OnErr, IsSome};
ghost use Rattle.hp_account.specs.TableChanges.{is_registering, HandsHook, HandsAsItStood};
ghost use Rattle.hp_account.specs.declared.under_way.MadeBy.TheVariants.{Hook as ByHook};
ghost use Rattle.hp_called.specs.Called.{IsCalled};
ghost use Rattle.hp_machine.specs.Contents.{Contents, with_event};
ghost use Rattle.hp_machine.specs.Lent.{step_of, HasHook, HasCountedCall, IsAnswered, IsTaken, lending};
ghost use Rattle.hp_machine.specs.StandsNext.{CanMake, CanMakeEntry, room_of, CanTouchHooks, BringsHook, with_entry};
ghost use Rattle.hp_model.specs.Events.{is_call};
ghost use Rattle.hp_model.specs.Needs.{need as need_of};
ghost use Rattle.hp_table.specs.Step.{is_home};

use hp_account::Entry;
use hp_called::Called;
use hp_event::Event;
use hp_hook::Hook;
use hp_machine::Machine;
use hp_states::NoMemory;

/// Makes an event that stands and is no entry, as `Machine::make` does, and the called set follows it.
///
/// Room for the row of a key that is added is made before anything is changed. Takes memory where the event takes room;
/// where that is wanting nothing has changed: `NoMemory`.
#[inline(always)]
pub(crate) fn make<H: Hook>(
    machine: &mut Machine<H>,
    called: &mut Called,
    event: &Event,
    need: u32,
    hook: &mut Option<H>,
) -> Result<(), NoMemory>
    requires called { IsCalled machine.old.head machine.old.events called.old }
    requires stands { CanMake machine.old event.now }
    requires no_entry { is_call event.now ≡ false }
    requires need { need ≡ room_of machine.old event.now }
    requires brings { BringsHook event.now hook.old }
    requires home { CanTouchHooks event.now machine.old.places }
    ensures called { IsCalled machine.new.head machine.new.events called.new }
    ensures made { OnOk result (machine.new ≡ with_event machine.old event.now) }
    ensures hands { OnOk result (HandsHook machine.old.events event.now hook.new) }
    ensures hook { OnOk result (HandsAsItStood H.counts machine.old.events event.now machine.old.places hook.new) }
    ensures left { OnOk result (is_registering event.now ≡ false → hook.new ≡ hook.old) }
    ensures err { OnErr result ((machine.new ≡ machine.old) × (hook.new ≡ hook.old)) }
    ensures memory { OnErr result (IsSome (need_of machine.old.head machine.old.events event.now)) }
{
    machine.sound();
    called.make_room(machine.journal().head(), event)?;
    machine.make(event, need, hook)?;
    called.follow(machine.journal().head(), event);
    Ok(())
}

/// Makes an entry that is due, as `Machine::make_entry` does, and the called set follows it. Takes no memory.
pub(crate) fn make_entry<H: Hook>(machine: &mut Machine<H>, called: &mut Called, entry: &Entry)
    requires called { IsCalled machine.old.head machine.old.events called.old }
    requires stands { CanMakeEntry machine.old entry.now }
    requires home { HasHook machine.old entry.now }
    ensures called { IsCalled machine.new.head machine.new.events called.new }
    ensures made { machine.new ≡ with_entry machine.old entry.now }
{
    machine.sound();
    let at = machine.journal().len();
    machine.make_entry(entry);
    let journal = machine.journal();
    called.follow(journal.head(), journal.get(at));
}

/// Makes an entry by the answer of its hook, which was lent and has come back, as `Machine::make_answered` does, and the
/// called set follows it. Takes no memory.
pub(crate) fn make_answered<H: Hook>(
    machine: &mut Machine<H>,
    called: &mut Called,
    entry: &Entry,
    hook: H,
    answer: u32,
)
    requires called { IsCalled machine.old.head machine.old.events called.old }
    requires stands { CanMakeEntry machine.old entry.now }
    requires by_hook { entry.now.made_by ≡ ByHook }
    requires lent { is_home (step_of machine.old entry.now) ≡ false }
    requires back { HasCountedCall (H.counts hook) machine.old entry.now }
    requires answer { IsAnswered answer machine.old entry.now }
    ensures called { IsCalled machine.new.head machine.new.events called.new }
    ensures made { machine.new ≡ with_entry (lending machine.old machine.new.lent) entry.now }
    ensures taken { IsTaken entry.now.cpu machine.old.lent machine.new.lent }
{
    machine.sound();
    let at = machine.journal().len();
    machine.make_answered(entry, hook, answer);
    let journal = machine.journal();
    called.follow(journal.head(), journal.get(at));
}
