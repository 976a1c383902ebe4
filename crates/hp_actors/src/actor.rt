//! An actor of a script: its operations with their hooks, how many are answered, and how long it waits.

ghost use Rattle.std.specs.Prelude.{◌≡◌, ◌++◌, ◌∷◌, [], ◌<◌, ◌≤◌, ◌↔◌, is_some, option_to_list, IsTrue, None, Some, IfOk, IfSome, IfNone, OnOk, length, slice_get, true};
ghost use Rattle.std.specs.Borrow.{sem};
ghost use Rattle.std.specs.List.{flat_map};
ghost use Rattle.hp_account.specs.TableChanges.{is_setup};
ghost use Rattle.hp_script.specs.Playable.{setups_in};
ghost use Rattle.hp_actors.specs.Actors.{AreDealt, AreLoaded, IsAgenda, agenda_at, noted, own_hooks, wait_at, wait_for};
ghost use Rattle.hp_actors.specs.Lending.{lends_ask};
ghost use Rattle.hp_actors.specs.Positions.{ops_of};

use hp_board::{Ask, Turn};
use hp_event::Op;
use hp_hook::{Hook, Rack};
use hp_locks::Why;
use hp_states::NoMemory;
use std::alloc::Global;
use std::marker::Model;

/// How long turns of an actor's seat make nothing, by what the last of them found. What other seats do in the
/// meantime neither refuses its operation nor puts anything of it in flight. This project's own.
#[derive(Clone, Copy)]
pub enum Waits {
    /// The next may make something.
    Unknown,
    /// As long as the map lock is held: its operation waits for that.
    WhileMapHeld,
    /// Until another operation, walk or registration ends than the last, with which there were so many events:
    /// its operation waits for another lock.
    UntilEnd(u32),
    /// For ever: each of its operations is answered.
    Forever,
}

/// An actor of a script: its operations in their order, each with the hook that it has, and how many of them are
/// answered.
///
/// It owns no machine. Who has one takes the operation that comes next (`ask`), makes a turn of the actor's seat
/// for it, and tells the actor what that did (`note`); and where turns make nothing, for how long (`wait`).
///
/// Contracts see it as an `Agenda`, of which `IsAgenda` is always so: each setup behind the operation that comes
/// next has its hook, and no other operation there has one. What the hook of that operation is, the machine says.
/// Actors are this project's own.
#[derive(Drop)]
pub struct Actor<H> {
    asks: Vec<Ask<H>>,
    answered: usize,
    waits: Waits,
}

impl<H> Model for Actor<H> {
    ghost use Rattle.hp_actors.specs.Actors.{Agenda, IsAgenda, agenda};

    ghost Value = { Agenda H };

    ghost view = { λ a. agenda a.asks.items a.answered a.waits };

    ghost invariant = { λ a. IsAgenda (agenda a.asks.items a.answered a.waits) };
}

impl<H: Hook> Actor<H> {
    /// An actor of some operations, of which none is answered. Each of its setups takes the rack's last hook, and no
    /// other operation has one.
    ///
    /// The rack has at least as many hooks as there are setups. Takes memory for the operations; where that is
    /// wanting some hooks of the rack are lost: `NoMemory`. This project's own.
    pub fn new(alloc: Global, ops: &[Op], rack: &mut Rack<H>) -> Result<Actor<H>, NoMemory>
        requires { setups_in ops.now ≤ length rack.old.hooks.items }
        ensures ops { IfOk result (λ actor. ops_of actor ≡ ops.now) }
        ensures loaded { IfOk result (λ actor. AreLoaded actor.asks) }
        ensures dealt { IfOk result (λ actor. AreDealt rack.old.hooks.items rack.new.hooks.items actor.asks) }
        ensures fresh { IfOk result (λ actor. actor ≡ agenda_at actor.asks 0) }
    {
        let mut asks = Vec::new(alloc);
        for op in ops {
            let hook = hook_for(op, rack);
            asks.push(Ask { op: *op, hook })?;
        }
        let waits = first_wait(0, asks.len());
        Ok(Actor {
            asks,
            answered: 0,
            waits,
        })
    }

    /// What is so of every actor at any time. Does nothing, and takes no memory. This project's own.
    pub fn sound(&self)
        ensures { IsAgenda self.now }
    {
        let _ = &self.answered;
    }

    /// Whether each of its operations is answered. Takes no memory. This project's own.
    pub fn is_done(&self) -> bool
        ensures { IsTrue result ↔ (slice_get self.now.asks self.now.answered ≡ None) }
    {
        self.answered >= self.asks.len()
    }

    /// How long turns of its seat make nothing, as `wait` was told since the last turn: `Forever` exactly where each
    /// of its operations is answered. Takes no memory. This project's own.
    pub fn waits(&self) -> Waits
        ensures { result ≡ self.now.waits }
    {
        self.waits
    }

    /// The operation that comes next, with the hook that it has, for a turn of the machine: the first that isn't
    /// answered, and none where each is.
    ///
    /// The turn may take the hook, and put another in its place: so it stays with the operation. All else is as it
    /// was. Takes no memory. This project's own.
    pub fn ask(&mut self) -> Option<&mut Ask<H>>
        ensures* lends { sem 𝓛 (lends_ask H.row self.entry result) }
        ensures some { IfSome result (λ ask. slice_get self.old.asks self.old.answered ≡ Some ask.now) }
        ensures none { IfNone result (slice_get self.old.asks self.old.answered ≡ None) }
    {
        self.asks.get_mut(self.answered)
    }

    /// Notes what a turn of the machine did for the operation that comes next: where it is answered, the one behind
    /// it comes next. Nothing is known of waiting then, but that an actor with no operation left waits for ever.
    ///
    /// There is such an operation. Takes no memory. This project's own.
    pub fn note(&mut self, turn: Turn)
        requires { self.old.answered < length self.old.asks }
        ensures { self.new ≡ noted self.old turn }
    {
        if let Turn::Answered { .. } = turn {
            self.answered += 1;
        }
        self.waits = first_wait(self.answered, self.asks.len());
    }

    /// Notes how long turns make nothing, by what the operation that comes next waits for to begin: while the map
    /// lock is held, or until something ends. With the last end of an operation, a walk or a registration there were
    /// so many events.
    ///
    /// There is such an operation. Takes no memory. This project's own.
    pub fn wait(&mut self, why: Why, last_end: u32)
        requires { self.old.answered < length self.old.asks }
        ensures { self.new ≡ record self.old { waits = wait_for why last_end } }
    {
        self.waits = match why {
            Why::MapsHeld(_) => Waits::WhileMapHeld,
            _ => Waits::UntilEnd(last_end),
        };
    }

    /// Gives the actor up: the hooks that its operations have go behind those of the rack, in the order of the
    /// operations.
    ///
    /// Takes memory for places in the rack; where that is wanting, some hooks are lost: `NoMemory`. This project's
    /// own.
    pub fn give_back(self, rack: &mut Rack<H>) -> Result<(), NoMemory>
        ensures { OnOk result (rack.new.hooks.items ≡ rack.old.hooks.items ++ own_hooks self.asks) }
    {
        let Actor { asks, .. } = self;
        give_asks(asks, rack)
    }
}

/// How long turns make nothing, before the operation that comes next is asked for. Takes no memory.
fn first_wait(answered: usize, count: usize) -> Waits
    ensures { result ≡ wait_at answered count }
{
    if answered < count {
        Waits::Unknown
    } else {
        Waits::Forever
    }
}

/// The hook of an operation: a setup takes the rack's last. Takes no memory.
fn hook_for<H>(op: &Op, rack: &mut Rack<H>) -> Option<H>
    requires { is_setup op.now ≡ true → 0 < length rack.old.hooks.items }
    ensures setup { is_some result ≡ is_setup op.now }
    ensures last { IfSome result (λ hook. rack.old.hooks.items ≡ rack.new.hooks.items ++ hook ∷ []) }
    ensures none { IfNone result (rack.old.hooks.items ≡ rack.new.hooks.items) }
{
    match op {
        Op::Setup { .. } => rack.hooks.pop(),
        _ => None,
    }
}

/// Puts the hooks of operations behind those of the rack.
fn give_asks<H: Hook>(asks: Vec<Ask<H>>, rack: &mut Rack<H>) -> Result<(), NoMemory>
    ensures { OnOk result (rack.new.hooks.items ≡ rack.old.hooks.items ++ own_hooks asks.items) }
{
    for ask in asks {
        give_hook(ask.hook, rack)?;
    }
    Ok(())
}

/// Puts a hook, if there is one, behind those of the rack.
fn give_hook<H: Hook>(hook: Option<H>, rack: &mut Rack<H>) -> Result<(), NoMemory>
    ensures { OnOk result (rack.new.hooks.items ≡ rack.old.hooks.items ++ option_to_list hook) }
{
    if let Some(hook) = hook {
        rack.hooks.push(hook)?;
    }
    Ok(())
}
