//! The calls of the lock.

ghost use Rattle.std.specs.Prelude.{◌≡◌, ◌+◌, ◌≤◌, ◌||◌, true, None, Some, IfOk, OnOk, OnErr, [], length};
ghost use mathlib.Core.List.{IsPrefix};
ghost use Rattle.hp_turn.specs.Asides.{seat_aside};
ghost use Rattle.hp_turn.specs.Story.{new_seat, longer};
ghost use Rattle.hp_turn.specs.Views.{held_of};
ghost use Rattle.hp_turn.specs.Pass.{Knew, IsSame, MayPutBack, without_right, given_by};
ghost use Rattle.hp_turn.specs.Passes.{IsPassOf, MayLock};

use crate::grown::Grown;
use crate::law::{Counts, Cut, Glue, Learns, Locks, Releases};
use crate::parts::{Busy, TurnLock};
use crate::pass::TurnPass;
use atomic_table::Table;
use crossbeam_utils::Backoff;
use hp_states::{MAX_EVENTS, NoMemory};
use std::alloc::Global;
use std::snapshot::Snapshot;
use std::sync::Wait;

impl<V: Grown + Drop> TurnLock<V> {
    /// A lock with this value, and its first pass, which has the right to admit and no seat. The
    /// pass has seen the value's story. Condition: the story has at most `MAX_EVENTS` events.
    ///
    /// Takes memory for the words and the slot; where there is none: `NoMemory`, and the value is
    /// dropped.
    pub fn new(alloc: Global, value: V) -> Result<(TurnLock<V>, TurnPass<V>), NoMemory>
        requires { length (V.story value) ≤ MAX_EVENTS }
        ensures given { IfOk result (λ r. MayLock r.0 r.1) }
        ensures head { IfOk result (λ r. r.1.head ≡ V.head value) }
        ensures front { IfOk result (λ r. r.1.front ≡ V.story value) }
        ensures seat { IfOk result (λ r. (r.1.seat ≡ None) × (r.1.admits ≡ true)) }
        ensures misses { IfOk result (λ r. r.1.misses ≡ 0) }
        ensures lent { IfOk result (λ r. (r.1.aside ≡ None) × (r.1.kept ≡ [])) }
    {
        let words = [0, value.length()];
        let first = Snapshot::of(&value);
        let mut slots = Vec::with_capacity(alloc, 1)?;
        slots.push(Some(value))?;
        let Ok((table, seat)) = Table::new(alloc, &words, slots, &first) else {
            return Err(NoMemory);
        };
        Ok((TurnLock { table }, TurnPass { seat, taken: 0 }))
    }

    /// Takes the lock as `lock` does, ends it, and answers the value. Condition: the lock gave the
    /// pass, which doesn't hold it. Waits while another pass holds it. Takes no memory.
    pub fn close<R: Wait>(self, rt: &R, mut pass: TurnPass<V>) -> V
        requires { MayLock self pass }
        ensures knew { (V.head result ≡ pass.head) × Knew pass (V.story result) }
        ensures lent { seat_aside pass.seat (V.aside result) ≡ pass.aside }
        ensures room { length (V.story result) ≤ MAX_EVENTS }
    {
        let value = self.lock(rt, &mut pass);
        drop(pass);
        drop(self);
        value
    }
}

impl<V: Grown> TurnLock<V> {
    /// Takes the lock if nobody holds it, by one compare exchange. Condition: the lock gave the
    /// pass, which doesn't hold it.
    ///
    /// The value that it answers has the pass's head, and the pass's front stands for its story: it
    /// begins it, with no event of the pass's seat past it and, where the pass may admit, no Admit.
    /// `Busy` exactly where the compare exchange found the lock held, which is where the pass's
    /// misses rose in this call, by one. Waits for nobody, and takes no memory.
    ///
    /// Where the pass or the value is dropped and not put back, the lock stays held for ever.
    pub fn try_lock(&self, pass: &mut TurnPass<V>) -> Result<V, Busy>
        requires { MayLock self.now pass.old }
        ensures same { IsSame pass.old pass.new }
        ensures took { IfOk result (λ value. pass.new.held ≡ Some (held_of (V.story value) (V.aside value))) }
        ensures head { IfOk result (λ value. V.head value ≡ pass.old.head) }
        ensures knew { IfOk result (λ value. Knew pass.old (V.story value)) }
        ensures lent { IfOk result (λ value. seat_aside pass.old.seat (V.aside value) ≡ pass.old.aside) }
        ensures room { IfOk result (λ value. length (V.story value) ≤ MAX_EVENTS) }
        ensures busy { OnErr result (pass.new.held ≡ None) }
        ensures kept { OnOk result (pass.new.misses ≡ pass.old.misses) }
        ensures missed { OnErr result (pass.new.misses ≡ pass.old.misses + 1) }
    {
        let shared = &self.table.shared;
        let found = shared.compare_exchange::<Locks<V>>(&mut pass.seat, 0, 0, 1);
        if found != 0 {
            return Err(Busy);
        }
        let Some(value) = shared.exchange(&mut pass.seat, 0, None) else {
            unreachable!()
        };
        pass.taken = value.length();
        Ok(value)
    }

    /// Takes the lock, and waits while another pass holds it. Condition: the lock gave the pass,
    /// which doesn't hold it.
    ///
    /// The value is as in `try_lock`. The misses rise with each try that found the lock held. Takes
    /// no memory. Nothing is said of who comes first, nor that the wait ends.
    pub fn lock<R: Wait>(&self, rt: &R, pass: &mut TurnPass<V>) -> V
        requires { MayLock self.now pass.old }
        ensures same { IsSame pass.old pass.new }
        ensures took { pass.new.held ≡ Some (held_of (V.story result) (V.aside result)) }
        ensures head { V.head result ≡ pass.old.head }
        ensures knew { Knew pass.old (V.story result) }
        ensures lent { seat_aside pass.old.seat (V.aside result) ≡ pass.old.aside }
        ensures room { length (V.story result) ≤ MAX_EVENTS }
        ensures misses { pass.old.misses ≤ pass.new.misses }
    {
        let backoff = Backoff::new();
        for _ in rt.forever() {
            match self.try_lock(pass) {
                Ok(value) => return value,
                Err(Busy) => backoff.snooze(),
            }
        }
        unreachable!()
    }

    /// Puts the value back, and ends the section. Condition: the lock gave the pass, which holds
    /// it; the value has the pass's head; and its story has the story that was taken as a
    /// beginning, with at most `MAX_EVENTS` events. What it has more is events of the pass's seat,
    /// none an Admit, or one Admit of a seat that isn't in the story, by a pass that may admit and
    /// has no seat: that seat is the pass's then. What is lent to other seats is as it was when the
    /// value was taken.
    ///
    /// The value's story is the pass's front afterwards, what is lent to the pass's seat is the pass's,
    /// and the pass keeps all the pairs of the value. Waits for nobody, and takes no memory.
    pub fn unlock(&self, pass: &mut TurnPass<V>, value: V)
        requires own { IsPassOf self.now pass.old }
        requires head { V.head value ≡ pass.old.head }
        requires story { MayPutBack pass.old (V.story value) (V.aside value) }
        requires room { length (V.story value) ≤ MAX_EVENTS }
        ensures head { pass.new.head ≡ pass.old.head }
        ensures front { pass.new.front ≡ V.story value }
        ensures seat { pass.new.seat ≡ new_seat pass.old.seat pass.old.held (V.story value) }
        ensures right { pass.new.admits ≡ pass.old.admits }
        ensures misses { pass.new.misses ≡ pass.old.misses }
        ensures aside { pass.new.aside ≡ seat_aside pass.new.seat (V.aside value) }
        ensures kept { pass.new.kept ≡ V.aside value }
        ensures freed { MayLock self.now pass.new }
    {
        let shared = &self.table.shared;
        let count = value.length();
        let nothing = shared.exchange(&mut pass.seat, 0, Some(value));
        let None = nothing else { unreachable!() };
        shared.fetch_add::<Counts<V>>(&mut pass.seat, 1, count - pass.taken);
        shared.swap::<Releases>(&mut pass.seat, 0, 0);
    }

    /// A new pass of the lock, which has seen what the given one has. It has no seat, nothing that is
    /// lent and no misses, and the right to admit goes over to it. Condition: the lock gave the pass, which
    /// doesn't hold it.
    ///
    /// Waits for nobody, and takes no memory.
    pub fn split(&self, pass: &mut TurnPass<V>) -> TurnPass<V>
        requires { MayLock self.now pass.old }
        ensures left { pass.new ≡ without_right pass.old }
        ensures given { result ≡ given_by pass.old }
    {
        TurnPass {
            seat: self.table.shared.split_seat::<Cut>(&mut pass.seat),
            taken: 0,
        }
    }

    /// Takes the other pass in, which ends. The pass's front is the longer of both, which both
    /// begin. Past its own front as given it has no event of the pass's seat and, where the pass
    /// may admit, no Admit. The right to admit comes over. Both passes have one head, that of the
    /// value. Condition: the lock gave both passes, neither holds it, and nothing is lent to the other.
    ///
    /// Waits for nobody, and takes no memory.
    pub fn join(&self, pass: &mut TurnPass<V>, other: TurnPass<V>)
        requires own { MayLock self.now pass.old }
        requires other { MayLock self.now other }
        requires nothing { other.aside ≡ None }
        ensures head { pass.new.head ≡ pass.old.head }
        ensures one_head { other.head ≡ pass.old.head }
        ensures front { pass.new.front ≡ longer pass.old.front other.front }
        ensures whole { IsPrefix other.front pass.new.front }
        ensures knew { Knew pass.old pass.new.front }
        ensures seat { pass.new.seat ≡ pass.old.seat }
        ensures right { pass.new.admits ≡ (pass.old.admits || other.admits) }
        ensures misses { pass.new.misses ≡ pass.old.misses }
        ensures lent { (pass.new.aside ≡ pass.old.aside) × (pass.new.kept ≡ pass.old.kept) }
        ensures freed { MayLock self.now pass.new }
    {
        let shared = &self.table.shared;
        let TurnPass { seat, taken: _ } = other;
        shared.join_seat::<Glue>(&mut pass.seat, seat);
        shared.load::<Learns>(&mut pass.seat, 0);
    }
}
