//! Tries: each is one try of the lock, and waits for nobody.

ghost use Rattle.std.specs.Prelude.{◌≡◌, ◌≢◌, ◌↔◌, ℕ, true, false, None, Some, Ok, is_some, Option, IfOk, IfErr, IfSome, IfNone, OnOk, OnErr};
ghost use Rattle.hp_account.specs.TableChanges.{hands_out};
ghost use Rattle.hp_board.specs.Loans.{CallsAway, CanLendTo};
ghost use Rattle.hp_board.specs.Turns.{IsNotYet};
ghost use Rattle.hp_board.specs.declared.turn.Turn.TheVariants.{Made, Answered as AnAnswered};
ghost use Rattle.hp_event.specs.declared.op.Op.TheVariants.{Lock};
ghost use Rattle.hp_event.specs.declared.answer.Answer.{Answer as AnAnswer};
ghost use Rattle.hp_live.specs.declared.tried.Tried.TheVariants.{Turned as ATurn};
ghost use Rattle.hp_live.specs.HeldSteps.{ServiceTried, StepTried, seated};
ghost use Rattle.hp_live.specs.Known.{IsOf, IsSamePass, IsStill};
ghost use Rattle.hp_live.specs.Lending.{lent_pairs};
ghost use Rattle.hp_live.specs.Runs.{ComesBack};
ghost use Rattle.hp_live.specs.Sections.{CanAsk};
ghost use Rattle.hp_live.specs.Tries.{BackTried, CallsLent, GaveBack, IsNotYetBy, ServeTried, TurnTried, WantedOnce, is_answered, lends_over, missed};
ghost use Rattle.hp_locks.specs.declared.why.Why.{Why as AWhy};
ghost use Rattle.hp_machine.specs.StandsNext.{due_of};
ghost use Rattle.hp_model.specs.Seats.{is_busy};

use crate::ap_pass::ApPass;
use crate::gate::Gate;
use crate::hotplug::Hotplug;
use crate::pass::Pass;
use crate::seat::Seat;
use crate::sight::Sight;
use crate::step::{Step, keep};
use crate::tried::Tried;
use hp_board::{Ask, Back, Board, Turn};
use hp_event::Op;
use hp_hook::Hook;
use hp_states::NoMemory;

impl<H: Hook + Send> Hotplug<H> {
    /// One try of a client's seat for an operation: one lock section, if no other pass holds the lock.
    ///
    /// Conditions: this machine gave the pass; the operation isn't a lock; and the ask meets the conditions of
    /// `Board::turn` by the pass's front. An unlock is refused 1.
    /// - `Busy` exactly where another pass held the lock: the pass's misses have risen, by one, and all else of the
    ///   pass and the ask is as before.
    /// - `Turned` with `Made`, where the pass carried a hook: it came home, and the entry that it was lent for was
    ///   made by its answer. The try does no more then.
    /// - `Lent` exactly where the pass carried none and `Board::lend` answers one: the hook of this state was lent for
    ///   the entry that is due from the seat, and called after the section. No event was made, and the pass carries
    ///   the hook with its answer; the next try gives it back.
    /// - `Turned` otherwise, with what `Board::turn` answers: the event that comes next of the operation was made, or
    ///   what it waits for, or that it has no room.
    /// - `NoMemory` where memory was wanting for a first event or for the begin of a walk. Nothing was made.
    ///
    /// That is so of the journal that the section found: the pass's new front without the event that this made of
    /// it; and of what was lent then: the pairs that the pass keeps, without the one that this added. Past the front
    /// given the new one has of the seat no event but this. After `Busy`, `Lent`, `NotYet` and `NoMemory` the ask is as
    /// before, its hook in it. While the operation isn't answered the same ask may be tried again; which hook comes back
    /// with its answer is as of `run`.
    ///
    /// The gate is called before the try; after `Busy` with the same number again. Where an event was made those who
    /// sleep wake up. Waits for nobody. After the calls of `kernel/cpu.c` and `mutex_trylock`; that there are
    /// tries is this project's own.
    pub fn try_turn<G: Gate>(
        &self,
        gate: &G,
        pass: &mut Pass<H>,
        ask: &mut Ask<H>,
    ) -> Result<Tried, NoMemory>
        requires own { IsOf self.now pass.old.lock }
        requires op { ask.old.op ≢ Lock }
        requires asked { CanAsk pass.old.head pass.old.front pass.old.seat ask.old.op (is_some ask.old.hook) }
        ensures same { IsSamePass pass.old pass.new }
        ensures tried { IfOk result (TurnTried H.counts pass.old pass.new ask.old ask.new) }
        ensures wanted { OnErr result (WantedOnce pass.old pass.new ask.old) }
        ensures as_before { OnErr result (ask.new ≡ ask.old) }
        ensures op { ask.new.op ≡ ask.old.op }
        ensures again { is_answered result ≡ false →
            CanAsk pass.new.head pass.new.front pass.new.seat ask.new.op (is_some ask.new.hook) }
        ensures idle { is_answered result ≡ true → is_busy pass.new.seat pass.new.front ≡ false }
        ensures hook { (at : Option ℕ) (answer : AnAnswer) → result ≡ Ok (ATurn (AnAnswered at answer)) →
            is_some ask.new.hook ≡ hands_out ask.old.op answer }
        ensures back { (at : Option ℕ) (answer : AnAnswer) → result ≡ Ok (ATurn (AnAnswered at answer)) →
            ComesBack H.counts pass.old.head pass.old.seat ask.old.op pass.old.front pass.new.front
            ask.old.hook ask.new.hook answer }
    {
        self.try_step(gate, &mut pass.own, ask)
    }

    /// One try of a thread's seat: one lock section, if no other pass holds the lock.
    ///
    /// Condition: this machine gave the pass.
    /// - `Busy` exactly where another pass held the lock: the pass's misses have risen, by one, and all else of the
    ///   pass is as before.
    /// - `Turned` with `Made`, where the pass carried a hook: it came home, and the entry that it was lent for was
    ///   made by its answer. The try does no more then.
    /// - `Lent` exactly where the pass carried none and `Board::lend` answers one: the hook of this state was lent for
    ///   the entry that is due from the seat, and called after the section. No event was made, and the pass carries
    ///   the hook with its answer; the next try gives it back.
    /// - `Turned` otherwise, with what `Board::serve` answers: the entry that is due from the seat was made, or none
    ///   is due, or it calls a hook that is lent to another seat.
    ///
    /// That is so of the journal and of what was lent as for `try_turn`, and the gate is called and those who sleep
    /// wake up likewise. Waits for nobody, and takes no memory. After `cpuhp_thread_fun` of `kernel/cpu.c` and
    /// `mutex_trylock`; that there are tries is this project's own.
    pub fn try_serve<G: Gate>(&self, gate: &G, ap: &mut ApPass<H>) -> Tried
        requires { IsOf self.now ap.old.lock }
        ensures same { IsSamePass ap.old ap.new }
        ensures tried { ServeTried ap.old ap.new result }
    {
        self.try_entry(gate, &mut ap.own)
    }

    /// One try of a client's seat: the hook that it carries comes home, or one is lent and then called, or a
    /// turn is taken.
    fn try_step<G: Gate>(
        &self,
        gate: &G,
        own: &mut Seat<H>,
        ask: &mut Ask<H>,
    ) -> Result<Tried, NoMemory>
        requires own { IsOf self.now own.old.lock }
        requires asked { CanAsk own.old.head own.old.front own.old.seat ask.old.op (is_some ask.old.hook) }
        ensures same { IsSamePass own.old own.new }
        ensures tried { IfOk result (TurnTried H.counts own.old own.new ask.old ask.new) }
        ensures wanted { OnErr result (WantedOnce own.old own.new ask.old) }
        ensures as_before { OnErr result (ask.new ≡ ask.old) }
        ensures op { ask.new.op ≡ ask.old.op }
    {
        gate.pass(own.number, own.sections, false);
        if let Some(tried) = self.try_back(own) {
            return Ok(tried);
        }
        let Some(step) = self.try_turn_section(&mut own.sight, own.number, ask) else {
            return Ok(Tried::Busy);
        };
        own.sections = own.sections.saturating_add(1);
        let stepped = keep(&mut own.back, step?);
        own.busy = stepped.is_busy(own.busy);
        self.wakes.wake();
        Ok(stepped.tried())
    }

    /// One try of a thread's seat: the hook that it carries comes home, or one is lent and then called, or a
    /// turn is taken.
    fn try_entry<G: Gate>(&self, gate: &G, own: &mut Seat<H>) -> Tried
        requires { IsOf self.now own.old.lock }
        ensures same { IsSamePass own.old own.new }
        ensures tried { ServeTried own.old own.new result }
    {
        gate.pass(own.number, own.sections, false);
        if let Some(tried) = self.try_back(own) {
            return tried;
        }
        let Some(step) = self.try_serve_section(&mut own.sight, own.number) else {
            return Tried::Busy;
        };
        own.sections = own.sections.saturating_add(1);
        let stepped = keep(&mut own.back, step);
        self.wakes.wake();
        stepped.tried()
    }

    /// One try to give back the hook that a seat carries: none where it carries none.
    fn try_back(&self, own: &mut Seat<H>) -> Option<Tried>
        requires { IsOf self.now own.old.lock }
        ensures same { IsSamePass own.old own.new }
        ensures none { IfNone result ((own.new ≡ own.old) × (own.old.lent ≡ None)) }
        ensures some { IfSome result (BackTried own.old own.new) }
    {
        let back = own.back.take()?;
        match self.try_give_section(&mut own.sight, own.number, back) {
            Ok(at) => {
                own.sections = own.sections.saturating_add(1);
                self.wakes.wake();
                Some(Tried::Turned(Turn::Made { at }))
            }
            Err(back) => {
                let nothing = own.back.replace(back);
                let None = nothing else { unreachable!() };
                Some(Tried::Busy)
            }
        }
    }

    /// One try of a section in which the hook that was lent to a seat comes home and its entry is made, at the
    /// place that is answered. Where another pass holds the lock the hook is handed back.
    fn try_give_section(
        &self,
        sight: &mut Sight<H>,
        seat: u32,
        back: Back<H>,
    ) -> Result<u32, Back<H>>
        requires own { IsOf self.now sight.old.lock }
        requires seat { sight.old.seat ≡ Some seat }
        requires lent { sight.old.aside ≡ Some back }
        ensures still { IsStill sight.old sight.new }
        ensures gives { IfOk result (λ at. GaveBack (seated seat sight.old) (seated seat sight.new) (Made at)) }
        ensures nothing { OnOk result (sight.new.aside ≡ None) }
        ensures busy { OnErr result (seated seat sight.new ≡ missed (seated seat sight.old)) }
        ensures back { IfErr result (λ b. b ≡ back) }
    {
        let Ok(live) = self.lock.try_lock(&mut sight.turn) else {
            return Err(back);
        };
        live.board.sound();
        let (at, seen) = self.give_held(&mut sight.turn, live, seat, back);
        sight.seen = seen;
        Ok(at)
    }

    /// One try of a section of a client's seat, in which a hook is lent, or a turn is taken: none where another
    /// pass holds the lock.
    fn try_turn_section(
        &self,
        sight: &mut Sight<H>,
        seat: u32,
        ask: &mut Ask<H>,
    ) -> Option<Result<Step<H>, NoMemory>>
        requires own { IsOf self.now sight.old.lock }
        requires seat { sight.old.seat ≡ Some seat }
        requires nothing { sight.old.aside ≡ None }
        requires asked { CanAsk sight.old.head sight.old.front seat ask.old.op (is_some ask.old.hook) }
        ensures still { IsStill sight.old sight.new }
        ensures busy { IfNone result (seated seat sight.new ≡ missed (seated seat sight.old)) }
        ensures ask { IfNone result (ask.new ≡ ask.old) }
        ensures stepped { IfSome result (StepTried H.counts (seated seat sight.old) (seated seat sight.new) ask.old ask.new) }
        ensures op { ask.new.op ≡ ask.old.op }
    {
        let Ok(live) = self.lock.try_lock(&mut sight.turn) else {
            return None;
        };
        live.board.sound();
        let (step, seen) = self.turn_held(&mut sight.turn, live, seat, ask);
        sight.seen = seen;
        Some(step)
    }

    /// One try of a section of a thread's seat, in which a hook is lent, or a turn is taken: none where another
    /// pass holds the lock.
    fn try_serve_section(&self, sight: &mut Sight<H>, seat: u32) -> Option<Step<H>>
        requires own { IsOf self.now sight.old.lock }
        requires seat { sight.old.seat ≡ Some seat }
        requires nothing { sight.old.aside ≡ None }
        ensures still { IsStill sight.old sight.new }
        ensures busy { IfNone result (seated seat sight.new ≡ missed (seated seat sight.old)) }
        ensures served { IfSome result (ServiceTried (seated seat sight.old) (seated seat sight.new)) }
    {
        let Ok(live) = self.lock.try_lock(&mut sight.turn) else {
            return None;
        };
        live.board.sound();
        let (step, _, seen) = self.serve_held(&mut sight.turn, live, seat);
        sight.seen = seen;
        Some(step)
    }
}

/// What clauses of tries say by a journal and by the pairs of what is lent, said of a board: over its journal, and
/// the pairs that it tells the lock, `lends_over` says exactly where `Board::lend` lends a hook to a seat,
/// `IsNotYetBy` what a turn of the seat waits for, and `CallsLent` whether a thread's entry calls a hook that is away.
///
/// It does nothing: callers cite its contract.
pub fn lends_by_pairs<H: Hook>(board: &Board<H>, by: u32, op: &Op)
    ensures lends { lends_over board.now.head board.now.events (lent_pairs board.now) by ≡ true ↔ CanLendTo board.now by }
    ensures not_yet { (why : AWhy) →
        IsNotYetBy board.now.head board.now.events (lent_pairs board.now) by op.now why ↔ IsNotYet by op.now board.now why }
    ensures calls { (s : ℕ) →
        CallsLent board.now.head board.now.events (lent_pairs board.now) s by ↔ CallsAway board.now s (due_of board.now by) }
{
    board.sound();
}
