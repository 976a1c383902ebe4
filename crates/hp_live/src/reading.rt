//! Read sections.

ghost use Rattle.std.specs.Prelude.{◌≡◌, ◌≢◌, ℕ, true, false, None, Some, [], is_some, pos, IfOk, IfErr, OnErr};
ghost use Rattle.hp_account.specs.TableChanges.{hands_out};
ghost use Rattle.hp_board.specs.Contents.{with_event};
ghost use Rattle.hp_board.specs.Loans.{loan};
ghost use Rattle.hp_event.specs.declared.answer.Answer.TheVariants.{Ok as Done};
ghost use Rattle.hp_event.specs.declared.event.Event.TheVariants.{ReadLock, ReadUnlock};
ghost use Rattle.hp_event.specs.declared.op.Op.TheVariants.{Lock, Unlock};
ghost use Rattle.hp_live.specs.Grew.{Grew};
ghost use Rattle.hp_live.specs.Known.{IsOf, IsOut, IsSamePass, IsStill};
ghost use Rattle.hp_live.specs.ReadSections.{AsksIn, AsksOn, IsOnlineThroughout, IsReadRefusal, MakesIn};
ghost use Rattle.hp_live.specs.Runs.{AnsweredBy, ComesBack, IsAnswered, Halted};
ghost use Rattle.hp_live.specs.Sections.{CanAsk};
ghost use Rattle.hp_event.specs.declared.event.Role.TheVariants.{Client as AClient};
ghost use Rattle.hp_model.specs.Readers.{is_reading};
ghost use Rattle.hp_model.specs.Seats.{is_busy, role_of};

use crate::gate::Gate;
use crate::hotplug::Hotplug;
use crate::pass::Pass;
use crate::read_pass::ReadPass;
use crate::seat::Seat;
use crate::sight::Sight;
use hp_board::{Ask, Board, Turn};
use hp_event::{Answer, Op};
use hp_hook::Hook;
use hp_states::{CpuSet, NoMemory};
use std::sync::Wait;

/// Why a seat got no read section.
#[derive(Clone, Copy, Debug, PartialEq, Eq)]
pub enum ReadRefusal {
    /// The journal has no room for the begin of the section and its end.
    LogFull = 1,
    /// Memory was wanting.
    NoMemory = 2,
}

impl<H: Hook + Send> Hotplug<H> {
    /// The pass's seat begins a read section: until it ends it no processor comes online or goes offline.
    ///
    /// Conditions: this machine gave the pass, and no operation of its seat is in flight by its front. Past the
    /// front given the new pass's front has of the seat one ReadLock, which is its last event. After a refusal the
    /// pass comes back, and its front has no event of the seat past the one given:
    /// - `LogFull` exactly where at the end of that front room was wanting for the section's begin and its end.
    /// - `NoMemory` where memory was wanting.
    ///
    /// Waits while another holds the lock, and sleeps until another made an event while a walk is under way. Takes
    /// memory. After `cpus_read_lock` of `kernel/cpu.c`, which also waits behind a walk that waits.
    pub fn read_lock<R: Wait, G: Gate>(
        &self,
        rt: &R,
        gate: &G,
        pass: Pass<H>,
    ) -> Result<ReadPass<H>, (ReadRefusal, Pass<H>)>
        requires own { IsOf self.now pass.lock }
        requires idle { is_busy pass.seat pass.front ≡ false }
        ensures same { IfOk result (λ read. IsSamePass pass read.pass) }
        ensures locked { IfOk result (λ read.
            AnsweredBy pass.head pass.seat Lock pass.front read.pass.front (Done (pos 0))) }
        ensures back { IfErr result (λ r. IsSamePass pass r.1) }
        ensures none { IfErr result (λ r. Grew pass.seat pass.front r.1.front []) }
        ensures refused { IfErr result (λ r. IsReadRefusal pass.head pass.seat r.1.front r.0) }
        ensures idle { IfErr result (λ r. is_busy r.1.seat r.1.front ≡ false) }
        ensures nothing { IfErr result (λ r. r.1.lent ≡ None) }
    {
        pass.sound();
        let Pass { mut own } = pass;
        match self.lock_seat(rt, gate, &mut own) {
            Ok(online) => Ok(ReadPass { own, online }),
            Err(refusal) => Err((refusal, Pass { own })),
        }
    }

    /// The seat's read section ends, and with it the pass.
    ///
    /// Condition: this machine gave the pass. Past the front given the front of the pass that is answered has of
    /// the seat one ReadUnlock, which is its last event. At each front of that front from the section's ReadLock on
    /// just the processors were online that `ReadPass::online` answers. Waits while another holds the lock. Takes no
    /// memory, and isn't refused. After `cpus_read_unlock` of `kernel/cpu.c`.
    pub fn read_unlock<R: Wait, G: Gate>(&self, rt: &R, gate: &G, read: ReadPass<H>) -> Pass<H>
        requires own { IsOf self.now read.pass.lock }
        ensures same { IsSamePass read.pass result }
        ensures unlocked { AnsweredBy read.pass.head read.pass.seat Unlock read.pass.front result.front (Done (pos 0)) }
        ensures online { IsOnlineThroughout read result.front }
        ensures idle { is_busy result.seat result.front ≡ false }
        ensures nothing { result.lent ≡ None }
    {
        read.sound();
        let ReadPass { mut own, online: _ } = read;
        self.unlock_step(rt, gate, &mut own);
        self.wakes.wake();
        Pass { own }
    }

    /// Turns of a seat in a read section until the operation is answered: `run`, inside the section.
    ///
    /// Conditions: this machine gave the pass; the operation isn't an unlock; and the ask meets the conditions of
    /// `Board::turn` by the pass's front. A lock is refused 35, and so is whatever would wait for the section's end.
    /// What is made and answered, and which hook comes back, is as of `run`, and the section goes on with the same
    /// processors online. Once an event of the operation is made it waits for memory.
    /// - `NoMemory` where memory was wanting for the operation's first event. None is made then, the ask is as before,
    ///   its hook in it, and may be run again.
    ///
    /// After the calls of `kernel/cpu.c` whose names end in `_cpuslocked`.
    pub fn run_reading<R: Wait, G: Gate>(
        &self,
        rt: &R,
        gate: &G,
        read: &mut ReadPass<H>,
        ask: &mut Ask<H>,
    ) -> Result<Answer, NoMemory>
        requires own { IsOf self.now read.old.pass.lock }
        requires op { ask.old.op ≢ Unlock }
        requires asked { CanAsk read.old.pass.head read.old.pass.front read.old.pass.seat ask.old.op (is_some ask.old.hook) }
        ensures same { IsSamePass read.old.pass read.new.pass }
        ensures online { read.new.online ≡ read.old.online }
        ensures answered { IfOk result
            (IsAnswered read.old.pass.head read.old.pass.seat ask.old.op read.old.pass.front read.new.pass.front) }
        ensures halted { OnErr result
            (Halted read.old.pass.head read.old.pass.seat ask.old.op read.old.pass.front read.new.pass.front) }
        ensures none { OnErr result (Grew read.old.pass.seat read.old.pass.front read.new.pass.front []) }
        ensures hook { IfOk result (λ answer. is_some ask.new.hook ≡ hands_out ask.old.op answer) }
        ensures back { IfOk result (ComesBack H.counts read.old.pass.head read.old.pass.seat ask.old.op
            read.old.pass.front read.new.pass.front ask.old.hook ask.new.hook) }
        ensures op { ask.new.op ≡ ask.old.op }
        ensures as_before { OnErr result (ask.new ≡ ask.old) }
        ensures again { OnErr result
            (CanAsk read.new.pass.head read.new.pass.front read.new.pass.seat ask.new.op (is_some ask.new.hook)) }
    {
        let ran = self.run_seat(rt, gate, &mut read.own, ask, true);
        read.own.sight.sound();
        ran
    }

    /// Sections of a client's seat until it reads or is refused: the processors that are online then.
    fn lock_seat<R: Wait, G: Gate>(
        &self,
        rt: &R,
        gate: &G,
        own: &mut Seat<H>,
    ) -> Result<CpuSet, ReadRefusal>
        requires own { IsOf self.now own.old.lock }
        requires out { IsOut own.old.seat own.old.front }
        requires idle { is_busy own.old.seat own.old.front ≡ false }
        ensures same { IsSamePass own.old own.new }
        ensures asks { AsksIn own.old.head own.old.seat own.old.front own.new.front (Some result) }
        ensures nothing { own.new.lent ≡ None }
    {
        for _ in rt.forever() {
            let key = self.wakes.client(own.busy, &Op::Lock);
            match self.lock_step(rt, gate, own) {
                None => key.wait(rt),
                Some(asked) => {
                    drop(key);
                    self.wakes.wake();
                    return asked;
                }
            }
        }
        unreachable!()
    }

    /// One section of a client's seat that asks for a read section: none where it waits.
    fn lock_step<R: Wait, G: Gate>(
        &self,
        rt: &R,
        gate: &G,
        own: &mut Seat<H>,
    ) -> Option<Result<CpuSet, ReadRefusal>>
        requires own { IsOf self.now own.old.lock }
        requires out { IsOut own.old.seat own.old.front }
        requires idle { is_busy own.old.seat own.old.front ≡ false }
        ensures same { IsSamePass own.old own.new }
        ensures asks { AsksIn own.old.head own.old.seat own.old.front own.new.front result }
        ensures nothing { own.new.lent ≡ None }
    {
        gate.pass(own.number, own.sections, false);
        own.sections = own.sections.saturating_add(1);
        self.lock_section(rt, &mut own.sight, own.number)
    }

    /// One lock section in which a client's seat asks for a read section: none where it waits.
    fn lock_section<R: Wait>(
        &self,
        rt: &R,
        sight: &mut Sight<H>,
        seat: u32,
    ) -> Option<Result<CpuSet, ReadRefusal>>
        requires own { IsOf self.now sight.old.lock }
        requires seat { sight.old.seat ≡ Some seat }
        requires out { IsOut seat sight.old.front }
        requires idle { is_busy seat sight.old.front ≡ false }
        ensures still { IsStill sight.old sight.new }
        ensures asks { AsksIn sight.old.head seat sight.old.front sight.new.front result }
        ensures carried { sight.old.aside ≡ None }
        ensures nothing { sight.new.aside ≡ None }
    {
        let mut live = self.lock.lock(rt, &mut sight.turn);
        live.board.sound();
        let asked = ask_to_read(&mut live.board, seat);
        let seen = self.put_back(&mut sight.turn, live);
        sight.seen = seen;
        asked
    }

    /// The section in which a reader's seat ends its read section.
    fn unlock_step<R: Wait, G: Gate>(&self, rt: &R, gate: &G, own: &mut Seat<H>)
        requires own { IsOf self.now own.old.lock }
        requires role { role_of own.old.seat own.old.front ≡ Some AClient }
        requires reading { is_reading own.old.seat own.old.front ≡ true }
        requires idle { is_busy own.old.seat own.old.front ≡ false }
        requires nothing { own.old.lent ≡ None }
        ensures same { IsSamePass own.old own.new }
        ensures unlocked { MakesIn own.old.head own.old.seat Unlock (ReadUnlock own.old.seat) own.old.front own.new.front }
        ensures nothing { own.new.lent ≡ None }
    {
        gate.pass(own.number, own.sections, false);
        own.sections = own.sections.saturating_add(1);
        self.unlock_section(rt, &mut own.sight, own.number);
    }

    /// One lock section in which a read section ends.
    fn unlock_section<R: Wait>(&self, rt: &R, sight: &mut Sight<H>, seat: u32)
        requires own { IsOf self.now sight.old.lock }
        requires seat { sight.old.seat ≡ Some seat }
        requires role { role_of seat sight.old.front ≡ Some AClient }
        requires reading { is_reading seat sight.old.front ≡ true }
        requires idle { is_busy seat sight.old.front ≡ false }
        requires nothing { sight.old.aside ≡ None }
        ensures still { IsStill sight.old sight.new }
        ensures unlocked { MakesIn sight.old.head seat Unlock (ReadUnlock seat) sight.old.front sight.new.front }
        ensures nothing { sight.new.aside ≡ None }
    {
        let mut live = self.lock.lock(rt, &mut sight.turn);
        live.board.sound();
        stop_reading(&mut live.board, seat);
        let seen = self.put_back(&mut sight.turn, live);
        sight.seen = seen;
    }
}

/// A turn of a client's seat that asks for a read section: which processors are online, where it got it; none where
/// it waits.
fn ask_to_read<H: Hook>(board: &mut Board<H>, by: u32) -> Option<Result<CpuSet, ReadRefusal>>
    requires out { IsOut by board.old.events }
    requires idle { is_busy by board.old.events ≡ false }
    requires nothing { loan board.old by ≡ None }
    ensures asks { AsksOn by board.old board.new result }
    ensures stays { (k : ℕ) → loan board.new k ≡ loan board.old k }
{
    let mut ask = Ask {
        op: Op::Lock,
        hook: None,
    };
    match board.turn(by, &mut ask) {
        Ok(Turn::Answered { at: Some(_), .. }) => Some(Ok(board.online_set())),
        Ok(Turn::Answered { at: None, .. }) => Some(Err(ReadRefusal::LogFull)),
        Ok(Turn::NotYet(_)) => None,
        Ok(Turn::Made { .. }) => unreachable!(),
        Err(NoMemory) => Some(Err(ReadRefusal::NoMemory)),
    }
}

/// A reader's seat ends its read section.
fn stop_reading<H: Hook>(board: &mut Board<H>, by: u32)
    requires role { role_of by board.old.events ≡ Some AClient }
    requires reading { is_reading by board.old.events ≡ true }
    requires idle { is_busy by board.old.events ≡ false }
    requires nothing { loan board.old by ≡ None }
    ensures unlocked { board.new ≡ with_event board.old (ReadUnlock by) }
    ensures stays { (k : ℕ) → loan board.new k ≡ loan board.old k }
{
    let mut ask = Ask {
        op: Op::Unlock,
        hook: None,
    };
    // made at once: an unlock of a reader waits for nothing, has room and takes no memory
    let _ = board.turn(by, &mut ask);
}
