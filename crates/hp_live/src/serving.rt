//! The threads of processors.

ghost use Rattle.std.specs.Prelude.{◌≡◌, true, false, None, Some, IfSome, IfNone};
ghost use Rattle.hp_live.specs.Known.{IsOf, IsSamePass, IsThread};
ghost use Rattle.hp_live.specs.Runs.{is_lent};
ghost use Rattle.hp_live.specs.Sections.{LeavesIn};
ghost use Rattle.hp_live.specs.Threads.{Enters, Rests, Serves, LeavesAfter};

use crate::ap_pass::ApPass;
use crate::gate::Gate;
use crate::hotplug::Hotplug;
use crate::seat::Seat;
use crate::step::{Stepped, keep};
use hp_board::Turn;
use hp_hook::Hook;
use hp_locks::Why;
use std::sync::Wait;

impl<H: Hook + Send> Hotplug<H> {
    /// Makes the entries of the thread's seat as they come due, until no client is in; each is made in a lock
    /// section of its own, and its hook is called before it, outside.
    ///
    /// Condition: this machine gave the pass. Past the front given the pass's front has of its seat Calls
    /// alone. At its end no client is in, and no entry is due from the seat. The pass carries no hook
    /// afterwards. Waits while another holds the lock, and sleeps until another made an event where none is due.
    /// Takes no memory. After `cpuhp_thread_fun` of `kernel/cpu.c`.
    pub fn ap_loop<R: Wait, G: Gate>(&self, rt: &R, gate: &G, ap: &mut ApPass<H>)
        requires { IsOf self.now ap.old.lock }
        ensures same { IsSamePass ap.old ap.new }
        ensures served { Serves ap.old.head ap.old.seat ap.old.front ap.new.front }
        ensures nothing { ap.new.lent ≡ None }
    {
        self.serve_seat(rt, gate, &mut ap.own)
    }

    /// Entries of a thread's seat, until no client is in.
    fn serve_seat<R: Wait, G: Gate>(&self, rt: &R, gate: &G, own: &mut Seat<H>)
        requires own { IsOf self.now own.old.lock }
        requires thread { IsThread own.old.seat own.old.front }
        ensures same { IsSamePass own.old own.new }
        ensures thread { IsThread own.new.seat own.new.front }
        ensures served { Serves own.old.head own.old.seat own.old.front own.new.front }
        ensures nothing { own.new.lent ≡ None }
    {
        for _ in rt.forever() {
            let key = self.wakes.thread(own.number);
            let (stepped, rests) = self.serve_step(rt, gate, own);
            if rests {
                drop(key);
                return;
            }
            match stepped {
                Stepped::Turned(Turn::NotYet(_)) => key.wait(rt),
                Stepped::Turned(_) => {
                    drop(key);
                    self.wakes.wake();
                }
                Stepped::Lent { .. } => drop(key),
            }
        }
        unreachable!()
    }

    /// One section of a thread's seat: the hook that it carries comes home, or one is lent and then called, or
    /// a turn is taken. And whether nothing was due and no client is in.
    fn serve_step<R: Wait, G: Gate>(&self, rt: &R, gate: &G, own: &mut Seat<H>) -> (Stepped, bool)
        requires own { IsOf self.now own.old.lock }
        requires thread { IsThread own.old.seat own.old.front }
        ensures same { IsSamePass own.old own.new }
        ensures thread { IsThread own.old.seat own.new.front }
        ensures enters { Enters own.old.seat own.old.front own.new.front }
        ensures nothing { is_lent result.0 ≡ false → own.new.lent ≡ None }
        ensures rests { result.1 ≡ true → Rests own.old.head own.old.seat own.new.front }
        ensures none { result.1 ≡ true → own.new.lent ≡ None }
    {
        if let Some(made) = self.give_step(rt, gate, own, false) {
            return (made, false);
        }
        let (step, clients) = self.serve_section(rt, &mut own.sight, own.number);
        let stepped = keep(&mut own.back, step);
        let idle = matches!(stepped, Stepped::Turned(Turn::NotYet(Why::Idle)));
        (stepped, idle && clients == 0)
    }
}
