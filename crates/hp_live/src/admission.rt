//! Seats that come in.

ghost use Rattle.std.specs.Prelude.{◌≡◌, ◌≤◌, true, false, None, Some, IfOk, IfErr, OnErr};
ghost use Rattle.hp_event.specs.declared.event.Role.TheVariants.{Client as AClient, Ap as AnAp};
ghost use Rattle.hp_live.specs.Known.{IsOf, IsRoot};
ghost use Rattle.hp_live.specs.Sections.{AdmitsIn, RefusesIn};
ghost use Rattle.hp_model.specs.Seats.{is_busy};

use crate::ap_pass::ApPass;
use crate::hotplug::Hotplug;
use crate::pass::Pass;
use crate::root::Root;
use crate::seat::Seat;
use crate::sight::Sight;
use hp_board::AdmitError;
use hp_event::Role;
use hp_hook::Hook;
use std::sync::Wait;

impl<H: Hook + Send> Hotplug<H> {
    /// Lets a client's seat in, and answers its pass.
    ///
    /// Condition: this machine gave the root. The seat's number is the next one. The refusals are those of
    /// `Board::admit`, over what the root has seen afterwards; of the journal past what it had seen before no
    /// Admit is. Waits while another holds the lock. Takes memory. Seats are this project's own.
    pub fn admit<R: Wait>(&self, rt: &R, root: &mut Root<H>) -> Result<Pass<H>, AdmitError>
        requires { IsOf self.now root.old.lock }
        ensures root { (root.new.lock ≡ root.old.lock) × (root.new.head ≡ root.old.head) }
        ensures own { IfOk result (λ pass. (pass.lock ≡ root.old.lock) × (pass.head ≡ root.old.head)) }
        ensures admitted { IfOk result (λ pass.
            AdmitsIn root.old.head AClient root.old.front pass.front pass.seat) }
        ensures idle { IfOk result (λ pass. is_busy pass.seat pass.front ≡ false) }
        ensures nothing { IfOk result (λ pass. pass.lent ≡ None) }
        ensures front { IfOk result (λ pass. root.new.front ≡ pass.front) }
        ensures refused { IfErr result (RefusesIn root.old.head AClient root.old.front root.new.front) }
    {
        let (sight, number) = self.admit_role(rt, &mut root.sight, Role::Client)?;
        Ok(Pass {
            own: Seat {
                sight,
                number,
                sections: 0,
                busy: false,
                back: None,
            },
        })
    }

    /// Lets the thread of a processor in, and answers its pass.
    ///
    /// As `admit`. After `smpboot_create_threads` of `kernel/smpboot.c`.
    pub fn admit_ap<R: Wait>(
        &self,
        rt: &R,
        root: &mut Root<H>,
        cpu: u32,
    ) -> Result<ApPass<H>, AdmitError>
        requires { IsOf self.now root.old.lock }
        ensures root { (root.new.lock ≡ root.old.lock) × (root.new.head ≡ root.old.head) }
        ensures own { IfOk result (λ pass. (pass.lock ≡ root.old.lock) × (pass.head ≡ root.old.head)) }
        ensures admitted { IfOk result (λ pass.
            AdmitsIn root.old.head (AnAp cpu) root.old.front pass.front pass.seat) }
        ensures nothing { IfOk result (λ pass. pass.lent ≡ None) }
        ensures front { IfOk result (λ pass. root.new.front ≡ pass.front) }
        ensures refused { IfErr result (RefusesIn root.old.head (AnAp cpu) root.old.front root.new.front) }
    {
        let (sight, number) = self.admit_role(rt, &mut root.sight, Role::Ap(cpu))?;
        Ok(ApPass {
            own: Seat {
                sight,
                number,
                sections: 0,
                busy: false,
                back: None,
            },
        })
    }

    /// Lets a seat with this role in, and answers what its pass has seen, and its number.
    fn admit_role<R: Wait>(
        &self,
        rt: &R,
        root: &mut Sight<H>,
        role: Role,
    ) -> Result<(Sight<H>, u32), AdmitError>
        requires own { IsOf self.now root.old.lock }
        requires root { IsRoot root.old }
        ensures lock { root.new.lock ≡ root.old.lock }
        ensures head { root.new.head ≡ root.old.head }
        ensures root { IsRoot root.new }
        ensures same { IfOk result (λ r. (r.0.lock ≡ root.old.lock) × (r.0.head ≡ root.old.head)) }
        ensures seat { IfOk result (λ r. (r.0.seat ≡ Some r.1) × (r.0.admits ≡ false)) }
        ensures nothing { IfOk result (λ r. r.0.aside ≡ None) }
        ensures admitted { IfOk result (λ r. AdmitsIn root.old.head role root.old.front r.0.front r.1) }
        ensures front { IfOk result (λ r. root.new.front ≡ r.0.front) }
        ensures refused { IfErr result (RefusesIn root.old.head role root.old.front root.new.front) }
    {
        let mut sight = self.split(root);
        match self.admit_section(rt, &mut sight, role) {
            Ok(seat) => {
                let right = self.split(&mut sight);
                self.join(root, right);
                self.wakes.wake();
                Ok((sight, seat))
            }
            Err(error) => {
                self.join(root, sight);
                Err(error)
            }
        }
    }

    /// One lock section in which a seat comes in, by a pass that may admit and has no seat.
    fn admit_section<R: Wait>(
        &self,
        rt: &R,
        sight: &mut Sight<H>,
        role: Role,
    ) -> Result<u32, AdmitError>
        requires own { IsOf self.now sight.old.lock }
        requires root { IsRoot sight.old }
        ensures lock { sight.new.lock ≡ sight.old.lock }
        ensures head { sight.new.head ≡ sight.old.head }
        ensures right { sight.new.admits ≡ true }
        ensures nothing { sight.new.aside ≡ None }
        ensures ok { IfOk result (AdmitsIn sight.old.head role sight.old.front sight.new.front) }
        ensures seat { IfOk result (λ seat. sight.new.seat ≡ Some seat) }
        ensures err { IfErr result (RefusesIn sight.old.head role sight.old.front sight.new.front) }
        ensures no_seat { OnErr result (sight.new.seat ≡ None) }
    {
        let mut live = self.lock.lock(rt, &mut sight.turn);
        live.board.sound();
        let admitted = live.board.admit(role);
        let seen = self.put_back(&mut sight.turn, live);
        sight.seen = seen;
        admitted
    }
}
