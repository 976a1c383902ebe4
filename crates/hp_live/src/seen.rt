//! How much passes have seen, and what holds of each.

ghost use Rattle.std.specs.Prelude.{◌≡◌, ℕ, Some, None, length};
ghost use Rattle.hp_event.specs.declared.event.Role.TheVariants.{Client as AClient, Ap as AnAp};
ghost use Rattle.hp_model.specs.Lawful.{IsLawful};
ghost use Rattle.hp_model.specs.Readers.{reading_since};
ghost use Rattle.hp_model.specs.Seats.{role_of};

use crate::ap_pass::ApPass;
use crate::left::Left;
use crate::pass::Pass;
use crate::root::Root;
use hp_hook::Hook;

impl<H: Hook + Send> Root<H> {
    /// How many events the root has seen. Takes no memory, and waits for nobody.
    pub fn seen(&self) -> u64
        ensures { result ≡ length self.now.front }
    {
        self.sight.seen
    }

    /// What is so of every root: its front is a lawful journal. It does nothing.
    pub fn sound(&self)
        ensures { IsLawful self.now.head self.now.front }
    {
        self.sight.sound();
    }
}

impl<H: Hook + Send> Pass<H> {
    /// How many events the pass has seen. Takes no memory, and waits for nobody.
    pub fn seen(&self) -> u64
        ensures { result ≡ length self.now.front }
    {
        self.own.sight.seen
    }

    /// What is so of every client's pass: its front is a lawful journal, in which its seat is in as a client and
    /// reads nothing. It does nothing.
    pub fn sound(&self)
        ensures lawful { IsLawful self.now.head self.now.front }
        ensures role { role_of self.now.seat self.now.front ≡ Some AClient }
        ensures not_reading { reading_since self.now.seat self.now.front ≡ None }
    {
        let _ = &self.own;
        self.own.sight.sound();
    }
}

impl<H: Hook + Send> ApPass<H> {
    /// How many events the pass has seen. Takes no memory, and waits for nobody.
    pub fn seen(&self) -> u64
        ensures { result ≡ length self.now.front }
    {
        self.own.sight.seen
    }

    /// What is so of every thread's pass: its front is a lawful journal, in which its seat is in as the thread of
    /// a processor. It does nothing.
    pub fn sound(&self)
        ensures lawful { IsLawful self.now.head self.now.front }
        ensures role { (cpu : ℕ) × (role_of self.now.seat self.now.front ≡ Some (AnAp cpu)) }
    {
        let _ = &self.own;
        self.own.sight.sound();
    }
}

impl<H: Hook + Send> Left<H> {
    /// What is so of what any pass left: its front is a lawful journal. It does nothing.
    pub fn sound(&self)
        ensures { IsLawful self.now.head self.now.front }
    {
        self.sight.sound();
    }
}
