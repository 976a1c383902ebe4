//! What the root hears and tells.

ghost use Rattle.std.specs.Prelude.{◌≡◌, true, None, Some};
ghost use mathlib.Core.List.{IsPrefix};
ghost use Rattle.hp_live.specs.Known.{IsOf, IsSamePass};
ghost use Rattle.hp_model.specs.Front.{StandsFor};
ghost use Rattle.hp_turn.specs.Story.{Knows, longer};

use crate::ap_pass::ApPass;
use crate::hotplug::Hotplug;
use crate::left::Left;
use crate::pass::Pass;
use crate::root::Root;
use hp_hook::Hook;

impl<H: Hook + Send> Hotplug<H> {
    /// The root hears what a seat that left had seen.
    ///
    /// Condition: this machine gave both. The root's front is the longer of both fronts then, which both begin,
    /// with no Admit past its own as given. Waits for nobody, and takes no memory. This project's own.
    pub fn meet(&self, root: &mut Root<H>, left: Left<H>)
        requires own { IsOf self.now root.old.lock }
        requires other { IsOf self.now left.lock }
        ensures same { (root.new.lock ≡ root.old.lock) × (root.new.head ≡ root.old.head) }
        ensures one_head { left.head ≡ root.old.head }
        ensures front { root.new.front ≡ longer root.old.front left.front }
        ensures whole { IsPrefix left.front root.new.front }
        ensures knew { Knows None true root.old.front root.new.front }
    {
        let Left { sight, seat: _ } = left;
        self.join(&mut root.sight, sight);
    }

    /// A client's pass hears what the root has seen.
    ///
    /// Condition: this machine gave both. The pass's front is the longer of both fronts then, which both begin,
    /// with no event of its seat past its own as given. The root is as before. Waits for nobody, and takes no
    /// memory. This project's own.
    pub fn tell(&self, root: &mut Root<H>, pass: &mut Pass<H>)
        requires own { IsOf self.now root.old.lock }
        requires other { IsOf self.now pass.old.lock }
        ensures root { root.new ≡ root.old }
        ensures same { IsSamePass pass.old pass.new }
        ensures misses { pass.new.misses ≡ pass.old.misses }
        ensures lent { (pass.new.lent ≡ pass.old.lent) × (pass.new.kept ≡ pass.old.kept) }
        ensures front { pass.new.front ≡ longer pass.old.front root.old.front }
        ensures whole { IsPrefix root.old.front pass.new.front }
        ensures knew { StandsFor (Some pass.old.seat) pass.old.front pass.new.front }
    {
        self.tell_sight(&mut root.sight, &mut pass.own.sight);
        pass.own.sight.sound();
    }

    /// The pass of a processor's thread hears what the root has seen: as `tell`.
    pub fn tell_ap(&self, root: &mut Root<H>, ap: &mut ApPass<H>)
        requires own { IsOf self.now root.old.lock }
        requires other { IsOf self.now ap.old.lock }
        ensures root { root.new ≡ root.old }
        ensures same { IsSamePass ap.old ap.new }
        ensures misses { ap.new.misses ≡ ap.old.misses }
        ensures lent { (ap.new.lent ≡ ap.old.lent) × (ap.new.kept ≡ ap.old.kept) }
        ensures front { ap.new.front ≡ longer ap.old.front root.old.front }
        ensures whole { IsPrefix root.old.front ap.new.front }
        ensures knew { StandsFor (Some ap.old.seat) ap.old.front ap.new.front }
    {
        self.tell_sight(&mut root.sight, &mut ap.own.sight);
        ap.own.sight.sound();
    }
}
