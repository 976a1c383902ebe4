//! What passes tell one another.

ghost use Rattle.std.specs.Prelude.{◌≡◌, ◌||◌, false, true, None, Some};
ghost use mathlib.Core.List.{IsPrefix};
ghost use Rattle.hp_live.specs.Known.{IsOf, IsRoot, IsStill};
ghost use Rattle.hp_model.specs.Lawful.{IsLawful};
ghost use Rattle.hp_turn.specs.Pass.{Knew, without_right, given_by};
ghost use Rattle.hp_turn.specs.Story.{longer};

use crate::hotplug::Hotplug;
use crate::sight::Sight;
use hp_hook::Hook;

impl<H: Hook + Send> Hotplug<H> {
    /// A new pass without seat, which has seen as much. The right to admit goes over to it.
    pub(crate) fn split(&self, sight: &mut Sight<H>) -> Sight<H>
        requires own { IsOf self.now sight.old.lock }
        ensures left { sight.new ≡ without_right sight.old }
        ensures given { result ≡ given_by sight.old }
    {
        let turn = self.lock.split(&mut sight.turn);
        Sight {
            turn,
            seen: sight.seen,
        }
    }

    /// Takes another pass in, which ends. The front is the longer of both, which both begin.
    pub(crate) fn join(&self, sight: &mut Sight<H>, other: Sight<H>)
        requires own { IsOf self.now sight.old.lock }
        requires other { IsOf self.now other.lock }
        requires nothing { other.aside ≡ None }
        ensures lock { sight.new.lock ≡ sight.old.lock }
        ensures head { sight.new.head ≡ sight.old.head }
        ensures one_head { other.head ≡ sight.old.head }
        ensures front { sight.new.front ≡ longer sight.old.front other.front }
        ensures whole { IsPrefix other.front sight.new.front }
        ensures knew { Knew sight.old sight.new.front }
        ensures seat { sight.new.seat ≡ sight.old.seat }
        ensures right { sight.new.admits ≡ (sight.old.admits || other.admits) }
        ensures misses { sight.new.misses ≡ sight.old.misses }
        ensures lent { (sight.new.aside ≡ sight.old.aside) × (sight.new.kept ≡ sight.old.kept) }
    {
        let Sight { turn, seen } = other;
        self.lock.join(&mut sight.turn, turn);
        if sight.seen < seen {
            sight.seen = seen;
        }
    }

    /// A pass hears what the root has seen: the right to admit goes to a new pass and from it to another,
    /// which takes it back to the root.
    pub(crate) fn tell_sight(&self, root: &mut Sight<H>, sight: &mut Sight<H>)
        requires own { IsOf self.now root.old.lock }
        requires root { IsRoot root.old }
        requires other { IsOf self.now sight.old.lock }
        requires right { sight.old.admits ≡ false }
        ensures root { IsStill root.old root.new × (root.new.front ≡ root.old.front) }
        ensures still { IsStill sight.old sight.new }
        ensures misses { sight.new.misses ≡ sight.old.misses }
        ensures lent { (sight.new.aside ≡ sight.old.aside) × (sight.new.kept ≡ sight.old.kept) }
        ensures front { sight.new.front ≡ longer sight.old.front root.old.front }
        ensures whole { IsPrefix root.old.front sight.new.front }
        ensures knew { Knew sight.old sight.new.front }
    {
        let mut told = self.split(root);
        let right = self.split(&mut told);
        self.join(sight, told);
        self.join(root, right);
    }
}

impl<H: Hook + Send> Sight<H> {
    /// What is so of every sight: its front is a lawful journal. It does nothing.
    pub(crate) fn sound(&self)
        ensures { IsLawful self.now.head self.now.front }
    {
        let _ = &self.turn;
    }
}
