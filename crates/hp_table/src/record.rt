//! What is installed at a state.

ghost use Rattle.std.specs.Prelude.{◌≡◌, ◌↔◌, true, false, IfSome, IsSome};
ghost use Rattle.hp_table.specs.Kept.{lent, with_hook};

use hp_hook::Hook;
use std::marker::Model;
use std::snapshot::Snapshot;

/// What is installed at a state: a subsystem, which callbacks it has, and the hook that stands for
/// them.
///
/// Contracts see it as plain data: the fields, with what the hook has counted in the hook's place.
/// Of a hook that is lent they see this as it was lent. After the fields of `struct cpuhp_step` of
/// `kernel/cpu.c`.
#[derive(Drop)]
pub struct Record<H: Hook> {
    /// The number of the subsystem, from 1.
    pub sub: u32,
    /// Whether the state has a list of instances.
    pub multi: bool,
    /// Whether the subsystem has a startup.
    pub up: bool,
    /// Whether the subsystem has a teardown.
    pub down: bool,
    /// The hook that is called for both; none while it is lent.
    pub hook: Option<H>,
    // the hook as it was lent, for contracts alone
    was: Option<Snapshot<H>>,
}

impl<H: Hook> Model for Record<H> {
    ghost use Rattle.std.specs.Prelude.{is_some};
    ghost use Rattle.hp_table.specs.Kept.{Kept, counts_of_hook};

    ghost Value = { Kept };

    ghost view = { λ r. record {
      sub = r.sub;
      multi = r.multi;
      up = r.up;
      down = r.down;
      home = is_some r.hook;
      counts = counts_of_hook H.counts r.hook r.was;
    } };
}

impl<H: Hook> Record<H> {
    /// A record with its hook. Takes no memory.
    pub fn new(sub: u32, multi: bool, up: bool, down: bool, hook: H) -> Record<H>
        ensures { result
            ≡ record {
              sub = sub;
              multi = multi;
              up = up;
              down = down;
              home = true;
              counts = H.counts hook;
            } }
    {
        Record {
            sub,
            multi,
            up,
            down,
            hook: Some(hook),
            was: None,
        }
    }

    /// The hook, which is there. Takes no memory.
    pub fn home_hook(&self) -> &H
        requires { self.now.home ≡ true }
        ensures { H.counts result.now ≡ self.now.counts }
    {
        match &self.hook {
            Some(hook) => hook,
            None => unreachable!(),
        }
    }

    /// The hook, which is there, given back. Takes no memory.
    pub fn into_hook(self) -> H
        requires { self.home ≡ true }
        ensures { H.counts result ≡ self.counts }
    {
        let Record { hook, .. } = self;
        match hook {
            Some(hook) => hook,
            None => unreachable!(),
        }
    }

    /// Whether the hook is there, and not lent. Takes no memory.
    pub fn is_home(&self) -> bool
        ensures { result ≡ self.now.home }
    {
        self.hook.is_some()
    }

    /// Lends the hook, if it is there. Takes no memory.
    pub(crate) fn lend(&mut self) -> Option<H>
        ensures some { IsSome result ↔ (self.old.home ≡ true) }
        ensures hook { IfSome result (λ h. H.counts h ≡ self.old.counts) }
        ensures lent { self.new ≡ lent self.old }
    {
        let hook = self.hook.take()?;
        self.was = Some(Snapshot::of(&hook));
        Some(hook)
    }

    /// Takes a hook, in place of the one that is lent. Takes no memory.
    pub(crate) fn restore(&mut self, hook: H)
        requires { self.old.home ≡ false }
        ensures { self.new ≡ with_hook (H.counts hook) self.old }
    {
        self.hook = Some(hook);
    }
}
