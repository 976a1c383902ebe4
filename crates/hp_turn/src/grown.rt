//! What the value of a lock tells.

ghost use Rattle.std.specs.Prelude.{◌≡◌, ℕ, List, length};
ghost use Rattle.hp_event.specs.declared.aside.Aside.{Aside as AnAside};
ghost use Rattle.hp_event.specs.declared.head.Head.{Head as AHead};
ghost use Rattle.hp_event.specs.declared.event.Event.{Event as AnEvent};

/// A value with a head, which no section changes, a story of events, which only grows, and the seats
/// that have a hook lent, each with the entry that it is lent for.
pub trait Grown: Send {
    ghost head: { Self → AHead };

    ghost story: { Self → List AnEvent };

    ghost aside: { Self → List (ℕ × AnAside) };

    /// How many events the story has. Takes no memory.
    fn length(&self) -> u64
        ensures { result ≡ length (story self.now) };
}
