//! The two directions of a callback.

ghost use Rattle.std.specs.Prelude.{◌≡◌};
ghost use Rattle.hp_states.specs.Sections.{opposite as opposite_of};
ghost use Rattle.hp_states.specs.Crossings.{direction, state_before as before, state_after as after};

/// The direction of a callback: the startup of a state or its teardown.
#[derive(Clone, Copy, Debug, PartialEq, Eq)]
pub enum Dir {
    /// The startup.
    Up,
    /// The teardown.
    Down,
}

impl Dir {
    /// The other direction.
    ///
    /// Takes no memory. A rollback goes in the direction opposite to its walk's, as in
    /// `cpuhp_reset_state` of `kernel/cpu.c`.
    pub fn opposite(self) -> Dir
        ensures { result ≡ opposite_of self }
    {
        match self {
            Dir::Up => Dir::Down,
            Dir::Down => Dir::Up,
        }
    }

    /// The direction of a walk from one state to another: `Up` where it goes to a higher state, else
    /// `Down`.
    ///
    /// The states may be any numbers. Takes no memory. After `cpuhp_set_state` of `kernel/cpu.c`,
    /// where a walk that doesn't rise isn't a bring up.
    pub fn between(from: u32, to: u32) -> Dir
        ensures { result ≡ direction from to }
    {
        if from < to { Dir::Up } else { Dir::Down }
    }

    /// The state at which a processor stands before it crosses a state in this direction: upwards
    /// the one below, downwards the state itself.
    ///
    /// `state` may be any number; before 0 upwards stands 0. Takes no memory. After
    /// `cpuhp_next_state` of `kernel/cpu.c`, which steps `st->state` by one.
    pub fn state_before(self, state: u32) -> u32
        ensures { result ≡ before self state }
    {
        match self {
            Dir::Up => state.saturating_sub(1),
            Dir::Down => state,
        }
    }

    /// The state at which a processor stands once it has crossed a state in this direction: upwards
    /// the state itself, downwards the one below.
    ///
    /// `state` may be any number; after 0 downwards stands 0. Takes no memory. After
    /// `cpuhp_next_state` of `kernel/cpu.c`, which steps `st->state` by one, ahead of the callback.
    pub fn state_after(self, state: u32) -> u32
        ensures { result ≡ after self state }
    {
        self.opposite().state_before(state)
    }
}
