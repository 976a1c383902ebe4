//! What lines ask of the table of states.

ghost use Rattle.std.specs.Prelude.{◌≡◌};
ghost use Rattle.hp_trace_walk.specs.Asks as spec;

/// A table holds states below this one.
pub const MOST_STATES: u32 = 512;

/// The most calls that are counted.
pub const MOST_CALLS: u32 = u32::MAX;

/// Of each state from one on and below another: how many calls a crossing of it in this direction shows.
#[derive(Clone, Copy)]
pub struct Ask {
    /// The first of the states.
    pub from: u32,
    /// The one behind the last.
    pub below: u32,
    /// Whether the crossing is up.
    pub up: bool,
    /// It shows as many at least.
    pub least: u32,
    /// And as many at most.
    pub most: u32,
}

/// What one event asks.
#[derive(Clone, Copy)]
pub struct Asks {
    /// Of the state that is called, in the direction of the call.
    pub made: Ask,
    /// Of the same, in the other direction.
    pub other: Ask,
    /// Of the state whose crossing is over with it.
    pub whole: Ask,
    /// Of the states that were crossed between the two.
    pub passed: Ask,
    /// Of those that were crossed back without a call.
    pub back: Ask,
    /// Of those that were crossed before the first call that was seen.
    pub before: Ask,
}

/// One more, where there is one.
pub fn one_more(number: u32) -> u32
    ensures { result ≡ spec.one_more number }
{
    if number < u32::MAX {
        number + 1
    } else {
        number
    }
}

/// One less, where there is one.
pub fn one_less(number: u32) -> u32
    ensures { result ≡ spec.one_less number }
{
    if 0 < number { number - 1 } else { number }
}

/// Whether two directions are the same.
pub fn is_same(up: bool, other: bool) -> bool
    ensures { result ≡ spec.is_same up other }
{
    if up { other } else { !other }
}

/// Nothing is asked.
pub fn nothing() -> Ask
    ensures { result ≡ spec.nothing }
{
    Ask {
        from: 0,
        below: 0,
        up: true,
        least: 0,
        most: MOST_CALLS,
    }
}

/// Nothing is asked.
pub fn no_asks() -> Asks
    ensures { result ≡ spec.no_asks }
{
    Asks {
        made: nothing(),
        other: nothing(),
        whole: nothing(),
        passed: nothing(),
        back: nothing(),
        before: nothing(),
    }
}

/// The states from one on and below another show no call in this direction.
pub fn none(from: u32, below: u32, up: bool) -> Ask
    ensures { result ≡ spec.none from below up }
{
    Ask {
        from,
        below,
        up,
        least: 0,
        most: 0,
    }
}

/// A state shows just so many calls in this direction.
pub fn exactly(state: u32, up: bool, count: u32) -> Ask
    ensures { result ≡ spec.exactly state up count }
{
    Ask {
        from: state,
        below: one_more(state),
        up,
        least: count,
        most: count,
    }
}

/// The most calls that one crossing shows of a state.
fn most_of(multi: bool) -> u32
    ensures { result ≡ spec.most_of multi }
{
    if multi { MOST_CALLS } else { 1 }
}

/// A state shows as many calls in this direction, or more where it has instances.
pub fn at_least(state: u32, up: bool, count: u32, multi: bool) -> Ask
    ensures { result ≡ spec.at_least state up count multi }
{
    Ask {
        from: state,
        below: one_more(state),
        up,
        least: count,
        most: most_of(multi),
    }
}

/// The states that a walk in this direction crosses behind one and before another, show no call in that direction.
pub fn none_between(walk_up: bool, near: u32, far: u32, up: bool) -> Ask
    ensures { result ≡ spec.none_between walk_up near far up }
{
    if walk_up {
        none(one_more(near), far, up)
    } else {
        none(one_more(far), near, up)
    }
}

/// So do those that it crosses behind one and up to another.
pub fn none_up_to(walk_up: bool, near: u32, far: u32, up: bool) -> Ask
    ensures { result ≡ spec.none_up_to walk_up near far up }
{
    if walk_up {
        none(one_more(near), one_more(far), up)
    } else {
        none(far, near, up)
    }
}

/// So do those that it crosses from one on and before another.
pub fn none_from(walk_up: bool, near: u32, far: u32, up: bool) -> Ask
    ensures { result ≡ spec.none_from walk_up near far up }
{
    if walk_up {
        none(near, far, up)
    } else {
        none(one_more(far), one_more(near), up)
    }
}
