//! Counting calls, of which some are to fail.

ghost use Rattle.std.specs.Prelude.{◌≡◌, ◌↔◌, IsTrue};
ghost use Rattle.hp_io.specs.Calls.{calls_after, IsToFail};

/// Counts one more call, and says whether it is one of those that are to fail. Past the largest `u64` none is.
pub fn count_call(calls: &mut u64, fails: &[u64]) -> bool
    ensures counted { calls.new ≡ calls_after calls.old }
    ensures fails { IsTrue result ↔ IsToFail calls.old fails.now }
{
    let Some(number) = calls.checked_add(1) else {
        return false;
    };
    *calls = number;
    fails.contains(&number)
}
