//! Where two texts differ.

ghost use Rattle.std.specs.Prelude.{◌≡◌};
ghost use Rattle.hp_samples.specs.Lines.{first_difference};

/// The first line at which two texts differ, counted from 1; none where they are the same.
///
/// There is no condition. Takes time for the front that is the same. This project's own.
pub fn first_difference(found: &[u8], wanted: &[u8]) -> Option<usize>
    ensures { result ≡ first_difference found.now wanted.now 1 }
{
    let mut line = 1usize;
    for at in 0..found.len() {
        if at == wanted.len() {
            return Some(line);
        }
        if found[at] != wanted[at] {
            return Some(line);
        }
        if found[at] == b'\n' {
            line += 1;
        }
    }
    if found.len() < wanted.len() {
        Some(line)
    } else {
        None
    }
}
