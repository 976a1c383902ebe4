//! The window that is asked for.

ghost use Rattle.std.specs.Prelude.{◌≡◌, IfOk, IfSome, IfNone};
ghost use Rattle.hp_view.specs.Chosen.{IsChosen, HasNone, window_error_line as window_error_line_of};

use crate::asked::Asked;
use hp_states::NoMemory;
use hp_timeline::Window;
use std::alloc::Global;

/// The most events that a picture shows.
pub const MAX_SHOWN: u32 = 20000;

/// The window that is asked for of a journal of so many events, if it has that window.
///
/// It is from the first event and to the last where no number is given. It lies within the journal, shows an event
/// where there is one, and at most `MAX_SHOWN`. This project's own.
pub fn window_of(asked: Asked, many: u32) -> Option<Window>
    ensures some { IfSome result (IsChosen asked many) }
    ensures none { IfNone result (HasNone asked many) }
{
    let start = asked.start.unwrap_or(1);
    let stop = asked.stop.unwrap_or(many as u64);
    if start == 0 || stop > many as u64 || start > stop + 1 {
        return None;
    }
    let window = Window {
        before: (start - 1) as u32,
        until: stop as u32,
    };
    if window.before == window.until && many > 0 {
        return None;
    }
    if window.until - window.before > MAX_SHOWN {
        return None;
    }
    Some(window)
}

/// The line that says that a journal of so many events has no such window:
/// `error: 38400 events: choose a window of at most 20000 with --from and --to`.
///
/// Takes memory for the line; where there is none: `NoMemory`. This project's own.
pub fn window_error_line(alloc: Global, many: u32) -> Result<Vec<u8>, NoMemory>
    ensures { IfOk result (λ line. line.items ≡ window_error_line_of many) }
{
    let line = format!(in alloc;
        "error: {many} events: choose a window of at most 20000 with --from and --to\n"
    )?;
    Ok(line.into_bytes())
}
