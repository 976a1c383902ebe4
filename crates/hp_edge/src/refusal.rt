//! The line that says why an input is refused.

ghost use Rattle.std.specs.Prelude.{◌≡◌, IfOk};
ghost use Rattle.hp_edge.specs.Refusals.{script_error_line, journal_error_line};

use hp_replay::ReplayError;
use hp_script::ParseError;
use hp_states::NoMemory;
use std::alloc::Global;

/// The line that says why a script is refused: `error: line 3: bad word`.
///
/// Takes memory for the line; where there is none: `NoMemory`.
pub fn script_error_line(alloc: Global, error: ParseError) -> Result<Vec<u8>, NoMemory>
    ensures { IfOk result (λ line. line.items ≡ script_error_line error) }
{
    let text = format!(in alloc; "error: {error}\n")?;
    Ok(text.into_bytes())
}

/// The line that says why a journal is refused: `error: line 27: unlawful`.
///
/// Takes memory for the line; where there is none: `NoMemory`.
pub fn journal_error_line(alloc: Global, error: ReplayError) -> Result<Vec<u8>, NoMemory>
    ensures { IfOk result (λ line. line.items ≡ journal_error_line error) }
{
    let line = format!(in alloc; "error: {error}\n")?;
    Ok(line.into_bytes())
}
