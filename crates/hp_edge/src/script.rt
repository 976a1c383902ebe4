//! The script that some bytes are, or that a source holds.

ghost use Rattle.std.specs.Prelude.{◌≡◌, ◌<◌, IfOk, OnOk, IfErr};
ghost use Rattle.hp_script.specs.Judged.{IsRead};
ghost use Rattle.hp_edge.specs.Scripts.{counted_hooks, ReadsScript, Refuses, StopsAt};

use crate::read::read_input;
use crate::refusal::script_error_line;
use hp_io::{ReadError, Source};
use hp_script::{ParseError, Script, parse};
use hp_states::{MAX_SCRIPT_BYTES, NoMemory};
use std::alloc::Global;

/// Why there is no script.
#[derive(Drop)]
pub enum NoScript {
    /// The bytes are refused, with this line.
    Refused(Vec<u8>),
    /// A read failed.
    ReadFault,
    /// Memory was wanting.
    NoMemory,
}

impl From<NoMemory> for NoScript {
    ghost use Rattle.std.specs.Prelude.{◌≡◌};
    ghost use Rattle.hp_edge.specs.declared.script.NoScript.TheVariants.{NoMemory};

    ghost from_gives = { λ _ e. e ≡ NoMemory };

    fn from(_: NoMemory) -> NoScript {
        NoScript::NoMemory
    }
}

/// The script that some bytes are, for a rack with so many hooks.
///
/// - `Refused` exactly where a line is refused, or the end, with the line that says which and why.
/// - `NoMemory` where memory was wanting.
///
/// Takes memory for the script, or for the line. The grammar is that of `hp_script::parse`.
pub fn script_of(alloc: Global, bytes: &[u8], hooks: usize) -> Result<Script, NoScript>
    ensures script { IfOk result (IsRead (counted_hooks hooks) bytes.now) }
    ensures none { IfErr result (Refuses hooks bytes.now) }
{
    let hooks = hooks.min(u32::MAX as usize) as u32;
    match parse(alloc, bytes, hooks) {
        Ok(script) => Ok(script),
        Err(ParseError::NoMemory) => Err(NoScript::NoMemory),
        Err(error) => Err(NoScript::Refused(script_error_line(alloc, error)?)),
    }
}

/// The script that a source holds, for a rack with so many hooks: the source is read to its end, or to one byte past
/// the most bytes that a script has.
///
/// - `Refused` exactly where what was read is refused, with the line that says where and why.
/// - `ReadFault` where a read failed; the source's count of faults rose by one then.
/// - `NoMemory` where memory was wanting.
///
/// Takes memory for the bytes, and for the script or the line. After an error what was read is lost.
pub fn read_script<S: Source>(
    alloc: Global,
    source: &mut S,
    hooks: usize,
) -> Result<Script, NoScript>
    requires { S.faults source.old < u64.MAX }
    ensures read { IfOk result (λ script. ReadsScript S.Source hooks source.old source.new script) }
    ensures faults { OnOk result (S.faults source.new ≡ S.faults source.old) }
    ensures none { IfErr result (λ error. StopsAt S.Source hooks source.old source.new error) }
{
    match read_input(alloc, source, MAX_SCRIPT_BYTES) {
        Ok(bytes) => script_of(alloc, &bytes, hooks),
        Err(ReadError::Failed) => Err(NoScript::ReadFault),
        Err(ReadError::NoMemory) => Err(NoScript::NoMemory),
    }
}
