//! The picture of the journal that a source holds.

ghost use Rattle.std.specs.Prelude.{◌≡◌, ◌<◌, IfOk, IfErr, OnOk};
ghost use Rattle.hp_view.specs.Stops.{Shows, StopsAt};

use crate::asked::Asked;
use crate::stop::Stop;
use crate::window::{window_error_line, window_of};
use hp_edge::{journal_error_line, read_input};
use hp_io::Source;
use hp_replay::{ReplayError, check};
use hp_states::MAX_JOURNAL_BYTES;
use hp_timeline::picture;
use std::alloc::Global;

/// The picture of the journal whose text a source holds, or why there is none.
pub fn shown<S: Source>(alloc: Global, asked: Asked, source: &mut S) -> Result<Vec<u8>, Stop>
    requires { S.faults source.old < u64.MAX }
    ensures shown { IfOk result (Shows asked S.Source source.old source.new) }
    ensures faults { OnOk result (S.faults source.new ≡ S.faults source.old) }
    ensures stop { IfErr result (StopsAt asked S.Source source.old source.new) }
{
    let bytes = match read_input(alloc, source, MAX_JOURNAL_BYTES) {
        Ok(bytes) => bytes,
        Err(error) => return Err(Stop::of_read(error)),
    };
    let journal = match check(alloc, &bytes) {
        Ok(journal) => journal,
        Err(ReplayError::NoMemory) => return Err(Stop::NoMemory),
        Err(error) => return Err(Stop::BadJournal(journal_error_line(alloc, error)?)),
    };
    match window_of(asked, journal.len()) {
        Some(window) => Ok(picture(alloc, &journal, window)?),
        None => Err(Stop::BadWindow(window_error_line(alloc, journal.len())?)),
    }
}
