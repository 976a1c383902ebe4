//! The lines of the events and the `end` line: they say the journal.

ghost use Rattle.std.specs.Prelude.{◌≡◌, [], true, OnOk, IfOk, IfErr};
ghost use Rattle.hp_model.specs.Heads.{IsHead};
ghost use Rattle.hp_model.specs.Lawful.{Stands};
ghost use Rattle.hp_replay.specs.Stages.{among_events};
ghost use Rattle.hp_replay.specs.Judged.{Leads};
ghost use Rattle.hp_replay.specs.Reading.{GoesOver, RefusesLine, RefusedFrom};
ghost use Rattle.hp_print.specs.OperationNumbers.{IsNumbered};
ghost use Rattle.hp_replay.specs.LawStages.{with_event, stage_of, whole_of, event_told, end_told};
ghost use Rattle.hp_replay.specs.Versions.{is_its_number, is_numbered};
ghost use Rattle.hp_replay.specs.Stories.{ReadsEvents};

use crate::end::end_of_line;
use crate::error::{ReplayError, ReplayKind};
use crate::event::{NumberedEvent, event_of_line};
use crate::line::{Line, Lines};
use crate::versions::has_seat;
use hp_event::{Head, Journal, Version};
use hp_law::Law;
use hp_print::OperationNumbers;
use std::alloc::Global;

/// Whether a line that names the number of an operation names this one.
fn is_its(number: u32, named: Option<u32>) -> bool
    ensures { result ≡ is_its_number number named }
{
    match named {
        None => true,
        Some(named) => named == number,
    }
}

/// The events so far, and how many operations of each seat have one.
#[derive(Drop)]
struct Taking {
    version: Version,
    law: Law,
    numbers: OperationNumbers,
}

impl Taking {
    /// Takes an event's line. After `Err` this is as a refused line leaves it, and isn't used.
    fn take(&mut self, said: &NumberedEvent, line: &Line<'_>) -> Result<(), ReplayError>
        requires numbered { IsNumbered self.old.law.events self.old.numbers }
        ensures stands { OnOk result (Stands self.old.law.head self.old.law.events said.now.event) }
        ensures right { OnOk result (is_numbered self.old.version self.old.law.events said.now ≡ true) }
        ensures taken { OnOk result (self.new.law ≡ with_event self.old.law said.now.event) }
        ensures numbered { OnOk result (IsNumbered self.new.law.events self.new.numbers) }
        ensures version { OnOk result (self.new.version ≡ self.old.version) }
        ensures bad { IfErr result (RefusesLine (event_told self.old.version self.old.law said.now) line.now.number) }
    {
        if !self.law.offer(&said.event)? {
            return Err(line.bad(ReplayKind::Unlawful));
        }
        // so a seat has fewer operations than a number can say
        self.law.sound();
        let number = self.numbers.take(&said.event)?;
        if is_its(number, said.number) && has_seat(self.version, &said.event) {
            Ok(())
        } else {
            Err(line.bad(ReplayKind::Unlawful))
        }
    }
}

/// Takes the line behind the last event's.
pub fn take_end(law: &Law, line: &Line<'_>) -> Result<(), ReplayError>
    ensures ok { OnOk result (Leads (end_told law.now line.now.bytes.now) (whole_of law.now)) }
    ensures bad { IfErr result (RefusesLine (end_told law.now line.now.bytes.now) line.now.number) }
{
    match end_of_line(line) {
        None => Err(line.bad(ReplayKind::Syntax)),
        Some(count) => {
            if count == Some(law.len()) {
                Ok(())
            } else {
                Err(line.bad(ReplayKind::Count))
            }
        }
    }
}

/// Takes the lines of the events, and the `end` line behind them.
fn take_events(taking: &mut Taking, lines: &mut Lines<'_>) -> Result<(), ReplayError>
    requires { IsNumbered taking.old.law.events taking.old.numbers }
    ensures ok { OnOk result (GoesOver taking.old.version lines.old (stage_of taking.old.law) lines.new (whole_of taking.new.law)) }
    ensures bad { IfErr result (RefusedFrom taking.old.version (stage_of taking.old.law) lines.old) }
{
    loop {
        let line = lines.expect()?;
        match event_of_line(taking.version, &line) {
            Some(ref said) => taking.take(said, &line)?,
            None => return take_end(&taking.law, &line),
        }
    }
}

/// The journal that the lines of the events say, with the `end` line behind them.
pub fn read_events(
    alloc: Global,
    version: Version,
    head: &Head,
    lines: &mut Lines<'_>,
) -> Result<Journal, ReplayError>
    requires { IsHead head.now }
    ensures ok { IfOk result (λ journal. ReadsEvents version lines.old head.now lines.new journal) }
    ensures promised { IfOk result (λ journal. journal.promised ≡ 0) }
    ensures bad { IfErr result (RefusedFrom version (among_events head.now []) lines.old) }
{
    let mut taking = Taking {
        version,
        law: Law::start(alloc, head)?,
        numbers: OperationNumbers::new(alloc),
    };
    take_events(&mut taking, lines)?;
    Ok(taking.law.into_journal())
}
