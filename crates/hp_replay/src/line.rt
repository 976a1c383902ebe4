//! The lines of an input, one after another.

ghost use Rattle.std.specs.Prelude.{◌≡◌, ◌<◌, ◌≤◌, ◌∷◌, [], take, drop, length, MatchOption, IsTrue, ◌↔◌, IfOk, IfErr, bytes_eq};
ghost use Rattle.hp_replay.specs.InputLines.{lines_of};
ghost use Rattle.hp_replay.specs.LinesLeft.{IsLine, Takes};
ghost use Rattle.hp_replay.specs.LineWords.{words_at};
ghost use Rattle.hp_replay.specs.declared.error.ReplayError.TheVariants.{Bad};
ghost use Rattle.hp_replay.specs.declared.error.ReplayKind.TheVariants.{Missing};
ghost use Rattle.hp_states.specs.declared.limits.TheConstants.{MAX_JOURNAL_BYTES};

use crate::error::{ReplayError, ReplayKind};
use crate::words::Words;
use memchr::memchr;
use std::marker::Model;

/// A line of the input: its number, counted from 1, and its bytes, with the newline that ends it. A
/// last line may have none.
#[derive(Drop)]
pub struct Line<'a> {
    pub number: u32,
    pub bytes: &'a [u8],
    ghost one: { IsLine bytes.now },
}

impl<'a> Line<'a> {
    /// The words of the line. None where no newline ends it.
    pub fn words(&self) -> Option<Words<'a>>
        ensures { result ≡ words_at self.now.bytes.now }
    {
        let (last, text) = self.bytes.split_last()?;
        if *last == b'\n' {
            Some(Words::of(text))
        } else {
            None
        }
    }

    /// The refusal of the line.
    pub fn bad(&self, kind: ReplayKind) -> ReplayError
        ensures { result ≡ Bad self.now.number kind }
    {
        ReplayError::Bad {
            line: self.number,
            kind,
        }
    }
}

/// The lines of an input that are left. Contracts see the list of them, and the number of the first.
#[derive(Drop)]
pub struct Lines<'a> {
    rest: &'a [u8],
    number: u32,
}

impl<'a> Model for Lines<'a> {
    ghost use Rattle.std.specs.Prelude.{◌+◌, ◌<◌, ◌≤◌, length};
    ghost use Rattle.hp_states.specs.declared.limits.TheConstants.{MAX_JOURNAL_BYTES};
    ghost use Rattle.hp_replay.specs.InputLines.{lines_of};
    ghost use Rattle.hp_replay.specs.LinesLeft.{LinesLeft};

    ghost Value = { LinesLeft };

    ghost view = { λ l. record { number = l.number; lines = lines_of l.rest.now } };

    ghost invariant = { λ l. l.number + length l.rest.now ≤ MAX_JOURNAL_BYTES + 1 };
}

/// Where the first line ends: behind its newline, or at the end of the bytes.
pub fn line_end(bytes: &[u8]) -> usize
    requires { 0 < length bytes.now }
    ensures some { 0 < result }
    ensures within { result ≤ length bytes.now }
    ensures line { IsLine (take result bytes.now) }
    ensures lines { lines_of bytes.now ≡ take result bytes.now ∷ lines_of (drop result bytes.now) }
{
    match memchr(b'\n', bytes) {
        Some(at) => at + 1,
        None => bytes.len(),
    }
}

impl<'a> Lines<'a> {
    /// The lines of an input, which is at most as long as a journal's text may be.
    pub fn of(bytes: &'a [u8]) -> Lines<'a>
        requires { length bytes.now ≤ MAX_JOURNAL_BYTES }
        ensures { result ≡ record { number = 1; lines = lines_of bytes.now } }
    {
        Lines {
            rest: bytes,
            number: 1,
        }
    }

    /// Whether no line is left.
    pub fn is_done(&self) -> bool
        ensures { IsTrue result ↔ (self.now.lines ≡ []) }
    {
        self.rest.is_empty()
    }

    /// The next line, which is then no longer left. None where no line is left.
    pub fn next(&mut self) -> Option<Line<'a>>
        ensures line { MatchOption result (self.old.lines ≡ []) (λ line. Takes self.old line.number line.bytes.now self.new) }
    {
        if self.rest.is_empty() {
            return None;
        }
        let (bytes, rest) = self.rest.split_at(line_end(self.rest));
        let line = Line {
            number: self.number,
            bytes,
        };
        self.rest = rest;
        self.number += 1;
        Some(line)
    }

    /// The next line. Where no line is left, it is missing.
    pub fn expect(&mut self) -> Result<Line<'a>, ReplayError>
        ensures line { IfOk result (λ line. Takes self.old line.number line.bytes.now self.new) }
        ensures no_line { IfErr result (λ _. self.old.lines ≡ []) }
        ensures missing { IfErr result (λ e. e ≡ Bad self.old.number Missing) }
    {
        let number = self.number;
        match self.next() {
            Some(line) => Ok(line),
            None => Err(ReplayError::Bad {
                line: number,
                kind: ReplayKind::Missing,
            }),
        }
    }
}
