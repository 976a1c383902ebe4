//! What the lines before a refused one say that its hint speaks of.

ghost use Rattle.std.specs.Prelude.{◌≡◌};
ghost use Rattle.hp_script.specs.Before.{after_line};
ghost use Rattle.hp_hint.specs.Faults.{possible_before};
ghost use Rattle.hp_hint.specs.Possible.{possible_after};

use crate::piece::next_piece;
use crate::verb::{Verb, verb_of};
use crate::words::LineWords;
use hp_text::{OpWord, Words, number_alone};

/// What stood before a line.
#[derive(Clone, Copy, Debug)]
pub struct Context {
    /// How many processors are possible.
    pub possible: u32,
    /// How many `sub` lines there are.
    pub subs: u32,
    /// How many `setup` lines there are.
    pub setups: u32,
    /// How many operations the last actor has.
    pub ops: u32,
    /// The line of the `lock` that is open, counted from 1; 0 where none is.
    pub open_lock: u32,
}

impl Context {
    /// What stands before the line of this number, counted from 1. Takes no memory.
    ///
    /// How many processors are possible is what hp_script reads of these lines, be they refused or not; what is counted rests on
    /// tests.
    pub fn before(bytes: &[u8], line: u32) -> Context
        ensures { result.possible ≡ possible_before bytes.now line }
    {
        let mut context = Context {
            possible: 0,
            subs: 0,
            setups: 0,
            ops: 0,
            open_lock: 0,
        };
        let mut rest = bytes;
        for at in 1..line {
            let Some((text, behind)) = next_piece(b'\n', rest) else {
                return context;
            };
            context.take(at, text);
            rest = behind;
        }
        context
    }

    /// One line more.
    fn take(&mut self, at: u32, line: &[u8])
        ensures { self.new.possible ≡ possible_after self.old.possible line.now }
    {
        let mut words = LineWords::of(line);
        let Some(first) = words.next_word() else {
            return;
        };
        match verb_of(first) {
            Some(Verb::Cpus) => {
                if let Ok(possible) = number_alone(&mut words) {
                    self.possible = possible;
                }
            }
            Some(Verb::Sub) => self.subs = self.subs.saturating_add(1),
            Some(Verb::Actor) => {
                self.open_lock = 0;
                self.ops = 0;
            }
            Some(Verb::Operation(first)) => self.take_operation(at, first),
            _ => {}
        }
    }

    /// One operation more.
    fn take_operation(&mut self, at: u32, first: OpWord)
        ensures { self.new.possible ≡ self.old.possible }
    {
        self.ops = self.ops.saturating_add(1);
        match first {
            OpWord::Setup => self.setups = self.setups.saturating_add(1),
            OpWord::Lock => self.open_lock = at,
            OpWord::Unlock => self.open_lock = 0,
            _ => {}
        }
    }
}
