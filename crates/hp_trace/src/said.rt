//! What a line of a trace is.

ghost use Rattle.std.specs.Prelude.{◌≡◌};
ghost use Rattle.hp_trace.specs.Said as spec;

use crate::event::{Event, Said};
use crate::payload::{closed, name_of, opened, payload};
use crate::pieces::Words;
use crate::words::padded;

/// The number of a processor in square brackets, as `[001]`.
#[tactic(auto, unfolding(crate::specs::Said::bracketed))]
fn bracketed(word: &[u8]) -> Option<u32>
    ensures { result ≡ spec.bracketed word.now }
{
    padded(opened(closed(word, b']')?, b'[')?)
}

/// Whether a word is one of the lines that say that events were lost.
#[tactic(auto, unfolding(crate::specs::Said::says_lost))]
fn says_lost(word: &[u8]) -> bool
    ensures { result ≡ spec.says_lost word.now }
{
    word == b"[LOST".as_slice()
        || word == b"DROPPED]".as_slice()
        || word == b"PERF_RECORD_LOST".as_slice()
}

/// Whether a word is the name of an event as `perf script` writes it. perf loses events without a word.
#[tactic(auto, unfolding(crate::specs::Said::is_of_perf))]
fn is_of_perf(word: &[u8]) -> bool
    ensures { result ≡ spec.is_of_perf word.now }
{
    word == b"cpuhp:cpuhp_enter:".as_slice()
        || word == b"cpuhp:cpuhp_multi_enter:".as_slice()
        || word == b"cpuhp:cpuhp_exit:".as_slice()
}

/// What a line is, without the newline that ends it.
#[tactic(auto, unfolding(crate::specs::Said::said_of))]
pub fn said_of(line: &[u8]) -> Said
    ensures { result ≡ spec.said_of line.now }
{
    let mut words = Words::of(line);
    let mut on = None;
    let mut lost = false;
    while let Some(word) = words.next() {
        if let Some(name) = name_of(word) {
            return match payload(name, &mut words) {
                Some(payload) => Said::Event(Event { on, payload }),
                None => Said::NoForm,
            };
        }
        if let Some(cpu) = bracketed(word) {
            on = Some(cpu);
        }
        lost = lost || says_lost(word) || is_of_perf(word);
    }
    if lost { Said::Lost } else { Said::Other }
}
