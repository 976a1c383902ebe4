//! Words of a line that are of a form each by itself.

ghost use Rattle.std.specs.Prelude.{◌≡◌, ◌<◌, ◌≤◌, ◌^◌, ◌+◌, ◌-◌, Some};
ghost use Rattle.std.specs.Option.{option_map};
ghost use Rattle.hp_text.specs.Choices.{calls_of as calls_of_word, kind_of as kind_of_word, name_of as name_of_word, any_from as any_from_at};
ghost use Rattle.hp_text.specs.Numbers.{number as number_at, long_number as long_number_at, integer as integer_at, number_from as number_from_at};
ghost use Rattle.hp_script.specs.Ranges.{is_within, is_signed_within as is_signed_within_at};
ghost use Rattle.hp_script.specs.declared.limits.TheConstants.{MAX_SEED};
ghost use Rattle.hp_hint.specs.Forms.{fits as fits_at, measured, is_any, is_there};

use crate::measure::Measure;
use hp_states::{MAX_CODE, MAX_CPUS, MAX_EVENTS, MAX_INSTANCE, MAX_RULE_CPU, MAX_SEATS, MAX_SUBS};
use hp_text::{Unread, dir_of, integer, is_name, long_number, number, number_from};

/// The highest processor that an operation may name.
const MAX_CPU: u32 = 4095;
/// The highest state that an operation may name.
const MAX_STATE: u32 = 65_535;
/// The most turns of a mixed schedule.
const MAX_TURNS: u32 = 1_000_000;
/// The highest value that a file may be written.
const MAX_VALUE: u32 = 2_147_483_647;
/// The lowest such value, without its sign.
const MIN_VALUE: u32 = 2_147_483_648;

/// What a word of a line has to be.
#[derive(Clone, Copy, Debug, PartialEq, Eq)]
pub enum Field {
    /// How many processors are possible.
    Possible,
    /// A processor that an operation names, or a number of them.
    Cpu,
    /// A state that an operation names.
    State,
    /// The number of a `sub` line.
    Sub,
    /// An instance that an operation names.
    Instance,
    /// The value that a file is written: a number, or one behind a minus.
    Value,
    /// The processor that stays while the others are frozen, or a minus and 1.
    Primary,
    /// The seed of a schedule, which may be as large as `u64`.
    Seed,
    /// How many turns of a schedule are drawn.
    Turns,
    /// A seat of a schedule.
    Seat,
    /// The processor of a rule, or a star for any.
    RuleCpu,
    /// The instance of a rule, or a star for any.
    RuleInstance,
    /// Of which call a rule speaks, or a star for any.
    RuleCall,
    /// The code of a rule.
    Code,
    /// The label of an actor.
    Label,
    /// The name of a subsystem, or a dash.
    Name,
    /// Which callbacks there are.
    Calls,
    /// Whether there are instances.
    Kind,
    /// A direction.
    Dir,
}

/// A number, or the star for any.
#[tactic(auto, unfolding(hp_text::specs::Choices::any_from))]
fn any_from(low: u32, limit: u64, word: &[u8]) -> Result<Option<u32>, Unread>
    requires some { 0 < limit }
    requires small { limit ≤ 2 ^ 32 }
    ensures { result ≡ any_from_at low limit word.now }
{
    if word == b"*".as_slice() {
        return Ok(None);
    }
    Ok(Some(number_from(low, limit, word)?))
}

/// Whether a signed number is from `-least` to `most`.
fn is_signed_within(least: u32, most: u32, value: i32) -> bool
    ensures { result ≡ is_signed_within_at least most value }
{
    if value < 0 {
        value.unsigned_abs() <= least
    } else {
        value as u32 <= most
    }
}

#[tactic(auto, unfolding(hp_text::specs::Choices::name_of))]
fn is_name_or_dash(word: &[u8]) -> bool
    ensures { result ≡ is_there (name_of_word word.now) }
{
    word == b"-".as_slice() || is_name(word)
}

#[tactic(auto, unfolding(hp_text::specs::Choices::calls_of))]
fn is_calls(word: &[u8]) -> bool
    ensures { result ≡ is_there (calls_of_word word.now) }
{
    word == b"both".as_slice()
        || word == b"up".as_slice()
        || word == b"down".as_slice()
        || word == b"none".as_slice()
}

#[tactic(auto, unfolding(hp_text::specs::Choices::kind_of))]
fn is_kind(word: &[u8]) -> bool
    ensures { result ≡ is_there (kind_of_word word.now) }
{
    word == b"multi".as_slice() || word == b"single".as_slice()
}

/// A number from one to another.
fn is_number(measure: Measure, low: u32, high: u32, word: &[u8]) -> bool
    ensures { result ≡ measured measure (is_within low high) (number_at word.now) }
{
    match measure {
        Measure::Form => !matches!(number(word), Err(Unread::NotOfForm)),
        Measure::Ranges(_) => match number(word) {
            Ok(n) => low <= n && n <= high,
            Err(_) => false,
        },
    }
}

/// A number up to the highest seed.
fn is_seed(measure: Measure, word: &[u8]) -> bool
    ensures { result ≡ measured measure (is_within 0 MAX_SEED) (long_number_at word.now) }
{
    match measure {
        Measure::Form => !matches!(long_number(word), Err(Unread::NotOfForm)),
        Measure::Ranges(_) => long_number(word).is_ok(),
    }
}

/// A signed number from `-least` to `most`.
fn is_integer(measure: Measure, least: u32, most: u32, word: &[u8]) -> bool
    ensures { result ≡ measured measure (is_signed_within_at least most) (integer_at word.now) }
{
    match measure {
        Measure::Form => !matches!(integer(word), Err(Unread::NotOfForm)),
        Measure::Ranges(_) => match integer(word) {
            Ok(value) => is_signed_within(least, most, value),
            Err(_) => false,
        },
    }
}

/// A number from one to another, or a star.
fn is_number_or_star(measure: Measure, low: u32, high: u32, word: &[u8]) -> bool
    requires { high < 2 ^ 32 - 1 }
    ensures { result ≡ measured measure is_any (any_from_at low (high + 1) word.now) }
{
    let read = any_from(low, u64::from(high) + 1, word);
    match measure {
        Measure::Form => !matches!(read, Err(Unread::NotOfForm)),
        Measure::Ranges(_) => read.is_ok(),
    }
}

/// The code that a rule answers with.
fn is_code(measure: Measure, word: &[u8]) -> bool
    ensures { result ≡ fits_at measure Field.Code word.now }
{
    let read = number_from(1, u64::from(MAX_CODE) + 1, word);
    match measure {
        Measure::Form => !matches!(read, Err(Unread::NotOfForm)),
        Measure::Ranges(_) => read.is_ok(),
    }
}

impl Field {
    /// Whether a word is of the form of this field, and where that is asked, its number in range. Takes no memory.
    pub fn fits(self, measure: Measure, word: &[u8]) -> bool
        ensures { result ≡ fits_at measure self word.now }
    {
        match self {
            Field::Possible => is_number(measure, 1, MAX_CPUS, word),
            Field::Cpu => is_number(measure, 0, MAX_CPU, word),
            Field::State => is_number(measure, 0, MAX_STATE, word),
            Field::Sub => is_number(measure, 1, MAX_SUBS, word),
            Field::Instance => is_number(measure, 0, MAX_INSTANCE, word),
            Field::Value => is_integer(measure, MIN_VALUE, MAX_VALUE, word),
            Field::Primary => is_integer(measure, 1, MAX_CPU, word),
            Field::Seed => is_seed(measure, word),
            Field::Turns => is_number(measure, 0, MAX_TURNS, word),
            Field::Seat => is_number(measure, 0, MAX_SEATS - 1, word),
            Field::RuleCpu => is_number_or_star(measure, 0, MAX_RULE_CPU, word),
            Field::RuleInstance => is_number_or_star(measure, 0, MAX_INSTANCE, word),
            Field::RuleCall => is_number_or_star(measure, 1, MAX_EVENTS, word),
            Field::Code => is_code(measure, word),
            Field::Label => is_name(word),
            Field::Name => is_name_or_dash(word),
            Field::Calls => is_calls(word),
            Field::Kind => is_kind(word),
            Field::Dir => dir_of(word).is_some(),
        }
    }
}
