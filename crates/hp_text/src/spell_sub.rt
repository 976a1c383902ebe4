//! The words of a subsystem and of a rule, appended to a buffer.

ghost use Rattle.std.specs.Prelude.{◌∷◌, OnOk};
ghost use Rattle.hp_model.specs.Words.{spaced, calls_word, kind_word};
ghost use Rattle.hp_text.specs.Appends.{Appends};
ghost use Rattle.hp_text.specs.Subs.{behind_sub, behind_rule};

use crate::spell::{append, append_any, append_dir, append_name, append_number};
use hp_event::Sub;
use hp_states::Rule;
use std::alloc::AllocError;

/// Appends which callbacks a subsystem has.
fn append_calls(out: &mut Vec<u8>, up: bool, down: bool) -> Result<(), AllocError>
    ensures { OnOk result (Appends out.old out.new (32 ∷ calls_word up down)) }
{
    match (up, down) {
        (true, true) => append(out, b" both"),
        (true, false) => append(out, b" up"),
        (false, true) => append(out, b" down"),
        (false, false) => append(out, b" none"),
    }
}

/// Appends whether a subsystem's states have instance lists.
fn append_kind(out: &mut Vec<u8>, multi: bool) -> Result<(), AllocError>
    ensures { OnOk result (Appends out.old out.new (32 ∷ kind_word multi)) }
{
    if multi {
        append(out, b" multi")
    } else {
        append(out, b" single")
    }
}

/// Appends a subsystem, without its rules, as it stands behind the word `sub`.
///
/// Takes memory; where it is wanting, the buffer may have a part of that. This project's own.
pub fn append_sub(out: &mut Vec<u8>, sub: &Sub) -> Result<(), AllocError>
    ensures { OnOk result (Appends out.old out.new (spaced (behind_sub sub.now))) }
{
    append_name(out, sub.name.as_slice())?;
    append_calls(out, sub.up, sub.down)?;
    append_kind(out, sub.multi)
}

/// Appends a rule, as it stands behind the word `rule`.
///
/// Takes memory; where it is wanting, the buffer may have a part of that. This project's own.
pub fn append_rule(out: &mut Vec<u8>, rule: &Rule) -> Result<(), AllocError>
    ensures { OnOk result (Appends out.old out.new (spaced (behind_rule rule.now))) }
{
    append_dir(out, rule.dir)?;
    append_any(out, rule.cpu)?;
    append_any(out, rule.inst)?;
    append_any(out, rule.nth)?;
    append_number(out, rule.code)
}
