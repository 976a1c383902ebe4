//! Scripts that are refused for how many lines, setups or bytes they have, and scripts that come right up to that; worked
//! out by hand from the rules.

use hp_script::{ParseError, ScriptKind, parse};
use hp_states::MAX_SCRIPT_BYTES;
use std::alloc::{AllocError, Global};
use std::test::*;

/// How many actors a script has, or the line and the kind that it is refused with.
type Read = Result<u32, (u32, ScriptKind)>;

/// A script, what stands behind it and how often, the hooks, and what is read.
type Row = (&'static str, &'static str, u32, u32, Read);

const SETUPS: &str = "\
cpus 2
sub a both single
actor x
setup 1 1
setup 1 1 nocalls locked
setup 1 1
";

const NO_SUB: &str = "cpus 2\nsub a both single\nactor x\nsetup 1 2\n";

const ACTOR: &str = "cpus 1\nactor a\n";

const ROWS: [Row; 10] = [
    (NO_SUB, "", 0, 0, Err((4, ScriptKind::NoSub))),
    (SETUPS, "", 0, 2, Err((6, ScriptKind::TooMany))),
    (
        "cpus 1\n",
        "sub a up single\n",
        129,
        0,
        Err((130, ScriptKind::TooMany)),
    ),
    (ACTOR, "unlock\n", 4097, 0, Err((4099, ScriptKind::TooMany))),
    (ACTOR, "unlock\n", 4096, 0, Ok(1)),
    (
        "cpus 1\n",
        "actor a\n",
        33,
        0,
        Err((34, ScriptKind::TooMany)),
    ),
    ("cpus 1\n", "actor a\n", 32, 0, Ok(32)),
    (ACTOR, " ", MAX_SCRIPT_BYTES - 15, 0, Ok(1)),
    (
        ACTOR,
        " ",
        MAX_SCRIPT_BYTES - 14,
        0,
        Err((0, ScriptKind::TooLong)),
    ),
    (
        "",
        "\x00",
        MAX_SCRIPT_BYTES + 1,
        0,
        Err((0, ScriptKind::TooLong)),
    ),
];

/// A text so often, behind another.
fn repeated(alloc: Global, front: &str, text: &str, times: u32) -> Result<Vec<u8>, AllocError> {
    let mut bytes = Vec::from_slice(alloc, front.as_bytes())?;
    for _ in 0..times {
        bytes.extend_from_slice(text.as_bytes())?;
    }
    Ok(bytes)
}

/// What is read of a script.
fn read(alloc: Global, bytes: &[u8], hooks: u32) -> Result<Read, ParseError> {
    match parse(alloc, bytes, hooks) {
        Ok(script) => Ok(Ok(script.actors())),
        Err(ParseError::NoMemory) => Err(ParseError::NoMemory),
        Err(ParseError::Bad { line, kind }) => Ok(Err((line, kind))),
    }
}

#[test]
fn scripts_at_their_most_and_past_it(rt: HostRuntime) -> Result<(), Fail> {
    for &(front, text, times, hooks, wanted) in ROWS.iter() {
        let script = repeated(rt.alloc(), front, text, times)?;
        let found = read(rt.alloc(), &script, hooks)?;
        assert!(rt; found == wanted, "{front:?}, and {times} of {text:?}");
    }
    Ok(())
}

/// The number and the words of each kind, as a user of the program meets them.
const KINDS: [(ScriptKind, u32, &str); 11] = [
    (ScriptKind::TooLong, 1, "too long"),
    (ScriptKind::BadByte, 2, "bad byte"),
    (ScriptKind::NoCpus, 3, "no cpus"),
    (ScriptKind::BadWord, 4, "bad word"),
    (ScriptKind::BadOrder, 5, "bad order"),
    (ScriptKind::StillLocked, 6, "still locked"),
    (ScriptKind::BadForm, 7, "bad form"),
    (ScriptKind::BadNumber, 8, "bad number"),
    (ScriptKind::NoSub, 9, "no sub"),
    (ScriptKind::TooMany, 10, "too many"),
    (ScriptKind::NoActor, 11, "no actor"),
];

#[test]
fn kinds(rt: HostRuntime) {
    for &(kind, number, text) in KINDS.iter() {
        assert!(rt; kind as u32 == number, "{text}");
        assert!(rt; kind.text() == text, "{text}");
    }
}
