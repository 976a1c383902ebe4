//! What no clause says of hp_event: that memory suffices where it is ample, as for a whole journal, and how large an
//! event is.

use hp_event::{Event, Head, Journal, JournalError, Key, Keys, Name, Numbers, Sub, Subs};
use hp_states::{Dir, HookPlan, MAX_EVENTS, Rule};
use std::alloc::Global;
use std::mem::size_of;
use std::process::Abort;

const RULE: Rule = Rule {
    dir: Dir::Up,
    cpu: None,
    inst: Some(3),
    nth: Some(2),
    code: 12,
};

/// A subsystem of this name with one rule.
fn sub_of(rt: &impl Abort, alloc: Global, bytes: &[u8]) -> Sub {
    let mut name = Name::new(alloc);
    for byte in bytes {
        assert!(rt; name.push(*byte).is_ok());
    }
    let mut plan = HookPlan::none();
    assert!(rt; plan.add(RULE));
    Sub {
        name,
        up: true,
        down: false,
        multi: true,
        plan,
    }
}

/// A head with two absent processors and a subsystem.
fn head_of(rt: &impl Abort, alloc: Global) -> Head {
    let mut absent = Numbers::new(alloc);
    for cpu in [2, 3] {
        assert!(rt; absent.push(cpu).is_ok());
    }
    let mut subs = Subs::new(alloc);
    assert!(rt; subs.push(sub_of(rt, alloc, b"net:b")).is_ok());
    Head {
        possible: 4,
        absent,
        subs,
    }
}

/// Whether a head is the one above.
fn is_head(head: &Head) -> bool {
    let [sub] = head.subs.as_slice() else {
        return false;
    };
    (head.possible, sub.up, sub.down, sub.multi) == (4, true, false, true)
        && head.absent.as_slice() == [2, 3].as_slice()
        && sub.name.as_slice() == b"net:b".as_slice()
        && sub.plan.rules() == [RULE].as_slice()
}

#[test]
fn a_copied_head_is_equal(rt: HostRuntime) {
    let Ok(copy) = head_of(&rt, rt.alloc()).copy() else {
        panic!(rt; "memory for a head");
    };
    assert!(rt; is_head(&copy));
}

#[test]
fn copied_keys_keep_their_order(rt: HostRuntime) {
    let pushed = [
        Key {
            state: 120,
            inst: 2,
        },
        Key {
            state: 120,
            inst: 1,
        },
    ];
    let mut keys = Keys::new(rt.alloc());
    for key in pushed {
        assert!(rt; keys.push(key).is_ok());
    }
    let Ok(copy) = keys.copy() else {
        panic!(rt; "memory for keys");
    };
    assert!(rt; copy.as_slice() == pushed.as_slice());
}

/// A key, and one that comes after it.
const ORDERED: [((u32, u32), (u32, u32)); 2] = [((119, 9), (120, 1)), ((120, 1), (120, 2))];

#[test]
fn keys_are_ordered_by_state_and_then_instance(rt: HostRuntime) {
    for &((state, inst), (next_state, next_inst)) in ORDERED.iter() {
        let key = Key { state, inst };
        let next = Key {
            state: next_state,
            inst: next_inst,
        };
        assert!(rt; key < next && next >= next);
    }
}

/// Adds as many events as are promised.
fn push_all(journal: &mut Journal) {
    for _ in 0..journal.promised() {
        if journal.promised() > 0 {
            journal.push(Event::Wakeup { seat: 1 });
        }
    }
}

/// What is promised, and how that is answered.
const PROMISES: [(u32, Result<(), JournalError>); 5] = [
    (4, Err(JournalError::Full)),
    (u32::MAX, Err(JournalError::Full)),
    (3, Ok(())),
    (1, Err(JournalError::Full)),
    (0, Ok(())),
];

#[test]
fn the_last_places_are_promised_and_no_more(rt: HostRuntime) {
    let mut journal = Journal::new(rt.alloc(), head_of(&rt, rt.alloc()));
    assert!(rt; journal.reserve(MAX_EVENTS - 3) == Ok(()));
    push_all(&mut journal);
    assert!(rt; journal.len() == MAX_EVENTS - 3);
    for (count, answer) in PROMISES {
        assert!(rt; journal.reserve(count) == answer, "{count}");
    }
}

#[test]
fn events_are_small(rt: HostRuntime) {
    assert!(rt; size_of::<Event>() == 56);
    assert!(rt; (JournalError::Full as u32, JournalError::NoMemory as u32) == (1, 2));
}
