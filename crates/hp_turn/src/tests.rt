//! What no clause says: that the lock is found taken and free again, that threads get through, and
//! that each event is there once.

ghost use Rattle.std.specs.Prelude.{◌≡◌, true, Some, []};
ghost use Rattle.hp_turn.specs.Passes.{MayLock};

use crate::notes::Notes;
use crate::{Busy, Grown, TurnLock, TurnPass};
use hp_event::{Event, Head, Numbers, Subs};
use hp_states::NoMemory;
use std::alloc::Global;
use std::process::Abort;
use std::sync::{Arc, Wait};
use std::thread::{Threads, join};

fn empty(alloc: Global) -> Notes
    ensures { result.events.items ≡ [] }
{
    let head = Head {
        possible: 2,
        absent: Numbers::new(alloc),
        subs: Subs::new(alloc),
    };
    Notes {
        head,
        events: Vec::new(alloc),
    }
}

// One section, in which the pass's seat adds one event.
fn section<R: Wait>(
    rt: &R,
    lock: &TurnLock<Notes>,
    pass: &mut TurnPass<Notes>,
    seat: u32,
    value: i32,
) -> bool
    requires { MayLock lock.now pass.old × (pass.old.seat ≡ Some seat) }
    ensures pass { MayLock lock.now pass.new × (pass.new.seat ≡ Some seat) }
    ensures nothing { pass.new.aside ≡ None }
{
    let mut notes = lock.lock(rt, pass);
    let done = notes.act(seat, value);
    lock.unlock(pass, notes);
    done
}

// A pass with a new seat, by one that may admit and has none.
fn admit<R: Wait + Abort>(
    rt: &R,
    lock: &TurnLock<Notes>,
    root: &mut TurnPass<Notes>,
    seat: u32,
) -> TurnPass<Notes>
    requires { MayLock lock.now root.old × (root.old.admits ≡ true) }
    ensures root { MayLock lock.now root.new × (root.new.admits ≡ true) }
    ensures new { MayLock lock.now result × (result.seat ≡ Some seat) × (result.aside ≡ None) }
{
    let mut pass = lock.split(root);
    let mut notes = lock.lock(rt, &mut pass);
    assert!(rt; notes.admit(seat));
    lock.unlock(&mut pass, notes);
    let right = lock.split(&mut pass);
    lock.join(root, right);
    pass
}

// So many sections of one pass.
fn work<R: Wait>(
    rt: &R,
    lock: &TurnLock<Notes>,
    mut pass: TurnPass<Notes>,
    seat: u32,
    count: i32,
) -> TurnPass<Notes>
    requires { MayLock lock.now pass × (pass.seat ≡ Some seat) × (pass.aside ≡ None) }
    ensures { MayLock lock.now result × (result.seat ≡ Some seat) × (result.aside ≡ None) }
{
    for value in 0..count {
        section(rt, lock, &mut pass, seat, value);
    }
    pass
}

// The acts of a seat are the numbers below the count, each once and in order.
fn are_acts(events: &[Event], seat: u32, count: i32) -> bool {
    let mut next: i32 = 0;
    for event in events {
        if let Event::Armed {
            seat: of,
            value,
            ..
        } = *event
        {
            if of == seat {
                if value != next {
                    return false;
                }
                next = next.wrapping_add(1);
            }
        }
    }
    next == count
}

// While the first pass has the lock the second finds it taken, and then free, with the notes as they were.
fn takes_turns<R: Wait + Abort>(
    rt: &R,
    lock: &TurnLock<Notes>,
    first: &mut TurnPass<Notes>,
    second: &mut TurnPass<Notes>,
)
    requires { MayLock lock.now first.old × MayLock lock.now second.old }
{
    let notes = lock.lock(rt, first);
    let Err(Busy) = lock.try_lock(second) else {
        panic!(rt; "the lock was taken")
    };
    lock.unlock(first, notes);
    let Ok(notes) = lock.try_lock(second) else {
        panic!(rt; "the lock was free")
    };
    assert!(rt; notes.events.is_empty());
    lock.unlock(second, notes);
}

#[test]
fn a_second_pass_finds_the_lock_busy(rt: HostRuntime) {
    let Ok((lock, mut first)) = TurnLock::new(rt.alloc(), empty(rt.alloc())) else {
        panic!(rt; "memory for a lock")
    };
    let mut second = lock.split(&mut first);
    takes_turns(&rt, &lock, &mut first, &mut second);
}

// The seats of four threads, with so many sections each.
const SEATS: u32 = 4;

const SECTIONS: i32 = 25_000;

// What four threads with a pass each leave.
fn four_threads<R: Threads + Wait + Abort + Sync>(
    rt: &R,
    lock: &TurnLock<Notes>,
    root: &mut TurnPass<Notes>,
)
    requires { MayLock lock.now root.old × (root.old.admits ≡ true) }
    ensures { MayLock lock.now root.new }
{
    let zero = admit(rt, lock, root, 0);
    let one = admit(rt, lock, root, 1);
    let two = admit(rt, lock, root, 2);
    let three = admit(rt, lock, root, 3);
    let ((zero, one), (two, three)) = join(
        rt,
        || -> (TurnPass<Notes>, TurnPass<Notes>)
            requires zero { MayLock lock.now zero × (zero.seat ≡ Some 0) × (zero.aside ≡ None) }
            requires one { MayLock lock.now one × (one.seat ≡ Some 1) × (one.aside ≡ None) }
            ensures first { MayLock lock.entry.now result.0 × (result.0.aside ≡ None) }
            ensures second { MayLock lock.entry.now result.1 × (result.1.aside ≡ None) }
        { two_threads(rt, lock, zero, 0, one, 1) },
        || -> (TurnPass<Notes>, TurnPass<Notes>)
            requires two { MayLock lock.now two × (two.seat ≡ Some 2) × (two.aside ≡ None) }
            requires three { MayLock lock.now three × (three.seat ≡ Some 3) × (three.aside ≡ None) }
            ensures first { MayLock lock.entry.now result.0 × (result.0.aside ≡ None) }
            ensures second { MayLock lock.entry.now result.1 × (result.1.aside ≡ None) }
        { two_threads(rt, lock, two, 2, three, 3) },
    );
    lock.join(root, zero);
    lock.join(root, one);
    lock.join(root, two);
    lock.join(root, three);
}

fn two_threads<R: Threads + Wait + Sync>(
    rt: &R,
    lock: &TurnLock<Notes>,
    one: TurnPass<Notes>,
    its: u32,
    other: TurnPass<Notes>,
    others: u32,
) -> (TurnPass<Notes>, TurnPass<Notes>)
    requires one { MayLock lock.now one × (one.seat ≡ Some its) × (one.aside ≡ None) }
    requires other { MayLock lock.now other × (other.seat ≡ Some others) × (other.aside ≡ None) }
    ensures one { MayLock lock.now result.0 × (result.0.aside ≡ None) }
    ensures other { MayLock lock.now result.1 × (result.1.aside ≡ None) }
{
    join(
        rt,
        || -> TurnPass<Notes>
            requires { MayLock lock.now one × (one.seat ≡ Some its) × (one.aside ≡ None) }
            ensures { MayLock lock.entry.now result × (result.aside ≡ None) }
        { work(rt, lock, one, its, SECTIONS) },
        || -> TurnPass<Notes>
            requires { MayLock lock.now other × (other.seat ≡ Some others) × (other.aside ≡ None) }
            ensures { MayLock lock.entry.now result × (result.aside ≡ None) }
        { work(rt, lock, other, others, SECTIONS) },
    )
}

#[test]
fn four_threads_act_once_each_and_in_order(rt: HostRuntime) {
    let Ok((lock, mut root)) = TurnLock::new(rt.alloc(), empty(rt.alloc())) else {
        panic!(rt; "memory for a lock")
    };
    four_threads(&rt, &lock, &mut root);
    let notes = lock.close(&rt, root);
    assert!(rt; notes.events.len() == 100_004);
    for seat in 0..SEATS {
        assert!(rt; are_acts(notes.events.as_slice(), seat, SECTIONS));
    }
}

// Notes that can be seen to be dropped.
#[derive(Drop)]
struct Marked {
    notes: Notes,
    mark: Arc<u64>,
}

impl Grown for Marked {
    ghost head = { λ m. m.notes.head };

    ghost story = { λ m. m.notes.events.items };

    ghost aside = { λ m. [] };

    fn length(&self) -> u64 {
        self.notes.length()
    }
}

// It takes three blocks of memory: where the second or the third is refused, nothing of them stays.
#[test]
fn want_of_memory_drops_the_value(rt: HostRuntime) {
    let Ok(mark) = Arc::new(rt.alloc(), 7) else {
        return;
    };
    let Ok(copy) = Arc::try_clone(&mark) else {
        return;
    };
    let notes = empty(rt.alloc());
    match TurnLock::new(rt.alloc(), Marked { notes, mark: copy }) {
        Ok((lock, pass)) => {
            assert!(rt; Arc::strong_count(&mark) == 2);
            drop(pass);
            drop(lock);
        }
        Err(NoMemory) => {}
    }
    assert!(rt; Arc::strong_count(&mark) == 1);
}
