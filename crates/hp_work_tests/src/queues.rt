//! What no clause says of hp_work: the numbers of some items, as worked out by hand; 4,096 items and one more; and a
//! drain by jobs of its own.

ghost use Rattle.std.specs.Prelude.{◌<◌};
ghost use Rattle.hp_work.specs.Follows.{HasQueue};

use hp_event::{Event, How};
use hp_states::Dir;
use hp_work::{Drain, MAX_ITEMS, PutError, Queues};
use std::test::Fail;

/// A done entry of state 120 on a processor.
fn entry(cpu: u32, dir: Dir) -> Event
    requires { cpu < 256 }
    ensures { HasQueue result }
{
    Event::Call {
        seat: 0,
        cpu,
        state: 120,
        inst: 0,
        dir,
        how: How::RanOk,
    }
}

/// Whether so many items are put on a processor, the first with this number.
fn puts(queues: &mut Queues, cpu: u32, first: u32, many: u32) -> bool
    requires { cpu < 256 }
{
    for at in 0..many {
        if queues.put(cpu) != Ok(first.wrapping_add(at)) {
            return false;
        }
    }
    true
}

/// Whether the drained queues are these, by processor and items, with this unbound list.
fn holds(drain: &Drain, wanted: &[(u32, &[u32])], unbound: &[u32]) -> bool {
    let found = drain.queues.as_slice();
    if found.len() != wanted.len() || drain.unbound.as_slice() != unbound {
        return false;
    }
    for (one, (cpu, items)) in found.iter().zip(wanted.iter()) {
        if one.cpu != *cpu || one.items.as_slice() != *items {
            return false;
        }
    }
    true
}

/// A queue moves twice, and keeps its order.
#[test]
fn a_queue_moves_twice(rt: HostRuntime) -> Result<(), Fail> {
    let mut queues = Queues::new(rt.alloc(), 120)?;
    for cpu in 0..3u32 {
        queues.follow(&entry(cpu, Dir::Up));
    }
    assert!(&rt; puts(&mut queues, 2, 0, 2));
    assert!(&rt; puts(&mut queues, 0, 2, 1));
    assert!(&rt; puts(&mut queues, 2, 3, 1));
    queues.follow(&entry(2, Dir::Down));
    assert!(&rt; queues.put(2) == Err(PutError::Offline));
    assert!(&rt; puts(&mut queues, 1, 4, 1));
    assert!(&rt; queues.run(0) == Some(2) && queues.run(0) == Some(0));
    queues.follow(&entry(0, Dir::Down));
    assert!(&rt; queues.run(0) == None && queues.run(1) == Some(4));
    assert!(&rt; queues.ran() == [2u32, 0, 4].as_slice());
    let drain = queues.drain(&rt)?;
    assert!(&rt; holds(&drain, &[(1, &[1, 3])], &[]));
    assert!(&rt; drain.ran.as_slice() == [2u32, 0, 4].as_slice());
    Ok(())
}

/// The last processor's queue goes to the unbound list, and the next that opens takes it.
#[test]
fn the_last_queue_is_unbound_and_comes_back(rt: HostRuntime) -> Result<(), Fail> {
    let mut queues = Queues::new(rt.alloc(), 120)?;
    queues.follow(&entry(7, Dir::Up));
    assert!(&rt; puts(&mut queues, 7, 0, 3) && queues.run(7) == Some(0));
    queues.follow(&entry(7, Dir::Down));
    assert!(&rt; queues.run(7) == None && queues.put(7) == Err(PutError::Offline));
    queues.follow(&entry(255, Dir::Up));
    assert!(&rt; puts(&mut queues, 255, 3, 1));
    let drain = queues.drain(&rt)?;
    assert!(&rt; holds(&drain, &[(255, &[1, 2, 3])], &[]));
    Ok(())
}

#[test]
fn an_unbound_list_is_drained(rt: HostRuntime) -> Result<(), Fail> {
    let mut queues = Queues::new(rt.alloc(), 120)?;
    queues.follow(&entry(0, Dir::Up));
    assert!(&rt; puts(&mut queues, 0, 0, 2));
    queues.follow(&entry(0, Dir::Down));
    assert!(&rt; holds(&queues.drain(&rt)?, &[], &[0, 1]));
    Ok(())
}

/// No number above 255 is a processor's, and none is open.
#[test]
fn a_number_above_255_is_not_open(rt: HostRuntime) -> Result<(), Fail> {
    let mut queues = Queues::new(rt.alloc(), 120)?;
    for cpu in [0u32, 255] {
        assert!(&rt; cpu < 256 && !queues.is_open(cpu));
        queues.follow(&entry(cpu, Dir::Up));
        assert!(&rt; queues.is_open(cpu));
    }
    for cpu in [256u32, 257, 511, u32::MAX] {
        assert!(&rt; !queues.is_open(cpu), "{cpu}");
    }
    Ok(())
}

/// 4,096 items can be put, and no more, though all have run.
#[test]
fn one_item_too_many(rt: HostRuntime) -> Result<(), Fail> {
    let mut queues = Queues::new(rt.alloc(), 120)?;
    queues.follow(&entry(1, Dir::Up));
    assert!(&rt; puts(&mut queues, 1, 0, MAX_ITEMS));
    assert!(&rt; queues.put(1) == Err(PutError::Full) && queues.put(0) == Err(PutError::Offline));
    for item in 0..MAX_ITEMS {
        assert!(&rt; queues.run(1) == Some(item), "item {item}");
    }
    assert!(&rt; queues.run(1) == None && queues.put(1) == Err(PutError::Full));
    assert!(&rt; queues.ran().len() == MAX_ITEMS as usize);
    Ok(())
}

/// Nine queues are drained, each by a job of its own.
#[test]
fn nine_queues_are_drained(rt: HostRuntime) -> Result<(), Fail> {
    let mut queues = Queues::new(rt.alloc(), 120)?;
    for cpu in 0..9u32 {
        queues.follow(&entry(cpu, Dir::Up));
        assert!(&rt; puts(&mut queues, cpu, 2 * cpu, 2));
    }
    let drain = queues.drain(&rt)?;
    let wanted: [(u32, &[u32]); 9] = [
        (0, &[0, 1]),
        (1, &[2, 3]),
        (2, &[4, 5]),
        (3, &[6, 7]),
        (4, &[8, 9]),
        (5, &[10, 11]),
        (6, &[12, 13]),
        (7, &[14, 15]),
        (8, &[16, 17]),
    ];
    assert!(&rt; holds(&drain, &wanted, &[]));
    Ok(())
}
