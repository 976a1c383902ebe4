//! Rows are played: one loop goes through all turns of a part, and one place ends a board.

ghost use Rattle.std.specs.Prelude.{◌≡◌, ◌≢◌, ℕ, All, IfOk};
ghost use Rattle.hp_board.specs.Loans.{loan};
ghost use Rattle.hp_model.specs.Heads.{IsSub};

use crate::rows::{Answers, Does, Lends, Part, Row, Step};
use hp_board::{Ask, Board, CpuPlan, Turn};
use hp_event::{Event, Name, Numbers, Op, Role, Sub, Subs};
use hp_hook::{Hook, Rack};
use hp_samples::{Marked, first_difference};
use hp_states::{Dir, HookPlan, Rule};
use std::alloc::Global;
use std::process::Abort;
use std::test::Fail;

/// The rule of a startup that answers a fault on processor 1.
const FIVE: Rule = Rule {
    dir: Dir::Up,
    cpu: Some(1),
    inst: None,
    nth: None,
    code: 5,
};

/// A subsystem that answers so.
fn subsystem(alloc: Global, answers: Answers) -> Result<Sub, Fail>
    ensures { IfOk result IsSub }
{
    let mut name = Name::new(alloc);
    name.push(b'a')?;
    let mut plan = HookPlan::none();
    if answers == Answers::Five {
        plan.add(FIVE);
    }
    Ok(Sub {
        name,
        up: answers != Answers::NoStartup,
        down: true,
        multi: false,
        plan,
    })
}

/// Two subsystems.
fn subsystems(alloc: Global, answers: (Answers, Answers)) -> Result<Subs, Fail>
    ensures { IfOk result (All IsSub) }
{
    let one = subsystem(alloc, answers.0)?;
    let other = subsystem(alloc, answers.1)?;
    let mut subs = Subs::new(alloc);
    subs.push(one)?;
    subs.push(other)?;
    Ok(subs)
}

/// An ask for each of six seats.
fn six_asks(alloc: Global) -> Result<Vec<Ask<Marked>>, Fail> {
    let mut asks = Vec::new(alloc);
    for _ in 0..6 {
        asks.push(Ask {
            op: Op::Lock,
            hook: None,
        })?;
    }
    Ok(asks)
}

/// A rack of these hooks.
pub(crate) fn rack(alloc: Global, marks: &[u32]) -> Result<Rack<Marked>, Fail> {
    let mut hooks = Vec::new(alloc);
    for mark in marks {
        hooks.push(Marked::new(*mark))?;
    }
    Ok(Rack { hooks })
}

/// The threads of so many processors and so many clients come in.
fn come_in(rt: &impl Abort, board: &mut Board<Marked>, cpus: u32, clients: u32) {
    for cpu in 0..cpus {
        assert!(rt; board.admit(Role::Ap(cpu)).is_ok(), "thread {cpu}");
    }
    for client in 0..clients {
        assert!(rt; board.admit(Role::Client).is_ok(), "client {client}");
    }
}

/// Begins to ask for an operation, with a hook where it is a setup, which is marked with the state.
fn begin(ask: &mut Ask<Marked>, op: Op) {
    let hook = match op {
        Op::Setup { state, .. } => Some(Marked::new(state)),
        _ => None,
    };
    *ask = Ask { op, hook };
}

/// A client's turn. None where it can't be taken.
fn ask_turn(board: &mut Board<Marked>, by: u32, ask: &mut Ask<Marked>) -> Option<Turn>
    ensures { (k : ℕ) → loan board.new k ≡ loan board.old k }
{
    if !board.can_ask(by, ask) {
        return None;
    }
    board.turn(by, ask).ok()
}

/// A turn of a seat. None where it can't be taken.
fn turn(board: &mut Board<Marked>, asks: &mut [Ask<Marked>], by: u32, does: Does) -> Option<Turn>
    ensures { (k : ℕ) → loan board.new k ≡ loan board.old k }
{
    if let Does::Serves = does {
        if board.has_lent(by) {
            return None;
        }
        return Some(board.serve(by));
    }
    let ask = asks.get_mut(by as usize)?;
    if let Some(op) = does.begins() {
        begin(ask, op);
    }
    ask_turn(board, by, ask)
}

/// Asserts that turns answer as they should, one after the other.
fn plays(
    rt: &impl Abort,
    board: &mut Board<Marked>,
    asks: &mut [Ask<Marked>],
    steps: &[Step],
    name: &str,
)
    ensures { (k : ℕ) → loan board.new k ≡ loan board.old k }
{
    for step in steps {
        let (by, does, wanted) = *step;
        let found = turn(board, asks, by, does);
        let wanted = wanted.turn();
        assert!(rt;
            found == Some(wanted),
            "row {name}: {found:?}, and not {wanted:?}"
        );
    }
}

/// Asserts that nothing can be lent to a seat.
fn lends_nothing(rt: &impl Abort, board: &mut Board<Marked>, by: u32, name: &str)
    ensures { (k : ℕ) → loan board.new k ≡ loan board.old k }
{
    match board.lend(by) {
        None => {}
        Some(_) => panic!(rt; "row {name}: something is lent to seat {by}"),
    }
}

/// The same of each of these seats.
fn lends_none(rt: &impl Abort, board: &mut Board<Marked>, seats: &[u32], name: &str)
    ensures { (k : ℕ) → loan board.new k ≡ loan board.old k }
{
    for by in seats {
        lends_nothing(rt, board, *by, name);
    }
}

/// Lends the hook of a seat, calls it, and gives it back: the place of its entry.
fn lends_and_gives(rt: &impl Abort, board: &mut Board<Marked>, by: u32) -> u32
    ensures { (k : ℕ) → k ≢ by → loan board.new k ≡ loan board.old k }
{
    match board.lend(by) {
        Some(loan) => {
            let back = loan.call();
            board.give(by, back)
        }
        None => panic!(rt; "nothing is lent to seat {by}"),
    }
}

/// The same of the seat beside, if there is one; asserts that its entry has its place.
fn lends_beside(rt: &impl Abort, board: &mut Board<Marked>, lends: &Lends, name: &str)
    ensures { loan board.new lends.now.by ≡ loan board.old lends.now.by }
{
    if let Some((beside, wanted)) = lends.beside {
        assert!(rt; lends.by != beside, "row {name}: one seat");
        let at = lends_and_gives(rt, board, beside);
        assert!(rt; at == wanted, "row {name}: entry {at}");
    }
}

/// Asserts that all is found as it should be while a hook is lent.
fn finds(
    rt: &impl Abort,
    board: &mut Board<Marked>,
    asks: &mut [Ask<Marked>],
    lends: &Lends,
    name: &str,
)
    ensures { loan board.new lends.now.by ≡ loan board.old lends.now.by }
{
    assert!(rt; board.has_lent(lends.by) && !board.is_home(), "row {name}");
    lends_beside(rt, board, lends, name);
    plays(rt, board, asks, lends.steps, name);
    lends_none(rt, board, lends.nothing, name);
}

/// Lends a hook, calls it, and gives it back.
fn lends_one(
    rt: &impl Abort,
    board: &mut Board<Marked>,
    asks: &mut [Ask<Marked>],
    lends: &Lends,
    name: &str,
) {
    match board.lend(lends.by) {
        Some(loan) => {
            finds(rt, board, asks, lends, name);
            let back = loan.call();
            let answer = back.answer();
            let at = board.give(lends.by, back);
            assert!(rt;
                (at, answer) == (lends.at, lends.answer),
                "row {name}: entry {at}"
            );
        }
        None => panic!(rt; "row {name}: nothing is lent"),
    }
}

/// Plays a part.
fn play_part(
    rt: &impl Abort,
    board: &mut Board<Marked>,
    asks: &mut [Ask<Marked>],
    part: &Part,
    name: &str,
) {
    plays(rt, board, asks, part.steps, name);
    lends_none(rt, board, part.nothing, name);
    if let Some(lends) = &part.lends {
        lends_one(rt, board, asks, lends, name);
    }
}

/// Asserts that the journal has a row's events, and that the states file is the row's.
fn assert_said(rt: &impl Abort, board: &Board<Marked>, row: &Row) {
    let name = row.name;
    for (at, seat, cpu, state, dir, how) in row.entries {
        let entry = Event::Call {
            seat: *seat,
            cpu: *cpu,
            state: *state,
            inst: 0,
            dir: *dir,
            how: *how,
        };
        let found = board.journal().events().get(*at as usize);
        assert!(rt; found == Some(&entry), "row {name}: entry {at}");
    }
    if let Some(wanted) = row.states {
        match board.states_text() {
            Ok(text) => assert!(rt; first_difference(&text, wanted) == None, "row {name}"),
            Err(_) => panic!(rt; "memory for the states file"),
        }
    }
}

/// The board at its end: how many events it made; its hooks are in the rack.
pub(crate) fn retired(rt: &impl Abort, board: Board<Marked>, rack: &mut Rack<Marked>) -> u32 {
    if !board.is_home() {
        panic!(rt; "nothing is lent");
    }
    match board.retire(rack) {
        Ok(journal) => journal.len(),
        Err(_) => panic!(rt; "memory for the hooks"),
    }
}

/// Asserts that a rack has these hooks behind its first one, which no board had.
fn assert_hooks(rt: &impl Abort, rack: &Rack<Marked>, wanted: &[(u32, u64, u64)], name: &str) {
    let (first, others) = match rack.hooks.as_slice() {
        [first, others @ ..] => (first, others),
        [] => panic!(rt; "row {name}: no hook"),
    };
    assert!(rt; (first.mark, first.made()) == (FIRST, 0), "row {name}");
    assert!(rt; others.len() == wanted.len(), "row {name}");
    for (found, wanted) in others.iter().zip(wanted) {
        let found = (found.mark, found.made(), found.faults());
        assert!(rt; found == *wanted, "row {name}: {found:?}");
    }
}

/// The mark of the hook that stands in the rack before a board is retired.
const FIRST: u32 = 200;

/// Asserts that a board comes out as its row says.
pub(crate) fn play(rt: &impl Abort, alloc: Global, row: &Row) -> Result<(), Fail> {
    let name = row.name;
    let mut rack = rack(alloc, &[FIRST])?;
    let mut asks = six_asks(alloc)?;
    let plan = CpuPlan {
        possible: row.cpus,
        absent: Numbers::new(alloc),
    };
    let subs = subsystems(alloc, row.subs)?;
    let mut board = Board::start(alloc, plan, subs)?;
    come_in(rt, &mut board, row.cpus, row.clients);
    for part in row.parts {
        play_part(rt, &mut board, &mut asks, part, name);
    }
    assert_said(rt, &board, row);
    assert!(rt;
        retired(rt, board, &mut rack) == row.len,
        "row {name}: its length"
    );
    assert_hooks(rt, &rack, row.hooks, name);
    let left = match asks.get(row.cpus as usize) {
        Some(ask) => ask.hook.as_ref().map(|marked| marked.mark),
        None => None,
    };
    assert!(rt; left == row.left, "row {name}: {left:?} is left");
    Ok(())
}
