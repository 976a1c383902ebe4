//! The walk.

ghost use Rattle.std.specs.Prelude.{◌≡◌, ◌≢◌, ◌*◌, ◌<◌, ◌≤◌, true, [], length};
ghost use Rattle.hp_event.specs.declared.answer.Answer.{Answer as AnAnswer};
ghost use Rattle.hp_model.specs.Entries.{is_done};
ghost use Rattle.hp_states.specs.Crossings.{state_after};
ghost use Rattle.hp_walk.specs.Keys.{keys_by};
ghost use Rattle.hp_walk.specs.Asked.{asked, call_at, FitsStep};
ghost use Rattle.hp_walk.specs.After.{IsWithin, IsAfter, GoesOn, HeadsTo, entries_left};
ghost use Rattle.hp_model.specs.Plan.{keys_on};
ghost use Rattle.hp_walk.specs.Took.{Took, IsNextOnTheWay, IsNextInRollback};

use crate::position::Position;
use crate::states::next_state;
use crate::step::Step;
use hp_event::{Answer, How, Key};
use hp_hook::Hook;
use hp_states::{Dir, ONLINE, Place};
use hp_table::Table;

/// A walk of a processor from a state to another: where it stands.
///
/// It is a few numbers, and takes no memory. After `struct cpuhp_cpu_state`,
/// `cpuhp_invoke_callback_range` and `cpuhp_reset_state` of `kernel/cpu.c`; that a fault on the way
/// back always ends the walk is this project's own: there `cpuhp_up_callbacks` may go on past it.
#[derive(Clone, Copy)]
pub struct Walk {
    cpu: u32,
    from: u32,
    to: u32,
    shown: u32,
    position: Position,
}

impl Walk {
    /// The walk of a processor that goes from one state to another, with no entry made.
    ///
    /// The states are at most 200, and different. What is registered in the table when the walk
    /// begins is what it crosses: up, the states above `from` and up to `to`, rising; down, those
    /// above `to` and up to `from`, falling. Takes no memory, and time for the states up to the
    /// first with a key. After `cpuhp_up_callbacks` and `cpuhp_down_callbacks` of `kernel/cpu.c`; that
    /// a walk that goes down in PREPARE never turns back is this project's own.
    pub fn begin<H: Hook>(table: &Table<H>, cpu: u32, from: u32, to: u32) -> Walk
        requires states { (from ≤ ONLINE) × (to ≤ ONLINE) × (from ≢ to) }
        ensures walk { (result.cpu ≡ cpu) × (result.from ≡ from) × (result.to ≡ to) }
        ensures after { IsAfter (keys_by table.now) [] result }
        ensures most { entries_left (keys_by table.now) result ≤ 3 * keys_on (keys_by table.now) from to }
    {
        Walk {
            cpu,
            from,
            to,
            shown: from,
            position: next_on_the_way(table, Dir::between(from, to), from, to),
        }
    }

    /// The processor that walks. Takes no memory. After `struct cpuhp_cpu_state` of `kernel/cpu.c`.
    pub fn cpu(&self) -> u32
        ensures { result ≡ self.now.cpu }
    {
        self.cpu
    }

    /// The state that the walk began at, and to which its rollback goes. Takes no memory. After
    /// `cpuhp_reset_state` of `kernel/cpu.c`.
    pub fn from(&self) -> u32
        ensures { result ≡ self.now.from }
    {
        self.from
    }

    /// The state that the walk was begun to. Takes no memory. After `target` of
    /// `struct cpuhp_cpu_state` of `kernel/cpu.c`.
    pub fn to(&self) -> u32
        ensures { result ≡ self.now.to }
    {
        self.to
    }

    /// What comes next: an entry, or the end with the walk's answer.
    ///
    /// The keys of the table are those at `begin`. The answers:
    /// - `Ended(Ok(0))` where every state of the plan is crossed;
    /// - `Ended(Fault(e))` where a callback faulted with code e, and all that was done before is
    ///   rolled back, last state first;
    /// - `Ended(Stuck)` where a callback faulted in the rollback too. `at` is the state whose
    ///   teardown faulted, or in a rollback upwards the state below the one whose startup did.
    ///
    /// An entry of `Part` undoes one key of the state that faulted, or in a rollback does it again,
    /// and can't fail. Takes no memory,
    /// and a time that doesn't grow with the table. The order of the states is that of
    /// `core-api/cpu_hotplug.rst`; that of the instances of one, and Stuck, are this project's own.
    #[inline(always)]
    pub fn next<H: Hook>(&self, table: &Table<H>) -> Step
        requires { IsWithin (keys_by table.now) self.now }
        ensures asked { result ≡ asked (keys_by table.now) self.now }
        ensures means { GoesOn (keys_by table.now) self.now result }
    {
        let dir = Dir::between(self.from, self.to);
        match self.position {
            Position::Forward { state, key } => {
                call(table, state, key, dir, Place::Forward, key == 0)
            }
            Position::UndoingPart { state, key, .. } => {
                call(table, state, key, dir.opposite(), Place::Part, false)
            }
            Position::Back { state, key, .. } => {
                call(table, state, key, dir.opposite(), Place::Back, key == 0)
            }
            Position::RedoingPart { state, key, .. } => {
                call(table, state, key, dir, Place::Part, false)
            }
            Position::Ended(answer) => Step::Ended(answer),
        }
    }

    /// Goes on past the entry that `next` asks for: `how` says how it was made.
    ///
    /// `next` asks for an entry, and `how` fits its place: the entry is done, or it is a fault
    /// where one may come. The keys of the table are those at `begin`. Takes no memory, and time
    /// for the states up to the next with a key. After `cpuhp_invoke_callback_range` of
    /// `kernel/cpu.c`, which steps `st->state` before the callback and not behind it.
    pub fn took<H: Hook>(&mut self, table: &Table<H>, how: How)
        requires within { IsWithin (keys_by table.now) self.old }
        requires asked { FitsStep (asked (keys_by table.now) self.old) how }
        ensures { Took (keys_by table.now) how self.old self.new }
    {
        match self.position {
            Position::Forward { state, key } => self.took_forward(table, state, key, how),
            Position::UndoingPart {
                state,
                key,
                keys,
                code,
            } => self.took_undoing(table, state, key, keys, code),
            Position::Back { state, key, code } => self.took_back(table, state, key, code, how),
            Position::RedoingPart {
                state,
                key,
                keys,
                first,
                second,
            } => self.took_redoing(table, state, key, keys, first, second),
            Position::Ended(_) => unreachable!(),
        }
    }

    /// The state that the processor's `state` file shows: that of the last crossing that is done,
    /// less 1 if that went down, or where the walk began. Takes no memory. What the file shows in
    /// flight is this project's own.
    pub fn shown(&self) -> u32
        ensures { result ≡ self.now.shown }
    {
        self.shown
    }

    /// The state that the processor's `target` file shows: where the walk goes to, and from its
    /// first fault on where it began. Takes no memory. What the file shows in flight is this
    /// project's own.
    pub fn target(&self) -> u32
        ensures { HeadsTo self.now result }
    {
        if self.position.is_faultless() {
            self.to
        } else {
            self.from
        }
    }

    /// Goes on past an entry on the way to the target.
    fn took_forward<H: Hook>(&mut self, table: &Table<H>, state: u32, key: u32, how: How)
        requires position { self.old.position ≡ Position.Forward state key }
        requires within { IsWithin (keys_by table.now) self.old }
        requires asked { FitsStep (asked (keys_by table.now) self.old) how }
        ensures { Took (keys_by table.now) how self.old self.new }
    {
        let dir = Dir::between(self.from, self.to);
        match how.fault() {
            None if table.key_count(state) > key + 1 => {
                self.position = Position::Forward {
                    state,
                    key: key + 1,
                };
            }
            None => {
                self.shown = dir.state_after(state);
                self.position = next_on_the_way(table, dir, self.shown, self.to);
            }
            Some(code) if key > 0 => {
                self.position = Position::UndoingPart {
                    state,
                    key: 0,
                    keys: key,
                    code,
                };
            }
            Some(code) => {
                self.position = next_in_rollback(
                    table,
                    dir.opposite(),
                    dir.state_before(state),
                    self.from,
                    code,
                );
            }
        }
    }

    /// Goes on past an entry that undoes one of the earlier keys of the state that faulted on the
    /// way to the target.
    fn took_undoing<H: Hook>(
        &mut self,
        table: &Table<H>,
        state: u32,
        key: u32,
        keys: u32,
        code: u32,
    )
        requires position { self.old.position ≡ Position.UndoingPart state key keys code }
        requires within { IsWithin (keys_by table.now) self.old }
        ensures { (how : How) → is_done how ≡ true → Took (keys_by table.now) how self.old self.new }
    {
        prove!(keys < table.key_count(state));
        let dir = Dir::between(self.from, self.to);
        self.position = if key + 1 < keys {
            Position::UndoingPart {
                state,
                key: key + 1,
                keys,
                code,
            }
        } else {
            next_in_rollback(
                table,
                dir.opposite(),
                dir.state_before(state),
                self.from,
                code,
            )
        };
    }

    /// Goes on past an entry of the rollback.
    fn took_back<H: Hook>(&mut self, table: &Table<H>, state: u32, key: u32, code: u32, how: How)
        requires position { self.old.position ≡ Position.Back state key code }
        requires within { IsWithin (keys_by table.now) self.old }
        requires asked { FitsStep (asked (keys_by table.now) self.old) how }
        ensures { Took (keys_by table.now) how self.old self.new }
    {
        let dir = Dir::between(self.from, self.to);
        match how.fault() {
            None if table.key_count(state) > key + 1 => {
                self.position = Position::Back {
                    state,
                    key: key + 1,
                    code,
                };
            }
            None => {
                self.shown = dir.state_before(state);
                self.position = next_in_rollback(
                    table,
                    dir.opposite(),
                    self.shown,
                    self.from,
                    code,
                );
            }
            Some(second) if key > 0 => {
                self.position = Position::RedoingPart {
                    state,
                    key: 0,
                    keys: key,
                    first: code,
                    second,
                };
            }
            Some(second) => self.position = stuck(dir, state, code, second),
        }
    }

    /// Goes on past an entry that does again one of the earlier keys of the state that faulted in
    /// the rollback.
    fn took_redoing<H: Hook>(
        &mut self,
        table: &Table<H>,
        state: u32,
        key: u32,
        keys: u32,
        first: u32,
        second: u32,
    )
        requires position { self.old.position ≡ Position.RedoingPart state key keys first second }
        requires within { IsWithin (keys_by table.now) self.old }
        ensures { (how : How) → is_done how ≡ true → Took (keys_by table.now) how self.old self.new }
    {
        prove!(keys < table.key_count(state));
        let dir = Dir::between(self.from, self.to);
        self.position = if key + 1 < keys {
            Position::RedoingPart {
                state,
                key: key + 1,
                keys,
                first,
                second,
            }
        } else {
            stuck(dir, state, first, second)
        };
    }
}

/// The step that asks for the entry of a key.
fn call<H: Hook>(
    table: &Table<H>,
    state: u32,
    key: u32,
    dir: Dir,
    place: Place,
    first: bool,
) -> Step
    requires { key < length (keys_by table.now state) }
    ensures { result ≡ call_at (keys_by table.now) state key dir place first }
{
    let inst = table.key_inst(state, key);
    Step::Call {
        key: Key { state, inst },
        dir,
        place,
        first,
    }
}

/// Where a walk to a target stands that has reached a state: at the next state with a key, or at
/// its end.
fn next_on_the_way<H: Hook>(table: &Table<H>, dir: Dir, reached: u32, to: u32) -> Position
    requires { (reached ≤ ONLINE) × (to ≤ ONLINE) }
    ensures { IsNextOnTheWay (keys_by table.now) dir reached to result }
{
    match next_state(table, dir, reached, to) {
        Some(state) => Position::Forward { state, key: 0 },
        None => Position::Ended(Answer::Ok(0)),
    }
}

/// Where a rollback stands that has reached a state: at the next state with a key, in the direction
/// of the rollback, or at its end.
fn next_in_rollback<H: Hook>(
    table: &Table<H>,
    dir: Dir,
    reached: u32,
    from: u32,
    code: u32,
) -> Position
    requires { (reached ≤ ONLINE) × (from ≤ ONLINE) }
    ensures { IsNextInRollback (keys_by table.now) dir reached from code result }
{
    match next_state(table, dir, reached, from) {
        Some(state) => Position::Back {
            state,
            key: 0,
            code,
        },
        None => Position::Ended(Answer::Fault(code)),
    }
}

/// Where a walk stands whose rollback faulted too.
fn stuck(dir: Dir, state: u32, first: u32, second: u32) -> Position
    ensures { result ≡ Position.Ended (AnAnswer.Stuck first second (state_after dir state)) }
{
    Position::Ended(Answer::Stuck {
        first,
        second,
        at: dir.state_after(state),
    })
}
