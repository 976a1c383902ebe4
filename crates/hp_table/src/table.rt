//! The table of states.

ghost use Rattle.std.specs.Prelude.{◌≡◌, ◌≢◌, ◌+◌, ◌<◌, ◌≤◌, ◌↔◌, ◌⊎◌, Some, None, true, false, IfOk, IfErr, IfSome, IsOk, IsErrOf, IsSome, IfNone, OnOk, OnErr, [], slice_set, replicate};
ghost use Rattle.std.specs.Option.{option_copied};
ghost use Rattle.hp_states.specs.Rules.{site_at};
ghost use Rattle.hp_table.specs.Step.{step_at, bare, changed_at, kept_of, called_step, loaded_step, lent_step, step_with, is_home, HasCounted, Answers, HasHook};
ghost use Rattle.hp_table.specs.Named.{is_named, IsAtAnEnd, IsFree, IsTaken, IsNextRegistered, IsNoneRegistered};
ghost use Rattle.hp_table.specs.Slots.{IsLowestFree, IsFull};
ghost use Rattle.hp_table.specs.Instances.{instances_at};
ghost use Rattle.hp_table.specs.Sound.{IsSound};

mod instances;

use crate::error::TableError;
use crate::record::Record;
use crate::registered::Registered;
use hp_hook::Hook;
use hp_states::{CpuSet, Dir, HookPlan, MAX_EVENTS, NoMemory, OFFLINE, ONLINE, Range, is_builtin};
use std::alloc::Global;
use std::marker::Model;

/// The table of states: what is registered at each, and its instances.
///
/// Contracts see a list with a place for each state from 0 on, 201 in all, and at each place the
/// record and the instances that are registered there, newest first, or none. What is so of every
/// table is `IsSound`: nothing is registered at a built-in state, a state has at most 256
/// instances, all different and none of them 0, and the table has at most 4,096.
#[derive(Drop)]
pub struct Table<H: Hook> {
    places: Vec<Option<Registered<H>>>,
    count: u32,
    // the numbers of the states where something is registered
    states: CpuSet,
}

impl<H: Hook> Model for Table<H> {
    ghost use Rattle.std.specs.Prelude.{List, Option};
    ghost use Rattle.hp_table.specs.Step.{Step};
    ghost use Rattle.hp_table.specs.Inside.{IsInside};

    ghost Value = { List (Option Step) };

    ghost view = { λ t. t.places.items };

    ghost invariant = { λ t. IsInside t.places.items t.count t.states };
}

impl<H: Hook> Table<H> {
    /// The table where nothing is registered: the built-in states alone have names.
    ///
    /// Takes memory for its 201 places; where there is none: `NoMemory`.
    pub fn new(alloc: Global) -> Result<Table<H>, NoMemory>
        ensures { IfOk result (λ table. table ≡ replicate (ONLINE + 1) None) }
    {
        let mut places = Vec::with_capacity(alloc, ONLINE as usize + 1)?;
        for _ in 0..ONLINE + 1 {
            places.push(None)?;
        }
        Ok(Table {
            places,
            count: 0,
            states: CpuSet::none(),
        })
    }

    /// What is so of every table, which callers cite: it does nothing.
    ///
    /// Takes no memory. The limits are this project's own.
    pub fn sound(&self)
        ensures { IsSound self.now }
    {
        let _ = &self.places;
    }

    /// What is registered at a state, if anything is.
    fn registered(&self, state: u32) -> Option<&Registered<H>>
        ensures there { option_copied result ≡ step_at self.now state }
        ensures sound { IsSound self.now }
    {
        // what is so of every table
        let _ = &self.places;
        if state > ONLINE {
            return None;
        }
        self.registered_at(state)
    }

    /// What is registered at one of the 201 states, if anything is.
    fn registered_at(&self, state: u32) -> Option<&Registered<H>>
        requires { state ≤ ONLINE }
        ensures there { option_copied result ≡ step_at self.now state }
        ensures sound { IsSound self.now }
    {
        self.places[state as usize].as_ref()
    }

    /// The lowest state from one on and up to another where something is registered.
    ///
    /// Both may be any numbers; nothing is registered above 200. Takes no memory, and a constant time. That the states
    /// where something is registered are kept as a set is this project's own.
    pub fn next_registered(&self, from: u32, to: u32) -> Option<u32>
        ensures some { IfSome result (IsNextRegistered self.now from to) }
        ensures none { IfNone result (IsNoneRegistered self.now from to) }
    {
        match self.states.first_from(from) {
            Some(state) if state <= to => Some(state),
            _ => None,
        }
    }

    /// Whether a state has a name: it is built in, or something is registered there.
    ///
    /// There is no condition; a state above 200 has no name. Takes no memory. As in
    /// `cpuhp_store_callbacks` of `kernel/cpu.c` a state with a name is taken.
    pub fn is_named(&self, state: u32) -> bool
        ensures named { result ≡ is_named self.now state }
        ensures sound { IsSound self.now }
    {
        let registered = self.registered(state).is_some();
        is_builtin(state) || registered
    }

    /// The lowest slot of a dynamic range that has no name: 41 to 61, or 141 to 171.
    ///
    /// - `NoSpace` exactly where each of the 21 or 31 has one.
    ///
    /// There is no other answer. Takes no memory, and time for the range alone. After
    /// `cpuhp_reserve_state` of `kernel/cpu.c`.
    pub fn slot(&self, range: Range) -> Result<u32, TableError>
        ensures lowest { IfOk result (λ state. IsLowestFree self.now range state) }
        ensures no_space { IsErrOf result TableError.NoSpace ↔ IsFull self.now range }
        ensures no_other { IfErr result (λ error. error ≡ TableError.NoSpace) }
    {
        for state in range.first()..range.last() + 1 {
            if !self.is_named(state) {
                return Ok(state);
            }
        }
        Err(TableError::NoSpace)
    }

    /// Registers a record at a state, without instances. All other states stay.
    ///
    /// - `Invalid` exactly where the state is 0, or 200 or above.
    /// - `Busy` exactly where it is between them and has a name, built in or registered.
    ///
    /// There is no other answer. A refusal hands the record back, and the table is as before. The
    /// record's hook is there. Takes no memory. After `cpuhp_store_callbacks` of `kernel/cpu.c`,
    /// and `cpuhp_cb_check` for the first refusal.
    pub fn install(&mut self, state: u32, rec: Record<H>) -> Result<(), (TableError, Record<H>)>
        requires { rec.home ≡ true }
        ensures ok { IsOk result ↔ IsFree self.old state }
        ensures installed { OnOk result (self.new ≡ slice_set self.old state (Some (bare rec))) }
        ensures invalid { IsErrOf result (TableError.Invalid, rec) ↔ IsAtAnEnd state }
        ensures busy { IsErrOf result (TableError.Busy, rec) ↔ IsTaken self.old state }
        ensures err { OnErr result (self.new ≡ self.old) }
    {
        if state == OFFLINE || state >= ONLINE {
            return Err((TableError::Invalid, rec));
        }
        if self.is_named(state) {
            return Err((TableError::Busy, rec));
        }
        let alloc = *self.places.allocator();
        self.places[state as usize] = Some(Registered::new(alloc, rec));
        self.states.put(state);
        Ok(())
    }

    /// Ends the registration of a state, and hands out its record as it stood. All other states
    /// stay.
    ///
    /// - `Invalid` exactly where nothing is registered there, which is so of a state above 200.
    /// - `Busy` exactly where it is registered and has instances left.
    ///
    /// There is no other answer. After a refusal the table is as before. The hook of the state is
    /// not lent. Takes no memory. After `__cpuhp_remove_state_cpuslocked` of `kernel/cpu.c`, which
    /// warns where instances are left; the refusals are this project's own.
    pub fn uninstall(&mut self, state: u32) -> Result<Record<H>, TableError>
        requires { is_home (step_at self.old state) ≡ true }
        ensures ok { IfOk result (λ rec. step_at self.old state ≡ Some (bare rec)) }
        ensures gone { OnOk result (self.new ≡ slice_set self.old state None) }
        ensures invalid { IsErrOf result TableError.Invalid ↔ (step_at self.old state ≡ None) }
        ensures busy { IsErrOf result TableError.Busy ↔ (instances_at self.old state ≢ []) }
        ensures no_other { IfErr result (λ error. (error ≡ TableError.Invalid) ⊎ (error ≡ TableError.Busy)) }
        ensures err { OnErr result (self.new ≡ self.old) }
    {
        let Some(step) = self.registered(state) else {
            return Err(TableError::Invalid);
        };
        if !step.instances().is_empty() {
            return Err(TableError::Busy);
        }
        Ok(self.take_out(state))
    }

    /// Takes out what is registered at a state, where no instances are left.
    fn take_out(&mut self, state: u32) -> Record<H>
        requires registered { IsSome (step_at self.old state) }
        requires no_instances { instances_at self.old state ≡ [] }
        ensures record_there { step_at self.old state ≡ Some (bare result) }
        ensures gone { self.new ≡ slice_set self.old state None }
    {
        self.states.take(state);
        match self.places[state as usize].take() {
            Some(step) => step.into_record(),
            None => unreachable!(),
        }
    }

    /// The record that is registered at a state, or none where nothing is.
    ///
    /// There is no condition; nothing is registered above 200. Takes no memory. After
    /// `cpuhp_get_step` of `kernel/cpu.c`.
    pub fn step(&self, state: u32) -> Option<&Record<H>>
        ensures record_there { option_copied result ≡ kept_of (step_at self.now state) }
        ensures sound { IsSound self.now }
    {
        match self.registered(state) {
            Some(step) => Some(step.record()),
            None => None,
        }
    }

    /// Calls the hook of a state once, for a processor, an instance and a direction, and answers
    /// what it answers. All else stays.
    ///
    /// The state is registered, its hook is not lent, and the hook's `made` is below 1,048,576, the
    /// most events of a journal. `inst` is 0 at a state without an instance list. Takes no memory,
    /// and a time that doesn't grow with the table. After `cpuhp_invoke_callback` of
    /// `kernel/cpu.c`.
    pub fn call(&mut self, state: u32, cpu: u32, inst: u32, dir: Dir) -> u32
        requires registered { IsSome (step_at self.old state) }
        requires home { is_home (step_at self.old state) ≡ true }
        requires few { IfSome (step_at self.old state) (λ step. step.kept.counts.made < MAX_EVENTS) }
        ensures answer { Answers (step_at self.old state) (site_at cpu inst dir) result }
        ensures called { self.new ≡ changed_at self.old state (called_step (site_at cpu inst dir)) }
    {
        let place = state as usize;
        match &mut self.places[place] {
            Some(step) => step.call(cpu, inst, dir),
            None => unreachable!(),
        }
    }

    /// Loads the hook of a state with a plan, which begins its counts again at 0. All else stays.
    ///
    /// The state is registered, and its hook is not lent. Takes no memory. That a hook has a plan
    /// is this project's own.
    pub fn load(&mut self, state: u32, plan: HookPlan)
        requires registered { IsSome (step_at self.old state) }
        requires home { is_home (step_at self.old state) ≡ true }
        ensures { self.new ≡ changed_at self.old state (loaded_step plan) }
    {
        match &mut self.places[state as usize] {
            Some(step) => step.load(plan),
            None => unreachable!(),
        }
    }

    /// Whether the hook of a state is there, and not lent; it is where nothing is registered.
    ///
    /// There is no condition. Takes no memory. That hooks are lent is this project's own.
    pub fn is_home(&self, state: u32) -> bool
        ensures { result ≡ is_home (step_at self.now state) }
    {
        match self.registered(state) {
            Some(step) => step.record().is_home(),
            None => true,
        }
    }

    /// Lends the hook of a state: it is out of the table until `restore`. All else stays, and of
    /// the hook contracts see what it was as it was lent.
    ///
    /// None exactly where nothing is registered at the state, or its hook is lent; then nothing has
    /// changed. Takes no memory. That hooks are lent is this project's own.
    pub fn lend(&mut self, state: u32) -> Option<H>
        ensures some { IsSome result ↔ HasHook (step_at self.old state) }
        ensures hook { IfSome result (λ h. HasCounted (H.counts h) (step_at self.old state)) }
        ensures lent { self.new ≡ changed_at self.old state lent_step }
    {
        if self.registered(state).is_none() {
            return None;
        }
        self.take_hook(state)
    }

    /// Takes the hook out of what is registered at a state.
    fn take_hook(&mut self, state: u32) -> Option<H>
        requires { IsSome (step_at self.old state) }
        ensures some { IsSome result ↔ (is_home (step_at self.old state) ≡ true) }
        ensures hook { IfSome result (λ h. HasCounted (H.counts h) (step_at self.old state)) }
        ensures lent { self.new ≡ changed_at self.old state lent_step }
    {
        match &mut self.places[state as usize] {
            Some(step) => step.lend(),
            None => unreachable!(),
        }
    }

    /// Puts a hook back in place of the one of a state that is lent. All else stays.
    ///
    /// The state is registered, and its hook is lent. Takes no memory. That hooks are lent is this
    /// project's own.
    pub fn restore(&mut self, state: u32, hook: H)
        requires registered { IsSome (step_at self.old state) }
        requires lent { is_home (step_at self.old state) ≡ false }
        ensures { self.new ≡ changed_at self.old state (step_with (H.counts hook)) }
    {
        match &mut self.places[state as usize] {
            Some(step) => step.restore(hook),
            None => unreachable!(),
        }
    }
}
