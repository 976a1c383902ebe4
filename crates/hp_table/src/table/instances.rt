//! The instances of the table's states, and its keys.

ghost use Rattle.std.specs.Prelude.{◌≡◌, ◌≢◌, ◌+◌, ◌<◌, ◌≤◌, ◌↔◌, false, AllPairs, IfErr, IsErrOf, IsSome, IsTrue, OnOk, OnErr, length, slice_index};
ghost use Rattle.hp_table.specs.Step.{step_at, bare, changed_at};
ghost use Rattle.hp_table.specs.Instances.{instances_at, is_multi_at, has_instance, has_no_room, takes, CanAdd, with_instance, without_instance, HasAlready, LacksRoomFor, can_remove};
ghost use Rattle.hp_table.specs.Keys.{keys_by, keys_of, keys_between};
ghost use Rattle.hp_table.specs.Sound.{IsSound};

use crate::error::TableError;
use crate::table::Table;
use hp_hook::Hook;
use hp_states::{MAX_INSTANCES, MAX_TABLE_INSTANCES, ONLINE};

impl<H: Hook> Table<H> {
    /// The instances of a state, newest first, none where it isn't registered.
    ///
    /// There is no condition. Takes no memory, and a time that doesn't grow with the table. The
    /// order is that of the instance list of `struct cpuhp_step` of `kernel/cpu.c`.
    pub fn instances(&self, state: u32) -> &[u32]
        ensures all { result.now ≡ instances_at self.now state }
        ensures sound { IsSound self.now }
    {
        match self.registered(state) {
            Some(step) => step.instances(),
            None => &[],
        }
    }

    /// How many keys the states above `low` and up to `high` have: a registered state with an
    /// instance list one for each instance, another registered state one.
    ///
    /// There is no condition; above 200 there are no keys, and where `low` isn't below `high` there
    /// are none either. Takes no memory, and time for those states between where something is
    /// registered. That a key is a state and an instance is this project's own.
    pub fn keys_between(&self, low: u32, high: u32) -> u32
        ensures keys { result ≡ keys_between self.now low high }
        ensures within { result ≤ MAX_TABLE_INSTANCES + ONLINE + 1 }
        ensures sound { IsSound self.now }
    {
        // what is so of every table
        let _ = &self.places;
        let top = high.min(ONLINE);
        let mut from = low.min(top) + 1;
        let mut keys = 0;
        while let Some(state) = self.next_registered(from, top) {
            keys += self.key_count_at(state);
            from = state + 1;
        }
        keys
    }

    /// How many keys a state has: with an instance list one for each instance, registered without
    /// one a single one, and not registered none.
    ///
    /// There is no condition; above 200 there are no keys. Takes no memory, and a time that doesn't
    /// grow with the table. After `cpuhp_invoke_callback` of `kernel/cpu.c`.
    pub fn key_count(&self, state: u32) -> u32
        ensures count { result ≡ length (keys_by self.now state) }
        ensures keys { result ≡ keys_of (step_at self.now state) }
        ensures few { result ≤ MAX_INSTANCES }
        ensures distinct { AllPairs (λ i j. i ≢ j) (keys_by self.now state) }
        ensures sound { IsSound self.now }
    {
        match self.registered(state) {
            Some(step) => step.key_count(),
            None => 0,
        }
    }

    /// How many keys one of the 201 states has: as `key_count`.
    ///
    /// The state is at most 200. Takes no memory, and a time that doesn't grow with the table.
    pub fn key_count_at(&self, state: u32) -> u32
        requires { state ≤ ONLINE }
        ensures count { result ≡ length (keys_by self.now state) }
        ensures keys { result ≡ keys_of (step_at self.now state) }
        ensures few { result ≤ MAX_INSTANCES }
    {
        match self.registered_at(state) {
            Some(step) => step.key_count(),
            None => 0,
        }
    }

    /// The instance of a key of a state: the key's place is counted from 0 at the newest instance.
    /// A state that is registered without an instance list has the instance 0.
    ///
    /// The state has more than `key` keys. Takes no memory, and a time that doesn't grow with the
    /// table. The order is that of the instance list of `struct cpuhp_step` of `kernel/cpu.c`.
    pub fn key_inst(&self, state: u32, key: u32) -> u32
        requires { key < length (keys_by self.now state) }
        ensures { result ≡ slice_index (keys_by self.now state) key }
    {
        match self.registered(state) {
            Some(step) => step.key_inst(key),
            None => unreachable!(),
        }
    }

    /// Adds an instance to a state, whose newest it becomes. All else stays.
    ///
    /// The first of these that holds decides:
    /// - `Invalid` exactly where the instance is 0, or the state isn't registered as multi.
    /// - `Busy` exactly where the state has the instance already.
    /// - `TooMany` exactly where the state has 256 instances, or the table 4,096.
    /// - `NoMemory` where none of these holds and memory was wanting.
    ///
    /// There is no other answer. After a refusal the table is as before. Takes memory where the
    /// state's list has no spare place, and time for that list. After
    /// `__cpuhp_state_add_instance_cpuslocked` of `kernel/cpu.c`, which refuses a state that isn't
    /// multi and puts a new instance at the head; the other refusals are this project's own.
    pub fn add_instance(&mut self, state: u32, inst: u32) -> Result<(), TableError>
        ensures added { OnOk result (self.new ≡ changed_at self.old state (with_instance inst)) }
        ensures ok { OnOk result (CanAdd self.old state inst) }
        ensures invalid { IsErrOf result TableError.Invalid ↔ (takes self.old state inst ≡ false) }
        ensures busy { IsErrOf result TableError.Busy ↔ HasAlready self.old state inst }
        ensures too_many { IsErrOf result TableError.TooMany ↔ LacksRoomFor self.old state inst }
        ensures no_memory { IsErrOf result TableError.NoMemory → CanAdd self.old state inst }
        ensures no_other { IfErr result (λ error. error ≢ TableError.NoSpace) }
        ensures err { OnErr result (self.new ≡ self.old) }
    {
        if inst == 0 || !self.is_multi(state) {
            return Err(TableError::Invalid);
        }
        if self.has_instance(state, inst) {
            return Err(TableError::Busy);
        }
        if self.has_no_room(state) {
            return Err(TableError::TooMany);
        }
        self.link(state, inst)
    }

    /// Whether a state is registered with an instance list.
    ///
    /// There is no condition; a state above 200 isn't registered. Takes no memory. After
    /// `multi_instance` of `struct cpuhp_step` of `kernel/cpu.c`.
    pub fn is_multi(&self, state: u32) -> bool
        ensures { result ≡ is_multi_at self.now state }
    {
        match self.registered(state) {
            Some(step) => step.is_multi(),
            None => false,
        }
    }

    /// Whether a state has an instance.
    ///
    /// There is no condition; a state that isn't registered has none. Takes no memory, and time for
    /// the state's list. After the instance list of `struct cpuhp_step` of `kernel/cpu.c`.
    pub fn has_instance(&self, state: u32, inst: u32) -> bool
        ensures { result ≡ has_instance self.now state inst }
    {
        self.instances(state).contains(&inst)
    }

    /// Whether a state, or the table, has as many instances as it may have: 256, or 4,096.
    ///
    /// There is no condition; a state that isn't registered has none. Takes no memory, and a time
    /// that doesn't grow with the table. The limits are this project's own.
    pub fn has_no_room(&self, state: u32) -> bool
        ensures { result ≡ has_no_room self.now state }
    {
        self.instances(state).len() >= MAX_INSTANCES as usize || self.count >= MAX_TABLE_INSTANCES
    }

    /// Adds an instance that can be added.
    fn link(&mut self, state: u32, inst: u32) -> Result<(), TableError>
        requires { CanAdd self.old state inst }
        ensures added { OnOk result (self.new ≡ changed_at self.old state (with_instance inst)) }
        ensures no_memory { IfErr result (λ error. error ≡ TableError.NoMemory) }
        ensures err { OnErr result (self.new ≡ self.old) }
    {
        match &mut self.places[state as usize] {
            Some(step) => {
                if step.add(inst).is_err() {
                    return Err(TableError::NoMemory);
                }
            }
            None => unreachable!(),
        }
        self.count += 1;
        Ok(())
    }

    /// Takes an instance out of a state. The state's other instances keep their order, and all else
    /// stays.
    ///
    /// - `Invalid` exactly where the state isn't registered as multi or hasn't the instance.
    ///
    /// There is no other answer. After a refusal the table is as before. Takes no memory, and time
    /// for the state's list. After `__cpuhp_state_remove_instance` of `kernel/cpu.c`, which refuses
    /// a state that isn't multi; that an absent instance is refused is this project's own.
    pub fn remove_instance(&mut self, state: u32, inst: u32) -> Result<(), TableError>
        ensures removed { OnOk result (self.new ≡ changed_at self.old state (without_instance inst)) }
        ensures invalid { IsErrOf result TableError.Invalid ↔ (can_remove self.old state inst ≡ false) }
        ensures no_other { IfErr result (λ error. error ≡ TableError.Invalid) }
        ensures err { OnErr result (self.new ≡ self.old) }
    {
        if !self.is_multi(state) || !self.has_instance(state, inst) {
            return Err(TableError::Invalid);
        }
        self.unlink(state, inst);
        Ok(())
    }

    /// Takes all instances out of a state, whose record stays. All other states stay.
    ///
    /// There is no condition: where nothing is registered, or there are no instances, nothing
    /// changes. Takes no memory, and a time that doesn't grow with the table. That a state with
    /// instances isn't removed, where `__cpuhp_remove_state_cpuslocked` of `kernel/cpu.c` warns and
    /// goes on, and that they can be taken out at once, where a table is given up, is this project's
    /// own.
    pub fn clear_instances(&mut self, state: u32)
        ensures { self.new ≡ changed_at self.old state (λ step. bare step.kept) }
    {
        if self.registered(state).is_some() {
            self.unlink_all(state);
        }
    }

    /// Takes out the instances of a registered state.
    fn unlink_all(&mut self, state: u32)
        requires { IsSome (step_at self.old state) }
        ensures { self.new ≡ changed_at self.old state (λ step. bare step.kept) }
    {
        let many = self.instances(state).len() as u32;
        match &mut self.places[state as usize] {
            Some(step) => step.clear(),
            None => unreachable!(),
        }
        self.count -= many;
    }

    /// Takes out an instance that is there.
    fn unlink(&mut self, state: u32, inst: u32)
        requires { IsTrue (has_instance self.old state inst) }
        ensures { self.new ≡ changed_at self.old state (without_instance inst) }
    {
        match &mut self.places[state as usize] {
            Some(step) => step.remove(inst),
            None => unreachable!(),
        }
        self.count -= 1;
    }
}
