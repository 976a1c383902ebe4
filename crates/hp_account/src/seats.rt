//! Who is in.

ghost use Rattle.std.specs.Prelude.{◌≡◌, ◌<◌, ◌≤◌, ◌+◌, None, Some, [], IfOk, OnOk, OnErr, length, replicate, slice_set};
ghost use Rattle.hp_account.specs.Places.{at_place};
ghost use Rattle.hp_account.specs.Seats.{SeatsView, HasPlace, clients_of, clients_among, one_client, with_seat, without_seat, IsTakenBack, IsWithoutLast};

use hp_event::Role;
use hp_states::{MAX_SEATS, NoMemory};
use std::alloc::Global;
use std::marker::Model;

/// The seats of a machine: who is in with which role, and who is whose thread.
///
/// Contracts see both lists (`Roll`): the role of each seat that was admitted, by its number, none
/// once it has left; and the seat of each possible processor's thread, if it is in.
#[derive(Drop)]
pub struct Seats {
    roles: Vec<Option<Role>>,
    threads: Vec<Option<u32>>,
    clients: u32,
}

impl Model for Seats {
    ghost use Rattle.hp_account.specs.Seats.{SeatsView, IsCounted};

    ghost Value = { SeatsView };

    ghost view = { λ s. record { roles = s.roles.items; threads = s.threads.items } };

    ghost invariant = { λ s. IsCounted s.roles.items s.clients };
}

impl Seats {
    /// The seats of a machine with so many possible processors, before any came in. Takes memory for
    /// a place for each processor.
    pub fn new(alloc: Global, cpus: u32) -> Result<Seats, NoMemory>
        ensures { IfOk result (λ s. s ≡ record { roles = []; threads = replicate cpus None }) }
    {
        Ok(Seats {
            roles: Vec::new(alloc),
            threads: vec![in alloc; None; cpus as usize]?,
            clients: 0,
        })
    }

    /// Lets the next seat in.
    ///
    /// Fewer than `MAX_SEATS` were admitted before, and where it is a thread its processor is one of
    /// the machine's. Takes memory; where that is wanting nothing has changed.
    pub fn admit(&mut self, role: Role) -> Result<(), NoMemory>
        requires few { length self.old.roles < MAX_SEATS }
        requires place { HasPlace role (length self.old.threads) }
        ensures ok { OnOk result (self.new ≡ with_seat role self.old) }
        ensures err { OnErr result (self.new ≡ self.old) }
    {
        let seat = self.roles.len() as u32;
        self.roles.push(Some(role))?;
        match role {
            Role::Client => self.clients += 1,
            Role::Ap(cpu) => self.threads[cpu as usize] = Some(seat),
        }
        Ok(())
    }

    /// Takes back an admission of this role, after which nothing has changed. Takes no memory, and time for the
    /// seats.
    pub(crate) fn retract(&mut self, role: Role)
        requires { HasPlace role (length self.old.threads) }
        ensures { IsTakenBack role self.old self.new }
    {
        drop_last(&mut self.roles);
        self.clients = clients_among(self.roles.as_slice());
        if let Role::Ap(cpu) = role {
            clear(&mut self.threads, cpu);
        }
    }

    /// Lets a seat go, which is in. Takes no memory.
    pub fn leave(&mut self, seat: u32)
        requires { seat < length self.old.roles }
        ensures { self.new ≡ without_seat seat self.old }
    {
        let role = self.role(seat);
        self.clients = clients_without(self.clients, role);
        self.roles[seat as usize] = None;
        if let Some(Role::Ap(cpu)) = role {
            if let Some(thread) = self.threads.get_mut(cpu as usize) {
                *thread = None;
            }
        }
    }

    /// The role of a seat that is in. Takes no memory.
    pub fn role(&self, seat: u32) -> Option<Role>
        ensures { result ≡ at_place self.now.roles seat }
    {
        self.roles.get(seat as usize).copied().flatten()
    }

    /// The seat of a processor's thread, if it is in. Takes no memory.
    pub fn thread(&self, cpu: u32) -> Option<u32>
        ensures { result ≡ at_place self.now.threads cpu }
    {
        self.threads.get(cpu as usize).copied().flatten()
    }

    /// How many seats were ever admitted. Takes no memory.
    pub fn admitted(&self) -> u32
        ensures { result ≡ length self.now.roles }
    {
        self.roles.len() as u32
    }

    /// How many clients are in. Takes no memory, and a time that doesn't grow with the seats.
    pub fn clients(&self) -> u32
        ensures { result ≡ clients_of self.now }
    {
        self.clients
    }
}

/// How many of the roles are a client's.
fn clients_among(roles: &[Option<Role>]) -> u32
    requires { length roles.now ≤ MAX_SEATS }
    ensures { result ≡ clients_among roles.now }
{
    roles
        .iter()
        .filter(|role| **role == Some(Role::Client))
        .count() as u32
}

/// How many clients are in without a seat of this role.
fn clients_without(clients: u32, role: Option<Role>) -> u32
    requires { one_client role ≤ clients }
    ensures { result + one_client role ≡ clients }
{
    match role {
        Some(Role::Client) => clients - 1,
        _ => clients,
    }
}

/// Nobody is the thread of a processor any more.
fn clear(threads: &mut Vec<Option<u32>>, cpu: u32)
    requires { cpu < length threads.old.items }
    ensures { threads.new.items ≡ slice_set threads.old.items cpu None }
{
    threads[cpu as usize] = None;
}

/// Without the last role.
fn drop_last(roles: &mut Vec<Option<Role>>)
    ensures dropped { IsWithoutLast roles.old.items roles.new.items }
    ensures few { length roles.new.items ≤ length roles.old.items }
{
    roles.pop();
}
