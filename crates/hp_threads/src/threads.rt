//! The threads of a run: what each promises, and what was started.

ghost use Rattle.hp_threads.specs.Jobs.{HasRun, HasStayed};

use crate::job::Job;
use hp_hook::Hook;
use hp_live::{Left, ParkedAp};
use std::snapshot::Snapshot;
use std::thread::{Promise, PromisedHandle};

/// What an actor's thread promises.
#[derive(Drop)]
pub(crate) struct Acting<H: Hook + Send> {
    pub(crate) job: Snapshot<Job<H>>,
}

impl<H: Hook + Send> Promise<Left<H>> for Acting<H> {
    ghost kept_by = { λ p r. HasRun p.job.value r };
}

/// What the thread of a processor promises.
#[derive(Drop)]
pub(crate) struct Serving<H: Hook + Send> {
    pub(crate) pass: Snapshot<ParkedAp<H>>,
}

impl<H: Hook + Send> Promise<ParkedAp<H>> for Serving<H> {
    ghost kept_by = { λ p r. HasStayed p.pass.value r };
}

/// An actor whose thread was started, or what it left where it was run by the caller.
#[derive(Drop)]
pub(crate) enum ActorThread<H: Hook + Send> {
    Started(PromisedHandle<Left<H>, Acting<H>>),
    Ran(Left<H>),
}

/// The same of a processor's thread.
#[derive(Drop)]
pub(crate) enum ServerThread<H: Hook + Send> {
    Started(PromisedHandle<ParkedAp<H>, Serving<H>>),
    Ran(ParkedAp<H>),
}

/// All threads of a run: those of the actors, in their order, and those of the processors.
#[derive(Drop)]
pub(crate) struct Crew<H: Hook + Send> {
    pub(crate) actors: Vec<ActorThread<H>>,
    pub(crate) servers: Vec<ServerThread<H>>,
}

/// The memory that a run takes before its threads are started: for those, and for what comes of them.
#[derive(Drop)]
pub(crate) struct Room<H: Hook + Send> {
    pub(crate) crew: Crew<H>,
    pub(crate) lefts: Vec<Left<H>>,
    pub(crate) passes: Vec<ParkedAp<H>>,
}
