//! What is kept of the events so far, step by step.

ghost use Rattle.std.specs.Prelude.{◌≡◌, ◌<◌, ℕ, [], false, IfOk, OnOk, Some, None, length, slice_set};
ghost use Rattle.hp_model.specs.Shown.{is_last as is_last_in};
ghost use Rattle.hp_print.specs.Steps.{asked_after, subs_after, all_insts_after};
ghost use Rattle.hp_timeline.specs.Spans.{class_of as class_of_answer};
ghost use Rattle.hp_timeline.specs.Scenes.{IsScene, first_lanes as first_lanes_of, set_out, arrived, lane_at, crossed, is_last_of, is_last_key as is_last_key_of, lanes_after, operation_after, registration_after, section_at, section_with, section_after, walking_span, begun_span, reading_span, one_event as one_event_of, ended_in};

use crate::span::{Class, Row, Span};
use hp_event::{Answer, Event, Head, How};
use hp_model::is_multi;
use hp_print::StateTally;
use hp_states::{Dir, OFFLINE, first_state};
use std::alloc::{AllocError, Global};

/// A walk in flight: the place of its first event, and where it goes.
#[derive(Clone, Copy)]
pub struct Walking {
    pub first: u32,
    pub to: u32,
}

/// Where a processor stands: its settled state, the state that its file shows, and its walk in flight.
#[derive(Clone, Copy)]
pub struct Lane {
    pub settled: u32,
    pub shown: u32,
    pub walk: Option<Walking>,
}

/// An operation or a registration in flight: whose it is, and the place of its first event.
#[derive(Clone, Copy)]
pub struct Begun {
    pub seat: u32,
    pub first: u32,
}

/// What is kept of some events.
#[derive(Drop)]
pub struct Scene {
    /// The processors, each at its number.
    pub lanes: Vec<Lane>,
    /// What is registered.
    pub states: StateTally,
    /// The operation that holds the map lock.
    pub operation: Option<Begun>,
    /// The registration in flight.
    pub registration: Option<Begun>,
    /// The places where the read sections of the seats begin, each at its number, up to the highest seat that has read.
    pub sections: Vec<Option<u32>>,
}

/// The lanes before any event: processor 0 is up, the others are down.
fn first_lanes(alloc: Global, possible: u32) -> Result<Vec<Lane>, AllocError>
    ensures { IfOk result (λ lanes. lanes.items ≡ first_lanes_of possible) }
{
    let mut lanes = Vec::new(alloc);
    for cpu in 0..possible {
        let state = first_state(cpu);
        lanes.push(Lane {
            settled: state,
            shown: state,
            walk: None,
        })?;
    }
    Ok(lanes)
}

/// A walk of a processor begins at a place.
fn begin_walk(lanes: &mut Vec<Lane>, cpu: u32, place: u32, from: u32, to: u32)
    ensures { lanes.new.items
        ≡ slice_set lanes.old.items cpu (set_out place from to (lane_at lanes.old.items cpu)) }
{
    let at = cpu as usize;
    if at < lanes.len() {
        lanes[at] = Lane {
            settled: lanes[at].settled,
            shown: from,
            walk: Some(Walking { first: place, to }),
        };
    }
}

/// A walk of a processor ends.
fn end_walk(lanes: &mut Vec<Lane>, cpu: u32, answer: Answer)
    ensures { lanes.new.items ≡ slice_set lanes.old.items cpu (arrived answer (lane_at lanes.old.items cpu)) }
{
    let at = cpu as usize;
    if at < lanes.len() {
        let stood = lanes[at].settled;
        let to = match lanes[at].walk {
            Some(walk) => walk.to,
            None => stood,
        };
        let state = answer.leaves_at(to, stood);
        lanes[at] = Lane {
            settled: state,
            shown: state,
            walk: None,
        };
    }
}

/// Whether an instance is the last of a list.
fn is_last(insts: &[u32], inst: u32) -> bool
    ensures { result ≡ is_last_in insts.now inst }
{
    match insts.last().copied() {
        Some(last) => last == inst,
        None => false,
    }
}

/// Whether a key is the last of its state.
fn is_last_key(states: &StateTally, head: &Head, state: u32, inst: u32) -> bool
    ensures { result ≡ is_last_key_of head.now states.now state inst }
{
    let at = state as usize;
    match states.subs.get(at).copied().unwrap_or(None) {
        None => false,
        Some(sub) if !is_multi(head, sub) => inst == 0,
        Some(_) => at < states.insts.len() && is_last(states.insts[at].as_slice(), inst),
    }
}

/// Makes a place for a seat.
fn reach(sections: &mut Vec<Option<u32>>, seat: u32) -> Result<(), AllocError>
    ensures same { OnOk result ((k : ℕ) → section_at sections.new.items k ≡ section_at sections.old.items k) }
    ensures reached { OnOk result (seat < length sections.new.items) }
{
    let missing = (seat as usize + 1).saturating_sub(sections.len());
    for _ in 0..missing {
        sections.push(None)?;
    }
    Ok(())
}

/// A section begins at a place.
fn begin_section(sections: &mut Vec<Option<u32>>, seat: u32, place: u32) -> Result<(), AllocError>
    ensures { OnOk result ((k : ℕ) → section_at sections.new.items k
        ≡ section_with seat (Some place) sections.old.items k) }
{
    reach(sections, seat)?;
    sections[seat as usize] = Some(place);
    Ok(())
}

/// A section ends.
fn end_section(sections: &mut Vec<Option<u32>>, seat: u32)
    ensures { (k : ℕ) → section_at sections.new.items k ≡ section_with seat None sections.old.items k }
{
    let at = seat as usize;
    if at < sections.len() {
        sections[at] = None;
    }
}

impl Scene {
    /// What is kept of no events.
    pub fn new(alloc: Global, head: &Head) -> Result<Scene, AllocError>
        ensures { IfOk result (IsScene head.now []) }
    {
        Ok(Scene {
            lanes: first_lanes(alloc, head.possible)?,
            states: StateTally::new(alloc)?,
            operation: None,
            registration: None,
            sections: Vec::new(alloc),
        })
    }

    /// A state of a processor was crossed, where its walk made the entry of the state's last key.
    fn cross(&mut self, head: &Head, cpu: u32, state: u32, inst: u32, dir: Dir, how: How)
        ensures lanes { self.new.lanes.items
            ≡ crossed (is_last_key_of head.now self.old.states state inst) cpu state dir how self.old.lanes.items }
        ensures states { self.new.states ≡ self.old.states }
        ensures operation { self.new.operation ≡ self.old.operation }
        ensures registration { self.new.registration ≡ self.old.registration }
        ensures sections { self.new.sections.items ≡ self.old.sections.items }
    {
        let at = cpu as usize;
        if at < self.lanes.len()
            && self.lanes[at].walk.is_some()
            && how.is_done()
            && is_last_key(&self.states, head, state, inst)
        {
            self.lanes[at].shown = dir.state_after(state);
        }
    }

    /// Takes the event of a place, which is the next.
    #[inline(always)]
    pub fn take(&mut self, head: &Head, place: u32, event: &Event) -> Result<(), AllocError>
        ensures lanes { OnOk result (self.new.lanes.items ≡ lanes_after head.now place self.old event.now) }
        ensures operation { OnOk result (self.new.operation ≡ operation_after place self.old.operation event.now) }
        ensures registration { OnOk result (self.new.registration
            ≡ registration_after place self.old.registration event.now) }
        ensures sections { OnOk result ((k : ℕ) → section_at self.new.sections.items k
            ≡ section_after place self.old.sections.items event.now k) }
        ensures asked { OnOk result (self.new.states.asked ≡ asked_after self.old.states.asked event.now) }
        ensures subs { OnOk result (self.new.states.subs.items
            ≡ subs_after self.old.states.asked self.old.states.subs.items event.now) }
        ensures insts { OnOk result (self.new.states.insts.items
            ≡ all_insts_after self.old.states.asked self.old.states.subs.items self.old.states.insts.items event.now) }
    {
        match *event {
            Event::WalkBegin { cpu, from, to, .. } => {
                begin_walk(&mut self.lanes, cpu, place, from, to)
            }
            Event::Call {
                cpu,
                state,
                inst,
                dir,
                how,
                ..
            } => self.cross(head, cpu, state, inst, dir, how),
            Event::WalkEnd { cpu, answer, .. } => end_walk(&mut self.lanes, cpu, answer),
            Event::Enter { seat, .. } => self.operation = Some(Begun { seat, first: place }),
            Event::OpEnd { .. } => self.operation = None,
            Event::RegBegin { seat, state, op } => {
                self.registration = Some(Begun { seat, first: place });
                self.states.begin(state, op);
            }
            Event::RegEnd { answer, .. } => {
                self.registration = None;
                self.states.end(answer)?;
            }
            Event::ReadLock { seat } => begin_section(&mut self.sections, seat, place)?,
            Event::ReadUnlock { seat } => end_section(&mut self.sections, seat),
            _ => {}
        }
        Ok(())
    }

    /// The state that the file of a processor shows.
    pub fn shown(&self, cpu: u32) -> u32
        ensures { result ≡ (lane_at self.now.lanes.items cpu).shown }
    {
        match self.lanes.get(cpu as usize) {
            Some(lane) => lane.shown,
            None => OFFLINE,
        }
    }

    /// The walk of a processor that is in flight.
    fn walk(&self, cpu: u32) -> Option<Walking>
        ensures { result ≡ (lane_at self.now.lanes.items cpu).walk }
    {
        match self.lanes.get(cpu as usize) {
            Some(lane) => lane.walk,
            None => None,
        }
    }

    /// Where the read section of a seat begins.
    fn section(&self, seat: u32) -> Option<u32>
        ensures { result ≡ section_at self.now.sections.items seat }
    {
        self.sections.get(seat as usize).copied().unwrap_or(None)
    }

    /// What is in flight of a processor, up to a place.
    pub fn going_walk(&self, cpu: u32, last: u32) -> Option<Span>
        ensures { result ≡ walking_span Class.Going false last cpu (lane_at self.now.lanes.items cpu).walk }
    {
        span_of_walk(Class::Going, false, last, cpu, self.walk(cpu))
    }

    /// The read section of a seat that is in flight, up to a place.
    pub fn going_section(&self, seat: u32, last: u32) -> Option<Span>
        ensures { result
            ≡ reading_span Class.Going false last seat (section_at self.now.sections.items seat) }
    {
        span_of_section(Class::Going, false, last, seat, self.section(seat))
    }

    /// What the event of a place ends.
    pub fn ended(&self, place: u32, event: &Event) -> Option<Span>
        ensures { result ≡ ended_in self.now place event.now }
    {
        match *event {
            Event::WalkEnd { cpu, answer, .. } => {
                span_of_walk(class_of(answer), true, place, cpu, self.walk(cpu))
            }
            Event::OpEnd { answer, .. } => {
                span_of_begun(class_of(answer), true, place, self.operation)
            }
            Event::RegEnd { answer, .. } => {
                span_of_begun(class_of(answer), true, place, self.registration)
            }
            Event::ReadUnlock { seat } => {
                span_of_section(Class::Done, true, place, seat, self.section(seat))
            }
            Event::Refused { seat, .. } => Some(one_event(Class::Refused, place, seat)),
            Event::Armed { seat, .. } | Event::Shown { seat, .. } | Event::Wakeup { seat } => {
                Some(one_event(Class::Done, place, seat))
            }
            _ => None,
        }
    }
}

/// How something ended that has this answer.
fn class_of(answer: Answer) -> Class
    ensures { result ≡ class_of_answer answer }
{
    match answer {
        Answer::Ok(_) => Class::Done,
        Answer::Refused(_) => Class::Refused,
        Answer::Fault(_) => Class::Faulted,
        Answer::Stuck { .. } => Class::Stuck,
        Answer::LogFull => Class::Full,
    }
}

/// The walk of a processor, from its first event to a place.
fn span_of_walk(
    class: Class,
    is_over: bool,
    last: u32,
    cpu: u32,
    walk: Option<Walking>,
) -> Option<Span>
    ensures { result ≡ walking_span class is_over last cpu walk }
{
    let walk = walk?;
    Some(Span {
        row: Row::Processor(cpu),
        class,
        first: walk.first,
        last,
        is_over,
    })
}

/// An operation or a registration, from its first event to a place.
pub fn span_of_begun(class: Class, is_over: bool, last: u32, begun: Option<Begun>) -> Option<Span>
    ensures { result ≡ begun_span class is_over last begun }
{
    let begun = begun?;
    Some(Span {
        row: Row::Operations(begun.seat),
        class,
        first: begun.first,
        last,
        is_over,
    })
}

/// The read section of a seat, from its first event to a place.
fn span_of_section(
    class: Class,
    is_over: bool,
    last: u32,
    seat: u32,
    first: Option<u32>,
) -> Option<Span>
    ensures { result ≡ reading_span class is_over last seat first }
{
    let first = first?;
    Some(Span {
        row: Row::Section(seat),
        class,
        first,
        last,
        is_over,
    })
}

/// An operation that one event answers.
fn one_event(class: Class, place: u32, seat: u32) -> Span
    ensures { Some result ≡ one_event_of class place seat }
{
    Span {
        row: Row::Operations(seat),
        class,
        first: place,
        last: place,
        is_over: true,
    }
}
