//! What the lines alone decide: that enters and exits nest, and that a callback is called on its own processor.

ghost use Rattle.std.specs.Prelude.{◌≡◌, ◌≤◌};
ghost use Rattle.hp_trace.specs.Nest as spec;

use crate::event::{Event, Function, Mark, Payload};

/// A function that was entered and not yet left.
#[derive(Clone, Copy)]
pub struct Open {
    /// The number of the line of its enter.
    pub line: u32,
    /// The processor that goes up or down.
    pub cpu: u32,
    /// The state whose callback it is.
    pub step: u32,
}

/// What is open behind some lines of a trace.
#[derive(Clone, Copy)]
pub struct Nest {
    /// The function in which others are called.
    pub mark: Option<Open>,
    /// The callback, in it or alone.
    pub call: Option<Open>,
    /// The lowest state whose callback a line has shown to boot a processor or to take it down: the callbacks of
    /// the states above it are made by the processor's own thread.
    pub border: Option<u32>,
}

/// Why an event can't stand behind the lines before it.
#[derive(Clone, Copy)]
pub enum Fault {
    /// It enters a function while a callback is open.
    WithinCall(Open),
    /// It enters one of another processor than the function has that is open.
    OfAnother(Open),
    /// It enters one in which others are called, within another such.
    WithinMark(Open),
    /// It leaves one of another processor or state than the last that is open.
    NotLast(Open),
    /// It leaves one, and none is open.
    NoEnter,
    /// A callback that the processor's own thread makes is made on this other processor.
    NotOwn(u32),
}

/// Whether a callback of this state may be made on that processor.
fn is_own(border: Option<u32>, step: u32, cpu: u32, on: Option<u32>) -> bool
    ensures { result ≡ spec.is_own border step cpu on }
{
    match (border, on) {
        (Some(border), Some(on)) => step <= border || on == cpu,
        _ => true,
    }
}

/// The border behind the enter of a function that boots a processor or takes it down.
fn lower(border: Option<u32>, step: u32) -> Option<u32>
    ensures { result ≡ spec.lower border step }
{
    match border {
        None => Some(step),
        Some(border) => {
            if step <= border {
                Some(step)
            } else {
                Some(border)
            }
        }
    }
}

impl Nest {
    /// What is open before the first line: nothing.
    pub fn new() -> Nest
        ensures { result ≡ spec.nothing }
    {
        Nest {
            mark: None,
            call: None,
            border: None,
        }
    }

    /// Why a function of this processor can't be entered, whichever it is.
    fn no_room(&self, cpu: u32) -> Option<Fault>
        ensures { result ≡ spec.no_room self.now cpu }
    {
        match (self.call, self.mark) {
            (Some(call), _) => Some(Fault::WithinCall(call)),
            (None, Some(mark)) => {
                if mark.cpu == cpu {
                    None
                } else {
                    Some(Fault::OfAnother(mark))
                }
            }
            (None, None) => None,
        }
    }

    /// Why a function can't be entered.
    fn enter_fault(&self, on: Option<u32>, cpu: u32, step: u32, function: Function) -> Option<Fault>
        ensures { result ≡ spec.enter_fault self.now on cpu step function }
    {
        match (self.no_room(cpu), function, self.mark) {
            (Some(fault), _, _) => Some(fault),
            (None, Function::Mark(_), Some(mark)) => Some(Fault::WithinMark(mark)),
            (None, Function::Mark(_), None) => None,
            (None, Function::Callback, _) => self.own_fault(on, cpu, step),
        }
    }

    /// Why a callback can't be made here.
    fn own_fault(&self, on: Option<u32>, cpu: u32, step: u32) -> Option<Fault>
        ensures { result ≡ spec.own_fault self.now on cpu step }
    {
        match on {
            Some(other) => {
                if is_own(self.border, step, cpu, on) {
                    None
                } else {
                    Some(Fault::NotOwn(other))
                }
            }
            None => None,
        }
    }

    /// Why a function can't be left.
    fn exit_fault(&self, on: Option<u32>, cpu: u32, step: u32) -> Option<Fault>
        ensures { result ≡ spec.exit_fault self.now on cpu step }
    {
        match (self.call, self.mark) {
            (Some(call), _) => {
                if call.cpu == cpu && call.step == step {
                    self.own_fault(on, cpu, step)
                } else {
                    Some(Fault::NotLast(call))
                }
            }
            (None, Some(mark)) => {
                if mark.cpu == cpu && mark.step == step {
                    None
                } else {
                    Some(Fault::NotLast(mark))
                }
            }
            (None, None) => Some(Fault::NoEnter),
        }
    }

    /// Why an event can't stand behind the lines before it. None where it can.
    pub fn fault(&self, event: &Event) -> Option<Fault>
        ensures { result ≡ spec.fault_of self.now event.now }
    {
        match event.payload {
            Payload::Entered {
                cpu,
                step,
                function,
                ..
            } => self.enter_fault(event.on, cpu, step, function),
            Payload::Left { cpu, step, .. } => self.exit_fault(event.on, cpu, step),
        }
    }

    /// What is open behind the enter of a function.
    fn entered(&self, entry: Open, function: Function) -> Nest
        ensures { result ≡ spec.entered self.now entry function }
    {
        match function {
            Function::Mark(Mark::Kick) => Nest {
                mark: Some(entry),
                call: self.call,
                border: self.border,
            },
            Function::Mark(_) => Nest {
                mark: Some(entry),
                call: self.call,
                border: lower(self.border, entry.step),
            },
            Function::Callback => Nest {
                mark: self.mark,
                call: Some(entry),
                border: self.border,
            },
        }
    }

    /// What is open behind an event that can stand, of the line of this number.
    pub fn after(&self, line: u32, event: &Event) -> Nest
        ensures { result ≡ spec.after self.now line event.now }
    {
        match event.payload {
            Payload::Entered {
                cpu,
                step,
                function,
                ..
            } => self.entered(Open { line, cpu, step }, function),
            Payload::Left { .. } => match self.call {
                Some(_) => Nest {
                    mark: self.mark,
                    call: None,
                    border: self.border,
                },
                None => Nest {
                    mark: None,
                    call: None,
                    border: self.border,
                },
            },
        }
    }
}
