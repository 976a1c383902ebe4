//! What a line of a trace says.

/// Which of the three events of CPU hotplug a line names.
#[derive(Clone, Copy)]
pub enum Name {
    /// `cpuhp_enter`: a callback of a state is called.
    Enter,
    /// `cpuhp_multi_enter`: a callback of one instance of a state is called.
    MultiEnter,
    /// `cpuhp_exit`: a callback has answered.
    Exit,
}

/// The function that is called, as far as it matters which.
#[derive(Clone, Copy)]
pub enum Function {
    /// One in which others are called: the step of a walk that has the processor's own thread make its part, that boots
    /// the processor, or that takes it down.
    Mark(Mark),
    /// Any other.
    Callback,
}

/// A function in which others are called.
#[derive(Clone, Copy)]
pub enum Mark {
    /// `cpuhp_kick_ap_work`: the processor's own thread makes its part of a walk.
    Kick,
    /// `bringup_cpu`, or `cpuhp_bringup_ap` in later kernels: the processor is booted.
    BringUp,
    /// `takedown_cpu`: the processor is taken down.
    TakeDown,
}

/// What an event says.
#[derive(Clone, Copy)]
pub enum Payload {
    /// A function is called.
    Entered {
        /// Whether it is that of one instance.
        multi: bool,
        /// The processor that goes up or down.
        cpu: u32,
        /// To which state.
        target: i32,
        /// The state whose callback it is.
        step: u32,
        /// The function.
        function: Function,
    },
    /// It has answered.
    Left {
        /// The processor that goes up or down.
        cpu: u32,
        /// The state that it has reached.
        state: i32,
        /// The state whose callback it is.
        step: u32,
        /// What was answered: 0, or an error below it.
        code: i32,
    },
}

/// An event of CPU hotplug as its line says it.
#[derive(Clone, Copy)]
pub struct Event {
    /// The processor that the line was written on, where the text says it.
    pub on: Option<u32>,
    /// What it says.
    pub payload: Payload,
}

/// What a line of a trace is.
#[derive(Clone, Copy)]
pub enum Said {
    /// An event of CPU hotplug.
    Event(Event),
    /// It has an event's name, and no form of its payload behind it.
    NoForm,
    /// It says that events were lost here, or is of `perf script`, which loses some without a word.
    Lost,
    /// Anything else.
    Other,
}
