//! What lasts from one event to another.

/// The row in which something stands.
#[derive(Clone, Copy)]
pub enum Row {
    /// The lane of a processor.
    Processor(u32),
    /// The operations of a seat.
    Operations(u32),
    /// The read sections of a seat.
    Section(u32),
}

/// How something ended.
#[derive(Clone, Copy)]
pub enum Class {
    /// It was done.
    Done,
    /// It was refused.
    Refused,
    /// It was turned back by a fault.
    Faulted,
    /// It got stuck.
    Stuck,
    /// It had no room.
    Full,
    /// It is in flight.
    Going,
}

/// What lasts from one event to another, by the places of both.
#[derive(Clone, Copy)]
pub struct Span {
    pub row: Row,
    pub class: Class,
    /// The place of its first event.
    pub first: u32,
    /// The place of its last event; where it is in flight, that of the window.
    pub last: u32,
    /// Whether it is over.
    pub is_over: bool,
}
