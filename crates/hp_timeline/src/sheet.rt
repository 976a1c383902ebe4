//! Where things stand on the sheet.

ghost use Rattle.std.specs.Prelude.{◌≡◌, ◌<◌, ◌≤◌, ◌^◌, ◌++◌, IfOk, OnOk, length, nat_lt, count_by};
ghost use Rattle.hp_timeline.specs.Windows.{IsWindow};
ghost use Rattle.hp_timeline.specs.Sheet.{HasFewClients, client_in, sheet_of, edge as edge_of, middle as middle_of, lane_top as lane_top_of, height as height_of, seat_top as seat_top_of, lane_width as lane_width_of, width as width_of, bottom as bottom_of};

use crate::window::Window;
use hp_event::{Event, Head, Numbers, Role};
use hp_states::{MAX_EVENTS, NoMemory};
use std::alloc::Global;

/// The sheet of a picture: its window, how many processors are possible, and the clients' seats that came in by the
/// window's end.
#[derive(Drop)]
pub struct Sheet {
    pub window: Window,
    pub possible: u32,
    pub clients: Numbers,
}

/// Adds the client's seat that an event lets in, if it lets in one.
fn add_client(clients: &mut Numbers, event: &Event) -> Result<(), NoMemory>
    ensures { OnOk result (clients.new ≡ clients.old ++ client_in event.now) }
{
    match *event {
        Event::Admit {
            seat,
            role: Role::Client,
        } => clients.push(seat),
        _ => Ok(()),
    }
}

/// Where the lane of a processor begins, from above.
#[tactic(auto, unfolding(crate::specs::Sheet::lane_top))]
pub fn lane_top(cpu: u32) -> usize
    ensures value { result ≡ lane_top_of cpu }
    ensures small { result < 2 ^ 48 }
{
    180 + 240 * cpu as usize
}

/// Where a state stands in the lane of a processor, from above.
#[tactic(auto, unfolding(crate::specs::Sheet::height))]
pub fn height(cpu: u32, state: u32) -> usize
    ensures value { result ≡ height_of cpu state }
    ensures small { result < 2 ^ 48 }
{
    (390 + 240 * cpu as usize).saturating_sub(state as usize)
}

impl Window {
    /// Where the column of a place begins, from left.
    #[tactic(auto, unfolding(crate::specs::Sheet::edge))]
    pub fn edge(self, place: u32) -> usize
        ensures value { result ≡ edge_of self place }
        ensures small { result < 2 ^ 40 }
    {
        450 + 36 * place.saturating_sub(self.before) as usize
    }

    /// The middle of the column of a place.
    #[tactic(auto, unfolding(crate::specs::Sheet::middle))]
    pub fn middle(self, place: u32) -> usize
        ensures value { result ≡ middle_of self place }
        ensures small { result < 2 ^ 48 }
    {
        self.edge(place) + 18
    }

    /// How wide the lanes are.
    #[tactic(auto, unfolding(crate::specs::Sheet::lane_width))]
    pub fn lane_width(self) -> usize
        ensures value { result ≡ lane_width_of self }
        ensures small { result < 2 ^ 40 }
    {
        36 * self.until.saturating_sub(self.before) as usize
    }

    /// How wide the sheet is: its heading has room.
    #[tactic(auto, unfolding(crate::specs::Sheet::width))]
    pub fn width(self) -> usize
        ensures value { result ≡ width_of self }
        ensures small { result < 2 ^ 48 }
    {
        (self.lane_width() + 540).max(2700)
    }
}

impl Sheet {
    /// The sheet of a window, which lies within the events.
    pub fn new(
        alloc: Global,
        head: &Head,
        events: &[Event],
        window: Window,
    ) -> Result<Sheet, NoMemory>
        requires window { IsWindow window (length events.now) }
        requires few { length events.now ≤ MAX_EVENTS }
        ensures sheet { IfOk result (λ sheet. sheet ≡ sheet_of head.now events.now window) }
        ensures few { IfOk result HasFewClients }
    {
        let shown = &events[..window.until as usize];
        let mut clients = Numbers::new(alloc);
        for event in shown {
            add_client(&mut clients, event)?;
        }
        Ok(Sheet {
            window,
            possible: head.possible,
            clients,
        })
    }

    /// How many clients' seats have smaller numbers.
    fn seats_above(&self, seat: u32) -> usize
        ensures count { result ≡ count_by (λ s. nat_lt s seat) self.now.clients }
        ensures within { result ≤ length self.now.clients }
    {
        self.clients
            .as_slice()
            .iter()
            .filter(|other| **other < seat)
            .count()
    }

    /// Where the lane of a seat begins, from above.
    #[tactic(auto, unfolding(crate::specs::Sheet::seat_top))]
    pub fn seat_top(&self, seat: u32) -> usize
        requires { HasFewClients self.now }
        ensures value { result ≡ seat_top_of self.now seat }
        ensures small { result < 2 ^ 48 }
    {
        180 + 240 * self.possible as usize + 120 * self.seats_above(seat)
    }

    /// Where the lanes end.
    #[tactic(auto, unfolding(crate::specs::Sheet::bottom))]
    pub fn bottom(&self) -> usize
        requires { HasFewClients self.now }
        ensures value { result ≡ bottom_of self.now }
        ensures small { result < 2 ^ 48 }
    {
        180 + 240 * self.possible as usize + 120 * self.clients.as_slice().len()
    }
}
