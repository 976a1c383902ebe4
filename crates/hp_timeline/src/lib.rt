//! The picture of a journal: an SVG file that shows a window of its events.
//!
//! `picture` answers the bytes of it. Each processor has a lane, in which its line stands at the state that its file
//! shows, before and after each event; a walk shades its lane; each entry is a mark at its event, on its processor's
//! lane and at its state. Each client's seat has a lane with a bar for each of its operations and each of its read
//! sections. What has lines in the journal has them as its title.
//!
//! To read the definitions, take `specs/Windows.antt` and `Sheet`, which say what is shown and where things stand;
//! `Marks`, `Tracks` and `Spans`, which say what there is to draw, each by the events and by notions of hp_model, and
//! how it is drawn; `Frame`, what stands round it; and `Picture`, all of it. `Scenes` says what the code keeps of the
//! events so far.
#![tactic(auto)]

mod drawing;
mod frame;
mod laws;
mod mark;
mod numbering;
mod scene;
mod sheet;
mod span;
mod span_text;
mod text;
mod track;
mod window;

pub use drawing::picture;
pub use laws::{
    apart, ends_or_goes, marks_entries, names_are_plain, spans_are_drawn_once, tracks_follow_shown,
};
pub use window::Window;
