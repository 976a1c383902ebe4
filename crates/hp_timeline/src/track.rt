//! The lines of the processors.

ghost use Rattle.std.specs.Prelude.{◌≡◌, ◌++◌, [], OnOk, IfOk, slice_set, slice_index_or};
ghost use Rattle.std.specs.List.{flat_map};
ghost use Rattle.hp_timeline.specs.Tracks.{step_to, start_text, step_text};

use crate::sheet::height;
use crate::text::{append_two, append_with};
use crate::window::Window;
use std::alloc::{AllocError, Global};
use std::marker::Model;

/// The line of a processor, as the text that it is so far. Contracts see that.
#[derive(Drop)]
pub struct Track {
    text: Vec<u8>,
}

impl Model for Track {
    ghost use Rattle.std.specs.Prelude.{ℕ, List};

    ghost Value = { List ℕ };

    ghost view = { λ t. t.text.items };
}

impl Track {
    /// The line of a processor that begins at a state.
    #[tactic(auto, unfolding(crate::specs::Tracks::start_text))]
    pub fn start(alloc: Global, cpu: u32, state: u32) -> Result<Track, AllocError>
        ensures { IfOk result (λ track. track ≡ start_text cpu state) }
    {
        let mut text = Vec::new(alloc);
        append_with(
            &mut text,
            b"<path class='track' d='M450 ",
            height(cpu, state),
        )?;
        Ok(Track { text })
    }

    /// The text so far.
    pub fn as_slice(&self) -> &[u8]
        ensures { result.now ≡ self.now }
    {
        self.text.as_slice()
    }

    /// Goes on to the event of a place, and there from one state to another, if it is another.
    #[tactic(auto, unfolding(crate::specs::Tracks::step_text))]
    pub fn step(
        &mut self,
        window: Window,
        place: u32,
        cpu: u32,
        from: u32,
        to: u32,
    ) -> Result<(), AllocError>
        ensures { OnOk result (self.new ≡ self.old ++ flat_map (step_text window cpu) (step_to place from to)) }
    {
        if from == to {
            return Ok(());
        }
        append_two(
            &mut self.text,
            b"H",
            window.middle(place),
            b"V",
            height(cpu, to),
        )
    }
}

/// Goes on with the line of a processor.
pub fn follow(
    tracks: &mut Vec<Track>,
    window: Window,
    place: u32,
    cpu: u32,
    from: u32,
    to: u32,
) -> Result<(), AllocError>
    ensures { OnOk result (tracks.new.items ≡ slice_set tracks.old.items cpu
        (slice_index_or tracks.old.items cpu [] ++ flat_map (step_text window cpu) (step_to place from to))) }
{
    let at = cpu as usize;
    if at < tracks.len() {
        tracks[at].step(window, place, cpu, from, to)
    } else {
        Ok(())
    }
}
