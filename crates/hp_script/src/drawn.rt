//! What is drawn for an actor of a generated script.

ghost use Rattle.std.specs.Prelude.{◌≡◌};
ghost use Rattle.hp_script.specs.Generated.{instanced_state, one_drawn, state_behind_one, drawn_by, state_behind, draws_behind, instance_drawn};

use crate::draws::Draws;

/// An operation that is drawn, with its numbers, or an empty read section.
#[derive(Clone, Copy)]
pub enum Drawn {
    Up(u32),
    Down(u32),
    Section,
    Add(u32, u32),
    Del(u32, u32),
    Show(u32),
}

/// The state with instances at this place of three.
fn instanced_state(place: u32) -> u32
    ensures { result ≡ instanced_state place }
{
    match place {
        0 => 42,
        1 => 120,
        _ => 180,
    }
}

/// A state with instances, and an instance.
fn draw_instance(draws: &mut Draws) -> (u32, u32)
    ensures state { draws.new.state ≡ state_behind 2 draws.old.state }
    ensures drawn { result ≡ instance_drawn draws.old.state }
{
    let state = instanced_state(draws.draw(3));
    let inst = 1 + draws.draw(4);
    (state, inst)
}

/// The operation that a draw below 8 stands for, with its numbers.
fn draw_by(draw: u32, draws: &mut Draws) -> Drawn
    ensures drawn { result ≡ drawn_by draw draws.old.state }
    ensures state { draws.new.state ≡ state_behind (draws_behind result) draws.old.state }
{
    match draw {
        0 | 1 => Drawn::Up(draws.draw(8)),
        2 | 3 => Drawn::Down(draws.draw(8)),
        4 => Drawn::Section,
        5 => {
            let (state, inst) = draw_instance(draws);
            Drawn::Add(state, inst)
        }
        6 => {
            let (state, inst) = draw_instance(draws);
            Drawn::Del(state, inst)
        }
        _ => Drawn::Show(draws.draw(8)),
    }
}

/// The next operation that is drawn.
pub fn draw_one(draws: &mut Draws) -> Drawn
    ensures drawn { result ≡ one_drawn draws.old.state }
    ensures state { draws.new.state ≡ state_behind_one draws.old.state }
{
    let draw = draws.draw(8);
    draw_by(draw, draws)
}
