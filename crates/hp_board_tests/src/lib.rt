//! The tests of hp_board: that boards can be kept, that turns come out as written by hand, which hooks are lent and who
//! waits for them, one at a time and several at once, that the very hook that went in comes back, and how a board ends.
//!
//! They use hp_board as any crate does. They stand apart because a crate with tests is proved twice, once with them and
//! once without. What a board is to do stands in rows (`rows.rt`), and one loop plays them (`play.rt`).
#![tactic(auto)]

#[cfg(test)]
mod at_once;
#[cfg(test)]
mod loans;
#[cfg(test)]
mod play;
#[cfg(test)]
mod rows;
#[cfg(test)]
mod seats;
#[cfg(test)]
mod turns;
