//! The machine of CPU hotplug behind a lock that threads take in turn: a caller on any thread can rely on
//! what it has seen.
//!
//! A `Hotplug` is shared by `&`. Its `Root` lets seats in: a client gets a `Pass`, the hotplug thread of a
//! processor an `ApPass`. A pass carries a front, the journal as it last saw it. `run` takes turns until an operation is answered;
//! `ap_loop` makes the entries that are due from a thread; each turn is one lock section, and hooks are
//! called between two sections, outside the lock. `leave` and `leave_ap` end a pass, and the root meets what it had
//! seen; `tell` lets a pass hear what the root has seen; `close` ends the machine and hands the board back.
//! `try_turn` and `try_serve` are one section each, if nobody else has the lock, and wait for nobody.
//!
//! Every front is a lawful journal. A call's new front has the old one as its beginning, and past it of the caller's seat
//! just the events of this call. Who has nothing to do sleeps until another made an
//! event by which it may go on (`wakes.rt`).
//!
//! A caller, whose calls after `admit` may stand on any thread that has the pass (`Pass::park`):
//!
//! ```text
//! let (machine, mut root) = Hotplug::start(alloc, plan, subs)?;
//! let thread = machine.admit_ap(&rt, &mut root, 0)?;   // one for each processor: `ap_loop`, and then `leave_ap`
//! let mut pass = machine.admit(&rt, &mut root)?;
//! machine.setup_state(&rt, &FreeGate, &mut pass, 150, 1, hook)?;
//! machine.cpu_up(&rt, &FreeGate, &mut pass, 1)?;
//! let read = machine.read_lock(&rt, &FreeGate, pass)?;
//! let online = read.online();                           // just these are online until the section ends
//! let pass = machine.read_unlock(&rt, &FreeGate, read);
//! let left = machine.leave(&rt, &FreeGate, pass);       // each pass is spent, also where a call was refused
//! machine.meet(&mut root, left);
//! let journal = machine.close(&rt, root).into_journal();
//! ```
//!
//! `docs/LIBRARY.md` goes through them one by one, each in a program that runs.
//!
//! To read the specs: `Known` says what contracts see of passes, `Grew` how a front grows, `Sections` what one
//! lock section makes of it, `Hooks` what a turn makes of its operation's hook, `Runs` and `Threads` what an operation and a thread
//! make of both, and `Tries` what one try does. `Steps`, `HeldSteps` and `Lending` say the same of the board under the lock. Lock,
//! passes and gates are this project's own.
#![tactic(auto)]

mod admission;
mod ap_pass;
mod forms;
mod freed;
mod gate;
mod hotplug;
mod laws;
mod leaving;
mod left;
mod live;
mod parked;
mod pass;
mod places;
mod read_pass;
mod reading;
mod registering;
mod root;
mod run;
mod seat;
mod section;
mod seen;
mod serving;
mod sight;
mod sights;
mod start;
mod step;
mod telling;
mod tried;
mod tries;
mod wakes;

pub use ap_pass::ApPass;
pub use gate::{FreeGate, Gate};
pub use hotplug::Hotplug;
pub use laws::{no_more, stands_still};
pub use left::Left;
pub use parked::{Parked, ParkedAp};
pub use pass::Pass;
pub use read_pass::ReadPass;
pub use reading::ReadRefusal;
pub use registering::{Done, HookBack};
pub use root::Root;
pub use tried::Tried;
pub use tries::lends_by_pairs;
