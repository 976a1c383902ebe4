//! `hpd_main`: what the program `hpd` does.
//!
//! Under either command a script is read, its actors and its processors' hotplug threads run on threads of their own
//! (`hp_threads`), and the journal of that run is written, with its summary. Under `work`, queues that follow a state go
//! through the journal (`hp_work`), and what they hold then is written behind it.
//!
//! The commands, and the words that ask for them, `specs/Commands.antt` has. What each status means, `specs/Main.antt`
//! says, and `specs/Calls.antt` says it of what a call was handed, before and now; `specs/WorkLines.antt` has the lines of
//! queues. Which journals may come of a script, `specs/Journals.antt` of `hp_threads` says.
//!
//! # An example
//!
//! Two processors, and one actor that sets up two states and brings the second processor up:
//!
//! ```text
//! cpus 2
//! sub net:a both single
//! sub net:b both single
//! actor a
//! setup 120 1
//! setup 150 2
//! up 1
//! ```
//!
//! The seats of the two processors' threads come in, and the actor's behind them. There is one journal of this script,
//! whatever the threads' order, since nobody but the actor asks for anything; of other scripts there may be many. Its
//! first lines say what the machine is:
//!
//! ```text
//! cpuhp journal 2
//! cpus 2
//! absent -
//! sub net:a both single
//! sub net:b both single
//! events
//! admit 0 ap 0
//! admit 1 ap 1
//! admit 2 client
//! ```
//!
//! Then come the actor's operations, each with its number. The entries of each state are made by the thread of their
//! processor, seat 0 or 1:
//!
//! ```text
//! reg 2 1 120 setup 120 1
//! call 0 0 120 0 up ok
//! regged 2 1 ok 0
//! reg 2 2 150 setup 150 2
//! call 0 0 150 0 up ok
//! regged 2 2 ok 0
//! enter 2 3 up 1
//! walk 2 1 0 200
//! call 1 1 120 0 up ok
//! call 1 1 150 0 up ok
//! walked 2 1 ok
//! done 2 3 ok 0
//! ```
//!
//! The actor leaves when all its operations are answered. The processors' seats leave last, in rising number, and the
//! summary is written behind the last line:
//!
//! ```text
//! leave 2
//! leave 0
//! leave 1
//! end 18
//! cpu 0 present state 200 keys 120.0 150.0
//! cpu 1 present state 200 keys 120.0 150.0
//! disabled 0
//! frozen -
//! sub 120 net:a made 2 faults 0 instances -
//! sub 150 net:b made 2 faults 0 instances -
//! ops ok 3 refused 0 fault 0 stuck 0 full 0
//! events 18
//! ```
//!
//! The command `work 120` writes what queues of state 120 hold then: an item is put on each open processor after each
//! event, and after every third the fronts run.
//!
//! ```text
//! ran 0 1 2 8 3 10 4 12
//! drained 0 5 6 7 9 11 13 15 17 19
//! drained 1 14 16 18 20
//! unbound -
//! ```
#![tactic(auto)]

mod command;
mod run;
mod top;
mod work_lines;

pub use top::hpd_main;
