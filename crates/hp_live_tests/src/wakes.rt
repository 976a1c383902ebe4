//! Whoever sleeps is woken by the event that lets it go on, though whoever made that event, or a hook, waits for it.
//!
//! Each case is played by calls that sleep and, as a control, by tries, which don't. Where a wake-up is lost a wait gives up, so
//! each test ends by itself.

use crate::asking::begins;
use crate::client::{Client, admitted};
use crate::heads::{closed, head, started};
use crate::jobs::{self, add, all_done, of_admitted, of_client, of_threads};
use crate::sleepers::{Comes, Holds, How, Marks, Stage};
use hp_board::Ask;
use hp_event::{Answer, Op};
use hp_hook::Hook;
use hp_states::CpuSet;
use std::alloc::Global;
use std::process::Abort;
use std::sync::atomic::Ordering;
use std::sync::{Arc, Wait};
use std::test::Fail;
use std::thread::Threads;

/// What a client does.
#[derive(Clone, Copy, Debug, PartialEq, Eq)]
pub(crate) enum Part {
    /// It brings the second processor up, freezes once the reader reads, and is refused, since that wakes up.
    Freezes,
    /// After the first of these it reads, wakes up once the freeze sleeps, and reads on until that is answered.
    WakesUp,
    /// It brings a processor to the lower one of two states, and brings both up.
    Batch(u32),
    /// It shows the second processor until it is up.
    Shows,
    /// It brings the second processor up.
    Ups,
    /// It arms a fault on a processor at a state once the second hook is called there.
    Fails(u32, i32),
}

/// How clients ask: by tries, or by calls that sleep; and what they tell each other.
#[derive(Clone, Copy)]
struct Scene<'a, G: Stage> {
    by_tries: bool,
    marks: &'a Marks,
    gate: &'a G,
}

impl<G: Stage> Scene<'_, G> {
    /// What an operation is answered.
    fn asks<'m, H: Hook + Send, R: Wait + Abort>(
        &self,
        rt: &R,
        mut client: Client<'m, H>,
        op: Op,
    ) -> (Client<'m, H>, Answer) {
        if self.by_tries {
            let (client, _, answer) = begins(rt, client, op, None).to_the_end(rt, self.gate);
            (client, answer)
        } else {
            let answer = client.asks(rt, self.gate, op);
            (client, answer)
        }
    }

    /// A client's part: whether all was answered as it should be.
    fn plays<H: Hook + Send, R: Wait + Abort>(
        &self,
        rt: &R,
        mut client: Client<'_, H>,
        part: Part,
    ) -> bool {
        match part {
            Part::Freezes => self.freezes(rt, client),
            Part::WakesUp => self.wakes_up(rt, client),
            Part::Batch(first) => self.batch(rt, client, first),
            Part::Shows => self.shows(rt, client),
            Part::Ups => {
                let up = client.asks(rt, self.gate, Op::Up(1));
                client.leaves(rt, self.gate);
                up == Answer::Ok(0)
            }
            Part::Fails(cpu, state) => self.fails(rt, client, cpu, state),
        }
    }

    fn freezes<H: Hook + Send, R: Wait + Abort>(&self, rt: &R, mut client: Client<'_, H>) -> bool {
        let up = client.asks(rt, self.gate, Op::Up(1));
        self.marks.second.store(1, Ordering::SeqCst);
        self.marks.awaits(&self.marks.first);
        let (client, answer) = self.asks(rt, client, Op::Freeze(0));
        self.marks.answered.store(1, Ordering::SeqCst);
        client.leaves(rt, self.gate);
        up == Answer::Ok(0) && answer == Answer::Refused(16)
    }

    fn wakes_up<H: Hook + Send, R: Wait + Abort>(&self, rt: &R, client: Client<'_, H>) -> bool {
        self.marks.awaits(&self.marks.second);
        let Client {
            machine,
            head,
            pass,
        } = client;
        match machine.read_lock(rt, self.gate, pass) {
            Ok(mut read) => {
                self.marks.first.store(1, Ordering::SeqCst);
                self.marks.awaits_sleep();
                read.sound();
                let mut ask = Ask {
                    op: Op::Wakeup,
                    hook: None,
                };
                let woke = machine.run_reading(rt, self.gate, &mut read, &mut ask);
                self.marks.awaits(&self.marks.answered);
                let pass = machine.read_unlock(rt, self.gate, read);
                let client = Client {
                    machine,
                    head,
                    pass,
                };
                client.leaves(rt, self.gate);
                matches!(woke, Ok(Answer::Ok(0)))
            }
            Err((refusal, _)) => panic!(rt; "a read section: {refusal:?}"),
        }
    }

    fn batch<H: Hook + Send, R: Wait + Abort>(
        &self,
        rt: &R,
        mut client: Client<'_, H>,
        first: u32,
    ) -> bool {
        let lower = client.asks(rt, self.gate, Op::Target(first, 150));
        let mut cpus = CpuSet::none();
        cpus.put(1);
        cpus.put(2);
        let (client, both) = self.asks(rt, client, Op::UpMany(cpus));
        client.leaves(rt, self.gate);
        // a fault that was armed is taken by one of the walks
        lower == Answer::Ok(0) && matches!(both, Answer::Ok(0 | 1))
    }

    fn shows<H: Hook + Send, R: Wait + Abort>(&self, rt: &R, mut client: Client<'_, H>) -> bool {
        self.marks.awaits(&self.marks.first);
        for _ in 0..10_000u32 {
            let shown = client.asks(rt, self.gate, Op::ShowState(1));
            if shown == Answer::Ok(200) {
                self.marks.answered.store(1, Ordering::SeqCst);
            }
            if shown == Answer::Ok(200) || self.marks.gave_up() {
                break;
            }
            self.marks.rests();
        }
        client.leaves(rt, self.gate);
        true
    }

    fn fails<H: Hook + Send, R: Wait + Abort>(
        &self,
        rt: &R,
        client: Client<'_, H>,
        cpu: u32,
        state: i32,
    ) -> bool {
        self.marks.awaits(&self.marks.second);
        let (client, answer) = self.asks(rt, client, Op::Arm(cpu, state));
        self.marks.answered.store(1, Ordering::SeqCst);
        client.leaves(rt, self.gate);
        // 22 where the walk is past the state
        matches!(answer, Answer::Ok(0) | Answer::Refused(22))
    }
}

/// A client's part, and its leave: whether all was answered as it should be.
pub(crate) fn plays<H: Hook + Send, R: Wait + Abort, G: Stage>(
    rt: &R,
    gate: &G,
    client: Client<'_, H>,
    part: Part,
    by_tries: bool,
) -> bool {
    match gate.marks() {
        Some(marks) => {
            let scene = Scene {
                by_tries,
                marks,
                gate,
            };
            scene.plays(rt, client, part)
        }
        None => panic!(rt; "{part:?} without marks"),
    }
}

/// A machine with so many processors, on each of which a thread serves, and two clients.
#[derive(Clone, Copy)]
struct Case<'a> {
    cpus: u32,
    parts: (Part, Part),
    /// The states that are set up first, without calls, and what the hook of each does on which processor.
    hooks: &'a [(u32, u32, How)],
    /// The section of a seat after which it sleeps.
    watched: (u32, u64),
}

impl Case<'_> {
    /// Both do their parts, and nobody gives up: by calls that sleep, and by tries.
    fn is_played<R: Threads + Wait + Abort + Sync>(
        &self,
        rt: &R,
        alloc: Global,
    ) -> Result<(), Fail> {
        self.is_played_so(rt, alloc, false)?;
        self.is_played_so(rt, alloc, true)
    }

    fn is_played_so<R: Threads + Wait + Abort + Sync>(
        &self,
        rt: &R,
        alloc: Global,
        by_tries: bool,
    ) -> Result<(), Fail> {
        let marks = Arc::new(alloc, Marks::none())?;
        let gate = Comes {
            marks: Arc::try_clone(&marks)?,
            seat: self.watched.0,
            section: self.watched.1,
        };
        let mut hooks = Vec::new(alloc);
        for (state, cpu, how) in self.hooks {
            hooks.push((*state, Holds::on(&marks, *cpu, *how)?))?;
        }
        let head = head(alloc, self.cpus, 1)?;
        let (machine, mut root) = started::<Holds>(alloc, &head)?;
        let mut jobs = of_threads(rt, alloc, &machine, &mut root, self.cpus);
        let mut one = admitted(rt, &machine, &head, &mut root);
        for (state, hook) in hooks {
            let done = one.sets_up(rt, &gate, true, (state, 1), Some(hook));
            assert!(rt; done.answer == Answer::Ok(0), "setup {:?}", done.answer);
        }
        let part = jobs::Part::Wakes {
            part: self.parts.0,
            by_tries,
        };
        add(rt, &mut jobs, of_admitted(one, part, None));
        let part = jobs::Part::Wakes {
            part: self.parts.1,
            by_tries,
        };
        let other = of_client(rt, &machine, &head, &mut root, part, None);
        add(rt, &mut jobs, other);
        let done = all_done(rt, &gate, jobs);
        assert!(rt; done, "by tries {by_tries}: an answer");
        let _ = closed(rt, machine, root);
        assert!(rt;
            !marks.gave_up(),
            "by tries {by_tries}: one of them gave up"
        );
        Ok(())
    }
}

#[test]
fn a_freeze_is_answered_after_a_wakeup_while_its_reader_reads_on(
    rt: HostRuntime,
) -> Result<(), Fail> {
    let case = Case {
        cpus: 2,
        parts: (Part::Freezes, Part::WakesUp),
        hooks: &[],
        // the up takes the sections 0 to 3, the freeze enters in 4, and waits for its reader in 5
        watched: (2, 5),
    };
    case.is_played(&rt, rt.alloc())
}

#[test]
fn a_walk_of_a_batch_ends_while_the_callback_of_another_waits_for_that(
    rt: HostRuntime,
) -> Result<(), Fail> {
    let case = Case {
        cpus: 3,
        parts: (Part::Batch(1), Part::Shows),
        // 150 on the third waits until the second is shown to be up; 160 on the second waits for that call, and a while
        hooks: &[(150, 2, How::FirstUntilAnswered), (160, 1, How::AfterFirst)],
        watched: (4, 0),
    };
    case.is_played(&rt, rt.alloc())
}

#[test]
fn a_fail_is_refused_once_the_walk_is_past_its_state(rt: HostRuntime) -> Result<(), Fail> {
    let case = Case {
        cpus: 2,
        parts: (Part::Ups, Part::Fails(1, 20)),
        // 20 waits until the fail sleeps, and 160 for its answer
        hooks: &[
            (20, 1, How::SecondUntilAsleep),
            (150, 1, How::Plain),
            (160, 1, How::UntilAnswered),
        ],
        watched: (3, 0),
    };
    case.is_played(&rt, rt.alloc())
}

#[test]
fn a_fail_is_armed_while_the_callback_of_another_waits_for_that(
    rt: HostRuntime,
) -> Result<(), Fail> {
    let case = Case {
        cpus: 3,
        parts: (Part::Batch(2), Part::Fails(1, 160)),
        // 150 on the second waits for 160 on the third and until the fail sleeps; that of 160 for the fail's answer
        hooks: &[
            (150, 1, How::AfterFirstUntilAsleep),
            (160, 2, How::FirstUntilAnswered),
        ],
        watched: (4, 0),
    };
    case.is_played(&rt, rt.alloc())
}
