//! The lines before the events, one after another: they say the head.

ghost use Rattle.std.specs.Prelude.{◌≡◌, [], OnOk, IfOk, IfErr};
ghost use Rattle.hp_model.specs.JournalText.{title_line};
ghost use Rattle.hp_event.specs.declared.version.Version.{Version as AVersion};
ghost use Rattle.hp_replay.specs.Stages.{begins, titled, counted, headed, among_events};
ghost use Rattle.hp_replay.specs.Judged.{Leads};
ghost use Rattle.hp_replay.specs.Reading.{GoesOver, RefusesLine, RefusedFrom, ended_head};
ghost use Rattle.hp_replay.specs.LineSteps.{LineLeads, LineRefused};
ghost use Rattle.hp_replay.specs.HeadDraft.{draft_stage, sub_step, rule_step};

use crate::error::{ReplayError, ReplayKind};
use crate::head_lines::{HeadLine, absent, cpus, head_line};
use crate::line::{Line, Lines};
use hp_event::{Head, Sub, Subs, Version};
use hp_states::{MAX_SUBS, NoMemory, Rule};
use std::alloc::Global;

/// The first line of a journal's text: the format and its version.
#[tactic(auto, unfolding(hp_model::specs::JournalText::title_line))]
fn title(version: Version) -> &'static [u8]
    ensures { result.now ≡ title_line version }
{
    match version {
        Version::One => b"cpuhp journal 1\n",
        Version::Two => b"cpuhp journal 2\n",
    }
}

/// Takes the title.
#[tactic(auto, unfolding(crate::specs::Stages::step))]
fn take_title(version: Version, line: &Line<'_>) -> Result<(), ReplayError>
    ensures ok { OnOk result (LineLeads version begins line.now titled) }
    ensures bad { IfErr result (λ e. LineRefused version begins line.now e) }
{
    if line.bytes == title(version) {
        return Ok(());
    }
    Err(line.bad(ReplayKind::Header))
}

/// Takes how many processors are possible.
#[tactic(auto, unfolding(crate::specs::Stages::step))]
fn take_cpus(version: Version, line: &Line<'_>) -> Result<u32, ReplayError>
    ensures ok { IfOk result (λ n. LineLeads version titled line.now (counted n)) }
    ensures bad { IfErr result (λ e. LineRefused version titled line.now e) }
{
    match cpus(version, line) {
        Some(possible) => Ok(possible),
        None => Err(line.bad(ReplayKind::Header)),
    }
}

/// Takes which of them are absent. The head is as yet without subsystems.
#[tactic(auto, unfolding(crate::specs::Stages::step))]
fn take_absent(alloc: Global, possible: u32, line: &Line<'_>) -> Result<Head, ReplayError>
    ensures ok { IfOk result (λ head. (v : AVersion) → LineLeads v (counted possible) line.now (headed head)) }
    ensures bad { IfErr result (λ e. (v : AVersion) → LineRefused v (counted possible) line.now e) }
{
    match absent(alloc, possible, line)? {
        Some(absent) => Ok(Head {
            possible,
            absent,
            subs: Subs::new(alloc),
        }),
        None => Err(line.bad(ReplayKind::Header)),
    }
}

/// The head so far: what came before the last subsystem, and that one with its rules so far.
#[derive(Drop)]
struct Draft {
    head: Head,
    last: Option<Sub>,
}

impl Draft {
    /// The whole head.
    fn finish(self) -> Result<Head, NoMemory>
        ensures { IfOk result (λ head. head ≡ ended_head self.head self.last) }
    {
        let Draft { mut head, last } = self;
        if let Some(sub) = last {
            head.subs.push(sub)?;
        }
        Ok(head)
    }

    /// Takes a subsystem more. After `Err` the head is as a refused line leaves it, and isn't used.
    fn take_sub(&mut self, sub: Sub, line: &Line<'_>) -> Result<(), ReplayError>
        ensures ok { OnOk result (Leads (sub_step self.old sub) (draft_stage self.new)) }
        ensures bad { IfErr result (λ e. RefusesLine (sub_step self.old sub) line.now.number e) }
    {
        if let Some(last) = self.last.take() {
            self.head.subs.push(last)?;
        }
        if self.head.subs.as_slice().len() >= MAX_SUBS as usize {
            return Err(line.bad(ReplayKind::Header));
        }
        self.last = Some(sub);
        Ok(())
    }

    /// Takes a rule more of the last subsystem.
    fn take_rule(&mut self, rule: Rule, line: &Line<'_>) -> Result<(), ReplayError>
        ensures ok { OnOk result (Leads (rule_step self.old rule) (draft_stage self.new)) }
        ensures bad { IfErr result (λ e. RefusesLine (rule_step self.old rule) line.now.number e) }
    {
        let Some(mut sub) = self.last.take() else {
            return Err(line.bad(ReplayKind::Header));
        };
        if !sub.plan.add(rule) {
            return Err(line.bad(ReplayKind::Header));
        }
        self.last = Some(sub);
        Ok(())
    }
}

/// Takes the lines of the subsystems and their rules, and the line `events`.
fn read_subs(
    alloc: Global,
    version: Version,
    head: Head,
    lines: &mut Lines<'_>,
) -> Result<Head, ReplayError>
    ensures ok { IfOk result (λ all. GoesOver version lines.old (headed head) lines.new (among_events all [])) }
    ensures bad { IfErr result (RefusedFrom version (headed head) lines.old) }
{
    let mut draft = Draft { head, last: None };
    loop {
        let line = lines.expect()?;
        match head_line(alloc, &line)? {
            Some(HeadLine::Sub(sub)) => draft.take_sub(sub, &line)?,
            Some(HeadLine::Rule(rule)) => draft.take_rule(rule, &line)?,
            Some(HeadLine::Events) => return Ok(draft.finish()?),
            None => return Err(line.bad(ReplayKind::Header)),
        }
    }
}

/// Takes the lines of the head, with the line `events` behind them.
pub fn read_head(
    alloc: Global,
    version: Version,
    lines: &mut Lines<'_>,
) -> Result<Head, ReplayError>
    ensures ok { IfOk result (λ head. GoesOver version lines.old begins lines.new (among_events head [])) }
    ensures bad { IfErr result (RefusedFrom version begins lines.old) }
{
    let line = lines.expect()?;
    take_title(version, &line)?;
    let line = lines.expect()?;
    let possible = take_cpus(version, &line)?;
    let line = lines.expect()?;
    let head = take_absent(alloc, possible, &line)?;
    read_subs(alloc, version, head, lines)
}
