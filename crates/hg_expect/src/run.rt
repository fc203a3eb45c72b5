//! A test from the bytes of a policy and traces to its text.

ghost use Rattle.std.specs.Prelude.{◌≡◌, ◌+◌, ◌<◌, ◌≤◌, ◌^◌, ◌++◌, ◌∷◌, [], ℕ, List};
ghost use Rattle.std.specs.Prelude.{None, Some, All, OnOk, IfOk, IfErr, is_some};
ghost use Rattle.hg_trace.specs.Stored.{lines_in};
ghost use Rattle.hg_core.specs.Opening.{opened};
ghost use Rattle.hg_replay.specs.RunFaults.{status_of};
ghost use Rattle.hg_expect.specs.Judging.{JudgedAs, Judged, Tested};
ghost use Rattle.hg_expect.specs.Findings.{Findings, warnings};
ghost use Rattle.hg_expect.specs.Tests.{EndsTests, IsFaulty, IsUnwarned, no_tests, no_traces};
ghost use Rattle.hg_expect.specs.Tests.{report, Stands, summary_after};
ghost use Rattle.hg_expect.specs.Endings.{WritesReport};

use crate::found::{Found, push, push_count};
use crate::judge::{judge, texts_of};
use crate::source::Source;
use hg_policy::Policy;
use hg_policy_text::{OneLine, read_policy};
use hg_replay::{ReplayFault, RunFault, Sink, Status, put, start};
use hg_trace::{Trace, read_trace};
use std::alloc::{AllocError, Global};
use std::io::Write;
use std::marker::Model;

/// What is told of the traces so far, how many there are, and in how many some line differs.
#[derive(Drop)]
struct Summary {
    text: Vec<u8>,
    traces: u64,
    differ: u64,
}

impl Model for Summary {
    ghost use Rattle.hg_expect.specs.Tests.{Summary};

    ghost Value = { Summary };

    ghost view = { λ summary. record {
      text = summary.text.items;
      traces = summary.traces;
      differ = summary.differ;
    } };
}

impl Summary {
    fn new(alloc: Global) -> Summary
        ensures { result ≡ no_traces }
    {
        Summary {
            text: Vec::new(alloc),
            traces: 0,
            differ: 0,
        }
    }

    /// A trace more, of this name.
    fn add(&mut self, alloc: Global, name: &str, found: &Found) -> Result<(), AllocError>
        requires traces { self.old.traces + 1 < 2 ^ 64 }
        requires differ { self.old.differ + 1 < 2 ^ 64 }
        ensures added { OnOk result (self.new ≡ summary_after self.old name.now found.now) }
        ensures traces { self.new.traces ≤ self.old.traces + 1 }
        ensures differ { self.new.differ ≤ self.old.differ + 1 }
    {
        found.push_to(alloc, &mut self.text, name)?;
        self.traces += 1;
        self.differ += u64::from(found.differ() != 0);
        Ok(())
    }

    /// The whole text.
    #[tactic(auto, unfolding(crate::specs::Tests::report))]
    fn report(self) -> Result<Vec<u8>, AllocError>
        ensures { IfOk result (λ text. text.items ≡ report self) }
    {
        let mut text = self.text;
        push_count(&mut text, "traces ", self.traces)?;
        push_count(&mut text, " differ ", self.differ)?;
        push(&mut text, "\n")?;
        Ok(text)
    }
}

/// What is found of the lines of a trace, from a core of its own that the policy opens.
fn judge_all(
    alloc: Global,
    policy: Policy,
    trace: &Trace,
    bytes: &[u8],
) -> Result<Found, AllocError>
    requires { All (λ line. line.worker < policy.workers) (lines_in trace.now) }
    ensures { IfOk result (Judged bytes.now policy (lines_in trace.now)) }
{
    let texts = texts_of(alloc, bytes)?;
    let mut ready = start(alloc, policy, trace)?;
    let mut found = Found::new(alloc);
    judge(alloc, &mut ready, trace, &texts, &mut found)?;
    Ok(found)
}

/// The same, unless some worker is unknown.
fn judged(alloc: Global, policy: Policy, trace: &Trace, bytes: &[u8]) -> Result<Found, ReplayFault>
    ensures { JudgedAs bytes.now policy (lines_in trace.now) result }
{
    if let Some(line) = trace.first_from(policy.workers()) {
        return Err(ReplayFault::Worker(line));
    }
    match judge_all(alloc, policy, trace, bytes) {
        Ok(found) => Ok(found),
        Err(_) => Err(ReplayFault::Memory),
    }
}

/// What is found of the lines of a trace under a policy.
fn tested(alloc: Global, policy: &[u8], bytes: &[u8]) -> Result<Found, RunFault>
    ensures tested { IfOk result (Tested policy.now bytes.now) }
    ensures faulty { IfErr result (λ fault. IsFaulty (status_of fault) policy.now bytes.now) }
{
    let policy = read_policy(alloc, policy)?;
    let trace = read_trace(alloc, bytes)?;
    let found = judged(alloc, policy, &trace, bytes)?;
    Ok(found)
}

/// A fault, and the name of the trace that has it.
#[derive(Drop)]
struct Faulty<'a> {
    name: &'a str,
    fault: RunFault,
}

/// Tests of traces under a policy, one after another: what is told of them, up to the first that
/// has a fault. Of a trace that was tested nothing else is kept.
#[derive(Drop)]
pub struct Tests<'a> {
    summary: Summary,
    faulty: Option<Faulty<'a>>,
}

impl<'a> Model for Tests<'a> {
    ghost use Rattle.std.specs.Prelude.{option_map};
    ghost use Rattle.hg_replay.specs.RunFaults.{status_of};
    ghost use Rattle.hg_expect.specs.Tests.{Progress};

    ghost Value = { Progress };

    ghost view = { λ tests. record {
      summary = tests.summary;
      fault = option_map (λ faulty. status_of faulty.fault) tests.faulty;
    } };
}

impl<'a> Tests<'a> {
    /// No trace is tested yet.
    pub fn new(alloc: Global) -> Tests<'a>
        ensures { result ≡ no_tests }
    {
        Tests {
            summary: Summary::new(alloc),
            faulty: None,
        }
    }

    /// A trace more was tested, of which this was found. What may be a slip in it is told on `err`.
    fn note<E: Write>(
        &mut self,
        alloc: Global,
        name: &str,
        found: &Found,
        err: &mut E,
    ) -> Result<(), AllocError>
        requires traces { self.old.summary.traces + 1 < 2 ^ 64 }
        requires differ { self.old.summary.differ + 1 < 2 ^ 64 }
        ensures noted { OnOk result
            (self.new.summary ≡ summary_after self.old.summary name.now found.now) }
        ensures traces { self.new.summary.traces ≤ self.old.summary.traces + 1 }
        ensures differ { self.new.summary.differ ≤ self.old.summary.differ + 1 }
        ensures fault { self.new.fault ≡ self.old.fault }
        ensures quiet { warnings name.now found.now ≡ [] → err.new ≡ err.old }
    {
        let warnings = found.warnings(alloc, name)?;
        self.summary.add(alloc, name, found)?;
        if !warnings.is_empty() {
            let _ = err.write_all(&warnings);
        }
        Ok(())
    }

    /// Tests a trace, and warns on `err` of what may be a slip in it.
    fn try_add<E: Write>(
        &mut self,
        alloc: Global,
        policy: &[u8],
        source: &Source<'a>,
        err: &mut E,
    ) -> Result<(), RunFault>
        requires traces { self.old.summary.traces + 1 < 2 ^ 64 }
        requires differ { self.old.summary.differ + 1 < 2 ^ 64 }
        ensures tested { OnOk result ((found : Findings)
            × Tested policy.now source.now.bytes.items found
            × (self.new.summary ≡ summary_after self.old.summary source.now.name.now found)) }
        ensures faulty { IfErr result (λ fault.
            IsFaulty (status_of fault) policy.now source.now.bytes.items) }
        ensures fault { self.new.fault ≡ self.old.fault }
        ensures traces { self.new.summary.traces ≤ self.old.summary.traces + 1 }
        ensures differ { self.new.summary.differ ≤ self.old.summary.differ + 1 }
        ensures quiet { IsUnwarned policy.now source.now → err.new ≡ err.old }
    {
        let found = tested(alloc, policy, source.bytes.as_slice())?;
        match self.note(alloc, source.name, &found, err) {
            Ok(()) => Ok(()),
            Err(_) => Err(RunFault::Replay(ReplayFault::Memory)),
        }
    }

    /// Whether a trace that was added has a fault, or the policy has one.
    pub fn is_stopped(&self) -> bool
        ensures { result ≡ is_some self.now.fault }
    {
        self.faulty.is_some()
    }

    /// The trace of this name has a fault.
    fn stop(&mut self, name: &'a str, fault: RunFault)
        ensures { self.new ≡ record self.old { fault = Some (status_of fault) } }
    {
        self.faulty = Some(Faulty { name, fault });
    }

    /// Tests a trace more under the policy, from a core of its own, unless an earlier one has a
    /// fault. What may be a slip in it is told on `err`, whose own faults are ignored.
    pub fn add<E: Write>(&mut self, alloc: Global, policy: &[u8], source: &Source<'a>, err: &mut E)
        requires traces { self.old.summary.traces + 1 < 2 ^ 64 }
        requires differ { self.old.summary.differ + 1 < 2 ^ 64 }
        ensures stands { (sources : List Source) → Stands policy.now sources self.old
            → Stands policy.now (sources ++ source.now ∷ []) self.new }
        ensures traces { self.new.summary.traces ≤ self.old.summary.traces + 1 }
        ensures differ { self.new.summary.differ ≤ self.old.summary.differ + 1 }
        ensures quiet { IsUnwarned policy.now source.now → err.new ≡ err.old }
    {
        if self.faulty.is_some() {
            return;
        }
        if let Err(fault) = self.try_add(alloc, policy, source, err) {
            self.stop(source.name, fault);
        }
    }

    /// Writes what is told of all traces, or tells on `err` of the first fault, whose trace it
    /// names where there are `many`.
    pub fn end<W: Sink, E: Write>(self, many: bool, out: &mut W, err: &mut E) -> Status
        ensures ends { (policy : List ℕ) (sources : List Source) → Stands policy sources self.entry
            → EndsTests result policy sources (W.seen out.old) (W.seen out.new) }
        ensures quiet { result ≡ Status.Done → err.new ≡ err.old }
        ensures differs { result ≡ Status.Differs → err.new ≡ err.old }
    {
        let Tests { summary, faulty } = self;
        if let Some(Faulty { name, fault }) = faulty {
            if many && fault.status() == Status::BadTrace {
                let _ = writeln!(err, "in {}", OneLine(name));
            }
            let _ = writeln!(err, "{fault}");
            return fault.status();
        }
        match write_report(summary, out) {
            Ok(false) => Status::Done,
            Ok(true) => Status::Differs,
            Err(fault) => {
                let _ = writeln!(err, "{fault}");
                Status::Failed
            }
        }
    }
}

/// Writes the text of a test, and tells whether some line differs.
fn write_report<W: Sink>(summary: Summary, out: &mut W) -> Result<bool, ReplayFault>
    ensures { WritesReport summary (W.seen out.old) (W.seen out.new) result }
{
    let differs = summary.differ != 0;
    let Ok(text) = summary.report() else {
        return Err(ReplayFault::Memory);
    };
    match put(out, text.as_slice()) {
        Ok(()) => Ok(differs),
        Err(_) => Err(ReplayFault::Write),
    }
}

/// Replays each trace from a core of its own that the policy opens, and compares what is answered
/// with what its lines state behind `# =>`. Writes each line that is answered otherwise as a diff,
/// a line for each trace, and how many traces there are and how many differ.
///
/// The policy is read first, then trace by trace; the first fault is told as a replay tells it, and
/// where there are several traces a line before says in which. What goes wrong is told on `err`,
/// whose own faults are ignored, and where no line of a trace states an answer, or a comment is like
/// one, a line warns of it; where nothing does, `err` isn't touched. All is written at the end,
/// so a fault, or want of memory, at whatever request, leaves nothing written.
pub fn run_tests<W: Sink, E: Write>(
    alloc: Global,
    policy: &[u8],
    sources: &[Source],
    out: &mut W,
    err: &mut E,
) -> Status
    ensures ends { EndsTests result policy.now sources.now (W.seen out.old) (W.seen out.new) }
    ensures quiet { All (IsUnwarned policy.now) sources.now
        → result ≡ Status.Done → err.new ≡ err.old }
    ensures differs { All (IsUnwarned policy.now) sources.now
        → result ≡ Status.Differs → err.new ≡ err.old }
{
    let mut tests = Tests::new(alloc);
    for source in sources {
        tests.add(alloc, policy, source, err);
    }
    tests.end(sources.len() > 1, out, err)
}
