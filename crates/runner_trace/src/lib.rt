// A trace run step by step.
#![tactic(auto)]

ghost use Rattle.std.specs.Prelude.{◌≡◌, true, ◌≤◌, length, drop};
ghost use Rattle.model.specs.Limits.{longest};
ghost use Rattle.reader.specs.Answers.{held_both};
ghost use Rattle.runner_trace.specs.Parts.{Ready, turn_at};
ghost use Rattle.runner_trace.specs.Running.{ran, ran_to, run_refused, run_from, running};

use marking::Marking;
use model::Model;
use reader::{admitted, named};
use runner::StepRefusal;
use runner::lent::Stepper;
use text_reader::Reader;

// How far a run came: how many steps fired, the byte of the trace where it stopped, and the step that stopped it, if it was not the end.
#[derive(Clone, Copy)]
pub struct RunEnd {
    pub fired: usize,
    pub at: usize,
    pub stop: Result<(), StepRefusal>,
}

// One turn of a run at the place of a reader: the next step is tried on what is left of the text; at the end there is none.
fn turn(p: &mut Stepper, k: &mut Marking, r: &Reader) -> Option<Result<usize, StepRefusal>>
    requires { Ready p.old.room p.old.model.now r.now.src.now k.old }
    ensures tried { record { turn = result; marking = k.new } ≡ turn_at p.old.model.now r.now.src.now r.now.at k.old }
    ensures same { (p.new.model.now ≡ p.old.model.now) × (p.new.room ≡ p.old.room) }
{
    if r.src.len() <= r.at {
        return None;
    }
    Some(p.step_on(k, &r.src[r.at..]))
}

// The turns of a run up to its stop: how many steps fired, and what stopped it. The reader is moved from step to step by the bytes used.
fn steps(p: &mut Stepper, k: &mut Marking, r: &mut Reader) -> (usize, Result<(), StepRefusal>)
    requires { Ready p.old.room p.old.model.now r.old.src.now k.old × (r.old.at ≤ length r.old.src.now) }
    ensures { ran result.0 r.new.at result.1 k.new ≡ run_from (length r.old.src.now) p.old.model.now k.old (drop r.old.at r.old.src.now) 0 r.old.at }
{
    let mut fired = 0;
    // No index is counted: where the next step begins is what the step before it used.
    while let Some(answer) = turn(p, k, r) {
        match answer {
            Ok(bytes) => {
                r.at += bytes;
                fired += 1;
            }
            Err(refusal) => return (fired, Err(refusal)),
        }
    }
    (fired, Ok(()))
}

// The steps from the place of a reader to the end of the text or the first stop, on a held marking of a held model.
fn run_steps(m: &Model, k: &mut Marking, r: &mut Reader) -> RunEnd
    requires { (held_both m.now k.old ≡ true) × (length r.old.src.now ≤ longest) × (r.old.at ≤ length r.old.src.now) }
    ensures { ran_to result k.new ≡ run_from (length r.old.src.now) m.now k.old (drop r.old.at r.old.src.now) 0 r.old.at }
{
    let mut stepper = Stepper::new(m, k.room());
    let (fired, stop) = steps(&mut stepper, k, r);
    RunEnd {
        fired,
        at: r.at,
        stop,
    }
}

// A run that is stopped before its first step.
pub fn run_refused(stop: Result<(), StepRefusal>) -> RunEnd
    ensures { result ≡ run_refused stop }
{
    RunEnd {
        fired: 0,
        at: 0,
        stop,
    }
}

// The run over a trace: the header, then steps, tried on a marking of a model.
pub fn run(m: &Model, k: &mut Marking, s: &[u8]) -> RunEnd
    ensures { ran_to result k.new ≡ running m.now k.old s.now }
{
    if let Err(refusal) = admitted(m, k, s) {
        return run_refused(Err(StepRefusal::Unread(refusal)));
    }
    let mut r = Reader { src: s, at: 0 };
    if let Err(refusal) = named(s, r.head(b"run=1\n")) {
        return run_refused(Err(StepRefusal::Unread(refusal)));
    }
    run_steps(m, k, &mut r)
}
