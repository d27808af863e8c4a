// The step call.
ghost use Rattle.std.specs.Prelude.{◌≡◌};
ghost use Rattle.runner.specs.Answers.{stepping};

use super::StepRefusal;
use super::lent::Stepper;
use marking::Marking;
use model::Model;
use reader::admitted;

// The step call: the step that the text begins with, tried on a marking of a model. The answer is the bytes that its lines used.
pub fn step(m: &Model, k: &mut Marking, s: &[u8]) -> Result<usize, StepRefusal>
    ensures { record { answer = result; marking = k.new } ≡ stepping m.now k.old s.now }
{
    admitted(m, k, s)?;
    let mut stepper = Stepper::new(m, k.room());
    stepper.step_on(k, s)
}
