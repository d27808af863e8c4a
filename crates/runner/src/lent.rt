// A step on a lent held marking: its lines are read, judged, and the marking is changed.
ghost use Rattle.std.specs.Prelude.{◌≡◌, true, ◌≤◌, length};
ghost use Rattle.eos.specs.Causes.{first};
ghost use Rattle.model.specs.Limits.{room_limit, longest};
ghost use Rattle.marking.specs.Tokens.{tokens_in, Kept};
ghost use Rattle.step.specs.Verdict.{left_held, causes_in};
ghost use Rattle.step.specs.RuleParts.{Unused};
ghost use Rattle.step.specs.VerdictParts.{Sound, Placed};
ghost use Rattle.model.specs.Test.{held_model};
ghost use Rattle.marking.specs.Sizes.{place_sizes};
ghost use Rattle.reader.specs.Answers.{held_both};
ghost use Rattle.runner.specs.Parts.{ruled};
ghost use Rattle.runner.specs.Answers.{held_step};

use super::StepRefusal;
use marking::{Entry, Marking, PlaceSizes};
use marking_test::place_sizes;
use model::Model;
use reader::named;
use step::Rule;
use step_change::change;
use step_read::read_step;
use step_rule::lay_rule;
use step_verdict::verdict;
use text_reader::Reader;

// A step whose lines were read, up to `next`: it is turned down, for its lines or by its change, or the marking is changed.
fn fire(
    room: usize,
    rule: &Rule,
    k: &mut Marking,
    taken: &[Entry],
    given: &[Entry],
    next: usize,
) -> Result<usize, StepRefusal>
    requires { (room ≤ room_limit) × (k.old.len ≤ room) × Sound rule.now × Placed taken.now × Placed given.now × Kept k.old }
    ensures { record { answer = result; marking = k.new }
        ≡ ruled next k.old (length taken.now) (left_held (tokens_in k.old) taken.now given.now) (first (causes_in room rule.now taken.now given.now (tokens_in k.old))) }
{
    verdict(rule, taken, given)?;
    change(k, taken, given, room)?;
    Ok(next)
}

// What the steps of a run share: a held model, how many counts the net-tokens of its places have, how many entries a marking has room for, and
// room for the lines that a step takes and gives and for the rule of its event, in fixed memory.
#[derive(Drop)]
pub struct Stepper<'a> {
    pub model: &'a Model,
    pub sizes: PlaceSizes,
    pub room: usize,
    pub taken: [Entry; Marking::ROOM],
    pub given: [Entry; Marking::ROOM],
    pub rule: Rule,
    ghost held: { held_model model.now ≡ true },
    ghost sized: { sizes ≡ place_sizes model.now },
    ghost bounded: { room ≤ room_limit },
    ghost asked: { Unused model.now.nets rule.pre.inner },
    ghost left: { Unused model.now.nets rule.post.inner },
}

impl<'a> Stepper<'a> {
    pub fn new(model: &'a Model, room: usize) -> Stepper<'a>
        requires { (held_model model.now ≡ true) × (room ≤ room_limit) }
        ensures { (result.model.now ≡ model.now) × (result.room ≡ room) }
    {
        let unused = [Entry::empty(); Marking::ROOM];
        Stepper {
            model,
            sizes: place_sizes(model),
            room,
            taken: unused,
            given: unused,
            rule: Rule::empty(),
        }
    }

    // A step on a lent held marking: for a run over many steps, the held test stands once in front of the run.
    pub fn step_on(&mut self, k: &mut Marking, s: &[u8]) -> Result<usize, StepRefusal>
        requires { (held_both self.old.model.now k.old ≡ true) × (length s.now ≤ longest) × (length k.old.entries ≡ room_limit) × (k.old.len ≤ self.old.room) }
        ensures stepped { record { answer = result; marking = k.new } ≡ held_step self.old.room self.old.model.now k.old s.now }
        ensures same { (self.new.model.now ≡ self.old.model.now) × (self.new.room ≡ self.old.room) }
    {
        let mut r = Reader { src: s, at: 0 };
        // A held model lists at most 64 events, so their number fits.
        let events = self.model.listed as u16;
        let read = read_step(
            &mut r,
            events,
            &self.sizes,
            &mut self.taken,
            &mut self.given,
        );
        let lines = named(s, read)?;
        lay_rule(self.model, lines.event, &mut self.rule);
        fire(self.room, &self.rule, k, lines.taken, lines.given, r.at)
    }
}
