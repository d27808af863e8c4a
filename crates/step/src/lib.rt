// A step: its lines, what its event asks and gives, why it is turned down (01's causes 8 to 12 over its net-tokens and the marking's), and the
// marking after it. Definitions and laws.
#![tactic(auto)]

ghost use Rattle.std.specs.Prelude.{◌≡◌};
ghost use Rattle.step.specs.Rule.{no_sides, no_rule};

use marking::Entry;

// One side of an event: how many net-tokens it has on each place, and how many tokens on each place of each object net, a row for each
// net. Unused room is 0.
#[derive(Clone, Copy)]
pub struct Sides {
    pub outer: [u64; 32],
    pub inner: [[u64; 32]; 8],
}

impl Sides {
    // Room for the sums of a side.
    pub fn empty() -> Sides
        ensures { result ≡ no_sides }
    {
        Sides {
            outer: [0u64; 32],
            inner: [[0u64; 32]; 8],
        }
    }
}

// What the firing rule asks of a step of one event: how many nets there are, the net of `alone`, from 1, or 0, the types of the places, and the
// event's two sides.
#[derive(Clone, Copy)]
pub struct Rule {
    pub nets: usize,
    pub alone: u8,
    pub types: [u8; 32],
    pub pre: Sides,
    pub post: Sides,
}

impl Rule {
    // Room for a rule.
    pub fn empty() -> Rule
        ensures { result ≡ no_rule }
    {
        Rule {
            nets: 0,
            alone: 0,
            types: [0u8; 32],
            pre: Sides::empty(),
            post: Sides::empty(),
        }
    }
}

// Why a step is turned down: for the places of its net-tokens, for too few tokens of an object net, for others than the event leaves, for a
// net-token that the marking lacks, or for want of room. Lines are counted from the step's `fire` line, nets from 1.
#[derive(Clone, Copy, PartialEq, Eq, Debug)]
pub enum Refusal {
    Places { line: usize },
    Short { net: usize },
    Unequal { net: usize },
    Missing { line: usize },
    Crowded { line: usize },
}

// What the lines of a step say up to those that it takes: its event, from 0, and the entries that it takes, in the order of their lines.
#[derive(Clone, Copy)]
pub struct TakeLines<'a> {
    pub event: usize,
    pub taken: &'a [Entry],
}

// What the lines of a step say: its event, from 0, and the entries that it takes and gives, in the order of their lines.
#[derive(Clone, Copy)]
pub struct StepLines<'a> {
    pub event: usize,
    pub taken: &'a [Entry],
    pub given: &'a [Entry],
}
