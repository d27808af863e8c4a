// The Keeper level: a weight file is read for a held model, judged, and weighed on a held marking.
#![tactic(auto)]

ghost use Rattle.std.specs.Prelude.{◌≡◌, true, length};
ghost use Rattle.eos.specs.Multiset.{every};
ghost use Rattle.eos.specs.Weights.{Weights, is_zero};
ghost use Rattle.model.specs.Held.{model_of};
ghost use Rattle.marking.specs.Held.{tokens_of};
ghost use Rattle.reader.specs.Answers.{held_both};
ghost use Rattle.marking.specs.Sizes.{sizes_for};
ghost use Rattle.keeper.specs.Answers.{nothing, judged_weights, weight_checking};
ghost use Rattle.keeper.specs.declared.WeightRefusal.TheVariants.{Unread};
ghost use Rattle.keeper.specs.Parts.{Holds};

use effects::unbalanced;
use marking::Marking;
use model::Model;
use reader::{ReadRefusal, admitted, named};
use weigh_cover::covers;
use weigh_marking::marking_weight;
use weightfile::weight_lines;

mod effects;
mod weightfile;

// The weights of a model's places in nine rows of 32: the outer weights, and then those of each net, so that a place's type picks its row.
// Unused room is 0.
#[derive(Clone, Copy)]
pub struct HeldWeights {
    pub rows: [[i16; 32]; 9],
}

// Why weights do not pass: their file is not read, or they are turned down, since all of them are 0 (beside it the last line) or since an event
// does not balance (beside it that event, from 1).
#[derive(Clone, Copy, PartialEq, Eq, Debug)]
pub enum WeightRefusal {
    Unread(ReadRefusal),
    Weightless { line: usize },
    Unbalanced { event: usize },
}

impl From<ReadRefusal> for WeightRefusal {
    ghost from_gives = { λ refusal answer. answer ≡ Unread refusal };

    fn from(refusal: ReadRefusal) -> WeightRefusal {
        WeightRefusal::Unread(refusal)
    }
}

// Of weights that pass: the marking's weighted sum, and whether the weights cover.
#[derive(Clone, Copy, PartialEq, Eq, Debug)]
pub struct WeightCheck {
    pub sum: i64,
    pub cover: bool,
}

impl WeightCheck {
    // Of refused weights: sum 0, cover 0.
    pub fn nothing() -> WeightCheck
        ensures { result ≡ nothing }
    {
        WeightCheck {
            sum: 0,
            cover: false,
        }
    }
}

// Whether every weight is 0.
fn all_zero(held: &HeldWeights) -> bool
    ensures { result ≡ every (every is_zero) held.now.rows }
{
    held.rows.iter().all(|row| row_zero(row))
}

// The same of one row.
fn row_zero(row: &[i16; 32]) -> bool
    ensures { result ≡ every is_zero row.now }
{
    row.iter().all(|weight| weight_zero(*weight))
}

fn weight_zero(weight: i16) -> bool
    ensures { result ≡ is_zero weight }
{
    weight == 0
}

// The check of the weights of a file: 6, 7, or they pass, and then the marking's weighted sum, and whether the weights cover for `most`
// net-tokens.
fn judged(
    most: u64,
    m: &Model,
    k: &Marking,
    held: &HeldWeights,
) -> Result<WeightCheck, WeightRefusal>
    requires both { held_both m.now k.now ≡ true }
    requires room { (length m.now.objects ≡ 8) × (length m.now.events ≡ 64) }
    ensures { (w : Weights) → Holds m.now w held.now → result ≡ judged_weights most (model_of m.now) (tokens_of (sizes_for m.now) k.now) w }
{
    if all_zero(held) {
        return Err(WeightRefusal::Weightless { line: m.nets + 2 });
    }
    if let Some(event) = unbalanced(m, held) {
        return Err(WeightRefusal::Unbalanced { event: event + 1 });
    }
    let sum = marking_weight(&held.rows, &m.types, k.held());
    let cover = covers(most, m, &held.rows, sum.unsigned_abs());
    Ok(WeightCheck { sum, cover })
}

// Reads the weight file of a held model, judges the weights, and weighs a held marking. By value: of a model that is lent the type does not tell
// a proof how long its arrays of nets and events are (tried).
pub fn check_weights(m: Model, k: Marking, s: &[u8]) -> Result<WeightCheck, WeightRefusal>
    ensures { result ≡ weight_checking m k s.now }
{
    admitted(&m, &k, s)?;
    let weights = named(s, weight_lines(&m, s))?;
    judged(u64::from(Model::COVER), &m, &k, &weights)
}
