// The lines of a weight file: `inv=1` and the outer weights, a line for each net, and nothing after them. Each asks that the lent model is held, which
// who asks knows by `admitted`: a struct around the model was tried, and its type does not tell how long the model's arrays are.
ghost use Rattle.std.specs.Prelude.{◌≡◌, true, length};
ghost use Rattle.text.specs.Repeat.{many_at};
ghost use Rattle.text.specs.Answers.{kept, accepted};
ghost use Rattle.text_reader.specs.Place.{Reads};
ghost use Rattle.model.specs.Held.{model_of};
ghost use Rattle.model.specs.Test.{held_model};
ghost use Rattle.keeper.specs.Reading.{read_inner, read_weight_file};
ghost use Rattle.keeper.specs.Held.{weight_row, hold_weights};
ghost use Rattle.keeper.specs.Parts.{read_outer, read_weight_lines, behind_outer};

use super::HeldWeights;
use model::Model;
use text::Fault;
use text_reader::Reader;

// The first line and the outer weights.
fn outer(r: &mut Reader, m: &Model) -> Result<[i16; 32], Fault>
    requires { held_model m.now ≡ true }
    ensures { Reads (kept weight_row (read_outer (model_of m.now) r.old.src.now r.old.at)) r.old r.new result }
{
    r.head(b"inv=1\n")?;
    r.list(b"outer=", m.places, Model::WEIGHT)
}

// A line of weights for each net, in the rows behind that of the outer weights.
fn inner(r: &mut Reader, m: &Model, outer: [i16; 32]) -> Result<HeldWeights, Fault>
    requires { held_model m.now ≡ true }
    ensures { Reads (kept (behind_outer outer) (many_at (read_inner (model_of m.now) r.old.src.now) 0 m.now.nets r.old.at)) r.old r.new result }
{
    let mut rows = [[0; 32]; 9];
    rows[0] = outer;
    for n in 0..m.nets {
        rows[n + 1] = r.list(b"inner=", m.objects[n].places, Model::WEIGHT)?;
    }
    Ok(HeldWeights { rows })
}

// The lines, without the end of the text.
fn lines(r: &mut Reader, m: &Model) -> Result<HeldWeights, Fault>
    requires { held_model m.now ≡ true }
    ensures { Reads (kept hold_weights (read_weight_lines (model_of m.now) r.old.src.now r.old.at)) r.old r.new result }
{
    let outer = outer(r, m)?;
    inner(r, m, outer)
}

// The lines of a held model's weight file, its whole text.
pub fn weight_lines(m: &Model, s: &[u8]) -> Result<HeldWeights, Fault>
    requires { held_model m.now ≡ true }
    ensures { result ≡ accepted (kept hold_weights (read_weight_file (model_of m.now) s.now)) }
{
    let mut r = Reader { src: s, at: 0 };
    let weights = lines(&mut r, m)?;
    r.close()?;
    Ok(weights)
}
