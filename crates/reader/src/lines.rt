// The lines of a model with its start, and those of a marking. The reader is made at the first byte of a text; it moves behind the lines
// of the model, and behind those of the net-tokens, after which nothing may stand.
ghost use Rattle.std.specs.Prelude.{◌≡◌, OnErr};
ghost use Rattle.text.specs.Answers.{kept, accepted};
ghost use Rattle.text_reader.specs.Place.{lent};
ghost use Rattle.model.specs.Held.{no_model};
ghost use Rattle.marking.specs.Held.{as_sizes, Roomy, no_marking};
ghost use Rattle.marking.specs.Answers.{hold_block};
ghost use Rattle.reader.specs.Reading.{read_model, read_model_at, read_marking_at, read_marking};
ghost use Rattle.reader.specs.Parts.{hold_loaded};

use marking::{Marking, PlaceSizes};
use marking_read::start;
use marking_test::place_sizes;
use model::Model;
use model_read::read_plant;
use text::Fault;
use text_reader::Reader;

// The lines of net-tokens from the place reached to the end of the text, into the marking lent.
fn start_lines(r: &mut Reader, z: &PlaceSizes, marking: &mut Marking) -> Result<(), Fault>
    requires { Roomy (as_sizes z.now) }
    ensures { lent marking.new result ≡ accepted (kept hold_block (read_marking_at (as_sizes z.now) r.old.src.now r.old.at)) }
{
    start(r, Model::LINES, z, Marking::ROOM, marking)?;
    r.close()
}

// The lines of a marking, its whole text, into the marking lent; it has no net-token where the text is refused.
pub fn marking_lines(s: &[u8], z: &PlaceSizes, marking: &mut Marking) -> Result<(), Fault>
    requires { Roomy (as_sizes z.now) }
    ensures read { lent marking.new result ≡ accepted (kept hold_block (read_marking (as_sizes z.now) s.now)) }
    ensures refused { OnErr result (marking.new ≡ no_marking) }
{
    let read = start_lines(&mut Reader { src: s, at: 0 }, z, marking);
    if read.is_err() {
        *marking = Marking::empty();
    }
    read
}

// The lines of a model with its start from the place reached to the end of the text, into the model and the marking lent.
fn loaded_lines(r: &mut Reader, model: &mut Model, start: &mut Marking) -> Result<(), Fault>
    ensures { lent (model.new, start.new) result ≡ accepted (kept hold_loaded (read_model_at r.old.src.now r.old.at)) }
{
    read_plant(r, model)?;
    start_lines(r, &place_sizes(model), start)
}

// The lines of a model with its start, its whole text; the empty model and no net-token where it is refused.
pub fn model_lines(s: &[u8], model: &mut Model, start: &mut Marking) -> Result<(), Fault>
    ensures read { lent (model.new, start.new) result ≡ accepted (kept hold_loaded (read_model s.now)) }
    ensures refused { OnErr result ((model.new ≡ no_model) × (start.new ≡ no_marking)) }
{
    let read = loaded_lines(&mut Reader { src: s, at: 0 }, model, start);
    if read.is_err() {
        *model = Model::empty();
        *start = Marking::empty();
    }
    read
}
