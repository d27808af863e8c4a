// The lines of a model, from `eos` to its last event.
#![tactic(auto)]

ghost use Rattle.std.specs.Prelude.{◌≡◌, ◌≤◌, OnErr};
ghost use Rattle.text.specs.Answers.{kept};
ghost use Rattle.text_reader.specs.Place.{Reads, lent};
ghost use Rattle.model.specs.Held.{no_model, hold_plant};
ghost use Rattle.model_text.specs.Reading.{read_plant};
ghost use Rattle.model_text.specs.Parts.{read_outline, read_system};
ghost use Rattle.model_text.specs.Answers.{hold_outline, with_system};

use model::Model;
use model_events::events;
use model_nets::{nets, tables};
use model_text::{Outline, Sides};
use text::Fault;
use text_reader::Reader;

// The lines from `eos` to `type`.
fn outline(r: &mut Reader) -> Result<Outline, Fault>
    ensures { Reads (kept hold_outline (read_outline r.old.src.now r.old.at)) r.old r.new result }
{
    let header = usize::from(r.heads(b"eos=1\n", b"eos=2\n")?);
    let nets = r.number(b"nets=", 0, Model::NETS)?;
    let places = usize::from(r.number(b"places=", 1, Model::PLACES)?);
    let types = r.list(b"type=", places, nets)?;
    Ok(Outline {
        header,
        nets: usize::from(nets),
        places,
        types,
    })
}

// The lines from `moves` to the last object net, into a model that has an outline.
fn system(r: &mut Reader, m: &mut Model) -> Result<(), Fault>
    requires { (m.old.nets ≤ 8) × (m.old.places ≤ 32) }
    ensures { Reads (kept (with_system m.old) (read_system m.old.nets m.old.places r.old.src.now r.old.at)) r.old r.new (lent m.new result) }
{
    let moves = usize::from(r.number(b"moves=", 0, Model::MOVES)?);
    let Sides { pre, post } = tables(r, m.places, moves)?;
    m.moves = moves;
    m.pre = pre;
    m.post = post;
    nets(r, m.nets, &mut m.objects)?;
    Ok(())
}

// The lines of a model, in order, into the model lent, whatever stands there: the first that is refused ends the reading.
fn plant(r: &mut Reader, m: &mut Model) -> Result<(), Fault>
    ensures { Reads (kept hold_plant (read_plant r.old.src.now r.old.at)) r.old r.new (lent m.new result) }
{
    let outline = outline(r)?;
    m.header = outline.header;
    m.nets = outline.nets;
    m.places = outline.places;
    m.types = outline.types;
    system(r, m)?;
    let listed = usize::from(r.number(b"events=", 0, Model::EVENTS)?);
    events(r, listed, m)?;
    Ok(())
}

// The lines of a model into the model lent, in fixed memory, where it is not copied; the empty model where one of them is refused.
pub fn read_plant(r: &mut Reader, m: &mut Model) -> Result<(), Fault>
    ensures read { Reads (kept hold_plant (read_plant r.old.src.now r.old.at)) r.old r.new (lent m.new result) }
    ensures refused { OnErr result (m.new ≡ no_model) }
{
    let read = plant(r, m);
    if read.is_err() {
        *m = Model::empty();
    }
    read
}
