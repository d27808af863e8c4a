// The lines `pre` and `post` of moves and of transitions, and the lines of the object nets.
#![tactic(auto)]

ghost use Rattle.std.specs.Prelude.{◌≡◌, ◌≤◌, OnErr, replicate};
ghost use Rattle.text.specs.Lines.{many};
ghost use Rattle.text.specs.Answers.{kept};
ghost use Rattle.text_reader.specs.Place.{Reads, lent};
ghost use Rattle.model.specs.Held.{hold_net, hold_nets, no_net};
ghost use Rattle.model_text.specs.Reading.{read_sides, read_net};
ghost use Rattle.model_text.specs.Answers.{hold_sides, hold_tables};

use model::{Model, ObjectNet};
use model_text::Sides;
use text::Fault;
use text_reader::Reader;

// The two lines of a transition between `size` places.
fn sides(r: &mut Reader, size: usize) -> Result<Sides<[u8; 32]>, Fault>
    requires { size ≤ 32 }
    ensures { Reads (kept hold_sides (read_sides size r.old.src.now r.old.at)) r.old r.new result }
{
    let pre = r.list(b"pre=", size, Model::ARC)?;
    let post = r.list(b"post=", size, Model::ARC)?;
    Ok(Sides { pre, post })
}

// The lines of n transitions, each at its row of the tables.
pub fn tables(r: &mut Reader, size: usize, n: usize) -> Result<Sides<[[u8; 32]; 32]>, Fault>
    requires { (n ≤ 32) × (size ≤ 32) }
    ensures { Reads (kept hold_tables (many (read_sides size r.old.src.now) n r.old.at)) r.old r.new result }
{
    let mut table = Sides {
        pre: [[0; 32]; 32],
        post: [[0; 32]; 32],
    };
    for i in 0..n {
        let Sides { pre, post } = sides(r, size)?;
        table.pre[i] = pre;
        table.post[i] = post;
    }
    Ok(table)
}

// The lines of an object net.
fn net(r: &mut Reader) -> Result<ObjectNet, Fault>
    ensures { Reads (kept hold_net (read_net r.old.src.now r.old.at)) r.old r.new result }
{
    let places = usize::from(r.number(b"inner=", 1, Model::INNER)?);
    let transitions = usize::from(r.number(b"steps=", 0, Model::STEPS)?);
    let Sides { pre, post } = tables(r, places, transitions)?;
    Ok(ObjectNet {
        places,
        transitions,
        pre,
        post,
    })
}

// The lines of n object nets, which are laid into the model's room for them.
fn lines(r: &mut Reader, n: usize, objects: &mut [ObjectNet; 8]) -> Result<(), Fault>
    requires { n ≤ 8 }
    ensures { Reads (kept hold_nets (many (read_net r.old.src.now) n r.old.at)) r.old r.new (lent objects.new result) }
{
    *objects = [ObjectNet::empty(); 8];
    for i in 0..n {
        objects[i] = net(r)?;
    }
    Ok(())
}

// The same, in fixed memory, where they are not copied; there is no net where one of the lines is refused.
pub fn nets(r: &mut Reader, n: usize, objects: &mut [ObjectNet; 8]) -> Result<(), Fault>
    requires { n ≤ 8 }
    ensures read { Reads (kept hold_nets (many (read_net r.old.src.now) n r.old.at)) r.old r.new (lent objects.new result) }
    ensures refused { OnErr result (objects.new ≡ replicate 8 no_net) }
{
    let read = lines(r, n, objects);
    if read.is_err() {
        *objects = [ObjectNet::empty(); 8];
    }
    read
}
