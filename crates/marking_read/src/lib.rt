// Net-tokens read from their lines: one line, and a start, put into a marking.
#![tactic(auto)]

ghost use Rattle.std.specs.Prelude.{◌≡◌, ◌≤◌, OnErr};
ghost use Rattle.text.specs.Answers.{kept};
ghost use Rattle.text_reader.specs.Place.{Reads, lent};
ghost use Rattle.model.specs.Limits.{line_limit, room_limit, count_limit};
ghost use Rattle.marking.specs.Held.{as_sizes, Roomy, hold_line, no_marking};
ghost use Rattle.marking.specs.Reading.{limits, read_net_token, read_start};
ghost use Rattle.marking.specs.Answers.{hold_block};
ghost use Rattle.marking.proofs.BlockLaws.{start_behind};

use marking::{Entry, Marking, PlaceSizes};
use marking_edit::insert;
use model::Model;
use text::{Cause, Fault};
use text_reader::Reader;

// The line of net-tokens.
pub fn net_token(r: &mut Reader, z: &PlaceSizes) -> Result<Entry, Fault>
    ensures { Reads (kept hold_line (read_net_token (limits line_limit count_limit) (as_sizes z.now) r.old.src.now r.old.at)) r.old r.new result }
{
    let line = r.token(b"token=", z.places, &z.sizes, Model::COUNT, Model::ALIKE)?;
    Ok(Entry::from(line))
}

// n lines of net-tokens, put into the marking lent with its room, whatever stands there. The reading ends at the line whose net-tokens, with
// those before it, have no room.
fn net_tokens(
    r: &mut Reader,
    z: &PlaceSizes,
    n: usize,
    room: usize,
    marking: &mut Marking,
) -> Result<(), Fault>
    requires { (room ≤ room_limit) × Roomy (as_sizes z.now) }
    ensures { Reads (kept hold_block (start_behind room (as_sizes z.now) r.old.src.now n r.old.at)) r.old r.new (lent marking.new result) }
{
    *marking = Marking::empty();
    for _ in 0..n {
        let at = r.at;
        let entry = net_token(r, z)?;
        if !insert(marking, &entry, room) {
            return Err(r.refuse(Cause::Crowded, at));
        }
    }
    Ok(())
}

// The line of `start` and a number up to `most`, and that many lines of net-tokens, in any order, into the marking lent with its room.
fn lines(
    r: &mut Reader,
    most: u16,
    z: &PlaceSizes,
    room: usize,
    marking: &mut Marking,
) -> Result<(), Fault>
    requires { (room ≤ room_limit) × Roomy (as_sizes z.now) }
    ensures { Reads (kept hold_block (read_start room (limits most count_limit) (as_sizes z.now) r.old.src.now r.old.at)) r.old r.new (lent marking.new result) }
{
    let n = usize::from(r.number(b"start=", 0, most)?);
    net_tokens(r, z, n, room, marking)
}

// The same lines into the marking lent, in fixed memory; it has no net-token where one of them is refused.
pub fn start(
    r: &mut Reader,
    most: u16,
    z: &PlaceSizes,
    room: usize,
    marking: &mut Marking,
) -> Result<(), Fault>
    requires { (room ≤ room_limit) × Roomy (as_sizes z.now) }
    ensures read { Reads (kept hold_block (read_start room (limits most count_limit) (as_sizes z.now) r.old.src.now r.old.at)) r.old r.new (lent marking.new result) }
    ensures refused { OnErr result (marking.new ≡ no_marking) }
{
    let read = lines(r, most, z, room, marking);
    if read.is_err() {
        *marking = Marking::empty();
    }
    read
}
