// A marking changed by a step, line by line: the net-tokens taken are gone before the given come. Where a line takes more than there is, or the
// given have no room, the lines before it are undone: a marking is held in one way only, so that it is the marking it was.
#![tactic(auto)]

ghost use Rattle.std.specs.Prelude.{◌≡◌, ◌≤◌};
ghost use Rattle.model.specs.Limits.{room_limit};
ghost use Rattle.marking.specs.Tokens.{tokens_in, Kept};
ghost use Rattle.step.specs.VerdictParts.{Placed};
ghost use Rattle.step.specs.Changing.{Took, Gave, changing};

use marking::{Entry, Marking};
use marking_edit::{insert, take_out};
use step::Refusal;

// The lines taken out of the marking, up to the first that takes more than there is: how many.
fn take_all(k: &mut Marking, lines: &[Entry]) -> usize
    requires { Kept k.old × Placed lines.now }
    ensures { Took (tokens_in k.old) lines.now result k.new }
{
    for (i, e) in lines.iter().enumerate() {
        if !take_out(k, e) {
            return i;
        }
    }
    lines.len()
}

// The lines given into the marking, up to the first that has no room: how many.
fn give_all(k: &mut Marking, lines: &[Entry], room: usize) -> usize
    requires { (room ≤ room_limit) × (k.old.len ≤ room) × Kept k.old × Placed lines.now }
    ensures { Gave room (tokens_in k.old) lines.now result k.new }
{
    for (i, e) in lines.iter().enumerate() {
        if !insert(k, e, room) {
            return i;
        }
    }
    lines.len()
}

// The net-tokens taken out of the marking with its room, and those given into it; or why not (11 and 12), and nothing changes.
pub fn change(k: &mut Marking, taken: &[Entry], given: &[Entry], room: usize) -> Result<(), Refusal>
    requires { (room ≤ room_limit) × (k.old.len ≤ room) × Kept k.old × Placed taken.now × Placed given.now }
    ensures { record { answer = result; marking = k.new } ≡ changing room k.old taken.now given.now }
{
    let out = take_all(k, taken);
    if out < taken.len() {
        give_all(k, &taken[..out], room);
        return Err(Refusal::Missing { line: out + 3 });
    }
    let put = give_all(k, given, room);
    if put < given.len() {
        take_all(k, &given[..put]);
        give_all(k, taken, room);
        return Err(Refusal::Crowded {
            line: taken.len() + 3,
        });
    }
    Ok(())
}
