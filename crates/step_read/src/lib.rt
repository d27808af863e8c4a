// A step read from its lines. Its entries are kept in the order of their lines, where likes may stand apart.
#![tactic(auto)]

ghost use Rattle.std.specs.Prelude.{◌≡◌, ◌≤◌, length, map};
ghost use Rattle.text.specs.Lines.{many};
ghost use Rattle.text.specs.Answers.{kept};
ghost use Rattle.text_reader.specs.Place.{Reads};
ghost use Rattle.model.specs.Limits.{line_limit, room_limit, count_limit};
ghost use Rattle.marking.specs.Held.{as_sizes, hold_line};
ghost use Rattle.marking.specs.Reading.{limits, read_net_token, read_block};
ghost use Rattle.step.specs.Reading.{read_taking, read_step};
ghost use Rattle.step.specs.Answers.{entries_lent, hold_taking, taking_lent, hold_step, step_lent};

use marking::{Entry, Marking, PlaceSizes};
use marking_read::net_token;
use model::Model;
use step::{StepLines, TakeLines};
use text::Fault;
use text_reader::Reader;

// n lines of net-tokens, laid one after the other from the first on, where a marking's are put in order, and lent as they are laid.
fn net_tokens<'a>(
    r: &mut Reader,
    z: &PlaceSizes,
    n: usize,
    room: &'a mut [Entry; Marking::ROOM],
) -> Result<&'a [Entry], Fault>
    requires { n ≤ line_limit }
    ensures { Reads (kept (map hold_line) (many (read_net_token (limits line_limit count_limit) (as_sizes z.now) r.old.src.now) n r.old.at)) r.old r.new (entries_lent result) }
{
    for i in 0..n {
        room[i] = net_token(r, z)?;
    }
    Ok(&room[..n])
}

// The line of key and a number, and that many lines of net-tokens.
fn tokens_after<'a>(
    r: &mut Reader,
    key: &[u8],
    z: &PlaceSizes,
    room: &'a mut [Entry; Marking::ROOM],
) -> Result<&'a [Entry], Fault>
    ensures { Reads (kept (map hold_line) (read_block key.now (limits line_limit count_limit) (as_sizes z.now) r.old.src.now r.old.at)) r.old r.new (entries_lent result) }
{
    let n = usize::from(r.number(key, 0, Model::LINES)?);
    net_tokens(r, z, n, room)
}

// The lines of a step up to those that it takes: its event, from 1 to `events`, and the entries taken. `taken` is room for them, of which
// they are lent; what stands there past them, and after a refusal, is left open.
pub fn read_taking<'a>(
    r: &mut Reader,
    events: u16,
    z: &PlaceSizes,
    taken: &'a mut [Entry; Marking::ROOM],
) -> Result<TakeLines<'a>, Fault>
    ensures { Reads (kept hold_taking (read_taking (limits line_limit count_limit) (as_sizes z.now) events r.old.src.now r.old.at)) r.old r.new (taking_lent result) }
{
    let event = usize::from(r.number(b"fire=", 1, events)?) - 1;
    let taken = tokens_after(r, b"take=", z, taken)?;
    Ok(TakeLines { event, taken })
}

// The lines of a step: its event, from 1 to `events`, and the entries that it takes and gives. `taken` and `given` are room for them, lent
// and left as above.
pub fn read_step<'a>(
    r: &mut Reader,
    events: u16,
    z: &PlaceSizes,
    taken: &'a mut [Entry; Marking::ROOM],
    given: &'a mut [Entry; Marking::ROOM],
) -> Result<StepLines<'a>, Fault>
    ensures { Reads (kept hold_step (read_step (limits line_limit count_limit) (as_sizes z.now) events r.old.src.now r.old.at)) r.old r.new (step_lent result) }
{
    let TakeLines { event, taken } = read_taking(r, events, z, taken)?;
    let given = tokens_after(r, b"give=", z, given)?;
    Ok(StepLines {
        event,
        taken,
        given,
    })
}
