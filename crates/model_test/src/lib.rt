// The test of a held model: counts in range, unused room 0, and the rules on types and events.
#![tactic(auto)]

ghost use Rattle.std.specs.Prelude.{◌≡◌, ◌&&◌, cond, ℕ, ◌≤◌, eqb, leb, ltb, length, drop, get_or};
ghost use Rattle.text.specs.Lines.{in_range, every};
ghost use Rattle.eos.specs.Firing.{all_below};
ghost use Rattle.model.specs.Rules.{nth};
ghost use Rattle.model.specs.Held.{no_net, no_event};
ghost use Rattle.model.specs.Test.{empty, empty_past, used_of, held_moves, held_event, empty_event, held_model, used_in, type_at, sizes_are, net_is, net_at, counts_are, frame_with, part_at, event_is, event_at};

use model::{Event, Model, ObjectNet};
use model_acts::{act_held, own_net};
use model_rules::takes_part;
use std::array;

// Whether s is nothing but 0. It is looked at to its end, which is faster than to stop at the first number that is not.
fn all_empty(s: &[u8]) -> bool
    ensures { result ≡ empty s.now }
{
    s.iter().fold(true, |all, v| all & (*v == 0))
}

// Whether s is 0 from index `from` on.
fn empty_bytes(s: &[u8], from: usize) -> bool
    ensures { result ≡ empty (drop from s.now) }
{
    s.len() <= from || all_empty(&s[from..])
}

// Whether each row is nothing but 0. They are looked at as one part, which is faster than row by row.
fn rows_empty(rows: &[[u8; 32]]) -> bool
    ensures { result ≡ every empty rows.now }
{
    all_empty(rows.as_flattened())
}

// Whether each of the first n rows is 0 behind the numbers that it uses, and so is each row behind them.
fn empty_past(table: &[[u8; 32]], n: usize, widths: &[usize]) -> bool
    requires { (n ≤ length table.now) × (n ≤ length widths.now) }
    ensures { result ≡ empty_past (length table.now) (used_in n (nth widths.now)) table.now }
{
    rows_empty(&table[n..]) && (0..n).all(|i| empty_bytes(&table[i], widths[i]))
}

// The same of a table of 32 rows, of which the first n use `width` numbers each.
fn empty_behind(table: &[[u8; 32]; 32], n: usize, width: usize) -> bool
    requires { n ≤ 32 }
    ensures { result ≡ empty_past 32 (used_of n width) table.now }
{
    empty_past(table, n, &[width; 32])
}

// Whether place p may have type t.
fn type_held(nets: usize, places: usize, p: usize, t: u8) -> bool
    ensures { result ≡ cond (ltb p places) (leb t nets) (eqb t 0) }
{
    if p < places {
        usize::from(t) <= nets
    } else {
        t == 0
    }
}

fn types_held(nets: usize, places: usize, types: &[u8; 32]) -> bool
    ensures { result ≡ all_below 32 (type_at nets places types.now) }
{
    types
        .iter()
        .enumerate()
        .all(|(p, t)| type_held(nets, places, p, *t))
}

fn moves_held(m: &Model) -> bool
    requires { m.now.moves ≤ 32 }
    ensures { result ≡ held_moves m.now }
{
    empty_behind(&m.pre, m.moves, m.places) && empty_behind(&m.post, m.moves, m.places)
}

fn in_range(lo: usize, hi: usize, v: usize) -> bool
    ensures { result ≡ in_range lo hi v }
{
    lo <= v && v <= hi
}

// Whether net k may have these counts.
fn sizes_held(nets: usize, k: usize, places: usize, transitions: usize) -> bool
    ensures { result ≡ sizes_are nets k places transitions }
{
    if k < nets {
        in_range(1, usize::from(Model::INNER), places)
            && in_range(0, usize::from(Model::STEPS), transitions)
    } else {
        places == 0 && transitions == 0
    }
}

// Whether net k may be n.
fn net_is(nets: usize, k: usize, n: &ObjectNet) -> bool
    ensures { result ≡ net_is nets k n.now }
{
    sizes_held(nets, k, n.places, n.transitions)
        && (empty_behind(&n.pre, n.transitions, n.places)
            && empty_behind(&n.post, n.transitions, n.places))
}

fn nets_held(nets: usize, objects: &[ObjectNet; 8]) -> bool
    ensures { result ≡ all_below 8 (net_at nets objects.now) }
{
    objects.iter().enumerate().all(|(k, n)| net_is(nets, k, n))
}

// How many transitions each net has.
fn transitions_of(objects: &[ObjectNet; 8]) -> [usize; 8]
    ensures { (n : ℕ) → nth result n ≡ (get_or objects.now n no_net).transitions }
{
    array::from_fn(|n| objects[n].transitions)
}

// Whether each net takes part as an event that idles in net `own` asks.
fn parts_held(own: u8, nets: usize, sync: &[[u8; 32]; 8]) -> bool
    requires { nets ≤ 8 }
    ensures { result ≡ all_below nets (part_at own sync.now) }
{
    (0..nets).all(|n| takes_part(own, n, &sync[n]))
}

fn event_empty(e: &Event) -> bool
    ensures { result ≡ empty_event e.now }
{
    e.kind == 0 && (e.index == 0 && rows_empty(&e.sync))
}

// What the events of a model depend on: the model, its counts in range, and how many transitions each net has.
#[derive(Clone, Copy)]
struct Frame<'a> {
    model: &'a Model,
    steps: [usize; 8],
    ghost places: { model.now.places ≤ 32 },
    ghost moves: { model.now.moves ≤ 32 },
    ghost nets: { model.now.nets ≤ 8 },
}

impl Frame<'_> {
    // Whether an event that is used may be e.
    fn event_held(&self, e: &Event) -> bool
        ensures { result ≡ held_event (frame_with self.now.model.now self.now.steps) e.now }
    {
        let m = self.model;
        act_held(m, e)
            && (empty_past(&e.sync, m.nets, &self.steps)
                && parts_held(own_net(&m.types, e.act()), m.nets, &e.sync))
    }

    // Whether event k may be e.
    fn event_is(&self, k: usize, e: &Event) -> bool
        ensures { result ≡ event_is (frame_with self.now.model.now self.now.steps) self.now.model.now.listed k e.now }
    {
        if k < self.model.listed {
            self.event_held(e)
        } else {
            event_empty(e)
        }
    }

    fn events_held(&self) -> bool
        ensures { result ≡ all_below 64 (event_at (frame_with self.now.model.now self.now.steps) self.now.model.now.listed self.now.model.now.events) }
    {
        self.model
            .events
            .iter()
            .enumerate()
            .all(|(k, e)| self.event_is(k, e))
    }
}

fn counts_held(m: &Model) -> bool
    ensures { result ≡ counts_are m.now.header m.now.nets m.now.places m.now.moves m.now.listed }
{
    in_range(Model::WITH_IDLE, Model::WITH_ALONE, m.header)
        && (in_range(0, usize::from(Model::NETS), m.nets)
            && (in_range(1, usize::from(Model::PLACES), m.places)
                && (in_range(0, usize::from(Model::MOVES), m.moves)
                    && in_range(0, usize::from(Model::EVENTS), m.listed))))
}

// Whether m is held as a model is.
pub fn is_held(m: &Model) -> bool
    ensures { result ≡ held_model m.now }
{
    if !counts_held(m) {
        return false;
    }
    let steps = transitions_of(&m.objects);
    let frame = Frame { model: m, steps };
    types_held(m.nets, m.places, &m.types)
        && (moves_held(m) && (nets_held(m.nets, &m.objects) && frame.events_held()))
}
