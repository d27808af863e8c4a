// What the act of an event says: whether it may be a model's, which net is its own, and what it takes or gives outside.
#![tactic(auto)]

ghost use Rattle.std.specs.Prelude.{◌≡◌, List, ℕ, ◌≤◌, ◌&&◌, ltb, leb};
ghost use Rattle.eos.specs.Firing.{act_side};
ghost use Rattle.model.specs.Rules.{nth, own_net};
ghost use Rattle.model.specs.Acts.{as_act, index_of, alone_of, held_act};
ghost use Rattle.model.specs.Held.{row_at};
ghost use Rattle.model.specs.Test.{frame_with};

use model::{Act, Event, Model};

// Whether a place is the model's, and typed by a net.
fn typed(m: &Model, place: usize) -> bool
    requires { m.now.places ≤ 32 }
    ensures { result ≡ (ltb place m.now.places && leb 1 (nth m.now.types place)) }
{
    place < m.places && 1 <= m.types[place]
}

// Whether an event's act may be a model's.
pub fn act_held(m: &Model, event: &Event) -> bool
    requires { m.now.places ≤ 32 }
    ensures { (steps : List ℕ) → result ≡ held_act (frame_with m.now steps) event.now.kind event.now.index }
{
    if !event.is_act() {
        return false;
    }
    match event.act() {
        Act::Move { index } => index < m.moves,
        Act::Idle { place } => (m.header != Model::WITH_ALONE) & typed(m, place),
        Act::Alone { net } => (m.header == Model::WITH_ALONE) & (net < m.nets),
    }
}

// The net that an event idles in, or whose counts it has alone, from 1; 0, the type of black tokens, for a move.
pub fn own_net(types: &[u8; 32], act: Act) -> u8
    requires { index_of (as_act act) ≤ 32 }
    ensures { result ≡ own_net (nth types.now) (as_act act) }
{
    match act {
        Act::Move { .. } => 0,
        Act::Idle { place } => types[place],
        Act::Alone { net } => net as u8 + 1,
    }
}

// The net whose rack an event takes wherever it stands, from 1; 0 where the event names its places.
pub fn alone_of(act: Act) -> u8
    requires { index_of (as_act act) ≤ 32 }
    ensures { result ≡ alone_of (as_act act) }
{
    match act {
        Act::Move { .. } | Act::Idle { .. } => 0,
        Act::Alone { net } => net as u8 + 1,
    }
}

// A row of arcs in wider numbers. A loop over the places: `map` of an array is slower.
fn widened(arcs: &[u8; 32]) -> [u64; 32]
    ensures { result ≡ arcs.now }
{
    let mut row = [0u64; 32];
    for k in 0..32 {
        row[k] = u64::from(arcs[k]);
    }
    row
}

// The outer side of an event: its move's row of the table, one net-token on the place at which it idles, or nothing where it names no place.
pub fn outer_side(act: Act, table: &[[u8; 32]; 32]) -> [u64; 32]
    requires { index_of (as_act act) ≤ 32 }
    ensures { result ≡ act_side (row_at table.now) 32 (as_act act) }
{
    match act {
        Act::Move { index } => widened(&table[index]),
        Act::Idle { place } => {
            let mut one = [0u64; 32];
            one[place] = 1;
            one
        }
        Act::Alone { .. } => [0u64; 32],
    }
}
