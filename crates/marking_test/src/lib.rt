// How many counts the net-tokens of a held model have on each place, and the test of a held marking.
#![tactic(auto)]

ghost use Rattle.std.specs.Prelude.{◌≡◌, ℕ, ◌≤◌, ◌<◌, length, get_or, true};
ghost use Rattle.text.specs.Lines.{every};
ghost use Rattle.model.specs.Limits.{room_limit};
ghost use Rattle.model.specs.Held.{listed, no_net};
ghost use Rattle.model.specs.Test.{held_model};
ghost use Rattle.marking.specs.Tokens.{unused, ascending};
ghost use Rattle.marking.specs.Held.{as_sizes, held_token, held_entry, held_entries, held_marking};
ghost use Rattle.marking.specs.Sizes.{size_of_type, sizes_in, place_sizes};

use marking::{Entry, Marking, NetToken, PlaceSizes};
use model::{Model, ObjectNet};
use std::array;

// Whether a net-token is right: its place is one of the model's, and what follows the counts of the place is 0.
fn token_held(t: &NetToken, z: &PlaceSizes) -> bool
    ensures { result ≡ held_token (as_sizes z.now) t.now }
{
    let size = z.size_at(t.place);
    1 <= t.place && t.place <= z.places && t.counts.iter().skip(size).all(|count| *count == 0)
}

// Whether an entry is right: its net-token is, and there is one at least; no number of its type is too large.
fn entry_held(e: &Entry, z: &PlaceSizes) -> bool
    ensures { result ≡ held_entry (as_sizes z.now) e.now }
{
    token_held(&e.token, z) && 1 <= e.times
}

// Whether each of the entries is right.
fn all_held(entries: &[Entry], z: &PlaceSizes) -> bool
    ensures { result ≡ every (held_entry (as_sizes z.now)) entries.now }
{
    entries.iter().all(|e| entry_held(e, z))
}

// Whether entries are in strictly ascending order; their counts are no part of it.
fn in_order(entries: &[Entry]) -> bool
    ensures { result ≡ ascending entries.now }
{
    entries.is_sorted_by(|e, f| e.token.cmp(&f.token).is_lt())
}

// Whether room is unused.
fn all_unused(room: &[Entry]) -> bool
    ensures { result ≡ every unused room.now }
{
    let empty = NetToken::empty();
    room.iter().all(|e| empty == e.token && e.times == 0)
}

// Whether the first n of lent entries, in room for so many, are held as those of a marking of a model with such places are: no more than there is
// room for, in strictly ascending order, unused room 0, each right.
pub fn entries_held(entries: &[Entry], n: usize, room: usize, z: &PlaceSizes) -> bool
    requires { room ≤ length entries.now }
    ensures { result ≡ held_entries room (as_sizes z.now) n entries.now }
{
    if room < n {
        return false;
    }
    let held = &entries[..n];
    in_order(held) && all_unused(&entries[n..]) && all_held(held, z)
}

// The same of a held marking.
pub fn is_held(k: &Marking, z: &PlaceSizes) -> bool
    ensures { result ≡ held_marking room_limit (as_sizes z.now) k.now }
{
    entries_held(&k.entries, k.len, Marking::ROOM, z)
}

// For each type, from that of black tokens on, how many counts a net-token has.
fn by_type(objects: &[ObjectNet; 8]) -> [u8; 9]
    requires { (n : ℕ) → n < 8 → (get_or objects.now n no_net).places ≤ 32 }
    ensures { result ≡ listed (size_of_type objects.now) 0 9 }
{
    array::from_fn(|t| match t {
        0 => 0,
        // At most 32 inner places: there is no refusal to hand on.
        net => objects[net - 1].places as u8,
    })
}

// For each place, how many counts a net-token has.
pub fn sizes(m: &Model) -> [u8; 32]
    requires { held_model m.now ≡ true }
    ensures { result ≡ sizes_in m.now }
{
    let of_type = by_type(&m.objects);
    array::from_fn(|p| of_type[usize::from(m.types[p])])
}

// How many places a held model has, and how many counts the net-tokens of each.
pub fn place_sizes(m: &Model) -> PlaceSizes
    requires { held_model m.now ≡ true }
    ensures { result ≡ place_sizes m.now }
{
    PlaceSizes {
        // At most 32 places: there is no refusal to hand on.
        places: m.places as u16,
        sizes: sizes(m),
    }
}
