// Fewer events: idling events that are like are replaced by one `alone`, at the first one's position, and only if every place of the type has
// one.
#![tactic(auto)]

ghost use Rattle.std.specs.Prelude.{◌≡◌, ℕ, true, cond, eqb, ◌<◌, ◌≤◌, [], map, length, take, set};
ghost use Rattle.eos.specs.Converting.{idles_at, alike, position, staying, like_at, replaceable, unreplaced};
ghost use Rattle.model.specs.Rules.{nth};
ghost use Rattle.model.specs.Acts.{act_of};
ghost use Rattle.model.specs.Held.{SizedModel, told, hold_events, hold_plant, model_of, plant_of};
ghost use Rattle.model.specs.Test.{held_model};
ghost use Rattle.model_convert.specs.Converting.{whole, bare, replaced_in, hold_numbers, converted_plant};

use model::{Act, Event, Model};
use std::array;

// The type of a place; 0 past the room for places.
fn type_of(types: &[u8; 32], place: usize) -> u8
    ensures { result ≡ nth types.now place }
{
    if place < 32 { types[place] } else { 0 }
}

// Whether two events are like: both idle, at places of one type, with the same counts.
fn alike(types: &[u8; 32], d: &Event, e: &Event) -> bool
    ensures { result ≡ alike (bare types.now []) (whole d.now) (whole e.now) }
{
    match (d.act(), e.act()) {
        (Act::Idle { place: p }, Act::Idle { place: q }) => {
            type_of(types, p) == type_of(types, q) && d.sync == e.sync
        }
        _ => false,
    }
}

// Whether an event idles at place q.
fn idles_at(d: &Event, q: usize) -> bool
    ensures { result ≡ idles_at q (act_of d.now.kind d.now.index) }
{
    match d.act() {
        Act::Idle { place } => place == q,
        _ => false,
    }
}

// Whether some event that is like e idles at place q.
fn like_at(types: &[u8; 32], events: &[Event], e: &Event, q: usize) -> bool
    ensures { result ≡ like_at (bare types.now events.now) (whole e.now) q }
{
    events.iter().any(|d| idles_at(d, q) && alike(types, d, e))
}

// Whether every place of the type at which an event idles has one that is like it.
fn replaceable(types: &[u8; 32], events: &[Event], e: &Event) -> bool
    ensures { result ≡ replaceable (bare types.now events.now) (whole e.now) }
{
    match e.act() {
        Act::Idle { place } => {
            let own = type_of(types, place);
            types
                .iter()
                .enumerate()
                .all(|(q, t)| *t != own || like_at(types, events, e, q))
        }
        _ => true,
    }
}

// The first event of a held model that cannot be replaced, by its index.
pub fn unreplaced(m: &Model) -> Option<usize>
    requires { held_model m.now ≡ true }
    ensures { result ≡ told (unreplaced (model_of m.now)) }
{
    let events = &m.events[..m.listed];
    for k in 0..m.listed {
        if !replaceable(&m.types, events, &m.events[k]) {
            return Some(k);
        }
    }
    None
}

// The index of the first of the events that is like e; how many they are where none is.
fn position(types: &[u8; 32], events: &[Event], e: &Event) -> usize
    ensures { result ≡ position (bare types.now []) (whole e.now) (map whole events.now) }
{
    events
        .iter()
        .position(|d| alike(types, d, e))
        .unwrap_or(events.len())
}

// Puts e behind the n events that stay, unless one of them is like it. The answer is its index among them.
fn join(types: &[u8; 32], kept: &mut [Event; 64], n: usize, e: &Event) -> usize
    requires { n < 64 }
    ensures at { result ≡ position (bare types.now []) (whole e.now) (map whole (take n kept.old)) }
    ensures joined { kept.new ≡ cond (eqb result n) (set kept.old n e.now) kept.old }
{
    let at = position(types, &kept[..n], e);
    if at == n {
        kept[n] = *e;
    }
    at
}

// The events that stay and the new numbers of all, into room for them. The answer is how many stay.
fn stay(m: &Model, kept: &mut [Event; 64], numbers: &mut [u8; 64]) -> usize
    requires { held_model m.now ≡ true }
    ensures listed { result ≡ length (staying (model_of m.now) [] (model_of m.now).events) }
    ensures kept { kept.new ≡ hold_events (staying (model_of m.now) [] (model_of m.now).events) }
    ensures numbers { numbers.new ≡ hold_numbers (model_of m.now) }
{
    let none = Event::empty();
    *kept = [none; 64];
    *numbers = [0; 64];
    let mut n = 0;
    for k in 0..m.listed {
        let at = join(&m.types, kept, n, &m.events[k]);
        numbers[k] = at as u8 + 1;
        n = n.max(at + 1);
    }
    n
}

// An event with `alone` in place of idling, and its counts.
fn replaced(types: &[u8; 32], e: &Event) -> Event
    ensures { result ≡ replaced_in types.now e.now }
{
    match e.act() {
        Act::Idle { place } => {
            let net = usize::from(type_of(types, place)).saturating_sub(1);
            Event::new(Act::Alone { net }, e.sync)
        }
        _ => *e,
    }
}

// A model with these events, under the header for `alone`. It is taken by value, which tells that its arrays have their room.
fn with_alone(m: Model, listed: usize, events: [Event; 64]) -> Model
    ensures made { result ≡ record {
      header = 2;
      nets = m.nets;
      places = m.places;
      moves = m.moves;
      listed = listed;
      types = m.types;
      pre = m.pre;
      post = m.post;
      objects = m.objects;
      events = events;
    } }
    ensures sized { SizedModel m }
{
    let mut m = m;
    m.header = Model::WITH_ALONE;
    m.listed = listed;
    m.events = events;
    m
}

// A held model with `alone` in place of idling, and the new number of each of its events, into room for them.
pub fn converted(m: &Model, numbers: &mut [u8; 64]) -> Model
    requires { held_model m.now ≡ true }
    ensures model { result ≡ hold_plant (converted_plant (plant_of m.now)) }
    ensures numbers { numbers.new ≡ hold_numbers (model_of m.now) }
{
    let none = Event::empty();
    let mut kept = [none; 64];
    let listed = stay(m, &mut kept, numbers);
    with_alone(*m, listed, array::from_fn(|k| replaced(&m.types, &kept[k])))
}
