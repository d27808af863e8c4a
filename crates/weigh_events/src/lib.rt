// What events gain, by weights: an event whose effect is 0 gains nothing.
#![tactic(auto)]

ghost use Rattle.std.specs.Prelude.{◌≡◌, ℕ, ◌≤◌, ◌<◌, length, map, get_or, pos, neg_ℤ, ◌-ℤ◌, ◌≤ℤ◌};
ghost use Rattle.std.specs.List.{All};
ghost use Rattle.eos.specs.Causes.{failing};
ghost use Rattle.eos.specs.Weights.{dot, is_zero};
ghost use Rattle.model.specs.Acts.{as_act, index_of, move_of};
ghost use Rattle.model.specs.Held.{no_event, row_at, told};
ghost use Rattle.weigh.specs.Sums as sums;
ghost use Rattle.weigh.specs.Sums.{most_weight, numbers, GainRow, Addable, move_gain, event_gain, balanced_at, ActIn};

use model::{Act, Event, Model};
use weigh::{Factor, dot};

// What a transition gains by a row of weights: its post weighed, less its pre weighed.
fn gain<W: Factor>(weights: &[W], pre: &[u8], post: &[u8]) -> i64
    requires few { length weights.now ≤ 32 }
    requires most { W.limit ≤ most_weight }
    requires small { All W.within weights.now }
    ensures value { result ≡ dot (map W.number weights.now) post.now -ℤ dot (map W.number weights.now) pre.now }
    ensures low { neg_ℤ (pos 1069531200) ≤ℤ result }
    ensures high { result ≤ℤ pos 1069531200 }
{
    dot(weights, post) - dot(weights, pre)
}

// What each of 32 transitions gains by a row of weights.
fn gain_row<W: Factor>(weights: &[W; 32], pre: &[[u8; 32]; 32], post: &[[u8; 32]; 32]) -> [i64; 32]
    requires most { W.limit ≤ most_weight }
    requires small { All W.within weights.now }
    ensures { GainRow (map W.number weights.now) pre.now post.now result }
{
    let mut row = [0i64; 32];
    for t in 0..32 {
        row[t] = gain(weights, &pre[t], &post[t]);
    }
    row
}

// What transitions gain: a row of the moves, and one of each net's transitions.
#[derive(Drop)]
pub struct Gains {
    pub nets: usize,
    pub rows: [[i64; 32]; 9],
    pub ghost few: { nets ≤ 8 },
    pub ghost small: { (r : ℕ) → Addable (row_at rows r) },
}

// What an act gains: its move does, and idling, at a place or alone, gains nothing.
fn act_gain(act: Act, gains: &[i64; 32]) -> i64
    requires { index_of (as_act act) ≤ 32 }
    ensures { result ≡ move_gain gains.now (move_of (as_act act)) }
{
    match act {
        Act::Move { index } => gains[index],
        Act::Idle { .. } => 0,
        Act::Alone { .. } => 0,
    }
}

impl Gains {
    // What each move and each net's transitions of a model gain, in the rows of their weights.
    pub fn of<W: Factor>(m: &Model, weights: &[[W; 32]; 9]) -> Gains
        requires few { m.now.nets ≤ 8 }
        requires most { W.limit ≤ most_weight }
        requires small { All (All W.within) weights.now }
        ensures nets { result.nets ≡ m.now.nets }
        ensures rows { sums.Gains m.now (numbers W.number weights.now) result.rows }
    {
        let mut rows = [[0i64; 32]; 9];
        rows[0] = gain_row(&weights[0], &m.pre, &m.post);
        for n in 0..m.nets {
            let net = &m.objects[n];
            rows[n + 1] = gain_row(&weights[n + 1], &net.pre, &net.post);
        }
        Gains { nets: m.nets, rows }
    }

    // What an event gains.
    fn event_gain(&self, e: &Event) -> i64
        requires { ActIn e.now }
        ensures { result ≡ event_gain self.now.nets e.now self.now.rows }
    {
        let mut sum = act_gain(e.act(), &self.rows[0]);
        for n in 0..self.nets {
            sum += dot(&self.rows[n + 1], &e.sync[n]);
        }
        sum
    }

    // Whether an event gains nothing.
    fn balanced(&self, e: &Event) -> bool
        requires { ActIn e.now }
        ensures { result ≡ is_zero (event_gain self.now.nets e.now self.now.rows) }
    {
        self.event_gain(e) == 0
    }

    // The first of the events that gains something, by its index.
    pub fn first_unbalanced(&self, events: &[Event]) -> Option<usize>
        requires { (k : ℕ) → k < length events.now → ActIn (get_or events.now k no_event) }
        ensures { result ≡ told (failing (length events.now) 0 (balanced_at self.now.nets events.now self.now.rows)) }
    {
        events.iter().position(|event| !self.balanced(event))
    }
}
