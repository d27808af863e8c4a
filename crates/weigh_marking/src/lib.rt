// The weighted sum of a held marking.
#![tactic(auto)]

ghost use Rattle.std.specs.Prelude.{◌≡◌, ◌≤◌, length, pos, neg_ℤ, ◌≤ℤ◌};
ghost use Rattle.std.specs.List.{All};
ghost use Rattle.model.specs.Limits.{room_limit};
ghost use Rattle.marking.specs.Tokens.{OnPlaces};
ghost use Rattle.weigh.specs.Sums.{most_weight, numbers, token_weight, token_most, marking_weight, marking_most, TypesIn};

use marking::{Entry, NetToken};
use weigh::{Factor, dot};

// The weight of a net-token: of its place, and of its counts. A black token's counts are 0.
fn token_weight<W: Factor>(weights: &[[W; 32]; 9], types: &[u8; 32], t: &NetToken) -> i64
    requires place { (1 ≤ t.now.place) × (t.now.place ≤ 32) × TypesIn types.now }
    requires most { W.limit ≤ most_weight }
    requires small { All (All W.within) weights.now }
    ensures value { result ≡ token_weight (numbers W.number weights.now) types.now t.now }
    ensures low { neg_ℤ (pos (token_most W.limit)) ≤ℤ result }
    ensures high { result ≤ℤ pos (token_most W.limit) }
{
    let place = usize::from(t.place) - 1;
    let counts = dot(&weights[usize::from(types[place])], &t.counts);
    weights[0][place].wide() + counts
}

// The weight of entries, each as often as it is counted.
pub fn marking_weight<W: Factor>(weights: &[[W; 32]; 9], types: &[u8; 32], entries: &[Entry]) -> i64
    requires entries { (length entries.now ≤ room_limit) × OnPlaces entries.now × TypesIn types.now }
    requires most { W.limit ≤ most_weight }
    requires small { All (All W.within) weights.now }
    ensures value { result ≡ marking_weight (numbers W.number weights.now) types.now entries.now }
    ensures low { neg_ℤ (pos (marking_most W.limit)) ≤ℤ result }
    ensures high { result ≤ℤ pos (marking_most W.limit) }
{
    let mut sum: i64 = 0;
    for e in entries {
        sum += i64::from(e.times) * token_weight(weights, types, &e.token);
    }
    sum
}
