// Whether weights cover.
#![tactic(auto)]

ghost use Rattle.std.specs.Prelude.{◌≡◌, ◌<◌, ◌≤◌, map};
ghost use Rattle.std.specs.List.{All};
ghost use Rattle.eos.specs.Multiset.{every};
ghost use Rattle.marking.specs.Sizes.{SmallNets};
ghost use Rattle.weigh.specs.Sums.{numbers, enough, net_covered, covered};

use model::Model;
use weigh::Factor;

// Whether a weight is at least 1, and the sum divided by it at most so many.
fn enough<W: Factor>(weight: W, sum: u64, most: u64) -> bool
    requires { W.within weight }
    ensures { result ≡ enough most sum (W.number weight) }
{
    let weight = weight.wide();
    weight > 0 && sum / weight.unsigned_abs() <= most
}

// The same of all of a list of weights.
fn all_enough<W: Factor>(weights: &[W], sum: u64, most: u64) -> bool
    requires { All W.within weights.now }
    ensures { result ≡ every (enough most sum) (map W.number weights.now) }
{
    weights.iter().all(
        |weight|
            requires { W.within weight.now }
            ensures { result ≡ enough most sum (W.number weight.now) }
        { enough(*weight, sum, most) },
    )
}

// The same of the weights of net n, for the limit of a count.
fn net_covered<W: Factor>(m: &Model, weights: &[[W; 32]; 9], n: usize, sum: u64) -> bool
    requires nets { (n < 8) × SmallNets m.now.objects }
    requires small { All (All W.within) weights.now }
    ensures { result ≡ net_covered m.now.objects (numbers W.number weights.now) sum n }
{
    let places = m.objects[n].places;
    all_enough(&weights[n + 1][..places], sum, u64::from(Model::COUNT))
}

// Whether all weights are at least 1, the sum divided by each outer weight is at most `most`, and divided by each inner weight at most the
// limit of a count.
pub fn covers<W: Factor>(most: u64, m: &Model, weights: &[[W; 32]; 9], sum: u64) -> bool
    requires nets { (m.now.places ≤ 32) × (m.now.nets ≤ 8) × SmallNets m.now.objects }
    requires small { All (All W.within) weights.now }
    ensures { result ≡ covered most m.now.places m.now.nets m.now.objects (numbers W.number weights.now) sum }
{
    all_enough(&weights[0][..m.places], sum, most)
        && (0..m.nets).all(
            |n|
                requires { (n < 8) × SmallNets m.now.objects × All (All W.within) weights.now }
                ensures { result ≡ net_covered m.entry.now.objects (numbers W.number weights.entry.now) sum n }
            { net_covered(m, weights, n, sum) },
        )
}
