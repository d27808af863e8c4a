// Sums over a held model and a held marking, by weights as they are held: what each event gains, what net-tokens weigh, and whether the
// weights cover. Definitions, laws, and the one product that all of these sums are made of.
#![tactic(auto)]

ghost use Rattle.std.specs.Prelude.{◌≡◌, ℕ, ◌*◌, ◌≤◌, ⊤, length, map, ℤ, pos, neg_ℤ, nat_abs, ◌≤ℤ◌};
ghost use Rattle.std.specs.List.{All};
ghost use Rattle.eos.specs.Weights.{dot};
ghost use Rattle.weigh.specs.Sums.{most_weight};

// What is added up: a weight, or what weights add up to, which has a limit either side of 0.
pub trait Factor: Copy {
    ghost number: { Self → ℤ };

    ghost limit: { ℕ };

    ghost within: { Self → Type 0 };

    fn wide(self) -> i64
        requires { within self }
        ensures { (result ≡ number self) × (nat_abs (number self) ≤ limit) × (limit ≤ 137436856320) };
}

impl Factor for i16 {
    ghost number = { λ n. n };

    ghost limit = { 32768 };

    ghost within = { λ _. ⊤ };

    fn wide(self) -> i64 {
        i64::from(self)
    }
}

// A weight that needs more than 16 bits, of at most 65,535 either side of 0.
impl Factor for i32 {
    ghost number = { λ n. n };

    ghost limit = { most_weight };

    ghost within = { λ n. nat_abs n ≤ most_weight };

    fn wide(self) -> i64 {
        i64::from(self)
    }
}

impl Factor for i64 {
    ghost number = { λ n. n };

    ghost limit = { 137436856320 };

    ghost within = { λ n. nat_abs n ≤ 137436856320 };

    fn wide(self) -> i64 {
        self
    }
}

// How often it is added up: a number of racks, or what an arc takes or gives.
pub trait Count: Copy {
    ghost count: { Self → ℕ };

    ghost limit: { ℕ };

    fn wide(self) -> i64
        ensures { (result ≡ pos (count self)) × (count self ≤ limit) × (limit ≤ 65535) };
}

impl Count for u8 {
    ghost count = { λ n. n };

    ghost limit = { 255 };

    fn wide(self) -> i64 {
        i64::from(self)
    }
}

impl Count for u16 {
    ghost count = { λ n. n };

    ghost limit = { 65535 };

    fn wide(self) -> i64 {
        i64::from(self)
    }
}

// Factors times counts, added up; no more than 32 of them, so that the sum stays far within its type.
pub fn dot<F: Factor, C: Count>(factors: &[F], counts: &[C]) -> i64
    requires few { length factors.now ≤ 32 }
    requires small { All F.within factors.now }
    ensures value { result ≡ dot (map F.number factors.now) (map C.count counts.now) }
    ensures low { neg_ℤ (pos (32 * (F.limit * C.limit))) ≤ℤ result }
    ensures high { result ≤ℤ pos (32 * (F.limit * C.limit)) }
{
    let mut sum: i64 = 0;
    for (factor, count) in factors.iter().zip(counts.iter()) {
        sum += factor.wide() * count.wide();
    }
    sum
}
