// The projections of the net-tokens of lines: counted by place, and their insides added up net by net. Likes are counted and not walked over:
// a line of many costs what a line of one does.
#![tactic(auto)]

ghost use Rattle.std.specs.Prelude.{◌≡◌, ℕ, ◌*◌, ◌≤◌, get_or, length, replicate};
ghost use Rattle.eos.specs.Vector.{◌⊕◌, times};
ghost use Rattle.model.specs.Limits.{alike_limit, count_limit};
ghost use Rattle.model.specs.Held.{no_row};
ghost use Rattle.step.specs.Verdict.{outer_entries};
ghost use Rattle.step.specs.VerdictParts.{Small, SmallRows, Placed, Rowed, Added, Inner};

use marking::Entry;

pub mod nets;

// How many net-tokens stand on each place.
pub fn outer_of(entries: &[Entry]) -> [u64; 32]
    requires { Placed entries.now }
    ensures { result ≡ outer_entries entries.now }
{
    let mut sums = [0u64; 32];
    for e in entries {
        let p = usize::from(e.token.place) - 1;
        sums[p] += u64::from(e.times);
    }
    sums
}

// The counts of n like net-tokens added to a row of sums.
fn add_counts(row: &mut [u64; 32], n: u16, counts: &[u16; 32])
    requires { Small row.old }
    ensures added { row.new ≡ row.old ⊕ times n counts.now }
    ensures long { length row.new ≡ 32 }
    ensures small { (k : ℕ) → n * get_or counts.now k 0 ≤ alike_limit * count_limit }
{
    for k in 0..32 {
        row[k] += u64::from(n) * u64::from(counts[k]);
    }
}

// The counts of an entry's net-tokens added to the sums of their net; black tokens have none.
fn add_inside(sums: &mut [[u64; 32]; 8], types: &[u8; 32], e: &Entry)
    requires { (1 ≤ e.now.token.place) × (e.now.token.place ≤ 32) × ((p : ℕ) → get_or types.now p 0 ≤ 8) × Rowed sums.old × SmallRows sums.old }
    ensures { Added types.now e.now sums.old sums.new }
{
    let d = usize::from(types[usize::from(e.token.place) - 1]);
    if d == 0 {
        return;
    }
    add_counts(&mut sums[d - 1], e.times, &e.token.counts);
}

// The insides of net-tokens added up, net by net, into sums that are all 0.
pub fn add_insides(entries: &[Entry], types: &[u8; 32], sums: &mut [[u64; 32]; 8])
    requires { Placed entries.now × ((p : ℕ) → get_or types.now p 0 ≤ 8) × (sums.old ≡ replicate 8 no_row) }
    ensures { Inner types.now entries.now sums.new }
{
    for e in entries {
        add_inside(sums, types, e);
    }
}

// The same into room for the sums, whatever stands there: an answer of 2 KB is copied, which is slower (tried).
pub fn inner_of(entries: &[Entry], types: &[u8; 32], sums: &mut [[u64; 32]; 8])
    requires { Placed entries.now × ((p : ℕ) → get_or types.now p 0 ≤ 8) }
    ensures { Inner types.now entries.now sums.new }
{
    *sums = [[0u64; 32]; 8];
    add_insides(entries, types, sums);
}
