// The spread: the number of ordered ways to share n like tokens among k racks.
#![tactic(auto)]

ghost use Rattle.std.specs.Prelude.{◌≡◌, ◌≤◌};
ghost use Rattle.eos.specs.Spread.{spread};
ghost use Rattle.spread.specs.Call.{spread_call};
ghost use Rattle.spread.specs.Table.{SpreadTable};

use table::SPREADS;

mod table;

// Which of the two numbers is too large: more tokens than 31, or more racks than 16.
#[derive(Clone, Copy, PartialEq, Eq, Debug)]
pub enum Beyond {
    Tokens,
    Racks,
}

// The entry of n tokens and k racks. The table is lent: who wants many of its entries names it once.
fn entry(spreads: &[[u64; 17]; 32], n: usize, k: usize) -> u64
    requires n_within { n ≤ 31 }
    requires k_within { k ≤ 16 }
    requires the_table { SpreadTable spreads.now }
    ensures { result ≡ spread n k }
{
    spreads[n][k]
}

// The spread of n tokens among k racks; too many tokens are answered before too many racks.
pub fn ways(n: usize, k: usize) -> Result<u64, Beyond>
    ensures { result ≡ spread_call n k }
{
    if n > 31 {
        return Err(Beyond::Tokens);
    }
    if k > 16 {
        return Err(Beyond::Racks);
    }
    Ok(entry(&SPREADS, n, k))
}
