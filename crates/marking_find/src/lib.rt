// Entries in ascending order: the place of a net-token among them.
#![tactic(auto)]

ghost use Rattle.std.specs.Prelude.{◌≡◌, ◌≤◌, length};
ghost use Rattle.eos.specs.Multiset as M;
ghost use Rattle.marking.specs.Tokens.{before, tokens, place_for};

use marking::{Entry, NetToken};

// How many entries stand before the place of t.
pub fn place_for(entries: &[Entry], t: &NetToken) -> usize
    requires { M.Sorted before (tokens entries.now) }
    ensures { (result ≡ place_for t.now (tokens entries.now)) × (result ≤ length entries.now) }
{
    entries.partition_point(|e| e.token.cmp(t).is_lt())
}
