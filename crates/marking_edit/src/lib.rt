// A held marking changed in place: an entry's net-tokens put in at their place, or taken out.
#![tactic(auto)]

ghost use Rattle.std.specs.Prelude.{◌≡◌, ◌&&◌, ◌-◌, ◌≤◌, ltb, length, get_or};
ghost use Rattle.std.specs.List.{copy_within};
ghost use Rattle.model.specs.Limits.{room_limit, alike_limit};
ghost use Rattle.marking.specs.Tokens.{like, no_entry, Kept, put_in, take_out};

use marking::{Entry, Marking, NetToken};
use marking_find::place_for;

// Entries moved up by one, over the last of them. This and the next are functions of their own so that LLVM finds one move of memory in
// each.
fn move_up(entries: &mut [Entry])
    requires { 1 ≤ length entries.old }
    ensures { entries.new ≡ copy_within entries.old 0 (length entries.old - 1) 1 }
{
    let last = entries.len() - 1;
    entries.copy_within(..last, 1);
}

// Entries moved down by one, over the first of them.
fn move_down(entries: &mut [Entry])
    requires { 1 ≤ length entries.old }
    ensures { entries.new ≡ copy_within entries.old 1 (length entries.old) 0 }
{
    entries.copy_within(1.., 0);
}

// Whether there is an entry at p, and it is of t.
fn stands(k: &Marking, p: usize, t: &NetToken) -> bool
    requires { Kept k.now }
    ensures { result ≡ (ltb p k.now.len && like t.now (get_or k.now.entries p no_entry).token) }
{
    p < k.len && *t == k.entries[p].token
}

// The net-tokens of e put in: added to those of their entry, or an entry of their own at its place, where those behind it move up. Where there
// is no room for so many alike, or for one more entry, nothing changes.
pub fn insert(k: &mut Marking, e: &Entry, room: usize) -> bool
    requires { (room ≤ room_limit) × (k.old.len ≤ room) × (1 ≤ e.now.times) × (e.now.times ≤ alike_limit) × Kept k.old }
    ensures { record { done = result; marking = k.new } ≡ put_in room e.now k.old }
{
    let n = k.len;
    let p = place_for(k.held(), &e.token);
    if stands(k, p, &e.token) {
        let Some(times) = k.entries[p].times.checked_add(e.times) else {
            return false;
        };
        k.entries[p].times = times;
        return true;
    }
    if n == room {
        return false;
    }
    move_up(&mut k.entries[p..n + 1]);
    k.entries[p] = *e;
    k.len = n + 1;
    true
}

// The net-tokens of e taken out of their entry. Where none is left, those behind it move down, and the room that they leave is empty; where
// there are fewer, nothing changes.
pub fn take_out(k: &mut Marking, e: &Entry) -> bool
    requires { (1 ≤ e.now.times) × Kept k.old }
    ensures { record { done = result; marking = k.new } ≡ take_out e.now k.old }
{
    let n = k.len;
    let p = place_for(k.held(), &e.token);
    if !stands(k, p, &e.token) {
        return false;
    }
    let had = k.entries[p].times;
    if had < e.times {
        return false;
    }
    if e.times < had {
        k.entries[p].times = had - e.times;
        return true;
    }
    move_down(&mut k.entries[p..n]);
    k.entries[n - 1] = Entry::empty();
    k.len = n - 1;
    true
}
