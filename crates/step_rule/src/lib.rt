// What an event asks and gives, added up: the sides of its move or of idling, and those of its object nets' transitions.
#![tactic(auto)]

ghost use Rattle.std.specs.Prelude.{◌≡◌, true, ℕ, ◌+◌, ◌≤◌, ◌<◌, get_or};
ghost use Rattle.eos.specs.Vector.{◌⊕◌, times, zeros};
ghost use Rattle.model.specs.Held.{SizedModel, row_in, no_net, model_of};
ghost use Rattle.model.specs.Rules.{nth};
ghost use Rattle.model.specs.Test.{held_model};
ghost use Rattle.step.specs.Rule.{hold_rule};
ghost use Rattle.step.specs.RuleParts.{sum_rows, pre_arcs, post_arcs, net_sums, Unused};

use model::Model;
use model_acts::{alone_of, outer_side};
use step::Rule;

// A row of arcs added to the sum, as often as it is counted.
fn plus_times(sum: &mut [u64; 32], count: u8, arcs: &[u8; 32])
    requires { (i : ℕ) → nth sum.old i ≤ 4294967296 }
    ensures { (sum.new ≡ sum.old ⊕ times count arcs.now) × ((i : ℕ) → nth sum.new i ≤ nth sum.old i + 65025) }
{
    if count == 0 {
        return;
    }
    for k in 0..32 {
        sum[k] += u64::from(count) * u64::from(arcs[k]);
    }
}

// The rows of a net's transitions added up, each as often as it is counted.
fn summed(counts: &[u8; 32], table: &[[u8; 32]; 32], transitions: usize) -> [u64; 32]
    requires { transitions ≤ 32 }
    ensures { result ≡ sum_rows (nth counts.now) (row_in 32 table.now) 0 transitions (zeros 32) }
{
    let mut sum = [0u64; 32];
    for t in 0..transitions {
        plus_times(&mut sum, counts[t], &table[t]);
    }
    sum
}

// The rows of the object nets on both sides, for the counts of an event, into room of which the rows behind them are not used.
fn inner_sides(m: &Model, sync: &[[u8; 32]; 8], pre: &mut [[u64; 32]; 8], post: &mut [[u64; 32]; 8])
    requires { (m.now.nets ≤ 8) × ((n : ℕ) → (get_or m.now.objects n no_net).transitions ≤ 32) × Unused m.now.nets pre.old × Unused m.now.nets post.old }
    ensures { (pre.new ≡ net_sums pre_arcs m.now sync.now) × (post.new ≡ net_sums post_arcs m.now sync.now) }
{
    for n in 0..m.nets {
        let net = &m.objects[n];
        let transitions = net.transitions;
        pre[n] = summed(&sync[n], &net.pre, transitions);
        post[n] = summed(&sync[n], &net.post, transitions);
    }
}

// What the firing rule asks of a step of event e, which is one of the held model's, into room of which the rows behind the nets are not used, as
// that of another event of the model. The arrays of the model that is lent have their room, and bytes in it.
pub fn lay_rule(m: &Model, e: usize, rule: &mut Rule)
    requires { (held_model m.now ≡ true) × (e < m.now.listed) × Unused m.now.nets rule.old.pre.inner × Unused m.now.nets rule.old.post.inner }
    ensures unused { Unused m.now.nets rule.new.pre.inner × Unused m.now.nets rule.new.post.inner }
    ensures made { rule.new ≡ hold_rule (model_of m.now) e }
    ensures sized { SizedModel m.now }
{
    let event = &m.events[e];
    let act = event.act();
    rule.nets = m.nets;
    rule.alone = alone_of(act);
    rule.types = m.types;
    rule.pre.outer = outer_side(act, &m.pre);
    rule.post.outer = outer_side(act, &m.post);
    inner_sides(m, &event.sync, &mut rule.pre.inner, &mut rule.post.inner);
}

// The same into room for it, whatever stands there: an answer of 4 KB is copied, which makes a run slower by a third to two thirds (tried).
pub fn rule_of(m: &Model, e: usize, rule: &mut Rule)
    requires { (held_model m.now ≡ true) × (e < m.now.listed) }
    ensures made { rule.new ≡ hold_rule (model_of m.now) e }
    ensures sized { SizedModel m.now }
{
    *rule = Rule::empty();
    lay_rule(m, e, rule);
}
