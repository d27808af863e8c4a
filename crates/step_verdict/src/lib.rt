// The verdict on a step's lines by themselves (8 to 10): the tests in their order, up to the first that fails. They are asked of lines that need
// not have been read from a step, and so of what is taken and what is given each by itself. Whether the marking has the net-tokens taken, and
// room for those given, its change says.
#![tactic(auto)]

ghost use Rattle.std.specs.Prelude.{◌≡◌, ◌≤◌, length, [], ◌∷◌};
ghost use Rattle.eos.specs.Vector.{eq_v};
ghost use Rattle.eos.specs.Causes.{first};
ghost use Rattle.step.specs.Verdict.{types_in, outer_taken_in, outer_given_in, outer_causes, inner_causes, line_causes, verdict_of};
ghost use Rattle.step.specs.VerdictParts.{Sound, Placed};

use marking::Entry;
use step::{Refusal, Rule};
use step_projections::nets::{short_net, unbalanced_net};
use step_projections::{add_insides, outer_of};

// Whether the net-tokens taken are one, of the net that is `alone`.
fn one_of_net(rule: &Rule, taken: &[Entry]) -> bool
    requires { Placed taken.now }
    ensures { result ≡ eq_v (types_in rule.now.types taken.now) (rule.now.alone ∷ []) }
{
    if taken.len() != 1 {
        return false;
    }
    let Entry { token, times } = taken[0];
    times == 1 && rule.types[usize::from(token.place) - 1] == rule.alone
}

// Whether the net-tokens taken are on the places that the event asks.
fn asked(rule: &Rule, taken: &[Entry]) -> bool
    requires { Placed taken.now }
    ensures { result ≡ outer_taken_in rule.now taken.now }
{
    if rule.alone == 0 {
        return outer_of(taken) == rule.pre.outer;
    }
    one_of_net(rule, taken)
}

// Whether the net-tokens given are on the places that the event gives.
fn left(rule: &Rule, taken: &[Entry], given: &[Entry]) -> bool
    requires { Placed taken.now × Placed given.now }
    ensures { result ≡ outer_given_in rule.now taken.now given.now }
{
    if rule.alone == 0 {
        return outer_of(given) == rule.post.outer;
    }
    outer_of(given) == outer_of(taken)
}

// The tests on the places (8): the net-tokens taken are those that the event asks, and those given are those that it gives.
pub fn on_places(rule: &Rule, taken: &[Entry], given: &[Entry]) -> Result<(), Refusal>
    requires { Placed taken.now × Placed given.now }
    ensures { result ≡ verdict_of (length taken.now) (first (outer_causes rule.now taken.now given.now)) }
{
    if !asked(rule, taken) {
        return Err(Refusal::Places { line: 2 });
    }
    if !left(rule, taken, given) {
        return Err(Refusal::Places {
            line: taken.len() + 3,
        });
    }
    Ok(())
}

// The tests on the nets (9 and 10): the tokens inside the net-tokens taken are enough, and those inside the net-tokens given are what is left.
pub fn on_nets(rule: &Rule, taken: &[Entry], given: &[Entry]) -> Result<(), Refusal>
    requires { Sound rule.now × Placed taken.now × Placed given.now }
    ensures { result ≡ verdict_of (length taken.now) (first (inner_causes rule.now taken.now given.now)) }
{
    let mut held = [[0u64; 32]; 8];
    add_insides(taken, &rule.types, &mut held);
    if let Some(net) = short_net(rule.nets, &rule.pre.inner, &held) {
        return Err(Refusal::Short { net: net + 1 });
    }
    let mut made = [[0u64; 32]; 8];
    add_insides(given, &rule.types, &mut made);
    if let Some(net) = unbalanced_net(rule.nets, &made, &held, &rule.pre.inner, &rule.post.inner) {
        return Err(Refusal::Unequal { net: net + 1 });
    }
    Ok(())
}

// Why a step is turned down for its lines, or that they are right: an event with its rule, and the net-tokens taken and given. The two parts are
// asked in turn.
pub fn verdict(rule: &Rule, taken: &[Entry], given: &[Entry]) -> Result<(), Refusal>
    requires { Sound rule.now × Placed taken.now × Placed given.now }
    ensures { result ≡ verdict_of (length taken.now) (first (line_causes rule.now taken.now given.now)) }
{
    on_places(rule, taken, given)?;
    on_nets(rule, taken, given)
}
