// The rule of 01 that looks into arrays: who takes part in an idling event.
#![tactic(auto)]

ghost use Rattle.std.specs.Prelude.{◌≡◌, not, eqb};
ghost use Rattle.model.specs.Rules.{takes_part};
ghost use Rattle.text.specs.Lines.{every};

// Whether some count is not 0.
fn some_count(counts: &[u8; 32]) -> bool
    ensures { result ≡ not (every (λ c. eqb c 0) counts.now) }
{
    !counts.iter().all(|c| *c == 0)
}

// Whether net n, from 0, may have these counts where an event idles in net `own`, from 1: its own net takes part, and no other does. Own
// net 0 is a move's, of which that is not asked.
pub fn takes_part(own: u8, n: usize, counts: &[u8; 32]) -> bool
    ensures { result ≡ takes_part own n counts.now }
{
    own == 0 || some_count(counts) == (usize::from(own) - 1 == n)
}
