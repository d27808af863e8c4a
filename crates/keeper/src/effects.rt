// The first event that does not balance.
ghost use Rattle.std.specs.Prelude.{◌≡◌, ◌<◌, true, length, IfSome};
ghost use Rattle.eos.specs.Model.{event};
ghost use Rattle.eos.specs.Causes.{failing};
ghost use Rattle.eos.specs.Weights.{Weights, is_zero, effect};
ghost use Rattle.model.specs.Held.{model_of, told};
ghost use Rattle.model.specs.Test.{held_model};
ghost use Rattle.keeper.specs.Parts.{Holds};

use super::HeldWeights;
use model::Model;
use weigh_events::Gains;

// The first event whose effect is not 0, by its index.
pub fn unbalanced(m: &Model, held: &HeldWeights) -> Option<usize>
    requires tested { held_model m.now ≡ true }
    requires room { (length m.now.objects ≡ 8) × (length m.now.events ≡ 64) }
    ensures first { (w : Weights) → Holds m.now w held.now
        → result ≡ told (failing m.now.listed 0 (λ k. is_zero (effect (model_of m.now) w (event (model_of m.now) k)))) }
    ensures within { IfSome result (λ k. k < 64) }
{
    let listed = &m.events[..m.listed];
    Gains::of(m, &held.rows).first_unbalanced(listed)
}
