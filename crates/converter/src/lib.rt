// The converter, a call of Reader: idling events of a held model that are like are replaced by one `alone`, and each event has a new number.
#![tactic(auto)]

ghost use Rattle.std.specs.Prelude.{◌≡◌};
ghost use Rattle.converter.specs.Answers.{converting};

use model::Model;
use model_convert::{converted, unreplaced};
use model_test::is_held;

// Why a model is not converted: it is not held, or an event, by its number, cannot be replaced.
#[derive(Clone, Copy, PartialEq, Eq, Debug)]
pub enum ConversionRefusal {
    NotHeld,
    Irreplaceable { event: usize },
}

// A model with `alone` in place of idling, and the new number of each event, from 1. Unused room is 0.
#[repr(C)]
#[derive(Clone, Copy)]
pub struct Conversion {
    pub model: Model,
    pub numbers: [u8; 64],
}

// Converts a held model; one with `alone` comes back as it is.
pub fn convert(model: &Model) -> Result<Conversion, ConversionRefusal>
    ensures { result ≡ converting model.now }
{
    if !is_held(model) {
        return Err(ConversionRefusal::NotHeld);
    }
    if let Some(event) = unreplaced(model) {
        return Err(ConversionRefusal::Irreplaceable { event: event + 1 });
    }
    let mut numbers = [0; 64];
    let model = converted(model, &mut numbers);
    Ok(Conversion { model, numbers })
}
