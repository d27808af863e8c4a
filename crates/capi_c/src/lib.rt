// The calls of the engine for C, as include/furzepenny.h declares them: each export is the call of `capi` of that name, with its clauses.
// No crate can stand on a static library, so each call stands twice.
#![tactic(auto)]

ghost use Rattle.std.specs.Prelude.{◌≡◌};
ghost use Rattle.model.specs.Test.{held_model};
ghost use Rattle.reader.specs.Answers.{model_reading, marking_reading, held_both, marking_writing, lay_whole};
ghost use Rattle.converter.specs.Answers.{converting};
ghost use Rattle.runner.specs.Answers.{stepping};
ghost use Rattle.runner_trace.specs.Running.{running};
ghost use Rattle.keeper.specs.Answers.{weight_checking};
ghost use Rattle.spread.specs.Call.{spread_call};
ghost use Rattle.listing.specs.Listing.{listing_text};
ghost use Rattle.capi.specs.Calls.{model_read, marking_read, model_converted, written_to_c, weights_checked, step_done, run_done, shared, version};

use capi::{
    MarkingRead, ModelConverted, ModelRead, RunDone, Shared, StepDone, TextWritten, Weighed,
};
use engine::{Marking, Model};

#[unsafe(no_mangle)]
pub extern "C" fn fp_version() -> usize
    ensures { result ≡ version }
{
    capi::fp_version()
}

#[unsafe(no_mangle)]
pub extern "C" fn fp_read_model(text: &[u8]) -> ModelRead
    ensures { result ≡ model_read (model_reading text.now) }
{
    capi::fp_read_model(text)
}

#[unsafe(no_mangle)]
pub extern "C" fn fp_read_marking(model: Model, text: &[u8]) -> MarkingRead
    ensures { result ≡ marking_read (marking_reading model text.now) }
{
    capi::fp_read_marking(model, text)
}

#[unsafe(no_mangle)]
pub extern "C" fn fp_test_model(model: Model) -> bool
    ensures { result ≡ held_model model }
{
    capi::fp_test_model(model)
}

#[unsafe(no_mangle)]
pub extern "C" fn fp_test_marking(model: Model, marking: Marking) -> bool
    ensures { result ≡ held_both model marking }
{
    capi::fp_test_marking(model, marking)
}

#[unsafe(no_mangle)]
pub extern "C" fn fp_convert(model: Model) -> ModelConverted
    ensures { result ≡ model_converted (converting model) }
{
    capi::fp_convert(model)
}

#[unsafe(no_mangle)]
pub extern "C" fn fp_write_marking(model: Model, marking: Marking, out: &mut [u8]) -> TextWritten
    ensures { record { answer = result; bytes = out.new } ≡ written_to_c (marking_writing model marking out.old) }
{
    capi::fp_write_marking(model, marking, out)
}

#[unsafe(no_mangle)]
pub extern "C" fn fp_check_weights(model: Model, marking: Marking, text: &[u8]) -> Weighed
    ensures { result ≡ weights_checked (weight_checking model marking text.now) }
{
    capi::fp_check_weights(model, marking, text)
}

#[unsafe(no_mangle)]
pub extern "C" fn fp_step(model: Model, marking: Marking, text: &[u8]) -> StepDone
    ensures { result ≡ step_done (stepping model marking text.now) }
{
    capi::fp_step(model, marking, text)
}

#[unsafe(no_mangle)]
pub extern "C" fn fp_run(model: Model, marking: Marking, text: &[u8]) -> RunDone
    ensures { result ≡ run_done (running model marking text.now) }
{
    capi::fp_run(model, marking, text)
}

#[unsafe(no_mangle)]
pub extern "C" fn fp_ways(tokens: usize, racks: usize) -> Shared
    ensures { result ≡ shared (spread_call tokens racks) }
{
    capi::fp_ways(tokens, racks)
}

#[unsafe(no_mangle)]
pub extern "C" fn fp_listing(
    model: &[u8],
    weights: &[u8],
    trace: &[u8],
    out: &mut [u8],
) -> TextWritten
    ensures { record { answer = result; bytes = out.new }
        ≡ written_to_c (lay_whole (listing_text model.now weights.now trace.now) out.old) }
{
    capi::fp_listing(model, weights, trace, out)
}
