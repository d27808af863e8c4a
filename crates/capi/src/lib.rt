// The calls of the engine as C gets them: `capi_c` exports each under its name here, as include/furzepenny.h declares it. Texts and buffers
// are lent, held models and markings go by value; a refusal is its number in the table and what stands beside it.
#![tactic(auto)]

ghost use Rattle.std.specs.Prelude.{◌≡◌};
ghost use Rattle.model.specs.Test.{held_model};
ghost use Rattle.reader.specs.Answers.{model_reading, marking_reading, held_both, marking_writing, lay_whole};
ghost use Rattle.converter.specs.Answers.{converting};
ghost use Rattle.runner.specs.Answers.{stepping};
ghost use Rattle.runner_trace.specs.Running.{running};
ghost use Rattle.keeper.specs.Answers.{weight_checking};
ghost use Rattle.keeper.specs.Split.{above, below};
ghost use Rattle.spread.specs.Call.{spread_call};
ghost use Rattle.listing.specs.Listing.{listing_text};
ghost use Rattle.capi.specs.Calls.{model_read, marking_read, model_converted, text_written, written_to_c, weights_checked, step_done, run_done, shared, version};

use engine::{Marking, Model, ModelReading, WeightCheck, WriteRefusal};
use triples::Triple;

#[repr(C)]
#[derive(Clone, Copy)]
pub struct ModelRead {
    pub number: usize,
    pub beside: usize,
    pub column: usize,
    pub model: Model,
    pub start: Marking,
}

#[repr(C)]
#[derive(Clone, Copy)]
pub struct MarkingRead {
    pub number: usize,
    pub beside: usize,
    pub column: usize,
    pub marking: Marking,
}

#[repr(C)]
#[derive(Clone, Copy)]
pub struct ModelConverted {
    pub number: usize,
    pub beside: usize,
    pub column: usize,
    pub model: Model,
    pub numbers: [u8; 64],
}

#[repr(C)]
#[derive(Clone, Copy)]
pub struct TextWritten {
    pub number: usize,
    pub beside: usize,
    pub column: usize,
    pub bytes: usize,
}

#[repr(C)]
#[derive(Clone, Copy)]
pub struct Weighed {
    pub number: usize,
    pub beside: usize,
    pub column: usize,
    pub above: u64,
    pub below: u64,
    pub cover: usize,
}

#[repr(C)]
#[derive(Clone, Copy)]
pub struct StepDone {
    pub number: usize,
    pub beside: usize,
    pub column: usize,
    pub used: usize,
    pub marking: Marking,
}

#[repr(C)]
#[derive(Clone, Copy)]
pub struct RunDone {
    pub number: usize,
    pub beside: usize,
    pub column: usize,
    pub fired: usize,
    pub at: usize,
    pub marking: Marking,
}

#[repr(C)]
#[derive(Clone, Copy)]
pub struct Shared {
    pub number: usize,
    pub beside: usize,
    pub column: usize,
    pub ways: u64,
}

pub fn fp_version() -> usize
    ensures { result ≡ version }
{
    60000
}

pub fn fp_read_model(text: &[u8]) -> ModelRead
    ensures { result ≡ model_read (model_reading text.now) }
{
    match engine::read_model(text) {
        Ok(ModelReading { model, start }) => model_read(Triple::accepted(), model, start),
        Err(refusal) => model_read(Triple::from(refusal), Model::empty(), Marking::empty()),
    }
}

// A model and its start, beside their triple.
fn model_read(triple: Triple, model: Model, start: Marking) -> ModelRead
    ensures { result ≡ record { number = triple.number; beside = triple.beside; column = triple.column; model = model; start = start } }
{
    ModelRead {
        number: usize::from(triple.number),
        beside: triple.beside,
        column: triple.column,
        model,
        start,
    }
}

pub fn fp_read_marking(model: Model, text: &[u8]) -> MarkingRead
    ensures { result ≡ marking_read (marking_reading model text.now) }
{
    match engine::read_marking(&model, text) {
        Ok(marking) => marking_read(Triple::accepted(), marking),
        Err(refusal) => marking_read(Triple::from(refusal), Marking::empty()),
    }
}

// A marking beside its triple.
fn marking_read(triple: Triple, marking: Marking) -> MarkingRead
    ensures { result ≡ record { number = triple.number; beside = triple.beside; column = triple.column; marking = marking } }
{
    MarkingRead {
        number: usize::from(triple.number),
        beside: triple.beside,
        column: triple.column,
        marking,
    }
}

pub fn fp_test_model(model: Model) -> bool
    ensures { result ≡ held_model model }
{
    engine::test_model(&model)
}

pub fn fp_test_marking(model: Model, marking: Marking) -> bool
    ensures { result ≡ held_both model marking }
{
    engine::test_marking(&model, &marking)
}

pub fn fp_convert(model: Model) -> ModelConverted
    ensures { result ≡ model_converted (converting model) }
{
    match engine::convert(&model) {
        Ok(conversion) => {
            let numbers = conversion.numbers;
            model_converted(Triple::accepted(), conversion.model, numbers)
        }
        Err(refusal) => {
            let none = [0; 64];
            model_converted(Triple::from(refusal), Model::empty(), none)
        }
    }
}

// A model and the new numbers of its events, beside their triple.
fn model_converted(triple: Triple, model: Model, numbers: [u8; 64]) -> ModelConverted
    ensures { result ≡ record { number = triple.number; beside = triple.beside; column = triple.column; model = model; numbers = numbers } }
{
    ModelConverted {
        number: usize::from(triple.number),
        beside: triple.beside,
        column: triple.column,
        model,
        numbers,
    }
}

// A text written, as its answer says; a refused writing wrote no byte.
fn text_written(answer: Result<usize, WriteRefusal>) -> TextWritten
    ensures { result ≡ text_written answer }
{
    let triple = Triple::from(answer);
    TextWritten {
        number: usize::from(triple.number),
        beside: triple.beside,
        column: triple.column,
        bytes: answer.unwrap_or(0),
    }
}

pub fn fp_write_marking(model: Model, marking: Marking, out: &mut [u8]) -> TextWritten
    ensures { record { answer = result; bytes = out.new } ≡ written_to_c (marking_writing model marking out.old) }
{
    text_written(engine::write_marking(&model, &marking, out))
}

// The part of a sum above 0 and its part below 0, of which one is 0.
fn parts(sum: i64) -> (u64, u64)
    ensures { (result.0 ≡ above sum) × (result.1 ≡ below sum) }
{
    (sum.max(0).unsigned_abs(), sum.min(0).unsigned_abs())
}

pub fn fp_check_weights(model: Model, marking: Marking, text: &[u8]) -> Weighed
    ensures { result ≡ weights_checked (weight_checking model marking text.now) }
{
    let check = engine::check_weights(model, marking, text);
    let triple = Triple::from(check);
    let WeightCheck { sum, cover } = check.unwrap_or(WeightCheck::nothing());
    let (above, below) = parts(sum);
    Weighed {
        number: usize::from(triple.number),
        beside: triple.beside,
        column: triple.column,
        above,
        below,
        cover: usize::from(cover),
    }
}

pub fn fp_step(model: Model, marking: Marking, text: &[u8]) -> StepDone
    ensures { result ≡ step_done (stepping model marking text.now) }
{
    let mut after = marking;
    let answer = engine::step(&model, &mut after, text);
    let triple = Triple::from(answer);
    StepDone {
        number: usize::from(triple.number),
        beside: triple.beside,
        column: triple.column,
        used: answer.unwrap_or(0),
        marking: after,
    }
}

pub fn fp_run(model: Model, marking: Marking, text: &[u8]) -> RunDone
    ensures { result ≡ run_done (running model marking text.now) }
{
    let mut after = marking;
    let ran = engine::run(&model, &mut after, text);
    let triple = Triple::from(ran.stop);
    RunDone {
        number: usize::from(triple.number),
        beside: triple.beside,
        column: triple.column,
        fired: ran.fired,
        at: ran.at,
        marking: after,
    }
}

pub fn fp_ways(tokens: usize, racks: usize) -> Shared
    ensures { result ≡ shared (spread_call tokens racks) }
{
    let answer = engine::ways(tokens, racks);
    let triple = Triple::from(answer);
    Shared {
        number: usize::from(triple.number),
        beside: triple.beside,
        column: triple.column,
        ways: answer.unwrap_or(0),
    }
}

pub fn fp_listing(model: &[u8], weights: &[u8], trace: &[u8], out: &mut [u8]) -> TextWritten
    ensures { record { answer = result; bytes = out.new }
        ≡ written_to_c (lay_whole (listing_text model.now weights.now trace.now) out.old) }
{
    text_written(engine::listing(model, weights, trace, out))
}
