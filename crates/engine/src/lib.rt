// The public surface: what an integrator calls, and what the calls take and answer. None of the calls has a precondition; the contract
// of each is an equation with a definition, named beside it. A model and its marking are two, as C has them.
#![tactic(auto)]

// The held model and the held marking.
pub use marking::{Entry, Marking, NetToken};
pub use model::{Event, Model, ObjectNet};

// Reader. `model_reading`, `marking_reading`, `held_both`, `marking_writing` (reader/specs/Answers.antt), `held_model` (model/specs/Test.antt).
pub use reader::{
    ModelReading, ReadRefusal, WriteRefusal, read_marking, read_model, test_marking, test_model,
    write_marking,
};

// The converter. `converting` (converter/specs/Answers.antt).
pub use converter::{Conversion, ConversionRefusal, convert};

// A fault of a line with its cause, in the refusals of all levels, and why a step is turned down.
pub use step::Refusal;
pub use text::{Cause, Spot};

// Runner. `stepping` (runner/specs/Answers.antt), `running` (runner_trace/specs/Running.antt).
pub use runner::StepRefusal;
pub use runner::stepping::step;
pub use runner_trace::{RunEnd, run};

// Keeper. `weight_checking` (keeper/specs/Answers.antt).
pub use keeper::{WeightCheck, WeightRefusal, check_weights};

// The spread. `spread_call` (spread/specs/Call.antt).
pub use spread::{Beyond, ways};

// What the program rackrun prints. `listing_text` (listing/specs/Listing.antt).
pub use listing::listing;
