// The three files of a listing, each read by the call that it is for; a file that is too long is not read.
ghost use Rattle.std.specs.Prelude.{◌≡◌};
ghost use Rattle.listing.specs.Listing.{model_file, weights_file, trace_file};
ghost use Rattle.runner_trace.specs.Running.{ran_to};

use keeper::{WeightCheck, WeightRefusal, check_weights};
use marking::Marking;
use model::Model;
use reader::{ModelReading, ReadRefusal, read_model, short};
use runner::StepRefusal;
use runner_trace::{RunEnd, run, run_refused};

// The limit on a file.
const LONGEST: usize = 65536;

pub fn model_file(s: &[u8]) -> Result<ModelReading, ReadRefusal>
    ensures { result ≡ model_file s.now }
{
    short(s, LONGEST)?;
    read_model(s)
}

pub fn weights_file(m: Model, k: Marking, s: &[u8]) -> Result<WeightCheck, WeightRefusal>
    ensures { result ≡ weights_file m k s.now }
{
    short(s, LONGEST)?;
    check_weights(m, k, s)
}

pub fn trace_file(m: &Model, k: &mut Marking, s: &[u8]) -> RunEnd
    ensures { ran_to result k.new ≡ trace_file m.now k.old s.now }
{
    if let Err(refusal) = short(s, LONGEST) {
        return run_refused(Err(StepRefusal::Unread(refusal)));
    }
    run(m, k, s)
}
