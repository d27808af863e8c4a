// For each refusal of a call its number in the table, what stands beside it, and its column; an answer that is none has 0,0,0.
#![tactic(auto)]

ghost use Rattle.std.specs.Prelude.{◌≡◌, MatchResult};
ghost use Rattle.reader.specs.Answers.{pair, triple, unread_triple, unwritten_triple};
ghost use Rattle.converter.specs.Answers.{unconverted_triple};
ghost use Rattle.text.specs.Lines.{cause_number};
ghost use Rattle.step.specs.Verdict.{turned_triple};
ghost use Rattle.runner.specs.Answers.{unfired_triple};
ghost use Rattle.keeper.specs.Answers.{unpassed_triple};
ghost use Rattle.spread.specs.Call.{beyond_triple};
ghost use Rattle.triples.specs.Triples.{refusal_of};

use converter::ConversionRefusal;
use keeper::WeightRefusal;
use reader::{ReadRefusal, WriteRefusal};
use runner::StepRefusal;
use spread::Beyond;
use step::Refusal;
use text::Spot;

// A number of the table, what stands beside it, and the column of a text's fault, 0 beside all else. A number, since the calls for C hand it
// on, and C takes no enum.
#[derive(Clone, Copy, PartialEq, Eq, Debug)]
pub struct Triple {
    pub number: u8,
    pub beside: usize,
    pub column: usize,
}

impl Triple {
    // Nothing is refused.
    pub fn accepted() -> Triple
        ensures { refusal_of result ≡ pair 0 0 }
    {
        row(0, 0)
    }
}

// A row of the table, without a column.
fn row(number: u8, beside: usize) -> Triple
    ensures { refusal_of result ≡ pair number beside }
{
    Triple {
        number,
        beside,
        column: 0,
    }
}

// The row of a text's fault.
fn fault_row(spot: Spot) -> Triple
    ensures { refusal_of result ≡ triple (cause_number spot.cause) spot.line spot.column }
{
    Triple {
        number: spot.cause.number(),
        beside: spot.line,
        column: spot.column,
    }
}

// Of the reading of a text.
impl From<ReadRefusal> for Triple {
    ghost from_gives = { λ refusal p. refusal_of p ≡ unread_triple refusal };

    fn from(refusal: ReadRefusal) -> Triple {
        match refusal {
            ReadRefusal::TooLong => row(1, 0),
            ReadRefusal::NotHeld => row(14, 0),
            ReadRefusal::Faulty { spot } => fault_row(spot),
        }
    }
}

// Of the writing of a text.
impl From<WriteRefusal> for Triple {
    ghost from_gives = { λ refusal p. refusal_of p ≡ unwritten_triple refusal };

    fn from(refusal: WriteRefusal) -> Triple {
        match refusal {
            WriteRefusal::Unheld => row(14, 0),
            WriteRefusal::TooSmall { needed } => row(13, needed),
        }
    }
}

// Of the converter.
impl From<ConversionRefusal> for Triple {
    ghost from_gives = { λ refusal p. refusal_of p ≡ unconverted_triple refusal };

    fn from(refusal: ConversionRefusal) -> Triple {
        match refusal {
            ConversionRefusal::NotHeld => row(14, 0),
            ConversionRefusal::Irreplaceable { event } => row(21, event),
        }
    }
}

// Of a step that is turned down.
impl From<Refusal> for Triple {
    ghost from_gives = { λ refusal p. refusal_of p ≡ turned_triple refusal };

    fn from(refusal: Refusal) -> Triple {
        match refusal {
            Refusal::Places { line } => row(8, line),
            Refusal::Short { net } => row(9, net),
            Refusal::Unequal { net } => row(10, net),
            Refusal::Missing { line } => row(11, line),
            Refusal::Crowded { line } => row(12, line),
        }
    }
}

// Of a step.
impl From<StepRefusal> for Triple {
    ghost from_gives = { λ refusal p. refusal_of p ≡ unfired_triple refusal };

    fn from(refusal: StepRefusal) -> Triple {
        match refusal {
            StepRefusal::Unread(refusal) => Triple::from(refusal),
            StepRefusal::Turned(refusal) => Triple::from(refusal),
        }
    }
}

// Of the check of weights.
impl From<WeightRefusal> for Triple {
    ghost from_gives = { λ refusal p. refusal_of p ≡ unpassed_triple refusal };

    fn from(refusal: WeightRefusal) -> Triple {
        match refusal {
            WeightRefusal::Unread(refusal) => Triple::from(refusal),
            WeightRefusal::Weightless { line } => row(6, line),
            WeightRefusal::Unbalanced { event } => row(7, event),
        }
    }
}

// Of the spread.
impl From<Beyond> for Triple {
    ghost from_gives = { λ refusal p. refusal_of p ≡ beyond_triple refusal };

    fn from(refusal: Beyond) -> Triple {
        match refusal {
            Beyond::Tokens => row(3, 1),
            Beyond::Racks => row(3, 2),
        }
    }
}

// Of an answer: that of its refusal, or 0,0,0.
impl<T: Drop, E: Into<Triple>> From<Result<T, E>> for Triple {
    ghost from_gives = { λ answer p. MatchResult answer (λ _. refusal_of p ≡ pair 0 0) (λ refusal. E.converts refusal p) };

    fn from(answer: Result<T, E>) -> Triple {
        match answer {
            Ok(_) => Triple::accepted(),
            Err(refusal) => refusal.into(),
        }
    }
}
