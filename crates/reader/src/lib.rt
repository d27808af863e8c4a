// The Reader level: a model is read and tested, a marking is read for a held model, tested and written.
#![tactic(auto)]

ghost use Rattle.std.specs.Prelude.{◌≡◌};
ghost use Rattle.model.specs.Test.{held_model};
ghost use Rattle.reader.specs.Answers.{faulty, named, short, model_reading, marking_reading, held_both, admitted, too_small, marking_writing};

use lines::{marking_lines, model_lines};
use marking::Marking;
use marking_test::place_sizes;
use marking_write::write;
use model::Model;
use text::{Fault, Spot, TooSmall};
use text_scan::spot_of;

mod lines;

// Why a text is not read: it is too long, what it is lent with is not held, or one of its lines is at fault.
#[derive(Clone, Copy, PartialEq, Eq, Debug)]
pub enum ReadRefusal {
    TooLong,
    NotHeld,
    Faulty { spot: Spot },
}

// A model, and its start in canonical order.
#[derive(Clone, Copy)]
pub struct ModelReading {
    pub model: Model,
    pub start: Marking,
}

// Why a marking is not written into lent bytes.
#[derive(Clone, Copy, PartialEq, Eq, Debug)]
pub enum WriteRefusal {
    Unheld,
    TooSmall { needed: usize },
}

// A fault, named by its line.
pub fn faulty(s: &[u8], fault: Fault) -> ReadRefusal
    ensures { result ≡ faulty s.now fault }
{
    ReadRefusal::Faulty {
        spot: spot_of(s, fault),
    }
}

// What was read of a text, where a fault is named by its line.
pub fn named<T: Drop>(s: &[u8], read: Result<T, Fault>) -> Result<T, ReadRefusal>
    ensures { result ≡ named s.now read }
{
    match read {
        Ok(value) => Ok(value),
        Err(fault) => Err(faulty(s, fault)),
    }
}

// A text has at most so many bytes.
pub fn short(s: &[u8], most: usize) -> Result<(), ReadRefusal>
    ensures { result ≡ short most s.now }
{
    if most < s.len() {
        return Err(ReadRefusal::TooLong);
    }
    Ok(())
}

// Reads a model's text.
pub fn read_model(s: &[u8]) -> Result<ModelReading, ReadRefusal>
    ensures { result ≡ model_reading s.now }
{
    short(s, Model::LONGEST)?;
    let mut model = Model::empty();
    let mut start = Marking::empty();
    named(s, model_lines(s, &mut model, &mut start))?;
    Ok(ModelReading { model, start })
}

// Reads the text of a marking of a held model.
pub fn read_marking(m: &Model, s: &[u8]) -> Result<Marking, ReadRefusal>
    ensures { result ≡ marking_reading m.now s.now }
{
    short(s, Model::LONGEST)?;
    if !model_test::is_held(m) {
        return Err(ReadRefusal::NotHeld);
    }
    let mut marking = Marking::empty();
    named(s, marking_lines(s, &place_sizes(m), &mut marking))?;
    Ok(marking)
}

// Whether m is held as a model is.
pub fn test_model(m: &Model) -> bool
    ensures { result ≡ held_model m.now }
{
    model_test::is_held(m)
}

// Whether m is held as a model is, and k as a marking of it.
pub fn test_marking(m: &Model, k: &Marking) -> bool
    ensures { result ≡ held_both m.now k.now }
{
    if !model_test::is_held(m) {
        return false;
    }
    marking_test::is_held(k, &place_sizes(m))
}

// What every call on a text asks first, of a model, a marking of it and the text: it is not too long, and the two are held.
pub fn admitted(m: &Model, k: &Marking, s: &[u8]) -> Result<(), ReadRefusal>
    ensures { result ≡ admitted m.now k.now s.now }
{
    short(s, Model::LONGEST)?;
    if test_marking(m, k) {
        Ok(())
    } else {
        Err(ReadRefusal::NotHeld)
    }
}

// A text that does not fit.
impl From<TooSmall> for WriteRefusal {
    ghost from_gives = { λ small refusal. refusal ≡ too_small small };

    fn from(small: TooSmall) -> WriteRefusal {
        WriteRefusal::TooSmall {
            needed: small.needed,
        }
    }
}

// Writes the text of a held marking of a held model: whole, or no byte of it. The answer is the bytes written.
pub fn write_marking(m: &Model, k: &Marking, out: &mut [u8]) -> Result<usize, WriteRefusal>
    ensures { record { answer = result; bytes = out.new } ≡ marking_writing m.now k.now out.old }
{
    if !test_marking(m, k) {
        return Err(WriteRefusal::Unheld);
    }
    Ok(write(k, &place_sizes(m), b"start=", out, 0)?)
}
