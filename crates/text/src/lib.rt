// What the lines of the file formats say, and how they are read and printed: definitions and laws. Every reader goes from a position of a
// text, and its answer says the position after what it read or the one fault that ends the reading.
#![tactic(auto)]

ghost use Rattle.std.specs.Prelude.{◌≡◌, ℤ, Bool, true, false};
ghost use Rattle.text.specs.Lines.{cause_number};
ghost use Rattle.text.specs.Values.{number_in, weight_in};

// What was read, and the position after it.
#[derive(Clone, Copy)]
pub struct Parsed<T> {
    pub value: T,
    pub end: usize,
}

// Why a line is refused: it is not of the form that is wanted there, a number is out of its range, an event idles at a place without a net,
// with another net or with no transition, or there is no room for the net-tokens of a line.
#[derive(Clone, Copy, PartialEq, Eq, Debug)]
pub enum Cause {
    Syntax,
    Range,
    Idling,
    Crowded,
}

impl Cause {
    // Its number among the causes.
    pub fn number(self) -> u8
        ensures { result ≡ cause_number self }
    {
        match self {
            Cause::Syntax => 2,
            Cause::Range => 3,
            Cause::Idling => 5,
            Cause::Crowded => 12,
        }
    }
}

// A fault: its cause, the position at which the line at fault begins, and that of the byte at fault.
#[derive(Clone, Copy, PartialEq, Eq, Debug)]
pub struct Fault {
    pub cause: Cause,
    pub at: usize,
    pub byte: usize,
}

// A fault as an answer names it: its cause, the number of its line, from 1, and the column in it of the byte at fault, from 1; 0 where the
// cause has none.
#[derive(Clone, Copy, PartialEq, Eq, Debug)]
pub struct Spot {
    pub cause: Cause,
    pub line: usize,
    pub column: usize,
}

// The number in a line of one of two keys.
#[derive(Clone, Copy)]
pub enum Keyed {
    Former(u16),
    Latter(u16),
}

// A net-token's place, from 1, its counts, and how many alike its line stands for. Texts know no held thing: a held net-token is made of it.
#[derive(Clone, Copy)]
pub struct TokenLine {
    pub place: u16,
    pub counts: [u16; 32],
    pub times: u16,
}

// How a number of a list is held: in what type, and whether a minus sign may stand before it. Of the numbers for which the type has no room,
// which are out of every range that is asked of it, 0 stands for each.
pub trait Value: Copy {
    ghost SIGNED: { Bool };

    const SIGNED: bool;

    ghost held: { ℤ → Self };

    fn held(value: i32) -> Self
        ensures { result ≡ held value };
}

impl Value for u8 {
    ghost SIGNED = { false };

    const SIGNED: bool = false;

    ghost held = { number_in 255 };

    fn held(value: i32) -> u8 {
        u8::try_from(value).unwrap_or(0)
    }
}

impl Value for u16 {
    ghost SIGNED = { false };

    const SIGNED: bool = false;

    ghost held = { number_in 65535 };

    fn held(value: i32) -> u16 {
        u16::try_from(value).unwrap_or(0)
    }
}

impl Value for i16 {
    ghost SIGNED = { true };

    const SIGNED: bool = true;

    ghost held = { weight_in };

    fn held(value: i32) -> i16 {
        i16::try_from(value).unwrap_or(0)
    }
}

// Every number that is read has room in it.
impl Value for i32 {
    ghost SIGNED = { true };

    const SIGNED: bool = true;

    ghost held = { λ v. v };

    fn held(value: i32) -> i32 {
        value
    }
}

// A lent buffer is too small for a text: so many bytes are needed.
#[derive(Clone, Copy, PartialEq, Eq, Debug)]
pub struct TooSmall {
    pub needed: usize,
}
