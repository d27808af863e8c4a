// Lines `key=number`, lines of one of two keys, and the first line of a file, which has one form or two. A key has its '=' at its end. The
// functions of a line take the bytes and a place: 01 has them know no reader.
#![tactic(auto)]

ghost use Rattle.std.specs.Prelude.{◌≡◌, ℕ, Ok};
ghost use Rattle.text.specs.Number.{Read};
ghost use Rattle.text.specs.Capped.{capped};
ghost use Rattle.text.specs.Lines.{in_range, judged, read_number, read_head, read_heads};
ghost use Rattle.text.specs.Keyed.{read_keyed};
ghost use Rattle.text.specs.Answers.{parsed};

use text::{Cause, Fault, Keyed, Parsed};
use text_scan::{fault_at, key_item, literal, syntax_fault};

// A number of the line that begins at `at`, which begins at `byte`: it is from lo to hi, or a fault there.
fn ranged(at: usize, byte: usize, read: Parsed<u32>, lo: u16, hi: u16) -> Result<Parsed<u16>, Fault>
    ensures { (r : Read ℕ) → Ok read ≡ capped r → result ≡ parsed (judged (in_range lo hi) (λ n. byte) at r) }
{
    let Ok(value) = u16::try_from(read.value) else {
        return Err(fault_at(Cause::Range, at, byte));
    };
    if value < lo {
        return Err(fault_at(Cause::Range, at, byte));
    }
    if hi < value {
        return Err(fault_at(Cause::Range, at, byte));
    }
    Ok(Parsed {
        value,
        end: read.end,
    })
}

// The line of key and one number from lo to hi.
pub fn number_line(s: &[u8], at: usize, key: &[u8], lo: u16, hi: u16) -> Result<Parsed<u16>, Fault>
    ensures { result ≡ parsed (read_number key.now (in_range lo hi) s.now at) }
{
    let read = key_item(s, at, key, b'\n');
    let Ok(read) = read else {
        return Err(syntax_fault(at, read));
    };
    ranged(at, at + key.len(), read, lo, hi)
}

// The line of the key `one` and a number from 1 to `most`, or of the key `two` and one from 1 to `last`. Where neither stands, the one that
// goes on further with the text names the byte at fault.
pub fn keyed_line(
    s: &[u8],
    at: usize,
    one: &[u8],
    most: u16,
    two: &[u8],
    last: u16,
) -> Result<Parsed<Keyed>, Fault>
    ensures { result ≡ parsed (read_keyed one.now two.now (in_range 1 most) (in_range 1 last) s.now at) }
{
    match (key_item(s, at, one, b'\n'), key_item(s, at, two, b'\n')) {
        (Ok(read), _) => {
            let Parsed { value, end } = ranged(at, at + one.len(), read, 1, most)?;
            Ok(Parsed {
                value: Keyed::Former(value),
                end,
            })
        }
        (Err(_), Ok(read)) => {
            let Parsed { value, end } = ranged(at, at + two.len(), read, 1, last)?;
            Ok(Parsed {
                value: Keyed::Latter(value),
                end,
            })
        }
        (Err(former), Err(latter)) => Err(fault_at(Cause::Syntax, at, former.max(latter))),
    }
}

// The first line of a file, which is `line` with its LF; any other is a fault of the syntax.
pub fn head_line(s: &[u8], at: usize, line: &[u8]) -> Result<Parsed<()>, Fault>
    ensures { result ≡ parsed (read_head line.now s.now at) }
{
    let read = literal(s, at, line);
    let Ok(end) = read else {
        return Err(syntax_fault(at, read));
    };
    Ok(Parsed { value: (), end })
}

// The first line of a file that has two forms, each with its LF: 1 where it is `one`, 2 where it is `two`. Where neither stands, the one that
// goes on further with the text names the byte at fault.
pub fn heads_line(s: &[u8], at: usize, one: &[u8], two: &[u8]) -> Result<Parsed<u8>, Fault>
    ensures { result ≡ parsed (read_heads one.now two.now s.now at) }
{
    match (literal(s, at, one), literal(s, at, two)) {
        (Ok(end), _) => Ok(Parsed { value: 1, end }),
        (Err(_), Ok(end)) => Ok(Parsed { value: 2, end }),
        (Err(first), Err(second)) => Err(fault_at(Cause::Syntax, at, first.max(second))),
    }
}
