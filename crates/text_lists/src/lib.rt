// Lines `key=list`, and the lists in them. A key has its '=' at its end. The type of the values says whether a minus sign may stand before
// one. The functions of a line take the bytes and a place: 01 has them know no reader.
#![tactic(auto)]

ghost use Rattle.std.specs.Prelude.{◌≡◌, leb};
ghost use Rattle.text.specs.Bytes.{lf};
ghost use Rattle.text.specs.Number.{signed_if};
ghost use Rattle.text.specs.Capped.{answered};
ghost use Rattle.text.specs.Lists.{values, list_end};
ghost use Rattle.text.specs.Lines.{judged, every, modest, out_at, read_row};
ghost use Rattle.text.specs.Printed.{signed_text};
ghost use Rattle.text.specs.Answers.{kept, parsed, row, ranged, first_out};

use text::{Cause, Fault, Parsed, Value};
use text_scan::{byte_at, fault_at, joined, literal, syntax_fault};

// Where the first value out of range begins: the one that is known, or the value at `at`, if it is more than hi from 0.
fn first_out(out: Option<usize>, at: usize, value: i32, hi: u16) -> Option<usize>
    ensures { result ≡ first_out out at (modest hi value) }
{
    if out.is_some() {
        return out;
    }
    if value.unsigned_abs() <= u32::from(hi) {
        return None;
    }
    Some(at)
}

// n values from `from` on, joined by commas: their row, or where the first begins that is more than hi from 0. Behind the last, where the
// reading ends, its list is not ended yet.
pub fn values<V: Value>(
    s: &[u8],
    from: usize,
    n: usize,
    hi: u16,
) -> Result<Parsed<Result<[V; 32], usize>>, usize>
    ensures { result ≡ answered (ranged V.held hi from) (values (signed_if V.SIGNED) n s.now from) }
{
    let mut row = [V::held(0); 32];
    let mut out = None;
    let mut at = from;
    for i in 0..n {
        let Parsed { value, end } = joined(s, at, n - i - 1, V::SIGNED)?;
        out = first_out(out, at, value, hi);
        if i < 32 {
            row[i] = V::held(value);
        }
        at = end;
    }
    match out {
        Some(byte) => Ok(Parsed {
            value: Err(byte),
            end: at,
        }),
        None => Ok(Parsed {
            value: Ok(row),
            end: at,
        }),
    }
}

// The list of n values from `at` to the end of its line, which begins at `top`.
pub fn list_end<V: Value>(
    s: &[u8],
    top: usize,
    at: usize,
    n: usize,
    hi: u16,
) -> Result<Parsed<[V; 32]>, Fault>
    ensures { result ≡ parsed (kept (row V.held) (judged (every (modest hi)) (out_at signed_text (modest hi) at) top (list_end (signed_if V.SIGNED) lf n s.now at))) }
{
    let read = values(s, at, n, hi);
    let Ok(Parsed { value, end }) = read else {
        return Err(syntax_fault(top, read));
    };
    if byte_at(s, end) != b'\n' {
        return Err(fault_at(Cause::Syntax, top, end));
    }
    match value {
        Ok(value) => Ok(Parsed {
            value,
            end: end + 1,
        }),
        Err(byte) => Err(fault_at(Cause::Range, top, byte)),
    }
}

// The line of key and n values. Their limit has 16 bits for every type of values: a narrower one would ask more of callers.
pub fn list_line<V: Value>(
    s: &[u8],
    at: usize,
    key: &[u8],
    n: usize,
    hi: u16,
) -> Result<Parsed<[V; 32]>, Fault>
    ensures { result ≡ parsed (kept (row V.held) (read_row (signed_if V.SIGNED) signed_text key.now n (modest hi) s.now at)) }
{
    let read = literal(s, at, key);
    let Ok(from) = read else {
        return Err(syntax_fault(at, read));
    };
    list_end(s, at, from, n, hi)
}
