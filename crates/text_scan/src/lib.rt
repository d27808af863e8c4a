// The bytes of a text: what stands at a position, in which line, and at which column of it; a fault, made and named; decimal numbers of any
// number of digits, with and without a sign. The functions of a line, here and in the crates of lines, lists and token lines, take the bytes
// and a place: 01 has them know no reader. What is not found within a line is answered by the byte at fault.
#![tactic(auto)]

ghost use Rattle.std.specs.Prelude.{◌≡◌, drop, get_or, length, ◌+◌, ◌-◌, ◌*◌, ◌≤◌, ◌<◌, min, Ok, pos, negsuc};
ghost use Rattle.text.specs.Bytes.{far, line_at, column_at};
ghost use Rattle.text.specs.Number.{found, made, literal, is_digit, digits, number, negated, signed_if, ended, item};
ghost use Rattle.text.specs.Capped.{answered, passed, capped, capped_signed};
ghost use Rattle.text.specs.Lists.{stop_of, joined};
ghost use Rattle.text.specs.Lines.{fault_at, column_for, spot_of, behind};
ghost use Rattle.text.specs.Answers.{syntax_fault};

use text::{Cause, Fault, Parsed, Spot};

// The byte at `at`, 0 past the end.
pub fn byte_at(s: &[u8], at: usize) -> u8
    ensures { result ≡ get_or s.now at 0 }
{
    s.get(at).copied().unwrap_or(0)
}

// How far t goes with s from `at` on: where the first byte of s stands that is not t's, or the byte behind t.
fn far(s: &[u8], at: usize, t: &[u8]) -> usize
    ensures { result ≡ far s.now at t.now }
{
    let rest = &s[at.min(s.len())..];
    let most = t.len().min(rest.len());
    for i in 0..most {
        if rest[i] != t[i] {
            return at + i;
        }
    }
    at + most
}

// The position behind t, which stands at `at`, or the byte at which s goes on otherwise.
pub fn literal(s: &[u8], at: usize, t: &[u8]) -> Result<usize, usize>
    ensures { result ≡ passed (literal t.now s.now at) }
{
    let end = far(s, at, t);
    if end - at != t.len() {
        return Err(end);
    }
    Ok(end)
}

// The number of the line that begins at `at`, from 1.
pub fn line_at(s: &[u8], at: usize) -> usize
    ensures { result ≡ line_at s.now at }
{
    let before = &s[..at.min(s.len())];
    before.iter().filter(|b| **b == b'\n').count() + 1
}

// The column of the byte at b in the line that begins at `at`, from 1.
fn column_at(s: &[u8], at: usize, b: usize) -> usize
    ensures { result ≡ column_at s.now at b }
{
    let line = &s[at.min(s.len())..];
    line.len().min(b.saturating_sub(at)) + 1
}

// The column, where the cause has one.
fn column_for(cause: Cause, column: usize) -> usize
    ensures { result ≡ column_for cause column }
{
    match cause {
        Cause::Idling | Cause::Crowded => 0,
        Cause::Syntax | Cause::Range => column,
    }
}

// The fault of a line that begins at `at`, by the byte at fault.
pub fn fault_at(cause: Cause, at: usize, byte: usize) -> Fault
    ensures { result ≡ fault_at cause at byte }
{
    Fault { cause, at, byte }
}

// The fault of a line that begins at `at`, where a reading within it finds nothing.
pub fn syntax_fault<T: Copy>(at: usize, read: Result<T, usize>) -> Fault
    ensures { result ≡ syntax_fault at read }
{
    match read {
        Ok(_) => fault_at(Cause::Syntax, at, at),
        Err(byte) => fault_at(Cause::Syntax, at, byte),
    }
}

// A fault of a text, named by its line and its column.
pub fn spot_of(s: &[u8], fault: Fault) -> Spot
    ensures { result ≡ spot_of s.now fault }
{
    Spot {
        cause: fault.cause,
        line: line_at(s, fault.at),
        column: column_for(fault.cause, column_at(s, fault.at, fault.byte)),
    }
}

pub fn digit(b: u8) -> bool
    ensures { result ≡ is_digit b }
{
    b.is_ascii_digit()
}

// The number v with one digit more.
fn push(v: u32, d: u8) -> u32
    requires { (v ≤ 65536) × ((48 ≤ d) × (d ≤ 57)) }
    ensures { result ≡ min (v * 10 + (d - 48)) 65536 }
{
    (v * 10 + u32::from(d - b'0')).min(65536)
}

// The number v, read up to at, goes on with the digits from there.
fn digits(s: &[u8], v: u32, at: usize) -> Parsed<u32>
    requires { (v ≤ 65536) × (at ≤ length s.now) }
    ensures { Ok result ≡ capped (digits v at (drop at s.now)) }
{
    let mut value = v;
    for end in at..s.len() {
        if !digit(s[end]) {
            return Parsed { value, end };
        }
        value = push(value, s[end]);
    }
    Parsed {
        value,
        end: s.len(),
    }
}

// The decimal number at `at`.
pub fn number(s: &[u8], at: usize) -> Result<Parsed<u32>, usize>
    ensures { result ≡ capped (number s.now at) }
{
    let first = byte_at(s, at);
    if first == b'0' {
        return Ok(Parsed {
            value: 0,
            end: at + 1,
        });
    }
    if !digit(first) {
        return Err(at);
    }
    Ok(digits(s, push(0, first), at + 1))
}

// What was read, and the byte `stop` right after it.
pub fn ended<T: Copy>(s: &[u8], read: Parsed<T>, stop: u8) -> Result<Parsed<T>, usize>
    requires { read.end ≤ length s.now }
    ensures { result ≡ answered (λ v. v) (ended stop s.now (found read.value read.end)) }
{
    let Parsed { value, end } = read;
    if byte_at(s, end) == stop {
        return Ok(Parsed {
            value,
            end: end + 1,
        });
    }
    Err(end)
}

// A number and the byte `stop` right after it.
pub fn item(s: &[u8], at: usize, stop: u8) -> Result<Parsed<u32>, usize>
    ensures { result ≡ capped (item number stop s.now at) }
{
    ended(s, number(s, at)?, stop)
}

// A number behind a key, and the byte `stop` right after it.
pub fn key_item(s: &[u8], at: usize, key: &[u8], stop: u8) -> Result<Parsed<u32>, usize>
    ensures { result ≡ capped (behind key.now (item number stop) s.now at) }
{
    let from = literal(s, at, key)?;
    item(s, from, stop)
}

// A number as a signed one.
fn above(value: u32) -> i32
    requires { value ≤ 65536 }
    ensures { result ≡ pos value }
{
    // At most 65536: there is no refusal to hand on.
    value as i32
}

// The same number on the other side of 0.
fn below(value: u32) -> i32
    requires { (1 ≤ value) × (value ≤ 65536) }
    ensures { result ≡ negsuc (value - 1) }
{
    -above(value)
}

// The number behind a minus sign, which stands before `at`: never 0.
fn negated(s: &[u8], at: usize) -> Result<Parsed<i32>, usize>
    ensures { result ≡ capped_signed (negated at (number s.now at)) }
{
    let Parsed { value, end } = number(s, at)?;
    if value == 0 {
        return Err(at);
    }
    Ok(Parsed {
        value: below(value),
        end,
    })
}

fn plain(s: &[u8], at: usize) -> Result<Parsed<i32>, usize>
    ensures { result ≡ capped_signed (made pos (number s.now at)) }
{
    let Parsed { value, end } = number(s, at)?;
    Ok(Parsed {
        value: above(value),
        end,
    })
}

// A number, which may have a minus sign where `minus` says so.
fn signed_if(s: &[u8], at: usize, minus: bool) -> Result<Parsed<i32>, usize>
    ensures { result ≡ capped_signed (signed_if minus s.now at) }
{
    if minus && byte_at(s, at) == b'-' {
        return negated(s, at + 1);
    }
    plain(s, at)
}

// The same, and the byte `stop` right after it.
pub fn value_item(s: &[u8], at: usize, stop: u8, minus: bool) -> Result<Parsed<i32>, usize>
    ensures { result ≡ capped_signed (item (signed_if minus) stop s.now at) }
{
    ended(s, signed_if(s, at, minus)?, stop)
}

// A value of a list with `left` more to come: where there are any, with the comma behind it.
pub fn joined(s: &[u8], at: usize, left: usize, minus: bool) -> Result<Parsed<i32>, usize>
    ensures { result ≡ capped_signed (joined (signed_if minus) left s.now at) }
{
    if left == 0 {
        return signed_if(s, at, minus);
    }
    value_item(s, at, b',', minus)
}

// What stands behind a number of a list with `left` more to come: `last` behind the last, else a comma.
pub fn stop_of(last: u8, left: usize) -> u8
    ensures { result ≡ stop_of last left }
{
    if left == 0 { last } else { b',' }
}
