// The line `token=place:counts`, which may end in `*n`. The functions of a line take the bytes and a place: 01 has them know no reader.
#![tactic(auto)]

ghost use Rattle.std.specs.Prelude.{◌≡◌, true, false, ◌-◌, ◌&&◌, leb, get_or};
ghost use Rattle.std.specs.declared.result.Result.TheVariants.{Err};
ghost use Rattle.text.specs.Bytes.{lf, star};
ghost use Rattle.text.specs.Number.{number, item};
ghost use Rattle.text.specs.Lists.{list_end, any_list};
ghost use Rattle.text.specs.Lines.{judged, every};
ghost use Rattle.text.specs.TokenLine.{more_than_one, timed, counts_out, read_token};
ghost use Rattle.text.specs.Capped.{capped, passed};
ghost use Rattle.text.specs.Answers.{kept, parsed, accepted, token_line, counted};
ghost use Rattle.text_tokens.specs.Ends.{times_at, closed};

use text::{Cause, Fault, Parsed, TokenLine};
use text_lists::values;
use text_scan::{byte_at, digit, ended, fault_at, key_item, number, syntax_fault};

// A number from 2 on, and LF: a 0 is wrong where it stands, a 1 behind it.
fn several(s: &[u8], at: usize) -> Result<Parsed<u32>, usize>
    ensures { result ≡ capped (item more_than_one lf s.now at) }
{
    let Parsed { value, end } = number(s, at)?;
    if value == 0 {
        return Err(at);
    }
    if value == 1 {
        return Err(end);
    }
    ended(s, Parsed { value, end }, b'\n')
}

// How many net-tokens a line stands for whose counts end at `x`, and its end.
fn times_at(s: &[u8], x: usize) -> Result<Parsed<u32>, usize>
    ensures { result ≡ capped (times_at s.now x) }
{
    let next = byte_at(s, x);
    if next == b'\n' {
        return Ok(Parsed {
            value: 1,
            end: x + 1,
        });
    }
    if next != b'*' {
        return Err(x);
    }
    several(s, x + 1)
}

// Where the values of a list of any length from `from` on end, whatever ends it, or the byte at fault.
fn any_values(s: &[u8], from: usize) -> Result<usize, usize>
    ensures { (passed (any_list number lf s.now from) ≡ closed lf s.now result) × (passed (any_list number star s.now from) ≡ closed star s.now result) }
{
    if !digit(byte_at(s, from)) {
        return Ok(from);
    }
    let mut at = from;
    // A number ends where its reading says: no index goes over the text.
    while let Ok(Parsed { value: _, end }) = number(s, at) {
        if byte_at(s, end) != b',' {
            return Ok(end);
        }
        at = end + 1;
    }
    Err(at)
}

// The end of a line whose place is out of range: of its counts, from `x` on, only the syntax is judged.
fn any_end(s: &[u8], x: usize) -> Result<usize, usize>
    ensures { result ≡ passed (timed (any_list number) s.now x) }
{
    let end = any_values(s, x)?;
    let Parsed { value: _, end } = times_at(s, end)?;
    Ok(end)
}

// The fault of such a line, whose place is at `place`.
fn out_of_range(s: &[u8], at: usize, place: usize, x: usize) -> Fault
    ensures { Err result ≡ accepted (judged (λ c. false) (λ c. place) at (timed (any_list number) s.now x)) }
{
    match any_end(s, x) {
        Ok(_) => fault_at(Cause::Range, at, place),
        Err(byte) => fault_at(Cause::Syntax, at, byte),
    }
}

// A place in range: its n counts, from `x` on, and how many net-tokens the line stands for.
fn counted(
    s: &[u8],
    at: usize,
    x: usize,
    n: usize,
    place: u16,
    hi: u16,
    most: u16,
) -> Result<Parsed<TokenLine>, Fault>
    ensures { result ≡ parsed (kept (λ c. counted place c.0 c.1) (judged (λ c. every (λ v. leb v hi) c.0 && leb c.1 most) (λ c. counts_out (λ v. leb v hi) x c.0) at (timed (λ last. list_end number last n) s.now x))) }
{
    let read = values(s, x, n, hi);
    let Ok(Parsed { value, end }) = read else {
        return Err(syntax_fault(at, read));
    };
    let last = times_at(s, end);
    let Ok(
        Parsed {
            value: told,
            end: next,
        },
    ) = last
    else {
        return Err(syntax_fault(at, last));
    };
    let counts = match value {
        Ok(counts) => counts,
        Err(byte) => return Err(fault_at(Cause::Range, at, byte)),
    };
    if u32::from(most) < told {
        return Err(fault_at(Cause::Range, at, end + 1));
    }
    // At most `most`: there is no refusal to hand on.
    let times = told as u16;
    Ok(Parsed {
        value: TokenLine {
            place,
            counts,
            times,
        },
        end: next,
    })
}

// The line of key, a place from 1 to `places` and its counts up to hi, which stands for up to `most` net-tokens; `sizes` says for each place
// how many counts it has. Texts know no held thing, so the two are handed over one by one.
pub fn token_line(
    s: &[u8],
    at: usize,
    key: &[u8],
    places: u16,
    sizes: &[u8],
    hi: u16,
    most: u16,
) -> Result<Parsed<TokenLine>, Fault>
    ensures { result ≡ parsed (kept token_line (read_token key.now places (λ p. get_or sizes.now (p - 1) 0) (λ v. leb v hi) (λ n. leb n most) s.now at)) }
{
    let read = key_item(s, at, key, b':');
    let Ok(Parsed { value, end }) = read else {
        return Err(syntax_fault(at, read));
    };
    let from = at + key.len();
    let Ok(place) = u16::try_from(value) else {
        return Err(out_of_range(s, at, from, end));
    };
    if place == 0 {
        return Err(out_of_range(s, at, from, end));
    }
    if places < place {
        return Err(out_of_range(s, at, from, end));
    }
    let n = byte_at(sizes, usize::from(place - 1));
    counted(s, at, end, usize::from(n), place, hi, most)
}
