// The text of a case, in which \n stands for LF and \r for CR.
ghost use Rattle.std.specs.Prelude.{◌≡◌, ◌≢◌, ◌≤◌, ◌<◌, length, take, slice_index, All};

use text::Parsed;
use text_scan::number;

// The position of the first such byte of s; where there is none, the length of s.
pub fn find(s: &[u8], byte: u8) -> usize
    ensures in_bounds { result ≤ length s.now }
    ensures first { All (λ b. b ≢ byte) (take result s.now) }
    ensures found { result < length s.now → slice_index s.now result ≡ byte }
{
    s.iter().position(|b| *b == byte).unwrap_or(s.len())
}

// A byte of the text, and the position after what stands for it.
fn byte_from(s: &[u8], at: usize) -> Parsed<u8>
    requires { at < length s.now }
    ensures { (at < result.end) × (result.end ≤ length s.now) }
{
    if s.len() - at < 2 {
        return Parsed {
            value: s[at],
            end: at + 1,
        };
    }
    if s[at..].starts_with(b"\\n") {
        return Parsed {
            value: b'\n',
            end: at + 2,
        };
    }
    if s[at..].starts_with(b"\\r") {
        return Parsed {
            value: b'\r',
            end: at + 2,
        };
    }
    Parsed {
        value: s[at],
        end: at + 1,
    }
}

// The text behind a colon and a blank, with which s begins, is put into out, and lent as far as there is room for it.
pub fn decoded<'a>(s: &[u8], out: &'a mut [u8]) -> &'a [u8]
    ensures { length result.now ≤ length out.old }
{
    let n = put(s, out);
    &out[..n]
}

// How many bytes are put.
fn put(s: &[u8], out: &mut [u8]) -> usize
    ensures in_bounds { result ≤ length out.new }
    ensures prefix { result ≡ length (take result out.new) }
{
    let mut at = 2;
    for n in 0..out.len() {
        if s.len() <= at {
            return n;
        }
        let Parsed { value, end } = byte_from(s, at);
        out[n] = value;
        at = end;
    }
    out.len()
}

// The number at `at`, 0 where there is none. There is no From of u32 for usize, which is wider: none is lost.
pub fn number_at(s: &[u8], at: usize) -> usize {
    number(s, at).map_or(0, |read| read.value as usize)
}
