// A held marking written into a lent buffer. Its bytes are counted first: a buffer that is too small is not touched.
#![tactic(auto)]

ghost use Rattle.std.specs.Prelude.{◌≡◌, true, ◌+◌, ◌*◌, ◌≤◌, length};
ghost use Rattle.text.specs.Printed.{decimal, end_text, counts_text, texts};
ghost use Rattle.text.specs.Bytes.{lf};
ghost use Rattle.text.specs.Writing.{lay};
ghost use Rattle.text_write.specs.Place.{Lays};
ghost use Rattle.eos.specs.Model as eos;
ghost use Rattle.model.specs.Limits.{room_limit};
ghost use Rattle.marking.specs.Held.{as_sizes, Roomy, tokens_of, held_marking};
ghost use Rattle.marking.specs.Printed.{held_text, block_text};

use marking::{Entry, Marking, PlaceSizes};
use text::TooSmall;
use text_write::{Writer, width};

// How many digits a number has.
fn digits(value: u16) -> usize
    ensures { (result ≡ length (decimal value)) × (result ≤ 5) }
{
    width(u64::from(value))
}

// How many bytes a list has, with the byte that ends it.
fn list_length(values: &[u16]) -> usize
    requires { length values.now ≤ 32 }
    ensures { (result ≡ length (end_text decimal lf values.now)) × (result ≤ 192) }
{
    if values.is_empty() {
        return 1;
    }
    let mut bytes = 0;
    for value in values {
        bytes += digits(*value) + 1;
    }
    bytes
}

// How many bytes the counts of a line have, with `*n` where it stands for more than one net-token, to the end of the line.
fn counts_length(counts: &[u16], times: u16) -> usize
    requires { length counts.now ≤ 32 }
    ensures { (result ≡ length (counts_text counts.now times)) × (result ≤ 198) }
{
    let list = list_length(counts);
    if times == 1 {
        return list;
    }
    list + digits(times) + 1
}

// How many bytes the line of an entry has.
fn line_length(e: &Entry, z: &PlaceSizes) -> usize
    requires { Roomy (as_sizes z.now) }
    ensures { (result ≡ length (held_text (as_sizes z.now) e.now)) × (result ≤ 210) }
{
    let counts = &e.token.counts[..z.size_at(e.token.place)];
    7 + digits(e.token.place) + counts_length(counts, e.times)
}

// How many bytes the lines of entries have.
fn lines_length(entries: &[Entry], z: &PlaceSizes) -> usize
    requires { (length entries.now ≤ room_limit) × Roomy (as_sizes z.now) }
    ensures { (result ≡ length (texts (held_text (as_sizes z.now)) entries.now)) × (result ≤ length entries.now * 210) }
{
    let mut bytes = 0;
    for e in entries {
        bytes += line_length(e, z);
    }
    bytes
}

// Lays the counts of a line, and `*n` where it stands for more than one net-token.
fn put_counts(w: &mut Writer, counts: &[u16], times: u16)
    requires { w.old.at + length (counts_text counts.now times) ≤ length w.old.out.now }
    ensures { Lays (counts_text counts.now times) w.old w.new }
{
    if times == 1 {
        return w.list(counts, b'\n');
    }
    w.list(counts, b'*');
    w.number(u64::from(times));
    w.text(b"\n");
}

// Lays the line of an entry.
fn put_line(w: &mut Writer, e: &Entry, z: &PlaceSizes)
    requires { Roomy (as_sizes z.now) × (w.old.at + length (held_text (as_sizes z.now) e.now) ≤ length w.old.out.now) }
    ensures { Lays (held_text (as_sizes z.now) e.now) w.old w.new }
{
    let counts = &e.token.counts[..z.size_at(e.token.place)];
    w.text(b"token=");
    w.number(u64::from(e.token.place));
    w.text(b":");
    put_counts(w, counts, e.times);
}

// Lays the lines of entries.
fn put_lines(w: &mut Writer, entries: &[Entry], z: &PlaceSizes)
    requires { Roomy (as_sizes z.now) × (w.old.at + length (texts (held_text (as_sizes z.now)) entries.now) ≤ length w.old.out.now) }
    ensures { Lays (texts (held_text (as_sizes z.now)) entries.now) w.old w.new }
{
    for e in entries {
        put_line(w, e, z);
    }
}

// The line of a key and the number of entries of a held marking, and a line for each, from `at` on: whole, or no byte. The answer is where the
// text ends, or would end.
pub fn write(
    k: &Marking,
    z: &PlaceSizes,
    key: &[u8],
    out: &mut [u8],
    at: usize,
) -> Result<usize, TooSmall>
    requires { (held_marking room_limit (as_sizes z.now) k.now ≡ true) × Roomy (as_sizes z.now) × (length key.now ≤ 32) × (at ≤ 1048576) }
    ensures { record { answer = result; bytes = out.new } ≡ lay (block_text key.now (eos.entries (tokens_of (as_sizes z.now) k.now))) out.old at }
{
    let entries = k.held();
    // At most 256: there is no refusal to hand on.
    let count = k.len as u16;
    let end = at + key.len() + digits(count) + 1 + lines_length(entries, z);
    if out.len() < end {
        return Err(TooSmall { needed: end });
    }
    let mut w = Writer { out, at };
    w.number_line(key, u64::from(count));
    put_lines(&mut w, entries, z);
    Ok(end)
}
