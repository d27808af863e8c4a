// What the program `rackrun` prints for the texts of its three files.
#![tactic(auto)]

ghost use Rattle.std.specs.Prelude.{◌≡◌, true, ◌++◌, ◌+◌, ◌≤◌, length};
ghost use Rattle.text.specs.Bytes.{bytes};
ghost use Rattle.eos.specs.Model as eos;
ghost use Rattle.marking.specs.Held.{tokens_of};
ghost use Rattle.marking.specs.Printed.{block_text};
ghost use Rattle.marking.specs.Sizes.{sizes_for};
ghost use Rattle.reader.specs.Answers.{held_both, lay_whole};
ghost use Rattle.text_write.specs.Place.{written};
ghost use Rattle.listing.specs.Listing.{trace_file, run_text, after_model, listing_text};

use files::{model_file, trace_file, weights_file};
use head::{put_cover, put_sum, put_triple};
use marking::Marking;
use marking_test::place_sizes;
use marking_write::write;
use model::Model;
use reader::{ModelReading, WriteRefusal};
use text_write::Writer;
use triples::Triple;

mod files;
mod head;

// A listing that ends with its head, whose bytes are in hand; the net-tokens behind a head are counted before they are laid (`write`).
fn lay_head(head: &[u8], out: &mut [u8]) -> Result<usize, WriteRefusal>
    ensures { record { answer = result; bytes = out.new } ≡ lay_whole head.now out.old }
{
    if out.len() < head.len() {
        return Err(WriteRefusal::TooSmall { needed: head.len() });
    }
    Writer { out, at: 0 }.text(head);
    Ok(head.len())
}

// The head of a listing, and behind it the net-tokens of a held marking. These are laid first: where they do not fit, no byte is touched.
fn lay_with_held(head: &[u8], m: &Model, k: &Marking, out: &mut [u8]) -> Result<usize, WriteRefusal>
    requires { (held_both m.now k.now ≡ true) × (length head.now ≤ 1024) }
    ensures { record { answer = result; bytes = out.new }
        ≡ lay_whole (head.now ++ block_text (bytes "held=") (eos.entries (tokens_of (sizes_for m.now) k.now))) out.old }
{
    let bytes = write(k, &place_sizes(m), b"held=", out, head.len())?;
    Writer { out, at: 0 }.text(head);
    Ok(bytes)
}

// The listing from `fired` on, behind its head so far.
fn after_weights(
    m: Model,
    k: Marking,
    trace: &[u8],
    head: &mut Writer,
    out: &mut [u8],
) -> Result<usize, WriteRefusal>
    requires { (held_both m k ≡ true) × (head.old.at + 80 ≤ length head.old.out.now) × (length head.old.out.now ≤ 1024) }
    ensures { record { answer = result; bytes = out.new }
        ≡ lay_whole (written head.old ++ run_text m (trace_file m k trace.now)) out.old }
{
    let mut after = k;
    let ran = trace_file(&m, &mut after, trace);
    // No From goes from usize to u64, which is as wide.
    head.number_line(b"fired=", ran.fired as u64);
    put_triple(head, b"stop=", Triple::from(ran.stop));
    lay_with_held(head.written(), &m, &after, out)
}

// The listing from `weights` on, behind its head so far.
fn after_model(
    m: Model,
    k: Marking,
    weights: &[u8],
    trace: &[u8],
    head: &mut Writer,
    out: &mut [u8],
) -> Result<usize, WriteRefusal>
    requires { (held_both m k ≡ true) × (head.old.at + 170 ≤ length head.old.out.now) × (length head.old.out.now ≤ 1024) }
    ensures { record { answer = result; bytes = out.new }
        ≡ lay_whole (written head.old ++ after_model m k weights.now trace.now) out.old }
{
    let check = weights_file(m, k, weights);
    put_triple(head, b"weights=", Triple::from(check));
    let Ok(check) = check else {
        return lay_head(head.written(), out);
    };
    put_sum(head, check.sum);
    put_cover(head, check.cover);
    after_weights(m, k, trace, head, out)
}

// What the program prints for the three texts: written whole, or no byte of it.
pub fn listing(
    model: &[u8],
    weights: &[u8],
    trace: &[u8],
    out: &mut [u8],
) -> Result<usize, WriteRefusal>
    ensures { record { answer = result; bytes = out.new }
        ≡ lay_whole (listing_text model.now weights.now trace.now) out.old }
{
    let mut bytes = [0u8; 256];
    let mut head = Writer {
        out: &mut bytes,
        at: 0,
    };
    match model_file(model) {
        Ok(ModelReading { model, start }) => {
            put_triple(&mut head, b"model=", Triple::accepted());
            after_model(model, start, weights, trace, &mut head, out)
        }
        Err(refusal) => {
            put_triple(&mut head, b"model=", Triple::from(refusal));
            lay_head(head.written(), out)
        }
    }
}
