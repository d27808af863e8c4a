// The lines of a listing before its net-tokens, each laid into a buffer with room for it.
ghost use Rattle.std.specs.Prelude.{◌≡◌, ◌+◌, ◌≤◌, length};
ghost use Rattle.text_write.specs.Place.{Lays};
ghost use Rattle.listing.specs.Listing.{triple_text, sum_text, cover_text};
ghost use Rattle.triples.specs.Triples.{refusal_of};

use text_write::Writer;
use triples::Triple;

// Lays the line of a triple.
pub fn put_triple(w: &mut Writer, key: &[u8], p: Triple)
    requires { w.old.at + length key.now + 46 ≤ length w.old.out.now }
    ensures { Lays (triple_text key.now (refusal_of p)) w.old w.new × (w.new.at ≤ w.old.at + length key.now + 46) }
{
    w.text(key);
    w.number(u64::from(p.number));
    w.text(b",");
    // No From goes from usize to u64, which is as wide.
    w.number(p.beside as u64);
    w.number_line(b",", p.column as u64);
}

// The same for the sum, which may be below 0.
pub fn put_sum(w: &mut Writer, sum: i64)
    requires { w.old.at + 26 ≤ length w.old.out.now }
    ensures { Lays (sum_text sum) w.old w.new × (w.new.at ≤ w.old.at + 26) }
{
    if sum < 0 {
        return w.number_line(b"sum=-", sum.unsigned_abs());
    }
    w.number_line(b"sum=", sum.unsigned_abs())
}

// The same for the cover.
pub fn put_cover(w: &mut Writer, cover: bool)
    requires { w.old.at + 8 ≤ length w.old.out.now }
    ensures { Lays (cover_text cover) w.old w.new × (w.new.at ≤ w.old.at + 8) }
{
    w.number_line(b"cover=", u64::from(cover));
}
