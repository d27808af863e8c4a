// Texts that fit, laid into a lent buffer one behind the other: in fixed memory a text is counted first, and laid whole or no byte of it.
#![tactic(auto)]

ghost use Rattle.std.specs.Prelude.{◌≡◌, ◌+◌, ◌≤◌, length};
ghost use Rattle.text.specs.Printed.{decimal, items_text, end_text, number_text};
ghost use Rattle.text_write.specs.Place.{written, Lays};

use text_scan::stop_of;

// How many digits n has.
pub fn width(n: u64) -> usize
    ensures { result ≡ length (decimal n) }
{
    if n < 10 {
        return 1;
    }
    // No From goes from u32 to usize; the logarithm fits, so there is no refusal to hand on.
    n.ilog10() as usize + 1
}

// The writer of a text: the bytes that are lent, and the place that it has reached. Each text laid moves it behind that text.
#[derive(Drop)]
pub struct Writer<'a> {
    pub out: &'a mut [u8],
    pub at: usize,
}

impl<'a> Writer<'a> {
    // The bytes of a text.
    pub fn text(&mut self, text: &[u8])
        requires { self.old.at + length text.now ≤ length self.old.out.now }
        ensures { Lays text.now self.old self.new }
    {
        let end = self.at + text.len();
        self.out[self.at..end].copy_from_slice(text);
        self.at = end;
    }

    // A number in decimal. Where it has one digit, as most counts have, that is laid at once, which is faster.
    pub fn number(&mut self, n: u64)
        requires { self.old.at + length (decimal n) ≤ length self.old.out.now }
        ensures { Lays (decimal n) self.old self.new }
    {
        if 10 <= n {
            return self.digits(n);
        }
        // A digit fits: there is no refusal to hand on.
        self.out[self.at] = b'0' + n as u8;
        self.at += 1;
    }

    // The digits of a number, the last one first.
    fn digits(&mut self, n: u64)
        requires { self.old.at + length (decimal n) ≤ length self.old.out.now }
        ensures { Lays (decimal n) self.old self.new }
    {
        let end = self.at + width(n);
        let mut v = n;
        for k in (self.at..end).rev() {
            // A digit fits: there is no refusal to hand on.
            self.out[k] = b'0' + (v % 10) as u8;
            v /= 10;
        }
        self.at = end;
    }

    // Numbers, each followed by a comma, the last by `last`.
    fn items(&mut self, values: &[u16], last: u8)
        requires { self.old.at + length (items_text decimal last values.now) ≤ length self.old.out.now }
        ensures { Lays (items_text decimal last values.now) self.old self.new }
    {
        for (i, value) in values.iter().enumerate() {
            self.number(u64::from(*value));
            self.out[self.at] = stop_of(last, values.len() - i - 1);
            self.at += 1;
        }
    }

    // Numbers joined by commas and ended by `last`; for no number, that byte alone.
    pub fn list(&mut self, values: &[u16], last: u8)
        requires { self.old.at + length (end_text decimal last values.now) ≤ length self.old.out.now }
        ensures { Lays (end_text decimal last values.now) self.old self.new }
    {
        if values.is_empty() {
            return self.text(&[last]);
        }
        self.items(values, last)
    }

    // The line of a key and a number.
    pub fn number_line(&mut self, key: &[u8], n: u64)
        requires { self.old.at + length (number_text key.now n) ≤ length self.old.out.now }
        ensures { Lays (number_text key.now n) self.old self.new }
    {
        self.text(key);
        self.number(n);
        self.text(b"\n");
    }

    // The bytes up to the place reached.
    pub fn written(&self) -> &[u8]
        requires { self.now.at ≤ length self.now.out.now }
        ensures { result.now ≡ written self.now }
    {
        &self.out[..self.at]
    }
}
