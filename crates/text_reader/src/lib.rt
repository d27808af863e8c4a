// The reader of a file: the bytes that are lent, and the place that it has reached. Each reading moves it behind what was read, or to the line
// at fault.
#![tactic(auto)]

ghost use Rattle.std.specs.Prelude.{◌≡◌, ◌-◌, leb, get_or, ℤ};
ghost use Rattle.text.specs.Number.{signed_if};
ghost use Rattle.text.specs.Printed.{signed_text};
ghost use Rattle.text.specs.Lines.{Outcome, modest, in_range, read_number, read_row, read_head, read_heads};
ghost use Rattle.text.specs.Keyed.{read_keyed};
ghost use Rattle.text.specs.TokenLine.{read_token};
ghost use Rattle.text.specs.Answers.{kept, parsed, accepted, row, token_line};
ghost use Rattle.text.specs.Lines as lines;
ghost use Rattle.text_reader.specs.Place.{Reads, closed, placed};

use text::{Cause, Fault, Keyed, Parsed, TokenLine, Value};
use text_lines::{head_line, heads_line, keyed_line, number_line};
use text_lists::list_line;
use text_scan::fault_at;
use text_tokens::token_line;

#[derive(Clone, Copy)]
pub struct Reader<'a> {
    pub src: &'a [u8],
    pub at: usize,
}

impl<'a> Reader<'a> {
    // What was read from the place reached: the reader moves behind it, or to the line at fault.
    fn take<T: Copy>(&mut self, read: Result<Parsed<T>, Fault>) -> Result<T, Fault>
        ensures { (o : Outcome T) → read ≡ parsed o → Reads o self.old self.new result }
    {
        match read {
            Ok(parsed) => {
                self.at = parsed.end;
                Ok(parsed.value)
            }
            Err(fault) => {
                self.at = fault.at;
                Err(fault)
            }
        }
    }

    // The fault of a line that was read, to which the reader goes back.
    pub fn refuse(&mut self, cause: Cause, line: usize) -> Fault
        ensures told { result ≡ lines.fault cause line }
        ensures stands { self.new ≡ placed self.old line }
    {
        self.at = line;
        fault_at(cause, line, line)
    }

    // The first line of a file.
    pub fn head(&mut self, line: &[u8]) -> Result<(), Fault>
        ensures { Reads (read_head line.now self.old.src.now self.old.at) self.old self.new result }
    {
        self.take(head_line(self.src, self.at, line))
    }

    // The first line of a file that has two forms: 1 where it is `one`, 2 where it is `two`.
    pub fn heads(&mut self, one: &[u8], two: &[u8]) -> Result<u8, Fault>
        ensures { Reads (read_heads one.now two.now self.old.src.now self.old.at) self.old self.new result }
    {
        self.take(heads_line(self.src, self.at, one, two))
    }

    // The line of key and one number from lo to hi.
    pub fn number(&mut self, key: &[u8], lo: u16, hi: u16) -> Result<u16, Fault>
        ensures { Reads (read_number key.now (in_range lo hi) self.old.src.now self.old.at) self.old self.new result }
    {
        self.take(number_line(self.src, self.at, key, lo, hi))
    }

    // The line of the key `one` and a number from 1 to `most`, or of the key `two` and one from 1 to `last`.
    pub fn keyed(&mut self, one: &[u8], most: u16, two: &[u8], last: u16) -> Result<Keyed, Fault>
        ensures { Reads (read_keyed one.now two.now (in_range 1 most) (in_range 1 last) self.old.src.now self.old.at) self.old self.new result }
    {
        self.take(keyed_line(self.src, self.at, one, most, two, last))
    }

    // The line of key and n values of at most hi, either side of 0 where their type has a sign.
    pub fn list<V: Value>(&mut self, key: &[u8], n: usize, hi: u16) -> Result<[V; 32], Fault>
        ensures { Reads (kept (row V.held) (read_row (signed_if V.SIGNED) signed_text key.now n (modest hi) self.old.src.now self.old.at)) self.old self.new result }
    {
        self.take(list_line(self.src, self.at, key, n, hi))
    }

    // The line of key, a place from 1 to `places` and its counts up to hi, which stands for up to `most` net-tokens; `sizes` says for each
    // place how many counts it has.
    pub fn token(
        &mut self,
        key: &[u8],
        places: u16,
        sizes: &[u8],
        hi: u16,
        most: u16,
    ) -> Result<TokenLine, Fault>
        ensures { Reads (kept token_line (read_token key.now places (λ p. get_or sizes.now (p - 1) 0) (λ v. leb v hi) (λ n. leb n most) self.old.src.now self.old.at)) self.old self.new result }
    {
        self.take(token_line(self.src, self.at, key, places, sizes, hi, most))
    }

    // The end of the text: bytes after the last line are a fault.
    pub fn close(&self) -> Result<(), Fault>
        ensures { result ≡ accepted (closed self.now.src.now self.now.at) }
    {
        if self.at < self.src.len() {
            return Err(fault_at(Cause::Syntax, self.at, self.at));
        }
        Ok(())
    }
}
