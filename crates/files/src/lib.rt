// A file read into a lent buffer, for the programs.
#![tactic(auto)]

ghost use Rattle.std.specs.Prelude.{◌≡◌, ◌≤◌, length, take};

use std::fs::File;
use std::io::Read;
use std::rt::Files;

// Reads the file at `path` into buf and lends the bytes that there are: as many as there is room for, and up to a read that fails; of one
// that cannot be opened, none.
pub fn load<'a>(rt: &impl Files, path: &str, buf: &'a mut [u8]) -> &'a [u8]
    ensures { length result.now ≤ length buf.old }
{
    let done = loaded(rt, path, buf);
    &buf[..done]
}

// How many bytes are read of it.
fn loaded(rt: &impl Files, path: &str, buf: &mut [u8]) -> usize
    ensures in_bounds { result ≤ length buf.new }
    ensures prefix { result ≡ length (take result buf.new) }
{
    let Ok(mut file) = File::open(rt, path) else {
        return 0;
    };
    let mut done = 0;
    // A read answers how many bytes it gave: no index goes over the buffer.
    while done < buf.len() {
        let Ok(n) = file.read(&mut buf[done..]) else {
            break;
        };
        if n == 0 {
            break;
        }
        done += n;
    }
    done
}
