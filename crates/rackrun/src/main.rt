// Reads the files `model`, `weights` and `trace` of its folder and prints their listing.
#![tactic(auto)]

use engine::listing;
use files::load;
use std::io;

// Prints the listing of three texts; `out` is room for it.
fn print_listing(
    rt: &impl Print,
    model: &[u8],
    weights: &[u8],
    trace: &[u8],
    out: &mut [u8],
) -> io::Result<()> {
    let answer = listing(model, weights, trace, out);
    let Ok(bytes) = answer else {
        return Ok(());
    };
    rt.write_all(&out[..bytes])
}

fn main(rt: HostRuntime) -> io::Result<()> {
    // A file over 65,536 bytes fills a buffer of one byte more, and so the listing sees that it is too long.
    let mut model = [0u8; 65537];
    let mut weights = [0u8; 65537];
    let mut trace = [0u8; 65537];
    let mut out = [0u8; 65536];
    let model = load(&rt, "model", &mut model);
    let weights = load(&rt, "weights", &mut weights);
    let trace = load(&rt, "trace", &mut trace);
    print_listing(&rt, model, weights, trace, &mut out)
}
