// Runs the cases of 01 and 02 that are not in the proved table, and prints what each call answers: the number of the cause and what stands
// beside it. The cases are the lines of the file `cases`; those on held things that no reading gives are in `held`.
#![tactic(auto)]

use files::load;
use hand::Hand;
use line::{decoded, find};
use std::io;
use std::rt::Files;

mod answers;
mod hand;
mod held;
mod line;

// What a case that leaves the hand as it is prints after its name.
fn print(rt: &impl Print, hand: &Hand, kind: &[u8], text: &[u8]) -> io::Result<()> {
    match kind {
        b"model" => answers::model(rt, text),
        b"marking" => answers::marking(rt, hand, text),
        b"step" => answers::step(rt, hand, text).map(|_| ()),
        b"run" => answers::run(rt, hand, text),
        b"weigh" => answers::weigh(rt, hand, text),
        b"write" => answers::write(rt, hand, text),
        b"count" => answers::count(rt, hand),
        b"ways" => answers::ways(rt, text),
        _ => println!(rt; "no such kind"),
    }
}

// A case that prints its name, and then what it answers; answers what is in hand after it.
fn named_case(
    rt: &impl Print,
    hand: Hand,
    kind: &[u8],
    name: &[u8],
    text: &[u8],
) -> io::Result<Hand> {
    rt.write_all(name)?;
    rt.write_all(b": ")?;
    match kind {
        b"go" => answers::step(rt, &hand, text),
        b"convert" => answers::convert(rt, &hand),
        _ => {
            print(rt, &hand, kind, text)?;
            Ok(hand)
        }
    }
}

// The case of a kind, a name and a text; answers what is in hand after it.
fn case(
    rt: &(impl Files + Print),
    hand: Hand,
    kind: &[u8],
    name: &[u8],
    text: &[u8],
) -> io::Result<Hand> {
    match kind {
        b"use" => Ok(Hand::of(text)),
        b"load" => Ok(Hand::loaded_by_name(rt, text)),
        _ => named_case(rt, hand, kind, name, text),
    }
}

// The case of a line; a line that is empty or a comment has none.
fn case_of(rt: &(impl Files + Print), hand: Hand, line: &[u8]) -> io::Result<Hand> {
    let colon = find(line, b':');
    let blank = find(&line[..colon], b' ');
    if line.starts_with(b"#") {
        return Ok(hand);
    }
    if blank == colon {
        return Ok(hand);
    }
    let mut text = [0u8; 65536];
    let text = decoded(&line[colon..], &mut text);
    case(rt, hand, &line[..blank], &line[blank + 1..colon], text)
}

fn all_cases(rt: &(impl Files + Print), text: &[u8]) -> io::Result<()> {
    let mut hand = Hand::of(b"");
    for line in text.split(|b| *b == b'\n') {
        hand = case_of(rt, hand, line)?;
    }
    Ok(())
}

fn main(rt: HostRuntime) -> io::Result<()> {
    let mut text = [0u8; 65536];
    all_cases(&rt, load(&rt, "cases", &mut text))?;
    held::run(&rt, &Hand::loaded(&rt, "listing"))
}
