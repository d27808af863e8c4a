// What is printed of the answer of each call.
use super::hand::Hand;
use super::line::{find, number_at};
use engine::{Event, Model, WeightCheck};
use std::io;
use triples::Triple;

fn put_triple(rt: &impl Print, triple: Triple) -> io::Result<()> {
    println!(rt; "{},{},{}", triple.number, triple.beside, triple.column)
}

pub fn model(rt: &impl Print, text: &[u8]) -> io::Result<()> {
    put_triple(rt, Triple::from(engine::read_model(text)))
}

pub fn marking(rt: &impl Print, hand: &Hand, text: &[u8]) -> io::Result<()> {
    put_triple(rt, Triple::from(engine::read_marking(&hand.model, text)))
}

// Answers the hand after the step. A step that fired says the bytes that it used.
pub fn step(rt: &impl Print, hand: &Hand, text: &[u8]) -> io::Result<Hand> {
    let mut after = *hand;
    match engine::step(&hand.model, &mut after.marking, text) {
        Ok(bytes) => println!(rt; "fired, bytes {bytes}")?,
        Err(refusal) => put_triple(rt, Triple::from(refusal))?,
    }
    Ok(after)
}

// What writing a marking answers, and the lent bytes after it.
pub fn written(rt: &impl Print, hand: &Hand, out: &mut [u8]) -> io::Result<()> {
    let answer = engine::write_marking(&hand.model, &hand.marking, out);
    put_triple(rt, Triple::from(answer))?;
    rt.write_all(out)?;
    rt.write_all(b"\n")
}

// The marking in a buffer of as many bytes as the text says; this program has room for 256.
pub fn write(rt: &impl Print, hand: &Hand, text: &[u8]) -> io::Result<()> {
    let mut out = [46u8; 256];
    let n = number_at(text, 0).min(out.len());
    written(rt, hand, &mut out[..n])
}

pub fn run(rt: &impl Print, hand: &Hand, text: &[u8]) -> io::Result<()> {
    let mut after = *hand;
    let ran = engine::run(&hand.model, &mut after.marking, text);
    print!(rt; "fired {}, at {}, stop ", ran.fired, ran.at)?;
    put_triple(rt, Triple::from(ran.stop))?;
    let mut out = [46u8; 40];
    print!(rt; "held: ")?;
    written(rt, &after, &mut out)
}

// The triple, the sum, and 1 or 0 for the cover.
pub fn weigh(rt: &impl Print, hand: &Hand, text: &[u8]) -> io::Result<()> {
    let check = engine::check_weights(hand.model, hand.marking, text);
    put_triple(rt, Triple::from(check))?;
    let WeightCheck { sum, cover } = check.unwrap_or(WeightCheck::nothing());
    let cover = usize::from(cover);
    println!(rt; "  sum {sum}, cover {cover}")
}

// An event's kind in words, and its number.
fn event(rt: &impl Print, event: &Event) -> io::Result<()> {
    let kind = match event.kind {
        Event::MOVE => "move",
        Event::IDLE => "idle",
        Event::ALONE => "alone",
        _ => "none",
    };
    print!(rt; " {kind} {}", event.index)
}

// The header and the events of a model.
fn events(rt: &impl Print, model: &Model) -> io::Result<()> {
    print!(rt; "  header {}, events", model.header)?;
    for each in model.events.iter().take(model.listed) {
        event(rt, each)?;
    }
    rt.write_all(b"\n")
}

// What the new model is like, and the new number of each event. Answers the hand with it.
pub fn convert(rt: &impl Print, hand: &Hand) -> io::Result<Hand> {
    let answer = engine::convert(&hand.model);
    put_triple(rt, Triple::from(answer))?;
    let Ok(conversion) = answer else {
        return Ok(*hand);
    };
    events(rt, &conversion.model)?;
    print!(rt; "  numbers")?;
    for number in conversion.numbers.iter().take(hand.model.listed) {
        print!(rt; " {number}")?;
    }
    rt.write_all(b"\n")?;
    Ok(Hand {
        model: conversion.model,
        marking: hand.marking,
    })
}

pub fn count(rt: &impl Print, hand: &Hand) -> io::Result<()> {
    println!(rt; "{}", hand.marking.len)
}

// The text has the tokens and the racks, with a comma between them.
pub fn ways(rt: &impl Print, text: &[u8]) -> io::Result<()> {
    let comma = find(text, b',');
    let tokens = number_at(text, 0);
    let racks = number_at(&text[comma..], 1);
    let answer = engine::ways(tokens, racks);
    let Ok(value) = answer else {
        return put_triple(rt, Triple::from(answer));
    };
    println!(rt; "{value}")
}
