// Cases on held models and markings that no reading gives, and on texts that are too long for a line.
use super::answers::{convert, marking, model, step, written};
use super::hand::Hand;
use engine::{Event, Marking, Model};
use std::io;

fn models(rt: &impl Print, hand: &Hand) -> io::Result<()> {
    let mut held = *hand;
    held.model.pre[31][31] = 1;
    print!(rt; "unused room not 0: ")?;
    marking(rt, &held, b"start=0\n")?;
    held.model.pre[31][31] = 0;
    held.model.types[1] = 0;
    print!(rt; "held idling at a black place: ")?;
    marking(rt, &held, b"start=0\n")?;
    held.model.types[1] = 1;
    held.model.post[0][1] = 0;
    print!(rt; "held move that gives none of its net: ")?;
    marking(rt, &held, b"start=0\n")?;
    held.model.post[0][1] = 1;
    held.model.places = 33;
    print!(rt; "33 held places: ")?;
    marking(rt, &held, b"start=0\n")
}

// The listing's model with its idling event changed, and its header.
fn headers(rt: &impl Print, hand: &Hand) -> io::Result<()> {
    let mut held = *hand;
    held.model.header = Model::WITH_ALONE;
    print!(rt; "held idling under the second header: ")?;
    marking(rt, &held, b"start=0\n")?;
    held.model.events[1].kind = Event::ALONE;
    print!(rt; "held alone of net 2 of one: ")?;
    marking(rt, &held, b"start=0\n")?;
    held.model.events[1].index = 1;
    print!(rt; "held alone under the second header: ")?;
    marking(rt, &held, b"start=0\n")?;
    held.model.header = Model::WITH_IDLE;
    print!(rt; "held alone under the first header: ")?;
    marking(rt, &held, b"start=0\n")?;
    held.model.header = 3;
    print!(rt; "a third header: ")?;
    marking(rt, &held, b"start=0\n")?;
    held.model.header = 0;
    print!(rt; "no header: ")?;
    marking(rt, &held, b"start=0\n")
}

// An event that cannot be replaced, in a model that is not held: 14 comes before 21.
fn conversions(rt: &impl Print, hand: &Hand) -> io::Result<()> {
    let mut held = *hand;
    print!(rt; "idling at one place of two: ")?;
    convert(rt, &held)?;
    held.model.pre[31][31] = 1;
    print!(rt; "idling at one place of two, unused room not 0: ")?;
    convert(rt, &held)?;
    Ok(())
}

fn markings(rt: &impl Print, hand: &Hand) -> io::Result<()> {
    let mut held = *hand;
    let mut out = [46u8; 40];
    held.marking.entries[2].token.place = 1;
    print!(rt; "unused room not 0: ")?;
    written(rt, &held, &mut out)?;
    held.marking.entries[2].token.place = 0;
    held.marking.entries[0].token.counts[0] = 2;
    print!(rt; "not in order: ")?;
    written(rt, &held, &mut out)?;
    print!(rt; "a marking out of order: ")?;
    step(rt, &held, b"fire=1\n")?;
    held.marking.entries[0].token.counts[0] = 0;
    held.marking.len = 257;
    print!(rt; "257 held entries: ")?;
    written(rt, &held, &mut out)
}

// How many times an entry's net-token is there, and entries that are like.
fn likes(rt: &impl Print, hand: &Hand) -> io::Result<()> {
    let mut held = *hand;
    let mut out = [46u8; 40];
    held.marking.entries[2].times = 1;
    print!(rt; "unused times not 0: ")?;
    written(rt, &held, &mut out)?;
    held.marking.entries[2].times = 0;
    held.marking.entries[0].times = 0;
    print!(rt; "a net-token that is not there: ")?;
    written(rt, &held, &mut out)?;
    held.marking.entries[0].times = 2;
    held.marking.entries[0].token.counts[0] = 1;
    print!(rt; "like entries: ")?;
    written(rt, &held, &mut out)?;
    held.marking.entries[0].token.counts[0] = 0;
    held.marking.entries[0].times = 65535;
    print!(rt; "as many times as can be: ")?;
    written(rt, &held, &mut out)
}

// One byte more than the longest text that is read: 1 comes before 14.
fn over_long(rt: &impl Print, hand: &Hand, text: &[u8; 1048577]) -> io::Result<()> {
    print!(rt; "1048577 bytes: ")?;
    model(rt, text)?;
    print!(rt; "33 held places and 1048577 bytes: ")?;
    marking(rt, hand, text)?;
    print!(rt; "1048577 bytes: ")?;
    step(rt, hand, text)?;
    Ok(())
}

// The longest text that is read.
fn longest(rt: &impl Print, hand: &Hand, text: &[u8; 1048576]) -> io::Result<()> {
    print!(rt; "1048576 bytes: ")?;
    model(rt, text)?;
    print!(rt; "33 held places and 1048576 bytes: ")?;
    marking(rt, hand, text)
}

pub fn run(rt: &impl Print, hand: &Hand) -> io::Result<()> {
    models(rt, hand)?;
    headers(rt, hand)?;
    conversions(rt, hand)?;
    markings(rt, hand)?;
    likes(rt, hand)?;
    let mut none = Hand {
        model: Model::empty(),
        marking: Marking::empty(),
    };
    none.model.places = 33;
    over_long(rt, &none, &[10u8; 1048577])?;
    longest(rt, &none, &[10u8; 1048576])
}
