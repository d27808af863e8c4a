// The lines of the events.
#![tactic(auto)]

ghost use Rattle.std.specs.Prelude.{◌≡◌, ◌≤◌, ◌<◌, get_or, OnErr, replicate};
ghost use Rattle.text.specs.Lines.{many};
ghost use Rattle.text.specs.Repeat.{many_at};
ghost use Rattle.text.specs.Answers.{kept, padded};
ghost use Rattle.text_reader.specs.Place.{Reads, lent};
ghost use Rattle.model.specs.Held.{row, tabled, hold_event, no_event, no_net};
ghost use Rattle.model.specs.Test.{frame_in};
ghost use Rattle.model_text.specs.Reading.{read_act_line, read_act, read_sync, read_event};
ghost use Rattle.model_text.specs.Answers.{Fitting, hold_act, with_events};

use model::{Act, Event, Model, ObjectNet};
use model_acts::own_net;
use model_rules::takes_part;
use text::{Cause, Fault, Keyed};
use text_reader::Reader;

// How many transitions net n has.
fn transitions(objects: &[ObjectNet; 8], n: usize) -> usize
    requires { n < 8 }
    ensures { result ≡ (get_or objects.now n no_net).transitions }
{
    objects[n].transitions
}

// What the events of a model depend on: the model, whose counts are in range.
#[derive(Clone, Copy)]
struct Frame<'a> {
    model: &'a Model,
    ghost fitting: { Fitting model.now },
}

impl Frame<'_> {
    // The first line of an event, by the header: of a move, or of a net or a place.
    fn act_line(&self, r: &mut Reader) -> Result<Keyed, Fault>
        ensures { Reads (read_act_line (frame_in self.now.model.now) r.old.src.now r.old.at) r.old r.new result }
    {
        let m = self.model;
        // At most 32 moves, 8 nets and 32 places: there is no refusal to hand on.
        if m.header == Model::WITH_ALONE {
            return r.keyed(b"event=", m.moves as u16, b"alone=", m.nets as u16);
        }
        r.keyed(b"event=", m.moves as u16, b"idle=", m.places as u16)
    }

    // What it says: a move, a net, or a place that is no place of black tokens.
    fn act(&self, r: &mut Reader) -> Result<Act, Fault>
        ensures { Reads (kept hold_act (read_act (frame_in self.now.model.now) r.old.src.now r.old.at)) r.old r.new result }
    {
        let m = self.model;
        let line = r.at;
        match self.act_line(r)? {
            Keyed::Former(number) => Ok(Act::Move {
                index: usize::from(number) - 1,
            }),
            Keyed::Latter(number) => {
                let index = usize::from(number) - 1;
                if m.header == Model::WITH_ALONE {
                    return Ok(Act::Alone { net: index });
                }
                if m.types[index] == 0 {
                    return Err(r.refuse(Cause::Idling, line));
                }
                Ok(Act::Idle { place: index })
            }
        }
    }

    // The line of the counts of net n, where the event idles in net `own`, from 1, or is a move: a fault where that net does not take
    // part, or another does.
    fn sync(&self, r: &mut Reader, own: u8, n: usize) -> Result<[u8; 32], Fault>
        requires { n < self.now.model.now.nets }
        ensures { Reads (kept padded (read_sync (frame_in self.now.model.now) own r.old.src.now n r.old.at)) r.old r.new result }
    {
        let line = r.at;
        let counts = r.list(b"sync=", transitions(&self.model.objects, n), Model::ARC)?;
        if !takes_part(own, n, &counts) {
            return Err(r.refuse(Cause::Idling, line));
        }
        Ok(counts)
    }

    // A line of counts for each net.
    fn syncs(&self, r: &mut Reader, own: u8) -> Result<[[u8; 32]; 8], Fault>
        ensures { Reads (kept (tabled row 8) (many_at (read_sync (frame_in self.now.model.now) own r.old.src.now) 0 self.now.model.now.nets r.old.at)) r.old r.new result }
    {
        let mut table = [[0; 32]; 8];
        for n in 0..self.model.nets {
            table[n] = self.sync(r, own, n)?;
        }
        Ok(table)
    }

    // The lines of an event.
    fn event(&self, r: &mut Reader) -> Result<Event, Fault>
        ensures { Reads (kept hold_event (read_event (frame_in self.now.model.now) r.old.src.now r.old.at)) r.old r.new result }
    {
        let act = self.act(r)?;
        let sync = self.syncs(r, own_net(&self.model.types, act))?;
        Ok(Event::new(act, sync))
    }
}

// The lines of n events, which are laid into the model's room for them.
fn lines(r: &mut Reader, n: usize, m: &mut Model) -> Result<(), Fault>
    requires fitting { Fitting m.old }
    requires few { n ≤ 64 }
    ensures { Reads (kept (with_events m.old) (many (read_event (frame_in m.old) r.old.src.now) n r.old.at)) r.old r.new (lent m.new result) }
{
    m.events = [Event::empty(); 64];
    for i in 0..n {
        m.events[i] = Frame { model: m }.event(r)?;
    }
    m.listed = n;
    Ok(())
}

// The same, as the object nets are; there is no event where one of the lines is refused.
pub fn events(r: &mut Reader, n: usize, m: &mut Model) -> Result<(), Fault>
    requires fitting { Fitting m.old }
    requires few { n ≤ 64 }
    ensures read { Reads (kept (with_events m.old) (many (read_event (frame_in m.old) r.old.src.now) n r.old.at)) r.old r.new (lent m.new result) }
    ensures refused { OnErr result (m.new.events ≡ replicate 64 no_event) }
{
    let read = lines(r, n, m);
    if read.is_err() {
        m.events = [Event::empty(); 64];
    }
    read
}
