// The held model: a plant's places, moves, object nets and events in arrays of fixed room. The rules for a model, how it is held and the
// test of a held model: definitions and laws.
#![tactic(auto)]

ghost use Rattle.std.specs.Prelude.{◌≡◌, ◌≤◌};
ghost use Rattle.model.specs.Acts.{as_act, kind_of, index_of, act_of, is_act};
ghost use Rattle.model.specs.Held.{no_net, no_event, no_model};

// An object net; a row of arcs for each transition. Unused room is 0.
#[repr(C)]
#[derive(Clone, Copy)]
pub struct ObjectNet {
    pub places: usize,
    pub transitions: usize,
    pub pre: [[u8; 32]; 32],
    pub post: [[u8; 32]; 32],
}

impl ObjectNet {
    pub fn empty() -> ObjectNet
        ensures { result ≡ no_net }
    {
        ObjectNet {
            places: 0,
            transitions: 0,
            pre: [[0u8; 32]; 32],
            post: [[0u8; 32]; 32],
        }
    }
}

// The system net's part of an event: a move, idling at a place, or idling wherever a rack of a net stands; moves, places and nets are
// numbered from 0.
#[derive(Clone, Copy, PartialEq, Eq)]
pub enum Act {
    Move { index: usize },
    Idle { place: usize },
    Alone { net: usize },
}

impl Act {
    // The act that a kind and an index stand for. A kind and an index of no act stand for one too: a held model has none of them, and who reads
    // its events need not ask.
    pub fn of(kind: u8, index: u8) -> Act
        ensures { as_act result ≡ act_of kind index }
    {
        let number = usize::from(index).saturating_sub(1);
        if kind < Event::IDLE {
            return Act::Move { index: number };
        }
        if kind == Event::IDLE {
            return Act::Idle { place: number };
        }
        Act::Alone { net: number }
    }
}

// An event: of kind 1 a move, of kind 2 idling at a place, of kind 3 idling wherever a rack of a net stands; the index is the move's, the
// place's or the net's number, from 1. A caller in C may store any byte as either. A row of counts for each net. Unused room is 0.
#[repr(C)]
#[derive(Clone, Copy)]
pub struct Event {
    pub kind: u8,
    pub index: u8,
    pub sync: [[u8; 32]; 8],
}

impl Event {
    pub const MOVE: u8 = 1;

    pub const IDLE: u8 = 2;

    pub const ALONE: u8 = 3;

    // An event of an act.
    pub fn new(act: Act, sync: [[u8; 32]; 8]) -> Event
        requires { index_of (as_act act) ≤ 255 }
        ensures { result ≡ record { kind = kind_of (as_act act); index = index_of (as_act act); sync = sync } }
    {
        // The index fits, as is asked: there is no refusal to hand on.
        match act {
            Act::Move { index } => Event {
                kind: Event::MOVE,
                index: index as u8 + 1,
                sync,
            },
            Act::Idle { place } => Event {
                kind: Event::IDLE,
                index: place as u8 + 1,
                sync,
            },
            Act::Alone { net } => Event {
                kind: Event::ALONE,
                index: net as u8 + 1,
                sync,
            },
        }
    }

    // What the kind and the index stand for.
    pub fn act(&self) -> Act
        ensures { as_act result ≡ act_of self.now.kind self.now.index }
    {
        Act::of(self.kind, self.index)
    }

    // Whether the kind and the index are those of an act.
    pub fn is_act(&self) -> bool
        ensures { result ≡ is_act self.now.kind self.now.index }
    {
        (self.kind == Event::MOVE || self.kind == Event::IDLE || self.kind == Event::ALONE)
            && self.index != 0
    }

    pub fn empty() -> Event
        ensures { result ≡ no_event }
    {
        Event {
            kind: 0,
            index: 0,
            sync: [[0u8; 32]; 8],
        }
    }
}

// The held model, with the number of its file's header; a row of arcs for each move. Unused room is 0. It is laid out for C, in arrays of fixed room with their counts beside them; C may
// store any.
#[repr(C)]
#[derive(Clone, Copy)]
pub struct Model {
    pub header: usize,
    pub nets: usize,
    pub places: usize,
    pub moves: usize,
    pub listed: usize,
    pub types: [u8; 32],
    pub pre: [[u8; 32]; 32],
    pub post: [[u8; 32]; 32],
    pub objects: [ObjectNet; 8],
    pub events: [Event; 64],
}

impl Model {
    // The headers: with the first, events idle at places; with the second, they idle alone.
    pub const WITH_IDLE: usize = 1;

    pub const WITH_ALONE: usize = 2;

    // 01's limits.
    pub const NETS: u16 = 8;

    pub const PLACES: u16 = 32;

    pub const MOVES: u16 = 32;

    pub const INNER: u16 = 32;

    pub const STEPS: u16 = 32;

    pub const EVENTS: u16 = 64;

    pub const ARC: u16 = 255;

    // The token lines of a block, the entries of a held marking, the like net-tokens of an entry or a token line, and all that covering weights
    // leave room for.
    pub const LINES: u16 = 256;

    pub const ROOM: usize = 256;

    pub const ALIKE: u16 = 65535;

    pub const COVER: u16 = 256;

    pub const COUNT: u16 = 65535;

    // A weight, either side of 0.
    pub const WEIGHT: u16 = 1000;

    // The bytes of the longest text that is read.
    pub const LONGEST: usize = 1048576;

    // The empty model: no header, and no places.
    pub fn empty() -> Model
        ensures { result ≡ no_model }
    {
        let net = ObjectNet::empty();
        let event = Event::empty();
        Model {
            header: 0,
            nets: 0,
            places: 0,
            moves: 0,
            listed: 0,
            types: [0u8; 32],
            pre: [[0u8; 32]; 32],
            post: [[0u8; 32]; 32],
            objects: [net; 8],
            events: [event; 64],
        }
    }
}
