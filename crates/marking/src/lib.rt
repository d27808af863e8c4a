// The held marking: net-tokens in canonical order, how they are read, held, tested and written. Definitions and laws.
#![tactic(auto)]

ghost use Rattle.std.specs.Prelude.{◌≡◌, ◌≤◌, length};
ghost use Rattle.model.specs.Limits.{room_limit};
ghost use Rattle.marking.specs.Tokens.{no_token, no_entry, entries_in};
ghost use Rattle.marking.specs.Held.{no_marking, as_sizes};
ghost use Rattle.marking.specs.Answers.{entry_line};

use model::Model;
use text::TokenLine;

// A net-token: its place's number, from 1, and its counts; unused room is 0. The derived order, by place and then by counts from the first
// on, is the canonical order of a marking.
#[repr(C)]
#[derive(Clone, Copy, PartialEq, Eq, PartialOrd, Ord, Debug)]
pub struct NetToken {
    pub place: u16,
    pub counts: [u16; 32],
}

impl NetToken {
    // Unused room.
    pub fn empty() -> NetToken
        ensures { result ≡ no_token }
    {
        NetToken {
            place: 0,
            counts: [0; 32],
        }
    }
}

// An entry: a net-token, and how many of it there are; in unused room both are empty.
#[repr(C)]
#[derive(Clone, Copy)]
pub struct Entry {
    pub token: NetToken,
    pub times: u16,
}

impl Entry {
    // Unused room.
    pub fn empty() -> Entry
        ensures { result ≡ no_entry }
    {
        Entry {
            token: NetToken::empty(),
            times: 0,
        }
    }
}

// Net-tokens as their line says them.
impl From<TokenLine> for Entry {
    ghost from_gives = { λ line entry. entry ≡ entry_line line };

    fn from(line: TokenLine) -> Entry {
        let TokenLine {
            place,
            counts,
            times,
        } = line;
        Entry {
            token: NetToken { place, counts },
            times,
        }
    }
}

// Entries in canonical order, each unlike net-token once, as many as there is room for; unused room is empty. Their number stands beside the
// array, as C holds them. C may store any: what is known of a held marking is asked where it is needed, and is no fact of the type.
#[repr(C)]
#[derive(Clone, Copy)]
pub struct Marking {
    pub len: usize,
    pub entries: [Entry; Marking::ROOM],
}

impl Marking {
    pub const ROOM: usize = Model::ROOM;

    // No net-token.
    pub fn empty() -> Marking
        ensures { result ≡ no_marking }
    {
        Marking {
            len: 0,
            entries: [Entry::empty(); Marking::ROOM],
        }
    }

    // How many entries it has room for.
    pub fn room(&self) -> usize
        ensures value { result ≡ room_limit }
        ensures entries { length self.now.entries ≡ room_limit }
    {
        self.entries.len()
    }

    // The entries that it holds.
    pub fn held(&self) -> &[Entry]
        requires { self.now.len ≤ room_limit }
        ensures entries { result.now ≡ entries_in self.now }
        ensures room { length self.now.entries ≡ room_limit }
    {
        &self.entries[..self.len]
    }
}

// How many places there are, and how many counts the net-tokens of each have. Any sizes may be lent to a test or a reading: that there is room
// for them is asked where it is needed.
#[derive(Clone, Copy)]
pub struct PlaceSizes {
    pub places: u16,
    pub sizes: [u8; 32],
}

impl PlaceSizes {
    // How many counts the net-tokens of a place have, by its number from 1; 0 past the last.
    pub fn size_at(&self, place: u16) -> usize
        ensures { result ≡ (as_sizes self.now).size place }
    {
        let at = usize::from(place.saturating_sub(1));
        self.sizes.get(at).map_or(0, |size| usize::from(*size))
    }
}
