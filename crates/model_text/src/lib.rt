// How the lines of a model, from `eos` to its last event, are read into a held model.
#![tactic(auto)]

// The arcs of a transition, a row on each side, or of several, on each side a table with a row for each. Unused room is 0.
#[derive(Clone, Copy)]
pub struct Sides<T> {
    pub pre: T,
    pub post: T,
}

// The header, how many object nets and places there are, and the type of each place.
#[derive(Clone, Copy)]
pub struct Outline {
    pub header: usize,
    pub nets: usize,
    pub places: usize,
    pub types: [u8; 32],
}
