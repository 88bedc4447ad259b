// The frame program: definitions in specs/, theorems in proofs/, and its lists with their sizes. No functions.
#![tactic(auto)]

// It holds 1,024 triples and 512 bits; so many entries do for every such code.
pub const HELD_BITS: usize = 512;

pub const HELD_TRIPLES: usize = 1024;

pub const HELD_MEMBERS: usize = 3072;

pub const HELD_VARIABLES: usize = 1536;

pub const HELD_ROWS: usize = 4096;

// The records of a code, the settings record and a frame, and a line.
pub const BUFFER: usize = 10260;

pub const LINE: usize = 640;

// The lists that the program holds: the costs of a frame, and those that it lends to the decoder.
#[derive(Drop)]
pub struct Held {
    pub costs: [i16; HELD_BITS],
    pub triples: [u16; HELD_MEMBERS],
    pub counts: [u16; HELD_VARIABLES],
    pub sums: [i64; HELD_VARIABLES],
    pub values: [i16; HELD_VARIABLES],
    pub rows: [i32; HELD_ROWS],
    pub word: [u8; HELD_BITS],
}
