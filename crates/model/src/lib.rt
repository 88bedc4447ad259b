// What callers hand over and what they are told, and the limits of both. The meaning of each, and every definition that a contract cites, stands in specs/.
#![tactic(auto)]

ghost use Rattle.std.specs.Prelude.{◌≡◌};
ghost use Rattle.model.specs.Causes.{number};
ghost use Rattle.model.specs.Calls.{run_told, decoding_told};

// ---- the limits, which specs/Limits.antt has under the same names

pub const MOST_BITS: usize = 4096;

pub const MOST_CHECKS: usize = 2048;

pub const LEAST_DEGREE: usize = 2;

pub const MOST_DEGREE: usize = 32;

pub const MOST_TRIPLES: usize = 8192;

// in third place of a triple of two bits (specs/Splitting.antt)
pub const BLANK: usize = 65535;

pub const MOST_PLACES: usize = 12288;

pub const MOST_WEIGHT: u32 = 65535;

pub const MOST_RATIO: u32 = 1023;

pub const MOST_ITERATIONS: u32 = 4000;

pub const MOST_NUMBER: usize = 65535;

pub const MOST_ENCODED_BITS: usize = 256;

pub const MOST_FRAMES: usize = 8;

// ---- what is handed over and told

// The settings of a run: cost weight W, ratio A, iterations K and tolerance X.
#[derive(Clone, Copy)]
pub struct Settings {
    pub weight: u32,
    pub ratio: u32,
    pub limit: u32,
    pub tolerance: u32,
}

// What erases a sample, and what the others weigh.
#[derive(Clone, Copy)]
pub struct Erasure {
    pub floor: f32,
    pub weight: f32,
}

// A channel setting is one of three kinds.
#[derive(Clone, Copy)]
pub enum Channel {
    Gaussian(f32),
    Hard(f32),
    Erasing(Erasure),
}

// Why a call is refused, by the number that a caller from C is told. 0 is success, and 16 and 17 are outcomes of a run or of a test.
#[derive(Clone, Copy, Debug, PartialEq, Eq)]
pub enum Cause {
    // the bytes end inside a record
    Cut = 1,
    // another mark than the due one
    Mark = 2,
    // the number of bits or of checks is outside its range
    Size = 3,
    // a degree is outside 2..32
    Degree = 4,
    // an index is as large as the number of bits, or larger
    Index = 5,
    // an index is not above the one before
    Order = 6,
    // the checks have more than 8,192 triples
    Triples = 7,
    // some bit lies in no check
    Uncovered = 8,
    // bytes after the last check
    Trailing = 9,
    // a lent list is too short
    Room = 10,
    // a setting is outside its range
    Setting = 11,
    // lengths of lists that must agree do not
    Lengths = 12,
    // a cost is -32,768
    Cost = 13,
    // a sample is not finite
    Sample = 14,
    // an entry of a word is neither 0 nor 1
    Entry = 15,
    // a text is not in the strict form of an alist file
    Text = 18,
    // columns and rows of an alist text do not name the same places
    Places = 19,
    // a code has more than 256 bits, which is too long for the encoder
    Long = 20,
    // the number of frames is outside 1..8
    Frames = 21,
}

impl Cause {
    pub fn number(self) -> u32
        ensures { result ≡ number self }
    {
        self as u32
    }
}

impl From<Cause> for u32 {
    ghost from_gives = { λ cause told. told ≡ number cause };

    fn from(cause: Cause) -> u32 {
        cause.number()
    }
}

// The sizes of a code.
#[derive(Clone, Copy, PartialEq, Eq)]
pub struct Sizes {
    pub bits: usize,
    pub checks: usize,
    pub triples: usize,
}

// Whether a word is a codeword; Odd has the first check with an odd sum.
#[derive(Clone, Copy, PartialEq, Eq)]
pub enum Verdict {
    Codeword,
    Odd(usize),
}

// How a run ended: after k iterations, settled or not.
#[derive(Clone, Copy, PartialEq, Eq)]
pub struct Ending {
    pub k: u32,
    pub settled: bool,
}

// What the last values say; Undecided has the lowest bit with the value 0, Odd the first check with an odd sum.
#[derive(Clone, Copy, PartialEq, Eq)]
pub enum Conclusion {
    Word,
    Undecided(usize),
    Odd(usize),
}

// What a run gives.
#[derive(Clone, Copy, PartialEq, Eq)]
pub struct Decoding {
    pub conclusion: Conclusion,
    pub ending: Ending,
}

// The lists that a caller lends to the decoder. For T triples, V variables and n bits of a code it wants 3T, V, V, V, 4T and n entries; for a group of frames as many of
// the last four for each frame. Entries past those stay.
#[derive(Drop)]
pub struct Lists<'a> {
    pub triples: &'a mut [u16],
    pub counts: &'a mut [u16],
    pub sums: &'a mut [i64],
    pub values: &'a mut [i16],
    pub rows: &'a mut [i32],
    pub word: &'a mut [u8],
}

// What is told of a run: a number, a bit or a check, the iterations, and whether the frame settled.
#[repr(C)]
#[derive(Clone, Copy, Default)]
pub struct DecodeAnswer {
    pub number: u32,
    pub place: usize,
    pub k: u32,
    pub settled: u32,
}

// What is told of a run to a caller from C; of a refused one only the cause's number.
impl From<Result<Decoding, Cause>> for DecodeAnswer {
    ghost from_gives = { λ decoded told. run_told told ≡ decoding_told decoded };

    fn from(decoded: Result<Decoding, Cause>) -> DecodeAnswer {
        match decoded {
            Ok(Decoding { conclusion, ending }) => {
                let (number, place) = match conclusion {
                    Conclusion::Word => (0, 0),
                    Conclusion::Undecided(v) => (16, v),
                    Conclusion::Odd(j) => (17, j),
                };
                DecodeAnswer {
                    number,
                    place,
                    k: ending.k,
                    settled: u32::from(ending.settled),
                }
            }
            Err(cause) => DecodeAnswer {
                number: cause.number(),
                place: 0,
                k: 0,
                settled: 0,
            },
        }
    }
}

// A group's answer: its number, and what is told of each frame. Past the group's frames, and of a refused group, all numbers are 0.
#[repr(C)]
#[derive(Drop)]
pub struct GroupAnswer {
    pub number: u32,
    pub frames: [DecodeAnswer; 8],
}

impl From<Result<[DecodeAnswer; 8], Cause>> for GroupAnswer {
    ghost use Rattle.std.specs.Prelude.{map, replicate, MatchResult};
    ghost use Rattle.model.specs.Causes.{number_of};

    ghost from_gives = { λ decoded answer. (answer.number ≡ number_of decoded) × MatchResult decoded (λ frames. answer.frames ≡ frames)
        (λ cause. map run_told answer.frames ≡ replicate 8 (record { number = 0; place = 0; k = 0; settled = 0 })) };

    fn from(decoded: Result<[DecodeAnswer; 8], Cause>) -> GroupAnswer {
        match decoded {
            Ok(frames) => GroupAnswer { number: 0, frames },
            Err(cause) => GroupAnswer {
                number: cause.number(),
                frames: [DecodeAnswer::default(); 8],
            },
        }
    }
}
