// Examples of calls of the decoder of a group, on the code of three bits with the check (0,1,2). A frame is a letter: z has the costs 0, o 20,000 each, h
// 20,000, 20,000 and -8,000, and f a cost of -32,768.
use example_calls::decoder_calls::{each_list, settings};
use example_calls::fields::Numbers;
use example_calls::show::{lent, number, placed, text};
use model::{Cause, DecodeAnswer, Lists};

const CODE: [u8; 15] = *b"LH\0\x03\0\x01LC\x03\0\0\0\x01\0\x02";

// The costs of a frame.
fn costs_of(frame: u8) -> [i16; 3] {
    match frame {
        b'z' => [0; 3],
        b'f' => [20000, -32768, 20000],
        b'h' => [20000, 20000, -8000],
        _ => [20000; 3],
    }
}

// What is told of frame f; of a frame of which every field is 0, nothing.
fn told(f: usize, a: DecodeAnswer) {
    if (a.number, a.place, a.k, a.settled) == (0, 0, 0, 0) {
        return;
    }
    text(b"; frame");
    number(f);
    text(b":");
    placed(a.number as usize, a.place);
    text(b", k");
    number(a.k as usize);
    text(b", settled");
    number(a.settled as usize);
}

fn answer(decoded: Result<[DecodeAnswer; 8], Cause>) {
    match decoded {
        Ok(frames) => {
            number(0);
            for (f, frame) in frames.iter().enumerate() {
                told(f, *frame);
            }
        }
        Err(cause) => number(cause.number() as usize),
    }
}

// Lists of up to 16 entries, and a work list of up to 128: how many frames are told, and the room of each list.
pub fn grouping(given: &[u8], frames: &[u8], sizes: &[u8]) {
    let mut costs = [0i16; 24];
    let n = 3 * frames.len().min(8);
    for i in 0..n {
        costs[i] = costs_of(frames[i / 3])[i % 3];
    }
    let sizes = Numbers::read(sizes, 10).values;
    let [told, ..] = sizes;
    let [_, t, e, s, c, r, w, _] = sizes.map(lent);
    let a = sizes[7].min(128);
    let mut triples = [9u16; 16];
    let mut counts = [9u16; 16];
    let mut sums = [9i64; 16];
    let mut values = [9i16; 16];
    let mut rows = [9i32; 16];
    let mut word = [9u8; 16];
    let mut work = [9i32; 128];
    let mut lists = Lists {
        triples: &mut triples[..t],
        counts: &mut counts[..e],
        sums: &mut sums[..s],
        values: &mut values[..c],
        rows: &mut rows[..r],
        word: &mut word[..w],
    };
    answer(group::decode(
        &CODE,
        settings(given),
        told,
        &costs[..n],
        &mut lists,
        &mut work[..a],
    ));
    each_list(&lists);
}
