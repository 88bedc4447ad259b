// Examples of calls of the decoder.
use crate::cost_calls::costs;
use crate::fields::Numbers;
use crate::show::{ends, front, lent, list, number, placed, refused, text};
use model::{Cause, Conclusion, Decoding, Lists, Settings};

fn setting(x: usize) -> u32 {
    (x % 4294967296) as u32
}

pub fn settings(field: &[u8]) -> Settings {
    let [weight, ratio, limit, tolerance, ..] = Numbers::read(field, 10).values;
    Settings {
        weight: setting(weight),
        ratio: setting(ratio),
        limit: setting(limit),
        tolerance: setting(tolerance),
    }
}

fn answer(decoded: Result<Decoding, Cause>) {
    let Decoding { conclusion, ending } = match decoded {
        Ok(decoding) => decoding,
        Err(cause) => return refused(cause),
    };
    match conclusion {
        Conclusion::Word => placed(0, 0),
        Conclusion::Undecided(bit) => placed(16, bit),
        Conclusion::Odd(check) => placed(17, check),
    }
    text(b", k");
    number(ending.k as usize);
    text(b", settled");
    number(usize::from(ending.settled));
}

// On the code of three bits with the check (0,1,2), whose record has L and `mark` for its mark.
pub fn decoding(given: &[u8], frame: &[u8], rooms: &[u8], mark: u8) {
    let mut code = *b"LH\0\x03\0\x01LC\x03\0\0\0\x01\0\x02";
    code[7] = mark;
    decoding_code(&code, given, frame, rooms);
}

pub fn decoding_code(code: &[u8], given: &[u8], frame: &[u8], rooms: &[u8]) {
    let frame = Numbers::read(frame, 10);
    let costs = costs(frame.values);
    let [t, e, s, c, r, w, ..] = Numbers::read(rooms, 10).values.map(lent);
    let mut triples = [9u16; 16];
    let mut counts = [9u16; 16];
    let mut sums = [9i64; 16];
    let mut values = [9i16; 16];
    let mut rows = [9i32; 16];
    let mut word = [9u8; 16];
    let mut lists = Lists {
        triples: &mut triples[..t],
        counts: &mut counts[..e],
        sums: &mut sums[..s],
        values: &mut values[..c],
        rows: &mut rows[..r],
        word: &mut word[..w],
    };
    answer(decoder::decode(code, settings(given), &costs[..frame.count], &mut lists));
    each_list(&lists);
}

// The last of the counts, of S and of c stands at the blank's index.
pub fn decoding_long(code: &[u8], given: &[u8], frame: &[u8]) {
    let frame = Numbers::read(frame, 10);
    let costs = costs(frame.values);
    let mut triples = [9u16; 16];
    let mut counts = [9u16; 65536];
    let mut sums = [9i64; 65536];
    let mut values = [9i16; 65536];
    let mut rows = [9i32; 16];
    let mut word = [9u8; 16];
    let mut lists = Lists {
        triples: &mut triples,
        counts: &mut counts,
        sums: &mut sums,
        values: &mut values,
        rows: &mut rows,
        word: &mut word,
    };
    answer(decoder::decode(code, settings(given), &costs[..frame.count], &mut lists));
    front(b", triples", &triples, 8);
    ends(b", counts", &counts);
    ends(b", S", &sums);
    ends(b", c", &values);
    front(b", s", &rows, 10);
    front(b", word", &word, 4);
}

pub fn each_list(lists: &Lists) {
    list(b", triples", &*lists.triples);
    list(b", counts", &*lists.counts);
    list(b", S", &*lists.sums);
    list(b", c", &*lists.values);
    list(b", s", &*lists.rows);
    list(b", word", &*lists.word);
}
