// An example of a table, and the call that it is for. What is printed of it is its label, the answer and the lists after the call. Their entries are 9
// before, and a field `room` says how many are lent.
use crate::group_calls;
use example_calls::show::text;
use example_calls::{code_calls, cost_calls, decoder_calls, encoder_calls};
use model::Channel;

// The fields behind the label. `Many` is a code behind 8,193 triples on the first 32 bits, of which the field has the last record.
#[derive(Clone, Copy)]
pub enum Example {
    // code
    Reading,
    // last record of a code with so many bits
    ReadingMany(usize),
    // bits, checks, degree, step: checks of one degree, each from the bit `step` behind the one before it
    Edge,
    // degree of one check behind 273 of degree 32, which have 8,190 triples, and how many checks of two bits are behind it
    MostTriples,
    // check record, bits and how many triples the frame program holds
    Held,
    // code, room of both lists
    Splitting,
    SplittingMany,
    // code, of three bits: counts in a list of 65,536 entries
    SplittingLong,
    // code, word, room
    Extending,
    ExtendingMany,
    // scale or weight or both floor and weight, samples, room
    Gaussian,
    Hard,
    Erasing,
    // costs, word, room
    Reflecting,
    // word, other word, room
    Adding,
    // costs, word, other word: two reflections, the sum of the words, one reflection by it
    Chaining,
    // code, message, room: the length of a message too
    Encoding,
    EncodingMany,
    // bits, checks, degree, step; message, room
    EncodingLong,
    // code, messages, frames and room
    Frames,
    // code, word, room
    ReadingMessage,
    // settings, costs, room of all six lists
    Decoding(u8),
    // code, settings, costs, room of all six lists
    DecodingCode,
    // code, of three bits, settings, costs: counts, S and c in lists of 65,536 entries
    DecodingLong,
    // settings, frames, their number and the room of all seven lists
    Grouping,
}

pub fn run(label: &[u8], x: &[u8], y: &[u8], z: &[u8], u: &[u8], example: Example) {
    text(label);
    text(b":");
    match example {
        Example::Reading => code_calls::reading(x),
        Example::ReadingMany(bits) => code_calls::reading_many(bits, x),
        Example::Edge => code_calls::edge(x),
        Example::MostTriples => code_calls::most_triples(x),
        Example::Held => code_calls::held(x, y),
        Example::Splitting => code_calls::splitting(x, y),
        Example::SplittingMany => code_calls::splitting_many(x, y),
        Example::SplittingLong => code_calls::splitting_long(x),
        Example::Extending => code_calls::extending(x, y, z),
        Example::ExtendingMany => code_calls::extending_many(x, y, z),
        Example::Gaussian => cost_calls::front(Channel::Gaussian(cost_calls::first_real(x)), y, z),
        Example::Hard => cost_calls::front(Channel::Hard(cost_calls::first_real(x)), y, z),
        Example::Erasing => cost_calls::front(Channel::Erasing(cost_calls::erasure(x)), y, z),
        Example::Reflecting => cost_calls::reflecting(x, y, z),
        Example::Adding => cost_calls::adding(x, y, z),
        Example::Chaining => cost_calls::chaining(x, y, z),
        Example::Encoding => encoder_calls::encoding(x, y, z),
        Example::EncodingMany => encoder_calls::encoding_many(x, y, z),
        Example::EncodingLong => encoder_calls::longest(x, y, z),
        Example::Frames => encoder_calls::frames(x, y, z),
        Example::ReadingMessage => encoder_calls::reading(x, y, z),
        Example::Decoding(mark) => decoder_calls::decoding(x, y, z, mark),
        Example::DecodingCode => decoder_calls::decoding_code(x, y, z, u),
        Example::DecodingLong => decoder_calls::decoding_long(x, y, z),
        Example::Grouping => group_calls::grouping(x, y, z),
    }
    text(b"\n");
}
