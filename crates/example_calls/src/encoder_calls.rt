// Examples of calls of the encoder: the length of a message, its word, the words of several, and the message of a word.
use crate::code_calls::verdict;
use crate::codes;
use crate::fields::{Numbers, room};
use crate::show::{lent, list, number, refused, text, told};

// The number and, of a code that is taken, how long a message is.
fn length(code: &[u8]) {
    match encoder::message_length(code) {
        Ok(length) => {
            text(b" 0, length");
            number(length);
        }
        Err(cause) => refused(cause),
    }
}

pub fn encoding(code: &[u8], message: &[u8], rooms: &[u8]) {
    length(code);
    let n = room(rooms);
    let mut word = [9u8; 16];
    text(b", encoder");
    told(encoder::encode(code, message, &mut word[..n]));
    list(b", word", &word[..n]);
}

pub fn encoding_many(last: &[u8], message: &[u8], rooms: &[u8]) {
    let mut code = io::large_buffer();
    let n = codes::many(&mut code, 32, last);
    encoding(&code[..n], message, rooms);
}

pub fn longest(sizes: &[u8], message: &[u8], rooms: &[u8]) {
    let [bits, checks, degree, step, ..] = Numbers::read(sizes, 10).values;
    let mut code = io::large_buffer();
    let n = codes::regular(&mut code, bits, checks, degree, step);
    encoding(&code[..n], message, rooms);
}

pub fn frames(code: &[u8], messages: &[u8], sizes: &[u8]) {
    let [frames, n, ..] = Numbers::read(sizes, 10).values;
    let n = lent(n);
    let mut words = [9u8; 16];
    told(encoder::encode_frames(code, frames, messages, &mut words[..n]));
    list(b", words", &words[..n]);
}

pub fn reading(code: &[u8], word: &[u8], rooms: &[u8]) {
    let n = room(rooms);
    let mut message = [9u8; 16];
    verdict(b"", encoder::read_message(code, word, &mut message[..n]));
    list(b", message", &message[..n]);
}
