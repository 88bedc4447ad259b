// The encoder: on the code of five bits with the checks (0,1,2), (2,3,4) and their sum (0,1,3,4), whose pivots are the bits 0 and 2; on that of three bits
// with the check (0,1,2) twice; and on that of four bits with its four checks of three bits, in which every bit is a pivot. A line has a code, a message,
// messages or a word, and the length of the list that is written; a line of frames has their number before it.
use examples::{Example, each, title};

fn words() {
    title(b"encoder, into a list that held nines");
    each(
        b"000|LH\0\x05\0\x03LC\x03\0\0\0\x01\0\x02LC\x03\0\x02\0\x03\0\x04LC\x04\0\0\0\x01\0\x03\0\x04|\0\0\0|5\n\
        001|LH\0\x05\0\x03LC\x03\0\0\0\x01\0\x02LC\x03\0\x02\0\x03\0\x04LC\x04\0\0\0\x01\0\x03\0\x04|\0\0\x01|5\n\
        010|LH\0\x05\0\x03LC\x03\0\0\0\x01\0\x02LC\x03\0\x02\0\x03\0\x04LC\x04\0\0\0\x01\0\x03\0\x04|\0\x01\0|5\n\
        011|LH\0\x05\0\x03LC\x03\0\0\0\x01\0\x02LC\x03\0\x02\0\x03\0\x04LC\x04\0\0\0\x01\0\x03\0\x04|\0\x01\x01|5\n\
        100|LH\0\x05\0\x03LC\x03\0\0\0\x01\0\x02LC\x03\0\x02\0\x03\0\x04LC\x04\0\0\0\x01\0\x03\0\x04|\x01\0\0|5\n\
        101|LH\0\x05\0\x03LC\x03\0\0\0\x01\0\x02LC\x03\0\x02\0\x03\0\x04LC\x04\0\0\0\x01\0\x03\0\x04|\x01\0\x01|5\n\
        110|LH\0\x05\0\x03LC\x03\0\0\0\x01\0\x02LC\x03\0\x02\0\x03\0\x04LC\x04\0\0\0\x01\0\x03\0\x04|\x01\x01\0|5\n\
        111|LH\0\x05\0\x03LC\x03\0\0\0\x01\0\x02LC\x03\0\x02\0\x03\0\x04LC\x04\0\0\0\x01\0\x03\0\x04|\x01\x01\x01|5\n\
        equal checks, 00|LH\0\x03\0\x02LC\x03\0\0\0\x01\0\x02LC\x03\0\0\0\x01\0\x02|\0\0|3\n\
        equal checks, 01|LH\0\x03\0\x02LC\x03\0\0\0\x01\0\x02LC\x03\0\0\0\x01\0\x02|\0\x01|3\n\
        equal checks, 10|LH\0\x03\0\x02LC\x03\0\0\0\x01\0\x02LC\x03\0\0\0\x01\0\x02|\x01\0|3\n\
        equal checks, 11|LH\0\x03\0\x02LC\x03\0\0\0\x01\0\x02LC\x03\0\0\0\x01\0\x02|\x01\x01|3\n\
        as many pivots as bits|LH\0\x04\0\x04LC\x03\0\0\0\x01\0\x02LC\x03\0\0\0\x01\0\x03LC\x03\0\0\0\x02\0\x03LC\x03\0\x01\0\x02\0\x03||4\n\
        a longer list|LH\0\x05\0\x03LC\x03\0\0\0\x01\0\x02LC\x03\0\x02\0\x03\0\x04LC\x04\0\0\0\x01\0\x03\0\x04|\x01\0\x01|7\n",
        Example::Encoding,
    );
}

fn refused() {
    each(
        b"a message too short|LH\0\x05\0\x03LC\x03\0\0\0\x01\0\x02LC\x03\0\x02\0\x03\0\x04LC\x04\0\0\0\x01\0\x03\0\x04|\x01\0|5\n\
        a message too long|LH\0\x05\0\x03LC\x03\0\0\0\x01\0\x02LC\x03\0\x02\0\x03\0\x04LC\x04\0\0\0\x01\0\x03\0\x04|\x01\0\0\0|5\n\
        as many pivots as bits, one entry|LH\0\x04\0\x04LC\x03\0\0\0\x01\0\x02LC\x03\0\0\0\x01\0\x03LC\x03\0\0\0\x02\0\x03LC\x03\0\x01\0\x02\0\x03|\0|4\n\
        an entry 2|LH\0\x05\0\x03LC\x03\0\0\0\x01\0\x02LC\x03\0\x02\0\x03\0\x04LC\x04\0\0\0\x01\0\x03\0\x04|\0\x02\0|5\n\
        an entry 255|LH\0\x05\0\x03LC\x03\0\0\0\x01\0\x02LC\x03\0\x02\0\x03\0\x04LC\x04\0\0\0\x01\0\x03\0\x04|\xff\0\0|5\n\
        12 before 15|LH\0\x05\0\x03LC\x03\0\0\0\x01\0\x02LC\x03\0\x02\0\x03\0\x04LC\x04\0\0\0\x01\0\x03\0\x04|\x02\0|5\n\
        12 before 10|LH\0\x05\0\x03LC\x03\0\0\0\x01\0\x02LC\x03\0\x02\0\x03\0\x04LC\x04\0\0\0\x01\0\x03\0\x04|\x01\0|4\n\
        15 before 10|LH\0\x05\0\x03LC\x03\0\0\0\x01\0\x02LC\x03\0\x02\0\x03\0\x04LC\x04\0\0\0\x01\0\x03\0\x04|\x02\0\0|4\n\
        a short list|LH\0\x05\0\x03LC\x03\0\0\0\x01\0\x02LC\x03\0\x02\0\x03\0\x04LC\x04\0\0\0\x01\0\x03\0\x04|\x01\0\x01|4\n\
        1 before 12, 15 and 10|LH\0\x03\0\x01|\x02|1\n\
        8 before 12, 15 and 10|LH\0\x04\0\x01LC\x03\0\0\0\x01\0\x02|\x02|1\n\
        9 before 12, 15 and 10|LH\0\x03\0\x01LC\x03\0\0\0\x01\0\x02\0|\x02|1\n",
        Example::Encoding,
    );
    each(
        b"7 before 12, 15 and 10|LC\x03\0\0\0\x01\0\x02|\x02|1\n",
        Example::EncodingMany,
    );
    each(
        b"256 bits, 8 checks of 32|256 8 32 32||0\n\
        257 bits, 10 checks of 32|257 10 32 25||0\n\
        20 before 12, 15 and 10|257 10 32 25|\x02|0\n\
        8 before 20|258 10 32 25|\x02|0\n",
        Example::EncodingLong,
    );
}

fn frames() {
    title(b"words of several messages, into a list that held nines");
    each(
        b"none|LH\0\x05\0\x03LC\x03\0\0\0\x01\0\x02LC\x03\0\x02\0\x03\0\x04LC\x04\0\0\0\x01\0\x03\0\x04||0 4\n\
        one|LH\0\x05\0\x03LC\x03\0\0\0\x01\0\x02LC\x03\0\x02\0\x03\0\x04LC\x04\0\0\0\x01\0\x03\0\x04|\x01\0\x01|1 5\n\
        two, 101 and 011|LH\0\x05\0\x03LC\x03\0\0\0\x01\0\x02LC\x03\0\x02\0\x03\0\x04LC\x04\0\0\0\x01\0\x03\0\x04|\x01\0\x01\0\x01\x01|2 10\n\
        two of equal checks, 01 and 10|LH\0\x03\0\x02LC\x03\0\0\0\x01\0\x02LC\x03\0\0\0\x01\0\x02|\0\x01\x01\0|2 6\n\
        three without entries|LH\0\x04\0\x04LC\x03\0\0\0\x01\0\x02LC\x03\0\0\0\x01\0\x03LC\x03\0\0\0\x02\0\x03LC\x03\0\x01\0\x02\0\x03||3 13\n\
        two, five entries|LH\0\x05\0\x03LC\x03\0\0\0\x01\0\x02LC\x03\0\x02\0\x03\0\x04LC\x04\0\0\0\x01\0\x03\0\x04|\x01\0\x01\0\x01|2 10\n\
        two, seven entries|LH\0\x05\0\x03LC\x03\0\0\0\x01\0\x02LC\x03\0\x02\0\x03\0\x04LC\x04\0\0\0\x01\0\x03\0\x04|\x01\0\x01\0\x01\x01\0|2 10\n\
        one, no entries|LH\0\x05\0\x03LC\x03\0\0\0\x01\0\x02LC\x03\0\x02\0\x03\0\x04LC\x04\0\0\0\x01\0\x03\0\x04||1 5\n\
        none, an entry|LH\0\x05\0\x03LC\x03\0\0\0\x01\0\x02LC\x03\0\x02\0\x03\0\x04LC\x04\0\0\0\x01\0\x03\0\x04|\x01|0 5\n\
        two, an entry 2 in the second|LH\0\x05\0\x03LC\x03\0\0\0\x01\0\x02LC\x03\0\x02\0\x03\0\x04LC\x04\0\0\0\x01\0\x03\0\x04|\0\0\0\0\x02\0|2 10\n\
        two, a short list|LH\0\x05\0\x03LC\x03\0\0\0\x01\0\x02LC\x03\0\x02\0\x03\0\x04LC\x04\0\0\0\x01\0\x03\0\x04|\x01\0\x01\0\x01\x01|2 9\n\
        12 before 15 and 10|LH\0\x05\0\x03LC\x03\0\0\0\x01\0\x02LC\x03\0\x02\0\x03\0\x04LC\x04\0\0\0\x01\0\x03\0\x04|\x02|2 9\n",
        Example::Frames,
    );
}

fn messages() {
    title(b"message of a word, into a list that held nines");
    each(
        b"01101|LH\0\x05\0\x03LC\x03\0\0\0\x01\0\x02LC\x03\0\x02\0\x03\0\x04LC\x04\0\0\0\x01\0\x03\0\x04|\0\x01\x01\0\x01|3\n\
        11011|LH\0\x05\0\x03LC\x03\0\0\0\x01\0\x02LC\x03\0\x02\0\x03\0\x04LC\x04\0\0\0\x01\0\x03\0\x04|\x01\x01\0\x01\x01|3\n\
        00000|LH\0\x05\0\x03LC\x03\0\0\0\x01\0\x02LC\x03\0\x02\0\x03\0\x04LC\x04\0\0\0\x01\0\x03\0\x04|\0\0\0\0\0|3\n\
        equal checks, 101|LH\0\x03\0\x02LC\x03\0\0\0\x01\0\x02LC\x03\0\0\0\x01\0\x02|\x01\0\x01|2\n\
        as many pivots as bits|LH\0\x04\0\x04LC\x03\0\0\0\x01\0\x02LC\x03\0\0\0\x01\0\x03LC\x03\0\0\0\x02\0\x03LC\x03\0\x01\0\x02\0\x03|\0\0\0\0|0\n\
        a longer list|LH\0\x05\0\x03LC\x03\0\0\0\x01\0\x02LC\x03\0\x02\0\x03\0\x04LC\x04\0\0\0\x01\0\x03\0\x04|\0\x01\x01\0\x01|5\n\
        the first check odd|LH\0\x05\0\x03LC\x03\0\0\0\x01\0\x02LC\x03\0\x02\0\x03\0\x04LC\x04\0\0\0\x01\0\x03\0\x04|\x01\0\0\0\0|3\n\
        the second check odd|LH\0\x05\0\x03LC\x03\0\0\0\x01\0\x02LC\x03\0\x02\0\x03\0\x04LC\x04\0\0\0\x01\0\x03\0\x04|\0\0\0\x01\0|3\n\
        a word too short|LH\0\x05\0\x03LC\x03\0\0\0\x01\0\x02LC\x03\0\x02\0\x03\0\x04LC\x04\0\0\0\x01\0\x03\0\x04|\0\x01\x01\0|3\n\
        an entry 2|LH\0\x05\0\x03LC\x03\0\0\0\x01\0\x02LC\x03\0\x02\0\x03\0\x04LC\x04\0\0\0\x01\0\x03\0\x04|\0\x02\0\0\0|3\n\
        a short list|LH\0\x05\0\x03LC\x03\0\0\0\x01\0\x02LC\x03\0\x02\0\x03\0\x04LC\x04\0\0\0\x01\0\x03\0\x04|\0\x01\x01\0\x01|2\n\
        12 before 15 and 10|LH\0\x05\0\x03LC\x03\0\0\0\x01\0\x02LC\x03\0\x02\0\x03\0\x04LC\x04\0\0\0\x01\0\x03\0\x04|\x02|2\n\
        15 before 10|LH\0\x05\0\x03LC\x03\0\0\0\x01\0\x02LC\x03\0\x02\0\x03\0\x04LC\x04\0\0\0\x01\0\x03\0\x04|\x02\0\0\0\0|2\n\
        10 before 17|LH\0\x05\0\x03LC\x03\0\0\0\x01\0\x02LC\x03\0\x02\0\x03\0\x04LC\x04\0\0\0\x01\0\x03\0\x04|\x01\0\0\0\0|2\n\
        1 before 12, 15 and 10|LH\0\x03\0\x01|\x02|1\n",
        Example::ReadingMessage,
    );
}

pub fn run() {
    words();
    refused();
    frames();
    messages();
}
