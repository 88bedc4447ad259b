// The codeword test and the extension: on the code of three bits with the check (0,1,2), on that of five bits with one check, whose
// auxiliaries are 5 and 6, and on that of five bits with the checks (0,1,2,3) and (0,2,3,4), which have one auxiliary each. A line has
// a code, a word and the length of the point.
use examples::{Example, each, title};

fn accepted() {
    title(b"codeword test and extension, into a list that held nines");
    each(
        b"000|LH\0\x03\0\x01LC\x03\0\0\0\x01\0\x02|\0\0\0|3\n\
        011|LH\0\x03\0\x01LC\x03\0\0\0\x01\0\x02|\0\x01\x01|3\n\
        101|LH\0\x03\0\x01LC\x03\0\0\0\x01\0\x02|\x01\0\x01|3\n\
        110|LH\0\x03\0\x01LC\x03\0\0\0\x01\0\x02|\x01\x01\0|3\n\
        00000|LH\0\x05\0\x01LC\x05\0\0\0\x01\0\x02\0\x03\0\x04|\0\0\0\0\0|7\n\
        11000|LH\0\x05\0\x01LC\x05\0\0\0\x01\0\x02\0\x03\0\x04|\x01\x01\0\0\0|7\n\
        10100|LH\0\x05\0\x01LC\x05\0\0\0\x01\0\x02\0\x03\0\x04|\x01\0\x01\0\0|7\n\
        01001|LH\0\x05\0\x01LC\x05\0\0\0\x01\0\x02\0\x03\0\x04|\0\x01\0\0\x01|7\n\
        00011|LH\0\x05\0\x01LC\x05\0\0\0\x01\0\x02\0\x03\0\x04|\0\0\0\x01\x01|7\n\
        11110|LH\0\x05\0\x01LC\x05\0\0\0\x01\0\x02\0\x03\0\x04|\x01\x01\x01\x01\0|7\n\
        01100, the sum of 11000 and 10100|LH\0\x05\0\x01LC\x05\0\0\0\x01\0\x02\0\x03\0\x04|\0\x01\x01\0\0|7\n\
        two checks, 11001|LH\0\x05\0\x02LC\x04\0\0\0\x01\0\x02\0\x03LC\x04\0\0\0\x02\0\x03\0\x04|\x01\x01\0\0\x01|7\n\
        two checks, 01101|LH\0\x05\0\x02LC\x04\0\0\0\x01\0\x02\0\x03LC\x04\0\0\0\x02\0\x03\0\x04|\0\x01\x01\0\x01|7\n\
        two checks, 00110|LH\0\x05\0\x02LC\x04\0\0\0\x01\0\x02\0\x03LC\x04\0\0\0\x02\0\x03\0\x04|\0\0\x01\x01\0|7\n\
        two checks, 10100, the sum of 11001 and 01101|LH\0\x05\0\x02LC\x04\0\0\0\x01\0\x02\0\x03LC\x04\0\0\0\x02\0\x03\0\x04|\x01\0\x01\0\0|7\n\
        100|LH\0\x03\0\x01LC\x03\0\0\0\x01\0\x02|\x01\0\0|3\n\
        111|LH\0\x03\0\x01LC\x03\0\0\0\x01\0\x02|\x01\x01\x01|3\n\
        00001|LH\0\x05\0\x01LC\x05\0\0\0\x01\0\x02\0\x03\0\x04|\0\0\0\0\x01|7\n\
        11111|LH\0\x05\0\x01LC\x05\0\0\0\x01\0\x02\0\x03\0\x04|\x01\x01\x01\x01\x01|7\n\
        two checks, the first odd|LH\0\x05\0\x02LC\x04\0\0\0\x01\0\x02\0\x03LC\x04\0\0\0\x02\0\x03\0\x04|\0\x01\0\0\0|7\n\
        two checks, the second odd|LH\0\x05\0\x02LC\x04\0\0\0\x01\0\x02\0\x03LC\x04\0\0\0\x02\0\x03\0\x04|\0\0\0\0\x01|7\n\
        two checks, both odd|LH\0\x05\0\x02LC\x04\0\0\0\x01\0\x02\0\x03LC\x04\0\0\0\x02\0\x03\0\x04|\x01\0\0\0\0|7\n",
        Example::Extending,
    );
}

fn refused() {
    each(
        b"a word too short|LH\0\x03\0\x01LC\x03\0\0\0\x01\0\x02|\0\x01|3\n\
        a word too long|LH\0\x03\0\x01LC\x03\0\0\0\x01\0\x02|\0\x01\x01\0|4\n\
        an entry 2|LH\0\x03\0\x01LC\x03\0\0\0\x01\0\x02|\0\x02\0|3\n\
        an entry 255|LH\0\x03\0\x01LC\x03\0\0\0\x01\0\x02|\xff\x01\0|3\n\
        12 before 15|LH\0\x03\0\x01LC\x03\0\0\0\x01\0\x02|\0\x02|3\n\
        12 before 10|LH\0\x03\0\x01LC\x03\0\0\0\x01\0\x02|\0\x01|2\n\
        15 before 10|LH\0\x03\0\x01LC\x03\0\0\0\x01\0\x02|\0\x02\0|2\n\
        15 before 17|LH\0\x03\0\x01LC\x03\0\0\0\x01\0\x02|\x01\0\x02|3\n\
        a longer point list|LH\0\x03\0\x01LC\x03\0\0\0\x01\0\x02|\0\x01\x01|5\n\
        a short point list|LH\0\x03\0\x01LC\x03\0\0\0\x01\0\x02|\0\x01\x01|2\n\
        10 before 17|LH\0\x03\0\x01LC\x03\0\0\0\x01\0\x02|\x01\0\0|2\n\
        five bits, a longer point list|LH\0\x05\0\x01LC\x05\0\0\0\x01\0\x02\0\x03\0\x04|\x01\0\x01\0\0|9\n\
        five bits, a short point list|LH\0\x05\0\x01LC\x05\0\0\0\x01\0\x02\0\x03\0\x04|\x01\0\x01\0\0|6\n\
        five bits, 10 before 17|LH\0\x05\0\x01LC\x05\0\0\0\x01\0\x02\0\x03\0\x04|\0\0\0\0\x01|6\n\
        1 before 12, 15 and 10|LH\0\x03\0\x01|\x02|1\n\
        2 before 12, 15 and 10|LH\0\x03\0\x01LX\x03\0\0\0\x01\0\x02|\x02|1\n\
        3 before 12, 15 and 10|LH\0\x02\0\x01LC\x03\0\0\0\x01\0\x02|\x02|1\n\
        4 before 12, 15 and 10|LH\0\x03\0\x01LC\x01\0\0|\x02|1\n\
        5 before 12, 15 and 10|LH\0\x03\0\x01LC\x03\0\0\0\x01\0\x03|\x02|1\n\
        6 before 12, 15 and 10|LH\0\x03\0\x01LC\x03\0\0\0\x01\0\x01|\x02|1\n\
        8 before 12, 15 and 10|LH\0\x04\0\x01LC\x03\0\0\0\x01\0\x02|\x02|1\n\
        9 before 12, 15 and 10|LH\0\x03\0\x01LC\x03\0\0\0\x01\0\x02\0|\x02|1\n\
        12 before 15 and 10|LH\0\x03\0\x01LC\x03\0\0\0\x01\0\x02|\x02|1\n",
        Example::Extending,
    );
    each(
        b"7 before 12, 15 and 10|LC\x03\0\0\0\x01\0\x02|\x02|1\n",
        Example::ExtendingMany,
    );
}

pub fn run() {
    accepted();
    refused();
}
