// Checks of two bits (document 02, L6): on the code of three bits with the checks (0,1) and (1,2), whose words are 000 and 111, and on that of six bits with the
// checks (1,2,3), (0,1) and (0,2,4,5), which is called mixed and has the auxiliary 6. The blank, 65535, stands in third place of a triple. The fields are those of
// the other sections; a line of the decoder has its code before them.
use examples::{Example, each, title};

fn splitting() {
    title(b"checks of two bits: splitting, into lists that held nines");
    each(
        b"(0,1) and (1,2)|LH\0\x03\0\x02LC\x02\0\0\0\x01LC\x02\0\x01\0\x02|14 9\n\
        just room|LH\0\x03\0\x02LC\x02\0\0\0\x01LC\x02\0\x01\0\x02|6 3\n\
        triples short|LH\0\x03\0\x02LC\x02\0\0\0\x01LC\x02\0\x01\0\x02|5 3\n\
        counts short|LH\0\x03\0\x02LC\x02\0\0\0\x01LC\x02\0\x01\0\x02|6 2\n\
        (0,1) twice and (1,2)|LH\0\x03\0\x03LC\x02\0\0\0\x01LC\x02\0\0\0\x01LC\x02\0\x01\0\x02|14 9\n\
        mixed|LH\0\x06\0\x03LC\x03\0\x01\0\x02\0\x03LC\x02\0\0\0\x01LC\x04\0\0\0\x02\0\x04\0\x05|14 9\n\
        (1,4) between two of degree 4|LH\0\x05\0\x03LC\x04\0\0\0\x01\0\x02\0\x03LC\x02\0\x01\0\x04LC\x04\0\0\0\x02\0\x03\0\x04|16 9\n",
        Example::Splitting,
    );
    each(
        b"an entry of counts at the blank's index|LH\0\x03\0\x02LC\x02\0\0\0\x01LC\x02\0\x01\0\x02\n",
        Example::SplittingLong,
    );
}

fn words() {
    title(b"checks of two bits: codeword test and extension, into a list that held nines");
    each(
        b"000|LH\0\x03\0\x02LC\x02\0\0\0\x01LC\x02\0\x01\0\x02|\0\0\0|3\n\
        111|LH\0\x03\0\x02LC\x02\0\0\0\x01LC\x02\0\x01\0\x02|\x01\x01\x01|3\n\
        a longer point list|LH\0\x03\0\x02LC\x02\0\0\0\x01LC\x02\0\x01\0\x02|\x01\x01\x01|5\n\
        a short point list|LH\0\x03\0\x02LC\x02\0\0\0\x01LC\x02\0\x01\0\x02|\x01\x01\x01|2\n\
        100, the first odd|LH\0\x03\0\x02LC\x02\0\0\0\x01LC\x02\0\x01\0\x02|\x01\0\0|3\n\
        001, the second odd|LH\0\x03\0\x02LC\x02\0\0\0\x01LC\x02\0\x01\0\x02|\0\0\x01|3\n\
        110, the second odd|LH\0\x03\0\x02LC\x02\0\0\0\x01LC\x02\0\x01\0\x02|\x01\x01\0|3\n\
        010, both odd|LH\0\x03\0\x02LC\x02\0\0\0\x01LC\x02\0\x01\0\x02|\0\x01\0|3\n\
        mixed, 110101|LH\0\x06\0\x03LC\x03\0\x01\0\x02\0\x03LC\x02\0\0\0\x01LC\x04\0\0\0\x02\0\x04\0\x05|\x01\x01\0\x01\0\x01|7\n\
        mixed, 001110|LH\0\x06\0\x03LC\x03\0\x01\0\x02\0\x03LC\x02\0\0\0\x01LC\x04\0\0\0\x02\0\x04\0\x05|\0\0\x01\x01\x01\0|7\n\
        mixed, 111011, the sum of both|LH\0\x06\0\x03LC\x03\0\x01\0\x02\0\x03LC\x02\0\0\0\x01LC\x04\0\0\0\x02\0\x04\0\x05|\x01\x01\x01\0\x01\x01|7\n\
        mixed, 011010, the check of two bits odd|LH\0\x06\0\x03LC\x03\0\x01\0\x02\0\x03LC\x02\0\0\0\x01LC\x04\0\0\0\x02\0\x04\0\x05|\0\x01\x01\0\x01\0|7\n",
        Example::Extending,
    );
}

fn encoder() {
    title(b"checks of two bits: encoder, into a list that held nines");
    each(
        b"0|LH\0\x03\0\x02LC\x02\0\0\0\x01LC\x02\0\x01\0\x02|\0|3\n\
        1|LH\0\x03\0\x02LC\x02\0\0\0\x01LC\x02\0\x01\0\x02|\x01|3\n\
        mixed, 101|LH\0\x06\0\x03LC\x03\0\x01\0\x02\0\x03LC\x02\0\0\0\x01LC\x04\0\0\0\x02\0\x04\0\x05|\x01\0\x01|6\n\
        mixed, 010|LH\0\x06\0\x03LC\x03\0\x01\0\x02\0\x03LC\x02\0\0\0\x01LC\x04\0\0\0\x02\0\x04\0\x05|\0\x01\0|6\n\
        mixed, 111, the sum of both|LH\0\x06\0\x03LC\x03\0\x01\0\x02\0\x03LC\x02\0\0\0\x01LC\x04\0\0\0\x02\0\x04\0\x05|\x01\x01\x01|6\n",
        Example::Encoding,
    );
    each(
        b"words of 1, 0 and 1|LH\0\x03\0\x02LC\x02\0\0\0\x01LC\x02\0\x01\0\x02|\x01\0\x01|3 9\n",
        Example::Frames,
    );
    each(
        b"message of 111|LH\0\x03\0\x02LC\x02\0\0\0\x01LC\x02\0\x01\0\x02|\x01\x01\x01|1\n\
        message of 000|LH\0\x03\0\x02LC\x02\0\0\0\x01LC\x02\0\x01\0\x02|\0\0\0|1\n\
        message of 001|LH\0\x03\0\x02LC\x02\0\0\0\x01LC\x02\0\x01\0\x02|\0\0\x01|1\n\
        mixed, message of 110110|LH\0\x06\0\x03LC\x03\0\x01\0\x02\0\x03LC\x02\0\0\0\x01LC\x04\0\0\0\x02\0\x04\0\x05|\x01\x01\0\x01\x01\0|3\n",
        Example::ReadingMessage,
    );
}

// The third and fourth s of a triple with the blank are never above 0, and are renewed like the others. Reflection by 111 negates every value; the blank keeps its
// sign, so that the first and second s of a triple change places, and the third and fourth.
fn decoder() {
    title(b"checks of two bits: decoder, into lists that held nines");
    each(
        b"K = 1|LH\0\x03\0\x02LC\x02\0\0\0\x01LC\x02\0\x01\0\x02|256 0 1 0|20000 -8000 5000|6 3 3 3 8 3\n\
        K = 2|LH\0\x03\0\x02LC\x02\0\0\0\x01LC\x02\0\x01\0\x02|256 0 2 0|20000 -8000 5000|6 3 3 3 8 3\n\
        reflected by 111, K = 1|LH\0\x03\0\x02LC\x02\0\0\0\x01LC\x02\0\x01\0\x02|256 0 1 0|-20000 8000 -5000|6 3 3 3 8 3\n\
        reflected by 111, K = 2|LH\0\x03\0\x02LC\x02\0\0\0\x01LC\x02\0\x01\0\x02|256 0 2 0|-20000 8000 -5000|6 3 3 3 8 3\n\
        settled at 000|LH\0\x03\0\x02LC\x02\0\0\0\x01LC\x02\0\x01\0\x02|1024 0 4000 0|32767 32767 32767|6 3 3 3 8 3\n\
        settled at 111|LH\0\x03\0\x02LC\x02\0\0\0\x01LC\x02\0\x01\0\x02|1024 0 4000 0|-32767 -32767 -32767|6 3 3 3 8 3\n\
        all costs 0|LH\0\x03\0\x02LC\x02\0\0\0\x01LC\x02\0\x01\0\x02|256 0 2 0|0 0 0|6 3 3 3 8 3\n\
        all costs 0, a total of 2^32, X = 2^32 - 1|LH\0\x03\0\x02LC\x02\0\0\0\x01LC\x02\0\x01\0\x02|256 0 1 4294967295|0 0 0|6 3 3 3 8 3\n\
        A = 1023, divisors 1, 1025, 1|LH\0\x03\0\x02LC\x02\0\0\0\x01LC\x02\0\x01\0\x02|1 1023 1 0|16383 -2050 -5|6 3 3 3 8 3\n\
        the second check odd|LH\0\x03\0\x02LC\x02\0\0\0\x01LC\x02\0\x01\0\x02|256 0 1 0|4 8 -4|6 3 3 3 8 3\n\
        longer lists|LH\0\x03\0\x02LC\x02\0\0\0\x01LC\x02\0\x01\0\x02|256 0 2 0|20000 -8000 5000|8 5 4 5 10 4\n\
        triples short|LH\0\x03\0\x02LC\x02\0\0\0\x01LC\x02\0\x01\0\x02|256 0 2 0|20000 -8000 5000|5 3 3 3 8 3\n\
        counts short|LH\0\x03\0\x02LC\x02\0\0\0\x01LC\x02\0\x01\0\x02|256 0 2 0|20000 -8000 5000|6 2 3 3 8 3\n\
        S short|LH\0\x03\0\x02LC\x02\0\0\0\x01LC\x02\0\x01\0\x02|256 0 2 0|20000 -8000 5000|6 3 2 3 8 3\n\
        c short|LH\0\x03\0\x02LC\x02\0\0\0\x01LC\x02\0\x01\0\x02|256 0 2 0|20000 -8000 5000|6 3 3 2 8 3\n\
        s short|LH\0\x03\0\x02LC\x02\0\0\0\x01LC\x02\0\x01\0\x02|256 0 2 0|20000 -8000 5000|6 3 3 3 7 3\n\
        word short|LH\0\x03\0\x02LC\x02\0\0\0\x01LC\x02\0\x01\0\x02|256 0 2 0|20000 -8000 5000|6 3 3 3 8 2\n\
        mixed, K = 1|LH\0\x06\0\x03LC\x03\0\x01\0\x02\0\x03LC\x02\0\0\0\x01LC\x04\0\0\0\x02\0\x04\0\x05|256 0 1 0|8000 -4000 6000 2000 -3000 5000|12 7 7 7 16 6\n\
        mixed, K = 2|LH\0\x06\0\x03LC\x03\0\x01\0\x02\0\x03LC\x02\0\0\0\x01LC\x04\0\0\0\x02\0\x04\0\x05|256 0 2 0|8000 -4000 6000 2000 -3000 5000|12 7 7 7 16 6\n\
        mixed, reflected by 110101, K = 2|LH\0\x06\0\x03LC\x03\0\x01\0\x02\0\x03LC\x02\0\0\0\x01LC\x04\0\0\0\x02\0\x04\0\x05|256 0 2 0|-8000 4000 6000 -2000 -3000 -5000|12 7 7 7 16 6\n",
        Example::DecodingCode,
    );
    each(
        b"an entry of counts, S and c at the blank's index|LH\0\x03\0\x02LC\x02\0\0\0\x01LC\x02\0\x01\0\x02|256 0 2 0|20000 -8000 5000\n",
        Example::DecodingLong,
    );
}

// A line has a check record, and the bits of its code with the triples of the checks before it.
fn held() {
    title(b"frame program: a check, and the triples that it holds already");
    each(
        b"one bit, 1024 held|LC\x01\0\0|4 1024\n\
        two bits, 1023 held|LC\x02\0\0\0\x01|4 1023\n\
        two bits, 1024 held|LC\x02\0\0\0\x01|4 1024\n\
        three bits, 1023 held|LC\x03\0\0\0\x01\0\x02|4 1023\n\
        three bits, 1024 held|LC\x03\0\0\0\x01\0\x02|4 1024\n\
        four bits, 1022 held|LC\x04\0\0\0\x01\0\x02\0\x03|4 1022\n\
        four bits, 1023 held|LC\x04\0\0\0\x01\0\x02\0\x03|4 1023\n",
        Example::Held,
    );
}

pub fn run() {
    splitting();
    words();
    encoder();
    decoder();
    held();
}
