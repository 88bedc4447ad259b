// The decoder on the code of three bits with the check (0,1,2): the frames of document 01, the settings' edges, the causes and the lengths. A line
// has W, A, K and X, the costs, and the lengths of the lists for triples, counts, S, c, s and the word.
use examples::{Example, each, title};

fn accepted() {
    title(b"decoder, into lists that held nines");
    each(
        b"frame 1|256 0 2 0|0 0 0|3 3 3 3 4 3\n\
        frame 2|256 0 2 0|20000 20000 -8000|3 3 3 3 4 3\n\
        frame 3|256 0 2 0|20000 20000 20000|3 3 3 3 4 3\n\
        frame 2, K = 1|256 0 1 0|20000 20000 -8000|3 3 3 3 4 3\n\
        frame 2 reflected, K = 1|256 0 1 0|20000 -20000 8000|3 3 3 3 4 3\n\
        W = 0|0 0 2 0|20000 20000 -8000|3 3 3 3 4 3\n\
        W = 1|1 0 2 0|20000 20000 -8000|3 3 3 3 4 3\n\
        W = 65535|65535 0 2 0|20000 20000 -8000|3 3 3 3 4 3\n\
        W = 65536|65536 0 2 0|20000 20000 -8000|3 3 3 3 4 3\n\
        A = 1023|256 1023 2 0|20000 20000 -8000|3 3 3 3 4 3\n\
        A = 1024|256 1024 2 0|20000 20000 -8000|3 3 3 3 4 3\n\
        K = 0|256 0 0 0|20000 20000 -8000|3 3 3 3 4 3\n\
        K = 1|256 0 1 0|20000 20000 -8000|3 3 3 3 4 3\n\
        K = 1000|256 0 1000 0|20000 20000 -8000|3 3 3 3 4 3\n\
        K = 1001|256 0 1001 0|20000 20000 -8000|3 3 3 3 4 3\n\
        K = 4000|256 0 4000 0|20000 20000 -8000|3 3 3 3 4 3\n\
        K = 4001|256 0 4001 0|20000 20000 -8000|3 3 3 3 4 3\n\
        slow, K = 1000|1 0 1000 0|19000 -3000 -2|3 3 3 3 4 3\n\
        slow, K = 4000|1 0 4000 0|19000 -3000 -2|3 3 3 3 4 3\n\
        never settled, K = 1000|65535 1000 1000 0|-19000 -19000 -26407|3 3 3 3 4 3\n\
        never settled, K = 4000|65535 1000 4000 0|-19000 -19000 -26407|3 3 3 3 4 3\n\
        X just below the total|256 0 2 1073741823|0 0 0|3 3 3 3 4 3\n\
        X the total|256 0 2 1073741824|0 0 0|3 3 3 3 4 3\n\
        a total of 2^32, X = 0|512 0 1 0|32767 32767 32767|3 3 3 3 4 3\n\
        a total of 2^32, X = 2^32 - 1|512 0 1 4294967295|32767 32767 32767|3 3 3 3 4 3\n",
        Example::Decoding(b'C'),
    );
}

// In the first iteration c is -W times the cost, by d = 1024 - A: numerators around U d, from which on the limit is known.
fn limit() {
    title(b"decoder, around the limit");
    each(
        b"d = 1, U d - 1, U d, U d + 1|1 1023 1 0|16383 16384 16385|3 3 3 3 4 3\n\
        d = 1, the same below 0|1 1023 1 0|-16383 -16384 -16385|3 3 3 3 4 3\n\
        d = 2, U d - 3, U d - 2, U d - 1|1 1022 1 0|32765 32766 32767|3 3 3 3 4 3\n\
        d = 2, the same below 0|1 1022 1 0|-32765 -32766 -32767|3 3 3 3 4 3\n\
        d = 2, U d - 2, U d, U d + 2|2 1022 1 0|16383 16384 16385|3 3 3 3 4 3\n\
        d = 3, U d - 2, U d, U d + 2|2 1021 1 0|24575 24576 24577|3 3 3 3 4 3\n\
        d = 3, U d - 1, U d + 22, U d - 1 below 0|23 1021 1 0|2137 2138 -2137|3 3 3 3 4 3\n\
        d = 1024, (U - 1) d, (U - 1/2) d, the same below 0|512 0 1 0|32766 32767 -32767|3 3 3 3 4 3\n\
        d = 1024, (U - 1) d, U d, (U + 1) d|1024 0 1 0|16383 16384 16385|3 3 3 3 4 3\n",
        Example::Decoding(b'C'),
    );
}

fn refused() {
    each(
        b"two costs|256 0 2 0|1 2|3 3 3 3 4 3\n\
        four costs|256 0 2 0|1 2 3 4|3 3 3 3 4 3\n\
        a cost of -32768|256 0 2 0|1 2 -32768|3 3 3 3 4 3\n\
        a cost of -32767|256 0 2 0|1 2 -32767|3 3 3 3 4 3\n\
        11 before 12|0 0 2 0|1 2|3 3 3 3 4 3\n\
        11 before 13|0 0 2 0|1 2 -32768|3 3 3 3 4 3\n\
        12 before 13|256 0 2 0|1 -32768|3 3 3 3 4 3\n\
        11 before 10|0 0 2 0|1 2 3|2 2 2 2 3 2\n\
        12 before 10|256 0 2 0|1 2|2 2 2 2 3 2\n\
        13 before 10|256 0 2 0|1 2 -32768|2 2 2 2 3 2\n",
        Example::Decoding(b'C'),
    );
    each(
        b"2 before 11, 12, 13 and 10|0 0 2 0|1 -32768|2 2 2 2 3 2\n",
        Example::Decoding(b'X'),
    );
    each(
        b"longer lists|256 0 2 0|20000 20000 20000|4 5 4 5 5 4\n\
        triples short|256 0 2 0|20000 20000 20000|2 3 3 3 4 3\n\
        counts short|256 0 2 0|20000 20000 20000|3 2 3 3 4 3\n\
        S short|256 0 2 0|20000 20000 20000|3 3 2 3 4 3\n\
        c short|256 0 2 0|20000 20000 20000|3 3 3 2 4 3\n\
        s short|256 0 2 0|20000 20000 20000|3 3 3 3 3 3\n\
        word short|256 0 2 0|20000 20000 20000|3 3 3 3 4 2\n",
        Example::Decoding(b'C'),
    );
}

pub fn run() {
    accepted();
    limit();
    refused();
}
