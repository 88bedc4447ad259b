// The reader: each cause, each order between two causes that can meet, and the edges of the ranges.
use examples::{Example, each, title};

fn causes() {
    title(b"reader: each cause");
    each(
        b"accepted|LH\0\x03\0\x01LC\x03\0\0\0\x01\0\x02\n\
        no byte|\n\
        half a mark|L\n\
        n cut|LH\0\n\
        m cut|LH\0\x03\0\n\
        no check|LH\0\x03\0\x01\n\
        no degree|LH\0\x03\0\x01LC\n\
        index cut|LH\0\x03\0\x01LC\x03\0\0\0\n\
        one check of two|LH\0\x03\0\x02LC\x03\0\0\0\x01\0\x02\n\
        another mark for the header|LX\0\x03\0\x01LC\x03\0\0\0\x01\0\x02\n\
        another mark for a check|LH\0\x03\0\x01LX\x03\0\0\0\x01\0\x02\n\
        n = 0|LH\0\0\0\x01\n\
        m = 0|LH\0\x03\0\0\n\
        degree 0|LH\0\x03\0\x01LC\0\n\
        index n|LH\0\x03\0\x01LC\x03\0\0\0\x01\0\x03\n\
        equal index|LH\0\x03\0\x01LC\x03\0\0\0\x01\0\x01\n\
        lower index|LH\0\x03\0\x01LC\x03\0\x01\0\0\0\x02\n\
        bit 3 in no check|LH\0\x04\0\x01LC\x03\0\0\0\x01\0\x02\n\
        a byte after the last check|LH\0\x03\0\x01LC\x03\0\0\0\x01\0\x02\0\n",
        Example::Reading,
    );
}

fn order() {
    title(b"reader: the first of two causes that hold");
    each(
        b"1 before 2|X\n\
        1 before 8|LH\0\x04\0\x01LC\x03\0\0\n\
        2 before 1|LX\n\
        2 before 3|LX\0\x02\n\
        2 before 4|LH\0\x03\0\x01LX\x01\0\0\n\
        2 before 5|LH\0\x03\0\x01LX\x03\0\0\0\x01\0\x03\n\
        2 before 6|LH\0\x03\0\x01LX\x03\0\x01\0\0\0\x02\n\
        2 before 8|LH\0\x04\0\x01LX\x03\0\0\0\x01\0\x02\n\
        2 before 9|LH\0\x03\0\x01LX\x03\0\0\0\x01\0\x02\0\n\
        3 before 1|LH\0\x02\n\
        3 before 2|LH\0\x02\0\x01LX\x03\0\0\0\x01\0\x02\n\
        3 before 4|LH\0\x02\0\x01LC\x01\0\0\n\
        3 before 5|LH\0\x02\0\x01LC\x03\0\0\0\x01\0\x02\n\
        3 before 6|LH\0\x02\0\x01LC\x03\0\x01\0\0\0\x01\n\
        3 before 8|LH\0\x03\0\0\n\
        3 before 9|LH\0\x03\0\0LC\x03\0\0\0\x01\0\x02\n\
        4 before 1|LH\0\x03\0\x01LC\x01\n\
        4 before 2|LH\0\x03\0\x02LC\x01\0\0LX\x03\0\0\0\x01\0\x02\n\
        4 before 5|LH\0\x03\0\x01LC\x01\0\x03\n\
        4 before 6|LH\0\x03\0\x02LC\x01\0\0LC\x03\0\x01\0\0\0\x02\n\
        4 before 8|LH\0\x04\0\x01LC\x01\0\0\n\
        4 before 9|LH\0\x03\0\x01LC\x01\0\0\0\n\
        5 before 1|LH\0\x03\0\x01LC\x03\0\x03\n\
        5 before 2|LH\0\x03\0\x02LC\x03\0\0\0\x01\0\x03LX\x03\0\0\0\x01\0\x02\n\
        5 before 4|LH\0\x03\0\x02LC\x03\0\0\0\x01\0\x03LC\x01\0\0\n\
        5 before 6|LH\0\x03\0\x01LC\x03\0\x03\0\0\0\x01\n\
        5 before 8|LH\0\x04\0\x01LC\x03\0\0\0\x01\0\x04\n\
        5 before 9|LH\0\x03\0\x01LC\x03\0\0\0\x01\0\x03\0\n\
        6 before 1|LH\0\x03\0\x01LC\x03\0\x01\0\0\n\
        6 before 2|LH\0\x03\0\x02LC\x03\0\x01\0\0\0\x02LX\x03\0\0\0\x01\0\x02\n\
        6 before 4|LH\0\x03\0\x02LC\x03\0\x01\0\0\0\x02LC\x01\0\0\n\
        6 before 5|LH\0\x03\0\x01LC\x03\0\x01\0\0\0\x03\n\
        6 before 8|LH\0\x04\0\x01LC\x03\0\x01\0\0\0\x02\n\
        6 before 9|LH\0\x03\0\x01LC\x03\0\x01\0\0\0\x02\0\n\
        9 before 8|LH\0\x04\0\x01LC\x03\0\0\0\x01\0\x02\0\n",
        Example::Reading,
    );
}

fn many_triples() {
    each(
        b"1 before 7|LC\n\
        2 before 7|LX\n\
        4 before 7|LC\x01\n\
        5 before 7|LC\x03\0\x20\n\
        6 before 7|LC\x03\0\0\0\0\n\
        9 before 7|LC\x03\0\0\0\x01\0\x02\0\n",
        Example::ReadingMany(32),
    );
    each(
        b"3 before 7|LC\x03\0\0\0\x01\0\x02\n",
        Example::ReadingMany(4097),
    );
    each(
        b"7 before 8|LC\x03\0\0\0\x01\0\x02\n",
        Example::ReadingMany(33),
    );
}

fn edges() {
    title(b"reader: edges");
    each(
        b"degree 0|3 1 0 0\n\
        degree 1|3 1 1 0\n\
        degree 2|3 2 2 1\n\
        degree 3|3 1 3 0\n\
        degree 32|32 1 32 0\n\
        degree 33|33 1 33 0\n\
        n = 2|2 1 3 0\n\
        n = 3|3 1 3 0\n\
        n = 4096|4096 128 32 32\n\
        n = 4097|4097 128 32 32\n\
        m = 0|3 0 3 0\n\
        m = 1|3 1 3 0\n\
        m = 2048|3 2048 3 0\n\
        m = 2048, degree 2|2049 2048 2 1\n\
        m = 2049|3 2049 3 0\n",
        Example::Edge,
    );
    each(
        b"8192 triples|4\n\
        8193 triples|5\n\
        8190 and one of degree 2|2\n\
        8190 and two of degree 2|2 1\n\
        8190 and three of degree 2|2 2\n",
        Example::MostTriples,
    );
}

pub fn run() {
    causes();
    order();
    many_triples();
    edges();
}
