// The splitting: the queue's triples and the counts, what a longer list keeps, and the causes. A line has a code and the lengths of
// the lists.
use examples::{Example, each, title};

pub fn run() {
    title(b"splitting, into lists that held nines");
    each(
        b"n = 3|LH\0\x03\0\x01LC\x03\0\0\0\x01\0\x02|14 9\n\
        n = 4|LH\0\x04\0\x01LC\x04\0\0\0\x01\0\x02\0\x03|14 9\n\
        n = 5|LH\0\x05\0\x01LC\x05\0\0\0\x01\0\x02\0\x03\0\x04|14 9\n\
        n = 6|LH\0\x06\0\x01LC\x06\0\0\0\x01\0\x02\0\x03\0\x04\0\x05|14 9\n\
        two checks of degree 4|LH\0\x05\0\x02LC\x04\0\0\0\x01\0\x02\0\x03LC\x04\0\0\0\x02\0\x03\0\x04|14 9\n\
        just room|LH\0\x04\0\x01LC\x04\0\0\0\x01\0\x02\0\x03|6 5\n\
        triples short|LH\0\x04\0\x01LC\x04\0\0\0\x01\0\x02\0\x03|5 5\n\
        counts short|LH\0\x04\0\x01LC\x04\0\0\0\x01\0\x02\0\x03|6 4\n\
        1 before 10|LH\0\x03\0\x01|1 1\n\
        2 before 10|LH\0\x03\0\x01LX\x03\0\0\0\x01\0\x02|1 1\n\
        3 before 10|LH\0\x02\0\x01LC\x03\0\0\0\x01\0\x02|1 1\n\
        4 before 10|LH\0\x03\0\x01LC\x01\0\0|1 1\n\
        5 before 10|LH\0\x03\0\x01LC\x03\0\0\0\x01\0\x03|1 1\n\
        6 before 10|LH\0\x03\0\x01LC\x03\0\0\0\x01\0\x01|1 1\n\
        8 before 10|LH\0\x04\0\x01LC\x03\0\0\0\x01\0\x02|1 1\n\
        9 before 10|LH\0\x03\0\x01LC\x03\0\0\0\x01\0\x02\0|1 1\n",
        Example::Splitting,
    );
    each(
        b"7 before 10|LC\x03\0\0\0\x01\0\x02|1 1\n",
        Example::SplittingMany,
    );
}
