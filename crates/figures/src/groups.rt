// The decoder of a group on the code of three bits with the check (0,1,2): groups whose frames stop apart or have a false cost, the edges of the number of
// frames, the causes and the lengths. A line has W, A, K and X, a letter for each frame, and the number of frames with the lengths of the lists for triples,
// counts, S, c, s, the word and the work.
use examples::{Example, each, title};

fn accepted() {
    title(b"groups of frames, into lists that held nines");
    each(
        b"one frame|256 0 2 0|h|1 3 3 3 3 4 3 88\n\
        two frames|256 0 2 0|ho|2 3 3 6 6 8 6 88\n\
        the three frames of the listing|256 0 2 0|zho|3 3 3 9 9 12 9 88\n\
        the same from the last|256 0 2 0|ohz|3 3 3 9 9 12 9 88\n\
        four frames|256 0 2 0|zhoz|4 3 3 12 12 16 12 88\n\
        a false cost among them|256 0 2 0|zfho|4 3 3 12 12 16 12 88\n\
        a false cost first|256 0 2 0|fzho|4 3 3 12 12 16 12 88\n\
        a false cost last|256 0 2 0|zhof|4 3 3 12 12 16 12 88\n\
        two false costs|256 0 2 0|fhfo|4 3 3 12 12 16 12 88\n\
        all costs false|256 0 2 0|ff|2 3 3 6 6 8 6 88\n\
        longer lists|256 0 2 0|zho|3 4 4 16 16 16 16 128\n\
        three frames, K = 1|256 0 1 0|zho|3 3 3 9 9 12 9 88\n\
        three frames, K = 4000, they settle apart|256 0 4000 0|zho|3 3 3 9 9 12 9 88\n\
        four frames, K = 4000, two settle together|256 0 4000 0|ohzo|4 3 3 12 12 16 12 88\n\
        X the total of the first frame|256 0 2 1073741824|zho|3 3 3 9 9 12 9 88\n\
        of four frames, X the total of the first|256 0 2 1073741824|zhoh|4 3 3 12 12 16 12 88\n",
        Example::Grouping,
    );
}

fn refused() {
    each(
        b"no frames|256 0 2 0||0 3 3 3 3 4 3 88\n\
        nine frames|256 0 2 0|zhozhozh|9 3 3 16 16 16 16 128\n\
        five frames in the work of four|256 0 2 0|zhozh|5 3 3 15 15 16 15 128\n\
        11 before 21|0 0 2 0||0 3 3 3 3 4 3 88\n\
        21 before 12|256 0 2 0|h|0 3 3 3 3 4 3 88\n\
        12, a frame too few|256 0 2 0|zh|3 3 3 9 9 12 9 88\n\
        12, a frame too many|256 0 2 0|zhoz|3 3 3 9 9 12 9 88\n\
        12 before 10|256 0 2 0|zh|3 0 0 0 0 0 0 0\n\
        10, also where a cost is false|256 0 2 0|fff|3 3 3 9 9 12 8 88\n\
        triples short|256 0 2 0|zho|3 2 3 9 9 12 9 88\n\
        counts short|256 0 2 0|zho|3 3 2 9 9 12 9 88\n\
        S short|256 0 2 0|zho|3 3 3 8 9 12 9 88\n\
        c short|256 0 2 0|zho|3 3 3 9 8 12 9 88\n\
        s short|256 0 2 0|zho|3 3 3 9 9 11 9 88\n\
        word short|256 0 2 0|zho|3 3 3 9 9 12 8 88\n\
        work short|256 0 2 0|zho|3 3 3 9 9 12 9 87\n",
        Example::Grouping,
    );
}

pub fn run() {
    accepted();
    refused();
}
