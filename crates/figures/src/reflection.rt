// The reflector and the sum of two words: results, causes and their order, and lengths. A line has costs and a word, or two words, and the length of the
// result. Then chains of two reflections: a line has costs and two words.
use examples::{Example, each, title};

fn reflector() {
    title(b"reflector, into a list that held nines");
    each(
        b"011|20000 20000 -8000|\0\x01\x01|3\n\
        the largest costs, a longer list|32767 -32767 32767 -32767 0|\x01\x01\0\0\x01|7\n\
        length 0|||0\n\
        length 0, a longer list|||2\n\
        a word too short|1 2 3|\0\x01|3\n\
        a word too long|1 2 3|\0\x01\0\x01|4\n\
        -32768 under a 1|1 -32768|\0\x01|2\n\
        -32768 under a 0|1 -32768|\0\0|2\n\
        an entry 2|1 2|\0\x02|2\n\
        an entry 255|1 2|\xff\0|2\n\
        a short list|1 2|\0\x01|1\n\
        12 before 13|1 -32768|\0|2\n\
        12 before 15|1 2|\x02|2\n\
        12 before 10|1 2|\0|1\n\
        13 before 15|1 -32768|\x02\0|2\n\
        13 before 10|1 -32768|\0\x01|1\n\
        15 before 10|1 2|\0\x02|1\n",
        Example::Reflecting,
    );
}

fn sums() {
    title(b"sum of two words, into a list that held nines");
    each(
        b"1011 and 0110|\x01\0\x01\x01|\0\x01\x01\0|4\n\
        0110 and 1011|\0\x01\x01\0|\x01\0\x01\x01|4\n\
        a word and the zero word|\x01\0\x01\x01|\0\0\0\0|4\n\
        a word and itself|\x01\0\x01\x01|\x01\0\x01\x01|4\n\
        a longer list|\x01\0\x01\x01|\0\x01\x01\0|6\n\
        length 0|||0\n\
        length 0, a longer list|||2\n\
        the other word too short|\0\x01\0|\0\x01|3\n\
        the other word too long|\0\x01|\0\x01\0|3\n\
        an entry 2|\0\x02|\0\x01|2\n\
        an entry 2 in the other word|\0\x01|\0\x02|2\n\
        an entry 255 in both|\xff\x01|\xff\x01|2\n\
        a short list|\0\x01|\x01\x01|1\n\
        12 before 15|\0\x02|\0|2\n\
        12 before 10|\0\x01|\0|1\n\
        15 before 10|\0\x01|\x02\0|1\n",
        Example::Adding,
    );
}

fn chains() {
    title(b"two reflections, the sum of both words, and one reflection by it");
    each(
        b"1011, then 0110|5 -7 0 32767|\x01\0\x01\x01|\0\x01\x01\0\n\
        0110, then 1011|5 -7 0 32767|\0\x01\x01\0|\x01\0\x01\x01\n\
        a word, then the zero word|5 -7 0 32767|\x01\0\x01\x01|\0\0\0\0\n\
        the same word twice|5 -7 0 -32767|\x01\x01\x01\x01|\x01\x01\x01\x01\n\
        no costs|||\n\
        the second word too short|5 -7 0|\x01\0\x01|\0\x01\n\
        the second word with an entry 2|5 -7 0|\x01\0\x01|\0\x01\x02\n",
        Example::Chaining,
    );
}

pub fn run() {
    reflector();
    sums();
    chains();
}
