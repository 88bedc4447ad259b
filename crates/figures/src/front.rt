// The channel front: products and their rounding, each kind of setting, the causes and their order. Floats are written by their bits:
// 3f800000 is 1.0, 3f000000 a half, 00000001 is 2^-149, the least above 0, and 7f000000 is 2^127, twice which is infinite, 7f800000; 7fc00000
// is NaN. The bit above these, 80000000, is the sign. A line has a scale, a weight, or a floor and a weight, then samples and the length of the costs.
use examples::{Example, each, title};

fn costs() {
    title(b"channel, into a list that held nines");
    each(
        b"Gaussian: 2^-127 and 2^-149 by 2^127|7f000000|00400000 80400000 00000001 80000001|4\n\
        Gaussian: -0.0 and 0.0|3f800000|80000000 00000000|2\n\
        Gaussian: an infinite product|40000000|7f000000 ff000000|2\n\
        Gaussian: just below a half, and a half|3f800000|3effffff beffffff 3f000000 bf000000|4\n\
        Gaussian: a half as product|3e800000|40000000 c0000000 40c00000 c0c00000|4\n\
        Gaussian: 32767.5, 32766.5 and just below each|3f800000|46ffff00 c6ffff00 46fffeff 46fffd00 c6fffd00 46fffcff|6\n",
        Example::Gaussian,
    );
    each(
        b"hard: above, below and at zero|42c80000|40000000 c0400000 00000000 80000000 00000001 80000001|6\n\
        hard: a weight just below a half|3effffff|40000000 c0400000|2\n\
        hard: a weight of a half|3f000000|40000000 c0400000|2\n\
        hard: a large weight|471c4000|40000000 c0400000|2\n",
        Example::Hard,
    );
    each(
        b"erasing: floor -0.0|80000000 42c80000|00000001 80000001 00000000 80000000|4\n\
        erasing: floor 0.0|00000000 42c80000|00000001 80000001 00000000 80000000|4\n\
        erasing: floor 2.0, at it and just below|40000000 42c80000|40000000 c0000000 3fffffff bfffffff|4\n",
        Example::Erasing,
    );
}

fn settings() {
    each(
        b"0.0 as scale|00000000|3f800000|1\n\
        0.0 as scale, no sample|00000000||1\n\
        -0.0 as scale|80000000|3f800000|1\n\
        -0.0 as scale, no sample|80000000||1\n\
        -1.0 as scale|bf800000|3f800000|1\n\
        -1.0 as scale, no sample|bf800000||1\n\
        NaN as scale|7fc00000|3f800000|1\n\
        NaN as scale, no sample|7fc00000||1\n\
        infinity as scale|7f800000|3f800000|1\n\
        infinity as scale, no sample|7f800000||1\n",
        Example::Gaussian,
    );
    each(
        b"0.0 as weight|00000000|3f800000|1\n\
        -0.0 as weight|80000000|3f800000|1\n\
        -1.0 as weight|bf800000|3f800000|1\n\
        NaN as weight|7fc00000|3f800000|1\n\
        infinity as weight|7f800000|3f800000|1\n",
        Example::Hard,
    );
    each(
        b"0.0 as weight beside a floor|3f800000 00000000|3f800000|1\n\
        -0.0 as weight beside a floor|3f800000 80000000|3f800000|1\n\
        -1.0 as weight beside a floor|3f800000 bf800000|3f800000|1\n\
        NaN as weight beside a floor|3f800000 7fc00000|3f800000|1\n\
        infinity as weight beside a floor|3f800000 7f800000|3f800000|1\n\
        -1.0 as floor|bf800000 3f800000|3f800000|1\n\
        -1.0 as floor, no sample|bf800000 3f800000||1\n\
        -2^-149 as floor|80000001 3f800000|3f800000|1\n\
        -2^-149 as floor, no sample|80000001 3f800000||1\n\
        NaN as floor|7fc00000 3f800000|3f800000|1\n\
        NaN as floor, no sample|7fc00000 3f800000||1\n\
        infinity as floor|7f800000 3f800000|3f800000|1\n\
        infinity as floor, no sample|7f800000 3f800000||1\n",
        Example::Erasing,
    );
}

// A sample that is not finite, behind one that is.
fn samples() {
    each(
        b"NaN as sample, Gaussian|3f800000|3f800000 7fc00000|2\n\
        infinity as sample, Gaussian|3f800000|3f800000 7f800000|2\n\
        minus infinity as sample, Gaussian|3f800000|3f800000 ff800000|2\n",
        Example::Gaussian,
    );
    each(
        b"NaN as sample, hard|3f800000|3f800000 7fc00000|2\n\
        infinity as sample, hard|3f800000|3f800000 7f800000|2\n\
        minus infinity as sample, hard|3f800000|3f800000 ff800000|2\n",
        Example::Hard,
    );
    each(
        b"NaN as sample, a large floor|7f000000 3f800000|3f800000 7fc00000|2\n\
        infinity as sample, a large floor|7f000000 3f800000|3f800000 7f800000|2\n\
        minus infinity as sample, a large floor|7f000000 3f800000|3f800000 ff800000|2\n",
        Example::Erasing,
    );
}

fn order_and_lengths() {
    each(
        b"11 before 14|00000000|7fc00000|1\n\
        11 before 10|00000000|3f800000|0\n\
        14 before 10|3f800000|7fc00000|0\n",
        Example::Hard,
    );
    each(
        b"a short list|3f800000|3f800000 c0000000|1\n\
        just room|3f800000|3f800000 c0000000|2\n\
        a longer list|3f800000|3f800000 c0000000|4\n\
        no sample|3f800000||0\n",
        Example::Gaussian,
    );
    each(b"no sample, a longer list|3f800000||2\n", Example::Hard);
}

pub fn run() {
    costs();
    settings();
    samples();
    order_and_lengths();
}
