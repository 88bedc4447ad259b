// c of all variables in all lanes of a group. Variables in 2 to 8 triples are divided by 32-bit factors; the others as in a single
// run, one lane after the other.
#![tactic(auto)]

ghost use Rattle.std.specs.Prelude.{true, [], ◌∷◌, ◌≡◌, ℕ, ◌+◌, ◌-◌, ◌*◌, ◌^◌, ◌≤◌, ◌<◌, ℤ, pos, nat_abs, ◌+ℤ◌, ◌*ℤ◌, length, ◌≤ℤ◌};
ghost use Rattle.quotient.specs.Quotient.{unit};
ghost use Rattle.model.specs.Limits.{most_checks, most_weight, most_ratio, most_cost, most_numerator};
ghost use Rattle.model.specs.Iteration.{at, divisor};
ghost use Rattle.lanes.specs.Lanes.{sums_at, Fits, SumsKept, most_narrow};
ghost use Rattle.lane_values.specs.Stored.{Parts, Stored};
ghost use Rattle.lane_values.specs.Valued.{NarrowTables, Same, Counted, WeighedWithin, LaneValued};
ghost use Rattle.lane_values.specs.Places.{whole, wide_value, narrow_value, auxiliary_value, wide_parts, bit_parts, auxiliary_parts, bit_value, Entries};

use lanes::{MOST_NARROW, Plan};
use quotient::Narrow;

// So many counts are compared at once.
const BLOCK: usize = 64;

// "256 × e − A", for a variable in `count` triples. Not the function of `values`: here the range of a narrow divisor is promised too.
fn divisor(count: usize, ratio: u32) -> i64
    requires { (2 ≤ count) × (count ≤ most_narrow) × (ratio ≤ most_ratio) }
    ensures value { result ≡ divisor (4 * count) ratio }
    ensures narrow { (pos 1025 ≤ℤ result) × (result ≤ℤ pos 8192) }
{
    (1024 * count) as i64 - i64::from(ratio)
}

// The divisors of a ratio, made ready: those of 2 to 8 triples by their number, and those of any number, of which a clause sees the ratio.
#[derive(Drop)]
pub struct Divisors {
    pub narrow: [Narrow; 9],
    pub any: values::Divisors,
    pub ghost narrow_for: { NarrowTables any narrow },
}

impl Divisors {
    pub fn new(ratio: u32) -> Self
        requires { ratio ≤ most_ratio }
        ensures { result.any ≡ ratio }
    {
        let mut narrow = [Narrow::new(divisor(2, ratio)); 9];
        for count in 2..9 {
            narrow[count] = Narrow::new(divisor(count, ratio));
        }
        Divisors {
            narrow,
            any: values::Divisors::new(ratio),
        }
    }
}

// The entries from..to of all lanes, counted from where each part begins: c of bits in equally many triples, 2 to 8. What comes next is cleared.
fn write_narrow(
    work: &mut [i32],
    weighed: usize,
    sums: usize,
    values: usize,
    next: usize,
    from: usize,
    to: usize,
    narrow: Narrow,
)
    requires from_le_to { (from ≤ to) × Parts to (length work.old) (values ∷ next ∷ sums ∷ weighed ∷ []) }
    requires in_range { (i : ℕ) → from ≤ i → i < to
        → (nat_abs (at work.old (sums + i)) ≤ 2 ^ 31 - 2 ^ 24) × (nat_abs (at work.old (weighed + i)) ≤ most_weight * most_cost) }
    ensures { Stored 2 (values ∷ next ∷ sums ∷ weighed ∷ []) (narrow_value work.old sums weighed narrow) from to
        work.old work.new }
{
    for i in from..to {
        let s = work[sums + i];
        let w = work[weighed + i];
        work[values + i] = narrow.divide(s, w);
        work[next + i] = 0;
    }
}

// The same of auxiliaries, which have no cost. Apart, since what is read and how it is divided differ, and only the loop is the same.
fn write_auxiliaries(
    work: &mut [i32],
    sums: usize,
    values: usize,
    next: usize,
    from: usize,
    to: usize,
    narrow: Narrow,
)
    requires from_le_to { (from ≤ to) × Parts to (length work.old) (values ∷ next ∷ sums ∷ []) }
    requires in_range { (i : ℕ) → from ≤ i → i < to → nat_abs (at work.old (sums + i)) ≤ 2 ^ 31 - 2 ^ 24 }
    ensures { Stored 2 (values ∷ next ∷ sums ∷ []) (auxiliary_value work.old sums narrow) from to work.old work.new }
{
    for i in from..to {
        let s = work[sums + i];
        work[values + i] = narrow.divide_alone(s);
        work[next + i] = 0;
    }
}

// "256 × S + W × L", of the two parts of S. By `as`: with `From` the check does not find that the sum fits.
fn weighed_whole(low: i32, high: i32, weighed: i32) -> i64
    ensures { result ≡ pos 256 *ℤ (low +ℤ pos (2 ^ 14) *ℤ high) +ℤ weighed }
{
    256 * ((low as i64) + 16384 * (high as i64)) + (weighed as i64)
}

// A value, raised by U.
fn raised(c: i16) -> i32
    ensures { result ≡ c +ℤ pos unit }
{
    i32::from(c) + 16384
}

// The same of bits in any number of triples, whose sums have two parts: the high ones stand `apart` behind the low ones.
fn write_wide(
    work: &mut [i32],
    weighed: usize,
    sums: usize,
    values: usize,
    next: usize,
    apart: usize,
    from: usize,
    to: usize,
    count: usize,
    divisors: &values::Divisors,
)
    requires from_le_to { (from ≤ to) × Parts to (length work.old) (wide_parts values next sums apart weighed) }
    requires in_range { (i : ℕ) → from ≤ i → i < to → nat_abs (whole work.old sums (sums + apart) weighed i) ≤ most_numerator }
    requires count { (1 ≤ count) × (count ≤ most_checks) }
    ensures { Stored 3 (wide_parts values next sums apart weighed)
        (wide_value work.old sums (sums + apart) weighed (divisor (4 * count) divisors.now)) from to work.old work.new }
{
    for i in from..to {
        let x = weighed_whole(work[sums + i], work[sums + apart + i], work[weighed + i]);
        work[values + i] = raised(divisors.divide(x, count));
        work[next + i] = 0;
        work[next + apart + i] = 0;
    }
}

// Whether the variables from..to are in as many triples as v. All are looked at, so that the compiler compares several at once.
fn all_as(counts: &[u16], v: usize, from: usize, to: usize) -> bool
    requires { (v < length counts.now) × (from ≤ to) × (to ≤ length counts.now) }
    ensures { result ≡ true → Same counts.now v from to }
{
    let mut same = true;
    for u in from..to {
        same = same & (counts[u] == counts[v]);
    }
    same
}

// Where a block from u on ends.
fn block_end(u: usize, end: usize) -> usize
    requires { u ≤ end }
    ensures { (u ≤ result) × (result ≤ end) × (u < end → u < result) }
{
    if end - u < BLOCK { end } else { u + BLOCK }
}

// From v on, before `end`, the blocks of variables that are all in as many triples as v: where they end.
fn same_blocks(counts: &[u16], v: usize, end: usize) -> usize
    requires { (v < end) × (end ≤ length counts.now) }
    ensures { (v < result) × (result ≤ end) × Same counts.now v v result }
{
    // A `while`: where a block ends is wanted besides where the next one begins.
    let mut u = v + 1;
    while u < end {
        let e = block_end(u, end);
        if !all_as(counts, v, u, e) {
            return u;
        }
        u = e;
    }
    end
}

// Where the variables from v on, before `end`, that are in as many triples as v end.
fn same_until(counts: &[u16], v: usize, end: usize) -> usize
    requires { (v < end) × (end ≤ length counts.now) }
    ensures { (v < result) × (result ≤ end) × Same counts.now v v result }
{
    for u in same_blocks(counts, v, end)..end {
        if counts[u] != counts[v] {
            return u;
        }
    }
    end
}

// The variables from v to `end`, which are bits and in equally many triples. The plan, the list of sums and the work list go
// apart: the loops above want a slice and numbers.
fn write_bits(
    counts: &[u16],
    divisors: &Divisors,
    p: Plan,
    i: usize,
    v: usize,
    end: usize,
    work: &mut [i32],
)
    requires fits { Fits p work.old × (i ≤ 1) × Counted p counts.now }
    requires v_lt_end { (v < end) × (end ≤ p.bits) × Same counts.now v v end }
    requires entries { Entries p counts.now i work.old (p.lanes * v) (p.lanes * end) }
    ensures { Stored 3 (bit_parts p i) (bit_value p counts.now divisors.now.any i work.old) (p.lanes * v) (p.lanes * end)
        work.old work.new }
{
    let count = usize::from(counts[v]);
    let weighed = p.weighed_at();
    let sums = p.sums_at(i);
    let values = p.values_at();
    let next = p.sums_at(1 - i);
    let from = p.lanes * v;
    let to = p.lanes * end;
    if (1 < count) & (count <= MOST_NARROW) {
        write_narrow(
            work,
            weighed,
            sums,
            values,
            next,
            from,
            to,
            divisors.narrow[count],
        );
    } else {
        write_wide(
            work,
            weighed,
            sums,
            values,
            next,
            p.lanes * p.variables,
            from,
            to,
            count,
            &divisors.any,
        );
    }
}

// All bits, those in equally many triples that follow one another together.
fn write_all_bits(counts: &[u16], divisors: &Divisors, p: Plan, i: usize, work: &mut [i32])
    requires fits { Fits p work.old × (i ≤ 1) × Counted p counts.now }
    requires entries { Entries p counts.now i work.old 0 (p.lanes * p.bits) }
    ensures { Stored 3 (bit_parts p i) (bit_value p counts.now divisors.now.any i work.old) 0 (p.lanes * p.bits)
        work.old work.new }
{
    // A `while`: it steps from one count to the next.
    let mut v = 0;
    while v < p.bits {
        let end = same_until(counts, v, p.bits);
        write_bits(counts, divisors, p, i, v, end, work);
        v = end;
    }
}

// All auxiliaries. Each is in two triples; the count is read from the list all the same, for the sake of the compiled loop.
fn write_all_auxiliaries(counts: &[u16], divisors: &Divisors, p: Plan, i: usize, work: &mut [i32])
    requires fits { Fits p work.old × (i ≤ 1) × Counted p counts.now }
    requires in_range { (k : ℕ) → p.lanes * p.bits ≤ k → k < p.lanes * p.variables
        → nat_abs (at work.old (p.lanes * sums_at p i + k)) ≤ 2 ^ 31 - 2 ^ 24 }
    ensures { Stored 2 (auxiliary_parts p i) (auxiliary_value work.old (p.lanes * sums_at p i) (divisor (4 * 2) divisors.now.any))
        (p.lanes * p.bits) (p.lanes * p.variables) work.old work.new }
{
    let first = p.bits;
    if first < p.variables {
        let count = usize::from(counts[first]);
        write_auxiliaries(
            work,
            p.sums_at(i),
            p.values_at(),
            p.sums_at(1 - i),
            p.lanes * first,
            p.lanes * p.variables,
            divisors.narrow[count],
        );
    }
}

// "First every c is renewed": from list i of the sums, in all lanes; the other list is cleared. The bits, then the auxiliaries.
pub fn write_values(counts: &[u16], divisors: &Divisors, p: Plan, i: usize, work: &mut [i32])
    requires fits { Fits p work.old × (i ≤ 1) × Counted p counts.now }
    requires within { (l : ℕ) → l < p.lanes
        → SumsKept p counts.now 0 work.old l × SumsKept p counts.now 1 work.old l × WeighedWithin p work.old l }
    ensures fits { Fits p work.new }
    ensures valued { (l : ℕ) → l < p.lanes → LaneValued p counts.now divisors.now.any i work.old work.new l }
{
    write_all_bits(counts, divisors, p, i, work);
    write_all_auxiliaries(counts, divisors, p, i, work);
}
