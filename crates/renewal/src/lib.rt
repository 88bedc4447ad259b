// The renewal of all rows, with the totals of its changes, on lists of exact length. Rows that may be renewed once more are taken, as they stand while a run goes.
#![tactic(auto)]

ghost use Rattle.std.specs.Prelude.{◌≡◌, true, ◌&&◌, ℕ, ◌+◌, ◌*◌, ◌%◌, ◌^◌, ◌≤◌, ◌<◌, leb, pos, negsuc, nat_abs, length};
ghost use Rattle.lists.specs.Tabulated.{tab};
ghost use Rattle.quotient.specs.Quotient.{unit};
ghost use Rattle.model.specs.Limits.{most_triples, most_done};
ghost use Rattle.model.specs.Causes.{◌if◌};
ghost use Rattle.model.specs.Splitting.{blank, member};
ghost use Rattle.model.specs.Iteration.{at, value_at, sum_at, renewed};
ghost use Rattle.model.specs.Run.{settled_by};
ghost use Rattle.model.specs.Bounds.{RowsWithin};
ghost use Rattle.rows.specs.Sides.{Rows, most_changes};
ghost use Rattle.layout.specs.Transposed.{cell, Fours, lane, stored, straight, Aligned};
ghost use Rattle.renewal.specs.InPlace.{Sized, Valued, without_blank, Known, Thirds, SmallRow, triple_changes, four_changes, renewed_four, renewed_all, Left, renewed_from, Renewed};

use model::BLANK;

// ---- values

// The blank's c, -U.
const BLANK_VALUE: i32 = -16384;

// Whether no triple has the blank. Known beforehand, it leaves the loops below without a test. All triples are looked at: with a return at the first blank
// the compiler makes those loops worse.
pub fn without_blank(triples: &[u16], count: usize) -> bool
    requires { (count ≤ most_triples) × (3 * count ≡ length triples.now) }
    ensures { result ≡ without_blank triples.now count }
{
    let mut without = true;
    for t in 0..count {
        without = without & (layout::variable(triples, t, 2) != BLANK);
    }
    without
}

// c at position p of triple t: a variable's, as may be known, or the blank's.
fn value_at(triples: &[u16], values: &[i16], t: usize, p: usize, known: bool) -> i32
    requires in_lists { (t < most_triples) × (p < 3) × (3 * t + 2 < length triples.now) × Valued triples.now values.now }
    requires no_blank { known ≡ true → member triples.now t p ≡ blank → ⊥ }
    ensures { (result ≡ value_at values.now (member triples.now t p)) × (nat_abs result ≤ unit) }
{
    let v = layout::variable(triples, t, p);
    if known | (v != BLANK) {
        i32::from(values[v])
    } else {
        BLANK_VALUE
    }
}

// c in third place, of the four triples from t on.
fn thirds(triples: &[u16], values: &[i16], t: usize, known: bool) -> [i32; 4]
    requires in_lists { (t + 4 ≤ most_triples) × (3 * t + 11 < length triples.now) }
    requires valued { Valued triples.now values.now }
    requires known { Known known triples.now }
    ensures { Thirds triples.now values.now t result }
{
    [
        value_at(triples, values, t, 2, known),
        value_at(triples, values, t + 1, 2, known),
        value_at(triples, values, t + 2, 2, known),
        value_at(triples, values, t + 3, 2, known),
    ]
}

// ---- one triple, and four

// The rows s of triple t, whose third c is given, renewed: "with the old p and new c".
fn renewed_with(triples: &[u16], values: &[i16], t: usize, c: i32, s: [i32; 4]) -> [i32; 4]
    requires in_lists { (t < most_triples) × (3 * t + 2 < length triples.now) }
    requires valued { Valued triples.now values.now }
    requires rows { Rows s }
    requires third_known { (c ≡ value_at values.now (member triples.now t 2)) × (nat_abs c ≤ unit) }
    ensures { result ≡ tab 4 (λ r. renewed (at s r) (sum_at triples.now values.now t r)) }
{
    let a = value_at(triples, values, t, 0, true);
    let b = value_at(triples, values, t, 1, true);
    rows::renewed_rows(s, rows::row_sums(a, b, c))
}

// The rows s of triple t, renewed.
fn renewed_triple(triples: &[u16], values: &[i16], t: usize, s: [i32; 4]) -> [i32; 4]
    requires in_lists { (t < most_triples) × (3 * t + 2 < length triples.now) }
    requires valued { Valued triples.now values.now }
    requires rows { Rows s }
    ensures { result ≡ tab 4 (λ r. renewed (at s r) (sum_at triples.now values.now t r)) }
{
    let c = value_at(triples, values, t, 2, false);
    renewed_with(triples, values, t, c, s)
}

// The rows s of the four triples from t on, whose third c are given, renewed.
fn renewed_four(
    triples: &[u16],
    values: &[i16],
    t: usize,
    c: [i32; 4],
    s: [[i32; 4]; 4],
) -> [[i32; 4]; 4]
    requires in_lists { (t + 4 ≤ most_triples) × (3 * t + 11 < length triples.now) }
    requires valued { Valued triples.now values.now }
    requires fours { Fours s }
    requires thirds { Thirds triples.now values.now t c }
    ensures { result ≡ tab 4 (λ k. tab 4 (λ r. renewed (cell s k r) (sum_at triples.now values.now (t + k) r))) }
{
    [
        renewed_with(triples, values, t, c[0], s[0]),
        renewed_with(triples, values, t + 1, c[1], s[1]),
        renewed_with(triples, values, t + 2, c[2], s[2]),
        renewed_with(triples, values, t + 3, c[3], s[3]),
    ]
}

// The rows of four triples, before they were renewed and after.
#[derive(Drop)]
struct Four {
    old: [[i32; 4]; 4],
    new: [[i32; 4]; 4],
}

// The four triples from t on, whose third c are given, are renewed. With the tests of a blank in it the
// compiler would not inline it, and would not work the four out side by side.
fn renew_four(triples: &[u16], values: &[i16], c: [i32; 4], rows: &mut [i32], t: usize) -> Four
    requires in_lists { (t + 4 ≤ most_triples) × (3 * t + 11 < length triples.now) × (4 * t + 15 < length rows.old) }
    requires valued { Valued triples.now values.now }
    requires small { (i : ℕ) → 4 * t ≤ i → SmallRow (at rows.old i) }
    requires thirds { Thirds triples.now values.now t c }
    ensures old_loaded { result.old ≡ tab 4 (lane rows.old t) }
    ensures new_renewed { result.new ≡ renewed_four triples.now rows.old values.now t }
    ensures rows_after { rows.new
        ≡ stored rows.old t (renewed_four triples.now rows.old values.now t) }
{
    let old = layout::load_four(rows, t);
    let new = renewed_four(triples, values, t, c, old);
    layout::store_four(rows, t, new);
    Four { old, new }
}

// ---- the totals

// The squares of the changes, added up: of the multipliers, and of the slacks.
#[derive(Drop)]
struct Totals {
    multipliers: u64,
    slacks: u64,
}

// The totals with one triple more.
fn with_triple(totals: Totals, old: [i32; 4], new: [i32; 4]) -> Totals
    requires totals_fit { (totals.multipliers ≤ 2 ^ 63) × (totals.slacks ≤ 2 ^ 63) }
    requires rows { Rows old × Rows new }
    ensures changes_added { (result.multipliers ≡ totals.multipliers + triple_changes (pos 1) old new)
        × (result.slacks ≡ totals.slacks + triple_changes (negsuc 0) old new) }
    ensures most_added { (result.multipliers ≤ totals.multipliers + most_changes) × (result.slacks ≤ totals.slacks + most_changes) }
{
    Totals {
        multipliers: totals.multipliers + rows::changes(old, new, 1),
        slacks: totals.slacks + rows::changes(old, new, -1),
    }
}

// The totals with four triples more.
fn with_four(totals: Totals, old: [[i32; 4]; 4], new: [[i32; 4]; 4]) -> Totals
    requires totals_fit { (totals.multipliers ≤ 2 ^ 62) × (totals.slacks ≤ 2 ^ 62) }
    requires fours { Fours old × Fours new }
    ensures { (result.multipliers ≡ totals.multipliers + four_changes (pos 1) old new)
        × (result.slacks ≡ totals.slacks + four_changes (negsuc 0) old new) }
{
    let a = with_triple(totals, old[0], new[0]);
    let b = with_triple(a, old[1], new[1]);
    let c = with_triple(b, old[2], new[2]);
    with_triple(c, old[3], new[3])
}

// ---- all
// These take slices and numbers, and each asks of them what it needs: through a struct of the lists their pointers would be read again in every turn.

// The first triples, whose rows are not transposed, are renewed. Not the loop of the fours: their rows stand otherwise.
fn renew_first(triples: &[u16], values: &[i16], rows: &mut [i32], count: usize) -> Totals
    requires sized { Sized count triples.now rows.old }
    requires valued { Valued triples.now values.now }
    requires rows_within { RowsWithin most_done rows.old }
    ensures { Renewed count triples.now values.now 0 (count % 4) rows.old rows.new
        0 result.multipliers 0 result.slacks }
{
    let mut totals = Totals {
        multipliers: 0,
        slacks: 0,
    };
    for t in 0..count % 4 {
        let old = layout::load(rows, t);
        let new = renewed_triple(triples, values, t, old);
        layout::store(rows, t, new);
        totals = with_triple(totals, old, new);
    }
    totals
}

// How many triples are done, with the totals of their changes.
#[derive(Drop)]
struct Counted {
    done: usize,
    totals: Totals,
}

// The first triples, then one four after the other, are renewed and counted, until a total exceeds the tolerance.
fn renew_counted(
    triples: &[u16],
    values: &[i16],
    known: bool,
    rows: &mut [i32],
    count: usize,
    tolerance: u64,
) -> Counted
    requires sized { Sized count triples.now rows.old }
    requires valued { Valued triples.now values.now }
    requires rows_within { RowsWithin most_done rows.old }
    requires known { Known known triples.now }
    ensures aligned { Aligned count result.done }
    ensures done_all { result.totals.multipliers ≤ tolerance → result.totals.slacks ≤ tolerance → result.done ≡ count }
    ensures renewed { Renewed count triples.now values.now 0 result.done rows.old rows.new
        0 result.totals.multipliers 0 result.totals.slacks }
{
    let mut totals = renew_first(triples, values, rows, count);
    // A `while`: it also ends where a total exceeds the tolerance, and tells where.
    let mut t = count % 4;
    while (t < count) & (totals.multipliers <= tolerance) & (totals.slacks <= tolerance) {
        let c = thirds(triples, values, t, known);
        let four = renew_four(triples, values, c, rows, t);
        totals = with_four(totals, four.old, four.new);
        t += 4;
    }
    Counted { done: t, totals }
}

// The four triples from `from` on, and those after them, are renewed.
fn renew_rest(
    triples: &[u16],
    values: &[i16],
    known: bool,
    rows: &mut [i32],
    from: usize,
    count: usize,
)
    requires sized { Sized count triples.now rows.old }
    requires valued { Valued triples.now values.now }
    requires aligned { Aligned count from × Left count from rows.old }
    requires known { Known known triples.now }
    ensures { rows.new ≡ renewed_from count triples.now values.now from rows.old }
{
    // A `while`: with `step_by` the compiler keeps the tests of a blank in the loop where none is known, 96 instructions in the place of 66.
    let mut t = from;
    while t < count {
        let c = thirds(triples, values, t, known);
        let _four = renew_four(triples, values, c, rows, t);
        t += 4;
    }
}

// Whether neither total exceeds the tolerance.
pub fn settles(multipliers: u64, slacks: u64, tolerance: u64) -> bool
    ensures { result ≡ (leb multipliers tolerance && leb slacks tolerance) }
{
    (multipliers <= tolerance) & (slacks <= tolerance)
}

// "Then each row"; and whether "neither total exceeds X". It may be known that no triple has the blank.
pub fn renew_rows(
    triples: &[u16],
    values: &[i16],
    known: bool,
    rows: &mut [i32],
    count: usize,
    tolerance: u64,
) -> bool
    requires sized { Sized count triples.now rows.old }
    requires valued { Valued triples.now values.now }
    requires rows_within { RowsWithin most_done rows.old }
    requires known { Known known triples.now }
    ensures rows_after { (straight count rows.new ≡ renewed_all count triples.now rows.old values.now)
        × (length rows.new ≡ 4 * count) }
    ensures value { (1 if result)
        ≡ settled_by tolerance count (straight count rows.old) (renewed_all count triples.now rows.old values.now) }
{
    let counted = renew_counted(triples, values, known, rows, count, tolerance);
    renew_rest(triples, values, known, rows, counted.done, count);
    settles(counted.totals.multipliers, counted.totals.slacks, tolerance)
}
