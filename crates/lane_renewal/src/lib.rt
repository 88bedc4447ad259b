// The renewal of all rows in lanes, with the totals of its changes.
#![tactic(auto)]

ghost use Rattle.std.specs.Prelude.{◌≡◌, true, false, ◌⊎◌, ℕ, ◌+◌, ◌*◌, ◌^◌, ◌≤◌, ◌<◌, length, get_or};
ghost use Rattle.model.specs.Iteration.{at};
ghost use Rattle.model.specs.Run.{settled_by};
ghost use Rattle.lanes.specs.Lanes.{in_lane, Fits, lane_rows};
ghost use Rattle.lane_triples.specs.Walk.{Narrow, Halves, Due, new_rows, Walked};
ghost use Rattle.lane_renewal.specs.Tripling.{IsTripled};
ghost use Rattle.lane_renewal.specs.Counting.{settled_in, row_change, rows_change, Comparable, AtMost, Grown, NoneWithin, Counted};

use lanes::Plan;

// The rows of so many triples, of up to eight lanes, are kept to be compared.
const BLOCK: usize = 8;

// What a walk through the triples goes by: the triples, the counts of the variables, and whether it is known that all is narrow.
#[derive(Clone, Copy)]
pub struct Walk<'a> {
    pub plan: Plan,
    pub triples: &'a [u16],
    pub counts: &'a [u16],
    pub narrow: bool,
    pub ghost tripled: { IsTripled plan triples.now counts.now },
    pub ghost narrowed: { narrow ≡ true → Narrow plan triples.now counts.now },
}

// Of each lane, the sums of the squares by which its multipliers and its slacks have changed.
#[derive(Clone, Copy)]
pub struct Totals {
    pub multipliers: [u64; 8],
    pub slacks: [u64; 8],
}

// `count` entries of the work list, from `first` on, are kept.
fn keep(work: &[i32], first: usize, count: usize, before: &mut [i32])
    requires { (first + count ≤ length work.now) × (count ≤ length before.old) }
    ensures { (k : ℕ) → k < count → at before.new k ≡ at work.now (first + k) }
{
    for i in 0..count {
        before[i] = work[first + i];
    }
}

// The squares of the changes of one row, of the lanes from..to, are added to the totals. The row stood at i, and stands at j.
fn count_row(
    before: &[i32],
    i: usize,
    work: &[i32],
    j: usize,
    from: usize,
    to: usize,
    totals: &mut Totals,
)
    requires in_bounds { (to ≤ 8) × (i + to ≤ length before.now) × (j + to ≤ length work.now) }
    requires comparable { (l : ℕ) → from ≤ l → l < to → Comparable (at before.now (i + l)) (at work.now (j + l)) }
    requires at_most { AtMost from to (2 ^ 63) totals.old }
    ensures { Grown from to (λ side. row_change side before.now i work.now j) totals.old totals.new }
{
    for l in from..to {
        let old = before[i + l];
        let new = work[j + l];
        totals.multipliers[l] += rows::change(old, new, 1);
        totals.slacks[l] += rows::change(old, new, -1);
    }
}

// Of so many rows, which were kept: the first stands at `first`.
fn count_rows(
    before: &[i32],
    work: &[i32],
    first: usize,
    lanes: usize,
    rows: usize,
    from: usize,
    to: usize,
    totals: &mut Totals,
)
    requires few { (lanes ≤ 8) × (to ≤ lanes) × (rows ≤ 32) }
    requires in_bounds { (lanes * rows ≤ length before.now) × (first + lanes * rows ≤ length work.now) }
    requires comparable { (r l : ℕ) → r < rows → from ≤ l → l < to
        → Comparable (at before.now (lanes * r + l)) (at work.now (first + lanes * r + l)) }
    requires at_most { AtMost from to (2 ^ 62) totals.old }
    ensures { Grown from to (λ side. rows_change side before.now work.now first lanes rows) totals.old totals.new }
{
    for r in 0..rows {
        count_row(before, lanes * r, work, first + lanes * r, from, to, totals);
    }
}

// Whether some frame runs of which no total exceeds the tolerance yet. No branch, so that lanes are compared at once.
fn some_within(running: &[bool; 8], tolerance: u64, totals: &Totals, from: usize, to: usize) -> bool
    requires { to ≤ 8 }
    ensures { result ≡ false → NoneWithin tolerance running.now totals.now from to }
{
    let mut some = false;
    for l in from..to {
        some = some
            | (running[l] & (totals.multipliers[l] <= tolerance) & (totals.slacks[l] <= tolerance));
    }
    some
}

// Triples are renewed and counted, block by block, until a total of every running frame exceeds the tolerance. It answers how many.
fn renew_counted(
    walk: &Walk,
    i: usize,
    from: usize,
    to: usize,
    running: &[bool; 8],
    tolerance: u64,
    work: &mut [i32],
    totals: &mut Totals,
) -> usize
    requires fits { Fits walk.now.plan work.old × (i ≤ 1) × Halves walk.now.plan from to }
    requires due { (l : ℕ) → from ≤ l → l < to → Due walk.now.plan i work.old l }
    requires cleared { (l : ℕ) → (get_or totals.old.multipliers l 0 ≡ 0) × (get_or totals.old.slacks l 0 ≡ 0) }
    ensures counted { Counted walk.now.plan walk.now.triples.now walk.now.counts.now i from to work.old result work.new totals.new }
    ensures none_within { result < walk.now.plan.triples → NoneWithin tolerance running.now totals.new from to }
{
    let p = walk.plan;
    let mut before = [0i32; 256];
    // A `while`: it also ends where a total of every frame exceeds the tolerance, and tells where.
    let mut t = 0;
    while (t < p.triples) & some_within(running, tolerance, totals, from, to) {
        let n = if p.triples - t < BLOCK {
            p.triples - t
        } else {
            BLOCK
        };
        let first = p.lanes * (4 * t);
        keep(work, first, p.lanes * (4 * n), &mut before);
        lane_triples::renew_range(
            walk.triples,
            walk.counts,
            walk.narrow,
            p,
            i,
            from,
            to,
            t,
            t + n,
            work,
        );
        count_rows(&before, work, first, p.lanes, 4 * n, from, to, totals);
        t += n;
    }
    t
}

// Each row of the frames in the lanes from..to is renewed, with the sums of the iteration to come in list i, which is cleared. The totals of a frame that runs
// tell whether it settles.
pub fn renew(
    walk: &Walk,
    i: usize,
    from: usize,
    to: usize,
    running: &[bool; 8],
    tolerance: u64,
    work: &mut [i32],
) -> Totals
    requires fits { Fits walk.now.plan work.old × (i ≤ 1) × Halves walk.now.plan from to }
    requires due { (l : ℕ) → from ≤ l → l < to → Due walk.now.plan i work.old l }
    ensures fits { Fits walk.now.plan work.new }
    ensures walked { (l : ℕ) → from ≤ l → l < to
        → Walked walk.now.plan walk.now.triples.now walk.now.counts.now i work.old l walk.now.plan.triples work.new }
    ensures beside { (l j : ℕ) → l < walk.now.plan.lanes → (l < from) ⊎ (to ≤ l)
        → in_lane walk.now.plan.lanes work.new l j ≡ in_lane walk.now.plan.lanes work.old l j }
    ensures settles { (l : ℕ) → from ≤ l → l < to → get_or running.now l false ≡ true
        → settled_in tolerance result l
        ≡ settled_by tolerance walk.now.plan.triples (lane_rows walk.now.plan work.old l)
        (new_rows walk.now.plan walk.now.triples.now work.old l) }
{
    let mut totals = Totals {
        multipliers: [0; 8],
        slacks: [0; 8],
    };
    let done = renew_counted(walk, i, from, to, running, tolerance, work, &mut totals);
    lane_triples::renew_range(
        walk.triples,
        walk.counts,
        walk.narrow,
        walk.plan,
        i,
        from,
        to,
        done,
        walk.plan.triples,
        work,
    );
    totals
}
