// The walk through the triples of a code, for all frames of a group at once: each triple's rows are renewed, and their shares are given to the sums of the
// iteration to come.
#![tactic(auto)]

ghost use Rattle.std.specs.Prelude.{◌≡◌, true, false, cond, List, ◌⊎◌, ℕ, ◌+◌, ◌*◌, ◌^◌, ◌≤◌, ◌<◌, ℤ, pos, nat_abs, eqb, leb, length};
ghost use Rattle.lists.specs.Entries.{every};
ghost use Rattle.lists.specs.Tabulated.{tab};
ghost use Rattle.model.specs.Limits.{most_row};
ghost use Rattle.model.specs.Splitting.{blank};
ghost use Rattle.model.specs.Iteration.{at};
ghost use Rattle.layout.specs.Transposed.{cell};
ghost use Rattle.lanes.specs.Lanes.{in_lane, Fits, most_narrow};
ghost use Rattle.lane_triples.specs.Step.{MayGive, given, with_rows, new_row, new_shares, MayRenew, narrow_places, any_places, is_wide, after, MayStep};
ghost use Rattle.lane_triples.specs.Walk.{Tripled, Narrow, Halves, Due, Walked, SameBeside, Begun, Walks};

use lanes::{MOST_NARROW, Plan};
use model::BLANK;

// ---- one triple, in four lanes
// By places in the one work list, which `lanes::Plan` lays out.

// Its rows, of which the first stand at i and each of the others `lanes` further.
fn load_rows(work: &[i32], lanes: usize, i: usize) -> [[i32; 4]; 4]
    requires { (i + 3 * lanes + 3 < length work.now) × (length work.now < 2 ^ 32) }
    ensures { result ≡ tab 4 (λ r. tab 4 (λ k. at work.now (i + r * lanes + k))) }
{
    [
        fours::load(work, i),
        fours::load(work, i + lanes),
        fours::load(work, i + 2 * lanes),
        fours::load(work, i + 3 * lanes),
    ]
}

// They become q's.
fn store_rows(work: &mut [i32], lanes: usize, i: usize, q: [[i32; 4]; 4])
    requires { (i + 3 * lanes + 3 < length work.old) × (length work.old < 2 ^ 32) × ((r k : ℕ) → nat_abs (cell q r k) ≤ most_row) }
    ensures { work.new ≡ with_rows lanes work.old i (cell q) }
{
    fours::store(work, i, q[0]);
    fours::store(work, i + lanes, q[1]);
    fours::store(work, i + 2 * lanes, q[2]);
    fours::store(work, i + 3 * lanes, q[3]);
}

// They are renewed with c of its variables, which is raised by U; what they then give them is told.
fn renew_four(
    work: &mut [i32],
    lanes: usize,
    i: usize,
    a: [i32; 4],
    b: [i32; 4],
    c: [i32; 4],
) -> [[i32; 4]; 3]
    requires { MayRenew lanes work.old i a b c × (length work.old < 2 ^ 32) }
    ensures value { result ≡ tab 3 (new_shares lanes work.old i a b c) }
    ensures work_after { work.new ≡ with_rows lanes work.old i (new_row lanes work.old i a b c) }
{
    let old = load_rows(work, lanes, i);
    let new = fours::renewed(old, a, b, c);
    store_rows(work, lanes, i, new);
    fours::shares(new)
}

// Its variables u, v and w, of which none is wide: where their lanes stand in the values and in the sums. Apart from any triple, whose tests cost time.
fn renew_narrow(
    work: &mut [i32],
    lanes: usize,
    i: usize,
    values: usize,
    next: usize,
    u: usize,
    v: usize,
    w: usize,
)
    requires { MayStep lanes work.old (narrow_places i values next u v w) }
    ensures { work.new ≡ after lanes work.old (narrow_places i values next u v w) 3 }
{
    let a = fours::load(work, values + u);
    let b = fours::load(work, values + v);
    let c = fours::load(work, values + w);
    let x = renew_four(work, lanes, i, a, b, c);
    fours::add_to(work, next + u, x[0]);
    fours::add_to(work, next + v, x[1]);
    fours::add_to(work, next + w, x[2]);
}

// ---- with the blank, and with variables in more triples

// c of the third place, raised by U: the blank's is 0.
fn third(work: &[i32], i: usize, none: bool) -> [i32; 4]
    requires { (none ≡ false → i + 3 < length work.now) × (length work.now < 2 ^ 32) }
    ensures { result ≡ tab 4 (λ k. cond none (pos 0) (at work.now (i + k))) }
{
    if none {
        [0, 0, 0, 0]
    } else {
        fours::load(work, i)
    }
}

// Whether the variable's sum has a high part.
fn is_wide(counts: &[u16], v: usize) -> bool
    requires { v < length counts.now }
    ensures { result ≡ is_wide counts.now v }
{
    MOST_NARROW < usize::from(counts[v])
}

// x is added to the sum at i, in two parts where it is wide; the high part stands at j.
fn give(work: &mut [i32], i: usize, j: usize, wide: bool, x: [i32; 4])
    requires { MayGive wide work.old i j x × (length work.old < 2 ^ 32) }
    ensures { work.new ≡ given wide work.old i j x }
{
    if wide {
        fours::add_to(work, i, fours::lows(x));
        fours::add_to(work, j, fours::highs(x));
    } else {
        fours::add_to(work, i, x);
    }
}

// To the third place's variable, w; the blank is given nothing.
fn give_third(counts: &[u16], work: &mut [i32], w: usize, i: usize, j: usize, x: [i32; 4])
    requires { (eqb w blank ≡ false → (w < length counts.now) × MayGive (is_wide counts.now w) work.old i j x) × (length work.old < 2 ^ 32) }
    ensures { work.new ≡ cond (eqb w blank) work.old (given (is_wide counts.now w) work.old i j x) }
{
    if w != BLANK {
        give(work, i, j, is_wide(counts, w), x);
    }
}

// Any triple, whose variables are u, v and w. Values and sums are counted from the first of the four lanes; the high parts of the sums stand `apart` behind the
// low ones.
fn renew_any(
    counts: &[u16],
    work: &mut [i32],
    lanes: usize,
    i: usize,
    values: usize,
    next: usize,
    apart: usize,
    u: usize,
    v: usize,
    w: usize,
)
    requires may_step { MayStep lanes work.old (any_places counts.now lanes i values next apart u v w) }
    requires variables_counted { (u < length counts.now) × (v < length counts.now) × (eqb w blank ≡ false → w < length counts.now) }
    requires small_places { (lanes * w < 2 ^ 32) × (values < 2 ^ 32) × (next < 2 ^ 32) × (apart < 2 ^ 32) }
    ensures { work.new ≡ after lanes work.old (any_places counts.now lanes i values next apart u v w) 3 }
{
    let a = fours::load(work, values + lanes * u);
    let b = fours::load(work, values + lanes * v);
    let c = third(work, values + lanes * w, w == BLANK);
    let x = renew_four(work, lanes, i, a, b, c);
    let first = next + lanes * u;
    give(work, first, first + apart, is_wide(counts, u), x[0]);
    let second = next + lanes * v;
    give(work, second, second + apart, is_wide(counts, v), x[1]);
    let last = next + lanes * w;
    give_third(counts, work, w, last, last + apart, x[2]);
}

// ---- the walk

// Triple t in the lanes from..to. It may be known that it is narrow.
fn walk<const NARROW: bool>(
    triples: &[u16],
    counts: &[u16],
    p: Plan,
    values: usize,
    next: usize,
    from: usize,
    to: usize,
    t: usize,
    work: &mut [i32],
)
    requires fits { Fits p work.old × Halves p from to × (t < p.triples) }
    requires narrow { NARROW ≡ true → Narrow p triples.now counts.now }
    requires begun { Begun p triples.now counts.now values next from to t work.old }
    ensures walks { Walks p triples.now counts.now values next from to t (t + 1) work.old work.new }
    ensures same_beside { SameBeside p from to work.old work.new }
{
    let lanes = p.lanes;
    let u = layout::variable(triples, t, 0);
    let v = layout::variable(triples, t, 1);
    let w = layout::variable(triples, t, 2);
    for l in (from..to).step_by(4) {
        let i = 4 * lanes * t + l;
        let value = values + l;
        let sum = next + l;
        if NARROW {
            renew_narrow(work, lanes, i, value, sum, lanes * u, lanes * v, lanes * w);
        } else {
            renew_any(
                counts,
                work,
                lanes,
                i,
                value,
                sum,
                lanes * p.variables,
                u,
                v,
                w,
            );
        }
    }
}

// The triples from t to `end`.
fn walk_all<const NARROW: bool>(
    triples: &[u16],
    counts: &[u16],
    p: Plan,
    values: usize,
    next: usize,
    from: usize,
    to: usize,
    t: usize,
    end: usize,
    work: &mut [i32],
)
    requires fits { Fits p work.old × Halves p from to × (t ≤ end) × (end ≤ p.triples) }
    requires narrow { NARROW ≡ true → Narrow p triples.now counts.now }
    requires begun { Begun p triples.now counts.now values next from to t work.old }
    ensures walks { Walks p triples.now counts.now values next from to t end work.old work.new }
    ensures same_beside { SameBeside p from to work.old work.new }
{
    for i in t..end {
        walk::<NARROW>(triples, counts, p, values, next, from, to, i, work);
    }
}

// Whether all counts are so small that no sum has a high part. All are looked at, without a branch.
pub fn all_narrow(counts: &[u16]) -> bool
    ensures { result ≡ every (λ c. leb c most_narrow) counts.now }
{
    let mut narrow = true;
    for v in 0..counts.len() {
        narrow = narrow & !is_wide(counts, v);
    }
    narrow
}

// The triples from t to `end` are renewed in the lanes from..to, and given to list i of the sums. It may be known that all is narrow.
pub fn renew_range(
    triples: &[u16],
    counts: &[u16],
    known: bool,
    p: Plan,
    i: usize,
    from: usize,
    to: usize,
    t: usize,
    end: usize,
    work: &mut [i32],
)
    requires fits { Fits p work.old × (i ≤ 1) × Halves p from to × (t ≤ end) × (end ≤ p.triples) }
    requires tripled { Tripled p triples.now counts.now × (known ≡ true → Narrow p triples.now counts.now) }
    requires begun { (w : List ℤ) × ((l : ℕ) → from ≤ l → l < to → Due p i w l × Walked p triples.now counts.now i w l t work.old) }
    ensures fits { Fits p work.new }
    ensures walked { (w : List ℤ)
        → ((l : ℕ) → from ≤ l → l < to → Due p i w l × Walked p triples.now counts.now i w l t work.old)
        → (l : ℕ) → from ≤ l → l < to → Walked p triples.now counts.now i w l end work.new }
    ensures beside { (l j : ℕ) → l < p.lanes → (l < from) ⊎ (to ≤ l)
        → in_lane p.lanes work.new l j ≡ in_lane p.lanes work.old l j }
{
    let values = p.values_at();
    let next = p.sums_at(i);
    if known {
        walk_all::<true>(triples, counts, p, values, next, from, to, t, end, work);
    } else {
        walk_all::<false>(triples, counts, p, values, next, from, to, t, end, work);
    }
}
