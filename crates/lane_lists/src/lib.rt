// A group's frames in the lanes of a work list: their numbers as they begin, how their costs come in, and how their lists come out.
#![tactic(auto)]

ghost use Rattle.std.specs.Prelude.{◌≡◌, ℕ, ◌+◌, ◌*◌, ◌^◌, ◌≤◌, ◌<◌, pos, nat_abs, ◌+ℤ◌, ◌-ℤ◌, ◌*ℤ◌, length, ◌≤ℤ◌};
ghost use Rattle.quotient.specs.Quotient.{unit};
ghost use Rattle.model.specs.Limits.{most_weight, most_cost};
ghost use Rattle.model.specs.Iteration.{at};
ghost use Rattle.lanes.specs.Lanes.{in_lane, values_at, sums_at, weighed_at, Fits, Raised, lane_rows, lane_values, lane_sum, lane_sums};

use lanes::Plan;

// ---- in

// W × L.
fn weighed(weight: u32, cost: i16) -> i32
    requires { (weight ≤ most_weight) × (nat_abs cost ≤ most_cost) }
    ensures { result ≡ pos weight *ℤ cost }
{
    (i64::from(weight) * i64::from(cost)) as i32
}

// Lane l gets the costs of its frame.
pub fn put_costs(costs: &[i16], weight: u32, p: Plan, l: usize, work: &mut [i32])
    requires fits { Fits p work.old × (l < p.lanes) × (length costs.now ≡ p.bits) }
    requires in_range { (weight ≤ most_weight) × ((b : ℕ) → nat_abs (at costs.now b) ≤ most_cost) }
    ensures fits { Fits p work.new }
    ensures costs_are_in { (b : ℕ) → b < p.bits
        → in_lane p.lanes work.new l (weighed_at p + b) ≡ pos weight *ℤ at costs.now b }
    ensures before { (j : ℕ) → j < weighed_at p → in_lane p.lanes work.new l j ≡ in_lane p.lanes work.old l j }
    ensures other_lanes { (m j : ℕ) → m < p.lanes → (m ≡ l → ⊥)
        → in_lane p.lanes work.new m j ≡ in_lane p.lanes work.old m j }
{
    let first = p.weighed_at() + l;
    for b in 0..costs.len() {
        work[first + p.lanes * b] = weighed(weight, costs[b]);
    }
}

// All lanes begin: every number is 0, and with it every c, which is raised by U.
pub fn begin(p: Plan, work: &mut [i32])
    requires { Fits p work.old }
    ensures fits { Fits p work.new }
    ensures values_are_unit { (l v : ℕ) → l < p.lanes → v < p.variables → in_lane p.lanes work.new l (values_at p + v) ≡ pos unit }
    ensures before_zero { (l j : ℕ) → l < p.lanes → j < values_at p → in_lane p.lanes work.new l j ≡ pos 0 }
    ensures behind_zero { (l j : ℕ) → l < p.lanes → sums_at p 0 ≤ j → in_lane p.lanes work.new l j ≡ pos 0 }
{
    work.fill(0);
    let from = p.values_at();
    let to = p.sums_at(0);
    work[from..to].fill(16384);
}

// ---- out

// The rows of lane l.
pub fn take_rows(work: &[i32], p: Plan, l: usize, rows: &mut [i32])
    requires { Fits p work.now × (l < p.lanes) × (length rows.old ≡ 4 * p.triples) }
    ensures { rows.new ≡ lane_rows p work.now l }
{
    for i in 0..rows.len() {
        rows[i] = work[p.lanes * i + l];
    }
}

// A raised value, as it is.
fn lowered(x: i32) -> i16
    requires { (pos 0 ≤ℤ x) × (nat_abs x ≤ 2 * unit) }
    ensures { result ≡ x -ℤ pos unit }
{
    (x - 16384) as i16
}

// Its values.
pub fn take_values(work: &[i32], p: Plan, l: usize, values: &mut [i16])
    requires fits { Fits p work.now × (l < p.lanes) × (length values.old ≡ p.variables) }
    requires raised { Raised p work.now l }
    ensures { values.new ≡ lane_values p work.now l }
{
    let first = p.values_at() + l;
    for v in 0..values.len() {
        values[v] = lowered(work[first + p.lanes * v]);
    }
}

// S from its two parts.
fn whole(low: i32, high: i32) -> i64
    ensures { result ≡ low +ℤ pos (2 ^ 14) *ℤ high }
{
    i64::from(low) + 16384 * i64::from(high)
}

// S of variable v: that of a bit has a high part, which stands behind the sums. The sums of lane l begin at `first`.
fn sum_in(work: &[i32], p: Plan, i: usize, l: usize, first: usize, v: usize) -> i64
    requires { Fits p work.now × (l < p.lanes) × (i ≤ 1) × (first ≡ p.lanes * sums_at p i + l) × (v < p.variables) }
    ensures { result ≡ lane_sum p i work.now l v }
{
    let low = work[first + p.lanes * v];
    if v < p.bits {
        whole(low, work[first + p.lanes * (p.variables + v)])
    } else {
        i64::from(low)
    }
}

// The sums of list i.
pub fn take_sums(work: &[i32], p: Plan, i: usize, l: usize, sums: &mut [i64])
    requires { Fits p work.now × (l < p.lanes) × (i ≤ 1) × (length sums.old ≡ p.variables) }
    ensures { sums.new ≡ lane_sums p i work.now l }
{
    let first = p.sums_at(i) + l;
    for v in 0..sums.len() {
        sums[v] = sum_in(work, p, i, l, first, v);
    }
}
