// c of all variables, on lists of exact length: what the sums of their rows and their costs give, negated, divided, rounded and limited.
#![tactic(auto)]

ghost use Rattle.std.specs.Prelude.{◌≡◌, ◌+◌, ◌-◌, ◌*◌, ◌≤◌, ℤ, pos, neg_ℤ, nat_abs, ◌+ℤ◌, ◌*ℤ◌, length, ◌≤ℤ◌, ◌<ℤ◌};
ghost use Rattle.std.proofs.lemmas.List.Edits.{sets};
ghost use Rattle.lists.specs.Tabulated.{tab};
ghost use Rattle.quotient.specs.Quotient.{unit, most_divisor, signed, quotient};
ghost use Rattle.model.specs.Limits.{most_checks, most_weight, most_ratio, most_cost, most_sum, most_numerator};
ghost use Rattle.model.specs.Iteration.{at};
ghost use Rattle.model.specs.Iteration as Iteration;
ghost use Rattle.values.specs.Values.{Given, value_from};

use quotient::{Divisor, UNIT};
use std::marker::Model;

// U and -U
const MOST: i16 = UNIT as i16;

const LEAST: i16 = -MOST;

// "256 × S + W × L"
fn weighed(weight: u32, sum: i64, cost: i16) -> i64
    requires { (weight ≤ most_weight) × (nat_abs sum ≤ most_sum) × (nat_abs cost ≤ most_cost) }
    ensures { (result ≡ pos 256 *ℤ sum +ℤ pos weight *ℤ cost) × (nat_abs result ≤ most_numerator) }
{
    256 * sum + i64::from(weight) * i64::from(cost)
}

// "256 × e − A", for a variable in `count` triples
fn divisor(count: usize, ratio: u32) -> i64
    requires { (count ≤ most_checks) × (ratio ≤ most_ratio) }
    ensures { result ≡ Iteration.divisor (4 * count) ratio }
{
    (1024 * count) as i64 - i64::from(ratio)
}

// "limited to −U..U": the limit on the side of -x.
fn limit_opposite(x: i64) -> i16
    ensures { result ≡ neg_ℤ (signed x unit) }
{
    if x < 0 { MOST } else { LEAST }
}

// -x by a divisor made ready: where the limit is known it is the value, and below it a product is made. The limit's value comes first, so that the compiled
// code selects and has no branch here.
#[tactic(auto, using(crate::proofs::Limit::limit_known))]
fn by_product(x: i64, divisor: Divisor) -> i16
    requires { nat_abs x ≤ most_numerator }
    ensures { result ≡ quotient (neg_ℤ x) divisor }
{
    let known = limit_opposite(x);
    if x.abs() < divisor.limit() {
        divisor.divide_opposite(x)
    } else {
        known
    }
}

// -x by den in the same way, by `/`: here the compiled code keeps the branch, and skips the division where the limit is known.
#[tactic(auto, using(crate::proofs::Limit::limit_known))]
fn by_division(x: i64, den: i64) -> i16
    requires { (nat_abs x ≤ most_numerator) × (pos 0 <ℤ den) × (den ≤ℤ pos most_divisor) }
    ensures { result ≡ quotient (neg_ℤ x) den }
{
    let known = limit_opposite(x);
    if x.abs() < UNIT * den {
        quotient::divide(-x, den)
    } else {
        known
    }
}

// So many counts have a divisor made ready: 1, 2, on.
const PREPARED: usize = 31;

// The divisors of variables, by the ratio of a run: those of variables in 1 to 31 triples are made ready once. A contract sees the ratio.
#[derive(Drop)]
pub struct Divisors {
    ratio: u32,
    prepared: [Divisor; PREPARED],
}

impl Model for Divisors {
    ghost use Rattle.std.specs.Prelude.{◌≡◌, ℕ, suc, ◌*◌, ◌≤◌, ◌<◌};
    ghost use Rattle.model.specs.Limits.{most_ratio};
    ghost use Rattle.values.specs.Divisors.{PreparedFor};

    ghost Value = { ℕ };

    ghost view = { λ d. d.ratio };

    ghost invariant = { λ d. (d.ratio ≤ most_ratio) × PreparedFor d.ratio 31 d.prepared };
}

impl Divisors {
    pub fn new(ratio: u32) -> Divisors
        requires { ratio ≤ most_ratio }
        ensures { result ≡ ratio }
    {
        // By index: of a list that `array::from_fn` makes it is not found that the closure kept the ratio.
        let mut prepared = [Divisor::new(divisor(1, ratio)); PREPARED];
        for i in 0..PREPARED {
            prepared[i] = Divisor::new(divisor(i + 1, ratio));
        }
        Divisors { ratio, prepared }
    }

    // "−(256 × S + W × L) divided by 256 × e − A, rounded to nearest, halves away from zero, then limited", x being what is negated, for a variable in `count`
    // triples: by a product where the divisor is made ready.
    pub fn divide(&self, x: i64, count: usize) -> i16
        requires { (nat_abs x ≤ most_numerator) × (1 ≤ count) × (count ≤ most_checks) }
        ensures { result ≡ quotient (neg_ℤ x) (Iteration.divisor (4 * count) self.now) }
    {
        if count <= PREPARED {
            by_product(x, self.prepared[count - 1])
        } else {
            by_division(x, divisor(count, self.ratio))
        }
    }
}

// The cost of a variable: an auxiliary's is 0.
fn cost_of(costs: &[i16], v: usize) -> i16
    ensures { result ≡ at costs.now v }
{
    costs.get(v).copied().unwrap_or(0)
}

// The values of the variables in a range. By index: three lists are read beside the one that is written.
fn write_range(
    sums: &[i64],
    counts: &[u16],
    costs: &[i16],
    weight: u32,
    divisors: &Divisors,
    from: usize,
    to: usize,
    values: &mut [i16],
)
    requires given { Given sums.now counts.now costs.now (length values.old) × (weight ≤ most_weight) }
    requires from_le_to { (from ≤ to) × (to ≤ length values.old) }
    ensures { values.new ≡ sets values.old from
        (tab (to - from) (λ i. value_from sums.now counts.now costs.now weight divisors.now (from + i))) }
{
    for v in from..to {
        let x = weighed(weight, sums[v], cost_of(costs, v));
        values[v] = divisors.divide(x, usize::from(counts[v]));
    }
}

// "First every c is renewed": those of the bits, then those of the auxiliaries, which have no cost.
pub fn write_values(
    sums: &[i64],
    counts: &[u16],
    costs: &[i16],
    weight: u32,
    divisors: &Divisors,
    values: &mut [i16],
)
    requires given { Given sums.now counts.now costs.now (length values.old) × (weight ≤ most_weight) }
    requires costs_fit { length costs.now ≤ length values.old }
    ensures { values.new ≡ tab (length values.old)
        (value_from sums.now counts.now costs.now weight divisors.now) }
{
    let bits = costs.len();
    let all = values.len();
    write_range(sums, counts, costs, weight, divisors, 0, bits, values);
    write_range(
        sums,
        counts,
        &costs[bits..],
        weight,
        divisors,
        bits,
        all,
        values,
    );
}
