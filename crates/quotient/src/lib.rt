// The rounded quotient: the lowest part of the decoder. What divides asks, as its condition, a dividend whose size is below 16384 times the divisor: from there
// on the limit is known, and whoever calls decides it first. What divides in lanes limits by itself.
#![tactic(auto)]

ghost use Rattle.std.specs.Prelude.{◌≡◌, ◌+◌, ◌-◌, ◌*◌, ◌/◌, ◌^◌, ◌≤◌, ◌<◌, ℤ, pos, neg_ℤ, nat_abs, ◌+ℤ◌, ◌*ℤ◌, ◌≤ℤ◌, ◌<ℤ◌};
ghost use Rattle.quotient.specs.Quotient.{unit, most_divisor, most_prepared, least_narrow, most_narrow, signed, quotient, BelowLimit};
ghost use Rattle.quotient.specs.Narrowed.{gap_of, rest_of, dividend_of};

use std::marker::Model;

// U
pub const UNIT: i64 = 16384;

// 2^47
const SCALE: i64 = 140737488355328;

// 2^46
const HALF: i64 = 70368744177664;

// ---- by a signed division

// d with the sign of x.
fn with_sign(d: i64, x: i64) -> i64
    requires { (pos 0 ≤ℤ d) × (nat_abs d ≤ most_divisor) }
    ensures { result ≡ signed x (nat_abs d) }
{
    if x < 0 { -d } else { d }
}

// num / den, rounded to the nearest whole number, halves away from zero: half of den is added with the sign of num, both doubled, and `/` cuts toward zero.
pub fn divide(num: i64, den: i64) -> i16
    requires { (pos 0 <ℤ den) × (den ≤ℤ pos most_divisor) × BelowLimit num den }
    ensures { result ≡ quotient num den }
{
    ((2 * num + with_sign(den, num)) / (2 * den)) as i16
}

// ---- by a product, where many are divided by one number

// A divisor made ready: the size from which on the limit is known, and what stands for the divisor in a product. A contract sees the divisor itself.
#[derive(Clone, Copy)]
pub struct Divisor {
    limit: i64,
    inverse: i64,
}

impl Model for Divisor {
    ghost use Rattle.std.specs.Prelude.{ℤ, pos, nat_abs};
    ghost use Rattle.quotient.specs.Prepared.{Prepared, divisor_of, limit_of, factor_of};
    ghost use Rattle.std.proofs.Common.{sym};

    ghost Value = { ℤ };

    ghost view = { λ d. pos (divisor_of d.limit) };

    ghost invariant = { λ d. Prepared d.limit d.inverse };

    ghost inverse = { λ den. record { limit = limit_of (nat_abs den); inverse = factor_of (nat_abs den) } };

    ghost inverse_ok = { λ d h i. record { limit = sym h.limit_is i; inverse = sym h.inverse_is i } };
}

impl Divisor {
    // 16384 * den, and the next whole number above 2^47 / den.
    pub fn new(den: i64) -> Divisor
        requires { (pos 0 <ℤ den) × (den ≤ℤ pos most_prepared) }
        ensures { result ≡ den }
    {
        Divisor {
            limit: UNIT * den,
            inverse: SCALE / den + 1,
        }
    }

    // The size from which on the limit is known.
    pub fn limit(self) -> i64
        ensures above { pos 0 <ℤ self }
        ensures value { result ≡ pos (unit * nat_abs self) }
    {
        self.limit
    }

    // -x / self, rounded to the nearest whole number, halves away from zero: at the scale of 2^47 a half is added, and the shift rounds down. The inverse
    // exceeds 2^47 / self, so halves go away from zero on both sides.
    pub fn divide_opposite(self, x: i64) -> i16
        requires { BelowLimit x self }
        ensures { result ≡ quotient (neg_ℤ x) self }
    {
        ((HALF - x * self.inverse) >> 47) as i16
    }
}

// ---- by a product of two 32-bit numbers, where lanes are divided by one number

// 2^42
const NARROW_SCALE: u64 = 4398046511104;

// 16384.5 * 2^42
const NARROW_RAISE: u64 = 72059793061183488;

// How far x lies below the limit, where x is limited to -limit..limit. In this form the compiled code has no branch.
fn gap(x: i32, limit: i32) -> i32
    requires { (nat_abs x ≤ 2 ^ 31 - 2 ^ 23) × (pos 0 ≤ℤ limit) × (nat_abs limit ≤ 64 * most_narrow) }
    ensures { result ≡ pos (gap_of (nat_abs limit) x) }
{
    (2 * limit - (x + limit).max(0)).max(0)
}

// What w has above 256 times its 256th, rounded down.
fn rest(w: i32) -> i32
    requires { nat_abs w < 2 ^ 31 }
    ensures { result ≡ pos (rest_of w) }
{
    w - 256 * (w >> 8)
}

// 256 x and the rest of w, where x is limited to -limit..limit, counted down from the most that they can be: at least 0.
fn dividend(x: i32, w: i32, limit: i32) -> i32
    requires { (nat_abs x ≤ 2 ^ 31 - 2 ^ 23) × (nat_abs w < 2 ^ 31) × (pos 0 ≤ℤ limit) × (nat_abs limit ≤ 64 * most_narrow) }
    ensures { result ≡ pos (dividend_of (nat_abs limit) x w) }
{
    256 * gap(x, limit) + (255 - rest(w))
}

// n * inverse + raise at the scale of 2^42, rounded down.
fn scaled(n: i32, inverse: u32, raise: u64) -> i32
    requires { (pos 0 ≤ℤ n) × (nat_abs n < 2 ^ 29) × (raise ≤ 2 ^ 41) }
    ensures { result ≡ pos ((nat_abs n * inverse + raise) / 2 ^ 42) }
{
    ((u64::from(n as u32) * u64::from(inverse) + raise) >> 42) as i32
}

// (256 n + 255) * inverse + raise at the scale of 2^42, rounded down. Its last eight bits do not matter, so n is multiplied as it is.
fn scaled_alone(n: i32, inverse: u32, raise: u64) -> i32
    requires { (pos 0 ≤ℤ n) × (nat_abs n ≤ 2 ^ 20) × (raise ≤ 2 ^ 41) }
    ensures { result ≡ pos (((256 * nat_abs n + 255) * inverse + raise) / 2 ^ 42) }
{
    let rest = (255 * u64::from(inverse) + raise) >> 8;
    ((u64::from(n as u32) * u64::from(inverse) + rest) >> 34) as i32
}

// A divisor of lanes made ready: a 256th of the limit, what stands for the divisor in a product, and what is added to the product. A contract sees the divisor
// itself.
#[derive(Clone, Copy)]
pub struct Narrow {
    limit: i32,
    inverse: u32,
    raise: u64,
}

impl Model for Narrow {
    ghost use Rattle.std.specs.Prelude.{ℤ, pos, nat_abs};
    ghost use Rattle.std.proofs.Common.{sym};
    ghost use Rattle.quotient.specs.Narrowed.{Narrowed, narrow_divisor_of, narrow_limit_of, narrow_inverse_of, raise_of};

    ghost Value = { ℤ };

    ghost view = { λ d. pos (narrow_divisor_of d.limit) };

    ghost invariant = { λ d. Narrowed d.limit d.inverse d.raise };

    ghost inverse = { λ den. record {
      limit = narrow_limit_of (nat_abs den);
      inverse = narrow_inverse_of (nat_abs den);
      raise = raise_of (nat_abs den);
    } };

    ghost inverse_ok = { λ d h i. record {
      limit = sym h.limit_is i;
      inverse = sym h.inverse_is i;
      raise = sym h.raise_is i;
    } };
}

impl Narrow {
    // 64 * den; the next whole number above 2^42 / den; U and a half at that scale, less the product of the most that is divided.
    pub fn new(den: i64) -> Narrow
        requires { (pos least_narrow ≤ℤ den) × (den ≤ℤ pos most_narrow) }
        ensures { result ≡ den }
    {
        let divisor = den as u64;
        let limit = 64 * divisor;
        let inverse = NARROW_SCALE / divisor + 1;
        Narrow {
            limit: limit as i32,
            inverse: inverse as u32,
            raise: NARROW_RAISE - (256 * limit + 255) * inverse,
        }
    }

    // -(256 s + w) / self, rounded to the nearest whole number, halves away from zero, limited to -U..U and raised by U: 256 s + w is limited before the product.
    pub fn divide(self, s: i32, w: i32) -> i32
        requires { (nat_abs s ≤ 2 ^ 31 - 2 ^ 24) × (nat_abs w < 2 ^ 31) }
        ensures { result ≡ quotient (neg_ℤ (pos 256 *ℤ s +ℤ w)) self +ℤ pos unit }
    {
        scaled(
            dividend(s + (w >> 8), w, self.limit),
            self.inverse,
            self.raise,
        )
    }

    // The same of -(256 s) / self, where there is no w.
    pub fn divide_alone(self, s: i32) -> i32
        requires { nat_abs s ≤ 2 ^ 31 - 2 ^ 24 }
        ensures { result ≡ quotient (neg_ℤ (pos 256 *ℤ s)) self +ℤ pos unit }
    {
        scaled_alone(gap(s, self.limit), self.inverse, self.raise)
    }
}
