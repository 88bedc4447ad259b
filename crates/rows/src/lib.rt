// The four rows of one triple: their sums, their shares of S, their renewal, and the squares of its changes. Rows that a run reaches are taken.
#![tactic(auto)]

ghost use Rattle.std.specs.Prelude.{◌≡◌, ℕ, ◌+◌, ◌*◌, ◌^◌, ◌≤◌, ◌<◌, pos, nat_abs, ◌+ℤ◌, ◌-ℤ◌, ◌*ℤ◌};
ghost use Rattle.integers.specs.Sum.{sum_ℕ, sum_ℤ};
ghost use Rattle.lists.specs.Tabulated.{tab};
ghost use Rattle.quotient.specs.Quotient.{unit};
ghost use Rattle.model.specs.Limits.{most_row};
ghost use Rattle.model.specs.Iteration.{at, sign, row_sum, slack, multiplier, renewed};
ghost use Rattle.rows.specs.Sides.{Rows, change_of, most_changes};

// "The four sums of a triple": the signs of c1 - c2 - c3, -c1 + c2 - c3, -c1 - c2 + c3, c1 + c2 + c3.
const SIGNS: [[i32; 3]; 4] = [[1, -1, -1], [-1, 1, -1], [-1, -1, 1], [1, 1, 1]];

const UNIT: i32 = 16384;

// ---- the four sums

// x where position p of row r has plus, otherwise 0: twice it is the signed x, and x.
fn plus(r: usize, p: usize, x: i32) -> i32
    requires { (r < 4) × (p < 3) × (nat_abs x ≤ unit) }
    ensures { pos 2 *ℤ result ≡ sign r p *ℤ x +ℤ x }
{
    if SIGNS[r][p] < 0 { 0 } else { x }
}

// Row r: twice those with plus, less all three. In this form the compiler works rows out side by side.
fn row_sum(r: usize, a: i32, b: i32, c: i32) -> i32
    requires { (r < 4) × (nat_abs a ≤ unit) × (nat_abs b ≤ unit) × (nat_abs c ≤ unit) }
    ensures { result ≡ row_sum r a b c }
{
    2 * (plus(r, 0, a) + plus(r, 1, b) + plus(r, 2, c)) - (a + b + c)
}

pub fn row_sums(a: i32, b: i32, c: i32) -> [i32; 4]
    requires { (nat_abs a ≤ unit) × (nat_abs b ≤ unit) × (nat_abs c ≤ unit) }
    ensures { (result ≡ tab 4 (λ r. row_sum r a b c)) × ((r : ℕ) → nat_abs (at result r) ≤ 3 * unit) }
{
    [
        row_sum(0, a, b, c),
        row_sum(1, a, b, c),
        row_sum(2, a, b, c),
        row_sum(3, a, b, c),
    ]
}

// ---- the share of S

// z + p of a row, its magnitude.
pub fn size(s: i32) -> i32
    requires { nat_abs s < 2 ^ 31 }
    ensures { result ≡ pos (slack s + multiplier s) }
{
    s.abs()
}

// Of row r.
fn size_at(s: [i32; 4], r: usize) -> i32
    requires { (r < 4) × (nat_abs (at s r) ≤ most_row) }
    ensures { result ≡ pos (slack (at s r) + multiplier (at s r)) }
{
    size(s[r])
}

// x with the sign of position p in row r.
fn signed(r: usize, p: usize, x: i32) -> i32
    requires { (r < 4) × (p < 3) × (nat_abs x ≤ most_row) }
    ensures { result ≡ sign r p *ℤ x }
{
    if SIGNS[r][p] < 0 { -x } else { x }
}

// What rows of sizes a, b, c and d give the variable at position p. Added in this order the compiler keeps a register more for the sums.
fn share(p: usize, a: i32, b: i32, c: i32, d: i32) -> i32
    requires { (p < 3) × (nat_abs a ≤ most_row) × (nat_abs b ≤ most_row) × (nat_abs c ≤ most_row) × (nat_abs d ≤ most_row) }
    ensures { result ≡ sign 0 p *ℤ a +ℤ sign 1 p *ℤ b +ℤ sign 2 p *ℤ c +ℤ sign 3 p *ℤ d }
{
    signed(3, p, d) + signed(2, p, c) + signed(1, p, b) + signed(0, p, a)
}

// What the four rows give each of the three variables.
pub fn shares(s: [i32; 4]) -> [i32; 3]
    requires { Rows s }
    ensures { result ≡ tab 3 (λ p. sum_ℤ 4 (λ r. sign r p *ℤ pos (slack (at s r) + multiplier (at s r)))) }
{
    let a = size_at(s, 0);
    let b = size_at(s, 1);
    let c = size_at(s, 2);
    let d = size_at(s, 3);
    [
        share(0, a, b, c, d),
        share(1, a, b, c, d),
        share(2, a, b, c, d),
    ]
}

// ---- the renewal

// The larger of 0 and x.
pub fn positive(x: i32) -> i32
    ensures { result ≡ pos (multiplier x) }
{
    x.max(0)
}

// "s becomes p + sum − U": row r.
fn renewed_row(s: [i32; 4], sums: [i32; 4], r: usize) -> i32
    requires { (r < 4) × (nat_abs (at s r) ≤ most_row) × (nat_abs (at sums r) ≤ 3 * unit) }
    ensures { result ≡ renewed (at s r) (at sums r) }
{
    positive(s[r]) + (sums[r] - UNIT)
}

pub fn renewed_rows(s: [i32; 4], sums: [i32; 4]) -> [i32; 4]
    requires { Rows s × ((r : ℕ) → nat_abs (at sums r) ≤ 3 * unit) }
    ensures { result ≡ tab 4 (λ r. renewed (at s r) (at sums r)) }
{
    [
        renewed_row(s, sums, 0),
        renewed_row(s, sums, 1),
        renewed_row(s, sums, 2),
        renewed_row(s, sums, 3),
    ]
}

// ---- the squares of the changes

// By the size of x: in lanes a product of numbers without a sign is one instruction.
fn square(x: i32) -> u64
    requires { nat_abs x ≤ most_row }
    ensures { result ≡ nat_abs x * nat_abs x }
{
    let magnitude = u64::from(x.unsigned_abs());
    magnitude * magnitude
}

// The change of one side from row a to row b: with 1 of its multiplier; with -1 of its slack, which changes by as much less the row's own change, since a
// row is its multiplier less its slack.
fn side_change(a: i32, b: i32, side: i32) -> i32
    requires { (nat_abs side ≡ 1) × (nat_abs a ≤ most_row) × (nat_abs b ≤ most_row) }
    ensures { (result ≡ pos (multiplier (side *ℤ b)) -ℤ pos (multiplier (side *ℤ a))) × (nat_abs result ≤ most_row) }
{
    let change = positive(b) - positive(a);
    if side < 0 { change - (b - a) } else { change }
}

// Its square.
pub fn change(a: i32, b: i32, side: i32) -> u64
    requires { (nat_abs side ≡ 1) × (nat_abs a ≤ most_row) × (nat_abs b ≤ most_row) }
    ensures { (result ≡ change_of side a b) × (result ≤ most_row * most_row) }
{
    square(side_change(a, b, side))
}

// Of row r.
fn change_at(old: [i32; 4], new: [i32; 4], r: usize, side: i32) -> u64
    requires { (r < 4) × (nat_abs side ≡ 1) × (nat_abs (at old r) ≤ most_row) × (nat_abs (at new r) ≤ most_row) }
    ensures { result ≡ change_of side (at old r) (at new r) }
{
    change(old[r], new[r], side)
}

fn added(a: u64, b: u64, c: u64, d: u64) -> u64
    requires { a + b + c + d < 2 ^ 64 }
    ensures { result ≡ a + b + c + d }
{
    a + b + c + d
}

pub fn changes(old: [i32; 4], new: [i32; 4], side: i32) -> u64
    requires { (nat_abs side ≡ 1) × Rows old × Rows new }
    ensures { (result ≡ sum_ℕ 4 (λ r. change_of side (at old r) (at new r))) × (result ≤ most_changes) }
{
    added(
        change_at(old, new, 0, side),
        change_at(old, new, 1, side),
        change_at(old, new, 2, side),
        change_at(old, new, 3, side),
    )
}
