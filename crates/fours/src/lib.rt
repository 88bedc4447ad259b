// Four numbers side by side, one of each of four frames: what `rows` does for one triple, for four frames at once. The compiler puts the four in one register.
// Not through `rows`, frame by frame: the compiler then does not work the four frames out side by side, and a group takes 1.3 to 2.3 times as long.
// Both on vectors of std were as fast as these; their proof did not close.
#![tactic(auto)]

ghost use Rattle.std.specs.Prelude.{◌≡◌, ℕ, ◌+◌, ◌*◌, ◌^◌, ◌≤◌, ◌<◌, pos, nat_abs, ◌+ℤ◌, ◌-ℤ◌, ◌*ℤ◌, length};
ghost use Rattle.std.proofs.lemmas.List.Edits.{sets};
ghost use Rattle.std.specs.Int.Signed.{shr_z};
ghost use Rattle.integers.specs.Sum.{sum_ℤ};
ghost use Rattle.lists.specs.Tabulated.{tab};
ghost use Rattle.quotient.specs.Quotient.{unit};
ghost use Rattle.model.specs.Limits.{most_row};
ghost use Rattle.model.specs.Iteration.{at, sign, row_sum, slack, multiplier};
ghost use Rattle.model.specs.Iteration as Iteration;
ghost use Rattle.layout.specs.Transposed.{cell, Fours};

// Four times U, by which a sum of three raised values and U are too much.
const RAISED: i32 = 65536;

// ---- fours in a list

// Entries i to i + 3.
pub fn load(l: &[i32], i: usize) -> [i32; 4]
    requires { (i + 3 < length l.now) × (length l.now < 2 ^ 32) }
    ensures { result ≡ tab 4 (λ k. at l.now (i + k)) }
{
    [l[i], l[i + 1], l[i + 2], l[i + 3]]
}

pub fn store(l: &mut [i32], i: usize, q: [i32; 4])
    requires { (i + 3 < length l.old) × (length l.old < 2 ^ 32) × ((k : ℕ) → nat_abs (at q k) < 2 ^ 31) }
    ensures { l.new ≡ sets l.old i (tab 4 (at q)) }
{
    l[i] = q[0];
    l[i + 1] = q[1];
    l[i + 2] = q[2];
    l[i + 3] = q[3];
}

// ---- four sums, differences, sides

fn add(a: [i32; 4], b: [i32; 4]) -> [i32; 4]
    requires { (k : ℕ) → nat_abs (at a k) + nat_abs (at b k) < 2 ^ 31 }
    ensures { result ≡ tab 4 (λ k. at a k +ℤ at b k) }
{
    [a[0] + b[0], a[1] + b[1], a[2] + b[2], a[3] + b[3]]
}

fn sub(a: [i32; 4], b: [i32; 4]) -> [i32; 4]
    requires { (k : ℕ) → nat_abs (at a k) + nat_abs (at b k) < 2 ^ 31 }
    ensures { result ≡ tab 4 (λ k. at a k -ℤ at b k) }
{
    [a[0] - b[0], a[1] - b[1], a[2] - b[2], a[3] - b[3]]
}

// To entries i to i + 3.
pub fn add_to(l: &mut [i32], i: usize, q: [i32; 4])
    requires in_lists { (i + 3 < length l.old) × (length l.old < 2 ^ 32) }
    requires sums_fit { (k : ℕ) → k < 4 → nat_abs (at l.old (i + k)) + nat_abs (at q k) < 2 ^ 31 }
    ensures { l.new ≡ sets l.old i (tab 4 (λ k. at l.old (i + k) +ℤ at q k)) }
{
    let old = load(l, i);
    store(l, i, add(old, q));
}

fn positives(a: [i32; 4]) -> [i32; 4]
    requires { (k : ℕ) → nat_abs (at a k) < 2 ^ 31 }
    ensures { result ≡ tab 4 (λ k. pos (multiplier (at a k))) }
{
    [
        rows::positive(a[0]),
        rows::positive(a[1]),
        rows::positive(a[2]),
        rows::positive(a[3]),
    ]
}

fn sizes(a: [i32; 4]) -> [i32; 4]
    requires { (k : ℕ) → nat_abs (at a k) < 2 ^ 31 }
    ensures { result ≡ tab 4 (λ k. pos (slack (at a k) + multiplier (at a k))) }
{
    [
        rows::size(a[0]),
        rows::size(a[1]),
        rows::size(a[2]),
        rows::size(a[3]),
    ]
}

fn lowered(a: [i32; 4]) -> [i32; 4]
    requires { (k : ℕ) → nat_abs (at a k) ≤ 2 * unit }
    ensures { result ≡ tab 4 (λ k. at a k -ℤ pos (4 * unit)) }
{
    [a[0] - RAISED, a[1] - RAISED, a[2] - RAISED, a[3] - RAISED]
}

// ---- the rows of one triple, of four frames

// "s becomes p + sum − U": the four rows, with c of the three variables, each raised by U. So U is in three of the sums already.
pub fn renewed(s: [[i32; 4]; 4], a: [i32; 4], b: [i32; 4], c: [i32; 4]) -> [[i32; 4]; 4]
    requires fours { Fours s }
    requires raised { (k : ℕ) → (nat_abs (at a k) ≤ 2 * unit) × (nat_abs (at b k) ≤ 2 * unit) × (nat_abs (at c k) ≤ 2 * unit) }
    ensures { result ≡ tab 4 (λ r. tab 4 (λ k. Iteration.renewed (cell s r k)
        (row_sum r (at a k -ℤ pos unit) (at b k -ℤ pos unit) (at c k -ℤ pos unit)))) }
{
    let plus = add(a, b);
    let minus = sub(a, b);
    [
        sub(add(positives(s[0]), minus), c),
        sub(sub(positives(s[1]), minus), c),
        add(sub(positives(s[2]), plus), c),
        add(add(positives(s[3]), plus), lowered(c)),
    ]
}

// What the four rows give each of the three variables.
pub fn shares(s: [[i32; 4]; 4]) -> [[i32; 4]; 3]
    requires { Fours s }
    ensures value { result ≡ tab 3 (λ p. tab 4 (λ k. sum_ℤ 4 (λ r. sign r p *ℤ pos (slack (cell s r k) + multiplier (cell s r k))))) }
    ensures shares_bound { (p k : ℕ) → nat_abs (cell result p k) ≤ 2 * most_row }
{
    let a = sizes(s[0]);
    let b = sizes(s[1]);
    let c = sizes(s[2]);
    let d = sizes(s[3]);
    let outer = add(d, a);
    let inner = add(b, c);
    let outer_change = sub(d, a);
    let inner_change = sub(b, c);
    [
        sub(outer, inner),
        add(outer_change, inner_change),
        sub(outer_change, inner_change),
    ]
}

// ---- numbers in two parts, where many are to be added

// x / 2^14, rounded down.
fn high(x: i32) -> i32
    ensures { result ≡ shr_z x (2 ^ 14) }
{
    x >> 14
}

pub fn highs(a: [i32; 4]) -> [i32; 4]
    requires { (k : ℕ) → nat_abs (at a k) ≤ 2 * most_row }
    ensures { (result ≡ tab 4 (λ k. shr_z (at a k) (2 ^ 14))) × ((k : ℕ) → nat_abs (at result k) ≤ 2 ^ 14) }
{
    [high(a[0]), high(a[1]), high(a[2]), high(a[3])]
}

// What x has more than 2^14 times that.
fn low(x: i32) -> i32
    requires { nat_abs x ≤ 2 * most_row }
    ensures { (result ≡ x -ℤ pos (2 ^ 14) *ℤ shr_z x (2 ^ 14)) × (nat_abs result ≤ 2 ^ 14) }
{
    x - 16384 * high(x)
}

pub fn lows(a: [i32; 4]) -> [i32; 4]
    requires { (k : ℕ) → nat_abs (at a k) ≤ 2 * most_row }
    ensures { (result ≡ tab 4 (λ k. at a k -ℤ pos (2 ^ 14) *ℤ shr_z (at a k) (2 ^ 14))) × ((k : ℕ) → nat_abs (at result k) ≤ 2 ^ 14) }
{
    [low(a[0]), low(a[1]), low(a[2]), low(a[3])]
}
