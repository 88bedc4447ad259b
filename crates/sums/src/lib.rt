// S: the sum over each variable's rows of z + p, on lists of exact length. Rows that a run reaches are taken, as they stand while it goes.
#![tactic(auto)]

ghost use Rattle.std.specs.Prelude.{◌≡◌, List, ℕ, suc, ◌+◌, ◌-◌, ◌*◌, ◌%◌, ◌^◌, ◌≤◌, ◌<◌, eqb, ℤ, nat_abs, ◌+ℤ◌, length};
ghost use Rattle.lists.specs.Tabulated.{tab};
ghost use Rattle.model.specs.Limits.{most_triples, most_done};
ghost use Rattle.model.specs.Splitting.{blank, Members};
ghost use Rattle.model.specs.Iteration.{at, ◌when◌, sum_of};
ghost use Rattle.model.specs.Bounds.{RowsWithin};
ghost use Rattle.layout.specs.Transposed.{straight};
ghost use Rattle.sums.specs.Shares.{Summed, Due, Copied, Shared, Group, InFours};

use model::BLANK;

// The variable v is given x.
fn add(sums: &mut [i64], v: usize, x: i32)
    requires { (v < length sums.old) × (nat_abs (at sums.old v) ≤ 2 ^ 60) }
    ensures { (n : ℕ) (f : ℕ → ℤ) → sums.old ≡ tab n f → sums.new ≡ tab n (λ u. f u +ℤ (x when eqb v u)) }
{
    sums[v] += i64::from(x);
}

// The same where v is a variable: the blank is given nothing. The other two places have no such test to make.
fn add_third(sums: &mut [i64], v: usize, x: i32)
    requires { (length sums.old ≤ blank) × ((v ≡ blank → ⊥) → (v < length sums.old) × (nat_abs (at sums.old v) ≤ 2 ^ 60)) }
    ensures { (n : ℕ) (f : ℕ → ℤ) → sums.old ≡ tab n f → sums.new ≡ tab n (λ u. f u +ℤ (x when eqb v u)) }
{
    if v != BLANK {
        add(sums, v, x);
    }
}

// Each variable of the triple at i is given its share.
fn give(triples: &[u16], i: usize, shares: [i32; 3], sums: &mut [i64])
    requires in_lists { (i < most_triples) × (3 * i + 2 < length triples.now) }
    requires due { (ts : List ℕ) × (N : ℕ) × (t : ℕ) × (s : List ℤ) × (Due ts N t s sums.old triples.now i shares) }
    ensures { (ts : List ℕ) (N t : ℕ) (s : List ℤ) → Due ts N t s sums.old triples.now i shares
        → Summed ts N (suc t) s sums.new }
{
    add(sums, layout::variable(triples, i, 0), shares[0]);
    add(sums, layout::variable(triples, i, 1), shares[1]);
    add_third(sums, layout::variable(triples, i, 2), shares[2]);
}

// The first triples, whose rows are not transposed.
fn give_first(triples: &[u16], rows: &[i32], count: usize, sums: &mut [i64])
    requires lists_long { (count ≤ most_triples) × (3 * count ≡ length triples.now) × (4 * count ≡ length rows.now) }
    requires members { (Members triples.now (length sums.old)) × (RowsWithin most_done rows.now) }
    ensures { Summed triples.now (length sums.old) (count % 4) (straight count rows.now) sums.new }
{
    sums.fill(0);
    for t in 0..count % 4 {
        give(triples, t, rows::shares(layout::load(rows, t)), sums);
    }
}

// Four b of the triples from t on is copied.
fn copy_four(triples: &[u16], t: usize, b: usize, members: &mut [u16])
    requires { (b < 8) × (t + 4 * b + 4 ≤ most_triples) × (3 * (t + 4 * b + 4) ≤ length triples.now) × (length members.old ≡ 96) }
    ensures { Copied triples.now t (4 * b) members.old → Copied triples.now t (4 * (b + 1)) members.new }
{
    let from = 3 * (t + 4 * b);
    let to = 12 * b;
    members[to..to + 12].copy_from_slice(&triples[from..from + 12]);
}

// The shares of four b of the triples from t on, behind those before them.
fn share_four(rows: &[i32], t: usize, b: usize, shares: &mut [i32])
    requires in_lists { (t + 4 * b + 4 ≤ most_triples) × (4 * (t + 4 * b + 4) ≤ length rows.now) × (RowsWithin most_done rows.now) }
    requires in_shares { (b < 8) × (length shares.old ≡ 96) }
    ensures { (T : ℕ) → InFours T t (4 * (b + 1)) → Shared (straight T rows.now) t (4 * b) shares.old
        → Shared (straight T rows.now) t (4 * (b + 1)) shares.new }
{
    let s = layout::load_four(rows, t + 4 * b);
    let e = rows::shares(s[0]);
    let f = rows::shares(s[1]);
    let g = rows::shares(s[2]);
    let h = rows::shares(s[3]);
    layout::store(shares, b, [e[0], f[0], g[0], h[0]]);
    layout::store(shares, 8 + b, [e[1], f[1], g[1], h[1]]);
    layout::store(shares, 16 + b, [e[2], f[2], g[2], h[2]]);
}

// The 4n triples from t on become a group: they are copied, and their shares are formed.
fn form_group(
    triples: &[u16],
    rows: &[i32],
    t: usize,
    n: usize,
    members: &mut [u16],
    shares: &mut [i32],
)
    requires in_lists { (n ≤ 8) × (t + 4 * n ≤ most_triples) × (3 * (t + 4 * n) ≤ length triples.now) × (4 * (t + 4 * n) ≤ length rows.now) }
    requires rows_within { (RowsWithin most_done rows.now) × (length members.old ≡ 96) × (length shares.old ≡ 96) }
    ensures { (T : ℕ) → InFours T t (4 * n)
        → Group triples.now (straight T rows.now) t (4 * n) members.new shares.new }
{
    for b in 0..n {
        copy_four(triples, t, b, members);
        share_four(rows, t, b, shares);
    }
}

// The variables of the i-th triple of a group are given their shares.
fn give_one(members: &[u16], shares: &[i32], i: usize, sums: &mut [i64])
    requires in_lists { (i < 32) × (length members.now ≡ 96) × (length shares.now ≡ 96) }
    requires due { (ts : List ℕ) × (N : ℕ) × (t : ℕ) × (s : List ℤ)
        × (Summed ts N (t + i) s sums.old) × (Group ts s t (suc i) members.now shares.now) }
    ensures { (ts : List ℕ) (N t : ℕ) (s : List ℤ) → Summed ts N (t + i) s sums.old
        → Group ts s t (suc i) members.now shares.now → Summed ts N (t + suc i) s sums.new }
{
    give(
        members,
        i,
        [shares[i], shares[32 + i], shares[64 + i]],
        sums,
    );
}

// Four b of a group. Given four at a time, the third place's test costs less than the loop's own.
fn give_four(members: &[u16], shares: &[i32], b: usize, sums: &mut [i64])
    requires in_lists { (b < 8) × (length members.now ≡ 96) × (length shares.now ≡ 96) }
    requires due { (ts : List ℕ) × (N : ℕ) × (t : ℕ) × (s : List ℤ)
        × (Summed ts N (t + 4 * b) s sums.old) × (Group ts s t (4 * (b + 1)) members.now shares.now) }
    ensures { (ts : List ℕ) (N t : ℕ) (s : List ℤ) → Summed ts N (t + 4 * b) s sums.old
        → Group ts s t (4 * (b + 1)) members.now shares.now → Summed ts N (t + 4 * (b + 1)) s sums.new }
{
    give_one(members, shares, 4 * b, sums);
    give_one(members, shares, 4 * b + 1, sums);
    give_one(members, shares, 4 * b + 2, sums);
    give_one(members, shares, 4 * b + 3, sums);
}

// The 4n triples of a group.
fn give_group(members: &[u16], shares: &[i32], n: usize, sums: &mut [i64])
    requires in_lists { (n ≤ 8) × (length members.now ≡ 96) × (length shares.now ≡ 96) }
    requires due { (ts : List ℕ) × (N : ℕ) × (t : ℕ) × (s : List ℤ)
        × (Summed ts N t s sums.old) × (Group ts s t (4 * n) members.now shares.now) }
    ensures { (ts : List ℕ) (N t : ℕ) (s : List ℤ) → Summed ts N t s sums.old
        → Group ts s t (4 * n) members.now shares.now → Summed ts N (t + 4 * n) s sums.new }
{
    for b in 0..n {
        give_four(members, shares, b, sums);
    }
}

// "S is the sum over its rows of z + p", for every variable. Up to 32 triples are copied, and their shares formed, before these are given: a triple that is
// read from the lent list between stores to S may have to wait for one of them, by where the two lists lie.
pub fn gather(triples: &[u16], rows: &[i32], count: usize, sums: &mut [i64])
    requires lists_long { (count ≤ most_triples) × (3 * count ≡ length triples.now) × (4 * count ≡ length rows.now) }
    requires members { (Members triples.now (length sums.old)) × (RowsWithin most_done rows.now) }
    ensures { sums.new ≡ tab (length sums.old) (sum_of triples.now count (straight count rows.now)) }
{
    give_first(triples, rows, count, sums);
    let mut members = [0u16; 96];
    let mut shares = [0i32; 96];
    for t in (count % 4..count).step_by(32) {
        let fours = (count - t).min(32) / 4;
        form_group(triples, rows, t, fours, &mut members, &mut shares);
        give_group(&members, &shares, fours, sums);
    }
}
