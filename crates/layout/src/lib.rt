// Rows in a list: those of one triple, and those of four triples, which stand transposed while a run goes. So the compiler works four triples
// out side by side.
#![tactic(auto)]

ghost use Rattle.std.specs.Prelude.{◌≡◌, ℕ, ◌+◌, ◌-◌, ◌*◌, ◌/◌, ◌%◌, ◌≤◌, ◌<◌, nat_abs, length};
ghost use Rattle.std.proofs.lemmas.List.Edits.{sets};
ghost use Rattle.lists.specs.Tabulated.{tab};
ghost use Rattle.model.specs.Splitting.{member};
ghost use Rattle.model.specs.Iteration.{at, row};
ghost use Rattle.model.specs.Limits.{most_triples, most_row};
ghost use Rattle.layout.specs.Transposed.{cell, Fours, lane, stored, straight};

// ---- one triple

// The variable at position p of triple t.
pub fn variable(triples: &[u16], t: usize, p: usize) -> usize
    requires { (t ≤ most_triples) × (p < 3) × (3 * t + p < length triples.now) }
    ensures { result ≡ member triples.now t p }
{
    usize::from(triples[3 * t + p])
}

// Entries 4t to 4t + 3: the rows of triple t, where they are not transposed.
pub fn load(rows: &[i32], t: usize) -> [i32; 4]
    requires { (t ≤ most_triples) × (4 * t + 3 < length rows.now) }
    ensures { result ≡ tab 4 (λ r. row rows.now t r) }
{
    let i = 4 * t;
    [rows[i], rows[i + 1], rows[i + 2], rows[i + 3]]
}

pub fn store(rows: &mut [i32], t: usize, s: [i32; 4])
    requires in_lists { (t ≤ most_triples) × (4 * t + 3 < length rows.old) }
    requires bounded { (r : ℕ) → nat_abs (at s r) ≤ 4 * most_row }
    ensures { rows.new ≡ sets rows.old (4 * t) (tab 4 (at s)) }
{
    let i = 4 * t;
    rows[i] = s[0];
    rows[i + 1] = s[1];
    rows[i + 2] = s[2];
    rows[i + 3] = s[3];
}

// ---- four triples

// Cell j of each four.
fn column(q: [[i32; 4]; 4], j: usize) -> [i32; 4]
    requires { (j < 4) × Fours q }
    ensures { result ≡ tab 4 (λ k. cell q k j) }
{
    [q[0][j], q[1][j], q[2][j], q[3][j]]
}

// Rows transposed, or transposed back.
fn transpose(q: [[i32; 4]; 4]) -> [[i32; 4]; 4]
    requires { Fours q }
    ensures { result ≡ tab 4 (λ j. tab 4 (λ k. cell q k j)) }
{
    [column(q, 0), column(q, 1), column(q, 2), column(q, 3)]
}

fn load_all(rows: &[i32], t: usize) -> [[i32; 4]; 4]
    requires { (t + 4 ≤ most_triples) × (4 * t + 15 < length rows.now) }
    ensures { result ≡ tab 4 (λ k. tab 4 (λ j. row rows.now (t + k) j)) }
{
    [
        load(rows, t),
        load(rows, t + 1),
        load(rows, t + 2),
        load(rows, t + 3),
    ]
}

fn store_all(rows: &mut [i32], t: usize, q: [[i32; 4]; 4])
    requires { (t + 4 ≤ most_triples) × (4 * t + 15 < length rows.old) × Fours q }
    ensures { rows.new ≡ sets rows.old (4 * t) (tab 16 (λ j. cell q (j / 4) (j % 4))) }
{
    store(rows, t, q[0]);
    store(rows, t + 1, q[1]);
    store(rows, t + 2, q[2]);
    store(rows, t + 3, q[3]);
}

// The rows of the four triples from t on.
pub fn load_four(rows: &[i32], t: usize) -> [[i32; 4]; 4]
    requires { (t + 4 ≤ most_triples) × (4 * t + 15 < length rows.now) × ((i : ℕ) → 4 * t ≤ i → nat_abs (at rows.now i) ≤ most_row) }
    ensures { result ≡ tab 4 (lane rows.now t) }
{
    transpose(load_all(rows, t))
}

pub fn store_four(rows: &mut [i32], t: usize, q: [[i32; 4]; 4])
    requires { (t + 4 ≤ most_triples) × (4 * t + 15 < length rows.old) × Fours q }
    ensures { rows.new ≡ stored rows.old t q }
{
    store_all(rows, t, transpose(q))
}

// ---- all

// The rows of all triples, transposed back.
pub fn straighten(rows: &mut [i32], count: usize)
    requires { (count ≤ most_triples) × (4 * count ≡ length rows.old) × ((i : ℕ) → nat_abs (at rows.old i) ≤ most_row) }
    ensures { rows.new ≡ straight count rows.old }
{
    for t in (count % 4..count).step_by(4) {
        let q = load_all(rows, t);
        store_four(rows, t, q);
    }
}
