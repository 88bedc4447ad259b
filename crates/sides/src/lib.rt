// The columns and the rows of an alist file of a code, from its checks: the degrees, and the indices of all lists one behind the other.
#![tactic(auto)]

ghost use Rattle.std.specs.Prelude.{◌≡◌, map, suc, ◌+◌, ◌≤◌, length};
ghost use Rattle.lists.specs.Entries.{total, sum};
ghost use Rattle.lists.specs.Tabulated.{tab, over};
ghost use Rattle.model.specs.Limits.{most_bits};
ghost use Rattle.model.specs.Sound.{Rising};
ghost use Rattle.model.specs.Alist.{column_from};
ghost use Rattle.model.specs.AlistClaims.{joined};
ghost use Rattle.sides.specs.Columns.{counted, Counted, start_of, placed, Room};
ghost use Rattle.text.specs.Appended.{Appended};

use model::MOST_BITS;
use reader::{Check, Code};

// The degrees of the checks, an entry for each; their sum.
pub fn row_degrees(code: &Code, degrees: &mut [u16]) -> usize
    requires { length degrees.old ≡ length code.now.checks }
    ensures degrees { degrees.new ≡ map length code.now.checks }
    ensures sum { result ≡ total length code.now.checks }
{
    let mut sum = 0;
    for (j, check) in code.checks().enumerate() {
        let degree = check.degree();
        degrees[j] = degree as u16;
        sum += degree;
    }
    sum
}

// The bits of a check, from 1, from `at` on; where the next index goes. The rows stand one behind the other, each as long as its check.
fn row(check: &Check, entries: &mut [u16], at: usize) -> usize
    requires { at + length check.now ≤ length entries.old }
    ensures { Appended at (map suc check.now) entries.old entries.new result }
{
    let degree = check.degree();
    for i in 0..degree {
        entries[at + i] = (check.bit(i) + 1) as u16;
    }
    at + degree
}

// The bits of all checks, from 1, row behind row.
pub fn row_entries(code: &Code, entries: &mut [u16])
    requires { length entries.old ≡ total length code.now.checks }
    ensures { entries.new ≡ joined (map (map suc) code.now.checks) }
{
    let mut at = 0;
    for check in code.checks() {
        at = row(&check, entries, at);
    }
}

// One more at each bit of the check.
fn count(check: &Check, degrees: &mut [u16])
    requires rising { Rising (length degrees.old) 0 check.now }
    requires room { Counted degrees.old 65534 }
    ensures { degrees.new ≡ counted check.now degrees.old }
{
    for i in 0..check.degree() {
        degrees[check.bit(i)] += 1;
    }
}

// How many checks each bit lies in, an entry for each.
pub fn column_degrees(code: &Code, degrees: &mut [u16])
    requires { length degrees.old ≡ code.now.bits }
    ensures { degrees.new ≡ tab code.now.bits (λ b. length (column_from 0 b code.now.checks)) }
{
    degrees.fill(0);
    for check in code.checks() {
        count(&check, degrees);
    }
}

// Where each column begins, the columns standing one behind the other.
fn starts(degrees: &[u16], next: &mut [u16; MOST_BITS])
    requires few { length degrees.now ≤ most_bits }
    requires sum { sum degrees.now ≤ 65535 }
    ensures { next.new ≡ over (length degrees.now) (start_of degrees.now) next.old }
{
    let mut at = 0;
    for (b, degree) in degrees.iter().enumerate() {
        next[b] = at as u16;
        at += usize::from(*degree);
    }
}

// Number j at the next place of the column of each bit of the check.
fn place(check: &Check, j: usize, next: &mut [u16; MOST_BITS], entries: &mut [u16])
    requires rising { Rising most_bits 0 check.now }
    requires number { j ≤ 65535 }
    requires places { length entries.old ≤ 65535 }
    requires room { Room check.now next.old entries.old }
    ensures next { next.new ≡ counted check.now next.old }
    ensures entries { entries.new ≡ placed j next.old check.now entries.old }
{
    for i in 0..check.degree() {
        let b = check.bit(i);
        let at = usize::from(next[b]);
        entries[at] = j as u16;
        next[b] = (at + 1) as u16;
    }
}

// The checks of each bit, from 1, rising, column behind column.
pub fn column_entries(code: &Code, degrees: &[u16], entries: &mut [u16])
    requires degrees { degrees.now ≡ tab code.now.bits (λ b. length (column_from 0 b code.now.checks)) }
    requires sum { length entries.old ≡ sum degrees.now }
    requires places { length entries.old ≤ 65535 }
    ensures { entries.new ≡ joined (tab code.now.bits (λ b. column_from 0 b code.now.checks)) }
{
    let checks = code.checks();
    let mut next = [0u16; MOST_BITS];
    starts(degrees, &mut next);
    for (j, check) in checks.enumerate() {
        place(&check, j + 1, &mut next, entries);
    }
}
