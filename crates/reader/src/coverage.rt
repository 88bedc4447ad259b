// Cause 8: whether each bit lies in some check.
ghost use Rattle.std.specs.Prelude.{◌≡◌, ◌≤◌};
ghost use Rattle.model.specs.Limits.{most_bits};
ghost use Rattle.model.specs.Records.{covered};
ghost use Rattle.reader.specs.Marks.{all_marked, Marks};

use crate::check::{Check, Checks};
use model::MOST_BITS;

// A mark at each bit of the check.
fn mark(check: &Check, seen: &mut [u8; MOST_BITS])
    ensures { Marks check.now seen.old seen.new }
{
    for i in 0..check.degree() {
        seen[check.bit(i)] = 1;
    }
}

// Whether each of the first n entries has a mark. By index: `all` over the slice says it of the slice, and the definition is by bits.
fn all_marked(seen: &[u8; MOST_BITS], n: usize) -> bool
    requires { n ≤ most_bits }
    ensures { result ≡ all_marked seen.now n }
{
    for b in 0..n {
        if seen[b] == 0 {
            return false;
        }
    }
    true
}

// Whether each of so many bits lies in some of the checks.
pub(crate) fn covers(checks: Checks, bits: usize) -> bool
    requires { bits ≤ most_bits }
    ensures { result ≡ covered (record { bits = bits; checks = checks.entry }) }
{
    let mut seen = [0u8; MOST_BITS];
    for check in checks {
        mark(&check, &mut seen);
    }
    all_marked(&seen, bits)
}
