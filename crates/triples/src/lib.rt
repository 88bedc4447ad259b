// The splitting of checks into triples, and how many triples each variable is in.
#![tactic(auto)]

ghost use Rattle.std.specs.Prelude.{◌≡◌, ◌≢◌, ◌+◌, ◌*◌, ◌≤◌, ◌<◌, length, get_or, set};
ghost use Rattle.lists.specs.Tabulated.{written};
ghost use Rattle.model.specs.Limits.{most_variables};
ghost use Rattle.model.specs.Causes.{number_of};
ghost use Rattle.model.specs.Code.{turns, triple_count};
ghost use Rattle.model.specs.Sound.{SoundCheck};
ghost use Rattle.model.specs.Splitting.{blank, waiting, triples_of, system_of};
ghost use Rattle.model.specs.TripleRule.{items};
ghost use Rattle.model.specs.Iteration.{counts_of};
ghost use Rattle.model.specs.Promises.{SplitterCall};
ghost use Rattle.triples.specs.Counting.{counted};

use model::{BLANK, Cause};
use reader::{Check, Code};

// Item i of the check's queue: its bits, the blank behind two of them, then the auxiliaries from `next` on.
pub fn item(check: &Check, next: usize, i: usize) -> u16
    requires auxiliary { next ≤ most_variables }
    requires within { i < length (waiting check.now) + turns check.now }
    ensures { result ≡ get_or (items check.now next) i 0 }
{
    let d = check.degree();
    if i < d {
        check.bit(i) as u16
    } else if d < 3 {
        BLANK as u16
    } else {
        (next + (i - d)) as u16
    }
}

// Triple t of that check: items 2t and 2t + 1, and the third. By index: what is written stands at a place that is worked out.
fn put(check: &Check, next: usize, t: usize, third: u16, out: &mut [u16])
    requires auxiliary { next ≤ most_variables }
    requires within { 2 * t + 1 < length (waiting check.now) + turns check.now }
    requires room { 3 * t + 3 ≤ length out.old }
    ensures { out.new ≡ (let i = items check.now next in
        set (set (set out.old (3 * t) (get_or i (2 * t) 0)) (3 * t + 1) (get_or i (2 * t + 1) 0)) (3 * t + 2) third) }
{
    let first = item(check, next, 2 * t);
    let second = item(check, next, 2 * t + 1);
    out[3 * t] = first;
    out[3 * t + 1] = second;
    out[3 * t + 2] = third;
}

// The triples of that check: one for each auxiliary, and the last three items.
fn write_check(check: &Check, next: usize, out: &mut [u16])
    requires sound { SoundCheck next check.now × (next ≤ most_variables) }
    requires room { 3 * triple_count check.now ≤ length out.old }
    ensures { out.new ≡ written (triples_of check.now next) out.old }
{
    let turns = check.turns();
    for t in 0..turns {
        put(check, next, t, (next + t) as u16, out);
    }
    put(check, next, turns, item(check, next, 2 * turns + 2), out);
}

// The triples of all checks.
fn write_triples(code: &Code, triples: &mut [u16])
    requires room { 3 * (system_of code.now).triples ≤ length triples.old }
    ensures { triples.new ≡ written (system_of code.now).members triples.old }
{
    let mut next = code.bits();
    let mut done = 0;
    for check in code.checks() {
        write_check(&check, next, &mut triples[done..]);
        done += 3 * check.triple_count();
        next += check.turns();
    }
}

// One more for the variable v; the blank has no count.
fn count(v: u16, counts: &mut [u16])
    requires { v ≢ blank → (v < length counts.old) × (get_or counts.old v 0 < 65535) }
    ensures { counts.new ≡ counted counts.old v }
{
    let v = usize::from(v);
    if v != BLANK {
        counts[v] += 1;
    }
}

// How often each variable of the code stands in its triples.
fn write_counts(code: &Code, triples: &[u16], counts: &mut [u16])
    requires members { triples.now ≡ (system_of code.now).members }
    requires room { (system_of code.now).variables ≤ length counts.old }
    ensures { counts.new ≡ written (counts_of (system_of code.now)) counts.old }
{
    counts[..code.variables()].fill(0);
    for v in triples {
        count(*v, counts);
    }
}

// The triples and the counts of a code, in lists with room for them.
pub fn write_system(code: &Code, triples: &mut [u16], counts: &mut [u16])
    requires room { (3 * (system_of code.now).triples ≤ length triples.old) × ((system_of code.now).variables ≤ length counts.old) }
    ensures triples_after { triples.new ≡ written (system_of code.now).members triples.old }
    ensures counts_after { counts.new ≡ written (counts_of (system_of code.now)) counts.old }
{
    write_triples(code, triples);
    write_counts(code, &triples[..3 * code.triples()], counts);
}

// The splitting of any code into lent lists, for T triples and V variables 3T triple entries and V counts: or the first cause, and both lists stay.
pub fn split(code: &[u8], triples: &mut [u16], counts: &mut [u16]) -> Result<(), Cause>
    ensures { SplitterCall code.now triples.old counts.old
        (record { number = number_of result; triples = triples.new; counts = counts.new }) }
{
    let code = Code::read(code)?;
    if triples.len() < 3 * code.triples() || counts.len() < code.variables() {
        return Err(Cause::Room);
    }
    write_system(&code, triples, counts);
    Ok(())
}
