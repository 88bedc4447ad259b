// The codeword test and the extension of a codeword to its point.
#![tactic(auto)]

ghost use Rattle.std.specs.Prelude.{◌≡◌, ◌+◌, ◌%◌, ◌≤◌, length, take};
ghost use Rattle.lists.specs.Tabulated.{written};
ghost use Rattle.model.specs.Limits.{most_variables};
ghost use Rattle.model.specs.Code.{turns, variables};
ghost use Rattle.model.specs.Sound.{SoundCheck};
ghost use Rattle.model.specs.Splitting.{triples_of, Named};
ghost use Rattle.model.specs.Words.{odd, first_odd};
ghost use Rattle.model.specs.Points as points;
ghost use Rattle.model.specs.Points.{point_of};
ghost use Rattle.model.specs.Calls.{verdict_told};
ghost use Rattle.model.specs.Promises.{TestCall, ExtensionCall};
ghost use Rattle.codeword.specs.Found.{Finds};

use model::{Cause, Verdict};
use reader::{Check, Code};

// Whether the word's sum over the check is odd.
fn is_odd(check: &Check, word: &[u8]) -> bool
    requires { Named check.now (length word.now) }
    ensures { result ≡ odd word.now check.now }
{
    let mut sum = 0usize;
    for i in 0..check.degree() {
        sum += usize::from(word[check.bit(i)]);
    }
    sum % 2 == 1
}

// The first check over which the word's sum is odd. Entries past the code's bits are not read.
pub fn first_odd(code: &Code, word: &[u8]) -> Option<usize>
    requires { code.now.bits ≤ length word.now }
    ensures { Finds result (first_odd code.now word.now) (length code.now.checks) }
{
    code.checks().position(|check| is_odd(&check, word))
}

// The codeword test: whether the word is a codeword, with the first check whose sum is odd; or the first cause, of the code, of the word's length (12) and of
// its entries (15).
pub fn test(code: &[u8], word: &[u8]) -> Result<Verdict, Cause>
    ensures { TestCall code.now word.now (verdict_told result) }
{
    let code = Code::read(code)?;
    inputs::judge_word(word, code.bits())?;
    match first_odd(&code, word) {
        Some(j) => Ok(Verdict::Odd(j)),
        None => Ok(Verdict::Codeword),
    }
}

// The sum modulo 2.
fn parity(x: u8, y: u8) -> u8
    ensures { result ≡ (x + y) % 2 }
{
    ((usize::from(x) + usize::from(y)) % 2) as u8
}

// The auxiliaries of the check, from `next` on: each from the two items of the queue that it is made of, which may be auxiliaries written before it.
fn write_auxiliaries(check: &Check, next: usize, point: &mut [u8])
    requires sound { SoundCheck next check.now × (next ≤ most_variables) }
    requires room { next + turns check.now ≤ length point.old }
    ensures { point.new
        ≡ written (points.extend (triples_of check.now next) (take next point.old)) point.old }
{
    for t in 0..check.turns() {
        let first = usize::from(triples::item(check, next, 2 * t));
        let second = usize::from(triples::item(check, next, 2 * t + 1));
        point[next + t] = parity(point[first], point[second]);
    }
}

// The word at the front of the point. By index: `copy_from_slice` is a `memmove`, a name that the library for C would then need from outside.
fn copy(word: &[u8], point: &mut [u8])
    requires { length word.now ≤ length point.old }
    ensures { point.new ≡ written word.now point.old }
{
    for (v, bit) in word.iter().enumerate() {
        point[v] = *bit;
    }
}

// The point of a word of the code.
fn write_point(code: &Code, word: &[u8], point: &mut [u8])
    requires word { length word.now ≡ code.now.bits }
    requires room { variables code.now ≤ length point.old }
    ensures { point.new ≡ written (point_of code.now word.now) point.old }
{
    copy(word, point);
    let mut next = word.len();
    for check in code.checks() {
        write_auxiliaries(&check, next, point);
        next += check.turns();
    }
}

// The extension of a codeword to its point, in a lent list with an entry for each variable; or why the list is left as it was: the first check whose sum is
// odd, or the first cause, those of the test and then the list's length (10).
pub fn extend(code: &[u8], word: &[u8], point: &mut [u8]) -> Result<Verdict, Cause>
    ensures { ExtensionCall code.now word.now point.old
        (record { outcome = verdict_told result; point = point.new }) }
{
    let code = Code::read(code)?;
    inputs::judge_word(word, code.bits())?;
    if point.len() < code.variables() {
        return Err(Cause::Room);
    }
    if let Some(j) = first_odd(&code, word) {
        return Ok(Verdict::Odd(j));
    }
    write_point(&code, word, point);
    Ok(Verdict::Codeword)
}
