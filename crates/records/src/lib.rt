// Code records: what a header and a check say, the judgement of each, and their writer. Numbers of two bytes have the high byte first.
#![tactic(auto)]

ghost use Rattle.std.specs.Prelude.{◌≡◌, ◌+◌, ◌-◌, ◌*◌, ◌≤◌, ◌<◌, length, get_or, drop, MatchResult, IfOk};
ghost use Rattle.model.specs.declared.Cause.TheVariants.{Cut};
ghost use Rattle.model.specs.Causes.{number_of};
ghost use Rattle.model.specs.Code.{turns, triple_count};
ghost use Rattle.model.specs.Records.{two_bytes, bit_count, check_count, degree, indices, after_check, judge_header, judge_indices, judge_check};
ghost use Rattle.records.specs.Whole.{Whole};

pub mod writer;

use model::{Cause, LEAST_DEGREE, MOST_BITS, MOST_CHECKS, MOST_DEGREE};
pub use writer::{write_check, write_header, write_two_bytes};

// The marks that a header and a check begin with.
const HEADER_MARK: usize = 0x4c48;

const CHECK_MARK: usize = 0x4c43;

// ---- what bytes say

// The two-byte number at `at`.
#[tactic(auto, unfolding(model::specs::Records::two_bytes))]
pub fn two_bytes(s: &[u8], at: usize) -> usize
    requires { at + 2 ≤ length s.now }
    ensures { (result ≡ two_bytes (drop at s.now)) × (result ≤ 65535) }
{
    256 * usize::from(s[at]) + usize::from(s[at + 1])
}

// The two-byte number that `s` begins with, and what follows it.
#[tactic(auto, unfolding(model::specs::Records::two_bytes))]
pub fn split_number(s: &[u8]) -> Result<(usize, &[u8]), Cause>
    ensures { MatchResult result
        (λ split. (2 ≤ length s.now) × (split.0 ≡ two_bytes s.now) × (split.0 ≤ 65535) × (split.1.now ≡ drop 2 s.now))
        (λ cause. (length s.now < 2) × (cause ≡ Cut)) }
{
    match s {
        [high, low, rest @ ..] => Ok((256 * usize::from(*high) + usize::from(*low), rest)),
        _ => Err(Cause::Cut),
    }
}

// The check records of a code, behind its header.
pub fn after_header(code: &[u8]) -> &[u8]
    requires { 6 ≤ length code.now }
    ensures { result.now ≡ drop 6 code.now }
{
    &code[6..]
}

// The degree of the check record that `s` begins with. Of any bytes: a stream's check is looked at before it is whole, so no `reader::Check` is there.
#[tactic(auto, using(model::proofs::Accepted::length_numbers))]
pub fn degree(s: &[u8]) -> usize
    requires { 3 ≤ length s.now }
    ensures { (result ≡ degree s.now) × (result ≡ length (indices s.now)) × (result ≤ 255) }
{
    usize::from(s[2])
}

// Index i of that check.
pub fn index(s: &[u8], i: usize) -> usize
    requires { Whole s.now × (i < degree s.now) }
    ensures { (result ≡ get_or (indices s.now) i 0) × (result ≤ 65535) }
{
    two_bytes(s, 3 + 2 * i)
}

// The turns of the queue on that check: one for each bit above three.
pub fn turns(s: &[u8]) -> usize
    requires { 3 ≤ length s.now }
    ensures { (result ≡ turns (indices s.now)) × (result ≤ 252) }
{
    let d = degree(s);
    if 3 < d { d - 3 } else { 0 }
}

// Its triples: one for each turn, and the last.
pub fn triple_count(s: &[u8]) -> usize
    requires { 3 ≤ length s.now }
    ensures { (result ≡ triple_count (indices s.now)) × (result ≤ 253) }
{
    turns(s) + 1
}

// What follows the record.
pub fn after_check(s: &[u8]) -> &[u8]
    requires { Whole s.now }
    ensures { result.now ≡ after_check s.now }
{
    let size = 3 + 2 * degree(s);
    &s[size..]
}

// ---- the judgement

// What a header says, and what follows it.
#[derive(Drop)]
pub struct Header<'a> {
    pub bits: usize,
    pub checks: usize,
    pub rest: &'a [u8],
}

// The header that `s` begins with, or its first cause: 1 where it is cut, 2, 3.
#[tactic(auto, unfolding(model::specs::Records::judge_header))]
pub fn read_header(s: &[u8]) -> Result<Header<'_>, Cause>
    ensures number { number_of result ≡ judge_header s.now }
    ensures header { IfOk result (λ header. (header.bits ≡ bit_count s.now) × (header.checks ≡ check_count s.now) × (header.rest.now ≡ drop 6 s.now)) }
{
    let (mark, rest) = split_number(s)?;
    if mark != HEADER_MARK {
        return Err(Cause::Mark);
    }
    let (bits, rest) = split_number(rest)?;
    if !(3..=MOST_BITS).contains(&bits) {
        return Err(Cause::Size);
    }
    let (checks, rest) = split_number(rest)?;
    if !(1..=MOST_CHECKS).contains(&checks) {
        return Err(Cause::Size);
    }
    Ok(Header { bits, checks, rest })
}

// The first cause among the `degree` indices that `s` begins with: 1, 5, 6.
#[tactic(auto, using(crate::proofs::Indices::one_index))]
fn judge_indices(s: &[u8], degree: usize, bits: usize) -> Result<(), Cause>
    ensures { number_of result ≡ judge_indices bits degree 0 s.now }
{
    let mut rest = s;
    let mut low = 0;
    for _ in 0..degree {
        let (index, after) = split_number(rest)?;
        if bits <= index {
            return Err(Cause::Index);
        }
        if index < low {
            return Err(Cause::Order);
        }
        low = index + 1;
        rest = after;
    }
    Ok(())
}

// The first cause in the check record that `s` begins with: 1, 2, 4, 5, 6.
#[tactic(auto, unfolding(model::specs::Records::judge_check))]
pub fn judge_check(s: &[u8], bits: usize) -> Result<(), Cause>
    ensures { number_of result ≡ judge_check bits s.now }
{
    let (mark, rest) = split_number(s)?;
    if mark != CHECK_MARK {
        return Err(Cause::Mark);
    }
    let (degree, rest) = rest.split_first().ok_or(Cause::Cut)?;
    if !(LEAST_DEGREE..=MOST_DEGREE).contains(&usize::from(*degree)) {
        return Err(Cause::Degree);
    }
    judge_indices(rest, usize::from(*degree), bits)
}
