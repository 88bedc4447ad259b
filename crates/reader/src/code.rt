// A code whose records are sound.
ghost use Rattle.std.specs.Prelude.{◌≡◌, ◌≤◌, length, IfOk};
ghost use Rattle.lists.specs.Entries.{total};
ghost use Rattle.model.specs.Limits.{most_bits, most_checks, most_triples, most_variables};
ghost use Rattle.model.specs.Causes.{number_of};
ghost use Rattle.model.specs.Code.{triple_count, triples, variables};
ghost use Rattle.model.specs.Records.{checks_in, after_checks, judge_checks, code_of, judge};
ghost use Rattle.model.specs.Sound.{Sound};
ghost use Rattle.reader.specs.Sizes.{sizes_of};

use crate::check::Checks;
use crate::coverage::covers;
use model::{Cause, MOST_TRIPLES, Sizes};
use std::marker::Model;

// A code whose records are sound: callers see its bits and its checks. `Code::read` alone makes one.
#[derive(Drop)]
pub struct Code<'a> {
    sizes: Sizes,
    bytes: &'a [u8],
}

impl<'a> Model for Code<'a> {
    ghost use Rattle.model.specs.Code.{Code};
    ghost use Rattle.model.specs.Records.{code_of};
    ghost use Rattle.reader.specs.Judged.{JudgedCode};

    ghost Value = { Code };

    ghost view = { λ a. code_of a.bytes.now };

    ghost invariant = { λ a. JudgedCode a.bytes.now a.sizes };
}

// How many triples the check records that `s` begins with have, and what follows them; or their first cause.
#[tactic(auto, using(crate::proofs::Steps::one_check))]
fn judge_checks(s: &[u8], bits: usize, checks: usize) -> Result<(usize, &[u8]), Cause>
    requires { checks ≤ most_checks }
    ensures number { number_of result ≡ judge_checks bits checks s.now }
    ensures found { IfOk result (λ found. (found.0 ≡ total triple_count (checks_in checks s.now)) × (found.1.now ≡ after_checks checks s.now)) }
{
    let mut rest = s;
    let mut triples = 0;
    for _ in 0..checks {
        records::judge_check(rest, bits)?;
        triples += records::triple_count(rest);
        rest = records::after_check(rest);
    }
    Ok((triples, rest))
}

#[tactic(auto, using(crate::proofs::Known::judged_code))]
impl<'a> Code<'a> {
    // The code that these bytes are the records of, or the first cause: 1 to 6, then 9, 7, 8.
    pub fn read(bytes: &'a [u8]) -> Result<Code<'a>, Cause>
        ensures number { number_of result ≡ judge bytes.now }
        ensures code { IfOk result (λ code. code ≡ code_of bytes.now) }
    {
        let header = records::read_header(bytes)?;
        let bits = header.bits;
        let checks = header.checks;
        let (triples, rest) = judge_checks(header.rest, bits, checks)?;
        if !rest.is_empty() {
            return Err(Cause::Trailing);
        }
        if MOST_TRIPLES < triples {
            return Err(Cause::Triples);
        }
        let all = Checks {
            left: checks,
            records: header.rest,
        };
        if !covers(all, bits) {
            return Err(Cause::Uncovered);
        }
        Ok(Code {
            sizes: Sizes {
                bits,
                checks,
                triples,
            },
            bytes,
        })
    }

    // Bits, checks and triples.
    pub fn sizes(&self) -> Sizes
        ensures value { result ≡ sizes_of self.now }
        ensures sound { Sound self.now }
    {
        self.sizes
    }

    // How many bits it has.
    pub fn bits(&self) -> usize
        ensures value { result ≡ self.now.bits }
        ensures most { result ≤ most_bits }
    {
        self.sizes.bits
    }

    // How many triples it is split into.
    pub fn triples(&self) -> usize
        ensures value { result ≡ triples self.now }
        ensures most { result ≤ most_triples }
        ensures sound { Sound self.now }
    {
        self.sizes.triples
    }

    // A variable for each bit, and for each auxiliary.
    pub fn variables(&self) -> usize
        ensures value { result ≡ variables self.now }
        ensures most { result ≤ most_variables }
        ensures sound { Sound self.now }
    {
        self.sizes.bits + self.sizes.triples - self.sizes.checks
    }

    // How many checks it has.
    pub fn check_count(&self) -> usize
        ensures value { result ≡ length self.now.checks }
        ensures most { result ≤ most_checks }
    {
        self.sizes.checks
    }

    // Its checks, one after another.
    pub fn checks(&self) -> Checks<'a>
        ensures value { result ≡ self.now.checks }
        ensures sound { Sound self.now }
    {
        Checks {
            left: self.sizes.checks,
            records: records::after_header(self.bytes),
        }
    }

    // Its records.
    pub fn bytes(&self) -> &'a [u8]
        ensures judged { judge result.now ≡ 0 }
        ensures value { code_of result.now ≡ self.now }
    {
        self.bytes
    }
}
