// A check of a code, and the checks that are left.
ghost use Rattle.std.specs.Prelude.{◌≡◌, ◌≤◌, ◌<◌, length, get_or};
ghost use Rattle.model.specs.Limits.{most_bits, least_degree, most_degree};
ghost use Rattle.model.specs.Code.{turns, triple_count};

use std::marker::Model;

// A check of a sound code: callers see its bits.
#[derive(Drop)]
pub struct Check<'a> {
    record: &'a [u8],
}

impl<'a> Model for Check<'a> {
    ghost use Rattle.std.specs.Prelude.{List, ℕ};
    ghost use Rattle.model.specs.Records.{indices};
    ghost use Rattle.reader.specs.Judged.{JudgedCheck};

    ghost Value = { List ℕ };

    ghost view = { λ a. indices a.record.now };

    ghost invariant = { λ a. JudgedCheck a.record.now };
}

impl Check<'_> {
    // How many bits it has.
    pub fn degree(&self) -> usize
        ensures value { result ≡ length self.now }
        ensures range { (least_degree ≤ result) × (result ≤ most_degree) }
    {
        records::degree(self.record)
    }

    // Its i-th bit.
    pub fn bit(&self, i: usize) -> usize
        requires { i < length self.now }
        ensures value { result ≡ get_or self.now i 0 }
        ensures bound { result < most_bits }
    {
        records::index(self.record, i)
    }

    // The turns of the queue on it: one for each bit above three.
    pub fn turns(&self) -> usize
        ensures value { result ≡ turns self.now }
        ensures bound { result ≤ most_degree }
    {
        records::turns(self.record)
    }

    // Its triples: one for each turn, and the last.
    pub fn triple_count(&self) -> usize
        ensures value { result ≡ triple_count self.now }
        ensures bound { result ≤ most_degree }
    {
        records::triple_count(self.record)
    }
}

// The checks of a sound code that are left: callers see the bits of each.
#[derive(Drop)]
pub struct Checks<'a> {
    pub(crate) left: usize,
    pub(crate) records: &'a [u8],
}

impl<'a> Model for Checks<'a> {
    ghost use Rattle.std.specs.Prelude.{List, ℕ};
    ghost use Rattle.model.specs.Records.{checks_in};
    ghost use Rattle.reader.specs.Judged.{JudgedChecks};

    ghost Value = { List (List ℕ) };

    ghost view = { λ a. checks_in a.left a.records.now };

    ghost invariant = { λ a. JudgedChecks a.left a.records.now };
}

impl<'a> Iterator for Checks<'a> {
    type Item = Check<'a>;

    ghost use Rattle.std.specs.Iterator.{YieldsFirst, item_count};

    ghost next_gives = { YieldsFirst (λ checks. checks) };

    ghost remaining = { item_count (λ checks. checks) };

    fn next(&mut self) -> Option<Check<'a>> {
        if self.left == 0 {
            return None;
        }
        let record = self.records;
        self.records = records::after_check(record);
        self.left -= 1;
        Some(Check { record })
    }
}
