// Tests of inputs that several entries share: settings of a run, costs and words.
#![tactic(auto)]

ghost use Rattle.std.specs.Prelude.{◌≡◌, false, nat_abs, ◌≤◌};
ghost use Rattle.lists.specs.Entries.{some};
ghost use Rattle.model.specs.Limits.{most_cost};
ghost use Rattle.model.specs.Causes.{number_of, first_of};
ghost use Rattle.model.specs.Calls.{out_of_range, forbidden, not_binary, word_causes};
ghost use Rattle.model.specs.DecoderClaims.{Small};

use model::{Cause, MOST_ITERATIONS, MOST_RATIO, MOST_WEIGHT, Settings};

// 11: a setting out of its range.
pub fn out_of_range(settings: Settings) -> bool
    ensures { result ≡ out_of_range settings }
{
    !(1..=MOST_WEIGHT).contains(&settings.weight)
        || MOST_RATIO < settings.ratio
        || !(1..=MOST_ITERATIONS).contains(&settings.limit)
}

fn is_forbidden(cost: i16) -> bool
    ensures value { result ≡ forbidden cost }
    ensures small { result ≡ false → nat_abs cost ≤ most_cost }
{
    cost == i16::MIN
}

// 13: some cost is -32,768; where none is, all have a negative.
#[tactic(auto, using(lists::proofs::Entries::found_next, lists::proofs::Entries::found_end, crate::proofs::Costs::small_next, crate::proofs::Costs::small_end))]
pub fn some_forbidden(costs: &[i16]) -> bool
    ensures value { result ≡ some forbidden costs.now }
    ensures small { result ≡ false → Small costs.now }
{
    // Without a branch: `any` takes 13 times as long at 4,096 entries, and `contains` tells no range of the costs that it passes over.
    let mut found = false;
    for cost in costs {
        found |= is_forbidden(*cost);
    }
    found
}

// 15: some entry is neither 0 nor 1.
#[tactic(auto, using(lists::proofs::Entries::found_next, lists::proofs::Entries::found_end))]
pub fn some_not_binary(word: &[u8]) -> bool
    ensures { result ≡ some not_binary word.now }
{
    // Without a branch: `any` takes 15 times as long at 4,096 entries.
    let mut found = false;
    for bit in word {
        found |= 1 < *bit;
    }
    found
}

// The first cause in the word of a code with so many bits: 12, 15.
pub fn judge_word(word: &[u8], bits: usize) -> Result<(), Cause>
    ensures { number_of result ≡ first_of (word_causes bits word.now) }
{
    if word.len() != bits {
        return Err(Cause::Lengths);
    }
    if some_not_binary(word) {
        return Err(Cause::Entry);
    }
    Ok(())
}
