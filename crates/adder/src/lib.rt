// The sum of two words, bit by bit modulo 2: a reflection by one word and then by the other is one by their sum.
#![tactic(auto)]

ghost use Rattle.std.specs.Prelude.{◌≡◌, ◌≤◌, length};
ghost use Rattle.lists.specs.Tabulated.{written};
ghost use Rattle.model.specs.Causes.{number_of};
ghost use Rattle.model.specs.Points.{Bits};
ghost use Rattle.model.specs.Reflection.{sum_of_words};
ghost use Rattle.model.specs.Promises.{AdderCall};

use model::Cause;

#[tactic(auto, unfolding(model::specs::Reflection::sum_of_words), using(lists::proofs::Tabulated::over_next, lists::proofs::Tabulated::over_tab))]
fn fill(word: &[u8], other: &[u8], sum: &mut [u8])
    requires word { Bits (length word.now) word.now }
    requires other { Bits (length word.now) other.now }
    requires room { length word.now ≤ length sum.old }
    ensures { sum.new ≡ written (sum_of_words word.now other.now) sum.old }
{
    for (i, bit) in word.iter().enumerate() {
        sum[i] = (*bit + other[i]) % 2;
    }
}

// The sum of two words of one length, or the first cause: 12, 15, 10. The list of a refused call stays.
pub fn add(word: &[u8], other: &[u8], sum: &mut [u8]) -> Result<(), Cause>
    ensures { AdderCall word.now other.now sum.old (record { number = number_of result; word = sum.new }) }
{
    if other.len() != word.len() {
        return Err(Cause::Lengths);
    }
    if inputs::some_not_binary(word) || inputs::some_not_binary(other) {
        return Err(Cause::Entry);
    }
    if sum.len() < word.len() {
        return Err(Cause::Room);
    }
    fill(word, other, sum);
    Ok(())
}
