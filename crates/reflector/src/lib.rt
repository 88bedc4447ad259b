// The cost reflector: costs, negated where a word has 1.
#![tactic(auto)]

ghost use Rattle.std.specs.Prelude.{◌≡◌, ◌≤◌, nat_abs, length};
ghost use Rattle.lists.specs.Tabulated.{written};
ghost use Rattle.model.specs.Limits.{most_cost};
ghost use Rattle.model.specs.Causes.{number_of};
ghost use Rattle.model.specs.Reflection as reflection;
ghost use Rattle.model.specs.DecoderClaims.{Small};
ghost use Rattle.model.specs.Promises.{ReflectorCall};

use model::Cause;

fn negated_if(bit: u8, cost: i16) -> i16
    requires { nat_abs cost ≤ most_cost }
    ensures { result ≡ reflection.negated_if bit cost }
{
    if bit == 0 { cost } else { -cost }
}

#[tactic(auto, unfolding(model::specs::Reflection::reflect), using(lists::proofs::Tabulated::over_next, lists::proofs::Tabulated::over_tab))]
fn fill(costs: &[i16], word: &[u8], reflected: &mut [i16])
    requires lengths { length word.now ≡ length costs.now }
    requires small { Small costs.now }
    requires room { length costs.now ≤ length reflected.old }
    ensures { reflected.new ≡ written (reflection.reflect word.now costs.now) reflected.old }
{
    for (i, cost) in costs.iter().enumerate() {
        reflected[i] = negated_if(word[i], *cost);
    }
}

// The costs negated where the word has 1, or the first cause: 12, 13, 15, 10. The list of a refused call stays.
pub fn reflect(costs: &[i16], word: &[u8], reflected: &mut [i16]) -> Result<(), Cause>
    ensures { ReflectorCall costs.now word.now reflected.old
        (record { number = number_of result; costs = reflected.new }) }
{
    if word.len() != costs.len() {
        return Err(Cause::Lengths);
    }
    if inputs::some_forbidden(costs) {
        return Err(Cause::Cost);
    }
    if inputs::some_not_binary(word) {
        return Err(Cause::Entry);
    }
    if reflected.len() < costs.len() {
        return Err(Cause::Room);
    }
    fill(costs, word, reflected);
    Ok(())
}
