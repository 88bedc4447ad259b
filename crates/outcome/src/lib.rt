// From values to word: the bits of the values, and whether they are a codeword.
#![tactic(auto)]

ghost use Rattle.std.specs.Prelude.{◌≡◌, ◌≤◌, length};
ghost use Rattle.lists.specs.Tabulated.{written};
ghost use Rattle.model.specs.Causes.{accepted};
ghost use Rattle.model.specs.Words.{bit_of, word_of, first_undecided, first_odd, outcome};
ghost use Rattle.model.specs.Calls.{conclusion_told};
ghost use Rattle.codeword.specs.Found.{Finds};

use model::{Conclusion, MOST_BITS};
use reader::Code;

// A value above 0 is bit 1, one below 0 is bit 0.
fn bit(value: i16) -> u8
    ensures { result ≡ bit_of value }
{
    u8::from(0 < value)
}

// The lowest bit whose value is 0.
fn first_undecided(code: &Code, values: &[i16]) -> Option<usize>
    requires { code.now.bits ≤ length values.now }
    ensures { Finds result (first_undecided code.now values.now) code.now.bits }
{
    values[..code.bits()].iter().position(|value| *value == 0)
}

// The bits of the values.
fn write_word(code: &Code, values: &[i16], word: &mut [u8])
    requires room { (code.now.bits ≤ length values.now) × (code.now.bits ≤ length word.old) }
    ensures { word.new ≡ written (word_of code.now values.now) word.old }
{
    for (v, value) in values[..code.bits()].iter().enumerate() {
        word[v] = bit(*value);
    }
}

// The first check whose sum over the bits of the values is odd. They stand in a list of their own, since a lent one is not to be touched.
fn first_odd(code: &Code, values: &[i16]) -> Option<usize>
    requires { code.now.bits ≤ length values.now }
    ensures { Finds result (first_odd code.now (word_of code.now values.now)) (length code.now.checks) }
{
    let mut aside = [0u8; MOST_BITS];
    let own = &mut aside[..code.bits()];
    write_word(code, values, own);
    codeword::first_odd(code, own)
}

// What the last values say: the lowest bit that is undecided, the first check whose sum is odd, or a codeword. Only that is written to `word`.
pub fn conclude(code: &Code, values: &[i16], word: &mut [u8]) -> Conclusion
    requires room { (code.now.bits ≤ length values.now) × (code.now.bits ≤ length word.old) }
    ensures told { conclusion_told result ≡ outcome code.now values.now }
    ensures word { word.new
        ≡ accepted (outcome code.now values.now).number (written (word_of code.now values.now) word.old) word.old }
{
    if let Some(v) = first_undecided(code, values) {
        return Conclusion::Undecided(v);
    }
    if let Some(j) = first_odd(code, values) {
        return Conclusion::Odd(j);
    }
    write_word(code, values, word);
    Conclusion::Word
}
