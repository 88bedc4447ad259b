// The numbers of an alist text, read one after the other.
#![tactic(auto)]

ghost use Rattle.std.specs.Prelude.{◌≡◌, ◌↔◌, [], ◌∷◌, false, suc, ◌+◌, ◌*◌, ◌≤◌, ◌<◌, length, get_or, take, drop, IsTrue, IfSome, IfNone};
ghost use Rattle.model.specs.Limits.{most_number};
ghost use Rattle.model.specs.Alist.{separator, further, numbers_of, largest};
ghost use Rattle.numbers.specs.Walked.{none, Small, Skipped, Ended, Filled};
ghost use Rattle.numbers.specs.Sides.{numbered};

use model::MOST_NUMBER;
use std::marker::Model;

// The numbers that are left of a text. Callers see their list, in which 65,536 stands for what is no number of a text.
#[derive(Clone, Drop)]
pub struct Numbers<'a> {
    text: &'a [u8],
}

impl<'a> Model for Numbers<'a> {
    ghost use Rattle.std.specs.Prelude.{List, ℕ};
    ghost use Rattle.model.specs.Alist.{numbers_of};

    ghost Value = { List ℕ };

    ghost view = { λ a. numbers_of 0 a.text.now };
}

// The columns or the rows of a text: how many there are, the largest degree, and the text from their degrees and from their lists on.
#[derive(Clone, Copy)]
pub struct Side<'a> {
    pub count: u16,
    pub most: u16,
    pub degrees: &'a [u8],
    pub lists: &'a [u8],
}

fn separates(b: u8) -> bool
    ensures { result ≡ separator b }
{
    b == 32 || b == 10
}

// A number that is x so far, with one byte more.
fn with_byte(x: usize, b: u8) -> usize
    requires { x ≤ suc most_number }
    ensures value { result ≡ further x b }
    ensures bound { result ≤ suc most_number }
{
    let digit = usize::from(b);
    if digit < 48 || 57 < digit {
        return MOST_NUMBER + 1;
    }
    let next = 10 * x + (digit - 48);
    if next <= MOST_NUMBER {
        next
    } else {
        MOST_NUMBER + 1
    }
}

// What follows the separators that a text begins with.
fn skip(text: &[u8]) -> &[u8]
    ensures { Skipped text.now result.now }
{
    for (i, b) in text.iter().enumerate() {
        if !separates(*b) {
            return &text[i..];
        }
    }
    &[]
}

// The number that a text begins with, and what follows it.
fn finish(text: &[u8]) -> (usize, &[u8])
    ensures { Ended text.now result.0 result.1.now }
{
    let mut value = 0usize;
    for (i, b) in text.iter().enumerate() {
        if separates(*b) {
            return (value, &text[i..]);
        }
        value = with_byte(value, *b);
    }
    (value, &[])
}

// Reads as many numbers as the list has entries; where they end. A byte is a separator or a digit, whose fifth bit tells which.
// By index: each byte takes the same steps, without a branch in the compiled code, so that the time does not depend on the text.
fn fill(text: &[u8], values: &mut [u16]) -> usize
    requires { Small (length values.old) (numbers_of 0 text.now) }
    ensures filled { Filled text.now values.new result }
    ensures same_length { length values.new ≡ length values.old }
{
    let mut value = 0usize;
    let mut inside = 0usize;
    let mut k = 0usize;
    let mut i = 0usize;
    while k < values.len() && i < text.len() {
        let b = usize::from(text[i]);
        values[k] = value as u16;
        let digit = b / 16 % 2;
        if digit < inside {
            k += 1;
        }
        let next = 10 * value + b % 16;
        value = if digit == 0 { 0 } else { next };
        inside = digit;
        i += 1;
    }
    if k < values.len() {
        values[k] = value as u16;
    }
    i
}

impl<'a> Side<'a> {
    // A side of so many columns or rows, whose degrees and lists are next.
    pub fn new(count: u16, most: u16, degrees: &Numbers<'a>, lists: &Numbers<'a>) -> Side<'a>
        ensures { numbered result ≡ record { count = count; most = most; degrees = degrees.now; lists = lists.now } }
    {
        Side {
            count,
            most,
            degrees: degrees.text,
            lists: lists.text,
        }
    }

    // How many numbers its lists have.
    pub fn size(&self) -> usize
        ensures { result ≡ self.now.count * self.now.most }
    {
        usize::from(self.count) * usize::from(self.most)
    }
}

impl<'a> Numbers<'a> {
    // The numbers of a text.
    pub fn new(text: &'a [u8]) -> Numbers<'a>
        ensures { result ≡ numbers_of 0 text.now }
    {
        Numbers { text }
    }

    // The same numbers, to be read once more.
    pub fn again(&self) -> Numbers<'a>
        ensures { result ≡ self.now }
    {
        Numbers { text: self.text }
    }

    // How many bytes of the text are left: two numbers want a separator between them.
    pub fn bytes(&self) -> usize
        ensures { 2 * length self.now ≤ 1 + result }
    {
        self.text.len()
    }

    // Whether no number is left.
    pub fn is_empty(&self) -> bool
        ensures { IsTrue result ↔ (self.now ≡ []) }
    {
        skip(self.text).is_empty()
    }

    // The next number. None where none is left, or where what comes next is no number of a text, which is then passed.
    pub fn number(&mut self) -> Option<u16>
        ensures found { IfSome result (λ x. self.old ≡ x ∷ self.new) }
        ensures missing { IfNone result (most_number < get_or self.old 0 none) }
        ensures rest { self.new ≡ drop 1 self.old }
    {
        let text = skip(self.text);
        if text.is_empty() {
            self.text = text;
            return None;
        }
        let (value, rest) = finish(text);
        self.text = rest;
        u16::try_from(value).ok()
    }

    // The next number, which is known to be one.
    #[tactic(auto, using(crate::proofs::Walk::small_first))]
    pub fn known(&mut self) -> u16
        requires { Small 1 self.old }
        ensures { self.old ≡ result ∷ self.new }
    {
        self.number().unwrap()
    }

    // The largest of the next `count` numbers, 0 where `count` is; none where one of them is missing or no number of a text, and what is left is then not told.
    pub fn largest(&mut self, count: usize) -> Option<u16>
        ensures found { IfSome result (λ most. Small count self.old × (most ≡ largest (take count self.old)) × (self.new ≡ drop count self.old)) }
        ensures missing { IfNone result (Small count self.old → ⊥) }
    {
        let mut largest = 0u16;
        for _ in 0..count {
            largest = largest.max(self.number()?);
        }
        Some(largest)
    }

    // Passes the next `count` numbers.
    pub fn pass(&mut self, count: usize)
        ensures { self.new ≡ drop count self.old }
    {
        for _ in 0..count {
            if self.text.is_empty() {
                return;
            }
            let _ = self.number();
        }
    }

    // Reads as many numbers as the list has entries.
    pub fn read(&mut self, values: &mut [u16])
        requires { Small (length values.old) self.old }
        ensures list { values.new ≡ take (length values.old) self.old }
        ensures rest { self.new ≡ drop (length values.old) self.old }
    {
        let end = fill(self.text, values);
        self.text = &self.text[end..];
    }
}
