// The check matrix of a code, reduced modulo 2, in a table with a row for each column. Where column j is a pivot, row j is its row, with a 1 there; where it
// is not, row j has a 0 there. Entries before column j, and those past the code's bits, are of no account.
#![tactic(auto)]

ghost use Rattle.std.specs.Prelude.{◌≡◌, ◌%◌, ◌≤◌, ◌<◌, length, take, drop, replicate};
ghost use Rattle.std.proofs.Math.Seq.{slice};
ghost use Rattle.lists.specs.Tabulated.{written};
ghost use Rattle.model.specs.Limits.{most_encoded_bits};
ghost use Rattle.model.specs.Sound.{Rising};
ghost use Rattle.model.specs.Reflection.{sum_of_words};
ghost use Rattle.model.specs.Encoding.{row_of, inner_product, cleared, reduced, others, encoded_in, message_in};
ghost use Rattle.reduction.specs.Table.{has_pivot, columns_in};

use model::MOST_ENCODED_BITS;
use reader::{Check, Code};
use std::marker::Model;

// A row has an entry for each column, and a table a row for each column.
type Row = [u8; MOST_ENCODED_BITS];

pub type Rows = [[u8; MOST_ENCODED_BITS]; MOST_ENCODED_BITS];

// The row of a check: 1 at each of its bits.
fn check_row(check: &Check) -> Row
    requires { Rising most_encoded_bits 0 check.now }
    ensures { result ≡ row_of most_encoded_bits check.now }
{
    let mut row = [0u8; MOST_ENCODED_BITS];
    for i in 0..check.degree() {
        row[check.bit(i)] = 1;
    }
    row
}

// Adds the other row modulo 2, in the columns from `start` on.
fn add(row: &mut Row, other: &Row, start: usize, bits: usize)
    requires { (start ≤ bits) × (bits ≤ most_encoded_bits) }
    ensures { slice start bits row.new ≡ sum_of_words (slice start bits row.old) (slice start bits other.now) }
{
    // By index: what an adapter of iter_mut writes is not known afterwards.
    for i in start..bits {
        let sum = usize::from(row[i]) + usize::from(other[i]);
        row[i] = (sum % 2) as u8;
    }
}

// Whether column j is a pivot.
fn is_pivot(rows: &Rows, j: usize) -> bool
    requires { j < most_encoded_bits }
    ensures { result ≡ has_pivot rows.now j }
{
    rows[j][j] != 0
}

// One row more: it is cleared by the rows of the pivots, until it has a pivot of its own or nothing is left of it.
fn clear(rows: &mut Rows, row: &mut Row, bits: usize)
    requires { bits ≤ most_encoded_bits }
    ensures { columns_in bits rows.new ≡ cleared (columns_in bits rows.old) (take bits row.old) }
{
    for j in 0..bits {
        if row[j] != 0 {
            if !is_pivot(rows, j) {
                rows[j] = *row;
                return;
            }
            add(row, &rows[j], j + 1, bits);
        }
    }
}

// Of the checks of a code, one after another.
fn reduce(code: &Code, rows: &mut Rows)
    requires size { code.now.bits ≤ most_encoded_bits }
    requires zeros { rows.old ≡ replicate most_encoded_bits (replicate most_encoded_bits 0) }
    ensures { columns_in code.now.bits rows.new ≡ reduced code.now }
{
    let bits = code.bits();
    for check in code.checks() {
        let mut row = check_row(&check);
        clear(rows, &mut row, bits);
    }
}

// How many columns are no pivots.
fn count_others(rows: &Rows, bits: usize) -> usize
    requires { bits ≤ most_encoded_bits }
    ensures { result ≡ others (columns_in bits rows.now) }
{
    let mut count = 0;
    for column in 0..bits {
        if !is_pivot(rows, column) {
            count += 1;
        }
    }
    count
}

// What the row has at the word's ones, modulo 2, in the columns from `start` on.
fn parity(row: &Row, word: &[u8], start: usize) -> u8
    requires { (start ≤ length word.now) × (length word.now ≤ most_encoded_bits) }
    ensures { result ≡ inner_product (slice start (length word.now) row.now) (drop start word.now) % 2 }
{
    let mut sum = 0;
    // By index: that the sum of a chain fits was not proved.
    for i in start..word.len() {
        sum += usize::from(row[i]) * usize::from(word[i]);
    }
    (sum % 2) as u8
}

// The reduced check matrix of a code: callers see its columns.
#[derive(Drop)]
pub struct Reduction<'a> {
    bits: usize,
    message_length: usize,
    rows: &'a Rows,
}

impl<'a> Model for Reduction<'a> {
    ghost use Rattle.std.specs.Prelude.{◌≡◌, ◌≤◌, List, length};
    ghost use Rattle.model.specs.Limits.{most_encoded_bits};
    ghost use Rattle.model.specs.Encoding.{Column, others};
    ghost use Rattle.reduction.specs.Table.{columns_in};

    ghost Value = { List Column };

    ghost view = { λ a. columns_in a.bits a.rows.now };

    ghost invariant = { λ a. (a.bits ≤ most_encoded_bits) × (length a.rows.now ≡ most_encoded_bits)
        × (a.message_length ≡ others (columns_in a.bits a.rows.now)) };
}

impl<'a> Reduction<'a> {
    // That of a code of at most 256 bits, in a table of zeros.
    pub fn new(code: &Code, rows: &'a mut Rows) -> Reduction<'a>
        requires size { code.now.bits ≤ most_encoded_bits }
        requires zeros { rows.old ≡ replicate most_encoded_bits (replicate most_encoded_bits 0) }
        ensures columns { result ≡ reduced code.now }
        ensures width { length result ≡ code.now.bits }
    {
        reduce(code, rows);
        let bits = code.bits();
        let message_length = count_others(rows, bits);
        Reduction {
            bits,
            message_length,
            rows,
        }
    }

    // How many columns there are: the bits of the code.
    pub fn bits(&self) -> usize
        ensures value { result ≡ length self.now }
        ensures most { result ≤ most_encoded_bits }
    {
        self.bits
    }

    // How long a message is: an entry for each column that is no pivot.
    pub fn message_length(&self) -> usize
        ensures { result ≡ others self.now }
    {
        self.message_length
    }

    // The word of a message, from the last column back: a message bit where the column is no pivot; at a pivot what its row asks for.
    pub fn write_word(&self, message: &[u8], word: &mut [u8])
        requires width { length word.old ≡ length self.now }
        requires message { length message.now ≡ others self.now }
        ensures { word.new ≡ encoded_in self.now message.now }
    {
        let mut left = message.len();
        for j in (0..word.len()).rev() {
            if is_pivot(self.rows, j) {
                word[j] = parity(&self.rows[j], word, j + 1);
            } else {
                left -= 1;
                word[j] = message[left];
            }
        }
    }

    // The message of a word: its entries in the columns that are no pivots.
    pub fn write_message(&self, word: &[u8], message: &mut [u8])
        requires width { length word.now ≡ length self.now }
        requires room { others self.now ≤ length message.old }
        ensures { message.new ≡ written (message_in self.now word.now) message.old }
    {
        let mut count = 0;
        for (j, bit) in word.iter().enumerate() {
            if !is_pivot(self.rows, j) {
                message[count] = *bit;
                count += 1;
            }
        }
    }
}
