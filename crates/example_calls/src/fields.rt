// The numbers in a field of a table: one space between them.
ghost use Rattle.std.specs.Prelude.{◌≤◌};

use crate::show::lent;

// Up to eight numbers, and 0 past the last.
#[derive(Clone, Copy)]
pub struct Numbers {
    pub values: [usize; 8],
    pub count: usize,
    ghost few: { count ≤ 8 },
}

// The digit of this base that a byte is, if it is one: 0 to 9, then a to f.
fn digit(byte: u8, base: u32) -> Option<u32> {
    let digit = match byte {
        b'0'..=b'9' => u32::from(byte - b'0'),
        b'a'..=b'f' => u32::from(byte - b'a') + 10,
        _ => return None,
    };
    if digit < base { Some(digit) } else { None }
}

// The number with the digits that a text begins with, modulo 2^32, and what stands behind the byte that ends it.
fn natural(text: &[u8], base: u32) -> (u32, &[u8]) {
    let mut value = 0u32;
    for (i, byte) in text.iter().enumerate() {
        match digit(*byte, base) {
            Some(digit) => value = value.wrapping_mul(base).wrapping_add(digit),
            None => return (value, &text[i + 1..]),
        }
    }
    (value, &[])
}

// The same behind a minus sign, as a two-byte number in two's complement.
fn whole(text: &[u8], base: u32) -> (u32, &[u8]) {
    match text {
        [b'-', digits @ ..] => {
            let (value, rest) = natural(digits, base);
            ((65536 - value % 65536) % 65536, rest)
        }
        _ => natural(text, base),
    }
}

impl Numbers {
    // The numbers of a field.
    pub fn read(field: &[u8], base: u32) -> Numbers {
        let mut values = [0usize; 8];
        let mut rest = field;
        for count in 0..8 {
            if rest.is_empty() {
                return Numbers { values, count };
            }
            let (value, behind) = whole(rest, base);
            values[count] = value as usize;
            rest = behind;
        }
        Numbers { values, count: 8 }
    }
}

// The first number of a field, as a length of a list that is lent.
pub fn room(field: &[u8]) -> usize
    ensures { result ≤ 16 }
{
    lent(Numbers::read(field, 10).values[0])
}
