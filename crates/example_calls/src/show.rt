// What is printed.
ghost use Rattle.std.specs.Prelude.{◌≤◌};

use model::Cause;

pub fn text(s: &[u8]) {
    io::write_all(1, s);
}

pub fn number(x: usize) {
    io::write_all(1, b" ");
    io::print_decimal(1, x as u64);
}

// Why a call is refused.
pub(crate) fn refused(cause: Cause) {
    number(cause.number() as usize);
}

// The number of a call: 0 where it is done.
pub(crate) fn told(outcome: Result<(), Cause>) {
    match outcome {
        Ok(()) => number(0),
        Err(cause) => refused(cause),
    }
}

// The number of an outcome, and the bit or the check that comes with it.
pub fn placed(outcome: usize, place: usize) {
    number(outcome);
    text(b", place");
    number(place);
}

// A section's title.
pub fn title(s: &[u8]) {
    text(b"-- ");
    text(s);
    text(b"\n");
}

fn signed(x: i64) {
    text(if x < 0 { b" -" } else { b" " });
    io::print_decimal(1, x.unsigned_abs());
}

// ---- lists

// How many of 16 entries are meant.
pub fn lent(n: usize) -> usize
    ensures { result ≤ 16 }
{
    n.min(16)
}

// A list's entries.
pub fn list<T: Copy + Into<i64>>(name: &[u8], entries: &[T]) {
    text(name);
    for entry in entries {
        signed((*entry).into());
    }
}

// The first `n` of a list's entries.
pub(crate) fn front<T: Copy + Into<i64>>(name: &[u8], entries: &[T], n: usize) {
    text(name);
    for entry in entries.iter().take(n) {
        signed((*entry).into());
    }
}

// Of a long list the first four entries, and the one at 65,535.
pub fn ends<T: Copy + Into<i64>>(name: &[u8], entries: &[T]) {
    front(name, entries, 4);
    if let Some(last) = entries.get(65535) {
        text(b", at 65535");
        signed((*last).into());
    }
}
