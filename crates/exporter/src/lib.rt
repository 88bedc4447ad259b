// Export: the alist text of a code, and how long it is.
#![tactic(auto)]

ghost use Rattle.std.specs.Prelude.{◌≡◌, [], ◌∷◌, ◌+◌, ◌*◌, ◌-◌, ◌≤◌, length, replicate};
ghost use Rattle.lists.specs.Entries.{total};
ghost use Rattle.model.specs.Causes.{number_of, count_of};
ghost use Rattle.model.specs.Text.{decimal};
ghost use Rattle.lists.specs.Tabulated.{written};
ghost use Rattle.model.specs.Alist.{largest, fill, line_of, alist_of};
ghost use Rattle.model.specs.AlistPromises.{ExportCall, SizeCall};
ghost use Rattle.exporter.specs.Lines.{SideLists, spaced, head_text, lists_text, side_text, Lists, Fitted};
ghost use Rattle.text.specs.Wrote.{Room, Wrote};

use model::{Cause, MOST_BITS, MOST_CHECKS, MOST_PLACES};
use reader::Code;
use text::Writer;

// How many digits x has.
fn digits(x: usize) -> usize
    requires { x ≤ 65535 }
    ensures { (result ≡ length (decimal x)) × (result ≤ 5) }
{
    if x < 10 {
        return 1;
    }
    if x < 100 {
        return 2;
    }
    if x < 1000 {
        return 3;
    }
    if x < 10000 { 4 } else { 5 }
}

// The bytes of these numbers, each with the byte that follows it.
fn size(numbers: &[u16]) -> usize
    requires { length numbers.now ≤ 65535 }
    ensures { (result ≡ total (λ x. length (decimal x) + 1) numbers.now) × (result ≤ 6 * length numbers.now) }
{
    let mut bytes = 0usize;
    for number in numbers {
        bytes += digits(usize::from(*number)) + 1;
    }
    bytes
}

// The largest of these degrees.
fn largest(degrees: &[u16]) -> usize
    ensures { (result ≡ largest degrees.now) × (result ≤ 65535) }
{
    let mut most = 0usize;
    for degree in degrees {
        most = most.max(usize::from(*degree));
    }
    most
}

// The bytes of a side: the line of its degrees, and its lists, each filled to the largest degree.
fn side_size(degrees: &[u16], entries: &[u16]) -> usize
    requires { SideLists degrees.now entries.now }
    ensures { (result ≡ length (side_text degrees.now entries.now)) × (result ≤ 1000000000) }
{
    let filled = degrees.len() * largest(degrees);
    size(degrees) + size(entries) + 2 * (filled - entries.len())
}

// These numbers, each with a space behind it.
fn write_numbers(numbers: &[u16], text: &mut Writer)
    requires { Room (length (spaced numbers.now)) text.old }
    ensures { Wrote (spaced numbers.now) text.old text.new }
{
    for number in numbers {
        text.field(usize::from(*number), b' ');
    }
}

// So many zeros, each with a space behind it. The loop is over the slice itself: through a reference to a writer its pointer would be read in every turn.
fn write_zeros(count: usize, text: &mut Writer)
    requires { Room (2 * count) text.old }
    ensures { Wrote (spaced (replicate count 0)) text.old text.new }
{
    let bytes = &mut *text.bytes;
    let mut next = text.written;
    for _ in 0..count {
        bytes[next] = b'0';
        bytes[next + 1] = b' ';
        next += 2;
    }
    text.written = next;
}

// The line of a list that is filled to `most` numbers. A line feed takes the place of the last space.
fn write_list(list: &[u16], most: usize, text: &mut Writer)
    requires some { 1 ≤ most }
    requires short { length list.now ≤ most }
    requires room { Room (length (line_of (fill most list.now))) text.old }
    ensures { Wrote (line_of (fill most list.now)) text.old text.new }
{
    write_numbers(list, text);
    write_zeros(most - list.len(), text);
    text.replace_last(b'\n');
}

// A line of two numbers.
fn write_pair(x: usize, y: usize, text: &mut Writer)
    requires { Room (length (line_of (x ∷ y ∷ []))) text.old }
    ensures { Wrote (line_of (x ∷ y ∷ [])) text.old text.new }
{
    text.field(x, b' ');
    text.field(y, b'\n');
}

// The lines of the lists of a side, each filled to the largest degree.
fn write_lists(degrees: &[u16], entries: &[u16], text: &mut Writer)
    requires lists { SideLists degrees.now entries.now }
    requires room { Room (length (lists_text degrees.now entries.now)) text.old }
    ensures { Wrote (lists_text degrees.now entries.now) text.old text.new }
{
    let most = largest(degrees);
    let mut first = 0usize;
    for degree in degrees {
        let end = first + usize::from(*degree);
        write_list(&entries[first..end], most, text);
        first = end;
    }
}

// What stands before the lists, by the degrees of the columns and of the rows.
fn write_head(columns: &[u16], rows: &[u16], text: &mut Writer)
    requires columns { 1 ≤ length columns.now }
    requires rows { 1 ≤ length rows.now }
    requires room { Room (length (head_text columns.now rows.now)) text.old }
    ensures { Wrote (head_text columns.now rows.now) text.old text.new }
{
    let bits = columns.len();
    let checks = rows.len();
    write_pair(bits, checks, text);
    write_pair(largest(columns), largest(rows), text);
    write_list(columns, bits, text);
    write_list(rows, checks, text);
}

// The bytes of the text of a code, by lists for its sides: a number for each bit, the degrees of the checks, and a number for each place. Not by a struct:
// `sides` takes them one by one, and two are written while the third is read.
fn measure_in(code: &Code, columns: &mut [u16], rows: &[u16], entries: &mut [u16]) -> usize
    requires { Lists code.now columns.old rows.now entries.old }
    ensures { result ≡ length (alist_of code.now) }
{
    sides::column_degrees(code, columns);
    let pairs = digits(columns.len())
        + digits(rows.len())
        + digits(largest(&columns[..]))
        + digits(largest(rows))
        + 4;
    sides::column_entries(code, &columns[..], entries);
    let first = side_size(&columns[..], &entries[..]);
    sides::row_entries(code, entries);
    let second = side_size(rows, &entries[..]);
    pairs + first + second
}

// The text of a code, by lists as `measure_in` takes them.
fn write_in(code: &Code, columns: &mut [u16], rows: &[u16], entries: &mut [u16], text: &mut [u8])
    requires lists { Lists code.now columns.old rows.now entries.old }
    requires room { length (alist_of code.now) ≤ length text.old }
    ensures { text.new ≡ written (alist_of code.now) text.old }
{
    let mut text = Writer::new(text);
    sides::column_degrees(code, columns);
    write_head(&columns[..], rows, &mut text);
    sides::column_entries(code, &columns[..], entries);
    write_lists(&columns[..], &entries[..], &mut text);
    sides::row_entries(code, entries);
    write_lists(rows, &entries[..], &mut text);
}

// The text of a code, by lists as `measure_in` takes them, where `text` has room for it; how many bytes it has.
fn text_in(
    code: &Code,
    columns: &mut [u16],
    rows: &[u16],
    entries: &mut [u16],
    text: &mut [u8],
) -> usize
    requires { Lists code.now columns.old rows.now entries.old }
    ensures { Fitted (alist_of code.now) text.old text.new result }
{
    let bytes = measure_in(code, columns, rows, entries);
    if bytes <= text.len() {
        write_in(code, columns, rows, entries, text);
    }
    bytes
}

// The text of a code, where `text` has room for it; how many bytes it has.
fn write_text(code: &Code, text: &mut [u8]) -> usize
    ensures { Fitted (alist_of code.now) text.old text.new result }
{
    let mut columns = [0u16; MOST_BITS];
    let mut rows = [0u16; MOST_CHECKS];
    let mut entries = [0u16; MOST_PLACES];
    let sizes = code.sizes();
    let places = sides::row_degrees(code, &mut rows[..sizes.checks]);
    text_in(
        code,
        &mut columns[..sizes.bits],
        &rows[..sizes.checks],
        &mut entries[..places],
        text,
    )
}

// The bytes that an export of these records will write, or the first cause: 1 to 6, then 9, 7, 8.
pub fn export_size(code: &[u8]) -> Result<usize, Cause>
    ensures { SizeCall code.now (record { number = number_of result; bytes = count_of result }) }
{
    let code = Code::read(code)?;
    Ok(write_text(&code, &mut []))
}

// The alist text of these records: how many bytes were written, or the first cause: 1 to 6, then 9, 7, 8, 10. Where it is refused, `text` stays.
pub fn export(code: &[u8], text: &mut [u8]) -> Result<usize, Cause>
    ensures { ExportCall code.now text.old (record { number = number_of result; bytes = count_of result; list = text.new }) }
{
    let code = Code::read(code)?;
    let bytes = write_text(&code, text);
    if text.len() < bytes {
        return Err(Cause::Room);
    }
    Ok(bytes)
}
