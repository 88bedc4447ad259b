// Import: the code records of an alist text.
#![tactic(auto)]

ghost use Rattle.std.specs.Prelude.{◌≡◌, true, ◌+◌, ◌*◌, ◌≤◌, ltb, length, take};
ghost use Rattle.lists.specs.Entries.{every};
ghost use Rattle.lists.specs.Tabulated.{written};
ghost use Rattle.model.specs.Causes.{outside, number_of, count_of};
ghost use Rattle.model.specs.Limits.{most_checks, most_degree};
ghost use Rattle.model.specs.Records.{record_of, records_of, records_size};
ghost use Rattle.model.specs.RecordClaims.{judge_code};
ghost use Rattle.model.specs.Alist.{agree};
ghost use Rattle.model.specs.AlistPromises.{ImportCall};
ghost use Rattle.text.specs.Appended.{Appended};
ghost use Rattle.text.specs.Wrote.{Room, Wrote};
ghost use Rattle.numbers.specs.Walked.{Small};
ghost use Rattle.importer.specs.Rows.{named_in, Sided, Indexed, bits_at, checks_of, code_of_rows};
ghost use Rattle.importer.specs.Judged.{JudgedCheck, JudgedChecks, JudgedCode};

use model::{Cause, MOST_BITS, MOST_CHECKS, MOST_DEGREE, MOST_TRIPLES};
use numbers::{Numbers, Side};
use text::Writer;

// The most bytes of the record of a check: three, and two for each index.
const MOST_RECORD: usize = 67;

// How many triples a code or a part of it has, and how many bytes its records have.
#[derive(Clone, Copy)]
struct Counts {
    triples: usize,
    bytes: usize,
}

// Writes the record of a row, whose `degree` indices are next. By index: what an adapter of `iter_mut` writes is not known afterwards.
fn write_row(row: &Numbers, degree: usize, out: &mut Writer)
    requires indexed { Indexed row.now degree }
    requires degree { degree ≤ most_degree }
    requires room { Room (3 + 2 * degree) out.old }
    ensures { Wrote (record_of (bits_at row.now degree)) out.old out.new }
{
    let mut indices = row.again();
    let mut bits = [0u16; MOST_DEGREE];
    for i in 0..degree {
        bits[i] = indices.known() - 1;
    }
    records::write_check(&bits[..degree], out);
}

// Writes that record to the front of a list; how many bytes it has.
fn write_record(row: &Numbers, degree: usize, list: &mut [u8]) -> usize
    requires indexed { Indexed row.now degree }
    requires degree { degree ≤ most_degree }
    requires room { 3 + 2 * degree ≤ length list.old }
    ensures { Appended 0 (record_of (bits_at row.now degree)) list.old list.new result }
{
    let mut out = Writer::new(list);
    write_row(row, degree, &mut out);
    out.written
}

// The judgement of one row, as its record.
fn judge_row(row: &Numbers, degree: usize, bits: usize) -> Result<Counts, Cause>
    requires { Indexed row.now degree }
    ensures { JudgedCheck bits (bits_at row.now degree) result }
{
    if MOST_DEGREE < degree {
        return Err(Cause::Degree);
    }
    let mut record = [0u8; MOST_RECORD];
    let bytes = write_record(row, degree, &mut record);
    records::judge_check(&record, bits)?;
    Ok(Counts {
        triples: records::triple_count(&record),
        bytes,
    })
}

// The judgement of all rows.
fn judge_rows(rows: &Side, bits: usize) -> Result<Counts, Cause>
    requires sided { Sided rows.now }
    requires few { rows.now.count ≤ most_checks }
    ensures { JudgedChecks bits (checks_of rows.now) result }
{
    let most = usize::from(rows.most);
    let mut degrees = Numbers::new(rows.degrees);
    let mut lists = Numbers::new(rows.lists);
    let mut triples = 0usize;
    let mut bytes = 0usize;
    for _ in 0..rows.count {
        let degree = degrees.known();
        let row = judge_row(&lists, usize::from(degree), bits)?;
        triples += row.triples;
        bytes += row.bytes;
        lists.pass(most);
    }
    Ok(Counts { triples, bytes })
}

// Whether each of the next `count` degrees is above 0.
fn all_named(degrees: &Numbers, count: u16) -> bool
    requires { Small count degrees.now }
    ensures { result ≡ every (ltb 0) (take count degrees.now) }
{
    let mut degrees_left = degrees.again();
    for _ in 0..count {
        let degree = degrees_left.known();
        if degree == 0 {
            return false;
        }
    }
    true
}

// Whether a number is none of low .. high.
fn is_outside(low: usize, high: usize, x: usize) -> bool
    ensures { result ≡ outside low high x }
{
    !(low..=high).contains(&x)
}

// The judgement of the code that the rows are: 3 to 8. A bit lies in some check where its column names one.
fn judge(columns: &Side, rows: &Side) -> Result<Counts, Cause>
    requires sided { Sided columns.now × Sided rows.now }
    requires same_places { agree (named_in columns.now) (named_in rows.now) ≡ true }
    ensures { JudgedCode (code_of_rows columns.now.count rows.now) result }
{
    let bits = usize::from(columns.count);
    if is_outside(3, MOST_BITS, bits) || is_outside(1, MOST_CHECKS, usize::from(rows.count)) {
        return Err(Cause::Size);
    }
    let found = judge_rows(rows, bits)?;
    if MOST_TRIPLES < found.triples {
        return Err(Cause::Triples);
    }
    if !all_named(&Numbers::new(columns.degrees), columns.count) {
        return Err(Cause::Uncovered);
    }
    Ok(Counts {
        triples: found.triples,
        bytes: 6 + found.bytes,
    })
}

// Writes the records of the code that the rows are.
fn write_code(rows: &Side, bits: usize, out: &mut Writer)
    requires sided { Sided rows.now }
    requires sound { judge_code (code_of_rows bits rows.now) ≡ 0 }
    requires room { Room (records_size (code_of_rows bits rows.now)) out.old }
    ensures { Wrote (records_of (code_of_rows bits rows.now)) out.old out.new }
{
    let most = usize::from(rows.most);
    let mut degrees = Numbers::new(rows.degrees);
    let mut lists = Numbers::new(rows.lists);
    records::write_header(bits, usize::from(rows.count), out);
    for _ in 0..rows.count {
        let degree = degrees.known();
        write_row(&lists, usize::from(degree), out);
        lists.pass(most);
    }
}

// The records of the code, from the front.
fn write_records(rows: &Side, bits: usize, code: &mut [u8])
    requires sided { Sided rows.now }
    requires sound { judge_code (code_of_rows bits rows.now) ≡ 0 }
    requires room { records_size (code_of_rows bits rows.now) ≤ length code.old }
    ensures { code.new ≡ written (records_of (code_of_rows bits rows.now)) code.old }
{
    let mut out = Writer::new(code);
    write_code(rows, bits, &mut out);
}

// Import: the records of an alist text, written to `code`; how many bytes they have.
pub fn import(text: &[u8], code: &mut [u8]) -> Result<usize, Cause>
    ensures { ImportCall text.now code.old (record { number = number_of result; bytes = count_of result; list = code.new }) }
{
    let Some(form) = alist::read_form(text) else {
        return Err(Cause::Text);
    };
    if !places::agree(&form.columns, &form.rows) {
        return Err(Cause::Places);
    }
    let found = judge(&form.columns, &form.rows)?;
    if code.len() < found.bytes {
        return Err(Cause::Room);
    }
    write_records(&form.rows, usize::from(form.columns.count), code);
    Ok(found.bytes)
}
