// Tables of examples. A line is one example; its fields stand between bars, and the first is its label. In a field of code records LH and LC
// are the marks 0x4C48 and 0x4C43, LX is none. A field of numbers has one space between them.
use crate::example;
use crate::example::Example;

// The example of one line: its label and four more fields, of which the last may be missing.
fn one(line: &[u8], example: Example) {
    let mut fields = line.splitn(5, |byte| *byte == b'|');
    let label = fields.next().unwrap_or(&[]);
    let x = fields.next().unwrap_or(&[]);
    let y = fields.next().unwrap_or(&[]);
    let z = fields.next().unwrap_or(&[]);
    let u = fields.next().unwrap_or(&[]);
    example::run(label, x, y, z, u, example);
}

// Each example of a table.
pub fn each(table: &[u8], example: Example) {
    if table.is_empty() {
        return;
    }
    let lines = match table {
        [lines @ .., b'\n'] => lines,
        _ => table,
    };
    for line in lines.split(|byte| *byte == b'\n') {
        one(line, example);
    }
}
