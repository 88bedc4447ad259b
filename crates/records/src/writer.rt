// The writer of code records.
ghost use Rattle.std.specs.Prelude.{◌≡◌, ◌*◌, ◌≤◌, length};
ghost use Rattle.model.specs.Records.{two, bytes_of, header_of, record_of, record_size};
ghost use Rattle.text.specs.Wrote.{Room, Wrote};

use crate::{CHECK_MARK, HEADER_MARK};
use text::Writer;

// A two-byte number.
pub fn write_two_bytes(x: usize, out: &mut Writer)
    requires number { x ≤ 65535 }
    requires room { Room 2 out.old }
    ensures { Wrote (two x) out.old out.new }
{
    out.byte((x / 256) as u8);
    out.byte((x % 256) as u8);
}

// The header of a code.
pub fn write_header(bits: usize, checks: usize, out: &mut Writer)
    requires bits { bits ≤ 65535 }
    requires checks { checks ≤ 65535 }
    requires room { Room 6 out.old }
    ensures { Wrote (header_of bits checks) out.old out.new }
{
    write_two_bytes(HEADER_MARK, out);
    write_two_bytes(bits, out);
    write_two_bytes(checks, out);
}

// Indices, two bytes each.
fn write_indices(indices: &[u16], out: &mut Writer)
    requires { Room (2 * length indices.now) out.old }
    ensures { Wrote (bytes_of indices.now) out.old out.new }
{
    for index in indices {
        write_two_bytes(usize::from(*index), out);
    }
}

// The record of a check with these indices.
pub fn write_check(indices: &[u16], out: &mut Writer)
    requires degree { length indices.now ≤ 255 }
    requires room { Room (record_size indices.now) out.old }
    ensures { Wrote (record_of indices.now) out.old out.new }
{
    write_two_bytes(CHECK_MARK, out);
    out.byte(indices.len() as u8);
    write_indices(indices, out);
}
