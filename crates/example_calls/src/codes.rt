// Code records too long to write out. Each function writes what there is room for.
ghost use Rattle.std.specs.Prelude.{◌≡◌, ◌+◌, ◌*◌, ◌≤◌, length};
ghost use Rattle.text.specs.Wrote.{Room};

use text::Writer;

// The check over `degree` bits, one after the other, from `first` on.
fn check(code: &mut Writer, degree: usize, first: u16)
    requires degree { degree ≤ 64 }
    requires room { Room (3 + 2 * degree) code.old }
    ensures { length code.new.bytes.now ≡ length code.old.bytes.now }
{
    let mut indices = [0u16; 64];
    for i in 0..degree {
        indices[i] = first.wrapping_add(i as u16);
    }
    records::write_check(&indices[..degree], code);
}

// `count` checks of one degree, each from the bit `step` behind the one before it.
fn checks(code: &mut Writer, count: usize, degree: usize, step: usize)
    requires { (degree ≤ 64) × (step ≤ 64) }
    ensures { length code.new.bytes.now ≡ length code.old.bytes.now }
{
    let mut first = 0u16;
    for _ in 0..count {
        if code.bytes.len() - code.written < 3 + 2 * degree {
            return;
        }
        check(code, degree, first);
        first = first.wrapping_add(step as u16);
    }
}

fn append(code: &mut Writer, bytes: &[u8])
    ensures { length code.new.bytes.now ≡ length code.old.bytes.now }
{
    for byte in bytes {
        if code.bytes.len() == code.written {
            return;
        }
        code.byte(*byte);
    }
}

// A code of `count` checks of one degree, at most 64; how many bytes it has.
pub fn regular(code: &mut [u8], bits: usize, count: usize, degree: usize, step: usize) -> usize
    requires { 6 ≤ length code.old }
    ensures { result ≤ length code.old }
{
    let mut out = Writer::new(code);
    records::write_header(bits % 65536, count % 65536, &mut out);
    checks(&mut out, count, degree % 65, step % 65);
    out.written
}

// 273 checks of degree 32, which have 8,190 triples, one of degree `last`, at most 64, and `pairs` checks of two bits, at most 64; how many bytes.
pub fn most(code: &mut [u8], last: usize, pairs: usize) -> usize
    requires { 6 ≤ length code.old }
    ensures { result ≤ length code.old }
{
    let behind = pairs % 65;
    let mut out = Writer::new(code);
    records::write_header(32, 274 + behind, &mut out);
    checks(&mut out, 273, 32, 0);
    checks(&mut out, 1, last % 65, 0);
    checks(&mut out, behind, 2, 0);
    out.written
}

// 8,193 triples on the first 32 bits, in 274 of 275 checks, and behind them the bytes of one more record; how many bytes.
pub fn many(code: &mut [u8], bits: usize, last: &[u8]) -> usize
    requires { 6 ≤ length code.old }
    ensures { result ≤ length code.old }
{
    let mut out = Writer::new(code);
    records::write_header(bits % 65536, 275, &mut out);
    checks(&mut out, 273, 32, 0);
    checks(&mut out, 1, 5, 0);
    append(&mut out, last);
    out.written
}
