// A writer of bytes and decimal numbers, in ASCII, to a list that is lent.
#![tactic(auto)]

ghost use Rattle.std.specs.Prelude.{◌≡◌, [], ◌∷◌, ◌++◌, ◌+◌, ◌-◌, ◌%◌, ◌≤◌, ◌<◌, length};
ghost use Rattle.model.specs.Text.{decimal};

// A lent list of bytes, of which the first `written` are written.
#[derive(Drop)]
pub struct Writer<'a> {
    pub bytes: &'a mut [u8],
    pub written: usize,
    pub ghost inside: { written ≤ length bytes.now },
}

// The last decimal digit of `x`.
fn digit(x: usize) -> u8
    ensures { result ≡ 48 + x % 10 }
{
    48 + (x % 10) as u8
}

impl<'a> Writer<'a> {
    ghost use Rattle.text.specs.Appended.{Appended};
    ghost use Rattle.text.specs.Wrote.{Room, Wrote};

    // A writer of which nothing is written yet.
    pub fn new(bytes: &'a mut [u8]) -> Writer<'a>
        ensures list { result.bytes ≡ bytes.entry }
        ensures start { result.written ≡ 0 }
    {
        Writer { bytes, written: 0 }
    }

    // Writes a byte.
    pub fn byte(&mut self, byte: u8)
        requires { Room 1 self.old }
        ensures { Wrote (byte ∷ []) self.old self.new }
    {
        self.bytes[self.written] = byte;
        self.written += 1;
    }

    // Writes a byte in the place of the last that was written.
    pub fn replace_last(&mut self, byte: u8)
        requires { 1 ≤ self.old.written }
        ensures bytes { Appended (self.old.written - 1) (byte ∷ []) self.old.bytes.now self.new.bytes.now self.new.written }
        ensures same { self.new.bytes.ghost_name ≡ self.old.bytes.ghost_name }
    {
        self.bytes[self.written - 1] = byte;
    }

    // Writes the decimal digits of `x`.
    pub fn number(&mut self, x: usize)
        requires { Room (length (decimal x)) self.old }
        ensures { Wrote (decimal x) self.old self.new }
    {
        if 10 <= x {
            self.number(x / 10);
        }
        self.byte(digit(x));
    }

    // Writes a number and the byte after it, at most 21 bytes.
    pub fn field(&mut self, x: usize, end: u8)
        requires { Room (length (decimal x) + 1) self.old }
        ensures text { Wrote (decimal x ++ (end ∷ [])) self.old self.new }
        ensures short { self.new.written ≤ self.old.written + 21 }
    {
        self.number(x);
        self.byte(end);
    }
}
