// The lines that the frame program writes, to lists that are lent.
#![tactic(auto)]

ghost use Rattle.std.specs.Prelude.{◌≡◌, [], ◌∷◌, ◌++◌, map, ◌+◌, ◌≤◌, length};
ghost use Rattle.model.specs.Calls.{settled_told, decoding_told};
ghost use Rattle.model.specs.Text.{decimal};
ghost use Rattle.program.specs.Frames as Frames;
ghost use Rattle.text.specs.Appended.{Appended};
ghost use Rattle.text.specs.Wrote.{Room, Wrote};

use model::{Cause, Conclusion, Decoding, Ending};
use text::Writer;

// The letter of a line and the space after it.
fn write_letter(letter: u8, out: &mut Writer)
    requires { Room 2 out.old }
    ensures { Wrote (letter ∷ 32 ∷ []) out.old out.new }
{
    out.byte(letter);
    out.byte(b' ');
}

// The character of a bit.
fn glyph(bit: u8) -> u8
    ensures { result ≡ Frames.glyph bit }
{
    if bit == 0 { 48 } else { 49 }
}

// The bits of a word.
fn write_bits(word: &[u8], out: &mut Writer)
    requires { Room (length word.now) out.old }
    ensures { Wrote (map Frames.glyph word.now) out.old out.new }
{
    for bit in word {
        out.byte(glyph(*bit));
    }
}

// How the line of an answer begins, to the bits or the place.
fn write_opening(letter: u8, ending: Ending, out: &mut Writer)
    requires { Room 44 out.old }
    ensures text { Wrote (Frames.opening letter ending.k (settled_told ending)) out.old out.new }
    ensures short { out.new.written ≤ out.old.written + 44 }
{
    let settled = usize::from(ending.settled);
    write_letter(letter, out);
    out.field(ending.k as usize, b' ');
    out.field(settled, b' ');
}

// The line of an answer with a place.
fn write_place(letter: u8, place: usize, ending: Ending, out: &mut Writer)
    requires { Room 65 out.old }
    ensures { Wrote (Frames.opening letter ending.k (settled_told ending) ++ (decimal place ++ (10 ∷ []))) out.old out.new }
{
    write_opening(letter, ending, out);
    out.field(place, b'\n');
}

// The line of a word.
fn write_word(word: &[u8], ending: Ending, out: &mut Writer)
    requires { Room (45 + length word.now) out.old }
    ensures { Wrote (Frames.opening 87 ending.k (settled_told ending) ++ (map Frames.glyph word.now ++ (10 ∷ []))) out.old out.new }
{
    write_opening(b'W', ending, out);
    write_bits(word, out);
    out.byte(b'\n');
}

// The line of a refusal, to a writer.
fn write_refusal(cause: u32, out: &mut Writer)
    requires { Room 23 out.old }
    ensures { Wrote (Frames.refusal cause) out.old out.new }
{
    write_letter(b'R', out);
    out.field(cause as usize, b'\n');
}

// The line of a refusal; how many bytes it has. Of any number: the definition has a line for each.
pub fn refusal(cause: u32, out: &mut [u8]) -> usize
    requires { 128 ≤ length out.old }
    ensures { Appended 0 (Frames.refusal cause) out.old out.new result }
{
    let mut line = Writer::new(out);
    write_refusal(cause, &mut line);
    line.written
}

// The line of an answer, to a writer.
fn write_line(decoded: Result<Decoding, Cause>, word: &[u8], out: &mut Writer)
    requires { Room (65 + length word.now) out.old }
    ensures { Wrote (Frames.line (decoding_told decoded) word.now) out.old out.new }
{
    match decoded {
        Ok(run) => match run.conclusion {
            Conclusion::Word => write_word(word, run.ending, out),
            Conclusion::Undecided(bit) => write_place(b'U', bit, run.ending, out),
            Conclusion::Odd(check) => write_place(b'N', check, run.ending, out),
        },
        Err(cause) => write_refusal(cause.number(), out),
    }
}

// The line of an answer, which may have 128 bytes and those of the word; how many bytes it has.
pub fn line(decoded: Result<Decoding, Cause>, word: &[u8], out: &mut [u8]) -> usize
    requires { 128 + length word.now ≤ length out.old }
    ensures { Appended 0 (Frames.line (decoding_told decoded) word.now) out.old out.new result }
{
    let mut line = Writer::new(out);
    write_line(decoded, word, &mut line);
    line.written
}
