// The frame program's answer to a frame: its line, and whether the program goes on.
#![tactic(auto)]

ghost use Rattle.std.specs.Prelude.{◌≡◌, false, ◌≤◌, length, take};
ghost use Rattle.lists.specs.Entries.{some};
ghost use Rattle.model.specs.Records.{code_of};
ghost use Rattle.model.specs.Calls.{out_of_range, forbidden};
ghost use Rattle.program.specs.Frames as Frames;
ghost use Rattle.program.specs.FrameClaims.{HeldCode, frame_text, goes_further};

use model::{Cause, Lists, Settings};
use program::{Held, LINE};

// The line of a sound frame, whose costs are held; how many bytes it has.
fn answer(
    code: &[u8],
    settings: Settings,
    bits: usize,
    held: &mut Held,
    out: &mut [u8; LINE],
) -> usize
    requires code { HeldCode code.now }
    requires settings { out_of_range settings ≡ false }
    requires bits { bits ≡ (code_of code.now).bits }
    requires costs { some forbidden (take bits held.old.costs) ≡ false }
    ensures line { take result out.new ≡ Frames.frame_line (code_of code.now) settings (take bits held.old.costs) }
    ensures within { result ≤ length out.new }
{
    let mut lists = Lists {
        triples: &mut held.triples,
        counts: &mut held.counts,
        sums: &mut held.sums,
        values: &mut held.values,
        rows: &mut held.rows,
        word: &mut held.word,
    };
    let decoded = decoder::decode(code, settings, &held.costs[..bits], &mut lists);
    lines::line(decoded, &held.word[..bits], out)
}

// What is written for a frame, and whether the program goes on, which it also does after a refusal: so no Result.
#[derive(Drop)]
pub struct Line {
    pub written: usize,
    pub on: bool,
}

// The bytes that came for a frame: its line, a refusal's, or nothing.
pub fn frame_line(
    code: &[u8],
    settings: Settings,
    bytes: &[u8],
    held: &mut Held,
    out: &mut [u8; LINE],
) -> Line
    requires code { HeldCode code.now }
    requires settings { out_of_range settings ≡ false }
    ensures text { take result.written out.new ≡ frame_text (code_of code.now) settings bytes.now }
    ensures on { result.on ≡ goes_further (code_of code.now).bits bytes.now }
    ensures within { result.written ≤ length out.new }
{
    if bytes.is_empty() {
        return Line {
            written: 0,
            on: false,
        };
    }
    let bits = records::two_bytes(code, 2);
    if let Err(cause) = stream::read_frame(bytes, bits, &mut held.costs) {
        let written = lines::refusal(cause.number(), out);
        return Line {
            written,
            on: cause == Cause::Cost,
        };
    }
    let written = answer(code, settings, bits, held, out);
    Line { written, on: true }
}
