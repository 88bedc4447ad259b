// The records of the frame program, on slices.
#![tactic(auto)]

ghost use Rattle.std.specs.Prelude.{◌≡◌, [], ◌∷◌, ◌+◌, ◌*◌, ◌≤◌, ◌<◌, length, drop};
ghost use Rattle.lists.specs.Tabulated.{written};
ghost use Rattle.model.specs.Causes.{number_of, first_of, ◌if◌, short, outside, accepted};
ghost use Rattle.model.specs.Records.{two_bytes, judge};
ghost use Rattle.program.specs.Frames as Frames;

use model::{Cause, MOST_ITERATIONS, MOST_RATIO, MOST_WEIGHT, Settings};
use program::{HELD_BITS, HELD_TRIPLES};
use reader::Code;

// The marks that a settings record and a frame begin with.
const SETTINGS_MARK: usize = 0x4c53;

const FRAME_MARK: usize = 0x4c46;

// ---- code records

// The first cause in the header that `s` begins with: 1, 2, 3, or 10 for more bits than the program holds.
#[tactic(auto, unfolding(program::specs::Frames::judge_held_header))]
pub fn judge_header(s: &[u8]) -> Result<(), Cause>
    ensures { number_of result ≡ Frames.judge_held_header s.now }
{
    let header = records::read_header(s)?;
    if HELD_BITS < header.bits {
        return Err(Cause::Room);
    }
    Ok(())
}

// The first cause in the check record that `s` begins with: 1, 2, 4, 5, 6, or 10 for more triples than the program holds; `triples` are held before it.
#[tactic(auto, unfolding(program::specs::Frames::judge_held_check))]
pub fn judge_check(s: &[u8], bits: usize, triples: usize) -> Result<(), Cause>
    requires { triples ≤ Frames.held_triples }
    ensures { number_of result ≡ Frames.judge_held_check bits triples s.now }
{
    records::judge_check(s, bits)?;
    if HELD_TRIPLES < triples + records::triple_count(s) {
        return Err(Cause::Room);
    }
    Ok(())
}

// The first cause in the code records together: 1 to 6, then 9, 7, 8.
pub fn judge_code(code: &[u8]) -> Result<(), Cause>
    ensures { number_of result ≡ judge code.now }
{
    let _ = Code::read(code)?;
    Ok(())
}

// ---- the settings record

// The first cause in the setting that `s` has at `at`: 1, or 11 where it is outside least..most.
fn judge_setting(s: &[u8], at: usize, least: usize, most: usize) -> Result<(), Cause>
    requires { at ≤ 10 }
    ensures { number_of result ≡ first_of (1 if short (at + 2) s.now ∷ 11 if outside least most (two_bytes (drop at s.now)) ∷ []) }
{
    if s.len() < at + 2 {
        return Err(Cause::Cut);
    }
    let setting = records::two_bytes(s, at);
    if setting < least || most < setting {
        return Err(Cause::Setting);
    }
    Ok(())
}

// The first cause in the settings record that `s` begins with: 1, 2, 11, each setting as soon as it is whole.
#[tactic(auto, unfolding(program::specs::Frames::judge_settings_up_to))]
pub fn judge_settings(s: &[u8]) -> Result<(), Cause>
    ensures { number_of result ≡ Frames.judge_settings s.now }
{
    let (mark, _) = records::split_number(s)?;
    if mark != SETTINGS_MARK {
        return Err(Cause::Mark);
    }
    judge_setting(s, 2, 1, MOST_WEIGHT as usize)?;
    judge_setting(s, 4, 0, MOST_RATIO as usize)?;
    judge_setting(s, 6, 1, MOST_ITERATIONS as usize)?;
    if s.len() < 12 {
        return Err(Cause::Cut);
    }
    Ok(())
}

// The settings in the record that `s` begins with.
pub fn settings(s: &[u8]) -> Settings
    requires { 12 ≤ length s.now }
    ensures { result ≡ Frames.settings_of s.now }
{
    let weight = records::two_bytes(s, 2);
    let ratio = records::two_bytes(s, 4);
    let limit = records::two_bytes(s, 6);
    let high = records::two_bytes(s, 8);
    let low = records::two_bytes(s, 10);
    Settings {
        weight: weight as u32,
        ratio: ratio as u32,
        limit: limit as u32,
        tolerance: (65536 * high + low) as u32,
    }
}

// ---- a frame record

// A two-byte number as two's complement.
pub fn twos_complement(x: usize) -> i16
    requires { x ≤ 65535 }
    ensures { result ≡ Frames.twos_complement x }
{
    if x < 32768 {
        x as i16
    } else {
        -1 - (65535 - x) as i16
    }
}

// The first cause in the bytes of the frame record that `s` begins with: 1, 2.
#[tactic(auto, unfolding(program::specs::Frames::judge_whole))]
fn judge_whole(s: &[u8], bits: usize) -> Result<(), Cause>
    requires { bits ≤ Frames.held_bits }
    ensures { number_of result ≡ Frames.judge_whole bits s.now }
{
    let (mark, rest) = records::split_number(s)?;
    if mark != FRAME_MARK {
        return Err(Cause::Mark);
    }
    if rest.len() < 2 * bits {
        return Err(Cause::Cut);
    }
    Ok(())
}

// The costs of the frame record that `s` begins with. By index: what an adapter of `iter_mut` writes is not known afterwards.
fn write_costs(s: &[u8], bits: usize, costs: &mut [i16])
    requires { (Frames.frame_size bits ≤ length s.now) × (bits ≤ length costs.old) }
    ensures { costs.new ≡ written (Frames.costs_of bits s.now) costs.old }
{
    for i in 0..bits {
        costs[i] = twos_complement(records::two_bytes(s, 2 + 2 * i));
    }
}

// The first cause in the frame record that `s` begins with: 1, 2, 13. The costs of a whole frame are written.
pub fn read_frame(s: &[u8], bits: usize, costs: &mut [i16]) -> Result<(), Cause>
    requires bits { bits ≤ Frames.held_bits }
    requires room { bits ≤ length costs.old }
    ensures number { number_of result ≡ Frames.judge_frame bits s.now }
    ensures costs { costs.new ≡ accepted (Frames.judge_whole bits s.now) (written (Frames.costs_of bits s.now) costs.old) costs.old }
{
    judge_whole(s, bits)?;
    write_costs(s, bits, costs);
    if inputs::some_forbidden(&costs[..bits]) {
        return Err(Cause::Cost);
    }
    Ok(())
}
