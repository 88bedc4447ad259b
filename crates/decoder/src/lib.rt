// The decoder: the causes in their order, the run of the code's system in the lent lists, and what its last values say.
#![tactic(auto)]

ghost use Rattle.std.specs.Prelude.{◌≡◌, false, ◌≤◌, length, Ok, IfOk};
ghost use Rattle.quotient.specs.Quotient.{quotient};
ghost use Rattle.model.specs.Limits.{most_frames};
ghost use Rattle.model.specs.Causes.{number_of, first_of};
ghost use Rattle.model.specs.Splitting.{system_of};
ghost use Rattle.model.specs.Run as Run;
ghost use Rattle.model.specs.Calls.{out_of_range, decoder_causes, lists_of, decoding_told, decoded_by};
ghost use Rattle.model.specs.Lent.{contents_of, SameLists};
ghost use Rattle.model.specs.DecoderClaims.{Small};
ghost use Rattle.model.specs.Promises.{DecoderCall};
ghost use Rattle.decoder.specs.Room.{too_short, RoomFor};

use model::{Cause, Decoding, Lists, Settings};
use reader::Code;

// ---- the causes

// 10: a lent list that is too short for so many frames of the code.
pub fn lacks_room(code: &Code, frames: usize, lists: &Lists) -> bool
    requires { frames ≤ most_frames }
    ensures { result ≡ too_short frames code.now (contents_of lists.now) }
{
    lists.triples.len() < 3 * code.triples()
        || lists.counts.len() < code.variables()
        || lists.sums.len() < frames * code.variables()
        || lists.values.len() < frames * code.variables()
        || lists.rows.len() < frames * (4 * code.triples())
        || lists.word.len() < frames * code.bits()
}

// The first cause of a call with a sound code: 11, 12, 13, 10.
fn judge(code: &Code, settings: Settings, costs: &[i16], lists: &Lists) -> Result<(), Cause>
    ensures number { number_of result ≡ first_of (decoder_causes code.now settings costs.now (contents_of lists.now)) }
    ensures small { IfOk result (λ _. Small costs.now) }
{
    if inputs::out_of_range(settings) {
        return Err(Cause::Setting);
    }
    if costs.len() != code.bits() {
        return Err(Cause::Lengths);
    }
    if inputs::some_forbidden(costs) {
        return Err(Cause::Cost);
    }
    if lacks_room(code, 1, lists) {
        return Err(Cause::Room);
    }
    Ok(())
}

// ---- an accepted call

// The triples and the counts of the code are written, its system is run, and its last values tell the word.
// By slices: what a field of `Lists` holds is not known any more once its list was lent to be read.
fn decode_accepted(
    code: &Code,
    settings: Settings,
    costs: &[i16],
    triples: &mut [u16],
    counts: &mut [u16],
    sums: &mut [i64],
    values: &mut [i16],
    rows: &mut [i32],
    word: &mut [u8],
) -> Decoding
    requires settings { out_of_range settings ≡ false }
    requires costs { (length costs.now ≡ code.now.bits) × Small costs.now }
    requires room { RoomFor code.now (lists_of triples.old counts.old sums.old values.old rows.old word.old) }
    ensures { let before = lists_of triples.old counts.old sums.old values.old rows.old word.old in
        let after = lists_of triples.new counts.new sums.new values.new rows.new word.new in
        record { answer = decoding_told (Ok result); lists = after }
        ≡ decoded_by code.now (Run.run quotient (system_of code.now) settings costs.now) before }
{
    let total = code.triples();
    let variables = code.variables();
    triples::write_system(code, triples, counts);
    let ending = run::run(
        settings,
        &triples[..3 * total],
        &counts[..variables],
        costs,
        total,
        &mut sums[..variables],
        &mut values[..variables],
        &mut rows[..4 * total],
    );
    let conclusion = outcome::conclude(code, &values[..variables], word);
    Decoding { conclusion, ending }
}

// ---- the entry

// The decoder, in lists with room for the code (`Lists`); or the first cause, of the code, then 11, 12, 13 and 10. A refused call leaves every list as it was;
// the word is written where it is a codeword.
pub fn decode(
    code: &[u8],
    settings: Settings,
    costs: &[i16],
    lists: &mut Lists,
) -> Result<Decoding, Cause>
    ensures call { DecoderCall code.now settings costs.now (contents_of lists.old)
        (record { answer = decoding_told result; lists = contents_of lists.new }) }
    ensures same { SameLists lists.old lists.new }
{
    let code = Code::read(code)?;
    judge(&code, settings, costs, lists)?;
    Ok(decode_accepted(
        &code,
        settings,
        costs,
        &mut *lists.triples,
        &mut *lists.counts,
        &mut *lists.sums,
        &mut *lists.values,
        &mut *lists.rows,
        &mut *lists.word,
    ))
}
