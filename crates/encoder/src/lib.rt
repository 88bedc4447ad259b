// The encoder: the word of a message, of many messages, the message of a codeword, and how long a message is.
#![tactic(auto)]

ghost use Rattle.std.specs.Prelude.{◌≡◌, ◌∷◌, ◌*◌, ◌≤◌, eqb, length, IfOk};
ghost use Rattle.lists.specs.Tabulated.{written};
ghost use Rattle.model.specs.Limits.{most_encoded_bits};
ghost use Rattle.model.specs.Causes.{number_of, count_of, first_of};
ghost use Rattle.model.specs.Records.{code_of, judge};
ghost use Rattle.model.specs.Calls.{verdict_told};
ghost use Rattle.model.specs.Encoding.{others, frames_in, size_causes, message_causes};
ghost use Rattle.model.specs.EncodingPromises.{LengthCall, EncoderCall, FramesCall, MessageCall};

use model::{Cause, MOST_ENCODED_BITS, Verdict};
use reader::Code;
use reduction::Reduction;

// The code of these records, of at most 256 bits; or the first cause, 20 for more of them.
fn read_short(code: &[u8]) -> Result<Code<'_>, Cause>
    ensures number { number_of result ≡ first_of (judge code.now ∷ size_causes (code_of code.now)) }
    ensures code { IfOk result (λ read. (read ≡ code_of code.now) × (read.bits ≤ most_encoded_bits)) }
{
    let read = Code::read(code)?;
    if MOST_ENCODED_BITS < read.bits() {
        return Err(Cause::Long);
    }
    Ok(read)
}

// How long a message is, or the first cause.
pub fn message_length(code: &[u8]) -> Result<usize, Cause>
    ensures { LengthCall code.now (record { number = number_of result; length = count_of result }) }
{
    let code = read_short(code)?;
    let mut rows = [[0u8; MOST_ENCODED_BITS]; MOST_ENCODED_BITS];
    Ok(Reduction::new(&code, &mut rows).message_length())
}

// Whether so many parts of one size make the total.
fn makes(total: usize, parts: usize, size: usize) -> bool
    ensures { result ≡ eqb total (parts * size) }
{
    if size == 0 {
        return total == 0;
    }
    (total % size == 0) & (total / size == parts)
}

// The first cause of so many messages: 12 for their length, 15 for an entry other than 0 and 1, 10 where the words have no room.
fn judge(reduction: &Reduction, frames: usize, messages: &[u8], words: &[u8]) -> Result<(), Cause>
    requires { 1 ≤ length reduction.now }
    ensures { number_of result ≡ first_of (message_causes (frames * others reduction.now) (frames * length reduction.now) messages.now words.now) }
{
    if !makes(messages.len(), frames, reduction.message_length()) {
        return Err(Cause::Lengths);
    }
    if inputs::some_not_binary(messages) {
        return Err(Cause::Entry);
    }
    if words.len() / reduction.bits() < frames {
        return Err(Cause::Room);
    }
    Ok(())
}

// The words of so many messages, one behind the other.
fn write_words(reduction: &Reduction, frames: usize, messages: &[u8], words: &mut [u8])
    requires messages { length messages.now ≡ frames * others reduction.now }
    requires room { frames * length reduction.now ≤ length words.old }
    ensures { words.new ≡ written (frames_in reduction.now frames messages.now) words.old }
{
    let bits = reduction.bits();
    let size = reduction.message_length();
    // By index: what is written through chunks_exact_mut is not known afterwards.
    for f in 0..frames {
        reduction.write_word(
            &messages[f * size..(f + 1) * size],
            &mut words[f * bits..(f + 1) * bits],
        );
    }
}

// The words of many messages of one code, which is reduced once; or the first cause, where the words stay as they were.
pub fn encode_frames(
    code: &[u8],
    frames: usize,
    messages: &[u8],
    words: &mut [u8],
) -> Result<(), Cause>
    ensures { FramesCall code.now frames messages.now words.old (record { number = number_of result; words = words.new }) }
{
    let code = read_short(code)?;
    let mut rows = [[0u8; MOST_ENCODED_BITS]; MOST_ENCODED_BITS];
    let reduction = Reduction::new(&code, &mut rows);
    judge(&reduction, frames, messages, words)?;
    write_words(&reduction, frames, messages, words);
    Ok(())
}

// The word of a message; or the first cause, where the word stays as it was.
pub fn encode(code: &[u8], message: &[u8], word: &mut [u8]) -> Result<(), Cause>
    ensures { EncoderCall code.now message.now word.old (record { number = number_of result; words = word.new }) }
{
    encode_frames(code, 1, message, word)
}

// The message of a codeword; or why the list is left as it was: the first check whose sum is odd, or the first cause.
pub fn read_message(code: &[u8], word: &[u8], message: &mut [u8]) -> Result<Verdict, Cause>
    ensures { MessageCall code.now word.now message.old
        (record { outcome = verdict_told result; message = message.new }) }
{
    let code = read_short(code)?;
    inputs::judge_word(word, code.bits())?;
    let mut rows = [[0u8; MOST_ENCODED_BITS]; MOST_ENCODED_BITS];
    let reduction = Reduction::new(&code, &mut rows);
    if message.len() < reduction.message_length() {
        return Err(Cause::Room);
    }
    if let Some(check) = codeword::first_odd(&code, word) {
        return Ok(Verdict::Odd(check));
    }
    reduction.write_message(word, message);
    Ok(Verdict::Codeword)
}
