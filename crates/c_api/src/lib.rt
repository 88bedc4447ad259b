// The library for C. A slice is a pointer and a length; include/widagbe.h says what the caller owes. What each function promises is the record of the model
// that its contract names, the same as that of the entry it calls.
#![tactic(auto)]

ghost use Rattle.std.specs.Prelude.{◌≡◌};
ghost use Rattle.model.specs.declared.Settings.{Settings};
ghost use Rattle.model.specs.Causes.{number_of, count_of};
ghost use Rattle.model.specs.Calls.{reading_told, verdict_told, lists_of, run_told};
ghost use Rattle.model.specs.Group.{group_told};
ghost use Rattle.model.specs.Promises.{ReaderCall, SplitterCall, FrontCall, ReflectorCall, AdderCall, TestCall, ExtensionCall, DecoderCall};
ghost use Rattle.model.specs.EncodingPromises.{LengthCall, EncoderCall, FramesCall, MessageCall};
ghost use Rattle.model.specs.GroupPromises.{GroupCall};
ghost use Rattle.model.specs.AlistPromises.{ImportCall, ExportCall, SizeCall};
ghost use Rattle.c_api.specs.Answers.{code_answer, word_answer};

use model::{Cause, Channel, DecodeAnswer, Erasure, GroupAnswer, Lists, Settings, Sizes, Verdict};

// ---- the answers

// The sizes of a code.
#[repr(C)]
#[derive(Drop)]
pub struct CodeAnswer {
    pub number: u32,
    pub bits: usize,
    pub checks: usize,
    pub triples: usize,
}

impl From<Result<Sizes, Cause>> for CodeAnswer {
    ghost from_gives = { λ read told. code_answer told ≡ reading_told read };

    fn from(read: Result<Sizes, Cause>) -> CodeAnswer {
        match read {
            Ok(sizes) => CodeAnswer {
                number: 0,
                bits: sizes.bits,
                checks: sizes.checks,
                triples: sizes.triples,
            },
            Err(cause) => CodeAnswer {
                number: cause.number(),
                bits: 0,
                checks: 0,
                triples: 0,
            },
        }
    }
}

// The answer about a word; the place is a check.
#[repr(C)]
#[derive(Drop)]
pub struct WordAnswer {
    pub number: u32,
    pub place: usize,
}

impl From<Result<Verdict, Cause>> for WordAnswer {
    ghost from_gives = { λ judged told. word_answer told ≡ verdict_told judged };

    fn from(judged: Result<Verdict, Cause>) -> WordAnswer {
        let (number, place) = match judged {
            Ok(Verdict::Codeword) => (0, 0),
            Ok(Verdict::Odd(check)) => (17, check),
            Err(cause) => (cause.number(), 0),
        };
        WordAnswer { number, place }
    }
}

// The answer of what writes text or records; how many bytes.
#[repr(C)]
#[derive(Drop)]
pub struct BytesAnswer {
    pub number: u32,
    pub bytes: usize,
}

impl From<Result<usize, Cause>> for BytesAnswer {
    ghost from_gives = { λ counted told. (told.number ≡ number_of counted) × (told.bytes ≡ count_of counted) };

    fn from(counted: Result<usize, Cause>) -> BytesAnswer {
        match counted {
            Ok(bytes) => BytesAnswer { number: 0, bytes },
            Err(cause) => BytesAnswer {
                number: cause.number(),
                bytes: 0,
            },
        }
    }
}

// How long a message is.
#[repr(C)]
#[derive(Drop)]
pub struct LengthAnswer {
    pub number: u32,
    pub length: usize,
}

impl From<Result<usize, Cause>> for LengthAnswer {
    ghost from_gives = { λ counted told. (told.number ≡ number_of counted) × (told.length ≡ count_of counted) };

    fn from(counted: Result<usize, Cause>) -> LengthAnswer {
        match counted {
            Ok(length) => LengthAnswer { number: 0, length },
            Err(cause) => LengthAnswer {
                number: cause.number(),
                length: 0,
            },
        }
    }
}

// The number of a call: 0 where it is done.
fn number(outcome: Result<(), Cause>) -> u32
    ensures { result ≡ number_of outcome }
{
    match outcome {
        Ok(()) => 0,
        Err(cause) => cause.number(),
    }
}

// ---- codes

#[unsafe(no_mangle)]
pub extern "C" fn widagbe_read(code: &[u8]) -> CodeAnswer
    ensures { ReaderCall code.now (code_answer result) }
{
    CodeAnswer::from(reader::read(code))
}

#[unsafe(no_mangle)]
pub extern "C" fn widagbe_split(code: &[u8], triples: &mut [u16], counts: &mut [u16]) -> u32
    ensures { SplitterCall code.now triples.old counts.old
        (record { number = result; triples = triples.new; counts = counts.new }) }
{
    number(triples::split(code, triples, counts))
}

// ---- codes as alist text

#[unsafe(no_mangle)]
pub extern "C" fn widagbe_import(text: &[u8], code: &mut [u8]) -> BytesAnswer
    ensures { ImportCall text.now code.old (record { number = result.number; bytes = result.bytes; list = code.new }) }
{
    BytesAnswer::from(importer::import(text, code))
}

#[unsafe(no_mangle)]
pub extern "C" fn widagbe_export(code: &[u8], text: &mut [u8]) -> BytesAnswer
    ensures { ExportCall code.now text.old (record { number = result.number; bytes = result.bytes; list = text.new }) }
{
    BytesAnswer::from(exporter::export(code, text))
}

#[unsafe(no_mangle)]
pub extern "C" fn widagbe_export_size(code: &[u8]) -> BytesAnswer
    ensures { SizeCall code.now (record { number = result.number; bytes = result.bytes }) }
{
    BytesAnswer::from(exporter::export_size(code))
}

// ---- costs

#[unsafe(no_mangle)]
pub extern "C" fn widagbe_channel_gaussian(scale: f32, samples: &[f32], costs: &mut [i16]) -> u32
    ensures { FrontCall (Channel.Gaussian scale) samples.now costs.old
        (record { number = result; costs = costs.new }) }
{
    number(channel::front(Channel::Gaussian(scale), samples, costs))
}

#[unsafe(no_mangle)]
pub extern "C" fn widagbe_channel_hard(weight: f32, samples: &[f32], costs: &mut [i16]) -> u32
    ensures { FrontCall (Channel.Hard weight) samples.now costs.old
        (record { number = result; costs = costs.new }) }
{
    number(channel::front(Channel::Hard(weight), samples, costs))
}

#[unsafe(no_mangle)]
pub extern "C" fn widagbe_channel_erasing(
    floor: f32,
    weight: f32,
    samples: &[f32],
    costs: &mut [i16],
) -> u32
    ensures { FrontCall (Channel.Erasing (record { floor = floor; weight = weight })) samples.now costs.old
        (record { number = result; costs = costs.new }) }
{
    number(channel::front(Channel::Erasing(Erasure { floor, weight }), samples, costs))
}

#[unsafe(no_mangle)]
pub extern "C" fn widagbe_reflect(costs: &[i16], word: &[u8], reflected: &mut [i16]) -> u32
    ensures { ReflectorCall costs.now word.now reflected.old (record { number = result; costs = reflected.new }) }
{
    number(reflector::reflect(costs, word, reflected))
}

// ---- words

#[unsafe(no_mangle)]
pub extern "C" fn widagbe_add_words(word: &[u8], other: &[u8], sum: &mut [u8]) -> u32
    ensures { AdderCall word.now other.now sum.old (record { number = result; word = sum.new }) }
{
    number(adder::add(word, other, sum))
}

#[unsafe(no_mangle)]
pub extern "C" fn widagbe_test(code: &[u8], word: &[u8]) -> WordAnswer
    ensures { TestCall code.now word.now (word_answer result) }
{
    WordAnswer::from(codeword::test(code, word))
}

#[unsafe(no_mangle)]
pub extern "C" fn widagbe_extend(code: &[u8], word: &[u8], point: &mut [u8]) -> WordAnswer
    ensures { ExtensionCall code.now word.now point.old
        (record { outcome = word_answer result; point = point.new }) }
{
    WordAnswer::from(codeword::extend(code, word, point))
}

// ---- the encoder

#[unsafe(no_mangle)]
pub extern "C" fn widagbe_message_length(code: &[u8]) -> LengthAnswer
    ensures { LengthCall code.now (record { number = result.number; length = result.length }) }
{
    LengthAnswer::from(encoder::message_length(code))
}

#[unsafe(no_mangle)]
pub extern "C" fn widagbe_encode(code: &[u8], message: &[u8], word: &mut [u8]) -> u32
    ensures { EncoderCall code.now message.now word.old (record { number = result; words = word.new }) }
{
    number(encoder::encode(code, message, word))
}

#[unsafe(no_mangle)]
pub extern "C" fn widagbe_encode_frames(
    code: &[u8],
    frames: usize,
    messages: &[u8],
    words: &mut [u8],
) -> u32
    ensures { FramesCall code.now frames messages.now words.old (record { number = result; words = words.new }) }
{
    number(encoder::encode_frames(code, frames, messages, words))
}

#[unsafe(no_mangle)]
pub extern "C" fn widagbe_read_message(code: &[u8], word: &[u8], message: &mut [u8]) -> WordAnswer
    ensures { MessageCall code.now word.now message.old
        (record { outcome = word_answer result; message = message.new }) }
{
    WordAnswer::from(encoder::read_message(code, word, message))
}

// ---- the decoder

#[unsafe(no_mangle)]
pub extern "C" fn widagbe_decode(
    code: &[u8],
    weight: u32,
    ratio: u32,
    limit: u32,
    tolerance: u32,
    costs: &[i16],
    triples: &mut [u16],
    counts: &mut [u16],
    sums: &mut [i64],
    values: &mut [i16],
    rows: &mut [i32],
    word: &mut [u8],
) -> DecodeAnswer
    ensures { (
        let settings : Settings = record { weight = weight; ratio = ratio; limit = limit; tolerance = tolerance } in
        let before = lists_of triples.old counts.old sums.old values.old rows.old word.old in
        let after = lists_of triples.new counts.new sums.new values.new rows.new word.new in
        DecoderCall code.now settings costs.now before (record { answer = run_told result; lists = after })) }
{
    let settings = Settings {
        weight,
        ratio,
        limit,
        tolerance,
    };
    let mut lists = Lists {
        triples,
        counts,
        sums,
        values,
        rows,
        word,
    };
    DecodeAnswer::from(decoder::decode(code, settings, costs, &mut lists))
}

#[unsafe(no_mangle)]
pub extern "C" fn widagbe_decode_group(
    code: &[u8],
    weight: u32,
    ratio: u32,
    limit: u32,
    tolerance: u32,
    frames: usize,
    costs: &[i16],
    triples: &mut [u16],
    counts: &mut [u16],
    sums: &mut [i64],
    values: &mut [i16],
    rows: &mut [i32],
    word: &mut [u8],
    work: &mut [i32],
) -> GroupAnswer
    ensures { (
        let settings : Settings = record { weight = weight; ratio = ratio; limit = limit; tolerance = tolerance } in
        let before = lists_of triples.old counts.old sums.old values.old rows.old word.old in
        let after = lists_of triples.new counts.new sums.new values.new rows.new word.new in
        GroupCall code.now settings frames costs.now before work.old (group_told result after) work.new) }
{
    let settings = Settings {
        weight,
        ratio,
        limit,
        tolerance,
    };
    let mut lists = Lists {
        triples,
        counts,
        sums,
        values,
        rows,
        word,
    };
    GroupAnswer::from(group::decode(code, settings, frames, costs, &mut lists, work))
}
