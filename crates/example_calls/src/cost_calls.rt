// Examples of calls with samples, costs and words: the channel front, the reflector, the sum of two words, chains.
ghost use Rattle.std.specs.Prelude.{◌≤◌, length};

use crate::fields::{Numbers, room};
use crate::show::{list, text, told};
use model::{Channel, Erasure};

// ---- channel front and reflector

// The float with these bits, whose sign is 0.
fn size(x: usize) -> f32 {
    if 0x7f80_0000 < x {
        return f32::NAN;
    }
    f32::from_bits(x as u32)
}

// The float with these bits.
fn real(x: usize) -> f32 {
    let size = size(x % 0x8000_0000);
    if x < 0x8000_0000 { size } else { -size }
}

pub fn first_real(field: &[u8]) -> f32 {
    real(Numbers::read(field, 16).values[0])
}

pub fn erasure(field: &[u8]) -> Erasure {
    let [floor, weight, ..] = Numbers::read(field, 16).values;
    Erasure {
        floor: real(floor),
        weight: real(weight),
    }
}

pub fn front(setting: Channel, samples: &[u8], rooms: &[u8]) {
    let given = Numbers::read(samples, 16);
    let samples = given.values.map(real);
    let m = room(rooms);
    let mut costs = [9i16; 16];
    told(channel::front(setting, &samples[..given.count], &mut costs[..m]));
    list(b", costs", &costs[..m]);
}

// A two-byte number as two's complement.
fn cost(x: usize) -> i16 {
    stream::twos_complement(x % 65536)
}

// Eight costs, and nines behind them.
pub fn costs(values: [usize; 8]) -> [i16; 16] {
    let mut costs = [9i16; 16];
    costs[..8].copy_from_slice(&values.map(cost));
    costs
}

// Reflects the costs to a list of `m` entries; the list.
fn reflected(costs: &[i16], word: &[u8], m: usize) -> [i16; 16]
    requires { m ≤ 16 }
{
    let mut reflected = [9i16; 16];
    told(reflector::reflect(costs, word, &mut reflected[..m]));
    list(b", costs", &reflected[..m]);
    reflected
}

pub fn reflecting(given: &[u8], word: &[u8], rooms: &[u8]) {
    let given = Numbers::read(given, 10);
    reflected(&costs(given.values)[..given.count], word, room(rooms));
}

// ---- sums of words, and chains

// Adds two words to a list of `m` entries; the list.
fn added(word: &[u8], other: &[u8], m: usize) -> [u8; 16]
    requires { m ≤ 16 }
{
    let mut sum = [9u8; 16];
    told(adder::add(word, other, &mut sum[..m]));
    list(b", word", &sum[..m]);
    sum
}

pub fn adding(word: &[u8], other: &[u8], rooms: &[u8]) {
    added(word, other, room(rooms));
}

pub fn chaining(given: &[u8], word: &[u8], other: &[u8]) {
    let given = Numbers::read(given, 10);
    let n = given.count;
    let costs = costs(given.values);
    text(b" first");
    let first = reflected(&costs[..n], word, n);
    text(b"; second");
    reflected(&first[..n], other, n);
    text(b"; sum");
    let sum = added(word, other, n);
    text(b"; by the sum");
    reflected(&costs[..n], &sum[..n], n);
}
