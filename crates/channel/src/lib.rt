// The channel front: f32 samples to costs.
#![tactic(auto)]

ghost use Rattle.std.specs.Prelude.{◌≡◌, true, false, not, cond, map, ◌≤◌, ◌^◌, min, T, pos, length};
ghost use Rattle.std.specs.Float.{binary32};
ghost use Rattle.std.specs.Float.Ieee.{fits, is_nan, lt, to_bits};
ghost use Rattle.integers.specs.Nearest.{nearest};
ghost use Rattle.lists.specs.Entries.{some};
ghost use Rattle.lists.specs.Tabulated.{written};
ghost use Rattle.model.specs.Causes.{number_of};
ghost use Rattle.model.specs.Channel.{finite, zero_float, scale_in_range, floor_in_range, in_range, size_of, magnitude, cost_of_bits, cost_of};
ghost use Rattle.model.specs.ChannelClaims.{of_singles};
ghost use Rattle.model.specs.Promises.{FrontCall};

use model::{Cause, Channel, Erasure};

// ---- the cost of a product

// Of an f32's bits: the sign, the lowest bit of the exponent's field, and all below it the digits.
const SIGN: u32 = 0x8000_0000;

const FIELD: u32 = 0x0080_0000;

// The bits of 0.25, which costs 0 as everything below it does, and of 32,767.0, the limit.
const LOW: u32 = 0x3e80_0000;

const HIGH: u32 = 0x46ff_fe00;

// The cost's size: the magnitude in units of 2^-25 (LOW's field is 125), then the nearest whole number, halves up.
fn rounded(bits: u32) -> u32
    ensures { result ≡ min (nearest (magnitude bits) (2 ^ 149)) 32767 }
{
    let b = (bits % SIGN).clamp(LOW, HIGH);
    let digits = u64::from(FIELD + b % FIELD);
    let units = digits << (b / FIELD - 125);
    ((units + 16777216) / 33554432) as u32
}

#[tactic(auto, unfolding(model::specs::Channel::cost_of_bits))]
fn cost(product: f32) -> i16
    requires { T (not (is_nan product)) }
    ensures { result ≡ cost_of_bits (to_bits binary32 product) }
{
    let bits = f32::to_bits(product);
    let size = rounded(bits) as i16;
    if bits < SIGN { size } else { -size }
}

// ---- samples and settings

// Not `abs`, which makes 0.0 of -0.0: the model's size keeps it.
fn size(x: f32) -> f32
    ensures { result ≡ size_of x }
{
    if x < 0.0 { -x } else { x }
}

// The type of x says that it is an f32 value, as `FrontCall` wants it of a setting.
fn scale_in_range(x: f32) -> bool
    ensures value { result ≡ scale_in_range x }
    ensures single { fits binary32 x ≡ true }
{
    0.0 < x && x.is_finite()
}

fn floor_in_range(x: f32) -> bool
    ensures value { result ≡ floor_in_range x }
    ensures single { fits binary32 x ≡ true }
{
    !(x < 0.0) && x.is_finite()
}

#[tactic(auto, unfolding(model::specs::Channel::in_range))]
fn in_range(setting: Channel) -> bool
    ensures value { result ≡ in_range setting }
    ensures singles { of_singles setting ≡ true }
{
    match setting {
        Channel::Gaussian(scale) => scale_in_range(scale),
        Channel::Hard(weight) => scale_in_range(weight),
        Channel::Erasing(pair) => floor_in_range(pair.floor) && scale_in_range(pair.weight),
    }
}

#[tactic(auto, using(lists::proofs::Entries::found_end))]
fn some_not_finite(samples: &[f32]) -> bool
    ensures { result ≡ some (λ x. not (finite x)) samples.now }
{
    // A plain loop: `any` is faster, and what it tells of all samples was not found by the check.
    let mut found = false;
    for x in samples {
        found |= !x.is_finite();
    }
    found
}

// ---- the costs

// Of a sample under a hard or erasing setting, whose weight costs `above` and its negative `below`.
fn selected(floor: f32, above: i16, below: i16, x: f32) -> i16
    ensures { result ≡ cond (lt (size_of x) floor) (pos 0) (cond (lt zero_float x) above (cond (lt x zero_float) below (pos 0))) }
{
    // By returns: the chain of `else` takes up to twice the time on samples of both signs.
    if size(x) < floor {
        return 0;
    }
    if 0.0 < x {
        return above;
    }
    if x < 0.0 { below } else { 0 }
}

#[tactic(auto, using(crate::proofs::Costs::product_of))]
fn gaussian(scale: f32, samples: &[f32], costs: &mut [i16])
    requires setting { in_range (Channel.Gaussian scale) ≡ true }
    requires samples { some (λ x. not (finite x)) samples.now ≡ false }
    requires room { length samples.now ≤ length costs.old }
    ensures { costs.new ≡ written (map (cost_of (Channel.Gaussian scale)) samples.now) costs.old }
{
    for (i, x) in samples.iter().enumerate() {
        costs[i] = cost(*x * scale);
    }
}

#[tactic(auto, using(crate::proofs::Costs::weight_number))]
fn erasing(pair: Erasure, samples: &[f32], costs: &mut [i16])
    requires setting { in_range (Channel.Erasing pair) ≡ true }
    requires room { length samples.now ≤ length costs.old }
    ensures { costs.new ≡ written (map (cost_of (Channel.Erasing pair)) samples.now) costs.old }
{
    let above = cost(pair.weight);
    let below = cost(-pair.weight);
    for (i, x) in samples.iter().enumerate() {
        costs[i] = selected(pair.floor, above, below, *x);
    }
}

// A hard setting is an erasing one whose floor erases nothing. Each asks for the room, which `front` has looked at: a type for it would serve these three alone.
fn fill(setting: Channel, samples: &[f32], costs: &mut [i16])
    requires setting { in_range setting ≡ true }
    requires samples { some (λ x. not (finite x)) samples.now ≡ false }
    requires room { length samples.now ≤ length costs.old }
    ensures { costs.new ≡ written (map (cost_of setting) samples.now) costs.old }
{
    match setting {
        Channel::Gaussian(scale) => gaussian(scale, samples, costs),
        Channel::Hard(weight) => erasing(Erasure { floor: 0.0, weight }, samples, costs),
        Channel::Erasing(pair) => erasing(pair, samples, costs),
    }
}

// The costs of the samples, or the first cause: 11, 14, 10. The list of a refused call stays.
pub fn front(setting: Channel, samples: &[f32], costs: &mut [i16]) -> Result<(), Cause>
    ensures { FrontCall setting samples.now costs.old (record { number = number_of result; costs = costs.new }) }
{
    if !in_range(setting) {
        return Err(Cause::Setting);
    }
    if some_not_finite(samples) {
        return Err(Cause::Sample);
    }
    if costs.len() < samples.len() {
        return Err(Cause::Room);
    }
    fill(setting, samples, costs);
    Ok(())
}
