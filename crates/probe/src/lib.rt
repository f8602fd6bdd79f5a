// Rules, "Probe readings": the exact value of a probe's float becomes a rate, with whole numbers alone.
#![tactic(auto)]

ghost use Rattle.std.specs.Prelude.{◌≡◌, ◌<◌, ◌≤◌};
ghost use Rattle.std.specs.Float.{binary32};
ghost use Rattle.std.specs.Float.Ieee.{of_bits};
ghost use Rattle.probe.specs.Readings.{rounded, within_most, answer_in, rate_of};
ghost use Rattle.probe.specs.Inner.{Parts, parts_answer};

use refusal::Refusal;
use units::{MOST_RATE, Rate};

#[derive(Clone, Copy)]
pub enum Reading {
    InchesPerHour(f32),
    MillimetresPerHour(f32),
}

// A float's 32 bits are its sign, then an exponent of 8 bits, then 23 digits. The sign alone is minus zero.
const MINUS_ZERO: u32 = 0x8000_0000;

// All ones in the exponent: an infinity or, with other digits than 0, not a number.
const INFINITE: u32 = 0x7f80_0000;

// The weight of the leading digit, which is not among the 23: it is 1, or 0 where the exponent is 0.
const LEADING: u32 = 0x80_0000;

// The smallest float above zero is 1 / 2^149.
const FINEST: u32 = 149;

// Halved so often, a float's digits come to less than half a hundredth in every unit.
const FAINT: u32 = 40;

// A unit of length that is a hundredth of an inch or longer, as a fraction of small numbers: so many `units` are so many
// `hundredths` of an inch.
#[derive(Clone, Copy)]
struct Scale {
    hundredths: u64,
    units: u64,
    ghost some: { 0 < units },
    ghost long: { units ≤ hundredths },
    ghost small: { hundredths ≤ 1_000 },
}

// The rate of a reading, refused 11 where it is none and 12 where it is too fast.
pub fn rate(reading: Reading) -> Result<Rate, Refusal>
    ensures { result ≡ rate_of reading }
{
    match reading {
        Reading::InchesPerHour(x) => Scale::INCHES.of_float(x),
        Reading::MillimetresPerHour(x) => Scale::MILLIMETRES.of_float(x),
    }
}

impl Scale {
    // An inch is 25.4 mm.
    const INCHES: Scale = Scale {
        hundredths: 100,
        units: 1,
    };

    const MILLIMETRES: Scale = Scale {
        hundredths: 1_000,
        units: 254,
    };

    // The rate of a float in this unit. What is not a number has no bits of its own; it alone differs from itself.
    fn of_float(self, x: f32) -> Result<Rate, Refusal>
        ensures { result ≡ answer_in self.hundredths self.units x }
    {
        if x != x {
            return Err(Refusal::ReadingNotARate);
        }
        self.of_bits(f32::to_bits(x))
    }

    // The rate of the float that the bits stand for.
    fn of_bits(self, bits: u32) -> Result<Rate, Refusal>
        ensures { result ≡ answer_in self.hundredths self.units (of_bits binary32 bits) }
    {
        if MINUS_ZERO < bits {
            return Err(Refusal::ReadingNotARate);
        }
        if bits == MINUS_ZERO {
            return Ok(Rate(0));
        }
        if INFINITE <= bits {
            return Err(Refusal::ReadingNotARate);
        }
        let digits = bits % LEADING;
        let exponent = bits / LEADING;
        if exponent == 0 {
            return self.of_parts(digits, 0);
        }
        self.of_parts(LEADING + digits, exponent - 1)
    }

    // The rate of the value digits * 2^twos / 2^149. Where twos is 149 or more it is too fast in every unit.
    fn of_parts(self, digits: u32, twos: u32) -> Result<Rate, Refusal>
        requires { Parts digits twos }
        ensures { result ≡ parts_answer self.hundredths self.units digits twos }
    {
        if FINEST <= twos {
            return Err(Refusal::ReadingTooFast);
        }
        let halvings = FINEST - twos;
        if FAINT <= halvings {
            return within_most(0);
        }
        within_most(rounded(u64::from(digits) * self.hundredths, self.units << halvings))
    }
}

// The whole number that n / d hundredths become: the nearest, an exact half going down.
fn rounded(n: u64, d: u64) -> u64
    requires { 0 < d }
    ensures { result ≡ rounded n d }
{
    let whole = n / d;
    let rest = n % d;
    if d - rest < rest {
        return whole + 1;
    }
    whole
}

// What was rounded is the rate, unless it is over the largest.
#[tactic(auto, using(crate::proofs::Parts::granted_within))]
fn within_most(hundredths: u64) -> Result<Rate, Refusal>
    ensures { result ≡ within_most hundredths }
{
    if hundredths <= MOST_RATE {
        return Ok(Rate(hundredths));
    }
    Err(Refusal::ReadingTooFast)
}
