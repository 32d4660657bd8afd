// "Ranges (least, greatest, both allowed) exist for speed u16, inclination s16, resistance s16, power s16, heart rate u8." W-206: "Each range gets its
// increment, u16 (for heart rate u8)."
ghost use Rattle.std.specs.Prelude.{◌≡◌, ℤ, true, pos, nat_abs};
ghost use Rattle.std.specs.Int.Signed.{le_z};
ghost use Rattle.service.specs.Control.Ranges.{bounds, multiple, in_range, is_range, are_ranges, allowed};
ghost use Rattle.service.specs.Control.Ranges as RangesSpecs;

use crate::control::op_codes::Bound;
use record::octets::{s16_at, u8_at, u16_at};

// A least and a greatest number, both allowed, and the increment, which may have another type.
#[derive(Clone, Copy, Default)]
pub struct Range<T, S> {
    pub least: T,
    pub greatest: T,
    pub increment: S,
}

pub type SpeedRange = Range<u16, u16>;

pub type SignedRange = Range<i16, u16>;

pub type HeartRateRange = Range<u8, u8>;

#[derive(Clone, Copy, Default)]
pub struct Ranges {
    pub speed: SpeedRange,
    pub inclination: SignedRange,
    pub resistance: SignedRange,
    pub power: SignedRange,
    pub heart_rate: HeartRateRange,
}

// A number of a range, or its increment, as an i32: a u8, a u16 or an i16. A trait of its own and no `Into<i32>`: contracts speak of its
// `value`.
pub(crate) trait Bounded: Copy {
    ghost value: { Self → ℤ };

    fn number(self) -> i32
        ensures { result ≡ value self };

    // How far it is above a number that is no larger: up to 65,535, which no i16 holds.
    fn above(self, least: Self) -> u16
        requires { le_z (value least) (value self) ≡ true }
        ensures { result ≡ RangesSpecs.distance (value least) (value self) };
}

impl Bounded for u8 {
    ghost value = { λ n. pos n };

    fn number(self) -> i32 {
        self as i32
    }

    fn above(self, least: u8) -> u16 {
        self as u16 - least as u16
    }
}

impl Bounded for u16 {
    ghost value = { λ n. pos n };

    fn number(self) -> i32 {
        self as i32
    }

    fn above(self, least: u16) -> u16 {
        self - least
    }
}

impl Bounded for i16 {
    ghost value = { λ z. z };

    fn number(self) -> i32 {
        self as i32
    }

    fn above(self, least: i16) -> u16 {
        (self as i32 - least as i32) as u16
    }
}

// Whether a number is at least one number and at most another.
fn in_range(least: i32, greatest: i32, x: i32) -> bool
    ensures { result ≡ in_range least greatest x }
{
    least <= x && x <= greatest
}

// Whether a distance is a multiple of an increment; of 0, only 0 is.
fn is_multiple(increment: u32, n: u32) -> bool
    ensures { result ≡ multiple increment n }
{
    if increment == 0 {
        return n == 0;
    }
    n % increment == 0
}

impl<T: Bounded, S: Bounded> Range<T, S> {
    // Whether a machine can be opened with it; refusal 16 if it cannot.
    pub(crate) fn is_range(self) -> bool
        ensures { result ≡ is_range (bounds (T.value self.least) (T.value self.greatest) (nat_abs (S.value self.increment))) }
    {
        self.least.number() <= self.greatest.number() && self.increment.number() != 0
    }

    // Whether a number lies in it, and on a step.
    pub(crate) fn admits(self, x: T) -> bool
        ensures { result ≡ RangesSpecs.admits (bounds (T.value self.least) (T.value self.greatest) (nat_abs (S.value self.increment))) (T.value x) }
    {
        let step = self.increment.number().unsigned_abs();
        in_range(self.least.number(), self.greatest.number(), x.number())
            && is_multiple(step, x.above(self.least) as u32)
    }
}

impl Ranges {
    // Whether each of the five is a range.
    pub(crate) fn are_ranges(self) -> bool
        ensures { result ≡ are_ranges self }
    {
        self.speed.is_range()
            && self.inclination.is_range()
            && self.resistance.is_range()
            && self.power.is_range()
            && self.heart_rate.is_range()
    }

    // Whether a parameter is allowed by what bounds it, if anything does. Resistance is one unsigned octet in a signed range.
    pub(crate) fn allow(self, bound: Bound, p: &[u8]) -> bool
        ensures { result ≡ allowed self bound p.now }
    {
        match bound {
            Bound::Free => true,
            Bound::Speed => self.speed.admits(u16_at(p, 0)),
            Bound::Inclination => self.inclination.admits(s16_at(p, 0)),
            Bound::Resistance => self.resistance.admits(u8_at(p, 0) as i16),
            Bound::Power => self.power.admits(s16_at(p, 0)),
            Bound::HeartRate => self.heart_rate.admits(u8_at(p, 0)),
            // "08 with neither 1 nor 2", and 13
            Bound::OneOrTwo => in_range(1, 2, u8_at(p, 0) as i32),
        }
    }
}
