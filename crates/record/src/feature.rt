// "Feature value, 8 octets, two u32": the features, then the target settings, with a constant for each named bit.
ghost use Rattle.std.specs.Prelude.{◌≡◌};
ghost use Rattle.record.specs.Answer.{meant};
ghost use Rattle.record.specs.Feature.{feature_of, feature_octets, has_named, feature_bits, target_bits};

use crate::groups::has;
use crate::octets::{number_at, put_number};
use crate::refusal::Refusal;

#[derive(Clone, Copy, PartialEq, Eq, Debug)]
pub struct Feature {
    pub features: u32,
    pub targets: u32,
}

// Whether a bit of a word has a name and is set.
fn has_bit(word: u32, bit: u8) -> bool
    ensures { result ≡ has_named word bit }
{
    bit <= 16 && has(word, bit)
}

impl Feature {
    // The bits of the features. Numbers and not an enum: `has_feature` and `has_target` take any bit, and a constant Feature value is
    // written as `1 << Feature::PACE`, where no function can be called.
    pub const AVERAGE_SPEED: u8 = 0;

    pub const CADENCE: u8 = 1;

    pub const DISTANCE: u8 = 2;

    pub const INCLINATION: u8 = 3;

    pub const ELEVATION_GAIN: u8 = 4;

    pub const PACE: u8 = 5;

    pub const STEP_COUNT: u8 = 6;

    pub const RESISTANCE: u8 = 7;

    pub const STRIDE_COUNT: u8 = 8;

    pub const ENERGY: u8 = 9;

    pub const HEART_RATE: u8 = 10;

    pub const METABOLIC_EQUIVALENT: u8 = 11;

    pub const ELAPSED: u8 = 12;

    pub const REMAINING: u8 = 13;

    pub const POWER: u8 = 14;

    pub const BELT_FORCE_AND_POWER_OUTPUT: u8 = 15;

    pub const USER_DATA_RETENTION: u8 = 16;

    // The bits of the target settings.
    pub const TARGET_SPEED: u8 = 0;

    pub const TARGET_INCLINATION: u8 = 1;

    pub const TARGET_RESISTANCE: u8 = 2;

    pub const TARGET_POWER: u8 = 3;

    pub const TARGET_HEART_RATE: u8 = 4;

    pub const TARGET_ENERGY: u8 = 5;

    pub const TARGET_STEPS: u8 = 6;

    pub const TARGET_STRIDES: u8 = 7;

    pub const TARGET_DISTANCE: u8 = 8;

    pub const TARGET_TRAINING_TIME: u8 = 9;

    pub const TARGET_TIME_IN_TWO_ZONES: u8 = 10;

    pub const TARGET_TIME_IN_THREE_ZONES: u8 = 11;

    pub const TARGET_TIME_IN_FIVE_ZONES: u8 = 12;

    pub const TARGET_BIKE_SIMULATION: u8 = 13;

    pub const TARGET_WHEEL_CIRCUMFERENCE: u8 = 14;

    pub const TARGET_SPIN_DOWN: u8 = 15;

    pub const TARGET_CADENCE: u8 = 16;

    // Reads a Feature value; bits that have no name are cleared.
    pub fn from_octets(octets: &[u8]) -> Result<Feature, Refusal>
        ensures { meant result ≡ feature_of octets.now }
    {
        if octets.len() != 8 {
            return Err(Refusal::NotEightOctets);
        }
        let features = number_at(octets, 0, 4) % 131072;
        let targets = number_at(octets, 4, 4) % 131072;
        Ok(Feature { features, targets })
    }

    // The octets of a Feature value; bits that have no name are written 0.
    pub fn to_octets(self) -> [u8; 8]
        ensures { result ≡ feature_octets self }
    {
        let mut out = [0u8; 8];
        put_number(&mut out, 0, 4, self.features % 131072);
        put_number(&mut out, 4, 4, self.targets % 131072);
        out
    }

    // Whether a feature's bit is set.
    pub fn has_feature(self, bit: u8) -> bool
        ensures { result ≡ has_named self.features bit }
    {
        has_bit(self.features, bit)
    }

    // Whether a target setting's bit is set.
    pub fn has_target(self, bit: u8) -> bool
        ensures { result ≡ has_named self.targets bit }
    {
        has_bit(self.targets, bit)
    }

    // The bits of the features, each by its name, in document 01's order. This and `target_bits` are two tables, and no twins.
    pub fn feature_bits() -> [u8; 17]
        ensures { result ≡ feature_bits }
    {
        [
            Feature::AVERAGE_SPEED,
            Feature::CADENCE,
            Feature::DISTANCE,
            Feature::INCLINATION,
            Feature::ELEVATION_GAIN,
            Feature::PACE,
            Feature::STEP_COUNT,
            Feature::RESISTANCE,
            Feature::STRIDE_COUNT,
            Feature::ENERGY,
            Feature::HEART_RATE,
            Feature::METABOLIC_EQUIVALENT,
            Feature::ELAPSED,
            Feature::REMAINING,
            Feature::POWER,
            Feature::BELT_FORCE_AND_POWER_OUTPUT,
            Feature::USER_DATA_RETENTION,
        ]
    }

    // The bits of the target settings, each by its name, in document 01's order.
    pub fn target_bits() -> [u8; 17]
        ensures { result ≡ target_bits }
    {
        [
            Feature::TARGET_SPEED,
            Feature::TARGET_INCLINATION,
            Feature::TARGET_RESISTANCE,
            Feature::TARGET_POWER,
            Feature::TARGET_HEART_RATE,
            Feature::TARGET_ENERGY,
            Feature::TARGET_STEPS,
            Feature::TARGET_STRIDES,
            Feature::TARGET_DISTANCE,
            Feature::TARGET_TRAINING_TIME,
            Feature::TARGET_TIME_IN_TWO_ZONES,
            Feature::TARGET_TIME_IN_THREE_ZONES,
            Feature::TARGET_TIME_IN_FIVE_ZONES,
            Feature::TARGET_BIKE_SIMULATION,
            Feature::TARGET_WHEEL_CIRCUMFERENCE,
            Feature::TARGET_SPIN_DOWN,
            Feature::TARGET_CADENCE,
        ]
    }
}
