// A treadmill that goes downhill after a climb: inclination, ramp angle, belt force and power
// output are negative.
use crate::round::BLANK;
use record::layout;
use record::record::{Energy, Force, Gain, Inclination, RampAngle, Record, Slope};

// The groups of this record, by their bits.
const DISTANCE: u32 = 1 << 2;

const SLOPE: u32 = 1 << 3;

const GAIN: u32 = 1 << 4;

const ENERGY: u32 = 1 << 7;

const HEART_RATE: u32 = 1 << 8;

const FORCE: u32 = 1 << 12;

pub(crate) const TREADMILL: Record = Record {
    kind: layout::TREADMILL,
    groups: DISTANCE | SLOPE | GAIN | ENERGY | HEART_RATE | FORCE,
    speed: 1050,
    distance: 4200,
    slope: Slope {
        inclination: Inclination(-25),
        ramp_angle: RampAngle(-14),
    },
    gain: Gain {
        positive: 310,
        negative: 125,
    },
    energy: Energy {
        total: 415,
        per_hour: 780,
        per_minute: 13,
    },
    heart_rate: 152,
    force: Force {
        belt: -120,
        power_output: -95,
    },
    ..BLANK
};
