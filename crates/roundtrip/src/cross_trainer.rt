// A cross trainer that goes backward: its direction is in every part.
use crate::round::BLANK;
use record::layout;
use record::record::{Energy, Inclination, RampAngle, Record, Slope, StepRates};

// The groups of this record, by their bits.
const AVERAGE_SPEED: u32 = 1 << 1;

const STEP_RATES: u32 = 1 << 3;

const STRIDE_COUNT: u32 = 1 << 4;

const SLOPE: u32 = 1 << 6;

const RESISTANCE: u32 = 1 << 7;

const POWER: u32 = 1 << 8;

const ENERGY: u32 = 1 << 10;

// "0 forward, 1 backward".
const BACKWARD: u8 = 1;

pub(crate) const CROSS_TRAINER: Record = Record {
    kind: layout::CROSS_TRAINER,
    groups: AVERAGE_SPEED | STEP_RATES | STRIDE_COUNT | SLOPE | RESISTANCE | POWER | ENERGY,
    direction: BACKWARD,
    speed: 640,
    average_speed: 615,
    step_rates: StepRates {
        rate: 58,
        average: 55,
    },
    stride_count: 890,
    slope: Slope {
        inclination: Inclination(35),
        ramp_angle: RampAngle(20),
    },
    resistance: 45,
    power: 185,
    energy: Energy {
        total: 96,
        per_hour: 660,
        per_minute: 11,
    },
    ..BLANK
};
