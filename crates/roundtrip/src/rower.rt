// A rower whose first part fills the payload to the last octet.
use crate::round::BLANK;
use record::layout;
use record::record::{Energy, Record, Stroke};

// The groups of this record, by their bits.
const AVERAGE_STROKE_RATE: u32 = 1 << 1;

const DISTANCE: u32 = 1 << 2;

const PACE: u32 = 1 << 3;

const AVERAGE_PACE: u32 = 1 << 4;

const POWER: u32 = 1 << 5;

const AVERAGE_POWER: u32 = 1 << 6;

const ENERGY: u32 = 1 << 8;

const HEART_RATE: u32 = 1 << 9;

const ELAPSED: u32 = 1 << 11;

pub(crate) const ROWER: Record = Record {
    kind: layout::ROWER,
    groups: AVERAGE_STROKE_RATE
        | DISTANCE
        | PACE
        | AVERAGE_PACE
        | POWER
        | AVERAGE_POWER
        | ENERGY
        | HEART_RATE
        | ELAPSED,
    stroke: Stroke {
        rate: 52,
        count: 318,
    },
    average_stroke_rate: 50,
    distance: 2750,
    pace: 118,
    average_pace: 121,
    power: 205,
    average_power: 192,
    energy: Energy {
        total: 148,
        per_hour: 840,
        per_minute: 14,
    },
    heart_rate: 156,
    elapsed: 665,
    ..BLANK
};
