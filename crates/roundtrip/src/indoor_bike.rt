// An indoor bike that rolls downhill: its flywheel drives the pedals, and the power is negative.
use crate::round::BLANK;
use record::layout;
use record::record::{Energy, Record};

// The groups of this record, by their bits.
const CADENCE: u32 = 1 << 2;

const DISTANCE: u32 = 1 << 4;

const RESISTANCE: u32 = 1 << 5;

const POWER: u32 = 1 << 6;

const AVERAGE_POWER: u32 = 1 << 7;

const ENERGY: u32 = 1 << 8;

const HEART_RATE: u32 = 1 << 9;

const ELAPSED: u32 = 1 << 11;

pub(crate) const INDOOR_BIKE: Record = Record {
    kind: layout::INDOOR_BIKE,
    groups: CADENCE | DISTANCE | RESISTANCE | POWER | AVERAGE_POWER | ENERGY | HEART_RATE | ELAPSED,
    speed: 3250,
    cadence: 168,
    distance: 12400,
    resistance: 18,
    power: -35,
    average_power: 176,
    energy: Energy {
        total: 287,
        per_hour: 720,
        per_minute: 12,
    },
    heart_rate: 131,
    elapsed: 1500,
    ..BLANK
};
