// The field tables of the six kinds, in wire order. A row has the bit that names a field's group, the field, and its
// width. Bit 0 stands for the main group. The tables are document 01's.
ghost use Rattle.std.specs.Prelude.{◌≡◌, length, get_or};
ghost use Rattle.record.specs.Layout.{octets_of, no_row, treadmill, cross_trainer, step_climber, stair_climber, rower, indoor_bike};
ghost use Rattle.record.specs.Layout;

// The kinds of gym machine. Numbers and not an enum: every call takes any number as a kind, and answers 11, 0 or no rows itself
// where it is none of these.
pub const TREADMILL: u8 = 1;

pub const CROSS_TRAINER: u8 = 2;

pub const STEP_CLIMBER: u8 = 3;

pub const STAIR_CLIMBER: u8 = 4;

pub const ROWER: u8 = 5;

pub const INDOOR_BIKE: u8 = 6;

// The fields: each is an index into a record's 31 wire numbers. Numbers and not an enum: a row may be made with any number, and the
// names in `text` are given for any number.
pub const SPEED: u8 = 0;

pub const FLOORS: u8 = 1;

pub const STEPS: u8 = 2;

pub const STROKE_RATE: u8 = 3;

pub const STROKE_COUNT: u8 = 4;

pub const AVERAGE_SPEED: u8 = 5;

pub const DISTANCE: u8 = 6;

pub const INCLINATION: u8 = 7;

pub const RAMP_ANGLE: u8 = 8;

pub const POSITIVE_GAIN: u8 = 9;

pub const NEGATIVE_GAIN: u8 = 10;

pub const PACE: u8 = 11;

pub const AVERAGE_PACE: u8 = 12;

pub const TOTAL_ENERGY: u8 = 13;

pub const ENERGY_PER_HOUR: u8 = 14;

pub const ENERGY_PER_MINUTE: u8 = 15;

pub const HEART_RATE: u8 = 16;

pub const METABOLIC_EQUIVALENT: u8 = 17;

pub const ELAPSED: u8 = 18;

pub const REMAINING: u8 = 19;

pub const BELT_FORCE: u8 = 20;

pub const POWER_OUTPUT: u8 = 21;

pub const STEP_RATE: u8 = 22;

pub const AVERAGE_STEP_RATE: u8 = 23;

pub const STRIDE_COUNT: u8 = 24;

pub const RESISTANCE: u8 = 25;

pub const POWER: u8 = 26;

pub const AVERAGE_POWER: u8 = 27;

pub const AVERAGE_STROKE_RATE: u8 = 28;

pub const CADENCE: u8 = 29;

pub const AVERAGE_CADENCE: u8 = 30;

// "Widths: u8, u16, u24, s16".
#[derive(Clone, Copy, PartialEq, Eq, Debug)]
pub enum Width {
    U8,
    U16,
    U24,
    S16,
}

// A row of a kind's table: the bit that names the group, the field, and its width.
#[derive(Clone, Copy, PartialEq, Eq, Debug)]
pub struct Row(pub u8, pub u8, pub Width);

const U8: Width = Width::U8;

const U16: Width = Width::U16;

const U24: Width = Width::U24;

const S16: Width = Width::S16;

// The row that is returned past the last one, and for an unknown kind.
const NO_ROW: Row = Row(0, SPEED, U8);

const TREADMILL_ROWS: [Row; 18] = [
    Row(0, SPEED, U16),
    Row(1, AVERAGE_SPEED, U16),
    Row(2, DISTANCE, U24),
    Row(3, INCLINATION, S16),
    Row(3, RAMP_ANGLE, S16),
    Row(4, POSITIVE_GAIN, U16),
    Row(4, NEGATIVE_GAIN, U16),
    Row(5, PACE, U8),
    Row(6, AVERAGE_PACE, U8),
    Row(7, TOTAL_ENERGY, U16),
    Row(7, ENERGY_PER_HOUR, U16),
    Row(7, ENERGY_PER_MINUTE, U8),
    Row(8, HEART_RATE, U8),
    Row(9, METABOLIC_EQUIVALENT, U8),
    Row(10, ELAPSED, U16),
    Row(11, REMAINING, U16),
    Row(12, BELT_FORCE, S16),
    Row(12, POWER_OUTPUT, S16),
];

const CROSS_TRAINER_ROWS: [Row; 20] = [
    Row(0, SPEED, U16),
    Row(1, AVERAGE_SPEED, U16),
    Row(2, DISTANCE, U24),
    Row(3, STEP_RATE, U16),
    Row(3, AVERAGE_STEP_RATE, U16),
    Row(4, STRIDE_COUNT, U16),
    Row(5, POSITIVE_GAIN, U16),
    Row(5, NEGATIVE_GAIN, U16),
    Row(6, INCLINATION, S16),
    Row(6, RAMP_ANGLE, S16),
    Row(7, RESISTANCE, S16),
    Row(8, POWER, S16),
    Row(9, AVERAGE_POWER, S16),
    Row(10, TOTAL_ENERGY, U16),
    Row(10, ENERGY_PER_HOUR, U16),
    Row(10, ENERGY_PER_MINUTE, U8),
    Row(11, HEART_RATE, U8),
    Row(12, METABOLIC_EQUIVALENT, U8),
    Row(13, ELAPSED, U16),
    Row(14, REMAINING, U16),
];

const STEP_CLIMBER_ROWS: [Row; 12] = [
    Row(0, FLOORS, U16),
    Row(0, STEPS, U16),
    Row(1, STEP_RATE, U16),
    Row(2, AVERAGE_STEP_RATE, U16),
    Row(3, POSITIVE_GAIN, U16),
    Row(4, TOTAL_ENERGY, U16),
    Row(4, ENERGY_PER_HOUR, U16),
    Row(4, ENERGY_PER_MINUTE, U8),
    Row(5, HEART_RATE, U8),
    Row(6, METABOLIC_EQUIVALENT, U8),
    Row(7, ELAPSED, U16),
    Row(8, REMAINING, U16),
];

const STAIR_CLIMBER_ROWS: [Row; 12] = [
    Row(0, FLOORS, U16),
    Row(1, STEP_RATE, U16),
    Row(2, AVERAGE_STEP_RATE, U16),
    Row(3, POSITIVE_GAIN, U16),
    Row(4, STRIDE_COUNT, U16),
    Row(5, TOTAL_ENERGY, U16),
    Row(5, ENERGY_PER_HOUR, U16),
    Row(5, ENERGY_PER_MINUTE, U8),
    Row(6, HEART_RATE, U8),
    Row(7, METABOLIC_EQUIVALENT, U8),
    Row(8, ELAPSED, U16),
    Row(9, REMAINING, U16),
];

const ROWER_ROWS: [Row; 16] = [
    Row(0, STROKE_RATE, U8),
    Row(0, STROKE_COUNT, U16),
    Row(1, AVERAGE_STROKE_RATE, U8),
    Row(2, DISTANCE, U24),
    Row(3, PACE, U16),
    Row(4, AVERAGE_PACE, U16),
    Row(5, POWER, S16),
    Row(6, AVERAGE_POWER, S16),
    Row(7, RESISTANCE, S16),
    Row(8, TOTAL_ENERGY, U16),
    Row(8, ENERGY_PER_HOUR, U16),
    Row(8, ENERGY_PER_MINUTE, U8),
    Row(9, HEART_RATE, U8),
    Row(10, METABOLIC_EQUIVALENT, U8),
    Row(11, ELAPSED, U16),
    Row(12, REMAINING, U16),
];

const INDOOR_BIKE_ROWS: [Row; 15] = [
    Row(0, SPEED, U16),
    Row(1, AVERAGE_SPEED, U16),
    Row(2, CADENCE, U16),
    Row(3, AVERAGE_CADENCE, U16),
    Row(4, DISTANCE, U24),
    Row(5, RESISTANCE, S16),
    Row(6, POWER, S16),
    Row(7, AVERAGE_POWER, S16),
    Row(8, TOTAL_ENERGY, U16),
    Row(8, ENERGY_PER_HOUR, U16),
    Row(8, ENERGY_PER_MINUTE, U8),
    Row(9, HEART_RATE, U8),
    Row(10, METABOLIC_EQUIVALENT, U8),
    Row(11, ELAPSED, U16),
    Row(12, REMAINING, U16),
];

// The number of octets that a width takes.
pub fn width_length(width: Width) -> usize
    ensures { result ≡ octets_of width }
{
    match width {
        Width::U8 => 1,
        Width::U16 => 2,
        Width::U24 => 3,
        Width::S16 => 2,
    }
}

// The rows of a kind, in wire order; none for an unknown kind.
pub fn rows(kind: u8) -> &'static [Row]
    ensures { result.now ≡ Layout.layout kind }
{
    match kind {
        TREADMILL => &TREADMILL_ROWS,
        CROSS_TRAINER => &CROSS_TRAINER_ROWS,
        STEP_CLIMBER => &STEP_CLIMBER_ROWS,
        STAIR_CLIMBER => &STAIR_CLIMBER_ROWS,
        ROWER => &ROWER_ROWS,
        INDOOR_BIKE => &INDOOR_BIKE_ROWS,
        _ => &[],
    }
}

// The number of rows of a kind; 0 for an unknown kind.
pub fn row_count(kind: u8) -> usize
    ensures { result ≡ length (Layout.layout kind) }
{
    rows(kind).len()
}

// Row i of a kind, in wire order; past the last row, and for an unknown kind, a row that means nothing: a row and no `Option`, as the
// contract promises.
pub fn row_of(kind: u8, i: usize) -> Row
    ensures { result ≡ get_or (Layout.layout kind) i no_row }
{
    rows(kind).get(i).copied().unwrap_or(NO_ROW)
}
