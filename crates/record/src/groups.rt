// Sets of groups, as bit masks: a kind's groups, the length of each, and the length of a set. Bit 0 stands for the main group.
ghost use Rattle.std.specs.Prelude.{◌≡◌, ◌^◌};
ghost use Rattle.record.specs.Layout.{treadmill, cross_trainer, step_climber, stair_climber, rower, indoor_bike};
ghost use Rattle.record.specs.Groups.{named, size, known, flags_octets, set_length, group_length};
ghost use Rattle.record.specs.Groups;

use crate::layout::{CROSS_TRAINER, INDOOR_BIKE, ROWER, STAIR_CLIMBER, STEP_CLIMBER, TREADMILL};

// One more than the highest bit that a group can have.
pub const BITS: u8 = 15;

// "11: kind not 1 to 6".
pub fn is_known(kind: u8) -> bool
    ensures { result ≡ known kind }
{
    1 <= kind && kind <= 6
}

// Whether a bit is in a set.
pub fn has(set: u32, bit: u8) -> bool
    ensures { result ≡ Groups.has set bit }
{
    if 32 <= bit {
        return false;
    }
    (set >> bit) % 2 == 1
}

// The optional groups that are listed for a kind.
pub fn listed(kind: u8) -> u32
    ensures { result ≡ Groups.listed kind }
{
    match kind {
        TREADMILL => 0x1FFE,
        CROSS_TRAINER => 0x7FFE,
        STEP_CLIMBER => 0x01FE,
        STAIR_CLIMBER => 0x03FE,
        ROWER => 0x1FFE,
        INDOOR_BIKE => 0x1FFE,
        _ => 0,
    }
}

// "Flags are 2 octets, for cross trainer 3."
pub fn flags_length(kind: u8) -> usize
    ensures { result ≡ flags_octets kind }
{
    if kind == CROSS_TRAINER {
        return 3;
    }
    2
}

// The octets of each group of the kinds 1 to 6, by the group's bit from 0 on; 0 where a kind lists no such group.
const LENGTHS: [[u8; 15]; 6] = [
    // treadmill
    [2, 2, 3, 4, 4, 1, 1, 5, 1, 1, 2, 2, 4, 0, 0],
    // cross trainer
    [2, 2, 3, 4, 2, 4, 4, 2, 2, 2, 5, 1, 1, 2, 2],
    // step climber
    [4, 2, 2, 2, 5, 1, 1, 2, 2, 0, 0, 0, 0, 0, 0],
    // stair climber
    [2, 2, 2, 2, 2, 5, 1, 1, 2, 2, 0, 0, 0, 0, 0],
    // rower
    [3, 1, 3, 2, 2, 2, 2, 2, 5, 1, 1, 2, 2, 0, 0],
    // indoor bike
    [2, 2, 2, 2, 3, 2, 2, 2, 5, 1, 1, 2, 2, 0, 0],
];

// The number of octets of the group that a bit names; 0 if the kind lists no such group.
pub fn group_length(kind: u8, bit: u8) -> usize
    ensures { result ≡ group_length kind bit }
{
    if !is_known(kind) {
        return 0;
    }
    if BITS <= bit {
        return 0;
    }
    LENGTHS[kind as usize - 1][bit as usize] as usize
}

// The number of octets that the groups of a set take.
pub fn groups_length(kind: u8, set: u32) -> usize
    ensures { result ≡ set_length kind set }
{
    let mut sum: usize = 0;
    for bit in 0..BITS {
        if has(set, bit) {
            sum += group_length(kind, bit);
        }
    }
    sum
}
