// The keys of the listing: fixed byte strings, each with its `=`. They are defined only here.
ghost use Rattle.std.specs.Prelude.{◌≡◌};
ghost use Rattle.text.specs.Names.{name, bare};
ghost use Rattle.text.specs.Sheet.{Put};

use crate::text::Sheet;

pub const RECORD: &[u8] = b"record=";

pub const KIND: &[u8] = b"kind=";

pub const GROUPS: &[u8] = b"groups=";

pub const DIRECTION: &[u8] = b"direction=";

pub const REFUSED: &[u8] = b"refused=";

// Indexed by the number of the field.
const KEYS: [&[u8]; 31] = [
    b"speed=",
    b"floors=",
    b"steps=",
    b"stroke_rate=",
    b"stroke_count=",
    b"average_speed=",
    b"distance=",
    b"inclination=",
    b"ramp_angle=",
    b"positive_gain=",
    b"negative_gain=",
    b"pace=",
    b"average_pace=",
    b"total_energy=",
    b"energy_per_hour=",
    b"energy_per_minute=",
    b"heart_rate=",
    b"metabolic_equivalent=",
    b"elapsed=",
    b"remaining=",
    b"belt_force=",
    b"power_output=",
    b"step_rate=",
    b"average_step_rate=",
    b"stride_count=",
    b"resistance=",
    b"power=",
    b"average_power=",
    b"average_stroke_rate=",
    b"cadence=",
    b"average_cadence=",
];

// The key of a field; empty if there is no such field.
fn key_of(field: usize) -> &'static [u8]
    ensures { result.now ≡ name field }
{
    if field < KEYS.len() { KEYS[field] } else { b"" }
}

// The name of a field: its key without the `=`.
#[tactic(auto, unfolding(crate::specs::Names::bare))]
pub fn field_name(field: usize) -> &'static [u8]
    ensures { result.now ≡ bare field }
{
    let key = key_of(field);
    &key[..key.len().saturating_sub(1)]
}

pub fn put_name(sheet: &mut Sheet, field: usize)
    ensures { Put sheet.old (name field) sheet.new }
{
    sheet.put_bytes(key_of(field));
}

pub fn put_field(sheet: &mut Sheet, field: usize)
    ensures { Put sheet.old (bare field) sheet.new }
{
    sheet.put_bytes(field_name(field));
}
