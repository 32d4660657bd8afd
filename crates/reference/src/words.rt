// The words in the cells of a table. Here and in the other files of this crate a sheet, a kind and a row are three parameters: what is put is
// of a kind's row, and a struct of the three would be made anew for each row.
#![tactic(auto, using(text::proofs::Writing::writes))]

ghost use Rattle.std.specs.Prelude.{◌≡◌};
ghost use Rattle.text.specs.Sheet.{Put};
ghost use Rattle.text.specs.Text.{ascii};
ghost use Rattle.reference.specs.Tables.{width_word, pace_word, rate_word, unit_word, unit_cell, present_word, shared_word, group_word};

use record::groups::group_length;
use record::layout::{
    AVERAGE_PACE, ENERGY_PER_MINUTE, INCLINATION, INDOOR_BIKE, NEGATIVE_GAIN, PACE, POWER_OUTPUT,
    RAMP_ANGLE, ROWER, Row, STEP_RATE, Width, width_length,
};
use text::names::field_name;
use text::text::Sheet;

fn width_name(width: Width) -> &'static [u8]
    ensures { result.now ≡ ascii (width_word width) }
{
    match width {
        Width::U8 => b"u8",
        Width::U16 => b"u16",
        Width::U24 => b"u24",
        Width::S16 => b"s16",
    }
}

// The name of a width.
pub fn put_width(sheet: &mut Sheet, width: Width)
    ensures { Put sheet.old (ascii (width_word width)) sheet.new }
{
    sheet.put_bytes(width_name(width));
}

// Source document 000 has a rower's paces as "time per 500 meters".
fn pace_unit(field: u8) -> &'static [u8]
    ensures { result.now ≡ ascii (pace_word field) }
{
    match field {
        PACE => b"time per 500 meters ",
        AVERAGE_PACE => b"time per 500 meters ",
        _ => b"",
    }
}

// Source document 000 has a "Step per Minute Rate".
fn rate_unit(kind: u8, field: u8) -> &'static [u8]
    ensures { result.now ≡ ascii (rate_word kind field) }
{
    if field == STEP_RATE {
        return b"steps per minute ";
    }
    if kind == ROWER {
        return pace_unit(field);
    }
    b""
}

// "inclination s16, in tenths of a percent, then ramp angle s16, in tenths of a degree"; the others as source document 000 gives them.
pub(crate) fn unit(kind: u8, field: u8) -> &'static [u8]
    ensures { result.now ≡ ascii (unit_word kind field) }
{
    match field {
        INCLINATION => b"tenths of a percent ",
        RAMP_ANGLE => b"tenths of a degree ",
        _ => rate_unit(kind, field),
    }
}

// The last cell, a field's unit, and the line's end; the indoor bike's table has no such cell.
#[tactic(auto, using(text::proofs::Writing::writes), unfolding(crate::specs::Tables::unit_cell))]
pub(crate) fn put_unit_cell(sheet: &mut Sheet, kind: u8, field: u8)
    ensures { Put sheet.old (unit_cell kind field) sheet.new }
{
    if kind == INDOOR_BIKE {
        return sheet.put_bytes(b" |\n");
    }
    sheet.put_bytes(b" | ");
    sheet.put_bytes(unit(kind, field));
    sheet.put_bytes(b"|\n");
}

// "Bit 0 is More Data: the main group is present exactly when it is 0."
pub(crate) fn present(bit: u8) -> &'static [u8]
    ensures { result.now ≡ ascii (present_word bit) }
{
    match bit {
        0 => b" is 0 | ",
        _ => b" is 1 | ",
    }
}

// The name of a group of several fields, given one of its fields: the numbers of its fields are consecutive.
fn shared_name(field: u8) -> &'static [u8]
    ensures { result.now ≡ ascii (shared_word field) }
{
    match field {
        ..=RAMP_ANGLE => b"slope",
        ..=NEGATIVE_GAIN => b"gain",
        ..=ENERGY_PER_MINUTE => b"energy",
        ..=POWER_OUTPUT => b"belt_force and power_output",
        _ => b"step_rate and average_step_rate",
    }
}

// The name of a row's group: a group of one field has the field's.
#[tactic(auto, using(text::proofs::Writing::writes), unfolding(crate::specs::Tables::group_word))]
pub(crate) fn group_name(kind: u8, row: Row) -> &'static [u8]
    ensures { result.now ≡ group_word kind row }
{
    if row.0 == 0 {
        return b"main";
    }
    if group_length(kind, row.0) == width_length(row.2) {
        return field_name(row.1 as usize);
    }
    shared_name(row.1)
}

pub fn put_group(sheet: &mut Sheet, kind: u8, row: Row)
    ensures { Put sheet.old (group_word kind row) sheet.new }
{
    sheet.put_bytes(group_name(kind, row));
}
