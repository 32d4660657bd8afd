// Whether a record is well formed.
ghost use Rattle.std.specs.Prelude.{◌≡◌, cond, [], ◌∷◌, ◌^◌, ◌<◌, eqb};
ghost use Rattle.record.specs.Layout.{layout, octets_of};
ghost use Rattle.record.specs.Groups.{named};
ghost use Rattle.record.specs.Record.{all_fit, all_zero, well_formed};
ghost use Rattle.record.specs.Record as RecordSpecs;

use crate::groups::{has, is_known, listed};
use crate::layout::{CROSS_TRAINER, Row, Width, rows};
use crate::numbers::{Wire, number_at, put_number};
use crate::record::Record;

// The least number that is too large for a width.
fn limit(width: Width) -> u32
    ensures { result ≡ 256 ^ octets_of width }
{
    match width {
        Width::U8 => 256,
        Width::U16 => 65536,
        Width::U24 => 16777216,
        Width::S16 => 65536,
    }
}

// Whether a row's number fits its width; true if the row's group is not in the set.
fn row_fits(set: u32, row: Row, numbers: &[u32; 31]) -> bool
    ensures { result ≡ all_fit (named set (row ∷ [])) numbers.now }
{
    if has(set, row.0) {
        return number_at(numbers, row.1) < limit(row.2);
    }
    true
}

// "each value fits its width". Kind, set and numbers are three parameters and no `Wire`: the set has the main group, or is a part's.
fn all_fits(kind: u8, set: u32, numbers: &[u32; 31]) -> bool
    ensures { result ≡ all_fit (named set (layout kind)) numbers.now }
{
    for row in rows(kind) {
        if !row_fits(set, *row, numbers) {
            return false;
        }
    }
    true
}

// Sets a row's number to 0 if the row's group is in the set.
fn clear_row(set: u32, row: Row, numbers: &mut [u32; 31])
    ensures { numbers.new ≡ RecordSpecs.others (named set (row ∷ [])) numbers.old }
{
    if has(set, row.0) {
        put_number(numbers, row.1, 0);
    }
}

// The numbers, with 0 for every field whose group is in the set.
fn others(kind: u8, set: u32, numbers: &[u32; 31]) -> [u32; 31]
    ensures { result ≡ RecordSpecs.others (named set (layout kind)) numbers.now }
{
    let mut v = *numbers;
    for row in rows(kind) {
        clear_row(set, *row, &mut v);
    }
    v
}

// Whether all numbers are 0.
fn all_zeros(numbers: &[u32]) -> bool
    ensures { result ≡ all_zero numbers.now }
{
    numbers.iter().all(|x| *x == 0)
}

// The greatest direction of a kind: "direction is 0 unless kind 2".
fn last_direction(kind: u8) -> u8
    ensures { result ≡ cond (eqb kind 2) 1 0 }
{
    if kind == CROSS_TRAINER {
        return 1;
    }
    0
}

// "It is well formed when the set has only bits listed for its kind, each value fits its width, fields of absent groups are 0, and
// direction is 0 unless kind 2."
pub fn formed(wire: &Wire) -> bool
    ensures { result ≡ RecordSpecs.formed wire.now.kind wire.now.groups wire.now.direction wire.now.numbers }
{
    let kind = wire.kind;
    let groups = wire.groups;
    if !is_known(kind) {
        return false;
    }
    if groups & listed(kind) != groups {
        return false;
    }
    if last_direction(kind) < wire.direction {
        return false;
    }
    let set = 1 + groups;
    if !all_fits(kind, set, &wire.numbers) {
        return false;
    }
    let left = others(kind, set, &wire.numbers);
    all_zeros(&left[..])
}

// Whether a record is well formed, by its wire numbers.
pub fn well_formed(r: Record) -> bool
    ensures { result ≡ well_formed r }
{
    formed(&Wire::from(r))
}
