// The lines of a record and of a refusal.
#![tactic(auto, using(text::proofs::Writing::writes))]

ghost use Rattle.std.specs.Prelude.{◌≤◌, ◌%◌, ◌^◌, length};
ghost use Rattle.record.specs.Layout.{layout};
ghost use Rattle.record.specs.Octets.{signed};
ghost use Rattle.record.specs.Refusal.{number_of};
ghost use Rattle.listing.specs.Lines.{value, field_line, field_lines, head_lines, record_lines, refused_line, head_room, fields_room, longest};
ghost use Rattle.text.specs.Sheet.{Put};
ghost use Rattle.text.specs.Text.{integer};

use record::groups::has;
use record::layout::{Row, Width, rows};
use record::numbers::numbers_of;
use record::record::Record;
use record::refusal::Refusal;
use text::names::{DIRECTION, GROUPS, KIND, RECORD, REFUSED, put_name};
use text::text::{LF, Sheet};

// Room for the lines of one notification: a record or a refusal never takes more.
pub const LONGEST_LINES: usize = 1024;

// The octet before a negative number.
const MINUS: u8 = 45;

// Writes the low sixteen bits of a number as a signed number.
fn put_wire(sheet: &mut Sheet, n: u32)
    ensures { Put sheet.old (integer (signed (n % 2 ^ 16))) sheet.new }
{
    let w = n % 65536;
    if w < 32768 {
        return sheet.put_decimal(w);
    }
    sheet.put_byte(MINUS);
    sheet.put_decimal(65536 - w);
}

fn put_value(sheet: &mut Sheet, width: Width, n: u32)
    ensures { Put sheet.old (value width n) sheet.new }
{
    match width {
        Width::U8 | Width::U16 | Width::U24 => sheet.put_decimal(n),
        Width::S16 => put_wire(sheet, n),
    }
}

// The line of a row, if its group is in the set.
fn put_row(sheet: &mut Sheet, set: u32, row: Row, numbers: &[u32])
    ensures { Put sheet.old (field_line set numbers.now row) sheet.new }
{
    if has(set, row.0) {
        let field = row.1 as usize;
        put_name(sheet, field);
        put_value(sheet, row.2, numbers.get(field).copied().unwrap_or(0));
        sheet.put_byte(LF);
    }
}

// The lines of a kind's fields whose groups are in the set, in wire order.
fn put_fields(sheet: &mut Sheet, kind: u8, set: u32, numbers: &[u32])
    ensures wrote { Put sheet.old (field_lines set numbers.now (layout kind)) sheet.new }
    ensures kind_len_bound { length (field_lines set numbers.now (layout kind)) ≤ fields_room }
{
    for row in rows(kind) {
        put_row(sheet, set, *row, numbers);
    }
}

// A record's number, kind, groups and direction.
#[tactic(auto, using(text::proofs::Writing::writes), unfolding(crate::specs::Lines::head_lines))]
fn put_head(sheet: &mut Sheet, number: u32, kind: u8, groups: u32, direction: u8)
    ensures wrote { Put sheet.old (head_lines number kind groups direction) sheet.new }
    ensures direction_len_bound { length (head_lines number kind groups direction) ≤ head_room }
{
    sheet.put_line(RECORD, number);
    sheet.put_line(KIND, kind as u32);
    sheet.put_line(GROUPS, groups);
    sheet.put_line(DIRECTION, direction as u32);
}

// The lines of a record with its number among the records of a capture.
pub fn put_record(sheet: &mut Sheet, number: u32, record: Record)
    ensures wrote { Put sheet.old (record_lines number «record») sheet.new }
    ensures record_len_bound { length (record_lines number «record») ≤ longest }
{
    let numbers = numbers_of(record);
    let groups = record.groups;
    let kind = record.kind;
    put_head(sheet, number, kind, groups, record.direction);
    put_fields(sheet, kind, groups - groups % 2 + 1, &numbers);
}

// The line of a refusal.
pub fn put_refused(sheet: &mut Sheet, refusal: Refusal)
    ensures wrote { Put sheet.old (refused_line (number_of refusal)) sheet.new }
    ensures refusal_len_bound { length (refused_line (number_of refusal)) ≤ longest }
{
    sheet.put_line(REFUSED, refusal.number() as u32);
}
