// The table of a kind: a line for each row of its layout, in the order of the wire.
#![tactic(auto, using(text::proofs::Writing::writes))]

ghost use Rattle.std.specs.Prelude.{◌≡◌, ◌≤◌, length};
ghost use Rattle.record.specs.Groups.{flags_octets};
ghost use Rattle.text.specs.Sheet.{Put};
ghost use Rattle.text.specs.Text.{ascii};
ghost use Rattle.reference.specs.Tables.{row_names, row_place, row_line, row_lines, table, columns, kind_word, title, whole_length, sizes, page};

use crate::flags::put_flags;
use crate::words::{group_name, present, put_unit_cell, put_width};
use record::groups::{flags_length, groups_length, listed};
use record::layout::{
    CROSS_TRAINER, INDOOR_BIKE, ROWER, Row, STAIR_CLIMBER, STEP_CLIMBER, TREADMILL, rows,
    width_length,
};
use text::names::put_field;
use text::text::Sheet;

// The columns' names: the indoor bike's table has no units.
#[tactic(auto, using(text::proofs::Writing::writes), unfolding(crate::specs::Tables::columns))]
fn put_columns(sheet: &mut Sheet, kind: u8)
    ensures { Put sheet.old (columns kind) sheet.new }
{
    if kind == INDOOR_BIKE {
        return sheet.put_bytes(
            b"| present when | group | field | width | first octet |\n|---|---|---|---|---|\n",
        );
    }
    sheet.put_bytes(
        b"| present when | group | field | width | first octet | unit |\n|---|---|---|---|---|---|\n",
    );
}

// The first cells of a row: when its group is present, group, field.
#[tactic(auto, using(text::proofs::Writing::writes), unfolding(crate::specs::Tables::row_names))]
fn put_names(sheet: &mut Sheet, kind: u8, row: Row)
    ensures { Put sheet.old (row_names kind row) sheet.new }
{
    sheet.put_bytes(b"| bit ");
    sheet.put_decimal(row.0 as u32);
    sheet.put_bytes(present(row.0));
    sheet.put_bytes(group_name(kind, row));
    sheet.put_bytes(b" | ");
    put_field(sheet, row.1 as usize);
}

// The other cells: width, octet, unit.
#[tactic(auto, using(text::proofs::Writing::writes), unfolding(crate::specs::Tables::row_place))]
fn put_place(sheet: &mut Sheet, kind: u8, offset: u32, row: Row)
    ensures { Put sheet.old (row_place kind offset row) sheet.new }
{
    sheet.put_bytes(b" | ");
    put_width(sheet, row.2);
    sheet.put_bytes(b" | ");
    sheet.put_decimal(offset);
    put_unit_cell(sheet, kind, row.1);
}

// The line of a row whose field begins at an octet.
#[tactic(auto, using(text::proofs::Writing::writes), unfolding(crate::specs::Tables::row_line))]
fn put_row(sheet: &mut Sheet, kind: u8, offset: u32, row: Row)
    ensures { Put sheet.old (row_line kind offset row) sheet.new }
{
    put_names(sheet, kind, row);
    put_place(sheet, kind, offset, row);
}

// The lines of rows, each with the octet at which its field begins when they follow one another after the flags.
fn put_rows(sheet: &mut Sheet, kind: u8, rows: &[Row])
    requires { length rows.now ≤ 20 }
    ensures { Put sheet.old (row_lines kind (flags_octets kind) rows.now) sheet.new }
{
    let mut offset = flags_length(kind) as u32;
    for row in rows {
        put_row(sheet, kind, offset, *row);
        offset += width_length(row.2) as u32;
    }
}

// The lines of a kind's rows, in the order of the wire: the octets are those when all groups are present.
#[tactic(auto, using(record::proofs::Tables::rows_most), unfolding(crate::specs::Tables::table))]
pub fn put_table(sheet: &mut Sheet, kind: u8)
    ensures { Put sheet.old (table kind) sheet.new }
{
    put_rows(sheet, kind, rows(kind));
}

#[tactic(auto, using(text::proofs::Writing::writes), unfolding(crate::specs::Tables::kind_word))]
pub(crate) fn kind_name(kind: u8) -> &'static [u8]
    ensures { result.now ≡ ascii (kind_word kind) }
{
    match kind {
        TREADMILL => b"treadmill",
        CROSS_TRAINER => b"cross trainer",
        STEP_CLIMBER => b"step climber",
        STAIR_CLIMBER => b"stair climber",
        ROWER => b"rower",
        INDOOR_BIKE => b"indoor bike",
        _ => b"",
    }
}

// The name of a kind.
pub fn put_kind(sheet: &mut Sheet, kind: u8)
    ensures { Put sheet.old (ascii (kind_word kind)) sheet.new }
{
    sheet.put_bytes(kind_name(kind));
}

// A page's heading.
#[tactic(auto, using(text::proofs::Writing::writes), unfolding(crate::specs::Tables::title))]
fn put_title(sheet: &mut Sheet, kind: u8)
    ensures { Put sheet.old (title kind) sheet.new }
{
    sheet.put_bytes(b"# Kind ");
    sheet.put_decimal(kind as u32);
    sheet.put_bytes(b": ");
    put_kind(sheet, kind);
    sheet.put_bytes(b"\n\n");
}

// The octets of a notification with all groups.
pub(crate) fn whole_length(kind: u8) -> usize
    ensures { result ≡ whole_length kind }
{
    flags_length(kind) + groups_length(kind, listed(kind) + 1)
}

// The octets of the flags, and of a notification with all groups.
fn put_sizes(sheet: &mut Sheet, kind: u8)
    ensures { Put sheet.old (sizes kind) sheet.new }
{
    sheet.put_bytes(b"Flags: ");
    sheet.put_decimal(flags_length(kind) as u32);
    sheet.put_bytes(b" octets. With all groups present: ");
    sheet.put_decimal(whole_length(kind) as u32);
    sheet.put_bytes(b" octets.\n\n");
}

// The page of a kind: its heading, its sizes, its flags and its fields.
#[tactic(auto, using(text::proofs::Writing::writes), unfolding(crate::specs::Tables::page))]
pub fn put_page(sheet: &mut Sheet, kind: u8)
    ensures { Put sheet.old (page kind) sheet.new }
{
    put_title(sheet, kind);
    put_sizes(sheet, kind);
    sheet.put_bytes(b"## Flags\n\n");
    put_flags(sheet, kind);
    sheet.put_bytes(b"\n## Fields\n\n");
    put_columns(sheet, kind);
    put_table(sheet, kind);
}
