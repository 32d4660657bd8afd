// The macros for C of a kind, printed from the rows that reading and splitting run on.
#![tactic(auto, using(text::proofs::Writing::writes))]

ghost use Rattle.std.specs.Prelude.{◌≡◌};
ghost use Rattle.record.specs.Layout.{layout};
ghost use Rattle.text.specs.Sheet.{Put};
ghost use Rattle.reference.specs.Tables.{by_bit};
ghost use Rattle.reference.specs.Header.{capital, capitals, prefix, mask_line, width_note, octets_line, row_macros, number_macro, first_macros, direction_macro, all_macro, macros};

use crate::tables::{kind_name, whole_length};
use crate::words::{group_name, put_width, unit};
use record::groups::{flags_length, listed};
use record::layout::{CROSS_TRAINER, Row, rows, width_length};
use text::names::field_name;
use text::text::Sheet;

// A small letter as a capital, and `_` for a space.
fn raised(b: u8) -> u8
    ensures { result ≡ capital b }
{
    match b {
        97..=122 => b - 32,
        32 => 95,
        _ => b,
    }
}

// A text in capitals.
fn put_capitals(sheet: &mut Sheet, text: &[u8])
    ensures { Put sheet.old (capitals text.now) sheet.new }
{
    for b in text {
        sheet.put_byte(raised(*b));
    }
}

// The beginning of each macro of a kind.
#[tactic(auto, using(text::proofs::Writing::writes), unfolding(crate::specs::Header::prefix))]
fn put_prefix(sheet: &mut Sheet, kind: u8)
    ensures { Put sheet.old (prefix kind) sheet.new }
{
    sheet.put_bytes(b"#define HORDIVASZ_");
    put_capitals(sheet, kind_name(kind));
}

// The mask of a group, at the group's first row: the row before it has another bit.
#[tactic(auto, using(text::proofs::Writing::writes), unfolding(crate::specs::Header::mask_line))]
fn put_mask(sheet: &mut Sheet, kind: u8, before: u8, row: Row)
    ensures { Put sheet.old (mask_line kind before row) sheet.new }
{
    let bit = row.0;
    if bit == before {
        return;
    }
    put_prefix(sheet, kind);
    sheet.put_bytes(b"_");
    put_capitals(sheet, group_name(kind, row));
    sheet.put_bytes(b"_MASK (1u << ");
    sheet.put_decimal(bit as u32);
    sheet.put_bytes(b")\n");
}

// A comment with the width of a field, and its unit if a document gives it one.
#[tactic(auto, using(text::proofs::Writing::writes), unfolding(crate::specs::Header::width_note))]
fn put_width_note(sheet: &mut Sheet, kind: u8, row: Row)
    ensures { Put sheet.old (width_note kind row) sheet.new }
{
    sheet.put_bytes(b"/* ");
    put_width(sheet, row.2);
    sheet.put_bytes(b" ");
    sheet.put_bytes(unit(kind, row.1));
    sheet.put_bytes(b"*/\n");
}

// The number of octets of a field.
#[tactic(auto, using(text::proofs::Writing::writes), unfolding(crate::specs::Header::octets_line))]
fn put_octets(sheet: &mut Sheet, kind: u8, row: Row)
    ensures { Put sheet.old (octets_line kind row) sheet.new }
{
    put_prefix(sheet, kind);
    sheet.put_bytes(b"_");
    put_capitals(sheet, field_name(row.1 as usize));
    sheet.put_bytes(b"_OCTETS ");
    sheet.put_decimal(width_length(row.2) as u32);
    sheet.put_bytes(b"u ");
    put_width_note(sheet, kind, row);
}

// The macros of a row: the mask of its group, if it is the group's first row, and its own octets.
#[tactic(auto, using(text::proofs::Writing::writes), unfolding(crate::specs::Header::row_macros))]
fn put_row(sheet: &mut Sheet, kind: u8, before: u8, row: Row)
    ensures { Put sheet.old (row_macros kind before row) sheet.new }
{
    put_mask(sheet, kind, before, row);
    put_octets(sheet, kind, row);
}

// The macros of a kind's rows, in the order of the wire.
fn put_rows(sheet: &mut Sheet, kind: u8)
    ensures { Put sheet.old (by_bit (row_macros kind) 0 (layout kind)) sheet.new }
{
    let mut before: u8 = 0;
    for row in rows(kind) {
        put_row(sheet, kind, before, *row);
        before = row.0;
    }
}

// A macro of a kind whose value is a number; `name` is the rest of its name.
#[tactic(auto, using(text::proofs::Writing::writes), unfolding(crate::specs::Header::number_macro))]
fn put_number(sheet: &mut Sheet, kind: u8, name: &[u8], n: u32)
    ensures { Put sheet.old (number_macro kind name.now n) sheet.new }
{
    put_prefix(sheet, kind);
    sheet.put_bytes(name);
    sheet.put_decimal(n);
    sheet.put_bytes(b"u\n");
}

// The kind's number, and the octets of its flags.
#[tactic(auto, using(text::proofs::Writing::writes), unfolding(crate::specs::Header::first_macros))]
fn put_first(sheet: &mut Sheet, kind: u8)
    ensures { Put sheet.old (first_macros kind) sheet.new }
{
    put_number(sheet, kind, b" ", kind as u32);
    put_number(sheet, kind, b"_FLAGS_OCTETS ", flags_length(kind) as u32);
}

// The cross trainer has its direction in bit 15.
#[tactic(auto, using(text::proofs::Writing::writes), unfolding(crate::specs::Header::direction_macro))]
fn put_direction(sheet: &mut Sheet, kind: u8)
    ensures { Put sheet.old (direction_macro kind) sheet.new }
{
    if kind == CROSS_TRAINER {
        put_prefix(sheet, kind);
        sheet.put_bytes(b"_BACKWARD_MASK (1u << 15)\n");
    }
}

// The set of all optional groups.
#[tactic(auto, using(text::proofs::Writing::writes), unfolding(crate::specs::Header::all_macro))]
fn put_all(sheet: &mut Sheet, kind: u8)
    ensures { Put sheet.old (all_macro kind) sheet.new }
{
    let all = listed(kind);
    put_prefix(sheet, kind);
    sheet.put_bytes(b"_ALL_GROUPS 0x");
    sheet.put_hex((all / 256 % 256) as u8);
    sheet.put_hex((all % 256) as u8);
    sheet.put_bytes(b"u\n");
}

// The macros of a kind: its number, the octets of its flags, its groups' masks and its fields' octets, all its groups, and its longest notification.
#[tactic(auto, using(text::proofs::Writing::writes), unfolding(crate::specs::Header::macros))]
pub fn put_macros(sheet: &mut Sheet, kind: u8)
    ensures { Put sheet.old (macros kind) sheet.new }
{
    put_first(sheet, kind);
    put_rows(sheet, kind);
    put_direction(sheet, kind);
    put_all(sheet, kind);
    put_number(sheet, kind, b"_LONGEST ", whole_length(kind) as u32);
}
