// The flags of a kind: a line for each of its bits.
#![tactic(auto, using(text::proofs::Writing::writes))]

ghost use Rattle.text.specs.Sheet.{Put};
ghost use Rattle.reference.specs.Tables.{flag_line, other_flags, bit_lines, flags_table};

use crate::words::group_name;
use record::layout::{CROSS_TRAINER, Row, rows};
use text::text::Sheet;

// The line of a group's bit, at the group's first row: the row before it has another bit.
#[tactic(auto, using(text::proofs::Writing::writes), unfolding(crate::specs::Tables::flag_line))]
fn put_flag(sheet: &mut Sheet, kind: u8, before: u8, row: Row)
    ensures { Put sheet.old (flag_line kind before row) sheet.new }
{
    let bit = row.0;
    if bit == before {
        return;
    }
    sheet.put_bytes(b"| ");
    sheet.put_decimal(bit as u32);
    sheet.put_bytes(b" | 1: ");
    sheet.put_bytes(group_name(kind, row));
    sheet.put_bytes(b" present |\n");
}

// The bits after the last group's: the cross trainer has its direction there, and all others are reserved.
#[tactic(auto, using(text::proofs::Writing::writes), unfolding(crate::specs::Tables::other_flags))]
fn put_others(sheet: &mut Sheet, kind: u8, last: u8)
    ensures { Put sheet.old (other_flags kind last) sheet.new }
{
    if kind == CROSS_TRAINER {
        return sheet.put_bytes(
            b"| 15 | direction: 0 forward, 1 backward |\n| 16 to 23 | reserved: written 0, ignored when read |\n",
        );
    }
    let next = last as u32 + 1;
    sheet.put_bytes(b"| ");
    sheet.put_decimal(next);
    sheet.put_bytes(b" to 15 | reserved: written 0, ignored when read |\n");
}

// The groups by their bits, and the bits after them. The loop is that of the header's `put_rows`, with other words for a row: each has its
// own definition of what it puts, which a closure would have to take along.
fn put_bits(sheet: &mut Sheet, kind: u8)
    ensures { Put sheet.old (bit_lines kind) sheet.new }
{
    let mut before: u8 = 0;
    for row in rows(kind) {
        put_flag(sheet, kind, before, *row);
        before = row.0;
    }
    put_others(sheet, kind, before);
}

// The table of the flags: a line for each bit, More Data first.
#[tactic(auto, using(text::proofs::Writing::writes), unfolding(crate::specs::Tables::flags_table))]
pub fn put_flags(sheet: &mut Sheet, kind: u8)
    ensures { Put sheet.old (flags_table kind) sheet.new }
{
    sheet.put_bytes(
        b"| bit | what it says |\n|---|---|\n| 0 | More Data: the main group is present exactly when this bit is 0 |\n",
    );
    put_bits(sheet, kind);
}
