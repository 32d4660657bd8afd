// Splitting a record into parts, each a notification that fits a payload.
ghost use Rattle.std.specs.Prelude.{◌≡◌, cond, [], ◌+◌, ◌-◌, ◌<◌, ◌≤◌, eqb, length, get_or};
ghost use Rattle.record.specs.Layout.{octets_of, layout};
ghost use Rattle.record.specs.Groups.{named, flags_octets};
ghost use Rattle.record.specs.Groups;
ghost use Rattle.record.specs.Octets.{spelled, placed, over};
ghost use Rattle.record.specs.Answer.{meant, after};
ghost use Rattle.record.specs.Split.{payload_known, cut, written, flags, sets_of, set_at, extent_of, split_wire, split_of, lent_after};
ghost use Rattle.record.specs.Split;

use crate::formed::formed;
use crate::groups::{BITS, flags_length, group_length, groups_length, has, is_known};
use crate::layout::{Row, rows, width_length};
use crate::numbers::{Wire, number_at};
use crate::octets::put_number;
use crate::record::Record;
use crate::refusal::Refusal;

// "12: payload not 20 to 512".
pub const LEAST_PAYLOAD: usize = 20;

pub const GREATEST_PAYLOAD: usize = 512;

// Whether a payload is in range.
pub fn is_payload(payload: usize) -> bool
    ensures { result ≡ payload_known payload }
{
    LEAST_PAYLOAD <= payload && payload <= GREATEST_PAYLOAD
}

// The bound of loops over parts; no record has more than three.
pub const MOST_PARTS: usize = 16;

// A part's length in octets, and the number of parts of its record.
#[derive(Clone, Copy, PartialEq, Eq, Debug)]
pub struct Extent {
    pub length: usize,
    pub parts: usize,
}

// The groups of one part (bit 0 stands for the main group), and the number of parts.
#[derive(Clone, Copy)]
struct Cut {
    set: u32,
    parts: usize,
}

// The longest run of a set's lowest groups that fits in `room` octets.
fn run(kind: u8, room: usize, set: u32) -> u32
    ensures { result ≡ Split.run kind room set }
{
    let mut taken: u32 = 0;
    let mut used: usize = 0;
    for bit in 0..BITS {
        if has(set, bit) {
            used += group_length(kind, bit);
            if room < used {
                return taken;
            }
            taken += 1 << bit;
        }
    }
    taken
}

// The set of the part that is asked for: `next` if the part being cut is that one, otherwise the set found so far.
fn chosen(parts: usize, part: usize, next: u32, set: u32) -> u32
    ensures { result ≡ cond (eqb parts part) next set }
{
    if parts == part {
        return next;
    }
    set
}

// The groups of a part of a record, and the number of parts, with at most `room` octets after the flags of each.
fn cut_at(kind: u8, groups: u32, room: usize, part: usize) -> Cut
    requires { groups < 4294967295 }
    ensures { (result.set ≡ get_or (cut kind room groups 16) part 0) × (result.parts ≡ length (cut kind room groups 16)) }
{
    let mut left = groups;
    let mut set: u32 = 0;
    for parts in 0..MOST_PARTS {
        if groups_length(kind, 1 + left) <= room {
            let last = chosen(parts, part, 1 + left, set);
            return Cut {
                set: last,
                parts: parts + 1,
            };
        }
        let next = run(kind, room, left);
        set = chosen(parts, part, next, set);
        left -= next;
    }
    Cut {
        set,
        parts: MOST_PARTS,
    }
}

// The same at a payload.
fn cut_part(wire: &Wire, payload: usize, part: usize) -> Cut
    requires { (wire.now.groups < 32767) × (20 ≤ payload) }
    ensures set_value { result.set ≡ set_at wire.now.kind wire.now.groups payload part }
    ensures parts_value { result.parts ≡ length (sets_of wire.now.kind wire.now.groups payload) }
{
    let room = payload - flags_length(wire.kind);
    cut_at(wire.kind, wire.groups, room, part)
}

// Writes a row's number at an index, if the set names its group; returns the index after it. Buffer and index are as those of
// `put_number`.
fn put_row(row: Row, set: u32, numbers: &[u32; 31], out: &mut [u8], at: usize) -> usize
    requires { at < 256 }
    ensures value { result ≡ at + cond (Groups.has set row.0) (octets_of row.2) 0 }
    ensures out_after { out.new ≡ placed out.old at (cond (Groups.has set row.0) (spelled (octets_of row.2) (get_or numbers.now row.1 0)) []) }
{
    if has(set, row.0) {
        let length = width_length(row.2);
        put_number(out, at, length, number_at(numbers, row.1));
        return at + length;
    }
    at
}

// Writes a part's flags.
fn put_flags(kind: u8, set: u32, direction: u8, out: &mut [u8])
    requires { set < 32768 }
    ensures { out.new ≡ placed out.old 0 (spelled (flags_octets kind) (flags set direction)) }
{
    let word = set + 1 - set % 2 * 2 + (direction as u32) * 32768;
    put_number(out, 0, flags_length(kind), word);
}

// Writes the numbers of a set's groups after the flags, in wire order.
fn put_rows(kind: u8, set: u32, numbers: &[u32; 31], out: &mut [u8])
    ensures { out.new ≡ placed out.old (flags_octets kind) (written (named set (layout kind)) numbers.now) }
{
    let mut at = flags_length(kind);
    for row in rows(kind) {
        at = put_row(*row, set, numbers, out, at);
    }
}

// Writes a part of a record: its flags, and the groups of its set.
fn put_part(wire: &Wire, set: u32, out: &mut [u8])
    requires { set < 32768 }
    ensures { out.new ≡ placed out.old 0 (Split.octets wire.now.kind set wire.now.direction wire.now.numbers) }
{
    put_flags(wire.kind, set, wire.direction, out);
    put_rows(wire.kind, set, &wire.numbers, out);
}

// Writes a part of a well-formed record at a payload that is in range; refuses with 15, then 14.
fn write_part(wire: &Wire, payload: usize, part: usize, out: &mut [u8]) -> Result<Extent, Refusal>
    requires { (wire.now.groups < 32767) × (20 ≤ payload) }
    ensures result_value { meant result ≡ extent_of wire.now.kind wire.now.groups wire.now.direction wire.now.numbers payload part (length out.old) }
    ensures out_after { out.new ≡ after (extent_of wire.now.kind wire.now.groups wire.now.direction wire.now.numbers payload part (length out.old)) (over out.old (Split.octets wire.now.kind (set_at wire.now.kind wire.now.groups payload part) wire.now.direction wire.now.numbers)) out.old }
{
    let cut = cut_part(wire, payload, part);
    let parts = cut.parts;
    if parts <= part {
        return Err(Refusal::NoSuchPart);
    }
    let length = flags_length(wire.kind) + groups_length(wire.kind, cut.set);
    if out.len() < length {
        return Err(Refusal::OutputTooShort);
    }
    put_part(wire, cut.set, out);
    Ok(Extent { length, parts })
}

// Like `split`, for a caller that has the record's wire numbers.
pub fn split_numbers(
    wire: &Wire,
    payload: usize,
    part: usize,
    out: &mut [u8],
) -> Result<Extent, Refusal>
    ensures result_value { meant result ≡ split_wire wire.now.kind wire.now.groups wire.now.direction wire.now.numbers payload part (length out.old) }
    ensures out_after { out.new ≡ after (split_wire wire.now.kind wire.now.groups wire.now.direction wire.now.numbers payload part (length out.old)) (over out.old (Split.octets wire.now.kind (set_at wire.now.kind wire.now.groups payload part) wire.now.direction wire.now.numbers)) out.old }
{
    if !is_known(wire.kind) {
        return Err(Refusal::UnknownKind);
    }
    if !is_payload(payload) {
        return Err(Refusal::PayloadOutOfRange);
    }
    if !formed(wire) {
        return Err(Refusal::NotWellFormed);
    }
    write_part(wire, payload, part, out)
}

// Writes a part of a record, counted from 0, at a payload: its octets go to the lent buffer, and its length and the number of parts are
// returned. A refusal is the first of 11, 12, 13, 15 and 14 that applies; it writes nothing.
pub fn split(record: Record, payload: usize, part: usize, out: &mut [u8]) -> Result<Extent, Refusal>
    ensures result_value { meant result ≡ split_of «record» payload part (length out.old) }
    ensures out_after { out.new ≡ lent_after «record» payload part out.old }
{
    split_numbers(&Wire::from(record), payload, part, out)
}
