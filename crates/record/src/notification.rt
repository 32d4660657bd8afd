// Reading a notification of a kind: what its flags say, and its values, which are joined to values already held.
ghost use Rattle.std.specs.Prelude.{◌≡◌, cond, ◌+◌, ◌<◌};
ghost use lib.ListN.{drop, set};
ghost use Rattle.record.specs.Layout.{octets_of};
ghost use Rattle.record.specs.Groups;
ghost use Rattle.record.specs.Octets.{number};
ghost use Rattle.record.specs.Answer.{meant};
ghost use Rattle.record.specs.Notification.{flags_of, part_of, values, held_after};
ghost use Rattle.record.specs.Notification;

use crate::groups::{flags_length, groups_length, has, is_known, listed};
use crate::layout::{CROSS_TRAINER, Row, rows, width_length};
use crate::numbers::put_number;
use crate::octets::number_at;
use crate::refusal::Refusal;

// "30: notification above 512 octets".
pub const LONGEST: usize = 512;

// What the flags of a notification say: its optional groups, whether it is the last part of a record, and its direction.
#[derive(Clone, Copy, PartialEq, Eq, Debug)]
pub struct Part {
    pub groups: u32,
    pub last: bool,
    pub direction: u8,
}

// The flags of a notification: its first octets.
fn flags(kind: u8, notification: &[u8]) -> u32
    ensures { result ≡ flags_of kind notification.now }
{
    number_at(notification, 0, flags_length(kind))
}

// The groups that flags name: bit 0, inverted, stands for the main group; reserved bits are ignored.
fn names(kind: u8, flags: u32) -> u32
    ensures { result ≡ Notification.names kind flags }
{
    let all = listed(kind) + 1;
    if flags % 2 == 0 {
        return (flags + 1) & all;
    }
    (flags - 1) & all
}

// "Kind 2 has direction in bit 15 (0 forward, 1 backward)."
fn heading(kind: u8, flags: u32) -> u8
    ensures { result ≡ Notification.heading kind flags }
{
    if kind == CROSS_TRAINER {
        return (flags / 32768 % 2) as u8;
    }
    0
}

// What the flags of a notification say, or the first of the refusals 11, 30, 31 and 32 that applies.
pub fn part_of(kind: u8, notification: &[u8]) -> Result<Part, Refusal>
    ensures { meant result ≡ part_of kind notification.now }
{
    if !is_known(kind) {
        return Err(Refusal::UnknownKind);
    }
    if LONGEST < notification.len() {
        return Err(Refusal::NotificationTooLong);
    }
    let start = flags_length(kind);
    if notification.len() < start {
        return Err(Refusal::ShorterThanFlags);
    }
    let word = flags(kind, notification);
    let set = names(kind, word);
    if notification.len() < start + groups_length(kind, set) {
        return Err(Refusal::ShorterThanGroups);
    }
    let direction = heading(kind, word);
    Ok(Part {
        groups: set - set % 2,
        last: word % 2 == 0,
        direction,
    })
}

// Reads a row's number at an index, if the set names its group; returns the index after it.
fn read_row(row: Row, set: u32, notification: &[u8], at: usize, numbers: &mut [u32; 31]) -> usize
    requires { at < 256 }
    ensures value { result ≡ at + cond (Groups.has set row.0) (octets_of row.2) 0 }
    ensures numbers_after { numbers.new ≡ cond (Groups.has set row.0) (lib.ListN.set numbers.old row.1 (number (octets_of row.2) (drop at notification.now))) numbers.old }
{
    if has(set, row.0) {
        let length = width_length(row.2);
        put_number(numbers, row.1, number_at(notification, at, length));
        return at + length;
    }
    at
}

// Reads the numbers of a set's groups, in wire order.
fn read_rows(kind: u8, set: u32, notification: &[u8], numbers: &mut [u32; 31])
    ensures { numbers.new ≡ values kind set notification.now numbers.old }
{
    let mut at = flags_length(kind);
    for row in rows(kind) {
        at = read_row(*row, set, notification, at, numbers);
    }
}

// Reads a notification: returns what its flags say and joins its values to those held, which a refusal leaves unchanged.
pub fn read(kind: u8, notification: &[u8], numbers: &mut [u32; 31]) -> Result<Part, Refusal>
    ensures result_value { meant result ≡ part_of kind notification.now }
    ensures numbers_after { numbers.new ≡ held_after kind notification.now numbers.old }
{
    let part = part_of(kind, notification)?;
    let set = names(kind, flags(kind, notification));
    read_rows(kind, set, notification, numbers);
    Ok(part)
}
