// A record of each kind as a machine notifies it, and what the test suite checks in its notifications.
use output::{Octets, first};
use record::groups::{flags_length, groups_length, has, listed};
use record::layout::{CROSS_TRAINER, rows};
use record::numbers::Wire;
use record::octets::{u16_at, u24_at};
use record::split::{MOST_PARTS, split_numbers};
use std::io;

// The octets of a notification at the default ATT_MTU, 23.
const PAYLOAD: usize = 20;

// A number for each field, no two the same: speed, floors, steps, .., in the order of the fields' constants. Inclination and ramp angle are -25 and -14.
const SAMPLE: [u32; 31] = [
    1000, 12, 340, 48, 210, 950, 70000, 65511, 65522, 61, 22, 60, 63, 310, 620, 10, 135, 83, 1800,
    600, 9, 180, 64, 58, 1020, 50, 205, 198, 46, 170, 164,
];

// What a notification shows: its optional groups, whether More Data is 0, and whether it is right.
#[derive(Clone, Copy)]
struct Seen {
    groups: u32,
    last: bool,
    right: bool,
}

// The numbers of a record with these groups and the main one; any other is 0.
fn numbers_of(kind: u8, groups: u32) -> [u32; 31] {
    let mut numbers = [0u32; 31];
    for row in rows(kind) {
        let field = usize::from(row.1);
        if (row.0 == 0 || has(groups, row.0)) && field < 31 {
            numbers[field] = SAMPLE[field];
        }
    }
    numbers
}

// The flags, read here and not by the library, whose flags these cases test.
fn flags_of(kind: u8, notification: &[u8]) -> u32 {
    if kind == CROSS_TRAINER {
        return u24_at(notification, 0);
    }
    u32::from(u16_at(notification, 0))
}

// The bits that have a meaning: More Data, the groups, and the cross trainer's direction.
fn meant(kind: u8) -> u32 {
    if kind == CROSS_TRAINER {
        return 0xFFFF;
    }
    listed(kind) | 1
}

// Whether the octets are the flags, the fields of the main group if More Data is 0, those of the groups named, and no more.
fn is_filled(kind: u8, flags: u32, length: usize) -> bool {
    let start = flags_length(kind);
    let main = 1 - flags % 2;
    let named = flags & listed(kind) | main;
    start <= length && groups_length(kind, named) == length - start
}

// Looks at a notification: "In all cases, ensure that the RFU bits of the Flags field are set to zero."
fn look(kind: u8, notification: &[u8]) -> Seen {
    let flags = flags_of(kind, notification);
    let named = meant(kind);
    Seen {
        groups: flags & listed(kind),
        last: flags % 2 == 0,
        right: flags | named == named && is_filled(kind, flags, notification.len()),
    }
}

// Notifies a record with these groups, up to More Data 0; returns whether each notification is right and all groups have come.
pub(crate) fn notify_record(rt: &impl Print, kind: u8, groups: u32) -> io::Result<bool> {
    let wire = Wire {
        kind,
        groups,
        direction: 0,
        numbers: numbers_of(kind, groups),
    };
    let mut come = 0;
    let mut right = true;
    for i in 0..MOST_PARTS {
        let mut buffer = [0u8; PAYLOAD];
        let Ok(extent) = split_numbers(&wire, PAYLOAD, i, &mut buffer) else {
            return Ok(false);
        };
        let notification = first(&buffer, extent.length);
        print!(rt; " notified{}", Octets(notification))?;
        let seen = look(kind, notification);
        come |= seen.groups;
        right = right && seen.right;
        if seen.last {
            return Ok(right && come == groups && extent.parts == i + 1);
        }
    }
    Ok(false)
}
