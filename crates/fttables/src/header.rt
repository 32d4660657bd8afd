// The header host/hordivasz_layout.h: the numbers of all kinds, the macros of each kind, and the
// refusals that a C host meets.
use crate::kinds::{least_parts, whole_length};
use crate::refusals::when;
use crate::written::Written;
use listing::walk::LONGEST_CAPTURE;
use record::layout::{INDOOR_BIKE, TREADMILL};
use record::notification::LONGEST;
use record::refusal::Refusal;
use record::split::{GREATEST_PAYLOAD, LEAST_PAYLOAD};
use std::io;

// What the header begins with.
const BEGINNING: &str = "
# hordivasz_layout.h

/*
 * The layouts for C: of each kind its number, the masks of its groups, the octets of its flags and
 * fields, and the octets of a record with all its groups; the least and greatest sizes; and the
 * refusals. Macros and one enum, for any C or C++ compiler; it needs no other header.
 *
 * The kinds' numbers and the widths are this reference's: the service's own text leaves widths to
 * the assigned numbers. A unit is given where the documents of this reference give one.
 *
 * Do not edit: the program fttables prints this file from the tables that the proved code runs on.
 * Copyright (c) 2026 the Hordivasz maintainers; see LICENSE.
 */
#ifndef HORDIVASZ_LAYOUT_H
#define HORDIVASZ_LAYOUT_H

";

// What stands before the macros of the kinds.
const KINDS: &str = "
/*
 * The kinds. In the flags, which are sent least octet first, bit 0 is More Data: the main group is
 * present exactly when it is 0. Each optional group is present exactly when its bit is 1: the flags
 * of a record are the masks of its groups, joined by |. A cross trainer that goes backward adds
 * BACKWARD_MASK, which is not a group. The fields follow in the order in which they are sent, those
 * of a group after the group's mask. ALL_GROUPS is all masks together; LONGEST is the octets of a
 * record with all groups, as one notification.
 */
#define HORDIVASZ_MORE_DATA_MASK (1u << 0)
";

// What stands before the macros of the refusals that the calls return.
const REFUSALS: &str = "
/*
 * What hordivasz_split and hordivasz_list return: 0, or a refusal. hordivasz.h has the order in
 * which they are judged. From C, 13 can only mean that More Data is 1.
 */
#define HORDIVASZ_DONE 0u
";

// The enum, up to its first member.
const ENUM: &str = "
/* The same numbers as an enum, for a switch: the calls return uint32_t, so cast what they return. */
enum hordivasz_refusal {
    HORDIVASZ_REFUSAL_NONE = HORDIVASZ_DONE";

// The refusals that the calls of a C host return, with their names in C, in the order of their
// numbers.
const RETURNED: [(Refusal, &str); 8] = [
    (Refusal::UnknownKind, "UNKNOWN_KIND"),
    (Refusal::PayloadOutOfRange, "PAYLOAD_OUT_OF_RANGE"),
    (Refusal::NotWellFormed, "NOT_WELL_FORMED"),
    (Refusal::OutputTooShort, "OUTPUT_TOO_SHORT"),
    (Refusal::NoSuchPart, "NO_SUCH_PART"),
    (Refusal::NotificationTooLong, "NOTIFICATION_TOO_LONG"),
    (Refusal::ShorterThanFlags, "SHORTER_THAN_FLAGS"),
    (Refusal::ShorterThanGroups, "SHORTER_THAN_GROUPS"),
];

// Those that only the lines of a listing name.
const LISTED: [(Refusal, &str); 2] = [
    (Refusal::CaptureTooLong, "CAPTURE_TOO_LONG"),
    (Refusal::CaptureCutShort, "CAPTURE_CUT_SHORT"),
];

// The numbers of all kinds: those of records are of records with all groups.
fn print_numbers(rt: &impl Print) -> io::Result<()> {
    let most = (TREADMILL..=INDOOR_BIKE)
        .map(least_parts)
        .fold(0, usize::max);
    let longest = (TREADMILL..=INDOOR_BIKE)
        .map(whole_length)
        .fold(0, usize::max);
    print!(rt;
        "/* The payload, the most octets that a notification may have: from the first to the second. */
#define HORDIVASZ_LEAST_PAYLOAD {LEAST_PAYLOAD}u
#define HORDIVASZ_GREATEST_PAYLOAD {GREATEST_PAYLOAD}u

/* No record has more parts, at any payload. */
#define HORDIVASZ_MOST_PARTS {most}u

/* No record, sent as one notification, has more octets. */
#define HORDIVASZ_LONGEST_RECORD {longest}u

/* Longer notifications are refused with 30, longer captures with 36. */
#define HORDIVASZ_LONGEST_NOTIFICATION {LONGEST}u
#define HORDIVASZ_LONGEST_CAPTURE {LONGEST_CAPTURE}u
"
    )
}

// The macros of all kinds.
fn print_kinds(rt: &impl Print) -> io::Result<()> {
    print!(rt; "{KINDS}")?;
    for kind in TREADMILL..=INDOOR_BIKE {
        let name = Written::Kind(kind);
        let macros = Written::Macros(kind);
        print!(rt; "\n/* Kind {kind}: {name}. */\n{macros}")?;
    }
    Ok(())
}

// The macros of some refusals.
fn print_macros(rt: &impl Print, refusals: &[(Refusal, &'static str)]) -> io::Result<()> {
    for (refusal, name) in refusals {
        println!(rt;
            "#define HORDIVASZ_{name} {}u /* {} */",
            refusal.number(),
            when(*refusal),
        )?;
    }
    Ok(())
}

// The members of the enum that are some refusals.
fn print_members(rt: &impl Print, refusals: &[(Refusal, &'static str)]) -> io::Result<()> {
    for (_, name) in refusals {
        print!(rt; ",\n    HORDIVASZ_REFUSAL_{name} = HORDIVASZ_{name}")?;
    }
    Ok(())
}

// The refusals that a C host meets.
fn print_refusals(rt: &impl Print) -> io::Result<()> {
    print!(rt; "{REFUSALS}")?;
    print_macros(rt, &RETURNED)?;
    print!(rt;
        "\n/* In a listing's lines `refused=` only, beside 11 and 30 to 32: no call returns them. */\n"
    )?;
    print_macros(rt, &LISTED)?;
    print!(rt; "{ENUM}")?;
    print_members(rt, &RETURNED)?;
    print_members(rt, &LISTED)?;
    print!(rt; "\n}};\n")
}

// The whole header.
pub(crate) fn print_header(rt: &impl Print) -> io::Result<()> {
    print!(rt; "{BEGINNING}")?;
    print_numbers(rt)?;
    print_kinds(rt)?;
    print_refusals(rt)?;
    print!(rt; "\n#endif\n")
}
