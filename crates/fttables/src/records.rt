// The calls on records, notifications and captures, made step by step: at step 0 everything is
// wrong that can be wrong at once, and each next step puts right the first of what is still wrong.
// A step gives the number of the refusal, if there is one.
use crate::steps::{length_at, mended};
use listing::capture::list;
use output::first;
use phone::hordivasz_split;
use record::feature::Feature;
use record::layout::INDOOR_BIKE;
use record::notification::part_of;
use record::numbers::Wire;
use record::refusal::Refusal;
use record::split::split_numbers;
use service::collector::{Collected, Told, collect, open};
use std::str;

// Groups of an indoor bike, as a set and in the first octet of the flags. Bit 0 is no group: in the
// flags it is More Data.
const BIT_0: u8 = 1;

const AVERAGE_SPEED: u8 = 2;

const CADENCE: u8 = 4;

// The octets of the longest notification that is tried, and of the longest capture: each is too
// long.
const NOTIFICATION: usize = 513;

const CAPTURE: usize = 65537;

// The octets of a line `refused=` with a number of two digits.
const LINE: usize = 11;

// The number of the refusal that a call gives, if there is one.
pub(crate) fn number_of<T: Drop>(answer: Result<T, Refusal>) -> Option<u8> {
    answer.err().map(Refusal::number)
}

// A notification of an indoor bike, all of whose octets but the first of its flags are 0.
fn notification(flags: u8) -> [u8; NOTIFICATION] {
    let mut octets = [0u8; NOTIFICATION];
    octets[0] = flags;
    octets
}

// Splits, with kind, payload, groups, part and lent octets put right in turn.
pub(crate) fn splitting(step: u8) -> Option<u8> {
    let kind = mended(step, 1, 0, INDOOR_BIKE);
    let payload = mended(step, 2, 0, 20);
    let groups = mended(step, 3, BIT_0, CADENCE);
    let part = mended(step, 4, 99, 0);
    let mut space = [0u8; 20];
    let out: &mut [u8] = mended(step, 5, &mut [], &mut space);
    let wire = Wire {
        kind,
        groups: u32::from(groups),
        direction: 0,
        numbers: [0; 31],
    };
    number_of(split_numbers(&wire, payload, part, out))
}

// Splits as C does, with kind, payload, the notification's length, its More Data, part and lent
// octets put right in turn.
pub(crate) fn splitting_from_c(step: u8) -> Option<u8> {
    let kind = mended(step, 1, 0, INDOOR_BIKE);
    let payload = mended(step, 2, 0, 20);
    let octets = notification(mended(step, 6, CADENCE + BIT_0, CADENCE));
    let record = first(&octets, usize::from(length_at(step, 3)));
    let part = mended(step, 7, 99, 0);
    let mut space = [0u8; 20];
    let out: &mut [u8] = mended(step, 8, &mut [], &mut space);
    let (mut length, mut parts) = (0, 0);
    match hordivasz_split(
        u32::from(kind),
        record,
        payload,
        part,
        out,
        &mut length,
        &mut parts,
    ) {
        0 => None,
        number => u8::try_from(number).ok(),
    }
}

// Reads a notification, with kind and length put right in turn.
pub(crate) fn reading(step: u8) -> Option<u8> {
    let kind = mended(step, 1, 0, INDOOR_BIKE);
    let octets = notification(CADENCE);
    number_of(part_of(kind, first(&octets, usize::from(length_at(step, 2)))))
}

// Reads a Feature value, with its length put right.
pub(crate) fn reading_feature(step: u8) -> Option<u8> {
    number_of(Feature::from_octets(first(&[0; 8], mended(step, 1, 7, 8))))
}

// Opens a collection, with kind and told set put right in turn.
pub(crate) fn opening_collection(step: u8) -> Option<u8> {
    let kind = mended(step, 1, 0, INDOOR_BIKE);
    let told = mended(step, 2, BIT_0, CADENCE);
    number_of(open(kind, Told::Fixed(u32::from(told))).answer)
}

// Collects a notification of cadence, with the kind, its length and the told set put right in turn;
// the told set is another group, then one group too many, then cadence.
pub(crate) fn collecting(step: u8) -> Option<u8> {
    let kind = mended(step, 1, 0, INDOOR_BIKE);
    let complete = mended(step, 6, AVERAGE_SPEED + CADENCE, CADENCE);
    let told = mended(step, 5, AVERAGE_SPEED, complete);
    let collection = open(kind, Told::Fixed(u32::from(told))).collection;
    let octets = notification(CADENCE);
    match collect(collection, first(&octets, usize::from(length_at(step, 2)))).answer {
        Collected::Refused { refusal, .. } => Some(refusal.number()),
        _ => None,
    }
}

// Lists a capture, with the lent octets put right.
pub(crate) fn listing(step: u8) -> Option<u8> {
    let mut space = [0u8; LINE];
    number_of(list(b"", mended(step, 1, &mut [], &mut space)))
}

// The length of a capture: too long at first, then without the notification's octets, and then with
// them: a length by the step's number, and no step that is run.
fn capture_length(step: u8, notification: u16) -> usize {
    match step {
        0 => CAPTURE,
        1 | 2 => 3,
        _ => 3 + usize::from(notification),
    }
}

// Lists a capture, with its length, kind, end and notification's length put right in turn, and
// reads the refusal's number in the line; at the last step there is no line, since the notification
// is a part that waits for more.
pub(crate) fn listed_line(step: u8) -> Option<u8> {
    let length = length_at(step, 4);
    let mut capture = [0u8; CAPTURE];
    capture[0] = mended(step, 2, 0, INDOOR_BIKE);
    [capture[1], capture[2]] = length.to_le_bytes();
    capture[3] = CADENCE + BIT_0;
    let mut line = [0u8; LINE];
    let _ = list(first(&capture, capture_length(step, length)), &mut line);
    let text = str::from_utf8(&line).ok()?;
    text.strip_prefix("refused=")?.trim_end().parse().ok()
}
