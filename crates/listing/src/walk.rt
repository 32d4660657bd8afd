// The walk over a capture: a step judges the capture's beginning, or lists one notification. Listing a whole capture and `ftlist` take the same steps.
#![tactic(auto, using(text::proofs::Writing::writes))]

ghost use Rattle.std.specs.Prelude.{◌≡◌, [], ◌≤◌, length, drop};
ghost use Rattle.record.specs.Refusal.{number_of};
ghost use Rattle.service.specs.Collector.{meant};
ghost use Rattle.text.specs.Sheet.{Put};
ghost use Rattle.listing.specs.Lines.{refused_line, longest};
ghost use Rattle.listing.specs.Listing.{said_lines, begins, lines_of, state_after};
ghost use Rattle.listing.specs.Listing as ListingSpecs;
ghost use Rattle.listing.specs.Steps.{Took, ends, beginning, at_beginning, at_notification};
ghost use Rattle.listing.specs.Steps as StepsSpecs;

use crate::lines::{put_record, put_refused};
use record::groups::is_known;
use record::octets::{u8_at, u16_at};
use record::refusal::Refusal;
use service::collector::{Collected, Collection, Told, collect, open};
use text::text::Sheet;

// "36: capture above 65,536 octets".
pub const LONGEST_CAPTURE: usize = 65536;

// The octets of a notification's length.
const LENGTH_OCTETS: usize = 2;

// The state of a listing: the collection, which is open, and the number of the next record.
#[derive(Clone, Copy)]
pub struct Listing {
    pub collection: Collection,
    pub number: u32,
}

// How far a listing has come: its state, its position in the capture, and whether it has ended. At position 0 it has not begun. A flag and
// not an enum: a walk that has ended keeps its state and position, as `ends` says.
#[derive(Clone, Copy)]
pub struct Walk {
    pub listing: Listing,
    pub position: usize,
    pub ended: bool,
}

// A listing of a kind, before its first notification.
fn start(kind: u8) -> Listing
    ensures { result ≡ begins kind }
{
    Listing {
        collection: open(kind, Told::Open).collection,
        number: 1,
    }
}

// The lines of a collection's answer: none for waiting.
fn put_answer(sheet: &mut Sheet, number: u32, answer: Collected)
    ensures wrote { Put sheet.old (said_lines number (meant answer)) sheet.new }
    ensures answer_len_bound { length (said_lines number (meant answer)) ≤ longest }
{
    match answer {
        Collected::Waiting { .. } => {}
        Collected::Record { record, .. } => put_record(sheet, number, record),
        Collected::Refused { refusal, .. } => put_refused(sheet, refusal),
    }
}

// The number of the next record after an answer. It saturates, but no capture has so many records.
fn number_after(number: u32, answer: Collected) -> u32
    ensures { result ≡ ListingSpecs.number_after number (meant answer) }
{
    match answer {
        Collected::Record { .. } => number.saturating_add(1),
        Collected::Waiting { .. } | Collected::Refused { .. } => number,
    }
}

// One notification: its lines, and the listing after it.
fn put_notification(sheet: &mut Sheet, listing: Listing, notification: &[u8]) -> Listing
    ensures wrote { Put sheet.old (lines_of listing notification.now) sheet.new }
    ensures listing_value { result ≡ state_after listing notification.now }
    ensures notification_len_bound { length (lines_of listing notification.now) ≤ longest }
{
    let taken = collect(listing.collection, notification);
    let answer = taken.answer;
    put_answer(sheet, listing.number, answer);
    Listing {
        collection: taken.next,
        number: number_after(listing.number, answer),
    }
}

// A walk that has ended.
fn end(walk: Walk) -> Walk
    ensures { result ≡ (ends walk []).walk }
{
    Walk {
        ended: true,
        ..walk
    }
}

// Ends the walk with the line of a refusal. A walk is a value, and what the lines are put on and what is read are lent: so walk, capture and
// sheet are three parameters.
fn refuse(sheet: &mut Sheet, walk: Walk, refusal: Refusal) -> Walk
    ensures { Took sheet.old (ends walk (refused_line (number_of refusal))) sheet.new result }
{
    put_refused(sheet, refusal);
    end(walk)
}

// The first step: judges 36, then 11, and goes on after the kind. The kind of an empty capture reads as 0, which is not a kind.
fn judge(sheet: &mut Sheet, walk: Walk, capture: &[u8]) -> Walk
    ensures { Took sheet.old (at_beginning walk capture.now) sheet.new result }
{
    let kind = u8_at(capture, 0);
    let known = is_known(kind);
    if LONGEST_CAPTURE < capture.len() {
        return refuse(sheet, walk, Refusal::CaptureTooLong);
    }
    if !known {
        return refuse(sheet, walk, Refusal::UnknownKind);
    }
    Walk {
        listing: start(kind),
        position: 1,
        ended: false,
    }
}

// A step after the kind: the end, 37, or one notification.
fn advance(sheet: &mut Sheet, walk: Walk, capture: &[u8]) -> Walk
    ensures { Took sheet.old (at_notification walk (drop walk.position capture.now)) sheet.new result }
{
    let position = walk.position;
    if capture.len() <= position {
        return end(walk);
    }
    let size = u16_at(capture, position) as usize;
    let left = capture.len() - position;
    if left < LENGTH_OCTETS + size {
        return refuse(sheet, walk, Refusal::CaptureCutShort);
    }
    let from = position + LENGTH_OCTETS;
    let to = from + size;
    Walk {
        listing: put_notification(sheet, walk.listing, &capture[from..to]),
        position: to,
        ended: false,
    }
}

// A walk before its first step.
pub fn begin() -> Walk
    ensures { result ≡ beginning }
{
    Walk {
        listing: start(0),
        position: 0,
        ended: false,
    }
}

// One step of a walk over a capture: its lines, and the walk after it. A step's lines never exceed `LONGEST_LINES`.
pub fn step(sheet: &mut Sheet, walk: Walk, capture: &[u8]) -> Walk
    ensures { Took sheet.old (StepsSpecs.step walk capture.now) sheet.new result }
{
    if walk.ended {
        return end(walk);
    }
    if walk.position == 0 {
        return judge(sheet, walk, capture);
    }
    advance(sheet, walk, capture)
}
