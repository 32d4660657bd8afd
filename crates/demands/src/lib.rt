// Demand 2 as running code: a record, split and collected, comes back equal.
#![tactic(auto)]

ghost use Rattle.std.specs.Prelude.{◌≡◌, true, ◌<◌, length};
ghost use Rattle.record.specs.Answer.{given, meant};
ghost use Rattle.record.specs.Record.{well_formed};
ghost use Rattle.record.specs.Split.{payload_known, sets_of, part_octets};
ghost use Rattle.service.specs.Collector;
ghost use Rattle.demands.specs.Back.{back_of};
ghost use Rattle.demands.specs.Demands.{Suits};

use record::record::Record;
use record::refusal::Refusal;
use record::split::{MOST_PARTS, split};
use service::collector::{Collected, Collection, Step, Told, collect, open};

// Splits off one part of a record and hands it to a collection.
fn deliver(record: Record, payload: usize, part: usize, collection: Collection) -> Step
    requires { (well_formed «record» ≡ true) × (payload_known payload ≡ true) × (part < length (sets_of «record».kind «record».groups payload)) }
    ensures answer_value { Collector.meant result.answer ≡ (Collector.collect collection (part_octets «record» payload part)).said }
    ensures next_value { result.next ≡ (Collector.collect collection (part_octets «record» payload part)).next }
{
    let mut out = [0u8; 512];
    let extent = split(record, payload, part, &mut out).unwrap();
    collect(collection, &out[..extent.length])
}

// Splits a record and collects its parts until an answer is a record, which is the same record.
fn collected(record: Record, payload: usize, told: Told) -> Result<Record, Refusal>
    requires { (well_formed «record» ≡ true) × (payload_known payload ≡ true) × Suits «record».groups told }
    ensures { meant result ≡ given «record» }
{
    let mut collection = open(record.kind, told).collection;
    for part in 0..MOST_PARTS {
        let step = deliver(record, payload, part, collection);
        match step.answer {
            Collected::Record { record, dropped: _ } => return Ok(record),
            Collected::Refused {
                refusal,
                dropped: _,
            } => return Err(refusal),
            Collected::Waiting { dropped: _ } => collection = step.next,
        }
    }
    Err(Refusal::Incomplete)
}

// The same for any record and payload, with the refusals 11, 12 and 13 as the splitter judges them.
fn judged(record: Record, payload: usize, told: Told) -> Result<Record, Refusal>
    requires { Suits «record».groups told }
    ensures { meant result ≡ back_of «record» payload }
{
    let mut out = [0u8; 512];
    split(record, payload, 0, &mut out)?;
    collected(record, payload, told)
}

// What comes back when a record is split at a payload and collected openly: the record, or 11, 12, 13.
pub fn comes_back(record: Record, payload: usize) -> Result<Record, Refusal>
    ensures { meant result ≡ back_of «record» payload }
{
    judged(record, payload, Told::Open)
}

// The same for a collection that was told the record's set.
pub fn comes_back_told(record: Record, payload: usize) -> Result<Record, Refusal>
    ensures { meant result ≡ back_of «record» payload }
{
    judged(record, payload, Told::Fixed(record.groups))
}
