// Collecting the parts of records, one notification at a time; the state is passed by value.
ghost use Rattle.std.specs.Prelude.{◌≡◌, cond};
ghost use Rattle.record.specs.Answer.{given};
ghost use Rattle.record.specs.Notification.{part_of, held_after};
ghost use Rattle.record.specs.Refusal.{number_of};
ghost use Rattle.service.specs.Collector.{meant, meant_opening, refuses, collection, zeros, empty, opens, told_known, joins};
ghost use Rattle.service.specs.Collector;

use record::groups::{BITS, has, is_known, listed};
use record::notification::{Part, part_of, read};
use record::numbers::{Wire, record_of};
use record::record::Record;
use record::refusal::Refusal;

// "A collection is open (a kind) or fixed (a kind and a set)." An enum and not an `Option<u32>`: `None` would have to be explained at each call.
#[derive(Clone, Copy)]
pub enum Told {
    Open,
    Fixed(u32),
}

// The state of a collection: its kind, what it was told, the optional groups that it holds, and the numbers of their fields.
#[derive(Clone, Copy)]
pub struct Collection {
    pub kind: u8,
    pub told: Told,
    pub held: u32,
    pub numbers: [u32; 31],
}

// The answer to an opening, which may be refused, and a collection that holds nothing: a struct and not a `Result` with the
// collection in it, since a refused opening gives the collection too.
#[derive(Clone, Copy)]
pub struct Opened {
    pub answer: Result<(), Refusal>,
    pub collection: Collection,
}

// What a collection answers to a notification. "Each answer says whether held groups were dropped unused". Three cases, so neither
// an `Option` nor a `Result`; each has `dropped`, since each says it.
#[derive(Clone, Copy)]
pub enum Collected {
    Waiting { dropped: bool },
    Record { record: Record, dropped: bool },
    Refused { refusal: Refusal, dropped: bool },
}

// The answer to a notification, and the collection after it.
#[derive(Clone, Copy)]
pub struct Step {
    pub answer: Collected,
    pub next: Collection,
}

// Opens a collection, which holds nothing; refuses with 11, then 35.
#[tactic(auto, unfolding(crate::specs::Collector::opens))]
pub fn open(kind: u8, told: Told) -> Opened
    ensures result_value { meant_opening result ≡ opens kind told }
    ensures collection_value { result.collection ≡ empty kind told }
{
    Opened {
        answer: opening(kind, told),
        collection: Collection::empty(kind, told),
    }
}

// Whether a collection can be opened.
fn opening(kind: u8, told: Told) -> Result<(), Refusal>
    ensures { result ≡ Collector.opening kind told }
{
    if !is_known(kind) {
        return Err(Refusal::UnknownKind);
    }
    if !told.is_listed(kind) {
        return Err(Refusal::ToldSetUnlisted);
    }
    Ok(())
}

// What a collection answers to a notification, and the collection after it.
pub fn collect(collection: Collection, notification: &[u8]) -> Step
    ensures answer_value { meant result.answer ≡ (Collector.collect collection notification.now).said }
    ensures next_value { result.next ≡ (Collector.collect collection notification.now).next }
{
    // the step is changed in place: a collection beside it would be copied twice
    let mut step = Step {
        answer: Collected::Waiting { dropped: false },
        next: collection,
    };
    step.answer = step.next.take(notification);
    step
}

// The lowest group of a set, as a set.
#[tactic(auto, using(record::proofs::Sets::one_bit, record::proofs::Sets::mod_stays, crate::proofs::Lowest::lowest_at, crate::proofs::Lowest::lowest_none))]
fn lowest(set: u32) -> u32
    ensures { result ≡ Collector.lowest 15 set }
{
    for bit in 0..BITS {
        if has(set, bit) {
            return 1 << bit;
        }
    }
    0
}

impl Told {
    // Whether a told set has only bits listed for the kind.
    fn is_listed(self, kind: u8) -> bool
        ensures { result ≡ told_known kind self }
    {
        match self {
            Told::Open => true,
            Told::Fixed(set) => set & listed(kind) == set,
        }
    }

    // Whether a part with these groups drops what is held: open, when any of them is held; fixed, when the lowest is not above the highest held.
    fn drops(self, held: u32, groups: u32) -> bool
        ensures { result ≡ Collector.drops self held groups }
    {
        match self {
            Told::Open => held & groups != 0,
            Told::Fixed(_) => groups != 0 && lowest(groups) <= held,
        }
    }

    // Whether a part has a group that is not in the told set.
    fn outside(self, groups: u32) -> bool
        ensures { result ≡ Collector.outside self groups }
    {
        match self {
            Told::Open => false,
            Told::Fixed(set) => groups & set != groups,
        }
    }

    // Whether the held groups are not all of the told set.
    fn incomplete(self, held: u32) -> bool
        ensures { result ≡ Collector.incomplete self held }
    {
        match self {
            Told::Open => false,
            Told::Fixed(set) => held != set,
        }
    }
}

impl Collection {
    // A collection that holds nothing.
    fn empty(kind: u8, told: Told) -> Collection
        ensures { result ≡ empty kind told }
    {
        Collection {
            kind,
            told,
            held: 0,
            numbers: [0; 31],
        }
    }

    // Holds nothing any more.
    fn clear(&mut self)
        ensures { self.new ≡ empty self.old.kind self.old.told }
    {
        self.held = 0;
        self.numbers = [0; 31];
    }

    // A refusal, which says whether anything was held before it: "10 to 22 leave the state unchanged", and after any other nothing is held.
    fn refuse(&mut self, refusal: Refusal) -> Collected
        ensures answer_value { meant result ≡ (refuses self.old (number_of refusal)).said }
        ensures next_value { self.new ≡ (refuses self.old (number_of refusal)).next }
    {
        let dropped = self.held != 0;
        if refusal.number() > 22 {
            self.clear();
        }
        Collected::Refused { refusal, dropped }
    }

    // The held groups that are left when a part drops them, or keeps them.
    fn left(&self, dropped: bool) -> u32
        ensures { result ≡ cond dropped 0 self.now.held }
    {
        if dropped { 0 } else { self.held }
    }

    // Holds these groups from now on: reads a notification's numbers to those that are left.
    fn gather(&mut self, dropped: bool, held: u32, notification: &[u8])
        ensures { self.new ≡ collection self.old.kind self.old.told held (held_after self.old.kind notification.now (cond dropped zeros self.old.numbers)) }
    {
        if dropped {
            self.clear();
        }
        // what the notification says is known: it is the part to join
        let _ = read(self.kind, notification, &mut self.numbers);
        self.held = held;
    }

    // Joins a part to what is left of the held groups: the answer is waiting, refusal 34, or the record.
    #[tactic(auto, using(crate::proofs::Joining::read_joins, crate::proofs::Joining::waits, crate::proofs::Joining::lacks, crate::proofs::Joining::hands))]
    fn join(&mut self, part: Part, notification: &[u8]) -> Collected
        requires { part_of self.old.kind notification.now ≡ given part }
        ensures answer_value { meant result ≡ (joins self.old part notification.now (Collector.drops self.old.told self.old.held part.groups)).said }
        ensures next_value { self.new ≡ (joins self.old part notification.now (Collector.drops self.old.told self.old.held part.groups)).next }
    {
        let dropped = self.told.drops(self.held, part.groups);
        let held = self.left(dropped) | part.groups;
        if part.last && self.told.incomplete(held) {
            return self.refuse(Refusal::Incomplete);
        }
        self.gather(dropped, held, notification);
        if !part.last {
            return Collected::Waiting { dropped };
        }
        let record = record_of(&Wire {
            kind: self.kind,
            groups: held,
            direction: part.direction,
            numbers: self.numbers,
        });
        self.clear();
        Collected::Record { record, dropped }
    }

    // Takes one notification: the first of the refusals 11 and 30 to 33 that applies, otherwise the rules of collecting.
    #[tactic(auto, using(crate::proofs::Joining::not_read, crate::proofs::Joining::not_told, crate::proofs::Joining::taken))]
    fn take(&mut self, notification: &[u8]) -> Collected
        ensures answer_value { meant result ≡ (Collector.collect self.old notification.now).said }
        ensures next_value { self.new ≡ (Collector.collect self.old notification.now).next }
    {
        match part_of(self.kind, notification) {
            Err(refusal) => self.refuse(refusal),
            Ok(part) if self.told.outside(part.groups) => { self.refuse(Refusal::OutsideToldSet) }
            Ok(part) => self.join(part, notification),
        }
    }
}
