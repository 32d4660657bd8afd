// The calls: the name of each, what it answers step by step, and what a refusal leaves.
use crate::clients::{confirming, connecting, disconnecting, indicating, opening, writing};
use crate::records::{
    collecting, listed_line, listing, opening_collection, reading, reading_feature, splitting,
    splitting_from_c,
};
use std::fmt;

// More steps than any call has refusals.
const STEPS: u8 = 9;

// A call: the number of the refusal that it gives at a step, as long as it refuses (no `Refusal`,
// since a call from C and a line of a listing give the number alone); what follows its refusals in
// their order; and what a refusal leaves.
#[derive(Clone, Copy)]
pub(crate) struct Call {
    pub(crate) name: &'static str,
    answer: fn(u8) -> Option<u8>,
    pub(crate) then: &'static str,
    pub(crate) left: &'static str,
    // it can be asked at every step
    ghost answers: { IsAlwaysCallable answer },
}

pub(crate) const CALLS: [Call; 14] = [
    Call {
        name: "splitting",
        answer: splitting,
        then: "",
        left: "the lent octets as they were",
    },
    Call {
        name: "splitting called from C",
        answer: splitting_from_c,
        then: "",
        left: "the lent octets and numbers as they were",
    },
    Call {
        name: "reading a notification",
        answer: reading,
        then: "",
        left: "the lent numbers as they were",
    },
    Call {
        name: "reading a Feature value",
        answer: reading_feature,
        then: "",
        left: "nothing: the call has no state",
    },
    Call {
        name: "opening a collection",
        answer: opening_collection,
        then: "",
        left: "a collection that holds nothing, not to be used",
    },
    Call {
        name: "collecting a notification",
        answer: collecting,
        then: "",
        left: "11: the collection as it was; 30 to 34: nothing held",
    },
    Call {
        name: "opening a machine",
        answer: opening,
        then: "",
        left: "a console with no target setting, its ranges and target speeds all 0, not to be used",
    },
    Call {
        name: "connect",
        answer: connecting,
        then: "",
        left: "the console as it was",
    },
    Call {
        name: "disconnect",
        answer: disconnecting,
        then: "",
        left: "the console as it was",
    },
    Call {
        name: "indications",
        answer: indicating,
        then: "",
        left: "the console as it was",
    },
    Call {
        name: "write",
        answer: writing,
        then: ", then the results",
        left: "the console as it was",
    },
    Call {
        name: "confirm",
        answer: confirming,
        then: "",
        left: "the console as it was",
    },
    Call {
        name: "listing a capture",
        answer: listing,
        then: "",
        left: "the lent octets as they were",
    },
    Call {
        name: "a line of a listing",
        answer: listed_line,
        then: "",
        left: "36, 11 and 37: the listing ends; 30 to 32: nothing held, and the listing goes on",
    },
];

impl Call {
    // Whether it gives a refusal at one of its steps.
    pub(crate) fn gives(self, number: u8) -> bool {
        (0..STEPS).any(|step| (self.answer)(step) == Some(number))
    }
}

// The numbers of the refusals that a call gives, in their order.
#[derive(Clone, Copy)]
pub(crate) struct Order(pub(crate) Call);

impl fmt::Display for Order {
    fn fmt<W: fmt::Write>(&self, f: &mut fmt::Formatter<W>) -> fmt::Result {
        for (i, number) in (0..STEPS).filter_map(self.0.answer).enumerate() {
            if i > 0 {
                write!(f, ", ")?;
            }
            write!(f, "{number}")?;
        }
        Ok(())
    }
}
