// The pieces of which a line of the output is made.
use record::refusal::Refusal;
use std::fmt;

// The number of a refusal.
#[derive(Clone, Copy)]
pub(crate) struct Refused(pub(crate) Refusal);

impl fmt::Display for Refused {
    fn fmt<W: fmt::Write>(&self, f: &mut fmt::Formatter<W>) -> fmt::Result {
        write!(f, "refused={}", self.0.number())
    }
}

// The word for what was done, or the refusal.
#[derive(Clone, Copy)]
pub(crate) struct Said(pub(crate) &'static str, pub(crate) Result<(), Refusal>);

impl fmt::Display for Said {
    fn fmt<W: fmt::Write>(&self, f: &mut fmt::Formatter<W>) -> fmt::Result {
        let Said(word, outcome) = *self;
        match outcome {
            Ok(()) => write!(f, "{word}"),
            Err(refusal) => write!(f, "{}", Refused(refusal)),
        }
    }
}
