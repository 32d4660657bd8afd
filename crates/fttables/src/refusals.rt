// The refusal numbers, with when each is given and by which calls; and the order of each call's
// refusals.
use crate::calls::{CALLS, Order};
use record::refusal::Refusal;
use std::{fmt, io};

// The refusals in the order of document 01's table.
const REFUSALS: [Refusal; 21] = [
    Refusal::ClientAboveThree,
    Refusal::UnknownKind,
    Refusal::PayloadOutOfRange,
    Refusal::NotWellFormed,
    Refusal::OutputTooShort,
    Refusal::NoSuchPart,
    Refusal::UnusableSetup,
    Refusal::ConnectionMismatch,
    Refusal::EmptyWrite,
    Refusal::IndicationsOff,
    Refusal::ResponseAwaited,
    Refusal::NothingDue,
    Refusal::NotEightOctets,
    Refusal::NotificationTooLong,
    Refusal::ShorterThanFlags,
    Refusal::ShorterThanGroups,
    Refusal::OutsideToldSet,
    Refusal::Incomplete,
    Refusal::ToldSetUnlisted,
    Refusal::CaptureTooLong,
    Refusal::CaptureCutShort,
];

// "given exactly when"
pub(crate) fn when(refusal: Refusal) -> &'static str {
    match refusal {
        Refusal::ClientAboveThree => "client above 3",
        Refusal::UnknownKind => "kind not 1 to 6",
        Refusal::PayloadOutOfRange => "payload not 20 to 512",
        Refusal::NotWellFormed => "record not well formed",
        Refusal::OutputTooShort => "lent output shorter than this answer",
        Refusal::NoSuchPart => "part number not below the number of parts",
        Refusal::UnusableSetup => {
            "some range has least above greatest or an increment of 0, or the low target speed is not below the high one"
        }
        Refusal::ConnectionMismatch => "client not connected; for connect, already connected",
        Refusal::EmptyWrite => "write of no octets",
        Refusal::IndicationsOff => "indications off (ATT FD)",
        Refusal::ResponseAwaited => "a response awaits confirmation (ATT FE)",
        Refusal::NothingDue => "confirm by a client to whom no response is due",
        Refusal::NotEightOctets => "Feature value not 8 octets",
        Refusal::NotificationTooLong => "notification above 512 octets",
        Refusal::ShorterThanFlags => "shorter than its flags",
        Refusal::ShorterThanGroups => "shorter than flags and named groups",
        Refusal::OutsideToldSet => "fixed: a group not in the told set",
        Refusal::Incomplete => "fixed: incomplete at the last part",
        Refusal::ToldSetUnlisted => "told set has a bit not listed for the kind",
        Refusal::CaptureTooLong => "capture above 65,536 octets",
        Refusal::CaptureCutShort => "capture ends inside a length or notification",
    }
}

// The calls that give the refusal of a number.
#[derive(Clone, Copy)]
struct By(u8);

impl fmt::Display for By {
    fn fmt<W: fmt::Write>(&self, f: &mut fmt::Formatter<W>) -> fmt::Result {
        let number = self.0;
        let calls = CALLS.iter().filter(|call| call.gives(number));
        for (i, call) in calls.enumerate() {
            if i > 0 {
                write!(f, ", ")?;
            }
            write!(f, "{}", call.name)?;
        }
        Ok(())
    }
}

pub(crate) fn print_refusals(rt: &impl Print) -> io::Result<()> {
    print!(rt;
        "\n# Refusals\n\n## Refusal numbers\n\n| no. | given exactly when | by |\n|---|---|---|\n"
    )?;
    for refusal in REFUSALS {
        let number = refusal.number();
        println!(rt; "| {number} | {} | {} |", when(refusal), By(number))?;
    }
    Ok(())
}

pub(crate) fn print_orders(rt: &impl Print) -> io::Result<()> {
    print!(rt; "\n## Orders\n\n| call | order | what a refusal leaves |\n|---|---|---|\n")?;
    for call in CALLS {
        println!(rt;
            "| {} | {}{} | {} |",
            call.name,
            Order(call),
            call.then,
            call.left
        )?;
    }
    Ok(())
}
