// A collection is opened and given notifications; each answer is printed.
use crate::printing::yes;
use crate::samples::{Form, number_at};
use output::{Octets, first};
use record::formed::well_formed;
use record::layout::rows;
use record::numbers::numbers_of;
use record::record::Record;
use service::collector::{Collected, Collection, Told, collect, open};
use std::fmt::Write;
use std::{fmt, io};

// Opens a collection, and prints the first line of a case.
pub(crate) fn opened(rt: &impl Print, words: &str, kind: u8, told: Told) -> io::Result<Collection> {
    print!(rt; "{words}: kind={kind}")?;
    match told {
        Told::Open => print!(rt; " open")?,
        Told::Fixed(set) => print!(rt; " told={set}")?,
    }
    let opened = open(kind, told);
    match opened.answer {
        Ok(()) => println!(rt; " opened")?,
        Err(refusal) => println!(rt; " refused={}", refusal.number())?,
    }
    Ok(opened.collection)
}

// The wire numbers of a record's present fields, in the order of the table.
#[derive(Clone, Copy)]
struct Numbers(Record);

impl fmt::Display for Numbers {
    fn fmt<W: fmt::Write>(&self, f: &mut fmt::Formatter<W>) -> fmt::Result {
        let form = Form::from(self.0);
        let numbers = numbers_of(self.0);
        for row in rows(form.kind) {
            if form.has(*row) {
                write!(f, " {}", number_at(&numbers, row.1))?;
            }
        }
        Ok(())
    }
}

fn print_whole(rt: &impl Print, r: Record) -> io::Result<()> {
    let (form, numbers) = (Form::from(r), Numbers(r));
    print!(rt;
        " record {form} numbers:{numbers} formed={}",
        yes(well_formed(r))
    )
}

// An answer; "Each answer says whether held groups were dropped unused".
fn print_collected(rt: &impl Print, answer: Collected) -> io::Result<()> {
    let dropped = match answer {
        Collected::Waiting { dropped } => {
            print!(rt; " waiting")?;
            dropped
        }
        Collected::Record { record, dropped } => {
            print_whole(rt, record)?;
            dropped
        }
        Collected::Refused { refusal, dropped } => {
            print!(rt; " refused={}", refusal.number())?;
            dropped
        }
    };
    println!(rt; " dropped={}", yes(dropped))
}

// Gives a collection a notification, and prints the next line of a case, with at most twenty
// of the octets.
pub(crate) fn after(
    rt: &impl Print,
    collection: Collection,
    notification: &[u8],
) -> io::Result<Collection> {
    let octets = Octets(first(notification, 20));
    print!(rt; "length={}:{octets}", notification.len())?;
    let step = collect(collection, notification);
    print_collected(rt, step.answer)?;
    Ok(step.next)
}
