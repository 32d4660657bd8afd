// A script: its lines are run in turn, on one console and one collection. A line is a word, and octets in hex; numbers have their least octet first.
//   machine        the ranges (speed, inclination, resistance, power: least, greatest and increment in two octets each; heart rate: in one each), the low
//                  and the high target speed in two octets each, then the Feature value
//   connect, disconnect, on, off, confirm    a client
//   write          a client, then the octets that it writes
//   flywheel       its speed in two octets
//   setting        an op code: what it stores
//   open           a kind;    fixed    a kind and the told set in four octets
//   notification   its octets
//   split          kind, groups in four octets, direction, payload in four, part in four, room in two, then each of the 31 fields in four
use crate::collections::{Answer, State};
use crate::consoles::{Padded, Replied, opened};
use crate::lines::{LONGEST, octets_of, u32_at, word_of};
use crate::printing::Said;
use crate::splits::run_split;
use arrayvec::ArrayVec;
use record::octets::{u8_at, u16_at};
use service::collector::{Collection, Told, collect, open};
use service::control::{Console, Reply};
use std::io;

// What the lines act on, and where their answers are printed.
#[derive(Drop)]
pub(crate) struct Replay<R: Print> {
    rt: R,
    console: Console,
    collection: Collection,
}

impl<R: Print> Replay<R> {
    // The state before the first line: a console whose opening was refused, and an open collection of a treadmill.
    pub(crate) fn new(rt: R) -> Self {
        Replay {
            rt,
            console: opened(&[]).console,
            collection: open(1, Told::Open).collection,
        }
    }

    // Runs the lines that end in a block of the input; characters of a line past `LONGEST` are left out. The line that has not ended yet is lent, so that
    // it stays where it is while a call of it changes the rest.
    pub(crate) fn run_block(
        &mut self,
        line: &mut ArrayVec<u8, LONGEST>,
        block: &[u8],
    ) -> io::Result<()> {
        for x in block {
            if *x == b'\n' {
                self.run_line(line.as_slice())?;
                line.clear();
            } else {
                let _ = line.try_push(*x);
            }
        }
        Ok(())
    }

    // The call of a line, with its octets.
    fn run_line(&mut self, line: &[u8]) -> io::Result<()> {
        let octets = octets_of(line);
        let s = octets.as_slice();
        let first = u8_at(s, 0);
        match word_of(line) {
            b"machine " => self.replied(opened(s)),
            b"connect " => self.replied(self.console.connect(first)),
            b"disconnect " => self.replied(self.console.disconnect(first)),
            b"on " => self.replied(self.console.indicate(first, true)),
            b"off " => self.replied(self.console.indicate(first, false)),
            b"confirm " => self.replied(self.console.confirm(first)),
            b"write " => self.replied(self.console.write(first, s.get(1..).unwrap_or(&[]))),
            b"flywheel " => self.replied(self.console.flywheel(u16_at(s, 0))),
            b"setting " => println!(self.rt; "setting={}", Padded(self.console.setting(first))),
            b"open " => self.open(first, Told::Open),
            b"fixed " => self.open(first, Told::Fixed(u32_at(s, 1))),
            b"notification " => self.notify(s),
            b"split " => run_split(&self.rt, s),
            _ => self.say(line),
        }
    }

    fn replied(&mut self, reply: Reply) -> io::Result<()> {
        self.console = reply.console;
        println!(self.rt; "{}", Replied(&reply))
    }

    // Opens a collection: a kind, and the set that it is told.
    fn open(&mut self, kind: u8, told: Told) -> io::Result<()> {
        let begun = open(kind, told);
        self.collection = begun.collection;
        println!(self.rt;
            "{}{}",
            Said("opened", begun.answer),
            State(&begun.collection)
        )
    }

    // Gives the collection a notification.
    fn notify(&mut self, notification: &[u8]) -> io::Result<()> {
        let step = collect(self.collection, notification);
        self.collection = step.next;
        println!(self.rt; "{}{}", Answer(step.answer), State(&step.next))
    }

    // A line that is no call: one that begins with `#` is printed as it is, which need not be text.
    fn say(&self, line: &[u8]) -> io::Result<()> {
        if line.starts_with(b"#") {
            self.rt.write_all(line)?;
            println!(self.rt)
        } else {
            println!(self.rt; "no such call")
        }
    }
}
