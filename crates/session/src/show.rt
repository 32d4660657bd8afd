// A session at the control point: each call of a client is made, printed as a line, and leaves the
// console after it. `state` prints the state of its machine.
use output::answer::Answer;
use output::state::ModeWords;
use output::{Holder, Octets};
use record::octets::u16_at;
use service::control::{Console, Reply};
use std::{fmt, io};

// The op code that stores the speed.
const SET_SPEED: u8 = 0x02;

// The console that is called, and where the calls are printed. The program spindown has one like it:
// a shared one would be public, and what is public has a contract, which no printing has.
#[derive(Drop)]
pub(crate) struct Session<R: Print> {
    pub(crate) rt: R,
    pub(crate) console: Console,
}

impl<R: Print> Session<R> {
    // The line of a call, and the console after it.
    fn answered(&mut self, call: impl fmt::Display + Drop, reply: Reply) -> io::Result<()> {
        self.console = reply.console;
        println!(self.rt; "{call}{}", Answer(reply))
    }

    // A client writes an op code and its parameter.
    pub(crate) fn write(&mut self, client: u8, octets: &[u8]) -> io::Result<()> {
        let reply = self.console.write(client, octets);
        let octets = Octets(octets);
        self.answered(format_args!("client {client} writes{octets}"), reply)
    }

    pub(crate) fn connect(&mut self, client: u8) -> io::Result<()> {
        let reply = self.console.connect(client);
        self.answered(format_args!("client {client} connects"), reply)
    }

    pub(crate) fn turn_indications_on(&mut self, client: u8) -> io::Result<()> {
        let reply = self.console.indicate(client, true);
        self.answered(format_args!("client {client} turns indications on"), reply)
    }

    pub(crate) fn confirm(&mut self, client: u8) -> io::Result<()> {
        let reply = self.console.confirm(client);
        self.answered(format_args!("client {client} confirms"), reply)
    }

    pub(crate) fn disconnect(&mut self, client: u8) -> io::Result<()> {
        let reply = self.console.disconnect(client);
        self.answered(format_args!("client {client} disconnects"), reply)
    }

    // What the machine does, who holds control, and the speed that is set.
    pub(crate) fn state(&self, label: &str) -> io::Result<()> {
        let machine = self.console.machine;
        let speed = u16_at(&self.console.setting(SET_SPEED).octets, 0);
        println!(self.rt;
            "{label}: {}, {} holds control, speed {speed}",
            ModeWords(machine.mode),
            Holder(machine.holder),
        )
    }
}
