// A session at the control point, with the calls that a spin down needs: each is made, printed as a
// line, and leaves the console after it. `state` prints who holds control, and the run.
use output::answer::Answer;
use output::state::RunWords;
use output::{Holder, Octets};
use service::control::{Console, Reply};
use std::{fmt, io};

// The console that is called, and where the calls are printed. The program session has one like it:
// a shared one would be public, and what is public has a contract, which no printing has.
#[derive(Drop)]
pub(crate) struct Session<R: Print> {
    pub(crate) rt: R,
    pub(crate) console: Console,
}

impl<R: Print> Session<R> {
    // The line of a call, and the console after it.
    fn answered(&mut self, call: impl fmt::Display + Drop, reply: Reply) -> io::Result<()> {
        self.console = reply.console;
        println!(self.rt; "{call}{}", Answer(reply))
    }

    // The flywheel turns at a speed, in hundredths of a km/h: this alone gives the status 14 04 or
    // 14 02.
    pub(crate) fn flywheel(&mut self, speed: u16) -> io::Result<()> {
        let reply = self.console.flywheel(speed);
        self.answered(format_args!("flywheel speed {speed}"), reply)
    }

    // A client writes an op code and its parameter.
    fn write(&mut self, client: u8, octets: &[u8]) -> io::Result<()> {
        let reply = self.console.write(client, octets);
        let octets = Octets(octets);
        self.answered(format_args!("client {client} writes{octets}"), reply)
    }

    fn confirm(&mut self, client: u8) -> io::Result<()> {
        let reply = self.console.confirm(client);
        self.answered(format_args!("client {client} confirms"), reply)
    }

    // A client writes, and confirms the response.
    pub(crate) fn exchange(&mut self, client: u8, octets: &[u8]) -> io::Result<()> {
        self.write(client, octets)?;
        self.confirm(client)
    }

    // A client connects and turns its indications on, without which it cannot write.
    pub(crate) fn join(&mut self, client: u8) -> io::Result<()> {
        let connected = self.console.connect(client);
        self.answered(format_args!("client {client} connects"), connected)?;
        let indicating = self.console.indicate(client, true);
        self.answered(
            format_args!("client {client} turns indications on"),
            indicating,
        )
    }

    pub(crate) fn disconnect(&mut self, client: u8) -> io::Result<()> {
        let reply = self.console.disconnect(client);
        self.answered(format_args!("client {client} disconnects"), reply)
    }

    // Who holds control, and the run.
    pub(crate) fn state(&self, label: &str) -> io::Result<()> {
        let machine = self.console.machine;
        let holder = Holder(machine.holder);
        println!(self.rt;
            "{label}: {holder} holds control, {}",
            RunWords(machine.run)
        )
    }
}
