// What the programs print by `print!` and `println!`: octets, the text in a lent buffer, who holds control, the state of a machine, and the answer to a call. What prints has no contract but is safe and ends.
#![tactic(auto)]

pub mod answer;
pub mod state;

ghost use Rattle.std.specs.Prelude.{◌≡◌, IsOk, take};

use std::fmt::{Display, Write};
use std::{fmt, io};

// Standard output as these programs print on it: where it cannot be written, what is printed is left out, and the program goes on and ends as it would have.
// So no `io::Result` of a call that prints on it is an error.
#[derive(Drop)]
pub struct GoesOn<R: Print>(pub R);

impl<R: Print> Print for GoesOn<R> {
    fn print<D: Display + Drop>(&self, value: D) -> io::Result<()>
        ensures { IsOk result }
    {
        let _ = self.0.print(value);
        Ok(())
    }

    fn println<D: Display + Drop>(&self, value: D) -> io::Result<()>
        ensures { IsOk result }
    {
        let _ = self.0.println(value);
        Ok(())
    }

    fn write_all(&self, bytes: &[u8]) -> io::Result<()>
        ensures { IsOk result }
    {
        let _ = self.0.write_all(bytes);
        Ok(())
    }
}

// Octets, each printed as a space and two hexadecimal digits in capitals.
#[derive(Clone, Copy)]
pub struct Octets<'a>(pub &'a [u8]);

impl fmt::Display for Octets<'_> {
    fn fmt<W: fmt::Write>(&self, f: &mut fmt::Formatter<W>) -> fmt::Result {
        for x in self.0 {
            write!(f, " {x:02X}")?;
        }
        Ok(())
    }
}

// Text in ASCII, as the library writes it into lent buffers.
#[derive(Clone, Copy)]
pub struct Ascii<'a>(pub &'a [u8]);

impl fmt::Display for Ascii<'_> {
    fn fmt<W: fmt::Write>(&self, f: &mut fmt::Formatter<W>) -> fmt::Result {
        for x in self.0 {
            f.write_char(char::from(*x))?;
        }
        Ok(())
    }
}

// Who holds control: nobody, or a client by its number.
#[derive(Clone, Copy)]
pub struct Holder(pub Option<u8>);

impl fmt::Display for Holder {
    fn fmt<W: fmt::Write>(&self, f: &mut fmt::Formatter<W>) -> fmt::Result {
        match self.0 {
            None => write!(f, "nobody"),
            Some(client) => write!(f, "client {client}"),
        }
    }
}

// The first `length` octets of a buffer; all of it if it has fewer. A call that writes to a lent buffer gives a length, as document 01 has it,
// and no slice of the buffer; and a program cuts at lengths of its own, which a range would have to be proved within.
pub fn first(buffer: &[u8], length: usize) -> &[u8]
    ensures { result.now ≡ take length buffer.now }
{
    if buffer.len() < length {
        return buffer;
    }
    &buffer[0..length]
}
