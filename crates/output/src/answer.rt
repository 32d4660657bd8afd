// What the control point answers to a call, as the programs print it after the call.
use crate::Octets;
use service::control::Reply;
use std::fmt;

// The octets of a reply after their names, or the number of its refusal.
#[derive(Clone, Copy)]
pub struct Answer(pub Reply);

impl fmt::Display for Answer {
    // A real console sends the octets that are printed here.
    fn fmt<W: fmt::Write>(&self, f: &mut fmt::Formatter<W>) -> fmt::Result {
        let reply = self.0;
        match reply.outcome {
            Ok(()) => {
                // the response to a write is 80, the op code and the result, and after a start of
                // spin down the target speeds: the client has to confirm it; there is a status only
                // if the write succeeded, or a flywheel speed has led a run on
                let mut mark = ':';
                for (name, sent) in [("response", reply.response), ("status", reply.status)] {
                    if !sent.octets().is_empty() {
                        write!(f, "{mark} {name}{}", Octets(sent.octets()))?;
                        mark = ',';
                    }
                }
                Ok(())
            }
            // 10, 17, 18, 19, 20 or 21
            Err(refusal) => write!(f, ": refused {}", refusal.number()),
        }
    }
}
