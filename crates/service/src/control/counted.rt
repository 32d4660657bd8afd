// Octets with their count, as a reply returns them.
ghost use Rattle.std.specs.Prelude.{◌≡◌, ◌∷◌, ◌≤◌, length};
ghost use Rattle.service.specs.Control.Counted.{boxed, counted};

// The first `count` octets count; those past them are 0. The longest are a status octet and a parameter of ten.
// An array with a count: there is no heap, and a reply is copied, which an array with a length of the kit's cannot be.
#[derive(Clone, Copy)]
pub struct Counted {
    pub count: u8,
    pub octets: [u8; 11],
}

impl Counted {
    // These octets with their count.
    pub(crate) fn of(octets: &[u8]) -> Counted
        requires { length octets.now ≤ 11 }
        ensures { result ≡ boxed octets.now }
    {
        let mut all = [0u8; 11];
        all[..octets.len()].copy_from_slice(octets);
        Counted {
            count: octets.len() as u8,
            octets: all,
        }
    }

    // An octet and a parameter. That a parameter has ten octets at most stands here and where one is handed on: it is a part of what the
    // client wrote, and no type of ours.
    pub(crate) fn with_parameter(first: u8, p: &[u8]) -> Counted
        requires { length p.now ≤ 10 }
        ensures { result ≡ boxed (first ∷ p.now) }
    {
        let mut octets = [0; 11];
        octets[0] = first;
        octets[1..=p.len()].copy_from_slice(p);
        Counted {
            count: 1 + p.len() as u8,
            octets,
        }
    }

    // The octets that count: all of them, if the count is made by hand and above 11.
    pub fn octets(&self) -> &[u8]
        ensures { result.now ≡ counted self.now }
    {
        &self.octets[..(self.count as usize).min(11)]
    }
}
