// Numbers in octets, least octet first, read from and written to a slice. Each call is total: an octet past the end reads as 0 and is not written.
ghost use Rattle.std.specs.Prelude.{◌≡◌, ◌≤◌, drop};
ghost use Rattle.record.specs.Octets.{number, spelled, placed};
ghost use Rattle.record.specs.Octets;

// The octet at an index. This, the next two and `s16_at` are public, and each contract promises a type: so they are no one function over
// the number of octets, which `number_at` is.
pub fn u8_at(s: &[u8], at: usize) -> u8
    ensures { result ≡ number 1 (drop at s.now) }
{
    if at < s.len() {
        return s[at];
    }
    0
}

// The number in as many octets as are asked for, from an index on. A case for each count and no recursion, which costs a call for each octet.
pub(crate) fn number_at(s: &[u8], at: usize, octets: usize) -> u32
    requires { octets ≤ 4 }
    ensures { result ≡ number octets (drop at s.now) }
{
    if s.len() <= at {
        return 0;
    }
    let a = u8_at(s, at) as u32;
    match octets {
        0 => 0,
        1 => a,
        2 => a + 256 * u8_at(s, at + 1) as u32,
        3 => a + 256 * (u8_at(s, at + 1) as u32 + 256 * u8_at(s, at + 2) as u32),
        _ => {
            let c = u8_at(s, at + 2) as u32 + 256 * u8_at(s, at + 3) as u32;
            a + 256 * (u8_at(s, at + 1) as u32 + 256 * c)
        }
    }
}

// The number in the two octets that begin at an index.
pub fn u16_at(s: &[u8], at: usize) -> u16
    ensures { result ≡ number 2 (drop at s.now) }
{
    number_at(s, at, 2) as u16
}

// The number in three octets, which is below 16,777,216.
pub fn u24_at(s: &[u8], at: usize) -> u32
    ensures { result ≡ number 3 (drop at s.now) }
{
    number_at(s, at, 3)
}

// Sixteen bits as a signed number, in two's complement; its contract says in document 01's words what the cast does.
pub(crate) fn signed(bits: u16) -> i16
    ensures { result ≡ Octets.signed bits }
{
    bits.cast_signed()
}

// The sixteen bits of a signed number.
pub fn unsigned(z: i16) -> u16
    ensures { result ≡ Octets.unsigned z }
{
    z.cast_unsigned()
}

// The signed number in two octets.
pub fn s16_at(s: &[u8], at: usize) -> i16
    ensures { result ≡ Octets.signed (number 2 (drop at s.now)) }
{
    signed(u16_at(s, at))
}

// Writes the low octets of a number, as many as are asked for, from an index on. Buffer and index are two parameters and no `Sheet`, which
// crate `text` has, above this one.
#[tactic(auto, using(crate::proofs::OctetLaws::placed_past))]
pub(crate) fn put_number(out: &mut [u8], at: usize, octets: usize, x: u32)
    ensures { out.new ≡ placed out.old at (spelled octets x) }
{
    if octets == 0 {
        return;
    }
    if out.len() <= at {
        return;
    }
    out[at] = (x % 256) as u8;
    put_number(out, at + 1, octets - 1, x / 256);
}
