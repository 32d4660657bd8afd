// The calls of a C host, which `phone_c` exports. Those that split and list return 0 or a refusal's number; on a refusal nothing that a pointer points to changes.
#![tactic(auto)]

mod split;

ghost use Rattle.std.specs.Prelude.{◌≡◌, min, length};
ghost use Rattle.record.specs.Answer.{meant};
ghost use Rattle.text.specs.Text.{top};
ghost use Rattle.listing.specs.Listing.{listing, answer_of, lent_after};
ghost use Rattle.phone.specs.Host.{code, told, split_answer, split_lent};

use crate::split::{handed_out, split_any};
use listing::capture::{list, list_length};
use record::refusal::Refusal;

// One part, counted from 0, of the record that a notification of the kind holds, split at a payload: its octets, its length and the number
// of parts. Refusals, in this order: 11, 12, 30, 31, 32, 13, 15, 14. In C a slice is two arguments, a pointer and a length.
pub fn hordivasz_split(
    kind: u32,
    record: &[u8],
    payload: usize,
    part: usize,
    out: &mut [u8],
    out_length: &mut usize,
    out_parts: &mut usize,
) -> u32
    ensures value { result ≡ code (split_answer kind «record».now payload part (length out.old)) }
    ensures out_after { out.new ≡ split_lent kind «record».now payload part out.old }
    ensures out_length_after { out_length.new ≡ told (split_answer kind «record».now payload part (length out.old)) (λ e. e.length) out_length.old }
    ensures out_parts_after { out_parts.new ≡ told (split_answer kind «record».now payload part (length out.old)) (λ e. e.parts) out_parts.old }
{
    let answer = split_any(kind, record, payload, part, out);
    handed_out(answer, out_length, out_parts)
}

// Stores the length of a listing through the pointer, and gives C the number of the answer, 0 for no refusal; on refusal 14 leaves what was
// there.
fn listed(answer: Result<usize, Refusal>, out_length: &mut usize) -> u32
    ensures value { result ≡ code (meant answer) }
    ensures out_length_after { out_length.new ≡ told (meant answer) (λ n. n) out_length.old }
{
    match answer {
        Ok(n) => {
            *out_length = n;
            0
        }
        Err(why) => why.number() as u32,
    }
}

// The listing of a capture, and its length: refusal 14 if it does not fit.
pub fn hordivasz_list(capture: &[u8], out: &mut [u8], out_length: &mut usize) -> u32
    ensures value { result ≡ code (answer_of (listing capture.now) (length out.old)) }
    ensures out_after { out.new ≡ lent_after (listing capture.now) out.old }
    ensures out_length_after { out_length.new ≡ told (answer_of (listing capture.now) (length out.old)) (λ n. n) out_length.old }
{
    listed(list(capture, out), out_length)
}

// How many octets the listing of a capture has: the length of the buffer to lend for it.
pub fn hordivasz_list_length(capture: &[u8]) -> usize
    ensures { result ≡ min (length (listing capture.now)) top }
{
    list_length(capture)
}
