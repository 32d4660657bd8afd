// The calls of a C host, under the names that C knows: each calls the function of `phone`, and states its clauses again.
#![tactic(auto)]

ghost use Rattle.std.specs.Prelude.{◌≡◌, min, length};
ghost use Rattle.text.specs.Text.{top};
ghost use Rattle.listing.specs.Listing.{listing, answer_of, lent_after};
ghost use Rattle.phone.specs.Host.{code, told, split_answer, split_lent};

// One part, counted from 0, of the record that a notification of the kind holds, split at a payload: its octets, its length and the number
// of parts. Refusals, in this order: 11, 12, 30, 31, 32, 13, 15, 14. In C a slice is two arguments, a pointer and a length.
#[unsafe(no_mangle)]
pub extern "C" fn hordivasz_split(
    kind: u32,
    record: &[u8],
    payload: usize,
    part: usize,
    out: &mut [u8],
    out_length: &mut usize,
    out_parts: &mut usize,
) -> u32
    ensures value { result ≡ code (split_answer kind «record».now payload part (length out.old)) }
    ensures out_after { out.new ≡ split_lent kind «record».now payload part out.old }
    ensures out_length_after { out_length.new ≡ told (split_answer kind «record».now payload part (length out.old)) (λ e. e.length) out_length.old }
    ensures out_parts_after { out_parts.new ≡ told (split_answer kind «record».now payload part (length out.old)) (λ e. e.parts) out_parts.old }
{
    phone::hordivasz_split(kind, record, payload, part, out, out_length, out_parts)
}

// The listing of a capture, and its length: refusal 14 if it does not fit.
#[unsafe(no_mangle)]
pub extern "C" fn hordivasz_list(capture: &[u8], out: &mut [u8], out_length: &mut usize) -> u32
    ensures value { result ≡ code (answer_of (listing capture.now) (length out.old)) }
    ensures out_after { out.new ≡ lent_after (listing capture.now) out.old }
    ensures out_length_after { out_length.new ≡ told (answer_of (listing capture.now) (length out.old)) (λ n. n) out_length.old }
{
    phone::hordivasz_list(capture, out, out_length)
}

// How many octets the listing of a capture has: the length of the buffer to lend for it.
#[unsafe(no_mangle)]
pub extern "C" fn hordivasz_list_length(capture: &[u8]) -> usize
    ensures { result ≡ min (length (listing capture.now)) top }
{
    phone::hordivasz_list_length(capture)
}
