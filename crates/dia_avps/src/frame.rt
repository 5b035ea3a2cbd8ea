//! The frame of an AVP.

ghost use Rattle.std.specs.Prelude.{◌≡◌, ◌<◌, ◌≤◌};
ghost use Rattle.echo_base.specs.Reading.{GivesOrEnds};
ghost use Rattle.dia_avps.specs.Frame.{padding, head_size, mark_at, body_at, frame_at, dia};

use echo_base::{Reason, Refusal};
use tlv_elements::{Found, Framing, Left, truncated};

/// The mark of the AVPs of 3GPP, whose vendor is 10415: one more than that. An AVP without a vendor has the mark 0.
pub const TGPP: u64 = 10416;

/// The vendor of an AVP, as its mark, where the flags say that there is one.
#[tactic(auto, unfolding(crate::specs::Frame::mark_at))]
fn read_mark(left: &mut Left, flags: u8, short: Refusal) -> Result<u64, Refusal>
    ensures { GivesOrEnds result left.new (mark_at flags short left.old) }
{
    if flags < 128 {
        return Ok(0);
    }
    let vendor = left.u32(short)?;
    Ok(u64::from(vendor) + 1)
}

/// How many octets the head has.
fn head_size(flags: u8) -> u32
    ensures { result ≡ head_size flags }
{
    if flags < 128 {
        return 8;
    }
    12
}

/// How many octets fill up so many to a multiple of four.
pub(crate) fn padding(size: u32) -> u32
    ensures value { result ≡ padding size }
    ensures range { result < 4 }
{
    (4 - size % 4) % 4
}

/// Reads what is behind the length of an AVP at that place: a vendor where the flags say so, the value, and the padding.
#[tactic(auto, unfolding(crate::specs::Frame::body_at))]
fn read_body<'a>(
    end: u64,
    place: u64,
    tag: u32,
    flags: u8,
    size: u32,
    left: &mut Left<'a>,
) -> Result<Found<'a>, Refusal>
    requires { head_size flags ≤ size }
    ensures { GivesOrEnds result left.new (body_at end place tag flags size left.old) }
{
    let short = truncated(place);
    let mark = read_mark(left, flags, short)?;
    let value = left.octets(short, (size - head_size(flags)) as usize)?;
    let stop = left.here(end);
    left.octets(short, padding(size) as usize)?;
    Ok(Found {
        tag,
        mark,
        place,
        stop,
        value,
    })
}

/// Reads the frame of an AVP (RFC 6733, 4.1) in front of octets that end at that place: its code, flags, a length that counts all but
/// the padding, and a vendor where the flags say so. One that is not whole, padding too, is Truncated at its first octet, and one whose
/// length is below its head is a DiaAvp with its code there.
#[tactic(auto, unfolding(crate::specs::Frame::frame_at))]
fn read_frame<'a>(end: u64, left: &mut Left<'a>) -> Result<Found<'a>, Refusal>
    ensures { GivesOrEnds result left.new (frame_at end left.old) }
{
    let place = left.here(end);
    let short = truncated(place);
    let tag = left.u32(short)?;
    let flags = left.octet(short)?;
    let size = left.u24(short)?;
    left.room(
        short,
        (size as usize + padding(size) as usize).saturating_sub(8),
    )?;
    if size < head_size(flags) {
        return Err(Refusal {
            reason: Reason::DiaAvp(tag),
            place,
        });
    }
    read_body(end, place, tag, flags, size, left)
}

/// The AVPs of Diameter: how they are framed, and why they are refused.
pub struct Avps;

impl Framing for Avps {
    ghost protocol = { dia };

    fn frame<'a>(end: u64, left: &mut Left<'a>) -> Result<Found<'a>, Refusal> {
        read_frame(end, left)
    }

    fn wrong(tag: u32) -> Reason {
        Reason::DiaAvp(tag)
    }

    fn repeated(tag: u32) -> Reason {
        Reason::RepeatedAvp(tag)
    }

    fn missing(tag: u32) -> Reason {
        Reason::MissingAvp(tag)
    }

    fn takes_empty() -> bool {
        true
    }
}
