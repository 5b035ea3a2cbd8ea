//! The frame of an information element.

ghost use Rattle.echo_base.specs.Reading.{GivesOrEnds};
ghost use Rattle.gtp2_ies.specs.Frame.{frame_at, gtp};

use echo_base::{Reason, Refusal};
use tlv_elements::{Found, Framing, Left, truncated};

/// Reads the frame of an element (3GPP TS 29.274, 8.2.1) in front of octets that end at that place: its type, the length of its
/// value, and an octet whose low half is its instance. One that is not whole is Truncated at its first octet.
#[tactic(auto, unfolding(crate::specs::Frame::frame_at))]
fn read_frame<'a>(end: u64, left: &mut Left<'a>) -> Result<Found<'a>, Refusal>
    ensures { GivesOrEnds result left.new (frame_at end left.old) }
{
    let place = left.here(end);
    let short = truncated(place);
    let tag = left.octet(short)?;
    let size = left.u16(short)?;
    let instance = left.octet(short)?;
    let value = left.octets(short, usize::from(size))?;
    let stop = left.here(end);
    Ok(Found {
        tag: u32::from(tag),
        mark: u64::from(instance % 16),
        place,
        stop,
        value,
    })
}

/// The information elements of GTPv2-C: how they are framed, and why they are refused.
pub struct Ies;

impl Framing for Ies {
    ghost protocol = { gtp };

    fn frame<'a>(end: u64, left: &mut Left<'a>) -> Result<Found<'a>, Refusal> {
        read_frame(end, left)
    }

    fn wrong(tag: u32) -> Reason {
        Reason::GtpValue((tag % 256) as u8)
    }

    fn repeated(tag: u32) -> Reason {
        Reason::RepeatedIe((tag % 65536) as u16)
    }

    fn missing(tag: u32) -> Reason {
        Reason::MissingIe((tag % 65536) as u16)
    }

    fn takes_empty() -> bool {
        false
    }
}
