//! Messages as they are written, with one E-RAB in a list: read and written octet by octet. Any other goes piece by piece.

ghost use Rattle.std.specs.Prelude.{◌≡◌, ◌<◌, ◌∷◌, All, IfOk, IfSome, Ok, length};
ghost use Rattle.s1ap_pdu.specs.Built.{message_at};
ghost use Rattle.s1ap_pdu.specs.Run.{written, IsRight};
ghost use Rattle.aper_octets.specs.Octets.{counted};
ghost use Rattle.s1ap_messages.specs.Usual.{unfinished_octets, usual_octets, IsPut, IsUsual};

mod bearers;
mod fields;
mod kinds;
mod put_kinds;
mod strings;
mod values;

use crate::usual::kinds::{fields, kind_of_header};
use crate::usual::put_kinds::{is_put, put};
use aper_octets::{counted, finish, three};
use device_types::Octets;
use s1ap_pdu::Pdu;
use std::alloc::{AllocError, Global};

/// The header of a message, the count of its IEs, and the IEs.
#[inline(always)]
fn parts(octets: &[u8]) -> Option<(u8, u8, u8, u8, &[u8])>
    ensures octets { IfSome result (λ x. octets.now ≡ x.0 ∷ x.1 ∷ x.2 ∷ counted (0 ∷ 0 ∷ x.3 ∷ x.4.now)) }
    ensures few { IfSome result (λ x. length (0 ∷ 0 ∷ x.3 ∷ x.4.now) < 16384) }
{
    let (outcome, code, criticality, rest) = three(octets)?;
    let (body, rest) = counted(rest)?;
    let (first, high, count, ies) = three(body)?;
    if first != 0 || high != 0 || !rest.is_empty() {
        return None;
    }
    Some((outcome, code, criticality, count, ies))
}

/// The message that the octets are, where they are found to be its usual form.
#[inline(always)]
fn find_usual(alloc: Global, octets: &[u8]) -> Option<Pdu>
    ensures { IfSome result (λ p. (octets.now ≡ usual_octets p) × IsUsual p) }
{
    let (outcome, code, criticality, count, ies) = parts(octets)?;
    let kind = kind_of_header(outcome, code, criticality)?;
    fields(alloc, kind, ies, count)
}

/// Reads the message that all of the octets are the short way, octet by octet: what `read_pdu` answers, where they are those that are written
/// for it, its lists have one E-RAB and its cause is a root of its group. None says nothing of the octets: it comes for any others, and for
/// want of memory.
pub fn read_usual(alloc: Global, octets: &[u8]) -> Option<Pdu>
    ensures { IfSome result (λ p. message_at octets.now ≡ Ok p) }
{
    find_usual(alloc, octets)
}

/// Does nothing: it tells a proof that each octet is below 256.
fn recall(octets: &Octets)
    ensures { All (λ octet. octet < 256) octets.now }
{
    octets.octets();
}

/// Room for a message whose strings are short.
const ROOM: usize = 160;

/// The octets of a message, without the length of its body.
fn unfinished(alloc: Global, p: &Pdu) -> Result<Vec<u8>, AllocError>
    requires right { IsRight p.now }
    requires put { IsPut p.now }
    ensures { IfOk result (λ out. out.items ≡ unfinished_octets p.now) }
{
    let mut out = Vec::with_capacity(alloc, ROOM)?;
    put(&mut out, p)?;
    Ok(out)
}

/// Writes a message the short way, octet by octet: what `write_pdu` writes, where its lists have one E-RAB, its radio capability at most
/// 16,000 octets, and it is no failure and no release command by one identity. None comes for any other. It fails for want of memory alone.
#[tactic(auto, using(crate::proofs::UsualForm::finished_is_written))]
pub fn write_usual(alloc: Global, p: &Pdu) -> Result<Option<Octets>, AllocError>
    requires { IsRight p.now }
    ensures { IfOk result (λ found. IfSome found (λ octets. octets ≡ written p.now)) }
{
    if !is_put(p) {
        return Ok(None);
    }
    let Some(octets) = finish(unfinished(alloc, p)?)? else {
        return Ok(None);
    };
    recall(&octets);
    Ok(Some(octets))
}
