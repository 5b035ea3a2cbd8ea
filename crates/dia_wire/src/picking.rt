//! What messages say, picked out of octets that are known to be right.

ghost use Rattle.std.specs.Prelude.{◌≡◌, ◌^◌, ◌<◌, ◌≤◌, false, IfSome, option_map, length};
ghost use Rattle.dia_avps.specs.Finding.{result_at, succeeded};
ghost use Rattle.dia_wire.specs.Shapes.{session_at, imsi_at, plmn_at, sized_at, pick_ask_vectors, pick_ask_location, pick_ask_purge, pick_vectors, pick_located, pick_purged, pick_rejected};
ghost use Rattle.dia_wire.specs.Commands.{code_of};
ghost use Rattle.dia_wire.specs.Written.{IsSession, IsSaid};

use crate::dia::DiaBody;
use crate::kind::{Command, code_of};
use crate::said::{PlainParts, VectorsParts};
use dia_avps::{TGPP, first_result, found, found_unsigned};

/// The session.
fn session<'a>(end: u64, octets: &'a [u8]) -> Option<&'a [u8]>
    ensures value { option_map (λ session. session.now) result ≡ session_at end octets.now }
    ensures range { IfSome result (λ session. IsSession session.now) }
{
    let avp = found(263, 0, end, octets)?;
    dia_avps::session(avp.value)
}

/// The IMSI.
fn imsi(end: u64, octets: &[u8]) -> Option<u64>
    ensures value { result ≡ imsi_at end octets.now }
    ensures range { IfSome result (λ imsi. imsi < 10 ^ 15) }
{
    let avp = found(1, 0, end, octets)?;
    dia_avps::imsi(avp.value)
}

/// The network that the device visits.
fn plmn(end: u64, octets: &[u8]) -> Option<u32>
    ensures value { result ≡ plmn_at end octets.now }
    ensures range { IfSome result (λ plmn. plmn < 2 ^ 24) }
{
    let avp = found(1407, TGPP, end, octets)?;
    dia_avps::plmn(avp.value)
}

/// The first result, of an answer that does not succeed.
#[tactic(auto, using(crate::proofs::KindLaws::not_2001))]
fn other_result(end: u64, octets: &[u8]) -> Option<u32>
    requires { succeeded end octets.now ≡ false }
    ensures value { result ≡ result_at end octets.now }
    ensures other { IfSome result (λ r. r ≡ 2001 → ⊥) }
{
    first_result(end, octets)
}

/// The octets of that code of 3GPP, from so many to so many.
fn sized<'a>(code: u32, least: usize, most: usize, end: u64, octets: &'a [u8]) -> Option<&'a [u8]>
    ensures value { option_map (λ octets. octets.now) result ≡ sized_at code least most end octets.now }
    ensures range { IfSome result (λ octets. (least ≤ length octets.now) × (length octets.now ≤ most)) }
{
    let avp = found(code, TGPP, end, octets)?;
    dia_avps::sized(avp.value, least, most)
}

/// What an Authentication-Information-Request says.
pub fn pick_ask_vectors<'a>(end: u64, octets: &'a [u8]) -> Option<PlainParts<'a>>
    ensures picked { result ≡ pick_ask_vectors end octets.now }
    ensures written { IfSome result IsSaid }
{
    let session = session(end, octets)?;
    let imsi = imsi(end, octets)?;
    let plmn = plmn(end, octets)?;
    Some(PlainParts {
        session,
        body: DiaBody::AskVectors { imsi, plmn },
    })
}

/// What an Update-Location-Request says.
pub fn pick_ask_location<'a>(end: u64, octets: &'a [u8]) -> Option<PlainParts<'a>>
    ensures picked { result ≡ pick_ask_location end octets.now }
    ensures written { IfSome result IsSaid }
{
    let session = session(end, octets)?;
    let imsi = imsi(end, octets)?;
    let plmn = plmn(end, octets)?;
    Some(PlainParts {
        session,
        body: DiaBody::AskLocation { imsi, plmn },
    })
}

/// What a Purge-UE-Request says.
pub fn pick_ask_purge<'a>(end: u64, octets: &'a [u8]) -> Option<PlainParts<'a>>
    ensures picked { result ≡ pick_ask_purge end octets.now }
    ensures written { IfSome result IsSaid }
{
    let session = session(end, octets)?;
    let imsi = imsi(end, octets)?;
    Some(PlainParts {
        session,
        body: DiaBody::AskPurge { imsi },
    })
}

/// What an Authentication-Information-Answer says.
pub fn pick_vectors<'a>(end: u64, octets: &'a [u8]) -> Option<VectorsParts<'a>>
    ensures picked { result ≡ pick_vectors end octets.now }
    ensures written { IfSome result IsSaid }
{
    let session = session(end, octets)?;
    let info = found(1413, TGPP, end, octets)?;
    let vector = found(1414, TGPP, info.stop, info.value)?;
    let rand = sized(1447, 16, 16, vector.stop, vector.value)?;
    let xres = sized(1448, 4, 16, vector.stop, vector.value)?;
    let autn = sized(1449, 16, 16, vector.stop, vector.value)?;
    let key = sized(1450, 32, 32, vector.stop, vector.value)?;
    Some(VectorsParts {
        session,
        rand,
        xres,
        autn,
        key,
    })
}

/// What an Update-Location-Answer says.
pub fn pick_located<'a>(end: u64, octets: &'a [u8]) -> Option<PlainParts<'a>>
    ensures picked { result ≡ pick_located end octets.now }
    ensures written { IfSome result IsSaid }
{
    let session = session(end, octets)?;
    let subscription = found(1400, TGPP, end, octets)?;
    let ambr = found(1435, TGPP, subscription.stop, subscription.value)?;
    let ul = found_unsigned(516, TGPP, ambr.stop, ambr.value)?;
    let dl = found_unsigned(515, TGPP, ambr.stop, ambr.value)?;
    Some(PlainParts {
        session,
        body: DiaBody::Located { dl, ul },
    })
}

/// What a Purge-UE-Answer says.
pub fn pick_purged<'a>(end: u64, octets: &'a [u8]) -> Option<PlainParts<'a>>
    ensures picked { result ≡ pick_purged end octets.now }
    ensures written { IfSome result IsSaid }
{
    let session = session(end, octets)?;
    Some(PlainParts {
        session,
        body: DiaBody::Purged,
    })
}

/// What an answer says that does not succeed.
pub fn pick_rejected<'a>(command: Command, end: u64, octets: &'a [u8]) -> Option<PlainParts<'a>>
    requires { succeeded end octets.now ≡ false }
    ensures picked { result ≡ pick_rejected (code_of command) end octets.now }
    ensures written { IfSome result IsSaid }
{
    let session = session(end, octets)?;
    let result = other_result(end, octets)?;
    Some(PlainParts {
        session,
        body: DiaBody::Rejected {
            command: code_of(command),
            result,
        },
    })
}
