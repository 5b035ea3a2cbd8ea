//! What messages say, picked out of octets that are known to be right.

ghost use Rattle.std.specs.Prelude.{◌≡◌, IfSome};
ghost use Rattle.gtp2_wire.specs.Shapes.{ebi_at, fteid_at, pick_create, pick_created, pick_modify, pick_modified, pick_delete};
ghost use Rattle.gtp2_wire.specs.Written.{IsBearer, IsBody};

use crate::gtp::GtpBody;
use crate::parts::CreateParts;
use gtp2_ies::found;

/// The bearer.
fn ebi(end: u64, octets: &[u8]) -> Option<u8>
    ensures value { result ≡ ebi_at end octets.now }
    ensures range { IfSome result IsBearer }
{
    let id = found(73, end, octets)?;
    gtp2_ies::ebi(id.value)
}

/// The TEID and the address of the tunnel at that interface.
fn fteid(whose: u8, end: u64, octets: &[u8]) -> Option<(u32, u32)>
    ensures { result ≡ fteid_at whose end octets.now }
{
    let tunnel = found(87, end, octets)?;
    gtp2_ies::fteid(tunnel.value, whose)
}

/// What a Create Session Request says.
pub fn pick_create<'a>(end: u64, octets: &'a [u8]) -> Option<CreateParts<'a>>
    ensures picked { result ≡ pick_create end octets.now }
    ensures written { IfSome result IsBody }
{
    let subscriber = found(1, end, octets)?;
    let imsi = gtp2_ies::imsi(subscriber.value)?;
    let (control, addr) = fteid(0x8a, end, octets)?;
    let name = found(71, end, octets)?;
    let apn = gtp2_ies::apn(name.value)?;
    let rates = found(72, end, octets)?;
    let (ul, dl) = gtp2_ies::rates(rates.value)?;
    let bearer = found(93, end, octets)?;
    let ebi = ebi(bearer.stop, bearer.value)?;
    Some(CreateParts {
        imsi,
        ebi,
        apn,
        ul,
        dl,
        addr,
        control,
    })
}

/// What a Create Session Response says.
pub fn pick_created(end: u64, octets: &[u8]) -> Option<GtpBody>
    ensures picked { result ≡ pick_created end octets.now }
    ensures written { IfSome result IsBody }
{
    let (control, control_addr) = fteid(0x8b, end, octets)?;
    let allocation = found(79, end, octets)?;
    let ip = gtp2_ies::address(allocation.value)?;
    let bearer = found(93, end, octets)?;
    let ebi = ebi(bearer.stop, bearer.value)?;
    let (teid, addr) = fteid(0x81, bearer.stop, bearer.value)?;
    Some(GtpBody::Created {
        control_addr,
        control,
        ip,
        ebi,
        addr,
        teid,
    })
}

/// What a Modify Bearer Request says.
pub fn pick_modify(end: u64, octets: &[u8]) -> Option<GtpBody>
    ensures picked { result ≡ pick_modify end octets.now }
    ensures written { IfSome result IsBody }
{
    let bearer = found(93, end, octets)?;
    let ebi = ebi(bearer.stop, bearer.value)?;
    let (teid, addr) = fteid(0x80, bearer.stop, bearer.value)?;
    Some(GtpBody::Modify { ebi, addr, teid })
}

/// What a Modify Bearer Response says.
pub fn pick_modified(end: u64, octets: &[u8]) -> Option<GtpBody>
    ensures picked { result ≡ pick_modified end octets.now }
    ensures written { IfSome result IsBody }
{
    let bearer = found(93, end, octets)?;
    let ebi = ebi(bearer.stop, bearer.value)?;
    Some(GtpBody::Modified { ebi })
}

/// What a Delete Session Request says.
pub fn pick_delete(end: u64, octets: &[u8]) -> Option<GtpBody>
    ensures picked { result ≡ pick_delete end octets.now }
    ensures written { IfSome result IsBody }
{
    let ebi = ebi(end, octets)?;
    Some(GtpBody::Delete { ebi })
}
