//! Writing whole messages.

ghost use Rattle.std.specs.Prelude.{◌≡◌, ◌^◌, ◌<◌, ◌≤◌, ◌∷◌, ◌++◌, length, IfOk, OnOk};
ghost use Rattle.std.specs.Int.{w32, to_be_bytes};
ghost use Rattle.echo_base.specs.Field.{counted_run, long_counted_run};
ghost use Rattle.device_types.specs.Nas.{IsNasOut};
ghost use Rattle.nas_kinds.specs.Written.{area, activate_request, nas_written};
ghost use Rattle.device_types.specs.declared.nas_out.NasOut.TheVariants.{AuthRequest, AttachAccept, Activate};

use device_types::{NasOut, Octets};
use echo_base::OutOfMemory;
use std::alloc::Global;

/// Octets in memory of their own.
fn owned(alloc: Global, octets: &[u8]) -> Result<Octets, OutOfMemory>
    ensures { IfOk result (λ own. own ≡ octets.now) }
{
    Ok(Octets::from(Vec::from_slice(alloc, octets)?))
}

/// Appends octets behind their count in one octet (format LV).
fn put_counted(out: &mut Vec<u8>, octets: &[u8]) -> Result<(), OutOfMemory>
    requires { length octets.now < 256 }
    ensures { OnOk result (out.new.items ≡ out.old.items ++ counted_run octets.now) }
{
    out.push(octets.len() as u8)?;
    out.extend_from_slice(octets)
}

/// Appends octets behind their count in two octets (format LV-E).
fn put_long_counted(out: &mut Vec<u8>, octets: &[u8]) -> Result<(), OutOfMemory>
    requires { length octets.now < 2 ^ 16 }
    ensures { OnOk result (out.new.items ≡ out.old.items ++ long_counted_run octets.now) }
{
    let count = octets.len() as u16;
    out.extend_from_slice(&count.to_be_bytes())?;
    out.extend_from_slice(octets)
}

/// The PLMN identity and the tracking area code.
fn area_octets(plmn: u32, tac: u16) -> [u8; 5]
    ensures { result ≡ area plmn tac }
{
    let [_, first, second, third] = plmn.to_be_bytes();
    let [high, low] = tac.to_be_bytes();
    [first, second, third, high, low]
}

/// AUTHENTICATION REQUEST (8.2.7).
#[tactic(auto, unfolding(crate::specs::Written::nas_written))]
fn write_auth_request(alloc: Global, rand: &Octets, autn: &Octets) -> Result<Octets, OutOfMemory>
    requires { length autn.now ≡ 16 }
    ensures { IfOk result (λ octets. octets ≡ nas_written (AuthRequest rand.now autn.now)) }
{
    let mut out = Vec::new(alloc);
    out.extend_from_slice(&[0x07, 0x52, 0x00])?;
    out.extend_from_slice(rand.items())?;
    put_counted(&mut out, autn.items())?;
    Ok(Octets::from(out))
}

/// ACTIVATE DEFAULT EPS BEARER CONTEXT REQUEST (8.3.6), by its first octet, which has the EPS bearer identity.
fn write_activate_request(
    alloc: Global,
    first: u8,
    pti: u8,
    apn: &Octets,
    ip: u32,
) -> Result<Vec<u8>, OutOfMemory>
    requires { length apn.now ≤ 30 }
    ensures { IfOk result (λ octets. octets.items ≡ activate_request first pti apn.now ip) }
{
    let mut label = Vec::new(alloc);
    put_counted(&mut label, apn.items())?;
    let [a, b, c, d] = ip.to_be_bytes();
    let mut out = Vec::new(alloc);
    out.extend_from_slice(&[first, pti, 0xc1, 1, 9])?;
    put_counted(&mut out, &label)?;
    put_counted(&mut out, &[1, a, b, c, d])?;
    Ok(out)
}

/// ATTACH ACCEPT (8.2.1).
#[tactic(auto, unfolding(crate::specs::Written::nas_written))]
fn write_attach_accept(
    alloc: Global,
    plmn: u32,
    tac: u16,
    pti: u8,
    apn: &Octets,
    ip: u32,
) -> Result<Octets, OutOfMemory>
    requires { length apn.now ≤ 30 }
    ensures { IfOk result (λ octets. octets ≡ nas_written (AttachAccept plmn tac pti apn.now ip)) }
{
    let request = write_activate_request(alloc, 0x52, pti, apn, ip)?;
    let mut out = Vec::new(alloc);
    out.extend_from_slice(&[0x07, 0x42, 0x01, 0xe0, 6, 0x00])?;
    out.extend_from_slice(&area_octets(plmn, tac))?;
    put_long_counted(&mut out, &request)?;
    Ok(Octets::from(out))
}

/// ACTIVATE DEFAULT EPS BEARER CONTEXT REQUEST for EPS bearer identity 6.
#[tactic(auto, unfolding(crate::specs::Written::nas_written))]
fn write_activate(alloc: Global, pti: u8, apn: &Octets, ip: u32) -> Result<Octets, OutOfMemory>
    requires { length apn.now ≤ 30 }
    ensures { IfOk result (λ octets. octets ≡ nas_written (Activate pti apn.now ip)) }
{
    Ok(Octets::from(write_activate_request(alloc, 0x62, pti, apn, ip)?))
}

/// Writes the message, with fixed values in the fields that it does not name. It has at most 56 octets.
#[tactic(auto, using(crate::proofs::Lengths::length_written), unfolding(crate::specs::Written::nas_written))]
pub fn write_nas(alloc: Global, message: &NasOut) -> Result<Octets, OutOfMemory>
    requires { IsNasOut message.now }
    ensures written { IfOk result (λ octets. octets ≡ nas_written message.now) }
    ensures short { IfOk result (λ octets. length octets ≤ 56) }
{
    match message {
        NasOut::AuthRequest { rand, autn } => write_auth_request(alloc, rand, autn),
        NasOut::AuthReject => owned(alloc, &[0x07, 0x54]),
        NasOut::SecurityCommand { eea, eia } => {
            owned(alloc, &[0x07, 0x5d, 0x00, 0x00, 2, *eea, *eia])
        }
        NasOut::AttachAccept {
            plmn,
            tac,
            pti,
            apn,
            ip,
        } => write_attach_accept(alloc, *plmn, *tac, *pti, apn, *ip),
        NasOut::AttachReject { cause } => owned(alloc, &[0x07, 0x44, *cause]),
        NasOut::ServiceReject { cause } => owned(alloc, &[0x07, 0x4e, *cause]),
        NasOut::AreaReject { cause } => owned(alloc, &[0x07, 0x4b, *cause]),
        NasOut::AreaAccept => owned(alloc, &[0x07, 0x49, 0x00]),
        NasOut::DetachAccept => owned(alloc, &[0x07, 0x46]),
        NasOut::PdnReject { pti, cause } => owned(alloc, &[0x02, *pti, 0xd1, *cause]),
        NasOut::Activate { pti, apn, ip } => write_activate(alloc, *pti, apn, *ip),
    }
}
