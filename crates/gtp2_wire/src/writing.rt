//! Writing messages.

ghost use Rattle.std.specs.Prelude.{◌≡◌, ◌+◌, ◌^◌, ◌<◌, ◌≤◌, [], ◌∷◌, ◌++◌, true, IfOk, OnOk, length};
ghost use Rattle.tlv_elements.specs.Grammar.{rows_run};
ghost use Rattle.gtp2_ies.specs.Frame.{frame_run};
ghost use Rattle.gtp2_ies.specs.Values.{fteid, apn};
ghost use Rattle.gtp2_wire.specs.declared.gtp.GtpBody.TheVariants.{Create, Created, Modify, Modified};
ghost use Rattle.gtp2_wire.specs.Tables.{create_bearer, create_rest, created_bearer};
ghost use Rattle.gtp2_wire.specs.Written.{body_run, gtp_run, IsBody, IsGtp};

use crate::gtp::{Gtp, GtpBody};
use device_types::Octets;
use echo_base::OutOfMemory;
use gtp2_ies::{
    put_address, put_apn, put_cause, put_fteid, put_head, put_header, put_imsi, put_octet, put_qos,
    put_rates,
};
use std::alloc::Global;

/// The bearer context of a Create Session Request.
fn put_create_bearer(out: &mut Vec<u8>, ebi: u8) -> Result<(), OutOfMemory>
    ensures { OnOk result (out.new.items ≡ out.old.items ++ frame_run 93 0 (rows_run frame_run create_bearer (ebi, (tt, tt)))) }
{
    put_head(out, 93, 31)?;
    put_octet(out, 73, ebi)?;
    put_qos(out)
}

/// The second half of a Create Session Request.
fn put_create_rest(out: &mut Vec<u8>, ebi: u8, rates: (u32, u32)) -> Result<(), OutOfMemory>
    ensures { OnOk result (out.new.items ≡ out.old.items ++ rows_run frame_run create_rest (tt, (0, (rates, ((ebi, (tt, tt)), tt))))) }
{
    put_octet(out, 99, 1)?;
    put_address(out, 0)?;
    put_rates(out, rates.0, rates.1)?;
    put_create_bearer(out, ebi)
}

/// The F-TEID of the sender, the access point name and the second half of a Create Session Request.
fn put_create_sender(
    out: &mut Vec<u8>,
    ebi: u8,
    name: &[u8],
    sender: (u32, u32),
    rates: (u32, u32),
) -> Result<(), OutOfMemory>
    requires { length name.now ≤ 30 }
    ensures { OnOk result (out.new.items ≡ out.old.items ++ (frame_run 87 0 ((fteid 0x8a).run sender) ++ (frame_run 71 0 (apn.run name.now) ++ rows_run frame_run create_rest (tt, (0, (rates, ((ebi, (tt, tt)), tt))))))) }
{
    put_fteid(out, 0x8a, sender.0, sender.1)?;
    put_apn(out, name)?;
    put_create_rest(out, ebi, rates)
}

/// A Create Session Request of the sender with that TEID and address.
fn put_create(
    out: &mut Vec<u8>,
    imsi: u64,
    ebi: u8,
    name: &[u8],
    sender: (u32, u32),
    rates: (u32, u32),
) -> Result<(), OutOfMemory>
    requires imsi { imsi < 10 ^ 15 }
    requires name { length name.now ≤ 30 }
    ensures { OnOk result (out.new.items ≡ out.old.items ++ body_run (Create imsi ebi name.now rates.0 rates.1 sender.1 sender.0)) }
{
    put_imsi(out, imsi)?;
    put_octet(out, 82, 6)?;
    put_create_sender(out, ebi, name, sender, rates)
}

/// The bearer context of a Create Session Response.
fn put_created_bearer(out: &mut Vec<u8>, ebi: u8, tunnel: (u32, u32)) -> Result<(), OutOfMemory>
    ensures { OnOk result (out.new.items ≡ out.old.items ++ frame_run 93 0 (rows_run frame_run (created_bearer true) (ebi, (16, (tunnel, tt))))) }
{
    put_head(out, 93, 24)?;
    put_octet(out, 73, ebi)?;
    put_cause(out, 16)?;
    put_fteid(out, 0x81, tunnel.0, tunnel.1)
}

/// A Create Session Response of the sender and for the tunnel with those TEIDs and addresses.
fn put_created(
    out: &mut Vec<u8>,
    sender: (u32, u32),
    ip: u32,
    ebi: u8,
    tunnel: (u32, u32),
) -> Result<(), OutOfMemory>
    ensures { OnOk result (out.new.items ≡ out.old.items ++ body_run (Created sender.1 sender.0 ip ebi tunnel.1 tunnel.0)) }
{
    put_cause(out, 16)?;
    put_fteid(out, 0x8b, sender.0, sender.1)?;
    put_address(out, ip)?;
    put_created_bearer(out, ebi, tunnel)
}

/// A Modify Bearer Request for the tunnel with that TEID and address.
fn put_modify(out: &mut Vec<u8>, ebi: u8, tunnel: (u32, u32)) -> Result<(), OutOfMemory>
    ensures { OnOk result (out.new.items ≡ out.old.items ++ body_run (Modify ebi tunnel.1 tunnel.0)) }
{
    put_head(out, 93, 18)?;
    put_octet(out, 73, ebi)?;
    put_fteid(out, 0x80, tunnel.0, tunnel.1)
}

/// A Modify Bearer Response.
fn put_modified(out: &mut Vec<u8>, ebi: u8) -> Result<(), OutOfMemory>
    ensures { OnOk result (out.new.items ≡ out.old.items ++ body_run (Modified ebi)) }
{
    put_cause(out, 16)?;
    put_head(out, 93, 11)?;
    put_octet(out, 73, ebi)?;
    put_cause(out, 16)
}

/// The elements of a message.
fn put_body(out: &mut Vec<u8>, body: &GtpBody) -> Result<(), OutOfMemory>
    requires { IsBody body.now }
    ensures { OnOk result (out.new.items ≡ out.old.items ++ body_run body.now) }
{
    match body {
        GtpBody::Create {
            imsi,
            ebi,
            apn,
            ul,
            dl,
            addr,
            control,
        } => put_create(out, *imsi, *ebi, apn.items(), (*control, *addr), (*ul, *dl)),
        GtpBody::Created {
            control_addr,
            control,
            ip,
            ebi,
            addr,
            teid,
        } => put_created(out, (*control, *control_addr), *ip, *ebi, (*teid, *addr)),
        GtpBody::Modify { ebi, addr, teid } => put_modify(out, *ebi, (*teid, *addr)),
        GtpBody::Modified { ebi } => put_modified(out, *ebi),
        GtpBody::Delete { ebi } => put_octet(out, 73, *ebi),
        GtpBody::Deleted | GtpBody::Released => put_cause(out, 16),
        GtpBody::Release => Ok(()),
        GtpBody::Rejected { cause, .. } => put_cause(out, *cause),
    }
}

/// How many octets an access point name has.
fn name_length(name: &Octets) -> u16
    requires { length name.now ≤ 30 }
    ensures { result ≡ length name.now }
{
    name.items().len() as u16
}

/// How many octets the elements of a message have.
fn body_length(body: &GtpBody) -> u16
    requires { IsBody body.now }
    ensures count { result ≡ length (body_run body.now) }
    ensures most { result ≤ 126 }
{
    match body {
        GtpBody::Create { apn, .. } => 96 + name_length(apn),
        GtpBody::Created { .. } => 56,
        GtpBody::Modify { .. } => 22,
        GtpBody::Modified { .. } => 21,
        GtpBody::Delete { .. } => 5,
        GtpBody::Release => 0,
        GtpBody::Deleted | GtpBody::Released | GtpBody::Rejected { .. } => 6,
    }
}

/// Writes a message in its one form.
pub fn write_gtp(alloc: Global, g: &Gtp) -> Result<Octets, OutOfMemory>
    requires { IsGtp g.now }
    ensures written { IfOk result (λ octets. octets ≡ gtp_run g.now) }
{
    let count = body_length(&g.body);
    let mut out = Vec::with_capacity(alloc, 12 + usize::from(count))?;
    put_header(&mut out, g.body.message_type(), count, g.teid, g.seq)?;
    put_body(&mut out, &g.body)?;
    Ok(Octets::from(out))
}
