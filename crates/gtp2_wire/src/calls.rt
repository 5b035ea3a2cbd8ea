//! The calls of a row and their answers as messages.

ghost use Rattle.std.specs.Prelude.{◌≡◌, ◌/◌, ◌^◌, ◌<◌, ◌≤◌, IfOk};
ghost use Rattle.device_types.specs.Subscriber.{IsSubscriber};
ghost use Rattle.device_types.specs.declared.effect.GwCall.TheVariants as calls;
ghost use Rattle.gtp2_wire.specs.declared.gtp.GtpBody.TheVariants as bodies;
ghost use Rattle.gtp2_wire.specs.Calls.{create_body, call_teid, call_body, call_message, HasName, answer_body, answer_message, IsGatewayAnswer};
ghost use Rattle.gtp2_wire.specs.Written.{IsBearer, IsName, IsBody, IsGtp};

use crate::gtp::{Gtp, GtpBody};
use device_types::{Answer, GwCall, Octets, Subscriber, TryCopy};
use echo_base::OutOfMemory;

/// The IPv4 address of the MME on S11.
const MME_ADDRESS: u32 = 0x0a00_0001;

/// A bit rate in kbit/s.
fn kilobits(rate: u64) -> u32
    requires { rate ≤ 10000000000 }
    ensures { result ≡ rate / 1000 }
{
    (rate / 1000) as u32
}

/// A Create Session Request for a bearer and an access point name.
fn create_body(row: &Subscriber, ebi: u8, apn: Octets) -> GtpBody
    requires row { IsSubscriber row.now }
    requires bearer { IsBearer ebi }
    requires name { IsName apn }
    ensures body { result ≡ create_body row.now ebi apn }
    ensures written { IsBody result }
{
    GtpBody::Create {
        imsi: row.imsi,
        ebi,
        apn,
        ul: kilobits(row.ambr_ul),
        dl: kilobits(row.ambr_dl),
        addr: MME_ADDRESS,
        control: row.number,
    }
}

/// A Create Session Request of the second connection.
fn second_body(row: &Subscriber) -> Result<GtpBody, OutOfMemory>
    requires row { IsSubscriber row.now }
    requires name { HasName row.now calls.SecondCreate }
    ensures body { IfOk result (λ body. body ≡ call_body row.now calls.SecondCreate) }
    ensures written { IfOk result IsBody }
{
    match &row.apn2 {
        Some(apn) => Ok(create_body(row, 6, apn.copy()?)),
        None => unreachable!(),
    }
}

/// What a call says.
fn call_body(row: &Subscriber, call: GwCall) -> Result<GtpBody, OutOfMemory>
    requires row { IsSubscriber row.now }
    requires name { HasName row.now call }
    ensures body { IfOk result (λ body. body ≡ call_body row.now call) }
    ensures written { IfOk result IsBody }
{
    match call {
        GwCall::Create => Ok(create_body(row, 5, row.apn.copy()?)),
        GwCall::Modify(addr, teid) => Ok(GtpBody::Modify { ebi: 5, addr, teid }),
        GwCall::Release => Ok(GtpBody::Release),
        GwCall::Delete => Ok(GtpBody::Delete { ebi: 5 }),
        GwCall::SecondCreate => second_body(row),
        GwCall::SecondModify(addr, teid) => Ok(GtpBody::Modify { ebi: 6, addr, teid }),
    }
}

/// The TEID of a call's receiver.
fn call_teid(row: &Subscriber, call: GwCall) -> u32
    ensures { result ≡ call_teid row.now call }
{
    match call {
        GwCall::Create => 0,
        GwCall::Modify(_, _)
        | GwCall::Release
        | GwCall::Delete
        | GwCall::SecondCreate
        | GwCall::SecondModify(_, _) => row.number,
    }
}

/// The call of that number as a message (3GPP TS 29.274, 7.2).
pub fn call_of(row: &Subscriber, k: u64, call: &GwCall) -> Result<Gtp, OutOfMemory>
    requires row { IsSubscriber row.now }
    requires number { k < 2 ^ 24 }
    requires name { HasName row.now call.now }
    ensures message { IfOk result (λ g. g ≡ call_message row.now k call.now) }
    ensures written { IfOk result IsGtp }
{
    let body = call_body(row, *call)?;
    Ok(Gtp {
        teid: call_teid(row, *call),
        seq: k as u32,
        body,
    })
}

/// A Create Session Response for a bearer, its tunnel and the device's address.
fn created_body(row: &Subscriber, ebi: u8, addr: u32, teid: u32, ip: u32) -> GtpBody
    requires { IsBearer ebi }
    ensures body { result ≡ bodies.Created row.now.sgw row.now.number ip ebi addr teid }
    ensures written { IsBody result }
{
    GtpBody::Created {
        control_addr: row.sgw,
        control: row.number,
        ip,
        ebi,
        addr,
        teid,
    }
}

/// What an answer says.
fn answer_body(row: &Subscriber, answer: &Answer) -> GtpBody
    requires { IsGatewayAnswer answer.now }
    ensures body { result ≡ answer_body row.now answer.now }
    ensures written { IsBody result }
{
    match answer {
        Answer::Created(sgw, teid, ip) => created_body(row, 5, *sgw, *teid, *ip),
        Answer::Modified => GtpBody::Modified { ebi: 5 },
        Answer::Freed => GtpBody::Released,
        Answer::Deleted => GtpBody::Deleted,
        Answer::SecondCreated(sgw, teid, ip) => created_body(row, 6, *sgw, *teid, *ip),
        Answer::SecondModified => GtpBody::Modified { ebi: 6 },
        Answer::Vectors(_, _, _, _) | Answer::Located(_, _) | Answer::Purged => unreachable!(),
    }
}

/// The gateway's answer to the call of that number as a message (TS 29.274, 7.2).
pub fn answer_of(row: &Subscriber, k: u64, answer: &Answer) -> Gtp
    requires number { k < 2 ^ 24 }
    requires gateway { IsGatewayAnswer answer.now }
    ensures message { result ≡ answer_message row.now k answer.now }
    ensures written { IsGtp result }
{
    Gtp {
        teid: row.number,
        seq: k as u32,
        body: answer_body(row, answer),
    }
}
