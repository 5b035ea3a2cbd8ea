//! The calls of a row and their answers as messages.

ghost use Rattle.std.specs.Prelude.{◌≡◌, ◌^◌, ◌<◌, ◌++◌, IfOk, OnOk, string_bytes};
ghost use Rattle.device_types.specs.Subscriber.{IsSubscriber};
ghost use Rattle.dia_wire.specs.Calls.{session_text, numbered, ask_body, ask_message, IsServerAnswer, rate_of, reply_body, reply_message};
ghost use Rattle.dia_wire.specs.Written.{IsSession, IsBody, IsDia};

use crate::dia::{Dia, DiaBody};
use crate::said::vectors;
use device_types::{Answer, Octets, SubCall, Subscriber};
use dia_avps::plmn_of;
use echo_base::OutOfMemory;
use std::alloc::Global;

/// Puts the session of a device's call of that number behind a text.
fn put_session(text: &mut String, device: u32, k: u64) -> Result<(), OutOfMemory>
    ensures { OnOk result (string_bytes text.new ≡ string_bytes text.old ++ session_text device k) }
{
    write!(text, "mme.echo;{device};{k}")
}

/// The Session-Id of the row's call of that number (RFC 6733, 8.8).
#[tactic(auto, using(crate::proofs::CallLaws::session_fits))]
fn session_of(alloc: Global, row: &Subscriber, k: u64) -> Result<Octets, OutOfMemory>
    requires number { k < 2 ^ 32 }
    ensures session { IfOk result (λ session. session ≡ session_text row.now.number k) }
    ensures written { IfOk result IsSession }
{
    let mut text = String::new(alloc);
    put_session(&mut text, row.number, k)?;
    Ok(Octets::from(text.into_bytes()))
}

/// A message to the row's call of that number, or its answer.
fn numbered(alloc: Global, row: &Subscriber, k: u64, body: DiaBody) -> Result<Dia, OutOfMemory>
    requires number { k < 2 ^ 32 }
    ensures message { IfOk result (λ d. d ≡ numbered row.now k body) }
    ensures session { IfOk result (λ d. IsSession d.session) }
{
    Ok(Dia {
        hop: k as u32,
        end: k as u32,
        session: session_of(alloc, row, k)?,
        body,
    })
}

/// What a call says.
fn ask_body(row: &Subscriber, call: SubCall) -> DiaBody
    requires { IsSubscriber row.now }
    ensures body { result ≡ ask_body row.now call }
    ensures written { IsBody result }
{
    let imsi = row.imsi;
    match call {
        SubCall::Vectors => DiaBody::AskVectors {
            imsi,
            plmn: plmn_of(imsi),
        },
        SubCall::Location => DiaBody::AskLocation {
            imsi,
            plmn: plmn_of(imsi),
        },
        SubCall::Purge => DiaBody::AskPurge { imsi },
    }
}

/// The call of that number as a message (3GPP TS 29.272, 7.2).
pub fn ask_of(alloc: Global, row: &Subscriber, k: u64, call: &SubCall) -> Result<Dia, OutOfMemory>
    requires row { IsSubscriber row.now }
    requires number { k < 2 ^ 32 }
    ensures message { IfOk result (λ d. d ≡ ask_message row.now k call.now) }
    ensures written { IfOk result IsDia }
{
    numbered(alloc, row, k, ask_body(row, *call))
}

/// A bit rate, or the most that four octets can say.
fn rate_of(rate: u64) -> u32
    ensures { result ≡ rate_of rate }
{
    rate.min(4_294_967_295) as u32
}

/// What an answer says.
fn reply_body(alloc: Global, answer: &Answer) -> Result<DiaBody, OutOfMemory>
    requires { IsServerAnswer answer.now }
    ensures body { IfOk result (λ body. body ≡ reply_body answer.now) }
    ensures written { IfOk result IsBody }
{
    match answer {
        Answer::Vectors(rand, autn, res, key) => vectors(
            alloc,
            rand.items(),
            res.items(),
            autn.items(),
            key.items(),
        ),
        Answer::Located(dl, ul) => Ok(DiaBody::Located {
            dl: rate_of(*dl),
            ul: rate_of(*ul),
        }),
        Answer::Purged => Ok(DiaBody::Purged),
        Answer::Created(_, _, _)
        | Answer::Modified
        | Answer::Freed
        | Answer::Deleted
        | Answer::SecondCreated(_, _, _)
        | Answer::SecondModified => unreachable!(),
    }
}

/// The subscriber server's answer to the call of that number as a message (TS 29.272, 7.2).
pub fn reply_of(
    alloc: Global,
    row: &Subscriber,
    k: u64,
    answer: &Answer,
) -> Result<Dia, OutOfMemory>
    requires number { k < 2 ^ 32 }
    requires server { IsServerAnswer answer.now }
    ensures message { IfOk result (λ d. d ≡ reply_message row.now k answer.now) }
    ensures written { IfOk result IsDia }
{
    let body = reply_body(alloc, answer)?;
    numbered(alloc, row, k, body)
}
