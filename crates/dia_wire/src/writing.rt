//! Writing messages.

ghost use Rattle.std.specs.Prelude.{◌≡◌, ◌^◌, ◌<◌, ◌++◌, IfOk, OnOk, codes};
ghost use Rattle.echo_base.specs.Field.{number_run};
ghost use Rattle.tlv_elements.specs.Grammar.{rows_run};
ghost use Rattle.dia_avps.specs.Frame.{tgpp, frame_run};
ghost use Rattle.dia_wire.specs.declared.dia.DiaBody.TheVariants.{AskVectors, AskLocation, AskPurge, Vectors, Located};
ghost use Rattle.dia_avps.specs.Groups.{vector, authentication_info, subscription_data};
ghost use Rattle.dia_wire.specs.Tables.{realm, result_alone};
ghost use Rattle.dia_wire.specs.Written.{flags_of, body_run, dia_run, IsSession, IsVector, IsBody, IsDia};

use crate::dia::{Dia, DiaBody};
use device_types::Octets;
use dia_avps::{TGPP, put, put_head, put_header, put_imsi, put_plmn, put_unsigned};
use echo_base::OutOfMemory;
use std::alloc::Global;

/// The AVPs that stand aside between Session-Id and User-Name of a request.
fn put_asker(out: &mut Vec<u8>) -> Result<(), OutOfMemory>
    ensures { OnOk result (out.new.items ≡ out.old.items ++ (frame_run 277 0 (number_run 4 1) ++ (frame_run 264 0 (codes "mme.echo") ++ (frame_run 296 0 realm ++ frame_run 283 0 realm)))) }
{
    put_unsigned(out, 277, 0, 1)?;
    put(out, 264, 0, b"mme.echo")?;
    put(out, 296, 0, b"echo")?;
    put(out, 283, 0, b"echo")
}

/// The front of a request, which is all of a Purge-UE-Request.
fn put_request(out: &mut Vec<u8>, session: &[u8], imsi: u64) -> Result<(), OutOfMemory>
    requires session { IsSession session.now }
    requires imsi { imsi < 10 ^ 15 }
    ensures { OnOk result (out.new.items ≡ out.old.items ++ body_run session.now (AskPurge imsi)) }
{
    put(out, 263, 0, session)?;
    put_asker(out)?;
    put_imsi(out, imsi)
}

/// Requested-EUTRAN-Authentication-Info: one vector.
#[tactic(auto, unfolding(dia_avps::specs::Frame::frame_run))]
fn put_requested(out: &mut Vec<u8>) -> Result<(), OutOfMemory>
    ensures { OnOk result (out.new.items ≡ out.old.items ++ frame_run 1408 tgpp (frame_run 1410 tgpp (number_run 4 1))) }
{
    put_head(out, 1408, TGPP, 16)?;
    put_unsigned(out, 1410, TGPP, 1)
}

/// An Authentication-Information-Request.
fn put_ask_vectors(
    out: &mut Vec<u8>,
    session: &[u8],
    imsi: u64,
    plmn: u32,
) -> Result<(), OutOfMemory>
    requires session { IsSession session.now }
    requires imsi { imsi < 10 ^ 15 }
    requires plmn { plmn < 2 ^ 24 }
    ensures { OnOk result (out.new.items ≡ out.old.items ++ body_run session.now (AskVectors imsi plmn)) }
{
    put_request(out, session, imsi)?;
    put_plmn(out, plmn)?;
    put_requested(out)
}

/// An Update-Location-Request.
fn put_ask_location(
    out: &mut Vec<u8>,
    session: &[u8],
    imsi: u64,
    plmn: u32,
) -> Result<(), OutOfMemory>
    requires session { IsSession session.now }
    requires imsi { imsi < 10 ^ 15 }
    requires plmn { plmn < 2 ^ 24 }
    ensures { OnOk result (out.new.items ≡ out.old.items ++ body_run session.now (AskLocation imsi plmn)) }
{
    put_request(out, session, imsi)?;
    put_plmn(out, plmn)?;
    put_unsigned(out, 1405, TGPP, 34)
}

/// The AVPs that stand aside behind the Result-Code of an answer.
fn put_answerer(out: &mut Vec<u8>) -> Result<(), OutOfMemory>
    ensures { OnOk result (out.new.items ≡ out.old.items ++ (frame_run 277 0 (number_run 4 1) ++ (frame_run 264 0 (codes "hss.echo") ++ frame_run 296 0 realm))) }
{
    put_unsigned(out, 277, 0, 1)?;
    put(out, 264, 0, b"hss.echo")?;
    put(out, 296, 0, b"echo")
}

/// The front of an answer, which is all of one without a group.
fn put_answer(out: &mut Vec<u8>, session: &[u8], result_code: u32) -> Result<(), OutOfMemory>
    requires { IsSession session.now }
    ensures { OnOk result (out.new.items ≡ out.old.items ++ rows_run frame_run result_alone (session.now, (result_code, tt))) }
{
    put(out, 263, 0, session)?;
    put_unsigned(out, 268, 0, result_code)?;
    put_answerer(out)
}

/// The members of an E-UTRAN-Vector.
fn put_vector(
    out: &mut Vec<u8>,
    rand: &[u8],
    xres: &[u8],
    autn: &[u8],
    key: &[u8],
) -> Result<(), OutOfMemory>
    requires { IsVector rand.now xres.now autn.now key.now }
    ensures { OnOk result (out.new.items ≡ out.old.items ++ rows_run frame_run vector (rand.now, (xres.now, (autn.now, (key.now, tt))))) }
{
    put(out, 1447, TGPP, rand)?;
    put(out, 1448, TGPP, xres)?;
    put(out, 1449, TGPP, autn)?;
    put(out, 1450, TGPP, key)
}

/// Authentication-Info, with one vector.
#[tactic(auto, using(crate::proofs::WrittenLaws::vector_length, dia_avps::proofs::Frames::tgpp_length))]
fn put_authentication_info(
    out: &mut Vec<u8>,
    alloc: Global,
    rand: &[u8],
    xres: &[u8],
    autn: &[u8],
    key: &[u8],
) -> Result<(), OutOfMemory>
    requires { IsVector rand.now xres.now autn.now key.now }
    ensures { OnOk result (out.new.items ≡ out.old.items ++ frame_run 1413 tgpp (rows_run frame_run authentication_info ((rand.now, (xres.now, (autn.now, (key.now, tt)))), tt))) }
{
    let mut vector = Vec::with_capacity(alloc, 128)?;
    put_vector(&mut vector, rand, xres, autn, key)?;
    let mut info = Vec::with_capacity(alloc, 140)?;
    put(&mut info, 1414, TGPP, vector.as_slice())?;
    put(out, 1413, TGPP, info.as_slice())
}

/// Subscription-Data, with bit rates.
#[tactic(auto, unfolding(dia_avps::specs::Frame::frame_run))]
fn put_subscription_data(out: &mut Vec<u8>, dl: u32, ul: u32) -> Result<(), OutOfMemory>
    ensures { OnOk result (out.new.items ≡ out.old.items ++ frame_run 1400 tgpp (rows_run frame_run subscription_data ((ul, (dl, tt)), tt))) }
{
    put_head(out, 1400, TGPP, 44)?;
    put_head(out, 1435, TGPP, 32)?;
    put_unsigned(out, 516, TGPP, ul)?;
    put_unsigned(out, 515, TGPP, dl)
}

/// An Authentication-Information-Answer.
fn put_vectors(
    out: &mut Vec<u8>,
    alloc: Global,
    session: &[u8],
    rand: &[u8],
    xres: &[u8],
    autn: &[u8],
    key: &[u8],
) -> Result<(), OutOfMemory>
    requires session { IsSession session.now }
    requires vector { IsVector rand.now xres.now autn.now key.now }
    ensures { OnOk result (out.new.items ≡ out.old.items ++ body_run session.now (Vectors rand.now xres.now autn.now key.now)) }
{
    put_answer(out, session, 2001)?;
    put_authentication_info(out, alloc, rand, xres, autn, key)
}

/// An Update-Location-Answer.
fn put_located(out: &mut Vec<u8>, session: &[u8], dl: u32, ul: u32) -> Result<(), OutOfMemory>
    requires { IsSession session.now }
    ensures { OnOk result (out.new.items ≡ out.old.items ++ body_run session.now (Located dl ul)) }
{
    put_answer(out, session, 2001)?;
    put_subscription_data(out, dl, ul)
}

/// The AVPs of a message.
fn put_body(
    out: &mut Vec<u8>,
    alloc: Global,
    session: &[u8],
    body: &DiaBody,
) -> Result<(), OutOfMemory>
    requires session { IsSession session.now }
    requires body { IsBody body.now }
    ensures { OnOk result (out.new.items ≡ out.old.items ++ body_run session.now body.now) }
{
    match body {
        DiaBody::AskVectors { imsi, plmn } => put_ask_vectors(out, session, *imsi, *plmn),
        DiaBody::AskLocation { imsi, plmn } => put_ask_location(out, session, *imsi, *plmn),
        DiaBody::AskPurge { imsi } => put_request(out, session, *imsi),
        DiaBody::Vectors {
            rand,
            xres,
            autn,
            key,
        } => put_vectors(
            out,
            alloc,
            session,
            rand.items(),
            xres.items(),
            autn.items(),
            key.items(),
        ),
        DiaBody::Located { dl, ul } => put_located(out, session, *dl, *ul),
        DiaBody::Purged => put_answer(out, session, 2001),
        DiaBody::Rejected { result, .. } => put_answer(out, session, *result),
    }
}

/// The flags of a message (RFC 6733, 3): that it is a request, and that it may be proxied.
fn flags_of(body: &DiaBody) -> u8
    ensures { result ≡ flags_of body.now }
{
    match body {
        DiaBody::AskVectors { .. } | DiaBody::AskLocation { .. } | DiaBody::AskPurge { .. } => 0xc0,
        DiaBody::Vectors { .. }
        | DiaBody::Located { .. }
        | DiaBody::Purged
        | DiaBody::Rejected { .. } => 0x40,
    }
}

/// Writes a message in its one form.
#[tactic(auto, using(crate::proofs::WrittenLaws::body_small, crate::proofs::KindLaws::command_small))]
pub fn write_dia(alloc: Global, d: &Dia) -> Result<Octets, OutOfMemory>
    requires { IsDia d.now }
    ensures written { IfOk result (λ octets. octets ≡ dia_run d.now) }
{
    let mut avps = Vec::with_capacity(alloc, 256)?;
    put_body(&mut avps, alloc, d.session.items(), &d.body)?;
    let mut out = Vec::with_capacity(alloc, 20 + avps.len())?;
    let count = avps.len() as u32;
    put_header(
        &mut out,
        flags_of(&d.body),
        d.body.command(),
        d.hop,
        d.end,
        count,
    )?;
    out.extend_from_slice(avps.as_slice())?;
    Ok(Octets::from(out))
}
