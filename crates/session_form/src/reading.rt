//! Reading a session.
ghost use Rattle.std.specs.Prelude.{◌≡◌, ◌≢◌, ◌↔◌, true, [], length, replicate, ℕ, Err, IsErr, IfOk};
ghost use Rattle.device_types.specs.declared.session.Session.{Session};
ghost use Rattle.echo_base.specs.declared.reason.Reason.TheVariants.{BadSession};
ghost use Rattle.echo_base.specs.declared.refusal.Bad.TheVariants.{Refused};
ghost use Rattle.echo_base.specs.Answer.{Answers};
ghost use Rattle.echo_base.specs.Reading.{GivesOrEnds, GivesTaking};
ghost use Rattle.session_form.specs.Fields.{fields_of, reading};
ghost use Rattle.session_form.specs.Form.{front, tunnel, service, second_rows, session_at, IsFormOf, IsWrongAt, TakesMemory};
ghost use Rattle.session_form.specs.declared.version.Version.TheVariants.{Two};

use crate::reader::FormReader;
use crate::version::Version;
use device_types::{Bearer, CauseCode, Key, Link, Second, Session, ShortOctets, Stage};
use echo_base::{Bad, OutOfMemory, Refusal};
use std::alloc::Global;

/// The greatest aggregate maximum bit rate (3GPP TS 36.413, 9.2.1.20), in bit/s.
const MOST_BIT_RATE: u64 = 10_000_000_000;

/// Is each octet zero?
fn are_zeros(octets: &[u8]) -> bool
    ensures { (result ≡ true) ↔ (octets.now ≡ replicate (length octets.now) 0) }
{
    octets.iter().all(|octet| *octet == 0)
}

/// The key of 32 octets. Zeros take no memory.
fn key_of(alloc: Global, octets: &[u8]) -> Result<Key, OutOfMemory>
    requires { length octets.now ≡ 32 }
    ensures value { IfOk result (λ key. key ≡ octets.now) }
    ensures taking { IsErr result → octets.now ≢ replicate 32 0 }
{
    if are_zeros(octets) {
        return Ok(Key::zeros());
    }
    Key::new(alloc, octets)
}

/// Where the device is, and what it can do: the stage, the link, the tracking area, the algorithms, the transaction.
#[inline(always)]
#[tactic(auto, unfolding(crate::specs::Fields::reading, crate::specs::Fields::value_at))]
fn read_front(
    r: &mut FormReader,
    version: Version,
) -> Result<(Stage, (Link, (u32, (u16, (u8, (u8, u8)))))), Refusal>
    ensures { GivesOrEnds result r.new (reading (fields_of (front version)) r.old) }
{
    let stage = r.stage(version)?;
    let link = r.link()?;
    let plmn = r.number(3, 0, 0xff_ffff)? as u32;
    let tac = r.number(2, 0, 0xffff)? as u16;
    let eea = r.number(1, 0, 0xff)? as u8;
    let eia = r.number(1, 0, 0xff)? as u8;
    let pti = r.number(1, 0, 0xff)? as u8;
    Ok((stage, (link, (plmn, (tac, (eea, (eia, pti)))))))
}

/// Its bit rates and the ends of its tunnel.
#[inline(always)]
#[tactic(auto, unfolding(crate::specs::Fields::reading, crate::specs::Fields::value_at))]
fn read_tunnel(r: &mut FormReader) -> Result<(u64, (u64, (u32, (u32, (u32, (u32, u32)))))), Refusal>
    ensures { GivesOrEnds result r.new (reading (fields_of tunnel) r.old) }
{
    let dl = r.number(8, 0, MOST_BIT_RATE)?;
    let ul = r.number(8, 0, MOST_BIT_RATE)?;
    let sgw = r.number(4, 0, 0xffff_ffff)? as u32;
    let teid = r.number(4, 0, 0xffff_ffff)? as u32;
    let ip = r.number(4, 0, 0xffff_ffff)? as u32;
    let side_addr = r.number(4, 0, 0xffff_ffff)? as u32;
    let side_teid = r.number(4, 0, 0xffff_ffff)? as u32;
    Ok((dl, (ul, (sgw, (teid, (ip, (side_addr, side_teid)))))))
}

/// How it is served: the bearer, whether it is registered and off, the cause, the radio capability's count.
#[inline(always)]
#[tactic(auto, unfolding(crate::specs::Fields::reading, crate::specs::Fields::value_at))]
fn read_service(
    r: &mut FormReader,
) -> Result<(Bearer, (bool, (bool, (u8, (bool, (u8, u32)))))), Refusal>
    ensures { GivesOrEnds result r.new (reading (fields_of service) r.old) }
{
    let bearer = r.bearer()?;
    let registered = r.truth()?;
    let off = r.truth()?;
    let group = r.number(1, 0, 4)? as u8;
    let extended = r.truth()?;
    let index = r.number(1, 0, 63)? as u8;
    let radio = r.number(4, 0, 0xffff_ffff)? as u32;
    Ok((
        bearer,
        (registered, (off, (group, (extended, (index, radio))))),
    ))
}

/// Its second connection: the state, the transaction, the ends of its tunnel.
#[inline(always)]
#[tactic(auto, unfolding(crate::specs::Fields::reading, crate::specs::Fields::value_at))]
fn read_second(
    r: &mut FormReader,
) -> Result<(Second, (u8, (u32, (u32, (u32, (u32, u32)))))), Refusal>
    ensures { GivesOrEnds result r.new (reading (fields_of (second_rows Two)) r.old) }
{
    let second = r.second()?;
    let pti = r.number(1, 0, 0xff)? as u8;
    let sgw = r.number(4, 0, 0xffff_ffff)? as u32;
    let teid = r.number(4, 0, 0xffff_ffff)? as u32;
    let ip = r.number(4, 0, 0xffff_ffff)? as u32;
    let side_addr = r.number(4, 0, 0xffff_ffff)? as u32;
    let side_teid = r.number(4, 0, 0xffff_ffff)? as u32;
    Ok((second, (pti, (sgw, (teid, (ip, (side_addr, side_teid)))))))
}

/// Its second connection, of which form 1 has no octets.
#[inline(always)]
#[tactic(auto, unfolding(crate::specs::Fields::reading))]
fn read_later(
    r: &mut FormReader,
    version: Version,
) -> Result<(Second, (u8, (u32, (u32, (u32, (u32, u32)))))), Refusal>
    ensures { GivesOrEnds result r.new (reading (fields_of (second_rows version)) r.old) }
{
    match version {
        Version::One => Ok((Second::None, (0, (0, (0, (0, (0, 0))))))),
        Version::Two => read_second(r),
    }
}

/// Reads all fields in their order, and keeps them.
#[tactic(auto, unfolding(crate::specs::Form::session_at, crate::specs::Fields::reading_alone, crate::specs::Fields::reading, crate::specs::Fields::value_at))]
fn read_fields(alloc: Global, r: &mut FormReader) -> Result<Session, Bad>
    ensures { GivesTaking TakesMemory result r.new (session_at r.old) }
{
    let version = r.version()?;
    let (stage, (link, (plmn, (tac, (eea, (eia, pti)))))) = read_front(r, version)?;
    let res = r.counted(16)?;
    let key = r.key()?;
    let (dl, (ul, (sgw, (teid, (ip, (side_addr, side_teid)))))) = read_tunnel(r)?;
    let (bearer, (registered, (off, (group, (extended, (index, radio)))))) = read_service(r)?;
    let (second, (pti2, (sgw2, (teid2, (ip2, (side2_addr, side2_teid)))))) = read_later(
        r, version,
    )?;
    r.end()?;
    Ok(Session {
        stage,
        link,
        plmn,
        tac,
        eea,
        eia,
        pti,
        res: ShortOctets::from_slice(alloc, res)?,
        key: key_of(alloc, key)?,
        dl,
        ul,
        sgw,
        teid,
        ip,
        side_addr,
        side_teid,
        bearer,
        registered,
        off,
        cause: CauseCode {
            group,
            extended,
            index,
        },
        radio,
        second,
        pti2,
        sgw2,
        teid2,
        ip2,
        side2_addr,
        side2_teid,
    })
}

/// Reads the session of which the octets are a form: form 2, or form 1, in which it has no second connection. They are refused as
/// BadSession at the first octet of the first field that is not whole or not in its range, or at the first octet too many. A key that is not
/// zeros takes memory, and nothing else does.
///
/// ```rust
/// let session = read_session(alloc, write_session(alloc, &Session::opening(alloc))?.octets())?;
/// assert!(rt; matches!(session.stage, Stage::Detached));
/// ```
pub fn read_session(alloc: Global, octets: &[u8]) -> Result<Session, Bad>
    ensures read { Answers (IsFormOf octets.now) (λ e. (e.reason ≡ BadSession) × IsWrongAt octets.now e.place) ((s : Session) × TakesMemory s × IsFormOf octets.now s) result }
    ensures only { (s : Session) → IsFormOf octets.now s → Answers (λ read. read ≡ s) (λ e. ⊥) (TakesMemory s) result }
    ensures refused { (place : ℕ) → IsWrongAt octets.now place → result ≡ Err (Refused (record { reason = BadSession; place = place })) }
{
    let mut r = FormReader::new(octets);
    read_fields(alloc, &mut r)
}
