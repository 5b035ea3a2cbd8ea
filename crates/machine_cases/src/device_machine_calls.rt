//! What a step of the machine comes to, written by hand from 3GPP TS 23.401, 5.3: each row of the step table by itself (`rows`), and
//! the machine alone on worked runs (`runs`). Here is how they write messages and effects.
//!
//! A message is written `STATION/ENB BODY`, and no base station has the number of an eNB-UE-S1AP-ID; a cause as its group and its index,
//! with a plus where it stands behind the extension mark; an effect with a semicolon behind it.
ghost use Rattle.std.specs.Prelude.{◌≡◌, IfOk};

use device_types::{Areas, Body, CauseCode, Down, Effect, Message, Octets, Side, Subscriber};
use std::alloc::{AllocError, Global};
use std::test::Fail;

mod rows;
mod runs;

fn octets(alloc: Global, octet: u8) -> Result<Octets, AllocError> {
    let mut octets = Octets::new(alloc);
    octets.push(octet)?;
    Ok(octets)
}

/// The areas in which the subscriber is not served, and the octets of the authentication vector; the key has none, which stand for zeros.
fn fill(row: &mut Subscriber) -> Result<(), AllocError>
    ensures { row.new.teid ≡ row.old.teid }
{
    row.forbidden.push(8)?;
    row.forbidden.push(9)?;
    row.rand.push(51)?;
    row.autn.push(52)?;
    row.res.push(16)
}

/// A subscriber who is not served in the areas 8 and 9. No two of the numbers are the same.
fn subscriber(alloc: Global) -> Result<Subscriber, AllocError>
    ensures { IfOk result (λ row. row.teid ≡ 58) }
{
    let mut row = Subscriber {
        number: 1,
        imsi: 208930000000002,
        tmsi: 3,
        rand: Octets::new(alloc),
        autn: Octets::new(alloc),
        res: Octets::new(alloc),
        key: Octets::new(alloc),
        apn: Octets::new(alloc),
        ambr_dl: 55,
        ambr_ul: 56,
        sgw: 57,
        teid: 58,
        ip: 59,
        forbidden: Areas::new(alloc),
        apn2: Some(Octets::new(alloc)),
        ip2: Some(60),
    };
    fill(&mut row)?;
    Ok(row)
}

/// A base station, and an eNB-UE-S1AP-ID there.
fn pair(text: &str) -> Result<(u16, u32), Fail> {
    let (station, enb) = text.split_once("/").ok_or("no pair")?;
    Ok((station.parse::<u16>()?, enb.parse::<u32>()?))
}

/// A response of one octet, or of none where the text is empty.
fn response(alloc: Global, text: &str) -> Result<Octets, Fail> {
    if text.is_empty() {
        return Ok(Octets::new(alloc));
    }
    Ok(octets(alloc, text.parse::<u8>()?)?)
}

/// Whether a request comes first on its S1 connection.
fn is_first(word: &str) -> Result<bool, Fail> {
    match word {
        "first" => Ok(true),
        "later" => Ok(false),
        _ => Err(Fail::new("neither first nor later")),
    }
}

/// Whether a detach is told because the device is switched off.
fn is_off(word: &str) -> Result<bool, Fail> {
    match word {
        "off" => Ok(true),
        "" => Ok(false),
        _ => Err(Fail::new("no switch-off")),
    }
}

/// A context that is set up, with the second bearer's side or without.
fn context_done(second: Option<Side>) -> Body {
    Body::ContextDone {
        addr: 41,
        teid: 42,
        second,
    }
}

/// A message that is told by its name alone.
fn bare_body(alloc: Global, name: &str) -> Result<Body, Fail> {
    Ok(match name {
        "Service" => Body::Service,
        "Secured" => Body::Secured,
        "SecurityRefused" => Body::SecurityRefused,
        "AttachDone" => Body::AttachDone,
        "ContextDone" => context_done(None),
        "ContextDone second" => context_done(Some(Side { addr: 43, teid: 44 })),
        "ContextFailed" => Body::ContextFailed,
        "ReleaseAsked" => Body::ReleaseAsked { cause: ASKED },
        "Released" => Body::Released,
        "Capability" => Body::Capability {
            octets: Octets::from(Vec::from_array(alloc, [61, 62, 63])?),
        },
        "Data" => Body::Data,
        "PdnRequest" => Body::PdnRequest { pti: 45 },
        "PdnAccept" => Body::PdnAccept,
        "SecondDone" => Body::SecondDone { addr: 46, teid: 47 },
        "SecondRefused" => Body::SecondRefused,
        _ => return Err(Fail::new("no such message")),
    })
}

/// A message by its name, behind which some have words: a tracking area stands for itself, and so does the octet of a response.
fn body(alloc: Global, text: &str) -> Result<Body, Fail> {
    let (name, rest) = text.split_once(" ").unwrap_or((text, ""));
    match name {
        "Attach" => Ok(Body::Attach {
            plmn: 31,
            tac: rest.parse::<u16>()?,
            eea: 32,
            eia: 33,
            pti: 34,
        }),
        "Area" => {
            let (turn, tac) = rest.split_once(" ").ok_or("no area")?;
            Ok(Body::Area {
                first: is_first(turn)?,
                plmn: 35,
                tac: tac.parse::<u16>()?,
            })
        }
        "Detach" => {
            let (turn, off) = rest.split_once(" ").unwrap_or((rest, ""));
            Ok(Body::Detach {
                first: is_first(turn)?,
                off: is_off(off)?,
            })
        }
        "Response" => Ok(Body::Response {
            res: response(alloc, rest)?,
        }),
        _ => bare_body(alloc, text),
    }
}

/// The cause for which a base station asks for a release.
const ASKED: CauseCode = CauseCode {
    group: 0,
    extended: true,
    index: 20,
};

fn message(alloc: Global, text: &str) -> Result<Message, Fail> {
    let (from, what) = text.split_once(" ").ok_or("no message")?;
    let (station, enb) = pair(from)?;
    Ok(Message {
        number: 1,
        station,
        enb,
        body: body(alloc, what)?,
    })
}

fn write_cause(text: &mut String, cause: CauseCode) -> Result<(), AllocError> {
    let plus = if cause.extended { "+" } else { "" };
    write!(text, "{}/{}{plus}", cause.group, cause.index)
}

/// The setup of a context, with one bearer or with two.
fn write_setup(text: &mut String, down: &Down) -> Result<(), AllocError> {
    match down {
        Down::Setup {
            station,
            enb,
            dl,
            ul,
            sgw,
            teid,
            eea,
            eia,
            key,
            accept,
        } => {
            write!(
                text,
                " setup {station}/{enb} {dl} {ul} {sgw} {teid} {eea} {eia}"
            )?;
            write!(text, " {:?} {accept:?}", key.octets())
        }
        Down::SetupTwo {
            station,
            enb,
            dl,
            ul,
            sgw,
            teid,
            eea,
            eia,
            key,
            sgw2,
            teid2,
        } => {
            write!(
                text,
                " setup two {station}/{enb} {dl} {ul} {sgw} {teid} {eea} {eia}"
            )?;
            write!(text, " {:?} {sgw2} {teid2}", key.octets())
        }
        _ => Ok(()),
    }
}

fn write_down(text: &mut String, down: &Down) -> Result<(), AllocError> {
    match down {
        Down::Nas { station, enb, nas } => write!(text, " nas {station}/{enb} {nas:?}"),
        Down::Setup { .. } | Down::SetupTwo { .. } => write_setup(text, down),
        Down::Release {
            station,
            enb,
            cause,
        } => {
            write!(text, " release {station}/{enb} ")?;
            write_cause(text, *cause)
        }
        Down::Page { plmn, tac } => write!(text, " page {plmn} {tac}"),
        Down::Erab {
            station,
            enb,
            sgw,
            teid,
            pti,
            ip,
        } => write!(text, " erab {station}/{enb} {sgw} {teid} {pti} {ip}"),
    }
}

fn write_effects(text: &mut String, effects: &[Effect]) -> Result<(), AllocError> {
    for effect in effects {
        match effect {
            Effect::Down(down) => write_down(text, down)?,
            Effect::Gateway(call) => write!(text, " gateway {call:?}")?,
            Effect::Subscriber(call) => write!(text, " subscriber {call:?}")?,
        }
        text.push(';')?;
    }
    Ok(())
}
