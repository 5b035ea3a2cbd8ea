//! The octets of what goes down, worked out by hand from TS 36.413 and TS 24.301. No two like numbers of a message are the same.
ghost use Rattle.std.specs.Prelude.{◌≡◌, ◌^◌, ◌<◌, IfOk};
ghost use Rattle.device_types.specs.Cause.{IsCauseCode};
ghost use Rattle.device_types.specs.Down.{IsDown};
ghost use Rattle.device_types.specs.Keys.{IsKey};
ghost use Rattle.device_types.specs.Subscriber.{IsSubscriber};
ghost use Rattle.device_types.specs.declared.subscriber.Subscriber.{Subscriber};

use device_types::{Accept, CauseCode, Down, Key, NasOut, Subscriber, TryCopy};
use entry_edge::down_bytes;
use std::alloc::Global;
use std::test::Fail;
use subs_table::read_row;

/// The row of the device, which is the second.
const ROW: &str =
    r#"{"imsi":"208930000001033","tmsi":23,"rand":"000102030405060708090a0b0c0d0e0f","autn":"101112131415161718191a1b1c1d1e1f","res":"a0a1a2a3","key":"202122232425262728292a2b2c2d2e2f303132333435363738393a3b3c3d3e3f","apn":"m2m","ip":"0a2d0001","sgw":"c0a80001","teid":4,"ambr_dl":6,"ambr_ul":8,"forbidden":[],"apn2":"ims2","ip2":"0a2d8003"}"#;

/// What goes down, and its octets: NAS messages; contexts that are set up, with an ATTACH ACCEPT and without one, and with two
/// bearers; a second bearer that is added; releases, for a root of the NAS causes and for causes behind the extension marks of the
/// radio network's and of NAS; and a paging, of index 9, the IMSI modulo 1024 (of which 208,930,000,000,000 is a multiple):
/// 0000001001 p(6), 0240. Rejects of an area, the accepted context, the added bearer and the last release go to eNB UE S1AP ID
/// 197,637, the others to 7. The algorithms of two bearers are 10010110 00000000 and 01101010 00000000.
const DOWNS: &str = "\
AUTHENTICATION REJECT: 000b4016000003000000020002000800020007001a0003020754
TRACKING AREA UPDATE REJECT: 000b40190000030000000200020008000480030405001a000403074b0c
PDN CONNECTIVITY REJECT: 000b4018000003000000020002000800020007001a0005040209d11b
set up, accepted: 000900808100000600000002000200080004800304050042000a18773594006011e1a30000180031000034002c450009200f80c0a80002000001021d074201e0060002f839000300105205c1010904036d326d05010a2d0009006b00051c000c000000490020202122232425262728292a2b2c2d2e2f303132333435363738393a3b3c3d3e3f
set up: 0009005f0000060000000200020008000200070042000800058002540be40000180013000034000e050009200f80c0a8000300000405006b000518000e0000004900200000000000000000000000000000000000000000000000000000000000000000
set up, both: 00090070000006000000020002000800020007004200071001117020012c00180025010034000e050009200f80c0a80005000007080034000e060009200f80c0a800060000090a006b000512c006a00000490020202122232425262728292a2b2c2d2e2f303132333435363738393a3b3c3d3e3f
added: 0005003a00000300000002000200080004800304050010002500001100200c0009200f80c0a8000400000607116208c101090504696d733205010a2d8002
released, root: 0017001000000200630004000200070002400122
released, extended: 001700110000020063000400020007000240020850
released, last: 0017001300000200630006000280030405000240022bf0
paged: 000a4027000004005040020240002b4006001000000017006d400100002e400b00002f40060002f8390003
";

/// An eNB UE S1AP ID of one octet.
const SMALL: u32 = 7;

/// One of three octets.
const LARGE: u32 = 0x03_0405;

/// A release.
fn released(enb: u32, cause: CauseCode) -> Down
    requires enb { enb < 2 ^ 24 }
    requires cause { IsCauseCode cause }
    ensures { (row : Subscriber) → IsDown row result }
{
    Down::Release {
        station: 3,
        enb,
        cause,
    }
}

/// The key of a row.
#[tactic(auto, using(crate::proofs::Keys::full_is_key))]
fn key_of(row: &Subscriber) -> Result<Key, Fail>
    requires { IsSubscriber row.now }
    ensures { IfOk result IsKey }
{
    Ok(Key::new(row.key.alloc(), row.key.octets())?)
}

/// The context of an attach.
fn set_up_and_accepted(row: &Subscriber) -> Result<Down, Fail>
    requires { IsSubscriber row.now }
    ensures { IfOk result (IsDown row.now) }
{
    Ok(Down::Setup {
        station: 3,
        enb: LARGE,
        dl: 2_000_000_000,
        ul: 300_000_000,
        sgw: 0xc0a8_0002,
        teid: 0x0102,
        eea: 0xf0,
        eia: 0x60,
        key: key_of(row)?,
        accept: Accept::Yes {
            plmn: 0x02_f839,
            tac: 3,
            pti: 5,
            ip: 0x0a2d_0009,
        },
    })
}

/// The context of a service, with the largest rate that there is.
fn set_up() -> Down
    ensures { (row : Subscriber) → IsDown row result }
{
    let key = Key::zeros();
    // That each octet is below 256 is a clause of `octets`.
    let _count = key.octets().len();
    Down::Setup {
        station: 3,
        enb: SMALL,
        dl: 5,
        ul: 10_000_000_000,
        sgw: 0xc0a8_0003,
        teid: 0x0405,
        eea: 0xe0,
        eia: 0x70,
        key,
        accept: Accept::No,
    }
}

/// The context of a service of a device with a second connection.
fn set_up_both(row: &Subscriber) -> Result<Down, Fail>
    requires { IsSubscriber row.now }
    ensures { IfOk result (IsDown row.now) }
{
    Ok(Down::SetupTwo {
        station: 3,
        enb: SMALL,
        dl: 70_000,
        ul: 300,
        sgw: 0xc0a8_0005,
        teid: 0x0708,
        eea: 0xcb,
        eia: 0x35,
        key: key_of(row)?,
        sgw2: 0xc0a8_0006,
        teid2: 0x090a,
    })
}

/// A second bearer, if the row has a second access point name.
fn added(row: &Subscriber) -> Result<Down, Fail>
    ensures { IfOk result (IsDown row.now) }
{
    let Some(_apn) = &row.apn2 else {
        return Err(Fail::new("no second access point name"));
    };
    Ok(Down::Erab {
        station: 3,
        enb: LARGE,
        sgw: 0xc0a8_0004,
        teid: 0x0607,
        pti: 8,
        ip: 0x0a2d_8002,
    })
}

/// Tells the octets of a message to the device of the row.
fn tell(
    alloc: Global,
    text: &mut String,
    row: &Subscriber,
    name: &str,
    down: Down,
) -> Result<(), Fail>
    requires row { IsSubscriber row.now }
    requires down { IsDown row.now down }
{
    let octets = down_bytes(alloc, row, &down)?;
    let digits = hex::encode(alloc, octets.octets())?;
    writeln!(text, "{name}: {digits}")?;
    Ok(())
}

/// Tells NAS messages.
fn tell_messages(alloc: Global, text: &mut String, row: &Subscriber) -> Result<(), Fail>
    requires { IsSubscriber row.now }
{
    let (station, enb) = (3, SMALL);
    let nas = NasOut::AuthReject;
    let down = Down::Nas { station, enb, nas };
    tell(alloc, text, row, "AUTHENTICATION REJECT", down)?;
    let enb = LARGE;
    let nas = NasOut::AreaReject { cause: 12 };
    let down = Down::Nas { station, enb, nas };
    tell(alloc, text, row, "TRACKING AREA UPDATE REJECT", down)?;
    let enb = SMALL;
    let nas = NasOut::PdnReject { pti: 9, cause: 27 };
    let down = Down::Nas { station, enb, nas };
    tell(alloc, text, row, "PDN CONNECTIVITY REJECT", down)
}

/// Tells contexts that are set up.
fn tell_setups(alloc: Global, text: &mut String, row: &Subscriber) -> Result<(), Fail>
    requires { IsSubscriber row.now }
{
    let down = set_up_and_accepted(row)?;
    tell(alloc, text, row, "set up, accepted", down)?;
    tell(alloc, text, row, "set up", set_up())?;
    tell(alloc, text, row, "set up, both", set_up_both(row)?)?;
    tell(alloc, text, row, "added", added(row)?)
}

/// A cause.
fn cause(group: u8, extended: bool, index: u8) -> CauseCode
    ensures { result ≡ record { group = group; extended = extended; index = index } }
{
    CauseCode {
        group,
        extended,
        index,
    }
}

/// Tells releases.
#[tactic(auto, unfolding(device_types::specs::Cause::cause_roots))]
fn tell_releases(alloc: Global, text: &mut String, row: &Subscriber) -> Result<(), Fail>
    requires { IsSubscriber row.now }
{
    let down = released(SMALL, cause(2, false, 1));
    tell(alloc, text, row, "released, root", down)?;
    let down = released(SMALL, cause(0, true, 5));
    tell(alloc, text, row, "released, extended", down)?;
    let down = released(LARGE, cause(2, true, 63));
    tell(alloc, text, row, "released, last", down)
}

/// A paging in the device's area.
fn paged() -> Down
    ensures { (row : Subscriber) → IsDown row result }
{
    Down::Page {
        plmn: 0x02_f839,
        tac: 3,
    }
}

/// Tells all that goes down to the device of the row.
fn tell_downs(alloc: Global, text: &mut String, row: &Subscriber) -> Result<(), Fail>
    requires { IsSubscriber row.now }
{
    tell_messages(alloc, text, row)?;
    tell_setups(alloc, text, row)?;
    tell_releases(alloc, text, row)?;
    tell(alloc, text, row, "paged", paged())
}

#[test]
fn downs_have_their_octets(rt: HostRuntime) -> Result<(), Fail> {
    let alloc = rt.alloc();
    let mut text = String::new(alloc);
    tell_downs(alloc, &mut text, &read_row(alloc, ROW.as_bytes(), 2)?)?;
    assert_eq!(rt; text.as_str(), DOWNS);
    Ok(())
}
