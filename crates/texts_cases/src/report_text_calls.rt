//! The final text of two devices. The octets are worked out from the standards, not taken from the program.
ghost use Rattle.std.specs.Prelude.{◌≡◌, ◌+◌, ◌++◌, ◌∷◌, [], ◌^◌, ◌<◌, length, All, IfOk, OnOk};
ghost use Rattle.device_types.specs.Cause.{IsCauseCode};
ghost use Rattle.device_types.specs.Down.{IsDown};
ghost use Rattle.device_types.specs.Finals.{IsEndOf};
ghost use Rattle.device_types.specs.Subscriber.{IsSubscriber};
ghost use Rattle.device_types.specs.declared.subscriber.Subscriber.{Subscriber};
ghost use Rattle.report_text.specs.Final.{AreEnds};

use device_types::*;
use echo_base::{Reason, Refusal};
use entry_edge::RefusedLine;
use report_text::{final_text, put_final_text};
use std::alloc::Global;
use std::test::Fail;
use subs_table::{SubsTable, read_row};

/// The row of the first device, which has the columns of a second connection.
pub(crate) const FIRST: &str =
    r#"{"imsi":"208930000000001","tmsi":1,"rand":"000102030405060708090a0b0c0d0e0f","autn":"101112131415161718191a1b1c1d1e1f","res":"a0a1a2a3a4a5a6a7","key":"1111111111111111111111111111111111111111111111111111111111111111","apn":"internet","ip":"0a2d0001","sgw":"c0a80001","teid":1,"ambr_dl":1000000000,"ambr_ul":1000000000,"forbidden":[9],"apn2":"ims","ip2":"0a2d8001"}"#;

/// The row of the second.
const SECOND: &str =
    r#"{"imsi":"008930000000001","tmsi":2,"rand":"000102030405060708090a0b0c0d0e0f","autn":"101112131415161718191a1b1c1d1e1f","res":"a0a1a2a3a4a5a6a7","key":"1111111111111111111111111111111111111111111111111111111111111111","apn":"internet","ip":"0a2d0001","sgw":"c0a80001","teid":1,"ambr_dl":1000000000,"ambr_ul":1000000000,"forbidden":[9]}"#;

/// The second device has the lower IMSI.
const FINAL: &str = "\
refused 9 31 UnknownPair 3 7
device 008930000000001 messages 4 steps 7
down 1 3 000b4016000003000000020002000800020007001a0003020754
down 2 4 000b4017000003000000020002000800020009001a000403074b0c
down 3 3 0017001000000200630004000200070002400122
down 4 3 001700110000020063000400020007000240020280
down 5 0 000a4027000004005040020040002b4006001000000002006d400100002e400b00002f40060002f8390102
gateway 1 release
gateway 2 delete
subscriber 1 purge
session idle link off area 000000 0 bearer made radio 0
second made
device 208930000000001 messages 6 steps 10
down 1 3 000b4038000003000000020001000800020007001a002524075200000102030405060708090a0b0c0d0e0f10101112131415161718191a1b1c1d1e1f
down 2 3 000b401b000003000000020001000800020007001a000807075d000002f060
down 3 3 00090080840000060000000200010008000200070042000a18773594006011e1a300001800360000340031450009200f80c0a800020000010222074201e0060002f839000300155205c101090908696e7465726e657405010a2d0009006b00051c000c0000004900200000000000000000000000000000000000000000000000000000000000000000
down 4 1 0005003700000300000002000100080002000100100024000011001f0c0009200f80c0a8000100000002106202c101090403696d7305010a2d8001
down 5 5 000900730000060000000200010008000200090042000a183b9aca00601dcd650000180025010034000e050009200f80c0a80001000000010034000e060009200f80c0a8000200000004006b00051c000c0000004900200000000000000000000000000000000000000000000000000000000000000000
gateway 1 create
gateway 2 modify c0a80003 9
gateway 3 second-create
gateway 4 second-modify c0a80004 5
subscriber 1 vectors
subscriber 2 location
session connected link 3/7 area 02f839 258 bearer active radio 2
second active
";

/// Puts a message to the device of a row behind others.
fn push_down(_row: &Subscriber, downs: &mut Downs, down: Down) -> Result<(), Fail>
    requires down { IsDown _row.now down }
    requires downs { All (IsDown _row.now) downs.old }
    ensures { OnOk result (All (IsDown _row.now) downs.new) }
{
    downs.push(down)?;
    Ok(())
}

/// A second bearer, if the row has a second access point name.
fn added(row: &Subscriber) -> Result<Down, Fail>
    ensures { IfOk result (IsDown row.now) }
{
    let Some(_apn) = &row.apn2 else {
        return Err(Fail::new("no second access point name"));
    };
    Ok(Down::Erab {
        station: 1,
        enb: 1,
        sgw: 0xc0a8_0001,
        teid: 2,
        pti: 2,
        ip: 0x0a2d_8001,
    })
}

/// A context with two bearers.
fn set_up_both() -> Down
    ensures { (row : Subscriber) → IsDown row result }
{
    let key = Key::zeros();
    let _count = key.octets().len();
    Down::SetupTwo {
        station: 5,
        enb: 9,
        dl: 1_000_000_000,
        ul: 500_000_000,
        sgw: 0xc0a8_0001,
        teid: 1,
        eea: 0xf0,
        eia: 0x60,
        key,
        sgw2: 0xc0a8_0002,
        teid2: 4,
    }
}

/// The messages to an attached device.
fn attached_downs(alloc: Global, row: &Subscriber) -> Result<Downs, Fail>
    requires { IsSubscriber row.now }
    ensures { IfOk result (All (IsDown row.now)) }
{
    let (station, enb) = (3, 7);
    let mut downs = Downs::new(alloc);
    let (rand, autn) = (row.rand.copy()?, row.autn.copy()?);
    let nas = NasOut::AuthRequest { rand, autn };
    push_down(row, &mut downs, Down::Nas { station, enb, nas })?;
    let (eea, eia) = (0xf0, 0x60);
    let nas = NasOut::SecurityCommand { eea, eia };
    push_down(row, &mut downs, Down::Nas { station, enb, nas })?;
    let key = Key::zeros();
    let _count = key.octets().len();
    let setup = Down::Setup {
        station,
        enb,
        dl: 2_000_000_000,
        ul: 300_000_000,
        sgw: 0xc0a8_0002,
        teid: 0x0102,
        eea,
        eia,
        key,
        accept: Accept::Yes {
            plmn: 0x02_f839,
            tac: 3,
            pti: 5,
            ip: 0x0a2d_0009,
        },
    };
    push_down(row, &mut downs, setup)?;
    push_down(row, &mut downs, added(row)?)?;
    push_down(row, &mut downs, set_up_both())?;
    Ok(downs)
}

/// What became of an attached device.
fn attached(alloc: Global, row: &Subscriber) -> Result<DeviceEnd, Fail>
    requires { IsSubscriber row.now }
    ensures { IfOk result (IsEndOf row.now) }
{
    let mut gateway = GwCalls::new(alloc);
    gateway.push(GwCall::Create)?;
    gateway.push(GwCall::Modify(0xc0a8_0003, 9))?;
    gateway.push(GwCall::SecondCreate)?;
    gateway.push(GwCall::SecondModify(0xc0a8_0004, 5))?;
    let mut subscriber = SubCalls::new(alloc);
    subscriber.push(SubCall::Vectors)?;
    subscriber.push(SubCall::Location)?;
    let mut session = Session::opening(alloc);
    session.stage = Stage::Connected;
    session.link = Link::On { station: 3, enb: 7 };
    session.plmn = 0x02_f839;
    session.tac = 258;
    session.bearer = Bearer::Active;
    session.radio = 2;
    session.second = Second::Active;
    Ok(DeviceEnd {
        messages: 6,
        steps: 10,
        downs: attached_downs(alloc, row)?,
        gateway,
        subscriber,
        session,
    })
}

/// A release.
fn release(station: u16, enb: u32, cause: CauseCode) -> Down
    requires enb { enb < 2 ^ 24 }
    requires cause { IsCauseCode cause }
    ensures { (row : Subscriber) → IsDown row result }
{
    Down::Release {
        station,
        enb,
        cause,
    }
}

/// The messages to a device that was released.
#[tactic(auto, unfolding(device_types::specs::Cause::cause_roots))]
fn released_downs(alloc: Global, row: &Subscriber) -> Result<Downs, Fail>
    ensures { IfOk result (All (IsDown row.now)) }
{
    let (station, enb) = (3, 7);
    let mut downs = Downs::new(alloc);
    let nas = NasOut::AuthReject;
    push_down(row, &mut downs, Down::Nas { station, enb, nas })?;
    let reject = Down::Nas {
        station: 4,
        enb: 9,
        nas: NasOut::AreaReject { cause: 12 },
    };
    push_down(row, &mut downs, reject)?;
    let cause = CauseCode {
        group: 2,
        extended: false,
        index: 1,
    };
    push_down(row, &mut downs, release(station, enb, cause))?;
    let cause = CauseCode {
        group: 0,
        extended: false,
        index: 20,
    };
    push_down(row, &mut downs, release(station, enb, cause))?;
    let page = Down::Page {
        plmn: 0x02_f839,
        tac: 258,
    };
    push_down(row, &mut downs, page)?;
    Ok(downs)
}

/// What became of a device that was released.
fn released(alloc: Global, row: &Subscriber) -> Result<DeviceEnd, Fail>
    ensures { IfOk result (IsEndOf row.now) }
{
    let mut gateway = GwCalls::new(alloc);
    gateway.push(GwCall::Release)?;
    gateway.push(GwCall::Delete)?;
    let mut subscriber = SubCalls::new(alloc);
    subscriber.push(SubCall::Purge)?;
    let mut session = Session::opening(alloc);
    session.stage = Stage::Idle;
    session.bearer = Bearer::Made;
    session.second = Second::Made;
    Ok(DeviceEnd {
        messages: 4,
        steps: 7,
        downs: released_downs(alloc, row)?,
        gateway,
        subscriber,
        session,
    })
}

/// Adds a device with what became of it.
fn add(
    table: &mut SubsTable,
    finals: &mut Finals,
    row: Subscriber,
    end: DeviceEnd,
) -> Result<(), Fail>
    requires number { row.number ≡ length table.old + 1 }
    requires ranges { IsSubscriber row }
    ensures table { OnOk result (table.new ≡ table.old ++ row ∷ []) }
    ensures finals { OnOk result (finals.new ≡ finals.old ++ end ∷ []) }
{
    finals.push(end)?;
    table.add(row)?;
    Ok(())
}

/// Adds both devices.
#[tactic(auto, using(crate::proofs::Ends::two_ends))]
fn add_both(alloc: Global, table: &mut SubsTable, finals: &mut Finals) -> Result<(), Fail>
    requires table { table.old ≡ [] }
    requires finals { finals.old ≡ [] }
    ensures { OnOk result (AreEnds table.new finals.new) }
{
    let row = read_row(alloc, FIRST.as_bytes(), 1)?;
    let end = attached(alloc, &row)?;
    add(table, finals, row, end)?;
    let row = read_row(alloc, SECOND.as_bytes(), 2)?;
    let end = released(alloc, &row)?;
    add(table, finals, row, end)
}

/// Tells the text of these devices by itself, and then behind a line that is there.
fn tell(alloc: Global, told: &mut String, table: &SubsTable, finals: &Finals) -> Result<(), Fail>
    requires { AreEnds table.now finals.now }
{
    let refused = [RefusedLine {
        line: 9,
        refusal: Refusal {
            reason: Reason::UnknownPair(3, 7),
            place: 0,
        },
    }];
    let text = final_text(alloc, table, &refused, finals)?;
    told.push_str(str::from_utf8(text.octets())?)?;
    told.push_str("event 1: sent\n")?;
    put_final_text(alloc, told, table, &refused, finals)?;
    Ok(())
}

#[test]
fn text_of_two_devices(rt: HostRuntime) -> Result<(), Fail> {
    let alloc = rt.alloc();
    let mut table = SubsTable::new(alloc);
    let mut finals = Finals::new(alloc);
    add_both(alloc, &mut table, &mut finals)?;
    let mut told = String::new(alloc);
    tell(alloc, &mut told, &table, &finals)?;
    let texts = told.as_str().split_once("event 1: sent\n");
    assert_eq!(rt; texts, Some((FINAL, FINAL)));
    Ok(())
}
