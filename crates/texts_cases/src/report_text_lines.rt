//! Lines of texts: what `show` prints of each message, the session of a device in each stage, and statuses, by hand.
ghost use Rattle.std.specs.Prelude.{◌≡◌, [], length};

use crate::report_text_calls::FIRST;
use case_form::{PduText, TraceKind, TraceLine};
use device_types::*;
use echo_base::Status;
use report_text::{final_text, show_dia_text, show_gtp_text, show_text, status_line};
use std::alloc::Global;
use std::str;
use std::test::Fail;
use subs_table::{SubsTable, read_row};

/// Texts of a trace, whose first line is line 7.
const TRACE: &str = "\
2017001400000300004002000100084002000103E74001AA
2017000f00000200004002000100084002000100
0g
000c403e000005000800020007001a00161507417108298039000000001002e06000040205d011004300060002f8390102006440080000f110000000100086400130
000d4035000005000000020001000800020007001a000c0b075308a0a1a2a3a4a5a6a7006440080000f11000000010004340060002f8390102
000b4017000003000000020001000800020007001a000403074e0a
0009005f0000060000000200020008000200070042000800058002540be40000180013000034000e050009200f80c0a8000300000405006b000518000e0000004900200000000000000000000000000000000000000000000000000000000000000000
200900220000030000400200010008400200070033400f000032400a0a1fc0a8000200000002
40090015000003000040020001000840020007000240020280
00124015000003000000020001000800020007000240020850
0017001000000200630004000100070002400122
2017000f000002000040020001000840020007
00164016000003000000020001000800020007004a4003020102
data
000a4027000004005040020040002b4006001000000001006d400100002e400b00002f40060002f8390001
20050022000003000040020001000840020001001c400f000027400a0c1fc0a8000200000003
0005003700000300000002000100080002000100100024000011001f0c0009200f80c0a8000100000002106202c101090403696d7305010a2d8001
";

/// What they are: a message with an IE that is passed over, two that are refused, and one of each message; before the last three a
/// notice.
const SHOWN: &str = "\
line 7 UEContextReleaseComplete 2017000f000002000040020001000840020001
line 8 refused 13 TrailingBytes at 19
line 9 refused 29 BadHex
line 10 InitialUEMessage 000c403e000005000800020007001a00161507417108298039000000001002e06000040205d011004300060002f8390102006440080000f110000000100086400130
line 11 UplinkNASTransport 000d4035000005000000020001000800020007001a000c0b075308a0a1a2a3a4a5a6a7006440080000f11000000010004340060002f8390102
line 12 DownlinkNASTransport 000b4017000003000000020001000800020007001a000403074e0a
line 13 InitialContextSetupRequest 0009005f0000060000000200020008000200070042000800058002540be40000180013000034000e050009200f80c0a8000300000405006b000518000e0000004900200000000000000000000000000000000000000000000000000000000000000000
line 14 InitialContextSetupResponse 200900220000030000400200010008400200070033400f000032400a0a1fc0a8000200000002
line 15 InitialContextSetupFailure 40090015000003000040020001000840020007000240020280
line 16 UEContextReleaseRequest 00124015000003000000020001000800020007000240020850
line 17 UEContextReleaseCommand 0017001000000200630004000100070002400122
line 18 UEContextReleaseComplete 2017000f000002000040020001000840020007
line 19 UECapabilityInfoIndication 00164016000003000000020001000800020007004a4003020102
line 21 Paging 000a4027000004005040020040002b4006001000000001006d400100002e400b00002f40060002f8390001
line 22 ErabSetupResponse 20050022000003000040020001000840020001001c400f000027400a0c1fc0a8000200000003
line 23 ErabSetupRequest 0005003700000300000002000100080002000100100024000011001f0c0009200f80c0a8000100000002106202c101090403696d7305010a2d8001
";

/// The line of a trace with that number and text, or a notice for `data`.
fn line(line: u32, text: &str) -> TraceLine {
    let kind = if text == "data" {
        TraceKind::Data { imsi: 1 }
    } else {
        TraceKind::Pdu {
            station: 1,
            text: PduText::new(text.as_bytes()),
        }
    };
    TraceLine { line, kind }
}

/// The lines of a trace with these texts.
fn trace(alloc: Global, texts: &str) -> Result<Vec<TraceLine>, Fail> {
    let mut trace = Vec::new(alloc);
    let mut number = 6_u32;
    for text in texts.lines() {
        number = number.saturating_add(1);
        trace.push(line(number, text))?;
    }
    Ok(trace)
}

#[test]
fn lines_are_shown(rt: HostRuntime) -> Result<(), Fail> {
    let alloc = rt.alloc();
    let trace = trace(alloc, TRACE)?;
    let text = show_text(alloc, &trace)?;
    assert_eq!(rt; str::from_utf8(text.octets())?, SHOWN);
    Ok(())
}

/// Texts of a trace of the gateway's calls and answers, whose first line is line 7.
const GTP_TRACE: &str = "\
4822001e00000001000002FF5D0012004900010005570009008000000002c0a80002
482600080000000100000100
4822001e00000001000002005d0012004900010005570009008000000002c0a8000
data
0017001000000200630004000100070002400122
48AA000C000000010000030003000000
4821000e0000000100000500020002004000
";

/// What they are: a spare octet that is not 0, a type that is not read, half an octet, a notice, a message of S1AP, an element that is
/// passed over, an answer that rejects.
const GTP_SHOWN: &str = "\
line 7 gtp 34 4822001e00000001000002005d0012004900010005570009008000000002c0a80002
line 8 refused 41 GtpType 38 at 1
line 9 refused 29 BadHex
line 11 refused 40 GtpHeader at 0
line 12 gtp 170 48aa00080000000100000300
line 13 gtp 33 4821000e0000000100000500020002004000
";

#[test]
fn lines_of_the_gateway_are_shown(rt: HostRuntime) -> Result<(), Fail> {
    let alloc = rt.alloc();
    let trace = trace(alloc, GTP_TRACE)?;
    let text = show_gtp_text(alloc, &trace)?;
    assert_eq!(rt; str::from_utf8(text.octets())?, GTP_SHOWN);
    Ok(())
}

/// Texts of a trace of the subscriber server's calls and answers, whose first line is line 7.
const DIA_TRACE: &str = "\
010000a0c000013e01000023000000010000000100000107400000146d6d652e6563686f3b313b31000001154000000c0000000100000108400000106d6d652e6563686f000001284000000c6563686f0000011b4000000c6563686f0000000140000017323038393330303030303030303031000000057fc000000f000028af02f8390000000580c000001c000028af00000582c0000010000028af00000001
020000a0c000013e01000023000000010000000100000107400000146d6d652e6563686f3b313b31000001154000000c0000000100000108400000106d6d652e6563686f000001284000000c6563686f0000011b4000000c6563686f0000000140000017323038393330303030303030303031000000057fc000000f000028af02f8390000000580c000001c000028af00000582c0000010000028af00000001
010000a0c000013e01000023000000010000000100000107400000146d6d652e6563686f3b313b31000001154000000c0000000100000108400000106d6d652e6563686f000001284000000c6563686f0000011b4000000c6563686f0000000140000017323038393330303030303030303031000000057fc000000f000028af02f8390000000580c000001c000028af00000582c0000010000028af0000000
data
0017001000000200630004000100070002400122
010000344000013C01000023000000010000000100000107400000146D6D652E6563686F3B313B310000010C4000000C00001394
01
";

/// What they are: a call as it is written, with another version, and without its last half octet; a notice; a message of S1AP; an answer
/// that does not succeed, without what is passed over; a message that is cut.
const DIA_SHOWN: &str = "\
line 7 dia 318 010000a0c000013e01000023000000010000000100000107400000146d6d652e6563686f3b313b31000001154000000c0000000100000108400000106d6d652e6563686f000001284000000c6563686f0000011b4000000c6563686f0000000140000017323038393330303030303030303031000000057fc000000f000028af02f8390000000580c000001c000028af00000582c0000010000028af00000001
line 8 refused 50 DiaHeader at 0
line 9 refused 29 BadHex
line 11 refused 50 DiaHeader at 0
line 12 dia 316 0100005c4000013c01000023000000010000000100000107400000146d6d652e6563686f3b313b310000010c4000000c00001394000001154000000c0000000100000108400000106873732e6563686f000001284000000c6563686f
line 13 refused 1 Truncated at 1
";

#[test]
fn lines_of_the_subscriber_server_are_shown(rt: HostRuntime) -> Result<(), Fail> {
    let alloc = rt.alloc();
    let trace = trace(alloc, DIA_TRACE)?;
    let text = show_dia_text(alloc, &trace)?;
    assert_eq!(rt; str::from_utf8(text.octets())?, DIA_SHOWN);
    Ok(())
}

/// The stages, in the order of their lines.
const STAGES: [Stage; 18] = [
    Stage::Detached,
    Stage::AwaitVectors,
    Stage::Authenticating,
    Stage::Securing,
    Stage::AwaitLocation,
    Stage::AwaitCreate,
    Stage::Accepting,
    Stage::AcceptingContext,
    Stage::AcceptingDone,
    Stage::AwaitModify,
    Stage::Connecting,
    Stage::Connected,
    Stage::AwaitRelease,
    Stage::Releasing,
    Stage::Idle,
    Stage::AwaitDelete,
    Stage::AwaitSecond,
    Stage::AwaitSecondModify,
];

/// The line of a session in each stage.
const SESSIONS: &str = "\
session detached link off area 000000 0 bearer none radio 0
session await-vectors link off area 000000 0 bearer none radio 0
session authenticating link off area 000000 0 bearer none radio 0
session securing link off area 000000 0 bearer none radio 0
session await-location link off area 000000 0 bearer none radio 0
session await-create link off area 000000 0 bearer none radio 0
session accepting link off area 000000 0 bearer none radio 0
session accepting-context link off area 000000 0 bearer none radio 0
session accepting-done link off area 000000 0 bearer none radio 0
session await-modify link off area 000000 0 bearer none radio 0
session connecting link off area 000000 0 bearer none radio 0
session connected link off area 000000 0 bearer none radio 0
session await-release link off area 000000 0 bearer none radio 0
session releasing link off area 000000 0 bearer none radio 0
session idle link off area 000000 0 bearer none radio 0
session await-delete link off area 000000 0 bearer none radio 0
session await-second link off area 000000 0 bearer none radio 0
session await-second-modify link off area 000000 0 bearer none radio 0
";

/// What becomes of a device that sends nothing, but for its stage.
fn end_in(alloc: Global, stage: Stage) -> DeviceEnd
    ensures { result.downs ≡ [] }
{
    let mut session = Session::opening(alloc);
    session.stage = stage;
    DeviceEnd {
        messages: 0,
        steps: 0,
        downs: Downs::new(alloc),
        gateway: GwCalls::new(alloc),
        subscriber: SubCalls::new(alloc),
        session,
    }
}

/// Tells the line of a session in that stage.
#[tactic(auto, using(crate::proofs::Ends::one_end))]
fn tell_stage(alloc: Global, text: &mut String, table: &SubsTable, stage: Stage) -> Result<(), Fail>
    requires { length table.now ≡ 1 }
{
    let mut finals = Finals::new(alloc);
    finals.push(end_in(alloc, stage))?;
    let told = final_text(alloc, table, &[], &finals)?;
    let (_, line) = str::from_utf8(told.octets())?
        .split_once('\n')
        .ok_or("no session")?;
    text.push_str(line)?;
    Ok(())
}

/// Tells the line of a session in each stage.
fn tell_stages(alloc: Global, text: &mut String, table: &SubsTable) -> Result<(), Fail>
    requires { length table.now ≡ 1 }
{
    for stage in STAGES {
        tell_stage(alloc, text, table, stage)?;
    }
    Ok(())
}

#[test]
fn a_line_a_stage(rt: HostRuntime) -> Result<(), Fail> {
    let alloc = rt.alloc();
    let mut table = SubsTable::new(alloc);
    table.add(read_row(alloc, FIRST.as_bytes(), 1)?)?;
    let mut text = String::new(alloc);
    tell_stages(alloc, &mut text, &table)?;
    assert_eq!(rt; text.as_str(), SESSIONS);
    Ok(())
}

/// Statuses; the names of 6, 19 and 22 are TooLong, BadJson and RepeatedImsi, and no reason has number 200.
const STATUSES: [Status; 9] = [
    Status::Done,
    Status::Usage,
    Status::CaseRefused { number: 6, line: 0 },
    Status::CaseRefused {
        number: 19,
        line: 2,
    },
    Status::CaseRefused {
        number: 22,
        line: 3,
    },
    Status::CaseRefused {
        number: 200,
        line: 4,
    },
    Status::ReadFault,
    Status::WriteFault,
    Status::OutOfMemory,
];

/// Their lines.
const STATUS_LINES: &str = "\
echo: done
echo: usage
echo: case refused 6 TooLong line 0
echo: case refused 19 BadJson line 2
echo: case refused 22 RepeatedImsi line 3
echo: case refused 200 line 4
echo: read fault
echo: write fault
echo: out of memory
";

/// Tells the line of each status.
fn tell_statuses(alloc: Global, text: &mut String) -> Result<(), Fail> {
    for status in STATUSES {
        let line = status_line(alloc, &status)?;
        text.push_str(str::from_utf8(line.octets())?)?;
    }
    Ok(())
}

#[test]
fn lines_of_statuses(rt: HostRuntime) -> Result<(), Fail> {
    let mut text = String::new(rt.alloc());
    tell_statuses(rt.alloc(), &mut text)?;
    assert_eq!(rt; text.as_str(), STATUS_LINES);
    Ok(())
}
