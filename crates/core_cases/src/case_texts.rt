//! Runs of the top call. The octets are worked out from TS 36.413 and ITU-T X.691, not taken from the program.

use crate::runs::{tell_end, tell_run};
use echo_base::{Give, MemSink, SureSource};
use echo_run::replay_own;
use link_schedule::OwnFloor;
use std::alloc::{AllocError, Global};
use std::test::Fail;

/// Rows, the columns of one behind its identities, messages from a base station, and messages to it, by their names. Those from
/// `reject` on go down. Where no other is named a message is of eNB-UE-S1AP-ID 1.
const NAMES: &str = "\
row {\"imsi\":\"208930000000001\",\"tmsi\":1,\"rand\":\"000102030405060708090a0b0c0d0e0f\",\"autn\":\"101112131415161718191a1b1c1d1e1f\",\"res\":\"a0a1a2a3a4a5a6a7\",\"key\":\"1111111111111111111111111111111111111111111111111111111111111111\",\"apn\":\"internet\",\"ip\":\"0a2d0001\",\"sgw\":\"c0a80001\",\"teid\":1,\"ambr_dl\":1000000000,\"ambr_ul\":1000000000,\"forbidden\":[9]}
two-row {\"imsi\":\"208930000000001\",\"tmsi\":1,\"rand\":\"000102030405060708090a0b0c0d0e0f\",\"autn\":\"101112131415161718191a1b1c1d1e1f\",\"res\":\"a0a1a2a3a4a5a6a7\",\"key\":\"1111111111111111111111111111111111111111111111111111111111111111\",\"apn\":\"internet\",\"ip\":\"0a2d0001\",\"sgw\":\"c0a80001\",\"teid\":1,\"ambr_dl\":1000000000,\"ambr_ul\":1000000000,\"forbidden\":[9],\"apn2\":\"ims\",\"ip2\":\"0a2d8001\"}
second-row {\"imsi\":\"208930000000002\",\"tmsi\":2,\"rand\":\"000102030405060708090a0b0c0d0e0f\",\"autn\":\"101112131415161718191a1b1c1d1e1f\",\"res\":\"a0a1a2a3a4a5a6a7\",\"key\":\"1111111111111111111111111111111111111111111111111111111111111111\",\"apn\":\"internet\",\"ip\":\"0a2d0002\",\"sgw\":\"c0a80001\",\"teid\":2,\"ambr_dl\":1000000000,\"ambr_ul\":1000000000,\"forbidden\":[]}
third-row {\"imsi\":\"208930000000003\",\"tmsi\":3,\"rand\":\"000102030405060708090a0b0c0d0e0f\",\"autn\":\"101112131415161718191a1b1c1d1e1f\",\"res\":\"a0a1a2a3a4a5a6a7\",\"key\":\"1111111111111111111111111111111111111111111111111111111111111111\",\"apn\":\"internet\",\"ip\":\"0a2d0003\",\"sgw\":\"c0a80001\",\"teid\":3,\"ambr_dl\":1000000000,\"ambr_ul\":1000000000,\"forbidden\":[]}
short-row {\"imsi\":\"20893000000001\",\"rand\":\"000102030405060708090a0b0c0d0e0f\",\"autn\":\"101112131415161718191a1b1c1d1e1f\",\"res\":\"a0a1a2a3a4a5a6a7\",\"key\":\"1111111111111111111111111111111111111111111111111111111111111111\",\"apn\":\"internet\",\"ip\":\"0a2d0001\",\"sgw\":\"c0a80001\",\"teid\":1,\"ambr_dl\":1000000000,\"ambr_ul\":1000000000,\"forbidden\":[9]}
row-without-gateway {\"imsi\":\"208930000000001\",\"tmsi\":1,\"rand\":\"000102030405060708090a0b0c0d0e0f\",\"autn\":\"101112131415161718191a1b1c1d1e1f\",\"res\":\"a0a1a2a3a4a5a6a7\",\"key\":\"1111111111111111111111111111111111111111111111111111111111111111\",\"apn\":\"internet\",\"ip\":\"0a2d0001\",\"sgw\":\"c0a80001\",\"teid\":0,\"ambr_dl\":1000000000,\"ambr_ul\":1000000000,\"forbidden\":[9]}
columns \"rand\":\"000102030405060708090a0b0c0d0e0f\",\"autn\":\"101112131415161718191a1b1c1d1e1f\",\"res\":\"a0a1a2a3a4a5a6a7\",\"key\":\"1111111111111111111111111111111111111111111111111111111111111111\",\"apn\":\"internet\",\"ip\":\"0a2d0001\",\"sgw\":\"c0a80001\",\"teid\":1,\"ambr_dl\":1000000000,\"ambr_ul\":1000000000,\"forbidden\":[9]}
attach 000c403e000005000800020001001a00161507417108298039000000001002e0e000040201d011004300060002f8390001006440080002f839000000100086400130
wide 000c40400000050008000480ffffff001a00161507417108298039000000001002e0e000040201d011004300060002f8390001006440080002f839000000100086400130
zero-in-front 000c40400000050008000480000001001a00161507417108298039000000001002e0e000040201d011004300060002f8390001006440080002f839000000100086400130
attach-and-more 000c4046000006000800020001001a00161507417108298039000000001002e0e000040201d011004300060002f8390001006440080002f839000000100086400130004b000400000000
no-cause 0012400f000002000000020001000800020001
other 000c403e000005000800020001001a00161507417108298039000000002002e0e000040201d011004300060002f8390001006440080002f839000000100086400130
moved 000c403e000005000800020002001a00161507417108298039000000001002e0e000040201d011004300060002f8390001006440080002f839000000100086400130
service 000c4037000006000800020001001a000504c7000000004300060002f8390001006440080002f83900000010008640014000600006004000000001
third-service 000c4037000006000800020003001a000504c7000000004300060002f8390001006440080002f83900000010008640014000600006004000000003
area 000c4038000005000800020002001a00100f0748700bf602f83900010100000001004300060002f8390009006440080002f839000000100086400130
detach 000c4035000005000800020001001a000d0c074509082980390000000010004300060002f8390001006440080002f839000000100086400130
response 000d4035000005000000020001000800020001001a000c0b075308a0a1a2a3a4a5a6a7006440080002f83900000010004340060002f8390001
secured 000d4032000005000000020001000800020001001a000908470000000000075e006440080002f83900000010004340060002f8390001
rejected 000d402d000005000000020001000800020001001a000403075f17006440080002f83900000010004340060002f8390001
complete 000d4037000005000000020001000800020001001a000e0d270000000001074300035200c2006440080002f83900000010004340060002f8390001
later-area 000d4039000005000000020001000800020001001a00100f0748700bf602f83900010100000001006440080002f83900000010004340060002f8390009
later-detach 000d4036000005000000020001000800020001001a000d0c074501082980390000000010006440080002f83900000010004340060002f8390001
done 200900220000030000400200010008400200010033400f000032400a0a1fc0a8000200000002
done-six 200900220000030000400200010008400200010033400f000032400a0c1fc0a8000200000002
done-second 200900300000030000400200010008400200010033401d010032400a0c1fc0a80001000000010032400a0a1fc0a8000200000002
done-twice 200900300000030000400200010008400200010033401d010032400a0a1fc0a80002000000020032400a0a1fc0a8000300000003
failure 40090015000003000040020001000840020001000240020280
capability 00164016000003000000020001000800020001004a4003020102
request 00124015000003000000020001000800020001000240020280
two 00124015000003000000020001000800020002000240020280
released 2017000f000002000040020001000840020001
attach-away 000c403e000005000800020001001a00161507417108298039000000001002e0e000040201d011004300060002f8390009006440080002f839000000100086400130
wrong-response 000d4035000005000000020001000800020001001a000c0b075308a0a1a2a3a4a5a600006440080002f83900000010004340060002f8390001
area-next 000c4038000005000800020002001a00100f0748700bf602f83900010100000001004300060002f8390002006440080002f839000000100086400130
later-area-next 000d4039000005000000020001000800020001001a00100f0748700bf602f83900010100000001006440080002f83900000010004340060002f8390002
detach-on 000c4035000005000800020001001a000d0c074501082980390000000010004300060002f8390001006440080002f839000000100086400130
detach-moved 000c4035000005000800020002001a000d0c074501082980390000000010004300060002f8390001006440080002f839000000100086400130
later-off 000d4036000005000000020001000800020001001a000d0c074509082980390000000010006440080002f83900000010004340060002f8390001
pdn-request 000d4034000005000000020001000800020001001a000b0a2700000000030202d011006440080002f83900000010004340060002f8390001
pdn-accept 000d4033000005000000020001000800020001001a000a092700000000046200c2006440080002f83900000010004340060002f8390001
added 20050022000003000040020001000840020001001c400f000027400a0c1fc0a8000200000003
not-added 2005001b000003000040020001000840020001001d400800002340030c0000
reject 000b4017000003000000020001000800020001001a000403074e0a
authentication 000b4038000003000000020001000800020001001a002524075200000102030405060708090a0b0c0d0e0f10101112131415161718191a1b1c1d1e1f
authentication-two 000b4038000003000000020001000800020002001a002524075200000102030405060708090a0b0c0d0e0f10101112131415161718191a1b1c1d1e1f
authentication-other 000b4038000003000000020002000800020001001a002524075200000102030405060708090a0b0c0d0e0f10101112131415161718191a1b1c1d1e1f
security 000b401b000003000000020001000800020001001a000807075d000002e0e0
setup 00090080840000060000000200010008000200010042000a183b9aca00603b9aca00001800360000340031450009200f80c0a800010000000122074201e0060002f839000100155201c101090908696e7465726e657405010a2d0001006b000518000c0000004900201111111111111111111111111111111111111111111111111111111111111111
setup-again 000900610000060000000200010008000200010042000a183b9aca00603b9aca0000180013000034000e050009200f80c0a8000100000001006b000518000c0000004900201111111111111111111111111111111111111111111111111111111111111111
attach-reject 000b4017000003000000020001000800020001001a00040307440c
no-authentication 000b4016000003000000020001000800020001001a0003020754
area-accept 000b4017000003000000020001000800020001001a000403074900
area-accept-two 000b4017000003000000020001000800020002001a000403074900
area-reject 000b4017000003000000020001000800020001001a000403074b0c
area-reject-two 000b4017000003000000020001000800020002001a000403074b0c
area-unknown-two 000b4017000003000000020001000800020002001a000403074b09
detach-accept 000b4016000003000000020001000800020001001a0003020746
detach-accept-two 000b4016000003000000020001000800020002001a0003020746
release-normal 0017001000000200630004000100010002400120
release-normal-two 0017001000000200630004000100020002400120
release-failed 0017001000000200630004000100010002400122
release-detach 0017001000000200630004000100010002400124
release-detach-two 0017001000000200630004000100020002400124
release-other 0017001000000200630004000100010002400126
release-inactivity 001700110000020063000400010001000240020280
release-inactivity-two 001700110000020063000400010002000240020280
pdn-reject 000b4018000003000000020001000800020001001a0005040202d11b
setup-anew 00090080840000060000000200010008000200010042000a183b9aca00603b9aca00001800360000340031450009200f80c0a800010000000322074201e0060002f839000100155201c101090908696e7465726e657405010a2d0001006b000518000c0000004900201111111111111111111111111111111111111111111111111111111111111111
setup-both 000900730000060000000200010008000200010042000a183b9aca00603b9aca0000180025010034000e050009200f80c0a80001000000010034000e060009200f80c0a8000100000002006b000518000c0000004900201111111111111111111111111111111111111111111111111111111111111111
second-setup 0005003700000300000002000100080002000100100024000011001f0c0009200f80c0a8000100000002106202c101090403696d7305010a2d8001
second-setup-anew 0005003700000300000002000100080002000100100024000011001f0c0009200f80c0a8000100000004106202c101090403696d7305010a2d8001
paging 000a4027000004005040020040002b4006001000000001006d400100002e400b00002f40060002f8390001
";

/// A device that attaches: its messages, which make ten steps.
pub(crate) const ATTACH: &str =
    "[subscribers]|row|[trace]|1 attach|1 response|1 secured|1 done|1 capability|1 complete";

/// The words of a command, a case text, and what is written, or the status line. A bar stands for the end of a line, and the name of a
/// row or a message at the end of a line for it.
const CASES: &str = "\
plain = [subscribers]|row|[trace]|1 service = device 208930000000001 messages 1 steps 1|down 1 1 reject|session detached link off area 000000 0 bearer none radio 0
plain = [subscribers]|row|[trace]|1 attach|1 response|1 secured|1 done|1 capability|1 complete = device 208930000000001 messages 6 steps 10|down 1 1 authentication|down 2 1 security|down 3 1 setup|gateway 1 create|gateway 2 modify c0a80002 2|subscriber 1 vectors|subscriber 2 location|session connected link 1/1 area 02f839 1 bearer active radio 2
plain = [subscribers]|row|[trace]|1 attach|1 wrong-response = device 208930000000001 messages 2 steps 3|down 1 1 authentication|down 2 1 no-authentication|down 3 1 release-failed|subscriber 1 vectors|session releasing link 1/1 area 02f839 1 bearer none radio 0
plain = [subscribers]|row = device 208930000000001 messages 0 steps 0|session detached link off area 000000 0 bearer none radio 0
plain = [subscribers]|row|[trace]|1 attach|1 response|1 secured|1 done|1 capability|1 complete|1 request|1 released|1 area = device 208930000000001 messages 9 steps 14|down 1 1 authentication|down 2 1 security|down 3 1 setup|down 4 1 release-inactivity|down 5 1 area-reject-two|down 6 1 release-normal-two|gateway 1 create|gateway 2 modify c0a80002 2|gateway 3 release|subscriber 1 vectors|subscriber 2 location|session releasing link 1/2 area 02f839 1 bearer made radio 2
plain = [subscribers]|row|[trace]|1 attach|2 service|1 request = refused 6 31 UnknownPair 1 1|device 208930000000001 messages 2 steps 3|down 1 1 authentication|down 2 2 reject|subscriber 1 vectors|session authenticating link 1/1 area 02f839 1 bearer none radio 0
plain = [subscribers]|row|[trace]|1 service|2 request|1 two|1 released = refused 5 31 UnknownPair 2 1|refused 6 31 UnknownPair 1 2|device 208930000000001 messages 2 steps 2|down 1 1 reject|session detached link off area 000000 0 bearer none radio 0
plain = [subscribers]|row|second-row|[trace]|1 service|1 other|1 request = refused 7 31 UnknownPair 1 1|device 208930000000001 messages 1 steps 1|down 1 1 reject|session detached link off area 000000 0 bearer none radio 0|device 208930000000002 messages 1 steps 2|down 1 1 authentication-other|subscriber 1 vectors|session authenticating link 1/1 area 02f839 1 bearer none radio 0
plain = [subscribers]|row|[trace]|1 0g = refused 4 29 BadHex|device 208930000000001 messages 0 steps 0|session detached link off area 000000 0 bearer none radio 0
replay = [subscribers]|row|[trace]|1 attach|[schedule]|send 1 1|take 1 1 1|take 2 1 1|read 1|read 2|write 1|write 2 = event 1: sent|event 2: taken|event 3: taken|event 4: ready 0|event 5: ready 0|event 6: committed 1|event 7: stale 0 1|device 208930000000001 messages 1 steps 2|down 1 1 authentication|subscriber 1 vectors|session authenticating link 1/1 area 02f839 1 bearer none radio 0
replay = [subscribers]|row|[trace]|1 attach|[schedule]|send 1 1|take 1 1 1|read 1|write 1|stop 1|send 1 1|take 2 1 1|read 2|reply 1 1|reply 1 1 = event 1: sent|event 2: taken|event 3: ready 0|event 4: committed 1|event 5: stopped|event 6: sent|event 7: taken|event 8: repeat 1|event 9: acked 1|event 10: old 1|device 208930000000001 messages 1 steps 2|down 1 1 authentication|subscriber 1 vectors|session authenticating link 1/1 area 02f839 1 bearer none radio 0
replay = [subscribers]|row|[trace]|1 attach|1 response|[schedule]|send 1 2|take 1 1 2|read 1|send 1 1|take 2 1 1|read 2|write 2|read 1|write 1 = event 1: sent|event 2: taken|event 3: ahead 0|event 4: sent|event 5: taken|event 6: ready 0|event 7: committed 1|event 8: waiting subscriber 1|event 9: void hand|device 208930000000001 messages 2 steps 3|down 1 1 authentication|down 2 1 security|subscriber 1 vectors|session securing link 1/1 area 02f839 1 bearer none radio 0
replay = [subscribers]|row|[trace]|1 attach|[schedule]|send 1 1|take 1 1 1|take 2 1 1|read 1|read 2|write 1|write 2|push 1 subscriber 1|effect 1 subscriber 1|effect 1 subscriber 1|effect 1 subscriber 1|answer 1 1 subscriber 1|read 1|write 1|answer 2 1 subscriber 1|read 2|settle 1 subscriber 1|settle 1 subscriber 1|push 1 subscriber 1 = event 1: sent|event 2: taken|event 3: taken|event 4: ready 0|event 5: ready 0|event 6: committed 1|event 7: stale 0 1|event 8: pushed|event 9: accepted 1|event 10: repeat 1|event 11: repeat 1|event 12: taken|event 13: ready 1|event 14: committed 2|event 15: taken|event 16: old subscriber 1|event 17: settled 1|event 18: old 1|event 19: void outbox|device 208930000000001 messages 1 steps 2|down 1 1 authentication|subscriber 1 vectors|session authenticating link 1/1 area 02f839 1 bearer none radio 0
replay = [subscribers]|row|[trace]|1 service|1 service|1 service|1 service|1 service|[schedule]|send 1 1|take 1 1 1|read 1|write 1|send 1 2|take 1 1 2|read 1|write 1|send 1 3|take 1 1 3|read 1|write 1|send 1 4|take 1 1 4|read 1|write 1|reply 1 1|send 1 5|take 1 1 5|read 1|write 1|take 2 1 1|read 2|take 2 1 2|read 2|send 1 6 = event 1: sent|event 2: taken|event 3: ready 0|event 4: committed 1|event 5: sent|event 6: taken|event 7: ready 1|event 8: committed 2|event 9: sent|event 10: taken|event 11: ready 2|event 12: committed 3|event 13: sent|event 14: taken|event 15: ready 3|event 16: committed 4|event 17: acked 1|event 18: sent|event 19: taken|event 20: ready 4|event 21: committed 5|event 22: taken|event 23: settled 1|event 24: taken|event 25: repeat 2|event 26: void window|device 208930000000001 messages 5 steps 5|down 1 1 reject|down 2 1 reject|down 3 1 reject|down 4 1 reject|down 5 1 reject|session detached link off area 000000 0 bearer none radio 0
replay = [subscribers]|row|[trace]|1 attach|1 response|1 secured|1 done|1 capability|1 complete = device 208930000000001 messages 6 steps 10|down 1 1 authentication|down 2 1 security|down 3 1 setup|gateway 1 create|gateway 2 modify c0a80002 2|subscriber 1 vectors|subscriber 2 location|session connected link 1/1 area 02f839 1 bearer active radio 2
replay --replicas=1 = [subscribers]|row|[trace]|1 attach|[schedule]|stop 2|write 1|push 1 down 1|take 1 1 1|effect 1 down 1 = event 1: void replica|event 2: void hand|event 3: void outbox|event 4: void link|event 5: void link|device 208930000000001 messages 1 steps 2|down 1 1 authentication|subscriber 1 vectors|session authenticating link 1/1 area 02f839 1 bearer none radio 0
replay = [subscribers]|row|[trace]|1 attach|1 response|1 secured|1 done|1 capability|1 complete|[schedule]|send 1 1|take 1 1 1|read 1|write 1|push 1 subscriber 1|effect 1 subscriber 1|answer 1 1 subscriber 1|read 1|write 1|send 1 2|take 1 1 2|read 1|write 1|send 1 3|take 1 1 3|read 1|write 1|push 1 subscriber 2|effect 1 subscriber 2|answer 1 1 subscriber 2|read 1|write 1|effect 1 gateway 2|push 1 gateway 1|effect 1 gateway 1|effect 1 gateway 1|answer 1 1 gateway 1|read 1|write 1|send 1 4|take 1 1 4|read 1|write 1|reply 1 4|send 1 5|take 1 1 5|read 1|write 1|send 1 6|take 1 1 6|read 1|write 1|push 1 gateway 2|effect 1 gateway 2|answer 1 1 gateway 2|read 1|write 1 = event 1: sent|event 2: taken|event 3: ready 0|event 4: committed 1|event 5: pushed|event 6: accepted 1|event 7: taken|event 8: ready 1|event 9: committed 2|event 10: sent|event 11: taken|event 12: ready 2|event 13: committed 3|event 14: sent|event 15: taken|event 16: ready 3|event 17: committed 4|event 18: pushed|event 19: accepted 2|event 20: taken|event 21: ready 4|event 22: committed 5|event 23: void link|event 24: pushed|event 25: accepted 1|event 26: repeat 1|event 27: taken|event 28: ready 5|event 29: committed 6|event 30: sent|event 31: taken|event 32: ready 6|event 33: committed 7|event 34: acked 4|event 35: sent|event 36: taken|event 37: ready 7|event 38: committed 8|event 39: sent|event 40: taken|event 41: ready 8|event 42: committed 9|event 43: pushed|event 44: accepted 2|event 45: taken|event 46: ready 9|event 47: committed 10|device 208930000000001 messages 6 steps 10|down 1 1 authentication|down 2 1 security|down 3 1 setup|gateway 1 create|gateway 2 modify c0a80002 2|subscriber 1 vectors|subscriber 2 location|session connected link 1/1 area 02f839 1 bearer active radio 2
replay = [trace]|1 service|[schedule]|stop 1|stop 3|read 2|write 1 = event 1: stopped|event 2: void replica|event 3: void hand|event 4: void hand|refused 2 30 UnknownDevice tmsi 1
replay = [subscribers]|[schedule]|send 1 1 = echo: case refused 26 BadLine line 3
replay = [trace]|1 attach|[schedule]|stop 17 = echo: case refused 26 BadLine line 4
show = [subscribers]|row|[trace]|1 attach = line 4 InitialUEMessage attach
show = [trace]|1 attach = line 2 InitialUEMessage attach
show = [trace]|1 request|1 no-cause = line 2 UEContextReleaseRequest request|line 3 refused 11 MissingIe 2 at 19
show = [trace]|1 wide|1 zero-in-front = line 2 InitialUEMessage wide|line 3 refused 4 NotMinimal at 12
show = [trace]|1 attach-and-more = line 2 InitialUEMessage attach
plain = [subscribers]|row|row = echo: case refused 22 RepeatedImsi line 3
plain = [subscribers]|short-row = echo: case refused 20 MissingColumn line 2
plain = [subscribers]|row-without-gateway = echo: case refused 21 BadColumn line 2
show = [subscribers]|{ = echo: case refused 19 BadJson line 2
show = [subscribers]|row|[schedule]|take 1 2 1 = echo: case refused 26 BadLine line 4
plain = [schedule]|[trace] = echo: case refused 25 BadSection line 2
plain = [subscribers]|row|[trace]|1 attach|1 response|1 secured|1 done|1 capability|1 complete|1 request|1 released|data 208930000000001|1 service|1 done = device 208930000000001 messages 11 steps 17|down 1 1 authentication|down 2 1 security|down 3 1 setup|down 4 1 release-inactivity|down 5 0 paging|down 6 1 setup-again|gateway 1 create|gateway 2 modify c0a80002 2|gateway 3 release|gateway 4 modify c0a80002 2|subscriber 1 vectors|subscriber 2 location|session connected link 1/1 area 02f839 1 bearer active radio 2
plain = [subscribers]|row|[trace]|data 208930000000002 = refused 4 30 UnknownDevice imsi 208930000000002|device 208930000000001 messages 0 steps 0|session detached link off area 000000 0 bearer none radio 0
plain = [subscribers]|row|second-row|[trace]|data 208930000000002|data 000000000000000|1 request|1 paging|data 208930000000002 = refused 6 30 UnknownDevice imsi 000000000000000|refused 7 31 UnknownPair 1 1|refused 8 14 WrongDirection at 1|device 208930000000001 messages 0 steps 0|session detached link off area 000000 0 bearer none radio 0|device 208930000000002 messages 2 steps 2|session detached link off area 000000 0 bearer none radio 0
plain = [subscribers]|row|[trace]|data 208930000000001|data 208930000000001|data 208930000000001 = device 208930000000001 messages 3 steps 3|session detached link off area 000000 0 bearer none radio 0
plain = [trace]|data 20893000000001 = echo: case refused 26 BadLine line 2
show = [trace]|data 208930000000001|1 attach|1 paging|data 208930000000001 = line 3 InitialUEMessage attach|line 4 Paging paging
plain = [subscribers]|row|[trace]|1 attach|1 response|1 secured|1 done|1 capability|1 complete|1 pdn-request = device 208930000000001 messages 7 steps 11|down 1 1 authentication|down 2 1 security|down 3 1 setup|down 4 1 pdn-reject|gateway 1 create|gateway 2 modify c0a80002 2|subscriber 1 vectors|subscriber 2 location|session connected link 1/1 area 02f839 1 bearer active radio 2
plain = [subscribers]|row|[trace]|1 attach|1 response|1 secured|1 done|1 capability|1 complete|1 pdn-request|1 added|1 pdn-accept = device 208930000000001 messages 9 steps 13|down 1 1 authentication|down 2 1 security|down 3 1 setup|down 4 1 pdn-reject|gateway 1 create|gateway 2 modify c0a80002 2|subscriber 1 vectors|subscriber 2 location|session connected link 1/1 area 02f839 1 bearer active radio 2
plain = [subscribers]|two-row|[trace]|1 attach|1 response|1 secured|1 done|1 capability|1 complete|1 pdn-request|1 added|1 pdn-accept = device 208930000000001 messages 9 steps 15|down 1 1 authentication|down 2 1 security|down 3 1 setup|down 4 1 second-setup|gateway 1 create|gateway 2 modify c0a80002 2|gateway 3 second-create|gateway 4 second-modify c0a80002 3|subscriber 1 vectors|subscriber 2 location|session connected link 1/1 area 02f839 1 bearer active radio 2|second active
plain = [subscribers]|two-row|[trace]|1 attach|1 response|1 secured|1 done|1 capability|1 complete|1 pdn-request|1 pdn-accept|1 added = device 208930000000001 messages 9 steps 15|down 1 1 authentication|down 2 1 security|down 3 1 setup|down 4 1 second-setup|gateway 1 create|gateway 2 modify c0a80002 2|gateway 3 second-create|gateway 4 second-modify c0a80002 3|subscriber 1 vectors|subscriber 2 location|session connected link 1/1 area 02f839 1 bearer active radio 2|second active
plain = [subscribers]|two-row|[trace]|1 attach|1 response|1 secured|1 done|1 capability|1 complete|1 pdn-request|1 added|1 pdn-accept|1 request|1 released = device 208930000000001 messages 11 steps 18|down 1 1 authentication|down 2 1 security|down 3 1 setup|down 4 1 second-setup|down 5 1 release-inactivity|gateway 1 create|gateway 2 modify c0a80002 2|gateway 3 second-create|gateway 4 second-modify c0a80002 3|gateway 5 release|subscriber 1 vectors|subscriber 2 location|session idle link off area 02f839 1 bearer made radio 2|second made
plain = [subscribers]|two-row|[trace]|1 attach|1 response|1 secured|1 done|1 capability|1 complete|1 pdn-request = device 208930000000001 messages 7 steps 12|down 1 1 authentication|down 2 1 security|down 3 1 setup|down 4 1 second-setup|gateway 1 create|gateway 2 modify c0a80002 2|gateway 3 second-create|subscriber 1 vectors|subscriber 2 location|session connected link 1/1 area 02f839 1 bearer active radio 2|second made
plain = [subscribers]|two-row|[trace]|1 attach|1 response|1 secured|1 done|1 capability|1 complete|1 pdn-request|1 added = device 208930000000001 messages 8 steps 13|down 1 1 authentication|down 2 1 security|down 3 1 setup|down 4 1 second-setup|gateway 1 create|gateway 2 modify c0a80002 2|gateway 3 second-create|subscriber 1 vectors|subscriber 2 location|session connected link 1/1 area 02f839 1 bearer active radio 2|second made
plain = [subscribers]|two-row|[trace]|1 attach|1 response|1 secured|1 done|1 capability|1 complete|1 pdn-request|1 pdn-accept = device 208930000000001 messages 8 steps 13|down 1 1 authentication|down 2 1 security|down 3 1 setup|down 4 1 second-setup|gateway 1 create|gateway 2 modify c0a80002 2|gateway 3 second-create|subscriber 1 vectors|subscriber 2 location|session connected link 1/1 area 02f839 1 bearer active radio 2|second made
plain = [subscribers]|two-row|[trace]|1 attach|1 response|1 secured|1 done|1 capability|1 complete|1 pdn-request|1 not-added = device 208930000000001 messages 8 steps 13|down 1 1 authentication|down 2 1 security|down 3 1 setup|down 4 1 second-setup|gateway 1 create|gateway 2 modify c0a80002 2|gateway 3 second-create|subscriber 1 vectors|subscriber 2 location|session connected link 1/1 area 02f839 1 bearer active radio 2|second made
plain = [subscribers]|two-row|[trace]|1 attach|1 response|1 secured|1 done|1 capability|1 complete|1 pdn-request|1 added|1 pdn-accept|1 pdn-request = device 208930000000001 messages 10 steps 16|down 1 1 authentication|down 2 1 security|down 3 1 setup|down 4 1 second-setup|gateway 1 create|gateway 2 modify c0a80002 2|gateway 3 second-create|gateway 4 second-modify c0a80002 3|subscriber 1 vectors|subscriber 2 location|session connected link 1/1 area 02f839 1 bearer active radio 2|second active
plain = [subscribers]|two-row|[trace]|1 attach|1 response|1 secured|1 done|1 capability|1 complete|1 added|1 pdn-accept = device 208930000000001 messages 8 steps 12|down 1 1 authentication|down 2 1 security|down 3 1 setup|gateway 1 create|gateway 2 modify c0a80002 2|subscriber 1 vectors|subscriber 2 location|session connected link 1/1 area 02f839 1 bearer active radio 2
plain = [subscribers]|two-row|[trace]|1 attach|1 response|1 secured|1 done|1 capability|1 complete|1 pdn-request|1 added|1 pdn-accept|1 request|1 released|1 service|1 done-second = device 208930000000001 messages 13 steps 22|down 1 1 authentication|down 2 1 security|down 3 1 setup|down 4 1 second-setup|down 5 1 release-inactivity|down 6 1 setup-both|gateway 1 create|gateway 2 modify c0a80002 2|gateway 3 second-create|gateway 4 second-modify c0a80002 3|gateway 5 release|gateway 6 modify c0a80002 2|gateway 7 second-modify c0a80001 1|subscriber 1 vectors|subscriber 2 location|session connected link 1/1 area 02f839 1 bearer active radio 2|second active
plain = [subscribers]|two-row|[trace]|1 attach|1 response|1 secured|1 done|1 capability|1 complete|1 pdn-request|1 added|1 pdn-accept|1 request|1 released|1 service|1 done = device 208930000000001 messages 13 steps 21|down 1 1 authentication|down 2 1 security|down 3 1 setup|down 4 1 second-setup|down 5 1 release-inactivity|down 6 1 setup-both|gateway 1 create|gateway 2 modify c0a80002 2|gateway 3 second-create|gateway 4 second-modify c0a80002 3|gateway 5 release|gateway 6 modify c0a80002 2|subscriber 1 vectors|subscriber 2 location|session connected link 1/1 area 02f839 1 bearer active radio 2|second made
plain = [subscribers]|two-row|[trace]|1 attach|1 response|1 secured|1 done|1 capability|1 complete|1 pdn-request|1 added|1 pdn-accept|1 later-detach = device 208930000000001 messages 10 steps 17|down 1 1 authentication|down 2 1 security|down 3 1 setup|down 4 1 second-setup|down 5 1 detach-accept|down 6 1 release-detach|gateway 1 create|gateway 2 modify c0a80002 2|gateway 3 second-create|gateway 4 second-modify c0a80002 3|gateway 5 delete|subscriber 1 vectors|subscriber 2 location|subscriber 3 purge|session releasing link 1/1 area 02f839 1 bearer none radio 2
plain = [subscribers]|two-row|[trace]|1 attach|1 response|1 secured|1 done|1 capability|1 complete|1 pdn-request|1 added|1 pdn-accept|1 attach|1 response = device 208930000000001 messages 11 steps 18|down 1 1 authentication|down 2 1 security|down 3 1 setup|down 4 1 second-setup|down 5 1 authentication|down 6 1 security|gateway 1 create|gateway 2 modify c0a80002 2|gateway 3 second-create|gateway 4 second-modify c0a80002 3|subscriber 1 vectors|subscriber 2 location|subscriber 3 vectors|session securing link 1/1 area 02f839 1 bearer active radio 2|second active
plain = [subscribers]|two-row|[trace]|1 attach|1 response|1 secured|1 done|1 capability|1 complete|1 pdn-request|1 added|1 pdn-accept|1 attach|1 response|1 secured = device 208930000000001 messages 12 steps 21|down 1 1 authentication|down 2 1 security|down 3 1 setup|down 4 1 second-setup|down 5 1 authentication|down 6 1 security|down 7 1 setup-anew|gateway 1 create|gateway 2 modify c0a80002 2|gateway 3 second-create|gateway 4 second-modify c0a80002 3|gateway 5 create|subscriber 1 vectors|subscriber 2 location|subscriber 3 vectors|subscriber 4 location|session accepting link 1/1 area 02f839 1 bearer made radio 2
plain = [subscribers]|two-row|[trace]|1 attach|1 response|1 secured|1 done|1 capability|1 complete|1 pdn-request|1 added|1 pdn-accept|1 attach|1 response|1 secured|1 done|1 complete|1 pdn-request = device 208930000000001 messages 15 steps 26|down 1 1 authentication|down 2 1 security|down 3 1 setup|down 4 1 second-setup|down 5 1 authentication|down 6 1 security|down 7 1 setup-anew|down 8 1 second-setup-anew|gateway 1 create|gateway 2 modify c0a80002 2|gateway 3 second-create|gateway 4 second-modify c0a80002 3|gateway 5 create|gateway 6 modify c0a80002 2|gateway 7 second-create|subscriber 1 vectors|subscriber 2 location|subscriber 3 vectors|subscriber 4 location|session connected link 1/1 area 02f839 1 bearer active radio 2|second made
replay = [subscribers]|two-row|[trace]|1 attach|1 response|1 secured|1 done|1 capability|1 complete|1 pdn-request|1 added|1 pdn-accept|[schedule]|send 1 1|take 1 1 1|read 1|write 1|push 1 subscriber 1|effect 1 subscriber 1|answer 1 1 subscriber 1|read 1|write 1|send 1 2|take 1 1 2|read 1|write 1|send 1 3|take 1 1 3|read 1|write 1|push 1 subscriber 2|effect 1 subscriber 2|answer 1 1 subscriber 2|read 1|write 1|effect 1 gateway 2|push 1 gateway 1|effect 1 gateway 1|effect 1 gateway 1|answer 1 1 gateway 1|read 1|write 1|send 1 4|take 1 1 4|read 1|write 1|reply 1 4|send 1 5|take 1 1 5|read 1|write 1|send 1 6|take 1 1 6|read 1|write 1|push 1 gateway 2|effect 1 gateway 2|answer 1 1 gateway 2|read 1|write 1|send 1 7|take 1 1 7|read 1|write 1|stop 1|send 1 7|take 2 1 7|read 2|reply 1 7|push 1 gateway 3|effect 1 gateway 3|answer 1 1 gateway 3|read 1|stop 1|write 1|answer 2 1 gateway 3|read 2|write 2|send 1 9|take 2 1 9|read 2|send 1 8|take 1 1 8|read 1|write 1|read 2|write 2|push 1 gateway 4|effect 1 gateway 4|answer 1 1 gateway 4|answer 2 1 gateway 4|read 1|read 2|write 2|write 1 = event 1: sent|event 2: taken|event 3: ready 0|event 4: committed 1|event 5: pushed|event 6: accepted 1|event 7: taken|event 8: ready 1|event 9: committed 2|event 10: sent|event 11: taken|event 12: ready 2|event 13: committed 3|event 14: sent|event 15: taken|event 16: ready 3|event 17: committed 4|event 18: pushed|event 19: accepted 2|event 20: taken|event 21: ready 4|event 22: committed 5|event 23: void link|event 24: pushed|event 25: accepted 1|event 26: repeat 1|event 27: taken|event 28: ready 5|event 29: committed 6|event 30: sent|event 31: taken|event 32: ready 6|event 33: committed 7|event 34: acked 4|event 35: sent|event 36: taken|event 37: ready 7|event 38: committed 8|event 39: sent|event 40: taken|event 41: ready 8|event 42: committed 9|event 43: pushed|event 44: accepted 2|event 45: taken|event 46: ready 9|event 47: committed 10|event 48: sent|event 49: taken|event 50: ready 10|event 51: committed 11|event 52: stopped|event 53: sent|event 54: taken|event 55: repeat 7|event 56: acked 7|event 57: pushed|event 58: accepted 3|event 59: taken|event 60: ready 11|event 61: stopped|event 62: void hand|event 63: taken|event 64: ready 11|event 65: committed 12|event 66: sent|event 67: taken|event 68: ahead 7|event 69: sent|event 70: taken|event 71: ready 12|event 72: committed 13|event 73: ready 13|event 74: committed 14|event 75: pushed|event 76: accepted 4|event 77: taken|event 78: taken|event 79: ready 14|event 80: ready 14|event 81: committed 15|event 82: stale 14 15|device 208930000000001 messages 9 steps 15|down 1 1 authentication|down 2 1 security|down 3 1 setup|down 4 1 second-setup|gateway 1 create|gateway 2 modify c0a80002 2|gateway 3 second-create|gateway 4 second-modify c0a80002 3|subscriber 1 vectors|subscriber 2 location|session connected link 1/1 area 02f839 1 bearer active radio 2|second active
show = [trace]|1 added|1 pdn-request|1 pdn-accept|1 pdn-reject|1 second-setup|1 setup-both = line 2 ErabSetupResponse added|line 3 UplinkNASTransport pdn-request|line 4 UplinkNASTransport pdn-accept|line 5 DownlinkNASTransport pdn-reject|line 6 ErabSetupRequest second-setup|line 7 InitialContextSetupRequest setup-both
epochs --device=1 --number=22830 --events=40 = [subscribers]|row|[trace]|1 attach|1 response|1 secured|2 service|2 request|1 service = event 1: void link|event 2: sent|event 3: sent|event 4: committed 1|event 5: sent|event 6: low 1|event 7: renamed 2|event 8: sent|event 9: sent|event 10: ahead 0|event 11: old|event 12: void link|event 13: void link|event 14: sent|event 15: sent|event 16: committed 2|event 17: committed 3|event 18: repeat 1|event 19: over 1|event 20: sent|event 21: void link|event 22: sent|event 23: repeat 1|event 24: sent|event 25: sent|event 26: void link|event 27: acked 1|event 28: void link|event 29: old|event 30: sent|event 31: void link|event 32: void link|event 33: sent|event 34: over|event 35: void link|event 36: void window|event 37: sent|event 38: void link|event 39: old|event 40: void link|merge 1 2 1 1|merge 2 1 1 1|merge 1 1 2 1|session authenticating link 1/1 area 02f839 1 bearer none radio 0
epochs --events 14 --number 999 --device 2 = [subscribers]|row|second-row|[trace]|1 service|1 other|2 other|1 service = event 1: void link|event 2: sent|event 3: sent|event 4: sent|event 5: committed 1|event 6: low 1|event 7: sent|event 8: void link|event 9: repeat 1|event 10: void link|event 11: sent|event 12: void link|event 13: void link|event 14: low 1|merge 2 1 1 1|session authenticating link 2/1 area 02f839 1 bearer none radio 0
epochs --device=1 --number=9762 --events=12 = [subscribers]|row|[trace]|1 attach|data 208930000000001|1 response|data 208930000000001 = event 1: void link|event 2: sent|event 3: void link|event 4: committed 1|event 5: void link|event 6: repeat 1|event 7: sent|event 8: committed 2|event 9: sent|event 10: committed 3|event 11: sent|event 12: committed 4|merge 0 1 1 1|merge 0 2 1 1|merge 1 1 1 1|merge 1 1 1 2|session securing link 1/1 area 02f839 1 bearer none radio 0
epochs --device=1 --number=223793 --events=28 = [subscribers]|two-row|[trace]|1 attach|1 response|1 secured|1 done|1 complete|1 pdn-request = event 1: sent|event 2: committed 1|event 3: repeat 1|event 4: sent|event 5: sent|event 6: committed 2|event 7: sent|event 8: void link|event 9: void link|event 10: acked 2|event 11: sent|event 12: ahead 2|event 13: sent|event 14: committed 3|event 15: sent|event 16: repeat 2|event 17: void window|event 18: sent|event 19: repeat 2|event 20: committed 4|event 21: repeat 4|event 22: repeat 1|event 23: repeat 1|event 24: committed 5|event 25: sent|event 26: repeat 2|event 27: repeat 4|event 28: committed 6|merge 1 1 1 1|merge 1 1 1 2|merge 1 1 1 3|merge 1 1 1 4|merge 1 1 1 5|merge 1 1 1 6|session connected link 1/1 area 02f839 1 bearer active radio 0
s11 = [subscribers]|row|[trace]|1 attach|1 response|1 secured|1 done|1 capability|1 complete = device 208930000000001|call 1 4820007000000000000001000100080002980300000000f15200010006570009008a000000010a0000014700090008696e7465726e657463000100014f000500010000000048000800000f4240000f42405d001f0049000100055000160020090000000000000000000000000000000000000000|answer 1 482100400000000100000100020002001000570009008b00000001c0a800014f000500010a2d00015d0018004900010005020002001000570009008100000001c0a80001|call 2 4822001e00000001000002005d0012004900010005570009008000000002c0a80002|answer 2 4823001d00000001000002000200020010005d000b004900010005020002001000
s11 = [subscribers]|two-row|[trace]|1 attach|1 response|1 secured|1 done|1 capability|1 complete|1 pdn-request|1 added|1 pdn-accept|1 attach|1 response|1 secured|1 done|1 complete|1 pdn-request = device 208930000000001|call 1 4820007000000000000001000100080002980300000000f15200010006570009008a000000010a0000014700090008696e7465726e657463000100014f000500010000000048000800000f4240000f42405d001f0049000100055000160020090000000000000000000000000000000000000000|answer 1 482100400000000100000100020002001000570009008b00000001c0a800014f000500010a2d00015d0018004900010005020002001000570009008100000001c0a80001|call 2 4822001e00000001000002005d0012004900010005570009008000000002c0a80002|answer 2 4823001d00000001000002000200020010005d000b004900010005020002001000|call 3 4820006b00000001000003000100080002980300000000f15200010006570009008a000000010a0000014700040003696d7363000100014f000500010000000048000800000f4240000f42405d001f0049000100065000160020090000000000000000000000000000000000000000|answer 3 482100400000000100000300020002001000570009008b00000001c0a800014f000500010a2d80015d0018004900010006020002001000570009008100000002c0a80001|call 4 4822001e00000001000004005d0012004900010006570009008000000003c0a80002|answer 4 4823001d00000001000004000200020010005d000b004900010006020002001000|call 5 4820007000000000000005000100080002980300000000f15200010006570009008a000000010a0000014700090008696e7465726e657463000100014f000500010000000048000800000f4240000f42405d001f0049000100055000160020090000000000000000000000000000000000000000|answer 5 482100400000000100000500020002001000570009008b00000001c0a800014f000500010a2d00015d0018004900010005020002001000570009008100000003c0a80001|call 6 4822001e00000001000006005d0012004900010005570009008000000002c0a80002|answer 6 4823001d00000001000006000200020010005d000b004900010005020002001000|call 7 4820006b00000001000007000100080002980300000000f15200010006570009008a000000010a0000014700040003696d7363000100014f000500010000000048000800000f4240000f42405d001f0049000100065000160020090000000000000000000000000000000000000000|answer 7 482100400000000100000700020002001000570009008b00000001c0a800014f000500010a2d80015d0018004900010006020002001000570009008100000004c0a80001
s6a = [subscribers]|row|[trace]|1 attach|1 response|1 secured|1 done|1 capability|1 complete = device 208930000000001|call 1 010000a0c000013e01000023000000010000000100000107400000146d6d652e6563686f3b313b31000001154000000c0000000100000108400000106d6d652e6563686f000001284000000c6563686f0000011b4000000c6563686f0000000140000017323038393330303030303030303031000000057fc000000f000028af02f8390000000580c000001c000028af00000582c0000010000028af00000001|answer 1 010000ec4000013e01000023000000010000000100000107400000146d6d652e6563686f3b313b310000010c4000000c000007d1000001154000000c0000000100000108400000106873732e6563686f000001284000000c6563686f00000585c0000090000028af00000586c0000084000028af000005a7c000001c000028af000102030405060708090a0b0c0d0e0f000005a8c0000014000028afa0a1a2a3a4a5a6a7000005a9c000001c000028af101112131415161718191a1b1c1d1e1f000005aac000002c000028af1111111111111111111111111111111111111111111111111111111111111111|call 2 01000094c000013c01000023000000020000000200000107400000146d6d652e6563686f3b313b32000001154000000c0000000100000108400000106d6d652e6563686f000001284000000c6563686f0000011b4000000c6563686f0000000140000017323038393330303030303030303031000000057fc000000f000028af02f839000000057dc0000010000028af00000022|answer 2 010000944000013c01000023000000020000000200000107400000146d6d652e6563686f3b313b320000010c4000000c000007d1000001154000000c0000000100000108400000106873732e6563686f000001284000000c6563686f00000578c0000038000028af0000059bc000002c000028af00000204c0000010000028af3b9aca0000000203c0000010000028af3b9aca00
s6a = [subscribers]|two-row|[trace]|1 attach|1 response|1 secured|1 done|1 capability|1 complete|1 pdn-request|1 added|1 pdn-accept|1 later-detach = device 208930000000001|call 1 010000a0c000013e01000023000000010000000100000107400000146d6d652e6563686f3b313b31000001154000000c0000000100000108400000106d6d652e6563686f000001284000000c6563686f0000011b4000000c6563686f0000000140000017323038393330303030303030303031000000057fc000000f000028af02f8390000000580c000001c000028af00000582c0000010000028af00000001|answer 1 010000ec4000013e01000023000000010000000100000107400000146d6d652e6563686f3b313b310000010c4000000c000007d1000001154000000c0000000100000108400000106873732e6563686f000001284000000c6563686f00000585c0000090000028af00000586c0000084000028af000005a7c000001c000028af000102030405060708090a0b0c0d0e0f000005a8c0000014000028afa0a1a2a3a4a5a6a7000005a9c000001c000028af101112131415161718191a1b1c1d1e1f000005aac000002c000028af1111111111111111111111111111111111111111111111111111111111111111|call 2 01000094c000013c01000023000000020000000200000107400000146d6d652e6563686f3b313b32000001154000000c0000000100000108400000106d6d652e6563686f000001284000000c6563686f0000011b4000000c6563686f0000000140000017323038393330303030303030303031000000057fc000000f000028af02f839000000057dc0000010000028af00000022|answer 2 010000944000013c01000023000000020000000200000107400000146d6d652e6563686f3b313b320000010c4000000c000007d1000001154000000c0000000100000108400000106873732e6563686f000001284000000c6563686f00000578c0000038000028af0000059bc000002c000028af00000204c0000010000028af3b9aca0000000203c0000010000028af3b9aca00|call 3 01000074c000014101000023000000030000000300000107400000146d6d652e6563686f3b313b33000001154000000c0000000100000108400000106d6d652e6563686f000001284000000c6563686f0000011b4000000c6563686f000000014000001732303839333030303030303030303100|answer 3 0100005c4000014101000023000000030000000300000107400000146d6d652e6563686f3b313b330000010c4000000c000007d1000001154000000c0000000100000108400000106873732e6563686f000001284000000c6563686f
s6a = [subscribers]|second-row|row|[trace]|1 request|1 attach = device 208930000000001|call 1 010000a0c000013e01000023000000010000000100000107400000146d6d652e6563686f3b323b31000001154000000c0000000100000108400000106d6d652e6563686f000001284000000c6563686f0000011b4000000c6563686f0000000140000017323038393330303030303030303031000000057fc000000f000028af02f8390000000580c000001c000028af00000582c0000010000028af00000001|answer 1 010000ec4000013e01000023000000010000000100000107400000146d6d652e6563686f3b323b310000010c4000000c000007d1000001154000000c0000000100000108400000106873732e6563686f000001284000000c6563686f00000585c0000090000028af00000586c0000084000028af000005a7c000001c000028af000102030405060708090a0b0c0d0e0f000005a8c0000014000028afa0a1a2a3a4a5a6a7000005a9c000001c000028af101112131415161718191a1b1c1d1e1f000005aac000002c000028af1111111111111111111111111111111111111111111111111111111111111111|device 208930000000002
s11 = [subscribers]|second-row|row|[trace]|1 request|1 attach = device 208930000000001|device 208930000000002
s11 = [subscribers]|short-row = echo: case refused 20 MissingColumn line 2
s6a = [subscribers]|row|[schedule]|take 1 2 1 = echo: case refused 26 BadLine line 4
crash --after=18 = [subscribers]|row|[trace]|1 attach|1 response|1 secured|1 done|1 capability|1 complete = acknowledged 4 found 4|device 208930000000001 version 4
crash --after 19 = [subscribers]|row|[trace]|1 attach|1 response|1 secured|1 done|1 capability|1 complete = acknowledged 4 found 5|device 208930000000001 version 5
crash --after=59 = [subscribers]|two-row|[trace]|1 attach|1 response|1 secured|1 done|1 capability|1 complete|1 pdn-request|1 added|1 pdn-accept = acknowledged 14 found 15|device 208930000000001 version 15
crash --after=0 = [subscribers] = acknowledged 0 found 0
crash --after=0 = [schedule]|[trace] = echo: case refused 25 BadSection line 2
";

/// The messages of the first subscriber from base station 1, and what becomes of the device: each row of the step table (3GPP TS
/// 23.401, 5.3; an answer follows its call at once); messages that fit no row; and a notice in each stage, of which one pages.
const TRACES: &str = "\
attach-away = device 208930000000001 messages 1 steps 1|down 1 1 attach-reject|down 2 1 release-normal|session releasing link 1/1 area 000000 0 bearer none radio 0
attach = device 208930000000001 messages 1 steps 2|down 1 1 authentication|subscriber 1 vectors|session authenticating link 1/1 area 02f839 1 bearer none radio 0
attach response = device 208930000000001 messages 2 steps 3|down 1 1 authentication|down 2 1 security|subscriber 1 vectors|session securing link 1/1 area 02f839 1 bearer none radio 0
attach wrong-response = device 208930000000001 messages 2 steps 3|down 1 1 authentication|down 2 1 no-authentication|down 3 1 release-failed|subscriber 1 vectors|session releasing link 1/1 area 02f839 1 bearer none radio 0
attach response secured = device 208930000000001 messages 3 steps 6|down 1 1 authentication|down 2 1 security|down 3 1 setup|gateway 1 create|subscriber 1 vectors|subscriber 2 location|session accepting link 1/1 area 02f839 1 bearer made radio 0
attach response rejected = device 208930000000001 messages 3 steps 4|down 1 1 authentication|down 2 1 security|down 3 1 release-other|subscriber 1 vectors|session releasing link 1/1 area 02f839 1 bearer none radio 0
attach response secured done = device 208930000000001 messages 4 steps 7|down 1 1 authentication|down 2 1 security|down 3 1 setup|gateway 1 create|subscriber 1 vectors|subscriber 2 location|session accepting-context link 1/1 area 02f839 1 bearer made radio 0
attach response secured complete = device 208930000000001 messages 4 steps 7|down 1 1 authentication|down 2 1 security|down 3 1 setup|gateway 1 create|subscriber 1 vectors|subscriber 2 location|session accepting-done link 1/1 area 02f839 1 bearer made radio 0
attach response secured complete done = device 208930000000001 messages 5 steps 9|down 1 1 authentication|down 2 1 security|down 3 1 setup|gateway 1 create|gateway 2 modify c0a80002 2|subscriber 1 vectors|subscriber 2 location|session connected link 1/1 area 02f839 1 bearer active radio 0
attach response secured done complete = device 208930000000001 messages 5 steps 9|down 1 1 authentication|down 2 1 security|down 3 1 setup|gateway 1 create|gateway 2 modify c0a80002 2|subscriber 1 vectors|subscriber 2 location|session connected link 1/1 area 02f839 1 bearer active radio 0
attach response secured failure = device 208930000000001 messages 4 steps 8|down 1 1 authentication|down 2 1 security|down 3 1 setup|down 4 1 release-other|gateway 1 create|gateway 2 delete|subscriber 1 vectors|subscriber 2 location|subscriber 3 purge|session releasing link 1/1 area 02f839 1 bearer none radio 0
attach response secured complete failure = device 208930000000001 messages 5 steps 9|down 1 1 authentication|down 2 1 security|down 3 1 setup|down 4 1 release-other|gateway 1 create|gateway 2 delete|subscriber 1 vectors|subscriber 2 location|subscriber 3 purge|session releasing link 1/1 area 02f839 1 bearer none radio 0
attach request = device 208930000000001 messages 2 steps 3|down 1 1 authentication|down 2 1 release-inactivity|subscriber 1 vectors|session releasing link 1/1 area 02f839 1 bearer none radio 0
attach request released = device 208930000000001 messages 3 steps 4|down 1 1 authentication|down 2 1 release-inactivity|subscriber 1 vectors|session detached link off area 02f839 1 bearer none radio 0
attach capability = device 208930000000001 messages 2 steps 3|down 1 1 authentication|subscriber 1 vectors|session authenticating link 1/1 area 02f839 1 bearer none radio 2
service = device 208930000000001 messages 1 steps 1|down 1 1 reject|session detached link off area 000000 0 bearer none radio 0
attach response secured done complete request = device 208930000000001 messages 6 steps 11|down 1 1 authentication|down 2 1 security|down 3 1 setup|down 4 1 release-inactivity|gateway 1 create|gateway 2 modify c0a80002 2|gateway 3 release|subscriber 1 vectors|subscriber 2 location|session releasing link 1/1 area 02f839 1 bearer made radio 0
attach response secured done complete request released = device 208930000000001 messages 7 steps 12|down 1 1 authentication|down 2 1 security|down 3 1 setup|down 4 1 release-inactivity|gateway 1 create|gateway 2 modify c0a80002 2|gateway 3 release|subscriber 1 vectors|subscriber 2 location|session idle link off area 02f839 1 bearer made radio 0
attach response secured done complete request released service = device 208930000000001 messages 8 steps 13|down 1 1 authentication|down 2 1 security|down 3 1 setup|down 4 1 release-inactivity|down 5 1 setup-again|gateway 1 create|gateway 2 modify c0a80002 2|gateway 3 release|subscriber 1 vectors|subscriber 2 location|session connecting link 1/1 area 02f839 1 bearer made radio 0
attach response secured done complete request released service done = device 208930000000001 messages 9 steps 15|down 1 1 authentication|down 2 1 security|down 3 1 setup|down 4 1 release-inactivity|down 5 1 setup-again|gateway 1 create|gateway 2 modify c0a80002 2|gateway 3 release|gateway 4 modify c0a80002 2|subscriber 1 vectors|subscriber 2 location|session connected link 1/1 area 02f839 1 bearer active radio 0
attach response secured done complete request released service failure = device 208930000000001 messages 9 steps 14|down 1 1 authentication|down 2 1 security|down 3 1 setup|down 4 1 release-inactivity|down 5 1 setup-again|down 6 1 release-other|gateway 1 create|gateway 2 modify c0a80002 2|gateway 3 release|subscriber 1 vectors|subscriber 2 location|session releasing link 1/1 area 02f839 1 bearer made radio 0
attach response secured done complete request released service request = device 208930000000001 messages 9 steps 14|down 1 1 authentication|down 2 1 security|down 3 1 setup|down 4 1 release-inactivity|down 5 1 setup-again|down 6 1 release-inactivity|gateway 1 create|gateway 2 modify c0a80002 2|gateway 3 release|subscriber 1 vectors|subscriber 2 location|session releasing link 1/1 area 02f839 1 bearer made radio 0
attach response secured done complete area-next = device 208930000000001 messages 6 steps 11|down 1 1 authentication|down 2 1 security|down 3 1 setup|down 4 1 release-normal|down 5 1 area-accept-two|down 6 1 release-normal-two|gateway 1 create|gateway 2 modify c0a80002 2|gateway 3 release|subscriber 1 vectors|subscriber 2 location|session releasing link 1/2 area 02f839 2 bearer made radio 0
attach response secured done complete request released area = device 208930000000001 messages 8 steps 13|down 1 1 authentication|down 2 1 security|down 3 1 setup|down 4 1 release-inactivity|down 5 1 area-reject-two|down 6 1 release-normal-two|gateway 1 create|gateway 2 modify c0a80002 2|gateway 3 release|subscriber 1 vectors|subscriber 2 location|session releasing link 1/2 area 02f839 1 bearer made radio 0
area = device 208930000000001 messages 1 steps 1|down 1 1 area-unknown-two|session detached link off area 000000 0 bearer none radio 0
attach response secured done complete later-area = device 208930000000001 messages 6 steps 10|down 1 1 authentication|down 2 1 security|down 3 1 setup|down 4 1 area-reject|gateway 1 create|gateway 2 modify c0a80002 2|subscriber 1 vectors|subscriber 2 location|session connected link 1/1 area 02f839 1 bearer active radio 0
attach response secured done complete later-area-next = device 208930000000001 messages 6 steps 10|down 1 1 authentication|down 2 1 security|down 3 1 setup|down 4 1 area-accept|gateway 1 create|gateway 2 modify c0a80002 2|subscriber 1 vectors|subscriber 2 location|session connected link 1/1 area 02f839 2 bearer active radio 0
detach-on = device 208930000000001 messages 1 steps 1|down 1 1 detach-accept|session detached link off area 000000 0 bearer none radio 0
detach = device 208930000000001 messages 1 steps 1|session detached link off area 000000 0 bearer none radio 0
attach detach-moved = device 208930000000001 messages 2 steps 3|down 1 1 authentication|down 2 1 release-normal|down 3 1 detach-accept-two|down 4 1 release-detach-two|subscriber 1 vectors|session releasing link 1/2 area 02f839 1 bearer none radio 0
attach later-detach = device 208930000000001 messages 2 steps 3|down 1 1 authentication|down 2 1 detach-accept|down 3 1 release-detach|subscriber 1 vectors|session releasing link 1/1 area 02f839 1 bearer none radio 0
attach later-off = device 208930000000001 messages 2 steps 3|down 1 1 authentication|down 2 1 release-detach|subscriber 1 vectors|session releasing link 1/1 area 02f839 1 bearer none radio 0
attach response secured done complete later-detach = device 208930000000001 messages 6 steps 11|down 1 1 authentication|down 2 1 security|down 3 1 setup|down 4 1 detach-accept|down 5 1 release-detach|gateway 1 create|gateway 2 modify c0a80002 2|gateway 3 delete|subscriber 1 vectors|subscriber 2 location|subscriber 3 purge|session releasing link 1/1 area 02f839 1 bearer none radio 0
attach response secured done complete later-off = device 208930000000001 messages 6 steps 11|down 1 1 authentication|down 2 1 security|down 3 1 setup|down 4 1 release-detach|gateway 1 create|gateway 2 modify c0a80002 2|gateway 3 delete|subscriber 1 vectors|subscriber 2 location|subscriber 3 purge|session releasing link 1/1 area 02f839 1 bearer none radio 0
service area detach = device 208930000000001 messages 3 steps 3|down 1 1 reject|down 2 1 area-unknown-two|session detached link off area 000000 0 bearer none radio 0
service response secured = device 208930000000001 messages 3 steps 3|down 1 1 reject|session detached link off area 000000 0 bearer none radio 0
service rejected complete = device 208930000000001 messages 3 steps 3|down 1 1 reject|session detached link off area 000000 0 bearer none radio 0
service later-area later-detach = device 208930000000001 messages 3 steps 3|down 1 1 reject|session detached link off area 000000 0 bearer none radio 0
service done done-six = device 208930000000001 messages 3 steps 3|down 1 1 reject|session detached link off area 000000 0 bearer none radio 0
service done-second done-twice failure = device 208930000000001 messages 4 steps 4|down 1 1 reject|session detached link off area 000000 0 bearer none radio 0
service request capability = device 208930000000001 messages 3 steps 3|down 1 1 reject|session detached link off area 000000 0 bearer none radio 0
notice = device 208930000000001 messages 1 steps 1|session detached link off area 000000 0 bearer none radio 0
attach-away notice = device 208930000000001 messages 2 steps 2|down 1 1 attach-reject|down 2 1 release-normal|session releasing link 1/1 area 000000 0 bearer none radio 0
attach notice = device 208930000000001 messages 2 steps 3|down 1 1 authentication|subscriber 1 vectors|session authenticating link 1/1 area 02f839 1 bearer none radio 0
attach response notice = device 208930000000001 messages 3 steps 4|down 1 1 authentication|down 2 1 security|subscriber 1 vectors|session securing link 1/1 area 02f839 1 bearer none radio 0
attach response secured notice = device 208930000000001 messages 4 steps 7|down 1 1 authentication|down 2 1 security|down 3 1 setup|gateway 1 create|subscriber 1 vectors|subscriber 2 location|session accepting link 1/1 area 02f839 1 bearer made radio 0
attach response secured done notice = device 208930000000001 messages 5 steps 8|down 1 1 authentication|down 2 1 security|down 3 1 setup|gateway 1 create|subscriber 1 vectors|subscriber 2 location|session accepting-context link 1/1 area 02f839 1 bearer made radio 0
attach response secured complete notice = device 208930000000001 messages 5 steps 8|down 1 1 authentication|down 2 1 security|down 3 1 setup|gateway 1 create|subscriber 1 vectors|subscriber 2 location|session accepting-done link 1/1 area 02f839 1 bearer made radio 0
attach response secured done complete notice = device 208930000000001 messages 6 steps 10|down 1 1 authentication|down 2 1 security|down 3 1 setup|gateway 1 create|gateway 2 modify c0a80002 2|subscriber 1 vectors|subscriber 2 location|session connected link 1/1 area 02f839 1 bearer active radio 0
attach response secured done complete request notice = device 208930000000001 messages 7 steps 12|down 1 1 authentication|down 2 1 security|down 3 1 setup|down 4 1 release-inactivity|gateway 1 create|gateway 2 modify c0a80002 2|gateway 3 release|subscriber 1 vectors|subscriber 2 location|session releasing link 1/1 area 02f839 1 bearer made radio 0
attach response secured done complete request released notice = device 208930000000001 messages 8 steps 13|down 1 1 authentication|down 2 1 security|down 3 1 setup|down 4 1 release-inactivity|down 5 0 paging|gateway 1 create|gateway 2 modify c0a80002 2|gateway 3 release|subscriber 1 vectors|subscriber 2 location|session idle link off area 02f839 1 bearer made radio 0
attach response secured done complete request released service notice = device 208930000000001 messages 9 steps 14|down 1 1 authentication|down 2 1 security|down 3 1 setup|down 4 1 release-inactivity|down 5 1 setup-again|gateway 1 create|gateway 2 modify c0a80002 2|gateway 3 release|subscriber 1 vectors|subscriber 2 location|session connecting link 1/1 area 02f839 1 bearer made radio 0
service released released request = refused 6 31 UnknownPair 1 1|refused 7 31 UnknownPair 1 1|device 208930000000001 messages 2 steps 2|down 1 1 reject|session detached link off area 000000 0 bearer none radio 0
service moved request two = refused 6 31 UnknownPair 1 1|device 208930000000001 messages 3 steps 4|down 1 1 reject|down 2 1 authentication-two|down 3 1 release-inactivity-two|subscriber 1 vectors|session releasing link 1/2 area 02f839 1 bearer none radio 0
";

/// The row or the message of that name, or the text itself.
pub(crate) fn named(name: &str) -> &str {
    for line in NAMES.lines() {
        if let Some((other, text)) = line.split_once(' ') {
            if other == name {
                return text;
            }
        }
    }
    name
}

/// Puts a line behind a text, with what the name at its end stands for.
fn put_line(text: &mut String, line: &str) -> Result<(), AllocError> {
    match line.rsplit_once(' ') {
        Some((front, name)) => {
            let last = named(name);
            writeln!(text, "{front} {last}")
        }
        None => {
            let line = named(line);
            writeln!(text, "{line}")
        }
    }
}

/// Puts the lines that stand between bars behind a text.
pub(crate) fn put_lines(text: &mut String, bars: &str) -> Result<(), AllocError> {
    for line in bars.split('|') {
        put_line(text, line)?;
    }
    Ok(())
}

/// The text of lines that stand between bars.
pub(crate) fn lines(alloc: Global, bars: &str) -> Result<String, AllocError> {
    let mut text = String::new(alloc);
    put_lines(&mut text, bars)?;
    Ok(text)
}

/// Puts what the case of a line comes to behind one text, and what it is to come to behind another.
fn tell_case(
    alloc: Global,
    told: &mut String,
    wanted: &mut String,
    case: &str,
) -> Result<(), Fail> {
    let (words, rest) = case.split_once(" = ").ok_or("no text")?;
    let (bars, end) = rest.split_once(" = ").ok_or("no end")?;
    let text = lines(alloc, bars)?;
    tell_run(told, alloc, words, text.as_bytes(), &[], &[])?;
    put_lines(wanted, end)?;
    Ok(())
}

/// What the cases come to, and what they are to come to.
fn told_cases(alloc: Global) -> Result<(String, String), Fail> {
    let (mut told, mut wanted) = (String::new(alloc), String::new(alloc));
    for case in CASES.lines() {
        tell_case(alloc, &mut told, &mut wanted, case)?;
    }
    Ok((told, wanted))
}

#[test]
fn cases_give_their_texts(rt: HostRuntime) -> Result<(), Fail> {
    let (told, wanted) = told_cases(rt.alloc())?;
    assert_eq!(rt; told.as_str(), wanted.as_str());
    Ok(())
}

#[test]
fn no_text_gives_none(rt: HostRuntime) -> Result<(), Fail> {
    let alloc = rt.alloc();
    let mut told = String::new(alloc);
    tell_run(&mut told, alloc, "plain", b"", &[], &[])?;
    tell_run(&mut told, alloc, "replay", b"", &[], &[])?;
    tell_run(&mut told, alloc, "s11", b"", &[], &[])?;
    tell_run(&mut told, alloc, "s6a", b"", &[], &[])?;
    let (words, other) = (
        "epochs --device=1 --number=1",
        "epochs --device=2 --number=1",
    );
    let text = lines(alloc, "[subscribers]|row|[trace]")?;
    tell_run(&mut told, alloc, words, text.as_bytes(), &[], &[])?;
    let text = lines(alloc, "[subscribers]|row|[trace]|1 service")?;
    tell_run(&mut told, alloc, other, text.as_bytes(), &[], &[])?;
    assert_eq!(rt; told.as_str(), "");
    Ok(())
}

/// The case of the first subscriber with the messages of these names from base station 1, and a notice at each word `notice`.
fn trace_case(alloc: Global, names: &str) -> Result<String, AllocError> {
    let mut text = lines(alloc, "[subscribers]|row|[trace]")?;
    for name in names.split(' ') {
        if name == "notice" {
            text.push_str("data 208930000000001\n")?;
        } else {
            let octets = named(name);
            writeln!(text, "1 {octets}")?;
        }
    }
    Ok(text)
}

/// What the traces come to, and what they are to come to.
fn told_traces(alloc: Global) -> Result<(String, String), Fail> {
    let (mut told, mut wanted) = (String::new(alloc), String::new(alloc));
    for trace in TRACES.lines() {
        let (names, end) = trace.split_once(" = ").ok_or("no end")?;
        let text = trace_case(alloc, names)?;
        tell_run(&mut told, alloc, "plain", text.as_bytes(), &[], &[])?;
        put_lines(&mut wanted, end)?;
    }
    Ok((told, wanted))
}

#[test]
fn traces_give_their_ends(rt: HostRuntime) -> Result<(), Fail> {
    let (told, wanted) = told_traces(rt.alloc())?;
    assert_eq!(rt; told.as_str(), wanted.as_str());
    Ok(())
}

/// A table with one row too many.
fn overfull_table(alloc: Global) -> Result<String, Fail> {
    let (_, columns) = named("row").split_once(",\"rand").ok_or("no columns")?;
    let mut text = String::from_str(alloc, "[subscribers]\n")?;
    for i in 0..4097u32 {
        writeln!(text, "{{\"imsi\":\"{i:015}\",\"tmsi\":{i},\"rand{columns}")?;
    }
    Ok(text)
}

#[test]
fn full_table(rt: HostRuntime) -> Result<(), Fail> {
    let alloc = rt.alloc();
    let text = overfull_table(alloc)?;
    let mut told = String::new(alloc);
    tell_run(&mut told, alloc, "show", text.as_bytes(), &[], &[])?;
    assert_eq!(rt;
        told.as_str(),
        "echo: case refused 24 TableFull line 4098\n"
    );
    Ok(())
}

/// Words that are no command, a line each. The first line has none. The table of words stands in `command_words`.
const USAGES: &str = "
plain --replicas=2
show --text
replay --replicas=17
replay --replicas=2 --replicas=2
make
make --text
make --number=7 --devices=40
make --number=7 --devices=40 --rounds=19 --rounds=19
make --number=00000000007 --devices=40 --rounds=19
make --number=7 --devices=40 --rounds=20
make --number=7 --devices=40 --rounds=19 --text=1
run
load
crash
crash --after=4294967296
";

/// Words of `replay`, and how many replicas there are.
const REPLICAS: &str = "\
replay: 2
replay --replicas=1: 1
replay --replicas 1: 1
replay --replicas=2: 2
replay --replicas 3: 3
replay --replicas=16: 16
replay --replicas 16: 16
replay --replicas=02: 2
replay --replicas 0000000009: 9
replay --replicas=0000000010: 10
";

/// A case with an event for each replica that there may be.
fn stops(alloc: Global) -> Result<String, AllocError> {
    let mut text = lines(alloc, "[subscribers]|row|[schedule]")?;
    for r in 1..17u32 {
        writeln!(text, "stop {r}")?;
    }
    Ok(text)
}

/// Puts behind a text what is written of that case where there are so many replicas.
fn put_stops(wanted: &mut String, replicas: u32) -> Result<(), AllocError> {
    for r in 1..17u32 {
        let answer = if r <= replicas {
            "stopped"
        } else {
            "void replica"
        };
        writeln!(wanted, "event {r}: {answer}")?;
    }
    writeln!(wanted, "device 208930000000001 messages 0 steps 0")?;
    writeln!(
        wanted,
        "session detached link off area 000000 0 bearer none radio 0"
    )
}

/// What the words of `replay` come to, and what they are to come to.
fn told_replicas(alloc: Global) -> Result<(String, String), Fail> {
    let (mut told, mut wanted) = (String::new(alloc), String::new(alloc));
    let text = stops(alloc)?;
    for line in REPLICAS.lines() {
        let (words, replicas) = line.split_once(": ").ok_or("no replicas")?;
        tell_run(&mut told, alloc, words, text.as_bytes(), &[], &[])?;
        put_stops(&mut wanted, replicas.parse::<u32>()?)?;
    }
    Ok((told, wanted))
}

#[test]
fn words_give_replicas(rt: HostRuntime) -> Result<(), Fail> {
    let (told, wanted) = told_replicas(rt.alloc())?;
    assert_eq!(rt; told.as_str(), wanted.as_str());
    Ok(())
}

/// What the other words come to, over a source that fails at once, and what they are to come to.
fn told_usages(alloc: Global) -> Result<(String, String), Fail> {
    let (mut told, mut wanted) = (String::new(alloc), String::new(alloc));
    for words in USAGES.lines() {
        writeln!(told, "{words}")?;
        tell_run(&mut told, alloc, words, b"", &[Give::Fail], &[])?;
        writeln!(wanted, "{words}\necho: usage")?;
    }
    Ok((told, wanted))
}

#[test]
fn other_words_are_usage(rt: HostRuntime) -> Result<(), Fail> {
    let (told, wanted) = told_usages(rt.alloc())?;
    assert_eq!(rt; told.as_str(), wanted.as_str());
    Ok(())
}

/// Puts what `plain` comes to over so many octets of one letter behind the text.
fn tell_length(told: &mut String, alloc: Global, length: usize) -> Result<(), Fail> {
    let words = vec![in alloc; String::from_str(alloc, "plain")?]?;
    let mut input = SureSource::new(vec![in alloc; b'x'; length]?);
    let mut out = MemSink::new(alloc, 16, Vec::new(alloc))?;
    let status = replay_own(alloc, &words, &mut input, &mut out, &mut OwnFloor::new());
    tell_end(told, status, out.held())
}

/// What `plain` comes to over 8,193, 67,108,864 and 67,108,865 octets of one letter.
const LENGTHS: &str = "\
echo: case refused 28 LineTooLong line 1
echo: case refused 28 LineTooLong line 1
echo: case refused 6 TooLong line 0
";

#[test]
fn the_longest_text(rt: HostRuntime) -> Result<(), Fail> {
    let alloc = rt.alloc();
    let mut told = String::new(alloc);
    tell_length(&mut told, alloc, 8_193)?;
    tell_length(&mut told, alloc, 67_108_864)?;
    tell_length(&mut told, alloc, 67_108_865)?;
    assert_eq!(rt; told.as_str(), LENGTHS);
    Ok(())
}
