//! Messages of GTPv2-C cut at each of their octets, as they are and with the length of what is left.

use crate::cuts::{check_beginnings, check_cuts};
use crate::wire::Wire;
use std::test::Fail;

/// Messages as they are written: the calls of an attach, a release and a detach, and their answers.
const MESSAGES: &str = "\
4820007000000000000001000100080002980300000000f15200010006570009008a000000010a0000014700090008696e7465726e657463000100014f000500010000000048000800000f4240000f42405d001f0049000100055000160020090000000000000000000000000000000000000000
482100400000000100000100020002001000570009008b00000001c0a800014f000500010a2d00015d0018004900010005020002001000570009008100000001c0a80001
4822001e00000001000002005d0012004900010005570009008000000002c0a80002
4823001d00000001000002000200020010005d000b004900010005020002001000
4824000d00000001000003004900010005
4825000e0000000100000300020002001000
48aa00080000000100000400
48ab000e0000000100000400020002001000
";

/// The first of them with so many octets, from twelve on, and the length of these: from and to how many, and what is told of each. An
/// element that is not whole is refused at its place, and where all are whole the first that is missing, at the end.
const CREATE: &str = "\
12 12 11 MissingIe 1 at 12
13 23 1 Truncated at 12
24 24 11 MissingIe 82 at 24
25 28 1 Truncated at 24
29 29 11 MissingIe 87 at 29
30 41 1 Truncated at 29
42 42 11 MissingIe 71 at 42
43 54 1 Truncated at 42
55 55 11 MissingIe 99 at 55
56 59 1 Truncated at 55
60 60 11 MissingIe 79 at 60
61 68 1 Truncated at 60
69 69 11 MissingIe 72 at 69
70 80 1 Truncated at 69
81 81 11 MissingIe 93 at 81
82 115 1 Truncated at 81
116 116 read
";

/// The second of them, likewise.
const CREATED: &str = "\
12 12 11 MissingIe 2 at 12
13 17 1 Truncated at 12
18 18 11 MissingIe 87 at 18
19 30 1 Truncated at 18
31 31 11 MissingIe 79 at 31
32 39 1 Truncated at 31
40 40 11 MissingIe 93 at 40
41 67 1 Truncated at 40
68 68 read
";

#[test]
fn refuses_each_beginning(rt: HostRuntime) -> Result<(), Fail> {
    check_beginnings(&rt, rt.alloc(), Wire::Gtp, MESSAGES)
}

#[test]
fn refuses_where_elements_end(rt: HostRuntime) -> Result<(), Fail> {
    check_cuts(&rt, rt.alloc(), Wire::Gtp, MESSAGES, 0, CREATE)?;
    check_cuts(&rt, rt.alloc(), Wire::Gtp, MESSAGES, 1, CREATED)
}
