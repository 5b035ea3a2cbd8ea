//! A Purge-UE-Answer with each of its octets set to each value, by RFC 6733, 3, 4.1 and 7.1, and 3GPP TS 29.272, 7.1.8, 7.2.14.

use crate::changes::{check_changed, check_kinds};
use crate::wire::Wire;
use std::test::Fail;

/// The answer: its session at 20, padded from 29 on, and its result at 32, up to 44.
const ANSWER: &str =
    "0100002c400001410100002300000001000000010000010740000009730000000000010c4000000c000007d1";

/// What is told of the answer with an octet changed, but for its command: the place of the octet, from and to which value, and what is
/// told.
const ANSWER_CHANGED: &str = "\
0 00 00 50 DiaHeader at 0
0 01 01 Purged
0 02 ff 50 DiaHeader at 0
1 00 00 Purged
1 01 ff 1 Truncated at 1
2 00 00 Purged
2 01 ff 1 Truncated at 1
3 00 13 1 Truncated at 1
3 14 14 13 TrailingBytes at 20
3 15 1f 1 Truncated at 20
3 20 20 13 TrailingBytes at 32
3 21 2b 1 Truncated at 32
3 2c 2c Purged
3 2d ff 1 Truncated at 1
4 00 7f Purged
4 80 ff 53 MissingAvp 1 at 44
8 00 00 50 DiaHeader at 8
8 01 01 Purged
8 02 ff 50 DiaHeader at 8
9 00 00 Purged
9 01 ff 50 DiaHeader at 8
10 00 00 Purged
10 01 ff 50 DiaHeader at 8
11 00 22 50 DiaHeader at 8
11 23 23 Purged
11 24 ff 50 DiaHeader at 8
12 00 ff Purged
13 00 ff Purged
14 00 ff Purged
15 00 ff Purged
16 00 ff Purged
17 00 ff Purged
18 00 ff Purged
19 00 ff Purged
20 00 00 Purged
20 01 ff 53 MissingAvp 263 at 44
21 00 00 Purged
21 01 ff 53 MissingAvp 263 at 44
22 00 00 53 MissingAvp 263 at 44
22 01 01 Purged
22 02 ff 53 MissingAvp 263 at 44
23 00 06 53 MissingAvp 263 at 44
23 07 07 Purged
23 08 0b 53 MissingAvp 263 at 44
23 0c 0c 52 DiaAvp 268 at 20
23 0d ff 53 MissingAvp 263 at 44
24 00 7f Purged
24 80 ff 52 DiaAvp 263 at 20
25 00 00 Purged
25 01 ff 1 Truncated at 20
26 00 00 Purged
26 01 ff 1 Truncated at 20
27 00 08 52 DiaAvp 263 at 20
27 09 0c Purged
27 0d 10 1 Truncated at 36
27 11 14 1 Truncated at 40
27 15 18 53 MissingAvp 268 at 44
27 19 ff 1 Truncated at 20
28 00 ff Purged
29 00 ff Purged
30 00 ff Purged
31 00 ff Purged
32 00 00 Purged
32 01 ff 53 MissingAvp 268 at 44
33 00 00 Purged
33 01 ff 53 MissingAvp 268 at 44
34 00 00 53 MissingAvp 268 at 44
34 01 01 Purged
34 02 ff 53 MissingAvp 268 at 44
35 00 06 53 MissingAvp 268 at 44
35 07 07 54 RepeatedAvp 263 at 32
35 08 0b 53 MissingAvp 268 at 44
35 0c 0c Purged
35 0d ff 53 MissingAvp 268 at 44
36 00 7f Purged
36 80 ff 53 MissingAvp 268 at 44
37 00 00 Purged
37 01 ff 1 Truncated at 32
38 00 00 Purged
38 01 ff 1 Truncated at 32
39 00 0b 52 DiaAvp 268 at 32
39 0c 0c Purged
39 0d ff 1 Truncated at 32
40 00 00 Purged
40 01 ff Rejected
41 00 00 Purged
41 01 ff Rejected
42 00 06 Rejected
42 07 07 Purged
42 08 ff Rejected
43 00 d0 Rejected
43 d1 d1 Purged
43 d2 ff Rejected
";

/// What is told of the answer with another last octet of its command, where that is read: the octet, and what is told. Vectors and
/// a location need their groups.
const ANSWER_COMMANDS: &str = "\
60 53 MissingAvp 1400 at 44
62 53 MissingAvp 1413 at 44
65 Purged
";

#[test]
fn tells_of_each_changed_octet(rt: HostRuntime) -> Result<(), Fail> {
    check_changed(&rt, rt.alloc(), Wire::Dia, ANSWER, ANSWER_CHANGED)
}

#[test]
fn tells_of_each_command(rt: HostRuntime) -> Result<(), Fail> {
    check_kinds(&rt, rt.alloc(), Wire::Dia, ANSWER, ANSWER_COMMANDS)
}
