//! A Modify Bearer Request and its response with each of their octets set to each value, by 3GPP TS 29.274, 5.1, 7.2.7, 7.2.8 and 8.

use crate::changes::{check_changed, check_kinds};
use crate::wire::Wire;
use std::test::Fail;

/// The request: its group at 12, in it the bearer at 16 and the tunnel at 21, up to 34.
const REQUEST: &str = "4822001e00000001000002005d0012004900010005570009008000000002c0a80002";

/// The response: its cause at 12, its group at 18, in it the bearer at 22 and its cause at 27, up to 33.
const RESPONSE: &str = "4823001d00000001000002000200020010005d000b004900010005020002001000";

/// What is told of the request with an octet changed, but for its type: the place of the octet, from and to which value, and what is
/// told. Other octets than 0 in the high half of an instance are spare.
const REQUEST_CHANGED: &str = "\
0 00 47 40 GtpHeader at 0
0 48 48 Modify
0 49 ff 40 GtpHeader at 0
2 00 00 Modify
2 01 ff 1 Truncated at 2
3 00 07 1 Truncated at 2
3 08 08 13 TrailingBytes at 12
3 09 1d 1 Truncated at 12
3 1e 1e Modify
3 1f ff 1 Truncated at 2
4 00 ff Modify
5 00 ff Modify
6 00 ff Modify
7 00 ff Modify
8 00 ff Modify
9 00 ff Modify
10 00 ff Modify
11 00 ff Modify
12 00 5c 11 MissingIe 93 at 34
12 5d 5d Modify
12 5e ff 11 MissingIe 93 at 34
13 00 00 Modify
13 01 ff 1 Truncated at 12
14 00 00 42 GtpValue 93 at 12
14 01 04 1 Truncated at 16
14 05 05 11 MissingIe 87 at 21
14 06 11 1 Truncated at 21
14 12 12 Modify
14 13 ff 1 Truncated at 12
15 00 00 Modify
15 01 0f 11 MissingIe 93 at 34
15 10 10 Modify
15 11 1f 11 MissingIe 93 at 34
15 20 20 Modify
15 21 2f 11 MissingIe 93 at 34
15 30 30 Modify
15 31 3f 11 MissingIe 93 at 34
15 40 40 Modify
15 41 4f 11 MissingIe 93 at 34
15 50 50 Modify
15 51 5f 11 MissingIe 93 at 34
15 60 60 Modify
15 61 6f 11 MissingIe 93 at 34
15 70 70 Modify
15 71 7f 11 MissingIe 93 at 34
15 80 80 Modify
15 81 8f 11 MissingIe 93 at 34
15 90 90 Modify
15 91 9f 11 MissingIe 93 at 34
15 a0 a0 Modify
15 a1 af 11 MissingIe 93 at 34
15 b0 b0 Modify
15 b1 bf 11 MissingIe 93 at 34
15 c0 c0 Modify
15 c1 cf 11 MissingIe 93 at 34
15 d0 d0 Modify
15 d1 df 11 MissingIe 93 at 34
15 e0 e0 Modify
15 e1 ef 11 MissingIe 93 at 34
15 f0 f0 Modify
15 f1 ff 11 MissingIe 93 at 34
16 00 48 11 MissingIe 73 at 34
16 49 49 Modify
16 4a 56 11 MissingIe 73 at 34
16 57 57 42 GtpValue 87 at 16
16 58 ff 11 MissingIe 73 at 34
17 00 00 Modify
17 01 ff 1 Truncated at 16
18 00 00 42 GtpValue 73 at 16
18 01 01 Modify
18 02 02 1 Truncated at 22
18 03 03 1 Truncated at 23
18 04 04 1 Truncated at 24
18 05 05 1 Truncated at 29
18 06 06 1 Truncated at 30
18 07 07 1 Truncated at 33
18 08 08 1 Truncated at 28
18 09 09 1 Truncated at 29
18 0a 0a 1 Truncated at 30
18 0b 0b 1 Truncated at 31
18 0c 0c 1 Truncated at 32
18 0d 0d 1 Truncated at 33
18 0e 0e 11 MissingIe 87 at 34
18 0f ff 1 Truncated at 16
19 00 00 Modify
19 01 0f 11 MissingIe 73 at 34
19 10 10 Modify
19 11 1f 11 MissingIe 73 at 34
19 20 20 Modify
19 21 2f 11 MissingIe 73 at 34
19 30 30 Modify
19 31 3f 11 MissingIe 73 at 34
19 40 40 Modify
19 41 4f 11 MissingIe 73 at 34
19 50 50 Modify
19 51 5f 11 MissingIe 73 at 34
19 60 60 Modify
19 61 6f 11 MissingIe 73 at 34
19 70 70 Modify
19 71 7f 11 MissingIe 73 at 34
19 80 80 Modify
19 81 8f 11 MissingIe 73 at 34
19 90 90 Modify
19 91 9f 11 MissingIe 73 at 34
19 a0 a0 Modify
19 a1 af 11 MissingIe 73 at 34
19 b0 b0 Modify
19 b1 bf 11 MissingIe 73 at 34
19 c0 c0 Modify
19 c1 cf 11 MissingIe 73 at 34
19 d0 d0 Modify
19 d1 df 11 MissingIe 73 at 34
19 e0 e0 Modify
19 e1 ef 11 MissingIe 73 at 34
19 f0 f0 Modify
19 f1 ff 11 MissingIe 73 at 34
20 00 04 42 GtpValue 73 at 16
20 05 06 Modify
20 07 ff 42 GtpValue 73 at 16
21 00 48 11 MissingIe 87 at 34
21 49 49 12 RepeatedIe 73 at 21
21 4a 56 11 MissingIe 87 at 34
21 57 57 Modify
21 58 ff 11 MissingIe 87 at 34
22 00 00 Modify
22 01 ff 1 Truncated at 21
23 00 08 42 GtpValue 87 at 21
23 09 09 Modify
23 0a ff 1 Truncated at 21
24 00 00 Modify
24 01 0f 11 MissingIe 87 at 34
24 10 10 Modify
24 11 1f 11 MissingIe 87 at 34
24 20 20 Modify
24 21 2f 11 MissingIe 87 at 34
24 30 30 Modify
24 31 3f 11 MissingIe 87 at 34
24 40 40 Modify
24 41 4f 11 MissingIe 87 at 34
24 50 50 Modify
24 51 5f 11 MissingIe 87 at 34
24 60 60 Modify
24 61 6f 11 MissingIe 87 at 34
24 70 70 Modify
24 71 7f 11 MissingIe 87 at 34
24 80 80 Modify
24 81 8f 11 MissingIe 87 at 34
24 90 90 Modify
24 91 9f 11 MissingIe 87 at 34
24 a0 a0 Modify
24 a1 af 11 MissingIe 87 at 34
24 b0 b0 Modify
24 b1 bf 11 MissingIe 87 at 34
24 c0 c0 Modify
24 c1 cf 11 MissingIe 87 at 34
24 d0 d0 Modify
24 d1 df 11 MissingIe 87 at 34
24 e0 e0 Modify
24 e1 ef 11 MissingIe 87 at 34
24 f0 f0 Modify
24 f1 ff 11 MissingIe 87 at 34
25 00 7f 42 GtpValue 87 at 21
25 80 80 Modify
25 81 ff 42 GtpValue 87 at 21
26 00 ff Modify
27 00 ff Modify
28 00 ff Modify
29 00 ff Modify
30 00 ff Modify
31 00 ff Modify
32 00 ff Modify
33 00 ff Modify
";

/// The same of the response. Any cause in its group is taken, and another one than 16 outside of it rejects.
const RESPONSE_CHANGED: &str = "\
0 00 47 40 GtpHeader at 0
0 48 48 Modified
0 49 ff 40 GtpHeader at 0
2 00 00 Modified
2 01 ff 1 Truncated at 2
3 00 07 1 Truncated at 2
3 08 08 13 TrailingBytes at 12
3 09 0d 1 Truncated at 12
3 0e 0e 13 TrailingBytes at 18
3 0f 1c 1 Truncated at 18
3 1d 1d Modified
3 1e ff 1 Truncated at 2
4 00 ff Modified
5 00 ff Modified
6 00 ff Modified
7 00 ff Modified
8 00 ff Modified
9 00 ff Modified
10 00 ff Modified
11 00 ff Modified
12 00 01 11 MissingIe 2 at 33
12 02 02 Modified
12 03 5c 11 MissingIe 2 at 33
12 5d 5d 1 Truncated at 16
12 5e ff 11 MissingIe 2 at 33
13 00 00 Modified
13 01 ff 1 Truncated at 12
14 00 01 42 GtpValue 2 at 12
14 02 02 Modified
14 03 03 1 Truncated at 19
14 04 04 1 Truncated at 20
14 05 05 1 Truncated at 21
14 06 06 12 RepeatedIe 2 at 27
14 07 07 1 Truncated at 23
14 08 08 11 MissingIe 93 at 33
14 09 09 1 Truncated at 25
14 0a 0a 1 Truncated at 26
14 0b 0b 12 RepeatedIe 2 at 27
14 0c 0c 1 Truncated at 28
14 0d 0d 1 Truncated at 29
14 0e 0e 1 Truncated at 30
14 0f 0f 1 Truncated at 31
14 10 10 1 Truncated at 32
14 11 11 11 MissingIe 93 at 33
14 12 ff 1 Truncated at 12
15 00 00 Modified
15 01 0f 11 MissingIe 2 at 33
15 10 10 Modified
15 11 1f 11 MissingIe 2 at 33
15 20 20 Modified
15 21 2f 11 MissingIe 2 at 33
15 30 30 Modified
15 31 3f 11 MissingIe 2 at 33
15 40 40 Modified
15 41 4f 11 MissingIe 2 at 33
15 50 50 Modified
15 51 5f 11 MissingIe 2 at 33
15 60 60 Modified
15 61 6f 11 MissingIe 2 at 33
15 70 70 Modified
15 71 7f 11 MissingIe 2 at 33
15 80 80 Modified
15 81 8f 11 MissingIe 2 at 33
15 90 90 Modified
15 91 9f 11 MissingIe 2 at 33
15 a0 a0 Modified
15 a1 af 11 MissingIe 2 at 33
15 b0 b0 Modified
15 b1 bf 11 MissingIe 2 at 33
15 c0 c0 Modified
15 c1 cf 11 MissingIe 2 at 33
15 d0 d0 Modified
15 d1 df 11 MissingIe 2 at 33
15 e0 e0 Modified
15 e1 ef 11 MissingIe 2 at 33
15 f0 f0 Modified
15 f1 ff 11 MissingIe 2 at 33
16 00 0f Rejected
16 10 10 Modified
16 11 ff Rejected
17 00 00 Modified
17 01 ff 42 GtpValue 2 at 12
18 00 01 11 MissingIe 93 at 33
18 02 02 12 RepeatedIe 2 at 18
18 03 5c 11 MissingIe 93 at 33
18 5d 5d Modified
18 5e ff 11 MissingIe 93 at 33
19 00 00 Modified
19 01 ff 1 Truncated at 18
20 00 00 42 GtpValue 93 at 18
20 01 04 1 Truncated at 22
20 05 05 11 MissingIe 2 at 27
20 06 0a 1 Truncated at 27
20 0b 0b Modified
20 0c ff 1 Truncated at 18
21 00 00 Modified
21 01 0f 11 MissingIe 93 at 33
21 10 10 Modified
21 11 1f 11 MissingIe 93 at 33
21 20 20 Modified
21 21 2f 11 MissingIe 93 at 33
21 30 30 Modified
21 31 3f 11 MissingIe 93 at 33
21 40 40 Modified
21 41 4f 11 MissingIe 93 at 33
21 50 50 Modified
21 51 5f 11 MissingIe 93 at 33
21 60 60 Modified
21 61 6f 11 MissingIe 93 at 33
21 70 70 Modified
21 71 7f 11 MissingIe 93 at 33
21 80 80 Modified
21 81 8f 11 MissingIe 93 at 33
21 90 90 Modified
21 91 9f 11 MissingIe 93 at 33
21 a0 a0 Modified
21 a1 af 11 MissingIe 93 at 33
21 b0 b0 Modified
21 b1 bf 11 MissingIe 93 at 33
21 c0 c0 Modified
21 c1 cf 11 MissingIe 93 at 33
21 d0 d0 Modified
21 d1 df 11 MissingIe 93 at 33
21 e0 e0 Modified
21 e1 ef 11 MissingIe 93 at 33
21 f0 f0 Modified
21 f1 ff 11 MissingIe 93 at 33
22 00 01 11 MissingIe 73 at 33
22 02 02 42 GtpValue 2 at 22
22 03 48 11 MissingIe 73 at 33
22 49 49 Modified
22 4a ff 11 MissingIe 73 at 33
23 00 00 Modified
23 01 ff 1 Truncated at 22
24 00 00 42 GtpValue 73 at 22
24 01 01 Modified
24 02 02 1 Truncated at 28
24 03 03 1 Truncated at 29
24 04 04 1 Truncated at 30
24 05 05 1 Truncated at 31
24 06 06 1 Truncated at 32
24 07 07 11 MissingIe 2 at 33
24 08 ff 1 Truncated at 22
25 00 00 Modified
25 01 0f 11 MissingIe 73 at 33
25 10 10 Modified
25 11 1f 11 MissingIe 73 at 33
25 20 20 Modified
25 21 2f 11 MissingIe 73 at 33
25 30 30 Modified
25 31 3f 11 MissingIe 73 at 33
25 40 40 Modified
25 41 4f 11 MissingIe 73 at 33
25 50 50 Modified
25 51 5f 11 MissingIe 73 at 33
25 60 60 Modified
25 61 6f 11 MissingIe 73 at 33
25 70 70 Modified
25 71 7f 11 MissingIe 73 at 33
25 80 80 Modified
25 81 8f 11 MissingIe 73 at 33
25 90 90 Modified
25 91 9f 11 MissingIe 73 at 33
25 a0 a0 Modified
25 a1 af 11 MissingIe 73 at 33
25 b0 b0 Modified
25 b1 bf 11 MissingIe 73 at 33
25 c0 c0 Modified
25 c1 cf 11 MissingIe 73 at 33
25 d0 d0 Modified
25 d1 df 11 MissingIe 73 at 33
25 e0 e0 Modified
25 e1 ef 11 MissingIe 73 at 33
25 f0 f0 Modified
25 f1 ff 11 MissingIe 73 at 33
26 00 04 42 GtpValue 73 at 22
26 05 06 Modified
26 07 ff 42 GtpValue 73 at 22
27 00 01 11 MissingIe 2 at 33
27 02 02 Modified
27 03 48 11 MissingIe 2 at 33
27 49 49 12 RepeatedIe 73 at 27
27 4a ff 11 MissingIe 2 at 33
28 00 00 Modified
28 01 ff 1 Truncated at 27
29 00 01 42 GtpValue 2 at 27
29 02 02 Modified
29 03 ff 1 Truncated at 27
30 00 00 Modified
30 01 0f 11 MissingIe 2 at 33
30 10 10 Modified
30 11 1f 11 MissingIe 2 at 33
30 20 20 Modified
30 21 2f 11 MissingIe 2 at 33
30 30 30 Modified
30 31 3f 11 MissingIe 2 at 33
30 40 40 Modified
30 41 4f 11 MissingIe 2 at 33
30 50 50 Modified
30 51 5f 11 MissingIe 2 at 33
30 60 60 Modified
30 61 6f 11 MissingIe 2 at 33
30 70 70 Modified
30 71 7f 11 MissingIe 2 at 33
30 80 80 Modified
30 81 8f 11 MissingIe 2 at 33
30 90 90 Modified
30 91 9f 11 MissingIe 2 at 33
30 a0 a0 Modified
30 a1 af 11 MissingIe 2 at 33
30 b0 b0 Modified
30 b1 bf 11 MissingIe 2 at 33
30 c0 c0 Modified
30 c1 cf 11 MissingIe 2 at 33
30 d0 d0 Modified
30 d1 df 11 MissingIe 2 at 33
30 e0 e0 Modified
30 e1 ef 11 MissingIe 2 at 33
30 f0 f0 Modified
30 f1 ff 11 MissingIe 2 at 33
31 00 ff Modified
32 00 00 Modified
32 01 ff 42 GtpValue 2 at 27
";

/// What the elements of the request are by another type: each type that is read, and what is told.
const REQUEST_TYPES: &str = "\
32 11 MissingIe 80 at 34
33 42 GtpValue 87 at 21
34 Modify
35 11 MissingIe 2 at 34
36 11 MissingIe 73 at 34
37 11 MissingIe 2 at 34
170 Release
171 11 MissingIe 2 at 34
";

/// The same of the response.
const RESPONSE_TYPES: &str = "\
32 11 MissingIe 80 at 33
33 11 MissingIe 87 at 33
34 11 MissingIe 87 at 33
35 Modified
36 11 MissingIe 73 at 33
37 Deleted
170 Release
171 Released
";

#[test]
fn tells_of_each_changed_octet(rt: HostRuntime) -> Result<(), Fail> {
    check_changed(&rt, rt.alloc(), Wire::Gtp, REQUEST, REQUEST_CHANGED)?;
    check_changed(&rt, rt.alloc(), Wire::Gtp, RESPONSE, RESPONSE_CHANGED)
}

#[test]
fn tells_of_each_type(rt: HostRuntime) -> Result<(), Fail> {
    check_kinds(&rt, rt.alloc(), Wire::Gtp, REQUEST, REQUEST_TYPES)?;
    check_kinds(&rt, rt.alloc(), Wire::Gtp, RESPONSE, RESPONSE_TYPES)
}
