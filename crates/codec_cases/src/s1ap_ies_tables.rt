//! Values of IEs, worked out by hand from ITU-T X.691, aligned PER: octets in hexadecimal, and behind a space the value that they
//! spell, or why they are refused. A value is written as the octets that it was read from; where these have iE-Extensions, `as` says how
//! it is written, and `then` what stands behind it, which is the MME UE S1AP ID 42 alone, 402a. In the comments e is an extension bit and
//! o the bit of the iE-Extensions, both 0 unless shown; p is padding. An entry of the extensions is its id in two octets, the
//! criticality (00, 40 or 80), the length, and so many octets.

pub(crate) const TAIS: &str = "
# e o p(6), PLMN 24 bits, TAC 16 bits
0002f8390001 Tai { plmn: 194617, tac: 1 }
00ffffffabcd Tai { plmn: 16777215, tac: 43981 }
 1 Truncated at 0
# e = 1
8002f8390001 7 SequenceExtension at 0
# e o p(6) with p = 000001
0102f8390001 3 NonZeroPadding at 0
# two octets of the PLMN, none and one of the TAC
0002f8 1 Truncated at 1
0002f839 1 Truncated at 4
0002f83900 1 Truncated at 4
# o = 1: 40; one entry: 0000; 7, ignore, aa
4002f8390001000000074001aa402a Tai { plmn: 194617, tac: 1 } as 0002f8390001, then Ok(Mme(42))
# two entries: 0001; 7, ignore, aa; 258, notify, bbcc
4002f8390001000100074001aa01028002bbcc402a Tai { plmn: 194617, tac: 1 } as 0002f8390001, then Ok(Mme(42))
# The TAI in the octets 0 to 5, the count in 6 and 7, the ids in 8 and 9, and in 13 and 14; 3 is 11 p(6).
4002f839000100000007c001aa 10 BadCriticality at 10
4002f8390001000100074001aa0102c002bbcc 10 BadCriticality at 15
";

pub(crate) const CGIS: &str = "
# e o p(6), PLMN 24 bits, cell 28 bits, so the last half octet is free
0002f83900000010 Cgi { plmn: 194617, cell: 1 }
00000001abcdef20 Cgi { plmn: 1, cell: 180150002 }
8002f83900000010 7 SequenceExtension at 0
2002f83900000010 3 NonZeroPadding at 0
00 1 Truncated at 1
# 24 bits of the cell's 28
0002f839000000 1 Truncated at 4
# o = 1: four bits of padding lead from the cell to the count of the extensions
4002f8390000001f 3 NonZeroPadding at 7
# p(4) behind the cell
4002f83900000010000000070001aa402a Cgi { plmn: 194617, cell: 1 } as 0002f83900000010, then Ok(Mme(42))
";

pub(crate) const STMSIS: &str = "
# e o 00000001 p(6) is 0000 0000 0100 0000; e o 11111111 p(6) is 0011 1111 1100 0000
004000000001 Stmsi { mmec: 1, tmsi: 1 }
3fc089abcdef Stmsi { mmec: 255, tmsi: 2309737967 }
804000000001 7 SequenceExtension at 0
# six bits of the MMEC, which begins in octet 0
00 1 Truncated at 0
# e o 00000001 p(6) with p = 000001
004100000001 3 NonZeroPadding at 1
0040000000 1 Truncated at 2
# 01 00000001 p(6)
404000000001000000070001aa402a Stmsi { mmec: 1, tmsi: 1 } as 004000000001, then Ok(Mme(42))
";

pub(crate) const BIT_RATES: &str = "
# 1000000000 is 3b9aca00, four octets: e o 011 p(3) is 18, and 011 p(5) is 60
183b9aca00603b9aca00 BitRates { dl: 1000000000, ul: 1000000000 }
# 10000000000 is 02540be400, five octets: e o 100 p(3) is 20; 0 is one octet: 000 p(5)
2002540be4000000 BitRates { dl: 10000000000, ul: 0 }
# 255 is one octet: e o 000 p(3); 256 is two: 001 p(5) is 20
00ff200100 BitRates { dl: 255, ul: 256 }
80010001 7 SequenceExtension at 0
# e o 101 p(3), and 101 p(5): six octets; 111 p(5): eight
280100000000000001 5 OutOfRange at 0
0001a0010000000000 5 OutOfRange at 2
0001e001 5 OutOfRange at 2
# p = 001, and p = 10000
01010001 3 NonZeroPadding at 0
00011001 3 NonZeroPadding at 2
# two octets, e o 001 p(3) and 001 p(5): 00ff
0800ff0001 4 NotMinimal at 1
00012000ff 4 NotMinimal at 3
# five octets, e o 100 p(3) and 100 p(5): 10000000001
2002540be4010000 5 OutOfRange at 1
00018002540be401 5 OutOfRange at 3
# four octets of which there are two; no count; no octet; two octets of which there is one
183b9a 1 Truncated at 1
0001 1 Truncated at 2
000100 1 Truncated at 3
00012001 1 Truncated at 3
# 01 000 p(3)
40010001000000074001aa402a BitRates { dl: 1, ul: 1 } as 00010001, then Ok(Mme(42))
";

pub(crate) const SEC_CAPS: &str = "
# e o e 1110000000000000 e 1110000000000000: 00011100 00000000 00001110 00000000 0000
1c000e0000 SecCaps { eea: 57344, eia: 57344 }
# e o e 1111111111111111 e 0000000000000001: 00011111 11111111 11100000 00000000 0001
1fffe00010 SecCaps { eea: 65535, eia: 1 }
9c000e0000 7 SequenceExtension at 0
# 00111100: the first e = 1; 00011110: the second e, the bit 19, = 1
3c000e0000 5 OutOfRange at 0
1c001e0000 5 OutOfRange at 2
# the bits 3 to 18, and 20 to 35
1c00 1 Truncated at 0
1c000e00 1 Truncated at 2
# 01 e 1110000000000000 e 1110000000000000 p(4): 01011100 00000000 00001110 00000000 0000 0000
5c000e0000000000074001aa402a SecCaps { eea: 57344, eia: 57344 } as 1c000e0000, then Ok(Mme(42))
";

pub(crate) const CAUSES: &str = "
# choice: e 010; of 4 roots: e 10, and e 11
24 Cause { group: 2, extended: false, index: 2 }
26 Cause { group: 2, extended: false, index: 3 }
# choice: e 000; of 36 roots: e 100011, so 0000 0100 011
0460 Cause { group: 0, extended: false, index: 35 }
# choice: e 001; of 2 roots: e 1, so 0001 01
14 Cause { group: 1, extended: false, index: 1 }
# choice: e 011; of 7 roots: e 110
36 Cause { group: 3, extended: false, index: 6 }
# choice: e 100; of 6 roots: e 101
45 Cause { group: 4, extended: false, index: 5 }
# choice: e 000; beyond the roots: e = 1, 0, 000101, so 0000 1000 0101
0850 Cause { group: 0, extended: true, index: 5 }
# choice: e 100; beyond the roots: e = 1, 0, 111111, so 0100 1011 1111
4bf0 Cause { group: 4, extended: true, index: 63 }
# choice: e 001; beyond the roots: e = 1, 0, 000000, so 0001 1000 0000
1800 Cause { group: 1, extended: true, index: 0 }
# choice: e 010; beyond the roots: e = 1, 0, 000101, so 0010 1000 0101
2850 Cause { group: 2, extended: true, index: 5 }
# choice: e 011; beyond the roots: e = 1, 0, 000001, so 0011 1000 0001
3810 Cause { group: 3, extended: true, index: 1 }
 1 Truncated at 0
# choice: e = 1; e 101; e 111
80 8 BadChoice at 0
50 8 BadChoice at 0
70 8 BadChoice at 0
# e 000 e 100100 of 36 roots; e 011 e 111 of 7; e 100 e 110 of 6
0480 5 OutOfRange at 0
37 5 OutOfRange at 0
46 5 OutOfRange at 0
# e 000, e = 1, 1: an index above 63
0c00 5 OutOfRange at 0
# three bits of an index of six; two of the six bits of an index beyond the roots
04 1 Truncated at 0
08 1 Truncated at 0
";

pub(crate) const UE_IDS: &str = "
# choice: e 0; sequence: e o; one octet: 00 p(2); one octet: 00 p(6)
00010001 Pair { mme: 1, enb: 1 }
00020003 Pair { mme: 2, enb: 3 }
# choice: e 0; sequence: e o; four octets: 11 p(2), so 0000 1100; three octets: 10 p(6), so 1000 0000
0cffffffff80ffffff Pair { mme: 4294967295, enb: 16777215 }
# choice: e 1; two octets: 01 p(4), so 0101 0000
500100 Mme(256)
# choice: e 1; one octet: 00 p(4), so 0100 0000
4000 Mme(0)
 1 Truncated at 0
# choice: e = 1; sequence: e = 1
80010001 8 BadChoice at 0
20010001 7 SequenceExtension at 0
# p = 01; p = 0001; p = 000001
01010001 3 NonZeroPadding at 0
4101 3 NonZeroPadding at 0
00010101 3 NonZeroPadding at 2
# two octets: 0000 01 p(2), 0101 p(4), 01 p(6)
0400010001 4 NotMinimal at 1
500001 4 NotMinimal at 1
0001400001 4 NotMinimal at 3
# four octets of an eNB id: 11 p(6)
0001c001000000 5 OutOfRange at 2
# no octet, one of two, no count, no octet, two of three
00 1 Truncated at 1
5001 1 Truncated at 1
0001 1 Truncated at 2
000100 1 Truncated at 3
000180ffff 1 Truncated at 3
# choice: e 0; sequence: 01; 00 p(2): 0001 0000
10010001000000074001aa402a Pair { mme: 1, enb: 1 } as 00010001, then Ok(Mme(42))
# Behind the pair 10 01 00 01: the count in the octets 4 and 5, an id in 6 and 7, then 8, 9 and 10.
10010001 1 Truncated at 4
# 65535 is the count 65536 less 1
10010001ffff 5 OutOfRange at 4
10010001000000 1 Truncated at 6
1001000100000007 1 Truncated at 8
10010001000000074100 3 NonZeroPadding at 8
100100010000000740 1 Truncated at 9
# a length of two with one octet: at the length
10010001000000074002aa 1 Truncated at 9
# 10 and 14 bits that hold 1; the bits 11
1001000100000007408001aa 2 LongLength at 9
100100010000000740c1aa 6 TooLong at 9
# two entries, of which there is one
10010001000100074001aa 1 Truncated at 11
";

pub(crate) const ERABS_DONE: &str = "
# e o e 0101 e is 0000 1010; size 32 less 1 is 0001 1111; the address and the TEID are aligned as they stand
0a1f0a00000100000001 ErabDone { id: 5, address: 167772161, teid: 1 }
# e o e 1111 e is 0001 1110
1e1fc0a80001fffffffe ErabDone { id: 15, address: 3232235521, teid: 4294967294 }
8a1f0a000001 7 SequenceExtension at 0
# e = 1 before the E-RAB-ID: 0010 1010; before the address: 0000 1011
2a1f0a000001 5 OutOfRange at 0
0b1f0a000001 5 OutOfRange at 0
# sizes of 33, 1 and 160; 161 is no size
0a200a000001 5 OutOfRange at 1
0a000a000001 5 OutOfRange at 1
0a9f0a000001 5 OutOfRange at 1
0aa00a000001 5 OutOfRange at 1
# three octets of the address, one of the TEID
0a1f0a0000 1 Truncated at 2
0a1f0a00000100 1 Truncated at 6
# 01 e 0101 e: 0100 1010
4a1f0a00000100000001000000074001aa402a ErabDone { id: 5, address: 167772161, teid: 1 } as 0a1f0a00000100000001, then Ok(Mme(42))
";

// e o o e 0101 is 05, and 45 with a NAS-PDU; e o o p(5) is 00; QCI 09; e o 111101 is 3d; e 00011111 p(7) is 0f 80; then the address and
// the TEID, aligned as they stand
pub(crate) const ERABS_TO_SETUP: &str = "
0500093d0f80c0a8000100000001 ErabToSetup { id: 5, qci: 9, arp: 61, address: 3232235521, teid: 1, nas: None }
4500093d0f80c0a8000100000001020746 ErabToSetup { id: 5, qci: 9, arp: 61, address: 3232235521, teid: 1, nas: Some(ListOf { items: [7, 70] }) }
8500 7 SequenceExtension at 0
1500 5 OutOfRange at 0
0580 7 SequenceExtension at 1
0540 5 OutOfRange at 1
05000980 7 SequenceExtension at 3
0500093d8000 5 OutOfRange at 4
# a NAS-PDU of 2,049 octets: 10 and 14 bits of its length
4500093d0f80c0a80001000000018801 6 TooLong at 14
4500093d0f80c0a80001000000010207 1 Truncated at 14
# iE-Extensions of the priority: 01 111101 is 7d, and behind it one entry: 0000; 7, ignore, aa
0500097d000000074001aa0f80c0a8000100000001 ErabToSetup { id: 5, qci: 9, arp: 61, address: 3232235521, teid: 1, nas: None } as 0500093d0f80c0a8000100000001
# of the QoS: 001 p(5) is 20, behind the priority
0520093d000000074001aa0f80c0a8000100000001 ErabToSetup { id: 5, qci: 9, arp: 61, address: 3232235521, teid: 1, nas: None } as 0500093d0f80c0a8000100000001
# of the item: 001 0 0101 is 25, behind the TEID
2500093d0f80c0a8000100000001000000074001aa ErabToSetup { id: 5, qci: 9, arp: 61, address: 3232235521, teid: 1, nas: None } as 0500093d0f80c0a8000100000001
# of all three, and behind them 402a
2520097d000000074001aa000000074001bb0f80c0a8000100000001000000074001cc402a ErabToSetup { id: 5, qci: 9, arp: 61, address: 3232235521, teid: 1, nas: None } as 0500093d0f80c0a8000100000001, then Ok(Mme(42))
";

// e o e 0110 e is 0c; o o p(6) is 00; QCI 09; e o 100000 is 20; e 00011111 p(7) is 0f 80; then the address and the TEID, aligned as they
// stand, and the NAS-PDU behind its length
pub(crate) const ERABS_TO_ADD: &str = "
0c0009200f80c0a8000100000002020746 ErabToAdd { id: 6, qci: 9, arp: 32, address: 3232235521, teid: 2, nas: ListOf { items: [7, 70] } }
# e o e 1111 e is 1e; a NAS-PDU of no octets
1e00053d0f800a0000010000010200 ErabToAdd { id: 15, qci: 5, arp: 61, address: 167772161, teid: 258, nas: ListOf { items: [] } }
8c00 7 SequenceExtension at 0
2c00 5 OutOfRange at 0
0d00 7 SequenceExtension at 0
0c80 5 OutOfRange at 1
0c0109 3 NonZeroPadding at 1
0c000980 7 SequenceExtension at 3
0c0009208000 5 OutOfRange at 4
# without a NAS-PDU; one of two octets of which there is one; one of 2,049 octets
0c0009200f80c0a8000100000002 1 Truncated at 14
0c0009200f80c0a80001000000020207 1 Truncated at 14
0c0009200f80c0a80001000000028801 6 TooLong at 14
# iE-Extensions of the priority: 01 100000 is 60, and behind it one entry: 0000; 7, ignore, aa
0c000960000000074001aa0f80c0a80001000000020107 ErabToAdd { id: 6, qci: 9, arp: 32, address: 3232235521, teid: 2, nas: ListOf { items: [7] } } as 0c0009200f80c0a80001000000020107
# of the QoS: 01 p(6) is 40, behind the priority
0c400920000000074001aa0f80c0a80001000000020107 ErabToAdd { id: 6, qci: 9, arp: 32, address: 3232235521, teid: 2, nas: ListOf { items: [7] } } as 0c0009200f80c0a80001000000020107
# of the item: 01 0 0110 0 is 4c, behind the NAS-PDU
4c0009200f80c0a80001000000020107000000074001aa ErabToAdd { id: 6, qci: 9, arp: 32, address: 3232235521, teid: 2, nas: ListOf { items: [7] } } as 0c0009200f80c0a80001000000020107
# of all three, and behind them 402a
4c400960000000074001aa000000074001bb0f80c0a80001000000020107000000074001cc402a ErabToAdd { id: 6, qci: 9, arp: 32, address: 3232235521, teid: 2, nas: ListOf { items: [7] } } as 0c0009200f80c0a80001000000020107, then Ok(Mme(42))
# the item of an INITIAL CONTEXT SETUP REQUEST, a bit longer in front: the last bit of 0000 0101 is the extension bit of the QoS
0500093d0f80c0a8000100000001 7 SequenceExtension at 0
";
