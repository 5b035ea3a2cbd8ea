//! Whole reads and writes over concrete sources and sinks, and the printed texts.
use echo_base::{
    Bad, Column, Give, Identity, MemSink, MemSource, OutOfMemory, RealSink, RealSource, Reason,
    Refusal, Source, Status, SureSource, decode_hex, encode_hex, read_all, read_hex, write_all,
};
use std::alloc::Global;
use std::fmt::Write as _;
use std::io::{self, ErrorKind, Read, Write};
use std::test::Fail;

fn source(alloc: Global, bytes: &[u8], plan: &[Give]) -> Result<MemSource, OutOfMemory> {
    Ok(MemSource::new(bytes.to_vec(alloc)?, plan.to_vec(alloc)?))
}

/// The limit, how many calls of the plan there are, and what is read of the six octets `abcdef`.
const READS: &str = "\
6 0 Ok([97, 98, 99, 100, 101, 102])
6 3 Ok([97, 98, 99, 100, 101, 102])
7 0 Ok([97, 98, 99, 100, 101, 102])
7 3 Ok([97, 98, 99, 100, 101, 102])
5 0 Err(TooLong)
5 3 Err(TooLong)
0 0 Err(TooLong)
0 3 Err(TooLong)
";

/// Adds a line with what is read up to a limit.
fn put_octets<S: Source>(
    text: &mut String,
    alloc: Global,
    from: &mut S,
    limit: usize,
) -> Result<(), Fail> {
    let read = read_all(alloc, from, limit);
    writeln!(text, "{read:?}")?;
    Ok(())
}

/// Adds a line with what is read up to a limit, by these calls of a plan.
fn put_read(text: &mut String, alloc: Global, limit: usize, plan: &[Give]) -> Result<(), Fail> {
    let calls = plan.len();
    write!(text, "{limit} {calls} ")?;
    put_octets(text, alloc, &mut source(alloc, b"abcdef", plan)?, limit)
}

#[test]
fn reads_up_to_the_limit(rt: HostRuntime) -> Result<(), Fail> {
    let pieces = [Give::Piece(2), Give::Piece(0), Give::Piece(9)];
    let mut text = String::new(rt.alloc());
    for limit in [6, 7, 5, 0] {
        put_read(&mut text, rt.alloc(), limit, &[])?;
        put_read(&mut text, rt.alloc(), limit, &pieces)?;
    }
    assert_eq!(rt; text.as_str(), READS);
    Ok(())
}

/// A fault after two octets and a call that gives none, what is read then, and nothing.
const READ_ON: &str = "\
Err(ReadFault)
Ok([100, 101, 102])
Ok([])
";

#[test]
fn reads_on_after_a_fault(rt: HostRuntime) -> Result<(), Fail> {
    let plan = [Give::Piece(2), Give::Piece(0), Give::Fail];
    let mut from = source(rt.alloc(), b"abcdef", &plan)?;
    let mut text = String::new(rt.alloc());
    for limit in [10, 10, 0] {
        put_octets(&mut text, rt.alloc(), &mut from, limit)?;
    }
    assert_eq!(rt; text.as_str(), READ_ON);
    Ok(())
}

#[test]
fn reads_many_octets(rt: HostRuntime) -> Result<(), Fail> {
    let many = vec![in rt.alloc(); 7u8; 10_000]?;
    let mut sure = SureSource::new(many.clone()?);
    let bytes = read_all(rt.alloc(), &mut sure, 10_000)?;
    assert!(rt; bytes.as_slice() == many.as_slice());
    Ok(())
}

/// The room of a sink, how many calls its plan has, what comes of writing `abcdef`, and the octets that it holds then.
const WRITES: &str = "\
6 2 Ok(()) [97, 98, 99, 100, 101, 102]
9 0 Ok(()) [97, 98, 99, 100, 101, 102]
5 2 Err(WriteFault) [97, 98, 99, 100, 101]
9 2 Err(WriteFault) [97, 98]
0 0 Err(WriteFault) []
";

/// Adds a line with what comes of a write into so much room, by these calls of a plan.
fn put_write(text: &mut String, alloc: Global, room: usize, plan: &[Give]) -> Result<(), Fail> {
    let calls = plan.len();
    let mut to = MemSink::new(alloc, room, plan.to_vec(alloc)?)?;
    let written = write_all(&mut to, b"abcdef");
    let held = to.held();
    writeln!(text, "{room} {calls} {written:?} {held:?}")?;
    Ok(())
}

#[test]
fn writes_what_there_is_room_for(rt: HostRuntime) -> Result<(), Fail> {
    let pieces = [Give::Piece(3), Give::Piece(0)];
    let mut text = String::new(rt.alloc());
    put_write(&mut text, rt.alloc(), 6, &pieces)?;
    put_write(&mut text, rt.alloc(), 9, &[])?;
    put_write(&mut text, rt.alloc(), 5, &pieces)?;
    put_write(&mut text, rt.alloc(), 9, &[Give::Piece(2), Give::Fail])?;
    put_write(&mut text, rt.alloc(), 0, &[])?;
    assert_eq!(rt; text.as_str(), WRITES);
    Ok(())
}

#[test]
fn writes_nothing_to_a_full_sink(rt: HostRuntime) -> Result<(), Fail> {
    let mut to = MemSink::new(rt.alloc(), 0, vec![in rt.alloc(); Give::Fail]?)?;
    assert_eq!(rt; write_all(&mut to, b""), Ok(()));
    Ok(())
}

/// A reader and a writer that fail at each call, or take nothing.
#[derive(Drop)]
struct Broken {
    takes_nothing: bool,
}

impl Read for Broken {
    fn read(&mut self, _buf: &mut [u8]) -> io::Result<usize> {
        Err(io::Error::from(ErrorKind::TimedOut))
    }
}

impl Write for Broken {
    fn write(&mut self, _buf: &[u8]) -> io::Result<usize> {
        if self.takes_nothing {
            return Ok(0);
        }
        Err(io::Error::from(ErrorKind::BrokenPipe))
    }

    fn flush(&mut self) -> io::Result<()> {
        Ok(())
    }
}

/// A writer that takes all, and cannot flush.
#[derive(Drop)]
struct Unflushed;

impl Write for Unflushed {
    fn write(&mut self, buf: &[u8]) -> io::Result<usize> {
        Ok(buf.len())
    }

    fn flush(&mut self) -> io::Result<()> {
        Err(io::Error::from(ErrorKind::TimedOut))
    }
}

#[test]
fn reads_a_reader(rt: HostRuntime) -> Result<(), Fail> {
    let mut text = String::new(rt.alloc());
    let mut from = RealSource::new(b"abc".as_slice());
    put_octets(&mut text, rt.alloc(), &mut from, 3)?;
    let mut broken = RealSource::new(Broken {
        takes_nothing: false,
    });
    put_octets(&mut text, rt.alloc(), &mut broken, 3)?;
    assert_eq!(rt; text.as_str(), "Ok([97, 98, 99])\nErr(ReadFault)\n");
    Ok(())
}

/// Adds a line with what comes of a write of `abc` to a writer.
fn put_written<W: Write + Drop>(text: &mut String, to: W) -> Result<(), Fail> {
    let written = write_all(&mut RealSink::new(to), b"abc");
    writeln!(text, "{written:?}")?;
    Ok(())
}

/// Adds a line with what comes of a write of `abc` to a list of octets, and one with the list.
fn put_held(text: &mut String, alloc: Global) -> Result<(), Fail> {
    let mut held = Vec::new(alloc);
    put_written(text, &mut held)?;
    writeln!(text, "{held:?}")?;
    Ok(())
}

/// What comes of writes to a list, to writers that fail or take nothing, and to one that cannot flush.
const REAL_WRITES: &str = "\
Ok(())
[97, 98, 99]
Err(WriteFault)
Err(WriteFault)
Err(WriteFault)
";

#[test]
fn writes_to_a_writer(rt: HostRuntime) -> Result<(), Fail> {
    let mut text = String::new(rt.alloc());
    put_held(&mut text, rt.alloc())?;
    for takes_nothing in [false, true] {
        put_written(&mut text, Broken { takes_nothing })?;
    }
    put_written(&mut text, Unflushed)?;
    assert_eq!(rt; text.as_str(), REAL_WRITES);
    Ok(())
}

/// Every reason as it is printed, with a place where it lies in octets.
const REFUSALS: &str = "\
1 Truncated at 0
2 LongLength at 1
3 NonZeroPadding at 9
4 NotMinimal at 12
5 OutOfRange at 3
6 TooLong at 10
7 SequenceExtension at 18446744073709551615
8 BadChoice at 0
9 OtherProcedure 17 at 1
10 BadCriticality at 4
11 MissingIe 96 at 20
12 RepeatedIe 0 at 8
13 TrailingBytes at 30
14 WrongDirection at 1
15 NasShort
16 NasDiscriminator
17 NasKind 5e
17 NasKind 07
18 NasIdentity
19 BadJson
20 MissingColumn
21 BadColumn
22 RepeatedImsi
23 RepeatedTmsi
24 TableFull
25 BadSection
26 BadLine
27 TooManyLines
28 LineTooLong
29 BadHex
30 UnknownDevice tmsi 2
30 UnknownDevice imsi 000000000000007
30 UnknownDevice imsi 262019876543210
31 UnknownPair 1 1
32 BadSession
40 GtpHeader at 0
41 GtpType 38 at 1
42 GtpValue 93 at 12
50 DiaHeader at 8
51 DiaCommand 320 at 5
52 DiaAvp 263 at 20
53 MissingAvp 4294967295 at 160
54 RepeatedAvp 1 at 44
";

/// Adds a line with a refusal as it is printed.
fn put(text: &mut String, reason: Reason, place: u64) -> Result<(), Fail> {
    let refusal = Refusal { reason, place };
    writeln!(text, "{refusal}")?;
    Ok(())
}

/// What is refused in aligned PER and in S1AP.
fn put_s1ap(text: &mut String) -> Result<(), Fail> {
    put(text, Reason::Truncated, 0)?;
    put(text, Reason::LongLength, 1)?;
    put(text, Reason::NonZeroPadding, 9)?;
    put(text, Reason::NotMinimal, 12)?;
    put(text, Reason::OutOfRange, 3)?;
    put(text, Reason::TooLong, 10)?;
    put(text, Reason::SequenceExtension, u64::MAX)?;
    put(text, Reason::BadChoice, 0)?;
    put(text, Reason::OtherProcedure(17), 1)?;
    put(text, Reason::BadCriticality, 4)?;
    put(text, Reason::MissingIe(96), 20)?;
    put(text, Reason::RepeatedIe(0), 8)?;
    put(text, Reason::TrailingBytes, 30)?;
    put(text, Reason::WrongDirection, 1)
}

/// What is refused in NAS and in case texts, and of devices and sessions.
fn put_others(text: &mut String) -> Result<(), Fail> {
    put(text, Reason::NasShort, 0)?;
    put(text, Reason::NasDiscriminator, 0)?;
    put(text, Reason::NasKind(0x5e), 0)?;
    put(text, Reason::NasKind(7), 0)?;
    put(text, Reason::NasIdentity, 0)?;
    put(text, Reason::BadJson, 0)?;
    put(text, Reason::MissingColumn(Column::Imsi), 0)?;
    put(text, Reason::BadColumn(Column::Forbidden), 0)?;
    put(text, Reason::RepeatedImsi, 0)?;
    put(text, Reason::RepeatedTmsi, 0)?;
    put(text, Reason::TableFull, 0)?;
    put(text, Reason::BadSection, 0)?;
    put(text, Reason::BadLine, 0)?;
    put(text, Reason::TooManyLines, 0)?;
    put(text, Reason::LineTooLong, 0)?;
    put(text, Reason::BadHex, 0)?;
    put(text, Reason::UnknownDevice(Identity::Tmsi(2)), 0)?;
    put(text, Reason::UnknownDevice(Identity::Imsi(7)), 0)?;
    let identity = Identity::Imsi(262019876543210);
    put(text, Reason::UnknownDevice(identity), 0)?;
    put(text, Reason::UnknownPair(1, 1), 0)?;
    put(text, Reason::BadSession, 0)
}

/// What is refused in messages of the peers.
fn put_peers(text: &mut String) -> Result<(), Fail> {
    put(text, Reason::GtpHeader, 0)?;
    put(text, Reason::GtpType(38), 1)?;
    put(text, Reason::GtpValue(93), 12)?;
    put(text, Reason::DiaHeader, 8)?;
    put(text, Reason::DiaCommand(320), 5)?;
    put(text, Reason::DiaAvp(263), 20)?;
    put(text, Reason::MissingAvp(u32::MAX), 160)?;
    put(text, Reason::RepeatedAvp(1), 44)
}

#[test]
fn prints_refusals(rt: HostRuntime) -> Result<(), Fail> {
    let mut text = String::new(rt.alloc());
    put_s1ap(&mut text)?;
    put_others(&mut text)?;
    put_peers(&mut text)?;
    assert_eq!(rt; text.as_str(), REFUSALS);
    Ok(())
}

/// The exit code of each status, and the line that is printed.
const STATUSES: &str = "\
0 echo: done
1 echo: usage
2 echo: case refused 26 BadLine line 7
2 echo: case refused 33 line 1
2 echo: case refused 0 line 1
3 echo: read fault
4 echo: write fault
5 echo: out of memory
";

/// Adds a line with the exit code of a status, and what is printed of it.
fn put_status(text: &mut String, status: Status) -> Result<(), Fail> {
    let code = status.code();
    writeln!(text, "{code} {status}")?;
    Ok(())
}

/// Adds a line of a case that is refused.
fn put_refused(text: &mut String, number: u8, line: u32) -> Result<(), Fail> {
    put_status(text, Status::CaseRefused { number, line })
}

#[test]
fn prints_statuses(rt: HostRuntime) -> Result<(), Fail> {
    let mut text = String::new(rt.alloc());
    put_status(&mut text, Status::Done)?;
    put_status(&mut text, Status::Usage)?;
    put_refused(&mut text, 26, 7)?;
    put_refused(&mut text, 33, 1)?;
    put_refused(&mut text, 0, 1)?;
    put_status(&mut text, Status::ReadFault)?;
    put_status(&mut text, Status::WriteFault)?;
    put_status(&mut text, Status::OutOfMemory)?;
    assert_eq!(rt; text.as_str(), STATUSES);
    Ok(())
}

/// One item of a list, or why there is none.
fn single(alloc: Global, refusal: Option<Refusal>) -> Result<Vec<u8>, Bad> {
    if let Some(refusal) = refusal {
        return Err(refusal.into());
    }
    let mut items = Vec::with_capacity(alloc, 0)?;
    items.push(1)?;
    Ok(items)
}

#[test]
fn converts_into_bad(rt: HostRuntime) -> Result<(), Fail> {
    let refusal = Refusal {
        reason: Reason::BadHex,
        place: 0,
    };
    assert_eq!(rt;
        single(rt.alloc(), Some(refusal)).err(),
        Some(Bad::Refused(refusal))
    );
    assert_eq!(rt; single(rt.alloc(), None)?.len(), 1);
    Ok(())
}

/// Texts, and the octets that their hexadecimal digits are (RFC 4648, 8), in either case: each digit, and the neighbours of the first
/// and the last of a row of them, which are none.
const HEXADECIMAL: &str = "\
00 Some([0])
 Some([])
0aFF Some([10, 255])
0123456789 Some([1, 35, 69, 103, 137])
abcdef Some([171, 205, 239])
ABCDEF Some([171, 205, 239])
fedcba9876543210 Some([254, 220, 186, 152, 118, 84, 50, 16])
FEDCBA Some([254, 220, 186])
0 None
0a0 None
+1 None
0/ None
0: None
0@ None
0G None
0` None
0g None
/0 None
:0 None
@0 None
G0 None
`0 None
g0 None
";

/// Adds a line with digits, and what they are decoded as.
fn put_decoded(text: &mut String, alloc: Global, digits: &str) -> Result<(), Fail> {
    let octets = decode_hex(alloc, digits.as_bytes())?;
    writeln!(text, "{digits} {octets:?}")?;
    Ok(())
}

#[test]
fn decodes_hexadecimal_digits(rt: HostRuntime) -> Result<(), Fail> {
    let mut text = String::new(rt.alloc());
    for line in HEXADECIMAL.lines() {
        if let Some((digits, _)) = line.split_once(' ') {
            put_decoded(&mut text, rt.alloc(), digits)?;
        }
    }
    assert_eq!(rt; text.as_str(), HEXADECIMAL);
    Ok(())
}

/// A text of 70 digits, of which one is none.
fn with_one_bad(alloc: Global, place: usize) -> Result<Vec<u8>, Fail> {
    let mut digits = Vec::new(alloc);
    for i in 0..70usize {
        digits.push(if i == place { b'g' } else { b'f' })?;
    }
    Ok(digits)
}

#[test]
fn one_bad_digit_is_found_at_each_place(rt: HostRuntime) -> Result<(), Fail> {
    let mut octets = Vec::new(rt.alloc());
    for place in 0..70 {
        let digits = with_one_bad(rt.alloc(), place)?;
        assert_eq!(rt; read_hex(&mut octets, &digits)?, false);
    }
    let digits = with_one_bad(rt.alloc(), 70)?;
    assert_eq!(rt; read_hex(&mut octets, &digits)?, true);
    assert_eq!(rt; octets.len(), 35);
    assert!(rt; octets.iter().all(|octet| *octet == 255));
    Ok(())
}

/// Adds a line with whether digits are read, and the octets then.
fn put_in_place(text: &mut String, octets: &mut Vec<u8>, digits: &str) -> Result<(), Fail> {
    let are_digits = read_hex(octets, digits.as_bytes())?;
    writeln!(text, "{are_digits} {octets:?}")?;
    Ok(())
}

#[test]
fn octets_come_in_place_of_those_before(rt: HostRuntime) -> Result<(), Fail> {
    let mut octets = Vec::new(rt.alloc());
    let mut text = String::new(rt.alloc());
    for digits in ["01020304", "fe", "", "0a0B0c0D0e"] {
        put_in_place(&mut text, &mut octets, digits)?;
    }
    assert_eq!(rt;
        text.as_str(),
        "true [1, 2, 3, 4]\ntrue [254]\ntrue []\ntrue [10, 11, 12, 13, 14]\n"
    );
    Ok(())
}

/// How many digits the octets 0 to 255 have, the first and the last of them, and whether they are read, and as the octets; then the
/// digits of no octets.
const EACH_OCTET: &str = "\
512 Some(\"000102030405060708090a0b0c0d0e0f10111213\") Some(\"ecedeeeff0f1f2f3f4f5f6f7f8f9fafbfcfdfeff\")
true true
0 None None
";

/// The octets 0 to 255.
fn each_octet(alloc: Global) -> Result<Vec<u8>, OutOfMemory> {
    let mut octets = Vec::new(alloc);
    for octet in 0..=255u8 {
        octets.push(octet)?;
    }
    Ok(octets)
}

/// Adds a line with how many digits there are, the first 40 of 512 and the last.
fn put_digits(text: &mut String, digits: &str) -> Result<(), Fail> {
    let (count, first, last) = (digits.len(), digits.get(..40), digits.get(472..));
    writeln!(text, "{count} {first:?} {last:?}")?;
    Ok(())
}

/// Adds a line with whether digits are read, and whether as these octets.
fn put_read_back(
    text: &mut String,
    alloc: Global,
    digits: &str,
    octets: &[u8],
) -> Result<(), Fail> {
    let mut read = Vec::new(alloc);
    let are_digits = read_hex(&mut read, digits.as_bytes())?;
    let are_same = read.as_slice() == octets;
    writeln!(text, "{are_digits} {are_same}")?;
    Ok(())
}

/// Adds the digits of each octet, and what they are read as.
fn put_each_octet(text: &mut String, alloc: Global) -> Result<(), Fail> {
    let octets = each_octet(alloc)?;
    let digits = encode_hex(alloc, &octets)?;
    put_digits(text, &digits)?;
    put_read_back(text, alloc, &digits, &octets)
}

#[test]
fn digits_of_each_octet_are_read_as_it(rt: HostRuntime) -> Result<(), Fail> {
    let mut text = String::new(rt.alloc());
    put_each_octet(&mut text, rt.alloc())?;
    put_digits(&mut text, &encode_hex(rt.alloc(), &[])?)?;
    assert_eq!(rt; text.as_str(), EACH_OCTET);
    Ok(())
}
