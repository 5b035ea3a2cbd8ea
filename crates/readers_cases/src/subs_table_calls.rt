//! Lines of the subscriber table. What they give is worked out by hand from RFC 8259 and the kinds and ranges of the columns.

use echo_base::{Bad, Reason};
use std::alloc::{AllocError, Global};
use std::test::Fail;
use subs_table::read_row;

/// The columns of a good line: key, name and value. No two of its numbers are the same. Those of a second connection stand first, so that
/// another column can repeat them.
const GOOD: &str = r#"apn2 Apn2 "ims"
ip2 Ip2 "0a2d8001"
imsi Imsi "208930000000001"
tmsi Tmsi 305419896
rand Rand "000102030405060708090a0b0c0d0e0f"
autn Autn "101112131415161718191a1b1c1d1e1f"
res Res "a0a1a2a3a4a5a6a7"
key Key "202122232425262728292a2b2c2d2e2f303132333435363738393a3b3c3d3e3f"
apn Apn "internet"
ip Ip "0a2d0001"
sgw Sgw "c0a80002"
teid Teid 1000
ambr_dl AmbrDl 2000000000
ambr_ul AmbrUl 300000000
forbidden Forbidden [9,258]"#;

/// Lines that are no object, one a line.
const NO_OBJECTS: &str = r#"
{
null
true
1
"imsi"
[]
[{}]
{}x
{} {}
{"a":1,}
{'a':1}
{"a":1e999}
{"a":"\ud800"}"#;

/// Values that no column takes.
const OTHER_KINDS: &str =
    r#"null true {} -1 1.0 1e0 -0 -1.5 "" "A-z_" [null] [-1] [1.0] ["9"] [[9]] [65536] 18446744073709551616"#;

/// The good line with another value of a column, and what reading it gives. `-` leaves the column out, and columns may stand
/// behind it as behind any value; the last value of a repeated key counts.
const CASES: &str = r#"imsi "000000000000000" good
imsi "999999999999999" good
imsi "20893000000001" BadColumn(Imsi)
imsi "2089300000000010" BadColumn(Imsi)
imsi "+08930000000001" BadColumn(Imsi)
imsi "20893000000000a" BadColumn(Imsi)
imsi "٠٠٠٠٠٠٠0" BadColumn(Imsi)
tmsi 0 good
tmsi 4294967295 good
tmsi 4294967296 BadColumn(Tmsi)
tmsi "1" BadColumn(Tmsi)
rand "000102030405060708090A0B0C0D0E0F" good
rand "000102030405060708090a0b0c0d0e" BadColumn(Rand)
rand "000102030405060708090a0b0c0d0e0" BadColumn(Rand)
rand "000102030405060708090a0b0c0d0e0f10" BadColumn(Rand)
rand "000102030405060708090a0b0c0d0e0g" BadColumn(Rand)
autn "101112131415161718191a1b1c1d1e" BadColumn(Autn)
autn "101112131415161718191a1b1c1d1e1f20" BadColumn(Autn)
autn "101112131415161718191A1B1C1D1E1F" good
autn "101112131415161718191a1b1c1d1e1x" BadColumn(Autn)
res "a0a1a2a3" good
res "000102030405060708090a0b0c0d0e0f" good
res "a0a1a2" BadColumn(Res)
res "a0a1a2a3a" BadColumn(Res)
res "000102030405060708090a0b0c0d0e0f10" BadColumn(Res)
key "11111111111111111111111111111111111111111111111111111111111111" BadColumn(Key)
key "111111111111111111111111111111111111111111111111111111111111111111" BadColumn(Key)
key "111111111111111111111111111111111111111111111111111111111111111A" good
key "111111111111111111111111111111111111111111111111111111111111111x" BadColumn(Key)
apn "a" good
apn "abcdefghijklmnopqrstuvwxyz0189" good
apn "abcdefghijklmnopqrstuvwxyz01890" BadColumn(Apn)
apn "Internet" BadColumn(Apn)
apn "inter.net" BadColumn(Apn)
apn "caf\u00e9" BadColumn(Apn)
ip "00000000" good
ip "FFFFFFFF" good
ip "0a2d00" BadColumn(Ip)
ip "0a2d001" BadColumn(Ip)
ip "0a2d000100" BadColumn(Ip)
ip "+a2d0001" BadColumn(Ip)
sgw "c0a800" BadColumn(Sgw)
sgw "c0a8000100" BadColumn(Sgw)
sgw "c0a8000g" BadColumn(Sgw)
teid 1 good
teid 4000000000 good
teid 0 BadColumn(Teid)
teid 4000000001 BadColumn(Teid)
ambr_dl 0 good
ambr_dl 10000000000 good
ambr_dl 10000000001 BadColumn(AmbrDl)
ambr_ul 0 good
ambr_ul 10000000000 good
ambr_ul 10000000001 BadColumn(AmbrUl)
forbidden [] good
forbidden [0,65535] good
forbidden [1,2,3,4,5,6,7,8,9,10,11,12,13,14,15,16] good
forbidden [1,2,3,4,5,6,7,8,9,10,11,12,13,14,15,16,17] BadColumn(Forbidden)
apn2 "x" good
apn2 "0123456789abcdefghijklmnopqrst" good
apn2 "0123456789abcdefghijklmnopqrstu" BadColumn(Apn2)
apn2 "Ims" BadColumn(Apn2)
apn2 "i-ms" BadColumn(Apn2)
ip2 "00000000" good
ip2 "FFFFFFFF" good
ip2 "0a2d80" BadColumn(Ip2)
ip2 "0a2d801" BadColumn(Ip2)
ip2 "0a2d800100" BadColumn(Ip2)
ip2 "0a2d800x" BadColumn(Ip2)
apn2 - good
ip2 - good
teid 0,"teid":5 good
teid 5,"teid":0 BadColumn(Teid)
imsi - MissingColumn(Imsi)
tmsi - MissingColumn(Tmsi)
rand - MissingColumn(Rand)
autn - MissingColumn(Autn)
res - MissingColumn(Res)
key - MissingColumn(Key)
apn - MissingColumn(Apn)
ip - MissingColumn(Ip)
sgw - MissingColumn(Sgw)
teid - MissingColumn(Teid)
ambr_dl - MissingColumn(AmbrDl)
ambr_ul - MissingColumn(AmbrUl)
forbidden - MissingColumn(Forbidden)
forbidden -,"imsi":1 MissingColumn(Forbidden)
tmsi -,"imsi":1 MissingColumn(Tmsi)
imsi -,"forbidden":0 MissingColumn(Imsi)
teid 0,"tmsi":-1 BadColumn(Tmsi)
forbidden 9,"ambr_ul":null BadColumn(AmbrUl)
imsi 1,"forbidden":[null] BadColumn(Imsi)
key "","res":"" BadColumn(Res)
forbidden [],"apn2":"","ip2":"" BadColumn(Apn2)
forbidden [],"ip2":"","apn2":"" BadColumn(Apn2)
forbidden [],"ip2":"" BadColumn(Ip2)
forbidden [],"apn2":null BadColumn(Apn2)
forbidden 9,"apn2":0,"ip2":0 BadColumn(Forbidden)
ambr_ul "","apn2":"" BadColumn(AmbrUl)
imsi "","ip2":"" BadColumn(Imsi)
forbidden -,"apn2":null,"ip2":null MissingColumn(Forbidden)
imsi -,"ip2":"" MissingColumn(Imsi)
apn2 "","apn2":"ims" good
apn2 "ims","apn2":"" BadColumn(Apn2)
ip2 null,"ip2":"0a2d8001" good
ip2 "0a2d8001","ip2":null BadColumn(Ip2)"#;

/// The good line with another value of one of these columns, and the name and the address of the second connection that its row has.
const SECOND: &str = r#"apn2 "x" Some(ListOf { items: [120] }) Some(170754049)
apn2 - None Some(170754049)
ip2 - Some(ListOf { items: [105, 109, 115] }) None
ip2 "c0A80102" Some(ListOf { items: [105, 109, 115] }) Some(3232235778)
apn "ims2" Some(ListOf { items: [105, 109, 115] }) Some(170754049)
ip "0a2d8002" Some(ListOf { items: [105, 109, 115] }) Some(170754049)
forbidden [],"ip2":"00000001","apn2":"b1" Some(ListOf { items: [98, 49] }) Some(1)
forbidden [],"apn2":"c","apn2":"d" Some(ListOf { items: [100] }) Some(170754049)"#;

/// Adds a column to a line, or what stands behind `-,` in its place, or nothing where its value is `-`.
fn push_column(line: &mut String, key: &str, value: &str) -> Result<(), AllocError> {
    if value == "-" {
        return Ok(());
    }
    if let Some(others) = value.strip_prefix("-,") {
        line.push_str(others)?;
        return line.push_str(",");
    }
    line.push_str("\"")?;
    line.push_str(key)?;
    line.push_str("\":")?;
    line.push_str(value)?;
    line.push_str(",")
}

/// The good line, with that value of the column with that key, where a key is given. A column of no meaning ends it. It fails where no
/// column has the key.
pub(crate) fn line_with(alloc: Global, key: &str, value: &str) -> Result<String, Fail> {
    let mut line = String::from_str(alloc, "{")?;
    let mut found = key.is_empty();
    for column in GOOD.lines() {
        let (name, rest) = column.split_once(' ').ok_or("no key")?;
        let (_, good) = rest.split_once(' ').ok_or("no value")?;
        if name == key {
            push_column(&mut line, name, value)?;
            found = true;
        } else {
            push_column(&mut line, name, good)?;
        }
    }
    if !found {
        return Err(Fail::new("no such column"));
    }
    line.push_str("\"apn3\":null}")?;
    Ok(line)
}

/// Writes what reading a line gives, as the tables write it.
fn tell(alloc: Global, text: &mut String, line: &[u8]) -> Result<(), AllocError> {
    match read_row(alloc, line, 1) {
        Ok(_) => text.push_str("good\n"),
        Err(Bad::Refused(refusal)) => tell_reason(alloc, text, &refusal.reason),
        Err(Bad::OutOfMemory) => Err(AllocError),
    }
}

/// Writes a reason as it is printed by `{:?}`, and ends the line.
fn tell_reason(alloc: Global, text: &mut String, reason: &Reason) -> Result<(), AllocError> {
    let told = format!(in alloc; "{reason:?}\n")?;
    text.push_str(told.as_str())
}

/// Writes a case, and what reading its line gives.
fn tell_case(alloc: Global, text: &mut String, key: &str, value: &str) -> Result<(), Fail> {
    text.push_str(key)?;
    text.push_str(" ")?;
    text.push_str(value)?;
    text.push_str(" ")?;
    let line = line_with(alloc, key, value)?;
    tell(alloc, text, line.as_bytes())?;
    Ok(())
}

/// Writes each case of the table again, with what its line gives.
fn tell_cases(alloc: Global, text: &mut String) -> Result<(), Fail> {
    for case in CASES.lines() {
        let (key, rest) = case.split_once(' ').ok_or("no key")?;
        let (value, _) = rest.split_once(' ').ok_or("no value")?;
        tell_case(alloc, text, key, value)?;
    }
    Ok(())
}

/// Writes, for a column and each value that no column takes, what its line gives.
fn tell_kinds(alloc: Global, text: &mut String, key: &str) -> Result<(), Fail> {
    for value in OTHER_KINDS.split(' ') {
        tell_case(alloc, text, key, value)?;
    }
    Ok(())
}

/// Writes, for a column and each value that no column takes, that it is BadColumn with that name.
fn tell_wanted(text: &mut String, key: &str, name: &str) -> Result<(), AllocError> {
    for value in OTHER_KINDS.split(' ') {
        text.push_str(key)?;
        text.push_str(" ")?;
        text.push_str(value)?;
        text.push_str(" BadColumn(")?;
        text.push_str(name)?;
        text.push_str(")\n")?;
    }
    Ok(())
}

/// Writes for each column what is told of it and, in the other text, what is wanted.
fn tell_columns(alloc: Global, text: &mut String, wanted: &mut String) -> Result<(), Fail> {
    for column in GOOD.lines() {
        let (key, rest) = column.split_once(' ').ok_or("no key")?;
        let (name, _) = rest.split_once(' ').ok_or("no name")?;
        tell_kinds(alloc, text, key)?;
        tell_wanted(wanted, key, name)?;
    }
    Ok(())
}

/// Writes what an object gives that has so many arrays in one another.
fn tell_nested(alloc: Global, text: &mut String, arrays: usize) -> Result<(), Fail> {
    let (front, back) = ("[".repeat(alloc, arrays)?, "]".repeat(alloc, arrays)?);
    let line = format!(in alloc; "{{\"a\":{front}{back}}}")?;
    tell(alloc, text, line.as_bytes())?;
    Ok(())
}

/// Writes what each line gives that is no object, or too deep, and what two objects give.
fn tell_no_objects(alloc: Global, text: &mut String) -> Result<(), Fail> {
    for line in NO_OBJECTS.lines() {
        tell(alloc, text, line.as_bytes())?;
    }
    let deep = "[".repeat(alloc, 200)?;
    let deep = format!(in alloc; "{{\"a\":{deep}")?;
    tell(alloc, text, deep.as_bytes())?;
    tell_nested(alloc, text, 127)?;
    tell(alloc, text, b"{\"a\":\"\xff\"}")?;
    tell(alloc, text, b"\xef\xbb\xbf{}")?;
    tell(alloc, text, b" \t{ \"\\u0069msi\" : 1 } \r")?;
    tell_nested(alloc, text, 126)?;
    Ok(())
}

/// The row of the good line.
const ROW: &str = "Subscriber { number: 7, imsi: 208930000000001, tmsi: 305419896, \
rand: ListOf { items: [0, 1, 2, 3, 4, 5, 6, 7, 8, 9, 10, 11, 12, 13, 14, 15] }, \
autn: ListOf { items: [16, 17, 18, 19, 20, 21, 22, 23, 24, 25, 26, 27, 28, 29, 30, 31] }, \
res: ListOf { items: [160, 161, 162, 163, 164, 165, 166, 167] }, \
key: ListOf { items: [32, 33, 34, 35, 36, 37, 38, 39, 40, 41, 42, 43, 44, 45, 46, 47, \
48, 49, 50, 51, 52, 53, 54, 55, 56, 57, 58, 59, 60, 61, 62, 63] }, \
apn: ListOf { items: [105, 110, 116, 101, 114, 110, 101, 116] }, ip: 170721281, sgw: 3232235522, teid: 1000, \
ambr_dl: 2000000000, ambr_ul: 300000000, forbidden: ListOf { items: [9, 258] }, \
apn2: Some(ListOf { items: [105, 109, 115] }), ip2: Some(170754049) }";

#[test]
fn reads_every_column(rt: HostRuntime) -> Result<(), Fail> {
    let alloc = rt.alloc();
    let line = line_with(alloc, "", "")?;
    let row = read_row(alloc, line.as_bytes(), 7)?;
    let text = format!(in alloc; "{row:?}")?;
    assert_eq!(rt; text.as_str(), ROW);
    Ok(())
}

#[test]
fn reads_columns(rt: HostRuntime) -> Result<(), Fail> {
    let mut text = String::new(rt.alloc());
    tell_cases(rt.alloc(), &mut text)?;
    assert_eq!(rt; text.as_str().trim_end(), CASES);
    Ok(())
}

/// Writes what the row of a line has of the second connection.
fn tell_second(alloc: Global, text: &mut String, line: &str) -> Result<(), Fail> {
    let row = read_row(alloc, line.as_bytes(), 1)?;
    let told = format!(in alloc; "{:?} {:?}\n", row.apn2, row.ip2)?;
    text.push_str(told.as_str())?;
    Ok(())
}

/// Writes each case of the table of second connections again, with what its line gives.
fn tell_seconds(alloc: Global, text: &mut String) -> Result<(), Fail> {
    for case in SECOND.lines() {
        let (key, rest) = case.split_once(' ').ok_or("no key")?;
        let (value, _) = rest.split_once(' ').ok_or("no value")?;
        text.push_str(key)?;
        text.push_str(" ")?;
        text.push_str(value)?;
        text.push_str(" ")?;
        let line = line_with(alloc, key, value)?;
        tell_second(alloc, text, line.as_str())?;
    }
    Ok(())
}

/// A line without the two columns of a second connection has none.
#[test]
fn reads_second_connections(rt: HostRuntime) -> Result<(), Fail> {
    let alloc = rt.alloc();
    let mut text = String::new(alloc);
    tell_seconds(alloc, &mut text)?;
    let line = line_with(alloc, "", "")?;
    let (_, needed) = line.as_str().split_once("\"imsi\"").ok_or("no IMSI")?;
    let line = format!(in alloc; "{{\"imsi\"{needed}")?;
    tell_second(alloc, &mut text, line.as_str())?;
    let wanted = format!(in alloc; "{SECOND}\nNone None\n")?;
    assert_eq!(rt; text.as_str(), wanted.as_str());
    Ok(())
}

#[test]
fn refuses_every_other_kind(rt: HostRuntime) -> Result<(), Fail> {
    let mut text = String::new(rt.alloc());
    let mut wanted = String::new(rt.alloc());
    tell_columns(rt.alloc(), &mut text, &mut wanted)?;
    assert_eq!(rt; text.as_str(), wanted.as_str());
    Ok(())
}

#[test]
fn refuses_what_is_no_object(rt: HostRuntime) -> Result<(), Fail> {
    let mut text = String::new(rt.alloc());
    tell_no_objects(rt.alloc(), &mut text)?;
    let mut wanted = "BadJson\n".repeat(rt.alloc(), 18)?;
    wanted.push_str("MissingColumn(Tmsi)\nMissingColumn(Imsi)\n")?;
    assert_eq!(rt; text.as_str(), wanted.as_str());
    Ok(())
}
