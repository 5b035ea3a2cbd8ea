//! Sessions as octets, worked out by hand from the table of fields in `docs/FORMATS.md`.

use device_types::Session;
use echo_base::{Bad, Reason};
use session_form::{read_session, write_session};
use std::alloc::{AllocError, Global};
use std::test::Fail;

/// A session with everything set, and no two like fields the same: its fields in order behind the first octet, which says which form
/// it is, with spaces between them.
const SET: &str = "0b 01 0102 00030405 02f839 0607 08 09 0a 02 b1b2 \
c0c1c2c3c4c5c6c7c8c9cacbcccdcecfd0d1d2d3d4d5d6d7d8d9dadbdcdddedf \
0000000102030405 0000000203040506 c0a80001 0b0c0d0e 0a2d0001 c0a80002 0f101112 02 01 00 03 01 15 16171819";

/// Its second connection, which form 2 has alone.
const SECOND: &str = "03 1a c0a80003 1b1c1d1e 0a2d8001 c0a80004 1f202122";

/// The same as the program has it.
const SET_FIELDS: &str = "Session { stage: Connected, link: On { station: 258, enb: 197637 }, \
plmn: 194617, tac: 1543, eea: 8, eia: 9, pti: 10, res: ShortOctets { items: [177, 178] }, key: Key { shared: Some(ShortOctets { items: \
[192, 193, 194, 195, 196, 197, 198, 199, 200, 201, 202, 203, 204, 205, 206, 207, \
208, 209, 210, 211, 212, 213, 214, 215, 216, 217, 218, 219, 220, 221, 222, 223] }) }, dl: 4328719365, ul: 8640529670, \
sgw: 3232235521, teid: 185339150, ip: 170721281, side_addr: 3232235522, side_teid: 252711186, bearer: Active, \
registered: true, off: false, cause: CauseCode { group: 3, extended: true, index: 21 }, radio: 370612249, ";

const NO_SECOND_FIELDS: &str =
    "second: None, pti2: 0, sgw2: 0, teid2: 0, ip2: 0, side2_addr: 0, side2_teid: 0 }";

const SECOND_FIELDS: &str =
    "second: Accepted, pti2: 26, sgw2: 3232235523, teid2: 454827294, ip2: 170754049, \
side2_addr: 3232235524, side2_teid: 522199330 }";

/// Changes of that session in either form: at a place so many octets are taken away and others put there. `kept` says that what comes
/// of it is read, and written as form 2 of the same session; a number is the place where it is BadSession.
const CHANGES: &str = "\
stage 1 1 0f kept\n\
link 2 1 02 2\n\
link 2 1 00 3\n\
off 2 7 00000000000000 kept\n\
off 2 7 00000100000000 3\n\
off 2 7 00000000000001 5\n\
station 3 2 0001 kept\n\
station 3 2 ffff kept\n\
station 3 2 0000 3\n\
enb 5 4 00ffffff kept\n\
enb 5 4 01000000 5\n\
plmn 9 3 ffffff kept\n\
tac 12 2 ffff kept\n\
eea 14 1 ff kept\n\
eia 15 1 ff kept\n\
pti 16 1 ff kept\n\
res 17 3 00 kept\n\
res 17 3 10000102030405060708090a0b0c0d0e0f kept\n\
res 17 3 11000102030405060708090a0b0c0d0e0f10 17\n\
key 20 32 0000000000000000000000000000000000000000000000000000000000000000 kept\n\
key 20 32 ffffffffffffffffffffffffffffffffffffffffffffffffffffffffffffffff kept\n\
dl 52 8 00000002540be400 kept\n\
dl 52 8 00000002540be401 52\n\
ul 60 8 00000002540be400 kept\n\
ul 60 8 00000002540be401 60\n\
sgw 68 4 ffffffff kept\n\
teid 72 4 ffffffff kept\n\
ip 76 4 ffffffff kept\n\
side_addr 80 4 ffffffff kept\n\
side_teid 84 4 ffffffff kept\n\
bearer 88 1 00 kept\n\
bearer 88 1 03 88\n\
registered 89 1 00 kept\n\
registered 89 1 02 89\n\
off 90 1 01 kept\n\
off 90 1 02 90\n\
group 91 1 04 kept\n\
group 91 1 05 91\n\
extended 92 1 00 kept\n\
extended 92 1 02 92\n\
index 93 1 3f kept\n\
index 93 1 40 93\n\
radio 94 4 ffffffff kept\n\
";

/// Changes of form 1.
const CHANGES_OF_1: &str = "\
form 0 1 01 kept\n\
form 0 1 00 0\n\
form 0 1 02 98\n\
form 0 1 03 0\n\
stage 1 1 10 1\n\
stage 1 1 11 1\n\
end 98 0 00 98\n\
";

/// Changes of form 2.
const CHANGES_OF_2: &str = "\
form 0 1 02 kept\n\
form 0 1 00 0\n\
form 0 1 01 98\n\
form 0 1 03 0\n\
stage 1 1 10 kept\n\
stage 1 1 11 kept\n\
stage 1 1 12 1\n\
second 98 1 00 kept\n\
second 98 1 04 kept\n\
second 98 1 05 98\n\
pti2 99 1 ff kept\n\
sgw2 100 4 ffffffff kept\n\
teid2 104 4 ffffffff kept\n\
ip2 108 4 ffffffff kept\n\
side2_addr 112 4 ffffffff kept\n\
side2_teid 116 4 ffffffff kept\n\
end 120 0 00 120\n\
";

/// The first so many octets of that session, and what comes of them, where it is another thing than of one octet less: each field
/// that is not whole is BadSession at its first octet.
const CUTS: &str =
    "0 0,1 1,2 2,3 3,5 5,9 9,12 12,14 14,15 15,16 16,17 17,18 18,20 20,52 52,60 60,68 68,72 72,76 76,80 80,\
84 84,88 88,89 89,90 90,91 91,92 92,93 93,94 94,98 ";

const CUTS_OF_2: &str = "98,99 99,100 100,104 104,108 108,112 112,116 116,120 kept,";

/// The opening session behind its first octet, with spaces between its fields: 95 octets 00.
const OPENING: &str = "00 00 0000 00000000 000000 0000 00 00 00 00 \
0000000000000000000000000000000000000000000000000000000000000000 \
0000000000000000 0000000000000000 00000000 00000000 00000000 00000000 00000000 00 00 00 00 00 00 00000000";

/// Behind them in form 2: 22 octets 00.
const NO_SECOND: &str = "00 00 00000000 00000000 00000000 00000000 00000000";

/// Changes of the opening session, as above. With an octet less, its last field is not whole.
const OPENING_CHANGES: &str = "\
form 0 1 01 kept\n\
stage 1 1 10 1\n\
radio 92 4 000000 92\n\
end 96 0 00 96\n\
";

/// Form 2 of the session of which these octets are a form.
fn in_form_2(alloc: Global, octets: &[u8]) -> Result<Vec<u8>, AllocError> {
    let mut form_2 = Vec::from_slice(alloc, octets)?;
    if let Some(form) = form_2.first_mut()
        && *form == 1
    {
        *form = 2;
        form_2.extend_from_slice(&[0; 22])?;
    }
    Ok(form_2)
}

/// Writes what comes of the octets: `kept`, or the place where they are BadSession.
fn tell(alloc: Global, text: &mut String, octets: &[u8]) -> Result<(), AllocError> {
    match read_session(alloc, octets) {
        Ok(session) => {
            let written = write_session(alloc, &session)?;
            let form_2 = in_form_2(alloc, octets)?;
            text.push_str(if written.octets() == form_2.as_slice() {
                "kept"
            } else {
                "other"
            })
        }
        Err(Bad::Refused(refusal)) if refusal.reason == Reason::BadSession => {
            let place = refusal.place;
            write!(text, "{place}")
        }
        Err(Bad::Refused(refusal)) => write!(text, "{refusal:?}"),
        Err(Bad::OutOfMemory) => Err(AllocError),
    }
}

/// The octets with so many at a place taken away, and others put there.
fn changed(
    alloc: Global,
    octets: &[u8],
    place: usize,
    count: usize,
    others: &[u8],
) -> Result<Vec<u8>, Fail> {
    let (front, behind) = octets.split_at_checked(place).ok_or("no such place")?;
    let (_, rest) = behind.split_at_checked(count).ok_or("too many")?;
    let mut new = Vec::from_slice(alloc, front)?;
    new.extend_from_slice(others)?;
    new.extend_from_slice(rest)?;
    Ok(new)
}

/// The octets that are written in hexadecimal digits, with spaces between them.
fn octets_of(alloc: Global, text: &str) -> Result<Vec<u8>, Fail> {
    let digits = text.replace(alloc, " ", "")?;
    Ok(hex::decode(alloc, &digits)?)
}

/// A line of the table of changes, with what comes of it.
fn tell_change(alloc: Global, text: &mut String, set: &[u8], line: &str) -> Result<(), Fail> {
    let (front, _) = line.rsplit_once(' ').ok_or("no answer")?;
    let mut words = front.split(' ').skip(1);
    let place = words.next().ok_or("no place")?.parse::<usize>()?;
    let count = words.next().ok_or("no count")?.parse::<usize>()?;
    let others = hex::decode(alloc, words.next().ok_or("no octets")?)?;
    write!(text, "{front} ")?;
    tell(alloc, text, &changed(alloc, set, place, count, &others)?)?;
    text.push('\n')?;
    Ok(())
}

/// What comes of the first octets, as the table of cuts has it.
fn tell_cuts(alloc: Global, text: &mut String, octets: &[u8]) -> Result<(), Fail> {
    let mut before = String::new(alloc);
    for n in 0..octets.len() + 1 {
        let mut now = String::new(alloc);
        tell(alloc, &mut now, &octets[..n])?;
        if now != before {
            write!(text, "{n} {now},")?;
        }
        before = now;
    }
    Ok(())
}

/// The session with everything set, in form 1.
fn set_in_form_1(alloc: Global) -> Result<Vec<u8>, Fail> {
    octets_of(alloc, &format!(in alloc; "01 {SET}")?)
}

/// The same with its second connection, in form 2.
fn set_in_form_2(alloc: Global) -> Result<Vec<u8>, Fail> {
    octets_of(alloc, &format!(in alloc; "02 {SET} {SECOND}")?)
}

/// The opening session in form 1.
fn opening_in_form_1(alloc: Global) -> Result<Vec<u8>, Fail> {
    octets_of(alloc, &format!(in alloc; "01 {OPENING}")?)
}

/// The opening session in form 2.
fn opening_in_form_2(alloc: Global) -> Result<Vec<u8>, Fail> {
    octets_of(alloc, &format!(in alloc; "02 {OPENING} {NO_SECOND}")?)
}

/// What comes of changes of a form, line by line.
fn tell_changes(alloc: Global, text: &mut String, form: &[u8], changes: &str) -> Result<(), Fail> {
    for line in changes.lines() {
        tell_change(alloc, text, form, line)?;
    }
    Ok(())
}

/// What comes of the changes of either form, of those of this form, and of its beginnings.
fn tell_form(alloc: Global, text: &mut String, form: &[u8], changes: &str) -> Result<(), Fail> {
    tell_changes(alloc, text, form, CHANGES)?;
    tell_changes(alloc, text, form, changes)?;
    tell_cuts(alloc, text, form)
}

/// What comes of both forms of the session with everything set.
fn tell_forms(alloc: Global, text: &mut String) -> Result<(), Fail> {
    tell_form(alloc, text, &set_in_form_1(alloc)?, CHANGES_OF_1)?;
    tell_form(alloc, text, &set_in_form_2(alloc)?, CHANGES_OF_2)
}

#[test]
fn each_field_has_its_range_and_place(rt: HostRuntime) -> Result<(), Fail> {
    let mut text = String::new(rt.alloc());
    tell_forms(rt.alloc(), &mut text)?;
    let wanted = format!(in rt.alloc();
        "{CHANGES}{CHANGES_OF_1}{CUTS}kept,{CHANGES}{CHANGES_OF_2}{CUTS}{CUTS_OF_2}"
    )?;
    assert_eq!(rt; text.as_str(), wanted.as_str());
    Ok(())
}

/// A line with the session that the octets are, as the program has it.
fn tell_fields(alloc: Global, text: &mut String, octets: &[u8]) -> Result<(), Fail> {
    let session = read_session(alloc, octets).map_err(|_| "refused")?;
    writeln!(text, "{session:?}")?;
    Ok(())
}

/// The session with everything set, of both its forms.
fn tell_set(alloc: Global, text: &mut String) -> Result<(), Fail> {
    tell_fields(alloc, text, &set_in_form_1(alloc)?)?;
    tell_fields(alloc, text, &set_in_form_2(alloc)?)
}

#[test]
fn session_with_everything_set_is_read(rt: HostRuntime) -> Result<(), Fail> {
    let mut text = String::new(rt.alloc());
    tell_set(rt.alloc(), &mut text)?;
    let wanted = format!(in rt.alloc();
        "{SET_FIELDS}{NO_SECOND_FIELDS}\n{SET_FIELDS}{SECOND_FIELDS}\n"
    )?;
    assert_eq!(rt; text.as_str(), wanted.as_str());
    Ok(())
}

/// What comes of the opening session in form 1 with each of its changes, and of form 2.
fn tell_opening(alloc: Global, text: &mut String) -> Result<(), Fail> {
    tell_changes(alloc, text, &opening_in_form_1(alloc)?, OPENING_CHANGES)?;
    tell(alloc, text, &opening_in_form_2(alloc)?)?;
    Ok(())
}

#[test]
fn opening_session_is_zeros_behind_its_form(rt: HostRuntime) -> Result<(), Fail> {
    let mut text = String::new(rt.alloc());
    tell_opening(rt.alloc(), &mut text)?;
    let wanted = format!(in rt.alloc(); "{OPENING_CHANGES}kept")?;
    assert_eq!(rt; text.as_str(), wanted.as_str());
    Ok(())
}

/// The session that both forms of the opening session are.
fn tell_both_openings(alloc: Global, text: &mut String) -> Result<(), Fail> {
    tell_fields(alloc, text, &opening_in_form_1(alloc)?)?;
    tell_fields(alloc, text, &opening_in_form_2(alloc)?)
}

#[test]
fn opening_session_is_read_of_both_forms(rt: HostRuntime) -> Result<(), Fail> {
    let mut text = String::new(rt.alloc());
    tell_both_openings(rt.alloc(), &mut text)?;
    let opening = Session::opening(rt.alloc());
    let wanted = format!(in rt.alloc(); "{opening:?}\n{opening:?}\n")?;
    assert_eq!(rt; text.as_str(), wanted.as_str());
    Ok(())
}
