//! Case texts. What they say, or why they are refused, is worked out by hand.

use case_form::{Case, CaseBad, read_case};
use std::alloc::{AllocError, Global};
use std::test::Fail;

/// A row of the subscriber table, with M-TMSI 1.
pub(crate) const ROW: &str =
    r#"{"imsi":"208930000000001","tmsi":1,"rand":"000102030405060708090a0b0c0d0e0f","autn":"101112131415161718191a1b1c1d1e1f","res":"a0a1a2a3a4a5a6a7","key":"1111111111111111111111111111111111111111111111111111111111111111","apn":"internet","ip":"0a2d0001","sgw":"c0a80001","teid":1,"ambr_dl":1000000000,"ambr_ul":1000000000,"forbidden":[9]}"#;

/// The columns of a row behind its identities.
const OTHERS: &str =
    r#""rand":"000102030405060708090a0b0c0d0e0f","autn":"101112131415161718191a1b1c1d1e1f","res":"a0a1a2a3a4a5a6a7","key":"1111111111111111111111111111111111111111111111111111111111111111","apn":"internet","ip":"0a2d0001","sgw":"c0a80001","teid":1,"ambr_dl":0,"ambr_ul":0,"forbidden":[]}"#;

/// Texts, with `|` for LF, `^` for CR, `@` for a row and `&` for the columns of a row behind its identities, and behind `=` what
/// reading them gives.
const TEXTS: &str = r#"=good
|=good
^||#=good
# [no]|#^|=good
[subscribers]=good
[subscribers]|[trace]|[schedule]=good
[trace]^|=good
[schedule]|=good
[trace]|1 00^=good
[schedule]|[trace]|=BadSection 2
[trace]||[subscribers]=BadSection 3
[trace]|[trace]|=BadSection 2
[Trace]|=BadSection 1
# x||[trace] |=BadSection 3
[trace]^=BadSection 1
[trace]^^|=BadSection 1
[subscribers]|[1]=BadSection 2
1 00|[trace]|=BadSection 1
 # x|=BadSection 1
^=BadSection 1
[trace]|1 00|x|[trace]|=BadLine 3
[subscribers]||{|x|=BadJson 3
[subscribers]|{}|=MissingColumn(Imsi) 2
[subscribers]|@|#|@=RepeatedImsi 4
[subscribers]|@|{"imsi":"208930000000002","tmsi":1,&=RepeatedTmsi 3
[subscribers]|@|{"imsi":"208930000000002","tmsi":2,&=good
[subscribers]|{"imsi":208930000000002,"tmsi":2,&|x=BadColumn(Imsi) 2
[schedule]|send 1 1|=BadLine 2"#;

/// A text of a front, so many zeros and an end, and what reading it gives.
const LONG_LINES: &str = "\
[trace]|1 =8190=^|=good
[trace]|1 =8190==good
[trace]|1 =8190=^=LineTooLong 2
[trace]|1 =8191=|=LineTooLong 2
|#=8191=^|=good
|#=8192=|=LineTooLong 2
|[=8192=|=LineTooLong 2
|=8193=|=LineTooLong 2";

/// What reading a text gives, as the tables write it.
pub(crate) fn answer(alloc: Global, text: &[u8]) -> Result<String, AllocError> {
    match read_case(alloc, text) {
        Ok(_) => String::from_str(alloc, "good"),
        Err(CaseBad::Refused { reason, line }) => format!(in alloc; "{reason:?} {line}"),
        Err(CaseBad::OutOfMemory) => Err(AllocError),
    }
}

/// The text that a table writes.
fn text_of(alloc: Global, written: &str) -> Result<String, AllocError> {
    let mut text = String::new(alloc);
    for c in written.chars() {
        match c {
            '|' => text.push('\n')?,
            '^' => text.push('\r')?,
            '@' => text.push_str(ROW)?,
            '&' => text.push_str(OTHERS)?,
            _ => text.push(c)?,
        }
    }
    Ok(text)
}

/// A line behind the texts before it.
pub(crate) fn joined(alloc: Global, front: &str, line: &str) -> Result<String, AllocError> {
    let mut text = String::from_str(alloc, front)?;
    text.push_str(line)?;
    Ok(text)
}

/// A line so many times.
fn repeated(alloc: Global, front: &str, line: &str, count: u32) -> Result<String, AllocError> {
    let mut text = String::from_str(alloc, front)?;
    for _ in 0..count {
        text.push_str(line)?;
    }
    Ok(text)
}

/// Subscribers with numbers from 1 for their identities.
fn many_rows(alloc: Global, count: u32) -> Result<String, AllocError> {
    let mut text = String::from_str(alloc, "[subscribers]\n")?;
    for number in 1..=count {
        let first = format!(in alloc; "{{\"imsi\":\"{number:015}\",\"tmsi\":{number},")?;
        text.push_str(&first)?;
        text.push_str(OTHERS)?;
        text.push_str("\n")?;
    }
    Ok(text)
}

/// A case with every kind of line and of event, as `text_of` reads it.
const CASE: &str =
    r#"# A case.^||[subscribers]|@^|#|{"imsi":"208930000000002","tmsi":2,&|[trace]|1 0g||65535 é^|data 000000000000007|[schedule]|send 1 7|take 4 2 8|answer 3 1 subscriber 8|answer 6 2 gateway 5|read 4|write 5|stop 16|reply 2 9|push 2 down 10|push 1 gateway 3|effect 2 gateway 11|effect 1 down 6|# end|settle 1 subscriber 4294967295|settle 2 gateway 13"#;

/// What it says.
const SAID: &str = "\
1 208930000000001 1
2 208930000000002 2
[TraceLine { line: 8, kind: Pdu { station: 1, text: PduText { octets: [48, 103] } } }, TraceLine { line: 10, kind: Pdu { station: 65535, text: PduText { octets: [195, 169] } } }, \
TraceLine { line: 11, kind: Data { imsi: 7 } }]
[Send { d: DeviceId(1), n: 7 }, Take { r: 4, d: DeviceId(2), n: 8 }, Answer { r: 3, d: DeviceId(1), lane: Subscriber, k: 8 }, \
Answer { r: 6, d: DeviceId(2), lane: Gateway, k: 5 }, Read { r: 4 }, Write { r: 5 }, Stop { r: 16 }, Reply { d: DeviceId(2), n: 9 }, \
Push { d: DeviceId(2), lane: Down, k: 10 }, Push { d: DeviceId(1), lane: Gateway, k: 3 }, Effect { d: DeviceId(2), lane: Gateway, k: 11 }, \
Effect { d: DeviceId(1), lane: Down, k: 6 }, Settle { d: DeviceId(1), lane: Subscriber, k: 4294967295 }, Settle { d: DeviceId(2), lane: Gateway, k: 13 }]
";

/// Tells what a case says: of each row its number and its identities, then the trace, then the schedule.
fn tell_case(text: &mut String, case: &Case) -> Result<(), Fail> {
    for row in case.table().rows() {
        let (number, imsi, tmsi) = (row.number, row.imsi, row.tmsi);
        writeln!(text, "{number} {imsi} {tmsi}")?;
    }
    let (trace, schedule) = (case.trace(), case.schedule());
    writeln!(text, "{trace:?}")?;
    writeln!(text, "{schedule:?}")?;
    Ok(())
}

#[test]
fn reads_a_case(rt: HostRuntime) -> Result<(), Fail> {
    let given = text_of(rt.alloc(), CASE)?;
    let case = read_case(rt.alloc(), given.as_bytes())?;
    let mut text = String::new(rt.alloc());
    tell_case(&mut text, &case)?;
    assert_eq!(rt; text.as_str(), SAID);
    Ok(())
}

/// Tells each text again, with what reading it gives.
fn tell_texts(alloc: Global, text: &mut String) -> Result<(), Fail> {
    for line in TEXTS.lines() {
        let (written, _) = line.split_once('=').ok_or("no answer")?;
        let given = text_of(alloc, written)?;
        let answer = answer(alloc, given.as_bytes())?;
        writeln!(text, "{written}={answer}")?;
    }
    Ok(())
}

#[test]
fn reads_texts(rt: HostRuntime) -> Result<(), Fail> {
    let mut text = String::new(rt.alloc());
    tell_texts(rt.alloc(), &mut text)?;
    assert_eq!(rt; text.as_str().trim_end(), TEXTS);
    Ok(())
}

/// The text of a front, so many zeros and an end.
fn long_text(alloc: Global, front: &str, count: u32, end: &str) -> Result<String, AllocError> {
    let (front, end) = (text_of(alloc, front)?, text_of(alloc, end)?);
    let long = repeated(alloc, &front, "0", count)?;
    joined(alloc, &long, &end)
}

/// Tells each text of the table again, with what reading it gives.
fn tell_long_lines(alloc: Global, text: &mut String) -> Result<(), Fail> {
    for line in LONG_LINES.lines() {
        let (front, rest) = line.split_once('=').ok_or("no count")?;
        let (count, rest) = rest.split_once('=').ok_or("no end")?;
        let (end, _) = rest.split_once('=').ok_or("no answer")?;
        let given = long_text(alloc, front, count.parse()?, end)?;
        let answer = answer(alloc, given.as_bytes())?;
        writeln!(text, "{front}={count}={end}={answer}")?;
    }
    Ok(())
}

#[test]
fn counts_the_octets_of_a_line(rt: HostRuntime) -> Result<(), Fail> {
    let mut text = String::new(rt.alloc());
    tell_long_lines(rt.alloc(), &mut text)?;
    assert_eq!(rt; text.as_str().trim_end(), LONG_LINES);
    Ok(())
}

#[test]
fn counts_the_rows(rt: HostRuntime) -> Result<(), Fail> {
    let alloc = rt.alloc();
    let most = many_rows(alloc, 4096)?;
    let rows = read_case(alloc, most.as_bytes())?.table().len();
    let more = many_rows(alloc, 4097)?;
    let bad = answer(alloc, more.as_bytes())?;
    let text = format!(in alloc; "{rows} rows, {bad}")?;
    assert_eq!(rt; text.as_str(), "4096 rows, TableFull 4098");
    Ok(())
}

/// Tells what a section with 100,000 lines of it gives, and what the same with another line.
fn tell_full(alloc: Global, text: &mut String, front: &str, line: &str) -> Result<(), Fail> {
    let most = repeated(alloc, front, line, 100_000)?;
    let good = answer(alloc, most.as_bytes())?;
    let more = joined(alloc, &most, "#\nx")?;
    let bad = answer(alloc, more.as_bytes())?;
    writeln!(text, "{good}, {bad}")?;
    Ok(())
}

#[test]
fn counts_the_lines_of_a_section(rt: HostRuntime) -> Result<(), Fail> {
    let mut text = String::new(rt.alloc());
    tell_full(rt.alloc(), &mut text, "[trace]\n#\n", "1 00\n")?;
    tell_full(
        rt.alloc(),
        &mut text,
        "[trace]\n#\n",
        "data 208930000000001\n",
    )?;
    tell_full(rt.alloc(), &mut text, "\n[schedule]\n", "read 1\n")?;
    assert_eq!(rt;
        text.as_str(),
        "good, TooManyLines 100004\ngood, TooManyLines 100004\ngood, TooManyLines 100004\n"
    );
    Ok(())
}
