//! The lines of a schedule and of a trace, in every form and out of it.

use crate::case_form_calls::{ROW, answer, joined};
use std::alloc::Global;
use std::test::Fail;

/// Lines of a schedule where there is one row, and behind `=` what reading each behind the headings gives.
const EVENTS: &str = "\
send 1 1=good\n\
send 1 4294967295=good\n\
take 1 1 1=good\n\
take 16 1 4294967295=good\n\
answer 1 1 gateway 1=good\n\
answer 16 1 subscriber 4294967295=good\n\
read 1=good\n\
read 16=good\n\
write 1=good\n\
write 16=good\n\
stop 1=good\n\
stop 16=good\n\
reply 1 1=good\n\
reply 1 4294967295=good\n\
push 1 down 1=good\n\
push 1 gateway 4294967295=good\n\
effect 1 subscriber 4294967295=good\n\
settle 1 down 4294967295=good\n\
send 0 1=BadLine 4\n\
send 2 1=BadLine 4\n\
send 1 0=BadLine 4\n\
send 1 4294967296=BadLine 4\n\
send 1 18446744073709551617=BadLine 4\n\
send 01 1=BadLine 4\n\
send 1 01=BadLine 4\n\
send +1 1=BadLine 4\n\
send -1 1=BadLine 4\n\
send 1 1x=BadLine 4\n\
send  1 1=BadLine 4\n\
send 1  1=BadLine 4\n\
send 1 1 =BadLine 4\n\
\x20send 1 1=BadLine 4\n\
send 1 1\t=BadLine 4\n\
send\t1 1=BadLine 4\n\
send 1=BadLine 4\n\
send=BadLine 4\n\
send 1 1 1=BadLine 4\n\
Send 1 1=BadLine 4\n\
sends 1 1=BadLine 4\n\
take 0 1 1=BadLine 4\n\
take 17 1 1=BadLine 4\n\
take 1 0 1=BadLine 4\n\
take 1 2 1=BadLine 4\n\
take 1 1 0=BadLine 4\n\
take 1 1 4294967296=BadLine 4\n\
take 1 1=BadLine 4\n\
answer 0 1 gateway 1=BadLine 4\n\
answer 17 1 gateway 1=BadLine 4\n\
answer 1 0 gateway 1=BadLine 4\n\
answer 1 2 gateway 1=BadLine 4\n\
answer 1 1 down 1=BadLine 4\n\
answer 1 1 peer 1=BadLine 4\n\
answer 1 1 gateway 0=BadLine 4\n\
answer 1 1 gateway 4294967296=BadLine 4\n\
answer 1 1 gateway=BadLine 4\n\
read 0=BadLine 4\n\
read 17=BadLine 4\n\
read=BadLine 4\n\
read 1 1=BadLine 4\n\
write 0=BadLine 4\n\
write 17=BadLine 4\n\
stop 0=BadLine 4\n\
stop 17=BadLine 4\n\
reply 2 1=BadLine 4\n\
reply 1 0=BadLine 4\n\
reply 1 4294967296=BadLine 4\n\
push 2 down 1=BadLine 4\n\
push 1 up 1=BadLine 4\n\
push 1 Down 1=BadLine 4\n\
push 1 down 0=BadLine 4\n\
push 1 down 4294967296=BadLine 4\n\
effect 2 down 1=BadLine 4\n\
effect 1 1 down=BadLine 4\n\
effect 1 down 0=BadLine 4\n\
effect 1 down 4294967296=BadLine 4\n\
settle 2 down 1=BadLine 4\n\
settle 1 down 0=BadLine 4\n\
settle 1 down 4294967296=BadLine 4\n\
data 1=BadLine 4\n\
x=BadLine 4\n\
";

/// Lines of a trace, and what reading each behind the heading gives.
const TRACE_LINES: &str = "\
1 00=good\n\
1 0g=good\n\
65535 00=good\n\
1 0\t0=good\n\
1 [0]=good\n\
10 #=good\n\
0 00=BadLine 2\n\
65536 00=BadLine 2\n\
4294967297 00=BadLine 2\n\
01 00=BadLine 2\n\
+1 00=BadLine 2\n\
1x 00=BadLine 2\n\
1  00=BadLine 2\n\
1 00 =BadLine 2\n\
\x201 00=BadLine 2\n\
1 0 0=BadLine 2\n\
1 =BadLine 2\n\
1=BadLine 2\n\
1\t00=BadLine 2\n\
data 208930000000001=good\n\
data 000000000000000=good\n\
data 20893000000000=BadLine 2\n\
data 2089300000000011=BadLine 2\n\
data 20893000000000x=BadLine 2\n\
data +20893000000001=BadLine 2\n\
data 208930000000001 =BadLine 2\n\
data 208930000000001 00=BadLine 2\n\
data  208930000000001=BadLine 2\n\
data =BadLine 2\n\
data=BadLine 2\n\
Data 208930000000001=BadLine 2\n\
DATA 208930000000001=BadLine 2\n\
data\t208930000000001=BadLine 2\n\
data 208930000000001\t=BadLine 2\n\
data 2089300000O0001=BadLine 2\n\
data imsi 208930000000001=BadLine 2\n\
208930000000001=BadLine 2\n\
1 data 208930000000001=BadLine 2\n\
\x20data 208930000000001=BadLine 2\n\
1 data=good\n\
x=BadLine 2\n\
";

/// Tells the lines of a table again, with what reading each behind the front gives.
fn tell_lines(alloc: Global, text: &mut String, front: &str, table: &str) -> Result<(), Fail> {
    for case in table.lines() {
        let (line, _) = case.split_once('=').ok_or("no answer")?;
        let given = joined(alloc, front, line)?;
        let answer = answer(alloc, given.as_bytes())?;
        writeln!(text, "{line}={answer}")?;
    }
    Ok(())
}

#[test]
fn reads_lines_of_a_schedule(rt: HostRuntime) -> Result<(), Fail> {
    let one = joined(rt.alloc(), "[subscribers]\n", ROW)?;
    let front = joined(rt.alloc(), &one, "\n[schedule]\n")?;
    let mut text = String::new(rt.alloc());
    tell_lines(rt.alloc(), &mut text, &front, EVENTS)?;
    assert_eq!(rt; text.as_str(), EVENTS);
    Ok(())
}

#[test]
fn reads_lines_of_a_trace(rt: HostRuntime) -> Result<(), Fail> {
    let mut text = String::new(rt.alloc());
    tell_lines(rt.alloc(), &mut text, "[trace]\n", TRACE_LINES)?;
    assert_eq!(rt; text.as_str(), TRACE_LINES);
    Ok(())
}
