//! Damaged case texts, each with the line of its status. What the readers alone refuse stands in `readers_cases`; here a whole text is
//! damaged, and the top call tells what is wrong with it first.

use crate::case_texts::named;
use crate::runs::told_run;
use std::alloc::{AllocError, Global};
use std::test::Fail;

/// Texts, and behind ` = ` the line of the status without its first word, or `taken`. A bar stands for LF. Between angle brackets stands
/// an octet by two hexadecimal digits, or a row, a message or a text by its name or as it is; behind a star how many times. A line
/// without ` = ` says what the texts behind it are about.
const TEXTS: &str = r#"in front of the first heading
<ef><bb><bf>[trace]| = case refused 25 BadSection line 1
<ff><fe>[trace]| = case refused 25 BadSection line 1
<00>[trace]| = case refused 25 BadSection line 1
<0d>[trace]| = case refused 25 BadSection line 1
<c2><a0>|[trace]| = case refused 25 BadSection line 1
<09>|[trace]| = case refused 25 BadSection line 1
<0c>|[trace]| = case refused 25 BadSection line 1
#<00><ff>|<0d>|x| = case refused 25 BadSection line 3
<row>|[subscribers]| = case refused 25 BadSection line 1
1 <attach>|[trace]| = case refused 25 BadSection line 1
data 208930000000001|[trace]| = case refused 25 BadSection line 1
stop 1|[schedule]| = case refused 25 BadSection line 1
{|x| = case refused 25 BadSection line 1
#<00><ff>|<0d>|#[trace| = taken
headings that are none
[subscribers| = case refused 25 BadSection line 1
[| = case refused 25 BadSection line 1
[]| = case refused 25 BadSection line 1
[ trace]| = case refused 25 BadSection line 1
[trace ]| = case refused 25 BadSection line 1
[TRACE]| = case refused 25 BadSection line 1
[traces]| = case refused 25 BadSection line 1
[subscriber]| = case refused 25 BadSection line 1
[trace]<09>| = case refused 25 BadSection line 1
[trace]<00>| = case refused 25 BadSection line 1
[tra<00>ce]| = case refused 25 BadSection line 1
[trace]]| = case refused 25 BadSection line 1
[[trace]]| = case refused 25 BadSection line 1
[trace][schedule]| = case refused 25 BadSection line 1
[trace] # messages| = case refused 25 BadSection line 1
[subscribers]<0d><row>| = case refused 25 BadSection line 1
[trace]|[0] 00| = case refused 25 BadSection line 2
[schedule]|[stop 1| = case refused 25 BadSection line 2
[subscribers]|[<row>]| = case refused 25 BadSection line 2
headings twice and out of order
[subscribers]|[subscribers]| = case refused 25 BadSection line 2
[subscribers]|<row>||[subscribers]|<second-row>| = case refused 25 BadSection line 4
[schedule]|#|[schedule]| = case refused 25 BadSection line 3
[subscribers]|[trace]|[subscribers]| = case refused 25 BadSection line 3
[schedule]|[subscribers]| = case refused 25 BadSection line 2
[trace]|[schedule]|[trace]| = case refused 25 BadSection line 3
[subscribers]|[schedule]|[trace]| = case refused 25 BadSection line 3
[subscribers]|<row>|[trace]|1 00|[subscribers] = case refused 25 BadSection line 5
[schedule]|[trace]|[subscribers]| = case refused 25 BadSection line 2
ends of lines
[subscribers]<0d>|<row><0d>|<0d>|[trace]<0d>|1 <attach><0d>|[schedule]<0d>|stop 1<0d>| = taken
[subscribers]|<row> = taken
[subscribers]|<row><0d> = taken
[subscribers]|<row><0d><0d>| = taken
[subscribers]|<0d><0d>| = case refused 19 BadJson line 2
[subscribers]|<row><0d><row>| = case refused 19 BadJson line 2
[subscribers]|<row>|<row> = case refused 22 RepeatedImsi line 3
[trace]|1 <attach> = taken
[trace]|<0d><0d>| = case refused 26 BadLine line 2
[trace]|<0d>1 00| = case refused 26 BadLine line 2
[trace]|1 00<0d>2 00| = case refused 26 BadLine line 2
[trace]|data 208930000000001<0d> = case refused 26 BadLine line 2
[trace]|data 208930000000001<0d><0d>| = case refused 26 BadLine line 2
[schedule]|stop 1 = taken
[schedule]|stop 1<0d> = case refused 26 BadLine line 2
[schedule]|stop 1<0d><0d>| = case refused 26 BadLine line 2
[schedule]|stop 1<0d>stop 2| = case refused 26 BadLine line 2
[schedule]|stop 1<0b>| = case refused 26 BadLine line 2
[schedule]|stop 1<0d>|<0d>|stop 17<0d>| = case refused 26 BadLine line 4
subscribers that are no JSON
[subscribers]|<00>| = case refused 19 BadJson line 2
[subscribers]|<row><00>| = case refused 19 BadJson line 2
[subscribers]|<ef><bb><bf><row>| = case refused 19 BadJson line 2
[subscribers]|<0c><row>| = case refused 19 BadJson line 2
[subscribers]|<c2><a0><row>| = case refused 19 BadJson line 2
[subscribers]| | = case refused 19 BadJson line 2
[subscribers]| # a comment that is none| = case refused 19 BadJson line 2
[subscribers]|// a comment that is none| = case refused 19 BadJson line 2
[subscribers]|<row> # row| = case refused 19 BadJson line 2
[subscribers]|<row>,| = case refused 19 BadJson line 2
[subscribers]|<row>|,<second-row>| = case refused 19 BadJson line 3
[subscribers]|<row> <second-row>| = case refused 19 BadJson line 2
[subscribers]|{|}| = case refused 19 BadJson line 2
[subscribers]|1 <attach>| = case refused 19 BadJson line 2
[subscribers]|data 208930000000001| = case refused 19 BadJson line 2
[subscribers]|stop 1| = case refused 19 BadJson line 2
[subscribers]|{"a":<[*200>| = case refused 19 BadJson line 2
[subscribers]|{"a":<[*200><]*200>}| = case refused 19 BadJson line 2
[subscribers]|{"a":<[*126><]*126>}| = case refused 20 MissingColumn line 2
[subscribers]|<{"a":*200>1<}*200>| = case refused 19 BadJson line 2
[subscribers]|<{"a":*127>1<}*127>| = case refused 20 MissingColumn line 2
[subscribers]|{"a":"<00>"}| = case refused 19 BadJson line 2
[subscribers]|{"a":"<09>"}| = case refused 19 BadJson line 2
[subscribers]|{"a":"<1f>"}| = case refused 19 BadJson line 2
[subscribers]|{"a":"<7f>"}| = case refused 20 MissingColumn line 2
[subscribers]|{"a":"\u0000"}| = case refused 20 MissingColumn line 2
[subscribers]|{"a":"\x00"}| = case refused 19 BadJson line 2
[subscribers]|{"a":"b}| = case refused 19 BadJson line 2
[subscribers]|{"a":NaN}| = case refused 19 BadJson line 2
[subscribers]|{"a":+1}| = case refused 19 BadJson line 2
[subscribers]|{"a":01}| = case refused 19 BadJson line 2
[subscribers]|{"a":1.}| = case refused 19 BadJson line 2
[subscribers]|{"a":0x1}| = case refused 19 BadJson line 2
[subscribers]|{"a":True}| = case refused 19 BadJson line 2
[subscribers]|{a:1}| = case refused 19 BadJson line 2
[subscribers]|{"a" 1}| = case refused 19 BadJson line 2
[subscribers]|{"a":1 "b":2}| = case refused 19 BadJson line 2
[subscribers]|{"a":1,,"b":2}| = case refused 19 BadJson line 2
[subscribers]|{,}| = case refused 19 BadJson line 2
subscribers with wrong columns
[subscribers]| <09><row><09> | = taken
[subscribers]|{}|x| = case refused 20 MissingColumn line 2
[subscribers]|{"imsi":"208930000000001",<columns>| = case refused 20 MissingColumn line 2
[subscribers]|{"IMSI":"208930000000001","tmsi":1,<columns>| = case refused 20 MissingColumn line 2
[subscribers]|{" imsi":"208930000000001","tmsi":1,<columns>| = case refused 20 MissingColumn line 2
[subscribers]|{"imsi":{"imsi":"208930000000001"},"tmsi":1,<columns>| = case refused 21 BadColumn line 2
[subscribers]|{"imsi":" 208930000000001","tmsi":1,<columns>| = case refused 21 BadColumn line 2
[subscribers]|{"imsi":"208930000000001 ","tmsi":1,<columns>| = case refused 21 BadColumn line 2
[subscribers]|{"imsi":"208930000000001\u0000","tmsi":1,<columns>| = case refused 21 BadColumn line 2
[subscribers]|{"imsi":"-20893000000001","tmsi":1,<columns>| = case refused 21 BadColumn line 2
[subscribers]|{"imsi":null,"tmsi":1,<columns>| = case refused 21 BadColumn line 2
[subscribers]|{"imsi":"208930000000001","tmsi":01,<columns>| = case refused 19 BadJson line 2
[subscribers]|{"imsi":"208930000000001","tmsi":0.1e1,<columns>| = case refused 21 BadColumn line 2
[subscribers]|{"imsi":"208930000000001","tmsi":18446744073709551617,<columns>| = case refused 21 BadColumn line 2
[subscribers]|{"imsi":"208930000000001","tmsi":"0001",<columns>| = case refused 21 BadColumn line 2
[subscribers]|{"imsi":"208930000000001","tmsi":1,"ip2":"0a2d80",<columns>| = case refused 21 BadColumn line 2
subscribers twice
[subscribers]|<row>|<second-row>|<row>| = case refused 22 RepeatedImsi line 4
[subscribers]|<row>|<two-row>| = case refused 22 RepeatedImsi line 3
[subscribers]|<row>|{"imsi":"208930000000001","tmsi":2,<columns>| = case refused 22 RepeatedImsi line 3
[subscribers]|<row>|<second-row>|{"imsi":"208930000000001","tmsi":2,<columns>| = case refused 22 RepeatedImsi line 4
[subscribers]|<row>|<second-row>|{"imsi":"208930000000003","tmsi":2,<columns>| = case refused 23 RepeatedTmsi line 4
[subscribers]|<row>|<row>|{| = case refused 22 RepeatedImsi line 3
[subscribers]|<row>|{"imsi":"208930000000001","tmsi":-1,<columns>| = case refused 21 BadColumn line 3
[subscribers]|<row>|{"imsi":"208930000000001","tmsi":"1"}| = case refused 20 MissingColumn line 3
[subscribers]|<row>|{"imsi":"208930000000003","tmsi":0,<columns>|[trace]|0 00| = case refused 26 BadLine line 5
the trace
[trace]|<attach>| = case refused 26 BadLine line 2
[trace]| <attach>| = case refused 26 BadLine line 2
[trace]|<row>| = case refused 26 BadLine line 2
[trace]|stop 1| = case refused 26 BadLine line 2
[trace]|send 1 1| = case refused 26 BadLine line 2
[trace]| | = case refused 26 BadLine line 2
[trace]| # a comment that is none| = case refused 26 BadLine line 2
[trace]|<00>| = case refused 26 BadLine line 2
[trace]|1<00> 00| = case refused 26 BadLine line 2
[trace]|1 00<00>| = taken
[trace]|1 <ff>| = taken
[trace]|1 <c2><a0>00| = taken
[trace]|1<c2><a0>00| = case refused 26 BadLine line 2
[trace]|<ff> 00| = case refused 26 BadLine line 2
[trace]|<d9><a1> 00| = case refused 26 BadLine line 2
[trace]|0 <attach>| = case refused 26 BadLine line 2
[trace]|65536 <attach>| = case refused 26 BadLine line 2
[trace]|65537 00| = case refused 26 BadLine line 2
[trace]|18446744073709551617 00| = case refused 26 BadLine line 2
[trace]|<9*400> 00| = case refused 26 BadLine line 2
[trace]|00001 00| = case refused 26 BadLine line 2
[trace]|00 00| = case refused 26 BadLine line 2
[trace]|-1 00| = case refused 26 BadLine line 2
[trace]|1.0 00| = case refused 26 BadLine line 2
[trace]|1e0 00| = case refused 26 BadLine line 2
[trace]|0x1 00| = case refused 26 BadLine line 2
[trace]|1,00| = case refused 26 BadLine line 2
[trace]|1 00 # x| = case refused 26 BadLine line 2
[trace]|1 00|2 | = case refused 26 BadLine line 3
[trace]|1 00|#||65535 00|0 00|x| = case refused 26 BadLine line 6
[trace]|dat 208930000000001| = case refused 26 BadLine line 2
[trace]|data0 208930000000001| = case refused 26 BadLine line 2
[trace]|data 208930000000001<00>| = case refused 26 BadLine line 2
[trace]|data 20893000000000<d9><a1>| = case refused 26 BadLine line 2
[trace]|data 2089300000000<d9><a1>| = case refused 26 BadLine line 2
[trace]|data "208930000000001"| = case refused 26 BadLine line 2
[trace]|data 208930000000001 208930000000002| = case refused 26 BadLine line 2
the schedule
[subscribers]|<row>|[schedule]|send 1 4294967296| = case refused 26 BadLine line 4
[subscribers]|<row>|[schedule]|send 1 18446744073709551616| = case refused 26 BadLine line 4
[subscribers]|<row>|[schedule]|send 4294967297 1| = case refused 26 BadLine line 4
[subscribers]|<row>|<second-row>|[schedule]|send 2 1|send 3 1| = case refused 26 BadLine line 6
[schedule]|send 1 1| = case refused 26 BadLine line 2
[schedule]|<row>| = case refused 26 BadLine line 2
[schedule]|1 <attach>| = case refused 26 BadLine line 2
[schedule]|data 208930000000001| = case refused 26 BadLine line 2
[schedule]| | = case refused 26 BadLine line 2
[schedule]| # a comment that is none| = case refused 26 BadLine line 2
[schedule]|<00>| = case refused 26 BadLine line 2
[schedule]|stop 1<00>| = case refused 26 BadLine line 2
[schedule]|stop<00>1| = case refused 26 BadLine line 2
[schedule]|stop<c2><a0>1| = case refused 26 BadLine line 2
[schedule]|stop <ff>| = case refused 26 BadLine line 2
[schedule]|stop <d9><a1>| = case refused 26 BadLine line 2
[schedule]|stop 257| = case refused 26 BadLine line 2
[schedule]|read 65537| = case refused 26 BadLine line 2
[schedule]|write 4294967297| = case refused 26 BadLine line 2
[schedule]|stop 18446744073709551617| = case refused 26 BadLine line 2
[schedule]|stop <1*400>| = case refused 26 BadLine line 2
[schedule]|stop 01| = case refused 26 BadLine line 2
[schedule]|stop +1| = case refused 26 BadLine line 2
[schedule]|stop -1| = case refused 26 BadLine line 2
[schedule]|stop 1.0| = case refused 26 BadLine line 2
[schedule]|stop 0x1| = case refused 26 BadLine line 2
[schedule]|stop| = case refused 26 BadLine line 2
[schedule]|stop | = case refused 26 BadLine line 2
[schedule]|stop 1 | = case refused 26 BadLine line 2
[schedule]|stop  1| = case refused 26 BadLine line 2
[schedule]| stop 1| = case refused 26 BadLine line 2
[schedule]|stop<09>1| = case refused 26 BadLine line 2
[schedule]|stop 1 1| = case refused 26 BadLine line 2
[schedule]|stop 1 # x| = case refused 26 BadLine line 2
[schedule]|STOP 1| = case refused 26 BadLine line 2
[schedule]|halt 1| = case refused 26 BadLine line 2
[schedule]|learn 1| = case refused 26 BadLine line 2
[schedule]|1 stop| = case refused 26 BadLine line 2
[subscribers]|<row>|[schedule]|take 1 1 1 1| = case refused 26 BadLine line 4
[subscribers]|<row>|[schedule]|reply 1| = case refused 26 BadLine line 4
[subscribers]|<row>|[schedule]|reply 1 1 1| = case refused 26 BadLine line 4
[subscribers]|<row>|[schedule]|answer 1 gateway 1| = case refused 26 BadLine line 4
[subscribers]|<row>|[schedule]|answer 1 1 1 gateway| = case refused 26 BadLine line 4
[subscribers]|<row>|[schedule]|answer 1 1 gateway 1 1| = case refused 26 BadLine line 4
[subscribers]|<row>|[schedule]|answer 1 1  gateway 1| = case refused 26 BadLine line 4
[subscribers]|<row>|[schedule]|push 1 gateway| = case refused 26 BadLine line 4
[subscribers]|<row>|[schedule]|push down 1 1| = case refused 26 BadLine line 4
[subscribers]|<row>|[schedule]|push 1 down<09>1| = case refused 26 BadLine line 4
[subscribers]|<row>|[schedule]|effect 1 gateways 1| = case refused 26 BadLine line 4
[subscribers]|<row>|[schedule]|effect 1 gateway 1 | = case refused 26 BadLine line 4
[subscribers]|<row>|[schedule]|settle 1 subscribe 1| = case refused 26 BadLine line 4
[subscribers]|<row>|[schedule]|settle 1  1| = case refused 26 BadLine line 4
[schedule]|stop 1||#|stop 17|x| = case refused 26 BadLine line 5
long lines
#<ff*8191>| = taken
#<ff*8192>| = case refused 28 LineTooLong line 1
#<é*4095>| = taken
#<é*4096>| = case refused 28 LineTooLong line 1
#<x*8191><0d>| = taken
#<x*8191><0d><0d>| = case refused 28 LineTooLong line 1
#<x*8191><0d> = case refused 28 LineTooLong line 1
<00*8193> = case refused 28 LineTooLong line 1
<00*8192> = case refused 25 BadSection line 1
[trace]< *8185>| = case refused 25 BadSection line 1
[trace]< *8186>| = case refused 28 LineTooLong line 1
[subscribers]|<row>< *7858>| = taken
[subscribers]|<row>< *7859>| = case refused 28 LineTooLong line 2
[subscribers]|<x*8192>| = case refused 19 BadJson line 2
[subscribers]|<x*8193>| = case refused 28 LineTooLong line 2
[schedule]|<x*8192>| = case refused 26 BadLine line 2
[schedule]|<x*8193>| = case refused 28 LineTooLong line 2
[schedule]|x|<x*8193>| = case refused 26 BadLine line 2
[schedule]|[trace]|<x*8193>| = case refused 25 BadSection line 2
many lines
[schedule]|<stop 1|*100000> = taken
[schedule]|<stop 1|*100001> = case refused 27 TooManyLines line 100002
[trace]|<1 00|*100001> = case refused 27 TooManyLines line 100002
[trace]|<1 00|*100000>[schedule]|<stop 1|*100001> = case refused 27 TooManyLines line 200003
[trace]|<#|*100001>0 00| = case refused 26 BadLine line 100003
[schedule]|<stop 1|*100000>[trace]| = case refused 25 BadSection line 100002
[schedule]|<stop 1|*100000><x*8193>| = case refused 28 LineTooLong line 100002
[schedule]|<stop 1|*100000><0d>|#|x = case refused 27 TooManyLines line 100004
"#;

/// The octet that two hexadecimal digits are.
fn octet_of(digits: &str) -> Option<u8> {
    if digits.len() == 2 {
        u8::from_str_radix(digits, 16).ok()
    } else {
        None
    }
}

/// Puts what is written behind octets.
fn put_written(octets: &mut Vec<u8>, written: &str) -> Result<(), AllocError> {
    for octet in written.as_bytes() {
        let octet = *octet;
        octets.push(if octet == b'|' { b'\n' } else { octet })?;
    }
    Ok(())
}

/// The octets of what stands between angle brackets, but once.
fn unit_of(alloc: Global, unit: &str) -> Result<Vec<u8>, AllocError> {
    let mut octets = Vec::new(alloc);
    match octet_of(unit) {
        Some(octet) => octets.push(octet)?,
        None => put_written(&mut octets, named(unit))?,
    }
    Ok(octets)
}

/// Puts what stands between angle brackets behind octets.
fn put_named(alloc: Global, octets: &mut Vec<u8>, name: &str) -> Result<(), Fail> {
    let (unit, count) = name.rsplit_once('*').unwrap_or((name, "1"));
    let times = count.parse::<usize>()?;
    let unit = unit_of(alloc, unit)?;
    for _ in 0..times {
        octets.extend_from_slice(unit.as_slice())?;
    }
    Ok(())
}

/// The octets of a text of the table.
fn octets_of(alloc: Global, text: &str) -> Result<Vec<u8>, Fail> {
    let mut octets = Vec::new(alloc);
    for part in text.split('<') {
        match part.split_once('>') {
            Some((name, written)) => {
                put_named(alloc, &mut octets, name)?;
                put_written(&mut octets, written)?;
            }
            None => put_written(&mut octets, part)?,
        }
    }
    Ok(octets)
}

/// Tells a text of the table again, with what `plain` says of it.
fn tell_text(alloc: Global, told: &mut String, text: &str) -> Result<(), Fail> {
    let octets = octets_of(alloc, text)?;
    let run = told_run(alloc, "plain", octets.as_slice())?;
    let line = run.strip_prefix("echo: ").unwrap_or("taken\n");
    write!(told, "{text} = {line}")?;
    Ok(())
}

/// Tells each line of the table again.
fn told_texts(alloc: Global) -> Result<String, Fail> {
    let mut told = String::new(alloc);
    for line in TEXTS.lines() {
        match line.rsplit_once(" = ") {
            Some((text, _)) => tell_text(alloc, &mut told, text)?,
            None => writeln!(told, "{line}")?,
        }
    }
    Ok(told)
}

#[test]
fn the_first_damage_is_told(rt: HostRuntime) -> Result<(), Fail> {
    let told = told_texts(rt.alloc())?;
    assert_eq!(rt; told.as_str(), TEXTS);
    Ok(())
}
