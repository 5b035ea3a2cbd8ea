//! What `crash` tells, by how many calls of the disk pass behind the three of opening. A commit makes four calls, the third of which
//! brings it onto the disk: so it is found from three on, and acknowledged from four on.

use crate::case_texts::{ATTACH, lines, put_lines};
use crate::runs::tell_run;
use std::alloc::Global;
use std::test::Fail;

/// What is told of a device that attaches, in ten entries, with the first number of calls that comes to the same.
const ATTACHED: &str = "\
0: acknowledged 0 found 0|device 208930000000001 version 0
3: acknowledged 0 found 1|device 208930000000001 version 1
4: acknowledged 1 found 1|device 208930000000001 version 1
7: acknowledged 1 found 2|device 208930000000001 version 2
8: acknowledged 2 found 2|device 208930000000001 version 2
11: acknowledged 2 found 3|device 208930000000001 version 3
12: acknowledged 3 found 3|device 208930000000001 version 3
15: acknowledged 3 found 4|device 208930000000001 version 4
16: acknowledged 4 found 4|device 208930000000001 version 4
19: acknowledged 4 found 5|device 208930000000001 version 5
20: acknowledged 5 found 5|device 208930000000001 version 5
23: acknowledged 5 found 6|device 208930000000001 version 6
24: acknowledged 6 found 6|device 208930000000001 version 6
27: acknowledged 6 found 7|device 208930000000001 version 7
28: acknowledged 7 found 7|device 208930000000001 version 7
31: acknowledged 7 found 8|device 208930000000001 version 8
32: acknowledged 8 found 8|device 208930000000001 version 8
35: acknowledged 8 found 9|device 208930000000001 version 9
36: acknowledged 9 found 9|device 208930000000001 version 9
39: acknowledged 9 found 10|device 208930000000001 version 10
40: acknowledged 10 found 10|device 208930000000001 version 10
";

/// Three devices, with one entry, two and one. They come in another order than that of their numbers.
const THREE: &str =
    "[subscribers]|row|second-row|third-row|[trace]|1 third-service|1 other|1 service";

/// What is told of them.
const THREE_TOLD: &str = "\
0: acknowledged 0 found 0|device 208930000000001 version 0|device 208930000000002 version 0|device 208930000000003 version 0
3: acknowledged 0 found 1|device 208930000000001 version 1|device 208930000000002 version 0|device 208930000000003 version 0
4: acknowledged 1 found 1|device 208930000000001 version 1|device 208930000000002 version 0|device 208930000000003 version 0
7: acknowledged 1 found 2|device 208930000000001 version 1|device 208930000000002 version 1|device 208930000000003 version 0
8: acknowledged 2 found 2|device 208930000000001 version 1|device 208930000000002 version 1|device 208930000000003 version 0
11: acknowledged 2 found 3|device 208930000000001 version 1|device 208930000000002 version 2|device 208930000000003 version 0
12: acknowledged 3 found 3|device 208930000000001 version 1|device 208930000000002 version 2|device 208930000000003 version 0
15: acknowledged 3 found 4|device 208930000000001 version 1|device 208930000000002 version 2|device 208930000000003 version 1
16: acknowledged 4 found 4|device 208930000000001 version 1|device 208930000000002 version 2|device 208930000000003 version 1
";

/// What `crash` tells of a case for each number of calls below this one, where it is not what was told last.
fn told_crashes(alloc: Global, case: &str, numbers: u32) -> Result<String, Fail> {
    let text = lines(alloc, case)?;
    let (mut told, mut last) = (String::new(alloc), String::new(alloc));
    for after in 0..numbers {
        let words = format!(in alloc; "crash --after={after}")?;
        let mut next = String::new(alloc);
        tell_run(&mut next, alloc, &words, text.as_bytes(), &[], &[])?;
        if next != last {
            write!(told, "{after}: {next}")?;
            last = next;
        }
    }
    Ok(told)
}

/// The lines of a table.
fn wanted(alloc: Global, table: &str) -> Result<String, Fail> {
    let mut wanted = String::new(alloc);
    for line in table.lines() {
        put_lines(&mut wanted, line)?;
    }
    Ok(wanted)
}

#[test]
fn each_number_of_calls_keeps_its_entries(rt: HostRuntime) -> Result<(), Fail> {
    let mut told = told_crashes(rt.alloc(), ATTACH, 45)?;
    told.push_str(told_crashes(rt.alloc(), THREE, 21)?.as_str())?;
    let mut table = wanted(rt.alloc(), ATTACHED)?;
    table.push_str(wanted(rt.alloc(), THREE_TOLD)?.as_str())?;
    assert_eq!(rt; told.as_str(), table.as_str());
    Ok(())
}
