//! Summary lines by hand: no two numbers are the same.

use report_text::{Scheduled, Summary, summary_line};
use std::test::Fail;

/// Without a schedule, and with one.
const LINES: &str = "\
devices 4294967295 messages 766 refused 3 steps 1169 down 459 gateway 293 subscriber 18446744073709551615
devices 4294967295 messages 766 refused 3 events 10281 committed 1168 stale 765 steps 1169 down 459 gateway 293 subscriber 18446744073709551615
";

const SCHEDULED: Scheduled = Scheduled {
    events: 10281,
    committed: 1168,
    stale: 765,
};

#[test]
fn sums_up(rt: HostRuntime) -> Result<(), Fail> {
    let alloc = rt.alloc();
    let mut told = String::new(alloc);
    for scheduled in [None, Some(SCHEDULED)] {
        let summary = Summary {
            devices: u32::MAX,
            messages: 766,
            refused: 3,
            scheduled,
            steps: 1169,
            downs: 459,
            gateway: 293,
            subscriber: u64::MAX,
        };
        let line = summary_line(alloc, &summary)?;
        told.push_str(str::from_utf8(line.octets())?)?;
    }
    assert_eq!(rt; told.as_str(), LINES);
    Ok(())
}
