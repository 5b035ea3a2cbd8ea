//! Tables of cases, a line each: octets in hexadecimal digits, and behind the first space what is told of them. An empty line, and one
//! that begins with `#`, is a comment. A test tells each case again, and compares the whole text with the table.

use crate::wire::{Telling, Wire};
use std::alloc::Global;
use std::process::Abort;
use std::test::Fail;

/// Writes a line of a table again: a comment as it is, and of a case its digits and what is told of their octets.
fn tell_line(
    alloc: Global,
    wire: Wire,
    telling: Telling,
    text: &mut String,
    line: &str,
) -> Result<(), Fail> {
    if line.is_empty() || line.starts_with('#') {
        text.push_str(line)?;
    } else {
        let (digits, _) = line.split_once(' ').ok_or("nothing told")?;
        let octets = hex::decode(alloc, digits)?;
        write!(text, "{digits} {}", wire.told(alloc, telling, &octets)?)?;
    }
    Ok(text.push('\n')?)
}

/// Tells each case of a table again.
pub(crate) fn check(
    rt: &impl Abort,
    alloc: Global,
    wire: Wire,
    telling: Telling,
    table: &str,
) -> Result<(), Fail> {
    let mut text = String::new(alloc);
    for line in table.lines() {
        tell_line(alloc, wire, telling, &mut text, line)?;
    }
    assert_eq!(rt; text.as_str(), table);
    Ok(())
}
