//! Tables of cases, a line each: octets in hexadecimal digits, and behind the first space what is told of them. An empty line, and one
//! that begins with `#`, is a comment. A test tells each case again, and compares the whole text with the table.

use std::alloc::Global;
use std::process::Abort;
use std::test::Fail;

/// Is the line a case, and no comment?
pub(crate) fn is_case(line: &str) -> bool {
    !line.is_empty() && !line.starts_with('#')
}

/// Writes a line of a table again: a comment as it is, and of a case what `tell` writes.
fn tell_line<F: Fn(Global, &mut String, &str) -> Result<(), Fail>>(
    alloc: Global,
    text: &mut String,
    line: &str,
    tell: &F,
) -> Result<(), Fail>
    requires { F.IsAlwaysCallable tell.now }
{
    if is_case(line) {
        tell(alloc, text, line)?;
    } else {
        text.push_str(line)?;
    }
    Ok(text.push('\n')?)
}

/// The table again, with what `tell` writes of each case.
fn told<F: Fn(Global, &mut String, &str) -> Result<(), Fail>>(
    alloc: Global,
    table: &str,
    tell: F,
) -> Result<String, Fail>
    requires { F.IsAlwaysCallable tell }
{
    let mut text = String::new(alloc);
    for line in table.lines() {
        tell_line(alloc, &mut text, line, &tell)?;
    }
    Ok(text)
}

/// Fails where the table that `tell` tells again is another text.
pub(crate) fn is_told_again<F: Fn(Global, &mut String, &str) -> Result<(), Fail>>(
    rt: &impl Abort,
    alloc: Global,
    table: &str,
    tell: F,
) -> Result<(), Fail>
    requires { F.IsAlwaysCallable tell }
{
    assert_eq!(rt; told(alloc, table, tell)?.as_str(), table);
    Ok(())
}

/// Writes the digits of a case again, and gives their octets. It fails where they are no octets.
pub(crate) fn octets_of(alloc: Global, text: &mut String, case: &str) -> Result<Vec<u8>, Fail> {
    let (digits, _) = case.split_once(' ').ok_or("nothing told")?;
    write!(text, "{digits} ")?;
    Ok(hex::decode(alloc, digits)?)
}
