//! The words at the start of a line of a table.

/// The first two words of a line, behind which there are others.
pub(crate) fn two_words(line: &str) -> Option<(&str, &str)> {
    let (first, rest) = line.split_once(" ")?;
    let (second, _) = rest.split_once(" ")?;
    Some((first, second))
}

/// The first three words of a line, behind which there are others.
pub(crate) fn three_words(line: &str) -> Option<(&str, &str, &str)> {
    let (first, rest) = line.split_once(" ")?;
    let (second, third) = two_words(rest)?;
    Some((first, second, third))
}
