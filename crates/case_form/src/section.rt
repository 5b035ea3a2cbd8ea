//! The sections of a case text, and what begins a line.

ghost use Rattle.std.specs.Prelude.{◌≡◌};
ghost use Rattle.case_form.specs.Section.{is_passed_over, is_heading, heading_of};

/// A section, in the order in which they stand.
#[derive(Clone, Copy, Debug, PartialEq, Eq, PartialOrd, Ord)]
pub(crate) enum Section {
    /// A row of the subscriber table a line.
    Subscribers,
    /// A PDU and its base station a line.
    Trace,
    /// An event a line.
    Schedule,
}

/// Is it an empty line or a comment?
pub(crate) fn is_passed_over(line: &[u8]) -> bool
    ensures { result ≡ is_passed_over line.now }
{
    matches!(line, [] | [b'#', ..])
}

/// Is it a heading, of whatever name?
pub(crate) fn is_heading(line: &[u8]) -> bool
    ensures { result ≡ is_heading line.now }
{
    matches!(line, [b'[', ..])
}

/// The section that a heading names.
#[tactic(auto, unfolding(crate::specs::Section::heading_of))]
pub(crate) fn heading_of(line: &[u8]) -> Option<Section>
    ensures { result ≡ heading_of line.now }
{
    match line {
        b"[subscribers]" => Some(Section::Subscribers),
        b"[trace]" => Some(Section::Trace),
        b"[schedule]" => Some(Section::Schedule),
        _ => None,
    }
}
