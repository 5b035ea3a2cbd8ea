//! Values of enumerations.

/// A value of an ENUMERATED type: the index of one of its roots, or with an extension mark an index below 64
/// beyond them (ITU-T X.691, Encoding the enumerated type).
#[derive(Clone, Copy, Debug, PartialEq, Eq)]
pub struct EnumValue {
    /// Is the index one beyond the roots?
    pub extended: bool,
    /// The index, from 0.
    pub index: u8,
}
