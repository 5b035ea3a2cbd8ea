//! The forms.

/// Which form the octets of a session are in: what their first octet says.
#[derive(Clone, Copy)]
pub enum Version {
    /// A session without a second connection.
    One,
    /// Any session.
    Two,
}
