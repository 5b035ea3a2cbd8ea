//! The messages that are read, by their types (3GPP TS 29.274, 6.1).

ghost use Rattle.std.specs.Prelude.{◌≡◌};
ghost use Rattle.gtp2_wire.specs.Kinds.{kind_of, type_of, is_answer};

/// A kind of message.
#[derive(Clone, Copy)]
pub enum Kind {
    /// Create Session Request.
    Create,
    /// Create Session Response.
    Created,
    /// Modify Bearer Request.
    Modify,
    /// Modify Bearer Response.
    Modified,
    /// Delete Session Request.
    Delete,
    /// Delete Session Response.
    Deleted,
    /// Release Access Bearers Request.
    Release,
    /// Release Access Bearers Response.
    Released,
}

/// The message of that type.
pub fn kind_of(octet: u8) -> Option<Kind>
    ensures { result ≡ kind_of octet }
{
    match octet {
        32 => Some(Kind::Create),
        33 => Some(Kind::Created),
        34 => Some(Kind::Modify),
        35 => Some(Kind::Modified),
        36 => Some(Kind::Delete),
        37 => Some(Kind::Deleted),
        170 => Some(Kind::Release),
        171 => Some(Kind::Released),
        _ => None,
    }
}

/// The type of a message.
pub fn type_of(kind: Kind) -> u8
    ensures { result ≡ type_of kind }
{
    match kind {
        Kind::Create => 32,
        Kind::Created => 33,
        Kind::Modify => 34,
        Kind::Modified => 35,
        Kind::Delete => 36,
        Kind::Deleted => 37,
        Kind::Release => 170,
        Kind::Released => 171,
    }
}

/// Is it an answer? It begins with a cause.
pub fn is_answer(kind: Kind) -> bool
    ensures { result ≡ is_answer kind }
{
    match kind {
        Kind::Created | Kind::Modified | Kind::Deleted | Kind::Released => true,
        Kind::Create | Kind::Modify | Kind::Delete | Kind::Release => false,
    }
}
