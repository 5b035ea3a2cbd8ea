//! Criticalities (3GPP TS 36.413, 9.3.5).

ghost use Rattle.std.specs.Prelude.{◌≡◌, ◌≤◌};
ghost use Rattle.protocol_ies.specs.Criticalities.{criticality_number};

/// What a receiver is to do with what it does not understand (3GPP TS 36.413, 10.3).
#[derive(Clone, Copy)]
pub enum Criticality {
    /// It rejects the message.
    Reject,
    /// It ignores the element.
    Ignore,
    /// It ignores the element, and tells the sender.
    Notify,
}

impl Criticality {
    /// Its number: 0 reject, 1 ignore, 2 notify.
    pub const fn number(self) -> u8
        ensures number { result ≡ criticality_number self }
        ensures most { result ≤ 2 }
    {
        match self {
            Criticality::Reject => 0,
            Criticality::Ignore => 1,
            Criticality::Notify => 2,
        }
    }
}
