//! What is refused, and where.
ghost use Rattle.std.specs.Prelude.{◌≡◌, Some};
ghost use Rattle.echo_base.specs.Reason.{hex_octet};
ghost use Rattle.echo_base.specs.Answer.{refused};
ghost use Rattle.echo_base.specs.Refusal.{refusal_text};

use crate::reason::Shown;
use crate::{OutOfMemory, Reason};
use std::alloc::AllocFailed;
use std::fmt;

/// Why input is refused, and at which octet, from 0.
#[derive(Clone, Copy, Debug, PartialEq, Eq)]
pub struct Refusal {
    /// Why.
    pub reason: Reason,
    /// The octet's place for what is refused in a PDU, a session or a message of a peer, and else 0.
    pub place: u64,
}

/// The refusal of what is in no PDU, session or message of a peer, which has the place 0.
pub fn refused(reason: Reason) -> Refusal
    ensures { result ≡ refused reason }
{
    Refusal { reason, place: 0 }
}

/// An octet, printed in two hexadecimal digits.
#[derive(Clone, Copy)]
struct HexOctet(u8);

impl fmt::Display for HexOctet {
    ghost output = { λ octet. Some (hex_octet octet.0) };

    #[tactic(auto, using(crate::proofs::Printed::two_digits))]
    fn fmt<W: fmt::Write>(&self, f: &mut fmt::Formatter<W>) -> fmt::Result {
        let octet = self.0;
        write!(f, "{octet:02x}")
    }
}

/// Prints the reason's number and name, what the reason carries, and for a refusal in a PDU or a message of a peer its place.
impl fmt::Display for Refusal {
    ghost output = { λ r. Some (refusal_text r) };

    fn fmt<W: fmt::Write>(&self, f: &mut fmt::Formatter<W>) -> fmt::Result {
        let Refusal { reason, place } = *self;
        let number = reason.number();
        let name = reason.name();
        write!(f, "{number} {name}")?;
        match reason.shown() {
            Shown::Nothing => Ok(()),
            Shown::Placed => write!(f, " at {place}"),
            Shown::Code(code) => write!(f, " {code} at {place}"),
            Shown::Octet(octet) => {
                let octet = HexOctet(octet);
                write!(f, " {octet}")
            }
            Shown::Device(identity) => write!(f, " {identity}"),
            Shown::Pair(station, enb) => write!(f, " {station} {enb}"),
        }
    }
}

/// Why a reader gave nothing: its input is refused, or there was no memory.
#[derive(Clone, Copy, Debug, PartialEq, Eq)]
pub enum Bad {
    /// The input is refused.
    Refused(Refusal),
    /// There was no memory.
    OutOfMemory,
}

impl From<Refusal> for Bad {
    ghost use Rattle.std.specs.Prelude.{◌≡◌};
    ghost use Rattle.echo_base.specs.declared.refusal.Bad.TheVariants.{Refused};

    ghost from_gives = { λ refusal bad. bad ≡ Refused refusal };

    fn from(refusal: Refusal) -> Bad {
        Bad::Refused(refusal)
    }
}

impl From<OutOfMemory> for Bad {
    ghost use Rattle.std.specs.Prelude.{◌≡◌};
    ghost use Rattle.echo_base.specs.declared.refusal.Bad.TheVariants.{OutOfMemory};

    ghost from_gives = { λ _ bad. bad ≡ OutOfMemory };

    fn from(_refused: OutOfMemory) -> Bad {
        Bad::OutOfMemory
    }
}

impl<T: Drop> From<AllocFailed<T>> for Bad {
    ghost use Rattle.std.specs.Prelude.{◌≡◌};
    ghost use Rattle.echo_base.specs.declared.refusal.Bad.TheVariants.{OutOfMemory};

    ghost from_gives = { λ _ bad. bad ≡ OutOfMemory };

    fn from(_refused: AllocFailed<T>) -> Bad {
        Bad::OutOfMemory
    }
}
