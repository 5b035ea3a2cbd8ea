//! The identities of a device.
ghost use Rattle.std.specs.Prelude.{◌≡◌};
ghost use Rattle.echo_base.specs.Reason.{identity_text};

use std::fmt;

/// By what a device calls itself (3GPP TS 23.003, 2.2 and 2.8).
#[derive(Clone, Copy, Debug, PartialEq, Eq)]
pub enum Identity {
    /// Its international mobile subscriber identity, of 15 digits.
    Imsi(u64),
    /// The M-TMSI, which an MME gave it.
    Tmsi(u32),
}

/// Prints `imsi` and 15 digits, or `tmsi` and the number.
impl fmt::Display for Identity {
    ghost use Rattle.std.specs.Prelude.{Some};

    ghost output = { λ i. Some (identity_text i) };

    #[tactic(auto, using(crate::proofs::Printed::zeros_in_front))]
    fn fmt<W: fmt::Write>(&self, f: &mut fmt::Formatter<W>) -> fmt::Result {
        match *self {
            Identity::Imsi(imsi) => write!(f, "imsi {imsi:015}"),
            Identity::Tmsi(tmsi) => write!(f, "tmsi {tmsi}"),
        }
    }
}
