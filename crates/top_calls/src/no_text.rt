//! Why there is no text.

use case_form::CaseBad;
use echo_base::OutOfMemory;

/// Why there is no text.
#[derive(Clone, Copy, Debug, PartialEq, Eq)]
pub enum NoText {
    /// The case is refused.
    Refused {
        /// The number of the reason.
        number: u8,
        /// The line.
        line: u32,
    },
    /// There was no memory.
    OutOfMemory,
}

impl From<OutOfMemory> for NoText {
    ghost use Rattle.std.specs.Prelude.{◌≡◌};
    ghost use Rattle.top_calls.specs.declared.no_text.NoText.TheVariants.{OutOfMemory};

    ghost from_gives = { λ _ no. no ≡ OutOfMemory };

    fn from(_bad: OutOfMemory) -> NoText {
        NoText::OutOfMemory
    }
}

impl From<CaseBad> for NoText {
    ghost use Rattle.std.specs.Prelude.{◌≡◌};
    ghost use Rattle.top_calls.specs.Answers.{no_text_of};

    ghost from_gives = { λ bad no. no ≡ no_text_of bad };

    fn from(bad: CaseBad) -> NoText {
        match bad {
            CaseBad::Refused { reason, line } => NoText::Refused {
                number: reason.number(),
                line,
            },
            CaseBad::OutOfMemory => NoText::OutOfMemory,
        }
    }
}
