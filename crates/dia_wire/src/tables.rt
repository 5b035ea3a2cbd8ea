//! The messages as the program keeps them: the rows of the tables of `specs/Tables.antt`, and nothing besides.

ghost use Rattle.std.specs.Prelude.{◌≡◌};
ghost use Rattle.tlv_elements.specs.Reading.{whole_at};
ghost use Rattle.dia_avps.specs.Frame.{dia};
ghost use Rattle.dia_wire.specs.Shapes.{kind_rules};

use crate::content::Content;
use crate::kind::Kind;
use dia_avps::{Avps, TGPP, row};
use echo_base::Refusal;
use tlv_elements::read_whole;

/// Reads the AVPs of a message of that kind.
#[rattlefmt::skip]
pub fn read_avps(kind: Kind, end: u64, behind: bool, octets: &[u8]) -> Result<(), Refusal>
    ensures { result ≡ whole_at dia (kind_rules kind) end behind octets.now }
{
    match kind {
        Kind::AskVectors | Kind::AskLocation => read_whole::<Avps, Content>(&[
            row(263, 0, Content::Session),
            row(1, 0, Content::Imsi),
            row(1407, TGPP, Content::Plmn),
        ], end, behind, octets),
        Kind::AskPurge => read_whole::<Avps, Content>(&[
            row(263, 0, Content::Session),
            row(1, 0, Content::Imsi),
        ], end, behind, octets),
        Kind::Vectors => read_whole::<Avps, Content>(&[
            row(263, 0, Content::Session),
            row(268, 0, Content::Unsigned),
            row(1413, TGPP, Content::AuthenticationInfo),
        ], end, behind, octets),
        Kind::Located => read_whole::<Avps, Content>(&[
            row(263, 0, Content::Session),
            row(268, 0, Content::Unsigned),
            row(1400, TGPP, Content::SubscriptionData),
        ], end, behind, octets),
        Kind::Purged | Kind::Rejected(_) => read_whole::<Avps, Content>(&[
            row(263, 0, Content::Session),
            row(268, 0, Content::Unsigned),
        ], end, behind, octets),
    }
}
