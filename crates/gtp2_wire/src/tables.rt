//! The messages and bearer contexts as the program keeps them: the tables of `specs/Tables.antt`, and nothing besides.

ghost use Rattle.std.specs.Prelude.{◌≡◌};
ghost use Rattle.tlv_elements.specs.Reading.{whole_at};
ghost use Rattle.gtp2_ies.specs.Frame.{gtp};
ghost use Rattle.gtp2_wire.specs.Checks.{bearer_check};
ghost use Rattle.gtp2_wire.specs.Shapes.{kind_rules};

use crate::content::{Bearer, Content, Member};
use crate::kind::Kind;
use echo_base::Refusal;
use gtp2_ies::Ies;
use tlv_elements::{Found, Row, check_group, read_whole};

/// A row of a table.
fn row<T>(tag: u32, needed: bool, content: T) -> Row<T>
    ensures { result ≡ record { tag = tag; mark = 0; needed = needed; content = content } }
{
    Row {
        tag,
        mark: 0,
        needed,
        content,
    }
}

/// Is a bearer context right?
#[rattlefmt::skip]
pub fn check_bearer(which: Bearer, all: bool, element: &Found) -> Result<(), Refusal>
    ensures { result ≡ bearer_check which all element.now }
{
    match which {
        Bearer::Create => check_group::<Ies, Member>(&[
            row(73, true, Member::Ebi),
            row(80, true, Member::Qos),
        ], element),
        Bearer::Created => check_group::<Ies, Member>(&[
            row(73, all, Member::Ebi),
            row(2, all, Member::Cause),
            row(87, all, Member::Fteid(0x81)),
        ], element),
        Bearer::Modify => check_group::<Ies, Member>(&[
            row(73, true, Member::Ebi),
            row(87, true, Member::Fteid(0x80)),
        ], element),
        Bearer::Modified => check_group::<Ies, Member>(&[
            row(73, all, Member::Ebi),
            row(2, all, Member::Cause),
        ], element),
    }
}

/// Reads the elements of a message of that kind. all: all of them are needed.
#[rattlefmt::skip]
pub fn read_elements(kind: Kind, all: bool, end: u64, behind: bool, octets: &[u8]) -> Result<(), Refusal>
    ensures { result ≡ whole_at gtp (kind_rules kind all) end behind octets.now }
{
    match kind {
        Kind::Create => read_whole::<Ies, Content>(&[
            row(1, true, Content::Imsi),
            row(82, true, Content::Exactly(6)),
            row(87, true, Content::Fteid(0x8a)),
            row(71, true, Content::Apn),
            row(99, true, Content::Exactly(1)),
            row(79, true, Content::NoAddress),
            row(72, true, Content::Rates),
            row(93, true, Content::Bearer(Bearer::Create, true)),
        ], end, behind, octets),
        Kind::Created => read_whole::<Ies, Content>(&[
            row(2, true, Content::Cause),
            row(87, all, Content::Fteid(0x8b)),
            row(79, all, Content::Address),
            row(93, all, Content::Bearer(Bearer::Created, all)),
        ], end, behind, octets),
        Kind::Modify => read_whole::<Ies, Content>(&[row(93, true, Content::Bearer(Bearer::Modify, true))], end, behind, octets),
        Kind::Modified => read_whole::<Ies, Content>(&[
            row(2, true, Content::Cause),
            row(93, all, Content::Bearer(Bearer::Modified, all)),
        ], end, behind, octets),
        Kind::Delete => read_whole::<Ies, Content>(&[row(73, true, Content::Ebi)], end, behind, octets),
        Kind::Deleted | Kind::Released => read_whole::<Ies, Content>(&[row(2, true, Content::Cause)], end, behind, octets),
        Kind::Release => read_whole::<Ies, Content>(&[], end, behind, octets),
    }
}
