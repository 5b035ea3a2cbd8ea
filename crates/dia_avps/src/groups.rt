//! AVPs whose values are groups (3GPP TS 29.272, 7.3), as the program keeps them: the rows of the tables of `specs/Groups.antt`, and
//! nothing besides.

ghost use Rattle.std.specs.Prelude.{◌≡◌, true};
ghost use Rattle.tlv_elements.specs.Grammar.{check_group, rules};
ghost use Rattle.dia_avps.specs.Frame.{frame_in, dia};
ghost use Rattle.dia_avps.specs.Groups.{vector, authentication_info, ambr, subscription_data};

use crate::frame::{Avps, TGPP};
use crate::values::{sized, unsigned};
use echo_base::Refusal;
use tlv_elements::{Content, Found, Row, check_group, check_value};

/// What the value of an AVP in one of these groups is: a group.
#[derive(Clone, Copy)]
pub enum Part {
    /// E-UTRAN-Vector.
    Vector,
    /// AMBR.
    Ambr,
}

/// What the value of an AVP in a group of a group is.
#[derive(Clone, Copy)]
pub enum Member {
    /// From so many octets to so many.
    Sized(u8, u8),
    /// A number of four octets.
    Unsigned,
}

/// A row of a table; each is needed.
pub fn row<T>(tag: u32, mark: u64, content: T) -> Row<T>
    ensures { result ≡ record { tag = tag; mark = mark; needed = true; content = content } }
{
    Row {
        tag,
        mark,
        needed: true,
        content,
    }
}

impl Content for Member {
    ghost use Rattle.dia_avps.specs.Groups.{member_check};

    ghost check_of = { member_check };

    fn check(self, element: &Found) -> Result<(), Refusal> {
        let value = element.value;
        match self {
            Member::Sized(least, most) => check_value::<Avps>(
                sized(value, usize::from(least), usize::from(most)).is_some(),
                element,
            ),
            Member::Unsigned => check_value::<Avps>(unsigned(value).is_some(), element),
        }
    }
}

/// Is an E-UTRAN-Vector (7.3.18) right?
#[rattlefmt::skip]
fn check_vector(element: &Found) -> Result<(), Refusal>
    ensures { result ≡ check_group dia (rules frame_in dia vector) element.now }
{
    check_group::<Avps, Member>(&[
        row(1447, TGPP, Member::Sized(16, 16)),
        row(1448, TGPP, Member::Sized(4, 16)),
        row(1449, TGPP, Member::Sized(16, 16)),
        row(1450, TGPP, Member::Sized(32, 32)),
    ], element)
}

/// Is an AMBR (7.3.41) right?
#[rattlefmt::skip]
fn check_ambr(element: &Found) -> Result<(), Refusal>
    ensures { result ≡ check_group dia (rules frame_in dia ambr) element.now }
{
    check_group::<Avps, Member>(&[
        row(516, TGPP, Member::Unsigned),
        row(515, TGPP, Member::Unsigned),
    ], element)
}

impl Content for Part {
    ghost use Rattle.dia_avps.specs.Groups.{part_check};

    ghost check_of = { part_check };

    fn check(self, element: &Found) -> Result<(), Refusal> {
        match self {
            Part::Vector => check_vector(element),
            Part::Ambr => check_ambr(element),
        }
    }
}

/// Is an Authentication-Info (7.3.17) right?
#[rattlefmt::skip]
pub fn check_authentication_info(element: &Found) -> Result<(), Refusal>
    ensures { result ≡ check_group dia (rules frame_in dia authentication_info) element.now }
{
    check_group::<Avps, Part>(&[
        row(1414, TGPP, Part::Vector),
    ], element)
}

/// Is a Subscription-Data (7.3.2) right?
#[rattlefmt::skip]
pub fn check_subscription_data(element: &Found) -> Result<(), Refusal>
    ensures { result ≡ check_group dia (rules frame_in dia subscription_data) element.now }
{
    check_group::<Avps, Part>(&[
        row(1435, TGPP, Part::Ambr),
    ], element)
}
