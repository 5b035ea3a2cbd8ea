//! What a row says of an element: that it is a value, or a group.

ghost use Rattle.std.specs.Prelude.{◌≡◌, ◌≤◌, Ok, Err, if◌then◌else◌, length};
ghost use Rattle.tlv_elements.specs.Grammar.{wrong_at, is_bare, check_group};
ghost use Rattle.tlv_elements.specs.Rules.{rules_of};

use crate::content::{Content, Found, Framing, Row};
use crate::reading::read_whole;
use echo_base::Refusal;

/// The refusal of an element of wrong form.
fn wrong<P: Framing>(element: &Found) -> Refusal
    ensures { result ≡ wrong_at P.protocol element.now }
{
    Refusal {
        reason: P::wrong(element.tag),
        place: element.place,
    }
}

/// Passes an element whose value is of right form.
pub fn check_value<P: Framing>(right: bool, element: &Found) -> Result<(), Refusal>
    ensures { result ≡ (if right then Ok tt else Err (wrong_at P.protocol element.now)) }
{
    if right {
        return Ok(());
    }
    Err(wrong::<P>(element))
}

/// Are there no octets, where a group has to have some?
fn is_bare<P: Framing>(octets: &[u8]) -> bool
    ensures { result ≡ is_bare P.protocol octets.now }
{
    !P::takes_empty() && octets.is_empty()
}

/// Passes an element that is a group of these rows; what is missing in it is told where it stops.
pub fn check_group<P: Framing, T: Content>(rows: &[Row<T>], element: &Found) -> Result<(), Refusal>
    requires { length rows.now ≤ 8 }
    ensures { result ≡ check_group P.protocol (rules_of T.check_of rows.now) element.now }
{
    if is_bare::<P>(element.value) {
        return Err(wrong::<P>(element));
    }
    read_whole::<P, T>(rows, element.stop, false, element.value)
}
