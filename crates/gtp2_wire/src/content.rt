//! What the values of information elements are.

use crate::tables::check_bearer;
use echo_base::Refusal;
use gtp2_ies::Ies;
use tlv_elements::{Content as ElementContent, Found, check_value};

/// What the value of an element outside of groups is (3GPP TS 29.274, 8).
#[derive(Clone, Copy)]
pub enum Content {
    /// An IMSI.
    Imsi,
    /// This octet.
    Exactly(u8),
    /// An F-TEID of the interface that this octet says.
    Fteid(u8),
    /// An access point name.
    Apn,
    /// An address allocation that leaves the address to the network.
    NoAddress,
    /// An address allocation.
    Address,
    /// Aggregate maximum bit rates.
    Rates,
    /// A cause.
    Cause,
    /// The identity of a bearer.
    Ebi,
    /// A bearer context, and whether all that it has is needed.
    Bearer(Bearer, bool),
}

/// The bearer contexts, by their messages.
#[derive(Clone, Copy)]
pub enum Bearer {
    /// That of a Create Session Request.
    Create,
    /// That of its response.
    Created,
    /// That of a Modify Bearer Request.
    Modify,
    /// That of its response.
    Modified,
}

/// What the value of an element in a bearer context is.
#[derive(Clone, Copy)]
pub enum Member {
    /// The identity of the bearer.
    Ebi,
    /// A quality of service.
    Qos,
    /// A cause.
    Cause,
    /// An F-TEID of the interface that this octet says.
    Fteid(u8),
}

impl ElementContent for Member {
    ghost use Rattle.gtp2_wire.specs.Checks.{member_check};

    ghost check_of = { member_check };

    fn check(self, element: &Found) -> Result<(), Refusal> {
        let value = element.value;
        match self {
            Member::Ebi => check_value::<Ies>(gtp2_ies::ebi(value).is_some(), element),
            Member::Qos => check_value::<Ies>(gtp2_ies::qos(value).is_some(), element),
            Member::Cause => check_value::<Ies>(gtp2_ies::cause(value).is_some(), element),
            Member::Fteid(whose) => check_value::<Ies>(
                gtp2_ies::fteid(value, whose).is_some(),
                element,
            ),
        }
    }
}

impl ElementContent for Content {
    ghost use Rattle.gtp2_wire.specs.Checks.{content_check};

    ghost check_of = { content_check };

    fn check(self, element: &Found) -> Result<(), Refusal> {
        let value = element.value;
        match self {
            Content::Imsi => check_value::<Ies>(gtp2_ies::imsi(value).is_some(), element),
            Content::Exactly(wanted) => check_value::<Ies>(
                gtp2_ies::exactly(value, wanted).is_some(),
                element,
            ),
            Content::Fteid(whose) => check_value::<Ies>(
                gtp2_ies::fteid(value, whose).is_some(),
                element,
            ),
            Content::Apn => check_value::<Ies>(gtp2_ies::apn(value).is_some(), element),
            Content::NoAddress => check_value::<Ies>(
                gtp2_ies::no_address(value).is_some(),
                element,
            ),
            Content::Address => check_value::<Ies>(gtp2_ies::address(value).is_some(), element),
            Content::Rates => check_value::<Ies>(gtp2_ies::rates(value).is_some(), element),
            Content::Cause => check_value::<Ies>(gtp2_ies::cause(value).is_some(), element),
            Content::Ebi => check_value::<Ies>(gtp2_ies::ebi(value).is_some(), element),
            Content::Bearer(which, all) => check_bearer(which, all, element),
        }
    }
}
