//! What the values of AVPs are.

use dia_avps::{Avps, check_authentication_info, check_subscription_data};
use echo_base::Refusal;
use tlv_elements::{Content as ElementContent, Found, check_value};

/// What the value of an AVP outside of groups is (RFC 6733, 4.2; 3GPP TS 29.272, 7.3).
#[derive(Clone, Copy)]
pub enum Content {
    /// A session.
    Session,
    /// An IMSI.
    Imsi,
    /// A network.
    Plmn,
    /// A number of four octets.
    Unsigned,
    /// Authentication-Info, with a vector.
    AuthenticationInfo,
    /// Subscription-Data, with bit rates.
    SubscriptionData,
}

impl ElementContent for Content {
    ghost use Rattle.dia_wire.specs.Checks.{content_check};

    ghost check_of = { content_check };

    fn check(self, element: &Found) -> Result<(), Refusal> {
        let value = element.value;
        match self {
            Content::Session => check_value::<Avps>(dia_avps::session(value).is_some(), element),
            Content::Imsi => check_value::<Avps>(dia_avps::imsi(value).is_some(), element),
            Content::Plmn => check_value::<Avps>(dia_avps::plmn(value).is_some(), element),
            Content::Unsigned => check_value::<Avps>(dia_avps::unsigned(value).is_some(), element),
            Content::AuthenticationInfo => check_authentication_info(element),
            Content::SubscriptionData => check_subscription_data(element),
        }
    }
}
