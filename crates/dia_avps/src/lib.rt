//! The AVPs of Diameter (RFC 6733, 4) that the subscriber server's calls have (3GPP TS 29.272, 7.3), both ways: how they are framed,
//! their values and their groups; and the header in front of them, as it is written.
#![tactic(auto)]

mod avps;
mod finding;
mod frame;
mod groups;
mod header;
mod values;

pub use avps::{put, put_head, put_imsi, put_plmn, put_unsigned};
pub use finding::{first_result, found, found_unsigned, succeeded};
pub use frame::{Avps, TGPP};
pub use groups::{check_authentication_info, check_subscription_data, row};
pub use header::put_header;
pub use values::{imsi, plmn, plmn_of, session, sized, unsigned};
