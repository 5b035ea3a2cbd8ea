//! The subscribers.

ghost use Rattle.std.specs.Prelude.{◌≡◌, ◌++◌, ◌≤◌, OnOk, string_bytes};
ghost use Rattle.trace_gen.specs.Made.{ended, subscribers_text};
ghost use Rattle.trace_gen.specs.Subscribers.{imsi_of, identity_columns, address_column, tunnel_columns, key_columns, rate_columns, subscriber_line};

use echo_base::{OutOfMemory, encode_hex};
use std::alloc::Global;

/// The columns that all devices have alike, before the address.
const KEY_COLUMNS: &str =
    r#""rand":"000102030405060708090a0b0c0d0e0f","autn":"101112131415161718191a1b1c1d1e1f","res":"a0a1a2a3a4a5a6a7","key":"1111111111111111111111111111111111111111111111111111111111111111","apn":"internet""#;

/// The last of them.
const RATE_COLUMNS: &str = r#""ambr_dl":1000000000,"ambr_ul":1000000000,"forbidden":[]"#;

/// The IMSI of a device, of PLMN 208 93.
pub fn imsi_of(device: u32) -> u64
    ensures { result ≡ imsi_of device }
{
    208_930_000_000_000 + u64::from(device)
}

/// The columns that all devices have alike, before the address.
#[tactic(auto, unfolding(crate::specs::Subscribers::key_columns))]
fn key_columns() -> &'static str
    ensures { result.now ≡ key_columns }
{
    KEY_COLUMNS
}

/// The last of them.
#[tactic(auto, unfolding(crate::specs::Subscribers::rate_columns))]
fn rate_columns() -> &'static str
    ensures { result.now ≡ rate_columns }
{
    RATE_COLUMNS
}

/// Puts the columns of who a device is behind a text.
#[tactic(auto, unfolding(crate::specs::Subscribers::identity_columns))]
fn put_identity(text: &mut String, device: u32) -> Result<(), OutOfMemory>
    ensures { OnOk result (string_bytes text.new ≡ string_bytes text.old ++ identity_columns device) }
{
    let imsi = imsi_of(device);
    write!(text, "\"imsi\":\"{imsi}\",\"tmsi\":{device}")
}

/// Puts the column of an address behind a text.
#[tactic(auto, unfolding(crate::specs::Subscribers::address_column))]
fn put_address(alloc: Global, text: &mut String, octets: &[u8]) -> Result<(), OutOfMemory>
    ensures { OnOk result (string_bytes text.new ≡ string_bytes text.old ++ address_column octets.now) }
{
    let digits = encode_hex(alloc, octets)?;
    write!(text, "\"ip\":\"{digits}\"")
}

/// Puts the columns of a row's end of the tunnel at the gateway, its address and its TEID, behind a text.
#[tactic(auto, unfolding(crate::specs::Subscribers::tunnel_columns))]
fn put_tunnel(text: &mut String, teid: u32) -> Result<(), OutOfMemory>
    ensures { OnOk result (string_bytes text.new ≡ string_bytes text.old ++ tunnel_columns teid) }
{
    write!(text, "\"sgw\":\"c0a80001\",\"teid\":{teid}")
}

/// Puts the row of a device in the subscriber table, a JSON object and an LF, behind a text.
#[tactic(auto, unfolding(crate::specs::Subscribers::subscriber_line))]
fn put_subscriber(alloc: Global, text: &mut String, device: u32) -> Result<(), OutOfMemory>
    requires device { device ≤ 800 }
    ensures { OnOk result (string_bytes text.new ≡ string_bytes text.old ++ ended (subscriber_line device)) }
{
    let keys = key_columns();
    let rates = rate_columns();
    let address = (0x0a2d_0000 + device).to_be_bytes();
    text.push('{')?;
    put_identity(text, device)?;
    write!(text, ",{keys},")?;
    put_address(alloc, text, &address)?;
    text.push(',')?;
    put_tunnel(text, 1000 * device)?;
    writeln!(text, ",{rates}}}")
}

/// Puts the section of so many subscribers behind a text.
pub fn put_subscribers(alloc: Global, text: &mut String, devices: u32) -> Result<(), OutOfMemory>
    requires devices { devices ≤ 800 }
    ensures { OnOk result (string_bytes text.new ≡ string_bytes text.old ++ subscribers_text devices) }
{
    writeln!(text, "[subscribers]")?;
    for before in 0..devices {
        put_subscriber(alloc, text, before + 1)?;
    }
    Ok(())
}
