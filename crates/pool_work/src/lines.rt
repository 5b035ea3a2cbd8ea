//! The row and the messages of a device.
ghost use Rattle.std.specs.Prelude.{◌≡◌, ◌<◌, ◌-◌, Some, length, slice_get, IfSome};
ghost use Rattle.session_store.specs.Charter.{IsCharter};
ghost use Rattle.session_store.specs.Rows.{IsDevice};

use device_types::{DeviceId, Message, Subscriber};
use session_store::Charter;

/// The row of a device.
pub(crate) fn row_of(charter: &Charter, d: DeviceId) -> &Subscriber
    requires { IsDevice (length charter.now.rows) d.0 }
    ensures { slice_get charter.now.rows (d.0 - 1) ≡ Some result.now }
{
    &charter.rows()[d.0 as usize - 1]
}

/// The messages of a device.
pub fn messages_of(charter: &Charter, d: DeviceId) -> &[Message]
    requires { IsDevice (length charter.now.rows) d.0 }
    ensures line { slice_get charter.now.lines (d.0 - 1) ≡ Some result.now }
    ensures charter { IsCharter charter.now }
{
    charter.lines()[d.0 as usize - 1].items()
}

/// The device behind so many, if there is one.
pub fn device_behind(charter: &Charter, index: usize) -> Option<DeviceId>
    ensures { IfSome result (λ d. IsDevice (length charter.now.rows) d.0) }
{
    if index >= charter.rows().len() {
        return None;
    }
    match u32::try_from(index + 1) {
        Ok(number) => Some(DeviceId(number)),
        Err(_) => None,
    }
}

/// The device of a bit of a word of marks, if it is marked.
pub fn marked_device(charter: &Charter, word: usize, marks: u64, bit: usize) -> Option<DeviceId>
    requires { bit < 64 }
    ensures { IfSome result (λ d. IsDevice (length charter.now.rows) d.0) }
{
    if (marks >> bit) % 2 == 0 {
        return None;
    }
    let number = word.saturating_mul(64).saturating_add(bit);
    if number == 0 || number > charter.rows().len() {
        return None;
    }
    match u32::try_from(number) {
        Ok(number) => Some(DeviceId(number)),
        Err(_) => None,
    }
}
