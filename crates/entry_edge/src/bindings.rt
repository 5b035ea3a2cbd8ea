//! Which device a pair is bound to.

ghost use Rattle.std.specs.Prelude.{◌≡◌, ◌∷◌, [], ℕ, List, length, OnOk, IfOk, IfSome};
ghost use Rattle.device_types.specs.Numbers.{IsWithin};
ghost use Rattle.entry_edge.specs.Kept.{left};
ghost use Rattle.entry_edge.specs.Sent.{is_release};
ghost use Rattle.entry_edge.specs.Trace.{is_there};

use crate::check::Taken;
use crate::sent::Claim;
use device_types::{Body, DeviceId};
use echo_base::OutOfMemory;
use std::alloc::Global;
use std::collections::BTreeMap;

/// A base station, and the eNB UE S1AP ID that it gave a device.
pub type Pair = (u16, u32);

/// Which pair is bound to each device, and which device opened each pair last, so that its place is known when the pair is
/// opened again or freed. That device may be on another pair since: its older pairs stay in the map.
#[derive(Debug, Drop)]
pub struct Bindings {
    pub opened: BTreeMap<Pair, DeviceId>,
    /// The pair that is bound to each device, at its index.
    pub places: Vec<Option<Pair>>,
}

/// Is the place that of the pair?
fn is_there(pair: Pair, place: Option<Pair>) -> bool
    ensures { result ≡ is_there pair place }
{
    place == Some(pair)
}

/// Is it a UEContextReleaseComplete?
fn is_release(body: &Body) -> bool
    ensures { result ≡ is_release body.now }
{
    matches!(body, Body::Released)
}

/// The device that opened the pair last is on it no longer.
fn leave(places: &mut Vec<Option<Pair>>, pair: Pair, opener: Option<DeviceId>)
    requires { IfSome opener (λ d. IsWithin (length places.old.items) d.0) }
    ensures { places.new.items ≡ left pair opener places.old.items }
{
    let Some(device) = opener else {
        return;
    };
    let place = &mut places[device.index()];
    if is_there(pair, *place) {
        *place = None;
    }
}

impl Bindings {
    ghost use Rattle.entry_edge.specs.Trace.{Turn, Admitted, bound};
    ghost use Rattle.entry_edge.specs.Kept.{is_device, Keeps};

    /// No pair is bound to any of `devices` devices.
    #[tactic(auto, unfolding(crate::specs::Trace::bound))]
    pub fn new(alloc: Global, devices: u32) -> Result<Bindings, OutOfMemory>
        ensures { IfOk result (Keeps devices []) }
    {
        Ok(Bindings {
            opened: BTreeMap::new(alloc),
            places: vec![in alloc; None; devices as usize]?,
        })
    }

    /// Is the pair bound to the device of that number?
    pub fn is_bound(&self, pair: Pair, number: u32) -> bool
        ensures { (rows : ℕ) (H : List Turn) → Keeps rows H self.now → result ≡ is_device number (bound pair H) }
    {
        let Some(index) = number.checked_sub(1) else {
            return false;
        };
        let Some(place) = self.places.get(index as usize) else {
            return false;
        };
        is_there(pair, *place)
    }

    /// Notes an admitted message: its device opens the pair, or the pair is free, or nothing changes.
    pub fn note(&mut self, t: &Taken) -> Result<(), OutOfMemory>
        requires { (rows : ℕ) × (H : List Turn) × Keeps rows H self.old × IsWithin rows t.now.device.0 }
        ensures { (rows : ℕ) (H : List Turn) → Keeps rows H self.old → OnOk result (Keeps rows (Admitted t.now ∷ H) self.new) }
    {
        let pair = (t.station, t.sent.enb);
        match t.sent.claim {
            Claim::Named(_) => {
                let opener = self.opened.insert(pair, t.device)?;
                leave(&mut self.places, pair, opener);
                self.places[t.device.index()] = Some(pair);
                Ok(())
            }
            Claim::Numbered(_) | Claim::Noticed(_) => {
                if is_release(&t.sent.body) {
                    let opener = self.opened.remove(&pair);
                    leave(&mut self.places, pair, opener);
                    return Ok(());
                }
                Ok(())
            }
        }
    }
}
