//! Where a worker is.

use device_types::DeviceId;

/// A place that a worker passes.
#[derive(Clone, Copy, Debug, PartialEq, Eq)]
pub enum Point {
    /// It is about to write.
    Ready,
    /// It has written.
    Committed,
    /// Another has written first.
    Stale,
}

/// It learns where a worker is, and changes nothing of the run.
pub trait Gate {
    /// A worker is at that point, with an input of that device.
    fn pass(&self, worker: u32, d: DeviceId, point: Point);
}

/// A gate that does nothing.
#[derive(Clone, Copy, Debug)]
pub struct OpenGate;

impl Gate for OpenGate {
    fn pass(&self, _worker: u32, _d: DeviceId, _point: Point) {}
}
