//! The streams of a device, and what the row has of them.

use agent_order::Line;

/// A stream of a device: what one base station sends of it, from an INITIAL UE MESSAGE on. Its label is the station, 0 for a notice,
/// and its place among the station's streams of the device.
#[derive(Drop)]
pub struct Stream {
    /// The base station.
    pub station: u16,
    /// Its place among the streams of that station, from 1.
    pub index: u32,
    /// Its messages.
    pub line: Line,
}

/// A message that the row has committed.
#[derive(Clone, Copy)]
pub struct Merged {
    /// The place of its stream, from 1.
    pub a: u32,
    /// The stamp of the name under which it came.
    pub stamp: u64,
    /// Its number in its stream, from 1.
    pub n: u64,
}
