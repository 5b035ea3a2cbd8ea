//! A gate that holds a worker until another has written.
use device_types::DeviceId;
use std::sync::atomic::{AtomicU64, Ordering};
use std::thread;
use worker_pool::{Gate, Point};

/// How many turns a worker is held at most.
const TURNS: u64 = 10_000_000;

/// Holds the first worker that is ready to write for device 1 until another one has written for it. What it tells is tested; no
/// clause says it.
#[derive(Drop)]
pub struct HoldingGate {
    /// The worker that is held, and one more; 0 while none is.
    held: AtomicU64,
    /// Another worker has written.
    written: AtomicU64,
    /// Where the held worker was next: 1 where it has written, 2 where another had written first.
    next: AtomicU64,
    /// The worker was let go because it was held for so long.
    gave_up: AtomicU64,
}

impl HoldingGate {
    /// A gate that has held no worker.
    pub fn new() -> HoldingGate {
        HoldingGate {
            held: AtomicU64::new(0),
            written: AtomicU64::new(0),
            next: AtomicU64::new(0),
            gave_up: AtomicU64::new(0),
        }
    }

    /// Where the held worker was next for the device: it has written, or another had written first. None where no worker was held
    /// yet, or it has not come so far.
    pub fn next(&self) -> Option<Point> {
        match self.next.load(Ordering::SeqCst) {
            1 => Some(Point::Committed),
            2 => Some(Point::Stale),
            _ => None,
        }
    }

    /// Was the worker let go after 10,000,000 turns, though no other had written?
    pub fn gave_up(&self) -> bool {
        self.gave_up.load(Ordering::SeqCst) == 1
    }

    /// Is that the worker that was held?
    fn is_held(&self, worker: u32) -> bool {
        self.held.load(Ordering::SeqCst) == worker as u64 + 1
    }

    /// Holds a worker, if it is the first.
    fn hold(&self, worker: u32) {
        let held = worker as u64 + 1;
        let first = self
            .held
            .compare_exchange(0, held, Ordering::SeqCst, Ordering::SeqCst);
        if first.is_err() {
            return;
        }
        for _ in 0..TURNS {
            if self.written.load(Ordering::SeqCst) == 1 {
                return;
            }
            thread::yield_now();
        }
        self.gave_up.store(1, Ordering::SeqCst);
    }

    /// Notes where the held worker is first after it was held.
    fn note(&self, worker: u32, point: u64) {
        if self.is_held(worker) && self.next.load(Ordering::SeqCst) == 0 {
            self.next.store(point, Ordering::SeqCst);
        }
    }
}

impl Gate for HoldingGate {
    fn pass(&self, worker: u32, d: DeviceId, point: Point) {
        if d.0 != 1 {
            return;
        }
        match point {
            Point::Ready => self.hold(worker),
            Point::Committed => {
                self.note(worker, 1);
                if !self.is_held(worker) {
                    self.written.store(1, Ordering::SeqCst);
                }
            }
            Point::Stale => self.note(worker, 2),
        }
    }
}
