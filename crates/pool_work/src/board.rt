//! What the threads tell one another, besides what goes through the channel. No clause rests on it.

use device_types::{DeviceId, Lane};
use std::alloc::{AllocError, Global};
use std::sync::Wait;
use std::sync::atomic::{AtomicU64, Ordering};

/// A mark for each device, and a bell for the one thread that clears them.
#[derive(Drop)]
pub struct Bell {
    marks: Vec<AtomicU64>,
    rings: AtomicU64,
    sleeps: AtomicU64,
}

/// So many words.
fn words(alloc: Global, count: usize) -> Result<Vec<AtomicU64>, AllocError> {
    let mut all = Vec::new(alloc);
    for _ in 0..count {
        let Ok(()) = all.push(AtomicU64::new(0)) else {
            return Err(AllocError);
        };
    }
    Ok(all)
}

impl Bell {
    /// A bell for so many devices, none of which is marked.
    fn new(alloc: Global, devices: usize) -> Result<Bell, AllocError> {
        Ok(Bell {
            marks: words(alloc, devices / 64 + 1)?,
            rings: AtomicU64::new(0),
            sleeps: AtomicU64::new(0),
        })
    }

    /// Marks a device, and wakes the one that clears.
    pub(crate) fn mark(&self, d: DeviceId) {
        if let Some(word) = self.marks.get(d.0 as usize / 64) {
            word.fetch_or(1u64 << (d.0 % 64), Ordering::SeqCst);
        }
        self.ring();
    }

    /// Wakes the one that clears, if it sleeps.
    pub(crate) fn ring(&self) {
        if self.sleeps.load(Ordering::SeqCst) == 1 && self.sleeps.swap(0, Ordering::SeqCst) == 1 {
            self.rings.fetch_add(1, Ordering::SeqCst);
            self.rings.wake_one();
        }
    }

    /// Does the one that clears sleep?
    pub(crate) fn is_asleep(&self) -> bool {
        self.sleeps.load(Ordering::SeqCst) == 1
    }

    /// How many words of marks there are.
    pub fn count(&self) -> usize {
        self.marks.len()
    }

    /// Clears a word of marks, and tells it.
    pub fn take(&self, at: usize) -> u64 {
        match self.marks.get(at) {
            Some(word) if word.load(Ordering::SeqCst) != 0 => word.swap(0, Ordering::SeqCst),
            _ => 0,
        }
    }

    /// Is a device marked?
    fn has_marks(&self) -> bool {
        for word in &self.marks {
            if word.load(Ordering::SeqCst) != 0 {
                return true;
            }
        }
        false
    }

    /// Sleeps until a device is marked or the threads are to end, or for less.
    fn wait<R: Wait>(&self, rt: &R, over: &AtomicU64) {
        let heard = self.rings.load(Ordering::SeqCst);
        self.sleeps.store(1, Ordering::SeqCst);
        if over.load(Ordering::SeqCst) == 0 && !self.has_marks() {
            self.rings.park(rt, (heard % 4294967296) as u32);
        }
        self.sleeps.store(0, Ordering::SeqCst);
    }
}

/// How many effects of each lane of a device there are.
#[derive(Clone, Copy)]
pub(crate) struct Made {
    /// What goes down to the device.
    pub(crate) down: u64,
    /// Calls of the gateway.
    pub(crate) gateway: u64,
    /// Calls of the subscriber server.
    pub(crate) subscriber: u64,
}

impl Made {
    /// None.
    pub(crate) const NONE: Made = Made {
        down: 0,
        gateway: 0,
        subscriber: 0,
    };

    /// How many of one lane.
    pub(crate) fn on(&self, lane: Lane) -> u64 {
        match lane {
            Lane::Down => self.down,
            Lane::Gateway => self.gateway,
            Lane::Subscriber => self.subscriber,
        }
    }

    /// Are there fewer of a lane than these?
    fn is_short_of(&self, made: Made) -> bool {
        self.down < made.down || self.gateway < made.gateway || self.subscriber < made.subscriber
    }
}

/// What a write tells of its device.
#[derive(Clone, Copy)]
pub(crate) struct News {
    /// The number of its message, if it took one.
    pub(crate) taken: Option<u64>,
    /// How many steps were committed.
    pub(crate) version: u64,
    /// The lane of the call whose answer is awaited, if one is.
    pub(crate) awaits: Option<Lane>,
    /// The effects of the step.
    pub(crate) made: Made,
}

/// How many effects of each lane of a device there are by now: what goes down, and calls of the gateway and of the subscriber server.
#[derive(Drop)]
struct Counts {
    down: AtomicU64,
    gateway: AtomicU64,
    subscriber: AtomicU64,
}

impl Counts {
    /// None.
    fn new() -> Counts {
        Counts {
            down: AtomicU64::new(0),
            gateway: AtomicU64::new(0),
            subscriber: AtomicU64::new(0),
        }
    }

    /// There are so many more.
    fn add(&self, made: Made) {
        self.down.fetch_add(made.down, Ordering::SeqCst);
        self.gateway.fetch_add(made.gateway, Ordering::SeqCst);
        self.subscriber.fetch_add(made.subscriber, Ordering::SeqCst);
    }

    /// There are so many at least.
    fn raise(&self, made: Made) {
        self.down.fetch_max(made.down, Ordering::SeqCst);
        self.gateway.fetch_max(made.gateway, Ordering::SeqCst);
        self.subscriber.fetch_max(made.subscriber, Ordering::SeqCst);
    }

    /// How many there are.
    fn now(&self) -> Made {
        Made {
            down: self.down.load(Ordering::SeqCst),
            gateway: self.gateway.load(Ordering::SeqCst),
            subscriber: self.subscriber.load(Ordering::SeqCst),
        }
    }
}

/// What is told of a device.
#[derive(Drop)]
struct Told {
    /// How many of its messages were taken.
    taken: AtomicU64,
    /// Twice the number of its steps, and one more where no answer is awaited.
    status: AtomicU64,
    /// How many of its messages came out of the channel and were dealt with.
    done: AtomicU64,
    /// The effects that were made.
    made: Counts,
    /// Those that were brought to where they go.
    brought: Counts,
}

impl Told {
    /// Nothing was told.
    fn nothing() -> Told {
        Told {
            taken: AtomicU64::new(0),
            status: AtomicU64::new(1),
            done: AtomicU64::new(0),
            made: Counts::new(),
            brought: Counts::new(),
        }
    }
}

/// What the threads tell one another.
#[derive(Drop)]
pub struct Board {
    told: Vec<Told>,
    /// The devices whose messages the entry looks at.
    pub entry: Bell,
    /// The devices whose effects the mover looks at.
    pub mover: Bell,
    over: AtomicU64,
}

impl Board {
    /// A board of so many devices, at which nothing was told.
    pub fn new(alloc: Global, devices: usize) -> Result<Board, AllocError> {
        let mut told = Vec::new(alloc);
        for _ in 0..devices {
            let Ok(()) = told.push(Told::nothing()) else {
                return Err(AllocError);
            };
        }
        Ok(Board {
            told,
            entry: Bell::new(alloc, devices)?,
            mover: Bell::new(alloc, devices)?,
            over: AtomicU64::new(0),
        })
    }

    /// What is told of a device.
    fn told(&self, d: DeviceId) -> Option<&Told> {
        self.told.get((d.0 as usize).checked_sub(1)?)
    }

    /// Tells the threads to end.
    pub fn stop(&self) {
        self.over.store(1, Ordering::SeqCst);
        self.entry.ring();
        self.mover.ring();
    }

    /// Are the threads to end?
    pub fn is_over(&self) -> bool {
        self.over.load(Ordering::SeqCst) != 0
    }

    /// The entry looks at each of so many devices.
    pub fn mark_all(&self, devices: usize) {
        for number in 1..devices.saturating_add(1) {
            if let Ok(number) = u32::try_from(number) {
                self.entry.mark(DeviceId(number));
            }
        }
    }

    /// The entry sleeps until a device is marked for it or the threads are to end, or for less.
    pub fn await_entry<R: Wait>(&self, rt: &R) {
        self.entry.wait(rt, &self.over);
    }

    /// So does the mover.
    pub fn await_mover<R: Wait>(&self, rt: &R) {
        self.mover.wait(rt, &self.over);
    }

    /// Tells of a write. Of two the later one in the journal counts. The effects are told last: so whoever sees them told, and then
    /// that no answer is awaited, knows that each of them was answered.
    pub(crate) fn tell(&self, d: DeviceId, news: News) {
        if let Some(told) = self.told(d) {
            if let Some(number) = news.taken {
                told.taken.fetch_max(number, Ordering::SeqCst);
            }
            let rests = if news.awaits.is_none() { 1 } else { 0 };
            let status = news.version.saturating_mul(2).saturating_add(rests);
            told.status.fetch_max(status, Ordering::SeqCst);
            told.made.add(news.made);
        }
    }

    /// A message of the device that came out of the channel was dealt with, and what came behind it. What was made and not brought is
    /// left to the mover.
    pub(crate) fn finish(&self, d: DeviceId) {
        if let Some(told) = self.told(d) {
            told.done.fetch_add(1, Ordering::SeqCst);
        }
        if self.brought(d).is_short_of(self.made(d)) {
            self.mover.mark(d);
        }
        self.entry.mark(d);
    }

    /// How many messages of the device were taken.
    pub(crate) fn taken(&self, d: DeviceId) -> u64 {
        match self.told(d) {
            Some(told) => told.taken.load(Ordering::SeqCst),
            None => 0,
        }
    }

    /// How many effects of the device were made.
    pub(crate) fn made(&self, d: DeviceId) -> Made {
        match self.told(d) {
            Some(told) => told.made.now(),
            None => Made::NONE,
        }
    }

    /// How many of them were brought to where they go.
    pub(crate) fn brought(&self, d: DeviceId) -> Made {
        match self.told(d) {
            Some(told) => told.brought.now(),
            None => Made::NONE,
        }
    }

    /// So many were.
    pub(crate) fn bring(&self, d: DeviceId, made: Made) {
        if let Some(told) = self.told(d) {
            told.brought.raise(made);
        }
    }

    /// How many messages of the device were dealt with.
    pub fn done(&self, d: DeviceId) -> u64 {
        match self.told(d) {
            Some(told) => told.done.load(Ordering::SeqCst),
            None => 0,
        }
    }

    /// How many messages of all devices came out of the channel and were dealt with, those that were sent again among them.
    pub fn dealt(&self) -> u64 {
        let mut dealt = 0u64;
        for told in &self.told {
            dealt = dealt.saturating_add(told.done.load(Ordering::SeqCst));
        }
        dealt
    }

    /// How many messages of the device were taken, where no answer is awaited.
    pub fn rests_at(&self, d: DeviceId) -> Option<u64> {
        let told = self.told(d)?;
        if told.status.load(Ordering::SeqCst) % 2 == 1 {
            Some(told.taken.load(Ordering::SeqCst))
        } else {
            None
        }
    }
}
