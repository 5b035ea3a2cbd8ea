//! Stores of two devices, under a law that allows whatever a row takes.
ghost use Rattle.std.specs.Prelude.{◌≡◌, ◌≤◌, true, [], length, refl, IfOk};
ghost use Rattle.std.proofs.Common.{◌∙◌};
ghost use Rattle.std.specs.Arc.{arc_value};
ghost use Rattle.device_types.specs.declared.event.Lane.TheVariants as lane;
ghost use Rattle.device_types.specs.Journal.{pushed_count};
ghost use Rattle.session_store.specs.Law.{CanFollow};
ghost use Rattle.session_store.specs.Rows.{IsDevice, journal_of};

use device_types::{
    Body, Book, CauseCode, DeviceId, Down, Effect, Effects, Entry, Input, Lane, Message, NoRoom,
    Step,
};
use session_row::{Commit, Row};
use session_store::{Asked, Charter, EchoLaw, Peeked, RowLaw, RowStore, Seen, Store};
use std::alloc::{AllocError, Global};
use std::test::Fail;
use subs_table::SubsTable;

/// Message 1 of device 2 is Ready, written, written again for the version that was read, and a repeat then; message 2 is Ready, and so is
/// message 1 of the other device.
const ONE_IS_MADE: &str = "\
0 Ready None
Committed(1)
Stale { read: 0, current: 1 }
1 Repeat(1) Some(Reply { number: 1, version: 1, downs: ListOf { items: [Down(Release { station: 1, enb: 7, cause: CauseCode { group: 0, extended: false, index: 0 } })] } })
1 Ready None
0 Ready None
";

/// The same where another writes first.
const BOTH_ARE_STALE: &str = "\
0 Ready None
Stale { read: 0, current: 1 }
Stale { read: 0, current: 1 }
1 Repeat(1) Some(Reply { number: 1, version: 1, downs: ListOf { items: [Down(Release { station: 1, enb: 7, cause: CauseCode { group: 0, extended: false, index: 0 } })] } })
1 Ready None
0 Ready None
";

/// A write; then effect 2, effect 1, two settlings up to 1, and effect 1.
const SETTLED: &str = "\
Committed(1)
None
Some(Down(Release { station: 1, enb: 7, cause: CauseCode { group: 0, extended: false, index: 0 } }))
Upto(1) Old(1)
None
";

/// Allows whatever a row takes.
#[derive(Drop)]
struct AnyLaw {
    under: EchoLaw,
}

impl RowLaw for AnyLaw {
    ghost charter = { λ law. arc_value law.under.charter };

    ghost follows = { λ charter d journal entry. CanFollow journal entry };

    ghost can_follow = { λ charter d journal entry in_form lawful follows. follows };

    fn charter(&self) -> &Charter {
        self.under.charter()
    }

    fn copy(&self) -> Result<AnyLaw, AllocError> {
        Ok(AnyLaw {
            under: self.under.copy()?,
        })
    }
}

/// A store in which another writes each entry first.
#[derive(Drop)]
struct Raced {
    rows: Store<AnyLaw>,
}

impl RowStore for Raced {
    type Law = AnyLaw;

    ghost charter = { λ store. store.rows.charter };

    ghost devices = { λ store. length store.rows.rows };

    ghost known = { λ store d. journal_of store.rows.rows d };

    ghost reads = { λ store. store.rows.reads };

    ghost keeps = { λ old new. length new.rows.rows ≡ length old.rows.rows };

    ghost writes = { λ old new d read entry commit. length new.rows.rows ≡ length old.rows.rows };

    ghost keeps_same = { λ store. refl };

    ghost keeps_twice = { λ old between new one two. two ∙ one };

    fn read(&mut self, d: DeviceId, asked: Asked) -> Result<Seen, AllocError> {
        RowStore::read(&mut self.rows, d, asked)
    }

    fn peek(&mut self, d: DeviceId, asked: Asked) -> Result<Peeked, AllocError> {
        RowStore::peek(&mut self.rows, d, asked)
    }

    fn commit(&mut self, d: DeviceId, read: u64, entry: Entry) -> Result<Commit, NoRoom<Entry>> {
        match RowStore::commit(&mut self.rows, d, read, entry)? {
            Commit::Committed(current) => Ok(Commit::Stale { read, current }),
            stale => Ok(stale),
        }
    }
}

/// The first message of a device, with one message to it.
fn first(alloc: Global) -> Result<Entry, AllocError>
    ensures { IfOk result (CanFollow []) }
{
    let session = Row::<4>::new(alloc)?.session()?;
    let down = Effect::Down(Down::Release {
        station: 1,
        enb: 7,
        cause: CauseCode {
            group: 0,
            extended: false,
            index: 0,
        },
    });
    let effects = Effects::from(Vec::from_array(alloc, [down])?);
    let message = Message {
        number: 1,
        station: 1,
        enb: 7,
        body: Body::Service,
    };
    Entry::new(alloc, Input::Message(message), Step::new(session, effects)?)
}

/// Writes the first message of a device for version 0, and tells what comes of it.
fn write<S: RowStore<Law = AnyLaw>>(
    alloc: Global,
    store: &mut S,
    d: u32,
    told: &mut String,
) -> Result<(), AllocError>
    requires { IsDevice (S.devices store.old) d }
    ensures { S.devices store.new ≡ S.devices store.old }
{
    let Ok(commit) = store.commit(DeviceId(d), 0, first(alloc)?) else {
        return Err(AllocError);
    };
    writeln!(told, "{commit:?}")?;
    Ok(())
}

/// Tells what is seen of a device, about message `n`.
fn look<S: RowStore>(store: &mut S, d: u32, n: u64, told: &mut String) -> Result<(), AllocError>
    requires device { IsDevice (S.devices store.old) d }
    requires number { 1 ≤ n }
    ensures { S.devices store.new ≡ S.devices store.old }
{
    let seen = store.read(DeviceId(d), Asked::Message(n))?;
    writeln!(told, "{} {:?} {:?}", seen.version, seen.look, seen.reply)?;
    Ok(())
}

/// Two writes of version 0 of the second of two devices, and what is seen of both.
fn write_twice<S: RowStore<Law = AnyLaw>>(
    alloc: Global,
    store: &mut S,
    told: &mut String,
) -> Result<(), AllocError>
    requires { S.devices store.old ≡ 2 }
{
    look(store, 2, 1, told)?;
    write(alloc, store, 2, told)?;
    write(alloc, store, 2, told)?;
    look(store, 2, 1, told)?;
    look(store, 2, 2, told)?;
    look(store, 1, 1, told)
}

/// Tells effect `k` of the downs of the first device, and whether it is there.
fn push<L: RowLaw>(store: &Store<L>, k: u64, told: &mut String) -> Result<bool, AllocError>
    requires { IsDevice (length store.now.rows) 1 }
    ensures { IfOk result (λ there. there ≡ true → k ≤ pushed_count lane.Down (journal_of store.now.rows 1)) }
{
    let effect = store.push(DeviceId(1), Lane::Down, k)?;
    writeln!(told, "{effect:?}")?;
    Ok(effect.is_some())
}

/// The effect of the first message, settled twice.
fn settle<L: RowLaw>(store: &mut Store<L>, told: &mut String) -> Result<(), AllocError>
    requires { IsDevice (length store.old.rows) 1 }
{
    push(store, 2, told)?;
    if push(store, 1, told)? {
        let upto = store.settle(DeviceId(1), Lane::Down, 1);
        let old = store.settle(DeviceId(1), Lane::Down, 1);
        writeln!(told, "{upto:?} {old:?}")?;
        push(store, 1, told)?;
    }
    Ok(())
}

fn any_law(alloc: Global) -> Result<AnyLaw, AllocError> {
    let law = AnyLaw {
        under: EchoLaw::new(alloc, &SubsTable::new(alloc), &Book::new(alloc))?,
    };
    law.copy()
}

/// A store of so many devices.
fn opened(alloc: Global, devices: u32) -> Result<Store<AnyLaw>, AllocError>
    ensures { IfOk result (λ store. length store.rows ≡ devices) }
{
    Store::new(alloc, any_law(alloc)?, devices)
}

fn write_twice_in_store(alloc: Global, told: &mut String) -> Result<(), AllocError> {
    let mut store = opened(alloc, 2)?;
    write_twice(alloc, &mut store, told)
}

fn write_twice_behind_another(alloc: Global, told: &mut String) -> Result<(), AllocError> {
    let mut store = Raced {
        rows: opened(alloc, 2)?,
    };
    write_twice(alloc, &mut store, told)
}

fn write_and_settle(alloc: Global, told: &mut String) -> Result<(), AllocError> {
    let mut store = opened(alloc, 1)?;
    write(alloc, &mut store, 1, told)?;
    settle(&mut store, told)
}

#[test]
fn one_of_two_writes_of_a_version_is_made(rt: HostRuntime) -> Result<(), Fail> {
    let mut told = String::new(rt.alloc());
    write_twice_in_store(rt.alloc(), &mut told)?;
    assert_eq!(rt; told.as_str(), ONE_IS_MADE);
    Ok(())
}

#[test]
fn another_writes_first(rt: HostRuntime) -> Result<(), Fail> {
    let mut told = String::new(rt.alloc());
    write_twice_behind_another(rt.alloc(), &mut told)?;
    assert_eq!(rt; told.as_str(), BOTH_ARE_STALE);
    Ok(())
}

#[test]
fn an_effect_is_there_until_it_is_settled(rt: HostRuntime) -> Result<(), Fail> {
    let mut told = String::new(rt.alloc());
    write_and_settle(rt.alloc(), &mut told)?;
    assert_eq!(rt; told.as_str(), SETTLED);
    Ok(())
}
