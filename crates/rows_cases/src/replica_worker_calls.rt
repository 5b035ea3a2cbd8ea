//! Replicas over the store of one device, which sends Service Requests and is not attached: what they see and write, and how often
//! the store is read.
ghost use Rattle.std.specs.Prelude.{◌≡◌, ◌≤◌, ◌∷◌, ℕ, [], length, refl, IfOk, OnOk};
ghost use Rattle.std.proofs.Common.{◌∙◌};
ghost use Rattle.device_types.specs.Subscriber.{IsSubscriber};
ghost use Rattle.replica_worker.specs.Cache.{AreSessionsOf};
ghost use Rattle.replica_worker.specs.Writes.{MayWrite};
ghost use Rattle.session_store.specs.Rows.{Begins, journal_of};
ghost use Rattle.rows_cases.specs.Services.{service, services, service_charter};

use device_types::{
    Body, Book, DeviceId, Entry, Input, ListOf, Message, Messages, NoRoom, Shared, Subscriber,
    TryCopy,
};
use replica_worker::{Hand, Replica};
use session_row::Commit;
use session_store::{Asked, EchoLaw, Peeked, RowStore, Seen, Store};
use std::alloc::{AllocError, Global};
use std::test::Fail;
use subs_table::{SubsTable, read_row};

const ROW: &str =
    r#"{"imsi":"208930000000001","tmsi":1,"rand":"000102030405060708090a0b0c0d0e0f","autn":"101112131415161718191a1b1c1d1e1f","res":"a0a1a2a3a4a5a6a7","key":"1111111111111111111111111111111111111111111111111111111111111111","apn":"internet","ip":"0a2d0001","sgw":"c0a80001","teid":1,"ambr_dl":1000000000,"ambr_ul":1000000000,"forbidden":[9]}"#;

/// A replica reads, stops, and has nothing to write; then it reads again, writes, and reads once more. Behind what a read comes to
/// stands how often the store was read: again behind a stop, and not for a repeat.
const STOPPED: &str = "\
Looked { look: Ready, reply: None } 1
nothing to write
Looked { look: Ready, reply: None } 2
Wrote { commit: Committed(1), reply: Some(Reply { number: 1, version: 1, downs: ListOf { items: [Down(Nas { station: 1, enb: 7, nas: ServiceReject { cause: 10 } })] } }) }
Looked { look: Repeat(1), reply: Some(Reply { number: 1, version: 1, downs: ListOf { items: [Down(Nas { station: 1, enb: 7, nas: ServiceReject { cause: 10 } })] } }) } 2
";

/// The same where another writes first.
const WRITTEN_FIRST: &str = "\
Looked { look: Ready, reply: None } 1
nothing to write
Looked { look: Ready, reply: None } 2
Wrote { commit: Stale { read: 0, current: 1 }, reply: None }
Looked { look: Repeat(1), reply: Some(Reply { number: 1, version: 1, downs: ListOf { items: [Down(Nas { station: 1, enb: 7, nas: ServiceReject { cause: 10 } })] } }) } 2
";

/// Two replicas read; then the second writes, and the first, and both read the next message. The second remembers what it wrote; the
/// first, whose write was stale, reads the store.
const RACED: &str = "\
Looked { look: Ready, reply: None } 1
Looked { look: Ready, reply: None } 2
Wrote { commit: Committed(1), reply: Some(Reply { number: 1, version: 1, downs: ListOf { items: [Down(Nas { station: 1, enb: 7, nas: ServiceReject { cause: 10 } })] } }) }
Wrote { commit: Stale { read: 0, current: 1 }, reply: None }
Looked { look: Ready, reply: None } 2
Looked { look: Ready, reply: None } 3
";

/// How often the store was read behind each message that was taken, read and written: five messages by one replica, and the third of
/// five by another one. Then the first message again over another store of this charter, behind seven messages, when its session is
/// the oldest of eight that are remembered, and behind eight, when it is not remembered any more.
const READS: &str = "\
FiveByOne: 1 1 1 1 1
ThirdByAnother: 1 1 2 3 3
BehindSeven: 1 1 1 1 1 1 1 Looked { look: Ready, reply: None } 0

BehindEight: 1 1 1 1 1 1 1 1 Looked { look: Ready, reply: None } 1

";

/// What replicas do.
#[derive(Clone, Copy, Debug)]
enum Case {
    Stopped,
    Raced,
    FiveByOne,
    ThirdByAnother,
    BehindSeven,
    BehindEight,
}

/// A store in which another writes each entry first.
#[derive(Drop)]
struct WrittenFirst {
    rows: Store<EchoLaw>,
}

impl RowStore for WrittenFirst {
    type Law = EchoLaw;

    ghost charter = { λ store. store.rows.charter };

    ghost devices = { λ store. length store.rows.rows };

    ghost known = { λ store d. journal_of store.rows.rows d };

    ghost reads = { λ store. store.rows.reads };

    ghost keeps = { λ old new. length new.rows.rows ≡ length old.rows.rows };

    ghost writes = { λ old new d read entry commit. length new.rows.rows ≡ length old.rows.rows };

    ghost keeps_same = { λ store. refl };

    ghost keeps_twice = { λ old between new one two. two ∙ one };

    fn read(&mut self, d: DeviceId, asked: Asked) -> Result<Seen, AllocError> {
        RowStore::read(&mut self.rows, d, asked)
    }

    fn peek(&mut self, d: DeviceId, asked: Asked) -> Result<Peeked, AllocError> {
        RowStore::peek(&mut self.rows, d, asked)
    }

    fn commit(&mut self, d: DeviceId, read: u64, entry: Entry) -> Result<Commit, NoRoom<Entry>> {
        match RowStore::commit(&mut self.rows, d, read, entry)? {
            Commit::Committed(current) => Ok(Commit::Stale { read, current }),
            stale => Ok(stale),
        }
    }
}

/// A store that tells how often it was read.
trait CountsReads {
    fn read_count(&self) -> u64;
}

impl CountsReads for Store<EchoLaw> {
    fn read_count(&self) -> u64 {
        self.reads()
    }
}

impl CountsReads for WrittenFirst {
    fn read_count(&self) -> u64 {
        self.rows.reads()
    }
}

/// Message `n` of the device.
fn service(n: u64) -> Message
    ensures { result ≡ service n }
{
    Message {
        number: n,
        station: 1,
        enb: 7,
        body: Body::Service,
    }
}

/// Its eight messages.
#[tactic(auto, using(crate::proofs::Services::services_none, crate::proofs::Services::services_more))]
fn line_of(alloc: Global) -> Result<Messages, AllocError>
    ensures { IfOk result (λ line. line ≡ services 8) }
{
    let mut line = ListOf::new(alloc);
    for index in 0..8 {
        line.push(service(index + 1))?;
    }
    Ok(line)
}

/// The book of that device.
#[tactic(auto, using(crate::proofs::Services::services_line))]
fn book_of(alloc: Global) -> Result<Book, AllocError>
    ensures { IfOk result (λ book. book ≡ services 8 ∷ []) }
{
    let mut book = Book::new(alloc);
    book.push(line_of(alloc)?)?;
    Ok(book)
}

/// A table with a copy of the row.
fn table_of(alloc: Global, row: &Subscriber) -> Result<SubsTable, Fail>
    requires number { row.now.number ≡ 1 }
    requires range { IsSubscriber row.now }
    ensures { IfOk result (λ table. table ≡ row.now ∷ []) }
{
    let mut table = SubsTable::new(alloc);
    table.add(row.copy()?)?;
    Ok(table)
}

/// A store of that device.
#[tactic(auto, using(crate::proofs::Services::services_short), unfolding(crate::specs::Services::service_charter))]
fn opened(alloc: Global, row: &Subscriber) -> Result<Store<EchoLaw>, Fail>
    requires number { row.now.number ≡ 1 }
    requires range { IsSubscriber row.now }
    ensures charter { IfOk result (λ store. store.charter ≡ service_charter row.now) }
    ensures devices { IfOk result (λ store. length store.rows ≡ 1) }
{
    let law = EchoLaw::new(alloc, &table_of(alloc, row)?, &book_of(alloc)?)?;
    Ok(Store::new(alloc, law, 1)?)
}

/// The replica takes message `n` of the device, and reads.
#[tactic(auto, using(crate::proofs::Services::owned))]
fn read<S: RowStore<Law = EchoLaw> + CountsReads>(
    row: &Subscriber,
    replica: &mut Replica,
    store: &mut S,
    n: u64,
    told: &mut String,
) -> Result<(), AllocError>
    requires charter { S.charter store.old ≡ service_charter row.now }
    requires devices { S.devices store.old ≡ 1 }
    requires number { (1 ≤ n) × (n ≤ 8) }
    requires remembers { AreSessionsOf (S.charter store.old) replica.old.cache }
    ensures charter { S.charter store.new ≡ S.charter store.old }
    ensures remembers { AreSessionsOf (S.charter store.new) replica.new.cache }
    ensures devices { S.devices store.new ≡ S.devices store.old }
    ensures extends { (i : ℕ) → Begins (S.known store.old i) (S.known store.new i) }
    ensures may { OnOk result (MayWrite (S.charter store.new) (S.devices store.new) (S.known store.new) replica.new.hand) }
{
    let input = Shared::new(row.rand.alloc(), Input::Message(service(n)))?;
    replica.take(DeviceId(1), input);
    let looked = replica.read(row, store)?;
    let reads = store.read_count();
    writeln!(told, "{looked:?} {reads}")?;
    Ok(())
}

/// The replica writes, if it has a step.
fn write<S: RowStore<Law = EchoLaw>>(
    replica: &mut Replica,
    store: &mut S,
    told: &mut String,
) -> Result<(), AllocError>
    requires may { MayWrite (S.charter store.old) (S.devices store.old) (S.known store.old) replica.old.hand }
    requires remembers { AreSessionsOf (S.charter store.old) replica.old.cache }
    ensures charter { S.charter store.new ≡ S.charter store.old }
    ensures remembers { AreSessionsOf (S.charter store.new) replica.new.cache }
    ensures devices { S.devices store.new ≡ S.devices store.old }
    ensures extends { (i : ℕ) → Begins (S.known store.old i) (S.known store.new i) }
{
    let Hand::Ready { .. } = replica.hand() else {
        writeln!(told, "nothing to write")?;
        return Ok(());
    };
    let wrote = replica.write(store)?;
    writeln!(told, "{wrote:?}")?;
    Ok(())
}

/// A replica reads, stops, and writes; then it reads, writes and reads.
fn stopped<S: RowStore<Law = EchoLaw> + CountsReads>(
    row: &Subscriber,
    replica: &mut Replica,
    store: &mut S,
    told: &mut String,
) -> Result<(), AllocError>
    requires charter { S.charter store.old ≡ service_charter row.now }
    requires devices { S.devices store.old ≡ 1 }
    requires nothing { replica.old.cache ≡ [] }
{
    read(row, replica, store, 1, told)?;
    replica.stop();
    write(replica, store, told)?;
    read(row, replica, store, 1, told)?;
    write(replica, store, told)?;
    read(row, replica, store, 1, told)
}

/// Two replicas read; then the second writes, and the first, and both read the next message.
fn raced<S: RowStore<Law = EchoLaw> + CountsReads>(
    row: &Subscriber,
    first: &mut Replica,
    second: &mut Replica,
    store: &mut S,
    told: &mut String,
) -> Result<(), AllocError>
    requires charter { S.charter store.old ≡ service_charter row.now }
    requires devices { S.devices store.old ≡ 1 }
    requires first { first.old.cache ≡ [] }
    requires second { second.old.cache ≡ [] }
{
    read(row, first, store, 1, told)?;
    read(row, second, store, 1, told)?;
    write(second, store, told)?;
    write(first, store, told)?;
    read(row, second, store, 2, told)?;
    read(row, first, store, 2, told)
}

/// Message `n` is taken, read and written.
#[tactic(auto, using(crate::proofs::Services::owned))]
fn turn<S: RowStore<Law = EchoLaw>>(
    row: &Subscriber,
    replica: &mut Replica,
    store: &mut S,
    n: u64,
) -> Result<(), AllocError>
    requires charter { S.charter store.old ≡ service_charter row.now }
    requires devices { S.devices store.old ≡ 1 }
    requires number { (1 ≤ n) × (n ≤ 8) }
    requires remembers { AreSessionsOf (S.charter store.old) replica.old.cache }
    ensures charter { S.charter store.new ≡ service_charter row.now }
    ensures devices { S.devices store.new ≡ 1 }
    ensures remembers { AreSessionsOf (S.charter store.new) replica.new.cache }
{
    let input = Shared::new(row.rand.alloc(), Input::Message(service(n)))?;
    replica.take(DeviceId(1), input);
    replica.read(row, store)?;
    if let Hand::Ready { .. } = replica.hand() {
        replica.commit(store)?;
    }
    Ok(())
}

/// Messages from `first` on, before `end`, are taken, read and written in turn.
fn turns<S: RowStore<Law = EchoLaw> + CountsReads>(
    row: &Subscriber,
    replica: &mut Replica,
    store: &mut S,
    first: u64,
    end: u64,
    told: &mut String,
) -> Result<(), AllocError>
    requires charter { S.charter store.old ≡ service_charter row.now }
    requires devices { S.devices store.old ≡ 1 }
    requires numbers { (1 ≤ first) × (end ≤ 9) }
    requires remembers { AreSessionsOf (S.charter store.old) replica.old.cache }
    ensures charter { S.charter store.new ≡ service_charter row.now }
    ensures devices { S.devices store.new ≡ 1 }
    ensures remembers { AreSessionsOf (S.charter store.new) replica.new.cache }
{
    for n in first..end {
        turn(row, replica, store, n)?;
        write!(told, " {}", store.read_count())?;
    }
    Ok(())
}

/// Messages 1, 2, 4 and 5 by one replica, and message 3 by another.
fn third_by_another<S: RowStore<Law = EchoLaw> + CountsReads>(
    row: &Subscriber,
    first: &mut Replica,
    second: &mut Replica,
    store: &mut S,
    told: &mut String,
) -> Result<(), AllocError>
    requires charter { S.charter store.old ≡ service_charter row.now }
    requires devices { S.devices store.old ≡ 1 }
    requires first { first.old.cache ≡ [] }
    requires second { second.old.cache ≡ [] }
{
    turns(row, first, store, 1, 3, told)?;
    turns(row, second, store, 3, 4, told)?;
    turns(row, first, store, 4, 6, told)
}

/// The replica reads message 1 in another store of that device.
fn read_in_another(
    alloc: Global,
    row: &Subscriber,
    replica: &mut Replica,
    told: &mut String,
) -> Result<(), Fail>
    requires number { row.now.number ≡ 1 }
    requires range { IsSubscriber row.now }
    requires remembers { AreSessionsOf (service_charter row.now) replica.old.cache }
{
    let mut store = opened(alloc, row)?;
    write!(told, " ")?;
    read(row, replica, &mut store, 1, told)?;
    Ok(())
}

/// Messages before `end` in turn, and message 1 in another store.
fn behind<S: RowStore<Law = EchoLaw> + CountsReads>(
    alloc: Global,
    row: &Subscriber,
    replica: &mut Replica,
    store: &mut S,
    end: u64,
    told: &mut String,
) -> Result<(), Fail>
    requires number { row.now.number ≡ 1 }
    requires range { IsSubscriber row.now }
    requires charter { S.charter store.old ≡ service_charter row.now }
    requires devices { S.devices store.old ≡ 1 }
    requires end { end ≤ 9 }
    requires nothing { replica.old.cache ≡ [] }
{
    turns(row, replica, store, 1, end, told)?;
    read_in_another(alloc, row, replica, told)
}

/// What two replicas do in a case.
fn run<S: RowStore<Law = EchoLaw> + CountsReads>(
    alloc: Global,
    row: &Subscriber,
    case: Case,
    first: &mut Replica,
    second: &mut Replica,
    store: &mut S,
    told: &mut String,
) -> Result<(), Fail>
    requires number { row.now.number ≡ 1 }
    requires range { IsSubscriber row.now }
    requires charter { S.charter store.old ≡ service_charter row.now }
    requires devices { S.devices store.old ≡ 1 }
    requires first { first.old.cache ≡ [] }
    requires second { second.old.cache ≡ [] }
{
    match case {
        Case::Stopped => stopped(row, first, store, told)?,
        Case::Raced => raced(row, first, second, store, told)?,
        Case::FiveByOne => turns(row, first, store, 1, 6, told)?,
        Case::ThirdByAnother => third_by_another(row, first, second, store, told)?,
        Case::BehindSeven => behind(alloc, row, first, store, 8, told)?,
        Case::BehindEight => behind(alloc, row, first, store, 9, told)?,
    }
    Ok(())
}

/// What two new replicas do over a store.
fn over<S: RowStore<Law = EchoLaw> + CountsReads>(
    alloc: Global,
    row: &Subscriber,
    case: Case,
    store: &mut S,
    told: &mut String,
) -> Result<(), Fail>
    requires number { row.now.number ≡ 1 }
    requires range { IsSubscriber row.now }
    requires charter { S.charter store.old ≡ service_charter row.now }
    requires devices { S.devices store.old ≡ 1 }
{
    let mut first = Replica::new(alloc)?;
    let mut second = Replica::new(alloc)?;
    run(alloc, row, case, &mut first, &mut second, store, told)
}

/// What they do over a new store of that device.
fn over_store(alloc: Global, case: Case, told: &mut String) -> Result<(), Fail> {
    let row = read_row(alloc, ROW.as_bytes(), 1)?;
    let mut store = opened(alloc, &row)?;
    over(alloc, &row, case, &mut store, told)
}

/// What they do over one in which another writes first.
fn over_written_first(alloc: Global, case: Case, told: &mut String) -> Result<(), Fail> {
    let row = read_row(alloc, ROW.as_bytes(), 1)?;
    let mut store = WrittenFirst {
        rows: opened(alloc, &row)?,
    };
    over(alloc, &row, case, &mut store, told)
}

/// A line with how often the store is read in a case.
fn tell_reads(alloc: Global, case: Case, told: &mut String) -> Result<(), Fail> {
    write!(told, "{case:?}:")?;
    over_store(alloc, case, told)?;
    writeln!(told, "")?;
    Ok(())
}

#[test]
fn a_stop_loses_nothing(rt: HostRuntime) -> Result<(), Fail> {
    let mut told = String::new(rt.alloc());
    over_store(rt.alloc(), Case::Stopped, &mut told)?;
    assert_eq!(rt; told.as_str(), STOPPED);
    Ok(())
}

#[test]
fn another_writes_first(rt: HostRuntime) -> Result<(), Fail> {
    let mut told = String::new(rt.alloc());
    over_written_first(rt.alloc(), Case::Stopped, &mut told)?;
    assert_eq!(rt; told.as_str(), WRITTEN_FIRST);
    Ok(())
}

#[test]
fn one_of_two_replicas_writes(rt: HostRuntime) -> Result<(), Fail> {
    let mut told = String::new(rt.alloc());
    over_store(rt.alloc(), Case::Raced, &mut told)?;
    assert_eq!(rt; told.as_str(), RACED);
    Ok(())
}

#[test]
fn the_store_is_read_for_what_is_not_remembered(rt: HostRuntime) -> Result<(), Fail> {
    let mut told = String::new(rt.alloc());
    tell_reads(rt.alloc(), Case::FiveByOne, &mut told)?;
    tell_reads(rt.alloc(), Case::ThirdByAnother, &mut told)?;
    tell_reads(rt.alloc(), Case::BehindSeven, &mut told)?;
    tell_reads(rt.alloc(), Case::BehindEight, &mut told)?;
    assert_eq!(rt; told.as_str(), READS);
    Ok(())
}
