//! Offers of two seats at the peers of one device, whose messages are those of an attach up to the session. What finds no memory is
//! not told, and the text is another one.
ghost use Rattle.std.specs.Prelude.{◌≡◌, ◌≤◌, ◌-◌, ◌∷◌, [], true, All, IfOk, IfSome, Some, length, slice_get};
ghost use Rattle.std.specs.Arc.{arc_value};
ghost use Rattle.device_machine.specs.Ends.{end_of};
ghost use Rattle.device_types.specs.Alone.{alone_of};
ghost use Rattle.device_types.specs.Journal.{effects_of};
ghost use Rattle.device_types.specs.Line.{IsLine};
ghost use Rattle.device_types.specs.Message.{IsBody, IsFrom, IsMessage};
ghost use Rattle.device_types.specs.Subscriber.{IsSubscriber};
ghost use Rattle.session_store.specs.Charter.{IsShort};
ghost use Rattle.front_lock.specs.FrontRow.{AreSeatsOf};
ghost use Rattle.shard_parts.specs.BothPeers.{is_call, lane_of};
ghost use Rattle.store_shared.specs.PeerBases.{peer_basis};
ghost use Rattle.store_shared.specs.PeerShards.{IsOffered};

use device_machine::{end_has_the_lanes, end_of};
use device_types::{
    Answer, Body, Book, DeviceEnd, DeviceId, Effect, Lane, Message, Messages, Octets, Offer,
    Shared, Subscriber, TryCopy,
};
use session_store::EchoLaw;
use std::alloc::{AllocError, Global};
use std::sync::Wait;
use std::test::Fail;
use store_shared::{PeerSeat, PeerShard, SharedPeers, Turn, TurnAnswer, TurnCall};
use subs_table::{SubsTable, read_row};

const ROW: &str =
    r#"{"imsi":"208930000000001","tmsi":1,"rand":"000102030405060708090a0b0c0d0e0f","autn":"101112131415161718191a1b1c1d1e1f","res":"a0a1a2a3","key":"1111111111111111111111111111111111111111111111111111111111111111","apn":"internet","ip":"0a2d0001","sgw":"c0a80001","teid":1,"ambr_dl":1000000000,"ambr_ul":2000000000,"forbidden":[9]}"#;

/// Seat 0 is ahead; seat 1 offers the first call, and seat 0 the same; then both calls that are next, each on its lane. Shard 1 has
/// these five turns.
const OFFERED: &str = "\
seat 0 2: ahead of 0
seat 1 1: accepted vectors
seat 0 1: repeat vectors
seat 0 2: accepted Located(1000000000, 2000000000)
seat 1 1: accepted Created(3232235521, 1, 170721281)
shard 1: seat 0 2: ahead of 0
shard 1: seat 1 1: accepted vectors
shard 1: seat 0 1: repeat vectors
shard 1: seat 0 2: accepted Located(1000000000, 2000000000)
shard 1: seat 1 1: accepted Created(3232235521, 1, 170721281)
";

/// A message that comes from a base station.
fn message(number: u64, body: Body) -> Message
    requires from { IsFrom body 1 7 }
    requires body { IsBody body }
    ensures number { result.number ≡ number }
    ensures message { IsMessage result }
{
    Message {
        number,
        station: 1,
        enb: 7,
        body,
    }
}

fn attach() -> Body
    ensures from { IsFrom result 1 7 }
    ensures body { IsBody result }
{
    Body::Attach {
        plmn: 31,
        tac: 1,
        eea: 32,
        eia: 33,
        pti: 34,
    }
}

/// The right response to the challenge.
fn response(alloc: Global) -> Result<Body, AllocError>
    ensures from { IfOk result (λ body. IsFrom body 1 7) }
    ensures body { IfOk result IsBody }
{
    let res = [0xa0, 0xa1, 0xa2, 0xa3];
    Ok(Body::Response {
        res: Octets::from(Vec::from_array(alloc, res)?),
    })
}

/// An attach, the response to the challenge, and that its security mode is complete.
fn attach_line(alloc: Global) -> Result<Messages, AllocError>
    ensures line { IfOk result IsLine }
    ensures short { IfOk result IsShort }
{
    let response = response(alloc)?;
    let messages = [
        message(1, attach()),
        message(2, response),
        message(3, Body::Secured),
    ];
    Ok(Messages::from(Vec::from_array(alloc, messages)?))
}

/// A table with the row alone.
fn table_of(alloc: Global, row: &Subscriber) -> Result<SubsTable, Fail>
    requires number { row.now.number ≡ 1 }
    requires range { IsSubscriber row.now }
    ensures { IfOk result (λ table. table ≡ row.now ∷ []) }
{
    let row = row.copy()?;
    let mut table = SubsTable::new(alloc);
    table.add(row)?;
    Ok(table)
}

/// A law of the table, with the messages of its one device.
fn law_of(alloc: Global, table: &SubsTable, line: &Messages) -> Result<EchoLaw, AllocError>
    requires count { length table.now ≡ 1 }
    requires line { IsLine line.now }
    requires short { IsShort line.now }
    ensures { IfOk result (λ law. arc_value law.charter ≡ record { rows = table.now; lines = line.now ∷ [] }) }
{
    let line = line.copy()?;
    let mut book = Book::new(alloc);
    book.push(line)?;
    EchoLaw::new(alloc, table, &book)
}

/// The peers of one device, and two seats.
fn opened(
    alloc: Global,
    row: &Subscriber,
    line: &Messages,
) -> Result<(SharedPeers, Vec<PeerSeat>), Fail>
    requires number { row.now.number ≡ 1 }
    requires range { IsSubscriber row.now }
    requires line { IsLine line.now }
    requires short { IsShort line.now }
    ensures charter { IfOk result (λ made. arc_value made.0.law.charter ≡ record { rows = row.now ∷ []; lines = line.now ∷ [] }) }
    ensures seats { IfOk result (λ made. All (λ s. AreSeatsOf peer_basis made.0.fronts.fronts.items s.seats.items) made.1.items) }
{
    let table = table_of(alloc, row)?;
    let law = law_of(alloc, &table, line)?;
    Ok(SharedPeers::new(alloc, law, &table, 2)?)
}

fn tell_answer(answer: &Answer, told: &mut String) {
    let _ = match answer {
        Answer::Vectors(_, _, _, _) => writeln!(told, "vectors"),
        other => writeln!(told, "{other:?}"),
    };
}

/// Tells who made a call, and what was said to it.
fn tell_offer(seat: u32, k: u64, offer: &Offer, told: &mut String) {
    let _ = write!(told, "seat {seat} {k}: ");
    match offer {
        Offer::Accepted(answer) => {
            let _ = write!(told, "accepted ");
            tell_answer(answer, told);
        }
        Offer::Repeat(answer) => {
            let _ = write!(told, "repeat ");
            tell_answer(answer, told);
        }
        Offer::Ahead(last) => {
            let _ = writeln!(told, "ahead of {last}");
        }
    }
}

/// Call `k` of the device on a lane of a peer, if it has one.
fn call_of(
    row: &Subscriber,
    line: &Messages,
    end: &DeviceEnd,
    lane: Lane,
    k: u64,
) -> Option<Shared<Effect>>
    requires end { end.now ≡ end_of row.now line.now }
    requires number { 1 ≤ k }
    ensures called { IfSome result (λ call. is_call call ≡ true) }
    ensures law { IfSome result (λ call. slice_get (effects_of (lane_of call) (alone_of row.now line.now)) (k - 1) ≡ Some call) }
{
    end_has_the_lanes(row, line.items());
    let place = k as usize - 1;
    match lane {
        Lane::Gateway => {
            let call = end.gateway.items().get(place)?;
            Shared::new(end.gateway.alloc(), Effect::Gateway(*call)).ok()
        }
        Lane::Subscriber => {
            let call = end.subscriber.items().get(place)?;
            Shared::new(end.gateway.alloc(), Effect::Subscriber(*call)).ok()
        }
        Lane::Down => None,
    }
}

/// Offers call `k` of the device on a lane of a peer, if it has one, and tells what is said.
fn offer<R: Wait>(
    rt: &R,
    peers: &SharedPeers,
    seat: &mut PeerSeat,
    k: u64,
    call: Option<Shared<Effect>>,
    told: &mut String,
)
    requires seat { AreSeatsOf peer_basis peers.now.fronts.fronts.items seat.old.seats.items }
    requires called { IfSome call (λ call. IsOffered (arc_value peers.now.law.charter) 1 1 k call) }
    ensures { AreSeatsOf peer_basis peers.now.fronts.fronts.items seat.new.seats.items }
{
    let Some(call) = call else {
        return;
    };
    if let Ok(offer) = peers.offer(rt, seat, DeviceId(1), k, call) {
        tell_offer(seat.number(), k, &offer, told);
    }
}

/// The calls of the two seats, of what the machine alone makes.
fn offer_all<R: Wait>(
    rt: &R,
    peers: &SharedPeers,
    first: &mut PeerSeat,
    second: &mut PeerSeat,
    row: &Subscriber,
    line: &Messages,
    end: &DeviceEnd,
    told: &mut String,
)
    requires first { AreSeatsOf peer_basis peers.now.fronts.fronts.items first.old.seats.items }
    requires second { AreSeatsOf peer_basis peers.now.fronts.fronts.items second.old.seats.items }
    requires charter { arc_value peers.now.law.charter ≡ record { rows = row.now ∷ []; lines = line.now ∷ [] } }
    requires range { IsSubscriber row.now }
    requires short { IsShort line.now }
    requires end { end.now ≡ end_of row.now line.now }
    ensures first { AreSeatsOf peer_basis peers.now.fronts.fronts.items first.new.seats.items }
    ensures second { AreSeatsOf peer_basis peers.now.fronts.fronts.items second.new.seats.items }
{
    let located = call_of(row, line, end, Lane::Subscriber, 2);
    offer(rt, peers, first, 2, located, told);
    let vectors = call_of(row, line, end, Lane::Subscriber, 1);
    offer(rt, peers, second, 1, vectors, told);
    let vectors = call_of(row, line, end, Lane::Subscriber, 1);
    offer(rt, peers, first, 1, vectors, told);
    let located = call_of(row, line, end, Lane::Subscriber, 2);
    offer(rt, peers, first, 2, located, told);
    let created = call_of(row, line, end, Lane::Gateway, 1);
    offer(rt, peers, second, 1, created, told);
}

/// The two seats of the peers, in the order of their numbers. `None` where there are fewer.
fn both(peers: &SharedPeers, mut seats: Vec<PeerSeat>) -> Option<(PeerSeat, PeerSeat)>
    requires { All (λ s. AreSeatsOf peer_basis peers.now.fronts.fronts.items s.seats.items) seats.items }
    ensures first { IfSome result (λ both. AreSeatsOf peer_basis peers.now.fronts.fronts.items both.0.seats.items) }
    ensures second { IfSome result (λ both. AreSeatsOf peer_basis peers.now.fronts.fronts.items both.1.seats.items) }
{
    let Some(second) = seats.pop() else {
        return None;
    };
    let Some(first) = seats.pop() else {
        return None;
    };
    Some((first, second))
}

/// Joins the two seats of the peers, and closes them. `None` where they are not their two.
fn closed(peers: SharedPeers, mut into: PeerSeat, from: PeerSeat) -> Option<Vec<PeerShard>>
    requires into { AreSeatsOf peer_basis peers.fronts.fronts.items into.seats.items }
    requires from { AreSeatsOf peer_basis peers.fronts.fronts.items from.seats.items }
{
    if peers.seats() != 2 || into.number() != 0 || from.number() != 1 {
        return None;
    }
    let Ok(()) = peers.join(&mut into, from) else {
        unreachable!()
    };
    peers.close(into).ok()
}

/// The shards of the peers behind these calls. `None` where memory runs out.
fn shards_offered<R: Wait>(
    rt: &R,
    peers: SharedPeers,
    seats: Vec<PeerSeat>,
    row: &Subscriber,
    line: &Messages,
    end: &DeviceEnd,
    told: &mut String,
) -> Option<Vec<PeerShard>>
    requires seats { All (λ s. AreSeatsOf peer_basis peers.fronts.fronts.items s.seats.items) seats.items }
    requires charter { arc_value peers.law.charter ≡ record { rows = row.now ∷ []; lines = line.now ∷ [] } }
    requires range { IsSubscriber row.now }
    requires short { IsShort line.now }
    requires end { end.now ≡ end_of row.now line.now }
{
    let (mut first, mut second) = both(&peers, seats)?;
    offer_all(rt, &peers, &mut first, &mut second, row, line, end, told);
    closed(peers, first, second)
}

/// All turns of all shards.
fn tell_turns(shards: &[PeerShard], told: &mut String) {
    for (number, shard) in shards.iter().enumerate() {
        for turn in shard.turns() {
            if let Turn {
                call: TurnCall::Offer { k, .. },
                answer: TurnAnswer::Offer(offer),
                ..
            } = turn
            {
                let _ = write!(told, "shard {number}: ");
                tell_offer(turn.seat, *k, offer, told);
            }
        }
    }
}

/// Tells the offers of two seats, and the turns of the shards that are closed.
fn tell_seats<R: Wait>(
    rt: &R,
    alloc: Global,
    row: &Subscriber,
    line: &Messages,
    end: &DeviceEnd,
    told: &mut String,
) -> Result<(), Fail>
    requires number { row.now.number ≡ 1 }
    requires range { IsSubscriber row.now }
    requires line { IsLine line.now }
    requires short { IsShort line.now }
    requires end { end.now ≡ end_of row.now line.now }
{
    let (peers, seats) = opened(alloc, row, line)?;
    if let Some(shards) = shards_offered(rt, peers, seats, row, line, end, told) {
        tell_turns(&shards, told);
    }
    Ok(())
}

/// The same of the device that attaches.
fn tell_device<R: Wait>(
    rt: &R,
    alloc: Global,
    row: &Subscriber,
    told: &mut String,
) -> Result<(), Fail>
    requires number { row.now.number ≡ 1 }
    requires range { IsSubscriber row.now }
{
    let line = attach_line(alloc)?;
    let end = end_of(row, line.items())?;
    tell_seats(rt, alloc, row, &line, &end, told)
}

/// The same of the device of the row.
fn tell_row<R: Wait>(rt: &R, alloc: Global, told: &mut String) -> Result<(), Fail> {
    let row = read_row(alloc, ROW.as_bytes(), 1)?;
    tell_device(rt, alloc, &row, told)
}

#[test]
fn an_offer_is_accepted_once(rt: HostRuntime) -> Result<(), Fail> {
    let mut told = String::new(rt.alloc());
    tell_row(&rt, rt.alloc(), &mut told)?;
    assert_eq!(rt; told.as_str(), OFFERED);
    Ok(())
}
