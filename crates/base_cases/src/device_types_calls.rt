//! The copy of a value of every type, and the calls of the lists, as lines of text that the values print.
ghost use Rattle.std.specs.Prelude.{IfOk};
ghost use Rattle.device_types.specs.Line.{IsLine};

use device_types::{
    Accept, Answer, Areas, Bearer, Body, Book, CauseCode, DeviceEnd, Down, Effect, Entry, GwCall,
    Input, Key, Lane, Link, ListOf, Message, Messages, NasOut, Octets, Offer, Reply, Second,
    Session, ShortOctets, Side, Stage, Step, SubCall, Subscriber, TryCopy,
};
use std::alloc::{AllocError, Global};
use std::fmt::{Debug, Write};
use std::test::Fail;

const COPIES: &str = "\
ListOf { items: [7, 0, 255] }
ListOf { items: [9, 65535] }
Key { shared: None }
Key { shared: Some(ShortOctets { items: [17] }) }
CauseCode { group: 2, extended: false, index: 3 }
Subscriber { number: 1, imsi: 208930000000001, tmsi: 2, rand: ListOf { items: [1] }, autn: ListOf { items: [2] }, res: ListOf { items: [3] }, \
key: ListOf { items: [4] }, apn: ListOf { items: [97] }, ip: 5, sgw: 6, teid: 7, ambr_dl: 8, ambr_ul: 9, forbidden: ListOf { items: [10] }, apn2: Some(ListOf { items: [98] }), ip2: Some(11) }
AuthRequest { rand: ListOf { items: [1] }, autn: ListOf { items: [2] } }
AttachAccept { plmn: 1, tac: 2, pti: 3, apn: ListOf { items: [97] }, ip: 4 }
Message { number: 1, station: 2, enb: 3, body: Response { res: ListOf { items: [160, 161] } } }
Message { number: 2, station: 2, enb: 3, body: ReleaseAsked { cause: CauseCode { group: 0, extended: true, index: 63 } } }
Message { number: 3, station: 2, enb: 3, body: Data }
Answer { lane: Subscriber, k: 1, answer: Vectors(ListOf { items: [1] }, ListOf { items: [2] }, ListOf { items: [3] }, ListOf { items: [4] }) }
Created(1, 2, 3)
Accepted(Created(4, 5, 6))
Repeat(Modified)
Ahead(7)
Nas { station: 1, enb: 2, nas: SecurityCommand { eea: 224, eia: 192 } }
Setup { station: 1, enb: 2, dl: 3, ul: 4, sgw: 5, teid: 6, eea: 7, eia: 8, key: Key { shared: Some(ShortOctets { items: [17] }) }, accept: Yes { plmn: 9, tac: 10, pti: 11, ip: 12 } }
Release { station: 1, enb: 2, cause: CauseCode { group: 2, extended: false, index: 1 } }
Page { plmn: 1, tac: 2 }
Modify(1, 2)
Purge
Session { stage: Detached, link: Off, plmn: 0, tac: 0, eea: 0, eia: 0, pti: 0, res: ShortOctets { items: [] }, key: Key { shared: None }, \
dl: 0, ul: 0, sgw: 0, teid: 0, ip: 0, side_addr: 0, side_teid: 0, bearer: None, registered: false, off: false, \
cause: CauseCode { group: 0, extended: false, index: 0 }, radio: 0, \
second: None, pti2: 0, sgw2: 0, teid2: 0, ip2: 0, side2_addr: 0, side2_teid: 0 }
Session { stage: Connected, link: On { station: 1, enb: 2 }, plmn: 3, tac: 4, eea: 5, eia: 6, pti: 7, res: ShortOctets { items: [8] }, \
key: Key { shared: Some(ShortOctets { items: [9] }) }, dl: 10, ul: 11, sgw: 12, teid: 13, ip: 14, side_addr: 15, side_teid: 16, bearer: Active, \
registered: true, off: true, cause: CauseCode { group: 1, extended: false, index: 1 }, radio: 17, \
second: Radio, pti2: 18, sgw2: 19, teid2: 20, ip2: 21, side2_addr: 22, side2_teid: 23 }
Reply { number: 1, version: 2, downs: ListOf { items: [Gateway(Create)] } }
Step { session: Session { stage: Detached, link: Off, plmn: 0, tac: 0, eea: 0, eia: 0, pti: 0, res: ShortOctets { items: [] }, key: Key { shared: None }, \
dl: 0, ul: 0, sgw: 0, teid: 0, ip: 0, side_addr: 0, side_teid: 0, bearer: None, registered: false, off: false, \
cause: CauseCode { group: 0, extended: false, index: 0 }, radio: 0, \
second: None, pti2: 0, sgw2: 0, teid2: 0, ip2: 0, side2_addr: 0, side2_teid: 0 }, effects: ListOf { items: [Gateway(Create)] } }
Entry { input: Message(Message { number: 4, station: 2, enb: 3, body: Service }), step: Step { session: Session { stage: Detached, link: Off, plmn: 0, tac: 0, eea: 0, eia: 0, pti: 0, res: ShortOctets { items: [] }, key: Key { shared: None }, \
dl: 0, ul: 0, sgw: 0, teid: 0, ip: 0, side_addr: 0, side_teid: 0, bearer: None, registered: false, off: false, \
cause: CauseCode { group: 0, extended: false, index: 0 }, radio: 0, \
second: None, pti2: 0, sgw2: 0, teid2: 0, ip2: 0, side2_addr: 0, side2_teid: 0 }, effects: ListOf { items: [Gateway(Create)] } } }
Entry { input: Answer { lane: Gateway, k: 5, answer: Modified }, step: Step { session: Session { stage: Detached, link: Off, plmn: 0, tac: 0, eea: 0, eia: 0, pti: 0, res: ShortOctets { items: [] }, key: Key { shared: None }, \
dl: 0, ul: 0, sgw: 0, teid: 0, ip: 0, side_addr: 0, side_teid: 0, bearer: None, registered: false, off: false, \
cause: CauseCode { group: 0, extended: false, index: 0 }, radio: 0, \
second: None, pti2: 0, sgw2: 0, teid2: 0, ip2: 0, side2_addr: 0, side2_teid: 0 }, effects: ListOf { items: [Gateway(Create)] } } }
DeviceEnd { messages: 1, steps: 2, downs: ListOf { items: [Release { station: 1, enb: 2, cause: CauseCode { group: 2, extended: false, index: 1 } }] }, \
gateway: ListOf { items: [Modify(1, 2)] }, subscriber: ListOf { items: [Purge] }, session: Session { stage: Detached, link: Off, plmn: 0, tac: 0, eea: 0, eia: 0, pti: 0, res: ShortOctets { items: [] }, key: Key { shared: None }, \
dl: 0, ul: 0, sgw: 0, teid: 0, ip: 0, side_addr: 0, side_teid: 0, bearer: None, registered: false, off: false, \
cause: CauseCode { group: 0, extended: false, index: 0 }, radio: 0, \
second: None, pti2: 0, sgw2: 0, teid2: 0, ip2: 0, side2_addr: 0, side2_teid: 0 } }
";

const LISTS: &str = "\
3 [7, 7, 9]
3 [7, 7, 9]
3 [Create, Create, Modify(1, 2)]
3 [Vectors, Vectors, Purge]
3 [Gateway(Create), Gateway(Create), Subscriber(Purge)]
";

/// Adds a line with the copy of a value.
fn put<T: TryCopy + Debug>(text: &mut String, value: Result<T, AllocError>) -> Result<(), Fail> {
    let copy = copied(value?)?;
    writeln!(text, "{copy:?}")?;
    Ok(())
}

/// The copy of a value.
fn copied<T: TryCopy>(value: T) -> Result<T, AllocError> {
    value.copy()
}

/// A list of one value.
fn list<T: Drop>(alloc: Global, item: T) -> Result<ListOf<T>, AllocError> {
    let mut list = ListOf::new(alloc);
    list.push(item)?;
    Ok(list)
}

fn octets(alloc: Global, items: &[u8]) -> Result<Octets, AllocError> {
    Ok(Octets::from(Vec::from_slice(alloc, items)?))
}

fn areas(alloc: Global, items: &[u16]) -> Result<Areas, AllocError> {
    Ok(Areas::from(Vec::from_slice(alloc, items)?))
}

fn key(alloc: Global, octet: u8) -> Result<Key, AllocError> {
    Key::new(alloc, &[octet])
}

fn cause(group: u8, extended: bool, index: u8) -> CauseCode {
    CauseCode {
        group,
        extended,
        index,
    }
}

/// A row whose lists are empty yet.
fn row(alloc: Global) -> Subscriber {
    Subscriber {
        number: 1,
        imsi: 208_930_000_000_001,
        tmsi: 2,
        rand: Octets::new(alloc),
        autn: Octets::new(alloc),
        res: Octets::new(alloc),
        key: Octets::new(alloc),
        apn: Octets::new(alloc),
        ip: 5,
        sgw: 6,
        teid: 7,
        ambr_dl: 8,
        ambr_ul: 9,
        forbidden: Areas::new(alloc),
        apn2: None,
        ip2: Some(11),
    }
}

/// Puts a value into each list of a row.
fn fill(row: &mut Subscriber) -> Result<(), AllocError> {
    row.rand.push(1)?;
    row.autn.push(2)?;
    row.res.push(3)?;
    row.key.push(4)?;
    row.apn.push(97)?;
    row.forbidden.push(10)?;
    row.apn2 = Some(list(row.rand.alloc(), 98)?);
    Ok(())
}

fn subscriber(alloc: Global) -> Result<Subscriber, AllocError> {
    let mut row = row(alloc);
    fill(&mut row)?;
    Ok(row)
}

fn auth_request(alloc: Global) -> Result<NasOut, AllocError> {
    let rand = list(alloc, 1)?;
    let autn = list(alloc, 2)?;
    Ok(NasOut::AuthRequest { rand, autn })
}

fn attach_accept(alloc: Global) -> Result<NasOut, AllocError> {
    let apn = list(alloc, 97)?;
    Ok(NasOut::AttachAccept {
        plmn: 1,
        tac: 2,
        pti: 3,
        apn,
        ip: 4,
    })
}

fn message(number: u64, body: Body) -> Message {
    Message {
        number,
        station: 2,
        enb: 3,
        body,
    }
}

fn response(alloc: Global) -> Result<Message, AllocError> {
    let res = octets(alloc, &[0xa0, 0xa1])?;
    Ok(message(1, Body::Response { res }))
}

/// The vectors of the subscriber.
fn vectors(alloc: Global) -> Result<Input, AllocError> {
    let Subscriber {
        rand,
        autn,
        res,
        key,
        ..
    } = subscriber(alloc)?;
    Ok(Input::Answer {
        lane: Lane::Subscriber,
        k: 1,
        answer: Answer::Vectors(rand, autn, res, key),
    })
}

fn accept() -> Accept {
    Accept::Yes {
        plmn: 9,
        tac: 10,
        pti: 11,
        ip: 12,
    }
}

fn setup(alloc: Global) -> Result<Down, AllocError> {
    let key = key(alloc, 17)?;
    Ok(Down::Setup {
        station: 1,
        enb: 2,
        dl: 3,
        ul: 4,
        sgw: 5,
        teid: 6,
        eea: 7,
        eia: 8,
        key,
        accept: accept(),
    })
}

fn release() -> Down {
    Down::Release {
        station: 1,
        enb: 2,
        cause: cause(2, false, 1),
    }
}

fn connected(alloc: Global) -> Result<Session, AllocError> {
    let res = ShortOctets::from_slice(alloc, &[8])?;
    let key = key(alloc, 9)?;
    Ok(Session {
        stage: Stage::Connected,
        link: Link::On { station: 1, enb: 2 },
        plmn: 3,
        tac: 4,
        eea: 5,
        eia: 6,
        pti: 7,
        res,
        key,
        dl: 10,
        ul: 11,
        sgw: 12,
        teid: 13,
        ip: 14,
        side_addr: 15,
        side_teid: 16,
        bearer: Bearer::Active,
        registered: true,
        off: true,
        cause: cause(1, false, 1),
        radio: 17,
        second: Second::Radio,
        pti2: 18,
        sgw2: 19,
        teid2: 20,
        ip2: 21,
        side2_addr: 22,
        side2_teid: 23,
    })
}

fn reply(alloc: Global) -> Result<Reply, AllocError> {
    let downs = list(alloc, Effect::Gateway(GwCall::Create))?;
    Ok(Reply {
        number: 1,
        version: 2,
        downs,
    })
}

fn step(alloc: Global) -> Result<Step, AllocError> {
    let effects = list(alloc, Effect::Gateway(GwCall::Create))?;
    let session = Session::opening(alloc);
    Step::new(session, effects)
}

fn entry(alloc: Global, input: Input) -> Result<Entry, AllocError> {
    let step = step(alloc)?;
    Entry::new(alloc, input, step)
}

/// The answer to a call of the gateway.
fn modified() -> Input {
    Input::Answer {
        lane: Lane::Gateway,
        k: 5,
        answer: Answer::Modified,
    }
}

fn end(alloc: Global) -> Result<DeviceEnd, AllocError> {
    let downs = list(alloc, release())?;
    let gateway = list(alloc, GwCall::Modify(1, 2))?;
    let subscriber = list(alloc, SubCall::Purge)?;
    let session = Session::opening(alloc);
    Ok(DeviceEnd {
        messages: 1,
        steps: 2,
        downs,
        gateway,
        subscriber,
        session,
    })
}

/// The copies of the values that a device is made of, and of what comes in.
fn put_inputs(alloc: Global, text: &mut String) -> Result<(), Fail> {
    put(text, octets(alloc, &[7, 0, 255]))?;
    put(text, areas(alloc, &[9, 65535]))?;
    put(text, Ok(Key::zeros()))?;
    put(text, key(alloc, 17))?;
    put(text, Ok(cause(2, false, 3)))?;
    put(text, subscriber(alloc))?;
    put(text, auth_request(alloc))?;
    put(text, attach_accept(alloc))?;
    put(text, response(alloc))?;
    let cause = cause(0, true, 63);
    put(text, Ok(message(2, Body::ReleaseAsked { cause })))?;
    put(text, Ok(message(3, Body::Data)))?;
    put(text, vectors(alloc))?;
    put(text, Ok(Answer::Created(1, 2, 3)))?;
    put(text, Ok(Offer::Accepted(Answer::Created(4, 5, 6))))?;
    put(text, Ok(Offer::Repeat(Answer::Modified)))?;
    put(text, Ok(Offer::Ahead(7)))
}

/// The copies of what goes out, and of what is kept of steps.
fn put_effects(alloc: Global, text: &mut String) -> Result<(), Fail> {
    let (station, enb) = (1, 2);
    let nas = NasOut::SecurityCommand { eea: 224, eia: 192 };
    put(text, Ok(Down::Nas { station, enb, nas }))?;
    put(text, setup(alloc))?;
    put(text, Ok(release()))?;
    put(text, Ok(Down::Page { plmn: 1, tac: 2 }))?;
    put(text, Ok(GwCall::Modify(1, 2)))?;
    put(text, Ok(SubCall::Purge))?;
    put(text, Ok(Session::opening(alloc)))?;
    put(text, connected(alloc))?;
    put(text, reply(alloc))?;
    put(text, step(alloc))?;
    put(
        text,
        entry(alloc, Input::Message(message(4, Body::Service))),
    )?;
    put(text, entry(alloc, modified()))?;
    put(text, end(alloc))
}

/// What comes and goes for a second connection.
const SECOND: &str = "\
Message { number: 5, station: 2, enb: 3, body: ContextDone { addr: 6, teid: 7, second: None } }
Message { number: 8, station: 2, enb: 3, body: ContextDone { addr: 9, teid: 10, second: Some(Side { addr: 11, teid: 12 }) } }
Message { number: 13, station: 2, enb: 3, body: PdnRequest { pti: 14 } }
Message { number: 15, station: 2, enb: 3, body: PdnAccept }
Message { number: 16, station: 2, enb: 3, body: SecondDone { addr: 17, teid: 18 } }
Message { number: 19, station: 2, enb: 3, body: SecondRefused }
PdnReject { pti: 20, cause: 27 }
Activate { pti: 21, apn: ListOf { items: [98] }, ip: 22 }
Erab { station: 23, enb: 24, sgw: 25, teid: 26, pti: 27, ip: 28 }
SetupTwo { station: 29, enb: 30, dl: 31, ul: 32, sgw: 33, teid: 34, eea: 35, eia: 36, key: Key { shared: Some(ShortOctets { items: [37] }) }, sgw2: 38, teid2: 39 }
SecondCreate
SecondModify(40, 41)
SecondCreated(42, 43, 44)
SecondModified
";

fn context_done(addr: u32, teid: u32, second: Option<Side>) -> Body {
    Body::ContextDone { addr, teid, second }
}

fn second_done(addr: u32, teid: u32) -> Body {
    Body::SecondDone { addr, teid }
}

/// The copies of the messages of a device for a second connection.
fn put_second_messages(text: &mut String) -> Result<(), Fail> {
    put(text, Ok(message(5, context_done(6, 7, None))))?;
    let second = Side { addr: 11, teid: 12 };
    put(text, Ok(message(8, context_done(9, 10, Some(second)))))?;
    put(text, Ok(message(13, Body::PdnRequest { pti: 14 })))?;
    put(text, Ok(message(15, Body::PdnAccept)))?;
    put(text, Ok(message(16, second_done(17, 18))))?;
    put(text, Ok(message(19, Body::SecondRefused)))
}

fn setup_two(alloc: Global) -> Result<Down, AllocError> {
    let key = key(alloc, 37)?;
    Ok(Down::SetupTwo {
        station: 29,
        enb: 30,
        dl: 31,
        ul: 32,
        sgw: 33,
        teid: 34,
        eea: 35,
        eia: 36,
        key,
        sgw2: 38,
        teid2: 39,
    })
}

fn erab() -> Down {
    Down::Erab {
        station: 23,
        enb: 24,
        sgw: 25,
        teid: 26,
        pti: 27,
        ip: 28,
    }
}

fn activate(alloc: Global) -> Result<NasOut, AllocError> {
    let apn = list(alloc, 98)?;
    Ok(NasOut::Activate {
        pti: 21,
        apn,
        ip: 22,
    })
}

/// The copies of what goes out for a second connection, and of the answers to its calls.
fn put_second_effects(alloc: Global, text: &mut String) -> Result<(), Fail> {
    put(text, Ok(NasOut::PdnReject { pti: 20, cause: 27 }))?;
    put(text, activate(alloc))?;
    put(text, Ok(erab()))?;
    put(text, setup_two(alloc))?;
    put(text, Ok(GwCall::SecondCreate))?;
    put(text, Ok(GwCall::SecondModify(40, 41)))?;
    put(text, Ok(Answer::SecondCreated(42, 43, 44)))?;
    put(text, Ok(Answer::SecondModified))
}

#[test]
fn copies_of_a_second_connection_are_equal(rt: HostRuntime) -> Result<(), Fail> {
    let alloc = rt.alloc();
    let mut text = String::new(alloc);
    put_second_messages(&mut text)?;
    put_second_effects(alloc, &mut text)?;
    assert_eq!(rt; text.as_str(), SECOND);
    Ok(())
}

#[test]
fn copies_are_equal(rt: HostRuntime) -> Result<(), Fail> {
    let alloc = rt.alloc();
    let mut text = String::new(alloc);
    put_inputs(alloc, &mut text)?;
    put_effects(alloc, &mut text)?;
    assert_eq!(rt; text.as_str(), COPIES);
    Ok(())
}

/// Puts the copy of a list behind it.
fn double<T: TryCopy>(list: &mut ListOf<T>) -> Result<(), AllocError> {
    let copy = list.copy()?;
    list.append(copy)
}

/// A list of the first value twice and the second.
fn doubled<T: TryCopy>(alloc: Global, first: T, second: T) -> Result<ListOf<T>, AllocError> {
    let mut list = list(alloc, first)?;
    double(&mut list)?;
    list.push(second)?;
    Ok(list)
}

/// Adds a line with the count of a list, and its values.
fn put_list<T: Debug + Drop>(text: &mut String, list: ListOf<T>) -> Result<(), Fail> {
    let count = list.items().len();
    let items = list.into_items();
    writeln!(text, "{count} {items:?}")?;
    Ok(())
}

/// Adds a line with a list of the first value twice and the second.
fn put_doubled<T: TryCopy + Debug>(
    text: &mut String,
    alloc: Global,
    first: T,
    second: T,
) -> Result<(), Fail> {
    put_list(text, doubled(alloc, first, second)?)
}

#[test]
fn lists_keep_their_items(rt: HostRuntime) -> Result<(), Fail> {
    let alloc = rt.alloc();
    let mut text = String::new(alloc);
    put_doubled(&mut text, alloc, 7u8, 9)?;
    put_doubled(&mut text, alloc, 7u16, 9)?;
    put_doubled(&mut text, alloc, GwCall::Create, GwCall::Modify(1, 2))?;
    put_doubled(&mut text, alloc, SubCall::Vectors, SubCall::Purge)?;
    let first = Effect::Gateway(GwCall::Create);
    let second = Effect::Subscriber(SubCall::Purge);
    put_doubled(&mut text, alloc, first, second)?;
    assert_eq!(rt; text.as_str(), LISTS);
    Ok(())
}

#[test]
fn octets_are_lent(rt: HostRuntime) -> Result<(), Fail> {
    let alloc = rt.alloc();
    let octets = octets(alloc, &[3, 2])?;
    assert_eq!(rt; octets.octets(), [3, 2].as_slice());
    assert_eq!(rt; Key::zeros().octets().len(), 32);
    Ok(())
}

/// A line of one message.
fn line(alloc: Global) -> Result<Messages, AllocError>
    ensures { IfOk result IsLine }
{
    let mut line = Messages::new(alloc);
    line.push(Message {
        number: 1,
        station: 2,
        enb: 3,
        body: Body::Service,
    })?;
    Ok(line)
}

#[test]
fn book_keeps_its_lines(rt: HostRuntime) -> Result<(), Fail> {
    let alloc = rt.alloc();
    let mut book = Book::new(alloc);
    book.push(line(alloc)?)?;
    let copy = book.copy()?;
    book.append(copy)?;
    let count = book.items().len();
    let lines = book.into_items();
    let text = format!(in alloc; "{count} {lines:?}")?;
    assert_eq!(rt;
        text.as_str(),
        "2 [ListOf { items: [Message { number: 1, station: 2, enb: 3, body: Service }] }, \
ListOf { items: [Message { number: 1, station: 2, enb: 3, body: Service }] }]"
    );
    Ok(())
}
