//! A run of the top call with threads, told as a text, so that a test compares one text with another, once.

use echo_base::{Give, MemSink, MemSource, Status};
use std::alloc::{AllocError, Global};
use std::str;
use std::sync::Wait;
use std::test::Fail;
use std::thread::Threads;
use thread_run::threads_top;
use worker_pool::{Gate, Ran};

/// A case of one device that attaches: its row, and its six messages.
pub(crate) const ATTACH: &str = "\
[subscribers]
{\"imsi\":\"208930000000001\",\"tmsi\":1,\"rand\":\"000102030405060708090a0b0c0d0e0f\",\"autn\":\"101112131415161718191a1b1c1d1e1f\",\"res\":\"a0a1a2a3a4a5a6a7\",\"key\":\"1111111111111111111111111111111111111111111111111111111111111111\",\"apn\":\"internet\",\"ip\":\"0a2d0001\",\"sgw\":\"c0a80001\",\"teid\":1,\"ambr_dl\":1000000000,\"ambr_ul\":1000000000,\"forbidden\":[9]}
[trace]
1 000c403e000005000800020001001a00161507417108298039000000001002e0e000040201d011004300060002f8390001006440080002f839000000100086400130
1 000d4035000005000000020001000800020001001a000c0b075308a0a1a2a3a4a5a6a7006440080002f83900000010004340060002f8390001
1 000d4032000005000000020001000800020001001a000908470000000000075e006440080002f83900000010004340060002f8390001
1 200900220000030000400200010008400200010033400f000032400a0a1fc0a8000200000002
1 00164016000003000000020001000800020001004a4003020102
1 000d4037000005000000020001000800020001001a000e0d270000000001074300035200c2006440080002f83900000010004340060002f8390001
";

/// What becomes of it: it is authenticated, secured and accepted, and its bearer is made.
pub(crate) const ATTACHED: &str = "\
device 208930000000001 messages 6 steps 10
down 1 1 000b4038000003000000020001000800020001001a002524075200000102030405060708090a0b0c0d0e0f10101112131415161718191a1b1c1d1e1f
down 2 1 000b401b000003000000020001000800020001001a000807075d000002e0e0
down 3 1 00090080840000060000000200010008000200010042000a183b9aca00603b9aca00001800360000340031450009200f80c0a800010000000122074201e0060002f839000100155201c101090908696e7465726e657405010a2d0001006b000518000c0000004900201111111111111111111111111111111111111111111111111111111111111111
gateway 1 create
gateway 2 modify c0a80002 2
subscriber 1 vectors
subscriber 2 location
session connected link 1/1 area 02f839 1 bearer active radio 2
";

/// The words of a command line. A space parts them.
pub(crate) fn words_of(alloc: Global, line: &str) -> Result<Vec<String>, AllocError> {
    let mut words = Vec::new(alloc);
    for word in line.split_whitespace() {
        words.push(String::from_str(alloc, word)?)?;
    }
    Ok(words)
}

/// What was written, the line of a status but Done, and whether shards are left, put behind the text.
fn tell_end(
    told: &mut String,
    status: Status,
    held: &[u8],
    floor: &Option<Ran>,
) -> Result<(), Fail> {
    told.push_str(str::from_utf8(held)?)?;
    if status != Status::Done {
        writeln!(told, "{status}")?;
    }
    if let Some(ran) = floor {
        let (store, peers) = (ran.store.len(), ran.peers.len());
        writeln!(told, "{store} shards of the store, {peers} of the peers")?;
    }
    Ok(())
}

/// What a run of a command over a text comes to under a gate, with these plans, put behind the text that is told.
pub(crate) fn tell_run<R: Threads + Wait + Sync, G: Gate + Sync>(
    rt: &R,
    told: &mut String,
    alloc: Global,
    gate: &G,
    line: &str,
    text: &[u8],
    reads: &[Give],
    writes: &[Give],
) -> Result<(), Fail> {
    let words = words_of(alloc, line)?;
    let text = Vec::from_slice(alloc, text)?;
    let mut input = MemSource::new(text, Vec::from_slice(alloc, reads)?);
    let mut out = MemSink::new(alloc, 2_000_000, Vec::from_slice(alloc, writes)?)?;
    let mut floor = None;
    let status = threads_top(rt, alloc, &words, &mut input, &mut out, gate, &mut floor);
    tell_end(told, status, out.held(), &floor)
}
