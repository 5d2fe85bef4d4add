//! What runs are given.
ghost use Rattle.std.specs.Prelude.{◌≤◌, IfOk};
ghost use Rattle.pfr_commit.specs.Books.{StandsAt, job_of};
ghost use Rattle.pfr_commit.specs.World.{opening};

use pfr_capture::{Mem, Record, Source};
use pfr_commit::Book;
use pfr_net::{IfName, Ipv4Address, Net};
use pfr_out::{Form, Gate, PacketSinks, Report, Settings, Sinks, Sources, Stop, replay};
use pfr_packet::Job;
use pfr_ruleset::Interface;
use std::alloc::{AllocError, AllocGlobal, Global};
use std::sync::{Arc, Wait};
use std::thread::Threads;

/// The networks whose packets go out.
static INSIDE: [Net; 1] = [Net {
    address: Ipv4Address(0x0a00_0000),
    bits: 8,
}];

/// The header of a capture of raw IP packets.
const HEADER: [u8; 24] = [
    0xd4, 0xc3, 0xb2, 0xa1, 2, 0, 4, 0, 0, 0, 0, 0, 0, 0, 0, 0, 0, 0, 4, 0, 101, 0, 0, 0,
];

/// A record of a datagram from 10.0.0.5:1000 to 198.51.100.7:53, without the second at which it was captured.
const RECORD: [u8; 40] = [
    0, 0, 0, 0, 28, 0, 0, 0, 28, 0, 0, 0, //
    0x45, 0, 0, 28, 0, 1, 0, 0, 0x40, 17, 0x46, 0x91, 10, 0, 0, 5, 198, 51, 100, 7, //
    3, 0xe8, 0, 53, 0, 8, 0xc7, 0x81,
];

/// A capture of `packets` such datagrams, the first one at `second`. Each other one is a second earlier than the one before it,
/// or of second 0 too, so the clock stands still.
pub(crate) fn capture(alloc: Global, packets: u32, second: u32) -> Result<Mem, AllocError> {
    let mut bytes = Vec::from_slice(alloc, &HEADER)?;
    for packet in 0..packets {
        bytes.extend_from_slice(&second.saturating_sub(packet).to_le_bytes())?;
        bytes.extend_from_slice(&RECORD)?;
    }
    Ok(Mem::new(bytes))
}

/// A datagram from a port of 10.0.0.5 to 198.51.100.7:53.
fn datagram(alloc: Global, port: u16, seconds: u32) -> Result<Record, AllocError> {
    let mut bytes = Vec::with_capacity(alloc, 28)?;
    bytes.extend_from_slice(&[0x45, 0, 0, 28, 0, 1, 0, 0, 0x40, 17, 0x46, 0x91])?;
    bytes.extend_from_slice(&[10, 0, 0, 5, 198, 51, 100, 7])?;
    bytes.extend_from_slice(&port.to_be_bytes())?;
    bytes.extend_from_slice(&[0, 53, 0, 8, 0, 0])?;
    Ok(Record {
        place: 0,
        link: 101,
        seconds,
        fraction: 0,
        header: [0; 16],
        bytes,
    })
}

/// A datagram from each of some ports, with its second.
pub(crate) fn datagrams(alloc: Global, packets: &[(u16, u32)]) -> Result<Vec<Record>, AllocError> {
    let mut records = Vec::new(alloc);
    for (port, seconds) in packets {
        records.push(datagram(alloc, *port, *seconds)?)?;
    }
    Ok(records)
}

/// The interfaces of all runs.
fn interfaces() -> [Interface; 1] {
    [Interface {
        name: IfName::new(b"em0"),
        address: Ipv4Address(0xc000_0201),
        bits: 24,
    }]
}

/// The job of these rules on them.
fn job(alloc: Global, rules: &[u8]) -> Result<Job, AllocError> {
    Job::new(alloc, rules, &interfaces(), &INSIDE, [0; 32]).map_err(|_| AllocError)
}

/// A book that has taken no packet of the job of these rules.
pub(crate) fn book(alloc: Global, rules: &[u8]) -> Result<Book, AllocError>
    ensures { IfOk result (λ book. StandsAt book (opening (job_of book))) }
{
    Book::new(alloc, Arc::new(alloc, job(alloc, rules)?)?)
}

/// The sink of the packets of a run of one capture.
fn only_sink<S: Drop>(alloc: Global, sink: S) -> Result<PacketSinks<S>, AllocError> {
    let mut sinks = Vec::new(alloc);
    sinks.push(sink)?;
    Ok(PacketSinks::new(sinks))
}

/// Outputs in memory, with this device for the verdicts.
fn sinks(alloc: Global, verdicts: Mem) -> Result<Sinks<Mem>, AllocError> {
    Ok(Sinks {
        verdicts,
        packets: only_sink(alloc, Mem::new(Vec::new(alloc)))?,
        counters: Mem::new(Vec::new(alloc)),
        states: Mem::new(Vec::new(alloc)),
        messages: Mem::new(Vec::new(alloc)),
    })
}

/// Replays a capture by these rules, `batch` packets at a time and with `workers` workers. Its outputs are in memory, and this device
/// is that of the verdicts. It gives its source back.
pub(crate) fn replay_into<R: AllocGlobal + Threads + Wait + Sync, S: Source + Drop, G: Gate>(
    rt: &R,
    source: S,
    rules: &[u8],
    batch: usize,
    workers: u64,
    form: Form,
    verdicts: Mem,
    gate: &G,
) -> Result<(Result<Report, Stop>, S), AllocError>
    requires batch { (1 ≤ batch) × (batch ≤ 4096) }
    requires workers { workers ≤ 64 }
{
    let mut sources = Vec::new(rt.alloc());
    sources.push(source)?;
    let mut outputs = sinks(rt.alloc(), verdicts)?;
    let mut sources = Sources::new(sources);
    let interfaces = interfaces();
    let settings = Settings {
        interfaces: &interfaces,
        inside: &INSIDE,
        batch,
        workers,
        form,
    };
    let end = replay(
        rt,
        &mut sources,
        rules,
        [0; 32],
        &settings,
        &mut outputs,
        gate,
    );
    drop(outputs);
    match sources.into_vec().pop() {
        Some(source) => Ok((end, source)),
        None => Err(AllocError),
    }
}
