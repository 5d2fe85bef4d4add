//! The reader of captures.
ghost use Rattle.std.specs.Prelude.{◌≡◌, ◌≤◌, ◌+◌, ◌^◌, ◌++◌, [], take, drop, length, None, IsTrue, IfOk, IfErr, IfSome, OnOk, OnErr};
ghost use Rattle.pfr_capture.specs.Ahead.{CameBehind};
ghost use Rattle.pfr_capture.specs.Header.{form_of, is_known_link, link_of, magic_of, resolution_of, version_of};
ghost use Rattle.pfr_capture.specs.Reading.{Answers, EndsReading, FieldsOf, Gave, LacksRecord, NextFails, OpenFails, Opens, ReadsOn, Refuses, RefusesHeader, StopsEarly, answer_again, given_by, tail_of};
ghost use Rattle.pfr_capture.specs.Stepping.{IsHeaderFault, IsWhole, LookEnds, LookSays, StepSays, StepEnds, StepLacks, StepRefuses, Takes, taken_by};

use crate::capture::{CaptureError, Form, Record, Resolution, Tail};
use crate::device::Source;
use crate::order::ByteOrder;
use crate::pieces::Pieces;
use crate::stock::Stock;
use std::alloc::{AllocError, Global};
use std::marker::Model;

/// The bytes of a capture's header, and of a record's.
const HEADER: usize = 24;

const RECORD_HEADER: usize = 16;

/// The most records of a capture, and the most captured bytes of a record.
const MOST_RECORDS: u64 = 1 << 40;

const MOST_CAPTURED: u32 = 262144;

/// What a look at the bytes ahead finds: the header of a next record, with its captured length, or an end.
#[derive(Clone, Copy)]
enum Look {
    Captured(usize),
    End(Tail),
}

/// What stands next in a capture.
#[derive(Drop)]
enum Step {
    Found(Record),
    Ended(Tail),
}

/// Reads the records of a capture, one after the other. It asks its source for pieces of at most 65536
/// bytes, and only if it lacks bytes of the next record.
#[derive(Drop)]
pub struct Capture {
    form: Form,
    header: [u8; 24],
    count: u64,
    over: Option<Result<Tail, CaptureError>>,
    ahead: Pieces,
    stock: Stock,
}

impl Model for Capture {
    ghost use Rattle.std.specs.Prelude.{◌≤◌, ◌^◌};
    ghost use Rattle.pfr_capture.specs.Reading.{Reading};

    ghost Value = { Reading };

    ghost view = { λ c. record { form = c.form; header = c.header; count = c.count; over = c.over; ahead = c.ahead } };

    ghost invariant = { λ c. c.count ≤ 2 ^ 40 };
}

impl Capture {
    /// Reads the 24 bytes of a capture's header. It is refused with the first that holds: fewer bytes, a
    /// wrong magic number, a wrong version, a link type that isn't read.
    pub fn open<S: Source>(alloc: Global, source: &mut S) -> Result<Capture, CaptureError>
        ensures told { S.told source.new ≡ S.told source.old }
        ensures opens { IfOk result (λ capture. IsTrue (S.told source.old) → Opens (S.unread source.old) (S.unread source.new) capture) }
        ensures starts { IfOk result (λ capture. (capture.over ≡ None) × (capture.count ≡ 0)) }
        ensures ok { OnOk result (S.failures source.new ≡ S.failures source.old) }
        ensures read { OnErr result (IsTrue (S.told source.old) → Gave (S.unread source.old) (S.unread source.new)) }
        ensures early { IfErr result (λ e. IsTrue (S.told source.old) → StopsEarly (S.unread source.old) (S.unread source.new) e) }
        ensures refused { IfErr result (λ e. IsTrue (S.told source.old) → RefusesHeader (S.unread source.old) e) }
        ensures failed { IfErr result (λ e. OpenFails e (S.failures source.old) (S.failures source.new)) }
    {
        let mut ahead = Pieces::new(alloc);
        if !ahead.fill(source, HEADER)? {
            return Err(CaptureError::HeaderCut);
        }
        let header = header_at(ahead.bytes());
        let form = read_form(&header)?;
        ahead.take(HEADER);
        Ok(Capture {
            form,
            header,
            count: 0,
            over: None,
            ahead,
            stock: Stock::new(alloc),
        })
    }

    /// The next record, or None after the last. `tail` then says how the capture ends. An answer of None
    /// and a refusal are for good: each further call gives the same, and reads nothing.
    pub fn next<S: Source>(&mut self, source: &mut S) -> Result<Option<Record>, CaptureError>
        ensures told { S.told source.new ≡ S.told source.old }
        ensures same { (self.new.form ≡ self.old.form) × (self.new.header ≡ self.old.header) }

        // Once reading is over.
        ensures again { IfSome self.old.over (λ over. (result ≡ answer_again over) × (self.new ≡ self.old) × (source.new ≡ source.old)) }

        // Until then. What was given, followed by the rest, is always what the source had.
        ensures answers { self.old.over ≡ None → Answers self.old self.new result }
        ensures reads_on { self.old.over ≡ None → IsTrue (S.told source.old) → ReadsOn self.old self.new (S.unread source.old) (S.unread source.new) (given_by result) }
        ensures end { self.old.over ≡ None → IsTrue (S.told source.old) → IfOk result (λ found. EndsReading self.old self.new (S.unread source.old) found) }
        ensures refused { self.old.over ≡ None → IsTrue (S.told source.old) → IfErr result (Refuses self.old (S.unread source.old)) }
        ensures lacks { self.old.over ≡ None → IfErr result (LacksRecord self.new) }
        ensures ok { self.old.over ≡ None → OnOk result (S.failures source.new ≡ S.failures source.old) }
        ensures failed { self.old.over ≡ None → IfErr result (λ e. NextFails e (S.failures source.old) (S.failures source.new)) }
    {
        if let Some(over) = self.over {
            return match over {
                Ok(_) => Ok(None),
                Err(e) => Err(e),
            };
        }
        match find_next(
            self.form,
            self.count,
            &mut self.ahead,
            &mut self.stock,
            source,
        ) {
            Ok(Step::Found(record)) => {
                self.count += 1;
                Ok(Some(record))
            }
            Ok(Step::Ended(tail)) => {
                self.over = Some(Ok(tail));
                Ok(None)
            }
            Err(e) => {
                self.over = Some(Err(e));
                Err(e)
            }
        }
    }

    /// Whether reading the next `bytes` bytes may have to wait for the source. Nothing depends on it: the source may
    /// have more by now, or have ended.
    pub fn may_wait(&self, bytes: usize) -> bool {
        self.ahead.may_lack(bytes)
    }

    /// How many bytes its records so far have taken with their headers, modulo 2^64.
    pub fn taken(&self) -> usize {
        self.ahead.taken()
    }

    /// Takes back a record that isn't needed any more. Its buffer may serve for a later record.
    pub fn give_back(&mut self, packet: Record)
        ensures { self.new ≡ self.old }
    {
        self.stock.keep(packet.bytes);
    }

    /// How the capture ends, once `next` has answered None; until then Clean, as for the records given.
    pub fn tail(&self) -> Tail
        ensures { result ≡ tail_of self.now.over }
    {
        match self.over {
            Some(Ok(tail)) => tail,
            _ => Tail::Clean,
        }
    }

    /// The 24 bytes of the capture's header, as they were read.
    pub fn header(&self) -> [u8; 24]
        ensures { result ≡ self.now.header }
    {
        self.header
    }

    /// What the header says.
    pub fn form(&self) -> Form
        ensures { result ≡ self.now.form }
    {
        self.form
    }
}

/// What a magic number says of the fractions.
fn resolution(magic: u32) -> Option<Resolution>
    ensures { result ≡ resolution_of magic }
{
    match magic {
        0xa1b2_c3d4 => Some(Resolution::Microseconds),
        0xa1b2_3c4d => Some(Resolution::Nanoseconds),
        _ => None,
    }
}

/// The byte order in which the magic number reads right, and what it says.
#[tactic(auto, unfolding(crate::specs::Header::magic_of))]
fn magic(header: &[u8]) -> Option<(ByteOrder, Resolution)>
    requires { 4 ≤ length header.now }
    ensures { result ≡ magic_of header.now }
{
    if let Some(resolution) = resolution(ByteOrder::Big.read_u32(header)) {
        return Some((ByteOrder::Big, resolution));
    }
    match resolution(ByteOrder::Little.read_u32(header)) {
        Some(resolution) => Some((ByteOrder::Little, resolution)),
        None => None,
    }
}

/// The first 24 bytes.
fn header_at(bytes: &[u8]) -> [u8; HEADER]
    requires { 24 ≤ length bytes.now }
    ensures { result ≡ take 24 bytes.now }
{
    let mut header = [0; HEADER];
    header.copy_from_slice(&bytes[..HEADER]);
    header
}

/// What a header says.
#[tactic(auto, unfolding(crate::specs::Header::form_of))]
fn read_form(header: &[u8; HEADER]) -> Result<Form, CaptureError>
    ensures form { result ≡ form_of header.now }
    ensures faults { IfErr result IsHeaderFault }
{
    let Some((order, resolution)) = magic(header) else {
        return Err(CaptureError::BadMagic);
    };
    if version(order, header) != 2 {
        return Err(CaptureError::BadVersion);
    }
    let link = link(order, header);
    if !is_known_link(link) {
        return Err(CaptureError::LinkType(link));
    }
    Ok(Form {
        order,
        resolution,
        link,
    })
}

/// The major version.
#[tactic(auto, unfolding(crate::specs::Header::version_of))]
fn version(order: ByteOrder, header: &[u8; HEADER]) -> u16
    ensures { result ≡ version_of order header.now }
{
    order.read_u16(&header[4..])
}

/// The link type.
#[tactic(auto, unfolding(crate::specs::Header::link_of))]
fn link(order: ByteOrder, header: &[u8; HEADER]) -> u16
    ensures { result ≡ link_of order header.now }
{
    (order.read_u32(&header[20..]) % 65536) as u16
}

/// Whether a link type is one of those that are read: BSD loopback, Ethernet and raw IP.
#[tactic(auto, unfolding(crate::specs::Header::is_known_link))]
fn is_known_link(link: u16) -> bool
    ensures { result ≡ is_known_link link }
{
    link == 0 || link == 1 || link == 101
}

/// Reads on until the header of the next record is there.
fn look_for_header<S: Source>(
    order: ByteOrder,
    count: u64,
    ahead: &mut Pieces,
    source: &mut S,
) -> Result<Look, CaptureError>
    requires { count ≤ 2 ^ 40 }
    ensures told { S.told source.new ≡ S.told source.old }
    ensures came { IsTrue (S.told source.old) → CameBehind ahead.old ahead.new (S.unread source.old) (S.unread source.new) }
    ensures says { IfOk result (LookSays order count ahead.new) }
    ensures ends { IsTrue (S.told source.old) → IfOk result (LookEnds order count (ahead.old ++ S.unread source.old)) }
    ensures ok { OnOk result (S.failures source.new ≡ S.failures source.old) }
    ensures refused { IsTrue (S.told source.old) → IfErr result (StepRefuses order count (ahead.old ++ S.unread source.old)) }
    ensures lacks { IfErr result (StepLacks order count ahead.new) }
    ensures failed { IfErr result (λ e. NextFails e (S.failures source.old) (S.failures source.new)) }
{
    if !ahead.fill(source, RECORD_HEADER)? {
        if ahead.bytes().is_empty() {
            return Ok(Look::End(Tail::Clean));
        }
        return Ok(Look::End(Tail::Cut));
    }
    if count == MOST_RECORDS {
        return Ok(Look::End(Tail::Cut));
    }
    let captured = order.read_u32(&ahead.bytes()[8..]);
    if captured > MOST_CAPTURED {
        return Err(CaptureError::RecordTooLong(captured));
    }
    Ok(Look::Captured(captured as usize))
}

/// Reads on until the whole next record is there.
fn look_for_record<S: Source>(
    order: ByteOrder,
    count: u64,
    ahead: &mut Pieces,
    source: &mut S,
) -> Result<Look, CaptureError>
    requires { count ≤ 2 ^ 40 }
    ensures told { S.told source.new ≡ S.told source.old }
    ensures came { IsTrue (S.told source.old) → CameBehind ahead.old ahead.new (S.unread source.old) (S.unread source.new) }
    ensures says { IfOk result (LookSays order count ahead.new) }
    ensures whole { IfOk result (IsWhole ahead.new) }
    ensures ends { IsTrue (S.told source.old) → IfOk result (LookEnds order count (ahead.old ++ S.unread source.old)) }
    ensures ok { OnOk result (S.failures source.new ≡ S.failures source.old) }
    ensures refused { IsTrue (S.told source.old) → IfErr result (StepRefuses order count (ahead.old ++ S.unread source.old)) }
    ensures lacks { IfErr result (StepLacks order count ahead.new) }
    ensures failed { IfErr result (λ e. NextFails e (S.failures source.old) (S.failures source.new)) }
{
    match look_for_header(order, count, ahead, source)? {
        Look::End(tail) => Ok(Look::End(tail)),
        Look::Captured(captured) => {
            if !ahead.fill(source, RECORD_HEADER + captured)? {
                return Ok(Look::End(Tail::Cut));
            }
            Ok(Look::Captured(captured))
        }
    }
}

/// What stands next: a record, which is taken from the bytes ahead, or an end. Nothing else is taken.
#[tactic(auto, using(crate::proofs::ReadingLemmas::taken_record))]
fn find_next<S: Source>(
    form: Form,
    count: u64,
    ahead: &mut Pieces,
    stock: &mut Stock,
    source: &mut S,
) -> Result<Step, CaptureError>
    requires { count ≤ 2 ^ 40 }
    ensures told { S.told source.new ≡ S.told source.old }
    ensures says { IfOk result (StepSays form count) }
    ensures takes { IsTrue (S.told source.old) → Takes ahead.old ahead.new (S.unread source.old) (S.unread source.new) (taken_by result) }
    ensures ends { IsTrue (S.told source.old) → IfOk result (StepEnds form.order count (ahead.old ++ S.unread source.old)) }
    ensures ok { OnOk result (S.failures source.new ≡ S.failures source.old) }
    ensures refused { IsTrue (S.told source.old) → IfErr result (StepRefuses form.order count (ahead.old ++ S.unread source.old)) }
    ensures lacks { IfErr result (StepLacks form.order count ahead.new) }
    ensures failed { IfErr result (λ e. NextFails e (S.failures source.old) (S.failures source.new)) }
{
    match look_for_record(form.order, count, ahead, source)? {
        Look::End(tail) => Ok(Step::Ended(tail)),
        Look::Captured(captured) => {
            let record = record_at(form, ahead.bytes(), captured, stock.take())?;
            ahead.take(RECORD_HEADER + captured);
            Ok(Step::Found(record))
        }
    }
}

/// The record at the front of the bytes. Its `captured` captured bytes go into `buffer`, which is empty.
fn record_at(
    form: Form,
    bytes: &[u8],
    captured: usize,
    mut buffer: Vec<u8>,
) -> Result<Record, AllocError>
    requires bytes { 16 + captured ≤ length bytes.now }
    requires buffer { buffer.items ≡ [] }
    ensures header { IfOk result (λ r. r.header ≡ take 16 bytes.now) }
    ensures bytes { IfOk result (λ r. r.bytes.items ≡ take captured (drop 16 bytes.now)) }
    ensures fields { IfOk result (FieldsOf form) }
{
    let (front, rest) = bytes.split_at(RECORD_HEADER);
    let mut header = [0; RECORD_HEADER];
    header.copy_from_slice(front);
    buffer.extend_from_slice(&rest[..captured])?;
    Ok(Record {
        place: 0,
        link: form.link,
        seconds: form.order.read_u32(front),
        fraction: form.order.read_u32(&front[4..]),
        header,
        bytes: buffer,
    })
}
