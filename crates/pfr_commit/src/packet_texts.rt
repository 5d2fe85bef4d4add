//! The records that packets add to the outputs of their interfaces.
ghost use Rattle.std.specs.Prelude.{◌≡◌, ◌<◌, ◌≤◌, ◌+◌, [], ◌++◌, length, take, drop, IfSome, OnOk, OnErr};
ghost use Rattle.pfr_headers.specs.declared.packet.View.TheVariants.{Ipv4};
ghost use Rattle.pfr_headers.specs.View.{view_of};
ghost use Rattle.pfr_commit.specs.Emissions.{AddsRecord, cut_at, packets_of, record_text};
ghost use Rattle.pfr_commit.specs.World as spec;

use pfr_capture::Record;
use pfr_headers::{Change, rewrite};
use pfr_packet::Outcome;
use std::alloc::{AllocError, Global};

/// The records that are written, one text for each interface, by place. There is a text for each place at which a
/// record was put, and for each place before it.
#[derive(Drop)]
pub struct PacketTexts {
    alloc: Global,
    pub(crate) texts: Vec<Vec<u8>>,
}

/// The length of a record's header, in bytes.
const HEADER: usize = 16;

/// Writes a change into the packet of the record that begins at byte `start`.
fn write_into(packets: &mut Vec<u8>, start: usize, link: u16, change: &Option<Change>)
    requires room { start + 16 ≤ length packets.old.items }
    requires change { IfSome change.now (λ change. view_of link (drop (start + 16) packets.old.items) ≡ Ipv4 change.packet) }
    ensures { packets.new.items ≡ take (start + 16) packets.old.items ++ spec.with_bytes link change.now (drop (start + 16) packets.old.items) }
{
    if let Some(change) = change {
        rewrite(&mut packets[start + HEADER..], link, change);
    }
}

/// Appends a record, with what is written into its packet. If memory is refused nothing changes.
fn put_record(
    packets: &mut Vec<u8>,
    packet: &Record,
    change: &Option<Change>,
) -> Result<(), AllocError>
    requires { IfSome change.now (λ change. view_of packet.now.link packet.now.bytes.items ≡ Ipv4 change.packet) }
    ensures done { OnOk result (packets.new.items ≡ packets.old.items ++ record_text packet.now change.now) }
    ensures kept { OnErr result (packets.new.items ≡ packets.old.items) }
{
    let start = packets.len();
    packets.extend_from_slice(&packet.header)?;
    if let Err(refused) = packets.extend_from_slice(packet.bytes.as_slice()) {
        packets.truncate(start);
        return Err(refused);
    }
    write_into(packets, start, packet.link, change);
    Ok(())
}

/// No bytes, with room for `bytes`. If that is refused, room is made as they come.
pub(crate) fn room_for(alloc: Global, bytes: usize) -> Vec<u8>
    ensures { result.items ≡ [] }
{
    match Vec::with_capacity(alloc, bytes) {
        Ok(list) => list,
        Err(_) => Vec::new(alloc),
    }
}

impl PacketTexts {
    /// Nothing yet.
    pub fn new(alloc: Global) -> PacketTexts
        ensures { packets_of result ≡ spec.nowhere }
    {
        PacketTexts {
            alloc,
            texts: Vec::new(alloc),
        }
    }

    /// Nothing yet, with room for `rooms[place]` bytes at each place. If that is refused, room is made as they come.
    pub(crate) fn with_room(alloc: Global, rooms: &[usize]) -> PacketTexts
        ensures { packets_of result ≡ spec.nowhere }
    {
        let mut packets = PacketTexts::new(alloc);
        for room in rooms {
            if packets.add(room_for(alloc, *room)).is_err() {
                return packets;
            }
        }
        packets
    }

    /// The texts by place, up to the last place that has one.
    #[inline]
    pub fn as_slice(&self) -> &[Vec<u8>]
        ensures { result.now ≡ self.now.texts.items }
    {
        self.texts.as_slice()
    }

    /// Forgets all, and keeps the room.
    pub(crate) fn clear(&mut self)
        ensures { packets_of self.new ≡ spec.nowhere }
    {
        for place in 0..self.texts.len() {
            self.texts[place].clear();
        }
    }

    /// The length of the text at a place.
    pub(crate) fn len_at(&self, place: usize) -> usize
        ensures { result ≡ length (packets_of self.now place) }
    {
        match self.texts.get(place) {
            Some(text) => text.len(),
            None => 0,
        }
    }

    /// Keeps the first `count` bytes of the text at a place.
    pub(crate) fn truncate_at(&mut self, place: usize, count: usize)
        ensures { packets_of self.new ≡ cut_at place count (packets_of self.old) }
    {
        if place < self.texts.len() {
            self.texts[place].truncate(count);
        }
    }

    /// Adds an empty text behind the last one.
    fn add(&mut self, text: Vec<u8>) -> Result<(), AllocError>
        requires { text.items ≡ [] }
        ensures same { packets_of self.new ≡ packets_of self.old }
        ensures alloc { self.new.alloc ≡ self.old.alloc }
        ensures more { OnOk result (length self.new.texts.items ≡ length self.old.texts.items + 1) }
    {
        self.texts.push(text)?;
        Ok(())
    }

    /// Makes texts for all places up to `place`, itself included.
    fn reach(&mut self, place: usize) -> Result<(), AllocError>
        ensures same { packets_of self.new ≡ packets_of self.old }
        ensures there { OnOk result (place < length self.new.texts.items) }
    {
        while self.texts.len() <= place {
            let text = Vec::new(self.alloc);
            self.add(text)?;
        }
        Ok(())
    }

    /// Appends the record of a packet at the place of its interface, unless the packet is blocked. If memory is refused
    /// nothing changes.
    pub(crate) fn put(&mut self, packet: &Record, outcome: &Outcome) -> Result<(), AllocError>
        requires { IfSome outcome.now.bytes (λ change. view_of packet.now.link packet.now.bytes.items ≡ Ipv4 change.packet) }
        ensures done { OnOk result (AddsRecord self.old self.new packet.now outcome.now) }
        ensures kept { OnErr result (packets_of self.new ≡ packets_of self.old) }
    {
        if !outcome.verdict.is_written() {
            return Ok(());
        }
        let place = usize::from(packet.place);
        self.reach(place)?;
        put_record(&mut self.texts[place], packet, &outcome.bytes)
    }
}
