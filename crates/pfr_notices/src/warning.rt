//! Warnings, each in a line.
use pfr_net::IfName;
use std::io::Write;
use std::str::from_utf8;
use std::{fmt, io};

/// How many records are skipped, by what they hold.
#[derive(Clone, Copy)]
pub struct Skipped {
    pub arp: u64,
    pub ipv6: u64,
    pub pppoe: u64,
    pub two_tags: u64,
    pub other: u64,
}

impl Skipped {
    /// How many they are in all.
    pub(crate) fn count(&self) -> u64 {
        self.arp
            .saturating_add(self.ipv6)
            .saturating_add(self.pppoe)
            .saturating_add(self.two_tags)
            .saturating_add(self.other)
    }
}

impl fmt::Display for Skipped {
    fn fmt<W: fmt::Write>(&self, f: &mut fmt::Formatter<W>) -> fmt::Result {
        let (arp, ipv6, pppoe) = (self.arp, self.ipv6, self.pppoe);
        write!(f, "{arp} ARP, {ipv6} IPv6, {pppoe} PPPoE, ")?;
        let (two_tags, other) = (self.two_tags, self.other);
        write!(f, "{two_tags} with two VLAN tags, {other} other")
    }
}

/// What an operator is warned of.
#[derive(Clone, Copy)]
pub enum Warning<'a> {
    /// No packet of this interface goes out.
    NoneGoesOut(IfName),
    /// No packet of this interface comes in.
    NoneComesIn(IfName),
    /// Rules name interfaces, and none names this one of the run.
    NoRule(IfName),
    /// What goes out of this interface is shown behind its translation, and the run isn't told so.
    Translated(IfName),
    /// Rules name this interface, and the run doesn't have it.
    NoCapture(IfName),
    /// Of this many packets these are skipped.
    Skipped { packets: u64, skipped: Skipped },
    /// This many packets are too short, since not all of them was captured.
    Cut(u64),
    /// This many are parts of packets.
    Parts(u64),
    /// This many packets are of TCP connections that began before them, and met no state.
    Midway(u64),
    /// The same, and no TCP connection begins.
    NoneBegins(u64),
    /// This many states were refused by a limit.
    Refused(u64),
    /// Why the system didn't give a file, or a connection to a peer.
    NotOpened(&'a str, io::Error),
}

/// Writes a warning. If it can't be written, there is nowhere to say so.
pub fn warn<E: Write>(warning: &Warning<'_>, err: &mut E) {
    let _ = writeln!(err, "pfreplay: warning: {warning}");
}

/// The name of an interface as it is printed: without the zeros behind it.
#[derive(Clone, Copy)]
struct Printed(IfName);

impl fmt::Display for Printed {
    fn fmt<W: fmt::Write>(&self, f: &mut fmt::Formatter<W>) -> fmt::Result {
        match from_utf8(self.0.bytes.as_slice()) {
            Ok(text) => f.write_str(text.trim_end_matches('\0')),
            Err(_) => Ok(()),
        }
    }
}

impl fmt::Display for Warning<'_> {
    fn fmt<W: fmt::Write>(&self, f: &mut fmt::Formatter<W>) -> fmt::Result {
        match self {
            Warning::NoneGoesOut(name) => write!(f, "{}: no packet goes out", Printed(*name)),
            Warning::NoneComesIn(name) => write!(f, "{}: no packet comes in", Printed(*name)),
            Warning::NoRule(name) => write!(f, "no rule names {}", Printed(*name)),
            Warning::Translated(name) => write!(
                f,
                "{}: what goes out is shown behind its translation, without --tap wire",
                Printed(*name)
            ),
            Warning::NoCapture(name) => {
                write!(f, "no capture is of {}, which rules name", Printed(*name))
            }
            Warning::Skipped { packets, skipped } => {
                let count = skipped.count();
                write!(f, "packets skipped: {count} of {packets}: {skipped}")
            }
            Warning::Cut(count) => write!(f, "packets cut by the snapshot length: {count}"),
            Warning::Parts(count) => write!(f, "parts of packets: {count}"),
            Warning::Midway(count) => write!(f, "packets midway in a TCP connection: {count}"),
            Warning::NoneBegins(count) => write!(
                f,
                "packets midway in a TCP connection: {count}, and no connection begins"
            ),
            Warning::Refused(count) => write!(f, "states refused by a limit: {count}"),
            Warning::NotOpened(name, reason) => write!(f, "{name}: {reason}"),
        }
    }
}
