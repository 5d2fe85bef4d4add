//! The words of a line. What is read is compared with the line, so nothing depends on them but which lines are read.
ghost use Rattle.std.specs.Prelude.{◌≡◌};
ghost use Rattle.pfr_packet.specs.Verdicts.{reason_text, verdict_text};

use crate::counted::Totals;
use pfr_net::{
    Binding, Direction, Endpoint, InterfacePlace, Port, Protocol, RuleNumber, Timeout, notation,
};
use pfr_packet::{Outcome, Reason, Verdict};
use pfr_track::{
    Clock, DatagramPeer, Deadline, Key, Peers, Sequence, State, StateNumber, StateRules, TcpPeer,
    TcpPeerState, Traffic,
};
use pfr_wording::Counted;
use std::alloc::Global;
use std::str;
use std::str::FromStr;

/// The words that are left of a line.
#[derive(Drop)]
struct Words<'a> {
    rest: Option<&'a [u8]>,
}

/// The word for a verdict.
pub fn verdict_word(verdict: Verdict) -> &'static [u8]
    ensures { result.now ≡ verdict_text verdict }
{
    match verdict {
        Verdict::Pass => b"pass",
        Verdict::Block => b"block",
        Verdict::Return => b"return",
        Verdict::Skip => b"skip",
    }
}

/// The word for a reason.
pub fn reason_word(reason: Reason) -> &'static [u8]
    ensures { result.now ≡ reason_text reason }
{
    match reason {
        Reason::Rule => b"rule",
        Reason::Default => b"default",
        Reason::NotIp => b"not-ip",
        Reason::SkipOn => b"skip-on",
        Reason::Short => b"short",
        Reason::IpOption => b"ip-option",
        Reason::State => b"state",
        Reason::StateError => b"state-error",
        Reason::StateMismatch => b"state-mismatch",
        Reason::StateInsert => b"state-insert",
        Reason::StateLimit => b"state-limit",
        Reason::NatExhausted => b"nat-exhausted",
        Reason::NatPass => b"nat-pass",
    }
}

/// All verdicts.
const VERDICTS: [Verdict; 4] = [
    Verdict::Pass,
    Verdict::Block,
    Verdict::Return,
    Verdict::Skip,
];

/// All reasons, those that most packets have first.
const REASONS: [Reason; 13] = [
    Reason::State,
    Reason::Rule,
    Reason::Default,
    Reason::NotIp,
    Reason::SkipOn,
    Reason::Short,
    Reason::IpOption,
    Reason::StateError,
    Reason::StateMismatch,
    Reason::StateInsert,
    Reason::StateLimit,
    Reason::NatExhausted,
    Reason::NatPass,
];

/// The verdict that a word says.
fn verdict_of(word: &[u8]) -> Option<Verdict> {
    for verdict in VERDICTS {
        if verdict_word(verdict) == word {
            return Some(verdict);
        }
    }
    None
}

/// The reason that a word says.
fn reason_of(word: &[u8]) -> Option<Reason> {
    for reason in REASONS {
        if reason_word(reason) == word {
            return Some(reason);
        }
    }
    None
}

/// A number in decimal digits, of type `T`.
fn parsed<T: FromStr>(word: &[u8]) -> Option<T>
where
    T::Err: Drop,
{
    let digits = str::from_utf8(word).ok()?;
    digits.parse::<T>().ok()
}

/// An end of a connection: `a.b.c.d:port`.
fn end(word: &[u8]) -> Option<Endpoint> {
    let (address, port) = notation::cut(b':', word)?;
    Some(Endpoint {
        address: notation::dotted(address)?,
        port: Port(parsed(port)?),
    })
}

/// A rule's number, or `-` for none.
fn rule(word: &[u8]) -> Option<Option<RuleNumber>> {
    if word == b"-".as_slice() {
        return Some(None);
    }
    Some(Some(RuleNumber(parsed(word)?)))
}

/// The shift that an end offered, or `-` for none.
fn scale(word: &[u8]) -> Option<Option<u8>> {
    if word == b"-".as_slice() {
        return Some(None);
    }
    Some(Some(parsed(word)?))
}

/// An end of a TCP connection: `code/low/high/window/offer`.
fn tcp_end(word: &[u8]) -> Option<TcpPeer> {
    let (code, rest) = notation::cut(b'/', word)?;
    let (low, rest) = notation::cut(b'/', rest)?;
    let (high, rest) = notation::cut(b'/', rest)?;
    let (window, offer) = notation::cut(b'/', rest)?;
    Some(TcpPeer {
        state: TcpPeerState::of_code(parsed(code)?)?,
        low: Sequence(parsed(low)?),
        high: Sequence(parsed(high)?),
        greatest_window: parsed(window)?,
        scale: scale(offer)?,
    })
}

/// An end of another connection: its code, and what such ends don't have.
fn datagram_end(word: &[u8]) -> Option<DatagramPeer> {
    let (code, _) = notation::cut(b'/', word)?;
    DatagramPeer::of_code(parsed(code)?)
}

/// Both ends of a connection of a protocol, that of the state's maker first.
fn peers(protocol: Protocol, maker: &[u8], other: &[u8]) -> Option<Peers> {
    match protocol {
        Protocol::TCP => Some(Peers::Tcp(tcp_end(maker)?, tcp_end(other)?)),
        Protocol::UDP => Some(Peers::Udp(datagram_end(maker)?, datagram_end(other)?)),
        Protocol::ICMP => Some(Peers::Icmp),
        _ => Some(Peers::Other(datagram_end(maker)?, datagram_end(other)?)),
    }
}

impl<'a> Words<'a> {
    /// The next word.
    fn next(&mut self) -> Option<&'a [u8]> {
        let rest = self.rest?;
        match notation::cut(b' ', rest) {
            Some((word, behind)) => {
                self.rest = Some(behind);
                Some(word)
            }
            None => {
                self.rest = None;
                Some(rest)
            }
        }
    }

    /// The next word as a number.
    fn number(&mut self) -> Option<u64> {
        parsed(self.next()?)
    }

    /// The next word as a direction, or `-` for none.
    fn direction_or_none(&mut self) -> Option<Option<Direction>> {
        let mut word = Words { rest: self.rest };
        if word.next()? == b"-".as_slice() {
            self.rest = word.rest;
            return Some(None);
        }
        Some(Some(self.direction()?))
    }

    /// The next word as a direction.
    fn direction(&mut self) -> Option<Direction> {
        let word = self.next()?;
        if word == b"in".as_slice() {
            Some(Direction::In)
        } else if word == b"out".as_slice() {
            Some(Direction::Out)
        } else {
            None
        }
    }

    /// The next word as a key: its ends, the one outside first.
    fn key(&mut self, protocol: Protocol) -> Option<Key> {
        let (outside, inside) = notation::cut(b',', self.next()?)?;
        Some(Key {
            protocol,
            outside: end(outside)?,
            inside: end(inside)?,
        })
    }

    /// The next word as a rule's number behind a letter and `=`.
    fn rule(&mut self, mark: &[u8]) -> Option<Option<RuleNumber>> {
        rule(self.next()?.strip_prefix(mark)?)
    }

    /// The next word as a state's number behind `s=`, or `-` for none.
    fn state(&mut self) -> Option<Option<StateNumber>> {
        let word = self.next()?.strip_prefix(b"s=".as_slice())?;
        if word == b"-".as_slice() {
            return Some(None);
        }
        Some(Some(StateNumber(parsed(word)?)))
    }

    /// The next words as both ends of a connection.
    fn peers(&mut self, protocol: Protocol) -> Option<Peers> {
        let maker = self.next()?;
        peers(protocol, maker, self.next()?)
    }

    /// The next words as packets and bytes.
    fn traffic(&mut self) -> Option<Traffic> {
        let packets = self.number()?;
        Some(Traffic {
            packets,
            bytes: self.number()?,
        })
    }
}

/// The state that the words of a line make, if they make one.
pub(crate) fn state_in(line: &[u8]) -> Option<State> {
    let mut words = Words { rest: Some(line) };
    let number = StateNumber(words.number()?);
    let protocol = Protocol(parsed(words.next()?)?);
    let direction = words.direction()?;
    let wire = words.key(protocol)?;
    let stack = words.key(protocol)?;
    let filter = words.rule(b"r=")?;
    let translation = words.rule(b"t=")?;
    let peers = words.peers(protocol)?;
    let made = Clock(parsed(words.next()?)?);
    let deadline = Deadline(words.number()?);
    let forth = words.traffic()?;
    let back = words.traffic()?;
    Some(State {
        number,
        deadline,
        forth,
        back,
        rules: StateRules {
            filter,
            translation,
            is_synchronised: true,
            allows_options: false,
            binding: Binding::All,
        },
        wire,
        stack,
        peers,
        made,
        direction,
        interface: InterfacePlace(0),
        timeout: Timeout::TcpFirst,
    })
}

/// What the words of a line count for a rule, with its newline.
pub(crate) fn counts_in(line: &[u8]) -> Option<Counted> {
    let mut words = Words {
        rest: Some(line.strip_suffix(b"\n".as_slice())?),
    };
    words.next()?;
    words.next()?;
    Some(Counted {
        evaluations: words.number()?,
        packets: words.number()?,
        bytes: words.number()?,
    })
}

/// What the words of a line count of all packets, with its newline.
pub(crate) fn totals_in(line: &[u8]) -> Option<Totals> {
    let mut words = Words {
        rest: Some(line.strip_suffix(b"\n".as_slice())?),
    };
    words.next()?;
    Some(Totals {
        records: words.number()?,
        passed: words.number()?,
        blocked: words.number()?,
        returned: words.number()?,
        skipped: words.number()?,
    })
}

/// A packet's number, its clock and what it came to.
#[derive(Drop)]
pub(crate) struct Judgement {
    pub(crate) number: u64,
    pub(crate) clock: Clock,
    pub(crate) outcome: Outcome,
}

/// What the words of a line say of a packet, if they say that of one.
pub(crate) fn judgement_in(alloc: Global, line: &[u8]) -> Option<Judgement> {
    let mut words = Words { rest: Some(line) };
    let number = words.number()?;
    let clock = Clock(parsed(words.next()?)?);
    let direction = words.direction_or_none()?;
    let verdict = verdict_of(words.next()?)?;
    let reason = reason_of(words.next()?)?;
    let rule = words.rule(b"r=")?;
    let translation = words.rule(b"t=")?;
    let state = words.state()?;
    let mut outcome = Outcome::new(alloc);
    outcome.direction = direction;
    outcome.verdict = verdict;
    outcome.reason = reason;
    outcome.rule = rule;
    outcome.translation = translation;
    outcome.state = state;
    Some(Judgement {
        number,
        clock,
        outcome,
    })
}
