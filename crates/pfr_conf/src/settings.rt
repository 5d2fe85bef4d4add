//! Timeouts and limits, as `set` writes them: a pair, or pairs in braces.
ghost use Rattle.std.specs.Prelude.{◌≡◌, ◌≤◌};
ghost use Rattle.pfr_terms.specs.Input.{Refuses};
ghost use Rattle.pfr_conf.specs.Settings as spec;

use pfr_net::Timeout;
use pfr_terms::lists::Item;
use pfr_terms::{ConfError, Reader};
use pfr_words::Bytes;
use pfr_words::names::entry_of;
use std::alloc::Global;

/// What a timeout of pf.conf(5) is named for: states, or what this profile leaves out, so that it has no effect.
#[derive(Clone, Copy)]
pub enum TimeoutName {
    OfStates(Timeout),
    Interval,
    Fragment,
    SourceTracking,
}

/// A timeout and its seconds, at most 2147483647.
#[derive(Clone, Copy)]
pub struct TimeoutSetting {
    pub timeout: TimeoutName,
    pub seconds: u32,
}

/// What may be limited. Only the limit of states has an effect.
#[derive(Clone, Copy)]
pub enum Limit {
    States,
    Fragments,
    SourceNodes,
    TableEntries,
    Tables,
}

/// A limit and its number; for states it is from 1 to 1000000.
#[derive(Clone, Copy)]
pub struct LimitSetting {
    pub limit: Limit,
    pub number: u32,
}

/// The names of the timeouts.
pub const TIMEOUTS: [(&[u8], TimeoutName); 17] = [
    (b"tcp.first", TimeoutName::OfStates(Timeout::TcpFirst)),
    (b"tcp.opening", TimeoutName::OfStates(Timeout::TcpOpening)),
    (
        b"tcp.established",
        TimeoutName::OfStates(Timeout::TcpEstablished),
    ),
    (b"tcp.closing", TimeoutName::OfStates(Timeout::TcpClosing)),
    (b"tcp.finwait", TimeoutName::OfStates(Timeout::TcpFinWait)),
    (b"tcp.closed", TimeoutName::OfStates(Timeout::TcpClosed)),
    (b"udp.first", TimeoutName::OfStates(Timeout::UdpFirst)),
    (b"udp.single", TimeoutName::OfStates(Timeout::UdpSingle)),
    (b"udp.multiple", TimeoutName::OfStates(Timeout::UdpMultiple)),
    (b"icmp.first", TimeoutName::OfStates(Timeout::IcmpFirst)),
    (b"icmp.error", TimeoutName::OfStates(Timeout::IcmpError)),
    (b"other.first", TimeoutName::OfStates(Timeout::OtherFirst)),
    (b"other.single", TimeoutName::OfStates(Timeout::OtherSingle)),
    (
        b"other.multiple",
        TimeoutName::OfStates(Timeout::OtherMultiple),
    ),
    (b"interval", TimeoutName::Interval),
    (b"frag", TimeoutName::Fragment),
    (b"src.track", TimeoutName::SourceTracking),
];

/// The names of the limits.
pub const LIMITS: [(&[u8], Limit); 5] = [
    (b"states", Limit::States),
    (b"frags", Limit::Fragments),
    (b"src-nodes", Limit::SourceNodes),
    (b"table-entries", Limit::TableEntries),
    (b"tables", Limit::Tables),
];

#[tactic(auto, unfolding(crate::specs::Settings::timeout_named))]
fn timeout_named(word: &[u8]) -> Option<TimeoutName>
    ensures { result ≡ spec.timeout_named word.now }
{
    entry_of(&TIMEOUTS, word)
}

#[tactic(auto, unfolding(crate::specs::Settings::limit_named))]
fn limit_named(word: &[u8]) -> Option<Limit>
    ensures { result ≡ spec.limit_named word.now }
{
    entry_of(&LIMITS, word)
}

fn timeout_in(word: Option<Bytes<'_>>) -> Option<TimeoutName>
    ensures { result ≡ spec.timeout_in word.entry }
{
    match word {
        Some(word) => timeout_named(word.as_slice()),
        None => None,
    }
}

fn limit_in(word: Option<Bytes<'_>>) -> Option<Limit>
    ensures { result ≡ spec.limit_in word.entry }
{
    match word {
        Some(word) => limit_named(word.as_slice()),
        None => None,
    }
}

/// The fault of a word that is no timeout: adaptive timeouts are left out.
#[tactic(auto, unfolding(crate::specs::Settings::adaptive_refusal))]
pub(crate) fn adaptive_refusal(alloc: Global, reader: &Reader<'_, '_>) -> ConfError
    ensures { Refuses (spec.adaptive_refusal reader.now) result }
{
    if reader.sees_word(b"adaptive.start") || reader.sees_word(b"adaptive.end") {
        reader.left_out(alloc, b"timeout")
    } else {
        reader.refuse(alloc)
    }
}

/// The fault of a word that is no option of a state: timeouts of one rule are left out.
#[tactic(auto, unfolding(crate::specs::Settings::timeout_refusal))]
pub(crate) fn timeout_refusal(alloc: Global, reader: &Reader<'_, '_>) -> ConfError
    ensures { Refuses (spec.timeout_refusal reader.now) result }
{
    match timeout_in(reader.plain_ahead()) {
        Some(_) => reader.left_out(alloc, b"timeout"),
        None => adaptive_refusal(alloc, reader),
    }
}

impl<'a> Item<'a> for TimeoutSetting {
    ghost use Rattle.pfr_conf.specs.Settings as spec;

    ghost parser = { spec.timeout_setting };

    #[tactic(auto, unfolding(crate::specs::Settings::timeout_setting))]
    fn read(alloc: Global, reader: &mut Reader<'_, 'a>) -> Result<TimeoutSetting, ConfError> {
        match timeout_in(reader.plain_ahead()) {
            Some(timeout) => {
                reader.take();
                let seconds = reader.number(alloc, 0, 2147483647)? as u32;
                Ok(TimeoutSetting { timeout, seconds })
            }
            None => Err(adaptive_refusal(alloc, reader)),
        }
    }
}

/// The least and the greatest number that a limit may have.
fn range_of(limit: Limit) -> (u64, u64)
    ensures value { result ≡ spec.range_of limit }
    ensures within { result.1 ≤ 4294967295 }
{
    match limit {
        Limit::States => (1, 1000000),
        _ => (0, 4294967295),
    }
}

impl<'a> Item<'a> for LimitSetting {
    ghost use Rattle.pfr_conf.specs.Settings as spec;

    ghost parser = { spec.limit_setting };

    #[tactic(auto, unfolding(crate::specs::Settings::limit_setting))]
    fn read(alloc: Global, reader: &mut Reader<'_, 'a>) -> Result<LimitSetting, ConfError> {
        match limit_in(reader.plain_ahead()) {
            Some(limit) => {
                reader.take();
                let (least, greatest) = range_of(limit);
                let number = reader.number(alloc, least, greatest)? as u32;
                Ok(LimitSetting { limit, number })
            }
            None => Err(reader.refuse(alloc)),
        }
    }
}
