//! The ports that connections get from `nat` rules.
ghost use Rattle.std.specs.Prelude.{◌≡◌, ◌≤◌, ◌<◌, ◌-◌, List, ℕ, Option, IfOk};
ghost use Rattle.pfr_track.specs.declared.key.Key.{Key};
ghost use Rattle.pfr_states.specs.declared.question.Question.{Question};
ghost use Rattle.pfr_packet.specs.Plan.{GoesUpTo, Plan};
ghost use Rattle.pfr_packet.specs.Picks as spec;

use crate::answers::Answers;
use crate::keys::endpoint;
use pfr_headers::Transport;
use pfr_net::{Ipv4Address, Port};
use pfr_ruleset::{NatAddress, PortRange};
use pfr_states::Side;
use pfr_track::{Binding, Key};
use rand_chacha::ChaCha20Rng;
use rand_core::SeedableRng;
use rand_core::utils::NextWord;
use std::alloc::AllocError;

/// The ports that are tried for a connection.
#[derive(Clone, Copy)]
pub enum PortsTried {
    /// One port alone.
    One(Port),
    /// The ports of a range, beginning with a drawn one.
    Among(PortRange),
}

/// A connection behind the firewall that gets this address on the wire.
#[derive(Clone, Copy)]
pub struct Pick<'a> {
    pub transport: &'a Transport,
    pub stack: &'a Key,
    pub address: Ipv4Address,
}

fn range_or_high(ports: Option<PortRange>) -> PortRange
    ensures { result ≡ spec.range_or_high ports }
{
    match ports {
        Some(range) => range,
        None => PortRange {
            low: 50001,
            high: 65535,
        },
    }
}

fn range_for(transport: &Transport, target: &NatAddress, own: Port) -> PortsTried
    ensures { result ≡ spec.range_for transport.now target.now own }
{
    match transport {
        Transport::Tcp(_) => PortsTried::Among(range_or_high(target.ports)),
        Transport::Udp(_) => PortsTried::Among(range_or_high(target.ports)),
        Transport::Icmp(_) => PortsTried::Among(PortRange {
            low: 1,
            high: 65535,
        }),
        _ => PortsTried::One(own),
    }
}

/// The ports that are tried for a packet whose port or identifier is `own`. Protocols without ports have 0 alone.
pub(crate) fn ports_for(transport: &Transport, target: &NatAddress, own: Port) -> PortsTried
    ensures { result ≡ spec.ports_for transport.now target.now own }
{
    if target.static_port {
        PortsTried::One(own)
    } else {
        range_for(transport, target, own)
    }
}

/// The word that is drawn for a packet: the first of the ChaCha20 stream of its number (RFC 8439), under the run's
/// seed.
#[tactic(auto, unfolding(crate::specs::Picks::word_of))]
fn word_of(seed: &[u8; 32], number: u64) -> u32
    ensures { result ≡ spec.word_of seed.now number }
{
    let mut stream = ChaCha20Rng::from_seed(*seed);
    stream.set_stream(number);
    stream.next_word()
}

/// The port of a range at which a drawn word cuts the range.
fn cut_of(range: PortRange, word: u32) -> u32
    ensures cut { result ≡ spec.cut_of range.low range.high word }
    ensures within { result ≤ 65535 }
{
    let others = u32::from(range.high.saturating_sub(range.low));
    u32::from(range.low) + word % (1 + others)
}

impl Pick<'_> {
    /// The key on the wire with a port. An echo's identifier stands at both ends.
    fn key(&self, port: u32) -> Key
        requires { port < 65536 }
        ensures { result ≡ spec.key_with self.now port }
    {
        let port = Port(port as u16);
        let outside = match self.transport {
            Transport::Icmp(_) => endpoint(self.stack.outside.address, port),
            _ => self.stack.outside,
        };
        Key {
            protocol: self.stack.protocol,
            outside,
            inside: endpoint(self.address, port),
        }
    }

    /// Tries the ports from `first` up to `end`, without `end` itself.
    fn rising<A: Answers>(
        &self,
        first: u32,
        end: u32,
        answers: &mut A,
    ) -> Result<Option<Key>, AllocError>
        requires { end ≤ 65536 }
        ensures seen { A.seen answers.new ≡ A.seen answers.old }
        ensures goes { IfOk result (λ picked. (next : Option Key → Plan) (rest : List ℕ) → spec.PicksUpTo (A.seen answers.old) (spec.key_with self.now) next (spec.rising first (end - first)) rest picked (A.asked answers.new)) }
        ensures kept { (question : Question) → A.asked answers.old question → A.asked answers.new question }
    {
        for port in first..end {
            let key = self.key(port);
            if answers.at(Side::Wire, &key, Binding::All)?.is_none() {
                return Ok(Some(key));
            }
        }
        Ok(None)
    }

    /// Tries the ports below `bound`, down to `low`.
    fn falling<A: Answers>(
        &self,
        bound: u32,
        low: u32,
        answers: &mut A,
    ) -> Result<Option<Key>, AllocError>
        requires { bound ≤ 65536 }
        ensures seen { A.seen answers.new ≡ A.seen answers.old }
        ensures goes { IfOk result (λ picked. (next : Option Key → Plan) (rest : List ℕ) → spec.PicksUpTo (A.seen answers.old) (spec.key_with self.now) next (spec.falling bound (bound - low)) rest picked (A.asked answers.new)) }
        ensures kept { (question : Question) → A.asked answers.old question → A.asked answers.new question }
    {
        let mut above = bound;
        while low < above {
            above -= 1;
            let key = self.key(above);
            if answers.at(Side::Wire, &key, Binding::All)?.is_none() {
                return Ok(Some(key));
            }
        }
        Ok(None)
    }

    /// The key with the first of these ports that is free. If a port is drawn, it depends on seed and packet number
    /// alone.
    pub(crate) fn picked<A: Answers>(
        &self,
        ports: PortsTried,
        seed: &[u8; 32],
        number: u64,
        answers: &mut A,
    ) -> Result<Option<Key>, AllocError>
        ensures seen { A.seen answers.new ≡ A.seen answers.old }
        ensures goes { IfOk result (λ picked. (next : Option Key → Plan) → GoesUpTo (A.seen answers.old) (spec.picking (spec.key_with self.now) next (spec.tries ports (spec.word_of seed.now number))) (next picked) (A.asked answers.new)) }
        ensures kept { (question : Question) → A.asked answers.old question → A.asked answers.new question }
    {
        match ports {
            PortsTried::One(port) => {
                let port = u32::from(port.0);
                self.rising(port, port + 1, answers)
            }
            PortsTried::Among(range) => {
                let cut = cut_of(range, word_of(seed, number));
                match self.rising(cut, u32::from(range.high) + 1, answers)? {
                    Some(key) => Ok(Some(key)),
                    None => self.falling(cut, u32::from(range.low), answers),
                }
            }
        }
    }
}
