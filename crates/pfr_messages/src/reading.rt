//! Records at the front of bytes.
ghost use Rattle.pfr_messages.specs.Fields.{Gives};
ghost use Rattle.pfr_messages.specs.Records as spec;

use crate::fault::Fault;
use crate::fields::{
    behind, behind_zeros, direction_at, end_code_at, name_at, rule_at, scale_at, timeout_at, u8_at,
    u16_at, u32_at, u64_at,
};
use crate::records::{Deletion, Insertion, Parties, Peer, Update};
use pfr_net::{Endpoint, Ipv4Address, Port, Protocol};
use pfr_track::{Sequence, StateNumber, Traffic};

#[tactic(auto, unfolding(crate::specs::Records::peer_at))]
fn peer_at(bytes: &[u8]) -> Result<(Peer, &[u8]), Fault>
    ensures { Gives (λ x. (x.0, x.1.now)) result (spec.peer.reading bytes.now) }
{
    let rest = behind_zeros(8, bytes)?;
    let (low, rest) = u32_at(rest)?;
    let (high, rest) = u32_at(rest)?;
    let rest = behind_zeros(4, rest)?;
    let (greatest_window, rest) = u16_at(rest)?;
    let rest = behind_zeros(2, rest)?;
    let (code, rest) = end_code_at(rest)?;
    let (scale, rest) = scale_at(rest)?;
    let rest = behind_zeros(6, rest)?;
    let peer = Peer {
        low: Sequence(low),
        high: Sequence(high),
        greatest_window,
        code,
        scale,
    };
    Ok((peer, rest))
}

#[tactic(auto, unfolding(crate::specs::Records::parties_at))]
fn parties_at(bytes: &[u8]) -> Result<(Parties, &[u8]), Fault>
    ensures { Gives (λ x. (x.0, x.1.now)) result (spec.parties.reading bytes.now) }
{
    let (outside, rest) = u32_at(bytes)?;
    let rest = behind_zeros(12, rest)?;
    let (inside, rest) = u32_at(rest)?;
    let rest = behind_zeros(12, rest)?;
    let (outside_port, rest) = u16_at(rest)?;
    let (inside_port, rest) = u16_at(rest)?;
    let parties = Parties {
        outside: Endpoint {
            address: Ipv4Address(outside),
            port: Port(outside_port),
        },
        inside: Endpoint {
            address: Ipv4Address(inside),
            port: Port(inside_port),
        },
    };
    Ok((parties, rest))
}

#[tactic(auto, unfolding(crate::specs::Records::insertion_at))]
pub(crate) fn insertion_at(bytes: &[u8]) -> Result<(Insertion, &[u8]), Fault>
    ensures { Gives (λ x. (x.0, x.1.now)) result (spec.insertion.reading bytes.now) }
{
    let (number, rest) = u64_at(bytes)?;
    let (interface, rest) = name_at(rest)?;
    let (wire, rest) = parties_at(rest)?;
    let (stack, rest) = parties_at(rest)?;
    let (maker, rest) = peer_at(rest)?;
    let (other, rest) = peer_at(rest)?;
    let rest = behind_zeros(16, rest)?;
    let (rule, rest) = rule_at(rest)?;
    let rest = behind(&[255; 4], rest)?;
    let (translation, rest) = rule_at(rest)?;
    let (age, rest) = u32_at(rest)?;
    let (remaining, rest) = u32_at(rest)?;
    let (packets_forth, rest) = u64_at(rest)?;
    let (packets_back, rest) = u64_at(rest)?;
    let (bytes_forth, rest) = u64_at(rest)?;
    let (bytes_back, rest) = u64_at(rest)?;
    let (creator, rest) = u32_at(rest)?;
    let rest = behind(&[2], rest)?;
    let (protocol, rest) = u8_at(rest)?;
    let (direction, rest) = direction_at(rest)?;
    let rest = behind_zeros(4, rest)?;
    let (timeout, rest) = timeout_at(rest)?;
    let rest = behind_zeros(2, rest)?;
    let insertion = Insertion {
        number: StateNumber(number),
        interface,
        wire,
        stack,
        maker,
        other,
        rule,
        translation,
        age,
        remaining,
        forth: Traffic {
            packets: packets_forth,
            bytes: bytes_forth,
        },
        back: Traffic {
            packets: packets_back,
            bytes: bytes_back,
        },
        creator,
        protocol: Protocol(protocol),
        direction,
        timeout,
    };
    Ok((insertion, rest))
}

#[tactic(auto, unfolding(crate::specs::Records::update_at))]
pub(crate) fn update_at(bytes: &[u8]) -> Result<(Update, &[u8]), Fault>
    ensures { Gives (λ x. (x.0, x.1.now)) result (spec.update.reading bytes.now) }
{
    let (number, rest) = u64_at(bytes)?;
    let (maker, rest) = peer_at(rest)?;
    let (other, rest) = peer_at(rest)?;
    let (creator, rest) = u32_at(rest)?;
    let (remaining, rest) = u32_at(rest)?;
    let (timeout, rest) = timeout_at(rest)?;
    let rest = behind_zeros(3, rest)?;
    let update = Update {
        number: StateNumber(number),
        maker,
        other,
        creator,
        remaining,
        timeout,
    };
    Ok((update, rest))
}

#[tactic(auto, unfolding(crate::specs::Records::deletion_at))]
pub(crate) fn deletion_at(bytes: &[u8]) -> Result<(Deletion, &[u8]), Fault>
    ensures { Gives (λ x. (x.0, x.1.now)) result (spec.deletion.reading bytes.now) }
{
    let (number, rest) = u64_at(bytes)?;
    let (creator, rest) = u32_at(rest)?;
    let deletion = Deletion {
        number: StateNumber(number),
        creator,
    };
    Ok((deletion, rest))
}
