//! The values behind the flags of the command line, and their forms.
ghost use Rattle.std.specs.Prelude.{◌≡◌, ◌≤◌, ◌<◌, ℕ, IfOk, IfSome, MatchOption, OnErr, SomeIff, length, slice_index};
ghost use Rattle.std.specs.Char.{digit_value};
ghost use Rattle.std.specs.Result.{result_ok};
ghost use Rattle.pfr_net.specs.Interfaces.{if_name};
ghost use Rattle.pfr_prepare.specs.Flags as flags;
ghost use Rattle.pfr_values.specs.Peers.{Names, NamesNone, WritesNone, WritesPort};
ghost use Rattle.pfr_values.specs.Places.{interface_of, name_of};
ghost use Rattle.pfr_values.specs.Seeds.{byte_at};
ghost use Rattle.pfr_values.specs.Taps.{tap_of};

use crate::peers::Peer;
use crate::refused::Refused;
use pfr_headers::Tap;
use pfr_net::interface::LONGEST_NAME;
use pfr_net::notation::number;
use pfr_net::{IfName, Net, Port};
use pfr_prepare::network_of;
use pfr_ruleset::Interface;

/// The form of the value behind `--interface`.
pub const INTERFACE: &str = "NAME";
/// The form of the value behind `--address`.
pub const ADDRESS: &str = "A.B.C.D/BITS";
/// The form of the value behind `--inside`.
pub const INSIDE: &str = "NETS";
/// The form of the value behind `--tap`.
pub const TAP: &str = "stack|wire";
/// The form of the value behind `--seed`.
pub const SEED: &str = "HEX";
/// The form of the value behind `--batch`.
pub const BATCH: &str = "1..4096";
/// The form of the value behind `--workers`.
pub const WORKERS: &str = "0..64";
/// The form of the value behind `--peer`.
pub const PEER: &str = "HOST:PORT";

/// The name of an interface, which has 1 to 15 bytes, in the value of a flag of this form.
pub(crate) fn interface_name<'a>(
    flag: &'a str,
    form: &'a str,
    name: &'a str,
) -> Result<IfName, Refused<'a>>
    ensures { result_ok result ≡ name_of name.entry.now }
{
    if name.is_empty() || name.len() > LONGEST_NAME {
        return Err(Refused::BadValue {
            flag,
            form,
            word: name,
        });
    }
    Ok(IfName::new(name.as_bytes()))
}

/// The address of an interface, with the length of its network's prefix, in the value of a flag of this form.
pub(crate) fn network<'a>(
    flag: &'a str,
    form: &'a str,
    address: &'a str,
) -> Result<Net, Refused<'a>>
    ensures { result_ok result ≡ flags.network_of address.entry.now }
{
    network_of(address.as_bytes()).ok_or(Refused::BadValue {
        flag,
        form,
        word: address,
    })
}

/// The interface of this name and this address, with the length of its prefix.
pub fn interface<'a>(name: &'a str, address: &'a str) -> Result<Interface, Refused<'a>>
    ensures value { result_ok result ≡ interface_of name.entry.now address.entry.now }
    ensures named { IfOk result (λ interface. interface.name ≡ if_name name.entry.now) }
{
    let name = interface_name("--interface", INTERFACE, name)?;
    let network = network("--address", ADDRESS, address)?;
    Ok(Interface {
        name,
        address: network.address,
        bits: network.bits,
    })
}

/// The seed that 64 hexadecimal digits write, first digits first.
pub fn seed<'a>(word: &'a str) -> Result<[u8; 32], Refused<'a>> {
    seed_of(word.as_bytes()).ok_or(Refused::BadValue {
        flag: "--seed",
        form: SEED,
        word,
    })
}

/// The bytes that 64 hexadecimal digits write.
fn seed_of(digits: &[u8]) -> Option<[u8; 32]>
    ensures length { IfSome result (λ seed. length digits.now ≡ 64) }
    ensures bytes { IfSome result (λ seed. (place : ℕ) → place < 32 → slice_index seed place ≡ byte_at digits.now place) }
{
    let mut seed = [0; 32];
    if digits.len() != 2 * seed.len() {
        return None;
    }
    for place in 0..seed.len() {
        let high = digit(digits[2 * place])?;
        let low = digit(digits[2 * place + 1])?;
        seed[place] = 16 * high + low;
    }
    Some(seed)
}

/// What a hexadecimal digit of either case counts.
pub(crate) fn digit(byte: u8) -> Option<u8>
    ensures { SomeIff result (digit_value byte < 16) (digit_value byte) }
{
    match char::from(byte).to_digit(16) {
        Some(digit) => Some(digit as u8),
        None => None,
    }
}

/// How many packets are taken and written at a time, 1 to 4096, in decimal digits.
pub fn batch<'a>(word: &'a str) -> Result<usize, Refused<'a>>
    ensures { IfOk result (λ batch. (1 ≤ batch) × (batch ≤ 4096)) }
{
    match number(word.as_bytes()) {
        Some(batch) if 1 <= batch && batch <= 4096 => Ok(batch as usize),
        _ => Err(Refused::BadValue {
            flag: "--batch",
            form: BATCH,
            word,
        }),
    }
}

/// How many workers evaluate packets ahead, 0 to 64, in decimal digits.
pub fn workers<'a>(word: &'a str) -> Result<u64, Refused<'a>>
    ensures { IfOk result (λ workers. workers ≤ 64) }
{
    match number(word.as_bytes()) {
        Some(workers) if workers <= 64 => Ok(workers),
        _ => Err(Refused::BadValue {
            flag: "--workers",
            form: WORKERS,
            word,
        }),
    }
}

/// On which side of their translation packets that go out were captured, by the word for it.
pub(crate) fn tap<'a>(word: &'a str) -> Result<Tap, Refused<'a>>
    ensures { result_ok result ≡ tap_of word.entry.now }
{
    match word {
        "stack" => Ok(Tap::Stack),
        "wire" => Ok(Tap::Wire),
        _ => Err(Refused::BadValue {
            flag: "--tap",
            form: TAP,
            word,
        }),
    }
}

/// The host and the port that the word behind a flag names.
pub fn peer<'a>(flag: &'a str, word: &'a str) -> Result<Peer<'a>, Refused<'a>>
    ensures named { IfOk result (λ peer. (peer.word.now ≡ word.now) × Names word.now peer.host.now peer.port.0) }
    ensures refused { OnErr result (NamesNone word.now) }
{
    peer_of(word).ok_or(Refused::BadValue {
        flag,
        form: PEER,
        word,
    })
}

/// The peer that a word names: the host before its last colon, and the port behind it.
fn peer_of<'a>(word: &'a str) -> Option<Peer<'a>>
    ensures { MatchOption result (NamesNone word.now) (λ peer. (peer.word.now ≡ word.now) × Names word.now peer.host.now peer.port.0) }
{
    let (host, digits) = word.rsplit_once(':')?;
    let port = port_of(digits.as_bytes())?;
    if host.is_empty() {
        return None;
    }
    Some(Peer { word, host, port })
}

/// The port that decimal digits write, 1 to 65535. They may have leading zeros.
fn port_of(digits: &[u8]) -> Option<Port>
    ensures { MatchOption result (WritesNone digits.now) (λ port. WritesPort digits.now port.0) }
{
    match number(digits) {
        Some(port) if 1 <= port && port <= 65535 => Some(Port(port as u16)),
        _ => None,
    }
}
