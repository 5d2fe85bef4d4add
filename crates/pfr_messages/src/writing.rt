//! Records as bytes, each put behind what was written.
ghost use Rattle.std.specs.Prelude.{◌≡◌, ◌≤◌, ◌∷◌, [], OnOk, true};
ghost use Rattle.std.specs.Int.{to_be_bytes, w8, w16, w32, w64};
ghost use Rattle.pfr_messages.specs.Fields as fields;
ghost use Rattle.pfr_messages.specs.Fields.{Puts, zeros};
ghost use Rattle.pfr_messages.specs.Records as spec;

use crate::records::{Deletion, Insertion, Parties, Peer, Update};
use pfr_net::{Direction, IfName, RuleNumber, Timeout};
use std::alloc::AllocError;

/// The most zeros that stand together in a record.
const ZEROS: [u8; 16] = [0; 16];

pub(crate) fn put_bytes(out: &mut Vec<u8>, bytes: &[u8]) -> Result<(), AllocError>
    ensures { OnOk result (Puts out.old.items bytes.now out.new.items) }
{
    out.extend_from_slice(bytes)?;
    Ok(())
}

/// At most sixteen zeros.
fn put_zeros(out: &mut Vec<u8>, count: usize) -> Result<(), AllocError>
    requires { count ≤ 16 }
    ensures { OnOk result (Puts out.old.items (zeros count) out.new.items) }
{
    out.extend_from_slice(&ZEROS[..count])?;
    Ok(())
}

fn put_u8(out: &mut Vec<u8>, number: u8) -> Result<(), AllocError>
    ensures { OnOk result (Puts out.old.items (to_be_bytes w8 number) out.new.items) }
{
    out.push(number)?;
    Ok(())
}

pub(crate) fn put_u16(out: &mut Vec<u8>, number: u16) -> Result<(), AllocError>
    ensures { OnOk result (Puts out.old.items (to_be_bytes w16 number) out.new.items) }
{
    out.extend_from_slice(&number.to_be_bytes())?;
    Ok(())
}

fn put_u32(out: &mut Vec<u8>, number: u32) -> Result<(), AllocError>
    ensures { OnOk result (Puts out.old.items (to_be_bytes w32 number) out.new.items) }
{
    out.extend_from_slice(&number.to_be_bytes())?;
    Ok(())
}

fn put_u64(out: &mut Vec<u8>, number: u64) -> Result<(), AllocError>
    ensures { OnOk result (Puts out.old.items (to_be_bytes w64 number) out.new.items) }
{
    out.extend_from_slice(&number.to_be_bytes())?;
    Ok(())
}

/// The shift of an end's windows as a byte.
fn scale_code(scale: Option<u8>) -> u8
    requires { spec.is_shift scale ≡ true }
    ensures { result ≡ spec.scale_code scale }
{
    match scale {
        None => 0,
        Some(shift) => 128 + shift,
    }
}

fn direction_code(direction: Direction) -> u8
    ensures { result ≡ spec.direction_code direction }
{
    match direction {
        Direction::In => 1,
        Direction::Out => 2,
    }
}

/// The number of a rule as 32 bits.
fn rule_code(rule: Option<RuleNumber>) -> u32
    requires { spec.is_rule rule ≡ true }
    ensures { result ≡ spec.rule_code rule }
{
    match rule {
        None => u32::MAX,
        Some(number) => number.0 as u32,
    }
}

/// A byte with a code.
fn put_code(out: &mut Vec<u8>, code: u8) -> Result<(), AllocError>
    ensures { OnOk result (Puts out.old.items (code ∷ []) out.new.items) }
{
    out.push(code)?;
    Ok(())
}

fn put_scale(out: &mut Vec<u8>, scale: Option<u8>) -> Result<(), AllocError>
    requires { spec.is_shift scale ≡ true }
    ensures { OnOk result (Puts out.old.items (spec.scale.spelling scale) out.new.items) }
{
    put_code(out, scale_code(scale))?;
    Ok(())
}

fn put_direction(out: &mut Vec<u8>, direction: Direction) -> Result<(), AllocError>
    ensures { OnOk result (Puts out.old.items (spec.direction.spelling direction) out.new.items) }
{
    put_code(out, direction_code(direction))?;
    Ok(())
}

fn put_timeout(out: &mut Vec<u8>, timeout: Timeout) -> Result<(), AllocError>
    ensures { OnOk result (Puts out.old.items (spec.timeout.spelling timeout) out.new.items) }
{
    put_code(out, timeout.code())?;
    Ok(())
}

/// The number of a rule, 2^32 - 1 for none.
fn put_rule(out: &mut Vec<u8>, rule: Option<RuleNumber>) -> Result<(), AllocError>
    requires { spec.is_rule rule ≡ true }
    ensures { OnOk result (Puts out.old.items (spec.rule.spelling rule) out.new.items) }
{
    put_u32(out, rule_code(rule))?;
    Ok(())
}

fn put_name(out: &mut Vec<u8>, name: &IfName) -> Result<(), AllocError>
    ensures { OnOk result (Puts out.old.items (fields.name.spelling name.now) out.new.items) }
{
    out.extend_from_slice(&name.bytes)?;
    Ok(())
}

/// The bytes of an end.
fn peer_bytes(peer: &Peer) -> [u8; 32]
    requires { spec.peer.fits peer.now ≡ true }
    ensures { result ≡ spec.peer.spelling peer.now }
{
    let [low0, low1, low2, low3] = peer.low.0.to_be_bytes();
    let [high0, high1, high2, high3] = peer.high.0.to_be_bytes();
    let [window0, window1] = peer.greatest_window.to_be_bytes();
    let scale = scale_code(peer.scale);
    [
        0, 0, 0, 0, 0, 0, 0, 0, low0, low1, low2, low3, high0, high1, high2, high3, 0, 0, 0, 0,
        window0, window1, 0, 0, peer.code, scale, 0, 0, 0, 0, 0, 0,
    ]
}

fn put_peer(out: &mut Vec<u8>, peer: &Peer) -> Result<(), AllocError>
    requires { spec.peer.fits peer.now ≡ true }
    ensures { OnOk result (Puts out.old.items (spec.peer.spelling peer.now) out.new.items) }
{
    put_bytes(out, &peer_bytes(peer))?;
    Ok(())
}

/// The bytes of the parties of a key.
fn parties_bytes(parties: &Parties) -> [u8; 36]
    ensures { result ≡ spec.parties.spelling parties.now }
{
    let [outside0, outside1, outside2, outside3] = parties.outside.address.0.to_be_bytes();
    let [inside0, inside1, inside2, inside3] = parties.inside.address.0.to_be_bytes();
    let [outside_port0, outside_port1] = parties.outside.port.0.to_be_bytes();
    let [inside_port0, inside_port1] = parties.inside.port.0.to_be_bytes();
    [
        outside0,
        outside1,
        outside2,
        outside3,
        0,
        0,
        0,
        0,
        0,
        0,
        0,
        0,
        0,
        0,
        0,
        0,
        inside0,
        inside1,
        inside2,
        inside3,
        0,
        0,
        0,
        0,
        0,
        0,
        0,
        0,
        0,
        0,
        0,
        0,
        outside_port0,
        outside_port1,
        inside_port0,
        inside_port1,
    ]
}

fn put_parties(out: &mut Vec<u8>, parties: &Parties) -> Result<(), AllocError>
    ensures { OnOk result (Puts out.old.items (spec.parties.spelling parties.now) out.new.items) }
{
    put_bytes(out, &parties_bytes(parties))?;
    Ok(())
}

/// The fields of an insertion behind its ends.
fn put_rest(out: &mut Vec<u8>, insertion: &Insertion) -> Result<(), AllocError>
    requires { spec.insertion.fits insertion.now ≡ true }
    ensures { OnOk result (Puts out.old.items (spec.insertion_rest insertion.now) out.new.items) }
{
    put_zeros(out, 16)?;
    put_rule(out, insertion.rule)?;
    put_u32(out, u32::MAX)?;
    put_rule(out, insertion.translation)?;
    put_u32(out, insertion.age)?;
    put_u32(out, insertion.remaining)?;
    put_u64(out, insertion.forth.packets)?;
    put_u64(out, insertion.back.packets)?;
    put_u64(out, insertion.forth.bytes)?;
    put_u64(out, insertion.back.bytes)?;
    put_u32(out, insertion.creator)?;
    put_code(out, 2)?;
    put_u8(out, insertion.protocol.0)?;
    put_direction(out, insertion.direction)?;
    put_zeros(out, 4)?;
    put_timeout(out, insertion.timeout)?;
    put_zeros(out, 2)?;
    Ok(())
}

pub(crate) fn put_insertion(out: &mut Vec<u8>, insertion: &Insertion) -> Result<(), AllocError>
    requires { spec.insertion.fits insertion.now ≡ true }
    ensures { OnOk result (Puts out.old.items (spec.insertion.spelling insertion.now) out.new.items) }
{
    put_u64(out, insertion.number.0)?;
    put_name(out, &insertion.interface)?;
    put_parties(out, &insertion.wire)?;
    put_parties(out, &insertion.stack)?;
    put_peer(out, &insertion.maker)?;
    put_peer(out, &insertion.other)?;
    put_rest(out, insertion)?;
    Ok(())
}

pub(crate) fn put_update(out: &mut Vec<u8>, update: &Update) -> Result<(), AllocError>
    requires { spec.update.fits update.now ≡ true }
    ensures { OnOk result (Puts out.old.items (spec.update.spelling update.now) out.new.items) }
{
    put_u64(out, update.number.0)?;
    put_peer(out, &update.maker)?;
    put_peer(out, &update.other)?;
    put_u32(out, update.creator)?;
    put_u32(out, update.remaining)?;
    put_timeout(out, update.timeout)?;
    put_zeros(out, 3)?;
    Ok(())
}

pub(crate) fn put_deletion(out: &mut Vec<u8>, deletion: &Deletion) -> Result<(), AllocError>
    requires { spec.deletion.fits deletion.now ≡ true }
    ensures { OnOk result (Puts out.old.items (spec.deletion.spelling deletion.now) out.new.items) }
{
    put_u64(out, deletion.number.0)?;
    put_u32(out, deletion.creator)?;
    Ok(())
}
