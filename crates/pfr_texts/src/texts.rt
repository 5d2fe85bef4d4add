//! Parts of lines, each put before the rest of its line.
ghost use Rattle.std.specs.Prelude.{◌≡◌, ◌+◌, ◌≤◌, ◌++◌, length};
ghost use Rattle.std.specs.Fmt.{decimal};
ghost use Rattle.pfr_texts.specs.Texts as spec;

use pfr_digits::Tail;
use pfr_net::{Direction, Endpoint, Ipv4Address, RuleNumber};
use pfr_track::{Key, StateNumber, Traffic};

/// Puts a direction: `in`, `out`, or `-` if there is none.
pub fn put_direction(line: &mut Tail, direction: Option<Direction>)
    requires room { length line.old + 3 ≤ 128 }
    ensures text { line.new ≡ spec.direction_text direction ++ line.old }
    ensures long { length line.new ≤ length line.old + 3 }
{
    match direction {
        Some(Direction::In) => line.put_word(b"in"),
        Some(Direction::Out) => line.put_word(b"out"),
        None => line.put_word(b"-"),
    }
}

/// Puts a rule's number: `-` if there is no rule.
pub fn put_rule(line: &mut Tail, rule: Option<RuleNumber>)
    requires room { length line.old + 20 ≤ 128 }
    ensures text { line.new ≡ spec.rule_text rule ++ line.old }
    ensures long { length line.new ≤ length line.old + 20 }
{
    match rule {
        Some(RuleNumber(number)) => line.put_number(number as u64),
        None => line.put_word(b"-"),
    }
}

/// Puts a state's number: `-` if there is no state.
pub fn put_state(line: &mut Tail, state: Option<StateNumber>)
    requires room { length line.old + 20 ≤ 128 }
    ensures text { line.new ≡ spec.state_text state ++ line.old }
    ensures long { length line.new ≤ length line.old + 20 }
{
    match state {
        Some(StateNumber(number)) => line.put_number(number),
        None => line.put_word(b"-"),
    }
}

/// Puts a number of 8 bits.
pub fn put_byte(line: &mut Tail, byte: u8)
    requires room { length line.old + 20 ≤ 128 }
    ensures text { line.new ≡ decimal byte ++ line.old }
    ensures long { length line.new ≤ length line.old + 3 }
{
    line.put_number(u64::from(byte));
}

/// Puts an address: `a.b.c.d`.
#[tactic(auto, unfolding(crate::specs::Texts::address_text))]
pub(crate) fn put_address(line: &mut Tail, address: Ipv4Address)
    requires room { length line.old + 32 ≤ 128 }
    ensures text { line.new ≡ spec.address_text address ++ line.old }
    ensures long { length line.new ≤ length line.old + 15 }
{
    let address = address.0;
    line.put_number(u64::from(address % 256));
    line.put_word(b".");
    line.put_number(u64::from(address / 256 % 256));
    line.put_word(b".");
    line.put_number(u64::from(address / 65536 % 256));
    line.put_word(b".");
    line.put_number(u64::from(address / 16777216));
}

/// Puts one end of a connection: `a.b.c.d:port`.
#[tactic(auto, unfolding(crate::specs::Texts::end_text))]
fn put_end(line: &mut Tail, end: Endpoint)
    requires room { length line.old + 38 ≤ 128 }
    ensures text { line.new ≡ spec.end_text end ++ line.old }
    ensures long { length line.new ≤ length line.old + 21 }
{
    line.put_number(u64::from(end.port.0));
    line.put_word(b":");
    put_address(line, end.address);
}

/// Puts a key: its ends, the one outside first, with a comma between.
#[tactic(auto, unfolding(crate::specs::Texts::key_text))]
pub fn put_key(line: &mut Tail, key: &Key)
    requires room { length line.old + 60 ≤ 128 }
    ensures text { line.new ≡ spec.key_text key.now ++ line.old }
    ensures long { length line.new ≤ length line.old + 43 }
{
    put_end(line, key.inside);
    line.put_word(b",");
    put_end(line, key.outside);
}

/// Puts packets and bytes.
#[tactic(auto, unfolding(crate::specs::Texts::traffic_text))]
pub fn put_traffic(line: &mut Tail, traffic: Traffic)
    requires room { length line.old + 41 ≤ 128 }
    ensures text { line.new ≡ spec.traffic_text traffic ++ line.old }
    ensures long { length line.new ≤ length line.old + 41 }
{
    line.put_number(traffic.bytes);
    line.put_word(b" ");
    line.put_number(traffic.packets);
}

/// Puts the shift of an end's windows: `-` if it offered none.
fn put_offer(line: &mut Tail, offer: Option<u8>)
    requires room { length line.old + 20 ≤ 128 }
    ensures text { line.new ≡ spec.offer_text offer ++ line.old }
    ensures long { length line.new ≤ length line.old + 3 }
{
    match offer {
        Some(shift) => put_byte(line, shift),
        None => line.put_word(b"-"),
    }
}

/// Puts what was seen of one end of a connection: `code/low/high/window/offer`.
#[tactic(auto, unfolding(crate::specs::Texts::peer_text))]
pub fn put_peer(line: &mut Tail, code: u8, low: u32, high: u32, window: u16, offer: Option<u8>)
    requires room { length line.old + 52 ≤ 128 }
    ensures text { line.new ≡ spec.peer_text code low high window offer ++ line.old }
    ensures long { length line.new ≤ length line.old + 35 }
{
    put_offer(line, offer);
    line.put_word(b"/");
    line.put_number(u64::from(window));
    line.put_word(b"/");
    line.put_number(u64::from(high));
    line.put_word(b"/");
    line.put_number(u64::from(low));
    line.put_word(b"/");
    put_byte(line, code);
}
