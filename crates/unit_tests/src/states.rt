//! A table of states that is refused memory, and the states of other tests.
use pfr_net::{Direction, Endpoint, Ipv4Address, Port, Protocol};
use pfr_states::{Table, TableChange, TableError};
use pfr_track::{
    Binding, Clock, Deadline, InterfacePlace, Key, Peers, RuleNumber, State, StateNumber,
    StateRules, Timeout, Traffic,
};

pub(crate) fn key(address: u32) -> Key {
    Key {
        protocol: Protocol::UDP,
        outside: Endpoint {
            address: Ipv4Address(0xc633_6407),
            port: Port(80),
        },
        inside: Endpoint {
            address: Ipv4Address(address),
            port: Port(1000),
        },
    }
}

pub(crate) fn state(number: u64, wire: Key, stack: Key, deadline: u64) -> State {
    let traffic = Traffic {
        packets: 1,
        bytes: 28,
    };
    State {
        number: StateNumber(number),
        direction: Direction::In,
        interface: InterfacePlace(0),
        wire,
        stack,
        rules: StateRules {
            filter: None,
            translation: None,
            is_synchronised: true,
            allows_options: false,
            binding: Binding::All,
        },
        peers: Peers::Icmp,
        made: Clock(0),
        deadline: Deadline(deadline),
        timeout: Timeout::IcmpFirst,
        forth: traffic,
        back: traffic,
    }
}

/// The number of a state, or 0.
pub(crate) fn number_of(found: Option<State>) -> u64 {
    match found {
        Some(state) => state.number.0,
        None => 0,
    }
}

/// There is no memory for a count of the last rule number.
#[test]
fn a_state_of_the_last_rule_number_is_refused(rt: HostRuntime) {
    let mut table = Table::new(rt.alloc(), 9);
    let mut made = state(6, key(6), key(6), 90);
    made.rules.filter = Some(RuleNumber(usize::MAX));
    assert!(rt; table.apply(TableChange::Made(made)) == Err(TableError::Memory));
    assert!(rt; table.len() == 0 && table.rule_room(RuleNumber(usize::MAX), 1, Clock(0)));
}
