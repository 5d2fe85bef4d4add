//! How many of the rules that packets visit are tested.

use crate::feeds::Run;
use crate::turns::Freely;
use std::test::Fail;

/// Eight rules that write a port each, none of which is a packet's, and one that holds.
const RULES: &[u8] = b"block quick proto udp to port 1\nblock quick proto udp to port 2\n\
block quick proto udp to port 3\nblock quick proto udp to port 4\nblock quick proto udp to port 5\n\
block quick proto udp to port 6\nblock quick proto udp to port 7\nblock quick proto udp to port 8\npass no state\n";

/// The ruleset of a text has an index, which passes over rules of other ports. Each of two packets visits nine rules.
/// The last one is tested, and hardly any other.
#[test]
fn rules_of_other_ports_are_passed_over(rt: HostRuntime) -> Result<(), Fail> {
    let run = Run {
        rules: RULES,
        packets: &[(1000, 0), (1001, 0)],
        size: 2,
        takes: u64::MAX,
    };
    let (left, _told) = run.by(&rt, 0, Freely)?;
    assert!(rt; left.is_ok && left.outputs.lines.as_slice() == LINES);
    assert!(rt; 2 <= left.asked_rules && left.asked_rules <= 4);
    Ok(())
}

/// The verdict lines of the two packets.
const LINES: &[u8] = b"1 0 out pass rule r=8 t=- s=-\n2 0 out pass rule r=8 t=- s=-\n";
