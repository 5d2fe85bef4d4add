//! Laws of the definitions, each the contract of a function that does nothing.
ghost use Rattle.std.specs.Prelude.{[]};
ghost use Rattle.pfr_telling.specs.Holding.{APacketLeavesTheStates, AStandbyHoldsTheStatesOfTheTable, LeaveStates};
ghost use Rattle.pfr_telling.specs.Standby.{APacketLeavesTheTable, AStandbyHoldsTheTable, Leave};

/// Events leave the states of the table, but for those of a rule with `no-sync`: so it is at the start, without events, and so it
/// stays after each packet.
pub fn a_packet_leaves_the_table()
    ensures start { Leave [] [] }
    ensures next { APacketLeavesTheTable }
{}

/// A standby that applies the messages of a run's events to an empty set of numbers holds the numbers of the states of the table, but
/// for those of a rule with `no-sync`, and no others.
pub fn a_standby_holds_the_table()
    ensures { AStandbyHoldsTheTable }
{}

/// Events leave the states of the table as they stand, but for those of a rule with `no-sync`: so it is at the start, without events,
/// and so it stays after each packet.
pub fn a_packet_leaves_the_states()
    ensures start { LeaveStates [] [] }
    ensures next { APacketLeavesTheStates }
{}

/// A standby that takes the messages of a run's events, from the first on, refuses none of them. It holds the states of the table, but
/// for those of a rule with `no-sync`, each with its keys, protocol, direction, rule, ends and timeout, and no others.
pub fn a_standby_holds_the_states_of_the_table()
    ensures { AStandbyHoldsTheStatesOfTheTable }
{}
