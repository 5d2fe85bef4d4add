//! Laws of the definitions, each the contract of a function that does nothing.
ghost use Rattle.pfr_track.specs.Laws.{BothDirectionsAgree, EndsNeverGoBack, NewStateWaits, OnlyEndedAreRemoved, TranslationIsNotTracked, WhatAPacketLeaves};

/// No packet takes an end back: the ends stay of the same protocol, and no end's code is less behind a packet. Once
/// something was seen of an end of TCP, the place behind what it has sent is the same or a later one.
pub fn ends_never_go_back()
    ensures { EndsNeverGoBack }
{}

/// A packet that fits changes of a state its ends, its timeout and deadline and its counts alone. The deadline is the
/// clock and the seconds of the timeout, and the packet is counted once, on its way.
pub fn what_a_packet_leaves()
    ensures { WhatAPacketLeaves }
{}

/// A packet removes a state only if the state is of a TCP connection and both of its ends have closed.
pub fn only_ended_connections_are_removed()
    ensures { OnlyEndedAreRemoved }
{}

/// A new state's deadline is the clock and the seconds of its timeout, and its ends are of the packet's kind: the
/// maker's was seen, and the other one wasn't.
pub fn new_state_waits_by_its_timeout()
    ensures { NewStateWaits }
{}

/// Both ends are followed by the same rules. If a state is turned, so that its ends, its direction and its counts
/// change places, a packet does to it what it does to the state itself, turned as well.
pub fn both_directions_agree()
    ensures { BothDirectionsAgree }
{}

/// A translation of either end of a packet changes nothing of what the packet does to a state: tracking reads no
/// address, no port and no identifier.
pub fn a_translation_is_not_tracked()
    ensures { TranslationIsNotTracked }
{}
