//! Laws of the definitions, each the contract of a function that does nothing.
ghost use Rattle.std.specs.Prelude.{◌≡◌, length, ℕ};
ghost use Rattle.pfr_net.specs.declared.address.Ipv4Address.{Ipv4Address};
ghost use Rattle.pfr_sync.specs.Files.{ip_header};
ghost use Rattle.pfr_sync.specs.Laws.{AStandbyHoldsTheStatesLeft, AStandbyHoldsWhatIsLeft, AStateIsToldOfOnce, ClosedMessagesStay, DeletionsNameTheState, FileHeaderVerifies, FileMessageIsAPacket, InsertionsNameTheInterface, InsertionsNameTheState, RecordsAreOfEvents, UpdatesNameTheState};

pub use pfr_messages::laws::{one_spelling, readable};

/// The messages of all parts of events but the last stay as they are, with any events that follow.
pub fn closed_messages_stay()
    ensures { ClosedMessagesStay }
{}

/// The IP header before a message in a file has 20 bytes, and its checksum verifies, from every address and for every length that
/// a message has.
pub fn file_header_verifies()
    ensures length { (source : Ipv4Address) (len : ℕ) → length (ip_header source len) ≡ 20 }
    ensures checksum { FileHeaderVerifies }
{}

/// A message in a file, seen as raw IP, is an IPv4 packet of protocol 240 to 224.0.0.240, with no options and the message's
/// length in its total length: from every address, and for every text of at most 1480 bytes.
pub fn file_message_is_a_packet()
    ensures { FileMessageIsAPacket }
{}

/// In each message of events a state's number stands at most once, in its insertions, updates and deletions together.
pub fn a_state_is_told_of_once()
    ensures { AStateIsToldOfOnce }
{}

/// A standby that applies the messages of events to an empty set of numbers ends with the numbers of the states that the events
/// leave, and no others.
pub fn a_standby_holds_what_is_left()
    ensures { AStandbyHoldsWhatIsLeft }
{}

/// A standby that takes the messages of events, from the first on, refuses none of them. It ends with the states that the events
/// leave, each with its keys, protocol, direction, rule, ends and timeout, and with no others.
pub fn standby_holds()
    ensures { AStandbyHoldsTheStatesLeft }
{}

/// A record of a run's messages names the state's own number, keys, ends, rules, traffic, age, remaining seconds, protocol,
/// direction and timeout, each at the offset that the table of fields gives.
pub fn records_name_the_state()
    ensures insertions { InsertionsNameTheState }
    ensures updates { UpdatesNameTheState }
    ensures deletions { DeletionsNameTheState }
{}

/// An insertion names the interface that made the state: if a name stands at that interface's place among the first
/// eight of a run's, the record has this name, up to its first zero.
pub fn insertions_name_the_interface()
    ensures { InsertionsNameTheInterface }
{}

/// Each record of each message of events is of one of the events: of its state, at its clock. A message tells of events
/// that follow one another, all of one clock, and its record of a state is of the state's last event among them. That
/// event is a removal if the record is a deletion, and else it isn't. The state's first event among them is its making
/// if the record is an insertion, and else it isn't.
pub fn records_are_of_events()
    ensures { RecordsAreOfEvents }
{}
