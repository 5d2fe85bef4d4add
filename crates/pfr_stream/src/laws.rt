//! Laws of streams of messages, each the contract of a function that does nothing.
ghost use Rattle.pfr_stream.specs.Laws.{AStandbyReadsTheStatesLeft, FilesAreRead, MessagesOfEventsFit, SpellingsAreRead};

/// What is written is read back: if messages are written one after the other, in a file or bare, these messages are
/// read, in their order, and nothing stands behind them.
pub fn what_is_written_is_read_back()
    ensures file { FilesAreRead }
    ensures bare { SpellingsAreRead }
{}

/// The messages of events fit, so what is written of them is read back.
pub fn messages_of_events_fit()
    ensures { MessagesOfEventsFit }
{}

/// A standby that is given what is written of the events of states refuses none of it. If it takes all, it ends with
/// the states that the events leave, and with no others.
pub fn a_standby_reads_the_states_left()
    ensures { AStandbyReadsTheStatesLeft }
{}
