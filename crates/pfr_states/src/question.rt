//! The questions of a packet's evaluation to a table of states.
use crate::change::Side;
use pfr_track::{Binding, Key, RuleNumber};

/// A question to a table of states.
#[derive(Clone, Copy, Debug, PartialEq, Eq, Hash)]
pub enum Question {
    /// Which state has this key on a side and is bound to an interface of the scope.
    At(Side, Key, Binding),
    /// Whether there is room for one more state.
    Room,
    /// Whether there is room for one more state of a filter rule, with this number as its limit.
    RuleRoom(RuleNumber, u32),
}
