//! What a packet's evaluation asks of the table of states.
ghost use Rattle.std.specs.Prelude.{◌≡◌, IfOk, OnOk};
ghost use Rattle.pfr_states.specs.Answers.{found_in, has_room_in, purged_at};
ghost use Rattle.pfr_states.specs.declared.question.Question.{Question};
ghost use Rattle.pfr_states.specs.declared.question.Question.TheVariants.{At, Room};

use crate::job::Job;
use crate::keys::{Subject, subject_of};
use crate::taps::looked_up_on;
use pfr_headers::View;
use pfr_net::RuleNumber;
use pfr_rules::RuleRoom;
use pfr_states::{Lookup, Place, Side, Table};
use pfr_track::{Binding, Clock, InterfacePlace, Key, State};
use std::alloc::AllocError;

/// Answers to all questions, also whether a rule has room. All answers of one value are those of one table at one
/// clock. The value knows which questions were asked: each question that it answers is one of them from then on.
pub trait Answers: RuleRoom {
    /// The state with this key on a side that is bound to an interface of the scope; of several the one with the least
    /// number.
    fn at(&mut self, side: Side, key: &Key, scope: Binding) -> Result<Option<State>, AllocError>
        ensures seen { Self.seen self.new ≡ Self.seen self.old }
        ensures answer { IfOk result (λ found. found ≡ found_in (Self.seen self.old) side key.now scope) }
        ensures asked { OnOk result (Self.asked self.new (At side key.now scope)) }
        ensures kept { (question : Question) → Self.asked self.old question → Self.asked self.new question };
    /// Whether there is room for one more state.
    fn room(&mut self) -> Result<bool, AllocError>
        ensures seen { Self.seen self.new ≡ Self.seen self.old }
        ensures answer { IfOk result (λ room. room ≡ has_room_in (Self.seen self.old)) }
        ensures asked { OnOk result (Self.asked self.new Room) }
        ensures kept { (question : Question) → Self.asked self.old question → Self.asked self.new question };
}

/// The answers of a table itself, without a note of what was asked. They take no memory.
#[derive(Clone, Copy)]
pub struct Direct<'a> {
    pub table: &'a Table,
    pub clock: Clock,
    /// The place where the first state to be looked up may stand, by its key on the side of [`lookup_of`].
    pub hint: Option<Place>,
    /// The place of the state that was found last, if one was.
    pub found: Option<Place>,
}

impl RuleRoom for Direct<'_> {
    ghost seen = { λ direct. purged_at direct.clock direct.table.now };

    ghost asked = { λ direct question. Unit {0} };

    #[tactic(auto, unfolding(pfr_states::specs::Answers::has_rule_room_in, pfr_states::specs::Answers::purged_at))]
    fn rule_room(&mut self, rule: RuleNumber, most: u32) -> Result<bool, AllocError> {
        Ok(self.table.rule_room(rule, most, self.clock))
    }
}

impl Answers for Direct<'_> {
    #[tactic(auto, unfolding(pfr_states::specs::Answers::found_in, pfr_states::specs::Answers::purged_at))]
    fn at(&mut self, side: Side, key: &Key, scope: Binding) -> Result<Option<State>, AllocError> {
        // each way ends for itself: where ways meet, a state is copied once more
        match self
            .table
            .find_near(side, key, scope, self.clock, self.hint)
        {
            Some(found) => {
                self.found = Some(found.place);
                return Ok(Some(*found.state));
            }
            None => {
                self.found = None;
                return Ok(None);
            }
        }
    }

    #[tactic(auto, unfolding(pfr_states::specs::Answers::has_room_in, pfr_states::specs::Answers::purged_at))]
    fn room(&mut self) -> Result<bool, AllocError> {
        Ok(self.table.room(self.clock))
    }
}

/// The key by which a state is looked up first when a packet of an interface is evaluated, if there is one. To evaluate
/// several packets, look up all their states together beforehand, and name their places as hints ([`Direct`]).
pub fn lookup_of(job: &Job, place: InterfacePlace, view: &View) -> Option<Lookup> {
    let View::Ipv4(packet) = view else {
        return None;
    };
    let direction = job.direction_of(place, packet);
    match subject_of(direction, packet) {
        Subject::Alone => None,
        Subject::Embedded(key) | Subject::Connection(key) => {
            let side = looked_up_on(job.tap(), direction);
            Some((side, key, Binding::To(place)))
        }
    }
}
