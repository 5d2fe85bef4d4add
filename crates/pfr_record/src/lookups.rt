//! The questions to a table, and its answers.
ghost use Rattle.std.specs.Prelude.{◌≡◌, ◌↔◌, ◌<◌, true, IsTrue, None, Some, OnOk, [], length};
ghost use Rattle.std.specs.List.{HoldsAt};
ghost use Rattle.pfr_states.specs.declared.question.Question.TheVariants.{At, Room};
ghost use Rattle.pfr_states.specs.Answers.{found_in, has_room_in, purged_at};
ghost use Rattle.pfr_record.specs.declared.answer.Answer.TheVariants.{Found, HasRoom};
ghost use Rattle.pfr_record.specs.Record.{Agrees, IsKept, Keeps, answer_of};
ghost use Rattle.pfr_record.specs.Record as spec;

use crate::answer::{Answer, is_same_find, is_same_key, is_same_scope};
use indexmap::IndexMap;
use pfr_states::{Lookup, Place, Question, Side, Table};
use pfr_track::{Binding, Clock, Key};
use std::alloc::{AllocError, Global};
use std::marker::Model;

/// A look-up that finds no state, if there was one.
type Missed = Option<Lookup>;

/// The questions to a table, each with its answer; contracts see the list of them. Two look-ups that find no state, and
/// the answer whether there is room, take no memory of their own: most packets ask no more than that.
#[derive(Drop)]
pub struct Lookups {
    missed: Missed,
    missed_too: Missed,
    room: Option<bool>,
    others: IndexMap<Question, Answer>,
}

impl Model for Lookups {
    ghost use Rattle.pfr_record.specs.Record.{Entries, entries_of};

    ghost Value = { Entries };

    ghost view = { λ l. entries_of l.missed l.missed_too l.room l.others.entries };
}

/// Notes a look-up that finds no state, unless another one is noted here. Says whether this one is noted.
fn note_missed(place: &mut Missed, side: Side, key: &Key, scope: Binding) -> bool
    ensures noted { result ≡ true → IsKept (spec.missed place.new) (At side key.now scope) }
    ensures keeps { Keeps (spec.missed place.old) (spec.missed place.new) (At side key.now scope) (Found None) }
{
    if let Some((its_side, its_key, its_scope)) = place {
        return *its_side == side && is_same_key(its_key, key) && is_same_scope(*its_scope, scope);
    }
    *place = Some((side, *key, scope));
    true
}

/// Notes whether there is room, unless it is noted already. Says whether the answer that is noted is this one.
fn note_room(place: &mut Option<bool>, room: bool) -> bool
    ensures noted { result ≡ true → IsKept (spec.room_of place.new) Room }
    ensures keeps { Keeps (spec.room_of place.old) (spec.room_of place.new) Room (HasRoom room) }
{
    if let Some(its_room) = *place {
        return its_room == room;
    }
    *place = Some(room);
    true
}

/// Whether a table has no state with a key for a scope. The place of the hint is looked at first.
#[tactic(auto, unfolding(pfr_states::specs::Answers::found_in, pfr_states::specs::Answers::purged_at))]
fn is_none_at(
    table: &Table,
    clock: Clock,
    hint: Option<Place>,
    side: Side,
    key: &Key,
    scope: Binding,
) -> bool
    ensures { IsTrue result ↔ (found_in (purged_at clock table.now) side key.now scope ≡ None) }
{
    table.find_near(side, key, scope, clock, hint).is_none()
}

/// Whether a look-up that was noted still finds no state.
fn is_missed(table: &Table, clock: Clock, hint: Option<Place>, missed: &Missed) -> bool
    ensures { IsTrue result ↔ Agrees (purged_at clock table.now) (spec.missed missed.now) }
{
    match missed {
        Some((side, key, scope)) => is_none_at(table, clock, hint, *side, key, *scope),
        None => true,
    }
}

/// Whether a table has room if `room` says so, and has none if not.
#[tactic(auto, unfolding(pfr_states::specs::Answers::has_room_in, pfr_states::specs::Answers::purged_at))]
fn has_room(table: &Table, clock: Clock, room: bool) -> bool
    ensures { IsTrue result ↔ (has_room_in (purged_at clock table.now) ≡ room) }
{
    table.room(clock) == room
}

/// Whether the table's answer about room is the noted one, if one was noted.
fn has_room_so(table: &Table, clock: Clock, room: &Option<bool>) -> bool
    ensures { IsTrue result ↔ Agrees (purged_at clock table.now) (spec.room_of room.now) }
{
    match room {
        Some(room) => has_room(table, clock, *room),
        None => true,
    }
}

/// Whether a table gives this answer to a question at a clock. The place of the hint is looked at first.
#[tactic(auto, unfolding(pfr_states::specs::Answers::found_in, pfr_states::specs::Answers::has_room_in, pfr_states::specs::Answers::has_rule_room_in, pfr_states::specs::Answers::purged_at))]
fn is_answered(
    table: &Table,
    clock: Clock,
    hint: Option<Place>,
    question: &Question,
    answer: &Answer,
) -> bool
    ensures { IsTrue result ↔ (answer_of (purged_at clock table.now) question.now ≡ answer.now) }
{
    match (question, answer) {
        (Question::At(side, key, scope), Answer::Found(recorded)) => {
            is_same_find(&table.find_near(*side, key, *scope, clock, hint), recorded)
        }
        (Question::Room, Answer::HasRoom(room)) => table.room(clock) == *room,
        (Question::RuleRoom(rule, most), Answer::HasRuleRoom(room)) => {
            table.rule_room(*rule, *most, clock) == *room
        }
        _ => false,
    }
}

/// Whether a table gives at a clock the answer at index `index`.
#[tactic(auto, using(crate::proofs::RecordLemmas::answered_at, crate::proofs::RecordLemmas::answered_of_all))]
fn is_answered_at(
    answers: &IndexMap<Question, Answer>,
    index: usize,
    table: &Table,
    clock: Clock,
    hint: Option<Place>,
) -> bool
    requires { index < length answers.now.entries }
    ensures held { IsTrue result → HoldsAt (λ entry. answer_of (purged_at clock table.now) entry.0 ≡ entry.1) answers.now.entries index }
    ensures of_all { Agrees (purged_at clock table.now) answers.now.entries → IsTrue result }
{
    match answers.get_index(index) {
        Some((question, answer)) => is_answered(table, clock, hint, question, answer),
        None => false,
    }
}

/// Whether a table gives at a clock all these answers. For the first question the place of the hint is looked at first.
#[tactic(auto, using(crate::proofs::RecordLemmas::agrees_more, crate::proofs::RecordLemmas::agrees_all))]
fn are_answered(
    answers: &IndexMap<Question, Answer>,
    table: &Table,
    clock: Clock,
    hint: Option<Place>,
) -> bool
    ensures { IsTrue result ↔ Agrees (purged_at clock table.now) answers.now.entries }
{
    for index in 0..answers.len() {
        let hint = if index == 0 { hint } else { None };
        if !is_answered_at(answers, index, table, clock, hint) {
            return false;
        }
    }
    true
}

impl Lookups {
    /// No question was asked so far.
    pub(crate) fn new(alloc: Global) -> Lookups
        ensures { result ≡ [] }
    {
        Lookups {
            missed: None,
            missed_too: None,
            room: None,
            others: IndexMap::new(alloc),
        }
    }

    /// The number of questions.
    pub(crate) fn len(&self) -> usize
        ensures { result ≡ length self.now }
    {
        let missed = usize::from(self.missed.is_some()) + usize::from(self.missed_too.is_some());
        missed + usize::from(self.room.is_some()) + self.others.len()
    }

    /// Notes any answer. If memory is refused, no other answer is lost.
    fn keep_other(&mut self, question: Question, answer: Answer) -> Result<(), AllocError>
        ensures noted { OnOk result (IsKept self.new question) }
        ensures keeps { Keeps self.old self.new question answer }
    {
        self.others.insert(question, answer)?;
        Ok(())
    }

    /// Notes that a look-up finds no state; it takes no memory if there is a place left for it.
    fn keep_missed(&mut self, side: Side, key: Key, scope: Binding) -> Result<(), AllocError>
        ensures noted { OnOk result (IsKept self.new (At side key scope)) }
        ensures keeps { Keeps self.old self.new (At side key scope) (Found None) }
    {
        if note_missed(&mut self.missed, side, &key, scope) {
            return Ok(());
        }
        if note_missed(&mut self.missed_too, side, &key, scope) {
            return Ok(());
        }
        self.keep_other(Question::At(side, key, scope), Answer::Found(None))
    }

    /// Notes whether there is room; it takes no memory if it is the first such answer.
    fn keep_room(&mut self, room: bool) -> Result<(), AllocError>
        ensures noted { OnOk result (IsKept self.new Room) }
        ensures keeps { Keeps self.old self.new Room (HasRoom room) }
    {
        if note_room(&mut self.room, room) {
            return Ok(());
        }
        self.keep_other(Question::Room, Answer::HasRoom(room))
    }

    /// Notes an answer. If memory is refused, no other answer is lost.
    pub(crate) fn keep(&mut self, question: Question, answer: Answer) -> Result<(), AllocError>
        ensures noted { OnOk result (IsKept self.new question) }
        ensures keeps { Keeps self.old self.new question answer }
    {
        match (question, answer) {
            (Question::At(side, key, scope), Answer::Found(None)) => {
                self.keep_missed(side, key, scope)
            }
            (Question::Room, Answer::HasRoom(room)) => self.keep_room(room),
            _ => self.keep_other(question, answer),
        }
    }

    /// Whether a table gives each answer at a clock: states are the same in all fields. For the first question the
    /// place of the hint is looked at first.
    pub(crate) fn hold_near(&self, table: &Table, clock: Clock, hint: Option<Place>) -> bool
        ensures { IsTrue result ↔ Agrees (purged_at clock table.now) self.now }
    {
        if !is_missed(table, clock, hint, &self.missed) {
            return false;
        }
        if !is_missed(table, clock, None, &self.missed_too) {
            return false;
        }
        if !has_room_so(table, clock, &self.room) {
            return false;
        }
        are_answered(&self.others, table, clock, hint)
    }
}
