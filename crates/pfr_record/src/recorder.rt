//! Answers that are recorded.
ghost use Rattle.std.specs.Prelude.{◌≡◌, OnOk};
ghost use Rattle.pfr_states.specs.declared.question.Question.{Question};
ghost use Rattle.pfr_states.specs.Answers.{purged_at};
ghost use Rattle.pfr_record.specs.Record.{Agrees, IsKept, answer_of};

use crate::answer::Answer;
use crate::lookups::Lookups;
use pfr_packet::Answers;
use pfr_rules::RuleRoom;
use pfr_states::{Question, Side, Table};
use pfr_track::{Binding, Clock, Key, RuleNumber, State};
use std::alloc::{AllocError, Global};

/// The answers of a table at a clock, with a record of the questions and answers.
#[derive(Drop)]
pub(crate) struct Recorder<'a> {
    table: &'a Table,
    clock: Clock,
    pub(crate) answers: Lookups,
    ghost agrees: { Agrees (purged_at clock table.now) answers },
}

impl<'a> Recorder<'a> {
    /// No question was asked so far.
    pub(crate) fn new(alloc: Global, table: &'a Table, clock: Clock) -> Recorder<'a>
        ensures seen { purged_at result.clock result.table.now ≡ purged_at clock table.now }
    {
        Recorder {
            table,
            clock,
            answers: Lookups::new(alloc),
        }
    }

    /// Records an answer of the table.
    fn keep(&mut self, question: Question, answer: Answer) -> Result<(), AllocError>
        requires { answer_of (purged_at self.old.clock self.old.table.now) question ≡ answer }
        ensures seen { purged_at self.new.clock self.new.table.now ≡ purged_at self.old.clock self.old.table.now }
        ensures asked { OnOk result (IsKept self.new.answers question) }
        ensures kept { (other : Question) → IsKept self.old.answers other → IsKept self.new.answers other }
    {
        self.answers.keep(question, answer)
    }
}

impl RuleRoom for Recorder<'_> {
    ghost seen = { λ recorder. purged_at recorder.clock recorder.table.now };

    ghost asked = { λ recorder question. IsKept recorder.answers question };

    #[tactic(auto, unfolding(pfr_states::specs::Answers::has_rule_room_in, pfr_states::specs::Answers::purged_at))]
    fn rule_room(&mut self, rule: RuleNumber, most: u32) -> Result<bool, AllocError> {
        let room = self.table.rule_room(rule, most, self.clock);
        self.keep(Question::RuleRoom(rule, most), Answer::HasRuleRoom(room))?;
        Ok(room)
    }
}

impl Answers for Recorder<'_> {
    #[tactic(auto, unfolding(pfr_states::specs::Answers::found_in, pfr_states::specs::Answers::purged_at))]
    fn at(&mut self, side: Side, key: &Key, scope: Binding) -> Result<Option<State>, AllocError> {
        let found = self.table.at(side, key, scope, self.clock);
        self.keep(Question::At(side, *key, scope), Answer::Found(found))?;
        Ok(found)
    }

    #[tactic(auto, unfolding(pfr_states::specs::Answers::has_room_in, pfr_states::specs::Answers::purged_at))]
    fn room(&mut self) -> Result<bool, AllocError> {
        let room = self.table.room(self.clock);
        self.keep(Question::Room, Answer::HasRoom(room))?;
        Ok(room)
    }
}
