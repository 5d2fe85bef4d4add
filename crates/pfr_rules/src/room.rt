//! Whether a filter rule has room for one more state.
ghost use Rattle.std.specs.Prelude.{◌≡◌, IfOk, OnOk, Some, true};
ghost use Rattle.std.specs.List.{All};
ghost use Rattle.pfr_states.specs.Answers.{has_rule_room_in};
ghost use Rattle.pfr_states.specs.States.{StateTable};
ghost use Rattle.pfr_states.specs.declared.question.Question.{Question};
ghost use Rattle.pfr_states.specs.declared.question.Question.TheVariants.{RuleRoom as asks_rule_room};
ghost use Rattle.pfr_rules.specs.Filter as spec;

use crate::stretch::rule_is;
use pfr_criteria::opens_connection;
use pfr_headers::Packet;
use pfr_net::{Direction, IfName, RuleNumber};
use pfr_ruleset::{FlatRule, Ruleset};
use std::alloc::AllocError;

/// Answers whether rules have room. All answers of one value are those of one table at one clock. The value knows which
/// questions were asked: each question that it answers is one of them from then on.
pub trait RuleRoom {
    /// The table as it is once the states whose deadline has come are gone.
    ghost seen: { Self → StateTable };
    /// The questions that were asked so far.
    ghost asked: { Self → Question → Type 0 };
    /// Whether there is room for one more state of a filter rule that may have `most` states.
    fn rule_room(&mut self, rule: RuleNumber, most: u32) -> Result<bool, AllocError>
        ensures seen { seen self.new ≡ seen self.old }
        ensures answer { IfOk result (λ room. room ≡ has_rule_room_in (seen self.old) rule.0 most) }
        ensures asked { OnOk result (asked self.new (asks_rule_room rule most)) }
        ensures kept { (question : Question) → asked self.old question → asked self.new question };
}

/// The limit of a rule's states, if it has one and the packet may make a state.
#[inline]
fn limit_for(rule: &FlatRule, packet: &Packet) -> Option<u32>
    ensures { result ≡ spec.limit_for rule.now packet.now }
{
    let most = rule.state?.most?;
    if opens_connection(&packet.transport) {
        Some(most)
    } else {
        None
    }
}

/// Whether the rule at a place matches: all that it writes holds, which is tested only if it isn't known yet, and it
/// has room.
#[inline]
pub(crate) fn is_match<R: RuleRoom>(
    flat: &Ruleset,
    rule: &FlatRule,
    place: usize,
    name: &IfName,
    packet: &Packet,
    direction: Direction,
    is_known: bool,
    rooms: &mut R,
) -> Result<bool, AllocError>
    requires known { is_known ≡ true → spec.ruled flat.now name.now packet.now direction rule.now ≡ true }
    ensures seen { R.seen rooms.new ≡ R.seen rooms.old }
    ensures answer { IfOk result (λ matched. matched ≡ spec.matched flat.now (spec.rooms_in (R.seen rooms.old)) name.now packet.now direction place rule.now) }
    ensures asked { OnOk result (All (R.asked rooms.new) (spec.asked_of flat.now name.now packet.now direction place (Some rule.now))) }
    ensures kept { (question : Question) → R.asked rooms.old question → R.asked rooms.new question }
{
    if !is_known && !rule_is(flat, rule, name, packet, direction) {
        return Ok(false);
    }
    match limit_for(rule, packet) {
        None => Ok(true),
        Some(most) => rooms.rule_room(RuleNumber(place), most),
    }
}
