//! Filter rules.
ghost use Rattle.std.specs.Prelude.{◌≡◌, Ok};
ghost use Rattle.pfr_terms.specs.Input.{Reads};
ghost use Rattle.pfr_conf.specs.Filters as spec;

use crate::policy::{block_policy_ahead, direction_ahead};
use crate::rule_options::{RuleOptions, options_behind};
use pfr_net::{BlockPolicy, Direction};
use pfr_terms::hosts::packet_criteria;
use pfr_terms::{ConfError, Criteria, Reader};
use pfr_words::Sign;
use std::alloc::Global;

/// What a rule does with a packet; `block` alone does what the block policy says.
#[derive(Clone, Copy)]
pub enum Action {
    Pass,
    Block(Option<BlockPolicy>),
}

/// A filter rule, with its line. `log` says nothing about packets.
#[derive(Drop)]
pub struct FilterRule<'a> {
    pub line: usize,
    pub action: Action,
    pub direction: Option<Direction>,
    pub is_logged: bool,
    pub is_quick: bool,
    pub criteria: Criteria<'a>,
    pub options: RuleOptions<'a>,
}

/// `pass`, `block`, `block drop` or `block return`, if one comes next.
#[tactic(auto, unfolding(crate::specs::Filters::action))]
pub(crate) fn action_ahead(reader: &mut Reader<'_, '_>) -> Option<Action>
    ensures { spec.action reader.old ≡ Ok (result, reader.new) }
{
    if reader.eat_word(b"pass") {
        return Some(Action::Pass);
    }
    if reader.eat_word(b"block") {
        Some(Action::Block(block_policy_ahead(reader)))
    } else {
        None
    }
}

/// `log`, if it comes next; with options it is left out.
#[tactic(auto, unfolding(crate::specs::Filters::logged))]
pub(crate) fn logged(alloc: Global, reader: &mut Reader<'_, '_>) -> Result<bool, ConfError>
    ensures { Reads (spec.logged reader.old) result reader.new }
{
    if !reader.eat_word(b"log") {
        return Ok(false);
    }
    if reader.sees_sign(Sign::OpenParenthesis) {
        Err(reader.left_out(alloc, b"log"))
    } else {
        Ok(true)
    }
}

/// What comes behind the action, which stands on this line.
#[tactic(auto, unfolding(crate::specs::Filters::filter_rule))]
pub(crate) fn rule_behind<'a>(
    alloc: Global,
    reader: &mut Reader<'_, 'a>,
    line: usize,
    action: Action,
) -> Result<FilterRule<'a>, ConfError>
    ensures { Reads (spec.filter_rule line action reader.old) result reader.new }
{
    let direction = direction_ahead(reader);
    let is_logged = logged(alloc, reader)?;
    let is_quick = reader.eat_word(b"quick");
    let criteria = packet_criteria(alloc, reader)?;
    let options = options_behind(alloc, reader)?;
    Ok(FilterRule {
        line,
        action,
        direction,
        is_logged,
        is_quick,
        criteria,
        options,
    })
}
