//! Anchors, which may hold filter rules and anchors.
ghost use Rattle.std.specs.Prelude.{Ok};
ghost use Rattle.pfr_terms.specs.Input.{Reads};
ghost use Rattle.pfr_conf.specs.Anchors as spec;
ghost use Rattle.pfr_conf.specs.Statements.{ReadsOnto};

use crate::filter::{Action, FilterRule, action_ahead, rule_behind};
use crate::name::name_ahead;
use crate::policy::{direction_ahead, end_of_line};
use pfr_items::Items;
use pfr_net::Direction;
use pfr_terms::hosts::packet_criteria;
use pfr_terms::{ConfError, ConfErrorKind, Criteria, Name, Reader};
use pfr_words::Sign;
use std::alloc::Global;

/// How deep anchors may stand in one another.
pub const DEEPEST_ANCHOR: usize = 16;

/// An anchor without its body, with its line.
#[derive(Drop)]
pub struct AnchorRule<'a> {
    pub line: usize,
    pub name: Option<Name<'a>>,
    pub direction: Option<Direction>,
    pub is_quick: bool,
    pub criteria: Criteria<'a>,
}

/// A filter rule, or an anchor with its body; without one it is empty.
#[derive(Drop)]
pub enum FilterStatement<'a> {
    Rule(FilterRule<'a>),
    Anchor(AnchorRule<'a>, Items<FilterStatement<'a>>),
}

/// What comes behind `anchor` on this line, up to the body.
#[tactic(auto, unfolding(crate::specs::Anchors::anchor_rule))]
fn anchor_rule<'a>(
    alloc: Global,
    reader: &mut Reader<'_, 'a>,
    line: usize,
) -> Result<AnchorRule<'a>, ConfError>
    ensures { Reads (spec.anchor_rule line reader.old) result reader.new }
{
    let name = name_ahead(reader);
    let direction = direction_ahead(reader);
    let is_quick = reader.eat_word(b"quick");
    let criteria = packet_criteria(alloc, reader)?;
    Ok(AnchorRule {
        line,
        name,
        direction,
        is_quick,
        criteria,
    })
}

/// Adds the statement of a line to those found so far.
#[cycle(nest)]
fn add_line<'a>(
    alloc: Global,
    reader: &mut Reader<'_, 'a>,
    depth: usize,
    found: &mut Items<FilterStatement<'a>>,
) -> Result<(), ConfError>
    ensures { ReadsOnto (spec.one_line (spec.statement depth) found.old reader.old) result found.new reader.new }
{
    found.push(statement(alloc, reader, depth)?)?;
    end_of_line(alloc, reader)
}

/// The lines of a body up to the closing brace. Each line may hold at most `depth` anchors in one another.
#[cycle(nest)]
#[tactic(auto, using(pfr_terms::proofs::Turns::one_turn, pfr_terms::proofs::Turns::no_turn))]
fn body<'a>(
    alloc: Global,
    reader: &mut Reader<'_, 'a>,
    depth: usize,
) -> Result<Items<FilterStatement<'a>>, ConfError>
    ensures { Reads (spec.body_lines (spec.statement depth) reader.old) result reader.new }
{
    let mut found = Items::new(alloc);
    for _turn in 0..reader.turns() {
        reader.skip_line_ends();
        if reader.eat_sign(Sign::CloseBrace) {
            return Ok(found);
        }
        add_line(alloc, reader, depth, &mut found)?;
    }
    Err(reader.refuse(alloc))
}

/// The body of an anchor, if one comes next.
#[cycle(nest)]
#[tactic(auto, unfolding(crate::specs::Anchors::body))]
fn body_if_any<'a>(
    alloc: Global,
    reader: &mut Reader<'_, 'a>,
    depth: usize,
) -> Result<Items<FilterStatement<'a>>, ConfError>
    ensures { Reads (spec.body (spec.statement depth) reader.old) result reader.new }
{
    if !reader.eat_sign(Sign::OpenBrace) {
        return Ok(Items::new(alloc));
    }
    end_of_line(alloc, reader)?;
    body(alloc, reader, depth)
}

/// An anchor, whose word comes next on this line and in which at most `depth` others may stand in one another.
#[cycle(nest)]
#[tactic(auto, unfolding(crate::specs::Anchors::anchor_of))]
fn anchor<'a>(
    alloc: Global,
    reader: &mut Reader<'_, 'a>,
    line: usize,
    depth: usize,
) -> Result<FilterStatement<'a>, ConfError>
    ensures { Reads (spec.anchor_of (spec.statement depth) line reader.old) result reader.new }
{
    reader.take();
    let rule = anchor_rule(alloc, reader, line)?;
    let body = body_if_any(alloc, reader, depth)?;
    Ok(FilterStatement::Anchor(rule, body))
}

/// The filter rule behind its action.
fn rule<'a>(
    alloc: Global,
    reader: &mut Reader<'_, 'a>,
    line: usize,
    action: Action,
) -> Result<FilterStatement<'a>, ConfError>
    ensures { Reads (spec.rule line action reader.old) result reader.new }
{
    Ok(FilterStatement::Rule(rule_behind(alloc, reader, line, action)?))
}

/// A filter rule, or an anchor in which at most `depth - 1` others may stand in one another.
#[cycle(nest)]
#[tactic(auto, unfolding(crate::specs::Anchors::rule_or_anchor), using(crate::proofs::Depths::deepest, crate::proofs::Depths::deeper))]
pub(crate) fn statement<'a>(
    alloc: Global,
    reader: &mut Reader<'_, 'a>,
    depth: usize,
) -> Result<FilterStatement<'a>, ConfError>
    ensures { Reads (spec.statement depth reader.old) result reader.new }
{
    let line = reader.line_ahead();
    if let Some(action) = action_ahead(reader) {
        return rule(alloc, reader, line, action);
    }
    if !reader.sees_word(b"anchor") {
        return Err(reader.refuse(alloc));
    }
    if depth == 0 {
        return Err(reader.fault(ConfErrorKind::TooDeep));
    }
    anchor(alloc, reader, line, depth - 1)
}
