//! What may stand behind the hosts of a filter rule, each at most once and in any order.
ghost use Rattle.std.specs.Prelude.{◌≡◌, ◌&&◌, Ok};
ghost use Rattle.pfr_terms.specs.Input.{Reads};
ghost use Rattle.pfr_conf.specs.RuleOptions as spec;
ghost use Rattle.pfr_conf.specs.Statements.{ReadsOnto};

use crate::name::some_name;
use crate::policy::state_policy_ahead;
use crate::settings::timeout_refusal;
use pfr_items::Items;
use pfr_net::{IcmpMatch, StatePolicy};
use pfr_terms::flags::flags_match;
use pfr_terms::lists::list;
use pfr_terms::{ConfError, FlagsMatch, Name, Reader, Written};
use pfr_words::Sign;
use std::alloc::Global;

/// What is written of a state in round brackets.
#[derive(Clone, Copy)]
pub struct StateOptions {
    /// The state isn't told to others.
    pub no_sync: bool,
    /// How many states of the rule there may be, from 1 to 4294967295.
    pub most: Option<u32>,
    pub policy: Option<StatePolicy>,
}

/// Nothing is written of a state.
const NO_STATE_OPTIONS: StateOptions = StateOptions {
    no_sync: false,
    most: None,
    policy: None,
};

/// Whether a rule keeps state.
#[derive(Clone, Copy)]
pub enum StateKeeping {
    No,
    Keep(StateOptions),
}

/// What is written behind the hosts of a filter rule.
#[derive(Drop)]
pub struct RuleOptions<'a> {
    pub flags: Option<FlagsMatch>,
    pub icmp_types: Option<Items<Written<'a, IcmpMatch>>>,
    pub state: Option<StateKeeping>,
    /// Packets with IP options pass.
    pub allow_opts: bool,
    pub label: Option<Name<'a>>,
}

/// Goes past the next word if it is this one and may still come.
#[tactic(auto, unfolding(crate::specs::RuleOptions::eat_if))]
fn eat_if(reader: &mut Reader<'_, '_>, may_come: bool, word: &[u8]) -> bool
    ensures { spec.eat_if may_come word.now reader.old ≡ Ok (result, reader.new) }
{
    may_come && reader.eat_word(word)
}

/// The policy of a state, which may come once.
#[tactic(auto, unfolding(crate::specs::RuleOptions::policy_option))]
fn policy_option(
    alloc: Global,
    reader: &mut Reader<'_, '_>,
    found: StateOptions,
) -> Result<StateOptions, ConfError>
    ensures { Reads (spec.policy_option found reader.old) result reader.new }
{
    if found.policy.is_some() {
        return Err(timeout_refusal(alloc, reader));
    }
    match state_policy_ahead(reader) {
        Some(policy) => Ok(StateOptions {
            policy: Some(policy),
            ..found
        }),
        None => Err(timeout_refusal(alloc, reader)),
    }
}

/// `max` with its number, which may come once, or the policy of a state.
#[tactic(auto, unfolding(crate::specs::RuleOptions::most_option))]
fn most_option(
    alloc: Global,
    reader: &mut Reader<'_, '_>,
    found: StateOptions,
) -> Result<StateOptions, ConfError>
    ensures { Reads (spec.most_option found reader.old) result reader.new }
{
    if eat_if(reader, found.most.is_none(), b"max") {
        let most = reader.number(alloc, 1, 4294967295)? as u32;
        return Ok(StateOptions {
            most: Some(most),
            ..found
        });
    }
    policy_option(alloc, reader, found)
}

/// One more option of a state.
#[tactic(auto, unfolding(crate::specs::RuleOptions::state_option))]
fn state_option(
    alloc: Global,
    reader: &mut Reader<'_, '_>,
    found: StateOptions,
) -> Result<StateOptions, ConfError>
    ensures { Reads (spec.state_option found reader.old) result reader.new }
{
    if eat_if(reader, !found.no_sync, b"no-sync") {
        return Ok(StateOptions {
            no_sync: true,
            ..found
        });
    }
    most_option(alloc, reader, found)
}

/// The options of a state, at least one, up to the closing bracket.
#[tactic(auto, using(pfr_terms::proofs::Turns::one_turn, pfr_terms::proofs::Turns::no_turn))]
fn state_options(alloc: Global, reader: &mut Reader<'_, '_>) -> Result<StateOptions, ConfError>
    ensures { Reads (spec.state_options reader.old) result reader.new }
{
    let mut found = NO_STATE_OPTIONS;
    for _turn in 0..reader.turns() {
        found = state_option(alloc, reader, found)?;
        if reader.eat_sign(Sign::CloseParenthesis) {
            return Ok(found);
        }
        reader.eat_sign(Sign::Comma);
    }
    Err(reader.refuse(alloc))
}

/// What comes behind `keep`.
#[tactic(auto, unfolding(crate::specs::RuleOptions::keep_state))]
fn keep_state(alloc: Global, reader: &mut Reader<'_, '_>) -> Result<StateKeeping, ConfError>
    ensures { Reads (spec.keep_state reader.old) result reader.new }
{
    reader.expect_word(alloc, b"state")?;
    if reader.eat_sign(Sign::OpenParenthesis) {
        return Ok(StateKeeping::Keep(state_options(alloc, reader)?));
    }
    Ok(StateKeeping::Keep(NO_STATE_OPTIONS))
}

/// `no state` or `keep state ..`, if one comes next.
#[tactic(auto, unfolding(crate::specs::RuleOptions::state_keeping))]
fn state_keeping(
    alloc: Global,
    reader: &mut Reader<'_, '_>,
) -> Result<Option<StateKeeping>, ConfError>
    ensures { Reads (spec.state_keeping reader.old) result reader.new }
{
    if reader.eat_word(b"no") {
        reader.expect_word(alloc, b"state")?;
        return Ok(Some(StateKeeping::No));
    }
    if reader.eat_word(b"keep") {
        return Ok(Some(keep_state(alloc, reader)?));
    }
    Ok(None)
}

/// Reads `allow-opts` or a label, if one comes next that may still come; answers whether it did.
#[tactic(auto, unfolding(crate::specs::RuleOptions::last_option))]
fn last_option<'a>(
    alloc: Global,
    reader: &mut Reader<'_, 'a>,
    found: &mut RuleOptions<'a>,
) -> Result<bool, ConfError>
    ensures { ReadsOnto (spec.last_option found.old reader.old) result found.new reader.new }
{
    if eat_if(reader, !found.allow_opts, b"allow-opts") {
        found.allow_opts = true;
        return Ok(true);
    }
    if eat_if(reader, found.label.is_none(), b"label") {
        found.label = Some(some_name(alloc, reader)?);
        return Ok(true);
    }
    Ok(false)
}

/// Reads `no state` or `keep state ..` if none came before, or one of the last options; answers whether one came.
#[tactic(auto, unfolding(crate::specs::RuleOptions::later_option))]
fn later_option<'a>(
    alloc: Global,
    reader: &mut Reader<'_, 'a>,
    found: &mut RuleOptions<'a>,
) -> Result<bool, ConfError>
    ensures { ReadsOnto (spec.later_option found.old reader.old) result found.new reader.new }
{
    if found.state.is_some() {
        return last_option(alloc, reader, found);
    }
    match state_keeping(alloc, reader)? {
        Some(keeping) => {
            found.state = Some(keeping);
            Ok(true)
        }
        None => last_option(alloc, reader, found),
    }
}

/// Reads one more option of a rule, if one comes next that may still come; answers whether it did.
#[tactic(auto, unfolding(crate::specs::RuleOptions::rule_option))]
fn rule_option<'a>(
    alloc: Global,
    reader: &mut Reader<'_, 'a>,
    found: &mut RuleOptions<'a>,
) -> Result<bool, ConfError>
    ensures { ReadsOnto (spec.rule_option found.old reader.old) result found.new reader.new }
{
    if eat_if(reader, found.flags.is_none(), b"flags") {
        found.flags = Some(flags_match(alloc, reader)?);
        return Ok(true);
    }
    if eat_if(reader, found.icmp_types.is_none(), b"icmp-type") {
        found.icmp_types = Some(list::<Written<'a, IcmpMatch>>(alloc, reader)?);
        return Ok(true);
    }
    later_option(alloc, reader, found)
}

/// All that is written behind the hosts of a filter rule.
#[tactic(auto, using(pfr_terms::proofs::Turns::one_turn, pfr_terms::proofs::Turns::no_turn))]
pub(crate) fn options_behind<'a>(
    alloc: Global,
    reader: &mut Reader<'_, 'a>,
) -> Result<RuleOptions<'a>, ConfError>
    ensures { Reads (spec.rule_options reader.old) result reader.new }
{
    let mut found = RuleOptions {
        flags: None,
        icmp_types: None,
        state: None,
        allow_opts: false,
        label: None,
    };
    for _turn in 0..reader.turns() {
        if !rule_option(alloc, reader, &mut found)? {
            return Ok(found);
        }
    }
    Err(reader.refuse(alloc))
}
