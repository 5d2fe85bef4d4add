//! Options.
ghost use Rattle.std.specs.Prelude.{◌≡◌, fold};
ghost use Rattle.pfr_ruleset.specs.declared.options.Options as O;
ghost use Rattle.pfr_expand.specs.Bodies.{Adds};
ghost use Rattle.pfr_expand.specs.Options as spec;

use crate::tables::exceeds;
use pfr_conf::{
    ConfError, InterfaceName, Limit, LimitSetting, Name, SetOption, TimeoutName, TimeoutSetting,
    Written,
};
use pfr_elements::{Elements, Scope, elements_of};
use pfr_flat::too_many;
use pfr_net::{BlockPolicy, IfName, Timeouts};
use pfr_ruleset::Options;
use std::alloc::{AllocError, Global};

fn set_timeouts(options: &mut Options, settings: &[TimeoutSetting])
    ensures { options.new ≡ fold spec.timeout_set options.old settings.now }
{
    for setting in settings {
        if let TimeoutName::OfStates(timeout) = setting.timeout {
            options.timeouts.set(timeout, setting.seconds);
        }
    }
}

fn set_limits(options: &mut Options, settings: &[LimitSetting])
    ensures { options.new ≡ fold spec.limit_set options.old settings.now }
{
    for setting in settings {
        if setting.limit == Limit::States {
            options.state_limit = setting.number;
        }
    }
}

fn first_line(list: &[Written<'_, InterfaceName<'_>>]) -> usize
    ensures { result ≡ spec.first_line list.now }
{
    match list {
        [] => 0,
        [first, ..] => match first {
            Written::Item(found) => found.name.line,
            Written::Macro(found) => found.line,
        },
    }
}

/// Adds the names of a list to those that are skipped.
fn skip(options: &mut Options, line: usize, found: &mut Elements<IfName>) -> Result<(), ConfError>
    ensures { Adds (spec.with_skipped line options.old found.old) result options.new }
{
    if exceeds(options.skipped.len(), found.count) {
        return Err(too_many(line));
    }
    if let Some(fault) = found.fault.take() {
        return Err(fault);
    }
    options.skipped.extend_from_slice(found.items.as_slice())?;
    Ok(())
}

/// Adds what the elements of a list mean to the names that are skipped.
fn skip_on<'a>(
    options: &mut Options,
    alloc: Global,
    scope: &Scope<'_>,
    list: &[Written<'a, InterfaceName<'a>>],
) -> Result<(), ConfError>
    ensures { Adds (spec.with_skipped_on scope.now list.now options.old) result options.new }
{
    let mut found = elements_of(alloc, scope, true, list)?;
    skip(options, first_line(list), &mut found)
}

/// An option without effect, whose word may be a macro.
fn check_word(
    alloc: Global,
    scope: &Scope<'_>,
    word: &Written<'_, Name<'_>>,
) -> Result<(), ConfError>
    ensures { (options : O.Options) → Adds (spec.without_effect scope.now options word.now) result options }
{
    match word {
        Written::Item(_) => Ok(()),
        Written::Macro(found) => scope.macros.is_plain_word(alloc, found)?,
    }
}

/// Takes an option.
#[tactic(auto, unfolding(crate::specs::Options::with_option))]
pub fn set_option(
    options: &mut Options,
    alloc: Global,
    scope: &Scope<'_>,
    option: &SetOption<'_>,
) -> Result<(), ConfError>
    ensures { Adds (spec.with_option scope.now option.now options.old) result options.new }
{
    match option {
        SetOption::SkipOn(list) => return skip_on(options, alloc, scope, list.as_slice()),
        SetOption::Timeouts(settings) => set_timeouts(options, settings.as_slice()),
        SetOption::Limits(settings) => set_limits(options, settings.as_slice()),
        SetOption::BlockPolicy(policy) => options.block_policy = *policy,
        SetOption::StatePolicy(policy) => options.state_policy = *policy,
        SetOption::HostId(number) => options.host_id = *number,
        SetOption::NormalOptimization => {}
        SetOption::WithoutEffect(word) => check_word(alloc, scope, word)?,
    }
    Ok(())
}
