//! A packet and the line of verdicts that a run wrote of it.
ghost use Rattle.std.specs.Prelude.{◌≡◌, IfOk, OnOk, length, true};
ghost use Rattle.pfr_show.specs.Joining as spec;

use pfr_capture::Record;
use pfr_commit::VerdictLine;
use pfr_headers::View;
use pfr_listing::{is_line, judged_in};
use pfr_net::{InterfacePlace, RuleNumber};
use pfr_packet::{Outcome, Reason, Verdict};
use pfr_ruleset::Interface;
use pfr_track::Clock;
use pfr_wording::{RuleTold, RulesTold};
use std::alloc::{AllocError, Global};

/// The run whose lines are read.
#[derive(Clone, Copy)]
pub struct Run<'a> {
    /// Its interfaces, by their places.
    pub interfaces: &'a [Interface],
    /// The rules of its ruleset.
    pub rules: &'a RulesTold<'a>,
}

/// A packet of captures, as it is met.
#[derive(Clone, Copy)]
pub struct Met<'a> {
    /// Its number, from 1.
    pub number: u64,
    pub clock: Clock,
    pub packet: &'a Record,
    pub view: &'a View,
}

/// Why a line isn't joined with a packet.
#[derive(Clone, Copy)]
pub enum Misfit {
    /// It is no line of verdicts.
    NoLine,
    /// What it says isn't so of the packet.
    OtherCapture,
    /// It names a rule that isn't there.
    OtherRuleset,
    /// Memory was refused.
    Memory,
}

impl From<AllocError> for Misfit {
    fn from(_refused: AllocError) -> Self {
        Misfit::Memory
    }
}

/// Whether a run may give this reason for a packet of this view.
fn fits(view: &View, reason: Reason) -> bool
    ensures { result ≡ spec.fits view.now reason }
{
    match view {
        View::Skip => is_not_ip(reason),
        View::Short => !is_not_ip(reason),
        View::Ipv4(_) => !is_not_ip(reason) && !is_short(reason),
    }
}

/// Whether the reason is that a packet isn't IPv4.
fn is_not_ip(reason: Reason) -> bool
    ensures { result ≡ spec.is_not_ip reason }
{
    match reason {
        Reason::NotIp => true,
        _ => false,
    }
}

/// Whether the reason is that a packet is too short.
pub(crate) fn is_short(reason: Reason) -> bool
    ensures { result ≡ spec.is_short reason }
{
    match reason {
        Reason::Short => true,
        _ => false,
    }
}

/// Whether a run may come to this verdict for this reason.
fn agree(verdict: Verdict, reason: Reason) -> bool
    ensures { result ≡ spec.agree verdict reason }
{
    match reason {
        Reason::NotIp => is_skip(verdict),
        Reason::Rule => !is_skip(verdict),
        Reason::SkipOn | Reason::State | Reason::StateError | Reason::Default | Reason::NatPass =>
            is_pass(verdict),
        Reason::Short
        | Reason::IpOption
        | Reason::StateMismatch
        | Reason::StateInsert
        | Reason::StateLimit
        | Reason::NatExhausted => is_block(verdict),
    }
}

fn is_skip(verdict: Verdict) -> bool
    ensures { result ≡ spec.is_skip verdict }
{
    match verdict {
        Verdict::Skip => true,
        _ => false,
    }
}

fn is_pass(verdict: Verdict) -> bool
    ensures { result ≡ spec.is_pass verdict }
{
    match verdict {
        Verdict::Pass => true,
        _ => false,
    }
}

fn is_block(verdict: Verdict) -> bool
    ensures { result ≡ spec.is_block verdict }
{
    match verdict {
        Verdict::Block => true,
        _ => false,
    }
}

/// Whether the rule with a number is there, if one is named.
fn is_there(rules: &[RuleTold<'_>], number: Option<RuleNumber>) -> bool
    ensures { result ≡ spec.is_there (length rules.now) number }
{
    match number {
        Some(RuleNumber(number)) => number < rules.len(),
        None => true,
    }
}

/// Whether a line is what a run writes of a packet that comes to this. `room` is room for what it writes.
fn is_written(
    run: Run<'_>,
    met: Met<'_>,
    outcome: &Outcome,
    line: &[u8],
    room: &mut Vec<u8>,
) -> Result<bool, AllocError>
    ensures { IfOk result (λ is_written. is_written ≡ true → spec.IsWritten run.entry.interfaces.now met.entry line.now outcome.now) }
{
    room.clear();
    let written = VerdictLine {
        interfaces: run.interfaces,
        number: met.number,
        clock: met.clock,
        place: InterfacePlace(met.packet.place),
        outcome,
    };
    written.put(room)?;
    Ok(is_line(room.as_slice(), line))
}

/// Says why a line isn't joined with a packet that comes to `outcome` by it, if it isn't.
fn compare(
    run: Run<'_>,
    met: Met<'_>,
    outcome: &Outcome,
    line: &[u8],
    room: &mut Vec<u8>,
) -> Result<(), Misfit>
    ensures { OnOk result (spec.Joins run.entry met.entry line.now outcome.now) }
{
    if !agree(outcome.verdict, outcome.reason) {
        return Err(Misfit::NoLine);
    }
    if !is_written(run, met, outcome, line, room)? || !fits(met.view, outcome.reason) {
        return Err(Misfit::OtherCapture);
    }
    if !is_there(run.rules.filter.as_slice(), outcome.rule)
        || !is_there(run.rules.translations.as_slice(), outcome.translation)
    {
        return Err(Misfit::OtherRuleset);
    }
    Ok(())
}

/// What a packet came to by the line of verdicts, without its newline, that a run wrote of it. `room` is room for what
/// a run writes.
pub fn join(
    alloc: Global,
    run: Run<'_>,
    met: Met<'_>,
    line: &[u8],
    room: &mut Vec<u8>,
) -> Result<Outcome, Misfit>
    ensures { IfOk result (spec.Joins run.entry met.entry line.now) }
{
    let Some(judged) = judged_in(alloc, line, room)? else {
        return Err(Misfit::NoLine);
    };
    match compare(run, met, &judged.outcome, line, room) {
        Ok(()) => Ok(judged.outcome),
        Err(misfit) => Err(misfit),
    }
}
