//! Filter rules and anchors in words.
use crate::criteria::Wording;
use pfr_net::{Direction, FlagSet, IcmpMatch, StatePolicy};
use pfr_ruleset::{FilterAction, FlagsCriterion, FlatAnchor, FlatRule, StateRule};
use pfr_texts::append_number;
use std::alloc::AllocError;

/// The letters of TCP's flags, from the lowest bit on.
const LETTERS: &[u8; 8] = b"FSRPAUEW";

/// The words for what a rule does.
fn action(action: FilterAction) -> &'static [u8] {
    match action {
        FilterAction::Pass => b"pass",
        FilterAction::Drop => b"block drop",
        FilterAction::Return => b"block return",
    }
}

/// Appends a direction, if there is one, and `quick`.
fn append_way(
    text: &mut Vec<u8>,
    direction: Option<Direction>,
    is_quick: bool,
) -> Result<(), AllocError> {
    match direction {
        Some(Direction::In) => text.extend_from_slice(b" in")?,
        Some(Direction::Out) => text.extend_from_slice(b" out")?,
        None => {}
    }
    if is_quick {
        text.extend_from_slice(b" quick")?;
    }
    Ok(())
}

/// Appends the letters of flags, from the lowest bit on.
pub fn append_letters(text: &mut Vec<u8>, flags: FlagSet) -> Result<(), AllocError> {
    let mut rest = flags.0;
    for letter in LETTERS {
        if rest % 2 == 1 {
            text.push(*letter)?;
        }
        rest /= 2;
    }
    Ok(())
}

/// Appends the flags that a rule asks for, if they are others than those of a rule that writes none.
fn append_flags(text: &mut Vec<u8>, rule: &FlatRule) -> Result<(), AllocError> {
    match rule.flags {
        FlagsCriterion::Default => Ok(()),
        FlagsCriterion::Any => match rule.state {
            Some(_) => text.extend_from_slice(b" flags any"),
            None => Ok(()),
        },
        FlagsCriterion::Written { set, mask } => {
            text.extend_from_slice(b" flags ")?;
            append_letters(text, set)?;
            text.extend_from_slice(b"/")?;
            append_letters(text, mask)
        }
    }
}

/// The name of an ICMP type in a ruleset.
fn icmp_name(kind: u8) -> Option<&'static [u8]> {
    match kind {
        0 => Some(b"echorep"),
        3 => Some(b"unreach"),
        5 => Some(b"redir"),
        8 => Some(b"echoreq"),
        11 => Some(b"timex"),
        12 => Some(b"paramprob"),
        _ => None,
    }
}

/// Appends the name of an ICMP type, or its number.
fn append_icmp_name(text: &mut Vec<u8>, kind: u8) -> Result<(), AllocError> {
    match icmp_name(kind) {
        Some(name) => text.extend_from_slice(name),
        None => append_number(text, u64::from(kind)),
    }
}

/// Appends ` icmp-type TYPE`.
fn append_icmp(text: &mut Vec<u8>, icmp: IcmpMatch) -> Result<(), AllocError> {
    text.extend_from_slice(b" icmp-type ")?;
    append_icmp_name(text, icmp.kind)?;
    match icmp.code {
        Some(code) => {
            text.extend_from_slice(b" code ")?;
            append_number(text, u64::from(code))
        }
        None => Ok(()),
    }
}

/// Appends an option of `keep state`, behind a bracket or a comma.
fn append_option(text: &mut Vec<u8>, is_first: &mut bool, word: &[u8]) -> Result<(), AllocError> {
    if *is_first {
        text.extend_from_slice(b" (")?;
    } else {
        text.extend_from_slice(b", ")?;
    }
    *is_first = false;
    text.extend_from_slice(word)
}

/// Appends ` keep state` with its options.
fn append_state(text: &mut Vec<u8>, state: &StateRule) -> Result<(), AllocError> {
    let mut is_first = true;
    text.extend_from_slice(b" keep state")?;
    if let Some(most) = state.most {
        append_option(text, &mut is_first, b"max ")?;
        append_number(text, u64::from(most))?;
    }
    if state.no_sync {
        append_option(text, &mut is_first, b"no-sync")?;
    }
    match state.policy {
        StatePolicy::IfBound => append_option(text, &mut is_first, b"if-bound")?,
        StatePolicy::Floating => {}
    }
    if is_first {
        Ok(())
    } else {
        text.extend_from_slice(b")")
    }
}

/// Appends what a rule does with states.
fn append_keeping(text: &mut Vec<u8>, rule: &FlatRule) -> Result<(), AllocError> {
    match (rule.action, &rule.state) {
        (_, Some(state)) => append_state(text, state),
        (FilterAction::Pass, None) => text.extend_from_slice(b" no state"),
        (_, None) => Ok(()),
    }
}

/// Appends ` label "NAME"`.
fn append_label(text: &mut Vec<u8>, label: Option<&[u8]>) -> Result<(), AllocError> {
    match label {
        Some(label) => {
            text.extend_from_slice(b" label \"")?;
            text.extend_from_slice(label)?;
            text.extend_from_slice(b"\"")
        }
        None => Ok(()),
    }
}

impl Wording<'_> {
    /// Appends a filter rule with its label.
    pub(crate) fn append_rule(
        &self,
        text: &mut Vec<u8>,
        rule: &FlatRule,
        label: Option<&[u8]>,
    ) -> Result<(), AllocError> {
        text.extend_from_slice(action(rule.action))?;
        append_way(text, rule.direction, rule.is_quick)?;
        self.append_criteria(text, &rule.packet, false)?;
        append_flags(text, rule)?;
        if let Some(icmp) = rule.packet.icmp {
            append_icmp(text, icmp)?;
        }
        append_keeping(text, rule)?;
        if rule.allow_opts {
            text.extend_from_slice(b" allow-opts")?;
        }
        append_label(text, label)
    }

    /// Appends the beginning of an anchor: all before its first rule.
    pub(crate) fn append_anchor(
        &self,
        text: &mut Vec<u8>,
        anchor: &FlatAnchor,
    ) -> Result<(), AllocError> {
        text.extend_from_slice(b"anchor")?;
        append_way(text, anchor.direction, anchor.is_quick)?;
        self.append_criteria(text, &anchor.packet, false)?;
        text.extend_from_slice(b" {")
    }
}
