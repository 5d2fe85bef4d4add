//! Filter rules and anchors as flat rules, with the anchors round them.
ghost use Rattle.std.specs.Prelude.{◌≡◌, ◌≢◌, ◌<◌, ◌≤◌, ◌+◌, ◌++◌, Ok, Err, length, map, fold, OnOk, IfOk, IfErr};
ghost use Rattle.pfr_ruleset.specs.Places as places;
ghost use Rattle.pfr_terms.specs.declared.error.ConfErrorKind.TheVariants.{Memory};
ghost use Rattle.pfr_terms.specs.Input.{Gives};
ghost use Rattle.pfr_elements.specs.Elements as faults;
ghost use Rattle.pfr_flat.specs.Counts as counts;
ghost use Rattle.pfr_flat.specs.Lists as flat_lists;
ghost use Rattle.pfr_expand.specs.Bodies as spec;
ghost use Rattle.pfr_expand.specs.Bodies.{Adds};

use pfr_conf::{
    Action, AnchorRule, ConfError, ConfErrorKind, FilterRule, FilterStatement, FlagsMatch, Name,
    StateKeeping,
};
use pfr_elements::Scope;
use pfr_elements::element::first_fault;
use pfr_flat::{
    Choices, Lists, MOST_RULES, choices_or_fault, combinations, counted, lists_of, slice_of,
    too_many,
};
use pfr_items::Items;
use pfr_net::{BlockPolicy, StatePolicy};
use pfr_ruleset::{
    FilterAction, FlagsCriterion, FlatAnchor, FlatRule, Label, NO_MATCH, PacketMatch, StateRule,
    put_anchors,
};
use std::alloc::{AllocError, Global};
use std::mem::{drop, replace};

/// What the options say of rules, how many rules stand before a statement, and the statement's line.
#[derive(Clone, Copy)]
pub struct Setting {
    pub block_policy: BlockPolicy,
    pub state_policy: StatePolicy,
    pub used: usize,
    pub line: usize,
}

/// The rules of a statement or an anchor's body, and the anchors round them; or the first fault, behind which the rules
/// are only counted.
#[derive(Drop)]
pub struct Body {
    pub rules: Items<FlatRule>,
    pub anchors: Items<FlatAnchor>,
    /// The labels of all rules so far, those before the body among them.
    pub labels: Items<Label>,
    pub fault: Option<ConfError>,
    pub count: usize,
}

fn blocked(policy: BlockPolicy) -> FilterAction
    ensures { result ≡ spec.blocked policy }
{
    match policy {
        BlockPolicy::Drop => FilterAction::Drop,
        BlockPolicy::Return => FilterAction::Return,
    }
}

fn action_of(policy: BlockPolicy, action: Action) -> FilterAction
    ensures { result ≡ spec.action_of policy action }
{
    match action {
        Action::Pass => FilterAction::Pass,
        Action::Block(Some(written)) => blocked(written),
        Action::Block(None) => blocked(policy),
    }
}

/// The state that a rule keeps.
fn state_of(policy: StatePolicy, action: Action, keeping: Option<StateKeeping>) -> Option<StateRule>
    ensures { result ≡ spec.state_of policy action keeping }
{
    match (action, keeping) {
        (Action::Block(_), _) => None,
        (Action::Pass, None) => Some(StateRule {
            policy,
            no_sync: false,
            most: None,
        }),
        (Action::Pass, Some(StateKeeping::No)) => None,
        (Action::Pass, Some(StateKeeping::Keep(options))) => Some(StateRule {
            policy: options.policy.unwrap_or(policy),
            no_sync: options.no_sync,
            most: options.most,
        }),
    }
}

fn flags_of(state: Option<StateRule>, flags: Option<FlagsMatch>) -> FlagsCriterion
    ensures { result ≡ spec.flags_of state flags }
{
    match flags {
        None if state.is_some() => FlagsCriterion::Default,
        None => FlagsCriterion::Any,
        Some(FlagsMatch::Any) => FlagsCriterion::Any,
        Some(FlagsMatch::Of { set, mask }) => FlagsCriterion::Written { set, mask },
    }
}

/// What all flat rules of one rule have alike, with the place of its label.
#[tactic(auto, unfolding(crate::specs::Bodies::flat_rule))]
fn flat_rule(setting: Setting, label: Option<u16>, rule: &FilterRule<'_>) -> FlatRule
    ensures { result ≡ spec.flat_rule setting label rule.now }
{
    let state = state_of(setting.state_policy, rule.action, rule.options.state);
    FlatRule {
        action: action_of(setting.block_policy, rule.action),
        direction: rule.direction,
        is_quick: rule.is_quick,
        label,
        packet: NO_MATCH,
        flags: flags_of(state, rule.options.flags),
        state,
        allow_opts: rule.options.allow_opts,
        line: rule.line,
    }
}

/// Puts a rule's label behind the others, if one is written, and answers its place. The 65537th is `TooMany` at `line`.
fn add_label(
    alloc: Global,
    labels: &mut Items<Label>,
    line: usize,
    label: &Option<Name<'_>>,
) -> Result<Option<u16>, ConfError>
    ensures place { IfOk result (λ place. place ≡ spec.label_place labels.old label.now) }
    ensures added { IfOk result (λ place. spec.with_label line labels.old label.now ≡ Ok labels.new) }
    ensures refused { IfErr result (λ e. e.kind ≢ Memory → spec.with_label line labels.old label.now ≡ Err e) }
{
    let Some(name) = label else {
        return Ok(None);
    };
    let place = labels.len();
    if place < MOST_RULES {
        let text = Items::copied(alloc, name.text.as_slice())?;
        labels.push(Label { text })?;
        Ok(Some(place as u16))
    } else {
        Err(too_many(line))
    }
}

/// Puts a flat rule for each match behind the others.
fn put_rules(
    out: &mut Items<FlatRule>,
    rule: FlatRule,
    matches: &[PacketMatch],
) -> Result<(), AllocError>
    ensures { OnOk result (out.new ≡ out.old ++ map (λ m. record rule { packet = m }) matches.now) }
{
    for packet in matches {
        out.push(FlatRule {
            packet: *packet,
            ..rule
        })?;
    }
    Ok(())
}

impl Body {
    /// No rules yet, behind rules with these labels.
    #[tactic(auto, using(crate::proofs::Places::none_are_placed))]
    pub fn new(alloc: Global, labels: Items<Label>) -> Body
        ensures made { result ≡ spec.empty_body labels }
        ensures placed { places.ArePlaced result.rules result.anchors }
    {
        Body {
            rules: Items::new(alloc),
            anchors: Items::new(alloc),
            labels,
            fault: None,
            count: 0,
        }
    }

    fn add_fault(&mut self, fault: ConfError)
        ensures { self.new ≡ record self.old { fault = faults.first_fault self.old.fault fault } }
    {
        self.fault = first_fault(replace(&mut self.fault, None), fault);
    }

    /// Makes the rules of a rule, unless a fault came before.
    #[tactic(auto, using(crate::proofs::Places::more_are_placed))]
    fn make_chosen(
        &mut self,
        alloc: Global,
        rule: FlatRule,
        choices: &Choices,
    ) -> Result<(), AllocError>
        requires { places.ArePlaced self.old.rules self.old.anchors }
        ensures made { OnOk result (self.new ≡ spec.with_made rule (Ok choices.now) self.old) }
        ensures placed { OnOk result (places.ArePlaced self.new.rules self.new.anchors) }
    {
        if self.fault.is_some() {
            return Ok(());
        }
        let matches = combinations(alloc, choices)?;
        put_rules(&mut self.rules, rule, matches.as_slice())
    }

    /// The same, or the fault of the rule's lists.
    fn make(
        &mut self,
        alloc: Global,
        rule: FlatRule,
        choices: Result<Choices, ConfError>,
    ) -> Result<(), AllocError>
        requires { places.ArePlaced self.old.rules self.old.anchors }
        ensures made { OnOk result (self.new ≡ spec.with_made rule choices self.old) }
        ensures placed { OnOk result (places.ArePlaced self.new.rules self.new.anchors) }
    {
        if let Ok(chosen) = &choices {
            let made = self.make_chosen(alloc, rule, chosen);
            drop(choices);
            return made;
        }
        if let Some(fault) = choices.err() {
            self.add_fault(fault);
        }
        Ok(())
    }
}

/// How many rules a statement on `line` has (`before`, and `copies` for each combination of its lists), and what may be
/// chosen of the lists.
pub(crate) fn counted_choices(
    alloc: Global,
    used: usize,
    line: usize,
    lists: Lists,
    before: usize,
    copies: usize,
) -> Result<(usize, Result<Choices, ConfError>), ConfError>
    requires { (before ≤ 65536) × (copies ≤ 65536) }
    ensures count { IfOk result (λ made. counts.counted used line lists before copies ≡ Ok made.0) }
    ensures choices { IfOk result (λ made. made.1 ≡ flat_lists.choices_or_fault lists) }
    ensures within { IfOk result (λ made. used + made.0 ≤ 65536) }
    ensures refused { IfErr result (λ e. e.kind ≢ Memory → counts.counted used line lists before copies ≡ Err e) }
{
    match counted(used, line, &lists, before, copies) {
        Ok(count) => Ok((count, choices_or_fault(alloc, lists)?)),
        Err(fault) => {
            drop(lists);
            Err(fault)
        }
    }
}

/// The rules of a rule.
#[tactic(auto, unfolding(crate::specs::Bodies::with_rule))]
fn add_rule(
    alloc: Global,
    scope: &Scope<'_>,
    setting: Setting,
    out: &mut Body,
    rule: &FilterRule<'_>,
) -> Result<(), ConfError>
    requires few { out.old.count ≤ 65536 }
    requires placed { places.ArePlaced out.old.rules out.old.anchors }
    ensures made { Adds (spec.with_rule scope.now setting rule.now out.old) result out.new }
    ensures counted { OnOk result (out.new.count ≤ 65536) }
    ensures placed { OnOk result (places.ArePlaced out.new.rules out.new.anchors) }
{
    let label = add_label(alloc, &mut out.labels, setting.line, &rule.options.label)?;
    let types = slice_of(&rule.options.icmp_types);
    let lists = lists_of(alloc, scope, true, &rule.criteria, types)?;
    let (count, choices) = counted_choices(alloc, setting.used, setting.line, lists, out.count, 1)?;
    out.count = count;
    out.make(alloc, flat_rule(setting, label, rule), choices)?;
    Ok(())
}

fn or_fault(first: Option<ConfError>, second: Option<ConfError>) -> Option<ConfError>
    ensures { result ≡ spec.or_fault first second }
{
    match first {
        Some(first) => Some(first),
        None => second,
    }
}

/// Puts an anchor with a copy of its body behind what is there.
fn put_copy(
    out: &mut Body,
    anchor: FlatAnchor,
    inner: &Body,
    packet: PacketMatch,
) -> Result<(), AllocError>
    requires some { 0 < length inner.now.rules }
    requires placed { places.ArePlaced inner.now.rules inner.now.anchors }
    ensures { OnOk result (out.new ≡ spec.with_copy anchor inner.now out.old packet) }
{
    let place = out.rules.len();
    out.rules.extend_from_slice(inner.rules.as_slice())?;
    out.anchors.push(FlatAnchor {
        packet,
        first: place,
        last: out.rules.len() - 1,
        ..anchor
    })?;
    put_anchors(
        &mut out.anchors,
        place,
        inner.rules.len(),
        inner.anchors.as_slice(),
    )
}

/// The same; its contract says that the places stay right too.
fn add_copy(
    out: &mut Body,
    anchor: FlatAnchor,
    inner: &Body,
    packet: PacketMatch,
) -> Result<(), AllocError>
    requires some { 0 < length inner.now.rules }
    requires inner { places.ArePlaced inner.now.rules inner.now.anchors }
    requires placed { places.ArePlaced out.old.rules out.old.anchors }
    ensures made { OnOk result (out.new ≡ spec.with_copy anchor inner.now out.old packet) }
    ensures placed { OnOk result (places.ArePlaced out.new.rules out.new.anchors) }
{
    put_copy(out, anchor, inner, packet)?;
    Ok(())
}

/// Puts an anchor with a copy of its body for each match behind what is there.
fn put_copies(
    out: &mut Body,
    anchor: FlatAnchor,
    inner: &Body,
    matches: &[PacketMatch],
) -> Result<(), AllocError>
    requires some { 0 < length inner.now.rules }
    requires inner { places.ArePlaced inner.now.rules inner.now.anchors }
    requires placed { places.ArePlaced out.old.rules out.old.anchors }
    ensures made { OnOk result (out.new ≡ fold (spec.with_copy anchor inner.now) out.old matches.now) }
    ensures count { OnOk result (out.new.count ≡ out.old.count) }
    ensures placed { OnOk result (places.ArePlaced out.new.rules out.new.anchors) }
{
    for packet in matches {
        add_copy(out, anchor, inner, *packet)?;
    }
    Ok(())
}

/// The anchors of an anchor, each with the whole body, unless there is a fault.
fn copy_chosen(
    alloc: Global,
    out: &mut Body,
    anchor: FlatAnchor,
    choices: &Choices,
    inner: &mut Body,
) -> Result<(), AllocError>
    requires inner { places.ArePlaced inner.old.rules inner.old.anchors }
    requires placed { places.ArePlaced out.old.rules out.old.anchors }
    ensures made { OnOk result (out.new ≡ spec.with_copies anchor (Ok choices.now) inner.old out.old) }
    ensures count { OnOk result (out.new.count ≡ out.old.count) }
    ensures placed { OnOk result (places.ArePlaced out.new.rules out.new.anchors) }
{
    let before = replace(&mut out.fault, None);
    out.fault = or_fault(before, replace(&mut inner.fault, None));
    if out.fault.is_some() || inner.rules.len() == 0 {
        return Ok(());
    }
    let matches = combinations(alloc, choices)?;
    put_copies(out, anchor, inner, matches.as_slice())
}

/// The same, or the fault of the anchor's lists.
fn make_copies(
    alloc: Global,
    out: &mut Body,
    anchor: FlatAnchor,
    choices: Result<Choices, ConfError>,
    inner: &mut Body,
) -> Result<(), AllocError>
    requires inner { places.ArePlaced inner.old.rules inner.old.anchors }
    requires placed { places.ArePlaced out.old.rules out.old.anchors }
    ensures made { OnOk result (out.new ≡ spec.with_copies anchor choices inner.old out.old) }
    ensures count { OnOk result (out.new.count ≡ out.old.count) }
    ensures placed { OnOk result (places.ArePlaced out.new.rules out.new.anchors) }
{
    if let Ok(chosen) = &choices {
        let made = copy_chosen(alloc, out, anchor, chosen, inner);
        drop(choices);
        return made;
    }
    if let Some(fault) = choices.err() {
        out.add_fault(fault);
    }
    Ok(())
}

fn flat_anchor(anchor: &AnchorRule<'_>) -> FlatAnchor
    ensures { result ≡ spec.flat_anchor anchor.now }
{
    FlatAnchor {
        direction: anchor.direction,
        is_quick: anchor.is_quick,
        packet: NO_MATCH,
        first: 0,
        last: 0,
    }
}

fn has_rules(body: &Body) -> bool
    ensures { result ≡ spec.has_rules body.now }
{
    !body.rules.as_slice().is_empty()
}

/// The rules of an anchor, by what its body comes to. If the body has no rule, nothing is made of the anchor's lists.
#[tactic(auto, using(crate::proofs::Depths::labels_taken))]
fn add_anchor(
    alloc: Global,
    scope: &Scope<'_>,
    setting: Setting,
    out: &mut Body,
    anchor: &AnchorRule<'_>,
    inner: &mut Body,
) -> Result<(), ConfError>
    requires few { (out.old.count ≤ 65536) × (inner.old.count ≤ 65536) }
    requires inner { places.ArePlaced inner.old.rules inner.old.anchors }
    requires placed { places.ArePlaced out.old.rules out.old.anchors }
    ensures made { Adds (spec.with_body scope.now setting anchor.now inner.old out.old) result out.new }
    ensures counted { OnOk result (out.new.count ≤ 65536) }
    ensures placed { OnOk result (places.ArePlaced out.new.rules out.new.anchors) }
{
    let lists = lists_of(alloc, scope, has_rules(inner), &anchor.criteria, None)?;
    let (count, choices) = counted_choices(
        alloc,
        setting.used,
        setting.line,
        lists,
        out.count,
        inner.count,
    )?;
    out.count = count;
    out.labels = replace(&mut inner.labels, Items::new(alloc));
    make_copies(alloc, out, flat_anchor(anchor), choices, inner)?;
    Ok(())
}

/// The rules of a body's statements, behind rules with these labels. Up to `depth` anchors may stand in one another.
#[cycle(nest)]
fn body_of(
    alloc: Global,
    scope: &Scope<'_>,
    setting: Setting,
    labels: Items<Label>,
    statements: &[FilterStatement<'_>],
    depth: usize,
) -> Result<Body, ConfError>
    ensures made { Gives (spec.body_from (spec.statement depth scope.now setting) (spec.empty_body labels) statements.now) result }
    ensures counted { IfOk result (λ body. body.count ≤ 65536) }
    ensures placed { IfOk result (λ body. places.ArePlaced body.rules body.anchors) }
{
    let mut out = Body::new(alloc, labels);
    for statement in statements {
        add_statement(alloc, scope, setting, &mut out, statement, depth)?;
    }
    Ok(out)
}

/// The rules of a statement. Up to `depth` anchors may stand in one another.
#[cycle(nest)]
#[tactic(auto, using(crate::proofs::Depths::rule, crate::proofs::Depths::deepest, crate::proofs::Depths::deeper, crate::proofs::Depths::labels_go_in))]
pub(crate) fn add_statement(
    alloc: Global,
    scope: &Scope<'_>,
    setting: Setting,
    out: &mut Body,
    statement: &FilterStatement<'_>,
    depth: usize,
) -> Result<(), ConfError>
    requires few { out.old.count ≤ 65536 }
    requires placed { places.ArePlaced out.old.rules out.old.anchors }
    ensures made { Adds (spec.statement depth scope.now setting statement.now out.old) result out.new }
    ensures counted { OnOk result (out.new.count ≤ 65536) }
    ensures placed { OnOk result (places.ArePlaced out.new.rules out.new.anchors) }
{
    match statement {
        FilterStatement::Rule(rule) => add_rule(alloc, scope, setting, out, rule),
        FilterStatement::Anchor(anchor, body) => {
            if depth == 0 {
                return Err(ConfError {
                    line: anchor.line,
                    kind: ConfErrorKind::TooDeep,
                });
            }
            let labels = replace(&mut out.labels, Items::new(alloc));
            let mut inner = body_of(alloc, scope, setting, labels, body.as_slice(), depth - 1)?;
            let added = add_anchor(alloc, scope, setting, out, anchor, &mut inner);
            drop(inner);
            added
        }
    }
}
