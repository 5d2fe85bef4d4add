//! The evaluation of one packet.
ghost use Rattle.std.specs.Prelude.{◌≡◌, IfOk, OnOk};
ghost use Rattle.std.specs.List.{All};
ghost use Rattle.pfr_states.specs.declared.question.Question.{Question};
ghost use Rattle.pfr_packet.specs.Outcomes.{fresh};
ghost use Rattle.pfr_packet.specs.Passages.{by_way};
ghost use Rattle.pfr_packet.specs.Plan.{Goes};
ghost use Rattle.pfr_packet.specs.Steps as spec;

use crate::answers::Answers;
use crate::filtering::{Conduct, filter_into};
use crate::found::{embed, track};
use crate::job::Job;
use crate::keys::{Subject, subject_of};
use crate::making::make_state;
use crate::outcome::Outcome;
use crate::passage::{Passage, mapped_end};
use crate::picks::{Pick, ports_for};
use crate::taps::{is_translated, looked_up_on, show};
use crate::verdict::{Reason, Verdict};
use pfr_headers::{Packet, View};
use pfr_net::{Binding, Direction, InterfacePlace};
use pfr_rules::{Hit, NewEnd, Visits, translate};
use pfr_ruleset::NatAddress;
use pfr_track::{Clock, Key, State, StateNumber, StateRules, make};
use std::alloc::{AllocError, Global};

/// An IPv4 packet that is evaluated.
///
/// Each way writes what the packet comes to over a fresh outcome. The contracts speak of the outcome only if memory
/// isn't refused. An outcome is large, and would be copied where ways meet. The ways that few packets go are calls of
/// their own.
#[derive(Clone, Copy)]
struct Arrival<'a> {
    alloc: Global,
    job: &'a Job,
    number: u64,
    clock: Clock,
    /// The interface on which it was captured.
    place: InterfacePlace,
    packet: &'a Packet,
    direction: Direction,
}

/// Names the translation rule of a passage, and the translation rules that were visited, in what the filter made of the
/// packet.
fn name_translation(outcome: &mut Outcome, passage: &Passage, visits: Visits)
    ensures { outcome.new ≡ by_way passage.now visits outcome.old }
{
    outcome.translation = passage.translation;
    outcome.visited.translation = visits;
}

impl Arrival<'_> {
    /// What it comes to by the filter alone.
    #[inline(never)]
    fn write_filtered<A: Answers>(
        &self,
        answers: &mut A,
        outcome: &mut Outcome,
    ) -> Result<(), AllocError>
        requires { outcome.old ≡ fresh }
        ensures seen { A.seen answers.new ≡ A.seen answers.old }
        ensures goes { OnOk result (Goes (A.seen answers.old) (spec.alone_plan self.now) outcome.new (A.asked answers.new)) }
        ensures kept { (question : Question) → A.asked answers.old question → A.asked answers.new question }
    {
        let rules = self.job.rules();
        let name = self.job.name_in(self.place);
        filter_into(
            self.alloc,
            rules,
            &name,
            self.packet,
            self.direction,
            answers,
            outcome,
        )?;
        Ok(())
    }

    /// What it comes to as an ICMP error, by the connection of the packet that it embeds.
    #[inline(never)]
    fn write_embedded<A: Answers>(
        &self,
        key: &Key,
        answers: &mut A,
        outcome: &mut Outcome,
    ) -> Result<(), AllocError>
        requires { outcome.old ≡ fresh }
        ensures seen { A.seen answers.new ≡ A.seen answers.old }
        ensures goes { OnOk result (Goes (A.seen answers.old) (spec.embedded_plan self.now key.now) outcome.new (A.asked answers.new)) }
        ensures kept { (question : Question) → A.asked answers.old question → A.asked answers.new question }
    {
        let side = looked_up_on(self.job.tap(), self.direction);
        match answers.at(side, key, Binding::To(self.place))? {
            Some(state) => {
                embed(outcome, self.direction, self.packet, &state);
                show(self.job.tap(), self.direction, outcome);
                Ok(())
            }
            None => self.write_filtered(answers, outcome),
        }
    }

    /// What it does to the state of its connection, and comes to, written over a fresh outcome. The state is changed in
    /// its place.
    #[inline(always)]
    fn by_state(&self, state: &mut State, outcome: &mut Outcome)
        requires { outcome.old ≡ fresh }
        ensures { outcome.new ≡ spec.following self.now.job.now self.now.clock self.now.packet.now self.now.direction state.old }
    {
        outcome.find_state(self.direction, state);
        let timeouts = self.job.timeouts();
        track(
            outcome,
            self.direction,
            self.packet,
            state,
            self.clock,
            timeouts,
        );
        show(self.job.tap(), self.direction, outcome);
    }

    /// What becomes of it behind a passage, before a state is made for it; `visits` are the translation rules that were
    /// visited. It answers what the state says of its rules, for a packet that passes and may make a state.
    fn judge<A: Answers>(
        &self,
        passage: &Passage,
        visits: Visits,
        answers: &mut A,
        outcome: &mut Outcome,
    ) -> Result<Option<StateRules>, AllocError>
        requires { outcome.old ≡ fresh }
        ensures seen { A.seen answers.new ≡ A.seen answers.old }
        ensures outcome { OnOk result (outcome.new ≡ spec.judged_for self.now (A.seen answers.old) passage.now visits) }
        ensures rules { IfOk result (λ kept. kept ≡ spec.kept_for self.now (A.seen answers.old) passage.now) }
        ensures asked { OnOk result (All (A.asked answers.new) (spec.asked_for self.now (A.seen answers.old) passage.now)) }
        ensures kept { (question : Question) → A.asked answers.old question → A.asked answers.new question }
    {
        let policy = self.job.rules().options.state_policy;
        if passage.passes {
            *outcome = Outcome::unfiltered(
                self.alloc,
                self.direction,
                self.packet,
                passage,
                visits,
            );
            return Ok(passage.kept(self.place, policy, None, false, None));
        }
        let conduct = self.filter_behind(passage, answers, outcome)?;
        let kept = passage.kept(
            self.place,
            policy,
            outcome.rule,
            conduct.allows_options,
            conduct.state,
        );
        name_translation(outcome, passage, visits);
        Ok(kept)
    }

    /// What the filter makes of it behind a passage. It answers what the deciding rule says beyond its verdict.
    fn filter_behind<A: Answers>(
        &self,
        passage: &Passage,
        answers: &mut A,
        outcome: &mut Outcome,
    ) -> Result<Conduct, AllocError>
        requires { outcome.old ≡ fresh }
        ensures seen { A.seen answers.new ≡ A.seen answers.old }
        ensures outcome { OnOk result (outcome.new ≡ spec.filtered_behind self.now (A.seen answers.old) passage.now) }
        ensures leave { IfOk result (λ conduct. conduct.allows_options ≡ spec.leave_behind self.now (A.seen answers.old) passage.now) }
        ensures state { IfOk result (λ conduct. conduct.state ≡ spec.state_behind self.now (A.seen answers.old) passage.now) }
        ensures asked { OnOk result (All (A.asked answers.new) (spec.asked_behind self.now (A.seen answers.old) passage.now)) }
        ensures kept { (question : Question) → A.asked answers.old question → A.asked answers.new question }
    {
        let rules = self.job.rules();
        let name = self.job.name_in(self.place);
        match passage.translated(self.direction, self.packet) {
            None => filter_into(
                self.alloc,
                rules,
                &name,
                self.packet,
                self.direction,
                answers,
                outcome,
            ),
            Some(packet) => filter_into(
                self.alloc,
                rules,
                &name,
                &packet,
                self.direction,
                answers,
                outcome,
            ),
        }
    }

    /// What it comes to as the first packet of a connection, by what it came to so far, and by what the state that it
    /// may make says of its rules.
    fn open<A: Answers>(
        &self,
        passage: &Passage,
        kept: Option<StateRules>,
        answers: &mut A,
        outcome: &mut Outcome,
    ) -> Result<(), AllocError>
        ensures seen { A.seen answers.new ≡ A.seen answers.old }
        ensures goes { OnOk result (Goes (A.seen answers.old) (spec.opened_plan self.now passage.now outcome.old kept) outcome.new (A.asked answers.new)) }
        ensures kept { (question : Question) → A.asked answers.old question → A.asked answers.new question }
    {
        match kept {
            Some(rules) if outcome.verdict.lets_pass() => {
                let state = make(
                    StateNumber(self.number),
                    self.packet,
                    self.direction,
                    self.place,
                    passage.wire,
                    passage.stack,
                    rules,
                    self.clock,
                    self.job.timeouts(),
                );
                make_state(self.packet, &state, answers, outcome)
            }
            _ => Ok(()),
        }
    }

    /// What it comes to as the first packet of a connection that goes through by a passage.
    fn go<A: Answers>(
        &self,
        passage: &Passage,
        visits: Visits,
        answers: &mut A,
        outcome: &mut Outcome,
    ) -> Result<(), AllocError>
        requires { outcome.old ≡ fresh }
        ensures seen { A.seen answers.new ≡ A.seen answers.old }
        ensures goes { OnOk result (Goes (A.seen answers.old) (spec.going_plan self.now visits passage.now) outcome.new (A.asked answers.new)) }
        ensures kept { (question : Question) → A.asked answers.old question → A.asked answers.new question }
    {
        let kept = self.judge(passage, visits, answers, outcome)?;
        self.open(passage, kept, answers, outcome)
    }

    /// What it comes to as the first packet of a connection that gets an address of a `nat` rule, with a free port.
    fn by_pick<A: Answers>(
        &self,
        key: &Key,
        hit: &Hit,
        target: &NatAddress,
        visits: Visits,
        answers: &mut A,
        outcome: &mut Outcome,
    ) -> Result<(), AllocError>
        requires { outcome.old ≡ fresh }
        ensures seen { A.seen answers.new ≡ A.seen answers.old }
        ensures goes { OnOk result (Goes (A.seen answers.old) (spec.pick_plan self.now visits key.now hit.now target.now) outcome.new (A.asked answers.new)) }
        ensures kept { (question : Question) → A.asked answers.old question → A.asked answers.new question }
    {
        let transport = &self.packet.transport;
        let pick = Pick {
            transport,
            stack: key,
            address: target.address,
        };
        let ports = ports_for(transport, target, key.inside.port);
        match pick.picked(ports, self.job.seed(), self.number, answers)? {
            None => {
                *outcome = Outcome::exhausted(self.alloc, self.direction, hit.number, visits);
                Ok(())
            }
            Some(wire) => self.go(&Passage::picked(key, hit, wire), visits, answers, outcome),
        }
    }

    /// What it comes to as the first packet of a connection, by the translation rule that translates it, if one does.
    fn by_hit<A: Answers>(
        &self,
        key: &Key,
        hit: Option<Hit>,
        visits: Visits,
        answers: &mut A,
        outcome: &mut Outcome,
    ) -> Result<(), AllocError>
        requires { outcome.old ≡ fresh }
        ensures seen { A.seen answers.new ≡ A.seen answers.old }
        ensures goes { OnOk result (Goes (A.seen answers.old) (spec.hit_plan self.now visits key.now hit) outcome.new (A.asked answers.new)) }
        ensures kept { (question : Question) → A.asked answers.old question → A.asked answers.new question }
    {
        let Some(hit) = hit else {
            return self.go(&Passage::untranslated(key), visits, answers, outcome);
        };
        match hit.new_end {
            NewEnd::Mapped(address, mapping) => {
                let inside = mapped_end(&self.packet.transport, key.inside, address, mapping);
                let passage = Passage::mapped(self.direction, key, &hit, inside);
                self.go(&passage, visits, answers, outcome)
            }
            NewEnd::Picked(target) => { self.by_pick(key, &hit, &target, visits, answers, outcome) }
        }
    }

    /// The translation rule that translates it, if one does, and the translation rules that are visited for it.
    fn translated(&self) -> Result<(Option<Hit>, Visits), AllocError>
        ensures hit { IfOk result (λ found. found.0 ≡ spec.translation_hit self.now.job.now self.now.place self.now.packet.now self.now.direction) }
        ensures visits { IfOk result (λ found. found.1 ≡ spec.translations_asked self.now.job.now self.now.place self.now.packet.now self.now.direction) }
    {
        if is_translated(self.job.tap(), self.direction) {
            return Ok((None, Visits::new(self.alloc)));
        }
        let name = self.job.name_in(self.place);
        translate(
            self.alloc,
            self.job.rules(),
            &name,
            self.packet,
            self.direction,
        )
    }

    /// What it comes to as the first packet of a connection.
    #[inline(never)]
    fn write_opened<A: Answers>(
        &self,
        key: &Key,
        answers: &mut A,
        outcome: &mut Outcome,
    ) -> Result<(), AllocError>
        requires { outcome.old ≡ fresh }
        ensures seen { A.seen answers.new ≡ A.seen answers.old }
        ensures goes { OnOk result (Goes (A.seen answers.old) (spec.opening_plan self.now key.now) outcome.new (A.asked answers.new)) }
        ensures kept { (question : Question) → A.asked answers.old question → A.asked answers.new question }
    {
        let (hit, visits) = self.translated()?;
        self.by_hit(key, hit, visits, answers, outcome)
    }
}

/// What packet `number` of a run, captured on an interface, comes to at a clock, by what a table of states answers: its
/// verdict and why, the rules and the state that are named, the rules that were visited, and what it changes in its own
/// bytes and in the table.
///
/// The outcome depends on the answers alone: over every table that gives the same answers it is the same.
pub fn step<A: Answers>(
    alloc: Global,
    job: &Job,
    number: u64,
    clock: Clock,
    place: InterfacePlace,
    view: &View,
    answers: &mut A,
) -> Result<Outcome, AllocError>
    ensures seen { A.seen answers.new ≡ A.seen answers.old }
    ensures goes { IfOk result (λ outcome. Goes (A.seen answers.old) (spec.plan job.now number clock place view.now) outcome (A.asked answers.new)) }
    ensures kept { (question : Question) → A.asked answers.old question → A.asked answers.new question }
{
    let mut outcome = Outcome::new(alloc);
    step_into(
        alloc,
        job,
        number,
        clock,
        place,
        view,
        answers,
        &mut outcome,
    )?;
    Ok(outcome)
}

/// What [`step`] answers, written over a fresh outcome, which is large. If memory is refused, the outcome says nothing
/// of the packet.
#[tactic(auto, unfolding(crate::specs::Steps::plan, crate::specs::Steps::packet_plan))]
pub fn step_into<A: Answers>(
    alloc: Global,
    job: &Job,
    number: u64,
    clock: Clock,
    place: InterfacePlace,
    view: &View,
    answers: &mut A,
    outcome: &mut Outcome,
) -> Result<(), AllocError>
    requires { outcome.old ≡ fresh }
    ensures seen { A.seen answers.new ≡ A.seen answers.old }
    ensures goes { OnOk result (Goes (A.seen answers.old) (spec.plan job.now number clock place view.now) outcome.new (A.asked answers.new)) }
    ensures kept { (question : Question) → A.asked answers.old question → A.asked answers.new question }
{
    let packet = match view {
        // A fresh outcome is what such a packet comes to.
        View::Skip => return Ok(()),
        View::Short if !job.is_skipped(place) => {
            *outcome = Outcome::unseen(alloc, Verdict::Block, Reason::Short);
            return Ok(());
        }
        View::Ipv4(packet) if !job.is_skipped(place) => packet,
        View::Short | View::Ipv4(_) => {
            *outcome = Outcome::unseen(alloc, Verdict::Pass, Reason::SkipOn);
            return Ok(());
        }
    };
    let direction = job.direction_of(place, packet);
    let arrival = Arrival {
        alloc,
        job,
        number,
        clock,
        place,
        packet,
        direction,
    };
    let key = match subject_of(direction, packet) {
        Subject::Alone => return arrival.write_filtered(answers, outcome),
        Subject::Embedded(key) => return arrival.write_embedded(&key, answers, outcome),
        Subject::Connection(key) => key,
    };
    let side = looked_up_on(job.tap(), direction);
    let Some(mut state) = answers.at(side, &key, Binding::To(place))? else {
        return arrival.write_opened(&key, answers, outcome);
    };
    arrival.by_state(&mut state, outcome);
    Ok(())
}
