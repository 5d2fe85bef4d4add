//! The committer.
ghost use Rattle.std.specs.Prelude.{◌≡◌, ◌<◌, ◌≤◌, ◌+◌, ◌^◌, false, true, max, IfNone, IfOk, IfSome, IsSome, ◌↔◌, OnOk, OnErr, None, Some};
ghost use Rattle.std.specs.Arc.{arc_value};
ghost use Rattle.pfr_headers.specs.declared.packet.View.TheVariants.{Ipv4};
ghost use Rattle.pfr_headers.specs.View.{view_of};
ghost use Rattle.pfr_states.specs.States.{purged, refusal};
ghost use Rattle.pfr_packet.specs.Outcomes.{fresh};
ghost use Rattle.pfr_commit.specs.Emissions.{held_changes};
ghost use Rattle.pfr_commit.specs.Endings.{counters_text, states_text};
ghost use Rattle.pfr_commit.specs.World as spec;

use crate::changes::Changes;
use crate::counters::Counters;
use crate::emitted::Emitted;
use crate::ending::Ending;
use crate::gate::{Gate, Unwatched};
use crate::results::{ResultsByPlace, of_one};
use crate::verdict_line::VerdictLine;
use pfr_capture::Record;
use pfr_headers::View;
use pfr_net::IfName;
use pfr_packet::laws::{
    every_change_is_of_the_named_state, no_change_is_refused, what_is_written_is_of_the_packet,
};
use pfr_packet::{Direct, Job, Outcome, step_into};
use pfr_record::Speculation;
use pfr_ruleset::Interface;
use pfr_states::{Place, Table};
use pfr_sync::checksum;
use pfr_telling::Telling;
use pfr_track::{Clock, InterfacePlace};
use std::alloc::{AllocError, Global};
use std::sync::Arc;

/// Takes the packets of a run in the order of the capture, one after the other, each with a speculation or without. It
/// holds the states and counters that the packets so far have left, and what the open message tells. It doesn't hold
/// what they have emitted.
///
/// After memory was refused each call is refused, and the book stays as it is.
#[derive(Drop)]
pub struct Book {
    pub(crate) alloc: Global,
    pub(crate) job: Arc<Job>,
    /// How many packets it has taken, and how many of them it has evaluated itself.
    pub(crate) count: u64,
    pub(crate) own: u64,
    /// How many rules were tested on these packets. Nothing depends on it.
    asked: u64,
    pub(crate) clock: Clock,
    pub(crate) table: Table,
    pub(crate) counters: Counters,
    pub(crate) telling: Telling,
    /// Whether memory was refused.
    pub(crate) is_over: bool,
    ghost few: { own ≤ count },
}

/// What came of a packet: its outcome, if a speculation holds; how many packets were evaluated here, none or one; and a
/// place at which its state may stand.
#[derive(Clone, Copy)]
struct Evaluated<'r> {
    held: Option<&'r Outcome>,
    evaluated_here: u64,
    found: Option<Place>,
}

/// The later of a clock and a record's second.
fn later(clock: Clock, seconds: u32) -> Clock
    ensures { result.0 ≡ max clock.0 seconds }
{
    Clock(clock.0.max(seconds))
}

/// How many rules were tested on a packet.
fn asked_for(outcome: &Outcome) -> u64 {
    let translation = outcome.visited.translation.asked();
    outcome.visited.filter.asked().saturating_add(translation)
}

/// The names of interfaces.
fn names_of(alloc: Global, interfaces: &[Interface]) -> Result<Vec<IfName>, AllocError>
    ensures { IfOk result (λ names. names.items ≡ spec.names_of interfaces.now) }
{
    let mut names = Vec::with_capacity(alloc, interfaces.len())?;
    for interface in interfaces {
        names.push(interface.name)?;
    }
    Ok(names)
}

impl Book {
    ghost use Rattle.pfr_commit.specs.Books.{AddsChanges, AddsLines, IsLastMessage, IsNextChangeOf, Keeps, LeadsOn, LeadsTo, MayUseAt, MayUseNext, StandsAt};
    ghost use Rattle.pfr_commit.specs.Books.{after_outcome, after_packet, job_of, outcome_in, untold, world_in, world_with};
    ghost use Rattle.pfr_commit.specs.ResultsByPlace.{IsOfJobAt, result_at};

    /// A book that has taken no packet of a job.
    #[tactic(auto, unfolding(crate::specs::World::opening))]
    pub fn new(alloc: Global, job: Arc<Job>) -> Result<Book, AllocError>
        ensures world { IfOk result (λ book. StandsAt book (spec.opening (arc_value job))) }
        ensures job { IfOk result (λ book. job_of book ≡ arc_value job) }
        ensures own { IfOk result (λ book. book.own ≡ 0) }
        ensures over { IfOk result (λ book. book.is_over ≡ false) }
    {
        let rules = job.rules();
        let limit = rules.options.state_limit as usize;
        let counters = Counters::new(alloc, rules.counts())?;
        let names = names_of(alloc, job.interfaces())?;
        let telling = Telling::new(
            alloc,
            names.as_slice(),
            checksum(job.text()),
            rules.options.host_id,
        );
        Ok(Book {
            alloc,
            job,
            count: 0,
            own: 0,
            asked: 0,
            clock: Clock(0),
            table: Table::new(alloc, limit),
            counters,
            telling,
            is_over: false,
        })
    }

    /// The job whose packets it takes.
    pub fn job(&self) -> &Arc<Job>
        ensures { result.now ≡ self.now.job }
    {
        &self.job
    }

    /// How many packets it has evaluated itself: those that came without a speculation, or with one that was dropped.
    pub fn own(&self) -> u64
        ensures { result ≡ self.now.own }
    {
        self.own
    }

    /// How many rules were tested on all packets taken so far, those of the filter and of translation, at most 2^64 -
    /// 1. A visited rule that is passed over isn't counted. Nothing depends on it: it tells what the packets cost.
    pub fn asked(&self) -> u64 {
        self.asked
    }

    /// How many packets it has taken.
    pub fn committed(&self) -> u64
        ensures { result ≡ self.now.count }
    {
        self.count
    }

    /// The greatest second of the packets' records.
    pub fn clock(&self) -> Clock
        ensures { result ≡ self.now.clock }
    {
        self.clock
    }

    /// The states that the packets have left, unless memory was refused.
    pub fn table(&self) -> &Table
        ensures { result.now ≡ self.now.table }
    {
        &self.table
    }

    /// The outcome of the speculation at `place`, if it may be used for a packet. `hint` is a place at which the
    /// packet's state may stand.
    fn usable_outcome<'r>(
        &self,
        number: u64,
        clock: Clock,
        interface: InterfacePlace,
        view: &View,
        results: &ResultsByPlace<'r>,
        place: usize,
        hint: Option<Place>,
    ) -> Option<&'r Outcome>
        requires { IsOfJobAt (job_of self.now) place results.now }
        ensures some { IsSome result ↔ MayUseAt place results.now self.now number clock interface view.now }
        ensures outcome { IfSome result (λ outcome. outcome.now ≡ outcome_in self.now number clock interface view.now) }
    {
        let speculation = results.at(place)?;
        let is_of_job = results.are_of_job;
        speculation.outcome_near(
            is_of_job,
            &self.job,
            number,
            clock,
            interface,
            view,
            &self.table,
            hint,
        )
    }

    /// Evaluates a packet, and writes what it comes to into `outcome`, which must be fresh. `hint` is a place at which
    /// the packet's state may stand. The result is the place of the state that was found for the packet, if one was.
    #[tactic(auto, unfolding(pfr_packet::specs::Steps::step_of))]
    fn run(
        &self,
        number: u64,
        clock: Clock,
        interface: InterfacePlace,
        view: &View,
        hint: Option<Place>,
        outcome: &mut Outcome,
    ) -> Result<Option<Place>, AllocError>
        requires { outcome.old ≡ fresh }
        ensures { OnOk result (outcome.new ≡ outcome_in self.now number clock interface view.now) }
    {
        let mut answers = Direct {
            table: &self.table,
            clock,
            hint,
            found: None,
        };
        step_into(
            self.alloc,
            &self.job,
            number,
            clock,
            interface,
            view,
            &mut answers,
            outcome,
        )?;
        Ok(answers.found)
    }

    /// What a packet comes to: by the speculation at `place`, or evaluated here and written into `here`, which must be
    /// fresh. `hint` is a place at which the packet's state may stand.
    fn evaluate<'r, G: Gate>(
        &self,
        number: u64,
        clock: Clock,
        interface: InterfacePlace,
        view: &View,
        results: &ResultsByPlace<'r>,
        place: usize,
        hint: Option<Place>,
        gate: &G,
        here: &mut Outcome,
    ) -> Result<Evaluated<'r>, AllocError>
        requires outcome { here.old ≡ fresh }
        requires of_job { IsOfJobAt (job_of self.now) place results.now }
        ensures held { IfOk result (λ evaluated. IfSome evaluated.held (λ outcome. outcome.now ≡ outcome_in self.now number clock interface view.now)) }
        ensures here { IfOk result (λ evaluated. IfNone evaluated.held (here.new ≡ outcome_in self.now number clock interface view.now)) }
        ensures used { IfOk result (λ it. MayUseAt place results.now self.now number clock interface view.now → it.evaluated_here ≡ 0) }
        ensures evaluated { IfOk result (λ it. (MayUseAt place results.now self.now number clock interface view.now → ⊥) → it.evaluated_here ≡ 1) }
        ensures few { IfOk result (λ evaluated. evaluated.evaluated_here ≤ 1) }
    {
        let held = self.usable_outcome(number, clock, interface, view, results, place, hint);
        if held.is_some() {
            let evaluated_here = 0;
            return Ok(Evaluated {
                held,
                evaluated_here,
                found: hint,
            });
        }
        gate.ran_again(number);
        let found = self.run(number, clock, interface, view, hint, here)?;
        let evaluated_here = 1;
        Ok(Evaluated {
            held,
            evaluated_here,
            found,
        })
    }

    /// Takes over what the next packet came to at `clock`, and appends what the packet adds to `out`. If memory is
    /// refused, `out` stays as it was. `place` is one at which the state that the packet touches may stand.
    fn take_outcome(
        &mut self,
        clock: Clock,
        packet: &Record,
        view: &View,
        outcome: &Outcome,
        place: Option<Place>,
        out: &mut Emitted,
    ) -> Result<(), AllocError>
        requires view { view.now ≡ view_of packet.now.link packet.now.bytes.items }
        requires few { self.old.count < 2 ^ 43 }
        requires later { self.old.clock.0 ≤ clock.0 }
        requires change { IfSome outcome.now.change (λ change. refusal change self.old.table.limit (purged clock self.old.table.states) ≡ None) }
        requires named { IfSome outcome.now.change (IsNextChangeOf self.old packet.now clock outcome.now) }
        requires bytes { IfSome outcome.now.bytes (λ change. view_of packet.now.link packet.now.bytes.items ≡ Ipv4 change.packet) }
        ensures world { OnOk result (AddsLines self.old self.new out.old out.new (after_outcome self.old packet.now clock outcome.now)) }
        ensures told { OnOk result (LeadsTo self.old self.new out.old out.new (after_outcome self.old packet.now clock outcome.now)) }
        ensures changes { OnOk result (AddsChanges self.old out.old out.new (after_outcome self.old packet.now clock outcome.now)) }
        ensures counted { OnOk result (self.new.count ≡ self.old.count + 1) }
        ensures kept { OnErr result (Keeps self.old self.new out.old out.new) }
        ensures others { (self.new.job ≡ self.old.job) × (self.new.own ≡ self.old.own) × (self.new.is_over ≡ self.old.is_over) }
    {
        let number = self.count + 1;
        let purge = out.purge_at(&self.table, clock);
        self.telling.begin(self.clock, clock)?;
        self.telling.purge(&mut self.table, clock)?;
        self.telling
            .change(&mut self.table, clock, &outcome.change, place)?;
        let line = VerdictLine {
            interfaces: self.job.rules().interfaces.as_slice(),
            number,
            clock,
            place: InterfacePlace(packet.place),
            outcome,
        };
        out.put(&line, packet, purge, &mut self.telling.closed)?;
        self.counters.count(view, outcome);
        self.asked = self.asked.saturating_add(asked_for(outcome));
        self.count = number;
        self.clock = clock;
        Ok(())
    }

    /// Takes the next packet, with the speculation at `place`, and appends what the packet adds to `out`. If memory is
    /// refused, `out` stays as it was. `hint` is a place at which the packet's state may stand.
    pub(crate) fn take<G: Gate>(
        &mut self,
        packet: &Record,
        view: &View,
        results: &ResultsByPlace<'_>,
        place: usize,
        hint: Option<Place>,
        gate: &G,
        out: &mut Emitted,
    ) -> Result<(), AllocError>
        requires view { view.now ≡ view_of packet.now.link packet.now.bytes.items }
        requires few { self.old.count < 2 ^ 43 }
        requires open { self.old.is_over ≡ false }
        requires of_job { IsOfJobAt (job_of self.old) place results.now }
        ensures world { OnOk result (AddsLines self.old self.new out.old out.new (after_packet self.old packet.now)) }
        ensures told { OnOk result (LeadsTo self.old self.new out.old out.new (after_packet self.old packet.now)) }
        ensures changes { OnOk result (AddsChanges self.old out.old out.new (after_packet self.old packet.now)) }
        ensures job { self.new.job ≡ self.old.job }
        ensures counted { OnOk result (self.new.count ≡ self.old.count + 1) }
        ensures kept { OnErr result (Keeps self.old self.new out.old out.new) }
        ensures used { OnOk result (MayUseNext (result_at place results.now) self.old packet.now view.now → self.new.own ≡ self.old.own) }
        ensures rerun { OnOk result ((MayUseNext (result_at place results.now) self.old packet.now view.now → ⊥) → self.new.own ≡ self.old.own + 1) }
        ensures ok { OnOk result (self.new.is_over ≡ false) }
        ensures err { OnErr result (self.new.is_over ≡ true) }
    {
        self.is_over = true;
        let number = self.count + 1;
        let clock = later(self.clock, packet.seconds);
        // from here on the table answers questions at this clock at once
        self.table.settle(clock);
        let mut here = Outcome::new(self.alloc);
        let Evaluated {
            held,
            evaluated_here,
            found,
        } = self.evaluate(
            number,
            clock,
            InterfacePlace(packet.place),
            view,
            results,
            place,
            hint,
            gate,
            &mut here,
        )?;
        let outcome = held.unwrap_or(&here);
        // each outcome of an evaluation meets what `take_outcome` requires
        no_change_is_refused();
        every_change_is_of_the_named_state();
        what_is_written_is_of_the_packet();
        // any call of the table shows that its states are those of a table
        let _ = self.table.len();
        self.take_outcome(clock, packet, view, outcome, found, out)?;
        gate.taken(packet, view, outcome);
        self.own += evaluated_here;
        self.is_over = false;
        Ok(())
    }

    /// Takes the next packet, with a speculation of it or without, and answers what it adds to the outputs, and what it
    /// did to the table. The view must be the record's. A speculation is dropped if it is of another packet, clock or
    /// job, or if its record doesn't hold in the table. Then the packet is evaluated here.
    pub fn commit(
        &mut self,
        packet: &Record,
        view: View,
        speculation: Option<Speculation>,
    ) -> Result<Emitted, AllocError>
        requires view { view ≡ view_of packet.now.link packet.now.bytes.items }
        requires few { self.old.count < 2 ^ 43 }
        ensures world { IfOk result (λ emitted. world_with self.new emitted ≡ untold (after_packet self.old packet.now (world_in self.old))) }
        // what is told depends on what was told before
        ensures told { IfOk result (λ emitted. LeadsOn self.old self.new emitted (after_packet self.old packet.now)) }
        ensures changes { IfOk result (λ it. held_changes it ≡ Some (true, (after_packet self.old packet.now (world_in self.old)).changes)) }
        ensures job { self.new.job ≡ self.old.job }
        ensures kept { OnErr result ((self.new.count ≡ self.old.count) × (self.new.own ≡ self.old.own)) }
        ensures used { OnOk result (MayUseNext speculation self.old packet.now view → self.new.own ≡ self.old.own) }
        ensures evaluated { OnOk result ((MayUseNext speculation self.old packet.now view → ⊥) → self.new.own ≡ self.old.own + 1) }
        ensures ok { OnOk result ((self.old.is_over ≡ false) × (self.new.is_over ≡ false)) }
        ensures err { OnErr result (self.new.is_over ≡ true) }
        ensures over { self.old.is_over ≡ true → self.new ≡ self.old }
    {
        if self.is_over {
            return Err(AllocError);
        }
        match of_one(self.alloc, speculation.as_ref()) {
            Ok(results) => {
                let taken = self.take_alone(packet, &view, &results);
                drop(results);
                taken
            }
            Err(refused) => {
                self.is_over = true;
                Err(refused)
            }
        }
    }

    /// Takes the next packet, with the first of these results or without, and answers what it adds to the outputs, and
    /// what it did to the table.
    fn take_alone(
        &mut self,
        packet: &Record,
        view: &View,
        results: &ResultsByPlace<'_>,
    ) -> Result<Emitted, AllocError>
        requires view { view.now ≡ view_of packet.now.link packet.now.bytes.items }
        requires few { self.old.count < 2 ^ 43 }
        requires open { self.old.is_over ≡ false }
        requires of_job { IsOfJobAt (job_of self.old) 0 results.now }
        ensures world { IfOk result (λ emitted. world_with self.new emitted ≡ untold (after_packet self.old packet.now (world_in self.old))) }
        ensures told { IfOk result (λ emitted. LeadsOn self.old self.new emitted (after_packet self.old packet.now)) }
        ensures changes { IfOk result (λ it. held_changes it ≡ Some (true, (after_packet self.old packet.now (world_in self.old)).changes)) }
        ensures job { self.new.job ≡ self.old.job }
        ensures kept { OnErr result ((self.new.count ≡ self.old.count) × (self.new.own ≡ self.old.own)) }
        ensures used { OnOk result (MayUseNext (result_at 0 results.now) self.old packet.now view.now → self.new.own ≡ self.old.own) }
        ensures evaluated { OnOk result ((MayUseNext (result_at 0 results.now) self.old packet.now view.now → ⊥) → self.new.own ≡ self.old.own + 1) }
        ensures ok { OnOk result (self.new.is_over ≡ false) }
        ensures err { OnErr result (self.new.is_over ≡ true) }
    {
        let mut out = Emitted::new(self.alloc);
        out.changes = Some(Changes::Kept(Vec::new(self.alloc)));
        match self.take(packet, view, results, 0, None, &Unwatched, &mut out) {
            Ok(()) => Ok(out),
            Err(refused) => {
                drop(out);
                Err(refused)
            }
        }
    }

    /// What stands at the end of a run. There is nothing after memory was refused.
    fn end(&mut self) -> Result<Ending, AllocError>
        ensures message { IfOk result (λ ending. IsLastMessage self.old ending.message) }
        ensures counters { IfOk result (λ ending. ending.counters.items ≡ counters_text self.old.count self.old.counters) }
        ensures states { IfOk result (λ ending. ending.states.items ≡ states_text (job_of self.old).rules.interfaces self.old.table.states) }
        ensures ok { OnOk result (self.old.is_over ≡ false) }
    {
        if self.is_over {
            return Err(AllocError);
        }
        let message = self.telling.close(self.clock)?;
        let interfaces = self.job.rules().interfaces.as_slice();
        Ending::new(
            self.alloc,
            interfaces,
            message,
            self.count,
            &self.counters,
            &self.table,
        )
    }

    /// The last message, the counters and the states at the end of a run. There are none after memory was refused.
    pub fn finish(mut self) -> Result<Ending, AllocError>
        ensures message { IfOk result (λ ending. IsLastMessage self ending.message) }
        ensures counters { IfOk result (λ ending. ending.counters.items ≡ counters_text self.count self.counters) }
        ensures states { IfOk result (λ ending. ending.states.items ≡ states_text (job_of self).rules.interfaces self.table.states) }
        ensures ok { OnOk result (self.is_over ≡ false) }
    {
        let ending = self.end();
        drop(self);
        ending
    }
}
