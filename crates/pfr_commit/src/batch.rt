//! Packets that are taken together.
ghost use Rattle.std.specs.Prelude.{◌≡◌, ◌≤◌, ◌+◌, ◌^◌, [], true, length, OnOk, OnErr};
ghost use Rattle.std.specs.List.{All};
ghost use Rattle.pfr_headers.specs.View.{view_of};

use crate::book::Book;
use crate::emitted::Emitted;
use crate::gate::{Gate, OutcomesAlone, Unwatched};
use crate::results::in_places;
use pfr_capture::Record;
use pfr_headers::View;
use pfr_net::InterfacePlace;
use pfr_packet::lookup_of;
use pfr_record::Speculation;
use pfr_states::{AHEAD, Place};
use std::alloc::AllocError;

impl Book {
    ghost use Rattle.pfr_commit.specs.Books.{TakesAll, TakesSome, job_of};
    ghost use Rattle.pfr_commit.specs.ResultsByPlace.{IsOfJob};
    ghost use Rattle.pfr_commit.specs.Results.{results_of};

    /// The places of the states of the first `AHEAD` packets, if it pays to look ahead. An evaluation looks there
    /// first, and so does the check of a result; nothing depends on it.
    fn look_ahead(&self, packets: &[(Record, View)]) -> [Option<Place>; AHEAD] {
        if !self.table.is_large() {
            return [None; AHEAD];
        }
        let mut lookups = [None; AHEAD];
        for (lookup, packet) in lookups.iter_mut().zip(packets) {
            *lookup = lookup_of(&self.job, InterfacePlace(packet.0.place), &packet.1);
        }
        self.table.look_ahead(&lookups)
    }

    /// What the three calls of a batch do. `are_of_job` says that all results are of the book's own job.
    fn take_batch<G: Gate>(
        &mut self,
        packets: &[(Record, View)],
        groups: &[Vec<Speculation>],
        are_of_job: bool,
        gate: &G,
        out: &mut Emitted,
    ) -> Result<(), AllocError>
        requires views { All (λ packet. packet.1 ≡ view_of packet.0.link packet.0.bytes.items) packets.now }
        requires few { self.old.count + length packets.now ≤ 2 ^ 43 }
        requires of_job { are_of_job ≡ true → All (IsOfJob (job_of self.old)) (results_of groups.now) }
        ensures taken { OnOk result (TakesAll self.old self.new out.old out.new packets.now (results_of groups.now)) }
        ensures refused { OnErr result (TakesSome self.old self.new out.old out.new packets.now (results_of groups.now)) }
        ensures job { self.new.job ≡ self.old.job }
        ensures over { self.old.is_over ≡ true → (self.new ≡ self.old) × (out.new ≡ out.old) }
    {
        if self.is_over {
            return Err(AllocError);
        }
        let results = match in_places(
            self.alloc,
            groups,
            self.count + 1,
            packets.len(),
            are_of_job,
        ) {
            Ok(results) => results,
            Err(refused) => {
                self.is_over = true;
                return Err(refused);
            }
        };
        let mut hints = [None; AHEAD];
        for index in 0..packets.len() {
            if index % AHEAD == 0 {
                hints = self.look_ahead(&packets[index..]);
            }
            let (record, view) = &packets[index];
            self.take(
                record,
                view,
                &results,
                index,
                hints[index % AHEAD],
                gate,
                out,
            )?;
        }
        Ok(())
    }

    /// Takes the next packets, and appends what they add to `out`, and what they do to the table if `out` has a list
    /// for that. Each packet has its record's view.
    ///
    /// The results may be in any order; some may be missing, and some of other packets or other jobs. If a packet has
    /// several results, the first is tried; if it doesn't hold, or there is none, the packet is evaluated here. If
    /// memory is refused, `out` grows by what the packets taken so far add.
    pub fn commit_batch(
        &mut self,
        packets: &[(Record, View)],
        results: Vec<Speculation>,
        out: &mut Emitted,
    ) -> Result<(), AllocError>
        requires views { All (λ packet. packet.1 ≡ view_of packet.0.link packet.0.bytes.items) packets.now }
        requires few { self.old.count + length packets.now ≤ 2 ^ 43 }
        ensures taken { OnOk result (TakesAll self.old self.new out.old out.new packets.now results.items) }
        ensures refused { OnErr result (TakesSome self.old self.new out.old out.new packets.now results.items) }
        ensures job { self.new.job ≡ self.old.job }
        ensures over { self.old.is_over ≡ true → (self.new ≡ self.old) × (out.new ≡ out.old) }
    {
        self.take_batch(packets, &[results], false, &Unwatched, out)
    }

    /// What [`Book::commit_batch`] does without results. The gate is told what each packet came to, but of no turn: no
    /// packet is evaluated anywhere else.
    pub fn commit_batch_alone<G: Gate>(
        &mut self,
        packets: &[(Record, View)],
        gate: &G,
        out: &mut Emitted,
    ) -> Result<(), AllocError>
        requires views { All (λ packet. packet.1 ≡ view_of packet.0.link packet.0.bytes.items) packets.now }
        requires few { self.old.count + length packets.now ≤ 2 ^ 43 }
        ensures taken { OnOk result (TakesAll self.old self.new out.old out.new packets.now []) }
        ensures refused { OnErr result (TakesSome self.old self.new out.old out.new packets.now []) }
        ensures job { self.new.job ≡ self.old.job }
        ensures over { self.old.is_over ≡ true → (self.new ≡ self.old) × (out.new ≡ out.old) }
    {
        self.take_batch(packets, &[], false, &OutcomesAlone(gate), out)
    }

    /// What [`Book::commit_batch`] does, with results that come in groups and must be of the book's own job: the job's
    /// text isn't compared with theirs. The gate is told of each packet before it is evaluated here, and what each
    /// packet came to.
    pub fn commit_batch_of_job<G: Gate>(
        &mut self,
        packets: &[(Record, View)],
        groups: Vec<Vec<Speculation>>,
        gate: &G,
        out: &mut Emitted,
    ) -> Result<(), AllocError>
        requires views { All (λ packet. packet.1 ≡ view_of packet.0.link packet.0.bytes.items) packets.now }
        requires few { self.old.count + length packets.now ≤ 2 ^ 43 }
        requires of_job { All (λ group. All (IsOfJob (job_of self.old)) group.items) groups.items }
        ensures taken { OnOk result (TakesAll self.old self.new out.old out.new packets.now (results_of groups.items)) }
        ensures refused { OnErr result (TakesSome self.old self.new out.old out.new packets.now (results_of groups.items)) }
        ensures job { self.new.job ≡ self.old.job }
        ensures over { self.old.is_over ≡ true → (self.new ≡ self.old) × (out.new ≡ out.old) }
    {
        self.take_batch(packets, groups.as_slice(), true, gate, out)
    }
}
