//! Where batches of records come from, and what they add goes to.
ghost use Rattle.std.specs.Prelude.{◌≡◌, ◌≤◌, ◌+◌, ◌^◌, true, false, IfSome, IfNone, length};
ghost use Rattle.pfr_commit.specs.Emissions.{texts_of};

use pfr_capture::Record;
use pfr_commit::Emitted;
use pfr_headers::View;

/// Gives the records of a run, a batch at a time, and takes what each batch adds to its outputs.
///
/// Contracts see how it goes from one state to the next by a call. What that means for its source and its outputs is for each
/// implementation to say.
pub trait Feed {
    ghost use Rattle.std.specs.Prelude.{ℕ, Bool};
    ghost use Rattle.pfr_feed.specs.Transitions.{Transitions};

    /// What each of its calls does.
    ghost transitions: { Transitions Self };
    /// Whether contracts speak of its records and its outputs.
    ghost told: { Self → Bool };
    /// How many records it has given.
    ghost given: { Self → ℕ };
    /// The names of the references that it holds.
    ghost names: { Self → ℕ × ℕ };

    /// The next batch, of 1 to 4096 records. None ends the reading.
    fn batch(&mut self) -> Option<Vec<Record>>
        ensures some { IfSome result (λ records. transitions.gives self.old records.items self.new) }
        ensures none { IfNone result (transitions.ends self.old self.new) }
        ensures size { IfSome result (λ records. (1 ≤ length records.items) × (length records.items ≤ 4096)) }
        ensures counted { IfSome result (λ records. given self.new ≡ given self.old + length records.items) }
        ensures few { IfSome result (λ records. given self.new ≤ 2 ^ 43) }
        ensures none_given { IfNone result (given self.new ≡ given self.old) }
        ensures told { told self.new ≡ told self.old }
        ensures names { names self.new ≡ names self.old };

    /// Takes what a batch adds, and says whether it took all of it. If it didn't, the run ends.
    fn take(&mut self, piece: Emitted) -> bool
        ensures taken { result ≡ true → transitions.takes self.old (texts_of piece) self.new }
        ensures cut { result ≡ false → transitions.cuts self.old (texts_of piece) self.new }
        ensures given { given self.new ≡ given self.old }
        ensures told { told self.new ≡ told self.old }
        ensures names { names self.new ≡ names self.old };

    /// Takes the packets of a batch back, for their room.
    fn give_back(&mut self, packets: Vec<(Record, View)>)
        ensures rests { transitions.rests self.old self.new }
        ensures given { given self.new ≡ given self.old }
        ensures told { told self.new ≡ told self.old }
        ensures names { names self.new ≡ names self.old };

    /// Whether its source may not have the next records yet. No clause speaks of it: a run then takes the batches that it holds
    /// before it asks for a further one.
    fn may_wait(&self) -> bool {
        false
    }

    /// Whether contracts speak of its records and its outputs: a feed over memory tells, one over a file doesn't.
    fn tells(&self) -> bool
        ensures { result ≡ told self.now };
}
