//! A standby that takes messages from a source.
ghost use Rattle.std.specs.Prelude.{◌≡◌, ◌⊎◌, ◌≤◌, ◌<◌, ◌+◌, ◌^◌, [], Err, IsTrue, IfOk, IfErr, OnOk, OnErr, IfSome, IfNone};
ghost use Rattle.pfr_messages.specs.Messages.{IsRefused};
ghost use Rattle.pfr_messages.specs.declared.error.SyncError.TheVariants.{Short};
ghost use Rattle.pfr_stream.specs.Reading as spec;
ghost use Rattle.pfr_stream.specs.Stream.{framed_at, taken_at};

use crate::framing::{Framing, framed_at};
use crate::held::Held;
use crate::stop::Ending;
use pfr_capture::Source;
use pfr_messages::SyncError;
use pfr_standby::Standby;
use std::alloc::{AllocError, Global};
use std::marker::Model;

/// The most messages of a stream.
const MOST_MESSAGES: u64 = 1 << 40;

/// A standby that takes messages from a source, one after the other.
#[derive(Drop)]
pub(crate) struct Stream {
    framing: Framing,
    held: Held,
    standby: Standby,
    count: u64,
}

impl Model for Stream {
    ghost use Rattle.std.specs.Prelude.{◌≤◌, ◌^◌};
    ghost use Rattle.pfr_stream.specs.Reading.{Reading};

    ghost Value = { Reading };

    ghost view = { λ s. record { framing = s.framing; held = s.held; standing = s.standby; count = s.count } };

    ghost invariant = { λ s. s.count ≤ 2 ^ 40 };
}

impl Stream {
    /// Nothing was read yet.
    pub(crate) fn new(alloc: Global, framing: Framing) -> Result<Stream, AllocError>
        ensures { IfOk result (λ stream. stream ≡ spec.start framing) }
    {
        Ok(Stream {
            framing,
            held: Held::new(alloc)?,
            standby: Standby::new(alloc),
            count: 0,
        })
    }

    /// What the standby holds.
    pub(crate) fn holder(&self) -> &Standby
        ensures { result.now ≡ self.now.standing }
    {
        &self.standby
    }

    /// How many messages were taken.
    pub(crate) fn count(&self) -> u64
        ensures count { result ≡ self.now.count }
        ensures within { result ≤ 2 ^ 40 }
    {
        self.count
    }

    /// Takes the message at the front of the bytes held. A refusal changes nothing.
    fn take_front(&mut self, alloc: Global) -> Result<(), SyncError>
        requires { self.old.count < 2 ^ 40 }
        ensures taken { OnOk result (spec.TakesFront self.old self.new) }
        ensures same { OnErr result (self.new ≡ self.old) }
        ensures which { IfErr result (λ e. IsRefused e (taken_at self.old.framing self.old.standing self.old.held)) }
    {
        let (message, size) = framed_at(alloc, self.framing, self.held.bytes())?;
        self.standby.take(&message)?;
        self.held.take(size);
        self.count += 1;
        Ok(())
    }

    /// Reads on behind bytes that are no whole message, and answers how reading ends if it does.
    fn read_on<R: Source>(&mut self, source: &mut R) -> Option<Ending>
        requires short { framed_at self.old.framing self.old.held ≡ Err Short }
        requires may_follow { (self.old.held ≡ []) ⊎ (self.old.count < 2 ^ 40) }
        ensures told { R.told source.new ≡ R.told source.old }
        ensures framing { self.new.framing ≡ self.old.framing }
        ensures takes_on { IsTrue (R.told source.old) → spec.TakesOn self.old self.new (R.unread source.old) (R.unread source.new) }
        ensures nearer { IfNone result (spec.ahead_of self.new < spec.ahead_of self.old) }
        ensures goes_on { IfNone result (R.failures source.new ≡ R.failures source.old) }
        ensures ends { IfSome result (spec.EndsIn R.told R.unread R.failures source.old source.new self.new) }
    {
        let Ok(more) = self.held.read_on(source) else {
            return Some(Ending::Failed);
        };
        if more {
            return None;
        }
        if self.held.bytes().is_empty() {
            return Some(Ending::Clean);
        }
        Some(Ending::Refused(SyncError::Short))
    }

    /// Takes the next message, or reads on if it isn't whole yet, and answers how reading ends if it does.
    fn step<R: Source>(
        &mut self,
        alloc: Global,
        source: &mut R,
    ) -> Result<Option<Ending>, AllocError>
        ensures told { R.told source.new ≡ R.told source.old }
        ensures framing { self.new.framing ≡ self.old.framing }
        ensures takes_on { IsTrue (R.told source.old) → spec.TakesOn self.old self.new (R.unread source.old) (R.unread source.new) }
        ensures nearer { IfOk result (λ step. IfNone step (spec.ahead_of self.new < spec.ahead_of self.old)) }
        ensures goes_on { IfOk result (λ step. IfNone step (R.failures source.new ≡ R.failures source.old)) }
        ensures ends { IfOk result (λ step. IfSome step (spec.EndsIn R.told R.unread R.failures source.old source.new self.new)) }
    {
        if self.count == MOST_MESSAGES {
            if self.held.bytes().is_empty() {
                return Ok(self.read_on(source));
            }
            return Ok(Some(Ending::Failed));
        }
        let Err(refusal) = self.take_front(alloc) else {
            return Ok(None);
        };
        match refusal {
            SyncError::Short => Ok(self.read_on(source)),
            SyncError::Memory => Err(AllocError),
            _ => Ok(Some(Ending::Refused(refusal))),
        }
    }

    /// Takes messages until reading ends, and answers how it does. Want of memory is the only error.
    pub(crate) fn take_all<R: Source>(
        &mut self,
        alloc: Global,
        source: &mut R,
    ) -> Result<Ending, AllocError>
        ensures told { R.told source.new ≡ R.told source.old }
        ensures framing { self.new.framing ≡ self.old.framing }
        ensures takes_on { IsTrue (R.told source.old) → spec.TakesOn self.old self.new (R.unread source.old) (R.unread source.new) }
        ensures ends { IfOk result (spec.EndsIn R.told R.unread R.failures source.old source.new self.new) }
    {
        loop {
            if let Some(ending) = self.step(alloc, source)? {
                return Ok(ending);
            }
        }
    }
}
