//! The kinds of records that messages have.
ghost use Rattle.std.specs.Prelude.{◌≡◌, OnOk, true};
ghost use Rattle.pfr_messages.specs.Fields.{Gives, Puts};
ghost use Rattle.pfr_messages.specs.Messages as spec;

use crate::fault::Fault;
use crate::reading::{deletion_at, insertion_at, update_at};
use crate::records::{Deletion, Insertion, Update};
use crate::writing::{put_deletion, put_insertion, put_update};
use std::alloc::AllocError;

/// A kind of records.
pub(crate) trait Record: Copy {
    ghost kind: { spec.Kind Self };

    /// The action of the header before records of the kind.
    fn action() -> u8
        ensures { result ≡ kind.action };

    /// The record at the front of bytes, and what stands behind it.
    fn at(bytes: &[u8]) -> Result<(Self, &[u8]), Fault>
        ensures { Gives (λ x. (x.0, x.1.now)) result (kind.format.reading bytes.now) };

    /// Spells the record at the end of bytes.
    fn put(&self, out: &mut Vec<u8>) -> Result<(), AllocError>
        requires { kind.format.fits self.now ≡ true }
        ensures { OnOk result (Puts out.old.items (kind.format.spelling self.now) out.new.items) };
}

impl Record for Insertion {
    ghost kind = { spec.inserts };

    fn action() -> u8
        ensures { result ≡ spec.inserts.action }
    {
        1
    }

    fn at(bytes: &[u8]) -> Result<(Insertion, &[u8]), Fault>
        ensures { Gives (λ x. (x.0, x.1.now)) result (spec.inserts.format.reading bytes.now) }
    {
        insertion_at(bytes)
    }

    fn put(&self, out: &mut Vec<u8>) -> Result<(), AllocError> {
        put_insertion(out, self)
    }
}

impl Record for Update {
    ghost kind = { spec.updating };

    fn action() -> u8
        ensures { result ≡ spec.updating.action }
    {
        4
    }

    fn at(bytes: &[u8]) -> Result<(Update, &[u8]), Fault>
        ensures { Gives (λ x. (x.0, x.1.now)) result (spec.updating.format.reading bytes.now) }
    {
        update_at(bytes)
    }

    fn put(&self, out: &mut Vec<u8>) -> Result<(), AllocError> {
        put_update(out, self)
    }
}

impl Record for Deletion {
    ghost kind = { spec.deletes };

    fn action() -> u8
        ensures { result ≡ spec.deletes.action }
    {
        7
    }

    fn at(bytes: &[u8]) -> Result<(Deletion, &[u8]), Fault>
        ensures { Gives (λ x. (x.0, x.1.now)) result (spec.deletes.format.reading bytes.now) }
    {
        deletion_at(bytes)
    }

    fn put(&self, out: &mut Vec<u8>) -> Result<(), AllocError> {
        put_deletion(out, self)
    }
}
