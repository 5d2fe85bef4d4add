//! What is gone through in an index of places.
use pfr_index::{Hash, Index, Place};
use std::alloc::{AllocError, Global};
use std::test::Fail;

/// An index of entries, each a hash and a place under it.
fn index_of(alloc: Global, entries: &[(u32, u16)]) -> Result<Index, AllocError> {
    let mut index = Index::new(alloc);
    for (hash, place) in entries {
        index.reserve()?;
        index.insert(Hash(*hash), Place(u32::from(*place)));
    }
    Ok(index)
}

/// The least place under a hash, or this one if there is none below it.
fn least_under(index: &Index, hash: Hash, start: u32) -> u32 {
    index.fold_under(hash, start, |least, place| -> u32 { least.min(place.0) })
}

/// A search for the highest hash begins in the last slot, and goes on in the first ones, where the other hashes stand as well.
#[test]
fn only_the_places_under_a_hash_are_gone_through(rt: HostRuntime) -> Result<(), Fail> {
    let highest = u32::MAX;
    let entries = [
        (0, 1),
        (highest, 5),
        (highest, 3),
        (1, 2),
        (highest, 8),
        (highest, 3),
    ];
    let index = index_of(rt.alloc(), &entries)?;
    assert!(rt; least_under(&index, Hash(highest), 9) == 3);
    assert!(rt; least_under(&index, Hash(0), 9) == 1 && least_under(&index, Hash(1), 9) == 2);
    assert!(rt; least_under(&index, Hash(2), 9) == 9);
    Ok(())
}
