//! The places of a list that have one key, in order.
ghost use Rattle.std.specs.Prelude.{◌≡◌, ◌+◌, ◌<◌, ◌≤◌, ℕ, List, length, All, IfOk};
ghost use Rattle.pfr_chains.specs.Chains as spec;

use std::alloc::{AllocError, Global};
use std::marker::Model;

/// Places of a list by their keys: for each key the first place that has it, and for each place the next one with the same key.
#[derive(Drop)]
pub struct Chains {
    /// The key of each place.
    keys: Vec<u32>,
    /// For each key the first place with it, or the list's length.
    firsts: Vec<u32>,
    /// For each place the next one with its key, or the list's length.
    nexts: Vec<u32>,
}

impl Model for Chains {
    ghost Value = { List ℕ };

    ghost view = { λ c. c.keys.items };

    ghost invariant = { λ c. spec.AreChains c.keys.items c.firsts.items c.nexts.items };
}

/// Puts a place at the front of the chain of its key, which has only places behind it.
fn put_before(keys: &[u32], firsts: &mut [u32], nexts: &mut [u32], place: usize)
    requires keys { spec.AreKeys keys.now firsts.old }
    requires place { place < length keys.now }
    requires behind { spec.AreChainsFrom (place + 1) keys.now firsts.old nexts.old }
    ensures size { length firsts.new ≡ length firsts.old }
    ensures chains { spec.AreChainsFrom place keys.now firsts.new nexts.new }
{
    let key = keys[place] as usize;
    nexts[place] = firsts[key];
    firsts[key] = place as u32;
}

/// Leads from each place to the next one with its key, and from each key to its first place. Before the call each entry
/// of `firsts` and `nexts` is the list's length.
fn lead(keys: &[u32], firsts: &mut [u32], nexts: &mut [u32])
    requires keys { spec.AreKeys keys.now firsts.old }
    requires begun { spec.AreChainsFrom (length keys.now) keys.now firsts.old nexts.old }
    ensures size { length firsts.new ≡ length firsts.old }
    ensures chains { spec.AreChainsFrom 0 keys.now firsts.new nexts.new }
{
    let mut place = keys.len();
    while place > 0 {
        place -= 1;
        put_before(keys, firsts, nexts, place);
    }
}

impl Chains {
    /// The chains over keys, each below `size`.
    pub fn over(alloc: Global, keys: Vec<u32>, size: u32) -> Result<Chains, AllocError>
        requires keys { All (λ key. key < size) keys.items }
        requires few { length keys.items ≤ 4294967295 }
        ensures { IfOk result (λ made. made ≡ keys.items) }
    {
        let end = keys.len() as u32;
        let mut firsts = vec![in alloc; end; size as usize]?;
        let mut nexts = vec![in alloc; end; keys.len()]?;
        lead(&keys, &mut firsts, &mut nexts);
        Ok(Chains {
            keys,
            firsts,
            nexts,
        })
    }

    /// How many places there are.
    #[inline]
    pub fn len(&self) -> usize
        ensures { result ≡ length self.now }
    {
        self.keys.len()
    }

    /// The first place with a key, or the list's length if no place has it.
    #[inline]
    pub fn first(&self, key: u32) -> usize
        ensures { spec.IsNext self.now key 0 result }
    {
        let key = key as usize;
        if key < self.firsts.len() {
            return self.firsts[key] as usize;
        }
        self.keys.len()
    }

    /// The first place at or behind `from` with the key of the chain on which `place` is.
    #[inline]
    pub fn behind(&self, place: usize, from: usize) -> usize
        requires within { from ≤ length self.now }
        ensures { (key low : ℕ) → low ≤ from → spec.IsNext self.now key low place → spec.IsNext self.now key from result }
    {
        let mut to = place;
        while to < from {
            to = self.nexts[to] as usize;
        }
        to
    }
}
