//! One list, which only grows. It stands in the proofs alone: a running program has its length.
ghost use Rattle.std.specs.Prelude.{◌≡◌, ◌⊎◌, ◌↔◌, ◌++◌, ◌∷◌, [], length, IsTrue, MatchBool};
ghost use mathlib.Core.List.{IsPrefix};
ghost use Rattle.pfr_history.specs.Adding.{head_of};

use logbook::{Gain, Offer, Plain, Play, Rule, Seen, Start, Word};
use std::marker::{Brand, Model, PhantomData};
use std::snapshot::Snapshot;

/// The rule of the list: the word that threads share is its length.
pub struct Grows;

impl<E> Rule<E, u64> for Grows {
    ghost use Rattle.std.specs.Prelude.{[]};
    ghost use base.Fml.{ftrue};
    ghost use Rattle.pfr_history.specs.Adding.{IsKept};

    ghost holds = { λ cells log. IsKept cells log };

    ghost first = { [] };

    ghost hinted = { λ n log. Unit {0} };

    ghost shows = { λ log. [] };

    ghost keeps = { λ names log. ftrue };

    ghost moves = { λ ask before after answer. Unit {0} };
}

/// A step gives its caller nothing but what it has seen.
pub struct Nothing;

impl<E> Gain<E, u64> for Nothing {
    ghost use base.Fml.{ftrue};

    ghost after = { λ names about answer. ftrue };
}

/// The step that adds an entry.
pub struct Add;

impl<E> Play<E, u64> for Add {
    ghost use Rattle.pfr_history.specs.Adding.{Adds};

    ghost then = { Adds };
}

/// What the step asks for: the entry.
impl<E> Plain<Snapshot<E>, E, u64> for Add {
    ghost use Rattle.std.specs.Prelude.{None};

    ghost ask = { λ entry. entry.value };

    ghost state = { λ entry. None };
}

/// Which list it is. A call of a program picks it.
pub trait Naming {
    ghost use Rattle.logbook.specs.Pages.{Book};

    ghost history: { Book };
}

impl Naming for Brand {
    ghost history = { record { number = 0; log_name = 0; cells_name = 0 } };
}

/// An empty list, which has no name yet. Contracts see which one it is.
pub struct Opened<E> {
    head: Word<E, u64, Grows>,
    seen: Seen<E, u64, Grows>,
    ghost empty: { seen.log ≡ [] },
    ghost head_is: { head ≡ head_of seen.book },
}

impl<E> Model for Opened<E> {
    ghost use Rattle.logbook.specs.Pages.{Book};

    ghost Value = { Book };

    ghost view = { λ opened. opened.seen.book };
}

impl<E> Opened<E> {
    /// A new list.
    pub fn new() -> Opened<E> {
        let (seen, mut first, _second) = Seen::open(Start::alone(), 0, 0);
        Opened {
            head: Word::tracked(0, &mut first),
            seen,
        }
    }

    /// The list under a name.
    pub fn named<J: Naming>(self) -> History<J, E>
        requires { self ≡ J.history }
    {
        let Opened { head, seen } = self;
        History {
            head,
            seen,
            of: PhantomData,
        }
    }
}

/// The list of this name, to which entries are added.
#[derive(Drop)]
pub struct History<J: Naming, E> {
    head: Word<E, u64, Grows>,
    seen: Seen<E, u64, Grows>,
    of: PhantomData<J>,
    ghost empty: { seen.log ≡ [] },
    ghost seen_is: { seen.book ≡ J.history },
    ghost head_is: { head ≡ head_of J.history },
}

impl<J: Naming, E> History<J, E> {
    /// The beginning of the list that has no entry.
    pub fn start(&self) -> Front<J, E>
        ensures { result ≡ [] }
    {
        Front {
            count: 0,
            seen: self.seen.again(),
            of: PhantomData,
        }
    }
}

/// A beginning of the list. Contracts see it as its entries.
#[derive(Drop)]
pub struct Front<J: Naming, E> {
    count: u64,
    seen: Seen<E, u64, Grows>,
    of: PhantomData<J>,
}

impl<J: Naming, E> Model for Front<J, E> {
    ghost use Rattle.std.specs.Prelude.{◌≡◌, List, length};

    ghost Value = { List E };

    ghost view = { λ f. f.seen.log };

    ghost invariant = { λ f. (f.count ≡ length f.seen.log) × (f.seen.book ≡ J.history) };
}

impl<J: Naming, E> Front<J, E> {
    /// How many entries it has.
    pub fn len(&self) -> u64
        ensures { result ≡ length self.now }
    {
        self.count
    }

    /// The same beginning once more.
    pub fn again(&self) -> Front<J, E>
        ensures { result ≡ self.now }
    {
        Front {
            count: self.count,
            seen: self.seen.again(),
            of: PhantomData,
        }
    }

    /// The longer of two, which the other begins.
    pub fn longer(&self, other: &Front<J, E>) -> Front<J, E>
        ensures one { (result ≡ self.now) ⊎ (result ≡ other.now) }
        ensures this { IsPrefix self.now result }
        ensures that { IsPrefix other.now result }
    {
        let mut both = self.seen.again();
        both.learn(&other.seen);
        if self.count < other.count {
            other.again()
        } else {
            self.again()
        }
    }

    /// Whether it begins the other one: whether it is no longer, since both begin one list.
    pub fn begins(&self, other: &Front<J, E>) -> bool
        ensures { IsTrue result ↔ IsPrefix self.now other.now }
    {
        let mut both = self.seen.again();
        both.learn(&other.seen);
        self.count <= other.count
    }

    /// Adds an entry behind these, and says whether it did. It doesn't if the list was longer already, or is as long as 64 bits
    /// can say.
    pub fn add(&mut self, history: &History<J, E>, entry: &E) -> bool
        ensures { MatchBool result (self.new ≡ self.old ++ entry.now ∷ []) (IsPrefix self.old self.new) }
    {
        self.add_known(history, &Snapshot::of(entry))
    }

    /// [`Front::add`] of an entry that the proofs alone know.
    pub fn add_known(&mut self, history: &History<J, E>, entry: &Snapshot<E>) -> bool
        ensures { MatchBool result (self.new ≡ self.old ++ entry.now.value ∷ []) (IsPrefix self.old self.new) }
    {
        let count = self.count;
        if count == u64::MAX {
            return false;
        }
        let mut offer: Offer<E, u64, Grows, Nothing> = self
            .seen
            .plain::<Nothing, Snapshot<E>, Add>(entry);
        let mut pen = self.seen.no_pen();
        let found = history
            .head
            .compare_exchange::<Add, Nothing>(
                count,
                count + 1,
                &mut self.seen,
                &mut offer,
                &mut pen,
            );
        self.count = if found == count { count + 1 } else { found };
        found == count
    }
}
