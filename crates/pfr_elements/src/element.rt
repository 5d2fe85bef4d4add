//! The elements of lists.
ghost use Rattle.std.specs.Prelude.{◌≡◌, ◌<◌, ◌≤◌, ◌+◌, ◌++◌, map, fold, max, Ok, Err, OnOk, IfOk, IfErr};
ghost use Rattle.std.specs.Bool.{Decides};
ghost use Rattle.pfr_words.specs.Words.{words};
ghost use Rattle.pfr_terms.specs.declared.error.ConfErrorKind.TheVariants.{Memory};
ghost use Rattle.pfr_terms.specs.Input.{Reads};
ghost use Rattle.pfr_elements.specs.Meanings.{IsListOf};
ghost use Rattle.pfr_elements.specs.Elements as spec;
ghost use Rattle.pfr_elements.specs.Elements.{Kind, Puts};
ghost use Rattle.pfr_elements.specs.Values.{Makes, MakesUnless};

use crate::definition::{ListMeaning, ListMeanings, Taken};
use crate::faults::{at_line, copied_at, undefined_table, unknown_word};
use crate::scope::Scope;
use pfr_items::Items;
use pfr_terms::error::lower;
use pfr_terms::{ConfError, ConfErrorKind, MacroUse, Reader};
use pfr_words::spelling::words;
use pfr_words::{Sign, Word};
use std::alloc::{AllocError, Global};
use std::mem::{drop, replace};

/// The most elements that a list may have.
pub const MOST_ELEMENTS: usize = 1048576;

/// What a list comes to: what its elements mean, the first fault of one, and how many there are. An element at fault
/// counts as one.
#[derive(Drop)]
pub struct Elements<T> {
    pub items: Items<T>,
    pub fault: Option<ConfError>,
    pub count: usize,
}

/// What may stand in a list.
pub trait Element: Sized {
    /// What it means.
    type Flat: Copy;

    /// How it is read, and what it means.
    ghost kind: { Kind Self Self.Flat };

    fn macro_use(&self) -> Option<MacroUse<'_>>
        ensures { result ≡ kind.use_in self.now };

    fn is_negated(&self) -> bool
        ensures { result ≡ kind.negated self.now };

    fn resolve(
        &self,
        alloc: Global,
        scope: &Scope<'_>,
    ) -> Result<Result<Self::Flat, ConfError>, ConfError>
        ensures { Makes (kind.meaning scope.now self.now) result };

    fn turn(flat: Self::Flat) -> Self::Flat
        ensures { result ≡ kind.turned flat };

    fn tables(flat: Self::Flat) -> usize
        ensures { result ≡ kind.tables flat };

    fn list_in(meanings: &ListMeanings) -> &ListMeaning<Self::Flat>
        ensures value { result.now ≡ kind.list_in meanings.now }
        ensures read { IsListOf kind meanings.now result.now };

    /// Reads one in the value of a macro, and says what it means; `None` if it is at fault.
    fn read_one(
        alloc: Global,
        scope: &Scope<'_>,
        reader: &mut Reader<'_, '_>,
    ) -> Result<Option<Self::Flat>, ConfError>
        ensures { Reads (spec.value_item kind scope.now reader.old) result reader.new };
}

/// Whether memory was refused.
fn is_memory(fault: &ConfError) -> bool
    ensures { Decides result (fault.now.kind ≡ Memory) }
{
    match fault.kind {
        ConfErrorKind::Memory => true,
        _ => false,
    }
}

/// What a thing of a value means; a fault is gathered.
pub(crate) fn noted<T: Copy>(
    reader: &mut Reader<'_, '_>,
    meaning: Result<T, ConfError>,
) -> Option<T>
    ensures { spec.noted meaning reader.old ≡ Ok (result, reader.new) }
{
    match meaning {
        Ok(flat) => Some(flat),
        Err(fault) => {
            reader.note(fault);
            None
        }
    }
}

/// Reads one thing of a value, and puts what it means behind the others.
#[tactic(auto, unfolding(crate::specs::Elements::put_item))]
fn put_item<T: Element>(
    alloc: Global,
    scope: &Scope<'_>,
    reader: &mut Reader<'_, '_>,
    found: &mut Items<T::Flat>,
) -> Result<(), ConfError>
    ensures { Puts (spec.put_item (spec.value_item T.kind scope.now) found.old reader.old) result found.new reader.new }
{
    if let Some(flat) = T::read_one(alloc, scope, reader)? {
        found.push(flat)?;
    }
    Ok(())
}

/// Puts what the things of a value, at least one, mean behind the others, up to the closing brace.
#[tactic(auto, using(pfr_terms::proofs::Turns::one_turn, pfr_terms::proofs::Turns::no_turn))]
fn put_members<T: Element>(
    alloc: Global,
    scope: &Scope<'_>,
    reader: &mut Reader<'_, '_>,
    found: &mut Items<T::Flat>,
) -> Result<(), ConfError>
    ensures { Puts (spec.members_behind (spec.value_item T.kind scope.now) found.old reader.old) result found.new reader.new }
{
    for _turn in 0..reader.turns() {
        put_item::<T>(alloc, scope, reader, found)?;
        if reader.close_list() {
            return Ok(());
        }
        reader.eat_sign(Sign::Comma);
    }
    Err(reader.refuse(alloc))
}

/// Puts what the things of a value mean behind the others.
#[tactic(auto, unfolding(crate::specs::Elements::items_behind))]
fn put_items<T: Element>(
    alloc: Global,
    scope: &Scope<'_>,
    reader: &mut Reader<'_, '_>,
    found: &mut Items<T::Flat>,
) -> Result<(), ConfError>
    ensures { Puts (spec.items_behind (spec.value_item T.kind scope.now) found.old reader.old) result found.new reader.new }
{
    if reader.open_list() {
        put_members::<T>(alloc, scope, reader, found)?;
        return reader.finish(alloc);
    }
    put_item::<T>(alloc, scope, reader, found)?;
    reader.finish(alloc)
}

/// What the things of a value mean.
#[tactic(auto, unfolding(crate::specs::Elements::value_items))]
pub(crate) fn value_items<T: Element>(
    alloc: Global,
    scope: &Scope<'_>,
    reader: &mut Reader<'_, '_>,
) -> Result<Items<T::Flat>, ConfError>
    ensures { Reads (spec.value_items (spec.value_item T.kind scope.now) reader.old) result reader.new }
{
    let mut found = Items::new(alloc);
    put_items::<T>(alloc, scope, reader, &mut found).and(Ok(found))
}

/// What the one thing of a value means at this fault, unless memory was refused. The fault stands on the line of the
/// use.
pub(crate) fn one_fault<T>(line: usize, fault: ConfError) -> Result<Result<T, ConfError>, ConfError>
    ensures { MakesUnless fault (Err (spec.at_line line fault)) result }
{
    if is_memory(&fault) {
        Err(fault)
    } else {
        Ok(Err(at_line(line, fault)))
    }
}

/// What the one thing of a value means; a fault that was gathered stands on the line of the use.
pub(crate) fn one_gathered<T: Copy>(
    line: usize,
    found: Option<T>,
    gathered: Option<ConfError>,
) -> Result<T, ConfError>
    ensures { result ≡ spec.one_gathered line found gathered }
{
    match (gathered, found) {
        (Some(fault), _) => Err(at_line(line, fault)),
        (None, Some(flat)) => Ok(flat),
        (None, None) => Err(unknown_word(line)),
    }
}

/// The first of two faults.
pub fn first_fault(first: Option<ConfError>, second: ConfError) -> Option<ConfError>
    ensures { result ≡ spec.first_fault first second }
{
    match first {
        Some(first) => Some(first),
        None => Some(second),
    }
}

impl<T: Copy> Elements<T> {
    pub fn new(alloc: Global) -> Elements<T>
        ensures { result ≡ spec.none_yet }
    {
        Elements {
            items: Items::new(alloc),
            fault: None,
            count: 0,
        }
    }

    /// One more element, which is at fault.
    fn add_fault(&mut self, fault: ConfError)
        requires { self.old.count ≤ 1048576 }
        ensures { self.new ≡ spec.with_fault fault self.old }
    {
        self.fault = first_fault(replace(&mut self.fault, None), fault);
        self.count += 1;
    }

    /// One more element, by what it means.
    pub fn add_meaning(&mut self, meaning: Result<T, ConfError>) -> Result<(), AllocError>
        requires { self.old.count ≤ 1048576 }
        ensures { OnOk result (self.new ≡ spec.with_meaning meaning self.old) }
    {
        match meaning {
            Ok(flat) => {
                self.items.push(flat)?;
                self.count += 1;
            }
            Err(fault) => self.add_fault(fault),
        }
        Ok(())
    }
}

/// Puts what the things of a value mean behind the other elements, each behind a `!` if the use has one.
fn put_values<T: Element>(
    found: &mut Elements<T::Flat>,
    values: &[T::Flat],
    is_negated: bool,
) -> Result<(), AllocError>
    ensures put { OnOk result (found.new.items ≡ found.old.items ++ map (spec.turned_if is_negated T.kind.turned) values.now) }
    ensures kept { (found.new.fault ≡ found.old.fault) × (found.new.count ≡ found.old.count) }
{
    for flat in values {
        let turned = if is_negated { T::turn(*flat) } else { *flat };
        found.items.push(turned)?;
    }
    Ok(())
}

/// How many of the ruleset's tables have to be defined for things of a list.
fn tables_of<T: Element>(items: &[T::Flat]) -> usize
    ensures { result ≡ fold (λ most x. max most (T.kind.tables x)) 0 items.now }
{
    let mut most: usize = 0;
    for flat in items {
        most = most.max(T::tables(*flat));
    }
    most
}

/// What a value with this fault means, unless memory was refused.
fn faulty<T>(alloc: Global, fault: ConfError) -> Result<ListMeaning<T>, ConfError>
    ensures { MakesUnless fault (spec.faulty fault) result }
{
    if is_memory(&fault) {
        return Err(fault);
    }
    Ok(ListMeaning {
        items: Items::new(alloc),
        tables: 0,
        fault: Some(fault),
    })
}

/// What the words of a value mean as a list.
pub(crate) fn list_meaning<T: Element>(
    alloc: Global,
    scope: &Scope<'_>,
    value: &[Word<'_>],
) -> Result<ListMeaning<T::Flat>, ConfError>
    ensures { Makes (spec.listed T.kind scope.now value.now) result }
{
    let mut reader = Reader::of_value(value);
    match value_items::<T>(alloc, scope, &mut reader) {
        Ok(items) => Ok(ListMeaning {
            tables: tables_of::<T>(items.as_slice()),
            fault: reader.into_gathered(),
            items,
        }),
        Err(fault) => faulty(alloc, fault),
    }
}

/// The fault of a value that is used as a list on this line, with `defined` tables defined so far.
fn fault_at<T>(
    alloc: Global,
    line: usize,
    defined: usize,
    meant: &ListMeaning<T>,
) -> Result<Option<ConfError>, AllocError>
    ensures { IfOk result (λ found. found ≡ spec.fault_at line defined meant.now) }
{
    let fault = match &meant.fault {
        Some(fault) => Some(copied_at(alloc, line, fault)?),
        None => None,
    };
    if meant.tables <= defined {
        Ok(fault)
    } else {
        Ok(Some(lower(fault, undefined_table(line))))
    }
}

/// How a list is used: on which line, with how many tables defined so far, whether behind a `!`, and whether something
/// is made of its things.
#[derive(Clone, Copy)]
struct ListUse {
    line: usize,
    defined: usize,
    is_negated: bool,
    keeps: bool,
}

/// Puts the things of a value behind the other elements, or counts them if nothing is made of them.
fn add_list<T: Element>(
    alloc: Global,
    found: &mut Elements<T::Flat>,
    used: ListUse,
    meant: &ListMeaning<T::Flat>,
) -> Result<(), ConfError>
    requires { found.old.count ≤ 1048576 }
    ensures made { OnOk result (found.new ≡ spec.with_list T.kind used meant.now found.old) }
    ensures refused { IfErr result (λ e. e.kind ≡ Memory) }
{
    match fault_at(alloc, used.line, used.defined, meant)? {
        Some(fault) => found.add_fault(fault),
        None => {
            found.count += meant.items.len().min(MOST_ELEMENTS + 1);
            if used.keeps {
                put_values::<T>(found, meant.items.as_slice(), used.is_negated)?;
            }
        }
    }
    Ok(())
}

/// What the words of a text mean as a list.
fn text_meaning<T: Element>(
    alloc: Global,
    scope: &Scope<'_>,
    text: &[u8],
) -> Result<ListMeaning<T::Flat>, ConfError>
    ensures { Makes (spec.listed T.kind scope.now (words text.now)) result }
{
    let value = words(alloc, text)?;
    list_meaning::<T>(alloc, scope, value.as_slice())
}

/// The elements that a word with a suffix stands for.
fn add_word<T: Element>(
    alloc: Global,
    scope: &Scope<'_>,
    found: &mut Elements<T::Flat>,
    used: ListUse,
    word: &[u8],
) -> Result<(), ConfError>
    requires { found.old.count ≤ 1048576 }
    ensures made { OnOk result (found.new ≡ spec.with_list T.kind used (spec.listed T.kind scope.now (words word.now)) found.old) }
    ensures refused { IfErr result (λ e. e.kind ≡ Memory) }
{
    let meant = text_meaning::<T>(alloc, scope, word)?;
    let added = add_list::<T>(alloc, found, used, &meant);
    drop(meant);
    added
}

/// The elements of what a use stands for.
fn add_taken<T: Element>(
    alloc: Global,
    scope: &Scope<'_>,
    found: &mut Elements<T::Flat>,
    used: ListUse,
    taken: &Taken<'_>,
) -> Result<(), ConfError>
    requires { found.old.count ≤ 1048576 }
    ensures made { OnOk result (found.new ≡ spec.with_taken T.kind scope.now used (Ok taken.now) found.old) }
    ensures refused { IfErr result (λ e. e.kind ≡ Memory) }
{
    match taken {
        Taken::TooLong(true) => found.count += MOST_ELEMENTS + 1,
        Taken::TooLong(false) => found.add_fault(unknown_word(used.line)),
        Taken::Word(word) => {
            return add_word::<T>(alloc, scope, found, used, word.as_slice());
        }
        Taken::Whole(text) => {
            let meant = T::list_in(&text.get().meanings.lists);
            return add_list::<T>(alloc, found, used, meant);
        }
    }
    Ok(())
}

/// The elements that the use of a macro stands for.
fn add_use<T: Element>(
    alloc: Global,
    scope: &Scope<'_>,
    keeps: bool,
    found: &mut Elements<T::Flat>,
    is_negated: bool,
    used: &MacroUse<'_>,
) -> Result<(), ConfError>
    requires { found.old.count ≤ 1048576 }
    ensures made { OnOk result (found.new ≡ spec.with_use T.kind scope.now keeps is_negated used.now found.old) }
    ensures refused { IfErr result (λ e. e.kind ≡ Memory) }
{
    let list_use = ListUse {
        line: used.line,
        defined: scope.defined,
        is_negated,
        keeps,
    };
    match scope.macros.taken_at(alloc, used, is_negated)? {
        Ok(taken) => add_taken::<T>(alloc, scope, found, list_use, &taken),
        Err(fault) => {
            found.add_fault(fault);
            Ok(())
        }
    }
}

/// One more element of a list. If nothing is made of the list (`keeps` is false), what macros stand for is only
/// counted.
#[tactic(auto, unfolding(crate::specs::Elements::with_element))]
pub fn add_element<T: Element>(
    alloc: Global,
    scope: &Scope<'_>,
    keeps: bool,
    found: &mut Elements<T::Flat>,
    element: &T,
) -> Result<(), ConfError>
    requires { found.old.count ≤ 1048576 }
    ensures made { OnOk result (found.new ≡ spec.with_element T.kind scope.now keeps found.old element.now) }
    ensures refused { IfErr result (λ e. e.kind ≡ Memory) }
{
    match element.macro_use() {
        Some(used) => add_use::<T>(alloc, scope, keeps, found, element.is_negated(), &used),
        None => {
            let meaning = element.resolve(alloc, scope)?;
            found.add_meaning(meaning)?;
            Ok(())
        }
    }
}

/// Puts the elements of a list behind others.
fn put_elements<T: Element>(
    alloc: Global,
    scope: &Scope<'_>,
    keeps: bool,
    found: &mut Elements<T::Flat>,
    list: &[T],
) -> Result<(), ConfError>
    ensures made { OnOk result (found.new ≡ spec.elements_from (spec.with_element T.kind scope.now keeps) found.old list.now) }
    ensures refused { IfErr result (λ e. e.kind ≡ Memory) }
{
    for element in list {
        if found.count > MOST_ELEMENTS {
            return Ok(());
        }
        add_element(alloc, scope, keeps, found, element)?;
    }
    Ok(())
}

/// The elements of a list. Those behind the one that is too many aren't looked at. If nothing is made of the list
/// (`keeps` is false), what macros stand for is only counted.
pub fn elements_of<T: Element>(
    alloc: Global,
    scope: &Scope<'_>,
    keeps: bool,
    list: &[T],
) -> Result<Elements<T::Flat>, ConfError>
    ensures { Makes (spec.elements_of T.kind scope.now keeps list.now) result }
{
    let mut found = Elements::new(alloc);
    put_elements(alloc, scope, keeps, &mut found, list).and(Ok(found))
}
