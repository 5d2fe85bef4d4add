//! `antispoof` as the rules that it stands for (pf.conf(5), "BLOCKING SPOOFED TRAFFIC").
ghost use Rattle.std.specs.Prelude.{◌≡◌, ◌≤◌, ◌++◌, [], length, IfOk, OnOk};
ghost use Rattle.pfr_rewrite.specs.Antispoof as spec;

use crate::interfaces::{interfaces_len, is_named, names_in};
use pfr_given::{Given, Subject, count_of, joined};
use pfr_items::Items;
use pfr_marks::mark::{Mark, begins_with, is};
use pfr_phrases::change::Found;
use pfr_phrases::changing::sign_len;
use pfr_phrases::context::Context;
use pfr_phrases::lengths::brackets_len;
use pfr_phrases::reason::Reason;
use pfr_phrases::statements::statement_len;
use pfr_spelling::known::{Known, replaced_by, text_change};
use pfr_spelling::macros::token_in;
use pfr_words::Token;
use pfr_words::names::is_among;
use std::alloc::{AllocError, Global};

/// The interface of the host itself, which has no rule for its address.
const LOOPBACK: &[u8] = b"lo0";

/// How many marks `log` has at the front, with its options; none if it isn't there.
#[tactic(auto, unfolding(crate::specs::Antispoof::log_len))]
fn log_len(marks: &[Mark<'_>]) -> usize
    ensures value { result ≡ spec.log_len marks.now }
    ensures within { result ≤ length marks.now }
{
    match marks.first() {
        Some(first) if is(first, b"log") => 1 + brackets_len(&marks[1..]),
        _ => 0,
    }
}

/// How many marks stand before `for`, with `log` and `quick` among them.
fn for_at(marks: &[Mark<'_>]) -> usize
    ensures value { result ≡ spec.for_at marks.now }
    ensures within { result ≤ length marks.now }
{
    let log = log_len(marks);
    let (_, behind) = marks.split_at(log);
    log + sign_len(b"quick", behind)
}

/// How many marks stand before the interfaces, with `for`; none if that isn't there.
fn interfaces_at(marks: &[Mark<'_>]) -> usize
    ensures value { result ≡ spec.interfaces_at marks.now }
    ensures within { result ≤ length marks.now }
{
    let at = for_at(marks);
    let (_, behind) = marks.split_at(at);
    let len = sign_len(b"for", behind);
    if len == 0 { 0 } else { at + len }
}

/// The network and the address of an interface, as rules write them.
#[derive(Drop)]
struct Forms {
    network: Items<u8>,
    /// None of the loopback interface.
    address: Option<Items<u8>>,
}

/// The forms of one of the text's own interfaces.
fn own_forms(alloc: Global, own: &[u8]) -> Result<Forms, AllocError>
    ensures { IfOk result (λ forms. forms ≡ spec.own_forms own.now) }
{
    let mut network = Items::copied(alloc, own)?;
    network.extend_from_slice(b":network")?;
    let address = Some(Items::copied(alloc, own)?);
    Ok(Forms { network, address })
}

/// The forms of the loopback interface.
fn loopback_forms(alloc: Global) -> Result<Forms, AllocError>
    ensures { IfOk result (λ forms. forms ≡ spec.loopback_forms) }
{
    let network = Items::copied(alloc, b"127.0.0.0/8")?;
    Ok(Forms {
        network,
        address: None,
    })
}

/// The forms of an interface that are given.
#[tactic(auto, unfolding(crate::specs::Antispoof::given_forms))]
fn given_forms(alloc: Global, given: &Given, name: &[u8]) -> Result<Option<Forms>, AllocError>
    ensures { IfOk result (λ forms. forms ≡ spec.given_forms given.now name.now) }
{
    let suffix = b":network".as_slice();
    let networks = count_of(given, Subject::Address, name, suffix);
    let addresses = count_of(given, Subject::Address, name, b"");
    if networks != 1 || addresses != 1 {
        return Ok(None);
    }
    let network = joined(alloc, given, Subject::Address, name, suffix)?;
    let address = Some(joined(alloc, given, Subject::Address, name, b"")?);
    Ok(Some(Forms { network, address }))
}

/// The forms of an interface, if they are known.
#[tactic(auto, unfolding(crate::specs::Antispoof::forms_of))]
fn forms_of(
    alloc: Global,
    given: &Given,
    own: &[Items<u8>],
    name: &[u8],
) -> Result<Option<Forms>, AllocError>
    ensures { IfOk result (λ forms. forms ≡ spec.forms_of given.now own.now name.now) }
{
    if is_named(own, name) {
        return Ok(Some(own_forms(alloc, name)?));
    }
    if name == LOOPBACK {
        return Ok(Some(loopback_forms(alloc)?));
    }
    given_forms(alloc, given, name)
}

/// How the rules of a statement begin and end.
#[derive(Drop)]
struct Frame {
    head: Items<u8>,
    tail: Items<u8>,
}

/// How the rules begin, by the marks before the interfaces.
#[tactic(auto, unfolding(crate::specs::Antispoof::head_of))]
fn head_of(alloc: Global, front: &[Mark<'_>]) -> Result<Items<u8>, AllocError>
    ensures { IfOk result (λ head. head ≡ spec.head_of front.now) }
{
    let log = log_len(front);
    let (_, behind) = front.split_at(log);
    let mut head = Items::copied(alloc, b"block drop in")?;
    if log > 0 {
        head.extend_from_slice(b" log")?;
    }
    if begins_with(behind, b"quick") {
        head.extend_from_slice(b" quick")?;
    }
    Ok(head)
}

/// What is awaited among the options of a statement.
#[derive(Clone, Copy)]
enum Awaits {
    Option,
    Label,
    /// The value of an option that doesn't stay.
    Value,
}

/// The options that don't stay.
const NUMBERS: [&[u8]; 3] = [b"ridentifier", b"tracker", b"rtable"];

/// Whether an option goes, with the word behind it.
#[tactic(auto, unfolding(crate::specs::Antispoof::goes_with_value))]
fn goes_with_value(word: &[u8]) -> bool
    ensures { result ≡ spec.goes_with_value word.now }
{
    is_among(&NUMBERS, word)
}

/// What is awaited behind a label; nothing if it is the use of a macro.
fn behind_label(word: &[u8]) -> Option<Awaits>
    ensures { result ≡ spec.behind_label word.now }
{
    match token_in(word) {
        Some(Token::MacroUse(_, _)) => None,
        _ => Some(Awaits::Option),
    }
}

/// Puts what stays of a word among the options at the end, and answers what is awaited behind it; nothing if the word
/// doesn't belong there.
fn put_option(
    tail: &mut Items<u8>,
    awaits: Awaits,
    word: &[u8],
) -> Result<Option<Awaits>, AllocError>
    ensures text { OnOk result (tail.new ≡ tail.old ++ spec.option_text awaits word.now) }
    ensures behind { IfOk result (λ behind. behind ≡ spec.behind_option awaits word.now) }
{
    match awaits {
        Awaits::Value => Ok(Some(Awaits::Option)),
        Awaits::Label => {
            tail.push(b' ')?;
            tail.extend_from_slice(word)?;
            Ok(behind_label(word))
        }
        Awaits::Option => {
            if goes_with_value(word) {
                return Ok(Some(Awaits::Value));
            }
            if word != b"label".as_slice() {
                return Ok(None);
            }
            tail.extend_from_slice(b" label")?;
            Ok(Some(Awaits::Label))
        }
    }
}

/// Whether no value is missing.
fn is_whole(awaits: Awaits) -> bool
    ensures { result ≡ spec.is_whole awaits }
{
    match awaits {
        Awaits::Option => true,
        _ => false,
    }
}

/// How the rules end, by the options behind the interfaces; nothing if they aren't options.
#[tactic(auto, unfolding(crate::specs::Antispoof::tail_of))]
fn tail_of(alloc: Global, options: &[Mark<'_>]) -> Result<Option<Items<u8>>, AllocError>
    ensures { IfOk result (λ tail. tail ≡ spec.tail_of options.now) }
{
    let mut tail = Items::copied(alloc, b" to any")?;
    let mut awaits = Awaits::Option;
    for mark in options {
        match put_option(&mut tail, awaits, mark.piece.as_slice())? {
            Some(behind) => awaits = behind,
            None => return Ok(None),
        }
    }
    if is_whole(awaits) {
        Ok(Some(tail))
    } else {
        Ok(None)
    }
}

/// Puts a rule behind those so far, on a line of its own.
fn put_rule(
    made: &mut Items<u8>,
    frame: &Frame,
    criterion: &[u8],
    name: &[u8],
    address: &[u8],
) -> Result<(), AllocError>
    ensures { OnOk result (made.new ≡ spec.with_rule made.old frame.now criterion.now name.now address.now) }
{
    if made.len() > 0 {
        made.push(b'\n')?;
    }
    made.extend_from_slice(frame.head.as_slice())?;
    made.extend_from_slice(criterion)?;
    made.extend_from_slice(name)?;
    made.extend_from_slice(b" inet from ")?;
    made.extend_from_slice(address)?;
    made.extend_from_slice(frame.tail.as_slice())
}

/// Puts the rules of an interface behind those so far.
fn put_rules(
    made: &mut Items<u8>,
    frame: &Frame,
    name: &[u8],
    forms: &Forms,
) -> Result<(), AllocError>
    ensures { OnOk result (made.new ≡ spec.with_rules made.old frame.now name.now forms.now) }
{
    put_rule(made, frame, b" on ! ", name, forms.network.as_slice())?;
    match &forms.address {
        Some(address) => put_rule(made, frame, b"", b"", address.as_slice()),
        None => Ok(()),
    }
}

/// The rules of all interfaces, if their forms are known.
fn rules_for(
    alloc: Global,
    given: &Given,
    own: &[Items<u8>],
    frame: &Frame,
    names: &[Items<u8>],
) -> Result<Option<Items<u8>>, AllocError>
    ensures { IfOk result (λ rules. rules ≡ spec.rules_from given.now own.now frame.now [] names.now) }
{
    let mut made = Items::new(alloc);
    for name in names {
        match forms_of(alloc, given, own, name.as_slice())? {
            Some(forms) => put_rules(&mut made, frame, name.as_slice(), &forms)?,
            None => return Ok(None),
        }
    }
    Ok(Some(made))
}

/// The rules that a statement stands for, by its interfaces, and how each ends.
fn rules_with(
    alloc: Global,
    given: &Given,
    own: &[Items<u8>],
    front: &[Mark<'_>],
    names: &[Items<u8>],
    tail: Option<Items<u8>>,
) -> Result<Option<Items<u8>>, AllocError>
    ensures { IfOk result (λ rules. rules ≡ spec.rules_with given.now own.now front.now names.now tail) }
{
    let Some(tail) = tail else {
        return Ok(None);
    };
    let frame = Frame {
        head: head_of(alloc, front)?,
        tail,
    };
    rules_for(alloc, given, own, &frame, names)
}

/// The rules that a statement stands for, by its parts.
fn rules_by(
    alloc: Global,
    given: &Given,
    known: &Known,
    front: &[Mark<'_>],
    interfaces: &[Mark<'_>],
    options: &[Mark<'_>],
) -> Result<Option<Items<u8>>, AllocError>
    ensures { IfOk result (λ rules. rules ≡ spec.rules_by given.now known.now front.now interfaces.now options.now) }
{
    let names = names_in(alloc, given, known, interfaces)?;
    if names.len() == 0 {
        return Ok(None);
    }
    let tail = tail_of(alloc, options)?;
    rules_with(
        alloc,
        given,
        known.own.as_slice(),
        front,
        names.as_slice(),
        tail,
    )
}

/// What is behind `inet`, if that is there.
fn options_in<'m, 'a>(rest: &'m [Mark<'a>]) -> &'m [Mark<'a>]
    ensures { result.now ≡ spec.options_in rest.now }
{
    let (_, options) = rest.split_at(sign_len(b"inet", rest));
    options
}

/// The rules that a statement stands for, by the marks before its interfaces and the marks from there on.
fn rules_behind(
    alloc: Global,
    given: &Given,
    known: &Known,
    front: &[Mark<'_>],
    more: &[Mark<'_>],
) -> Result<Option<Items<u8>>, AllocError>
    ensures { IfOk result (λ rules. rules ≡ spec.rules_behind given.now known.now front.now more.now) }
{
    let (interfaces, rest) = more.split_at(interfaces_len(more));
    rules_by(alloc, given, known, front, interfaces, options_in(rest))
}

/// The rules that a statement stands for, by what is behind its first word.
#[tactic(auto, unfolding(crate::specs::Antispoof::rules_of))]
fn rules_of(
    alloc: Global,
    given: &Given,
    known: &Known,
    behind: &[Mark<'_>],
) -> Result<Option<Items<u8>>, AllocError>
    ensures { IfOk result (λ rules. rules ≡ spec.rules_of given.now known.now behind.now) }
{
    let at = interfaces_at(behind);
    if at == 0 {
        return Ok(None);
    }
    let (front, more) = behind.split_at(at);
    rules_behind(alloc, given, known, front, more)
}

/// `antispoof` at the front of marks as a change, if the interfaces are known.
#[tactic(auto, unfolding(crate::specs::Antispoof::antispoof_here))]
pub(crate) fn antispoof_here<'a>(
    alloc: Global,
    given: &Given,
    known: &Known,
    context: Context,
    marks: &[Mark<'a>],
) -> Result<Option<Found<'a>>, AllocError>
    ensures { IfOk result (λ found. found ≡ spec.antispoof_here given.now known.now context marks.now) }
{
    if !begins_with(marks, b"antispoof") {
        return Ok(None);
    }
    let (statement, _) = marks.split_at(statement_len(marks));
    let Some(word) = statement.first() else {
        return Ok(None);
    };
    let rules = rules_of(alloc, given, known, &statement[1..])?;
    Ok(text_change(
        context,
        word,
        marks,
        replaced_by(alloc, rules, statement.len(), Reason::Antispoof),
    ))
}
