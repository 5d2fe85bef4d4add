//! Options: what may stand behind `set`.
ghost use Rattle.std.specs.Prelude.{◌≡◌, ◌≤◌, ◌++◌, codes, IfOk, IfSome};
ghost use Rattle.pfr_terms.specs.Input.{Reads, Refuses};
ghost use Rattle.pfr_conf.specs.Options as spec;

use crate::policy::{block_policy_ahead, state_policy_ahead};
use crate::settings::{LimitSetting, TimeoutSetting};
use pfr_items::Items;
use pfr_net::notation::{TOO_LARGE, number};
use pfr_net::{BlockPolicy, StatePolicy};
use pfr_terms::lists::{Item, list};
use pfr_terms::{ConfError, ConfErrorKind, InterfaceName, LeftOutName, Name, Reader, Written};
use pfr_words::Bytes;
use pfr_words::names::entry_of;
use std::alloc::{AllocError, Global};

/// An option.
#[derive(Drop)]
pub enum SetOption<'a> {
    /// Packets on these interfaces aren't filtered.
    SkipOn(Items<Written<'a, InterfaceName<'a>>>),
    Timeouts(Items<TimeoutSetting>),
    Limits(Items<LimitSetting>),
    /// What `block` alone does.
    BlockPolicy(BlockPolicy),
    /// The policy of states whose rule has none.
    StatePolicy(StatePolicy),
    /// The number by which other firewalls know this one's states, from 1 to 4294967295.
    HostId(u32),
    /// `optimization normal`
    NormalOptimization,
    /// An option without effect, and its word.
    WithoutEffect(Written<'a, Name<'a>>),
}

/// The words that name an option.
#[derive(Clone, Copy)]
enum OptionWord {
    Skip,
    Timeout,
    Limit,
    BlockPolicy,
    StatePolicy,
    HostId,
    Optimization,
    WithoutEffect,
}

const OPTIONS: [(&[u8], OptionWord); 11] = [
    (b"skip", OptionWord::Skip),
    (b"timeout", OptionWord::Timeout),
    (b"limit", OptionWord::Limit),
    (b"block-policy", OptionWord::BlockPolicy),
    (b"state-policy", OptionWord::StatePolicy),
    (b"hostid", OptionWord::HostId),
    (b"optimization", OptionWord::Optimization),
    (b"require-order", OptionWord::WithoutEffect),
    (b"loginterface", OptionWord::WithoutEffect),
    (b"debug", OptionWord::WithoutEffect),
    (b"ruleset-optimization", OptionWord::WithoutEffect),
];

#[tactic(auto, unfolding(crate::specs::Options::option_named))]
fn option_named(word: &[u8]) -> Option<OptionWord>
    ensures { result ≡ spec.option_named word.now }
{
    entry_of(&OPTIONS, word)
}

/// `set WORD`
fn set_word(alloc: Global, word: &[u8]) -> Result<Items<u8>, AllocError>
    ensures { IfOk result (λ name. name ≡ codes "set " ++ word.now) }
{
    let mut name = Vec::from_slice(alloc, b"set ".as_slice())?;
    name.extend_from_slice(word)?;
    Ok(Items::of(name))
}

/// The fault that the option of this name is left out.
#[tactic(auto, unfolding(crate::specs::Options::set_left_out))]
fn set_left_out(alloc: Global, reader: &Reader<'_, '_>, word: &[u8]) -> ConfError
    ensures { Refuses (spec.set_left_out word.now reader.now) result }
{
    match set_word(alloc, word) {
        Ok(name) => reader.fault(ConfErrorKind::LeftOut(LeftOutName { name })),
        Err(refused) => ConfError::from(refused),
    }
}

/// `on LIST`
#[tactic(auto, unfolding(crate::specs::Options::skip))]
fn skip<'a>(alloc: Global, reader: &mut Reader<'_, 'a>) -> Result<SetOption<'a>, ConfError>
    ensures { Reads (spec.skip reader.old) result reader.new }
{
    reader.expect_word(alloc, b"on")?;
    Ok(SetOption::SkipOn(list::<Written<'a, InterfaceName<'a>>>(alloc, reader)?))
}

/// `drop` or `return`
#[tactic(auto, unfolding(crate::specs::Options::block_policy_option))]
fn block_policy<'a>(alloc: Global, reader: &mut Reader<'_, 'a>) -> Result<SetOption<'a>, ConfError>
    ensures { Reads (spec.block_policy_option reader.old) result reader.new }
{
    match block_policy_ahead(reader) {
        Some(policy) => Ok(SetOption::BlockPolicy(policy)),
        None => Err(reader.refuse(alloc)),
    }
}

/// `if-bound` or `floating`
#[tactic(auto, unfolding(crate::specs::Options::state_policy_option))]
fn state_policy<'a>(alloc: Global, reader: &mut Reader<'_, 'a>) -> Result<SetOption<'a>, ConfError>
    ensures { Reads (spec.state_policy_option reader.old) result reader.new }
{
    match state_policy_ahead(reader) {
        Some(policy) => Ok(SetOption::StatePolicy(policy)),
        None => Err(reader.refuse(alloc)),
    }
}

/// The value of a hexadecimal digit.
#[tactic(auto, unfolding(crate::specs::Options::hex_digit))]
fn hex_digit(byte: u8) -> Option<u64>
    ensures value { result ≡ spec.hex_digit byte }
    ensures within { IfSome result (λ digit. digit ≤ 15) }
{
    match byte {
        b'0'..=b'9' => Some(u64::from(byte - b'0')),
        b'a'..=b'f' => Some(u64::from(byte - b'a') + 10),
        b'A'..=b'F' => Some(u64::from(byte - b'A') + 10),
        _ => None,
    }
}

/// The value of hexadecimal digits; [`TOO_LARGE`] stands for itself and all larger numbers.
fn hexadecimal(digits: &[u8]) -> Option<u64>
    ensures { result ≡ spec.hexadecimal 0 digits.now }
{
    let mut value: u64 = 0;
    for byte in digits {
        match hex_digit(*byte) {
            Some(digit) => value = (16 * value + digit).min(TOO_LARGE),
            None => return None,
        }
    }
    Some(value)
}

/// A decimal number, or `0x` and hexadecimal digits.
#[tactic(auto, unfolding(crate::specs::Options::host_id_in))]
fn host_id_in(word: &[u8]) -> Option<u64>
    ensures { result ≡ spec.host_id_in word.now }
{
    match word {
        [b'0', b'x', digits @ ..] if !digits.is_empty() => hexadecimal(digits),
        _ => number(word),
    }
}

fn host_id_ahead(word: Option<Bytes<'_>>) -> Option<u64>
    ensures { result ≡ spec.host_id_ahead word.entry }
{
    match word {
        Some(word) => host_id_in(word.as_slice()),
        None => None,
    }
}

#[tactic(auto, unfolding(crate::specs::Options::host_id))]
fn host_id<'a>(alloc: Global, reader: &mut Reader<'_, 'a>) -> Result<SetOption<'a>, ConfError>
    ensures { Reads (spec.host_id reader.old) result reader.new }
{
    match host_id_ahead(reader.plain_ahead()) {
        None => Err(reader.refuse(alloc)),
        Some(number) if 1 <= number && number <= 4294967295 => {
            reader.take();
            Ok(SetOption::HostId(number as u32))
        }
        Some(_) => Err(reader.fault(ConfErrorKind::BadNumber)),
    }
}

/// `normal`; another optimization is left out.
#[tactic(auto, unfolding(crate::specs::Options::optimization))]
fn optimization<'a>(alloc: Global, reader: &mut Reader<'_, 'a>) -> Result<SetOption<'a>, ConfError>
    ensures { Reads (spec.optimization reader.old) result reader.new }
{
    if reader.eat_word(b"normal") {
        return Ok(SetOption::NormalOptimization);
    }
    match reader.plain_ahead() {
        Some(_) => Err(set_left_out(alloc, reader, b"optimization".as_slice())),
        None => Err(reader.refuse(alloc)),
    }
}

/// A word of any kind: a plain one, a quoted text or a macro.
#[tactic(auto, unfolding(crate::specs::Options::any_word))]
fn any_word<'a>(
    alloc: Global,
    reader: &mut Reader<'_, 'a>,
) -> Result<Written<'a, Name<'a>>, ConfError>
    ensures { Reads (spec.any_word reader.old) result reader.new }
{
    if let Some(found) = reader.macro_ahead() {
        reader.take();
        return Ok(Written::Macro(found));
    }
    if let Some(text) = reader.quoted_ahead() {
        return Ok(Written::Item(reader.named(text)));
    }
    match reader.plain_ahead() {
        Some(word) => Ok(Written::Item(reader.named(word))),
        None => Err(reader.refuse(alloc)),
    }
}

/// What comes behind the name of an option.
#[tactic(auto, unfolding(crate::specs::Options::option_by))]
fn option_by<'a>(
    alloc: Global,
    reader: &mut Reader<'_, 'a>,
    word: OptionWord,
) -> Result<SetOption<'a>, ConfError>
    ensures { Reads (spec.option_by word reader.old) result reader.new }
{
    match word {
        OptionWord::Skip => skip(alloc, reader),
        OptionWord::Timeout => Ok(SetOption::Timeouts(list::<TimeoutSetting>(alloc, reader)?)),
        OptionWord::Limit => Ok(SetOption::Limits(list::<LimitSetting>(alloc, reader)?)),
        OptionWord::BlockPolicy => block_policy(alloc, reader),
        OptionWord::StatePolicy => state_policy(alloc, reader),
        OptionWord::HostId => host_id(alloc, reader),
        OptionWord::Optimization => optimization(alloc, reader),
        OptionWord::WithoutEffect => Ok(SetOption::WithoutEffect(any_word(alloc, reader)?)),
    }
}

/// What comes behind `set`.
#[tactic(auto, unfolding(crate::specs::Options::set_option))]
pub(crate) fn option_behind_set<'a>(
    alloc: Global,
    reader: &mut Reader<'_, 'a>,
) -> Result<SetOption<'a>, ConfError>
    ensures { Reads (spec.set_option reader.old) result reader.new }
{
    match reader.plain_ahead() {
        None => Err(reader.refuse(alloc)),
        Some(word) => match option_named(word.as_slice()) {
            Some(name) => {
                reader.take();
                option_by(alloc, reader, name)
            }
            None => Err(set_left_out(alloc, reader, word.as_slice())),
        },
    }
}
