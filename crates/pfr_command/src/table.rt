//! Tables of commands, and the command line that they make.
use crate::around::SURROUNDINGS;
use clap::{Arg, ArgAction, Command};
use std::alloc::{AllocError, Global};

/// How a word is given.
#[derive(Clone, Copy)]
pub(crate) enum Given {
    /// By its place.
    Place,
    /// Behind its flag, in this form. The flag has to be there.
    Needed(&'static str),
    /// Behind its flag, in this form. The flag may be left out.
    Optional(&'static str),
    /// Behind its flag, in this form, each time that the flag is there.
    Repeated(&'static str),
    /// By its flag alone.
    Switch,
}

/// Which other flag a flag depends on.
#[derive(Clone, Copy)]
pub(crate) enum Beside {
    /// On none.
    Any,
    /// It is refused beside this one.
    Not(&'static str),
    /// It is refused without this one.
    With(&'static str),
    /// It has to be there without this one.
    Unless(&'static str),
}

/// A word or a flag of a command.
#[derive(Clone, Copy)]
pub(crate) struct Word {
    pub(crate) name: &'static str,
    pub(crate) given: Given,
    pub(crate) beside: Beside,
    pub(crate) help: &'static str,
}

/// A part of the words of a command.
#[derive(Clone, Copy)]
pub(crate) enum Part {
    /// These.
    Words(&'static [Word]),
    /// The flags that say what the text of a ruleset can't.
    Surroundings(Beside),
}

/// A command of the program.
#[derive(Clone, Copy, PartialEq, Eq)]
pub enum CommandName {
    Run,
    Check,
    Adapt,
    Standby,
    States,
    Rules,
    Diff,
    Show,
    Report,
}

/// All commands.
const COMMAND_NAMES: [CommandName; 9] = [
    CommandName::Run,
    CommandName::Check,
    CommandName::Adapt,
    CommandName::Standby,
    CommandName::States,
    CommandName::Rules,
    CommandName::Diff,
    CommandName::Show,
    CommandName::Report,
];

impl CommandName {
    /// The word for it.
    fn word(self) -> &'static str {
        match self {
            CommandName::Run => "run",
            CommandName::Check => "check",
            CommandName::Adapt => "adapt",
            CommandName::Standby => "standby",
            CommandName::States => "states",
            CommandName::Rules => "rules",
            CommandName::Diff => "diff",
            CommandName::Show => "show",
            CommandName::Report => "report",
        }
    }

    /// The command that a word stands for.
    pub(crate) fn of(word: &str) -> Option<CommandName> {
        for command in COMMAND_NAMES {
            if command.word() == word {
                return Some(command);
            }
        }
        None
    }
}

/// A command: what its help says, and its words in the order in which the help lists them.
#[derive(Clone, Copy)]
pub(crate) struct Said {
    pub(crate) command: CommandName,
    pub(crate) about: &'static str,
    pub(crate) example: &'static str,
    pub(crate) more: Option<&'static str>,
    pub(crate) parts: &'static [Part],
}

/// A word that is given behind its flag.
fn valued<'a>(arg: Arg<'a>, name: &'a str, form: &'a str) -> Arg<'a> {
    arg.long(name).value_name(form)
}

/// How the word is given.
fn as_given<'a>(arg: Arg<'a>, word: &Word) -> Arg<'a> {
    match word.given {
        Given::Place => arg.required(true),
        Given::Needed(form) => valued(arg, word.name, form).required(true),
        Given::Optional(form) | Given::Repeated(form) => valued(arg, word.name, form),
        Given::Switch => arg.long(word.name),
    }
}

/// What becomes of what is given.
fn action_of(given: Given) -> ArgAction {
    match given {
        Given::Place | Given::Needed(_) | Given::Optional(_) => ArgAction::Set,
        Given::Repeated(_) => ArgAction::Append,
        Given::Switch => ArgAction::SetTrue,
    }
}

/// The flag, with the other one that it depends on.
fn depending<'a>(arg: Arg<'a>, beside: Beside) -> Result<Arg<'a>, AllocError> {
    match beside {
        Beside::Any => Ok(arg),
        Beside::Not(other) => arg.conflicts_with(other),
        Beside::With(other) => arg.requires_arg(other),
        Beside::Unless(other) => arg.required_unless_present(other),
    }
}

/// A word as the command line has it.
fn arg<'a>(alloc: Global, word: &Word) -> Result<Arg<'a>, AllocError> {
    let arg = Arg::new(alloc, word.name).help(word.help);
    let arg = arg.action(action_of(word.given));
    depending(as_given(arg, word), word.beside)
}

/// Adds words to others.
fn add_words<'a>(alloc: Global, args: &mut Vec<Arg<'a>>, words: &[Word]) -> Result<(), AllocError> {
    for word in words {
        args.push(arg(alloc, word)?)?;
    }
    Ok(())
}

/// Adds the flags that say what the text of a ruleset can't.
fn add_surroundings<'a>(
    alloc: Global,
    args: &mut Vec<Arg<'a>>,
    beside: Beside,
) -> Result<(), AllocError> {
    for surrounding in &SURROUNDINGS {
        args.push(arg(alloc, &surrounding.word(beside))?)?;
    }
    Ok(())
}

/// All words of a command.
fn args_of<'a>(alloc: Global, parts: &[Part]) -> Result<Vec<Arg<'a>>, AllocError> {
    let mut args = Vec::new(alloc);
    for part in parts {
        match *part {
            Part::Words(words) => add_words(alloc, &mut args, words)?,
            Part::Surroundings(beside) => add_surroundings(alloc, &mut args, beside)?,
        }
    }
    Ok(args)
}

/// A command with what its help says at the end.
fn with_more<'a>(command: Command<'a>, more: Option<&'static str>) -> Command<'a> {
    match more {
        Some(more) => command.after_help(more),
        None => command,
    }
}

/// A command as the command line has it.
pub(crate) fn command<'a>(alloc: Global, said: &Said) -> Result<Command<'a>, AllocError> {
    let command = Command::new(alloc, said.command.word()).about(said.about);
    let command = with_more(command.before_help(said.example), said.more);
    command.args(args_of(alloc, said.parts)?)
}
