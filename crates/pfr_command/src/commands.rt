//! The commands of the program, with their words, flags and help.
use crate::given::TEXT_OR_JSON;
use crate::help::{
    ADAPT_EXAMPLE, CHECK_EXAMPLE, DIFF_EXAMPLE, MORE_OF_ADAPT, MORE_OF_DIFF, MORE_OF_PROGRAM,
    MORE_OF_REPORT, MORE_OF_RULES, MORE_OF_RUN, MORE_OF_SHOW, MORE_OF_STANDBY, MORE_OF_STATES,
    REPORT_EXAMPLE, RULES_EXAMPLE, RUN_EXAMPLE, SHOW_EXAMPLE, STANDBY_EXAMPLE, STATES_EXAMPLE,
    VERSIONS,
};
use crate::show::{FORMAT, HOST, NUMBER, PORT, PROTO, VERDICTS};
use crate::table::{Beside, CommandName, Given, Part, Said, Word, command};
use clap::Command;
use pfr_values::{
    ADDRESS, BATCH, COMPARED, INSIDE, INTERFACE, MAC, NAMED, PEER, REPLAYED, SEED, TAP, WORKERS,
};
use std::alloc::{AllocError, Global};

/// The form of the value behind the flags that name a file.
const FILE: &str = "FILE";

const CAPTURE: Word = Word {
    name: "CAPTURE",
    given: Given::Place,
    beside: Beside::Any,
    help: "The file with the packet capture, in the classic pcap format",
};

const RULES: Word = Word {
    name: "RULES",
    given: Given::Place,
    beside: Beside::Any,
    help: "The file with the ruleset",
};

/// The interface that a ruleset is for.
const INTERFACE_WORDS: [Word; 2] = [
    Word {
        name: "interface",
        given: Given::Needed(INTERFACE),
        beside: Beside::Any,
        help: "The interface on which packets are, of 1 to 15 bytes",
    },
    Word {
        name: "address",
        given: Given::Needed(ADDRESS),
        beside: Beside::Any,
        help: "The interface's address and the length of its network's prefix",
    },
];

/// What the help says of `--also` if its value names a capture.
const ALSO_WITH_CAPTURE: &str =
    "Another interface with its capture, seven times at most; no name holds a comma";

/// Another interface of a command that replays captures.
const ALSO_REPLAYED: Word = Word {
    name: "also",
    given: Given::Repeated(REPLAYED),
    beside: Beside::Any,
    help: ALSO_WITH_CAPTURE,
};

/// Another interface of a command that reads captures.
const ALSO_COMPARED: Word = Word {
    name: "also",
    given: Given::Repeated(COMPARED),
    beside: Beside::Any,
    help: ALSO_WITH_CAPTURE,
};

/// Another interface of a command that reads a ruleset alone.
const ALSO_NAMED: Word = Word {
    name: "also",
    given: Given::Repeated(NAMED),
    beside: Beside::Any,
    help: "Another interface, seven times at most; no name holds a comma",
};

const ADAPT: Word = Word {
    name: "adapt",
    given: Given::Switch,
    beside: Beside::Any,
    help: "Rewrite the ruleset as the command adapt does, and say on standard error what was rewritten",
};

/// What a ruleset's text can't say: these flags are refused without `--adapt`.
const WITH_ADAPT: Part = Part::Surroundings(Beside::With("adapt"));

/// Which way packets go, and where they were captured.
const WAYS: [Word; 3] = [
    Word {
        name: "inside",
        given: Given::Optional(INSIDE),
        beside: Beside::Unless("mac"),
        help: "The networks whose packets go out, A.B.C.D/BITS or A.B.C.D, separated by commas; packets of those with ! come in",
    },
    Word {
        name: "mac",
        given: Given::Repeated(MAC),
        beside: Beside::Any,
        help: "An interface's Ethernet address; of its capture the frames that it sent go out, all others come in",
    },
    Word {
        name: "tap",
        given: Given::Optional(TAP),
        beside: Beside::Any,
        help: "Where packets that go out were captured, before or behind their translation [default: stack]",
    },
];

const SEED_WORD: Word = Word {
    name: "seed",
    given: Given::Optional(SEED),
    beside: Beside::Any,
    help: "What random choices begin with, 64 hexadecimal digits [default: 64 zeros]",
};

/// The outputs of a run, but for the messages.
const OUTPUTS: [Word; 4] = [
    Word {
        name: "verdicts",
        given: Given::Needed(FILE),
        beside: Beside::Any,
        help: "The file for a line on each packet",
    },
    Word {
        name: "packets",
        given: Given::Needed(FILE),
        beside: Beside::Any,
        help: "The file for the packets that go on",
    },
    Word {
        name: "counters",
        given: Given::Needed(FILE),
        beside: Beside::Any,
        help: "The file for the counters of the rules",
    },
    Word {
        name: "states",
        given: Given::Needed(FILE),
        beside: Beside::Any,
        help: "The file for the states at the end",
    },
];

/// How the work of a run is shared.
const SIZES: [Word; 2] = [
    Word {
        name: "batch",
        given: Given::Optional(BATCH),
        beside: Beside::Any,
        help: "How many packets are taken and written at a time; a whole run's outputs don't depend on it [default: 256]",
    },
    Word {
        name: "workers",
        given: Given::Optional(WORKERS),
        beside: Beside::Any,
        help: "How many threads evaluate packets ahead; the outputs don't depend on it [default: 4]",
    },
];

/// Where the messages of a run go.
const MESSAGES: [Word; 2] = [
    Word {
        name: "messages",
        given: Given::Optional(FILE),
        beside: Beside::Not("peer"),
        help: "The file for the messages to a standby, each behind an IP header",
    },
    Word {
        name: "peer",
        given: Given::Optional(PEER),
        beside: Beside::Any,
        help: "The peer that the messages to a standby are sent to, over TCP, in the place of a file",
    },
];

const WARN: Word = Word {
    name: "warn",
    given: Given::Switch,
    beside: Beside::Any,
    help: "Say on standard error what may mean that ruleset, captures and flags don't fit, and why a file can't be opened",
};

const QUIET: Word = Word {
    name: "quiet",
    given: Given::Switch,
    beside: Beside::Any,
    help: "Don't say on standard error what may mean that rulesets, captures and flags don't fit",
};

const PROGRESS: Word = Word {
    name: "progress",
    given: Given::Switch,
    beside: Beside::Any,
    help: "Say on standard error how far the command has come",
};

const RUN_COMMAND: Said = Said {
    command: CommandName::Run,
    about: "Replays a packet capture through a ruleset",
    example: RUN_EXAMPLE,
    more: Some(MORE_OF_RUN),
    parts: &[
        Part::Words(&[CAPTURE, RULES]),
        Part::Words(&INTERFACE_WORDS),
        Part::Words(&[ADAPT]),
        WITH_ADAPT,
        Part::Words(&WAYS),
        Part::Words(&OUTPUTS),
        Part::Words(&[ALSO_REPLAYED, SEED_WORD]),
        Part::Words(&SIZES),
        Part::Words(&MESSAGES),
        Part::Words(&[WARN, PROGRESS]),
    ],
};

const CHECK_COMMAND: Said = Said {
    command: CommandName::Check,
    about: "Reads a ruleset and prints how many rules it makes, and its checksum",
    example: CHECK_EXAMPLE,
    more: None,
    parts: &[
        Part::Words(&[RULES]),
        Part::Words(&INTERFACE_WORDS),
        Part::Words(&[ALSO_NAMED, ADAPT]),
        WITH_ADAPT,
    ],
};

const ADAPT_COMMAND: Said = Said {
    command: CommandName::Adapt,
    about: "Rewrites a ruleset in the words that the other commands read",
    example: ADAPT_EXAMPLE,
    more: Some(MORE_OF_ADAPT),
    parts: &[
        Part::Words(&[RULES]),
        Part::Words(&INTERFACE_WORDS),
        Part::Words(&[ALSO_NAMED]),
        Part::Surroundings(Beside::Any),
    ],
};

const STANDBY_COMMAND: Said = Said {
    command: CommandName::Standby,
    about: "Reads what a run tells a standby, and prints the states that it holds then",
    example: STANDBY_EXAMPLE,
    more: Some(MORE_OF_STANDBY),
    parts: &[Part::Words(&[
        Word {
            name: "messages",
            given: Given::Optional(FILE),
            beside: Beside::Not("listen"),
            help: "The file with the messages, each behind an IP header",
        },
        Word {
            name: "listen",
            given: Given::Optional(PEER),
            beside: Beside::Any,
            help: "Where to wait for one connection that sends the messages",
        },
    ])],
};

const STATES_COMMAND: Said = Said {
    command: CommandName::States,
    about: "Lists the states that a run left, as pfctl does",
    example: STATES_EXAMPLE,
    more: Some(MORE_OF_STATES),
    parts: &[Part::Words(&[
        Word {
            name: "STATES",
            given: Given::Place,
            beside: Beside::Any,
            help: "The file of the states that run wrote",
        },
        Word {
            name: "json",
            given: Given::Switch,
            beside: Beside::Any,
            help: "Print an object of JSON for each state, on a line of its own",
        },
    ])],
};

const RULES_COMMAND: Said = Said {
    command: CommandName::Rules,
    about: "Prints each rule that a ruleset makes, with its number and its line",
    example: RULES_EXAMPLE,
    more: Some(MORE_OF_RULES),
    parts: &[
        Part::Words(&[RULES]),
        Part::Words(&INTERFACE_WORDS),
        Part::Words(&[ALSO_NAMED, ADAPT]),
        WITH_ADAPT,
        Part::Words(&[
            Word {
                name: "counters",
                given: Given::Optional(FILE),
                beside: Beside::Any,
                help: "The counters that a run with this ruleset wrote, to be printed behind the rules",
            },
            Word {
                name: "format",
                given: Given::Optional(TEXT_OR_JSON),
                beside: Beside::Any,
                help: "How the rules are printed [default: text]",
            },
        ]),
    ],
};

const DIFF_COMMAND: Said = Said {
    command: CommandName::Diff,
    about: "Says for which packets of a capture another ruleset comes to something else",
    example: DIFF_EXAMPLE,
    more: Some(MORE_OF_DIFF),
    parts: &[
        Part::Words(&[
            CAPTURE,
            Word {
                name: "OLD",
                given: Given::Place,
                beside: Beside::Any,
                help: "The file with the ruleset as it is",
            },
            Word {
                name: "NEW",
                given: Given::Place,
                beside: Beside::Any,
                help: "The file with the ruleset as it is to be",
            },
        ]),
        Part::Words(&INTERFACE_WORDS),
        Part::Words(&WAYS),
        Part::Words(&[
            ALSO_COMPARED,
            SEED_WORD,
            Word {
                name: "verdicts",
                given: Given::Switch,
                beside: Beside::Any,
                help: "Only packets whose verdict is another one",
            },
            Word {
                name: "format",
                given: Given::Optional(TEXT_OR_JSON),
                beside: Beside::Any,
                help: "How the answer is printed [default: text]",
            },
            QUIET,
            PROGRESS,
            ADAPT,
        ]),
        WITH_ADAPT,
    ],
};

/// The verdicts of a run.
const VERDICTS_WORD: Word = Word {
    name: "VERDICTS",
    given: Given::Place,
    beside: Beside::Any,
    help: "The file of the verdicts that run wrote",
};

/// Which packets are shown, and how.
const SELECTION: [Word; 9] = [
    Word {
        name: "only",
        given: Given::Optional(VERDICTS),
        beside: Beside::Any,
        help: "Only packets with one of these verdicts",
    },
    Word {
        name: "rule",
        given: Given::Optional(NUMBER),
        beside: Beside::Any,
        help: "Only packets of the filter rule with this number",
    },
    Word {
        name: "line",
        given: Given::Optional(NUMBER),
        beside: Beside::Any,
        help: "Only packets of rules on this line",
    },
    Word {
        name: "host",
        given: Given::Optional(HOST),
        beside: Beside::Any,
        help: "Only packets from or to this address, or this network",
    },
    Word {
        name: "port",
        given: Given::Optional(PORT),
        beside: Beside::Any,
        help: "Only packets from or to this port",
    },
    Word {
        name: "proto",
        given: Given::Optional(PROTO),
        beside: Beside::Any,
        help: "Only packets of this protocol",
    },
    Word {
        name: "logged",
        given: Given::Switch,
        beside: Beside::Any,
        help: "Only packets that pf would log",
    },
    Word {
        name: "count",
        given: Given::Switch,
        beside: Beside::Not("format"),
        help: "Only say how many packets there are",
    },
    Word {
        name: "format",
        given: Given::Optional(FORMAT),
        beside: Beside::Any,
        help: "How packets are shown [default: text]",
    },
];

const SHOW_COMMAND: Said = Said {
    command: CommandName::Show,
    about: "Shows packets of a capture, each with the rule that decided",
    example: SHOW_EXAMPLE,
    more: Some(MORE_OF_SHOW),
    parts: &[
        Part::Words(&[CAPTURE, VERDICTS_WORD, RULES]),
        Part::Words(&INTERFACE_WORDS),
        Part::Words(&[ALSO_COMPARED, ADAPT]),
        WITH_ADAPT,
        Part::Words(&SELECTION),
    ],
};

const REPORT_COMMAND: Said = Said {
    command: CommandName::Report,
    about: "Prints a page of HTML about what a run made of a capture",
    example: REPORT_EXAMPLE,
    more: Some(MORE_OF_REPORT),
    parts: &[
        Part::Words(&[CAPTURE, VERDICTS_WORD, RULES]),
        Part::Words(&INTERFACE_WORDS),
        Part::Words(&[ALSO_COMPARED, ADAPT]),
        WITH_ADAPT,
        Part::Words(&[
            Word {
                name: "states",
                given: Given::Optional(FILE),
                beside: Beside::Any,
                help: "The file of the states that run wrote, to be told by their ages",
            },
            QUIET,
            PROGRESS,
        ]),
    ],
};

/// All commands, in the order in which the help lists them.
const COMMANDS: [Said; 9] = [
    RUN_COMMAND,
    CHECK_COMMAND,
    ADAPT_COMMAND,
    STANDBY_COMMAND,
    STATES_COMMAND,
    RULES_COMMAND,
    DIFF_COMMAND,
    SHOW_COMMAND,
    REPORT_COMMAND,
];

/// The command that words ask for, the program's name first.
pub fn command_of(words: &[String]) -> Option<CommandName> {
    match words.get(1) {
        Some(word) => CommandName::of(word.as_str()),
        None => None,
    }
}

/// The commands.
fn commands<'a>(alloc: Global) -> Result<Vec<Command<'a>>, AllocError> {
    let mut commands = Vec::new(alloc);
    for said in &COMMANDS {
        commands.push(command(alloc, said)?)?;
    }
    Ok(commands)
}

/// The program with what its help and its version say.
fn with_texts<'a>(program: Command<'a>) -> Command<'a> {
    let program = program.version("0.1.0").long_version(VERSIONS);
    let program = program.about("Replays a packet capture through a pf ruleset");
    program
        .before_help(CHECK_EXAMPLE)
        .after_help(MORE_OF_PROGRAM)
}

/// The program without its commands.
fn program<'a>(alloc: Global) -> Result<Command<'a>, AllocError> {
    let program = Command::new(alloc, "pfreplay").bin_name("pfreplay")?;
    Ok(with_texts(program).subcommand_required(true))
}

/// The whole command line.
pub(crate) fn command_line<'a>(alloc: Global) -> Result<Command<'a>, AllocError> {
    program(alloc)?.subcommands(commands(alloc)?)
}
