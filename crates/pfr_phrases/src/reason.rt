//! Why a part of a text is rewritten.
ghost use Rattle.std.specs.Prelude.{◌≡◌};
ghost use Rattle.pfr_phrases.specs.Reasons as spec;

use thiserror::Error;

/// What a change means for the verdicts.
#[derive(Clone, Copy, Debug, PartialEq, Eq, Error)]
pub enum Kind {
    /// No verdict of this program depends on it.
    #[error("note")]
    Note,
    /// Verdicts may differ from pf's.
    #[error("warning")]
    Warning,
    /// It can't be rewritten.
    #[error("error")]
    Error,
}

/// Why a part of a text is rewritten. What it prints says what is written in its place, and which verdicts may differ.
#[derive(Clone, Copy, Debug, PartialEq, Eq, Error)]
pub enum Reason {
    /// `modulate state`.
    #[error("sequence numbers stay as they are: written as keep state")]
    Modulated,
    /// `return-rst`, `return-icmp`.
    #[error("the kind of the answer is left out: written as return")]
    Answer,
    /// `log (..)`.
    #[error("nothing is logged here: the options of log are left out")]
    LogOptions,
    /// `route-to` and the like.
    #[error("packets are routed nowhere here: left out")]
    Route,
    /// `queue`, `altq`, `dnpipe`.
    #[error("packets wait in no queue here: left out")]
    Queue,
    /// `ridentifier`, `tracker`.
    #[error("a number for programs that read the rules: left out")]
    Identifier,
    /// A `set` on which no verdict depends.
    #[error("no verdict depends on this setting: left out")]
    Setting,
    /// `inet6`, `icmp6-type`.
    #[error("packets are IPv4 here, so the rule holds for none: left out")]
    Inet6,
    /// An IPv6 address among others.
    #[error("packets are IPv4 here, so no packet has this address: left out")]
    Inet6Address,
    /// The name of a protocol, a service, or a type or code of ICMP.
    #[error("written as its number")]
    Name,
    /// An address with fewer than four parts.
    #[error("written with four parts")]
    ShortAddress,
    /// `set optimization aggressive` and the like.
    #[error("written as the timeouts that it stands for")]
    Optimization,
    /// `pflow`.
    #[error("no flow is exported here: left out")]
    Flow,
    /// `set prio`, `set tos` in a rule.
    #[error("packets get no priority here: left out")]
    Priority,
    /// A label behind another one.
    #[error("a rule has one label here: the ones behind it are left out")]
    Label,
    /// The use of a macro.
    #[error("its value is written out here, since words of it are rewritten, or no macro may stand here")]
    Macro,
    /// A host by its name, or an interface that isn't the one of the capture.
    #[error("written as its address")]
    Host,
    /// `(self)`.
    #[error("addresses don't change here: written without brackets")]
    Brackets,
    /// A group of interfaces.
    #[error("written as the interfaces of the group")]
    Group,
    /// The name of a table that a table may not have here.
    #[error("written with letters, digits and _ alone, in at most 31 bytes")]
    TableName,
    /// `file` of a table.
    #[error("written as the entries that were given for the table")]
    TableFile,
    /// `antispoof`.
    #[error("written as the rules that it stands for")]
    Antispoof,
    /// `synproxy state`.
    #[error("written as keep state: pf would answer the SYN itself, and let in only connections that are completed")]
    Synproxy,
    /// `scrub`.
    #[error("left out: fragments aren't put together here, and packets pass whose flags or headers pf would drop or mend")]
    Scrub,
    /// `max-src-states` and the like.
    #[error("left out: where the limit would be reached, pf would block what passes here")]
    Limit,
    /// `overload`, `flush`.
    #[error("left out: nothing is put into the table here, so rules that ask it decide otherwise behind the first that would be")]
    Overload,
    /// `sloppy`.
    #[error("left out: packets that a loose tracking would let pass are block state-mismatch here")]
    Sloppy,
    /// A timeout of one rule.
    #[error("left out: states of this rule end by the timeouts of all, so packets behind a long pause may differ")]
    RuleTimeout,
    /// `adaptive.start`, `adaptive.end` of all states.
    #[error("left out: where there are many states, pf would end them sooner")]
    Adaptive,
    /// `tag`.
    #[error("left out: packets get no tag here, and rules that ask for one are left out")]
    Tag,
    /// A rule that asks for what packets of a capture don't show.
    #[error("the rule is left out: packets that it would hold for are decided by the other rules")]
    Criterion,
    /// `set reassemble`.
    #[error("left out: fragments aren't put together here")]
    Reassemble,
    /// `set state-defaults`.
    #[error("left out: states are made without these options here")]
    StateDefaults,
    /// `no-route`, `urpf-failed` among addresses.
    #[error("left out: packets of a capture don't show whether there is a route")]
    NoRoute,
    /// A target of several addresses.
    #[error("one address alone: where pf would take another one, translated packets differ")]
    Pool,
    /// A rule of another interface than the run's.
    #[error("no packet of a run is on this interface here, so the rule holds for none")]
    Elsewhere,
    /// `match`.
    #[error("the rule is left out: what it would set on packets isn't set")]
    Match,
    /// A text that would have to be rewritten again.
    #[error("what stands for it would have to be rewritten again, so nothing of the text is rewritten: write out here what it stands for")]
    Unsettled,
}

impl Reason {
    /// Whether verdicts may differ.
    #[tactic(auto, unfolding(crate::specs::Reasons::kind_of))]
    pub fn kind(self) -> Kind
        ensures { result ≡ spec.kind_of self }
    {
        match self {
            Reason::Modulated
            | Reason::Answer
            | Reason::LogOptions
            | Reason::Route
            | Reason::Queue
            | Reason::Identifier
            | Reason::Setting
            | Reason::Inet6
            | Reason::Inet6Address
            | Reason::Name
            | Reason::ShortAddress
            | Reason::Optimization
            | Reason::Flow
            | Reason::Priority
            | Reason::Label
            | Reason::Macro
            | Reason::Host
            | Reason::Brackets
            | Reason::Group
            | Reason::TableName
            | Reason::TableFile
            | Reason::Antispoof => Kind::Note,
            Reason::Synproxy
            | Reason::Scrub
            | Reason::Limit
            | Reason::Overload
            | Reason::Sloppy
            | Reason::RuleTimeout
            | Reason::Adaptive
            | Reason::Tag
            | Reason::Criterion
            | Reason::Reassemble
            | Reason::StateDefaults
            | Reason::NoRoute
            | Reason::Pool
            | Reason::Elsewhere
            | Reason::Match => Kind::Warning,
            Reason::Unsettled => Kind::Error,
        }
    }
}
