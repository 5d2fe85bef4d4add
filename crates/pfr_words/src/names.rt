//! The words that a ruleset text gives a meaning, none of which may be the name of a macro or a table.
ghost use Rattle.std.specs.Prelude.{◌≡◌, map};
ghost use Rattle.pfr_words.specs.Names as spec;

/// The words of pf.conf(5)'s grammar.
pub const GRAMMAR_WORDS: [&[u8]; 62] = [
    b"table",
    b"persist",
    b"const",
    b"counters",
    b"set",
    b"skip",
    b"on",
    b"timeout",
    b"limit",
    b"states",
    b"frags",
    b"src-nodes",
    b"table-entries",
    b"tables",
    b"block-policy",
    b"drop",
    b"return",
    b"state-policy",
    b"if-bound",
    b"floating",
    b"hostid",
    b"optimization",
    b"normal",
    b"require-order",
    b"loginterface",
    b"debug",
    b"ruleset-optimization",
    b"interval",
    b"frag",
    b"src.track",
    b"pass",
    b"block",
    b"in",
    b"out",
    b"log",
    b"quick",
    b"inet",
    b"proto",
    b"all",
    b"from",
    b"to",
    b"port",
    b"any",
    b"self",
    b"flags",
    b"icmp-type",
    b"code",
    b"no",
    b"state",
    b"keep",
    b"no-sync",
    b"max",
    b"allow-opts",
    b"label",
    b"anchor",
    b"nat-anchor",
    b"rdr-anchor",
    b"binat-anchor",
    b"nat",
    b"rdr",
    b"binat",
    b"static-port",
];

/// The words of pf.conf(5) for what this profile leaves out.
pub const LEFT_OUT_WORDS: [&[u8]; 39] = [
    b"scrub",
    b"altq",
    b"queue",
    b"antispoof",
    b"load",
    b"include",
    b"route-to",
    b"reply-to",
    b"dup-to",
    b"tag",
    b"tagged",
    b"user",
    b"group",
    b"os",
    b"tos",
    b"probability",
    b"fragment",
    b"modulate",
    b"synproxy",
    b"sloppy",
    b"max-src-nodes",
    b"max-src-states",
    b"max-src-conn",
    b"max-src-conn-rate",
    b"overload",
    b"source-track",
    b"bitmask",
    b"random",
    b"source-hash",
    b"round-robin",
    b"sticky-address",
    b"file",
    b"inet6",
    b"icmp6-type",
    b"return-rst",
    b"return-icmp",
    b"return-icmp6",
    b"no-route",
    b"urpf-failed",
];

/// The protocols that pf.conf(5) names, by IANA's numbers.
pub const PROTOCOLS: [(&[u8], u8); 7] = [
    (b"icmp", 1),
    (b"igmp", 2),
    (b"tcp", 6),
    (b"udp", 17),
    (b"gre", 47),
    (b"esp", 50),
    (b"ah", 51),
];

/// The services that have a name, by their ports.
pub const SERVICES: [(&[u8], u16); 12] = [
    (b"ftp", 21),
    (b"ssh", 22),
    (b"telnet", 23),
    (b"smtp", 25),
    (b"domain", 53),
    (b"http", 80),
    (b"www", 80),
    (b"pop3", 110),
    (b"ntp", 123),
    (b"imap", 143),
    (b"snmp", 161),
    (b"https", 443),
];

/// The ICMP types that pf.conf(5) names.
pub const ICMP_TYPES: [(&[u8], u8); 6] = [
    (b"echorep", 0),
    (b"unreach", 3),
    (b"redir", 5),
    (b"echoreq", 8),
    (b"timex", 11),
    (b"paramprob", 12),
];

/// Whether `word` is one of `words`.
pub fn is_among(words: &[&[u8]], word: &[u8]) -> bool
    ensures { result ≡ spec.is_among (map (λ w. w.now) words.now) word.now }
{
    for known in words {
        if *known == word {
            return true;
        }
    }
    false
}

/// What a table has for a word.
pub fn entry_of<T: Copy>(table: &[(&[u8], T)], word: &[u8]) -> Option<T>
    ensures { result ≡ spec.entry_of (map (λ e. (e.0.now, e.1)) table.now) word.now }
{
    for entry in table {
        if entry.0 == word {
            return Some(entry.1);
        }
    }
    None
}

#[tactic(auto, unfolding(crate::specs::Names::is_grammar_word))]
pub fn is_grammar_word(word: &[u8]) -> bool
    ensures { result ≡ spec.is_grammar_word word.now }
{
    is_among(&GRAMMAR_WORDS, word)
}

#[tactic(auto, unfolding(crate::specs::Names::is_left_out))]
pub fn is_left_out(word: &[u8]) -> bool
    ensures { result ≡ spec.is_left_out word.now }
{
    is_among(&LEFT_OUT_WORDS, word)
}

/// The number of a protocol by its name.
#[tactic(auto, unfolding(crate::specs::Names::protocol_named))]
pub fn protocol_named(word: &[u8]) -> Option<u8>
    ensures { result ≡ spec.protocol_named word.now }
{
    entry_of(&PROTOCOLS, word)
}

/// The port of a service by its name.
#[tactic(auto, unfolding(crate::specs::Names::service_named))]
pub fn service_named(word: &[u8]) -> Option<u16>
    ensures { result ≡ spec.service_named word.now }
{
    entry_of(&SERVICES, word)
}

/// The number of an ICMP type by its name.
#[tactic(auto, unfolding(crate::specs::Names::icmp_type_named))]
pub fn icmp_type_named(word: &[u8]) -> Option<u8>
    ensures { result ≡ spec.icmp_type_named word.now }
{
    entry_of(&ICMP_TYPES, word)
}

/// Whether a ruleset text gives the word a meaning.
#[tactic(auto, unfolding(crate::specs::Names::is_reserved))]
pub(crate) fn is_reserved(word: &[u8]) -> bool
    ensures { result ≡ spec.is_reserved word.now }
{
    is_grammar_word(word)
        || is_left_out(word)
        || protocol_named(word).is_some()
        || service_named(word).is_some()
        || icmp_type_named(word).is_some()
}

/// Whether every byte is a letter, a digit or an underscore.
fn are_name_bytes(text: &[u8]) -> bool
    ensures { result ≡ spec.are_name_bytes text.now }
{
    for byte in text {
        if !is_name_byte(*byte) {
            return false;
        }
    }
    true
}

/// Whether the byte is a letter, a digit or an underscore.
pub(crate) fn is_name_byte(byte: u8) -> bool
    ensures { result ≡ spec.is_name_byte byte }
{
    byte.is_ascii_alphanumeric() || byte == b'_'
}

/// Whether a macro or a table may have the name: 1 to 31 letters, digits and underscores, and no word that has a
/// meaning.
#[tactic(auto, unfolding(crate::specs::Names::is_name))]
pub fn is_name(text: &[u8]) -> bool
    ensures { result ≡ spec.is_name text.now }
{
    !text.is_empty() && text.len() <= 31 && are_name_bytes(text) && !is_reserved(text)
}
