//! The words of lists that are rewritten: names, addresses.
ghost use Rattle.std.specs.Prelude.{◌≡◌, ◌≤◌, ◌+◌, length};
ghost use Rattle.pfr_phrases.specs.Values as spec;

use crate::change::Becomes;
use crate::context::Says;
use crate::lengths::Takes;
use crate::phrases::Phrase;
use crate::reason::Reason;
use pfr_words::names::entry_of;

/// Protocols that the strict reader knows by their numbers alone (protocols(5), pf.conf(5)).
const PROTOCOLS: [(&[u8], u16); 25] = [
    (b"ipencap", 4),
    (b"igp", 9),
    (b"rdp", 27),
    (b"ipv6", 41),
    (b"ipv6-route", 43),
    (b"ipv6-frag", 44),
    (b"rsvp", 46),
    (b"mobile", 55),
    (b"ipv6-icmp", 58),
    (b"icmp6", 58),
    (b"ipv6-nonxt", 59),
    (b"ipv6-opts", 60),
    (b"eigrp", 88),
    (b"ospf", 89),
    (b"ipip", 94),
    (b"etherip", 97),
    (b"encap", 98),
    (b"pim", 103),
    (b"ipcomp", 108),
    (b"carp", 112),
    (b"vrrp", 112),
    (b"l2tp", 115),
    (b"sctp", 132),
    (b"udplite", 136),
    (b"pfsync", 240),
];

/// Services that it knows by their ports alone (services(5)).
const SERVICES: [(&[u8], u16); 67] = [
    (b"tcpmux", 1),
    (b"echo", 7),
    (b"discard", 9),
    (b"systat", 11),
    (b"daytime", 13),
    (b"qotd", 17),
    (b"chargen", 19),
    (b"ftp-data", 20),
    (b"time", 37),
    (b"whois", 43),
    (b"tacacs", 49),
    (b"bootps", 67),
    (b"bootpc", 68),
    (b"tftp", 69),
    (b"gopher", 70),
    (b"finger", 79),
    (b"kerberos", 88),
    (b"sunrpc", 111),
    (b"auth", 113),
    (b"ident", 113),
    (b"sftp", 115),
    (b"nntp", 119),
    (b"netbios-ns", 137),
    (b"netbios-dgm", 138),
    (b"netbios-ssn", 139),
    (b"snmptrap", 162),
    (b"xdmcp", 177),
    (b"bgp", 179),
    (b"irc", 194),
    (b"ldap", 389),
    (b"svrloc", 427),
    (b"microsoft-ds", 445),
    (b"smtps", 465),
    (b"isakmp", 500),
    (b"exec", 512),
    (b"login", 513),
    (b"shell", 514),
    (b"syslog", 514),
    (b"printer", 515),
    (b"talk", 517),
    (b"ntalk", 518),
    (b"router", 520),
    (b"uucp", 540),
    (b"klogin", 543),
    (b"kshell", 544),
    (b"afpovertcp", 548),
    (b"rtsp", 554),
    (b"nntps", 563),
    (b"submission", 587),
    (b"ipp", 631),
    (b"ldaps", 636),
    (b"rsync", 873),
    (b"ftps-data", 989),
    (b"ftps", 990),
    (b"telnets", 992),
    (b"imaps", 993),
    (b"ircs", 994),
    (b"pop3s", 995),
    (b"socks", 1080),
    (b"openvpn", 1194),
    (b"radius", 1812),
    (b"radacct", 1813),
    (b"nfsd", 2049),
    (b"mysql", 3306),
    (b"svn", 3690),
    (b"sip", 5060),
    (b"postgresql", 5432),
];

/// Types and codes of ICMP that it knows by their numbers alone (icmp(4), pf.conf(5)).
const ICMP_TYPES: [(&[u8], u16); 48] = [
    (b"squench", 4),
    (b"althost", 6),
    (b"routeradv", 9),
    (b"routersol", 10),
    (b"timereq", 13),
    (b"timerep", 14),
    (b"inforeq", 15),
    (b"inforep", 16),
    (b"maskreq", 17),
    (b"maskrep", 18),
    (b"trace", 30),
    (b"dataconv", 31),
    (b"mobredir", 32),
    (b"ipv6-where", 33),
    (b"ipv6-here", 34),
    (b"mobregreq", 35),
    (b"mobregrep", 36),
    (b"photuris", 40),
    (b"net-unr", 0),
    (b"host-unr", 1),
    (b"proto-unr", 2),
    (b"port-unr", 3),
    (b"needfrag", 4),
    (b"srcfail", 5),
    (b"net-unk", 6),
    (b"host-unk", 7),
    (b"isolate", 8),
    (b"net-prohib", 9),
    (b"host-prohib", 10),
    (b"net-tos", 11),
    (b"host-tos", 12),
    (b"filter-prohib", 13),
    (b"host-preced", 14),
    (b"cutoff-preced", 15),
    (b"redir-net", 0),
    (b"redir-host", 1),
    (b"redir-tos-net", 2),
    (b"redir-tos-host", 3),
    (b"normal-adv", 0),
    (b"common-adv", 16),
    (b"transit", 0),
    (b"reassemb", 1),
    (b"badhead", 0),
    (b"optmiss", 1),
    (b"badlen", 2),
    (b"unknown-ind", 1),
    (b"auth-fail", 2),
    (b"decrypt-fail", 3),
];

/// The number of a protocol by its name.
#[tactic(auto, unfolding(crate::specs::Values::protocol_number))]
fn protocol_number(word: &[u8]) -> Option<u16>
    ensures { result ≡ spec.protocol_number word.now }
{
    entry_of(&PROTOCOLS, word)
}

/// The port of a service by its name.
#[tactic(auto, unfolding(crate::specs::Values::service_port))]
fn service_port(word: &[u8]) -> Option<u16>
    ensures { result ≡ spec.service_port word.now }
{
    entry_of(&SERVICES, word)
}

/// The number of a type or a code of ICMP by its name.
#[tactic(auto, unfolding(crate::specs::Values::icmp_number))]
fn icmp_number(word: &[u8]) -> Option<u16>
    ensures { result ≡ spec.icmp_number word.now }
{
    entry_of(&ICMP_TYPES, word)
}

/// The number of a name by what words say: of a protocol, a service, or a type or code of ICMP.
pub fn number_of(says: Says, word: &[u8]) -> Option<u16>
    ensures { result ≡ spec.number_of says word.now }
{
    match says {
        Says::Protocol => protocol_number(word),
        Says::Port => service_port(word),
        Says::IcmpType => icmp_number(word),
        _ => None,
    }
}

/// Whether a byte is a digit.
fn is_digit(byte: u8) -> bool
    ensures { result ≡ spec.is_digit byte }
{
    b'0' <= byte && byte <= b'9'
}

/// How many of these bytes stand in a text.
pub(crate) fn count_of(byte: u8, text: &[u8]) -> usize
    ensures value { result ≡ spec.count_of byte text.now }
    ensures within { result ≤ length text.now }
{
    let mut count: usize = 0;
    for found in text {
        if *found == byte {
            count += 1;
        }
    }
    count
}

/// Whether a text is digits, dots and slashes, each dot and slash between two digits; by whether a digit stands before
/// it.
fn are_parts(behind_digit: bool, text: &[u8]) -> bool
    ensures { result ≡ spec.are_parts behind_digit text.now }
{
    let mut digit = behind_digit;
    for byte in text {
        if !is_digit(*byte) && !(digit && (*byte == b'.' || *byte == b'/')) {
            return false;
        }
        digit = is_digit(*byte);
    }
    digit
}

/// Whether a word is a network of which not all four parts are written, as `10/8`: digits, fewer than three dots, one
/// slash.
fn is_short_network(word: &[u8]) -> bool
    ensures { result ≡ spec.is_short_network word.now }
{
    are_parts(false, word) && count_of(b'.', word) < 3 && count_of(b'/', word) == 1
}

/// Whether words that say this are addresses: those of packets, or a target's.
pub fn says_address(says: Says) -> bool
    ensures { result ≡ spec.says_address says }
{
    match says {
        Says::Address | Says::Target => true,
        _ => false,
    }
}

/// What an address is written as, if it isn't as the strict reader wants it.
fn short_network(says: Says, word: &[u8]) -> Option<Phrase>
    ensures { result ≡ spec.short_network says word.now }
{
    if says == Says::Address && is_short_network(word) {
        let zeros = 3_usize.saturating_sub(count_of(b'.', word));
        Some(Phrase(
            Takes::Nothing,
            Becomes::WithZeros(zeros),
            Reason::ShortAddress,
        ))
    } else {
        None
    }
}

/// What a word is written as, by what words say, if it isn't as the strict reader wants it.
#[tactic(auto, unfolding(crate::specs::Values::value_phrase))]
pub(crate) fn value_phrase(says: Says, word: &[u8]) -> Option<Phrase>
    ensures { result ≡ spec.value_phrase says word.now }
{
    if let Some(number) = number_of(says, word) {
        return Some(Phrase(Takes::Nothing, Becomes::Number(number), Reason::Name));
    }
    short_network(says, word)
}

/// How a network of one address ends.
const ONE_ADDRESS: &[u8] = b"/32";

/// Whether a word is a network of four parts and of several addresses.
pub fn is_network(word: &[u8]) -> bool
    ensures { result ≡ spec.is_network word.now }
{
    are_parts(false, word)
        && count_of(b'.', word) == 3
        && count_of(b'/', word) == 1
        && !word.ends_with(ONE_ADDRESS)
}
