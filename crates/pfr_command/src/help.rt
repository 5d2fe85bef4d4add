//! What the help says of the program and its commands.

/// What the program prints of itself for `--version`: its own, and the line of the toolchain that proved it.
pub(crate) const VERSIONS: &str = "0.1.0
rattle-kit-13f logic dac8208d650f15bf";

pub(crate) const RUN_EXAMPLE: &str = "Example:
  pfreplay run office.pcap /etc/pf.conf --interface em0 --address 192.0.2.1/24 \\
      --inside 10.0.0.0/8,192.0.2.1 --verdicts verdicts.txt --packets passed.pcap \\
      --counters counters.txt --states states.txt";

pub(crate) const MORE_OF_RUN: &str =
    "Several interfaces, a capture from a pipe, and packets as they are on the wire:
  pfreplay run em0.pcap /etc/pf.conf --interface em0 --address 192.0.2.1/24 \\
      --also em1,203.0.113.2/24,em1.pcap,passed1.pcap --inside 10.0.0.0/8 \\
      --verdicts verdicts.txt --packets passed0.pcap \\
      --counters counters.txt --states states.txt
  zcat office.pcap.gz | pfreplay run - /etc/pf.conf --interface em0 --address 192.0.2.1/24 \\
      --inside 10.0.0.0/8 --verdicts - --packets passed.pcap \\
      --counters counters.txt --states states.txt
  tcpdump -i em0 -c 1000 -w - | pfreplay run - /etc/pf.conf --interface em0 \\
      --address 192.0.2.1/24 --tap wire --mac em0=00:00:5e:00:53:01 \\
      --verdicts verdicts.txt --packets passed.pcap \\
      --counters counters.txt --states states.txt

In the place of a capture - is standard input, and in the place of an output standard output.";

pub(crate) const CHECK_EXAMPLE: &str = "Example:
  pfreplay check /etc/pf.conf --interface em0 --address 192.0.2.1/24";

pub(crate) const MORE_OF_PROGRAM: &str =
    "pfreplay help COMMAND prints the words and flags of a command.";

pub(crate) const ADAPT_EXAMPLE: &str = "Example:
  pfreplay adapt /etc/pf.conf --interface em0 --address 192.0.2.1/24 > adapted.conf";

pub(crate) const MORE_OF_ADAPT: &str =
    "It prints the text on standard output, and on standard error a line for each part that it rewrote:
RULES:LINE:COLUMN: KIND: WORD: WHY. KIND is note if no verdict depends on it, and warning if
verdicts may differ from pf's. error says what is still refused.

What the file of a table holds can be given:
  pfreplay adapt pf.conf --interface em0 --address 192.0.2.1/24 --table spammers=spammers.txt";

pub(crate) const STANDBY_EXAMPLE: &str = "Example:
  pfreplay standby --messages messages.bin";

pub(crate) const MORE_OF_STANDBY: &str =
    "It prints a line for each state, by number: N PROTO DIR WIRE STACK r=R PEER PEER TIMEOUT.
N is the number of the packet that made the state, PROTO its protocol's number.
DIR is in or out, WIRE and STACK are the ends outside and inside on the two sides.
R is the number of the rule, - if there is none.
PEER is CODE/LOW/HIGH/WINDOW/SCALE of the end that made the state, and of the other one.
TIMEOUT: 0 to 5 tcp.first, tcp.opening, tcp.established, tcp.closing, tcp.finwait,
  tcp.closed; 6 to 8 udp.first, udp.single, udp.multiple; 9 and 10 icmp.first,
  icmp.error; 11 to 13 other.first, other.single, other.multiple.

In the place of the file - is standard input.";

pub(crate) const STATES_EXAMPLE: &str = "Example:
  pfreplay states states.txt";

pub(crate) const MORE_OF_STATES: &str =
    "It prints a line for each state, as pfctl -s states does: the interface to which it is bound or all,
the protocol, both ends and how far they have come. The end inside stands first, what is
translated in brackets. -> is a state that a packet made on its way out, <- one on its way in.

Those of one protocol and address, and one state to a line of JSON:
  pfreplay states states.txt | grep 'tcp 192.0.2.1:443'
  pfreplay states states.txt --json

In the place of the file - is standard input.";

pub(crate) const RULES_EXAMPLE: &str = "Example:
  pfreplay rules /etc/pf.conf --interface em0 --address 192.0.2.1/24";

pub(crate) const MORE_OF_RULES: &str =
    "It prints a line for each rule, @N LLINE and the rule: N is the number by which verdict lines and
counters name it, LINE the line on which it stands. Translation rules come first. An anchor has a
line where it begins, and one where it ends.

With what a run counted, and the rules for which no packet counts:
  pfreplay rules /etc/pf.conf --interface em0 --address 192.0.2.1/24 --counters counters.txt
  pfreplay rules /etc/pf.conf --interface em0 --address 192.0.2.1/24 --counters counters.txt \\
      | grep 'counts no packet'";

pub(crate) const DIFF_EXAMPLE: &str = "Example:
  pfreplay diff office.pcap /etc/pf.conf pf.new --interface em0 --address 192.0.2.1/24 \\
      --inside 10.0.0.0/8,192.0.2.1";

pub(crate) const MORE_OF_DIFF: &str =
    "It prints a line for each packet that comes to something else, unless it follows another one: of its
flow, or by the state that another one made. The line has what it comes to by both rulesets, its
number, and how many packets follow it. LLINE is the line of the rule that decides. Then come sums,
and the rules that differ but that no packet could have asked, with the reason. The status is 0 if no
packet changes, 1 if one does, 5 if none does and not all that differs could be asked, and 2 to 4 if
the files can't be compared.

In the place of the capture - is standard input.";

pub(crate) const SHOW_EXAMPLE: &str = "Example:
  pfreplay show office.pcap verdicts.txt /etc/pf.conf --interface em0 --address 192.0.2.1/24";

pub(crate) const MORE_OF_SHOW: &str =
    "It joins each packet with the line of verdicts that a run with this ruleset wrote of it, and prints a
line: time, rule with its line, reason, verdict, direction, interface, and the packet as it was
captured.

Which rule blocks what comes from a host, how many packets there are, and a capture for tcpdump:
  pfreplay show office.pcap verdicts.txt /etc/pf.conf --interface em0 --address 192.0.2.1/24 \\
      --only block,return --host 198.51.100.8
  pfreplay show office.pcap verdicts.txt /etc/pf.conf --interface em0 --address 192.0.2.1/24 \\
      --line 43 --count
  pfreplay show office.pcap verdicts.txt /etc/pf.conf --interface em0 --address 192.0.2.1/24 \\
      --logged --format pflog | tcpdump -nn -e -r -

In the place of the capture or of the verdicts - is standard input, for one of them.";

pub(crate) const REPORT_EXAMPLE: &str = "Example:
  pfreplay report office.pcap verdicts.txt /etc/pf.conf --interface em0 --address 192.0.2.1/24 \\
      --states states.txt > report.html";

pub(crate) const MORE_OF_REPORT: &str =
    "It prints a page of HTML, which a browser shows: verdicts over time, the lines of the ruleset with
the packets of each, lines that did nothing, the flows that were blocked most, and states by age.
The page needs no other file and no network.

In the place of the capture, of the verdicts or of the states - is standard input, for one of them.";
