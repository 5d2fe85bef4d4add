//! What is said of a ruleset, in the manner of a compiler.
use crate::flag::Flag;
use crate::hints::Hint;
use crate::prepared::{Prepared, origin_of};
use crate::preparing::Request;
use pfr_faults::Fault;
use pfr_include::{Included, Origin, Spliced};
use pfr_remarks::Remark;
use pfr_rewrite::{Finding, Kind};
use std::io::Write;

/// The file of this number among those that flags give for statements, from 1.
fn included_name<'a>(flags: &[Flag<'a>], number: usize) -> Option<&'a str> {
    let mut left = number;
    for flag in flags {
        if let Flag::Include { file, .. } = flag {
            if left <= 1 {
                return Some(*file);
            }
            left -= 1;
        }
    }
    None
}

/// The name of the ruleset's file, which has the number 0, or of one that a flag names.
fn name_of<'a>(request: &Request<'a>, number: usize) -> &'a str {
    if number == 0 {
        return request.name;
    }
    match included_name(request.flags.as_slice(), number) {
        Some(name) => name,
        None => request.name,
    }
}

/// Says a place, and the kind of what is said there. That it can't be written is ignored: the new text shows what was
/// done.
fn say_place<E: Write>(err: &mut E, name: &str, line: usize, column: usize, kind: Kind) {
    let _ = write!(err, "{name}:{line}:{column}: {kind}: ");
}

/// Says that a file stands in the place of a statement.
fn say_spliced<E: Write>(request: &Request<'_>, spliced: &Spliced, err: &mut E) {
    let origin = spliced.origin;
    let name = name_of(request, origin.file);
    say_place(err, name, origin.line, spliced.column, Kind::Note);
    let file = name_of(request, spliced.file);
    let _ = writeln!(err, "include: the text of {file} stands here");
}

/// Whether a byte is a control character, which shows nothing itself.
fn is_control(byte: u8) -> bool {
    byte < 32 || byte == 127
}

/// Says bytes of a text in one line, with a blank for each control character. A word that goes over the end of a
/// continued line has some.
fn say_in_line<E: Write>(err: &mut E, bytes: &[u8]) {
    for (place, piece) in bytes.split(|byte| is_control(*byte)).enumerate() {
        if place > 0 {
            let _ = err.write_all(b" ");
        }
        let _ = err.write_all(piece);
    }
}

/// Says what was rewritten of a text whose lines come from here.
fn say_finding<E: Write>(
    request: &Request<'_>,
    origins: &[Origin],
    finding: &Finding<'_>,
    err: &mut E,
) {
    let origin = origin_of(origins, finding.place.line);
    let name = name_of(request, origin.file);
    let reason = finding.reason;
    say_place(err, name, origin.line, finding.place.column, reason.kind());
    say_in_line(err, finding.word.as_slice());
    let _ = writeln!(err, ": {reason}");
}

/// Says what pfctl(8) refuses of a text whose lines come from here.
fn say_remark<E: Write>(
    request: &Request<'_>,
    origins: &[Origin],
    remark: &Remark<'_>,
    err: &mut E,
) {
    let origin = origin_of(origins, remark.place.line);
    let name = name_of(request, origin.file);
    let why = remark.why;
    say_place(err, name, origin.line, remark.place.column, Kind::Warning);
    say_in_line(err, remark.word.as_slice());
    let _ = writeln!(err, ": {why}");
}

/// Says which files stand in the place of statements.
pub(crate) fn say_files<E: Write>(request: &Request<'_>, included: &Included, err: &mut E) {
    for spliced in included.spliced.as_slice() {
        say_spliced(request, spliced, err);
    }
}

/// Whether two findings say the same of one word.
fn are_same(first: &Finding<'_>, second: &Finding<'_>) -> bool {
    first.place.offset == second.place.offset && first.reason == second.reason
}

/// Whether the finding before the one at a place says the same.
fn is_repeated(findings: &[Finding<'_>], at: usize) -> bool {
    if at == 0 || at >= findings.len() {
        return false;
    }
    are_same(&findings[at - 1], &findings[at])
}

/// Says what was rewritten of a text whose lines come from here. What is said of a word again and again is said once.
pub(crate) fn say_findings<E: Write>(
    request: &Request<'_>,
    origins: &[Origin],
    findings: &[Finding<'_>],
    err: &mut E,
) {
    for at in 0..findings.len() {
        if !is_repeated(findings, at) {
            say_finding(request, origins, &findings[at], err);
        }
    }
}

/// Says what pfctl(8) refuses of a text whose lines come from here.
pub(crate) fn say_remarks<E: Write>(
    request: &Request<'_>,
    origins: &[Origin],
    remarks: &[Remark<'_>],
    err: &mut E,
) {
    for remark in remarks {
        say_remark(request, origins, remark, err);
    }
}

/// Says a word, if there is one, and what parts it from what is said of it.
fn say_word<E: Write>(err: &mut E, word: &[u8]) {
    if !word.is_empty() {
        say_in_line(err, word);
        let _ = err.write_all(b": ");
    }
}

/// Whether the fault at a place of a list stands before the one at another place in the text, or at the same and is
/// found sooner.
fn is_before(faults: &[Fault<'_>], at: usize, other: usize) -> bool {
    let (Some(fault), Some(behind)) = (faults.get(at), faults.get(other)) else {
        return false;
    };
    let (offset, later) = (fault.place.offset, behind.place.offset);
    offset < later || (offset == later && at < other)
}

/// How many faults stand in the text before the one at a place of the list.
fn rank_of(faults: &[Fault<'_>], at: usize) -> usize {
    let mut rank: usize = 0;
    for other in 0..faults.len() {
        if is_before(faults, other, at) {
            rank = rank.saturating_add(1);
        }
    }
    rank
}

/// Says the fault of a text that has `rank` others before it.
fn say_ranked<E: Write>(
    request: &Request<'_>,
    prepared: &Prepared,
    faults: &[Fault<'_>],
    rank: usize,
    err: &mut E,
) {
    for at in 0..faults.len() {
        if rank_of(faults, at) == rank {
            say_fault(request, prepared, &faults[at], err);
        }
    }
}

/// Says the faults of a text, of which there are a hundred at most, in the order of the text.
pub(crate) fn say_all_faults<E: Write>(
    request: &Request<'_>,
    prepared: &Prepared,
    faults: &[Fault<'_>],
    err: &mut E,
) {
    for rank in 0..faults.len() {
        say_ranked(request, prepared, faults, rank, err);
    }
}

/// Says a fault of a text.
fn say_fault<E: Write>(request: &Request<'_>, prepared: &Prepared, fault: &Fault<'_>, err: &mut E) {
    let spot = prepared.spot_of(fault.place);
    let name = name_of(request, spot.origin.file);
    say_place(err, name, spot.origin.line, spot.column, Kind::Error);
    say_word(err, fault.word.as_slice());
    let kind = &fault.kind;
    let hint = Hint { kind };
    let _ = writeln!(err, "{kind}{hint}");
}
