//! Rules as they are told: by their words, and by the lines of their file.
use crate::again::translation_lines;
use crate::counts::{Counted, RuleCounts};
use crate::logged::logged_lines;
use crate::names::table_names;
use crate::worded::{Worded, in_words};
use pfr_conf::{ConfError, ConfErrorKind};
use pfr_prepare::Prepared;
use pfr_ruleset::Ruleset;
use pfr_shadows::Shadow;
use pfr_texts::append_number;
use std::alloc::{AllocError, Global};

/// A rule as it is told.
#[derive(Clone, Copy)]
pub struct RuleTold<'a> {
    /// Its words.
    pub words: &'a [u8],
    /// Its words without its label. Two rules of one ruleset in which these are the same do the same, wherever they
    /// stand.
    pub unlabelled: &'a [u8],
    /// The line of the ruleset's file on which it stands, from 1.
    pub line: usize,
    /// Whether it says `log`. This is false for translation rules.
    pub is_logged: bool,
}

impl<'a> RuleTold<'a> {
    /// The first of its words that isn't `no`: of a translation rule `nat`, `rdr` or `binat`.
    pub fn kind(&self) -> &'a [u8] {
        first_word(
            self.words
                .strip_prefix(b"no ".as_slice())
                .unwrap_or(self.words),
        )
    }

    /// Appends its words as they are printed: a blank stands where they go on with the next line.
    pub fn append(&self, text: &mut Vec<u8>) -> Result<(), AllocError> {
        append_words(text, self.words)
    }
}

/// The first of some words.
fn first_word(words: &[u8]) -> &[u8] {
    for (place, byte) in words.iter().enumerate() {
        if *byte == b' ' {
            return &words[..place];
        }
    }
    words
}

/// The rules of a ruleset as they are told, by their numbers.
#[derive(Drop)]
pub struct RulesTold<'a> {
    pub filter: Vec<RuleTold<'a>>,
    pub translations: Vec<RuleTold<'a>>,
    /// The tables of the text, each as it is defined without entries, in their order.
    pub tables: Vec<&'a [u8]>,
    /// The anchors round filter rules, each up to its bracket, in their order.
    pub anchors: Vec<&'a [u8]>,
}

/// The rules that a ruleset's file makes.
#[derive(Drop)]
pub struct Rules {
    worded: Worded,
    /// The lines of the file on which filter rules stand, by their numbers.
    filter: Vec<usize>,
    /// The same of translation rules.
    translations: Vec<usize>,
    /// Whether filter rules say `log`, by their numbers.
    logged: Vec<bool>,
    /// How long the labels of filter rules are in words, by their numbers.
    labels: Vec<usize>,
    /// How many lines of the words define tables.
    tables: usize,
}

/// Why rules aren't told.
#[derive(Clone, Copy, Debug, PartialEq, Eq)]
pub enum Untold {
    /// What was written of them doesn't mean the same rules.
    OtherRules,
    /// Memory was refused.
    Memory,
}

impl From<AllocError> for Untold {
    fn from(_refused: AllocError) -> Self {
        Untold::Memory
    }
}

impl From<ConfError> for Untold {
    fn from(fault: ConfError) -> Self {
        match fault.kind {
            ConfErrorKind::Memory => Untold::Memory,
            _ => Untold::OtherRules,
        }
    }
}

/// The lines of the file on which filter rules stand.
fn filter_lines(
    alloc: Global,
    text: &Prepared,
    ruleset: &Ruleset,
) -> Result<Vec<usize>, AllocError> {
    let mut lines = Vec::new(alloc);
    for rule in ruleset.filter.rules() {
        lines.push(text.line_of(rule.line))?;
    }
    Ok(lines)
}

/// Whether the filter rules of a ruleset say `log`, by their numbers.
fn logged_rules(
    alloc: Global,
    text: &Prepared,
    ruleset: &Ruleset,
) -> Result<Vec<bool>, AllocError> {
    let lines = logged_lines(alloc, text.text.as_slice())?;
    let mut logged = Vec::new(alloc);
    for rule in ruleset.filter.rules() {
        logged.push(lines.get(rule.line).copied().unwrap_or(false))?;
    }
    Ok(logged)
}

/// How long the labels of the filter rules of a ruleset are in words, with the blank before them.
fn label_lengths(alloc: Global, ruleset: &Ruleset) -> Result<Vec<usize>, AllocError> {
    let mut lengths = Vec::new(alloc);
    for rule in ruleset.filter.rules() {
        let length = match ruleset.label_of(rule) {
            Some(label) => label.len().saturating_add(b" label \"\"".len()),
            None => 0,
        };
        lengths.push(length)?;
    }
    Ok(lengths)
}

/// The lines of the file for lines of the text that was made of it.
fn lines_in_file(text: &Prepared, lines: &mut Vec<usize>) {
    for line in lines.as_mut_slice() {
        *line = text.line_of(*line);
    }
}

/// Puts a line behind others, and nothing at the places of the lines with which it goes on.
fn push_line<'a>(lines: &mut Vec<&'a [u8]>, line: &'a [u8], more: usize) -> Result<(), AllocError> {
    lines.push(line)?;
    for _ in 0..more {
        lines.push(&[])?;
    }
    Ok(())
}

/// The lines of a text, without their newlines, each at the place of its number. A line goes on behind a newline with a
/// backslash before it, as a label may; nothing is at the places of the lines with which it goes on.
fn lines_of_text<'a>(alloc: Global, text: &'a [u8]) -> Result<Vec<&'a [u8]>, AllocError> {
    let mut lines = Vec::new(alloc);
    let mut start = 0;
    let mut more = 0;
    let mut before = b'\n';
    for (place, byte) in text.iter().enumerate() {
        if *byte == b'\n' {
            if before == b'\\' {
                more = place.min(more) + 1;
            } else {
                push_line(&mut lines, text.get(start..place).unwrap_or(&[]), more)?;
                start = place + 1;
                more = 0;
            }
        }
        before = *byte;
    }
    Ok(lines)
}

/// Appends a line as it is printed: a blank stands where it goes on.
fn append_words(text: &mut Vec<u8>, line: &[u8]) -> Result<(), AllocError> {
    for (place, byte) in line.iter().enumerate() {
        if *byte == b'\n' {
            text.push(b' ')?;
        } else if *byte != b'\\' || line.get(place + 1).copied() != Some(b'\n') {
            text.push(*byte)?;
        }
    }
    Ok(())
}

/// A line without the blanks before it.
fn without_blanks(line: &[u8]) -> &[u8] {
    for (place, byte) in line.iter().enumerate() {
        if *byte != b' ' {
            return &line[place..];
        }
    }
    line
}

/// The rules on the lines `places` of the words and the lines `lines` of the file, whether they say `log`, and how long
/// their labels are.
fn told_at<'a>(
    alloc: Global,
    words: &[&'a [u8]],
    places: &[usize],
    lines: &[usize],
    logged: &[bool],
    labels: &[usize],
) -> Result<Vec<RuleTold<'a>>, AllocError> {
    let mut rules = Vec::new(alloc);
    for (place, line) in places.iter().zip(lines) {
        let is_logged = logged.get(rules.len()).copied().unwrap_or(false);
        let label = labels.get(rules.len()).copied().unwrap_or(0);
        let words = match words.get(place.saturating_sub(1)) {
            Some(words) => without_blanks(words),
            None => &[],
        };
        rules.push(RuleTold {
            words,
            unlabelled: words
                .get(..words.len().saturating_sub(label))
                .unwrap_or(words),
            line: *line,
            is_logged,
        })?;
    }
    Ok(rules)
}

/// The tables and the anchors among the lines of words, whose first lines define `count` tables.
fn tables_and_anchors<'a>(
    alloc: Global,
    words: &[&'a [u8]],
    count: usize,
) -> Result<(Vec<&'a [u8]>, Vec<&'a [u8]>), AllocError> {
    let mut tables = Vec::new(alloc);
    let mut anchors = Vec::new(alloc);
    for (place, line) in words.iter().enumerate() {
        let line = without_blanks(line);
        if place < count {
            tables.push(line)?;
        } else if line.starts_with(b"anchor") {
            anchors.push(line)?;
        }
    }
    Ok((tables, anchors))
}

/// Whether the rule with a number stands on a line of the words.
fn is_at(places: &[usize], number: usize, line: usize) -> bool {
    match places.get(number) {
        Some(place) => *place == line,
        None => false,
    }
}

/// Appends what stands before a rule: `@N LLINE `.
fn append_place(text: &mut Vec<u8>, lines: &[usize], number: usize) -> Result<(), AllocError> {
    text.extend_from_slice(b"@")?;
    append_number(text, number as u64)?;
    if let Some(line) = lines.get(number) {
        text.extend_from_slice(b" L")?;
        append_number(text, *line as u64)?;
    }
    text.extend_from_slice(b" ")
}

/// Whether packets can count for a rule of these words: none count for a rule that translates nothing.
fn may_count(words: &[u8]) -> bool {
    !without_blanks(words).starts_with(b"no ")
}

/// What is remarked of a rule.
#[derive(Clone, Copy)]
struct Remarks<'a> {
    /// What a run counted of it.
    counted: Option<&'a Counted>,
    /// The number of the filter rule by which it is shadowed.
    by: Option<usize>,
}

/// Appends what a run counted of a rule.
fn append_counted(text: &mut Vec<u8>, counted: &Counted) -> Result<(), AllocError> {
    append_number(text, counted.evaluations)?;
    text.extend_from_slice(b" evaluations, ")?;
    append_number(text, counted.packets)?;
    text.extend_from_slice(b" packets, ")?;
    append_number(text, counted.bytes)?;
    text.extend_from_slice(b" bytes")
}

/// Appends `parting` and `shadowed by @N`, if the rule is shadowed.
fn append_shadow(text: &mut Vec<u8>, parting: &[u8], by: Option<usize>) -> Result<(), AllocError> {
    match by {
        Some(by) => {
            text.extend_from_slice(parting)?;
            text.extend_from_slice(b"shadowed by @")?;
            append_number(text, by as u64)
        }
        None => Ok(()),
    }
}

/// Appends what is remarked of a rule of these words.
fn append_remarks(
    text: &mut Vec<u8>,
    words: &[u8],
    remarks: Remarks<'_>,
) -> Result<(), AllocError> {
    let Some(counted) = remarks.counted else {
        return append_shadow(text, b"  # ", remarks.by);
    };
    text.extend_from_slice(b"  # ")?;
    append_counted(text, counted)?;
    if counted.packets == 0 && may_count(words) {
        text.extend_from_slice(b": counts no packet")?;
        append_shadow(text, b", ", remarks.by)
    } else {
        append_shadow(text, b": ", remarks.by)
    }
}

/// Appends a rule as it is printed, with what is remarked of it.
fn append_rule(
    text: &mut Vec<u8>,
    lines: &[usize],
    number: usize,
    words: &[u8],
    remarks: Remarks<'_>,
) -> Result<(), AllocError> {
    append_place(text, lines, number)?;
    append_words(text, words)?;
    append_remarks(text, words, remarks)?;
    text.extend_from_slice(b"\n")
}

/// What a run counted of the rule with a number, if that is given.
pub fn counted_at(counts: Option<&[Counted]>, number: usize) -> Option<&Counted> {
    counts?.get(number)
}

/// The number of the rule that shadows rule `number`, if `number` is the first one of `shadows`, which is then passed.
pub fn shadow_at(shadows: &mut &[Shadow], number: usize) -> Option<usize> {
    let (shadow, behind) = shadows.split_first()?;
    if shadow.rule != number {
        return None;
    }
    *shadows = behind;
    Some(shadow.by)
}

/// The lines of the file on which the rules of a ruleset stand, and which filter rules say `log`.
#[derive(Drop)]
struct FileLines {
    filter: Vec<usize>,
    translations: Vec<usize>,
    logged: Vec<bool>,
    labels: Vec<usize>,
}

/// What the file says of the rules of a ruleset that this text means.
fn file_lines(alloc: Global, text: &Prepared, ruleset: &Ruleset) -> Result<FileLines, AllocError> {
    let mut translations = translation_lines(alloc, ruleset)?;
    lines_in_file(text, &mut translations);
    let filter = filter_lines(alloc, text, ruleset)?;
    let logged = logged_rules(alloc, text, ruleset)?;
    let labels = label_lengths(alloc, ruleset)?;
    Ok(FileLines {
        filter,
        translations,
        logged,
        labels,
    })
}

/// Rules with these words, and with the lines of their file.
fn with_lines(
    worded: Worded,
    tables: usize,
    lines: Result<FileLines, AllocError>,
) -> Result<Rules, Untold> {
    match lines {
        Ok(lines) => Ok(Rules {
            worded,
            filter: lines.filter,
            translations: lines.translations,
            logged: lines.logged,
            labels: lines.labels,
            tables,
        }),
        Err(_) => Err(Untold::Memory),
    }
}

/// What is said of rules beside their words.
#[derive(Clone, Copy)]
pub struct Said<'a> {
    /// What a run counted of them.
    pub counts: Option<&'a RuleCounts>,
    /// The filter rules that are shadowed, by their numbers.
    pub shadows: &'a [Shadow],
}

/// How many rules were printed.
#[derive(Clone, Copy)]
struct Printed<'a> {
    filter: usize,
    translations: usize,
    /// The shadowed rules that weren't.
    shadows: &'a [Shadow],
}

impl Rules {
    /// The rules of a ruleset that this text means.
    pub fn of(alloc: Global, text: &Prepared, ruleset: &Ruleset) -> Result<Rules, Untold> {
        let names = table_names(alloc, text.text.as_slice())?;
        match in_words(alloc, ruleset, names.as_slice())? {
            Some(worded) => with_lines(worded, names.len(), file_lines(alloc, text, ruleset)),
            None => Err(Untold::OtherRules),
        }
    }

    /// The rules by their numbers.
    pub fn told<'a>(&'a self, alloc: Global) -> Result<RulesTold<'a>, AllocError> {
        let words = lines_of_text(alloc, self.worded.text.as_slice())?;
        let filter = told_at(
            alloc,
            words.as_slice(),
            self.worded.filter.as_slice(),
            self.filter.as_slice(),
            self.logged.as_slice(),
            self.labels.as_slice(),
        )?;
        let translations = told_at(
            alloc,
            words.as_slice(),
            self.worded.translations.as_slice(),
            self.translations.as_slice(),
            &[],
            &[],
        )?;
        let (tables, anchors) = tables_and_anchors(alloc, words.as_slice(), self.tables)?;
        Ok(RulesTold {
            filter,
            translations,
            tables,
            anchors,
        })
    }

    /// How many filter rules and how many translation rules there are.
    pub fn counts(&self) -> (usize, usize) {
        (self.filter.len(), self.translations.len())
    }

    /// Appends what is printed of the line of the words with this number.
    fn append_line(
        &self,
        text: &mut Vec<u8>,
        number: usize,
        line: &[u8],
        counts: Option<&RuleCounts>,
        printed: &mut Printed<'_>,
    ) -> Result<(), AllocError> {
        if is_at(
            self.worded.translations.as_slice(),
            printed.translations,
            number,
        ) {
            let counts = counts.map(|counts| counts.translations.as_slice());
            let rule = printed.translations;
            printed.translations = rule.saturating_add(1);
            let remarks = Remarks {
                counted: counted_at(counts, rule),
                by: None,
            };
            return append_rule(text, self.translations.as_slice(), rule, line, remarks);
        }
        if is_at(self.worded.filter.as_slice(), printed.filter, number) {
            let counts = counts.map(|counts| counts.filter.as_slice());
            let rule = printed.filter;
            printed.filter = rule.saturating_add(1);
            let remarks = Remarks {
                counted: counted_at(counts, rule),
                by: shadow_at(&mut printed.shadows, rule),
            };
            return append_rule(text, self.filter.as_slice(), rule, line, remarks);
        }
        if number > self.tables && !line.is_empty() {
            text.extend_from_slice(line)?;
            text.extend_from_slice(b"\n")?;
        }
        Ok(())
    }

    /// Appends a line for each rule and for each end of an anchor, with what is said of the rules.
    pub fn append(
        &self,
        alloc: Global,
        text: &mut Vec<u8>,
        said: Said<'_>,
    ) -> Result<(), AllocError> {
        let words = lines_of_text(alloc, self.worded.text.as_slice())?;
        let mut printed = Printed {
            filter: 0,
            translations: 0,
            shadows: said.shadows,
        };
        for (place, line) in words.iter().enumerate() {
            self.append_line(text, place + 1, line, said.counts, &mut printed)?;
        }
        Ok(())
    }
}
