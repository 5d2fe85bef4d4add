//! From statements to the flat ruleset.
ghost use Rattle.std.specs.Prelude.{◌≡◌, ◌<◌, ◌≤◌, ◌+◌, [], false, OnOk, IfOk};
ghost use Rattle.pfr_ruleset.specs.Places.{ArePlaced, joined};
ghost use Rattle.pfr_terms.specs.Input.{Gives};
ghost use Rattle.pfr_elements.specs.Values.{begun, taken_at};
ghost use Rattle.pfr_expand.specs.Bodies as bodies;
ghost use Rattle.pfr_expand.specs.Bodies.{Adds};
ghost use Rattle.pfr_expand.specs.Rulesets as spec;

use crate::body::{Body, Setting, add_statement, counted_choices};
use crate::options::set_option;
use crate::tables::{clash, exceeds, fill};
use crate::translation::{add_translation, translation_lists};
use pfr_conf::anchor::DEEPEST_ANCHOR;
use pfr_conf::{
    Bytes, ConfError, FilterStatement, MacroDefinition, MacroUse, Name, Piece, SetOption,
    Statement, Statements, TableDefinition, TranslationRule, TranslationStatement,
};
use pfr_elements::value::Draft;
use pfr_elements::{Macros, Names, Scope};
use pfr_flat::{MOST_RULES, too_many};
use pfr_items::Items;
use pfr_ruleset::{FilterRules, FlatAnchor, FlatRule, Interface, Label, Ruleset};
use std::alloc::{AllocError, Global};
use std::mem::{drop, replace};

/// The name of the table of the interfaces' own addresses. No text can write it.
const OWN_TABLE: &[u8] = b"(self)";

/// How far an expansion has come: what gives words their meaning, how many entries all tables have together, and the
/// ruleset so far.
#[derive(Drop)]
pub struct Work<'a> {
    pub scope: Scope<'a>,
    pub entries: usize,
    /// How many translation rules of all kinds there are.
    pub translations: usize,
    pub flat: Ruleset,
}

/// Puts what the use of a macro stands for behind a macro's value.
fn add_use(
    alloc: Global,
    macros: &Macros<'_>,
    draft: &mut Draft,
    found: &MacroUse<'_>,
) -> Result<(), ConfError>
    ensures { Adds (spec.with_use draft.old (taken_at macros.now false found.now)) result draft.new }
{
    let taken = macros.taken_at(alloc, found, false)??;
    draft.add_taken(&taken)?;
    Ok(())
}

/// Puts a piece behind a macro's value.
fn add_piece(
    alloc: Global,
    macros: &Macros<'_>,
    draft: &mut Draft,
    piece: &Piece<'_>,
) -> Result<(), ConfError>
    ensures { Adds (spec.with_piece macros.now draft.old piece.now) result draft.new }
{
    match piece {
        Piece::Quoted(name) => draft.add_text(name.text.as_slice())?,
        Piece::Plain(name) => draft.add_text(name.text.as_slice())?,
        Piece::Macro(found) => add_use(alloc, macros, draft, found)?,
    }
    Ok(())
}

/// The value that the pieces of a macro make.
fn draft_of(alloc: Global, macros: &Macros<'_>, pieces: &[Piece<'_>]) -> Result<Draft, ConfError>
    ensures { Gives (spec.pieces_from macros.now (begun macros.now) pieces.now) result }
{
    let mut draft = macros.begin(alloc);
    for piece in pieces {
        add_piece(alloc, macros, &mut draft, piece)?;
    }
    Ok(draft)
}

/// The line of a filter rule or an anchor.
#[tactic(auto, unfolding(crate::specs::Rulesets::line_of))]
fn line_of(statement: &FilterStatement<'_>) -> usize
    ensures { result ≡ spec.line_of statement.now }
{
    match statement {
        FilterStatement::Rule(rule) => rule.line,
        FilterStatement::Anchor(anchor, _) => anchor.line,
    }
}

/// Puts rules and the anchors round them behind the others.
fn add_rules(
    flat: &mut Ruleset,
    alloc: Global,
    rules: &[FlatRule],
    anchors: &[FlatAnchor],
) -> Result<(), AllocError>
    requires { ArePlaced rules.now anchors.now }
    ensures { OnOk result (flat.new ≡ record flat.old { filter = joined flat.old.filter rules.now anchors.now }) }
{
    let before = replace(&mut flat.filter, FilterRules::new(alloc));
    flat.filter = before.joined(rules, anchors)?;
    Ok(())
}

impl<'a> Work<'a> {
    /// The flat ruleset that was made.
    fn into_flat(self) -> Ruleset
        ensures { result ≡ self.entry.flat }
    {
        self.flat
    }

    /// Before the first statement the table of the interfaces' own addresses is defined alone.
    fn new(
        alloc: Global,
        interfaces: &[Interface],
        tables: Names<'a>,
    ) -> Result<Work<'a>, AllocError>
        ensures { IfOk result (λ work. work ≡ spec.started interfaces.now tables.entry) }
    {
        match Items::copied(alloc, interfaces) {
            Ok(named) => {
                let scope = Scope {
                    interfaces: named,
                    macros: Macros::new(alloc),
                    tables,
                    defined: 1,
                };
                Work::with_scope(alloc, interfaces, scope)
            }
            Err(refused) => {
                drop(tables);
                Err(refused)
            }
        }
    }

    /// No rules and no entries yet, and what gives words their meaning.
    fn with_scope(
        alloc: Global,
        interfaces: &[Interface],
        scope: Scope<'a>,
    ) -> Result<Work<'a>, AllocError>
        ensures { IfOk result (λ work. work ≡ record (spec.started interfaces.now []) { scope = scope.entry }) }
    {
        match Ruleset::new(alloc, interfaces) {
            Ok(flat) => Ok(Work {
                scope,
                entries: 0,
                translations: 0,
                flat,
            }),
            Err(refused) => {
                drop(scope);
                Err(refused)
            }
        }
    }

    /// How many rules there are; one more than there may be stands for itself and all larger numbers.
    fn used(&self) -> usize
        ensures { result ≡ spec.used_in self.now }
    {
        let rules = self.flat.filter.rules().len();
        rules.saturating_add(self.translations).min(MOST_RULES + 1)
    }

    #[tactic(auto, unfolding(crate::specs::Rulesets::with_definition))]
    fn define(&mut self, alloc: Global, definition: &MacroDefinition<'a>) -> Result<(), ConfError>
        ensures made { Adds (spec.with_definition definition.now self.old) result self.new }
        ensures few { self.new.translations ≡ self.old.translations }
    {
        let draft = draft_of(alloc, &self.scope.macros, definition.pieces.as_slice())?;
        let name = Bytes::new(definition.name.text.as_slice());
        self.scope.define(alloc, name, draft)
    }

    /// The fault of a table that is defined already.
    fn clash_of(&self, name: &Name<'_>) -> Option<ConfError>
        ensures { result ≡ spec.clash_of name.now (spec.is_defined self.now.scope name.now) }
    {
        match self.scope.tables.last_place(name.text.as_slice()) {
            Some(place) if place < self.scope.defined => Some(clash(name.line)),
            _ => None,
        }
    }

    #[tactic(auto, unfolding(crate::specs::Rulesets::with_table))]
    fn add_table(
        &mut self,
        alloc: Global,
        definition: &TableDefinition<'a>,
    ) -> Result<(), ConfError>
        ensures made { Adds (spec.with_table definition.now self.old) result self.new }
        ensures few { self.new.translations ≡ self.old.translations }
    {
        let fault = self.clash_of(&definition.name);
        let filling = fill(alloc, &self.scope, fault, definition.entries.as_slice())?;
        let count = filling.found.count;
        if exceeds(self.entries, count) {
            drop(filling);
            return Err(too_many(definition.line));
        }
        let table = filling.into_table()?;
        self.entries += count;
        self.flat.tables.push(table)?;
        self.scope.defined = self.flat.tables.len();
        Ok(())
    }

    #[tactic(auto, unfolding(crate::specs::Rulesets::with_set))]
    fn set(&mut self, alloc: Global, option: &SetOption<'_>) -> Result<(), ConfError>
        ensures made { Adds (spec.with_set option.now self.old) result self.new }
        ensures few { self.new.translations ≡ self.old.translations }
    {
        set_option(&mut self.flat.options, alloc, &self.scope, option)
    }

    /// What holds for the statement of a line if it says nothing itself.
    fn setting(&self, line: usize) -> Setting
        ensures { result ≡ spec.setting_of self.now line }
    {
        Setting {
            block_policy: self.flat.options.block_policy,
            state_policy: self.flat.options.state_policy,
            used: self.used(),
            line,
        }
    }

    /// What a filter rule or an anchor comes to under a setting, behind rules with these labels.
    fn filter_body(
        &self,
        alloc: Global,
        setting: Setting,
        labels: Items<Label>,
        statement: &FilterStatement<'_>,
    ) -> Result<Body, ConfError>
        ensures made { Gives (bodies.statement 16 self.now.scope setting statement.now (bodies.empty_body labels)) result }
        ensures placed { IfOk result (λ body. ArePlaced body.rules body.anchors) }
    {
        let mut body = Body::new(alloc, labels);
        add_statement(
            alloc,
            &self.scope,
            setting,
            &mut body,
            statement,
            DEEPEST_ANCHOR,
        )
        .and(Ok(body))
    }

    /// Puts the rules of a body behind the others, or answers its fault.
    fn add_body(&mut self, alloc: Global, body: &mut Body) -> Result<(), ConfError>
        requires { ArePlaced body.old.rules body.old.anchors }
        ensures made { Adds (spec.filter_if self.old body.old body.old.fault) result self.new }
        ensures few { self.new.translations ≡ self.old.translations }
    {
        if let Some(fault) = body.fault.take() {
            return Err(fault);
        }
        let rules = body.rules.as_slice();
        add_rules(&mut self.flat, alloc, rules, body.anchors.as_slice())?;
        self.flat.labels = replace(&mut body.labels, Items::new(alloc));
        Ok(())
    }

    #[tactic(auto, unfolding(crate::specs::Rulesets::with_filter))]
    fn add_filter(
        &mut self,
        alloc: Global,
        statement: &FilterStatement<'_>,
    ) -> Result<(), ConfError>
        ensures made { Adds (spec.with_filter statement.now self.old) result self.new }
        ensures few { self.new.translations ≡ self.old.translations }
    {
        let setting = self.setting(line_of(statement));
        let labels = replace(&mut self.flat.labels, Items::new(alloc));
        let mut body = self.filter_body(alloc, setting, labels, statement)?;
        let added = self.add_body(alloc, &mut body);
        drop(body);
        added
    }

    #[tactic(auto, unfolding(crate::specs::Rulesets::with_translation))]
    fn add_translation(
        &mut self,
        alloc: Global,
        rule: &TranslationRule<'_>,
    ) -> Result<(), ConfError>
        requires { self.old.translations ≤ 65536 }
        ensures made { Adds (spec.with_translation rule.now self.old) result self.new }
        ensures few { OnOk result (self.new.translations ≤ 65536) }
    {
        let lists = translation_lists(alloc, &self.scope, rule)?;
        let (count, choices) = counted_choices(alloc, self.used(), rule.line, lists, 0, 1)?;
        let number = self.translations;
        let out = &mut self.flat.translations;
        add_translation(out, alloc, &self.scope, number, rule, choices)?;
        self.translations += count;
        Ok(())
    }

    /// A translation rule; an anchor of such rules is empty.
    fn add_translations(
        &mut self,
        alloc: Global,
        statement: &TranslationStatement<'_>,
    ) -> Result<(), ConfError>
        requires { self.old.translations ≤ 65536 }
        ensures made { Adds (spec.with_translations statement.now self.old) result self.new }
        ensures few { OnOk result (self.new.translations ≤ 65536) }
    {
        match statement {
            TranslationStatement::Anchor(_, _) => Ok(()),
            TranslationStatement::Rule(rule) => self.add_translation(alloc, rule),
        }
    }

    #[tactic(auto, unfolding(crate::specs::Rulesets::with_statement))]
    fn add(&mut self, alloc: Global, statement: &Statement<'a>) -> Result<(), ConfError>
        requires { self.old.translations ≤ 65536 }
        ensures made { Adds (spec.with_statement statement.now self.old) result self.new }
        ensures few { OnOk result (self.new.translations ≤ 65536) }
    {
        match statement {
            Statement::Macro(definition) => self.define(alloc, definition),
            Statement::Table(definition) => self.add_table(alloc, definition),
            Statement::Option(option) => self.set(alloc, option),
            Statement::Translation(found) => self.add_translations(alloc, found),
            Statement::Filter(rule) => self.add_filter(alloc, rule),
        }
    }

    fn add_all(&mut self, alloc: Global, statements: &[Statement<'a>]) -> Result<(), ConfError>
        requires { self.old.translations ≤ 65536 }
        ensures { Adds (spec.expanded_from self.old statements.now) result self.new }
    {
        for statement in statements {
            self.add(alloc, statement)?;
        }
        Ok(())
    }
}

/// Adds the name of the table that a statement defines, unless it is there.
fn add_table_name<'a>(names: &mut Names<'a>, statement: &Statement<'a>) -> Result<(), AllocError>
    ensures { OnOk result (names.new ≡ spec.with_table_name names.old statement.now) }
{
    let Statement::Table(definition) = statement else {
        return Ok(());
    };
    let name = definition.name.text.as_slice();
    match names.last_place(name) {
        Some(_) => Ok(()),
        None => names.push(Bytes::new(name)),
    }
}

/// The names of the tables that statements define, each once, behind that of the interfaces' own addresses.
fn table_names<'a>(alloc: Global, statements: &[Statement<'a>]) -> Result<Names<'a>, AllocError>
    ensures { IfOk result (λ names. names ≡ spec.table_names statements.now) }
{
    let mut names = Names::new(alloc);
    names.push(Bytes::new(OWN_TABLE))?;
    for statement in statements {
        add_table_name(&mut names, statement)?;
    }
    Ok(names)
}

/// All statements, one after the other.
fn work_of<'a>(
    alloc: Global,
    statements: &[Statement<'a>],
    interfaces: &[Interface],
) -> Result<Work<'a>, ConfError>
    ensures { Gives (spec.expanded_from (spec.started interfaces.now (spec.table_names statements.now)) statements.now) result }
{
    let names = table_names(alloc, statements)?;
    let mut work = Work::new(alloc, interfaces, names)?;
    work.add_all(alloc, statements).and(Ok(work))
}

/// The flat ruleset that statements mean for the interfaces of a run, or their first fault in the order of the text: a
/// fault of a macro's value, a table that isn't defined or clashes, a name that is no interface's, or too many rules or
/// entries.
#[tactic(auto, unfolding(crate::specs::Rulesets::expanded))]
pub fn expand(
    alloc: Global,
    statements: &Statements<'_>,
    interfaces: &[Interface],
) -> Result<Ruleset, ConfError>
    ensures { Gives (spec.expanded statements.now interfaces.now) result }
{
    let mut ruleset = work_of(alloc, statements.statements.as_slice(), interfaces)?.into_flat();
    match ruleset.index(alloc) {
        Ok(()) => Ok(ruleset),
        Err(refused) => {
            drop(ruleset);
            Err(ConfError::from(refused))
        }
    }
}
