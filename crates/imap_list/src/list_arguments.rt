//! What a LIST asks for.

ghost use Rattle.std.specs.Prelude.{◌≡◌, IfOk, OnOk, ◌++◌, flat_map};
ghost use Rattle.std.specs.List.{list_any};
ghost use Rattle.imap_commands.specs.commands.List.{is_recursive, is_subscribed};
ghost use Rattle.imap_list.specs.ListCommand as specs;

use imap_grammar::{ListReturn, Patterns, Selection};
use imap_lex::Octets;
use imap_names::Pattern;
use imap_query::StatusItem;
use imap_syntax::Items;
use std::alloc::{AllocError, Global};
use std::marker::Model;
use std::slice;

/// The arguments of LIST (RFC 9051, section 6.3.9), as they stand in the command.
#[derive(Drop)]
pub struct ListArguments<'a> {
    pub selection: &'a Option<Items<Selection>>,
    pub reference: &'a Octets,
    pub patterns: &'a Patterns,
    pub returns: &'a Option<Items<ListReturn>>,
}

impl<'a> Model for ListArguments<'a> {
    ghost use Rattle.std.specs.Prelude.{ℕ, List, Option, refl};
    ghost use Rattle.std.specs.Coded.{code_by, codes};
    ghost use Rattle.imap_commands.specs.contracts.commands.list.ListReturn.{the_row as return_row};
    ghost use Rattle.imap_commands.specs.contracts.commands.list.Patterns.{the_row as patterns_row};
    ghost use Rattle.imap_commands.specs.contracts.commands.list.Selection.{the_row as selection_row};
    ghost use Rattle.imap_commands.specs.declared.commands.list.ListReturn.{ListReturn};
    ghost use Rattle.imap_commands.specs.declared.commands.list.Patterns.{Patterns};
    ghost use Rattle.imap_commands.specs.declared.commands.list.Selection.{Selection};
    ghost use Rattle.imap_list.specs.ListCommand as specs;

    ghost Value = { specs.ListArguments };

    ghost coded = { code_by (Option (List Selection) × (List ℕ × (Patterns × Option (List ListReturn))))
        (Prim.hlevel (codes, selection_row.coded, patterns_row.coded, return_row.coded))
        (λ q. (q.selection, (q.reference, (q.patterns, q.returns))))
        (λ p. record { selection = p.0; reference = p.1.0; patterns = p.1.1.0; returns = p.1.1.1 })
        (λ _. refl) };

    ghost view = { λ q. record {
      selection = q.selection.now;
      reference = q.reference.now;
      patterns = q.patterns.now;
      returns = q.returns.now;
    } };
}

impl<'a> ListArguments<'a> {
    /// Subscribed names are listed in place of mailboxes.
    pub(crate) fn selects_subscribed(&self) -> bool
        ensures { result ≡ specs.selects_subscribed self.now }
    {
        match self.selection {
            Some(words) => any_subscribed(words.as_slice()),
            None => false,
        }
    }

    /// The attribute `\Subscribed` is shown.
    pub(crate) fn shows_subscribed(&self) -> bool
        ensures { result ≡ specs.shows_subscribed self.now }
    {
        self.selects_subscribed() || self.returns_subscribed()
    }

    fn returns_subscribed(&self) -> bool
        ensures { result ≡ list_any specs.returns_subscribed (specs.given self.now.returns) }
    {
        match self.returns {
            Some(options) => any_returns_subscribed(options.as_slice()),
            None => false,
        }
    }

    /// The selection RECURSIVEMATCH is not built.
    pub(crate) fn is_unbuilt(&self) -> bool
        ensures { result ≡ specs.is_unbuilt self.now }
    {
        match self.selection {
            Some(words) => any_recursive(words.as_slice()),
            None => false,
        }
    }

    /// The numbers of each mailbox that are asked for (RFC 9051, section 6.3.9.2).
    pub(crate) fn status_items(&self, alloc: Global) -> Result<Vec<StatusItem>, AllocError>
        ensures { IfOk result (λ items. items.items ≡ specs.status_items self.now) }
    {
        match self.returns {
            Some(options) => status_items_in(alloc, options.as_slice()),
            None => Ok(Vec::new(alloc)),
        }
    }

    /// An empty pattern, without options, asks for the delimiter and the root.
    pub(crate) fn asks_for_root(&self) -> bool
        ensures { result ≡ specs.asks_for_root self.now }
    {
        match (self.selection, self.patterns, self.returns) {
            (None, Patterns::One(pattern), None) => pattern.as_slice().is_empty(),
            _ => false,
        }
    }

    /// The patterns after the reference. An empty one, and one that isn't UTF-8, match nothing.
    pub(crate) fn read_patterns(&self, alloc: Global) -> Result<Vec<Pattern>, AllocError>
        ensures { IfOk result (λ patterns. patterns.items ≡ specs.patterns_of self.now) }
    {
        match self.patterns {
            Patterns::One(text) => read_each(alloc, self.reference, slice::from_ref(text)),
            Patterns::Many(texts) => read_each(alloc, self.reference, texts.as_slice()),
        }
    }
}

fn any_subscribed(words: &[Selection]) -> bool
    ensures { result ≡ list_any is_subscribed words.now }
{
    words.iter().any(|word| word.is_subscribed())
}

fn any_recursive(words: &[Selection]) -> bool
    ensures { result ≡ list_any is_recursive words.now }
{
    words.iter().any(|word| word.is_recursive())
}

fn any_returns_subscribed(options: &[ListReturn]) -> bool
    ensures { result ≡ list_any specs.returns_subscribed options.now }
{
    options
        .iter()
        .any(|option| matches!(option, ListReturn::Subscribed))
}

fn status_items_in(alloc: Global, options: &[ListReturn]) -> Result<Vec<StatusItem>, AllocError>
    ensures { IfOk result (λ items. items.items ≡ flat_map specs.status_items_of options.now) }
{
    let mut items = Vec::new(alloc);
    for option in options {
        items.extend_from_slice(status_items_of(option))?;
    }
    Ok(items)
}

fn status_items_of(option: &ListReturn) -> &[StatusItem]
    ensures { result.now ≡ specs.status_items_of option.now }
{
    match option {
        ListReturn::Status(items) => items.as_slice(),
        _ => &[],
    }
}

/// Reads the patterns that can match anything.
fn read_each(
    alloc: Global,
    reference: &Octets,
    texts: &[Octets],
) -> Result<Vec<Pattern>, AllocError>
    ensures { IfOk result (λ patterns. patterns.items ≡ flat_map (specs.pattern_of reference.now) texts.now) }
{
    let mut patterns = Vec::new(alloc);
    for text in texts {
        push_pattern(alloc, &mut patterns, reference, text)?;
    }
    Ok(patterns)
}

/// Appends the pattern to `patterns`, if it can match anything.
fn push_pattern(
    alloc: Global,
    patterns: &mut Vec<Pattern>,
    reference: &Octets,
    text: &Octets,
) -> Result<(), AllocError>
    ensures { OnOk result
        (patterns.new.items ≡ patterns.old.items ++ specs.pattern_of reference.now text.now) }
{
    if text.as_slice().is_empty() {
        return Ok(());
    }
    match Pattern::read(alloc, reference.as_slice(), text.as_slice())? {
        Some(pattern) => {
            patterns.push(pattern)?;
            Ok(())
        }
        None => Ok(()),
    }
}
