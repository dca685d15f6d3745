//! LIST (RFC 9051, section 6.3.9).

ghost use Rattle.std.specs.Prelude.{◌≡◌, ◌++◌, ◌∷◌, [], OnOk, codes};
ghost use Rattle.std.specs.List.{list_any, list_all};
ghost use Rattle.imap_syntax.specs.Reading.{ReadsIfMemory};
ghost use Rattle.imap_commands.specs.commands.List.{is_subscribed, is_recursive, may_be_selected, selections};
ghost use Rattle.imap_commands.specs.commands.List.{is_list_char, pattern, patterns, list_return};
ghost use Rattle.imap_commands.specs.commands.List.{list_returns, list, selection_fits, selection_text};
ghost use Rattle.imap_commands.specs.commands.List.{patterns_fit, patterns_text, return_fits, returns_fit};
ghost use Rattle.imap_commands.specs.commands.List.{returns_text, list_fits, list_text};

use crate::command::Command;
use crate::commands::argument::after;
use imap_lex::{AstringChar, OctetClass, Octets, is_astring_char, leading};
use imap_query::StatusItem;
use imap_syntax::{
    Cursor, Item, Items, Keyword, ReadError, Spelling, Word, WordOf, all_fit, push_astring,
    push_bare_or_string, push_listed, some_fit, string_fits,
};
use std::alloc::{AllocError, Global};

/// A selection option (RFC 9051, section 6.3.9.1).
#[derive(Clone, Copy, PartialEq, Eq)]
pub enum Selection {
    Subscribed,
    Remote,
    RecursiveMatch,
}

/// A return option (RFC 9051, section 6.3.9.2).
#[derive(Drop)]
pub enum ListReturn {
    Subscribed,
    Children,
    /// RFC 5819.
    Status(Items<StatusItem>),
}

/// The patterns of a LIST.
#[derive(Drop)]
pub enum Patterns {
    One(Octets),
    /// Several patterns, in parentheses.
    Many(Items<Octets>),
}

pub(crate) const SELECTIONS: [Selection; 3] = [
    Selection::Subscribed,
    Selection::Remote,
    Selection::RecursiveMatch,
];

impl Keyword for Selection {
    ghost use Rattle.imap_commands.specs.commands.List.{selection_name};
    ghost use Rattle.imap_commands.specs.declared.commands.list.TheConstants.{SELECTIONS};

    type Class = AstringChar;

    ghost name_of = { selection_name };

    ghost table = { SELECTIONS };

    fn name(self) -> &'static [u8] {
        match self {
            Selection::Subscribed => b"SUBSCRIBED",
            Selection::Remote => b"REMOTE",
            Selection::RecursiveMatch => b"RECURSIVEMATCH",
        }
    }

    fn all() -> &'static [Selection] {
        &SELECTIONS
    }
}

/// The first word of a return option.
#[derive(Clone, Copy)]
pub(crate) enum ListReturnWord {
    Children,
    Status,
    Subscribed,
}

pub(crate) const LIST_RETURN_WORDS: [ListReturnWord; 3] = [
    ListReturnWord::Children,
    ListReturnWord::Status,
    ListReturnWord::Subscribed,
];

impl Keyword for ListReturnWord {
    ghost use Rattle.imap_commands.specs.commands.List.{list_return_name};
    ghost use Rattle.imap_commands.specs.declared.commands.list.TheConstants.{LIST_RETURN_WORDS};

    type Class = AstringChar;

    ghost name_of = { list_return_name };

    ghost table = { LIST_RETURN_WORDS };

    fn name(self) -> &'static [u8] {
        match self {
            ListReturnWord::Children => b"CHILDREN",
            ListReturnWord::Status => b"STATUS",
            ListReturnWord::Subscribed => b"SUBSCRIBED",
        }
    }

    fn all() -> &'static [ListReturnWord] {
        &LIST_RETURN_WORDS
    }
}

/// The word before the return options.
#[derive(Clone, Copy)]
pub(crate) enum ReturnWord {
    Return,
}

pub(crate) const RETURN_WORDS: [ReturnWord; 1] = [ReturnWord::Return];

impl Keyword for ReturnWord {
    ghost use Rattle.imap_commands.specs.commands.List.{return_name};
    ghost use Rattle.imap_commands.specs.declared.commands.list.TheConstants.{RETURN_WORDS};

    type Class = AstringChar;

    ghost name_of = { return_name };

    ghost table = { RETURN_WORDS };

    fn name(self) -> &'static [u8] {
        match self {
            ReturnWord::Return => b"RETURN",
        }
    }

    fn all() -> &'static [ReturnWord] {
        &RETURN_WORDS
    }
}

impl Selection {
    /// Whether it selects the names that the user subscribed to.
    pub fn is_subscribed(self) -> bool
        ensures { result ≡ is_subscribed self }
    {
        matches!(self, Selection::Subscribed)
    }

    /// Whether it is RECURSIVEMATCH.
    pub fn is_recursive(self) -> bool
        ensures { result ≡ is_recursive self }
    {
        matches!(self, Selection::RecursiveMatch)
    }
}

fn any_recursive(all: &[Selection]) -> bool
    ensures { result ≡ list_any is_recursive all.now }
{
    all.iter().any(|word| word.is_recursive())
}

fn any_subscribed(all: &[Selection]) -> bool
    ensures { result ≡ list_any is_subscribed all.now }
{
    all.iter().any(|word| word.is_subscribed())
}

fn may_be_selected(all: &[Selection]) -> bool
    ensures { result ≡ may_be_selected all.now }
{
    !any_recursive(all) || any_subscribed(all)
}

/// `list-char`: ASTRING-CHAR and the wildcards.
struct ListChar;

impl OctetClass for ListChar {
    ghost test = { is_list_char };

    fn has(octet: u8) -> bool {
        is_astring_char(octet) || octet == b'%' || octet == b'*'
    }
}

/// A pattern, bare, quoted or as a literal.
#[derive(Drop)]
pub(crate) struct Pattern;

impl Item for Pattern {
    ghost use Rattle.imap_commands.specs.commands.List.{pattern};

    type Read = Octets;

    ghost item_read = { pattern.read };

    fn item(cursor: &mut Cursor<'_>, alloc: Global) -> Result<Octets, ReadError> {
        read_pattern(cursor, alloc)
    }
}

impl Item for ListReturn {
    ghost use Rattle.imap_commands.specs.commands.List.{list_return};

    type Read = ListReturn;

    ghost item_read = { list_return.read };

    fn item(cursor: &mut Cursor<'_>, alloc: Global) -> Result<ListReturn, ReadError> {
        read_list_return(cursor, alloc)
    }
}

fn read_selections(
    cursor: &mut Cursor<'_>,
    alloc: Global,
) -> Result<Option<Items<Selection>>, ReadError>
    ensures { ReadsIfMemory (λ s. s) result cursor.new (selections.read cursor.old) }
{
    if !cursor.has(b'(') {
        return Ok(None);
    }
    let all = cursor.listed_end::<WordOf<Selection>>(alloc)?;
    cursor.space()?;
    if !may_be_selected(all.as_slice()) {
        return Err(ReadError::Syntax);
    }
    Ok(Some(all))
}

#[tactic(auto, unfolding(imap_syntax::specs::Lexical::string))]
fn read_pattern(cursor: &mut Cursor<'_>, alloc: Global) -> Result<Octets, ReadError>
    ensures { ReadsIfMemory (λ o. o) result cursor.new (pattern.read cursor.old) }
{
    match cursor.rest() {
        [b'"' | b'{', ..] => cursor.string(alloc),
        _ => {
            let chars = cursor.front(leading::<ListChar>(cursor.rest()))?;
            Ok(Octets::from_slice(alloc, chars)?)
        }
    }
}

fn read_patterns(cursor: &mut Cursor<'_>, alloc: Global) -> Result<Patterns, ReadError>
    ensures { ReadsIfMemory (λ p. p) result cursor.new (patterns.read cursor.old) }
{
    if !cursor.has(b'(') {
        return Ok(Patterns::One(read_pattern(cursor, alloc)?));
    }
    let all = cursor.separated::<Pattern>(alloc, b' ')?;
    let (all, ()) = after(all, cursor.octet(b')'))?;
    Ok(Patterns::Many(all.into_items()))
}

fn read_list_return(cursor: &mut Cursor<'_>, alloc: Global) -> Result<ListReturn, ReadError>
    ensures { ReadsIfMemory (λ r. r) result cursor.new (list_return.read cursor.old) }
{
    match cursor.keyword::<ListReturnWord>()? {
        ListReturnWord::Children => Ok(ListReturn::Children),
        ListReturnWord::Subscribed => Ok(ListReturn::Subscribed),
        ListReturnWord::Status => {
            cursor.space()?;
            let items = cursor.listed::<WordOf<StatusItem>>(alloc)?;
            Ok(ListReturn::Status(items))
        }
    }
}

fn read_list_returns(
    cursor: &mut Cursor<'_>,
    alloc: Global,
) -> Result<Option<Items<ListReturn>>, ReadError>
    ensures { ReadsIfMemory (λ r. r) result cursor.new (list_returns.read cursor.old) }
{
    if !cursor.has(b' ') {
        return Ok(None);
    }
    cursor.keyword::<ReturnWord>()?;
    cursor.space()?;
    Ok(Some(cursor.listed_or_none::<ListReturn>(alloc)?))
}

pub(crate) fn read_list(cursor: &mut Cursor<'_>, alloc: Global) -> Result<Command, ReadError>
    ensures { ReadsIfMemory (λ c. c) result cursor.new (list.read cursor.old) }
{
    cursor.space()?;
    let selection = read_selections(cursor, alloc)?;
    let reference = cursor.astring(alloc)?;
    let (front, ()) = after((selection, reference), cursor.space())?;
    let front = after(front, read_patterns(cursor, alloc))?;
    let (((selection, reference), patterns), returns) = after(
        front,
        read_list_returns(cursor, alloc),
    )?;
    Ok(Command::List {
        selection,
        reference,
        patterns,
        returns,
    })
}

fn selection_fits(selection: &Option<Items<Selection>>) -> bool
    ensures { result ≡ selection_fits selection.now }
{
    match selection {
        Some(all) => may_be_selected(all.as_slice()),
        None => true,
    }
}

/// Appends `selection` as `list-select-opts` and a space, or nothing.
fn push_selection(out: &mut Vec<u8>, selection: &Option<Items<Selection>>) -> Result<(), AllocError>
    ensures { OnOk result (out.new.items ≡ out.old.items ++ selection_text selection.now) }
{
    match selection {
        Some(all) => {
            push_listed::<Word<Selection>>(out, all.as_slice())?;
            out.push(b' ')?;
            Ok(())
        }
        None => Ok(()),
    }
}

fn patterns_fit(patterns: &Patterns) -> bool
    ensures { result ≡ patterns_fit patterns.now }
{
    match patterns {
        Patterns::One(pattern) => string_fits(pattern),
        Patterns::Many(all) => some_fit::<Pattern>(all.as_slice()),
    }
}

fn push_patterns(out: &mut Vec<u8>, patterns: &Patterns) -> Result<(), AllocError>
    ensures { OnOk result (out.new.items ≡ out.old.items ++ patterns_text patterns.now) }
{
    match patterns {
        Patterns::One(pattern) => push_bare_or_string::<ListChar>(out, pattern),
        Patterns::Many(all) => push_listed::<Pattern>(out, all.as_slice()),
    }
}

impl Spelling for Pattern {
    ghost use Rattle.imap_commands.specs.commands.List.{pattern_writing};

    type Value = Octets;

    ghost writing = { pattern_writing };

    fn fits(pattern: &Octets) -> bool {
        string_fits(pattern)
    }

    fn push(out: &mut Vec<u8>, pattern: &Octets) -> Result<(), AllocError> {
        push_bare_or_string::<ListChar>(out, pattern)
    }
}

impl Spelling for ListReturn {
    ghost use Rattle.imap_commands.specs.commands.List.{list_return_writing};

    type Value = ListReturn;

    ghost writing = { list_return_writing };

    fn fits(option: &ListReturn) -> bool {
        match option {
            ListReturn::Subscribed | ListReturn::Children => true,
            ListReturn::Status(items) => some_fit::<Word<StatusItem>>(items.as_slice()),
        }
    }

    fn push(out: &mut Vec<u8>, option: &ListReturn) -> Result<(), AllocError> {
        match option {
            ListReturn::Subscribed => out.extend_from_slice(b"SUBSCRIBED"),
            ListReturn::Children => out.extend_from_slice(b"CHILDREN"),
            ListReturn::Status(items) => {
                out.extend_from_slice(b"STATUS ")?;
                push_listed::<Word<StatusItem>>(out, items.as_slice())
            }
        }
    }
}

fn returns_fit(returns: &Option<Items<ListReturn>>) -> bool
    ensures { result ≡ returns_fit returns.now }
{
    match returns {
        Some(all) => all_fit::<ListReturn>(all.as_slice()),
        None => true,
    }
}

/// Appends a space and `returns` as `list-return-opts`, or nothing.
fn push_returns(out: &mut Vec<u8>, returns: &Option<Items<ListReturn>>) -> Result<(), AllocError>
    ensures { OnOk result (out.new.items ≡ out.old.items ++ returns_text returns.now) }
{
    match returns {
        Some(all) => {
            out.extend_from_slice(b" RETURN ")?;
            push_listed::<ListReturn>(out, all.as_slice())
        }
        None => Ok(()),
    }
}

pub(crate) fn list_fits(
    selection: &Option<Items<Selection>>,
    reference: &Octets,
    patterns: &Patterns,
    returns: &Option<Items<ListReturn>>,
) -> bool
    ensures { result ≡ list_fits selection.now reference.now patterns.now returns.now }
{
    selection_fits(selection)
        && string_fits(reference)
        && patterns_fit(patterns)
        && returns_fit(returns)
}

pub(crate) fn push_list(
    out: &mut Vec<u8>,
    selection: &Option<Items<Selection>>,
    reference: &Octets,
    patterns: &Patterns,
    returns: &Option<Items<ListReturn>>,
) -> Result<(), AllocError>
    ensures { OnOk result (out.new.items
        ≡ out.old.items ++ list_text selection.now reference.now patterns.now returns.now) }
{
    out.push(b' ')?;
    push_selection(out, selection)?;
    push_astring(out, reference)?;
    out.push(b' ')?;
    push_patterns(out, patterns)?;
    push_returns(out, returns)
}
