//! SEARCH and UID SEARCH (RFC 9051, sections 6.4.4 and 6.4.9).

ghost use Rattle.std.specs.Prelude.{◌≡◌, ◌+◌, ◌<◌, ◌++◌, Some, drop, length, option_map, IfOk, OnOk};
ghost use Rattle.std.specs.List.{AllByRecursion, list_any};
ghost use Rattle.imap_mailbox.specs.Lent.{row_shown, row_uids};
ghost use Rattle.imap_mailbox.specs.Summary.{AreRising};
ghost use Rattle.imap_mailbox.specs.Order.{AreRowsInOrder};
ghost use Rattle.imap_print.specs.declared.response.Response.TheVariants as response;
ghost use Rattle.imap_print.specs.Lines.{IsPrintable};
ghost use Rattle.imap_search.specs.Ready.{AreReadyFor};
ghost use Rattle.imap_search.specs.Search as specs;
ghost use Rattle.imap_search.specs.Span.{FindsAmong};
ghost use Rattle.imap_search.specs.Tokens as tokens;
ghost use Rattle.imap_targets.specs.State.{selection_of, state_of};

use crate::key::{Candidate, finds_all};
use crate::key_facts::facts_of;
use crate::needles::Needles;
use crate::ready_key::{ReadyKey, ready_keys};
use crate::results::{FoundMessage, results_of};
use crate::span::span_of_all;
use imap_answer::{Answer, CommandContext};
use imap_lex::Octets;
use imap_mailbox::{Row, Rows};
use imap_print::{EnabledCapabilities, Refusal, Response, SearchResults};
use imap_query::{SearchKeys, SearchReturn};
use imap_syntax::{Items, Numbering};
use imap_targets::{
    KnownList, RowFinder, Selected, Session, is_by_uid, known_count, last_of, number_at,
};
use imap_view::Readable;
use std::alloc::{AllocError, Global};
use std::marker::Model;

/// The arguments of SEARCH, as they stand in the command.
#[derive(Drop)]
pub struct SearchArguments<'a> {
    pub numbering: Numbering,
    /// Empty without RETURN, and for `RETURN ()`.
    pub returns: &'a Items<SearchReturn>,
    pub charset: &'a Option<Octets>,
    pub keys: &'a SearchKeys,
}

impl<'a> Model for SearchArguments<'a> {
    ghost use Rattle.std.specs.Prelude.{ℕ, List, Option, refl};
    ghost use Rattle.std.specs.Coded.{code_by, codes};
    ghost use Rattle.imap_query.specs.contracts.search.SearchReturn.{the_row as return_row};
    ghost use Rattle.imap_query.specs.declared.search.SearchReturn.{SearchReturn};
    ghost use Rattle.imap_query.specs.contracts.search.SearchKeys.{the_row as keys_row};
    ghost use Rattle.imap_query.specs.Keys.{Token};
    ghost use Rattle.imap_search.specs.Search as specs;
    ghost use Rattle.imap_search.specs.Span.{FindsAmong};
    ghost use Rattle.imap_syntax.specs.contracts.set.Numbering.{the_row as numbering_row};
    ghost use Rattle.imap_syntax.specs.declared.set.Numbering.{Numbering};

    ghost Value = { specs.SearchArguments };

    ghost coded = { code_by (Numbering × (List SearchReturn × (Option (List ℕ) × List Token)))
        (Prim.hlevel (codes, numbering_row.coded, return_row.coded, keys_row.coded))
        (λ s. (s.numbering, (s.returns, (s.charset, s.keys))))
        (λ p. record { numbering = p.0; returns = p.1.0; charset = p.1.1.0; keys = p.1.1.1 }) (λ _. refl) };

    ghost view = { λ s. record {
      numbering = s.numbering;
      returns = s.returns.now;
      charset = s.charset.now;
      keys = s.keys.now;
    } };
}

/// Answers SEARCH, or UID SEARCH, with one ESEARCH line about the messages that all keys find, of those that the
/// session knows and that are still there. The key MODSEQ enables CONDSTORE.
///
/// Fails, in this order, with `WrongState` if no mailbox is selected, `Malformed` if a key names a number that no
/// message of the session has, `BadCharset` for a charset other than US-ASCII and UTF-8, `Cannot` for the option
/// SAVE, the set `$` and the keys SENTBEFORE, SENTON and SENTSINCE, and `NonExistent` if the user may no longer read
/// the mailbox.
pub fn search_answer(
    context: &CommandContext<'_>,
    session: &Session,
    arguments: &SearchArguments<'_>,
) -> Result<Answer, AllocError>
    ensures { let answer = specs.search_answer context.now.view (state_of session.now) context.now.tag in
        IfOk result (λ given. given ≡ answer arguments.now) }
{
    match &session.selected {
        Some(selected) => search_selected(context, arguments, selected),
        None => context.refuse(Refusal::WrongState),
    }
}

fn search_selected(
    context: &CommandContext<'_>,
    arguments: &SearchArguments<'_>,
    selected: &Selected,
) -> Result<Answer, AllocError>
    ensures { let answer = specs.search_selected context.now.view context.now.tag arguments.now in
        IfOk result (λ given. given ≡ answer (selection_of selected.now)) }
{
    let facts = facts_of(known_count(&selected.known), arguments.keys);
    if facts.unknown {
        return context.refuse(Refusal::Malformed);
    }
    if !is_known_charset(arguments.charset) {
        return context.refuse(Refusal::BadCharset);
    }
    if wants_save(arguments.returns.as_slice()) || facts.unserved {
        return context.refuse(Refusal::Cannot);
    }
    match context.view().readable(&selected.name.as_ref()) {
        Some(mailbox) => search_readable(
            context,
            arguments,
            facts.mod_seq,
            &selected.known,
            &mailbox,
        ),
        None => context.refuse(Refusal::NonExistent),
    }
}

fn is_charset(name: &[u8]) -> bool
    ensures { result ≡ specs.is_charset name.now }
{
    name.eq_ignore_ascii_case(b"US-ASCII") || name.eq_ignore_ascii_case(b"UTF-8")
}

fn is_known_charset(charset: &Option<Octets>) -> bool
    ensures { result ≡ specs.is_known_charset charset.now }
{
    match charset {
        Some(name) => is_charset(name.as_slice()),
        None => true,
    }
}

fn wants_save(returns: &[SearchReturn]) -> bool
    ensures { result ≡ list_any specs.is_save returns.now }
{
    returns.iter().any(|r| matches!(r, SearchReturn::Save))
}

#[tactic(auto, using(crate::proofs::Looked::few_found))]
fn search_readable(
    context: &CommandContext<'_>,
    arguments: &SearchArguments<'_>,
    uses_mod_seq: bool,
    known: &KnownList,
    mailbox: &Readable<'_>,
) -> Result<Answer, AllocError>
    requires order { AreRowsInOrder mailbox.now.next_uid mailbox.now.highest mailbox.now.rows }
    requires uses { uses_mod_seq ≡ specs.uses_mod_seq arguments.now }
    ensures { let found = specs.found_in arguments.now mailbox.now.next_uid mailbox.now.rows known.now.list in
        IfOk result (λ given. given ≡ specs.search_messages context.now.tag arguments.now found) }
{
    let found = find(context.alloc(), arguments, known, mailbox)?;
    let results = results_of(
        context.alloc(),
        arguments.returns.as_slice(),
        uses_mod_seq,
        found.as_slice(),
        known_count(known),
    )?;
    let line = search_line(context, is_by_uid(arguments.numbering), results)?;
    let answer = context.done_after_line(line)?;
    Ok(answer.enabling(EnabledCapabilities {
        condstore: uses_mod_seq,
        imap4rev2: false,
        qresync: false,
    }))
}

fn search_line(
    context: &CommandContext<'_>,
    uid: bool,
    results: SearchResults,
) -> Result<Response, AllocError>
    ensures line { IfOk result (λ line. line ≡ response.Search context.now.tag uid results) }
    ensures printable { IsPrintable (response.Search context.now.tag uid results) }
{
    Ok(Response::Search {
        tag: context.tag().try_copy(context.alloc())?,
        uid,
        results,
    })
}

/// The arguments of SEARCH, and what `*` stands for in the sets of its keys.
#[derive(Drop)]
struct Criteria<'a> {
    arguments: &'a SearchArguments<'a>,
    /// The keys of the arguments.
    keys: Vec<ReadyKey<'a>>,
    /// What `*` stands for in a set of numbers.
    last: u32,
    /// What `*` stands for in a set of UIDs.
    last_uid: u32,
}

/// Returns the range of indexes of the known messages that are looked at.
fn span(criteria: &Criteria<'_>, known: &KnownList) -> (usize, usize)
    ensures { let c = criteria.now in
        FindsAmong c.arguments.now c.last c.last_uid known.now.list result.0 result.1 }
{
    let arguments = criteria.arguments;
    let keys = arguments.keys;
    span_of_all(criteria.last, criteria.last_uid, keys.as_slice(), known)
}

/// Returns the messages that all keys find, of those that the session knows and that are there. Tests each of those
/// among which the sets stand in which a message has to be.
fn find(
    alloc: Global,
    arguments: &SearchArguments<'_>,
    known: &KnownList,
    mailbox: &Readable<'_>,
) -> Result<Vec<FoundMessage>, AllocError>
    requires order { AreRowsInOrder mailbox.now.next_uid mailbox.now.highest mailbox.now.rows }
    ensures { let meant = specs.found_in arguments.now mailbox.now.next_uid mailbox.now.rows in
        IfOk result (λ found. found.items ≡ meant known.now.list) }
{
    let last = known_count(known);
    let last_uid = last_of(Numbering::Uid, mailbox.next_uid, known);
    let keys = ready_keys(alloc, last, last_uid, arguments.keys.as_slice())?;
    let criteria = Criteria {
        arguments,
        keys,
        last,
        last_uid,
    };
    let mut found = Vec::new(alloc);
    let mut needles = Needles::new(alloc);
    let mut finder = RowFinder::start();
    let (start, end) = span(&criteria, known);
    for place in start..end {
        look_at(
            &mut found,
            &mut needles,
            alloc,
            &criteria,
            &mut finder,
            &mailbox.rows,
            known,
            place,
        )?;
    }
    Ok(found)
}

/// Appends the message at the place, if it is there and all keys find it.
fn look_at(
    found: &mut Vec<FoundMessage>,
    needles: &mut Needles,
    alloc: Global,
    criteria: &Criteria<'_>,
    finder: &mut RowFinder,
    rows: &Rows<'_>,
    known: &KnownList,
    place: usize,
) -> Result<(), AllocError>
    requires within { place < length known.now.list }
    requires rise { AreRising (row_uids rows.now) }
    requires ready { let c = criteria.now in AreReadyFor c.arguments.now.keys c.last c.last_uid c.keys.items }
    ensures { let c = criteria.now in
        let from = specs.found_from c.arguments.now c.last c.last_uid rows.now in
        OnOk result (found.new.items ++ from (place + 1 + 1) (drop (place + 1) known.now.list)
        ≡ found.old.items ++ from (place + 1) (drop place known.now.list)) }
{
    match finder.index_of(rows, known.uid(place)) {
        Some(index) => {
            let row = finder.row_at(rows, index);
            let number = number_at(known, place);
            add(found, needles, alloc, criteria, number, &row)
        }
        None => Ok(()),
    }
}

/// Appends the message, if all keys find it.
fn add(
    found: &mut Vec<FoundMessage>,
    needles: &mut Needles,
    alloc: Global,
    criteria: &Criteria<'_>,
    number: u32,
    row: &Row<'_>,
) -> Result<(), AllocError>
    requires ready { let c = criteria.now in AreReadyFor c.arguments.now.keys c.last c.last_uid c.keys.items }
    ensures { let c = criteria.now in
        let from = specs.found_if_there c.arguments.now c.last c.last_uid number in
        OnOk result (found.new.items ≡ found.old.items ++ from (Some (row_shown row.now))) }
{
    if is_found(needles, alloc, criteria, number, row)? {
        let arguments = criteria.arguments;
        found.push(found_of(arguments.numbering, number, row))?;
    }
    Ok(())
}

/// Whether all keys find the message.
fn is_found(
    needles: &mut Needles,
    alloc: Global,
    criteria: &Criteria<'_>,
    number: u32,
    row: &Row<'_>,
) -> Result<bool, AllocError>
    requires ready { let c = criteria.now in AreReadyFor c.arguments.now.keys c.last c.last_uid c.keys.items }
    ensures { let c = criteria.now in
        let candidate = specs.candidate_of c.last c.last_uid number (row_shown row.now) in
        IfOk result (λ found. found ≡ tokens.finds_all candidate c.arguments.now.keys) }
{
    let candidate = Candidate {
        row,
        number,
        last: criteria.last,
        last_uid: criteria.last_uid,
    };
    finds_all(alloc, needles, &candidate, criteria.keys.as_slice())
}

/// The message as the answer tells it.
fn found_of(numbering: Numbering, number: u32, row: &Row<'_>) -> FoundMessage
    ensures { result ≡ specs.found_of numbering number (row_shown row.now) }
{
    FoundMessage {
        number: match numbering {
            Numbering::Sequence => number,
            Numbering::Uid => row.uid,
        },
        mod_seq: row.number,
    }
}
