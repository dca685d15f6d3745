//! SELECT and EXAMINE (RFC 9051, sections 6.3.2 and 6.3.3).

ghost use Rattle.std.specs.Prelude.{◌≡◌, length, Some, IfOk, OnOk};
ghost use Rattle.std.specs.List.{AllByRecursion};
ghost use Rattle.imap_listing.specs.Answer.{preceded_by};
ghost use Rattle.imap_mailbox.specs.Lent.{row_uids};
ghost use Rattle.imap_mailbox.specs.Order.{AreRowsInOrder};
ghost use Rattle.imap_mailbox.specs.Rows.{first_uid};
ghost use Rattle.imap_mailbox.specs.Summary.{Rises};
ghost use Rattle.imap_print.specs.Lines.{IsPrintable};
ghost use Rattle.imap_rights.specs.Rights.{bits};
ghost use Rattle.imap_session.specs.Select as specs;
ghost use Rattle.imap_session.specs.State.{state_of};
ghost use Rattle.imap_syntax.specs.Keywords.{with_words};
ghost use Rattle.imap_listing.specs.Readable.{readable_in};

use crate::known_list::KnownList;
use crate::selection::NewSelection;
use crate::session::{Selected, Session};
use bitflags::Flags;
use imap_lex::Octets;
use imap_listing::{Answer, CommandContext, Readable, mailbox_line, missing_right_refusal};
use imap_mailbox::Rows;
use imap_names::Name;
use imap_print::{
    Code, FlagSet, Refusal, Response, flags_are_printable, permanent_flags_are_printable,
};
use imap_rights::Rights;
use imap_syntax::Keywords;
use imap_values::{TryCopy, beside};
use std::alloc::{AllocError, Global};

/// What a command that selects a mailbox is answered, and what is selected afterwards.
#[derive(Drop)]
pub struct Selecting {
    pub answer: Answer,
    pub selection: NewSelection,
}

/// Answers SELECT, or EXAMINE if `read_only`, of a mailbox, as it is named in the command.
pub fn select_answer(
    context: &CommandContext<'_>,
    session: &Session,
    read_only: bool,
    mailbox: &Octets,
) -> Result<Selecting, AllocError>
    ensures { let answer = specs.select_answer context.now.view (state_of session.now) context.now.tag in
        IfOk result (λ given. given ≡ answer read_only mailbox.now) }
{
    match context.name(mailbox)? {
        Some(name) => select_of_name(context, session, read_only, name),
        None => refuse_selecting(context, session, Refusal::NonExistent),
    }
}

fn select_of_name(
    context: &CommandContext<'_>,
    session: &Session,
    read_only: bool,
    name: Name,
) -> Result<Selecting, AllocError>
    ensures { let view = context.now.view in
        let answer = specs.select_if_readable view (state_of session.now) context.now.tag read_only name in
        IfOk result (λ given. given ≡ answer (readable_in view name)) }
{
    match context.view().readable(&name.as_ref()) {
        Some(mailbox) => select_readable(context, session, read_only, name, &mailbox),
        None => {
            let rights = context.view().rights(&name.as_ref());
            refuse_selecting(context, session, missing_right_refusal(rights))
        }
    }
}

fn select_readable(
    context: &CommandContext<'_>,
    session: &Session,
    read_only: bool,
    name: Name,
    mailbox: &Readable<'_>,
) -> Result<Selecting, AllocError>
    requires { AreRowsInOrder mailbox.now.next_uid mailbox.now.highest mailbox.now.rows }
    ensures { let answer = specs.selecting context.now.view (state_of session.now) context.now.tag in
        IfOk result (λ given. given ≡ answer read_only name mailbox.now) }
{
    let opened = opening(context, session, read_only, &name, mailbox);
    let (answer, name) = beside(opened, name)?;
    let selection = selection_of(context.alloc(), name, read_only, mailbox);
    let (selection, answer) = beside(selection, answer)?;
    Ok(Selecting { answer, selection })
}

/// The answer to a command that selects the mailbox.
fn opening(
    context: &CommandContext<'_>,
    session: &Session,
    read_only: bool,
    name: &Name,
    mailbox: &Readable<'_>,
) -> Result<Answer, AllocError>
    requires { AreRowsInOrder mailbox.now.next_uid mailbox.now.highest mailbox.now.rows }
    ensures { let answer = specs.selecting context.now.view (state_of session.now) context.now.tag in
        IfOk result (λ given. given ≡ (answer read_only name.now mailbox.now).answer) }
{
    let rights = context.view().rights(&name.as_ref());
    let lines = mailbox_lines(context, name, rights_to_change(read_only, rights), mailbox)?;
    let answer = context.carried_out(lines, Some(mode(read_only, rights)), None)?;
    closing(context, session, answer)
}

/// Refuses SELECT or EXAMINE: then no mailbox is selected any more.
pub fn refuse_selecting(
    context: &CommandContext<'_>,
    session: &Session,
    refusal: Refusal,
) -> Result<Selecting, AllocError>
    ensures { let meant = specs.refused_selecting (state_of session.now) context.now.tag refusal in
        IfOk result (λ given. given ≡ meant) }
{
    let answer = context.refuse(refusal)?;
    Ok(Selecting {
        answer: closing(context, session, answer)?,
        selection: NewSelection::none(),
    })
}

/// The answer after the line that closes the mailbox which was selected, if one was.
fn closing(
    context: &CommandContext<'_>,
    session: &Session,
    answer: Answer,
) -> Result<Answer, AllocError>
    ensures { let closed = specs.closed_line (state_of session.now).selected in
        IfOk result (λ given. given ≡ preceded_by closed answer) }
{
    let (closed, answer) = beside(closed_line(context.alloc(), session), answer)?;
    answer.preceded_by(closed)
}

/// The line that closes the mailbox which was selected, or none if none was.
fn closed_line(alloc: Global, session: &Session) -> Result<Vec<Response>, AllocError>
    ensures lines { let closed = specs.closed_line (state_of session.now).selected in
        IfOk result (λ lines. lines.items ≡ closed) }
    ensures printable { IfOk result (λ lines. AllByRecursion IsPrintable lines.items) }
{
    match &session.selected {
        Some(_) => Ok(vec![in alloc; Response::Closed]?),
        None => Ok(Vec::new(alloc)),
    }
}

/// The mailbox as it is selected: the session is told of all its messages.
fn selection_of(
    alloc: Global,
    name: Name,
    read_only: bool,
    mailbox: &Readable<'_>,
) -> Result<NewSelection, AllocError>
    requires { AreRowsInOrder mailbox.now.next_uid mailbox.now.highest mailbox.now.rows }
    ensures { let meant = specs.selected_as name read_only mailbox.now in
        IfOk result (λ selection. selection ≡ Some meant) }
{
    Ok(NewSelection::of(Selected {
        name,
        validity: mailbox.validity,
        read_only,
        known: known_list(alloc, &mailbox.rows, mailbox.next_uid)?,
        up_to: mailbox.highest,
    }))
}

/// The untagged lines that tell of the mailbox.
fn mailbox_lines(
    context: &CommandContext<'_>,
    name: &Name,
    rights: Rights,
    mailbox: &Readable<'_>,
) -> Result<Vec<Response>, AllocError>
    requires { AreRowsInOrder mailbox.now.next_uid mailbox.now.highest mailbox.now.rows }
    ensures lines { let meant = specs.mailbox_lines context.now.view name.now (bits rights) mailbox.now in
        IfOk result (λ lines. lines.items ≡ meant) }
    ensures printable { IfOk result (λ lines. AllByRecursion IsPrintable lines.items) }
{
    let keywords = keywords_of(context.alloc(), &mailbox.rows)?;
    let flags = permanent_flags(context.alloc(), rights, &keywords);
    let (flags, keywords) = beside(flags, keywords)?;
    let (line, (flags, keywords)) = beside(mailbox_line(context, name), (flags, keywords))?;
    let any = rights.has_any(Rights::WRITE);
    flags_are_printable(&keywords);
    permanent_flags_are_printable(&flags, any);
    Ok(vec![in context.alloc();
        Response::Flags { keywords },
        Response::Exists(count(&mailbox.rows, mailbox.next_uid)),
        line,
        Response::PermanentFlags { flags, any },
        Response::UidValidity(mailbox.validity),
        Response::UidNext(mailbox.next_uid),
        Response::HighestModSeq(mailbox.highest),
    ]?)
}

/// The number of messages. Each has a UID below UIDNEXT.
fn count(rows: &Rows<'_>, next_uid: u32) -> u32
    requires { Rises first_uid next_uid (row_uids rows.now) }
    ensures { result ≡ length rows.now }
{
    rows.len() as u32
}

/// The messages as a session knows them that was told of all.
fn known_list(alloc: Global, rows: &Rows<'_>, next_uid: u32) -> Result<KnownList, AllocError>
    requires { Rises first_uid next_uid (row_uids rows.now) }
    ensures { IfOk result (λ known. known.list ≡ row_uids rows.now) }
{
    KnownList::of_rows(alloc, rows)
}

/// The keywords that messages of the mailbox have.
fn keywords_of(alloc: Global, rows: &Rows<'_>) -> Result<Keywords, AllocError>
    ensures { IfOk result (λ keywords. keywords ≡ specs.keywords_of rows.now) }
{
    let mut keywords = Keywords::new(alloc);
    for place in 0..rows.len() {
        add_keywords(&mut keywords, alloc, &rows.flags(place).keywords)?;
    }
    Ok(keywords)
}

/// Adds the keywords of a message. Most have none, and take no memory.
fn add_keywords(keywords: &mut Keywords, alloc: Global, more: &Keywords) -> Result<(), AllocError>
    ensures { OnOk result (keywords.new ≡ with_words more.now keywords.old) }
{
    match more.as_slice() {
        [] => Ok(()),
        _ => keywords.insert_all(alloc, more),
    }
}

/// The flags that a user with these rights may change.
fn permanent_flags(
    alloc: Global,
    rights: Rights,
    keywords: &Keywords,
) -> Result<FlagSet, AllocError>
    ensures { IfOk result (λ flags. flags ≡ specs.permanent_flags (bits rights) keywords.now) }
{
    let may_write = rights.has_any(Rights::WRITE);
    Ok(FlagSet {
        answered: may_write,
        deleted: rights.has_any(Rights::DELETE_MESSAGES),
        draft: may_write,
        flagged: may_write,
        seen: rights.has_any(Rights::SEEN),
        keywords: if may_write {
            keywords.try_copy(alloc)?
        } else {
            Keywords::new(alloc)
        },
    })
}

/// A mailbox is READ-WRITE to one who selects it and may change it for all.
fn mode(read_only: bool, rights: Rights) -> Code
    ensures { result ≡ specs.mode read_only (bits rights) }
{
    let may_change = rights.has_any(Rights::INSERT)
        || (rights.has_any(Rights::EXPUNGE)
            || (rights.has_any(Rights::DELETE_MESSAGES) || rights.has_any(Rights::WRITE)));
    if !read_only && may_change {
        Code::ReadWrite
    } else {
        Code::ReadOnly
    }
}

fn rights_to_change(read_only: bool, rights: Rights) -> Rights
    ensures { bits result ≡ specs.rights_to_change read_only (bits rights) }
{
    if read_only { Rights::empty() } else { rights }
}
