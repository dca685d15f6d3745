//! Names of mailboxes in modified UTF-7 (RFC 3501, section 5.1.3).

ghost use Rattle.std.specs.Prelude.{◌≡◌, ◌++◌, ◌∷◌, ◌||◌, [], IfOk, OnOk, map, option_map};
ghost use Rattle.std.specs.List.{list_any};
ghost use Rattle.imap_rev1_frames.specs.Names.{has_names, has_other, name_for};
ghost use Rattle.imap_rev1_frames.specs.Names.{other_command, other_name, pattern_names, patterns_for, renamed};
ghost use Rattle.imap_rev1_frames.specs.Names.{renamed_frame, renamed_octets, request_has_names, request_renamed};
ghost use Rattle.imap_rev1_frames.specs.Names.{single_name, single_renamed};
ghost use Rattle.imap_rev1_frames.specs.Rewritten.{instead_frame, instead_octets};

use imap_commands::{Command, Patterns, Request};
use imap_grammar::{parse, write_command};
use imap_lex::{Frame, Octets};
use imap_syntax::Items;
use imap_utf7::decode;
use std::alloc::{AllocError, Global};

/// Returns the text of a name, if this is its spelling and another one than the text.
fn other_name(alloc: Global, name: &[u8]) -> Result<Option<Octets>, AllocError>
    ensures { IfOk result (λ other. other ≡ other_name name.now) }
{
    if !name.contains(&b'&') {
        return Ok(None);
    }
    match decode(alloc, name)? {
        Some(text) => Ok(Some(Octets::from_vec(text.into_bytes())?)),
        None => Ok(None),
    }
}

/// Makes the name its text. Returns whether it was spelt in another way.
fn rename_one(alloc: Global, name: &mut Octets) -> Result<bool, AllocError>
    ensures name { OnOk result (name.new ≡ name_for name.old) }
    ensures other { IfOk result (λ other. other ≡ has_other name.old) }
{
    match other_name(alloc, name.as_slice())? {
        Some(other) => {
            *name = other;
            Ok(true)
        }
        None => Ok(false),
    }
}

/// Makes both names their texts. Returns whether one was spelt in another way.
fn rename_two(alloc: Global, one: &mut Octets, other: &mut Octets) -> Result<bool, AllocError>
    ensures one { OnOk result (one.new ≡ name_for one.old) }
    ensures other { OnOk result (other.new ≡ name_for other.old) }
    ensures any { IfOk result (λ any. any ≡ (has_other one.old || has_other other.old)) }
{
    let first = rename_one(alloc, one)?;
    let second = rename_one(alloc, other)?;
    Ok(first || second)
}

/// Appends the text of the name. Returns whether it is spelt in another way.
fn push_name(alloc: Global, texts: &mut Vec<Octets>, name: &Octets) -> Result<bool, AllocError>
    ensures texts { OnOk result (texts.new.items ≡ texts.old.items ++ name_for name.now ∷ []) }
    ensures other { IfOk result (λ other. other ≡ has_other name.now) }
{
    match other_name(alloc, name.as_slice())? {
        Some(other) => {
            texts.push(other)?;
            Ok(true)
        }
        None => {
            texts.push(name.try_copy()?)?;
            Ok(false)
        }
    }
}

/// Appends the texts of the names. Returns whether one is spelt in another way.
fn push_names(alloc: Global, texts: &mut Vec<Octets>, names: &[Octets]) -> Result<bool, AllocError>
    ensures texts { OnOk result (texts.new.items ≡ texts.old.items ++ map name_for names.now) }
    ensures any { IfOk result (λ any. any ≡ list_any has_other names.now) }
{
    let mut any = false;
    for name in names {
        let other = push_name(alloc, texts, name)?;
        any = any || other;
    }
    Ok(any)
}

/// Makes all names their texts. Returns whether one was spelt in another way.
fn rename_all(alloc: Global, names: &mut Items<Octets>) -> Result<bool, AllocError>
    ensures names { OnOk result (names.new ≡ map name_for names.old) }
    ensures any { IfOk result (λ any. any ≡ list_any has_other names.old) }
{
    let mut texts = Vec::new(alloc);
    let any = push_names(alloc, &mut texts, names.as_slice())?;
    *names = Items::from_vec(texts);
    Ok(any)
}

fn rename_patterns(alloc: Global, patterns: &mut Patterns) -> Result<bool, AllocError>
    ensures patterns { OnOk result (patterns.new ≡ patterns_for patterns.old) }
    ensures any { IfOk result (λ any. any ≡ list_any has_other (pattern_names patterns.old)) }
{
    match patterns {
        Patterns::One(pattern) => rename_one(alloc, pattern),
        Patterns::Many(patterns) => rename_all(alloc, patterns),
    }
}

/// Makes the reference and the patterns of a LIST their texts. Returns whether one was spelt in another way.
fn rename_list(
    alloc: Global,
    reference: &mut Octets,
    patterns: &mut Patterns,
) -> Result<bool, AllocError>
    ensures reference { OnOk result (reference.new ≡ name_for reference.old) }
    ensures patterns { OnOk result (patterns.new ≡ patterns_for patterns.old) }
    ensures any { IfOk result (λ any.
        any ≡ (has_other reference.old || list_any has_other (pattern_names patterns.old))) }
{
    let first = rename_one(alloc, reference)?;
    let second = rename_patterns(alloc, patterns)?;
    Ok(first || second)
}

/// Makes the name in a command of one name its text. Returns whether it was spelt in another way.
fn rename_single(alloc: Global, command: &mut Command) -> Result<bool, AllocError>
    ensures command { OnOk result (command.new ≡ single_renamed command.old) }
    ensures any { IfOk result (λ any. any ≡ list_any has_other (single_name command.old)) }
{
    match command {
        Command::Select { mailbox, .. } => rename_one(alloc, mailbox),
        Command::Examine { mailbox, .. } => rename_one(alloc, mailbox),
        Command::Create { mailbox } => rename_one(alloc, mailbox),
        Command::Delete { mailbox } => rename_one(alloc, mailbox),
        Command::Subscribe { mailbox } => rename_one(alloc, mailbox),
        Command::Unsubscribe { mailbox } => rename_one(alloc, mailbox),
        Command::Status { mailbox, .. } => rename_one(alloc, mailbox),
        Command::Append { mailbox, .. } => rename_one(alloc, mailbox),
        Command::SetAcl { mailbox, .. } => rename_one(alloc, mailbox),
        Command::DeleteAcl { mailbox, .. } => rename_one(alloc, mailbox),
        Command::GetAcl { mailbox } => rename_one(alloc, mailbox),
        Command::ListRights { mailbox, .. } => rename_one(alloc, mailbox),
        Command::MyRights { mailbox } => rename_one(alloc, mailbox),
        Command::Copy { mailbox, .. } => rename_one(alloc, mailbox),
        Command::Move { mailbox, .. } => rename_one(alloc, mailbox),
        _ => Ok(false),
    }
}

/// Makes the names in the command their texts. Returns whether one was spelt in another way.
fn rename(alloc: Global, command: &mut Command) -> Result<bool, AllocError>
    ensures command { OnOk result (command.new ≡ renamed command.old) }
    ensures any { IfOk result (λ any. any ≡ has_names command.old) }
{
    match command {
        Command::Rename { from, to } => rename_two(alloc, from, to),
        Command::List {
            reference,
            patterns,
            ..
        } => rename_list(alloc, reference, patterns),
        _ => Ok(rename_single(alloc, command)?),
    }
}

/// Makes the names in the request their texts. Returns whether one was spelt in another way.
fn rename_request(alloc: Global, request: &mut Request) -> Result<bool, AllocError>
    ensures request { OnOk result (request.new ≡ request_renamed request.old) }
    ensures any { IfOk result (λ any. any ≡ request_has_names request.old) }
{
    match request {
        Request::Command { body, .. } => rename(alloc, body),
        _ => Ok(false),
    }
}

/// Returns the command in place of the request's, if a name in it is spelt in modified UTF-7.
fn other_command(alloc: Global, request: &mut Request) -> Result<Option<Vec<u8>>, AllocError>
    ensures { IfOk result (λ other. option_map (λ octets. octets.items) other ≡ other_command request.old) }
{
    if rename_request(alloc, request)? {
        write_command(alloc, request)
    } else {
        Ok(None)
    }
}

fn renamed_octets(alloc: Global, octets: &Octets) -> Result<Option<Octets>, AllocError>
    ensures { IfOk result (λ other. instead_octets other octets.now ≡ renamed_octets octets.now) }
{
    let mut request = parse(alloc, octets)?;
    let other = other_command(alloc, &mut request);
    drop(request);
    match other? {
        Some(other) => Ok(Some(Octets::from_vec(other)?)),
        None => Ok(None),
    }
}

/// Returns the frame that the server is to see in place of the client's, whose names are in modified UTF-7, or
/// `None` if it is the same.
pub fn renamed_frame(alloc: Global, frame: &Frame) -> Result<Option<Frame>, AllocError>
    ensures { IfOk result (λ other. instead_frame other frame.now ≡ renamed_frame frame.now) }
{
    match frame {
        Frame::Whole(octets) => match renamed_octets(alloc, octets)? {
            Some(other) => Ok(Some(Frame::Whole(other))),
            None => Ok(None),
        },
        _ => Ok(None),
    }
}
