//! What is below a mailbox, by its rows.

ghost use Rattle.std.specs.Prelude.{◌≡◌, ℕ, MatchOption, string_bytes, true};
ghost use Rattle.std.specs.Str.{is_utf8};
ghost use Rattle.imap_rights.specs.Identifier.{is_identifier};
ghost use Rattle.imap_stored_values.specs.Restored.{HasRights, IsAnEntry, IsFit, IsGoneFor, IsMarkFor};
ghost use Rattle.imap_stored_values.specs.Restored.{IsRowFor, Restores};

use crate::values::{read_count, read_date, read_flags, read_place, read_rights};
use imap_mailbox::{GoneMessage, Message, PartsError, SeenChange, UserChange};
use imap_rights::{Entry, Identifier, IdentifierError};
use imap_tables::{MessageRow, SeenFlagRow};
use std::alloc::Global;

/// Reads an entry of an access control list. Fails with `Bad` if there is no such identifier, or these are
/// none of the eleven rights.
pub fn read_entry(alloc: Global, identifier: &str, rights: u32) -> Result<Entry, PartsError>
    ensures { Restores (HasRights identifier.now rights) IsAnEntry result }
{
    let Some(rights) = read_rights(rights) else {
        return Err(PartsError::Bad);
    };
    let identifier = read_identifier(alloc, identifier)?;
    Ok(Entry { identifier, rights })
}

fn read_identifier(alloc: Global, text: &str) -> Result<Identifier, PartsError>
    ensures { Restores (λ identifier. identifier ≡ text.now)
        (λ identifier. is_identifier identifier ≡ true) result }
{
    match Identifier::read(alloc, text.as_bytes()) {
        Ok(identifier) => checked(text, identifier),
        Err(error) => Err(refusal(error)),
    }
}

/// The identifier, if it is the text.
fn checked(text: &str, identifier: Identifier) -> Result<Identifier, PartsError>
    requires { is_identifier text.now ≡ true → text.now ≡ identifier }
    ensures { Restores (λ identifier. identifier ≡ text.now)
        (λ identifier. is_identifier identifier ≡ true) result }
{
    if identifier.as_bytes() == text.as_bytes() {
        Ok(identifier)
    } else {
        Err(PartsError::Bad)
    }
}

/// A text that is no identifier is bad.
fn refusal(error: IdentifierError) -> PartsError
    ensures { result ≡ PartsError.Bad → error ≡ IdentifierError.Invalid }
{
    match error {
        IdentifierError::Memory => PartsError::Memory,
        IdentifierError::Invalid => PartsError::Bad,
    }
}

/// Reads a message that is there. Fails with `Bad` if its date, its flags or its place is none.
pub fn read_message(alloc: Global, row: &MessageRow) -> Result<Message, PartsError>
    ensures { Restores (IsRowFor row.now) IsFit result }
{
    let Some(place) = read_place(row.place) else {
        return Err(PartsError::Bad);
    };
    let date = read_date(alloc, &row.date)?;
    let flags = read_flags(alloc, row.flags, &row.keywords)?;
    let octets = row.octets.try_copy()?;
    Ok(Message {
        uid: row.uid,
        date,
        octets,
        flags,
        place,
    })
}

/// Reads a message that was expunged. `None` if there is no such place.
pub fn read_gone(uid: u32, place: i64) -> Option<GoneMessage>
    ensures { MatchOption result ((message : GoneMessage) → IsGoneFor uid place message → ⊥)
        (IsGoneFor uid place) }
{
    match read_place(place) {
        Some(place) => Some(GoneMessage { uid, place }),
        None => None,
    }
}

/// Reads a user's own change. Fails with `Bad` if its place, or the number of events before it, is none.
#[tactic(auto, using(crate::proofs::Kept::string_utf8))]
pub fn read_change(alloc: Global, row: &SeenFlagRow) -> Result<UserChange, PartsError>
    ensures { Restores (IsMarkFor row.now) (λ change. is_utf8 change.user ≡ true) result }
{
    let Some(place) = read_place(row.own) else {
        return Err(PartsError::Bad);
    };
    let Some(before) = read_count(row.before) else {
        return Err(PartsError::Bad);
    };
    let user = String::from_str(alloc, &row.user)?;
    let change = SeenChange {
        before,
        uid: row.uid,
        seen: row.seen,
    };
    Ok(UserChange::new(user, place, change))
}
