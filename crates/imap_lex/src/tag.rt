//! The tag of a command.

ghost use Rattle.std.specs.Prelude.{◌≡◌, IfOk, OnErr, IsSome};
ghost use Rattle.std.specs.List.{list_all};
ghost use Rattle.imap_lex.specs.Chars.{is_tag_char};
ghost use Rattle.imap_lex.specs.CommandTag.{is_tag, IsTag, tag_read, tag_of, ends_word};

use crate::chars::{TagChar, is_tag_char, leading};
use crate::octets::Octets;
use imap_values::{Same, TryCopy};
use std::alloc::{AllocError, Global};
use std::marker::Model;

/// The word with which a client begins a command and the server its answer (RFC 9051, section 9,
/// `tag`): one tag character or more.
///
/// A copy shares the octets.
pub struct Tag(Octets);

// Not derived: a derived one is proved anew in each crate that lets go of one.
impl Drop for Tag {
    fn drop(self) {
        let Tag(_) = self;
    }
}

impl Model for Tag {
    ghost use Rattle.std.specs.Prelude.{ℕ, List};
    ghost use Rattle.std.specs.List.{list_all};
    ghost use Rattle.imap_lex.specs.Chars.{is_tag_char};
    ghost use Rattle.imap_lex.specs.CommandTag.{IsTag};

    ghost Value = { List ℕ };

    ghost view = { λ t. t.0 };

    ghost invariant = { λ t. IsTag t.0 };
}

impl Tag {
    /// Returns these octets as a tag, or `None` if they aren't one.
    pub fn read(alloc: Global, octets: &[u8]) -> Result<Option<Tag>, AllocError>
        ensures tag { IfOk result (λ tag. tag ≡ tag_read octets.now) }
        ensures err { OnErr result (IsTag octets.now) }
    {
        if !is_tag(octets) {
            return Ok(None);
        }
        Ok(Some(Tag(Octets::from_slice(alloc, octets)?)))
    }

    /// Returns the tag with which the octets of a command begin, a space or CRLF after
    /// it, or `None` if there is none.
    pub fn of_command(alloc: Global, command: &[u8]) -> Result<Option<Tag>, AllocError>
        ensures tag { IfOk result (λ tag. tag ≡ tag_of command.now) }
        ensures err { OnErr result (IsSome (tag_of command.now)) }
    {
        let (tag, rest) = command.split_at(leading::<TagChar>(command));
        if tag.is_empty() || !ends_word(rest) {
            return Ok(None);
        }
        Ok(Some(Tag(Octets::from_slice(alloc, tag)?)))
    }

    /// Returns the tag's octets: one tag character or more (RFC 9051, section 9, `tag`).
    pub fn as_slice(&self) -> &[u8]
        ensures octets { result.now ≡ self.now }
        ensures valid { IsTag result.now }
    {
        self.0.as_slice()
    }

    /// Returns a copy, without copying the octets. It takes no memory from `alloc`.
    pub fn try_copy(&self, _alloc: Global) -> Result<Tag, AllocError>
        ensures copy { IfOk result (λ copy. copy ≡ self.now) }
        ensures valid { IsTag self.now }
    {
        Ok(Tag(self.0.try_copy()?))
    }
}

impl TryCopy for Tag {
    fn try_copy(&self, alloc: Global) -> Result<Tag, AllocError> {
        self.try_copy(alloc)
    }
}

impl Same for Tag {
    fn is_same(&self, other: &Tag) -> bool {
        self.0.is_same(&other.0)
    }
}

/// Whether the octets are a tag.
fn is_tag(octets: &[u8]) -> bool
    ensures { result ≡ is_tag octets.now }
{
    !octets.is_empty() && are_tag_chars(octets)
}

fn are_tag_chars(octets: &[u8]) -> bool
    ensures { result ≡ list_all is_tag_char octets.now }
{
    octets.iter().all(|octet| is_tag_char(*octet))
}

/// Whether a space or CRLF stands at the front of the octets.
fn ends_word(octets: &[u8]) -> bool
    ensures { result ≡ ends_word octets.now }
{
    octets.starts_with(b" ") || octets.starts_with(b"\r\n")
}
