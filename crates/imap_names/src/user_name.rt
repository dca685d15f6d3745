//! Names of users.
ghost use Rattle.std.specs.Prelude.{◌≡◌, ◌↔◌, true, chars, IsTrue, IfOk};
ghost use Rattle.std.specs.List.{list_any};
ghost use Rattle.imap_names.specs.UserName.{IsUserNameRead, is_user_name, has_user_form, is_barred};
ghost use Rattle.imap_names.specs.UserName.{names_no_user};

use std::alloc::{AllocError, Global};
use std::marker::Model;
use std::sync::ArcStr;
use unicode_normalization::is_nfc;

/// The most octets of a user name.
pub const MAX_USER_NAME_OCTETS: usize = 64;

/// A user's name: NFC text (RFC 5198) without space, `/` or control character.
///
/// It has at least one octet and at most [`MAX_USER_NAME_OCTETS`]. `anyone`, and a text that begins with
/// `-` or `group:`, is no user name: these mean other things in an ACL (RFC 4314). Contracts see its
/// octets. A copy shares them.
pub struct UserName {
    text: ArcStr,
}

// Not derived: a derived one is proved anew in each crate that lets go of one.
impl Drop for UserName {
    fn drop(self) {
        let UserName { text: _ } = self;
    }
}

impl Model for UserName {
    ghost use Rattle.std.specs.Prelude.{◌≡◌, ℕ, List, true};
    ghost use Rattle.std.specs.Arc.{arc_str_bytes};
    ghost use Rattle.imap_names.specs.UserName.{is_user_name};

    ghost Value = { List ℕ };

    ghost view = { λ name. arc_str_bytes name.text };

    ghost invariant = { λ name. is_user_name (arc_str_bytes name.text) ≡ true };
}

impl UserName {
    /// The text as a user name, or `None` if it is none. A text that isn't in NFC is none.
    pub fn read(alloc: Global, text: &str) -> Result<Option<UserName>, AllocError>
        ensures { IfOk result (IsUserNameRead text.now) }
    {
        if !spells_user(alloc, text)? {
            return Ok(None);
        }
        let text = ArcStr::from_str(alloc, text)?;
        Ok(Some(UserName { text }))
    }

    /// The text of the name.
    pub fn as_str(&self) -> &str
        ensures text { result.now ≡ self.now }
        ensures valid { is_user_name self.now ≡ true }
    {
        self.text.as_str()
    }

    /// The same name, without copying its text.
    pub fn try_copy(&self) -> Result<UserName, AllocError>
        ensures copy { IfOk result (λ copy. copy ≡ self.now) }
        ensures valid { is_user_name self.now ≡ true }
    {
        let text = self.text.clone()?;
        Ok(UserName { text })
    }

    /// Whether both are the same name.
    pub fn is_same(&self, other: &UserName) -> bool
        ensures { IsTrue result ↔ (self.now ≡ other.now) }
    {
        self.as_str() == other.as_str()
    }
}

/// Whether the text is a user name.
#[tactic(auto, unfolding(crate::specs::UserName::is_user_name))]
fn spells_user(alloc: Global, text: &str) -> Result<bool, AllocError>
    ensures { IfOk result (λ answer. answer ≡ is_user_name text.now) }
{
    let composed = is_nfc(alloc, text)?;
    Ok(composed && has_user_form(text))
}

fn has_user_form(text: &str) -> bool
    ensures { result ≡ has_user_form text.now }
{
    !text.is_empty()
        && text.len() <= MAX_USER_NAME_OCTETS
        && !has_barred(text)
        && !names_no_user(text)
}

/// Whether the text has a character that no user name has.
fn has_barred(text: &str) -> bool
    ensures { result ≡ list_any is_barred (chars text.now) }
{
    text.chars()
        .any(|char| char == ' ' || char == '/' || char.is_control())
}

/// Whether the text means something else in an ACL (RFC 4314, sections 2 and 3.1).
fn names_no_user(text: &str) -> bool
    ensures { result ≡ names_no_user text.now }
{
    text == "anyone" || text.starts_with("-") || text.starts_with("group:")
}
