//! The letters of a shown name, that a pattern is compared with.
ghost use Rattle.std.specs.Prelude.{◌≡◌, ◌^◌, ◌<◌, ◌≤◌, true, false, length, drop, slice_index_or};
ghost use Rattle.imap_names.specs.Letters.{letters_of, path_in, inbox_front, blank};
ghost use Rattle.imap_names.specs.Valid.{is_prefix_word};

use crate::read::{first_component, is_prefix_word, parts_of, spells_inbox};
use std::marker::Model;

/// An octet of a shown name, and whether a pattern may write it in either ASCII case.
#[derive(Clone, Copy)]
pub struct Letter {
    pub octet: u8,
    pub any_case: bool,
}

/// The letters of a shown name. The first component of its path has no case if it is INBOX (RFC 9051,
/// section 5.1). Contracts see the list of letters.
#[derive(Drop)]
pub(crate) struct Letters<'a> {
    octets: &'a [u8],
    /// The letters from here up to `end` have no case.
    begin: usize,
    end: usize,
}

impl<'a> Model for Letters<'a> {
    ghost use Rattle.std.specs.Prelude.{List};
    ghost use Rattle.imap_names.specs.declared.letters.Letter.{Letter};
    ghost use Rattle.imap_names.specs.Letters.{lettered};

    ghost Value = { List Letter };

    ghost view = { λ letters. lettered letters.begin letters.end letters.octets.now };
}

impl<'a> Letters<'a> {
    pub(crate) fn of(text: &'a str) -> Letters<'a>
        ensures { result ≡ letters_of text.now }
    {
        let path = path_in(text);
        let begin = text.len() - path.len();
        Letters {
            octets: text.as_bytes(),
            begin,
            end: begin + inbox_len(path),
        }
    }

    pub(crate) fn len(&self) -> usize
        ensures len { result ≡ length self.now }
        ensures fits { result < 2 ^ 63 }
    {
        self.octets.len()
    }

    pub(crate) fn at(&self, place: usize) -> Letter
        requires { place < length self.now }
        ensures { result ≡ slice_index_or self.now place blank }
    {
        Letter {
            octet: self.octets[place],
            any_case: self.begin <= place && place < self.end,
        }
    }

    /// The letters from a place on.
    pub(crate) fn rest(&self, place: usize) -> Letters<'a>
        requires { place ≤ length self.now }
        ensures { result ≡ drop place self.now }
    {
        let (_, octets) = self.octets.split_at(place);
        Letters {
            octets,
            begin: self.begin.saturating_sub(place),
            end: self.end.saturating_sub(place),
        }
    }
}

/// The path of a shown name.
fn path_in(text: &str) -> &str
    ensures path { result.now ≡ path_in text.now }
    ensures len { length result.now ≤ length text.now }
{
    if is_prefix_word(text) {
        return "";
    }
    parts_of(text).path
}

/// How long the first component of the path is if it is INBOX, else 0.
fn inbox_len(path: &str) -> usize
    ensures len { result ≡ length (inbox_front path.now) }
    ensures within { result ≤ length path.now }
{
    let first = first_component(path);
    if spells_inbox(first) { first.len() } else { 0 }
}
