//! Comments (RFC 5322, section 3.2.2).

ghost use Rattle.std.specs.Prelude.{◌≡◌, OnOk};
ghost use Rattle.imap_mime.specs.Parts.{comments_with, first_comment, no_comments, with_comment_begun};

use crate::octet_string::OctetString;
use std::alloc::{AllocError, Global};

/// How many comments there are.
#[derive(Clone, Copy)]
pub enum CommentCount {
    None,
    One,
    More,
}

/// The first comment of an address, which names whose it is if no display name does.
#[derive(Drop)]
pub struct Comments {
    first: OctetString,
    count: CommentCount,
}

impl Comments {
    /// No comments.
    pub fn new(alloc: Global) -> Comments
        ensures { result ≡ no_comments }
    {
        Comments {
            first: OctetString::new(alloc),
            count: CommentCount::None,
        }
    }

    /// Begins a comment.
    pub fn begin(&mut self)
        ensures { self.new ≡ with_comment_begun self.old }
    {
        self.count = match self.count {
            CommentCount::None => CommentCount::One,
            CommentCount::One | CommentCount::More => CommentCount::More,
        };
    }

    /// Appends an octet to the last comment.
    pub fn push(&mut self, octet: u8) -> Result<(), AllocError>
        ensures { OnOk result (self.new ≡ comments_with octet self.old) }
    {
        if matches!(self.count, CommentCount::One) {
            self.first.push(octet)
        } else {
            Ok(())
        }
    }

    /// Returns the first comment and leaves none.
    pub fn take(&mut self) -> Option<OctetString>
        ensures taken { result ≡ first_comment self.old }
        ensures left { self.new ≡ no_comments }
    {
        let first = self.first.take();
        let count = self.count;
        self.count = CommentCount::None;
        match count {
            CommentCount::None => None,
            CommentCount::One | CommentCount::More => Some(first),
        }
    }
}
