//! Listings.
ghost use Rattle.std.specs.Prelude.{◌≡◌, IfOk};
ghost use Rattle.imap_listing.specs.Lines.{lines_of, subscribed_lines_of};
ghost use Rattle.imap_listing.specs.Listing.{listing, subscribed_listing};

use crate::line::Line;
use crate::marks::Marks;
use crate::matching::{push_matched, push_matched_levels};
use crate::ordered::OrderedNames;
use crate::shown_name::ShownName;
use crate::view_names::{listable_names, subscribed_names};
use imap_answer::View;
use imap_names::Pattern;
use std::alloc::{AllocError, Global};

/// What LIST answers (RFC 9051, section 6.3.9): a line for each mailbox on which the user holds `l` and
/// that one of the patterns matches, and for each level above a mailbox with `l` that one of the
/// patterns that end in `%` matches. The lines are in the order of their names' octets, each name once.
pub fn list(alloc: Global, view: &View<'_>, patterns: &[Pattern]) -> Result<Vec<Line>, AllocError>
    ensures { IfOk result (λ lines. lines.items ≡ listing view.now patterns.now) }
{
    let there = listable_names(alloc, view)?;
    let subscribed = subscribed_names(alloc, view)?;
    lines_of(alloc, there.as_slice(), subscribed.as_slice(), patterns)
}

/// What LIST answers with the selection option SUBSCRIBED (section 6.3.9.1): a line for each name that
/// the user subscribed to and that one of the patterns matches, in the order of their octets, each name
/// once. A name on which the user doesn't hold `l` is listed as one that isn't there.
pub fn list_subscribed(
    alloc: Global,
    view: &View<'_>,
    patterns: &[Pattern],
) -> Result<Vec<Line>, AllocError>
    ensures { IfOk result (λ lines. lines.items ≡ subscribed_listing view.now patterns.now) }
{
    let there = listable_names(alloc, view)?;
    let subscribed = subscribed_names(alloc, view)?;
    subscribed_lines_of(alloc, there.as_slice(), subscribed.as_slice(), patterns)
}

/// The lines of the names that are there, and of levels above them.
fn lines_of(
    alloc: Global,
    there: &[ShownName],
    subscribed: &[ShownName],
    patterns: &[Pattern],
) -> Result<Vec<Line>, AllocError>
    ensures { IfOk result (λ lines. lines.items ≡ lines_of there.now subscribed.now patterns.now) }
{
    let marks = Marks::new(alloc, there, subscribed)?;
    let mut listed = Vec::new(alloc);
    push_matched(&mut listed, marks.there.as_slice(), patterns)?;
    push_matched_levels(&mut listed, marks.above.as_slice(), patterns)?;
    let listed = OrderedNames::from_names(listed)?;
    marks.lines(alloc, listed.as_slice())
}

/// The lines of the names that are subscribed to.
fn subscribed_lines_of(
    alloc: Global,
    there: &[ShownName],
    subscribed: &[ShownName],
    patterns: &[Pattern],
) -> Result<Vec<Line>, AllocError>
    ensures { IfOk result (λ lines.
        lines.items ≡ subscribed_lines_of there.now subscribed.now patterns.now) }
{
    let marks = Marks::new(alloc, there, subscribed)?;
    let mut listed = Vec::new(alloc);
    push_matched(&mut listed, marks.subscribed.as_slice(), patterns)?;
    marks.lines(alloc, listed.as_slice())
}
