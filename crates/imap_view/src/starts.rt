//! Where a listing starts.

ghost use Rattle.std.specs.Prelude.{◌≡◌, [], ℕ, List, bytes_eq, map, string_bytes, true, IfOk, IfSome, OnOk};
ghost use Rattle.std.specs.List.{Contains};
ghost use Rattle.imap_world.specs.Index.{IsIndexOf, Lists};
ghost use Rattle.imap_view.specs.Starts.{AddsFound, HaveAllSeen, HaveFound, IsStart};

use crate::view::View;
use imap_names::{Name, UserName};
use imap_world::{IdentifierIndex, Site};
use std::alloc::{AllocError, Global};

/// The identifier that stands for every user (RFC 4314, section 2).
const ANYONE: &'static str = "anyone";

/// Of how many mailboxes one has to be found for a walk of all: a walk passes what is hidden too, so that its time would
/// tell of that.
const WALK_FROM: usize = 2;

impl<'a> View<'a> {
    /// Names among which are those of all mailboxes that the user sees, in no order. `None` if the user sees most of
    /// all mailboxes: then a walk is quicker, and passes little that is hidden.
    pub fn starts(&self, alloc: Global) -> Result<Option<Vec<&'a Name>>, AllocError>
        ensures { IfOk result (λ found. IfSome found (λ names.
            HaveAllSeen self.now (map (λ name. name.now) names.items))) }
    {
        let index = self.world.index();
        if !index.is_whole() {
            return Ok(None);
        }
        let count = count_of(index, self.site, self.user);
        if count.saturating_mul(WALK_FROM) > self.world.mailboxes().len() {
            return Ok(None);
        }
        Ok(Some(names_of(alloc, index, self.site, self.user)?))
    }
}

/// How many names the index has for the user.
fn count_of(index: &IdentifierIndex, site: &Site, user: &UserName) -> usize {
    let own = index.count(user.as_str());
    let shared = count_shared(index, site, user);
    let anyone = index.count(ANYONE);
    let groups = count_all(index, site.groups.groups().identifiers(user.as_str()));
    own.saturating_add(shared)
        .saturating_add(anyone)
        .saturating_add(groups)
}

fn count_shared(index: &IdentifierIndex, site: &Site, user: &UserName) -> usize {
    if site.administrator.as_str() == user.as_str() {
        index.count("")
    } else {
        0
    }
}

fn count_all(index: &IdentifierIndex, identifiers: &[String]) -> usize {
    let mut count: usize = 0;
    for identifier in identifiers {
        count = count.saturating_add(index.count(identifier.as_str()));
    }
    count
}

/// The names that the index has for the user.
fn names_of<'a>(
    alloc: Global,
    index: &'a IdentifierIndex,
    site: &Site,
    user: &UserName,
) -> Result<Vec<&'a Name>, AllocError>
    requires { index.now.is_whole ≡ true }
    ensures { (lists : Lists) (text : List ℕ) → IsIndexOf index.now lists → IsStart site.now user.now text
        → IfOk result (λ names. HaveFound lists text (map (λ name. name.now) names.items)) }
{
    let mut names = Vec::new(alloc);
    push_found(&mut names, index, user.as_str())?;
    push_found(&mut names, index, ANYONE)?;
    push_shared(&mut names, index, site, user)?;
    push_all_found(
        &mut names,
        index,
        site.groups.groups().identifiers(user.as_str()),
    )?;
    Ok(names)
}

/// Appends the names of the tree that all share, if it is the user's.
fn push_shared<'a>(
    names: &mut Vec<&'a Name>,
    index: &'a IdentifierIndex,
    site: &Site,
    user: &UserName,
) -> Result<(), AllocError>
    requires { index.now.is_whole ≡ true }
    ensures { (lists : Lists) → IsIndexOf index.now lists → OnOk result
        (AddsFound lists (λ text. (text ≡ []) × (bytes_eq site.now.administrator user.now ≡ true))
        (map (λ name. name.now) names.old.items) (map (λ name. name.now) names.new.items)) }
{
    if site.administrator.as_str() == user.as_str() {
        push_found(names, index, "")
    } else {
        Ok(())
    }
}

/// Appends the names that these identifiers find.
fn push_all_found<'a>(
    names: &mut Vec<&'a Name>,
    index: &'a IdentifierIndex,
    identifiers: &[String],
) -> Result<(), AllocError>
    requires { index.now.is_whole ≡ true }
    ensures { (lists : Lists) → IsIndexOf index.now lists → OnOk result
        (AddsFound lists (λ text. Contains (map string_bytes identifiers.now) text)
        (map (λ name. name.now) names.old.items) (map (λ name. name.now) names.new.items)) }
{
    for identifier in identifiers {
        push_found(names, index, identifier.as_str())?;
    }
    Ok(())
}

/// Appends the names that the text finds.
fn push_found<'a>(
    names: &mut Vec<&'a Name>,
    index: &'a IdentifierIndex,
    text: &str,
) -> Result<(), AllocError>
    requires { index.now.is_whole ≡ true }
    ensures { (lists : Lists) → IsIndexOf index.now lists → OnOk result
        (AddsFound lists (λ other. other ≡ text.now)
        (map (λ name. name.now) names.old.items) (map (λ name. name.now) names.new.items)) }
{
    index.push_names(names, text)
}
