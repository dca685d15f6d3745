//! The view.
//!
//! `owner` lends the user's name, which CREATE and RENAME put into their effect. A look-up compares the
//! root's text, since a borrowed name holds no `UserName`.

ghost use Rattle.std.specs.Prelude.{◌≡◌, false, nat_lt, option_copied, option_map};
ghost use Rattle.std.specs.FinMap as map;
ghost use Rattle.imap_names.specs.Name.{root_of};
ghost use Rattle.imap_names.specs.Valid.{IsName};
ghost use Rattle.imap_world.specs.NameMapRows.{below_of, has_below};
ghost use Rattle.imap_world.specs.Rights.{bits};
ghost use Rattle.imap_view.specs.Listing.{names_below};
ghost use Rattle.imap_view.specs.Seen.{is_root, owner_by_root, owner_of, seen_at, shown};
ghost use Rattle.imap_view.specs.View.{acl_in, epoch_in, rights_in, may_know_name_in, is_own_root};
ghost use Rattle.imap_view.specs.View.{shows_names_below, may_create, view_of};
ghost use Rattle.imap_view.specs.TreeAfter.{is_known};
ghost use Rattle.imap_world.specs.Mailbox.{plain};
ghost use Rattle.imap_world.specs.Stored.{names_in, world_of};
ghost use Rattle.imap_world.specs.World.{epoch, max_validity};

use crate::seen::Seen;
use crate::seen_names::SeenNames;
use crate::taken_names::TakenNames;
use bitflags::Flags;
use imap_names::{Name, NameRef, UserName};
use imap_world::{Acl, MailboxEntry, NameMap, Rights, Site, World};
use std::marker::Model;

/// What a user may see of a world.
#[derive(Drop)]
pub struct View<'a> {
    pub(crate) world: &'a World,
    pub(crate) site: &'a Site,
    pub(crate) user: &'a UserName,
}

impl<'a> Model for View<'a> {
    ghost use Rattle.imap_view.specs.View as specs;
    ghost use Rattle.imap_world.specs.Stored.{world_of};

    ghost Value = { specs.View };

    ghost coded = { specs.view_code };

    ghost view = { λ v. specs.view_of v.site.now v.user.now (world_of v.world.now) };
}

impl<'a> View<'a> {
    /// What the user may see of the world of this site.
    pub fn new(world: &'a World, site: &'a Site, user: &'a UserName) -> View<'a>
        ensures { result ≡ view_of site.now user.now (world_of world.now) }
    {
        View { world, site, user }
    }

    /// The user whose view it is.
    pub fn user(&self) -> &'a UserName
        ensures { result.now ≡ self.now.user }
    {
        self.user
    }

    /// The owner of the tree that the name lies in.
    pub fn owner<'b>(&'b self, name: &'b Name) -> &'b UserName
        ensures { result.now ≡ owner_of self.now.site name.now }
    {
        match name.owner() {
            Some(owner) if !owner.as_str().is_empty() => owner,
            Some(_) => &self.site.administrator,
            None => &self.site.administrator,
        }
    }

    /// The mailbox of this name, if the user sees it.
    pub fn seen(&self, name: &NameRef<'_>) -> Option<Seen<'a>>
        ensures { option_map shown result ≡ map.get self.now.seen name.now }
    {
        self.seen_of(name, self.world.mailbox(name)?)
    }

    /// A mailbox of this name as the user sees it, if the user does.
    pub(crate) fn seen_of(&self, name: &NameRef<'_>, mailbox: &'a MailboxEntry) -> Option<Seen<'a>>
        ensures { option_map shown result
            ≡ seen_at self.now.site self.now.user name.now (plain mailbox.now) }
    {
        let owner = owner_by_root(self.site, name.root());
        let groups = self.site.groups.groups();
        let rights = mailbox.acl.effective(self.user.as_str(), owner, groups);
        if rights.show_mailbox() {
            Some(Seen {
                rights,
                mailbox,
                site: self.site,
                user: self.user,
            })
        } else {
            None
        }
    }

    /// The user's rights on the mailbox of this name, and none if the user doesn't see it.
    pub fn rights(&self, name: &NameRef<'_>) -> Rights
        ensures { bits result ≡ rights_in self.now name.now }
    {
        match self.seen(name) {
            Some(seen) => seen.rights(),
            None => Rights::empty(),
        }
    }

    /// The access control list of the mailbox of this name, if the user holds `a` on it.
    pub fn acl(&self, name: &NameRef<'_>) -> Option<&'a Acl>
        ensures { option_copied result ≡ acl_in self.now name.now }
    {
        match self.seen(name) {
            Some(seen) => seen.acl(),
            None => None,
        }
    }

    /// All mailboxes that the user sees, in the order of their names.
    pub fn seen_names(&self) -> SeenNames<'a>
        ensures { result ≡ map.entries self.now.seen }
    {
        SeenNames {
            from: View::new(self.world, self.site, self.user),
            mailboxes: self.world.mailboxes().entries(),
        }
    }

    /// The mailboxes that the user sees below `name`, in the order of their names.
    pub fn seen_below(&self, name: &NameRef<'_>) -> SeenNames<'a>
        ensures { result ≡ below_of name.now self.now.seen }
    {
        SeenNames {
            from: View::new(self.world, self.site, self.user),
            mailboxes: self.world.mailboxes().entries_below(name),
        }
    }

    /// Whether the user may know which names are in use below `name`.
    pub(crate) fn shows_names_below(&self, name: &NameRef<'_>) -> bool
        requires { is_root name.now ≡ false }
        ensures { result ≡ shows_names_below self.now.site self.now.user self.now.seen name.now }
    {
        match self.seen(name) {
            Some(seen) => seen.rights().show_names_below(),
            None => false,
        }
    }

    /// Whether the tree that the name lies in is the user's own.
    pub fn owns_tree(&self, name: &NameRef<'_>) -> bool
        ensures own { result ≡ is_own_root self.now.site self.now.user (root_of name.now) }
        ensures valid { IsName name.now }
    {
        owner_by_root(self.site, name.root()) == self.user.as_str()
    }

    /// Whether the user may know if `name` is in use: it lies below a name that shows the names below it.
    pub fn may_know_name(&self, name: &NameRef<'_>) -> bool
        ensures { result ≡ may_know_name_in self.now name.now }
    {
        match name.superior() {
            Some(above) => self.shows_names_below(&above) || self.may_know_name(&above),
            None => self.owns_tree(name),
        }
    }

    /// Whether `name` is in use, as far as the user may know.
    pub fn is_taken(&self, name: &NameRef<'_>) -> bool
        ensures { result ≡ map.contains_key self.now.taken name.now }
    {
        self.world.mailbox(name).is_some() && self.may_know_name(name)
    }

    /// The same, if `may_know` says whether the user may know.
    pub(crate) fn is_taken_by(&self, name: &NameRef<'_>, may_know: bool) -> bool
        requires { may_know ≡ may_know_name_in self.now name.now }
        ensures { result ≡ map.contains_key self.now.taken name.now }
    {
        may_know && self.world.mailbox(name).is_some()
    }

    /// Whether a name below `name` is in use, as far as the user may know.
    pub fn taken_below(&self, name: &NameRef<'_>) -> bool
        ensures { result ≡ has_below name.now self.now.taken }
    {
        self.taken_names(name).next().is_some()
    }

    /// The names in use below `name`, as far as the user may know, in the order of names.
    pub fn taken_names(&self, name: &NameRef<'_>) -> TakenNames<'a>
        ensures { result ≡ names_below name.now self.now.taken }
    {
        TakenNames {
            from: View::new(self.world, self.site, self.user),
            mailboxes: self.world.mailboxes().entries_below(name),
        }
    }

    /// The greatest UIDVALIDITY that was used under the name, and 0 if none was. `None` if the user may not
    /// know.
    pub fn epoch(&self, name: &NameRef<'_>) -> Option<u32>
        ensures { result ≡ epoch_in self.now name.now }
    {
        if self.may_know_name(name) {
            Some(self.world.epoch(name))
        } else {
            None
        }
    }

    /// Whether a UIDVALIDITY is left under the name, as far as the user may know.
    pub fn is_validity_left(&self, name: &NameRef<'_>) -> bool
        ensures { result ≡ nat_lt (epoch self.now.epochs name.now) max_validity }
    {
        self.is_left_by(name, self.may_know_name(name))
    }

    /// The same, if `may_know` says whether the user may know.
    pub(crate) fn is_left_by(&self, name: &NameRef<'_>, may_know: bool) -> bool
        requires { may_know ≡ may_know_name_in self.now name.now }
        ensures { result ≡ nat_lt (epoch self.now.epochs name.now) max_validity }
    {
        !may_know || self.world.next_validity(name).is_some()
    }

    /// Whether the user knows that the name is in use.
    pub fn is_known(&self, name: &NameRef<'_>) -> bool
        ensures { result ≡ is_known self.now name.now }
    {
        self.seen(name).is_some() || self.is_taken(name)
    }

    /// Whether the user may create a mailbox of this name, as far as rights go (RFC 4314, section 4).
    pub fn may_create(&self, name: &NameRef<'_>) -> bool
        ensures { result ≡ may_create self.now name.now }
    {
        match name.superior() {
            Some(above) => match self.seen(&above) {
                Some(seen) => seen.rights().has_any(Rights::CREATE),
                None => !self.is_taken(&above) && self.may_create(&above),
            },
            None => self.owns_tree(name),
        }
    }

    /// The names that the user subscribed to, or `None` if there never was one.
    pub fn subscribed(&self) -> Option<&'a NameMap<()>>
        ensures { names_in (option_copied result) ≡ self.now.subscribed }
    {
        self.world.subscriptions(self.user.as_str())
    }

    /// Whether the user subscribed to the name.
    pub fn is_subscribed(&self, name: &NameRef<'_>) -> bool
        ensures { result ≡ map.contains_key self.now.subscribed name.now }
    {
        match self.subscribed() {
            Some(names) => names.get(name).is_some(),
            None => false,
        }
    }

    /// How many names the user subscribed to.
    pub fn count_subscribed(&self) -> usize
        ensures { result ≡ map.len self.now.subscribed }
    {
        match self.subscribed() {
            Some(names) => names.len(),
            None => 0,
        }
    }
}

/// The user whose tree has this root. The tree that all share is the administrator's.
fn owner_by_root<'a>(site: &'a Site, root: &'a str) -> &'a str
    ensures { result.now ≡ owner_by_root site.now root.now }
{
    if root.is_empty() {
        site.administrator.as_str()
    } else {
        root
    }
}
