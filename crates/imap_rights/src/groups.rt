//! Groups of users, which entries of access control lists may name (RFC 4314, section 2).

ghost use Rattle.std.specs.Prelude.{◌≡◌, true, false, is_some, map as map_list, string_bytes};
ghost use Rattle.std.specs.Prelude.{IfOk, Ok, OnErr, OnOk};
ghost use Rattle.std.specs.FinMap as map;
ghost use Rattle.imap_names.specs.UserName.{is_user_name};
ghost use Rattle.imap_rights.specs.Groups.{AreIdentifiersOf, groups_of, is_group_in, is_misnamed};
ghost use Rattle.imap_rights.specs.Groups.{members_of, stands_for};
ghost use Rattle.imap_rights.specs.Groups.{takes_from, with_member};

use crate::group_names::GroupNames;
use imap_names::UserName;
use imap_user_map::UserMap;
use std::alloc::{AllocError, Global};
use std::marker::Model;

/// What begins an identifier that stands for the members of a group.
pub(crate) const GROUP_PREFIX: &'static str = "group:";

/// An identifier that stands for every user.
const ANYONE: &'static str = "anyone";

/// The groups, and which users are in each. Contracts see each user's set of groups.
///
/// The names of groups have the rules of users' names.
#[derive(Drop)]
pub struct Groups {
    // The groups of each user who is in one.
    members: UserMap<GroupNames>,
    // The groups of everyone else.
    none: GroupNames,
}

impl Model for Groups {
    ghost use Rattle.std.specs.Prelude.{◌≡◌};
    ghost use Rattle.std.specs.FinMap as map;
    ghost use Rattle.imap_rights.specs.Groups.{Members, members_code, members_of};

    ghost Value = { Members };

    ghost coded = { members_code };

    ghost view = { λ g. members_of g.members };

    ghost invariant = { λ g. g.none.map ≡ map.empty };
}

impl Groups {
    /// No groups.
    pub fn new(alloc: Global) -> Groups
        ensures { result ≡ map.empty }
    {
        Groups {
            members: UserMap::new(alloc),
            none: GroupNames::new(alloc),
        }
    }

    /// Puts a user into a group. Returns false if `group` is no name of a group.
    pub fn add(&mut self, alloc: Global, group: &str, user: &UserName) -> Result<bool, AllocError>
        ensures named { IfOk result (λ named. named ≡ is_user_name group.now) }
        ensures added { result ≡ Ok true → self.new ≡ with_member self.old group.now user.now }
        ensures kept { result ≡ Ok false → self.new ≡ self.old }
        ensures err { OnErr result (self.new ≡ self.old) }
    {
        if UserName::read(alloc, group)?.is_none() {
            return Ok(false);
        }
        let group = String::from_str(alloc, group)?;
        add_member(&mut self.members, alloc, group, user.as_str())?;
        Ok(true)
    }

    /// The groups of a user.
    pub(crate) fn of(&self, user: &str) -> &UserMap<()>
        ensures { result.now.map ≡ groups_of self.now user.now }
    {
        self.names_of(user).names()
    }

    /// The identifiers that stand for a user beside the user's own name and `anyone`: one for each group of the
    /// user's, in no order.
    pub fn identifiers(&self, user: &str) -> &[String]
        ensures { AreIdentifiersOf (groups_of self.now user.now) (map_list string_bytes result.now) }
    {
        self.names_of(user).identifiers()
    }

    fn names_of(&self, user: &str) -> &GroupNames
        ensures { result.now.map ≡ groups_of self.now user.now }
    {
        match self.members.get(user) {
            Some(groups) => groups,
            None => &self.none,
        }
    }
}

fn add_member(
    members: &mut UserMap<GroupNames>,
    alloc: Global,
    group: String,
    user: &str,
) -> Result<(), AllocError>
    ensures ok { OnOk result
        (members_of members.new ≡ with_member (members_of members.old) (string_bytes group) user.now) }
    ensures err { OnErr result (members_of members.new ≡ members_of members.old) }
{
    if members.contains(user) {
        add_group(members, alloc, group, user)
    } else {
        add_user(members, alloc, group, user)
    }
}

/// Puts a user who is in a group into another one.
fn add_group(
    members: &mut UserMap<GroupNames>,
    alloc: Global,
    group: String,
    user: &str,
) -> Result<(), AllocError>
    requires { is_some (map.get members.old.map user.now) ≡ true }
    ensures ok { OnOk result
        (members_of members.new ≡ with_member (members_of members.old) (string_bytes group) user.now) }
    ensures err { OnErr result (members_of members.new ≡ members_of members.old) }
{
    match members.get_mut(user) {
        Some(groups) => groups.add(alloc, group),
        None => Ok(()),
    }
}

/// Puts a user who is in no group into one.
fn add_user(
    members: &mut UserMap<GroupNames>,
    alloc: Global,
    group: String,
    user: &str,
) -> Result<(), AllocError>
    requires { is_some (map.get members.old.map user.now) ≡ false }
    ensures ok { OnOk result
        (members_of members.new ≡ with_member (members_of members.old) (string_bytes group) user.now) }
    ensures err { OnErr result (members_of members.new ≡ members_of members.old) }
{
    let mut groups = GroupNames::new(alloc);
    groups.add(alloc, group)?;
    let user = String::from_str(alloc, user)?;
    members.reserve(1)?;
    members.insert_reserved(user, groups);
    Ok(())
}

/// Whether the subject of an entry stands for the user of these groups: it is the user, everyone, or one of
/// the groups.
pub(crate) fn stands_for(groups: &UserMap<()>, user: &str, subject: &str) -> bool
    ensures { result ≡ stands_for groups.now.map user.now subject.now }
{
    subject == user || subject == ANYONE || is_group_in(groups, subject)
}

fn is_group_in(groups: &UserMap<()>, subject: &str) -> bool
    ensures { result ≡ is_group_in groups.now.map subject.now }
{
    match subject.strip_prefix(GROUP_PREFIX) {
        Some(group) => groups.contains(group),
        None => false,
    }
}

/// Whether the entry of an identifier takes its rights from the user of these groups.
pub(crate) fn takes_from(groups: &UserMap<()>, user: &str, identifier: &str) -> bool
    ensures { result ≡ takes_from groups.now.map user.now identifier.now }
{
    match identifier.strip_prefix("-") {
        Some(subject) => stands_for(groups, user, subject),
        None => false,
    }
}

/// Whether the subject begins as the identifier of a group, and names none.
pub(crate) fn is_misnamed(alloc: Global, subject: &str) -> Result<bool, AllocError>
    ensures { IfOk result (λ misnamed. misnamed ≡ is_misnamed subject.now) }
{
    match subject.strip_prefix(GROUP_PREFIX) {
        Some(group) => Ok(UserName::read(alloc, group)?.is_none()),
        None => Ok(false),
    }
}
