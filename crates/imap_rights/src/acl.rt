//! Access control lists, and the rights that a user holds by one (RFC 4314, section 2).

ghost use Rattle.std.specs.Prelude.{◌≡◌, ◌≤◌, ◌↔◌, true, IsTrue, IsErrOf, IfOk, OnOk, OnErr, IsOk, bytes_eq};
ghost use Rattle.std.specs.Prelude.{IsPermutation, MatchOption};
ghost use Rattle.std.specs.FinMap as finite;
ghost use Rattle.imap_rights.specs.Rights.{bits, known, no_rights};
ghost use Rattle.imap_rights.specs.Acl.{AclMap, IsAcl, is_some_rights, max_entries, with_entry, is_full_for};
ghost use Rattle.imap_rights.specs.Acl.{owner_acl};
ghost use Rattle.imap_rights.specs.Effective.{effective, entry, granted_by};
ghost use Rattle.imap_rights.specs.Entries.{AreEntries, PutsEntry, pairs_of, position, rights_where};
ghost use Rattle.imap_rights.specs.Groups.{stands_for, takes_from, union_where};
ghost use Rattle.imap_rights.specs.Entries.{without_pair, has_entry, is_full};

use crate::groups::{Groups, stands_for, takes_from};
use crate::identifier::Identifier;
use crate::rights::Rights;
use crate::sorting::{are_entries, are_rising, sort_entries};
use bitflags::Flags;
use imap_user_map::UserMap;
use std::alloc::{AllocError, AllocFailed, Global};
use std::cmp::Ordering;
use std::marker::Model;
use thiserror::Error;

/// The most entries of a list.
pub const MAX_ENTRIES: usize = 128;

/// An access control list: the rights of each identifier (RFC 4314, section 2).
///
/// It has at most [`MAX_ENTRIES`] entries, each with one of the eleven rights or more.
/// Contracts see a finite map from the octets of identifiers to sets of rights.
pub struct Acl {
    // In the order of their identifiers. Each look-up walks through them, since they are few.
    entries: Vec<Entry>,
}

// Not derived: a derived one is proved anew in each crate that lets go of one.
impl Drop for Acl {
    fn drop(self) {
        let Acl { entries: _ } = self;
    }
}

/// An identifier with its rights.
#[derive(Drop)]
pub struct Entry {
    pub identifier: Identifier,
    pub rights: Rights,
}

impl Model for Acl {
    ghost use Rattle.imap_rights.specs.Acl.{AclMap, acl_code};

    ghost Value = { AclMap };

    ghost coded = { acl_code };

    ghost use Rattle.std.specs.FinMap as map;
    ghost use Rattle.imap_rights.specs.Entries.{AreEntries, pairs_of};

    ghost view = { λ a. map.from_sorted (pairs_of a.entries.items) };

    ghost invariant = { λ a. AreEntries a.entries.items };
}

/// Why an entry was not set.
#[derive(Clone, Copy, Debug, Error)]
pub enum AclError {
    /// The list has [`MAX_ENTRIES`] entries already.
    #[error("the access control list is full")]
    Full,
    /// There was no memory for the entry.
    #[error("out of memory")]
    Memory,
}

impl<T: Drop> From<AllocFailed<T>> for AclError {
    ghost use Rattle.std.specs.Prelude.{◌≡◌};
    ghost use Rattle.imap_rights.specs.declared.acl.AclError.TheVariants.{Memory};

    ghost from_gives = { λ _ error. error ≡ Memory };

    fn from(_error: AllocFailed<T>) -> AclError {
        AclError::Memory
    }
}

impl Acl {
    /// A list without entries.
    pub fn new(alloc: Global) -> Acl
        ensures { result ≡ finite.empty }
    {
        Acl {
            entries: Vec::new(alloc),
        }
    }

    /// The list of these entries, which may be in any order. `None` if there are over [`MAX_ENTRIES`], an
    /// identifier is there twice, or an entry has no rights or bits that are none of the eleven. It takes no
    /// memory.
    pub fn from_entries(mut entries: Vec<Entry>) -> Option<Acl>
        ensures { MatchOption result
            ((acl : AclMap) → IsAcl acl → IsPermutation (pairs_of entries.items) (finite.entries acl) → ⊥)
            (λ acl. IsPermutation (pairs_of entries.items) (finite.entries acl)) }
    {
        if entries.len() > MAX_ENTRIES {
            return None;
        }
        sort_entries(&mut entries);
        if !are_entries(&entries) {
            return None;
        }
        if !are_rising(&entries) {
            return None;
        }
        Some(Acl { entries })
    }

    /// The number of entries.
    pub fn len(&self) -> usize
        ensures count { result ≡ finite.len self.now }
        ensures bounded { result ≤ max_entries }
        ensures valid { IsAcl self.now }
    {
        self.entries.len()
    }

    /// Whether there is no entry.
    pub fn is_empty(&self) -> bool
        ensures { IsTrue result ↔ (self.now ≡ finite.empty) }
    {
        self.entries.is_empty()
    }

    /// The entries, in the byte order of their identifiers.
    pub fn entries(&self) -> &[Entry]
        ensures { pairs_of result.now ≡ finite.entries self.now }
    {
        self.entries.as_slice()
    }

    /// The rights of the entry of `identifier`, and no rights if there is no entry.
    pub fn rights_of(&self, identifier: &Identifier) -> Rights
        ensures { bits result ≡ entry self.now identifier.now }
    {
        self.rights_at(identifier.as_bytes())
    }

    /// Whether `identifier` would need an entry to have these rights, and there is no room for one.
    pub fn is_full_for(&self, identifier: &Identifier, rights: Rights) -> bool
        ensures { result ≡ is_full_for self.now identifier.now (bits rights) }
    {
        if rights.known().is_empty() {
            return false;
        }
        !self.has_entry(identifier.as_bytes()) && self.len() >= MAX_ENTRIES
    }

    fn has_entry(&self, identifier: &[u8]) -> bool
        ensures { result ≡ finite.contains_key self.now identifier.now }
    {
        position_of(self.entries.as_slice(), identifier).is_ok()
    }

    /// A list by which the owner alone has rights, and all of them.
    pub fn of_owner(alloc: Global, owner: Identifier) -> Result<Acl, AllocError>
        ensures { IfOk result (λ acl. acl ≡ owner_acl owner) }
    {
        let mut acl = Acl::new(alloc);
        match acl.set(owner, Rights::ALL) {
            Ok(()) => Ok(acl),
            // An empty list is not full.
            Err(_) => Err(AllocError),
        }
    }

    /// Sets the rights of the entry of `identifier`, and removes the entry if they are none. Bits of
    /// `rights` that are none of the eleven rights are dropped.
    pub fn set(&mut self, identifier: Identifier, rights: Rights) -> Result<(), AclError>
        ensures ok { OnOk result (self.new ≡ with_entry self.old identifier (bits rights)) }
        ensures err { OnErr result (self.new ≡ self.old) }
        ensures full { IsErrOf result AclError.Full ↔ IsTrue (is_full_for self.old identifier (bits rights)) }

        // Only a new entry takes memory.
        ensures there { IsTrue (finite.contains_key self.old identifier) → IsOk result }
        ensures none { known (bits rights) ≡ no_rights → IsOk result }
    {
        let rights = rights.known();
        if rights.is_empty() {
            self.remove(&identifier);
            return Ok(());
        }
        put_entry(&mut self.entries, Entry { identifier, rights })
    }

    /// Removes the entry of `identifier`, if there is one.
    pub fn remove(&mut self, identifier: &Identifier)
        ensures { self.new ≡ finite.remove self.old identifier.now }
    {
        take_entry(&mut self.entries, identifier.as_bytes());
    }

    /// The rights that `user` holds on a mailbox of `owner` with this list (RFC 4314, section 2). An entry
    /// counts if its identifier is the user's name, `anyone` or `group:` and a group that the user is in;
    /// with a leading `-` it takes its rights away. The owner always has l and a. It takes no memory.
    pub fn effective(&self, user: &str, owner: &str, groups: &Groups) -> Rights
        ensures { bits result ≡ effective user.now owner.now groups.now self.now }
    {
        let granted = self.granted(user, groups.of(user));
        if user == owner {
            granted.union(Rights::LOOKUP.union(Rights::ADMINISTER))
        } else {
            granted
        }
    }

    /// An equal copy.
    pub fn try_copy(&self, alloc: Global) -> Result<Acl, AllocError>
        ensures { IfOk result (λ copy. copy ≡ self.now) }
    {
        Ok(Acl {
            entries: copy_entries(alloc, self.entries.as_slice())?,
        })
    }

    /// What the entries give the user of these groups, less what they take away.
    fn granted(&self, user: &str, groups: &UserMap<()>) -> Rights
        ensures { bits result ≡ granted_by groups.now.map user.now self.now }
    {
        let given = rights_given(self.entries.as_slice(), groups, user);
        let taken = rights_taken(self.entries.as_slice(), groups, user);
        given.less(taken)
    }

    fn rights_at(&self, identifier: &[u8]) -> Rights
        ensures { bits result ≡ entry self.now identifier.now }
    {
        rights_in(self.entries.as_slice(), identifier)
    }
}

fn rights_in(entries: &[Entry], identifier: &[u8]) -> Rights
    ensures { bits result ≡ rights_where (λ k. bytes_eq k identifier.now) entries.now }
{
    entries
        .iter()
        .find(|entry| entry.identifier.as_bytes() == identifier)
        .map_or(Rights::empty(), |entry| entry.rights)
}

// The rights that entries give the user of these groups.
fn rights_given(entries: &[Entry], groups: &UserMap<()>, user: &str) -> Rights
    ensures { bits result ≡ union_where (stands_for groups.now.map user.now) (pairs_of entries.now) }
{
    let mut rights = Rights::empty();
    for entry in entries {
        if stands_for(groups, user, entry.identifier.as_str()) {
            rights = rights.union(entry.rights);
        }
    }
    rights
}

// The rights that entries take from the user of these groups.
fn rights_taken(entries: &[Entry], groups: &UserMap<()>, user: &str) -> Rights
    ensures { bits result ≡ union_where (takes_from groups.now.map user.now) (pairs_of entries.now) }
{
    let mut rights = Rights::empty();
    for entry in entries {
        if takes_from(groups, user, entry.identifier.as_str()) {
            rights = rights.union(entry.rights);
        }
    }
    rights
}

// Ok with the position of an identifier among the entries, or Err with the position of a new entry for it.
fn position_of(entries: &[Entry], identifier: &[u8]) -> Result<usize, usize>
    ensures { result ≡ position identifier.now (pairs_of entries.now) }
{
    for (i, entry) in entries.iter().enumerate() {
        match identifier.cmp(entry.identifier.as_bytes()) {
            Ordering::Less => return Err(i),
            Ordering::Equal => return Ok(i),
            Ordering::Greater => {}
        }
    }
    Err(entries.len())
}

// Puts an entry in its position. It replaces the entry of its identifier, if there is one.
fn put_entry(entries: &mut Vec<Entry>, entry: Entry) -> Result<(), AclError>
    requires entries { AreEntries entries.old.items }
    requires rights { is_some_rights (bits entry.rights) ≡ true }
    ensures ok { OnOk result (PutsEntry entry entries.old.items entries.new.items) }
    ensures err { OnErr result (entries.new.items ≡ entries.old.items) }
    ensures full { IsErrOf result AclError.Full ↔ IsTrue (is_full entry.identifier entries.old.items) }
    ensures there { IsTrue (has_entry entry.identifier entries.old.items) → IsOk result }
    ensures kept { AreEntries entries.new.items }
{
    match position_of(entries.as_slice(), entry.identifier.as_bytes()) {
        Ok(position) => {
            entries[position].rights = entry.rights;
            Ok(())
        }
        Err(_) if entries.len() >= MAX_ENTRIES => Err(AclError::Full),
        Err(position) => {
            entries.insert(position, entry)?;
            Ok(())
        }
    }
}

// Removes the entry of an identifier, if there is one.
fn take_entry(entries: &mut Vec<Entry>, identifier: &[u8])
    requires { AreEntries entries.old.items }
    ensures pairs { pairs_of entries.new.items ≡ without_pair identifier.now (pairs_of entries.old.items) }
    ensures kept { AreEntries entries.new.items }
{
    entries.retain(|entry| entry.identifier.as_bytes() != identifier);
}

fn copy_entries(alloc: Global, entries: &[Entry]) -> Result<Vec<Entry>, AllocError>
    ensures { IfOk result (λ copy. copy.items ≡ entries.now) }
{
    let mut copy = Vec::new(alloc);
    for entry in entries {
        copy.push(Entry {
            identifier: entry.identifier.try_copy(alloc)?,
            rights: entry.rights,
        })?;
    }
    Ok(copy)
}
