//! What a name becomes when a name above it is renamed (RFC 9051, section 6.3.6).
ghost use Rattle.std.specs.Prelude.{◌≡◌, ◌+◌, ◌≤◌, ◌++◌, ℕ, List, true, length, drop, take, IfOk};
ghost use Rattle.std.specs.Arc.{arc_str_bytes};
ghost use Rattle.imap_names.specs.Name.{components, path_of};
ghost use Rattle.imap_names.specs.Order.{is_within, moved};
ghost use Rattle.imap_names.specs.Valid.{fits, if_fits, max_path_octets};

use crate::name::{MAX_DEPTH, MAX_PATH_OCTETS, Name};
use crate::name_ref::NameRef;
use std::alloc::{AllocError, Global};
use std::str;
use std::sync::ArcStr;

impl Name {
    /// What this name, which is `old` or below it, becomes when `old` becomes `new` (RFC 9051, section
    /// 6.3.6). `None` if that has too many octets or components.
    pub fn moved(&self, alloc: Global, old: &Name, new: &Name) -> Result<Option<Name>, AllocError>
        requires { is_within old.now self.now ≡ true }
        ensures { IfOk result (λ name. name ≡ if_fits (moved old.now new.now self.now)) }
    {
        if !fits_moved(self, old, new) {
            return Ok(None);
        }
        let tree = new.tree().try_copy()?;
        let path = with_front(alloc, self.path(), old.path(), new.path())?;
        Ok(Some(Name { tree, path }))
    }

    /// As [`Name::moved`], without memory: the path is written into `room`, which has at least
    /// [`MAX_PATH_OCTETS`] octets.
    pub fn moved_in<'a>(&self, room: &'a mut [u8], old: &Name, new: &'a Name) -> Option<NameRef<'a>>
        requires within { is_within old.now self.now ≡ true }
        requires room { max_path_octets ≤ length room.old }
        ensures { result ≡ if_fits (moved old.now new.now self.now) }
    {
        if !fits_moved(self, old, new) {
            return None;
        }
        let front = new.path();
        let rest = rest_after(self.path(), old.path());
        let path = joined_in(room, front, rest);
        Some(NameRef::new(new.tree().root(), path))
    }
}

/// What follows `front` in the path.
fn rest_after<'a>(path: &'a str, front: &str) -> &'a str
    requires { (rest : List ℕ) × (path.now ≡ front.now ++ rest) }
    ensures { result.now ≡ drop (length front.now) path.now }
{
    match path.strip_prefix(front) {
        Some(rest) => rest,
        None => unreachable!(),
    }
}

/// The text `front` and then `rest`, in `room`.
fn joined_in<'a>(room: &'a mut [u8], front: &str, rest: &str) -> &'a str
    requires { length front.now + length rest.now ≤ length room.old }
    ensures { result.now ≡ front.now ++ rest.now }
{
    write_joined(room, front.as_bytes(), rest.as_bytes());
    match str::from_utf8(&room[..front.len() + rest.len()]) {
        Ok(text) => text,
        // Two texts joined are text.
        Err(_) => unreachable!(),
    }
}

/// Writes `front` and then `rest` at the begin of `room`.
fn write_joined(room: &mut [u8], front: &[u8], rest: &[u8])
    requires { length front.now + length rest.now ≤ length room.old }
    ensures octets { take (length front.now + length rest.now) room.new ≡ front.now ++ rest.now }
    ensures len { length room.new ≡ length room.old }
{
    let len = front.len();
    room[..len].copy_from_slice(front);
    room[len..len + rest.len()].copy_from_slice(rest);
}

/// Whether what `name` becomes has few enough octets and components.
fn fits_moved(name: &Name, old: &Name, new: &Name) -> bool
    requires { is_within old.now name.now ≡ true }
    ensures { result ≡ fits (moved old.now new.now name.now) }
{
    let octets = moved_octets(name, old, new);
    let depth = moved_depth(name, old, new);
    octets <= MAX_PATH_OCTETS && depth <= MAX_DEPTH
}

/// How many octets the path of `name` has when `old` becomes `new`.
fn moved_octets(name: &Name, old: &Name, new: &Name) -> usize
    requires { is_within old.now name.now ≡ true }
    ensures { result ≡ length (path_of (moved old.now new.now name.now)) }
{
    new.path().len() + name.path().len() - old.path().len()
}

/// How many components the path of `name` has when `old` becomes `new`.
fn moved_depth(name: &Name, old: &Name, new: &Name) -> usize
    requires { is_within old.now name.now ≡ true }
    ensures { result ≡ length (components (moved old.now new.now name.now)) }
{
    new.as_ref().depth() + name.as_ref().depth() - old.as_ref().depth()
}

/// The text `path` with the front `new` in place of `old`.
fn with_front(alloc: Global, path: &str, old: &str, new: &str) -> Result<ArcStr, AllocError>
    requires { (rest : List ℕ) × (path.now ≡ old.now ++ rest) }
    ensures { IfOk result (λ text. arc_str_bytes text ≡ new.now ++ drop (length old.now) path.now) }
{
    let rest = rest_after(path, old);
    ArcStr::from_string(format!(in alloc; "{new}{rest}")?)
}
