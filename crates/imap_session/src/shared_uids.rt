//! UIDs that copies of a known list share.
//!
//! No clause of `Arc` says that it has one owner, so UIDs that may be changed stand beside it.

ghost use Rattle.std.specs.Prelude.{◌≡◌, ◌≤◌, ◌+◌, true, false, IfErr, IfOk, IfSome, None, OnOk};
ghost use Rattle.std.specs.Arc.{arc_value};
ghost use Rattle.imap_session.specs.Shared.{uids_in, room_at};

use crate::uids::copy_uids;
use std::alloc::{AllocError, Global};
use std::mem;
use std::sync::Arc;

/// The UIDs of a known list.
#[derive(Drop)]
pub(crate) enum Place {
    /// They may be changed. The pointer takes them again without memory.
    Own(Vec<u32>, Option<Arc<Vec<u32>>>),
    /// Copies share them.
    Shared(Arc<Vec<u32>>),
}

/// Returns a place of UIDs that copies share.
pub(crate) fn shared(alloc: Global, uids: Vec<u32>) -> Result<Place, AllocError>
    ensures { IfOk result (λ place. uids_in place ≡ uids.items) }
{
    Ok(Place::Shared(Arc::new(alloc, uids)?))
}

/// Takes the UIDs out if no copy shares them.
fn take(alloc: Global, pointer: &mut Arc<Vec<u32>>) -> Option<Vec<u32>>
    ensures taken { IfSome result (λ uids. uids ≡ arc_value pointer.old) }
    ensures left { result ≡ None → arc_value pointer.new ≡ arc_value pointer.old }
{
    match Arc::get_mut(pointer) {
        Some(uids) => Some(mem::replace(uids, Vec::new(alloc))),
        None => None,
    }
}

/// Takes the UIDs out. Copies them if a copy shares them.
fn take_or_copy(alloc: Global, pointer: &mut Arc<Vec<u32>>) -> Result<Vec<u32>, AllocError>
    ensures list { IfOk result (λ uids. uids.items ≡ (arc_value pointer.old).items) }
    ensures left { IfErr result (λ _. arc_value pointer.new ≡ arc_value pointer.old) }
{
    match take(alloc, pointer) {
        Some(uids) => Ok(uids),
        None => copy_uids(alloc, pointer.as_slice()),
    }
}

/// Makes the UIDs ready to be changed. Copies them if a copy shares them.
pub(crate) fn make_own(place: &mut Place) -> Result<(), AllocError>
    ensures list { uids_in place.new ≡ uids_in place.old }
    ensures ok { OnOk result (1 ≤ room_at place.new) }
    ensures room { room_at place.old ≤ room_at place.new }
{
    match place {
        Place::Own(_, _) => Ok(()),
        Place::Shared(pointer) => {
            let alloc = *pointer.allocator();
            let empty = Arc::new(alloc, Vec::new(alloc))?;
            let uids = take_or_copy(alloc, pointer)?;
            *place = Place::Own(uids, Some(empty));
            Ok(())
        }
    }
}

/// Makes room for `more` UIDs, if they may be changed.
pub(crate) fn reserve_in(place: &mut Place, more: usize) -> Result<(), AllocError>
    ensures items { uids_in place.new ≡ uids_in place.old }
    ensures ok { OnOk result (1 ≤ room_at place.old → more + 1 ≤ room_at place.new) }
    ensures room { room_at place.old ≤ room_at place.new }
{
    match place {
        Place::Own(uids, _) => uids.reserve(more),
        Place::Shared(_) => Ok(()),
    }
}

/// Puts the UIDs into the pointer, if no other has it.
fn put(pointer: &mut Arc<Vec<u32>>, uids: &mut Vec<u32>) -> bool
    ensures put { result ≡ true → arc_value pointer.new ≡ uids.old }
    ensures left { result ≡ false → uids.new ≡ uids.old }
{
    match Arc::get_mut(pointer) {
        Some(kept) => {
            mem::swap(kept, uids);
            true
        }
        None => false,
    }
}

/// Lets copies share the UIDs.
pub(crate) fn share_in(place: &mut Place)
    ensures { uids_in place.new ≡ uids_in place.old }
{
    match place {
        Place::Own(uids, empty) => match mem::replace(empty, None) {
            Some(mut pointer) => {
                if put(&mut pointer, uids) {
                    *place = Place::Shared(pointer);
                }
            }
            None => {}
        },
        Place::Shared(_) => {}
    }
}
