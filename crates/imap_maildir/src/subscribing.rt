//! Subscriptions that other servers keep beside a Maildir.

use crate::faults::{pass_over, pass_over_failed};
use crate::kept_mailboxes::KeptMailboxes;
use crate::maildir_error::MaildirError;
use crate::progress::Progress;
use imap_keeper::Keeper;
use imap_maildir_names::{read_courier_subscriptions, read_subscriptions};
use imap_names::{Name, UserName};
use imap_values::beside;
use imap_world::{Effect, World};
use std::alloc::{AllocError, Global};
use std::fs;
use std::io::ErrorKind;
use std::rt::Files;

/// Subscribes the owner of a folder to the names in its files `subscriptions` and `courierimapsubscribed`. A
/// file that can't be read is passed over.
pub(crate) fn load_subscriptions<R: Files + AllocGlobal, K: Keeper, P: Progress>(
    rt: &R,
    kept: &mut KeptMailboxes<K>,
    folder: &str,
    owner: &UserName,
    faults: &mut u64,
    progress: &mut P,
) -> Result<(), MaildirError> {
    for file in ["subscriptions", "courierimapsubscribed"] {
        match subscribed_names(rt, folder, file, owner) {
            Ok(names) => subscribe_all(rt.alloc(), kept, folder, owner, &names, faults, progress)?,
            Err(error) => pass_over(progress, faults, error)?,
        }
    }
    Ok(())
}

/// Returns the names in the file of the folder, and none if there is no such file.
fn subscribed_names<R: Files + AllocGlobal>(
    rt: &R,
    folder: &str,
    file: &str,
    owner: &UserName,
) -> Result<Vec<Name>, MaildirError> {
    let path = format!(in rt.alloc(); "{folder}/{file}")?;
    let text = match fs::read_to_string(rt, path.as_str()) {
        Ok(text) => text,
        Err(error) => match error.kind() {
            ErrorKind::NotFound | ErrorKind::IsADirectory => String::new(rt.alloc()),
            kind => return Err(MaildirError::of_file(rt.alloc(), path.as_str(), kind)),
        },
    };
    if file == "subscriptions" {
        Ok(read_subscriptions(rt.alloc(), owner.as_str(), text.as_str())?)
    } else {
        Ok(read_courier_subscriptions(rt.alloc(), owner.as_str(), text.as_str())?)
    }
}

/// Subscribes the user to the names. One that the user can't subscribe to is passed over.
fn subscribe_all<K: Keeper, P: Progress>(
    alloc: Global,
    kept: &mut KeptMailboxes<K>,
    folder: &str,
    user: &UserName,
    names: &[Name],
    faults: &mut u64,
    progress: &mut P,
) -> Result<(), MaildirError> {
    for name in names {
        let done = subscribe(alloc, kept, folder, user, name);
        pass_over_failed(progress, faults, done)?;
    }
    Ok(())
}

/// Subscribes the user to the name, unless the user has subscribed to it. The error has the path of a file or folder.
pub(crate) fn subscribe<K: Keeper>(
    alloc: Global,
    kept: &mut KeptMailboxes<K>,
    path: &str,
    user: &UserName,
    name: &Name,
) -> Result<(), MaildirError> {
    if is_subscribed(kept.world(), user, name) {
        return Ok(());
    }
    let effect = subscription(user, name)?;
    match kept.make(alloc, effect) {
        Ok(()) => Ok(()),
        Err(fault) => Err(fault.of_folder(alloc, path)),
    }
}

fn subscription(user: &UserName, name: &Name) -> Result<Effect, AllocError> {
    let (user, name) = beside(user.try_copy(), name.try_copy()?)?;
    Ok(Effect::Subscribe(user, name))
}

fn is_subscribed(world: &World, user: &UserName, name: &Name) -> bool {
    match world.subscriptions(user.as_str()) {
        Some(names) => names.get(&name.as_ref()).is_some(),
        None => false,
    }
}
