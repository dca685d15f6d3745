//! The folder of a mailbox.

ghost use Rattle.std.specs.Prelude.{◌≡◌, ◌∷◌, ◌++◌, flat_map, string_bytes, IfOk, OnOk};
ghost use Rattle.imap_names.specs.Name.{components, root_of};
ghost use Rattle.imap_names.specs.Text.{components_of};
ghost use Rattle.imap_names.specs.Tree.{root_of_tree};
ghost use Rattle.imap_maildir_names.specs.Folders.{folder_path, name_at, tree_path};
ghost use Rattle.imap_maildir_names.specs.Levels.{level_path};

use crate::levels::push_level;
use crate::unmarking::unmarked;
use imap_names::{Name, NameError, Tree, read_full};
use std::alloc::{AllocError, Global};

/// Returns the path of a mailbox's folder below another folder: its name in full, with a folder for each level.
///
/// `%` is written as `%25`. The first letter of a level is written as `%` and two hexadecimal digits if it is a dot, or
/// if a Maildir has a folder or a file of the level's name (`cur`, `new`, `tmp`, `dovecot-keywords`). A level that has
/// more than 255 octets then is continued in a folder below: the name of each of its folders but the last ends with a
/// `%` that no digits follow, and each begins with a letter that is written so.
pub fn mailbox_folder(alloc: Global, below: &str, name: &Name) -> Result<String, AllocError>
    ensures { IfOk result (λ folder. string_bytes folder ≡ below.now ++ 47 ∷ folder_path name.now) }
{
    let mut path = String::from_str(alloc, below)?;
    push_tree(alloc, &mut path, name.tree())?;
    push_levels(alloc, &mut path, name.path())?;
    Ok(path)
}

/// Appends a slash and the folders of a tree.
fn push_tree(alloc: Global, path: &mut String, tree: &Tree) -> Result<(), AllocError>
    ensures { let root = root_of_tree tree.now in
        OnOk result (string_bytes path.new ≡ string_bytes path.old ++ 47 ∷ tree_path root) }
{
    match tree {
        Tree::Shared => path.push_str("/Shared"),
        Tree::User(owner) => {
            path.push_str("/Other Users")?;
            push_level(alloc, path, owner.as_str())?;
            Ok(())
        }
    }
}

/// Appends a slash and the folders of a level for each level of the text.
fn push_levels(alloc: Global, path: &mut String, text: &str) -> Result<(), AllocError>
    ensures { let levels = components_of text.now in
        OnOk result (string_bytes path.new ≡ string_bytes path.old ++ flat_map level_path levels) }
{
    for level in text.split('/') {
        push_level(alloc, path, level)?;
    }
    Ok(())
}

/// Returns the mailbox whose folder has this path below another folder, as [`mailbox_folder`] writes it, or `None` if
/// none has. A `%` that two hexadecimal digits don't follow stands for itself.
pub fn mailbox_name(alloc: Global, path: &str) -> Result<Option<Name>, AllocError>
    ensures { IfOk result (λ found. found ≡ name_at path.now) }
{
    let text = unmarked(alloc, path)?;
    match read_full(alloc, text.as_bytes()) {
        Ok(name) => Ok(Some(name)),
        Err(NameError::Memory) => Err(AllocError),
        Err(_) => Ok(None),
    }
}
