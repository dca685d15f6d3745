//! The flags that the name of a message's file has.

use crate::keyword_letters::LetteredKeyword;
use imap_mailbox::SharedFlags;
use std::alloc::{AllocError, Global};

/// The flags of a message, and whether it was seen.
#[derive(Drop)]
pub struct MessageFlags {
    pub shared: SharedFlags,
    pub seen: bool,
}

/// Returns the flags whose letters stand after `:2,` in the name of a message's file. Small letters stand for these
/// keywords, and other letters for nothing.
pub fn message_flags(
    alloc: Global,
    name: &str,
    keywords: &[LetteredKeyword],
) -> Result<MessageFlags, AllocError> {
    let mut flags = MessageFlags {
        shared: SharedFlags::new(alloc),
        seen: false,
    };
    if let Some((_, letters)) = name.rsplit_once(":2,") {
        for letter in letters.as_bytes() {
            insert(alloc, &mut flags, *letter, keywords)?;
        }
    }
    Ok(flags)
}

fn insert(
    alloc: Global,
    flags: &mut MessageFlags,
    letter: u8,
    keywords: &[LetteredKeyword],
) -> Result<(), AllocError> {
    match letter {
        b'D' => flags.shared.draft = true,
        b'F' => flags.shared.flagged = true,
        b'R' => flags.shared.answered = true,
        b'S' => flags.seen = true,
        b'T' => flags.shared.deleted = true,
        _ => {
            for keyword in keywords {
                if keyword.letter == letter {
                    flags.shared.keywords.insert(alloc, &keyword.word)?;
                }
            }
        }
    }
    Ok(())
}
