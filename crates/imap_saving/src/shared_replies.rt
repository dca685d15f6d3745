//! Replies that the journal and receipts share.

ghost use Rattle.std.specs.Prelude.{◌≡◌, IfOk};

use imap_print::Response;
use imap_syntax::Items;
use std::alloc::{AllocError, Global};
use std::marker::Model;
use std::sync::Arc;

/// The replies to one step. A copy shares them.
pub struct SharedReplies(Arc<Items<Response>>);

// Not derived: a derived one is proved anew in each crate that lets go of one.
impl Drop for SharedReplies {
    fn drop(self) {
        let SharedReplies(_) = self;
    }
}

impl Model for SharedReplies {
    ghost use Rattle.std.specs.Prelude.{List};
    ghost use Rattle.std.specs.Arc.{arc_value};
    ghost use Rattle.imap_print.specs.declared.response.Response.{Response};

    ghost Value = { List Response };

    ghost view = { λ r. arc_value r.0 };
}

impl SharedReplies {
    /// Returns replies for copies to share, without copying them.
    pub fn new(alloc: Global, replies: Vec<Response>) -> Result<SharedReplies, AllocError>
        ensures { IfOk result (λ shared. shared ≡ replies.items) }
    {
        Ok(SharedReplies(Arc::new(alloc, Items::from_vec(replies))?))
    }

    /// Returns the replies.
    pub fn as_slice(&self) -> &[Response]
        ensures { result.now ≡ self.now }
    {
        self.0.as_slice()
    }

    /// Returns the same replies, without copying them.
    pub fn try_copy(&self) -> Result<SharedReplies, AllocError>
        ensures { IfOk result (λ copy. copy ≡ self.now) }
    {
        Ok(SharedReplies(Arc::try_clone(&self.0)?))
    }
}
