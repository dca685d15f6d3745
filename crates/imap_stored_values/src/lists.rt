//! Lists of rows that are of no mailbox.

ghost use Rattle.std.specs.Prelude.{◌≡◌, ℕ, List, IfOk, Err};
ghost use Rattle.std.specs.List.{AllZip};
ghost use Rattle.imap_names.specs.Name.{Name};
ghost use Rattle.imap_stored_values.specs.Restored.{IsEpochFor, IsSubscriptionFor};
ghost use Rattle.imap_world.specs.Subscription.{Subscription};

use crate::names::read_key;
use imap_mailbox::PartsError;
use imap_names::Name;
use imap_tables::{StoredEpoch, StoredSubscription};
use imap_world::Subscription;
use std::alloc::Global;

/// A row that keeps one value of a list.
trait Listed: Sized {
    type Value: Drop;

    /// The row keeps the value.
    ghost keeps: { Self → Self.Value → Type 0 };

    /// Reads the value. Fails with `Bad` if the row keeps none.
    fn read(&self, alloc: Global) -> Result<Self::Value, PartsError>
        ensures ok { IfOk result (keeps self.now) }
        ensures bad { result ≡ Err PartsError.Bad → (it : Self.Value) → keeps self.now it → ⊥ };
}

impl Listed for StoredEpoch {
    type Value = (Name, u32);

    ghost keeps = { IsEpochFor };

    fn read(&self, alloc: Global) -> Result<(Name, u32), PartsError> {
        match read_key(alloc, &self.key) {
            Ok(name) => Ok((name, self.greatest)),
            Err(error) => Err(error),
        }
    }
}

impl Listed for StoredSubscription {
    type Value = Subscription;

    ghost keeps = { IsSubscriptionFor };

    fn read(&self, alloc: Global) -> Result<Subscription, PartsError> {
        let user = String::from_str(alloc, &self.user)?;
        match read_key(alloc, &self.key) {
            Ok(name) => Ok(Subscription::new(user, name)),
            Err(error) => Err(error),
        }
    }
}

/// Reads the rows, in their order. Fails with `Bad` if one of them keeps nothing.
#[tactic(auto, using(crate::proofs::Zipped::read_start))]
fn read_all<R: Listed>(alloc: Global, rows: &[R]) -> Result<Vec<R::Value>, PartsError>
    ensures ok { IfOk result (λ items. AllZip R.Listed.keeps rows.now items.items) }
    ensures bad { result ≡ Err PartsError.Bad
        → (items : List R.Value) → AllZip R.Listed.keeps rows.now items → ⊥ }
{
    let mut items = Vec::with_capacity(alloc, rows.len())?;
    'rows: for row in rows {
        let item = match row.read(alloc) {
            Ok(item) => item,
            Err(error) => return Err(error),
        };
        let Ok(()) = items.push(item) else {
            return Err(PartsError::Memory);
        };
    }
    Ok(items)
}

/// Reads the greatest UIDVALIDITY that was ever used under each name. Fails with `Bad` if a row names no
/// mailbox.
pub fn read_epochs(alloc: Global, rows: Vec<StoredEpoch>) -> Result<Vec<(Name, u32)>, PartsError>
    ensures ok { IfOk result (λ epochs. AllZip IsEpochFor rows.items epochs.items) }
    ensures bad { result ≡ Err PartsError.Bad
        → (epochs : List (Name × ℕ)) → AllZip IsEpochFor rows.items epochs → ⊥ }
{
    read_all(alloc, rows.as_slice())
}

/// Reads the names that users subscribed to. Fails with `Bad` if a row names no mailbox.
pub fn read_subscriptions(
    alloc: Global,
    rows: Vec<StoredSubscription>,
) -> Result<Vec<Subscription>, PartsError>
    ensures ok { IfOk result (λ names. AllZip IsSubscriptionFor rows.items names.items) }
    ensures bad { result ≡ Err PartsError.Bad
        → (names : List Subscription) → AllZip IsSubscriptionFor rows.items names → ⊥ }
{
    read_all(alloc, rows.as_slice())
}
