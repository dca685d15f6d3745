//! Copies and equality of values, and values that are handed on while memory may run out.
//!
//! A copy may want memory, and is equal. An equality says exactly whether two values are the same, as
//! contracts see them: the `==` of a derived `PartialEq` has no clause that does.
#![tactic(auto)]

mod copy;
mod owned;
mod same;

pub use copy::{TryCopy, copy_two};
pub use owned::{beside, joined, pushed};
pub use same::{Same, same_five, same_four, same_three, same_two};
