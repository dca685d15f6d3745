//! What holds of every listing.

ghost use Rattle.imap_listing.specs.Laws.{LevelsNeedPercent, ListingIsExact, ListingIsOne};
ghost use Rattle.imap_listing.specs.Laws.{OrderMakesNoDifference, SubscribedListingIsExact};

use imap_names::laws::{match_is_tested, percent_is_tested};

/// A name is listed exactly if the user holds `l` on its mailbox and a pattern matches it, or if it is a
/// level above a mailbox with `l` and a pattern that ends in `%` matches it. It has one line, with the attributes of
/// the name.
pub fn listing_is_exact()
    ensures { ListingIsExact }
{
    match_is_tested();
    percent_is_tested();
}

/// With the selection option SUBSCRIBED a name is listed exactly if the user subscribed to it and a
/// pattern matches it.
pub fn subscribed_listing_is_exact()
    ensures { SubscribedListingIsExact }
{
    match_is_tested();
    percent_is_tested();
}

/// Two lists of lines that are both a listing of a view for the same patterns are equal.
pub fn listing_is_one()
    ensures { ListingIsOne }
{}

/// The order of the patterns, and a pattern that is given again, make no difference.
pub fn order_makes_no_difference()
    ensures { OrderMakesNoDifference }
{}

/// Without a pattern that ends in `%`, all that is listed is there.
pub fn levels_need_percent()
    ensures { LevelsNeedPercent }
{
    match_is_tested();
    percent_is_tested();
}
