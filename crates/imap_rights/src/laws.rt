//! Theorems on the definitions that the contracts cite. The functions do nothing.
ghost use Rattle.imap_rights.specs.Laws.{AnothersListGivesNothing, IdentifiersAreRead, LettersAreRead};
ghost use Rattle.imap_rights.specs.Laws.{MembersAreThoseAdded, OrderOfMembersIsLost, RightsAreThoseGiven};

/// The octets of an identifier are read as that identifier.
pub fn identifiers_are_read()
    ensures { IdentifiersAreRead }
{}

/// The letters of rights are read as the same rights.
pub fn letters_are_read()
    ensures { LettersAreRead }
{}

/// The rights that a user has, right by right.
pub fn rights_are_those_given()
    ensures { RightsAreThoseGiven }
{}

/// What a list by which one user alone has rights gives to another.
pub fn anothers_list_gives_nothing()
    ensures { AnothersListGivesNothing }
{}

/// The members of groups are the users that were added.
pub fn members_are_those_added()
    ensures { MembersAreThoseAdded }
{}

/// Users may be put into groups in any order.
pub fn order_of_members_is_lost()
    ensures { OrderOfMembersIsLost }
{}
