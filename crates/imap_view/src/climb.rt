//! What is made with a name, found in one climb to the root of its tree.

ghost use Rattle.std.specs.Prelude.{◌≡◌, ◌||◌, ◌&&◌, false, nat_lt};
ghost use Rattle.imap_view.specs.Seen.{is_root};
ghost use Rattle.imap_view.specs.TreeAfter.{is_known, missing_in, validities_left};
ghost use Rattle.imap_view.specs.View.{may_know_name_in, shows_names_below};
ghost use Rattle.imap_world.specs.World.{epoch, max_validity};

use crate::view::View;
use imap_names::NameRef;

/// What the user knows of a name.
#[derive(Clone, Copy)]
struct Climb {
    /// Whether the user may know if the name is in use.
    may_know: bool,
    /// Whether a UIDVALIDITY is left for each mailbox that is made with the name.
    are_left: bool,
}

impl<'a> View<'a> {
    /// Whether a UIDVALIDITY is left for each mailbox that is made with the name, as far as the user may
    /// know: for the name and its superiors, up to the nearest one that the user knows of.
    pub fn are_validities_left(&self, name: &NameRef<'_>) -> bool
        requires { is_root name.now ≡ false }
        ensures { result ≡ validities_left self.now (missing_in self.now name.now) }
    {
        self.climb(name).are_left
    }

    /// Finds both of the name, by what is found of its superior.
    fn climb(&self, name: &NameRef<'_>) -> Climb
        requires { is_root name.now ≡ false }
        ensures may_know { result.may_know ≡ may_know_name_in self.now name.now }
        ensures left { result.are_left ≡ validities_left self.now (missing_in self.now name.now) }
    {
        match name.superior() {
            Some(above) => {
                let climb = self.climb(&above);
                let may_know = self.may_know_below(&above, climb.may_know);
                self.climb_to(name, may_know, climb.are_left)
            }
            None => self.climb_to(name, self.owns_tree(name), true),
        }
    }

    /// Whether the user may know if names right below `above` are in use. `may_know` says whether the user
    /// may know so of `above`.
    fn may_know_below(&self, above: &NameRef<'_>, may_know: bool) -> bool
        requires { is_root above.now ≡ false }
        ensures { let view = self.now in
            result ≡ (shows_names_below view.site view.user view.seen above.now || may_know) }
    {
        self.shows_names_below(above) || may_know
    }

    /// Finds both of the name. `are_left_above` says whether its superior can be made.
    fn climb_to(&self, name: &NameRef<'_>, may_know: bool, are_left_above: bool) -> Climb
        requires { may_know ≡ may_know_name_in self.now name.now }
        ensures may_know { result.may_know ≡ may_know }
        ensures left { let left = nat_lt (epoch self.now.epochs name.now) max_validity in
            result.are_left ≡ (is_known self.now name.now || (are_left_above && left)) }
    {
        let are_left = self.are_left_by(name, may_know, are_left_above);
        Climb { may_know, are_left }
    }

    fn are_left_by(&self, name: &NameRef<'_>, may_know: bool, are_left_above: bool) -> bool
        requires { may_know ≡ may_know_name_in self.now name.now }
        ensures { let left = nat_lt (epoch self.now.epochs name.now) max_validity in
            result ≡ (is_known self.now name.now || (are_left_above && left)) }
    {
        self.is_known_by(name, may_know) || (are_left_above && self.is_left_by(name, may_know))
    }

    fn is_known_by(&self, name: &NameRef<'_>, may_know: bool) -> bool
        requires { may_know ≡ may_know_name_in self.now name.now }
        ensures { result ≡ is_known self.now name.now }
    {
        self.seen(name).is_some() || self.is_taken_by(name, may_know)
    }
}
