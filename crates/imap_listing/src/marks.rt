//! What the lines of a listing say of names.
ghost use Rattle.std.specs.Prelude.{◌≡◌, map, IfOk};
ghost use Rattle.imap_listing.specs.Lines.{line_by};
ghost use Rattle.imap_listing.specs.Texts.{in_order, levels};

use crate::levels::levels_of;
use crate::line::Line;
use crate::ordered::OrderedNames;
use crate::shown_name::{ShownName, ShownRef};
use std::alloc::{AllocError, Global};

/// The names that are there, the levels above these, and the names that are subscribed to.
#[derive(Drop)]
pub(crate) struct Marks<'a> {
    pub(crate) there: OrderedNames<'a>,
    pub(crate) above: OrderedNames<'a>,
    pub(crate) subscribed: OrderedNames<'a>,
}

impl<'a> Marks<'a> {
    pub(crate) fn new(
        alloc: Global,
        there: &'a [ShownName],
        subscribed: &'a [ShownName],
    ) -> Result<Marks<'a>, AllocError>
        ensures there { IfOk result (λ marks. marks.there ≡ in_order there.now) }
        ensures above { IfOk result (λ marks. marks.above ≡ in_order (levels there.now)) }
        ensures subscribed { IfOk result (λ marks. marks.subscribed ≡ in_order subscribed.now) }
    {
        Ok(Marks {
            there: OrderedNames::of(alloc, there)?,
            above: levels_of(alloc, there)?,
            subscribed: OrderedNames::of(alloc, subscribed)?,
        })
    }

    /// The line of a name. `near` is a hint where it stands among those that are there.
    fn line(&self, alloc: Global, name: &ShownRef<'_>, near: &mut usize) -> Result<Line, AllocError>
        ensures { IfOk result (λ line.
            line ≡ line_by self.now.there self.now.above self.now.subscribed name.now) }
    {
        Ok(Line {
            name: name.to_shown(alloc)?,
            is_there: self.there.has_near(name, near),
            has_children: self.above.has(name),
            is_subscribed: self.subscribed.has(name),
        })
    }

    /// The lines of the names, in their order.
    pub(crate) fn lines(
        &self,
        alloc: Global,
        names: &[ShownRef<'_>],
    ) -> Result<Vec<Line>, AllocError>
        ensures { IfOk result (λ lines.
            lines.items ≡ map (line_by self.now.there self.now.above self.now.subscribed) names.now) }
    {
        let mut lines = Vec::with_capacity(alloc, names.len())?;
        let mut near = 0;
        for name in names {
            lines.push(self.line(alloc, name, &mut near)?)?;
        }
        Ok(lines)
    }
}
