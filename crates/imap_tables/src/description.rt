//! Descriptions of the parts of a schema.

ghost use Rattle.std.specs.Prelude.{◌≡◌, ◌↔◌, IsTrue, map};

/// A description of a part of a schema.
pub(crate) trait Description: Sized {
    type Part;

    /// The part that it describes.
    ghost described: { Self → Self.Part };

    /// Whether it describes this part.
    fn describes(&self, part: &Self::Part) -> bool
        ensures { IsTrue result ↔ (part.now ≡ described self.now) };
}

/// Whether the descriptions describe the parts, in their order.
pub(crate) fn describe_all<D: Description>(mut descriptions: &[D], mut parts: &[D::Part]) -> bool
    ensures { IsTrue result
        ↔ (parts.entry.now ≡ map D.Description.described descriptions.entry.now) }
{
    while let [part, other_parts @ ..] = parts {
        let [description, others @ ..] = descriptions else {
            return false;
        };
        if !description.describes(part) {
            return false;
        }
        parts = other_parts;
        descriptions = others;
    }
    descriptions.is_empty()
}
