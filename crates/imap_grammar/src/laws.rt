//! Laws of every frame and every request.

ghost use Rattle.imap_commands.specs.Spells.{EachSpells, SpellsOnce};
ghost use Rattle.imap_commands.specs.OneCommand.{EachCommandIsOne};
ghost use Rattle.imap_commands.specs.WrittenFrames.{EachIsTold};

/// Each frame spells a request, and only one.
pub fn one_request()
    ensures some { EachSpells }
    ensures once { SpellsOnce }
{}

/// The octets that `write_command` writes are lines and literals. Within its limits a framer returns them as
/// one frame, and before it a `Continue` for each literal.
pub fn written_is_told()
    ensures { EachIsTold }
{}

/// The octets of each command are lines that announce literals, each with its literal, and a last line.
/// Within its limits a framer returns them as one frame.
pub fn one_command()
    ensures { EachCommandIsOne }
{}
