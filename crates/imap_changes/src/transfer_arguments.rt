//! The arguments of COPY and MOVE.

use crate::transfer_kind::TransferKind;
use imap_lex::Octets;
use imap_syntax::{MessageSet, Numbering};
use std::marker::Model;

/// The arguments of COPY or MOVE, as they stand in the command.
#[derive(Drop)]
pub struct TransferArguments<'a> {
    pub kind: TransferKind,
    pub numbering: Numbering,
    pub messages: &'a MessageSet,
    /// The mailbox into which the messages are copied.
    pub mailbox: &'a Octets,
}

impl<'a> Model for TransferArguments<'a> {
    ghost use Rattle.std.specs.Prelude.{ℕ, List, refl};
    ghost use Rattle.std.specs.Coded.{code_by, codes};
    ghost use Rattle.imap_changes.specs.Transfer as specs;
    ghost use Rattle.imap_changes.specs.contracts.transfer_kind.TransferKind.{the_row as kind_row};
    ghost use Rattle.imap_changes.specs.declared.transfer_kind.TransferKind.{TransferKind};
    ghost use Rattle.imap_syntax.specs.contracts.set.MessageSet.{the_row as messages_row};
    ghost use Rattle.imap_syntax.specs.contracts.set.Numbering.{the_row as numbering_row};
    ghost use Rattle.imap_syntax.specs.declared.set.MessageSet.{MessageSet};
    ghost use Rattle.imap_syntax.specs.declared.set.Numbering.{Numbering};

    ghost Value = { specs.TransferArguments };

    ghost coded = { code_by (TransferKind × (Numbering × (MessageSet × List ℕ)))
        (Prim.hlevel (codes, kind_row.coded, numbering_row.coded, messages_row.coded))
        (λ t. (t.kind, (t.numbering, (t.messages, t.mailbox))))
        (λ p. record { kind = p.0; numbering = p.1.0; messages = p.1.1.0; mailbox = p.1.1.1 }) (λ _. refl) };

    ghost view = { λ t. record {
      kind = t.kind;
      numbering = t.numbering;
      messages = t.messages.now;
      mailbox = t.mailbox.now;
    } };
}
