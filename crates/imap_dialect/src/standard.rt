//! The server's own dialect.

ghost use Rattle.imap_dialect.specs.Telling.{standard};
ghost use Rattle.imap_print.specs.Printed.{line};

use crate::dialect::Dialect;
use imap_lex::Frame;
use imap_print::{Pieces, Response, print_line};
use std::alloc::{AllocError, Global};

/// Hands every frame on, and prints every reply.
#[derive(Clone, Copy)]
pub struct Standard;

impl Dialect for Standard {
    type Rule = ();

    ghost telling = { standard };

    ghost octets = { λ _ reply. line reply };

    fn rewrite(&self, _alloc: Global, _frame: &Frame) -> Result<Option<Frame>, AllocError> {
        Ok(None)
    }

    fn rule(&self, _alloc: Global, _by: Option<&Frame>) -> Result<(), AllocError> {
        Ok(())
    }

    fn tell(_rule: &(), reply: &Response, out: &mut Pieces) -> Result<(), AllocError> {
        print_line(out, reply)
    }

    fn advance(&mut self, _frame: &Frame, _replies: &[Response]) {}
}
