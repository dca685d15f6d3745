//! FETCH lines.

ghost use Rattle.std.specs.Prelude.{◌≡◌, [], ◌∷◌, ◌++◌, OnOk};
ghost use Rattle.std.specs.List.{AllByRecursion};
ghost use Rattle.imap_print.specs.Lines.{IsPrintable};

use imap_print::Response;
use std::alloc::{AllocError, Global};
use std::marker::Model;

/// Lines of messages that changed. A client reads each as one line, whatever keywords are in it.
#[derive(Drop)]
pub(crate) struct FetchLines {
    lines: Vec<Response>,
}

impl Model for FetchLines {
    ghost use Rattle.std.specs.Prelude.{List};
    ghost use Rattle.std.specs.Coded.{coded_list};
    ghost use Rattle.std.specs.List.{AllByRecursion};
    ghost use Rattle.imap_print.specs.Lines.{IsPrintable};
    ghost use Rattle.imap_print.specs.contracts.response.Response.{the_row as response_row};
    ghost use Rattle.imap_print.specs.declared.response.Response.{Response};

    ghost Value = { List Response };

    ghost coded = { coded_list response_row.coded };

    ghost view = { λ lines. lines.lines.items };

    ghost invariant = { λ lines. AllByRecursion IsPrintable lines.lines.items };
}

impl FetchLines {
    pub(crate) fn new(alloc: Global) -> FetchLines
        ensures { result ≡ [] }
    {
        FetchLines {
            lines: Vec::new(alloc),
        }
    }

    pub(crate) fn push(&mut self, line: Response) -> Result<(), AllocError>
        requires { IsPrintable line }
        ensures { OnOk result (self.new ≡ self.old ++ line ∷ []) }
    {
        self.lines.push(line)?;
        Ok(())
    }

    pub(crate) fn into_vec(self) -> Vec<Response>
        ensures items { result.items ≡ self }
        ensures printable { AllByRecursion IsPrintable result.items }
    {
        let FetchLines { lines } = self;
        lines
    }
}
