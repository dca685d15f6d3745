//! Parameters of fields, written (RFC 9051, section 9, `body-fld-param`).

ghost use Rattle.std.specs.Prelude.{◌≡◌, ◌++◌, OnOk, map};
ghost use Rattle.imap_print.specs.Words.{before_each};
ghost use Rattle.imap_structure.specs.Single.{param_text, params_text};

use crate::media::Param;
use imap_mime::push_string;
use std::alloc::AllocError;

fn push_param(out: &mut Vec<u8>, param: &Param) -> Result<(), AllocError>
    ensures { OnOk result (out.new.items ≡ out.old.items ++ param_text param.now) }
{
    push_string(out, param.name.as_slice())?;
    out.push(b' ')?;
    push_string(out, param.value.as_slice())
}

fn push_further(out: &mut Vec<u8>, params: &[Param]) -> Result<(), AllocError>
    ensures { OnOk result (out.new.items ≡ out.old.items ++ before_each 32 (map param_text params.now)) }
{
    for param in params {
        out.push(b' ')?;
        push_param(out, param)?;
    }
    Ok(())
}

/// Appends the parameters in parentheses, or NIL if there are none.
pub(crate) fn push_params(out: &mut Vec<u8>, params: &[Param]) -> Result<(), AllocError>
    ensures { OnOk result (out.new.items ≡ out.old.items ++ params_text params.now) }
{
    match params {
        [first, further @ ..] => {
            out.push(b'(')?;
            push_param(out, first)?;
            push_further(out, further)?;
            out.extend_from_slice(b")")
        }
        [] => out.extend_from_slice(b"NIL"),
    }
}
