//! A command that is to be answered.

ghost use Rattle.std.specs.Prelude.{◌≡◌, ◌∷◌, [], IfOk};
ghost use Rattle.std.specs.List.{AllByRecursion};
ghost use Rattle.imap_names.specs.Showing.{shown};
ghost use Rattle.imap_print.specs.Lines.{IsPlain, IsPrintable};
ghost use Rattle.imap_print.specs.declared.response.Response.TheVariants as response;
ghost use Rattle.imap_answer.specs.Answer as specs;
ghost use Rattle.imap_answer.specs.Name.{name_of_text};

use crate::answer::Answer;
use crate::moment::Moment;
use imap_lex::{Octets, Tag};
use imap_names::{Name, NameError, read_name, show_name};
use imap_print::{Code, Refusal, Response};
use imap_values::beside;
use imap_view::{Effect, View};
use std::alloc::{AllocError, Global};
use std::marker::Model;

/// The view of the user who gives a command, the command's tag, and the moment at which it is given.
#[derive(Drop)]
pub struct CommandContext<'a> {
    alloc: Global,
    view: &'a View<'a>,
    tag: &'a Tag,
    at: Moment,
}

impl<'a> Model for CommandContext<'a> {
    ghost use Rattle.imap_answer.specs.CommandContext as specs;

    ghost Value = { specs.CommandContext };

    ghost coded = { specs.context_code };

    ghost view = { λ context. record { view = context.view.now; tag = context.tag.now; at = context.at } };
}

impl<'a> CommandContext<'a> {
    /// The command with this tag, which the user of the view gives at the moment `at`. Answers take their
    /// memory from `alloc`.
    pub fn new(alloc: Global, view: &'a View<'a>, tag: &'a Tag, at: Moment) -> CommandContext<'a>
        ensures view { result.view ≡ view.now }
        ensures tag { result.tag ≡ tag.now }
        ensures at { result.at ≡ at }
    {
        CommandContext {
            alloc,
            view,
            tag,
            at,
        }
    }

    /// The allocator from which answers take their memory.
    pub fn alloc(&self) -> Global {
        self.alloc
    }

    /// What the user who gives the command may see.
    pub fn view(&self) -> &'a View<'a>
        ensures { result.now ≡ self.now.view }
    {
        self.view
    }

    /// The command's tag.
    pub fn tag(&self) -> &'a Tag
        ensures { result.now ≡ self.now.tag }
    {
        self.tag
    }

    /// The moment at which the command is given.
    pub fn at(&self) -> Moment
        ensures { result ≡ self.now.at }
    {
        self.at
    }

    /// Returns the name that the octets of a command mean to the user, or `None` if they mean none (RFC 9051,
    /// section 5.1).
    pub fn name(&self, mailbox: &Octets) -> Result<Option<Name>, AllocError>
        ensures { IfOk result (λ name. name ≡ name_of_text self.now.view mailbox.now) }
    {
        self.name_of_text(mailbox.as_slice())
    }

    /// Returns the name that the text means to the user, or `None` if it means none.
    pub fn name_of_text(&self, text: &[u8]) -> Result<Option<Name>, AllocError>
        ensures { IfOk result (λ name. name ≡ name_of_text self.now.view text.now) }
    {
        match read_name(self.alloc, self.view.user(), text) {
            Ok(name) => Ok(Some(name)),
            Err(NameError::Memory) => Err(AllocError),
            Err(_) => Ok(None),
        }
    }

    /// Returns the octets by which the user names the mailbox.
    pub fn shown(&self, name: &Name) -> Result<Octets, AllocError>
        ensures octets { IfOk result (λ mailbox. mailbox ≡ shown self.now.view.user name.now) }
        ensures plain { IsPlain (shown self.now.view.user name.now) }
    {
        let text = show_name(self.alloc, self.view.user(), name)?;
        Octets::from_vec(text.into_bytes())
    }

    /// The command was carried out and has no other response.
    pub fn done(&self) -> Result<Answer, AllocError>
        ensures { IfOk result (λ answer. answer ≡ specs.done self.now.tag) }
    {
        self.done_after(Vec::new(self.alloc))
    }

    /// The command was carried out, after these responses.
    pub fn done_after(&self, untagged: Vec<Response>) -> Result<Answer, AllocError>
        requires { AllByRecursion IsPrintable untagged.items }
        ensures { IfOk result (λ answer. answer ≡ specs.done_after untagged.items self.now.tag) }
    {
        self.carried_out(untagged, None, None)
    }

    /// The command was carried out, after this response.
    pub fn done_after_line(&self, line: Response) -> Result<Answer, AllocError>
        requires { IsPrintable line }
        ensures { IfOk result (λ answer. answer ≡ specs.done_after (line ∷ []) self.now.tag) }
    {
        self.done_after(vec![in self.alloc; line]?)
    }

    /// The command is carried out by the effect and has no other response.
    pub fn done_with(&self, effect: Effect) -> Result<Answer, AllocError>
        ensures { IfOk result (λ answer. answer ≡ specs.done_with self.now.tag effect) }
    {
        self.done_with_code(None, effect)
    }

    /// The command is carried out by the effect, which the last line says with a response code, if it has one.
    pub fn done_with_code(&self, code: Option<Code>, effect: Effect) -> Result<Answer, AllocError>
        ensures { IfOk result (λ answer. answer ≡ specs.done_with_code self.now.tag code effect) }
    {
        self.carried_out(Vec::new(self.alloc), code, Some(effect))
    }

    /// The command is carried out by the effect, if it has one, after these responses. The last line has the
    /// response code, if there is one.
    pub fn carried_out(
        &self,
        untagged: Vec<Response>,
        code: Option<Code>,
        effect: Option<Effect>,
    ) -> Result<Answer, AllocError>
        requires { AllByRecursion IsPrintable untagged.items }
        ensures { let answer = specs.carried_out untagged.items self.now.tag code effect in
            IfOk result (λ given. given ≡ answer) }
    {
        let line = done_line(self.alloc, self.tag, code);
        let (line, (untagged, effect)) = beside(line, (untagged, effect))?;
        Ok(Answer::new(self.alloc, untagged, line, effect))
    }

    /// The command was not carried out.
    pub fn refuse(&self, refusal: Refusal) -> Result<Answer, AllocError>
        ensures { IfOk result (λ answer. answer ≡ specs.refusal self.now.tag refusal) }
    {
        let line = refused_line(self.alloc, self.tag, refusal)?;
        Ok(Answer::new(self.alloc, Vec::new(self.alloc), line, None))
    }
}

/// The tagged line of a command that was carried out.
fn done_line(alloc: Global, tag: &Tag, code: Option<Code>) -> Result<Response, AllocError>
    ensures line { IfOk result (λ line. line ≡ response.Done tag.now code) }
    ensures printable { IsPrintable (response.Done tag.now code) }
{
    Ok(Response::Done {
        tag: tag.try_copy(alloc)?,
        code,
    })
}

/// The tagged line of a command that was not carried out (RFC 9051, section 7.1).
pub fn refused_line(alloc: Global, tag: &Tag, refusal: Refusal) -> Result<Response, AllocError>
    ensures line { IfOk result (λ response. response ≡ specs.refused_line tag.now refusal) }
    ensures printable { IsPrintable (specs.refused_line tag.now refusal) }
{
    Ok(Response::Refused {
        tag: Some(tag.try_copy(alloc)?),
        refusal,
    })
}
