//! What is to be done for a piece of a text: a stretch stays as it is, and a match with a handler
//! is handled.
ghost use Rattle.std.specs.Prelude.{◌≡◌, ◌<◌, ◌&&◌, IfOk};
ghost use Rattle.shortcode_scan.specs.Spans.{HasSpansOf, IsSpanOf, inner_span};
ghost use Rattle.hook_meaning.specs.Meaning.{Invocation, handler_call, piece_pass};
ghost use Rattle.hook_machine.specs.declared.run.pieces.Work.TheVariants.{Shown};
ghost use Rattle.hook_machine.specs.Works.{work_pass, LiesIn};

use crate::run::frames::Invoked;
use crate::run::stack::Stack;
use crate::state::State;
use hook_changes::CallbackId;
use shortcode_scan::{Piece, Span, text_at};
use std::alloc::{AllocError, Global};

/// A match that has a handler: the stretch of its name, and its extra brackets.
#[derive(Clone, Copy)]
pub struct Matched {
    pub name: Span,
    pub opening: bool,
    pub closing: bool,
}

/// What is to be done for a piece.
#[derive(Drop)]
pub enum Work {
    /// A stretch of the text, which stays as it is.
    Shown(Span),
    /// The answer of a tag's handler, between the match's extra brackets and filtered.
    Handled { invoked: Invoked, matched: Matched },
}

/// Makes the invocation of a shortcode's handler.
fn invocation_of_handler(
    alloc: Global,
    stack: &mut Stack,
    handler: CallbackId,
    text: &str,
    name: Span,
    atts: Span,
    content: Span,
) -> Result<Invoked, AllocError>
    requires name { IsSpanOf text.now name }
    requires atts { IsSpanOf text.now atts }
    requires content { IsSpanOf text.now content }
    ensures callback { IfOk result (λ invoked. invoked.callback ≡ handler) }
    ensures call { IfOk result (λ invoked. invoked.call ≡ handler_call text.now name atts content) }
    ensures stack { stack.new ≡ stack.old }
{
    let mut invoked = stack.spare(alloc)?;
    let tag = text_at(text, name);
    let atts = text_at(text, atts);
    let content = text_at(text, content);
    invoked.set_handler_call(alloc, handler, tag, atts, content)?;
    Ok(invoked)
}

/// Returns whether a match is escaped, by an extra bracket at both ends.
fn is_escaped(opening_extra: bool, closing_extra: bool) -> bool
    ensures { result ≡ opening_extra && closing_extra }
{
    opening_extra && closing_extra
}

/// Returns the span of a match without its first and last byte.
fn without_brackets(whole: Span) -> Span
    requires { whole.start < whole.end }
    ensures { result ≡ inner_span whole }
{
    Span {
        start: whole.start + 1,
        end: whole.end - 1,
    }
}

/// Returns what is to be done for a piece, by the handler that its tag has now.
pub fn work_of_piece(
    state: &mut State,
    stack: &mut Stack,
    text: &str,
    piece: &Piece,
) -> Result<Work, AllocError>
    requires { HasSpansOf text.now piece.now }
    ensures work { IfOk result (λ work. (invocation : Invocation) →
        piece_pass invocation text.now state.old piece.now
        ≡ work_pass invocation text.now state.old work) }
    ensures state { state.new ≡ state.old }
    ensures stack { stack.new ≡ stack.old }
    ensures span { IfOk result (λ work. LiesIn text.now work) }
{
    match *piece {
        Piece::Plain(span) => Ok(Work::Shown(span)),
        Piece::Match {
            whole,
            name,
            atts,
            content,
            opening_extra,
            closing_extra,
        } => {
            if is_escaped(opening_extra, closing_extra) {
                return Ok(Work::Shown(without_brackets(whole)));
            }
            let Some(handler) = state.handler(text_at(text, name)) else {
                return Ok(Work::Shown(whole));
            };
            let alloc = state.alloc();
            let invoked = invocation_of_handler(alloc, stack, handler, text, name, atts, content)?;
            Ok(Work::Handled {
                invoked,
                matched: Matched {
                    name,
                    opening: opening_extra,
                    closing: closing_extra,
                },
            })
        }
    }
}
