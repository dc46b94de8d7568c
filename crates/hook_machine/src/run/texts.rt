//! Texts as frames of a run: each shortcode's handler is invoked, and what it answers replaces the
//! shortcode.
//!
//! `passes` says what the functions of all frames have in common.
ghost use Rattle.std.specs.Prelude.{◌≡◌, ◌++◌, ◌∷◌, [], None, Some, IsTrue, IsFalse};
ghost use Rattle.std.specs.Prelude.{IfErr, IfOk, IfSome, IsSome, MatchOption, OnOk};
ghost use Rattle.shortcode_scan.specs.Spans.{IsSpanOf};
ghost use Rattle.hook_registry.specs.Table.{has};
ghost use Rattle.hook_changes.specs.declared.reply.Then.TheVariants.{Answer};
ghost use Rattle.hook_machine.specs.declared.run.frames.Move.TheVariants.{Turned};
ghost use Rattle.hook_machine.specs.declared.run.frames.Pending.TheVariants.{Next};
ghost use Rattle.hook_meaning.specs.World.{World};
ghost use Rattle.hook_meaning.specs.Trace.{Done};
ghost use Rattle.hook_meaning.specs.Meaning.{Invocation, invoke, text_at, shortcode_filter};
ghost use Rattle.hook_meaning.specs.Meaning.{pieces_pass, shortcodes_pass};
ghost use Rattle.hook_machine.specs.Outcomes.{engine_over};
ghost use Rattle.hook_machine.specs.Works.{between_brackets};
ghost use Rattle.hook_machine.specs.Rest.{text_left, text_handed, in_place};
ghost use Rattle.hook_machine.specs.Handling.{handling_pass};
ghost use Rattle.hook_machine.specs.Moves.{Does, AddsWeight, room_of_match};

use crate::run::cut::Cut;
use crate::run::frames::{Frame, Invoked, Move, Pace, Pending, Went};
use crate::run::passes::{begin_filter, invoke};
use crate::run::pieces::{Matched, Work, work_of_piece};
use crate::run::stack::Stack;
use crate::state::{SHORTCODE_FILTER, State};
use callback_store::{Plugins, Stated};
use content_cache::PieceCache;
use hook_changes::{CoreHook, Listed, Text, Then};
use hook_meaning::RunFault;
use shortcode_scan::{Piece, Span, text_at};
use std::alloc::{AllocError, Global};
use std::marker::Model;
use std::mem;

/// What a shortcode pass has: the pieces left of its text, and the text that the others have
/// become.
#[derive(Drop)]
struct TextParts {
    cut: Cut,
    so_far: Text,
    /// The match whose handler was invoked; `None` once that has answered, also while its answer is
    /// filtered.
    hand: Option<Matched>,
}

/// A shortcode pass. Its parts are on the heap, like those of each frame.
#[derive(Drop)]
pub struct TextPass {
    parts: Box<TextParts>,
}

impl Model for TextPass {
    ghost use Rattle.std.specs.Prelude.{IfSome};
    ghost use Rattle.shortcode_scan.specs.Spans.{IsSpanOf};
    ghost use Rattle.hook_machine.specs.Cuts.{PassOverText};

    ghost Value = { PassOverText };

    ghost view = { λ p. record {
      cut = p.parts.value.cut;
      so_far = p.parts.value.so_far;
      hand = p.parts.value.hand;
    } };

    ghost invariant = { λ p. IfSome p.parts.value.hand
        (λ matched. IsSpanOf p.parts.value.cut.text matched.name) };
}

impl TextPass {
    ghost use Rattle.std.specs.Prelude.{◌≡◌, ◌++◌, [], None, Some, IsTrue, IsFalse, IfOk, IfSome};
    ghost use Rattle.std.specs.Prelude.{OnOk, MatchOption};
    ghost use Rattle.shortcode_scan.specs.Spans.{IsSpanOf};
    ghost use Rattle.hook_meaning.specs.Meaning.{Invocation, pieces_pass};
    ghost use Rattle.hook_machine.specs.Handling.{handling_pass};
    ghost use Rattle.hook_machine.specs.Rest.{in_place};

    /// Makes a pass over a text of which all pieces are left.
    fn new(alloc: Global, cut: Cut) -> Result<Self, AllocError>
        ensures { IfOk result (λ pass. pass ≡ record { cut = cut; so_far = []; hand = None }) }
    {
        let parts = TextParts {
            cut,
            so_far: Text::empty(alloc),
            hand: None,
        };
        let parts = Box::new(alloc, parts)?;
        Ok(TextPass { parts })
    }

    fn text(&self) -> &str
        ensures { result.now ≡ self.now.cut.text }
    {
        self.parts.cut.text()
    }

    fn hand(&self) -> Option<Matched>
        ensures hand { result ≡ self.now.hand }
        ensures span { IfSome result (λ matched. IsSpanOf self.now.cut.text matched.name) }
    {
        self.parts.hand
    }

    /// Forgets the match in hand, once its handler has answered.
    fn put_away(&mut self)
        ensures { self.new ≡ record self.old { hand = None } }
    {
        self.parts.hand = None;
    }

    /// Takes the text that the pieces so far have become, and leaves empty text in its place. Does
    /// not allocate.
    fn take_text(&mut self, alloc: Global) -> Text
        ensures { result ≡ self.old.so_far }
    {
        mem::replace(&mut self.parts.so_far, Text::empty(alloc))
    }

    /// Appends what replaces the match in hand, or the text as it is if no match is in hand.
    fn append(&mut self, text: &str) -> Result<(), AllocError>
        ensures { OnOk result (self.new ≡ record self.old {
          so_far = self.old.so_far ++ in_place self.old.hand text.now;
        }) }
    {
        let hand = self.parts.hand;
        append(&mut self.parts.so_far, hand, text)
    }

    /// Takes pieces up to the first one that has a handler, whose match is then in hand, and
    /// appends those before it.
    fn next_handling(
        &mut self,
        state: &mut State,
        stack: &mut Stack,
    ) -> Result<Option<Handling>, AllocError>
        ensures same { self.new.cut.text ≡ self.old.cut.text }
        ensures found { IfOk result (λ found. (invocation : Invocation) →
            pieces_pass invocation self.old.cut.text state.old self.old.so_far self.old.cut.pieces
            ≡ handling_pass
            invocation self.old.cut.text state.old found self.new.so_far self.new.cut.pieces) }
        ensures state { state.new ≡ state.old }
        ensures stack { stack.new ≡ stack.old }
        ensures hand { IfOk result (λ found. IfSome found (λ h. self.new.hand ≡ Some h.matched)) }
    {
        self.parts.hand = None;
        let found = next_handling(state, stack, &mut self.parts)?;
        if let Some(handling) = &found {
            self.parts.hand = Some(handling.matched);
        }
        Ok(found)
    }
}

/// The invocation of a handler that is to be made, and its match.
#[derive(Drop)]
pub struct Handling {
    pub invoked: Invoked,
    pub matched: Matched,
}

/// Takes pieces up to the first one that has a handler, and appends those before it. If no piece
/// has one, none is left.
fn next_handling(
    state: &mut State,
    stack: &mut Stack,
    parts: &mut TextParts,
) -> Result<Option<Handling>, AllocError>
    ensures same { parts.new.cut.text ≡ parts.old.cut.text }
    ensures hand { parts.new.hand ≡ parts.old.hand }
    ensures found { IfOk result (λ found. (invocation : Invocation) →
        pieces_pass invocation parts.old.cut.text state.old parts.old.so_far parts.old.cut.pieces
        ≡ handling_pass
        invocation parts.old.cut.text state.old found parts.new.so_far parts.new.cut.pieces) }
    ensures state { state.new ≡ state.old }
    ensures stack { stack.new ≡ stack.old }
    ensures span { IfOk result
        (λ found. IfSome found (λ h. IsSpanOf parts.old.cut.text h.matched.name)) }
{
    while let Some(piece) = parts.cut.take_first() {
        let whole = parts.cut.text();
        let work = work_of_piece(state, stack, whole, &piece)?;
        match work {
            Work::Shown(span) => parts.so_far.push_str(text_at(whole, span))?,
            Work::Handled { invoked, matched } => {
                return Ok(Some(Handling { invoked, matched }));
            }
        }
    }
    Ok(None)
}

/// Goes on with a shortcode pass: the next handler is invoked, or the text is whole. A run that
/// doesn't stop goes on with each handler's answer, up to the first one that asks for something or
/// whose answer goes through a filter.
pub fn text_turn<S: Stated>(
    plugins: &Plugins<S>,
    state: &mut State,
    stack: &mut Stack,
    pass: TextPass,
    pace: Pace,
) -> Result<Move, RunFault>
    ensures moves { Does pace (engine_over S.says S.number plugins.now)
        (λ engine. text_left engine state.old pass) stack.old result state.new stack.new }
    ensures weight { AddsWeight 0 result stack.old stack.new }
{
    let mut pass = pass;
    'pieces: loop {
        match pass.next_handling(state, stack)? {
            None => return Ok(Move::Handed(pass.take_text(state.alloc()))),
            Some(handling) => {
                let went = invoke(plugins, state, handling.invoked, pace)?;
                match went {
                    Went::Answered(invoked, answer) => {
                        if state.filters_shortcodes() {
                            return filter_later(stack, pass, invoked, answer);
                        }
                        stack.keep_spare(invoked);
                        pass.append(answer.as_str())?;
                    }
                    Went::Waits(invoked) => return wait_for_handler(stack, pass, invoked),
                }
            }
        }
    }
}

/// Puts a handler's invocation on the stack, and the pass that waits for its answer.
fn wait_for_handler(stack: &mut Stack, pass: TextPass, invoked: Invoked) -> Result<Move, RunFault>
    ensures ok { IfOk result (λ move. (move ≡ Turned)
        × (stack.new ≡ Frame.Invocation invoked ∷ Frame.Shortcodes pass ∷ stack.old)) }
    ensures err { IfErr result (λ fault. fault ≡ RunFault.OutOfMemory) }
{
    stack.put_first(Frame::Shortcodes(pass))?;
    stack.put_first(Frame::Invocation(invoked))?;
    Ok(Move::Turned)
}

/// Puts the invocation of a handler that has answered on the stack, and the pass, since the answer
/// goes through a filter first.
fn filter_later(
    stack: &mut Stack,
    pass: TextPass,
    invoked: Invoked,
    answer: Text,
) -> Result<Move, RunFault>
    ensures ok { IfOk result (λ move. (move ≡ Turned) × (stack.new
        ≡ Frame.Invocation (record invoked { pending = Next (Answer answer) })
        ∷ Frame.Shortcodes pass ∷ stack.old)) }
    ensures err { IfErr result (λ fault. fault ≡ RunFault.OutOfMemory) }
{
    let mut invoked = invoked;
    invoked.set_pending(Pending::Next(Then::Answer(answer)));
    wait_for_handler(stack, pass, invoked)
}

/// Appends what replaces a match: a handler's answer between the extra brackets, or the text as it
/// is if there is no match.
fn append(so_far: &mut Text, hand: Option<Matched>, text: &str) -> Result<(), AllocError>
    ensures { OnOk result (so_far.new ≡ so_far.old ++ in_place hand text.now) }
{
    let Some(matched) = hand else {
        return so_far.push_str(text);
    };
    if matched.opening {
        so_far.push_str("[")?;
    }
    so_far.push_str(text)?;
    if matched.closing {
        so_far.push_str("]")?;
    }
    Ok(())
}

/// Puts a handler's answer between its match's extra brackets. If there are none, it is moved and
/// not copied.
fn between_brackets(alloc: Global, matched: Matched, answer: Text) -> Result<Text, AllocError>
    ensures { IfOk result (λ text. text ≡ between_brackets matched answer) }
{
    if !matched.opening && !matched.closing {
        return Ok(answer);
    }
    let mut text = Text::empty(alloc);
    append(&mut text, Some(matched), answer.as_str())?;
    Ok(text)
}

/// Makes the further argument of the filter: the tag of a match.
fn tag_argument(alloc: Global, text: &str, name: Span) -> Result<Listed<Text>, AllocError>
    requires { IsSpanOf text.now name }
    ensures { IfOk result (λ args. args ≡ text_at text.now name ∷ []) }
{
    let mut args = Listed::empty(alloc);
    args.push(Text::copied(alloc, text_at(text, name))?)?;
    Ok(args)
}

/// Returns the match in hand, if anything is registered on the filter that its handler's answer
/// goes through.
fn to_filter(state: &State, pass: &TextPass) -> Option<Matched>
    ensures { MatchOption result (IsSome pass.now.hand
        → IsFalse (has state.now.table shortcode_filter))
        (λ matched. (pass.now.hand ≡ Some matched) × IsSpanOf pass.now.cut.text matched.name) }
{
    if state.is_hooked(SHORTCODE_FILTER) {
        pass.hand()
    } else {
        None
    }
}

/// Begins the filter on the answer of a match's handler.
fn filter_turn<S: Stated>(
    plugins: &Plugins<S>,
    state: &mut State,
    stack: &mut Stack,
    pass: TextPass,
    matched: Matched,
    answer: Text,
    pace: Pace,
) -> Result<Move, RunFault>
    requires { IsSpanOf pass.cut.text matched.name }
    ensures moves { Does pace (engine_over S.says S.number plugins.now)
        (λ engine. text_handed engine state.old pass (Some matched) answer) stack.old result
        state.new stack.new }
    ensures weight { AddsWeight 1 result stack.old stack.new }
{
    let args = tag_argument(state.alloc(), pass.text(), matched.name)?;
    let text = between_brackets(state.alloc(), matched, answer)?;
    let mut pass = pass;
    pass.put_away();
    stack.put_first(Frame::Shortcodes(pass))?;
    let hook = Text::core(state.alloc(), CoreHook::DoShortcodeTag);
    begin_filter(plugins, state, stack, hook, text, args, pace)
}

/// Hands a shortcode pass the answer of its match's handler, which goes through the filter first,
/// or that filter's value. A filter on which nothing is registered isn't begun.
pub fn shown_turn<S: Stated>(
    plugins: &Plugins<S>,
    state: &mut State,
    stack: &mut Stack,
    pass: TextPass,
    text: Text,
    pace: Pace,
) -> Result<Move, RunFault>
    ensures moves { Does pace (engine_over S.says S.number plugins.now)
        (λ engine. text_handed engine state.old pass pass.hand text) stack.old result state.new
        stack.new }
    ensures weight { AddsWeight (room_of_match pass.hand) result stack.old stack.new }
{
    match to_filter(state, &pass) {
        Some(matched) => filter_turn(plugins, state, stack, pass, matched, text, pace),
        None => {
            let mut pass = pass;
            pass.append(text.as_str())?;
            text_turn(plugins, state, stack, pass, pace)
        }
    }
}

/// Returns whether a text is one piece, a stretch that stays as it is.
fn is_one_stretch(text: &str, pieces: &[Piece]) -> bool
    ensures { IsTrue result → (invocation : Invocation) (world : World)
        → pieces_pass invocation text.now world [] pieces.now ≡ Done world text.now }
{
    if pieces.len() != 1 {
        return false;
    }
    match pieces[0] {
        Piece::Plain(span) => span.start == 0 && span.end == text.len(),
        Piece::Match { .. } => false,
    }
}

/// Begins a shortcode pass: its names and pieces are fixed here. A text without shortcodes is
/// handed on and not copied.
pub fn begin_text<S: Stated>(
    plugins: &Plugins<S>,
    state: &mut State,
    stack: &mut Stack,
    text: Text,
    cache: &mut PieceCache,
    pace: Pace,
) -> Result<Move, RunFault>
    ensures moves { Does pace (engine_over S.says S.number plugins.now)
        (λ engine. shortcodes_pass (invoke engine) state.old text) stack.old result state.new
        stack.new }
    ensures weight { AddsWeight 0 result stack.old stack.new }
    ensures cache { cache.new ≡ cache.old }
{
    let pieces = state.pieces(text.as_str(), cache)?;
    if is_one_stretch(text.as_str(), pieces.as_slice()) {
        return Ok(Move::Handed(text));
    }
    let pass = TextPass::new(state.alloc(), Cut::new(text, pieces))?;
    text_turn(plugins, state, stack, pass, pace)
}
