//! The frames of a run: a pass over a hook, an invocation, a text. What a pass and an invocation
//! have is on the heap, so that moving one moves a pointer.
ghost use Rattle.std.specs.Prelude.{◌≡◌, ◌++◌, ◌∷◌, [], IfOk, OnOk, take};
ghost use Rattle.std.specs.Prelude.{List, ℕ};
ghost use Rattle.shortcode_atts.specs.Attributes.{attributes};
ghost use Rattle.call_plans.specs.Position.{next_entry};
ghost use Rattle.hook_machine.specs.Calls.{shortcode_call};
ghost use Rattle.hook_meaning.specs.Meaning.{value_after, hook_call, arguments, first_or_empty};
ghost use Rattle.hook_machine.specs.declared.run.frames.Pending.TheVariants.{Core, ForNothing};

use crate::run::calls::{add_answer, fill, fill_handler, take_first_argument};
use crate::run::texts::TextPass;
use crate::state::State;
use call_plans::Position;
use hook_changes::{Answer, Call, CallbackId, Listed, Text, Then};
use hook_meaning::PassKind;
use hook_registry::{Entry, Priority};
use std::alloc::{AllocError, Global};
use std::marker::Model;
use std::mem;

/// After how many answers the value of a pass is made one that copies share.
const SHARE_EVERY: u32 = 8;

/// What a pass over a hook has.
#[derive(Drop)]
pub struct PassParts {
    pub kind: PassKind,
    pub args: Listed<Text>,
    /// In a filter, the value after the callbacks so far.
    pub value: Text,
    pub position: Position,
}

/// A pass over a hook. Contracts see its parts.
#[derive(Drop)]
pub struct HookPass {
    parts: Box<PassParts>,
}

impl Model for HookPass {
    ghost use Rattle.hook_machine.specs.declared.run.frames.PassParts.{PassParts};

    ghost Value = { PassParts };

    ghost view = { λ p. p.parts.value };
}

impl HookPass {
    /// Makes a pass of these parts, in memory of its own.
    pub fn new(alloc: Global, parts: PassParts) -> Result<Self, AllocError>
        ensures { IfOk result (λ pass. pass ≡ parts) }
    {
        let parts = Box::new(alloc, parts)?;
        Ok(HookPass { parts })
    }

    /// Makes a pass of these parts in the memory of this one.
    pub fn made_of(self, parts: PassParts) -> Self
        ensures { result ≡ parts }
    {
        let mut pass = self;
        *pass.parts = parts;
        pass
    }

    /// Returns the priority that the pass has reached, if it has reached one.
    pub fn reached(&self) -> Option<Priority>
        ensures { result ≡ self.now.position.reached }
    {
        self.parts.position.reached
    }

    /// Takes the next entry of the pass, if there is one (class WP_Hook).
    pub fn next(&mut self, state: &State) -> Result<Option<Entry>, AllocError>
        ensures entry { IfOk result (λ found. found
            ≡ (next_entry state.now.table self.old.position).0) }
        ensures moved { OnOk result (self.new ≡ record self.old {
          position = (next_entry state.now.table self.old.position).1;
        }) }
    {
        state.next(&mut self.parts.position)
    }

    /// Makes an invocation that of the callback of an entry. A filter's value moves into the call.
    pub fn fill(
        &mut self,
        alloc: Global,
        invoked: &mut Invoked,
        entry: Entry,
    ) -> Result<(), AllocError>
        ensures callback { OnOk result (invoked.new.callback ≡ entry.callback) }
        ensures call { OnOk result (invoked.new.call ≡ hook_call self.old.position.hook
            (take entry.accepted (arguments self.old.kind self.old.value self.old.args))) }
        ensures pass { OnOk result (self.new ≡ record self.old { value = self.new.value }) }
        ensures kept { OnOk result ((answer : List ℕ)
            → value_after self.old.kind self.new.value answer
            ≡ value_after self.old.kind self.old.value answer) }
    {
        let parts: &mut PassParts = &mut self.parts;
        let hook = parts.position.hook.as_str();
        let args = parts.args.as_slice();
        invoked.set_hook_call(alloc, parts.kind, hook, &mut parts.value, args, entry)
    }

    /// Takes the value, and leaves empty text in its place. Does not allocate.
    pub fn take_value(&mut self, alloc: Global) -> Text
        ensures value { result ≡ self.old.value }
        ensures rest { self.new ≡ record self.old { value = [] } }
    {
        mem::replace(&mut self.parts.value, Text::empty(alloc))
    }

    /// Hands a pass the answer of its nth callback. From time to time the value is made one that
    /// copies share: most callbacks of a long pass answer the value as it came.
    pub fn hand_in_turn(&mut self, answer: Text, nth: u32) -> Result<(), AllocError>
        ensures { OnOk result (self.new ≡ record self.old {
          value = value_after self.old.kind self.old.value answer;
        }) }
    {
        self.hand(answer);
        if nth % SHARE_EVERY == 0 {
            self.parts.value.share()?;
        }
        Ok(())
    }

    /// Hands the pass a callback's answer: the next value of a filter; an action drops it.
    #[inline]
    pub fn hand(&mut self, answer: Text)
        ensures { self.new ≡ record self.old {
          value = value_after self.old.kind self.old.value
              answer;
        } }
    {
        match self.parts.kind {
            PassKind::Filter => self.parts.value = answer,
            PassKind::Action => {}
        }
    }
}

/// What an invocation is to do next.
#[derive(Drop)]
pub enum Pending {
    /// The callback has replied, and goes on by this.
    Next(Then),
    /// Core's callback is to replace the shortcodes of its first argument.
    Core,
    /// What the callback asked for is running, and its answer will be a text.
    ForText,
    /// What it asked for is running, and its answer will be `Nothing`.
    ForNothing,
    /// The text of core's callback is being made.
    ForCore,
}

/// What an invocation has.
#[derive(Drop)]
pub struct InvocationParts {
    pub callback: CallbackId,
    pub call: Call,
    pub pending: Pending,
}

/// An invocation. Contracts see its parts.
#[derive(Drop)]
pub struct Invoked {
    parts: Box<InvocationParts>,
}

impl Model for Invoked {
    ghost use Rattle.hook_machine.specs.declared.run.frames.InvocationParts.{InvocationParts};

    ghost Value = { InvocationParts };

    ghost view = { λ i. i.parts.value };
}

impl Invoked {
    /// Makes the invocation of a callback with a call. Until its reply is carried out, its next
    /// step is core's.
    pub fn new(alloc: Global, callback: CallbackId, call: Call) -> Result<Self, AllocError>
        ensures { IfOk result (λ invoked. invoked
            ≡ record { callback = callback; call = call; pending = Core }) }
    {
        let parts = Box::new(
            alloc,
            InvocationParts {
                callback,
                call,
                pending: Pending::Core,
            },
        )?;
        Ok(Invoked { parts })
    }

    /// Returns the callback that was invoked.
    pub fn callback(&self) -> CallbackId
        ensures { result ≡ self.now.callback }
    {
        self.parts.callback
    }

    /// Borrows what the callback was called with.
    pub fn call(&self) -> &Call
        ensures { result.now ≡ self.now.call }
    {
        &self.parts.call
    }

    /// Sets what the invocation is to do next.
    pub fn set_pending(&mut self, pending: Pending)
        ensures { self.new ≡ record self.old { pending = pending } }
    {
        self.parts.pending = pending;
    }

    /// Takes the step that is pending.
    pub fn take_pending(&mut self) -> Pending
        ensures pending { result ≡ self.old.pending }
        ensures rest { self.new ≡ record self.old { pending = ForNothing } }
    {
        mem::replace(&mut self.parts.pending, Pending::ForNothing)
    }

    /// Appends an answer to those in its call.
    pub fn add_answer(&mut self, answer: Answer) -> Result<(), AllocError>
        ensures { OnOk result (self.new ≡ record self.old {
          call = record self.old.call { answers = self.old.call.answers ++ answer ∷ [] };
        }) }
    {
        add_answer(&mut self.parts.call, answer)
    }

    /// Takes the first argument out of its call; returns empty text if there is none.
    pub fn take_first_argument(&mut self, alloc: Global) -> Text
        ensures text { result ≡ first_or_empty self.old.call.args }
        ensures callback { self.new.callback ≡ self.old.callback }
    {
        take_first_argument(alloc, &mut self.parts.call)
    }

    /// Makes this the invocation of a shortcode's handler, given the text of its attributes. Its
    /// call reuses the texts of the call before.
    pub fn set_handler_call(
        &mut self,
        alloc: Global,
        handler: CallbackId,
        tag: &str,
        atts: &str,
        content: &str,
    ) -> Result<(), AllocError>
        ensures callback { OnOk result (self.new.callback ≡ handler) }
        ensures call { OnOk result (self.new.call
            ≡ shortcode_call tag.now (attributes atts.now) content.now) }
    {
        self.parts.callback = handler;
        fill_handler(alloc, &mut self.parts.call, tag, atts, content)
    }

    /// Makes this the invocation of a hook's callback. Its call reuses the texts of the call
    /// before. A filter needs its value no more until the callback has answered, so the value
    /// itself moves into the call; an action keeps it.
    #[inline]
    pub fn set_hook_call(
        &mut self,
        alloc: Global,
        kind: PassKind,
        hook: &str,
        value: &mut Text,
        args: &[Text],
        entry: Entry,
    ) -> Result<(), AllocError>
        ensures callback { OnOk result (self.new.callback ≡ entry.callback) }
        ensures call { OnOk result (self.new.call
            ≡ hook_call hook.now (take entry.accepted (arguments kind value.old args.now))) }
        ensures kept { OnOk result ((answer : List ℕ)
            → value_after kind value.new answer ≡ value_after kind value.old answer) }
    {
        self.parts.callback = entry.callback;
        fill(
            alloc,
            &mut self.parts.call,
            kind,
            hook,
            value,
            args,
            entry.accepted,
        )
    }
}

/// A part of what a stopped run has still to do.
#[derive(Drop)]
pub enum Frame {
    Pass(HookPass),
    Invocation(Invoked),
    Shortcodes(TextPass),
}

/// Whether a run stops after each invocation.
#[derive(Clone, Copy)]
pub enum Pace {
    /// It does: the frames have what is left of it.
    ByTurns,
    /// It doesn't. A pass goes on with a callback's answer at once, and frames are made only for
    /// what has to wait.
    Through,
}

/// What an invocation came to, once its callback has replied.
#[derive(Drop)]
pub enum Went {
    /// The callback has answered, in a run that doesn't stop. The invocation is there for the next
    /// one to reuse.
    Answered(Invoked, Text),
    /// The invocation has its pending step still to do.
    Waits(Invoked),
}

/// How far a stopped run has moved.
#[derive(Drop)]
pub enum Move {
    /// A callback was invoked.
    Turned,
    /// A result is to be handed to the innermost frame.
    Handed(Text),
}
