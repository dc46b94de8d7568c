//! The frames of a stopped run, and the memory of those that have ended.
ghost use Rattle.std.specs.Prelude.{◌≡◌, ◌∷◌, [], IfOk, OnOk, OnErr, MatchOption, slice_get};
ghost use Rattle.std.specs.Option.{option_copied};

use crate::run::calls::empty_call;
use crate::run::frames::{Frame, HookPass, Invoked, PassParts};
use crate::run::left::Left;
use hook_changes::CallbackId;
use std::alloc::{AllocError, Global};
use std::marker::Model;

/// The frames of a stopped run, the innermost first. Beside them it keeps an invocation and a pass
/// that have ended, in whose memory the next ones are made. Contracts see the frames alone.
#[derive(Drop)]
pub struct Stack {
    frames: Left<Frame>,
    spare: Option<Invoked>,
    spare_pass: Option<HookPass>,
}

impl Model for Stack {
    ghost use Rattle.std.specs.Prelude.{List};
    ghost use Rattle.hook_machine.specs.declared.run.frames.Frame.{Frame};

    ghost Value = { List Frame };

    ghost view = { λ s. s.frames };
}

/// Makes an invocation to be filled. It is not in line, so that the code that reuses one stays
/// short.
#[inline(never)]
fn new_spare(alloc: Global) -> Result<Invoked, AllocError> {
    Invoked::new(alloc, CallbackId::new(0), empty_call(alloc))
}

impl Stack {
    /// Makes a stack of no frames. Does not allocate.
    pub fn none(alloc: Global) -> Self
        ensures { result ≡ [] }
    {
        Stack {
            frames: Left::none(alloc),
            spare: None,
            spare_pass: None,
        }
    }

    /// Takes the innermost frame.
    #[inline]
    pub fn take_first(&mut self) -> Option<Frame>
        ensures { MatchOption result ((self.old ≡ []) × (self.new ≡ [])) (λ frame. self.old ≡ frame
            ∷ self.new) }
    {
        self.frames.take_first()
    }

    /// Puts a frame before the others. On allocation failure the frames stay as they were.
    #[inline]
    pub fn put_first(&mut self, frame: Frame) -> Result<(), AllocError>
        ensures ok { OnOk result (self.new ≡ frame ∷ self.old) }
        ensures err { OnErr result (self.new ≡ self.old) }
    {
        self.frames.put_first(frame)
    }

    /// Borrows the frame at a place, counted from 0 at the innermost one, if there is one.
    pub fn get(&self, place: usize) -> Option<&Frame>
        ensures { option_copied result ≡ slice_get self.entry.now place }
    {
        self.frames.get(place)
    }

    /// Keeps an invocation that has ended, for the next one.
    pub fn keep_spare(&mut self, invoked: Invoked)
        ensures { self.new ≡ self.old }
    {
        self.spare = Some(invoked);
    }

    /// Returns an invocation to be filled: the one that is kept, or a new one.
    #[inline]
    pub fn spare(&mut self, alloc: Global) -> Result<Invoked, AllocError>
        ensures { self.new ≡ self.old }
    {
        match self.spare.take() {
            Some(invoked) => Ok(invoked),
            None => new_spare(alloc),
        }
    }

    /// Keeps a pass that has ended, for the next one.
    pub fn keep_pass(&mut self, pass: HookPass)
        ensures { self.new ≡ self.old }
    {
        self.spare_pass = Some(pass);
    }

    /// Makes a pass of these parts, in the memory of the one that is kept if there is one.
    pub fn new_pass(&mut self, alloc: Global, parts: PassParts) -> Result<HookPass, AllocError>
        ensures pass { IfOk result (λ pass. pass ≡ parts) }
        ensures same { self.new ≡ self.old }
    {
        match self.spare_pass.take() {
            Some(pass) => Ok(pass.made_of(parts)),
            None => HookPass::new(alloc, parts),
        }
    }
}
