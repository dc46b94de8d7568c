//! Answers to asks that take no further call, from the state alone.
ghost use Rattle.std.specs.Prelude.{◌≡◌, pos, IfOk, is_some, bytes_eq};
ghost use Rattle.std.specs.List.{list_any};
ghost use Rattle.hook_registry.specs.Named.{value_of};
ghost use Rattle.hook_registry.specs.Table.{has, priority_of, times_fired};
ghost use Rattle.hook_changes.specs.declared.reply.Answer.TheVariants as answer;
ghost use Rattle.hook_meaning.specs.Meaning.{last_or_empty, has_answer, number_or_false};
ghost use Rattle.hook_meaning.specs.Meaning.{text_or_false};

use crate::state::State;
use hook_changes::{Answer, CallbackId, Text};
use std::alloc::AllocError;

impl State {
    /// Returns how often an action was fired.
    pub fn did(&self, hook: &str) -> Answer
        ensures { result ≡ answer.Number (pos (times_fired self.now.counts hook.now)) }
    {
        Answer::Number(i64::from(self.tables.did(hook)))
    }

    /// Returns the innermost running hook, or empty text.
    pub fn current(&self) -> Result<Answer, AllocError>
        ensures { IfOk result (λ found. found ≡ answer.Text (last_or_empty self.now.running)) }
    {
        match self.running.last() {
            None => Ok(Answer::Text(Text::empty(self.alloc))),
            Some(hook) => Ok(Answer::Text(Text::copied(self.alloc, hook.as_str())?)),
        }
    }

    /// Returns whether a hook is anywhere among the running ones.
    pub fn doing(&self, hook: &str) -> bool
        ensures { result ≡ list_any (bytes_eq hook.now) self.now.running }
    {
        self.running.iter().any(|running| hook == running.as_str())
    }

    /// Returns whether a hook has any registration.
    pub fn is_hooked(&self, hook: &str) -> bool
        ensures { result ≡ has self.now.table hook.now }
    {
        self.tables.registry().has(hook)
    }

    /// Returns whether a hook has any registration; for a callback its smallest priority there, or
    /// the flag `false` if it has none.
    pub fn has(&self, hook: &str, callback: Option<CallbackId>) -> Answer
        ensures { result ≡ has_answer self.now hook.now callback }
    {
        match callback {
            None => Answer::Flag(self.is_hooked(hook)),
            Some(callback) => self.priority_of(hook, callback),
        }
    }

    fn priority_of(&self, hook: &str, callback: CallbackId) -> Answer
        ensures { result ≡ number_or_false (priority_of self.now.table hook.now callback) }
    {
        match self.tables.registry().priority_of(hook, callback) {
            Some(priority) => Answer::Number(i64::from(priority)),
            None => Answer::Flag(false),
        }
    }

    /// Returns whether a tag has a handler.
    pub fn tag_exists(&self, tag: &str) -> bool
        ensures { result ≡ is_some (value_of self.now.tags tag.now) }
    {
        self.tables.registry().tag(tag).is_some()
    }

    /// Returns the value of the first option with a name, or the flag `false` if there is none.
    pub fn option(&self, name: &str) -> Result<Answer, AllocError>
        ensures { IfOk result (λ found. found
            ≡ text_or_false (value_of self.now.options name.now)) }
    {
        for option in self.options.as_slice() {
            if name == option.0.as_str() {
                return Ok(Answer::Text(option.1.clone()?));
            }
        }
        Ok(Answer::Flag(false))
    }
}
