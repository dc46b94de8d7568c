//! Texts as fields of plain data: contracts see their bytes, and no capacity or pointer.
ghost use Rattle.std.specs.Prelude.{◌≡◌, ◌⊎◌, ℕ, List, [], ◌++◌, string_bytes, bytes_eq};
ghost use Rattle.std.specs.Prelude.{IfOk, OnOk, OnErr};
ghost use Rattle.std.specs.List.{list_any};
ghost use Rattle.std.specs.Cmp.{partial_equiv_from_equiv};
ghost use Rattle.std.specs.Cmp.Lexicographic.{nat_list_eq_equiv};
ghost use Rattle.plain_data.specs.Names.{core_name};

use crate::core_hooks::CoreHook;
use std::alloc::{AllocError, Global};
use std::marker::Model;
use std::mem;
use std::rc::Rc;

/// How a text is held.
#[derive(Drop)]
enum Held {
    /// In memory of its own.
    Own(String),
    /// In memory that its copies share.
    Shared(Rc<String>),
    /// In the program: the name of one of the engine's own hooks.
    Core(CoreHook),
}

/// A text in UTF-8, which contracts see as its bytes.
pub struct Text {
    alloc: Global,
    held: Held,
}

impl Model for Text {
    ghost use Rattle.std.specs.Prelude.{ℕ, List};
    ghost use Rattle.plain_data.specs.Texts.{bytes_held};

    ghost Value = { List ℕ };

    ghost view = { λ t. bytes_held t.held };
}

/// Written out, so that all who own a text call this drop, and no proof tells apart how a text is
/// held.
impl Drop for Text {
    #[inline]
    fn drop(self) {
        let Text { alloc: _, held: _ } = self;
    }
}

impl Text {
    /// Makes a text of a `String`, which is moved and not copied.
    pub fn new(text: String) -> Self
        ensures { result ≡ string_bytes text }
    {
        Text {
            alloc: *text.allocator(),
            held: Held::Own(text),
        }
    }

    /// Makes the empty text. Does not allocate.
    pub fn empty(alloc: Global) -> Self
        ensures { result ≡ [] }
    {
        Text {
            alloc,
            held: Held::Own(String::new(alloc)),
        }
    }

    /// Makes the name of one of the engine's own hooks. Does not allocate, nor does a copy of it.
    pub fn core(alloc: Global, hook: CoreHook) -> Self
        ensures { result ≡ core_name hook }
    {
        Text {
            alloc,
            held: Held::Core(hook),
        }
    }

    /// Copies a text.
    pub fn copied(alloc: Global, text: &str) -> Result<Self, AllocError>
        ensures { IfOk result (λ copy. copy ≡ text.now) }
    {
        Ok(Text::new(String::from_str(alloc, text)?))
    }

    /// Borrows the text.
    #[inline]
    pub fn as_str(&self) -> &str
        ensures { result.now ≡ self.now }
    {
        match &self.held {
            Held::Own(text) => text.as_str(),
            Held::Shared(text) => text.as_str(),
            Held::Core(hook) => hook.name(),
        }
    }

    /// Appends a text. A text that shares its memory gets memory of its own first. On allocation
    /// failure nothing is appended.
    #[inline(always)]
    pub fn push_str(&mut self, text: &str) -> Result<(), AllocError>
        ensures ok { OnOk result (self.new ≡ self.old ++ text.now) }
        ensures err { OnErr result (self.new ≡ self.old) }
    {
        match &mut self.held {
            Held::Own(own) => own.push_str(text),
            Held::Shared(_) | Held::Core(_) => self.push_to_copy(text),
        }
    }

    /// Gives the text memory of its own, and appends a text. On allocation failure nothing changes.
    #[inline(never)]
    fn push_to_copy(&mut self, text: &str) -> Result<(), AllocError>
        ensures ok { OnOk result (self.new ≡ self.old ++ text.now) }
        ensures err { OnErr result (self.new ≡ self.old) }
    {
        let joined = joined(self.alloc, self.as_str(), text)?;
        self.held = Held::Own(joined);
        Ok(())
    }

    /// Replaces the text by a copy of another, in the memory that it has of its own. On allocation
    /// failure it is the text before, or empty.
    #[inline]
    pub fn rewrite(&mut self, text: &str) -> Result<(), AllocError>
        ensures ok { OnOk result (self.new ≡ text.now) }
        ensures err { OnErr result ((self.new ≡ self.old) ⊎ (self.new ≡ [])) }
    {
        match &mut self.held {
            Held::Own(own) => {
                own.clear();
                own.push_str(text)
            }
            Held::Shared(_) | Held::Core(_) => {
                self.held = Held::Own(String::from_str(self.alloc, text)?);
                Ok(())
            }
        }
    }

    /// Lets copies of the text share its memory, so that a copy doesn't allocate. On allocation
    /// failure the text is empty.
    pub fn share(&mut self) -> Result<(), AllocError>
        ensures ok { OnOk result (self.new ≡ self.old) }
        ensures err { OnErr result (self.new ≡ []) }
    {
        match mem::replace(&mut self.held, Held::Own(String::new(self.alloc))) {
            Held::Own(own) => self.held = Held::Shared(Rc::new(self.alloc, own)?),
            other => self.held = other,
        }
        Ok(())
    }

    /// Returns the `String`, which is moved, or copied if the text has no memory of its own.
    pub fn into_string(self) -> Result<String, AllocError>
        ensures { IfOk result (λ text. string_bytes text ≡ self) }
    {
        let Text { alloc, held } = self;
        match held {
            Held::Own(text) => Ok(text),
            Held::Shared(text) => String::from_str(alloc, text.as_str()),
            Held::Core(hook) => String::from_str(alloc, hook.name()),
        }
    }
}

/// Joins two texts.
fn joined(alloc: Global, text: &str, more: &str) -> Result<String, AllocError>
    ensures { IfOk result (λ joined. string_bytes joined ≡ text.now ++ more.now) }
{
    let mut joined = String::from_str(alloc, text)?;
    joined.push_str(more)?;
    Ok(joined)
}

/// A text that shares its memory, or has none, is copied without allocating.
impl Clone for Text {
    ghost is_clone = { λ text copy. copy ≡ text };

    #[inline]
    fn clone(&self) -> Result<Self, AllocError>
        ensures { IfOk result (λ text. text ≡ self.now) }
    {
        let held = match &self.held {
            Held::Own(text) => Held::Own(text.clone()?),
            Held::Shared(text) => Held::Shared(text.clone()?),
            Held::Core(hook) => Held::Core(*hook),
        };
        Ok(Text {
            alloc: self.alloc,
            held,
        })
    }
}

impl PartialEq for Text {
    ghost eq = { bytes_eq };

    ghost laws = { partial_equiv_from_equiv nat_list_eq_equiv };

    fn eq(&self, other: &Text) -> bool {
        self.as_str() == other.as_str()
    }
}

/// Returns whether a text is one of a list of texts.
pub fn is_one_of(texts: &[Text], text: &str) -> bool
    ensures { result ≡ list_any (bytes_eq text.now) texts.now }
{
    texts.iter().any(|other| text == other.as_str())
}
