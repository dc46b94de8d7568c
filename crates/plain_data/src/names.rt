//! The names of hooks and of shortcodes.
ghost use Rattle.std.specs.Prelude.{◌≡◌, ◌↔◌, ℕ, List, IsTrue, IsFalse, IfOk, Err, MatchOption};
ghost use Rattle.std.specs.Prelude.{bytes_eq};
ghost use Rattle.std.specs.List.{list_all};
ghost use Rattle.plain_data.specs.NameByte.{is_name_byte};
ghost use Rattle.plain_data.specs.Names.{has_name_length, is_hook_name, is_tag_name};

use crate::name_byte::is_name_byte;
use crate::texts::Text;
use std::alloc::{AllocError, Global};
use std::marker::Model;
use thiserror::Error;

/// Why a text could not be read as a name.
#[derive(Clone, Copy, Debug, PartialEq, Eq, Error)]
pub enum NameFault {
    /// The text is empty, longer than 64 bytes or, for a shortcode, has a byte outside the
    /// alphabet.
    #[error("not a name")]
    BadName,
    /// Memory for the copy ran out.
    #[error("out of memory")]
    OutOfMemory,
}

impl From<AllocError> for NameFault {
    ghost use Rattle.plain_data.specs.declared.names.NameFault.{NameFault};

    ghost from_gives = { λ _ fault. fault ≡ NameFault.OutOfMemory };

    fn from(_error: AllocError) -> Self {
        NameFault::OutOfMemory
    }
}

/// The name of a hook, action or filter alike: 1 to 64 bytes of text (Plugin Handbook, Hooks; the
/// lengths are this engine's own).
#[derive(Drop)]
pub struct HookName {
    name: Text,
}

impl Model for HookName {
    ghost use Rattle.std.specs.Prelude.{ℕ, List, IsTrue};
    ghost use Rattle.plain_data.specs.Names.{is_hook_name};

    ghost Value = { List ℕ };

    ghost view = { λ n. n.name };

    ghost invariant = { λ n. IsTrue (is_hook_name n.name) };
}

impl HookName {
    /// Reads a text as the name of a hook.
    pub fn read(alloc: Global, text: &str) -> Result<Self, NameFault>
        ensures ok { IfOk result (λ name. name ≡ text.now) }
        ensures bad_name { (result ≡ Err NameFault.BadName) ↔ IsFalse (is_hook_name text.now) }
    {
        if !is_hook_name(text) {
            return Err(NameFault::BadName);
        }
        Ok(HookName {
            name: Text::copied(alloc, text)?,
        })
    }

    /// Makes a text the name of a hook, if it is one. It is moved and not copied.
    pub fn of(text: Text) -> Option<Self>
        ensures { MatchOption result (IsFalse (is_hook_name text))
            (λ name. IsTrue (is_hook_name text) × (name ≡ text)) }
    {
        if !is_hook_name(text.as_str()) {
            return None;
        }
        Some(HookName { name: text })
    }

    /// Returns the text that was read.
    pub fn as_str(&self) -> &str
        ensures text { result.now ≡ self.now }
        ensures name { IsTrue (is_hook_name self.now) }
    {
        self.name.as_str()
    }

    /// Returns whether both are the name of one hook: names are compared byte by byte.
    pub fn is(&self, other: &HookName) -> bool
        ensures { result ≡ bytes_eq self.now other.now }
    {
        self.name.as_str() == other.name.as_str()
    }
}

impl Clone for HookName {
    ghost is_clone = { λ name copy. copy ≡ name };

    fn clone(&self) -> Result<Self, AllocError>
        ensures { IfOk result (λ name. name ≡ self.now) }
    {
        Ok(HookName {
            name: self.name.clone()?,
        })
    }
}

/// The name of a shortcode: 1 to 64 ASCII letters, digits, `_` and `-` (Shortcode API; the alphabet
/// is this engine's own). Names of plugins are of this form too.
#[derive(Drop)]
pub struct TagName {
    name: String,
}

impl Model for TagName {
    ghost use Rattle.std.specs.Prelude.{ℕ, List, IsTrue, string_bytes};
    ghost use Rattle.plain_data.specs.Names.{is_tag_name};

    ghost Value = { List ℕ };

    ghost view = { λ n. string_bytes n.name };

    ghost invariant = { λ n. IsTrue (is_tag_name (string_bytes n.name)) };
}

impl TagName {
    /// Reads a text as the name of a shortcode.
    pub fn read(alloc: Global, text: &str) -> Result<Self, NameFault>
        ensures ok { IfOk result (λ name. name ≡ text.now) }
        ensures bad_name { (result ≡ Err NameFault.BadName) ↔ IsFalse (is_tag_name text.now) }
    {
        if !is_tag_name(text) {
            return Err(NameFault::BadName);
        }
        Ok(TagName {
            name: String::from_str(alloc, text)?,
        })
    }

    /// Returns the text that was read.
    pub fn as_str(&self) -> &str
        ensures text { result.now ≡ self.now }
        ensures name { IsTrue (is_tag_name self.now) }
    {
        self.name.as_str()
    }
}

impl Clone for TagName {
    ghost is_clone = { λ name copy. copy ≡ name };

    fn clone(&self) -> Result<Self, AllocError>
        ensures { IfOk result (λ name. name ≡ self.now) }
    {
        Ok(TagName {
            name: self.name.clone()?,
        })
    }
}

/// Returns whether a text is the name of a hook.
pub fn is_hook_name(text: &str) -> bool
    ensures { result ≡ is_hook_name text.now }
{
    has_name_length(text.as_bytes())
}

/// Returns whether a text is the name of a shortcode.
pub fn is_tag_name(text: &str) -> bool
    ensures { result ≡ is_tag_name text.now }
{
    let of_length = has_name_length(text.as_bytes());
    of_length && has_name_bytes(text.as_bytes())
}

fn has_name_length(bytes: &[u8]) -> bool
    ensures { result ≡ has_name_length bytes.now }
{
    let some = !bytes.is_empty();
    some && bytes.len() <= 64
}

fn has_name_bytes(bytes: &[u8]) -> bool
    ensures { result ≡ list_all is_name_byte bytes.now }
{
    bytes.iter().all(|byte| is_name_byte(*byte))
}
