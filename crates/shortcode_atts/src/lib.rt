//! The attributes of a shortcode, as its attribute text spells them (Shortcode API,
//! shortcode_parse_atts), and the defaults of a handler (shortcode_atts).
#![tactic(auto)]

ghost use Rattle.std.specs.Prelude.{◌≡◌, ℕ, List, [], ◌∷◌, ◌++◌, map, option_map, slice_get, fold};
ghost use Rattle.std.specs.Prelude.{chars};
ghost use Rattle.std.specs.Prelude.{string_bytes, unwrap_or, Some, None, IfOk, OnOk, true, false};
ghost use Rattle.std.specs.List.{All};
ghost use Rattle.std.specs.Str.{IsUtf8};
ghost use Rattle.shortcode_atts.specs.Attributes.{Attributes, attributes, add, add_under, value_of};
ghost use Rattle.shortcode_atts.specs.Attributes.{pair_or, with_defaults, no_attributes};
ghost use Rattle.shortcode_atts.specs.Attributes.{pair_bytes};
ghost use Rattle.shortcode_atts.specs.Found.{item_now, pair_now, item_spelling, IsText};
ghost use Rattle.shortcode_atts.specs.Items.{Item, IsItems, items_of, is_blank, begins_blank};
ghost use Rattle.shortcode_atts.specs.Items.{single_spaced};

use indexmap::IndexMap;
use std::alloc::{AllocError, Global};
use std::marker::Model;

mod items;
mod values;

use items::{FoundItem, item_at, skip_white};
use values::{is_plain, lowered, meaning, spaced};

/// The attributes of a shortcode: values under names, each name once, and values without a name,
/// each in the order of the text (Shortcode API, Handlers). Names are in lower case.
#[derive(Drop)]
pub struct Atts {
    pairs: IndexMap<String, String>,
    values: Vec<String>,
}

impl Model for Atts {
    ghost use Rattle.std.specs.Prelude.{map, string_bytes};
    ghost use Rattle.shortcode_atts.specs.Attributes.{Attributes, pair_bytes};

    ghost Value = { Attributes };

    ghost view = { λ a. record {
      named = map pair_bytes a.pairs.entries;
      positional = map string_bytes a.values.items;
    } };
}

impl Clone for Atts {
    ghost is_clone = { λ atts copy. copy ≡ atts };

    fn clone(&self) -> Result<Atts, AllocError> {
        let pairs = self.pairs.clone()?;
        let values = self.values.clone()?;
        Ok(Atts { pairs, values })
    }
}

impl Atts {
    /// Makes empty attributes, as in the call of a hook's callback. Does not allocate.
    pub fn new(alloc: Global) -> Atts
        ensures { result ≡ no_attributes }
    {
        Atts {
            pairs: IndexMap::new(alloc),
            values: Vec::new(alloc),
        }
    }

    /// Puts a value under a name. A name that is there keeps its place, and its value is replaced.
    fn put(&mut self, alloc: Global, name: &[u8], value: &[u8]) -> Result<(), AllocError>
        requires name { IsUtf8 name.now }
        requires value { IsUtf8 value.now }
        ensures { OnOk result
            (self.new ≡ add_under (Some (chars name.now)) (chars value.now) self.old) }
    {
        let name = lowered(alloc, name)?;
        let value = meaning(alloc, value)?;
        self.pairs.insert(name, value)?;
        Ok(())
    }

    /// Adds a value without a name, unless nothing is written, as in `""`.
    fn push(&mut self, alloc: Global, value: &[u8]) -> Result<(), AllocError>
        requires { IsUtf8 value.now }
        ensures { OnOk result (self.new ≡ add_under None (chars value.now) self.old) }
    {
        if !value.is_empty() {
            self.values.push(meaning(alloc, value)?)?;
        }
        Ok(())
    }

    /// Adds an item.
    fn add(&mut self, alloc: Global, found: &FoundItem) -> Result<(), AllocError>
        requires { IsText (item_now found.now) }
        ensures { OnOk result (self.new ≡ add self.old (item_spelling (item_now found.now))) }
    {
        match found.name {
            Some(name) => self.put(alloc, name, found.value),
            None => self.push(alloc, found.value),
        }
    }

    /// Returns the value under a name, which is compared byte by byte; the names of attributes are
    /// in lower case.
    pub fn named(&self, name: &str) -> Option<&str>
        ensures { option_map (λ value. value.now) result ≡ value_of self.now name.now }
    {
        match self.pairs.get(name) {
            Some(value) => Some(value.as_str()),
            None => None,
        }
    }

    /// Returns the name and the value at a place among those with a name, counted from 0.
    pub fn pair(&self, at: usize) -> Option<(&str, &str)>
        ensures { option_map pair_now result ≡ slice_get self.now.named at }
    {
        match self.pairs.get_index(at) {
            Some((name, value)) => Some((name.as_str(), value.as_str())),
            None => None,
        }
    }

    /// Returns the values without a name, in the order of the text.
    pub fn positional(&self) -> &[String]
        ensures { map string_bytes result.now ≡ self.now.positional }
    {
        self.values.as_slice()
    }

    /// Returns the value under a name, or else the default.
    fn value_or<'a>(&'a self, name: &str, default: &'a str) -> &'a str
        ensures { result.now ≡ unwrap_or (value_of self.entry.now name.now) default.entry.now }
    {
        match self.named(name) {
            Some(value) => value,
            None => default,
        }
    }

    /// Returns a default's name, with the value here or else the default's.
    fn pair_or(&self, default: &(String, String)) -> Result<(String, String), AllocError>
        ensures { IfOk result (λ pair. pair_bytes pair
            ≡ pair_or self.now (pair_bytes default.now)) }
    {
        let name = default.0.clone()?;
        let value = self.value_or(default.0.as_str(), default.1.as_str());
        let value = String::from_str(*self.values.allocator(), value)?;
        Ok((name, value))
    }

    /// Returns each default name, in order, with its value here, or else the default (Shortcode
    /// API, shortcode_atts). Attributes under other names, and those without a name, are left out.
    ///
    /// It fails only if memory runs out.
    pub fn with_defaults(
        &self,
        defaults: &[(String, String)],
    ) -> Result<Vec<(String, String)>, AllocError>
        ensures { IfOk result (λ pairs.
            map pair_bytes pairs.items ≡ with_defaults self.now (map pair_bytes defaults.now)) }
    {
        let mut pairs = Vec::new(*self.values.allocator());
        for default in defaults {
            pairs.push(self.pair_or(default)?)?;
        }
        Ok(pairs)
    }
}

/// Returns the attributes that a text without blanks spells.
fn of_plain(alloc: Global, text: &str) -> Result<Atts, AllocError>
    ensures { IfOk result (λ atts. atts ≡ fold add no_attributes (items_of (chars text.now))) }
{
    let mut rest = text.as_bytes();
    let mut atts = Atts::new(alloc);
    'items: while let Some(found) = item_at(skip_white(rest)) {
        atts.add(alloc, &found)?;
        rest = found.rest;
    }
    Ok(atts)
}

/// Reads the attributes that a text spells, the part of a shortcode between its name and its end
/// (Shortcode API, shortcode_parse_atts): `name="value"`, `name='value'`, `name=value`, `"value"`,
/// `'value'` and `value`.
///
/// Every text has attributes; it fails only if memory runs out.
pub fn parse(alloc: Global, text: &str) -> Result<Atts, AllocError>
    ensures { IfOk result (λ atts. atts ≡ attributes text.now) }
{
    // Few texts have a blank: the others are not copied.
    if is_plain(text) {
        of_plain(alloc, text)
    } else {
        of_plain(alloc, &spaced(alloc, text)?)
    }
}

/// A law: a text has exactly one list of items (Shortcode API, get_shortcode_atts_regex).
pub fn one_list_of_items()
    ensures items { (text : List ℕ) → IsItems text (items_of text) }
    ensures only { (text : List ℕ) (items : List Item) → IsItems text items → items
        ≡ items_of text }
{}

/// A law: a run of blanks becomes one space, however many and of whichever of the two kinds they
/// are, and every other character stays as it is (Code Reference, shortcode_parse_atts). The call
/// does nothing: it carries these equations.
pub fn a_run_of_blanks_is_one_space()
    ensures run { (blank : ℕ) (blanks rest : List ℕ) → All (λ c. is_blank c ≡ true) (blank ∷ blanks)
        → begins_blank rest ≡ false → single_spaced (blank ∷ blanks ++ rest) ≡ 32
        ∷ single_spaced rest }
    ensures other { (c : ℕ) (rest : List ℕ) → is_blank c ≡ false → single_spaced (c ∷ rest) ≡ c
        ∷ single_spaced rest }
    ensures end { single_spaced [] ≡ [] }
{}
