//! Plugins, with their load lists and callbacks.
ghost use Rattle.std.specs.Prelude.{◌≡◌, ◌≢◌, ◌++◌, map, IfOk, IfErr, OnOk, IsTrue, IfSome, None};
ghost use Rattle.std.specs.Prelude.{Some};
ghost use Rattle.std.specs.Prelude.{option_map, is_some, find, bytes_eq, not, nat_lt, length};
ghost use Rattle.std.specs.Prelude.{slice_get};
ghost use Rattle.std.specs.Prelude.{◌==◌, ◌&&◌, ◌||◌};
ghost use Rattle.std.specs.List.{list_any};
ghost use Rattle.std.specs.List.Sorted.{IsPermutation, IsSortedByKey};
ghost use Rattle.std.specs.Ordering.{nat_cmp};
ghost use Rattle.std.specs.Cmp.Lexicographic.{slice_cmp};
ghost use Rattle.std.specs.Option.{option_copied};
ghost use Rattle.plain_data.specs.Names.{is_tag_name};
ghost use Rattle.callback_store.specs.Shape.{AreInOrder, shape_of, shapes_of, has_callback};
ghost use Rattle.callback_store.specs.Shape.{is_held};
ghost use Rattle.callback_store.specs.Shape.{is_held_by, by_name, owner, load_of};
ghost use Rattle.callback_store.specs.Faults.{has_repeat, is_large, has_same_callback, numbers};
ghost use Rattle.callback_store.specs.Faults.{fault_of};

use crate::fault::PluginFault;
use crate::ordered::Ordered;
use crate::stated::Stated;
use hook_changes::{Call, CallbackId, Change, Listed, Reply, Text, is_one_of, is_tag_name};
use indexmap::IndexSet;
use std::alloc::{AllocError, Global};

const MOST_PLUGINS: usize = 64;

const MOST_CALLBACKS: usize = 256;

const MOST_CHANGES: usize = 256;

/// A plugin: its name, what it does when a request loads it, and its callbacks.
#[derive(Drop)]
pub struct Plugin<S> {
    /// 1 to 64 ASCII letters, digits, `_` and `-`.
    pub name: Text,
    /// Carried out, in order, at the start of each request in which the plugin is active.
    pub load: Listed<Change>,
    pub callbacks: Listed<S>,
}

impl<S: Stated> Plugin<S> {
    fn is_large(&self) -> bool
        ensures { result ≡ is_large (shape_of S.number self.now) }
    {
        let many_callbacks = self.callbacks.as_slice().len() > MOST_CALLBACKS;
        many_callbacks || self.load.as_slice().len() > MOST_CHANGES
    }

    fn has_callback(&self, id: CallbackId) -> bool
        ensures { result ≡ list_any (λ c. S.number c == id) self.now.callbacks }
    {
        for callback in self.callbacks.as_slice() {
            if callback.id() == id {
                return true;
            }
        }
        false
    }

    /// Returns whether the callback at an index has the number.
    fn has_at(&self, place: usize, id: CallbackId) -> bool
        ensures { IsTrue result → IsTrue (has_callback id (shape_of S.number self.now)) }
    {
        match self.callback_at(place) {
            Some(callback) => callback.id() == id,
            None => false,
        }
    }

    fn callback_at(&self, place: usize) -> Option<&S>
        ensures { option_copied result ≡ slice_get self.entry.now.callbacks place }
    {
        self.callbacks.as_slice().get(place)
    }

    fn callback(&self, id: CallbackId) -> Option<&S>
        ensures { option_copied result ≡ find (λ c. S.number c == id) self.entry.now.callbacks }
    {
        for callback in self.callbacks.as_slice() {
            if callback.id() == id {
                return Some(callback);
            }
        }
        None
    }
}

/// The plugins that a program brings, each with a name and callbacks that no other has.
#[derive(Drop)]
pub struct Plugins<S> {
    list: Ordered<S>,
    /// By ascending number.
    places: Vec<CallbackPlace>,
}

/// Where the callback with a number is: the index of its plugin, and its own index there. What is
/// found there is compared before it is used, so no contract sees it.
#[derive(Clone, Copy)]
struct CallbackPlace {
    number: u32,
    plugin: usize,
    callback: usize,
}

impl<S: Stated> Plugins<S> {
    /// Takes a list of plugins and puts them in the order of their names by bytes, in which load
    /// lists are carried out, or refuses the list by its first fault. A refused list is dropped.
    pub fn new(alloc: Global, list: Listed<Plugin<S>>) -> Result<Self, PluginFault>
        ensures permutation { IfOk result (λ plugins. IsPermutation
            (map (shape_of S.number) list) (shapes_of S.number plugins)) }
        ensures in_order { IfOk result (λ plugins. AreInOrder (shapes_of S.number plugins)) }
        ensures no_fault { IfOk result (λ plugins. fault_of (map (shape_of S.number) list) ≡ None) }
        ensures fault { IfErr result (λ fault. fault ≢ PluginFault.OutOfMemory
            → fault_of (map (shape_of S.number) list) ≡ Some fault) }
    {
        match without_fault(alloc, list.as_slice()) {
            Ok(()) => with_places(alloc, sorted_by_name(list)),
            Err(fault) => {
                drop(list);
                Err(fault)
            }
        }
    }

    /// Returns the plugins, in the order of their names by bytes.
    pub fn as_slice(&self) -> &[Plugin<S>]
        ensures { map (shape_of S.number) result.now ≡ shapes_of S.number self.entry.now }
    {
        self.list.as_slice()
    }

    /// Returns the plugins in the order of their names by bytes, in which load lists are carried
    /// out.
    pub fn by_name(&self) -> &[Plugin<S>]
        ensures { map (shape_of S.number) result.now ≡ by_name (shapes_of S.number self.entry.now) }
    {
        self.list.in_order()
    }

    fn with_callback(&self, id: CallbackId) -> Option<&Plugin<S>>
        ensures { option_copied result ≡ find (λ p. list_any (λ c. S.number c == id) p.callbacks)
            self.entry.now.list }
    {
        for plugin in self.list.as_slice() {
            if plugin.has_callback(id) {
                return Some(plugin);
            }
        }
        None
    }

    fn named(&self, name: &str) -> Option<&Plugin<S>>
        ensures { option_copied result ≡ find (λ p. bytes_eq p.name name.now) self.entry.now.list }
    {
        for plugin in self.list.as_slice() {
            if plugin.name.as_str() == name {
                return Some(plugin);
            }
        }
        None
    }

    /// Returns the name of the plugin that has the callback, if one has it. Core's callback 0 has
    /// no plugin.
    pub fn owner(&self, id: CallbackId) -> Option<&str>
        ensures { option_map (λ name. name.now) result
            ≡ owner (shapes_of S.number self.entry.now) id }
    {
        match self.with_callback(id) {
            Some(plugin) => Some(plugin.name.as_str()),
            None => None,
        }
    }

    /// Returns whether a plugin of one of these names has the callback. If one does, that takes one
    /// look-up, and otherwise a walk over those plugins.
    pub fn is_held_by(&self, names: &[Text], id: CallbackId) -> bool
        ensures { result ≡ is_held_by (shapes_of S.number self.now) names.now id }
    {
        self.is_placed_in(names, id) || self.is_among(names, id)
    }

    /// Returns where the callback with a number is, if one has it: the first place whose number is
    /// not smaller.
    fn place_of(&self, id: CallbackId) -> Option<CallbackPlace> {
        let number = id.number();
        // Each number below 1,024 has a place, at the number as its index (`places_of`).
        if number < 1_024 {
            return self.places.get(number as usize).copied();
        }
        let at = self.places.partition_point(|place| place.number < number);
        self.places.get(at).copied()
    }

    /// Returns whether the place that is kept for the number is in a plugin of one of these names,
    /// and has the callback.
    fn is_placed_in(&self, names: &[Text], id: CallbackId) -> bool
        ensures { IsTrue result → IsTrue (is_held_by (shapes_of S.number self.now) names.now id) }
    {
        let Some(place) = self.place_of(id) else {
            return false;
        };
        match self.plugin_at(place.plugin) {
            Some(plugin) => {
                is_one_of(names, plugin.name.as_str()) && plugin.has_at(place.callback, id)
            }
            None => false,
        }
    }

    /// Returns whether one of the callbacks of the plugins of these names has the number.
    fn is_among(&self, names: &[Text], id: CallbackId) -> bool
        ensures { result ≡ list_any (λ p. list_any (bytes_eq p.name) names.now
            && list_any (λ c. S.number c == id) p.callbacks) self.now.list }
    {
        for plugin in self.list.as_slice() {
            if is_one_of(names, plugin.name.as_str()) && plugin.has_callback(id) {
                return true;
            }
        }
        false
    }

    /// Returns the load list of the plugin of that name, or `None` if no plugin has the name.
    pub fn load_of(&self, name: &str) -> Option<&[Change]>
        ensures { option_map (λ changes. changes.now) result
            ≡ load_of (shapes_of S.number self.entry.now) name.now }
    {
        match self.named(name) {
            Some(plugin) => Some(plugin.load.as_slice()),
            None => None,
        }
    }

    fn plugin_at(&self, place: usize) -> Option<&Plugin<S>>
        ensures { option_copied result ≡ slice_get self.entry.now.list place }
    {
        let plugins = self.list.as_slice();
        plugins.get(place)
    }

    /// Returns the callback at the place that is kept for a number.
    fn at_place(&self, id: CallbackId) -> Option<&S>
        ensures number { IfSome result (λ callback. S.number callback.now ≡ id) }
        ensures held { IfSome result
            (λ callback. IsTrue (is_held (shapes_of S.number self.entry.now) id)) }
    {
        let place = self.place_of(id)?;
        let callback = self.plugin_at(place.plugin)?.callback_at(place.callback)?;
        if callback.id() == id {
            Some(callback)
        } else {
            None
        }
    }

    /// Returns the callback with a number, if a plugin has it. That takes as long in a bundle of
    /// many callbacks as in a small one; a number that no callback has is looked for among all.
    pub fn callback(&self, id: CallbackId) -> Option<&S>
        ensures number { IfSome result (λ callback. S.number callback.now ≡ id) }
        ensures held { is_some result ≡ is_held (shapes_of S.number self.entry.now) id }
    {
        match self.at_place(id) {
            Some(callback) => Some(callback),
            None => self.among_all(id),
        }
    }

    fn among_all(&self, id: CallbackId) -> Option<&S>
        ensures number { IfSome result (λ callback. S.number callback.now ≡ id) }
        ensures held { is_some result ≡ is_held (shapes_of S.number self.entry.now) id }
    {
        match self.with_callback(id) {
            Some(plugin) => plugin.callback(id),
            None => None,
        }
    }

    /// Returns the reply of the callback with a number to a call, or an error if memory runs out.
    pub fn call(&self, alloc: Global, id: CallbackId, call: &Call) -> Result<Reply, AllocError>
        requires { IsTrue (is_held (shapes_of S.number self.now) id) }
        ensures { IfOk result (λ reply. reply ≡ S.says id call.now) }
    {
        match self.callback(id) {
            Some(callback) => callback.answer(alloc, call),
            None => unreachable!(),
        }
    }
}

/// Refuses a list by its first fault.
fn without_fault<S: Stated>(alloc: Global, list: &[Plugin<S>]) -> Result<(), PluginFault>
    ensures no_fault { OnOk result (fault_of (map (shape_of S.number) list.now) ≡ None) }
    ensures fault { IfErr result (λ fault. fault ≢ PluginFault.OutOfMemory
        → fault_of (map (shape_of S.number) list.now) ≡ Some fault) }
{
    if are_too_many(list) {
        return Err(PluginFault::TooMany);
    }
    if has_bad_name(list) {
        return Err(PluginFault::BadName);
    }
    if has_same_name(list) {
        return Err(PluginFault::SameName);
    }
    match has_same_callback(alloc, list) {
        Ok(false) => Ok(()),
        Ok(true) => Err(PluginFault::SameCallback),
        Err(AllocError) => Err(PluginFault::OutOfMemory),
    }
}

fn are_too_many<S: Stated>(list: &[Plugin<S>]) -> bool
    ensures { result ≡ nat_lt 64 (length list.now) || list_any (λ p. is_large (shape_of S.number p))
        list.now }
{
    let many = list.len() > MOST_PLUGINS;
    many || has_large(list)
}

fn has_large<S: Stated>(list: &[Plugin<S>]) -> bool
    ensures { result ≡ list_any (λ p. is_large (shape_of S.number p)) list.now }
{
    for plugin in list {
        if plugin.is_large() {
            return true;
        }
    }
    false
}

fn has_bad_name<S>(list: &[Plugin<S>]) -> bool
    ensures { result ≡ list_any (λ p. not (is_tag_name p.name)) list.now }
{
    for plugin in list {
        if !is_tag_name(plugin.name.as_str()) {
            return true;
        }
    }
    false
}

fn is_named_before<S>(list: &[Plugin<S>], name: &str) -> bool
    ensures { result ≡ list_any (λ p. bytes_eq name.now p.name) list.now }
{
    for plugin in list {
        if name == plugin.name.as_str() {
            return true;
        }
    }
    false
}

fn has_same_name<S>(list: &[Plugin<S>]) -> bool
    ensures { result ≡ has_repeat (λ p q. bytes_eq p.name q.name) list.now }
{
    for (at, plugin) in list.iter().enumerate() {
        if is_named_before(&list[..at], plugin.name.as_str()) {
            return true;
        }
    }
    false
}

fn sorted_by_name<S>(list: Listed<Plugin<S>>) -> Ordered<S>
    ensures permutation { IsPermutation list result }
    ensures in_order { IsSortedByKey (λ p. p.name) (slice_cmp nat_cmp) result }
{
    let mut plugins = list.into_vec();
    plugins.sort_unstable_by(|plugin, other| plugin.name.as_str().cmp(other.name.as_str()));
    Ordered {
        list: Listed::new(plugins),
    }
}

fn push_numbers<S: Stated>(numbers: &mut Vec<u32>, callbacks: &[S]) -> Result<(), AllocError>
    ensures { OnOk result (numbers.new.items ≡ numbers.old.items ++ map S.number callbacks.now) }
{
    for callback in callbacks {
        numbers.push(callback.id().number())?;
    }
    Ok(())
}

/// Returns the numbers of all callbacks, after core's 0.
fn all_numbers<S: Stated>(alloc: Global, list: &[Plugin<S>]) -> Result<Vec<u32>, AllocError>
    ensures { IfOk result (λ all. all.items ≡ numbers (map (shape_of S.number) list.now)) }
{
    let mut all = Vec::new(alloc);
    all.push(0)?;
    for plugin in list {
        push_numbers(&mut all, plugin.callbacks.as_slice())?;
    }
    Ok(all)
}

/// Appends the places of the callbacks of a plugin, which is at an index.
fn push_places<S: Stated>(
    places: &mut Vec<CallbackPlace>,
    plugin: usize,
    callbacks: &[S],
) -> Result<(), AllocError> {
    for (callback, held) in callbacks.iter().enumerate() {
        let number = held.id().number();
        places.push(CallbackPlace {
            number,
            plugin,
            callback,
        })?;
    }
    Ok(())
}

/// Lists where each callback is, by ascending number.
fn places_of<S: Stated>(
    alloc: Global,
    list: &[Plugin<S>],
) -> Result<Vec<CallbackPlace>, AllocError> {
    let mut places = Vec::new(alloc);
    for (at, plugin) in list.iter().enumerate() {
        push_places(&mut places, at, plugin.callbacks.as_slice())?;
    }
    places.sort_unstable_by_key(|place| place.number);
    // Each number below 1,024 gets a place, also one that no callback has, so that it is found
    // without a search. Most bundles have no larger numbers.
    let mut all = Vec::with_capacity(alloc, 1_024)?;
    let mut next = 0;
    for number in 0..1_024 {
        let mut place = CallbackPlace {
            number,
            plugin: usize::MAX,
            callback: usize::MAX,
        };
        if let Some(known) = places.get(next) {
            if known.number == number {
                place = *known;
                next += 1;
            }
        }
        all.push(place)?;
    }
    for at in next..places.len() {
        all.push(places[at])?;
    }
    Ok(all)
}

fn with_places<S: Stated>(alloc: Global, list: Ordered<S>) -> Result<Plugins<S>, PluginFault>
    ensures ok { IfOk result (λ plugins. plugins.list ≡ list) }
    ensures err { IfErr result (λ fault. fault ≡ PluginFault.OutOfMemory) }
{
    match places_of(alloc, list.as_slice()) {
        Ok(places) => Ok(Plugins { list, places }),
        Err(AllocError) => {
            drop(list);
            Err(PluginFault::OutOfMemory)
        }
    }
}

fn has_repeat(alloc: Global, numbers: &[u32]) -> Result<bool, AllocError>
    ensures { IfOk result (λ repeat. repeat ≡ has_repeat (λ m n. m == n) numbers.now) }
{
    let mut seen = IndexSet::new(alloc);
    for number in numbers {
        if !seen.insert(*number)? {
            return Ok(true);
        }
    }
    Ok(false)
}

fn has_same_callback<S: Stated>(alloc: Global, list: &[Plugin<S>]) -> Result<bool, AllocError>
    ensures { IfOk result (λ same. same ≡ has_same_callback (map (shape_of S.number) list.now)) }
{
    let all = all_numbers(alloc, list)?;
    has_repeat(alloc, &all)
}
