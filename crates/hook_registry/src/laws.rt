//! Laws of the table. Each call does nothing: it carries the facts of its clauses.
ghost use Rattle.std.specs.Prelude.{◌≡◌, ◌==◌, ◌<ℤ◌, ◌≤ℤ◌, List, ℕ, ℤ, Option, Some, map, filter};
ghost use Rattle.std.specs.List.{list_any};
ghost use Rattle.hook_registry.specs.Order.{by_priority};
ghost use Rattle.hook_registry.specs.Table.{
  Table,
  registrations,
  group,
  after,
  next_priority,
  has,
  priority_of,
  least_priority,
  is_at,
  is_of,
  is_above,
  entry_of,
};
ghost use Rattle.hook_registry.specs.OneList.{TableChange, with_change, table_after, list_after};
ghost use Rattle.hook_registry.specs.OneList.{is_in, is_same, registrations_in, priority_changed};

/// A law: after any changes to an empty registry, the table has under each hook what one list of
/// all registrations, in the order of adding, has of that hook, by ascending priority and those of
/// one priority in their order. So at each priority it has the callbacks of the one list, and the
/// smallest priority above any is that of the one list. Whether a hook has a registration, and the
/// smallest priority of a callback under it, are as in the one list; and `Registry::remove` returns
/// whether the one list has the registration.
pub fn one_list()
    ensures registrations { (changes : List TableChange) (hook : List ℕ)
        → registrations (table_after changes) hook
        ≡ by_priority (registrations_in (list_after changes) hook) }
    ensures groups { (changes : List TableChange) (hook : List ℕ) (priority : ℤ)
        → group (table_after changes) hook priority
        ≡ map entry_of (filter (is_at priority) (registrations_in (list_after changes) hook)) }
    ensures next { (changes : List TableChange) (hook : List ℕ) (above : Option ℤ)
        → next_priority (table_after changes) hook above
        ≡ least_priority (is_above above) (registrations_in (list_after changes) hook) }
    ensures has { (changes : List TableChange) (hook : List ℕ)
        → has (table_after changes) hook ≡ list_any (is_in hook) (list_after changes) }
    ensures least { (changes : List TableChange) (hook : List ℕ) (callback : ℕ)
        → priority_of (table_after changes) hook callback
        ≡ least_priority (λ r. r.callback == callback)
        (registrations_in (list_after changes) hook) }
    ensures there { (changes : List TableChange) (hook : List ℕ) (priority : ℤ) (callback : ℕ)
        → list_any (is_of priority callback) (registrations (table_after changes) hook)
        ≡ list_any (is_same hook priority callback) (list_after changes) }
{}

/// A law: a change at a priority, under any hook, leaves every hook's callbacks at each larger
/// priority as they were, and also which priority comes next after it and after each larger one. So
/// a change at the running priority or a smaller one does not affect what a pass has still to come
/// to.
pub fn later_priorities_stay()
    ensures groups { (table : Table) (change : TableChange) (hook : List ℕ) (q r : ℤ)
        → priority_changed change ≡ Some q → q <ℤ r
        → group (with_change table change) hook r ≡ group table hook r }
    ensures next { (table : Table) (change : TableChange) (hook : List ℕ) (q r : ℤ)
        → priority_changed change ≡ Some q → q ≤ℤ r
        → after (with_change table change) hook r ≡ after table hook r }
{}
