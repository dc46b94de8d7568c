//! Laws of passes. The calls do nothing: they carry the facts of their clauses.
ghost use Rattle.std.specs.Prelude.{◌≡◌, ℕ, ℤ, ◌≤◌, List, IsTrue, Option, Some, None};
ghost use Rattle.hook_changes.specs.declared.reply.Change.{Change};
ghost use Rattle.callback_store.specs.Shape.{Shape};
ghost use Rattle.plain_data.specs.Texts.{Text};
ghost use Rattle.hook_meaning.specs.World.{World, world_after_change, fresh, loaded};
ghost use Rattle.hook_meaning.specs.Agreement.{AgreeOn};
ghost use Rattle.hook_changes.specs.declared.reply.Call.{Call};
ghost use Rattle.hook_registry.specs.Table.{group, after, next_priority};
ghost use Rattle.hook_meaning.specs.declared.pass_kind.PassKind.{PassKind};
ghost use Rattle.hook_meaning.specs.Trace.{Done, and_then};
ghost use Rattle.hook_meaning.specs.Meaning.{Engine, filtered, acted, replaced, invoke};
ghost use Rattle.hook_meaning.specs.Meaning.{invoked_with, group_pass, from_priority};
ghost use Rattle.hook_meaning.specs.Throughout.{
  Throughout,
  names_active,
  KeepsOutInactive,
  IsWithinCalls,
  IsWithinDepth,
  GivesNothing,
};
ghost use Rattle.hook_meaning.specs.Tables.{table_changes, table_with, HasBuiltTable};
ghost use Rattle.hook_meaning.specs.Folding.{PlainFold};

/// A law: if all callbacks of a hook are plugins' own, and none makes changes or asks, whatever it
/// is called with, a filter pass is the left fold of their answers over the value, by ascending
/// priority and then in the order of adding (Plugin Handbook, Filters), provided that there is a
/// call for each of them.
pub fn plain_callbacks_fold()
    ensures { (engine : Engine) (world : World) (hook value : Text) (args : List Text)
        → PlainFold engine world hook value args }
{}

/// A law: no callback of an inactive plugin is ever registered. Once core and the active plugins
/// have loaded, each registration is of core's callback 0 or of an active plugin's callback, and
/// each tag's handler is an active plugin's. Whatever passes begin in such a world, that holds
/// after each invocation and at the end.
pub fn inactive_callbacks_stay_out()
    ensures loaded { (plugins : List Shape) (calls : ℕ) (options : List (Text × Text))
        (active : List Text)
        → IsTrue (names_active plugins (loaded plugins (fresh calls options active))) }
    ensures filtered { (engine : Engine) (world : World) (hook value : Text) (args : List Text)
        → IsTrue (names_active engine.plugins world)
        → KeepsOutInactive engine.plugins (filtered engine world hook value args) }
    ensures acted { (engine : Engine) (world : World) (hook : Text) (args : List Text)
        → IsTrue (names_active engine.plugins world)
        → KeepsOutInactive engine.plugins (acted engine world hook args) }
    ensures replaced { (engine : Engine) (world : World) (text : Text)
        → IsTrue (names_active engine.plugins world)
        → KeepsOutInactive engine.plugins (replaced engine world text) }
{}

/// A law: a pass makes no more invocations than calls are left.
pub fn passes_keep_to_their_calls()
    ensures filtered { (engine : Engine) (world : World) (hook value : Text) (args : List Text)
        → IsWithinCalls world.calls (filtered engine world hook value args) }
    ensures acted { (engine : Engine) (world : World) (hook : Text) (args : List Text)
        → IsWithinCalls world.calls (acted engine world hook args) }
    ensures replaced { (engine : Engine) (world : World) (text : Text)
        → IsWithinCalls world.calls (replaced engine world text) }
{}

/// A law: the bounds that the definitions of passes and invocations count down change nothing. An
/// invocation is one step over the calls that are left, and a pass goes from a priority to the one
/// that comes after it in the table as that then is.
pub fn bounds_change_nothing()
    ensures invocation { (engine : Engine) (world : World) (callback : ℕ) (call : Call)
        → invoke engine world callback call
        ≡ invoked_with engine (invoke engine) world.calls world callback call }
    ensures next { (engine : Engine) (kind : PassKind) (hook : Text) (args : List Text)
        (world : World) (value : Text)
        (priority : ℤ) (above : Option ℤ) → next_priority world.table hook above ≡ Some priority
        → from_priority engine kind hook args world value (Some priority)
        ≡ and_then (group_pass (invoke engine) kind hook args world value
        (group world.table hook priority))
        (λ later kept. from_priority engine kind hook args later kept
        (after later.table hook priority)) }
    ensures none { (engine : Engine) (kind : PassKind) (hook : Text) (args : List Text)
        (world : World) (value : Text)
        → from_priority engine kind hook args world value None ≡ Done world value }
{}

/// A law: an action has no other result than empty text.
pub fn actions_give_nothing()
    ensures { (engine : Engine) (world : World) (hook : Text) (args : List Text)
        → GivesNothing engine world hook args }
{}

/// A law: a pass that begins at most 32 levels deep never goes deeper than 32.
pub fn passes_keep_to_their_depth()
    ensures filtered { (engine : Engine) (world : World) (hook value : Text) (args : List Text)
        → world.depth ≤ 32 → IsWithinDepth (filtered engine world hook value args) }
    ensures acted { (engine : Engine) (world : World) (hook : Text) (args : List Text)
        → world.depth ≤ 32 → IsWithinDepth (acted engine world hook args) }
    ensures replaced { (engine : Engine) (world : World) (text : Text)
        → world.depth ≤ 32 → IsWithinDepth (replaced engine world text) }
{}

/// A law: a request's table is what some changes leave, if nothing was registered before, once the
/// request has loaded and after each invocation and each pass. So it is a table of which
/// `hook_registry::one_list` speaks. Each change of a reply or a load list makes one change of the
/// table at most.
pub fn tables_are_built()
    ensures changed { (plugins : List Shape) (world : World) (change : Change)
        → (world_after_change plugins world change).table
        ≡ table_with world.table (table_changes plugins world change) }
    ensures loaded { (plugins : List Shape) (calls : ℕ) (options : List (Text × Text))
        (active : List Text)
        → HasBuiltTable (loaded plugins (fresh calls options active)) }
    ensures filtered { (engine : Engine) (world : World) (hook value : Text) (args : List Text)
        → HasBuiltTable world → Throughout HasBuiltTable (filtered engine world hook value args) }
    ensures acted { (engine : Engine) (world : World) (hook : Text) (args : List Text)
        → HasBuiltTable world → Throughout HasBuiltTable (acted engine world hook args) }
    ensures replaced { (engine : Engine) (world : World) (text : Text)
        → HasBuiltTable world → Throughout HasBuiltTable (replaced engine world text) }
{}

/// A law: inactive plugins have no say. If two bundles agree on the active plugins, these load
/// alike, and from each world in which no callback of an inactive plugin is registered every pass
/// goes the same way under both: through the same worlds, one after each invocation, to the same
/// end.
pub fn inactive_plugins_have_no_say_in_passes()
    ensures loaded { (one other : Engine) (calls : ℕ) (options : List (Text × Text))
        (active : List Text)
        → AgreeOn active one other
        → loaded one.plugins (fresh calls options active)
        ≡ loaded other.plugins (fresh calls options active) }
    ensures filtered { (one other : Engine) (world : World) (hook value : Text) (args : List Text)
        → AgreeOn world.active one other → IsTrue (names_active one.plugins world)
        → filtered one world hook value args ≡ filtered other world hook value args }
    ensures acted { (one other : Engine) (world : World) (hook : Text) (args : List Text)
        → AgreeOn world.active one other → IsTrue (names_active one.plugins world)
        → acted one world hook args ≡ acted other world hook args }
    ensures replaced { (one other : Engine) (world : World) (text : Text)
        → AgreeOn world.active one other → IsTrue (names_active one.plugins world)
        → replaced one world text ≡ replaced other world text }
{}
