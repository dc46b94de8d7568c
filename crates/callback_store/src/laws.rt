//! A law of plugins. The call does nothing: it carries the fact of its clause.
ghost use Rattle.std.specs.Prelude.{◌≡◌, List};
ghost use Rattle.callback_store.specs.Shape.{Shape, AreInOrder, by_name};

/// A law: plugins that are in order are in the only order by name. So load lists are carried out in
/// the order in which `Plugins::new` puts plugins.
pub fn ordered_by_name()
    ensures { (shapes : List Shape) → AreInOrder shapes → by_name shapes ≡ shapes }
{}
