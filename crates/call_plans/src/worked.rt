//! A worked pass that is a theorem: each clause below is computed from the definitions.
ghost use Rattle.std.specs.Prelude.{◌≡◌, ◌∷◌, [], Some, None};
ghost use Rattle.call_plans.specs.Worked.{
  at_start,
  steps,
  position_after,
  table_before,
  table_meanwhile,
  table_at_last,
};

/// Works out a pass over a hook that changes while the pass is in its first group. The call itself
/// does nothing: it carries these facts.
pub fn worked_pass()
    // The pass begins with the first callback of the smallest priority.
    ensures first { steps 1 table_before at_start ≡ Some 1 ∷ [] }

    // It goes on through the group as it was when the pass reached it: what is removed and added
    // again, or added, at this priority or a smaller one doesn't change it. What is added at a
    // larger priority is reached.
    ensures meanwhile { steps 3 table_meanwhile (position_after 1 table_before at_start)
        ≡ Some 2 ∷ Some 5 ∷ None ∷ [] }

    // A pass that has come to the end goes on if something is added at a larger priority.
    ensures at_last { steps 1 table_at_last
        (position_after 3 table_meanwhile (position_after 1 table_before at_start))
        ≡ Some 6 ∷ [] }

    // A new pass goes over the groups as they now are.
    ensures anew { steps 7 table_at_last at_start
        ≡ Some 4 ∷ Some 2 ∷ Some 1 ∷ Some 3 ∷ Some 5 ∷ Some 6 ∷ None ∷ [] }
{}
