//! Worked tables that are theorems: each clause below is computed from the definitions.
ghost use Rattle.std.specs.Prelude.{◌≡◌, ◌∷◌, [], pos, negsuc, Some, None};
ghost use Rattle.hook_registry.specs.Table.{
  registrations,
  remove,
  remove_all,
  group,
  first,
  after,
  priority_of,
};
ghost use Rattle.hook_registry.specs.Worked.{the_title, at, with_title, far_apart};
ghost use Rattle.hook_registry.specs.Worked.{one_at_two_priorities};

/// Works out what a few changes of one hook leave. `at p c n` is callback `c` at priority `p` with
/// `n` accepted arguments, and `negsuc n` is the number -(n + 1). The call itself does nothing: it
/// carries these facts.
pub fn worked_table()
    // Callbacks of one priority are in the order of adding, whatever their numbers.
    ensures adding_order { group (with_title (at (pos 10) 7 1 ∷ at (pos 10) 3 2 ∷ [])) the_title
        (pos 10)
        ≡ record { callback = 7; accepted = 1 } ∷ record { callback = 3; accepted = 2 } ∷ [] }

    // A callback added again at its priority keeps its place and takes the new count.
    ensures added_again { registrations
        (with_title (at (pos 10) 7 1 ∷ at (pos 10) 3 2 ∷ at (pos 10) 7 5 ∷ [])) the_title
        ≡ at (pos 10) 7 5 ∷ at (pos 10) 3 2 ∷ [] }

    // At another priority it is another registration, in its own place, and the first one stays.
    ensures other_priority { registrations
        (with_title (at (pos 10) 7 1 ∷ at (pos 10) 3 2 ∷ at (pos 9) 7 5 ∷ [])) the_title
        ≡ at (pos 9) 7 5 ∷ at (pos 10) 7 1 ∷ at (pos 10) 3 2 ∷ [] }

    // Priorities are signed: those below zero come first, from the smallest number to the largest.
    ensures least_first { first far_apart the_title ≡ Some (negsuc 2147483647) }
    ensures zero_next { after far_apart the_title (negsuc 2147483647) ≡ Some (pos 0) }
    ensures greatest_next { after far_apart the_title (pos 0) ≡ Some (pos 2147483647) }
    ensures none_next { after far_apart the_title (pos 2147483647) ≡ None }
    ensures next_below_zero { after
        (with_title (at (negsuc 0) 1 1 ∷ at (negsuc 9) 2 1 ∷ at (negsuc 4) 3 1 ∷ []))
        the_title (negsuc 9)
        ≡ Some (negsuc 4) }

    // Removing one registration leaves the callback's others and the other callbacks.
    ensures removed { registrations (remove one_at_two_priorities the_title (pos 10) 7) the_title
        ≡ at (pos 9) 7 2 ∷ at (pos 10) 3 2 ∷ [] }
    ensures removed_all_at { registrations
        (remove_all one_at_two_priorities the_title (Some (pos 10))) the_title
        ≡ at (pos 9) 7 2 ∷ [] }
    ensures removed_all { registrations (remove_all one_at_two_priorities the_title None) the_title
        ≡ [] }

    // If a callback has several priorities, the smallest one is returned.
    ensures least_priority { priority_of
        (with_title (at (pos 20) 7 1 ∷ at (pos 10) 3 1 ∷ at (pos 5) 7 1 ∷ []))
        the_title 7
        ≡ Some (pos 5) }
{}
