//! Worked choices of templates that are theorems: each clause below is computed from the
//! definition.
ghost use Rattle.std.specs.Prelude.{◌≡◌, ◌∷◌, [], codes};
ghost use Rattle.site_records.specs.declared.found.FoundKind.{FoundKind};
ghost use Rattle.template_parts.specs.Choice.{template_choice};

/// Works out which template some pages have. The call itself does nothing: it carries these facts.
pub fn worked_choices()
    // A front uses `front-page`, but not one that lists posts while a page is to be shown there.
    ensures front { template_choice FoundKind.Front (codes "home" ∷ codes "front-page" ∷ [])
        ≡ codes "front-page" }
    ensures home { template_choice FoundKind.Home (codes "home" ∷ codes "front-page" ∷ [])
        ≡ codes "home" }
    ensures no_home { template_choice FoundKind.Home (codes "front-page" ∷ []) ≡ codes "index" }
    ensures front_page { template_choice FoundKind.FrontPage (codes "page" ∷ codes "front-page"
        ∷ [])
        ≡ codes "front-page" }
    ensures front_as_a_page { template_choice FoundKind.FrontPage (codes "home" ∷ codes "page" ∷ [])
        ≡ codes "page" }

    // A page that is asked for by its ID is no front, and of its own templates the first one
    // counts.
    ensures page { template_choice FoundKind.Page (codes "singular" ∷ codes "front-page" ∷ [])
        ≡ codes "singular" }
    ensures post { template_choice FoundKind.Single (codes "singular" ∷ codes "single" ∷ [])
        ≡ codes "single" }
    ensures none_stored { template_choice FoundKind.NotFound [] ≡ codes "index" }
{}
