//! Worked rows that are theorems: each clause below is computed from the definitions.
ghost use Rattle.std.specs.Prelude.{◌≡◌, ◌∷◌, [], codes, true, false};
ghost use Rattle.std.specs.FinMap.{entries, keys};
ghost use Rattle.site_records.specs.declared.post.PostKind.TheVariants.{
  Post as OfPost,
  Page as OfPage,
};
ghost use Rattle.post_tables.specs.Page.{page_of};
ghost use Rattle.post_tables.specs.Rows.{
  are_new,
  edited_posts,
  with_posts,
  largest_of,
};
ghost use Rattle.post_tables.specs.Worked.{
  monday,
  tuesday,
  wednesday,
  post,
  page,
  two_posts,
  one_deleted,
  some_posts,
  new_title,
  some_options,
  some_names,
};

/// States what a few calls leave and return. `post n day` is a published post, `draft n day` one
/// that isn't published, and `page n day` a page. The call itself does nothing: it carries these
/// facts.
pub fn worked_rows()
    // The ID of a deleted post isn't used again: the largest one given stays.
    ensures put { two_posts.posts ≡ post 1 monday ∷ post 2 monday ∷ [] }
    ensures deleted { one_deleted.posts ≡ post 1 monday ∷ [] }
    ensures largest { one_deleted.largest ≡ 2 }

    // An edit keeps what is not given, and other posts.
    ensures edited { edited_posts 2 new_title two_posts.posts
        ≡ post 1 monday ∷ record (post 2 monday) { title = codes "u" } ∷ [] }
    ensures nothing_edited { edited_posts 3 new_title two_posts.posts ≡ two_posts.posts }

    // Imported posts are in the order of their IDs, and the largest ID is the largest of them all.
    ensures imported { with_posts (post 7 monday ∷ post 3 monday ∷ []) (post 5 monday ∷ [])
        ≡ post 3 monday ∷ post 5 monday ∷ post 7 monday ∷ [] }
    ensures largest_imported { largest_of (post 7 monday ∷ post 3 monday ∷ []) 5 ≡ 7 }
    ensures still_largest { largest_of (post 3 monday ∷ []) 5 ≡ 5 }
    ensures new_ids { are_new (post 7 monday ∷ post 3 monday ∷ []) (post 5 monday ∷ []) ≡ true }
    ensures id_there { are_new (post 7 monday ∷ post 5 monday ∷ []) (post 5 monday ∷ []) ≡ false }
    ensures id_twice { are_new (post 1 monday ∷ post 1 tuesday ∷ []) [] ≡ false }

    // Newest first, and of two with one date the larger ID first; no drafts, no pages; both ends of
    // the span count.
    ensures newest_first { page_of OfPost monday wednesday 10 0 some_posts
        ≡ post 2 wednesday ∷ post 6 tuesday ∷ post 5 monday ∷ post 1 monday ∷ [] }
    ensures only_pages { page_of OfPage monday wednesday 10 0 some_posts ≡ page 4 tuesday ∷ [] }
    ensures one_day { page_of OfPost monday monday 10 0 some_posts
        ≡ post 5 monday ∷ post 1 monday ∷ [] }
    ensures second_page { page_of OfPost monday wednesday 2 2 some_posts
        ≡ post 5 monday ∷ post 1 monday ∷ [] }
    ensures none_left { page_of OfPost monday wednesday 2 4 some_posts ≡ [] }
    ensures no_span { page_of OfPost wednesday monday 10 0 some_posts ≡ [] }

    // Names are in the order of their bytes, and a later value counts.
    ensures values { entries some_options
        ≡ (codes "a", codes "2") ∷ (codes "b", codes "3") ∷ [] }
    ensures names { keys some_names ≡ codes "a" ∷ codes "b" ∷ [] }
{}
