//! Worked queries that are theorems: each clause below is computed from the definitions.
ghost use Rattle.std.specs.Prelude.{◌≡◌, codes, [], ◌∷◌, Some, None, true, false};
ghost use Rattle.post_tables.specs.Worked.{monday, tuesday, wednesday, post, page, some_posts};
ghost use Rattle.permalink_query.specs.Paths.{query_of};
ghost use Rattle.permalink_query.specs.Found.{
  query_result,
  showing,
  nothing,
  posts_per_page,
  page_on_front,
  published_posts,
  part_of_posts,
};
ghost use Rattle.permalink_query.specs.Worked.{fronting};
ghost use Rattle.permalink_query.specs.Months.{is_in_month};

use crate::query::Query;
use site_records::{FoundKind, PostStatus};

/// States what some paths ask for. The call itself does nothing: it carries these facts.
#[tactic(auto, unfolding(form_urlencoded::proofs::OnLiterals::form_urlencoded_on_literals))]
pub fn worked_queries()
    // The front has two names, and any other path asks for nothing.
    ensures front { query_of (codes "/") ≡ Query.Front (Some 1) }
    ensures empty_form { query_of (codes "/?") ≡ Query.Front (Some 1) }
    ensures script { query_of (codes "/index.php?p=1") ≡ Query.Single 1 }
    ensures other_path { query_of (codes "/x") ≡ Query.Nothing }
    ensures no_path { query_of (codes "") ≡ Query.Nothing }
    ensures encoded_path { query_of (codes "%2F?p=1") ≡ Query.Nothing }
    ensures other_name { query_of (codes "/?P=1&page=2") ≡ Query.Front (Some 1) }

    // Names and values are compared decoded, and only the first `?` cuts.
    ensures escaped { query_of (codes "/?%70=%31") ≡ Query.Single 1 }
    ensures plus { query_of (codes "/?p=+1") ≡ Query.Nothing }
    ensures not_utf8 { query_of (codes "/?p=1%FF") ≡ Query.Nothing }
    ensures second_mark { query_of (codes "/?p=1?") ≡ Query.Nothing }

    // The last value of a name counts.
    ensures last_value { query_of (codes "/?p=1&p=2") ≡ Query.Single 2 }
    ensures last_is_bad { query_of (codes "/?p=1&p") ≡ Query.Nothing }

    // Of `p`, `page_id` and `m` the first decides alone, whatever its value.
    ensures p_before_page { query_of (codes "/?page_id=4&p=1") ≡ Query.Single 1 }
    ensures p_before_month { query_of (codes "/?p=1&m=202413") ≡ Query.Single 1 }
    ensures bad_p_hides { query_of (codes "/?p=x&page_id=4") ≡ Query.Nothing }
    ensures page_before_month { query_of (codes "/?m=202405&page_id=4") ≡ Query.Page 4 }

    // A number has one to ten digits, and is at most 2,147,483,647.
    ensures leading_zeros { query_of (codes "/?p=0000000001") ≡ Query.Single 1 }
    ensures eleven_digits { query_of (codes "/?p=00000000001") ≡ Query.Nothing }
    ensures greatest { query_of (codes "/?p=2147483647") ≡ Query.Single 2147483647 }
    ensures too_great { query_of (codes "/?p=2147483648") ≡ Query.Nothing }
    ensures no_digits { query_of (codes "/?p=") ≡ Query.Nothing }
    ensures no_value { query_of (codes "/?p") ≡ Query.Nothing }

    // A month is six digits.
    ensures month { query_of (codes "/?m=202405") ≡ Query.Month 2024 5 1 }
    ensures first_year { query_of (codes "/?m=000112&paged=2") ≡ Query.Month 1 12 2 }
    ensures year_0 { query_of (codes "/?m=000001") ≡ Query.Nothing }
    ensures month_0 { query_of (codes "/?m=202400") ≡ Query.Nothing }
    ensures month_13 { query_of (codes "/?m=202413") ≡ Query.Nothing }
    ensures year_alone { query_of (codes "/?m=2024") ≡ Query.Nothing }

    // Parts count on lists alone.
    ensures second_part { query_of (codes "/?paged=2") ≡ Query.Front (Some 2) }
    ensures part_0 { query_of (codes "/?paged=00") ≡ Query.Front (Some 1) }
    ensures no_part { query_of (codes "/?paged=") ≡ Query.Front None }
    ensures bad_part { query_of (codes "/?m=202405&paged=x") ≡ Query.Nothing }
    ensures part_of_a_post { query_of (codes "/?p=1&paged=x") ≡ Query.Single 1 }
    ensures part_of_a_page { query_of (codes "/?page_id=4&paged=2") ≡ Query.Page 4 }
{}

/// States what a site has for some queries: posts 1, 2, 5 and 6, the draft 3 and the page 4, all of
/// May 2024. The call itself does nothing: it carries these facts.
pub fn worked_finds()
    ensures front { query_result some_posts [] (Query.Front (Some 1)) ≡ showing FoundKind.Front
        (post 2 wednesday ∷ post 6 tuesday ∷ post 5 monday ∷ post 1 monday ∷ []) }
    ensures part_0 { query_result some_posts [] (Query.Front (Some 0))
        ≡ query_result some_posts [] (Query.Front (Some 1)) }
    ensures no_second_part { query_result some_posts [] (Query.Front (Some 2)) ≡ nothing }
    ensures part_that_is_no_number { query_result some_posts [] (Query.Front None) ≡ nothing }
    ensures empty_front { query_result [] [] (Query.Front (Some 1)) ≡ showing FoundKind.Front [] }

    ensures one_post { query_result some_posts [] (Query.Single 5)
        ≡ showing FoundKind.Single (post 5 monday ∷ []) }
    ensures one_page { query_result some_posts [] (Query.Page 4)
        ≡ showing FoundKind.Page (page 4 tuesday ∷ []) }
    ensures no_draft { query_result some_posts [] (Query.Single 3) ≡ nothing }
    ensures no_page_by_p { query_result some_posts [] (Query.Single 4) ≡ nothing }
    ensures no_post_by_page_id { query_result some_posts [] (Query.Page 5) ≡ nothing }
    ensures no_such_id { query_result some_posts [] (Query.Single 9) ≡ nothing }

    ensures may { query_result some_posts [] (Query.Month 2024 5 1) ≡ showing FoundKind.Month
        (post 2 wednesday ∷ post 6 tuesday ∷ post 5 monday ∷ post 1 monday ∷ []) }
    ensures june { query_result some_posts [] (Query.Month 2024 6 1) ≡ nothing }
    ensures no_month { query_result some_posts [] (Query.Month 2024 13 1) ≡ nothing }

    // The published posts, a part of them, and the ends of a month.
    ensures published { published_posts some_posts
        ≡ post 1 monday ∷ post 2 wednesday ∷ post 5 monday ∷ post 6 tuesday ∷ [] }
    ensures last_part { part_of_posts 3 2 (published_posts some_posts) ≡ post 1 monday ∷ [] }
    ensures first_second { is_in_month 2024 5 (codes "2024-05-01 00:00:00") ≡ true }
    ensures last_second { is_in_month 2024 5 (codes "2024-05-31 23:59:59") ≡ true }
    ensures next_second { is_in_month 2024 5 (codes "2024-06-01 00:00:00") ≡ false }
    ensures other_year { is_in_month 2024 5 (codes "2023-05-15 10:00:00") ≡ false }

    // The first option of a name counts, if it is a number from 1 to 100.
    ensures two_by_two { query_result some_posts ((codes "posts_per_page", codes "2") ∷ [])
        (Query.Front (Some 2)) ≡ showing FoundKind.Front (post 5 monday ∷ post 1 monday ∷ []) }
    ensures first_option { posts_per_page ((codes "posts_per_page", codes "3")
        ∷ (codes "posts_per_page", codes "4") ∷ []) ≡ 3 }
    ensures size_0 { posts_per_page ((codes "posts_per_page", codes "0") ∷ []) ≡ 10 }
    ensures size_101 { posts_per_page ((codes "posts_per_page", codes "101") ∷ []) ≡ 10 }
    ensures no_size { posts_per_page ((codes "posts_per_page", codes "all") ∷ []) ≡ 10 }
{}

/// States what the front of a site with the posts above is: with the page 4 at its front, with an
/// ID there that isn't a published page's, and with posts in place of a page. The call itself does
/// nothing: it carries these facts.
pub fn worked_fronts()
    // The page is shown whatever the part; asked for by its ID it isn't a front.
    ensures page { query_result some_posts (fronting (codes "page") (codes "4"))
        (Query.Front (Some 1))
        ≡ showing FoundKind.FrontPage (page 4 tuesday ∷ []) }
    ensures second_part { query_result some_posts (fronting (codes "page") (codes "4"))
        (Query.Front (Some 2))
        ≡ showing FoundKind.FrontPage (page 4 tuesday ∷ []) }
    ensures no_number { query_result some_posts (fronting (codes "page") (codes "4"))
        (Query.Front None)
        ≡ showing FoundKind.FrontPage (page 4 tuesday ∷ []) }
    ensures by_its_id { query_result some_posts (fronting (codes "page") (codes "4")) (Query.Page 4)
        ≡ showing FoundKind.Page (page 4 tuesday ∷ []) }
    ensures leading_zeros { page_on_front (fronting (codes "page") (codes "0000000004")) ≡ Some 4 }

    // Nothing is found if there is no published page with that ID: another ID, a post, a draft.
    ensures no_such_id { query_result some_posts (fronting (codes "page") (codes "99"))
        (Query.Front (Some 1)) ≡ nothing }
    ensures no_post { query_result some_posts (fronting (codes "page") (codes "5"))
        (Query.Front (Some 1))
        ≡ nothing }
    ensures no_draft { query_result (record (page 4 tuesday) { status = PostStatus.Draft } ∷ [])
        (fronting (codes "page") (codes "4")) (Query.Front (Some 1)) ≡ nothing }

    // Posts are listed if one of the two options doesn't say which page.
    ensures posts { query_result some_posts (fronting (codes "posts") (codes "4"))
        (Query.Front (Some 1))
        ≡ query_result some_posts [] (Query.Front (Some 1)) }
    ensures other_text { query_result some_posts (fronting (codes "Page") (codes "4"))
        (Query.Front (Some 1))
        ≡ query_result some_posts [] (Query.Front (Some 1)) }
    ensures page_x { query_result some_posts (fronting (codes "page") (codes "x"))
        (Query.Front (Some 1))
        ≡ showing FoundKind.Home
        (post 2 wednesday ∷ post 6 tuesday ∷ post 5 monday ∷ post 1 monday ∷ []) }
    ensures page_0 { page_on_front (fronting (codes "page") (codes "00")) ≡ None }
    ensures no_text { page_on_front (fronting (codes "page") []) ≡ None }
    ensures too_great { page_on_front (fronting (codes "page") (codes "2147483648")) ≡ None }
    ensures no_page { query_result [] ((codes "show_on_front", codes "page") ∷ [])
        (Query.Front (Some 1))
        ≡ showing FoundKind.Home [] }
    ensures no_part { query_result [] ((codes "show_on_front", codes "page") ∷ [])
        (Query.Front None)
        ≡ nothing }
    ensures first_option { page_on_front ((codes "show_on_front", codes "posts")
        ∷ fronting (codes "page") (codes "4")) ≡ None }
{}
