//! Worked site files that are theorems: each clause below is computed from the definitions.
ghost use Rattle.std.specs.Prelude.{◌≡◌, ◌++◌, codes, Ok, Err, [], ◌∷◌};
ghost use Rattle.site_records.specs.declared.post.PostKind.{PostKind};
ghost use Rattle.site_records.specs.declared.post.PostStatus.{PostStatus};
ghost use Rattle.site_import.specs.declared.fault.Section.{Section};
ghost use Rattle.site_import.specs.declared.fault.ImportFault.{ImportFault};
ghost use Rattle.site_import.specs.Walks.{whole, entry_of};
ghost use Rattle.site_import.specs.Site.{site_file_in};
ghost use Rattle.site_import.specs.Worked.{no_records, file_of, post_of};

/// States what some site files hold, and what the first fault of others is. The call itself does
/// nothing: it carries these facts.
pub fn worked_site_files()
    // Bytes that are not a JSON text, a value that is not an object, and a version that is not
    // known.
    ensures no_text { site_file_in (codes "{\"version\":1")
        ≡ Err (ImportFault.BadImport (whole Section.Text)) }
    ensures no_object { site_file_in (codes "[]")
        ≡ Err (ImportFault.BadImport (whole Section.Root)) }
    ensures null_site { site_file_in (codes "null")
        ≡ Err (ImportFault.BadImport (whole Section.Root)) }
    ensures no_version { site_file_in (codes "{}")
        ≡ Err (ImportFault.BadImport (whole Section.Version)) }
    ensures version_3 { site_file_in (codes "{\"version\":3}")
        ≡ Err (ImportFault.BadImport (whole Section.Version)) }
    ensures version_in_a_text { site_file_in (codes "{\"version\":\"1\"}")
        ≡ Err (ImportFault.BadImport (whole Section.Version)) }
    ensures version_with_fraction { site_file_in (codes "{\"version\":1.0}")
        ≡ Err (ImportFault.BadImport (whole Section.Version)) }

    // A missing section has no entries, and other keys are ignored.
    ensures version_2 { site_file_in (codes "{\"version\":2}")
        ≡ Ok no_records }
    ensures nothing { site_file_in (codes "{\"version\":1}")
        ≡ Ok no_records }
    ensures other_keys { site_file_in (codes "{\"version\":1,\"front\":0,\"x\":null}")
        ≡ Ok no_records }

    // Posts, with each of their keys.
    ensures page { site_file_in
        (file_of (codes "{\"id\":7,\"kind\":\"page\",\"status\":\"draft\","
        ++ codes "\"title\":\"T\",\"content\":\"C\",\"date\":\"2024-05-01 10:00:00\"}"))
        ≡ Ok (record no_records {
          posts = record {
            id = 7;
            kind = PostKind.Page;
            status = PostStatus.Draft;
            title = codes "T";
            content = codes "C";
            date = codes "2024-05-01 10:00:00";
          } ∷ [];
        }) }
    ensures null_posts { site_file_in (codes "{\"version\":1,\"posts\":null}")
        ≡ Err (ImportFault.BadImport (whole Section.Posts)) }
    ensures post_without_content { site_file_in
        (file_of (codes "{\"id\":1,\"kind\":\"post\",\"status\":\"publish\","
        ++ codes "\"title\":\"T\",\"date\":\"2024-05-01 10:00:00\"}"))
        ≡ Err (ImportFault.BadImport (entry_of Section.Posts 0)) }
    ensures id_0 { site_file_in
        (file_of (post_of (codes "0") (codes "2024-05-01 10:00:00")))
        ≡ Err (ImportFault.BadImport (entry_of Section.Posts 0)) }
    ensures second_date { site_file_in
        (file_of (post_of (codes "1") (codes "2024-05-01 10:00:00")
        ++ (codes "," ++ post_of (codes "2") (codes "2024-02-30 10:00:00"))))
        ≡ Err (ImportFault.BadDate (entry_of Section.Posts 1)) }
    ensures first_post_first { site_file_in
        (file_of (post_of (codes "1") (codes "2024-02-30 10:00:00") ++ codes ",0"))
        ≡ Err (ImportFault.BadDate (entry_of Section.Posts 0)) }

    // Options and templates are read by name in the order of bytes.
    ensures options { site_file_in (codes "{\"version\":1,\"options\":{\"b\":\"2\",\"a\":\"1\"}}")
        ≡ Ok (record no_records {
          options = (codes "a", codes "1") ∷ (codes "b", codes "2") ∷ [];
        }) }
    ensures later_option { site_file_in (codes "{\"version\":1,\"options\":{\"b\":2,\"a\":\"1\"}}")
        ≡ Err (ImportFault.BadImport (entry_of Section.Options 1)) }
    ensures unnamed_option { site_file_in (codes "{\"version\":1,\"options\":{\"\":\"1\"}}")
        ≡ Err (ImportFault.BadImport (entry_of Section.Options 0)) }
    ensures options_in_a_list { site_file_in (codes "{\"version\":1,\"options\":[]}")
        ≡ Err (ImportFault.BadImport (whole Section.Options)) }
    ensures template { site_file_in (codes "{\"version\":1,\"templates\":{\"index\":[ \"x\" ]}}")
        ≡ Ok (record no_records { templates = (codes "index", codes "[\"x\"]") ∷ [] }) }
    ensures unknown_template { site_file_in
        (codes "{\"version\":1,\"templates\":{\"x\":[],\"index\":[]}}")
        ≡ Err (ImportFault.BadTemplate (entry_of Section.Templates 1)) }
    ensures null_template { site_file_in (codes "{\"version\":1,\"templates\":{\"index\":null}}")
        ≡ Err (ImportFault.BadTemplate (entry_of Section.Templates 0)) }
    ensures active { site_file_in (codes "{\"version\":1,\"active\":[\"once\",\"bold\"]}")
        ≡ Ok (record no_records { active = codes "once" ∷ codes "bold" ∷ [] }) }
    ensures active_number { site_file_in (codes "{\"version\":1,\"active\":[\"once\",1]}")
        ≡ Err (ImportFault.BadImport (entry_of Section.Active 1)) }

    // What the front shows: options after the others, in version 2 alone.
    ensures front_page { site_file_in
        (codes "{\"version\":2,\"front\":{\"show\":\"page\",\"page\":7}}")
        ≡ Ok (record no_records {
          options =
              (codes "show_on_front", codes "page") ∷ (codes "page_on_front", codes "7") ∷ [];
        }) }
    ensures front_posts { site_file_in
        (codes "{\"version\":2,\"front\":{\"show\":\"posts\",\"page\":0}}")
        ≡ Ok (record no_records { options = (codes "show_on_front", codes "posts") ∷ [] }) }
    ensures front_after_options { site_file_in
        (codes "{\"version\":2,\"front\":{\"show\":\"posts\"},"
        ++ codes "\"options\":{\"show_on_front\":\"page\",\"x\":\"1\"}}")
        ≡ Ok (record no_records {
          options = (codes "show_on_front", codes "page")
              ∷ (codes "x", codes "1") ∷ (codes "show_on_front", codes "posts") ∷ [];
        }) }
    ensures front_in_version_1 { site_file_in
        (codes "{\"version\":1,\"front\":{\"show\":\"page\",\"page\":7}}")
        ≡ Ok no_records }
    ensures front_x { site_file_in (codes "{\"version\":2,\"front\":{\"show\":\"x\"}}")
        ≡ Err (ImportFault.BadImport (whole Section.Front)) }
    ensures front_without_page { site_file_in
        (codes "{\"version\":2,\"front\":{\"show\":\"page\"}}")
        ≡ Err (ImportFault.BadImport (whole Section.Front)) }
    ensures front_page_0 { site_file_in
        (codes "{\"version\":2,\"front\":{\"show\":\"page\",\"page\":0}}")
        ≡ Err (ImportFault.BadImport (whole Section.Front)) }
    ensures null_front { site_file_in (codes "{\"version\":2,\"front\":null}")
        ≡ Err (ImportFault.BadImport (whole Section.Front)) }

    // The first fault is that of the first section, wherever its key is.
    ensures posts_before_options { site_file_in (codes "{\"version\":1,\"options\":0,\"posts\":0}")
        ≡ Err (ImportFault.BadImport (whole Section.Posts)) }
    ensures options_before_templates { site_file_in
        (codes "{\"version\":1,\"templates\":0,\"options\":0}")
        ≡ Err (ImportFault.BadImport (whole Section.Options)) }
    ensures options_before_front { site_file_in (codes "{\"version\":2,\"front\":0,\"options\":0}")
        ≡ Err (ImportFault.BadImport (whole Section.Options)) }
    ensures front_before_templates { site_file_in
        (codes "{\"version\":2,\"templates\":0,\"front\":0}")
        ≡ Err (ImportFault.BadImport (whole Section.Front)) }
    ensures templates_before_active { site_file_in
        (codes "{\"version\":1,\"active\":0,\"templates\":{\"x\":[]}}")
        ≡ Err (ImportFault.BadTemplate (entry_of Section.Templates 0)) }
{}
