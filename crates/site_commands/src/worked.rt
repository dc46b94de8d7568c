//! Worked lines that are theorems: each clause below is computed from the definitions.
ghost use Rattle.std.specs.Prelude.{◌≡◌, codes, Some, None, replicate};
ghost use Rattle.serde_json.specs.Data.{null, string, array, no_items, item, object, no_members};
ghost use Rattle.site_records.specs.declared.post.PostKind.{PostKind};
ghost use Rattle.site_records.specs.declared.post.PostStatus.{PostStatus};
ghost use Rattle.site_commands.specs.Asked.{
  put,
  edit,
  delete,
  option,
  activate,
  deactivate,
  template,
  import,
  get,
  begin,
  turns,
};
ghost use Rattle.site_values.specs.Named.{option_named};
ghost use Rattle.site_commands.specs.Worked.{line_command};

/// States which commands some lines are. The call itself does nothing: it carries these facts.
pub fn worked_commands()
    // Only the date has to be there in `put`.
    ensures defaults { line_command (codes "{\"cmd\":\"put\",\"date\":\"2024-05-01 10:00:00\"}")
        ≡ Some (put PostKind.Post PostStatus.Publish (codes "") (codes "")
        (codes "2024-05-01 10:00:00")) }
    ensures page_draft { line_command
        (codes "{\"cmd\":\"put\",\"kind\":\"page\",\"status\":\"draft\",\"date\":\"D\"}")
        ≡ Some (put PostKind.Page PostStatus.Draft (codes "") (codes "") (codes "D")) }
    ensures texts { line_command
        (codes "{\"cmd\":\"put\",\"title\":\"T\",\"content\":\"C\",\"date\":\"D\"}")
        ≡ Some (put PostKind.Post PostStatus.Publish (codes "T") (codes "C") (codes "D")) }
    ensures no_date { line_command (codes "{\"cmd\":\"put\",\"title\":\"T\"}") ≡ None }

    // A key whose value is null isn't missing.
    ensures null_title { line_command (codes "{\"cmd\":\"put\",\"title\":null,\"date\":\"D\"}")
        ≡ None }
    ensures other_kind { line_command (codes "{\"cmd\":\"put\",\"kind\":\"Page\",\"date\":\"D\"}")
        ≡ None }
    ensures other_status { line_command
        (codes "{\"cmd\":\"put\",\"status\":\"private\",\"date\":\"D\"}")
        ≡ None }

    // What `edit` names is changed; a key that it doesn't have is ignored, whatever its value.
    ensures edited { line_command (codes "{\"cmd\":\"edit\",\"id\":1,\"title\":\"U\"}")
        ≡ Some (edit 1 None (Some (codes "U")) None None) }
    ensures ignored_kind { line_command
        (codes "{\"cmd\":\"edit\",\"id\":2,\"status\":\"draft\",\"kind\":null}")
        ≡ Some (edit 2 (Some PostStatus.Draft) None None None) }
    ensures null_status { line_command (codes "{\"cmd\":\"edit\",\"id\":1,\"status\":null}")
        ≡ None }

    // An ID is a whole number from 1 to 2,147,483,647, without fraction and exponent.
    ensures greatest_id { line_command (codes "{\"cmd\":\"delete\",\"id\":2147483647}")
        ≡ Some (delete 2147483647) }
    ensures greater_id { line_command (codes "{\"cmd\":\"delete\",\"id\":2147483648}") ≡ None }
    ensures id_0 { line_command (codes "{\"cmd\":\"delete\",\"id\":0}") ≡ None }
    ensures minus_0 { line_command (codes "{\"cmd\":\"delete\",\"id\":-0}") ≡ None }
    ensures fraction { line_command (codes "{\"cmd\":\"delete\",\"id\":1.0}") ≡ None }
    ensures exponent { line_command (codes "{\"cmd\":\"delete\",\"id\":1e0}") ≡ None }
    ensures id_in_a_text { line_command (codes "{\"cmd\":\"delete\",\"id\":\"1\"}") ≡ None }
    ensures set { line_command
        (codes "{\"cmd\":\"option\",\"name\":\"posts_per_page\",\"value\":\"5\"}")
        ≡ Some (option (codes "posts_per_page") (codes "5")) }

    // The name of an option has 1 to 64 bytes.
    ensures no_name { line_command (codes "{\"cmd\":\"option\",\"name\":\"\",\"value\":\"5\"}")
        ≡ None }
    ensures longest_name { option_named (replicate 64 97) ≡ Some (replicate 64 97) }
    ensures longer_name { option_named (replicate 65 97) ≡ None }
    ensures activated { line_command (codes "{\"cmd\":\"activate\",\"plugin\":\"bold\"}")
        ≡ Some (activate (codes "bold")) }
    ensures deactivated { line_command (codes "{\"cmd\":\"deactivate\",\"plugin\":\"bold\"}")
        ≡ Some (deactivate (codes "bold")) }

    // The body of a template and the site of an import may be any value, but they have to be there.
    ensures templated { line_command
        (codes "{\"cmd\":\"template\",\"name\":\"index\",\"body\":[\"x\"]}")
        ≡ Some (template (codes "index") (array (item (string (codes "x")) no_items))) }
    ensures null_body { line_command
        (codes "{\"cmd\":\"template\",\"name\":\"x\",\"body\":null}")
        ≡ Some (template (codes "x") null) }
    ensures no_body { line_command (codes "{\"cmd\":\"template\",\"name\":\"index\"}") ≡ None }
    ensures unnamed_template { line_command (codes "{\"cmd\":\"template\",\"body\":[]}") ≡ None }
    ensures imported { line_command (codes "{\"cmd\":\"import\",\"site\":{}}")
        ≡ Some (import (object no_members)) }
    ensures null_site { line_command (codes "{\"cmd\":\"import\",\"site\":null}")
        ≡ Some (import null) }
    ensures no_site { line_command (codes "{\"cmd\":\"import\"}") ≡ None }

    ensures asked_for { line_command (codes "{\"cmd\":\"get\",\"path\":\"/?p=1\"}")
        ≡ Some (get (codes "/?p=1")) }
    ensures no_path { line_command (codes "{\"cmd\":\"get\"}") ≡ None }

    // A page is begun by its path. It is given turns by its number, 1 to 8, with a count of 1 to
    // 1,000,000.
    ensures begun { line_command (codes "{\"cmd\":\"begin\",\"path\":\"/?p=1\"}")
        ≡ Some (begin (codes "/?p=1")) }
    ensures no_path_to_begin { line_command (codes "{\"cmd\":\"begin\"}") ≡ None }
    ensures turned { line_command (codes "{\"cmd\":\"turns\",\"page\":1,\"count\":3}")
        ≡ Some (turns 1 3) }
    ensures most_turns { line_command
        (codes "{\"cmd\":\"turns\",\"page\":8,\"count\":1000000}")
        ≡ Some (turns 8 1000000) }
    ensures more_turns { line_command
        (codes "{\"cmd\":\"turns\",\"page\":1,\"count\":1000001}") ≡ None }
    ensures count_0 { line_command (codes "{\"cmd\":\"turns\",\"page\":1,\"count\":0}")
        ≡ None }
    ensures page_0 { line_command (codes "{\"cmd\":\"turns\",\"page\":0,\"count\":1}")
        ≡ None }
    ensures page_9 { line_command (codes "{\"cmd\":\"turns\",\"page\":9,\"count\":1}")
        ≡ None }
    ensures no_count { line_command (codes "{\"cmd\":\"turns\",\"page\":1}") ≡ None }

    // The last value of a repeated key counts.
    ensures last_value { line_command (codes "{\"path\":\"/x\",\"cmd\":\"get\",\"path\":\"/\"}")
        ≡ Some (get (codes "/")) }
    ensures no_such_command { line_command (codes "{\"cmd\":\"publish\",\"id\":1}") ≡ None }
    ensures no_object { line_command (codes "[\"get\",\"/\"]") ≡ None }
{}
