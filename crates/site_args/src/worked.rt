//! Worked command lines that are theorems: each clause below is computed from clap's definitions.
ghost use Rattle.std.specs.Prelude.{◌≡◌, ◌∷◌, [], codes, true, false, Some, None};
ghost use Rattle.site_args.specs.CommandLine.{calls_of, cache_of, database_of, flags_of};
ghost use Rattle.site_args.specs.CommandLine.{reasons, token_file_of};

use clap::error::ErrorKind;

/// States what some command-line arguments mean. The call itself does nothing: it carries these
/// facts.
pub fn worked_args()
    ensures no_words { reasons [] ≡ [] }
    ensures default_calls { calls_of [] ≡ 10000 }
    ensures default_cache { cache_of [] ≡ 64 }
    ensures no_trace { (flags_of []).trace ≡ false }

    ensures both { reasons
        (codes "--calls" ∷ codes "100000" ∷ codes "--cache" ∷ codes "1" ∷ []) ≡ [] }
    ensures both_calls { calls_of
        (codes "--calls" ∷ codes "100000" ∷ codes "--cache" ∷ codes "1" ∷ []) ≡ 100000 }
    ensures both_cache { cache_of
        (codes "--calls" ∷ codes "100000" ∷ codes "--cache" ∷ codes "1" ∷ []) ≡ 1 }
    ensures traced { reasons (codes "--trace" ∷ []) ≡ [] }
    ensures trace { (flags_of (codes "--trace" ∷ [])).trace ≡ true }
    ensures one_word { cache_of (codes "--cache=4096" ∷ []) ≡ 4096 }

    ensures no_database { database_of [] ≡ None }
    ensures exported { reasons (codes "--database" ∷ codes "a.db" ∷ codes "--export" ∷ []) ≡ [] }
    ensures database { database_of (codes "--database" ∷ codes "a.db" ∷ codes "--export" ∷ [])
        ≡ Some (codes "a.db") }
    ensures export { (flags_of (codes "--database" ∷ codes "a.db" ∷ codes "--export" ∷ [])).export ≡ true }
    ensures not_compact { (flags_of (codes "--database" ∷ codes "a.db" ∷ codes "--export" ∷ [])).compact ≡ false }
    ensures compact { (flags_of (codes "--compact" ∷ [])).compact ≡ true }
    ensures check { (flags_of (codes "--database" ∷ codes "a.db" ∷ codes "--check" ∷ [])).check ≡ true }
    ensures must_exist { (flags_of (codes "--must-exist" ∷ [])).must_exist ≡ true }
    ensures may_be_new { (flags_of (codes "--database" ∷ codes "a.db" ∷ [])).must_exist ≡ false }
    ensures without_wal { (flags_of (codes "--without-wal" ∷ [])).without_wal ≡ true }
    ensures with_wal { (flags_of (codes "--database" ∷ codes "a.db" ∷ [])).without_wal ≡ false }

    ensures served_over_http { reasons
        (codes "--http" ∷ codes "--token-file" ∷ codes "key" ∷ []) ≡ [] }
    ensures http { (flags_of (codes "--http" ∷ codes "--token-file" ∷ codes "key" ∷ [])).http ≡ true }
    ensures token_file { token_file_of (codes "--http" ∷ codes "--token-file" ∷ codes "key" ∷ [])
        ≡ Some (codes "key") }
    ensures served_as_lines { (flags_of []).http ≡ false }
    ensures framed { (flags_of (codes "--http" ∷ codes "--framed" ∷ [])).framed ≡ true }
    ensures one_client { (flags_of (codes "--http" ∷ [])).framed ≡ false }
    ensures no_token { token_file_of (codes "--http" ∷ []) ≡ None }

    // What clap refuses, and why.
    ensures no_calls { reasons (codes "--calls" ∷ codes "0" ∷ [])
        ≡ ErrorKind.ValueValidation ∷ [] }
    ensures too_many_calls { reasons (codes "--calls" ∷ codes "100001" ∷ [])
        ≡ ErrorKind.ValueValidation ∷ [] }
    ensures no_cache { reasons (codes "--cache" ∷ codes "0" ∷ [])
        ≡ ErrorKind.ValueValidation ∷ [] }
    ensures too_large_cache { reasons (codes "--cache" ∷ codes "4097" ∷ [])
        ≡ ErrorKind.ValueValidation ∷ [] }
    ensures no_number { reasons (codes "--calls" ∷ codes "x" ∷ [])
        ≡ ErrorKind.ValueValidation ∷ [] }
    ensures twice { reasons
        (codes "--calls" ∷ codes "5" ∷ codes "--calls" ∷ codes "5" ∷ [])
        ≡ ErrorKind.ArgumentConflict ∷ [] }
    ensures traced_twice { reasons (codes "--trace" ∷ codes "--trace" ∷ [])
        ≡ ErrorKind.ArgumentConflict ∷ [] }
    ensures no_value { reasons (codes "--calls" ∷ []) ≡ ErrorKind.InvalidValue ∷ [] }
    ensures no_file { reasons (codes "--database" ∷ []) ≡ ErrorKind.InvalidValue ∷ [] }
    ensures two_databases { reasons
        (codes "--database" ∷ codes "a" ∷ codes "--database" ∷ codes "a" ∷ [])
        ≡ ErrorKind.ArgumentConflict ∷ [] }
    ensures no_option { reasons (codes "--pages" ∷ []) ≡ ErrorKind.UnknownArgument ∷ [] }
    ensures stray_word { reasons (codes "x" ∷ []) ≡ ErrorKind.UnknownArgument ∷ [] }

    // The help is asked for.
    ensures help { reasons (codes "--help" ∷ []) ≡ ErrorKind.DisplayHelp ∷ [] }
{}
