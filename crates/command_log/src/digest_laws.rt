//! Laws of digests. A law is a function without a body: its contract is the fact.
ghost use Rattle.std.specs.Prelude.{◌≡◌, ◌⊎◌, [], ℕ, List, codes, take, Contains};
ghost use Rattle.hex.specs.Hex.{encode_lower};
ghost use Rattle.command_log.specs.Digests.{Collide, digest_of, digests_of};

/// A law: lines with one digest are the same lines, or two different texts with the same SHA-256 are
/// known.
///
/// So if a history is found whose last digest is one that the history had which was written, then it
/// is that history up to there: no line of it has changed, and nothing but lines at its end is missing.
pub fn digests_tell_lines_apart()
    ensures whole { (lines others : List (List ℕ)) → digest_of lines ≡ digest_of others
        → (lines ≡ others) ⊎ Collide }
    ensures fronts { (lines found : List (List ℕ)) → Contains (digests_of lines) (digest_of found)
        → ((n : ℕ) × (found ≡ take n lines)) ⊎ Collide }
{}

/// States digests. The call itself does nothing: it carries this fact.
pub fn worked_digests()
    ensures none { encode_lower (digest_of [])
        ≡ codes "e3b0c44298fc1c149afbf4c8996fb92427ae41e4649b934ca495991b7852b855" }
{}
