//! What is so of every log.
ghost use Rattle.std.specs.Prelude.{◌≡◌, ◌+◌, ◌<◌, ◌≤◌, ℕ, List, IsTrue, length, slice_index};
ghost use Rattle.sqlite_wal.specs.Gate.{Beside};
ghost use Rattle.sqlite_wal.specs.Recovery.{frame_at, frame, header, IsCommitted, Passes};
ghost use Rattle.log_tails.specs.declared.tail.Tail.{Tail as Found};
ghost use Rattle.log_tails.specs.Tails.{IsCommittedTo, IsShutAfter, IsTailOf};

/// A law: no crash leaves a log that is told to be damaged. The call does nothing: it carries these
/// facts.
pub fn law_of_crashes()
    // A log that ends where its last commit does.
    ensures sound { (page_size k : ℕ) (log : List ℕ) (tail : Found)
        → IsCommitted page_size log k → length log ≡ frame_at page_size k
        → IsTailOf log tail → IsTrue tail.is_whole }

    // A log with a gate after its last commit that is shut, whatever else follows.
    ensures shut { (page_size k : ℕ) (log : List ℕ) (tail : Found)
        → IsCommitted page_size log k → IsShutAfter page_size log k
        → IsTailOf log tail → IsCommittedTo page_size log k tail }

    // A crash while frames are written after that, which leaves any bytes there but at the gate.
    ensures torn { (page_size k at n : ℕ) (old new : List ℕ) (tail : Found)
        → IsCommitted page_size old k → IsShutAfter page_size old k
        → frame_at page_size k ≤ at → Beside at n (frame_at page_size k + 8) old new
        → IsTailOf new tail → IsCommittedTo page_size old k tail }
{}

/// A law: a log in which a frame of a commit was changed, other than at its gate, or was cut short,
/// is told to be damaged. The call does nothing: it carries these facts.
pub fn law_of_damage()
    ensures changed { (page_size k i : ℕ) (old new : List ℕ) (tail : Found)
        → IsCommitted page_size old k → i < k
        → header new ≡ header old
        → ((j : ℕ) → j < i → frame page_size new j ≡ frame page_size old j)
        → slice_index new (frame_at page_size i + 8) ≡ slice_index old (frame_at page_size i + 8)
        → frame_at page_size i + 8 < length new → ¬ Passes page_size new i
        → IsTailOf new tail → ¬ IsTrue tail.is_whole }
    ensures cut { (page_size k i : ℕ) (old new : List ℕ) (tail : Found)
        → IsCommitted page_size old k → i < k
        → header new ≡ header old
        → ((j : ℕ) → j < i → frame page_size new j ≡ frame page_size old j)
        → 41 ≤ length new
        → frame_at page_size i < length new → length new ≤ frame_at page_size i + 8
        → IsTailOf new tail → ¬ IsTrue tail.is_whole }
{}
