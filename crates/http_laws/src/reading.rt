//! Theorems about what a client is sent: it reads the responses in it, in one way alone; and on a
//! stream of frames its own bytes decide what it asked for, whoever else is connected.
ghost use Rattle.std.specs.Prelude.{◌≡◌, ◌⊎◌, ◌≤◌, ℕ, List, [], All, map};
ghost use Rattle.http1.specs.declared.conn.Limits.{Limits};
ghost use Rattle.http1.specs.Message.{Answer, ReadsAnswers};
ghost use Rattle.http_server.specs.Exchange.{Call, Serves};
ghost use Rattle.http_server.specs.declared.state.Config.{Config};
ghost use Rattle.http_laws.specs.Alone.{AskTheSame, IsAnswered};
ghost use Rattle.http_laws.specs.Reading.{AreResponsesTo, StatesItsEnd};
ghost use Rattle.http_streams.specs.Deeds.{Deed, IsUntouched, calls_by, sent_by, taken_by};
ghost use Rattle.http_streams.specs.Tables.{AreKnown};

/// A law: of what was sent for some calls a client with room for the heads reads exactly the responses
/// to them, and no byte is left, if each response says where it ends. That holds on a connection that
/// stays open too, where no end of the connection could be taken for the end of a body.
pub fn the_client_reads_the_answers()
    ensures reads { (config : Config) (stream : List ℕ) (calls : List Call) (text rest : List ℕ)
        → Serves config stream calls text rest
        → All StatesItsEnd calls
        → (answers : List Answer) × AreResponsesTo calls answers
        × (room : ℕ) × ((limits : Limits) → room ≤ limits.max_head_len
        → 2 ≤ limits.max_trailers_len
        → ReadsAnswers limits text answers []) }

    // There is no other way to read them.
    ensures alone { (limits : Limits) (answers others : List Answer) (text rest left : List ℕ)
        → map (λ a. a.method) answers ≡ map (λ a. a.method) others
        → ReadsAnswers limits text answers rest
        → ReadsAnswers limits text others left
        → (answers ≡ others) × (rest ≡ left) }
{}

/// A law: on a stream of frames, what a client was sent answers what that client sent, as if there
/// were no other. The frames of others have no part in it, nor has how its own bytes were cut.
pub fn each_client_is_answered()
    ensures { (config : Config) (deeds : List Deed) (number : ℕ) → AreKnown config deeds
        → IsUntouched number deeds
        ⊎ ∥ IsAnswered config (taken_by number deeds) (calls_by number deeds) (sent_by number deeds) ∥₁ }
{}

/// A law: two clients that sent the same bytes asked for the same, request by request, as far as
/// both were answered. So what differs between what they got is in the responses of the service.
pub fn equal_bytes_ask_the_same()
    ensures { (config : Config) (stream : List ℕ) (calls others : List Call) (text other rest left : List ℕ)
        → Serves config stream calls text rest
        → Serves config stream others other left
        → AskTheSame calls others }
{}
