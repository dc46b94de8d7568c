//! One connection of HTTP over a reader and a writer, for a service whose responses stand only once
//! it has committed what they tell of.
ghost use Rattle.std.specs.Prelude.{◌≡◌, ◌≢◌, ℕ, Bool, true, List, [], ◌++◌, OnOk};
ghost use Rattle.std.specs.Io.KnownBytes.{Appends, Consumes};
ghost use Rattle.http.specs.declared.request.Request.{Request};
ghost use Rattle.http_server.specs.declared.response.Response.{Response};
ghost use Rattle.http_server.specs.Connection.{config_of, history};
ghost use Rattle.http_server.specs.Exchange.{Call};
ghost use Rattle.http_server.specs.Rounds.{Round, Rounds, all_of, kept_of, IsCleared};
ghost use Rattle.http_streams.specs.Ends.{EndsWell};
ghost use Rattle.http_streams.specs.Losses.{StopsAtALoss, TellsALoss};

use http_server::{Connection, Service, State};
use std::io;
use std::io::{ErrorKind, Read, Write};

/// A service that is called in rounds: each is some calls, and then one `commit`.
pub trait Commits: Service {
    /// From the first state, a round ends with this verdict and leaves the second state.
    ghost settles: { Self → Bool → Self → Type 0 };

    /// Whether no commit has failed.
    ghost is_sound: { Self → Type 0 };

    /// Commits what the calls of the round have done. Returns whether that went well: if not, none
    /// of their responses is sent, and nothing more is served.
    fn commit(&mut self) -> bool
        requires { is_sound self.old }
        ensures settles { settles self.old result self.new }
        ensures sound { result ≡ true → is_sound self.new };

    /// No call makes a commit fail.
    ghost stays_sound: { (old : Self) → (request : Request (List ℕ)) → (response : Response)
        → (new : Self) → Self.Service.answers old request response new → is_sound old
        → is_sound new };
}

/// Reads requests, calls the service, commits and writes responses, until the connection is done.
/// That what was written answers what was read holds of every connection (`always_served` of
/// `http_server`).
///
/// On `Err` the connection is over: reading or writing failed as the error says, memory ran out
/// (`OutOfMemory`), or, with the kind `Other`, the service couldn't commit.
pub fn serve_rounds<S: Commits, R: Read, W: Write>(
    connection: &mut Connection,
    service: &mut S,
    reader: &mut R,
    writer: &mut W,
) -> io::Result<()>
    requires { S.is_sound service.old }
    ensures done { OnOk result (EndsWell (history connection.new)) }
    ensures read { (more : List ℕ)
        × Consumes (R.remaining reader.old) (R.remaining reader.new) more
        × ((history connection.new).received ≡ (history connection.old).received ++ more) }
    ensures written { (more : List ℕ)
        × Appends (W.contents writer.old) (W.contents writer.new) more
        × ((history connection.new).sent ≡ (history connection.old).sent ++ more) }

    // The calls are rounds, of which only the last may be lost, and no byte that was sent tells of a
    // call that was not committed. A round that is lost is told, by an error of the kind `Other`.
    ensures rounds { (history connection.old).calls ≡ [] → (rounds : List (Round Call))
        × Rounds S.Service.answers S.settles service.old rounds service.new
        × ((history connection.new).calls ≡ all_of rounds)
        × IsCleared (kept_of rounds) connection.new
        × StopsAtALoss rounds
        × TellsALoss rounds result }
    ensures config { config_of connection.new ≡ config_of connection.old }
{
    // A loop is proved to end, so this one counts its turns.
    for _ in 0..u64::MAX {
        connection.advance(service);
        if !service.commit() {
            return Err(ErrorKind::Other.into());
        }
        if connection.is_done() {
            writer.flush()?;
            return outcome(connection.state());
        }
        if !connection.wants_write() {
            // The client may be waiting for what a buffered writer holds.
            writer.flush()?;
            connection.read_from(reader)?;
        } else if connection.write_to(writer)? == 0 {
            return Err(ErrorKind::WriteZero.into());
        }
    }
    Err(ErrorKind::TimedOut.into())
}

/// Returns how a connection has ended that is done: memory may have run out for it.
fn outcome(state: State) -> io::Result<()>
    ensures { OnOk result (state ≢ State.Aborted) }
{
    match state {
        State::Aborted => Err(ErrorKind::OutOfMemory.into()),
        _ => Ok(()),
    }
}
