//! Serving an input, line by line.
ghost use Rattle.std.specs.Prelude.{
  ℕ,
  ◌≡◌,
  ◌≢◌,
  ◌⊎◌,
  ◌<◌,
  ◌≤◌,
  List,
  [],
  ◌++◌,
  length,
  false,
  is_err,
  Err,
  Some,
  OnOk,
  OnErr,
  IfSome,
  IfErr,
  IsErrOf,
};
ghost use Rattle.std.specs.Io.KnownBytes.{Appends};
ghost use Rattle.byte_io.specs.Journal.{Grows, IsFront};
ghost use Rattle.byte_io.specs.Known.{AppendsFront};
ghost use Rattle.site_replies.specs.Reply.{bytes_of, reply_data};
ghost use Rattle.site_serving.specs.Journaled.{
  Enters,
  IsNoted,
  IsSettled,
  KeepsAhead,
  LetsOut,
  noted_of,
};
ghost use Rattle.site_serving.specs.Lines.{IsLine, lines_of};
ghost use Rattle.site_serving.specs.Serving.{is_read, is_write, IsReplies, ServesAll, Stops};
ghost use Rattle.site_serving.specs.Stretches.{FailsBy, HaltsBy, HandlesBy, RecordsBy};

use crate::commands::Commands;
use crate::line_reply::LineReply;
use byte_io::{EndFault, Journal, Source};
use memchr::memchr;
use page_trace::Watch;
use site_replies::ServeFault;
use std::alloc::Global;

// The most lines that are served.
const MAX_LINES: u32 = 1_000_000;

// The most bytes that a line has, without its newline.
const MAX_LINE: usize = 1_048_576;

// How many bytes are read at a time.
const CHUNK: usize = 65_536;

/// Carries out each line of the input, and hands its reply to the journal before the next line is
/// carried out. Any sink is a journal that writes each reply at once. One with a log is handed each
/// edit that was done before its reply; it may let replies wait until such edits are committed, at
/// the latest after each 64 KiB of input.
///
/// A last line without a newline counts if it has a byte. At most 1,000,000 lines of at most
/// 1,048,576 bytes are served. On `Read`, `TooMuchInput` and `OutOfMemory` the lines before the
/// fault are carried out and replied to; on `Write` the line whose reply could not be written is
/// carried out too. If an edit could not be committed, that is `Write` too: none of the replies
/// that waited for it was written. A journal may have taken replies that it has not written, so
/// more lines may be carried out than were replied to.
///
/// The watch sees each invocation of a page. No clause speaks of it: it changes no reply.
pub fn serve<C: Commands, R: Source, W: Journal, V: Watch>(
    alloc: Global,
    commands: &mut C,
    reader: &mut R,
    writer: &mut W,
    watch: &mut V,
) -> Result<(), ServeFault>
    requires reader { R.has_failed reader.old ≡ false }
    requires writer { W.has_failed writer.old ≡ false }

    // The writer takes the replies to an input that is read to its end, and nothing else.
    ensures replied { OnOk result (IfSome (R.remaining reader.old) (λ input.
        IfSome (W.contents writer.old) (λ before. (out : List ℕ)
        × IsReplies (C.replies (C.fixed commands.old)) (C.state commands.old) (lines_of input) out
        (C.state commands.new)
        × (W.contents writer.new ≡ Some (before ++ out))))) }
    ensures ok { OnOk result (ServesAll (C.replies (C.fixed commands.old)) (C.state commands.old)
        (R.remaining reader.old) (R.remaining reader.new)
        (W.contents writer.old) (W.contents writer.new) (C.state commands.new)) }

    // What holds after each fault.
    ensures stopped { IfErr result (Stops (C.replies (C.fixed commands.old))
        (C.state commands.old) (R.remaining reader.old) (R.remaining reader.new)
        (W.contents writer.old) (W.contents writer.new) (C.state commands.new)) }

    // Two of them come only if an end failed.
    ensures read { R.has_failed reader.new ≡ is_read result }
    ensures write { W.has_failed writer.new ≡ is_write result }

    // An input that is read to its end is noted: of its lines the edits that were done, in order.
    ensures kept { OnOk result (IsNoted W.Journal C.keeps (C.replies (C.fixed commands.old))
        (C.state commands.old) (R.remaining reader.old) writer.old writer.new
        (C.state commands.new)) }

    // Unless a write failed, nothing waits in the journal afterwards if nothing did before.
    ensures settled { result ≢ Err ServeFault.Write → IsSettled W.Journal writer.old
        → IsSettled W.Journal writer.new }

    // At any return what was written is a front of what was taken, and the log is not older.
    ensures front { IsFront (W.written writer.old) (W.contents writer.old)
        → IsFront (W.written writer.new) (W.contents writer.new) }
    ensures ahead { IsSettled W.Journal writer.old
        → KeepsAhead W.Journal C.keeps (C.replies (C.fixed commands.old)) (C.state commands.old)
        (R.remaining reader.old) writer.old writer.new (C.state commands.new) }
    ensures fixed { C.fixed commands.new ≡ C.fixed commands.old }
{
    let mut chunk = [0u8; CHUNK];
    let mut held = Vec::new(alloc);
    let mut left = MAX_LINES;
    'chunks: loop {
        let count = match reader.read(&mut chunk) {
            Ok(count) => count,
            Err(_) => return Err(ServeFault::Read),
        };
        if count == 0 {
            break;
        }
        take_chunk(
            commands,
            &mut held,
            &mut left,
            &chunk[..count],
            writer,
            watch,
        )?;
    }
    if !held.is_empty() {
        serve_last(commands, &held, writer, watch)?;
    }
    Ok(())
}

/// Carries out the lines that end in the chunk, the first of which begins with the held bytes, and
/// holds what follows them. If there was such a line, nothing waits in the journal afterwards,
/// unless it failed.
fn take_chunk<C: Commands, W: Journal, V: Watch>(
    commands: &mut C,
    held: &mut Vec<u8>,
    left: &mut u32,
    chunk: &[u8],
    writer: &mut W,
    watch: &mut V,
) -> Result<(), ServeFault>
    requires sound { W.has_failed writer.old ≡ false }
    requires line { IsLine held.old.items }
    requires room { 0 < length held.old.items → 0 < left.old }
    ensures records { OnOk result (RecordsBy C.Commands W.Journal commands.old left.old
        (held.old.items ++ chunk.now) writer.old writer.new commands.new left.new
        held.new.items) }
    ensures line { OnOk result (IsLine held.new.items) }
    ensures room { OnOk result (0 < length held.new.items → 0 < left.new) }
    ensures fails { IsErrOf result ServeFault.Write → FailsBy C.Commands W.Journal commands.old
        left.old (held.old.items ++ chunk.now) writer.old writer.new commands.new }
    ensures halts { IfErr result (λ e. e ≢ ServeFault.Write
        → HaltsBy C.Commands W.Journal commands.old left.old
        (held.old.items ++ chunk.now) writer.old writer.new commands.new left.new e) }
    ensures settled { result ≢ Err ServeFault.Write → IsSettled W.Journal writer.old
        → IsSettled W.Journal writer.new }
    ensures failed { W.has_failed writer.new ≡ is_write result }
    ensures fixed { C.fixed commands.new ≡ C.fixed commands.old }
{
    let before = *left;
    let taken = take_lines(commands, held, left, chunk, writer, watch);
    if *left == before {
        return taken;
    }
    settled(writer, taken)
}

/// The same, but replies may still wait.
fn take_lines<C: Commands, W: Journal, V: Watch>(
    commands: &mut C,
    held: &mut Vec<u8>,
    left: &mut u32,
    chunk: &[u8],
    writer: &mut W,
    watch: &mut V,
) -> Result<(), ServeFault>
    requires sound { W.has_failed writer.old ≡ false }
    requires line { IsLine held.old.items }
    requires room { 0 < length held.old.items → 0 < left.old }
    ensures records { OnOk result (RecordsBy C.Commands W.Journal commands.old left.old
        (held.old.items ++ chunk.now) writer.old writer.new commands.new left.new
        held.new.items) }
    ensures line { OnOk result (IsLine held.new.items) }
    ensures room { OnOk result (0 < length held.new.items → 0 < left.new) }
    ensures fails { IsErrOf result ServeFault.Write → FailsBy C.Commands W.Journal commands.old
        left.old (held.old.items ++ chunk.now) writer.old writer.new commands.new }
    ensures halts { IfErr result (λ e. e ≢ ServeFault.Write
        → HaltsBy C.Commands W.Journal commands.old left.old
        (held.old.items ++ chunk.now) writer.old writer.new commands.new left.new e) }
    ensures idle { left.new ≡ left.old → result ≢ Err ServeFault.Write
        → writer.new ≡ writer.old }
    ensures failed { W.has_failed writer.new ≡ is_write result }
    ensures fixed { C.fixed commands.new ≡ C.fixed commands.old }
{
    let mut rest = chunk;
    while let Some(end) = memchr(b'\n', rest) {
        if *left == 0 || end > MAX_LINE - held.len() {
            return Err(ServeFault::TooMuchInput);
        }
        finish_line(commands, held, &rest[..end], writer, watch)?;
        *left -= 1;
        rest = &rest[end + 1..];
    }
    if rest.is_empty() {
        return Ok(());
    }
    if *left == 0 || rest.len() > MAX_LINE - held.len() {
        return Err(ServeFault::TooMuchInput);
    }
    hold(held, rest)
}

/// Carries out the line that ends with this part, and then holds nothing. If memory runs out, no
/// line is carried out.
fn finish_line<C: Commands, W: Journal, V: Watch>(
    commands: &mut C,
    held: &mut Vec<u8>,
    part: &[u8],
    writer: &mut W,
    watch: &mut V,
) -> Result<(), ServeFault>
    requires sound { W.has_failed writer.old ≡ false }
    requires short { length (held.old.items ++ part.now) ≤ 1048576 }
    ensures handled { result ≢ Err ServeFault.OutOfMemory
        → HandlesBy C.Commands W.Journal commands.old (held.old.items ++ part.now) writer.old
        writer.new result commands.new }
    ensures empty { OnOk result (held.new.items ≡ []) }
    ensures memory { IsErrOf result ServeFault.OutOfMemory
        → (commands.new ≡ commands.old) × (writer.new ≡ writer.old) }
    ensures only { IfErr result (λ e. (e ≡ ServeFault.Write) ⊎ (e ≡ ServeFault.OutOfMemory)) }
    ensures failed { W.has_failed writer.new ≡ is_write result }
    ensures fixed { C.fixed commands.new ≡ C.fixed commands.old }
{
    if held.is_empty() {
        return reply_to(commands, part, writer, watch);
    }
    hold(held, part)?;
    reply_to(commands, held, writer, watch)?;
    held.clear();
    Ok(())
}

/// Carries out the last line. If that goes well, nothing waits in the journal.
fn serve_last<C: Commands, W: Journal, V: Watch>(
    commands: &mut C,
    line: &[u8],
    writer: &mut W,
    watch: &mut V,
) -> Result<(), ServeFault>
    requires { W.has_failed writer.old ≡ false }
    ensures handled { HandlesBy C.Commands W.Journal commands.old line.now writer.old writer.new
        result commands.new }
    ensures settled { W.is_open writer.old → OnOk result (IsSettled W.Journal writer.new) }
    ensures fault { IfErr result (λ e. e ≡ ServeFault.Write) }
    ensures failed { W.has_failed writer.new ≡ is_err result }
    ensures fixed { C.fixed commands.new ≡ C.fixed commands.old }
{
    reply_to(commands, line, writer, watch)?;
    match writer.settle() {
        Ok(()) => Ok(()),
        Err(EndFault) => Err(ServeFault::Write),
    }
}

/// Carries out one line, and hands its reply to the journal.
fn reply_to<C: Commands, W: Journal, V: Watch>(
    commands: &mut C,
    line: &[u8],
    writer: &mut W,
    watch: &mut V,
) -> Result<(), ServeFault>
    requires { W.has_failed writer.old ≡ false }
    ensures handled { HandlesBy C.Commands W.Journal commands.old line.now writer.old writer.new
        result commands.new }
    ensures fault { IfErr result (λ e. e ≡ ServeFault.Write) }
    ensures failed { W.has_failed writer.new ≡ is_err result }
    ensures fixed { C.fixed commands.new ≡ C.fixed commands.old }
{
    let replied = commands.carry_out(line, watch);
    match enter(writer, line, &replied) {
        Ok(()) => Ok(()),
        Err(EndFault) => Err(ServeFault::Write),
    }
}

/// Hands a line to the journal, if it is an edit that was done, and then its reply.
fn enter<W: Journal>(writer: &mut W, line: &[u8], replied: &LineReply) -> Result<(), EndFault>
    requires { W.has_failed writer.old ≡ false }
    ensures ok { OnOk result
        (Appends (W.contents writer.old) (W.contents writer.new)
        (bytes_of (reply_data replied.now.reply))) }
    ensures part { OnErr result
        (AppendsFront (W.contents writer.old) (W.contents writer.new)
        (bytes_of (reply_data replied.now.reply))) }
    ensures entered { Enters W.Journal (noted_of replied.now.is_kept line.now) writer.old writer.new
        result }
    ensures fault { W.has_failed writer.new ≡ is_err result }
{
    if replied.is_kept {
        writer.note(line)?;
    }
    writer.take(&replied.reply)
}

/// Lets out what waits, whatever came of the lines before, unless the journal has failed.
fn settled<W: Journal>(writer: &mut W, taken: Result<(), ServeFault>) -> Result<(), ServeFault>
    requires { W.has_failed writer.old ≡ is_write taken }
    ensures settled { W.is_open writer.old
        → result ≢ Err ServeFault.Write → IsSettled W.Journal writer.new }
    ensures contents { W.contents writer.new ≡ W.contents writer.old }
    ensures noted { Grows (W.noted writer.old) (W.noted writer.new) [] }
    ensures out { LetsOut W.Journal (W.noted writer.old) writer.old writer.new }
    ensures result { (result ≡ taken) ⊎ (result ≡ Err ServeFault.Write) }
    ensures same { IsErrOf taken ServeFault.Write → writer.new ≡ writer.old }
    ensures failed { W.has_failed writer.new ≡ is_write result }
{
    if let Err(ServeFault::Write) = taken {
        return taken;
    }
    match writer.settle() {
        Ok(()) => taken,
        Err(EndFault) => Err(ServeFault::Write),
    }
}

/// Appends these bytes to those that are held.
fn hold(held: &mut Vec<u8>, part: &[u8]) -> Result<(), ServeFault>
    ensures ok { OnOk result (held.new.items ≡ held.old.items ++ part.now) }
    ensures err { IfErr result (λ e. e ≡ ServeFault.OutOfMemory) }
{
    match held.extend_from_slice(part) {
        Ok(()) => Ok(()),
        Err(_) => Err(ServeFault::OutOfMemory),
    }
}
