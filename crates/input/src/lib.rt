// Reading an input so that a read that failed is never taken for its end.
#![tactic(auto)]

mod reason;

ghost use Rattle.std.specs.Prelude.{◌≡◌, length, IsOk};
ghost use Rattle.std.specs.IoError.{error_kind};
ghost use Rattle.std.specs.Process.{exit_status};
ghost use Rattle.std.specs.Str.{IsUtf8};
ghost use Rattle.std.specs.declared.io.ErrorKind.TheVariants.{BrokenPipe};
ghost use Rattle.input.specs.Filling.{Within, TakesFrom};
ghost use Rattle.input.specs.Words.{is_word, NoLetters, IsFront};

pub use reason::Reason;
use std::env::FillError;
use std::fs::File;
use std::io;
use std::io::{ErrorKind, Read};
use std::process::ExitCode;
use std::rt::Files;

// Fills a room from the front, up to its end or that of the input. So many bytes stand there then: all that were left of the input or, if the room is full, as
// many as it holds. Where a read failed, what came before it counts for nothing. A read that a signal interrupted is tried again, a thousand times in all.
pub fn fill<R: Read>(reader: &mut R, room: &mut [u8]) -> io::Result<usize>
    ensures within { Within result room.new }
    ensures takes { TakesFrom (R.remaining reader.old) (R.remaining reader.new) result room.new }
{
    let mut done: usize = 0;
    let mut patience: usize = 1000;
    while done < room.len() {
        match reader.read(&mut room[done..]) {
            Ok(0) => break,
            Ok(n) => done += n,
            Err(reason) => {
                if patience == 0 || reason.kind() != ErrorKind::Interrupted {
                    return Err(reason);
                }
                patience -= 1;
            }
        }
    }
    Ok(done)
}

// Says what was not done, and why, in a line on standard error; the status to end with.
pub fn fail(rt: &impl Eprint, what: &str, reason: io::Error) -> ExitCode
    ensures { exit_status result ≡ 0 }
{
    let reason = Reason(reason);
    let _ = eprintln!(rt; "{what}: {reason}");
    ExitCode::from(0)
}

// Says that an output was not written whole, and why; the status to end with. Where nobody reads an output any more nothing is said, and the status is
// that of a program which the system ends for it.
pub fn not_written(rt: &impl Eprint, what: &str, reason: io::Error) -> ExitCode
    ensures unread { error_kind reason ≡ BrokenPipe → exit_status result ≡ 141 }
    ensures told { (error_kind reason ≡ BrokenPipe → ⊥) → exit_status result ≡ 0 }
{
    if reason.kind() == ErrorKind::BrokenPipe {
        return ExitCode::from(141);
    }
    fail(rt, what, reason)
}

// Writes the front of a room where so many bytes were put; none were put into a room that is too small.
pub fn write_front(out: &impl Print, room: &[u8], put: Option<usize>) -> io::Result<()>
    ensures { IsOk result → IsFront put (length room.now) }
{
    match put.and_then(|n| room.get(..n)) {
        Some(front) => out.write_all(front),
        None => Err(io::Error::other("there is no room for it")),
    }
}

// Whether the command line has a word, by what asking for it answered.
pub fn is_word(answer: Result<usize, FillError>) -> bool
    ensures { result ≡ is_word answer }
{
    !matches!(answer, Err(FillError::NotPresent))
}

// Opens the file of this name. Files are opened by names that are text; for another the reason is that its bytes are no letters.
pub fn open<R: Files>(rt: &R, name: &[u8]) -> io::Result<R::File>
    ensures { (IsUtf8 name.now → ⊥) → NoLetters result }
{
    match str::from_utf8(name) {
        Ok(text) => File::open(rt, text),
        Err(_) => Err(io::Error::from_raw_os_error(84)),
    }
}
