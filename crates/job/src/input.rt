// What is read of a reader.
ghost use Rattle.std.specs.Prelude.{◌≤◌, ◌≢◌, length, take, IfOk, IfErr};
ghost use Rattle.std.specs.Io.{ReadsAtMost};
ghost use Rattle.std.specs.Io.KnownBytes.{ReadConsumes};
ghost use Rattle.std.specs.IoError.{error_kind};
ghost use Rattle.job.specs.Inputs.{ReadsFirst, TakesAtMost};

use super::MOST_BYTES;
use std::io;
use std::io::{Error, ErrorKind, Read};

/// Reads the bytes of a job: all that the reader has, but no more than one byte beyond the longest job that can be
/// accepted, so that a longer input is seen to be longer. A read that is interrupted is tried again.
///
/// An error is the reader's own, or `TimedOut` after 2^64 interruptions. Of it is promised that it is no interruption,
/// and that no more than `MOST_BYTES` are gone from the reader; not that there is a job, nor which bytes are gone.
pub fn read<'a, R: Read>(reader: &mut R, room: &'a mut [u8; MOST_BYTES]) -> io::Result<&'a [u8]>
    ensures first { IfOk result (λ job. ReadsFirst 5131 (R.remaining reader.old) job.now (R.remaining reader.new)) }
    ensures most { TakesAtMost 5131 (R.remaining reader.old) (R.remaining reader.new) }
    ensures short { IfOk result (λ job. length job.now ≤ 5131) }
    ensures retried { IfErr result (λ e. error_kind e ≢ ErrorKind.Interrupted) }
{
    let count = fill(reader, room)?;
    Ok(&room[..count])
}

// Fills the room from its start, until it is full or the reader is at its end, and answers how much is filled.
fn fill<R: Read>(reader: &mut R, room: &mut [u8]) -> io::Result<usize>
    ensures first { IfOk result (λ count.
        ReadsFirst (length room.old) (R.remaining reader.old) (take count room.new) (R.remaining reader.new)) }
    ensures most { TakesAtMost (length room.old) (R.remaining reader.old) (R.remaining reader.new) }
    ensures within { IfOk result (λ count. count ≤ length room.new) }
    ensures retried { IfErr result (λ e. error_kind e ≢ ErrorKind.Interrupted) }
{
    let mut filled = 0;
    while filled < room.len() {
        let count = read_some(reader, &mut room[filled..])?;
        if count == 0 {
            break;
        }
        filled += count;
    }
    Ok(filled)
}

// One read that is not interrupted.
fn read_some<R: Read>(reader: &mut R, room: &mut [u8]) -> io::Result<usize>
    ensures bound { ReadsAtMost result room.new }
    ensures bytes { ReadConsumes (R.remaining reader.old) (R.remaining reader.new) result room.new }
    ensures retried { IfErr result (λ e. error_kind e ≢ ErrorKind.Interrupted) }
{
    for _ in 0..u64::MAX {
        match reader.read(room) {
            Err(error) if error.kind() == ErrorKind::Interrupted => {}
            answer => return answer,
        }
    }
    Err(Error::from(ErrorKind::TimedOut))
}
