// What a reader gives in pieces, with interruptions and with a failure in between.
use super::{MOST_BYTES, read};
use std::io::{self, Error, ErrorKind, Read};

// Gives three bytes at a time, each after an interruption, and then is at its end, or fails.
#[derive(Drop)]
struct Halting<'a> {
    bytes: &'a [u8],
    interrupted: bool,
    fails: bool,
}

impl Read for Halting<'_> {
    fn read(&mut self, buf: &mut [u8]) -> io::Result<usize> {
        self.interrupted = !self.interrupted;
        if self.interrupted {
            return Err(Error::from(ErrorKind::Interrupted));
        }
        if self.bytes.is_empty() && self.fails {
            return Err(Error::from(ErrorKind::BrokenPipe));
        }
        let most = buf.len().min(3);
        self.bytes.read(&mut buf[..most])
    }
}

// The bytes 0 to 250, again and again.
fn written() -> [u8; 6000] {
    let mut bytes = [0; 6000];
    for (i, byte) in bytes.iter_mut().enumerate() {
        *byte = (i % 251) as u8;
    }
    bytes
}

#[test]
fn first_bytes_are_read(rt: HostRuntime) {
    let bytes = written();
    for (length, count) in [
        (0, 0),
        (1, 1),
        (5130, 5130),
        (5131, 5131),
        (5132, 5131),
        (6000, 5131),
    ] {
        let mut room = [9; MOST_BYTES];
        let mut whole = &bytes[..length];
        let answer = read(&mut whole, &mut room);
        assert!(rt; answer.is_ok());
        let job = answer.unwrap_or(b"");
        assert_eq!(rt; job.len(), count);
        assert!(rt; job == &bytes[..count]);
        assert_eq!(rt; whole.len(), length - count);

        let mut room = [9; MOST_BYTES];
        let mut halting = Halting {
            bytes: &bytes[..length],
            interrupted: false,
            fails: false,
        };
        let answer = read(&mut halting, &mut room);
        assert!(rt; answer.is_ok());
        let job = answer.unwrap_or(b"");
        assert!(rt; job == &bytes[..count]);
        assert_eq!(rt; halting.bytes.len(), length - count);
    }
}

// A job that stops short is a failure, and no shorter job.
#[test]
fn failures_are_answered(rt: HostRuntime) {
    let bytes = written();
    for (length, fails) in [(0, true), (100, true), (5130, true), (5131, false)] {
        let mut room = [9; MOST_BYTES];
        let mut halting = Halting {
            bytes: &bytes[..length],
            interrupted: false,
            fails: true,
        };
        let answer = read(&mut halting, &mut room);
        assert_eq!(rt; answer.is_err(), fails);
    }
}
