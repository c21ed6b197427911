// What `read_full` reads: no clause says that it goes on until the room is full or the input ends.
use super::read_full;
use std::io;
use std::io::{Error, ErrorKind, Read};
use std::test::Fail;

const ROOM: usize = 4;

// A reader that gives a byte at a time, and that a signal interrupts before each.
#[derive(Drop)]
struct Trickle<'a> {
    left: &'a [u8],
    interrupted: bool,
}

impl Read for Trickle<'_> {
    fn read(&mut self, buf: &mut [u8]) -> io::Result<usize> {
        self.interrupted = !self.interrupted;
        if self.interrupted {
            return Err(Error::from(ErrorKind::Interrupted));
        }
        let count = self.left.len().min(buf.len()).min(1);
        buf[..count].copy_from_slice(&self.left[..count]);
        self.left = &self.left[count..];
        Ok(count)
    }
}

// A reader that gives a byte at each of its first reads, and then fails.
#[derive(Drop)]
struct Failing {
    reads: u8,
}

impl Read for Failing {
    fn read(&mut self, buf: &mut [u8]) -> io::Result<usize> {
        if buf.is_empty() {
            return Ok(0);
        }
        if self.reads == 0 {
            return Err(Error::from(ErrorKind::BrokenPipe));
        }
        self.reads -= 1;
        buf[0] = b'x';
        Ok(1)
    }
}

// Texts shorter than the room, as long, and longer; how much of each is read; what it leaves there.
const TEXTS: [(&[u8], usize, [u8; ROOM]); 4] = [
    (b"", 0, *b"...."),
    (b"abc", 3, *b"abc."),
    (b"abcd", 4, *b"abcd"),
    (b"abcdef", 4, *b"abcd"),
];

#[test]
fn a_text_at_once(rt: HostRuntime) -> Result<(), Fail> {
    for (text, count, left) in TEXTS {
        let mut buffer = *b"....";
        let mut reader = text;
        assert_eq!(rt; read_full(&mut reader, &mut buffer)?, count);
        assert_eq!(rt; buffer, left);
        assert_eq!(rt; reader.len(), text.len() - count);
    }
    Ok(())
}

#[test]
fn a_byte_at_a_time(rt: HostRuntime) -> Result<(), Fail> {
    for (text, count, left) in TEXTS {
        let mut buffer = *b"....";
        let mut reader = Trickle {
            left: text,
            interrupted: false,
        };
        assert_eq!(rt; read_full(&mut reader, &mut buffer)?, count);
        assert_eq!(rt; buffer, left);
    }
    Ok(())
}

#[test]
fn an_error(rt: HostRuntime) {
    for (reads, left) in [(0, *b"...."), (1, *b"x..."), (3, *b"xxx.")] {
        let mut buffer = *b"....";
        let read = read_full(&mut Failing { reads }, &mut buffer);
        assert_eq!(rt;
            read.map_err(|error| error.kind()),
            Err(ErrorKind::BrokenPipe)
        );
        assert_eq!(rt; buffer, left);
    }
    let mut buffer = *b"....";
    assert_eq!(rt;
        read_full(&mut Failing { reads: 4 }, &mut buffer).ok(),
        Some(4)
    );
}
