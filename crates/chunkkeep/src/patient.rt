// An input that is waited for.
use std::io::{self, ErrorKind, Read};
use std::rt::Clock;
use std::thread;
use std::time::Duration;

/// How many thousandths of a second it waits before it reads once more.
const PAUSE: u64 = 5;

/// A reader that waits where its source has nothing yet and says so instead of waiting.
#[derive(Drop)]
pub(crate) struct Patient<'a, C, R> {
    clock: &'a C,
    reader: R,
}

impl<'a, C: Clock, R: Read> Patient<'a, C, R> {
    pub(crate) fn new(clock: &'a C, reader: R) -> Patient<'a, C, R> {
        Patient { clock, reader }
    }
}

impl<C: Clock, R: Read> Read for Patient<'_, C, R> {
    fn read(&mut self, buf: &mut [u8]) -> io::Result<usize> {
        for _ in 0..u64::MAX {
            match self.reader.read(buf) {
                Err(error) if error.kind() == ErrorKind::WouldBlock => {
                    thread::sleep(self.clock, Duration::from_millis(PAUSE));
                }
                read => return read,
            }
        }
        Err(io::Error::from(ErrorKind::TimedOut))
    }
}
