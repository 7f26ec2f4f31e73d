use gs_keep::{Progress, Replayed};
use std::rt::Clock;
use std::time::Instant;

/// How many lines are run between two looks at the clock.
const LINES: u64 = 16;

/// Tells on standard error how far the lines of a file have been run again, each second.
#[derive(Drop)]
pub(crate) struct Teller<'a, R> {
    rt: &'a R,
    path: &'a str,
    /// How many bytes stand after what is run again.
    rest: u64,
    begun: Option<Instant>,
    /// How many seconds had passed when it told last.
    told: u64,
}

impl<'a, R: Eprint + Clock> Teller<'a, R> {
    pub(crate) fn new(rt: &'a R, path: &'a str) -> Teller<'a, R> {
        Teller {
            rt,
            path,
            rest: 0,
            begun: Instant::now(rt).ok(),
            told: 0,
        }
    }

    /// The thousandths of a second since it began, or 0 where the clock can't be read.
    fn passed_millis(&self) -> u64 {
        let Some(begun) = self.begun else {
            return 0;
        };
        match begun.elapsed(self.rt) {
            Ok(passed) => u64::try_from(passed.as_millis()).unwrap_or(u64::MAX),
            Err(_) => 0,
        }
    }
}

impl<R: Eprint + Clock> Progress for Teller<'_, R> {
    fn measured(&mut self, rest: u64) {
        self.rest = rest;
        self.begun = Instant::now(self.rt).ok();
    }

    fn passed(&mut self, lines: u64) {
        if lines % LINES != 0 {
            return;
        }
        let seconds = self.passed_millis() / 1_000;
        if seconds <= self.told {
            return;
        }
        self.told = seconds;
        let path = self.path;
        let _ = eprintln!(self.rt;
            "chunkkeep: {path}: {lines} lines run again so far, in {seconds} s"
        );
    }

    fn ended(&mut self, replayed: Replayed) {
        let path = self.path;
        let lines = replayed.lines;
        let millis = self.passed_millis();
        let _ = eprintln!(self.rt; "chunkkeep: {path}: {lines} lines run again in {millis} ms");
    }

    fn cut(&mut self) {
        let path = self.path;
        let rest = self.rest;
        if rest > 0 {
            let _ = eprintln!(self.rt;
                "chunkkeep: {path}: {rest} bytes after what was answered are cut off"
            );
        }
    }
}
