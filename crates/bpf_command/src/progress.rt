//! A line that says how far long work is.

ghost use Rattle.std.specs.Prelude.{◌≡◌, IfSome, false, true};

use crate::aside::{Aside, Terminal};
use bpf_infer::Watch;
use std::io::Write;
use std::rt::Clock;
use std::time::{Duration, Instant};

/// Shows on a terminal how far a search is, in one line that is rewritten: after a second, and then at most four times a second. Elsewhere nothing is shown.
#[derive(Drop)]
pub struct Progress<'a, C: Clock, E: Write + Drop> {
    clock: &'a C,
    stream: E,
    /// Whether that is a terminal.
    is_terminal: bool,
    /// When the work began; None where nothing is to be shown.
    start: Option<Instant>,
    /// After how long the next line is due.
    due: Duration,
    labels: usize,
    is_shown: bool,
}

impl<'a, C: Clock, E: Write + Drop> Progress<'a, C, E> {
    /// The work begins, and is shown on this stream if that is a terminal.
    pub fn new(clock: &'a C, stream: E, is_terminal: bool) -> Self
        ensures stream { result.stream ≡ stream }
        ensures read { result.is_terminal ≡ is_terminal }
        ensures elsewhere { IfSome result.start (λ _. is_terminal ≡ true) }
        ensures labels { result.labels ≡ 0 }
        ensures shown { result.is_shown ≡ false }
    {
        let start = if is_terminal {
            Instant::now(clock).ok()
        } else {
            None
        };
        Progress {
            clock,
            stream,
            is_terminal,
            start,
            due: Duration::from_secs(1),
            labels: 0,
            is_shown: false,
        }
    }
}

impl<'a, C: Clock, E: Write + Drop> Watch for Progress<'a, C, E> {
    // Whether the line can be written makes no difference to what is found.
    fn tell(&mut self, labels: usize) {
        let Some(start) = self.start else {
            return;
        };
        self.labels = self.labels.saturating_add(labels);
        let Ok(elapsed) = start.elapsed(self.clock) else {
            return;
        };
        if elapsed < self.due {
            return;
        }
        self.due = elapsed.saturating_add(Duration::from_millis(250));
        self.is_shown = true;
        let (labels, seconds) = (self.labels, elapsed.as_secs());
        let _ = write!(
            self.stream,
            "\rbpf: searching, {labels} labels gone over, {seconds} s"
        );
    }

    fn end(&mut self) {
        if self.is_shown {
            let _ = write!(self.stream, "\r\x1b[K");
        }
        self.is_shown = false;
    }
}

impl<'a, C: Clock, E: Write + Copy + Drop> Terminal for Progress<'a, C, E> {
    type Stream = E;

    ghost is_read = { λ p. p.is_terminal };

    fn terminal(&self) -> Option<E> {
        if self.is_terminal {
            Some(self.stream)
        } else {
            None
        }
    }
}

impl<'a, C: Clock, E: Write + Copy + Drop> Aside for Progress<'a, C, E> {
    fn stream(&self) -> E {
        self.stream
    }
}
