//! The answers that a connection takes.

ghost use Rattle.std.specs.Prelude.{◌≡◌};
ghost use Rattle.drm_connections.specs.Answers.{answers_written};

use crate::reporting::Reporting;
use std::io;
use std::io::Write;
use std::sync::Wait;

/// The answers of a connection, which the writer takes as they are (own). After one is written, its call is reported.
#[derive(Drop)]
pub struct Answers<'a, W: Write, R: Wait> {
    writer: W,
    /// What reports the calls, if there is a watch.
    reporting: Option<&'a Reporting<'a, R>>,
}

impl<'a, W: Write, R: Wait> Answers<'a, W, R> {
    /// Creates a writer of a connection's answers.
    pub fn new(writer: W, reporting: &'a Reporting<'a, R>) -> Answers<'a, W, R>
        ensures { answers_written W.contents result ≡ W.contents writer }
    {
        Answers {
            writer,
            reporting: reporting.if_watched(),
        }
    }
}

impl<W: Write, R: Wait> Write for Answers<'_, W, R> {
    ghost contents = { answers_written W.contents };

    fn write(&mut self, buf: &[u8]) -> io::Result<usize> {
        let written = self.writer.write(buf);
        if let Some(reporting) = self.reporting {
            reporting.flush();
        }
        written
    }

    fn flush(&mut self) -> io::Result<()> {
        self.writer.flush()
    }
}
