//! Text on a terminal.

ghost use Rattle.std.specs.Prelude.{◌≤◌, length};

use std::io;
use std::io::Write;

/// A writer of lines that writes a control byte other than a line end as `\x` and two digits. So the text of a file
/// can't control the terminal.
#[derive(Drop)]
pub(crate) struct Visible<W: Write + Drop> {
    writer: W,
}

impl<W: Write + Drop> Visible<W> {
    pub(crate) fn new(writer: W) -> Visible<W> {
        Visible { writer }
    }
}

fn is_control(byte: u8) -> bool {
    byte.is_ascii_control() && byte != b'\n'
}

/// Returns the text before the first control byte.
fn plain_front(text: &[u8]) -> &[u8]
    ensures { length result.now ≤ length text.now }
{
    match text.iter().position(|byte| is_control(*byte)) {
        Some(place) => text.get(..place).unwrap_or(text),
        None => text,
    }
}

/// Returns the last hexadecimal digit of a number.
fn digit(number: u8) -> u8 {
    let low = number % 16;
    if low < 10 {
        b'0' + low
    } else {
        b'a' + (low - 10)
    }
}

impl<W: Write + Drop> Write for Visible<W> {
    fn write(&mut self, buf: &[u8]) -> io::Result<usize> {
        match buf {
            [byte, ..] if is_control(*byte) => {
                let shown = [b'\\', b'x', digit(*byte / 16), digit(*byte)];
                self.writer.write_all(&shown)?;
                Ok(1)
            }
            _ => self.writer.write(plain_front(buf)),
        }
    }

    fn flush(&mut self) -> io::Result<()> {
        self.writer.flush()
    }
}
