//! Commands as a user types them.

use crate::asked::AskedDevice;
use std::alloc::{AllocError, Global};

/// Returns whether a shell takes the byte literally at any place of a word.
fn is_plain(byte: u8) -> bool {
    byte.is_ascii_alphanumeric() || b"/._-+=:,@%".contains(&byte)
}

/// Appends a word to a command, in quotes if a shell would read it otherwise.
fn push_word(command: &mut String, word: &str) -> Result<(), AllocError> {
    if word.bytes().all(is_plain) {
        return command.push_str(word);
    }
    command.push('\'')?;
    for letter in word.chars() {
        if letter == '\'' {
            command.push_str("'\\''")?;
        } else {
            command.push(letter)?;
        }
    }
    command.push('\'')
}

/// Appends an option to a command, if it has a value.
fn push_option(command: &mut String, name: &str, value: Option<&str>) -> Result<(), AllocError> {
    match value {
        Some(value) => {
            command.push_str(name)?;
            push_word(command, value)
        }
        None => Ok(()),
    }
}

/// Returns the command that explains a line of a file, without the line's number.
pub(crate) fn explain_command(
    alloc: Global,
    path: &str,
    asked: AskedDevice<'_>,
) -> Result<String, AllocError> {
    let mut command = String::from_str(alloc, "drm_server explain ")?;
    if path.starts_with("-") {
        // it is not an option
        command.push_str("./")?;
    }
    push_word(&mut command, path)?;
    push_option(&mut command, " --topology ", asked.topology)?;
    push_option(&mut command, " --limits ", asked.limits)?;
    command.push_str(" --line ")?;
    Ok(command)
}
