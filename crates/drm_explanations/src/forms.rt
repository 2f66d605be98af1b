//! Sentences by forms, which have a place for each value.

use crate::names::{Labels, label_of};
use std::alloc::AllocError;

/// A value in a sentence (own).
#[derive(Clone, Copy, Debug)]
pub enum Value {
    /// A client, written as its label, or as its number if it has none.
    Client(u64),
    Number(u64),
    /// A number of 32 bits.
    Id(u32),
    Word(&'static str),
}

fn put_value(labels: &Labels, value: Value, text: &mut String) -> Result<(), AllocError> {
    match value {
        Value::Client(client) => match label_of(labels, client) {
            Some(label) => text.push(label),
            None => write!(text, "client {client}"),
        },
        Value::Number(number) => write!(text, "{number}"),
        Value::Id(id) => write!(text, "{id}"),
        Value::Word(word) => text.push_str(word),
    }
}

/// Appends a form with the values in the places of its `{}`, in order (own). A value without a place is left out.
/// Allocates room in the text.
///
/// # Errors
///
/// `AllocError` if memory is refused. The text may then end with a front of the sentence.
///
/// # Examples
///
/// ```rust
/// use drm_explanations::{Value, put_form};
///
/// let mut text = String::new(rt.alloc());
/// let values = [Value::Client(1), Value::Number(2)];
/// let put = put_form(&[0; 26], "{} closed at step {}", &values, &mut text);
/// assert!(rt; put.is_ok() && text.as_str() == "client 1 closed at step 2");
/// ```
pub fn put_form(
    labels: &Labels,
    form: &str,
    values: &[Value],
    text: &mut String,
) -> Result<(), AllocError> {
    let mut rest = form;
    for value in values {
        if let Some((front, back)) = rest.split_once("{}") {
            text.push_str(front)?;
            put_value(labels, *value, text)?;
            rest = back;
        }
    }
    text.push_str(rest)
}
