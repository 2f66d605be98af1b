//! Sources and sinks of bytes, and frames: requests, hellos and answers as bytes.
//!
//! No function of this crate allocates. An example is the body of a function that has the runtime `rt`.
#![tactic(auto)]

mod answers;
mod decoding;
mod fields;
mod frame;
mod hello;
mod laws;
mod lists;
mod number;
mod pages;
mod refusals;
mod requests;
mod results;
mod sink;
mod source;
mod text;
mod texts;
mod turns;

pub use answers::{AnswerText, encode_answer};
pub use decoding::{Decoded, decode};
pub use frame::Frame;
pub use hello::{Hello, encode_hello, hello_of};
pub use laws::{
    answers_read_back, calls_read_back, each_frame_asks, each_frame_greets, each_frame_tells,
    hellos_read_back, no_text_begins_another, numbers_read_back, numbers_written_back, one_call,
    one_decoding, one_frame, one_hello, one_reading, one_result, rows_of_the_table,
    texts_are_found,
};
pub use requests::{call_of, encode_call, read_call};
pub use results::answer_of;
pub use sink::{Put, Sink, ToWrite};
pub use source::{FromRead, Source, Taken};
pub use text::FrameBytes;
pub use texts::put_each;
pub use turns::{Refill, Written, put_all, take_some};
