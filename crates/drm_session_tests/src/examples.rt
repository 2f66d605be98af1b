//! The examples of doc comments, made by `tools/doc_examples`.

mod checks;
mod device;
mod explanations;
mod refusals;
mod rights;
mod runs;
mod sentences;
mod sessions;
mod traffic;
mod trails;
mod turns;
