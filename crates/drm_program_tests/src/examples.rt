//! The examples of doc comments, made by `tools/doc_examples`.

mod commands;
mod server;
