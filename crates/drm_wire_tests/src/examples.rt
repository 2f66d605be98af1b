//! The examples of doc comments, made by `tools/doc_examples`.

mod frames;
mod script;
mod table;
