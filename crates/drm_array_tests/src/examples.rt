//! The examples of doc comments, made by `tools/doc_examples`.

mod id_alloc;
mod index_array;
