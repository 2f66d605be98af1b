//! The examples of doc comments, made by `tools/doc_examples`.

mod files;
mod gem;
mod leases;
mod masters;
mod modes;
mod share;
