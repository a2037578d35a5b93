//! The real objects that the product is lent: the files, and a writer as the standard output.
#![tactic(auto)]

mod file_library;
mod out_sink;

pub use file_library::FileLibrary;
pub use out_sink::OutSink;

#[cfg(test)]
mod tests;
