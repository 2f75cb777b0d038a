//! Tests of the book, given commands line by line.
//!
//! Promises: nothing; it has no public function.
//! Only tested: commands and effects of a book, books made of parts, refused memory.
//! Stands on: vault_checkout, vault_lines, and what they stand on.
//! Start at: book.rt.
#![tactic(auto)]

#[cfg(test)]
mod book;
