#![tactic(auto)]

//! Tests what no clause of `age_cli::run` says: that it flushes its output, and that a failed flush
//! is a failed write. The system's streams have no buffer, so a run of the program shows neither.

#[cfg(test)]
mod flushes;
