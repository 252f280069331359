//! Reading and writing whole texts, by readers and writers that are watched for failures.
//!
//! - `watch`: what is remembered of the calls of a reader or a writer, and how an answer changes it.
//! - `watched`: a reader or a writer with that memory, itself a reader or a writer.
//! - `reading`: reads a reader to its end, within a limit.
//! - `writing`: writes bytes whole, and flushes.
//! - `laws`: what the memory of the calls says of all of them.
#![tactic(auto)]

pub mod laws;
pub mod reading;
pub mod watch;
pub mod watched;
pub mod writing;
