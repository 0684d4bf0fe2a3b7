//! Messages in a stream, and replies.

mod faults;
mod foreign;
mod replies;
mod samples;
mod seen;
mod sequences;
mod whole;
