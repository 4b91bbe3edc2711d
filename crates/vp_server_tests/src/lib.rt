//! Tests alone: a desk, hubs over threads, and servers with their clients in one process, over sockets of 127.0.0.1. What a hub does under
//! its lock is proved of a desk; that its threads get on beside each other, and that what each was answered is what the log says, is seen
//! here.
//!
//! A value that holds much, such as a hub or what is left of it, is given to `drop` at its end. What drops it is then proved once, and not in
//! each function that has such a value.
#![tactic(auto)]

#[cfg(test)]
mod tests;
