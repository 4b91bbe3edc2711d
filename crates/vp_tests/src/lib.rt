//! Tests alone: tokens, designs, notices, the command line, simulations and races, worlds and what their users were shown, and dialogues whose
//! reader or writer fails. Each public call that takes memory is called once with ample memory, so that it gives the answer that the
//! documents name. A call that only ever answers out of memory would be proved; here it fails.
//!
//! The calls that a script makes are tested through it: the cases of `vp_cases` compare each byte that it prints. They call `Text::copy`,
//! `tokens`, `string_value`, `envelopes`, `parse`, `elaborate`, `check`, `read_policy`, `Values::new`, `Sim::new` and `step`, the pushes of
//! `Strata`, `World::new` and `apply`, `Session::handle_by_name`, `vp_json`'s `read`, `Bits::to_bin`, `request`, `reply_line`, `session`,
//! `run_bundle` and `run_files`. The crates of tests have those that it does not make.
//!
//! A value that holds much, such as a simulation or a world, is given to `drop` at its end. What drops it is then proved once, and not in
//! each function that has such a value.
#![tactic(auto)]

#[cfg(test)]
mod tests;
