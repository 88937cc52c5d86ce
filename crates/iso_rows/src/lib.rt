//! Worked histories, computed: each is allowed entry by entry, follows its statements and its lines, is that of the serial run,
//! and is whole.
#![tactic(auto)]
