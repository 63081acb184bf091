// The numbers of the standard streams, for the calls of the kit's `io`.
#![tactic(auto)]

pub const STDIN_FILENO: i32 = 0;

pub const STDOUT_FILENO: i32 = 1;
