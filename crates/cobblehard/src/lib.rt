// The C face: exported functions on numbers and byte slices, with no rule of their own (include/cobblehard.h).
#![tactic(auto)]

mod logs;
mod runs;
mod speeds;
