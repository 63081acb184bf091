// Why the CPU stops: definitions and theorems alone.
#![tactic(auto)]
