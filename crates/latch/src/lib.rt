// The DEN latch over the ticks of a line: definitions and theorems alone.
#![tactic(auto)]
