// A line as a whole, proved equal to its ticks: definitions and theorems alone.
#![tactic(auto)]
