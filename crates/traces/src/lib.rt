// What the tick's definition leaves, cycle by cycle: the tables are in specs/Traces.antt.
#![tactic(auto)]
