// The worked examples that are settled by proof; their table is in specs/Worked.antt.
#![tactic(auto)]
