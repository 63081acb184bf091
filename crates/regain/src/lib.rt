// What a dump of ours reads back as: theorems alone.
#![tactic(auto)]
