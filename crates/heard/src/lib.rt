// What a reader of captures is heard to say: definitions and theorems alone.
#![tactic(auto)]
