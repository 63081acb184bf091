// What a viewer reads off the dump of a run file: a definition and a theorem alone.
#![tactic(auto)]
