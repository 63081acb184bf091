// What a viewer reads off a dump's text: the reader is in specs/Reader.antt, what it gets back in proofs/Back.antt.
#![tactic(auto)]
