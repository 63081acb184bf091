// A capture lent in parts: the definitions are in specs/Relay.antt, what holds of them in proofs/Relayed.antt.
#![tactic(auto)]
