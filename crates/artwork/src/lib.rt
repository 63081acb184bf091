// What two runs share whatever they draw: the statement is in specs/Runs.antt, its proof in proofs/Artwork.antt.
#![tactic(auto)]
