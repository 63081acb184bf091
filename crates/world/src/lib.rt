// All that a tick changes, and the tick's definition: definitions alone, for what stands below the sequencer too.
#![tactic(auto)]
