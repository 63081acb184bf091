// The sprites as they were, with a flag each, beside the sprites as they are: definitions and theorems alone.
#![tactic(auto)]
