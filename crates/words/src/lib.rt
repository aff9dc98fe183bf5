// The words that the statements of all layers are written in, and laws about them. There is no code here.
#![tactic(auto)]
