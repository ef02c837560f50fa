// What an answer at the confirming name says, and where what replaces the address stands in the scratch: claims and their proofs, no code.
#![tactic(auto)]
