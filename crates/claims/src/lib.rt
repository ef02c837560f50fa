// Every claim, written out in one place: claims and their proof.
#![tactic(auto)]
