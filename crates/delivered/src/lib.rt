// Every claim in one record, and its proof.
#![tactic(auto)]
