// A report has no more octets than 64 bits count: laws.
#![tactic(auto)]
