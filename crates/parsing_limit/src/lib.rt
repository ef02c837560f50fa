// Reading programs that take no more octets than a count can tell: definitions and laws.
#![tactic(auto)]
