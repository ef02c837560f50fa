// What is left of the program that reads an aggregate report, at every place: definitions and laws.
#![tactic(auto)]
