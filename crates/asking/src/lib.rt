// The run of any lookup program by calls, asked and answered name by name: definitions and theorems, no code.
#![tactic(auto)]
