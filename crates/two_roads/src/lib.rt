// That the two roads to a register agree: the list of the registers that have two, and that the same access by either gives the same code, value and
// file. Definitions and theorems, no code.
#![tactic(auto)]
