// What a plan is: the roads to each register and the stages of records over them, and that it ends in the wanted file. Definitions and theorems; the
// code that writes a plan is in `plan`.
#![tactic(auto)]
