// What a short plan is: the full plan's stages over what a set names, and that from a file that differs from the saved one inside the set only it ends in the
// saved one. Definitions and theorems; the code that writes a short plan is in `short_plan`.
#![tactic(auto)]
