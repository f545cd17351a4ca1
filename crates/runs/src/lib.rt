// The list of choices: every run, from first choice through next choice to 9, holds every aligned choice exactly once, in rising order, and their number is a
// power of two. The statements of the two calls leave no freedom but which ring is shown. And swapping the ends of lines changes nothing in them.
// Definitions in specs/, proofs in proofs/, and no code.

#![tactic(auto)]
