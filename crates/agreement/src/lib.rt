// Where the two decisions both answer, they answer the same. Theorems, no function.

#![tactic(auto)]
