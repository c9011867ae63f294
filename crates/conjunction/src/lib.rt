// The conjunction of formulas: its bytes, how they are read, and the lassos that meet it. Theorems, no function.

#![tactic(auto)]
