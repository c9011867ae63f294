// Why the verdict is right: a formula holds on some lasso exactly if its tableau has a reachable accepting cycle. Theorems, no function.

#![tactic(auto)]
