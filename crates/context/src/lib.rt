// Contexts: a formula around one of its subformulas, the bytes of a subformula, and what becomes of both when another formula takes its
// place. Theorems, no function.

#![tactic(auto)]
