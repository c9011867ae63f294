// Traces, profiles and which of them are rejecting.

#![tactic(auto)]
