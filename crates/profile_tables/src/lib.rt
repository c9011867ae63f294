// Profiles as the code keeps them: definitions and laws, no code.

#![tactic(auto)]
