// The laws and theorems over the definitions of `model`; there is no function here.
#![tactic(auto)]
