// All promises, proved, and the table of cases.
#![tactic(auto)]
