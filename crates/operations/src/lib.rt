// When halve, double, step, a start and choosing are refused, and which operation is chosen. What that means is in specs/; there is no code here.
#![tactic(auto)]
