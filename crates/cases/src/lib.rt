// Closed runs through whole calls with raw bytes, computed by the checker over the definitions of `rules`: 01's figures and
// tables, further cases, and the pairs of runs for point 3. It has no code.
#![tactic(auto)]
