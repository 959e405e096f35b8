// Laws only: whole numbers, floor shifts, machine numbers, tests, tables and lent buffers. There is no code here.
#![tactic(auto)]
