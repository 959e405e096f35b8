// Laws only: the starred cases of document 01. There is no code here.
#![tactic(auto)]
