// Laws of statements, arm by arm: what a statement's parts, compiled one after the other, come to. There is no code here.
#![tactic(auto)]
