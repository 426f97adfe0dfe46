// The worked examples of document 01 as one claim about the definitions, and tables that tell the right definitions from near misses.
#![tactic(auto)]
