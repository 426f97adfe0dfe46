// The derivation tree. What a tree is, what refuses it and what its equations are stands in specs/; here are only the sizes that the code counts with,
// which specs/Tree.antt has with their sentences.
#![tactic(auto)]

pub const MOST_NODES: usize = 1024;

pub const TERMINAL_MARK: usize = 32768;
