// The grammar table and its reading: the definitions of `specs/` say what is answered. Here are only the sizes that the code counts with.
#![tactic(auto)]

// Document 01's sizes as the code counts with them; specs/Limits.antt has each with its sentence.
pub const MOST_RULES: usize = 64;

pub const ROWS: usize = 64;

pub const SET_WORDS: usize = 256;

pub const RULE_WORDS: usize = 112;

// Where each rule of a table starts, by its number.
pub type Offsets = [u16; MOST_RULES];
