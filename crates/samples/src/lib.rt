// Document 01's worked example as words: table G, and its tree of two lines.
#![tactic(auto)]

// Symbols, rules and start; then a line for the symbols and one for each rule.
pub const G: [u16; 48] = [
    3, 3, 0, 0, 1, 0, 0, 3, 2, 1, 1, 0, 0, 1, 1, 2, 0, 1, 10, 9, 1, 8, 1, 2, 2, 1, 3, 0, 4, 8, 16,
    17, 1, 1, 2, 1, 18, 1, 1, 2, 2, 0, 1, 8, 2, 6, 8, 1,
];

// A line for each node: rule 0; rule 1; terminal; rule 2; terminal.
pub const TWO_LINES: [u16; 40] = [
    0, 1, 0, 0, 0, 0, 0, 0, 1, 2, 3, 0, 0, 0, 0, 0, 32770, 0, 0, 0, 0, 0, 0, 0, 2, 4, 0, 0, 0, 0,
    0, 0, 32770, 0, 0, 0, 0, 0, 0, 0,
];
