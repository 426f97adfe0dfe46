// Step 1 of 000, section 7: DP of a rule, marked in its rows.
ghost use Rattle.std.specs.Prelude.{◌≡◌, cond, ◌+◌, ◌≤◌, ◌<◌, length};
ghost use Rattle.inducing.specs.Closes.{Marked, Only};
ghost use Rattle.grammar.specs.Table as table;
ghost use Rattle.access.specs.ByPlace as places;
ghost use Rattle.inducing.specs.Arcs as said;

use access::Rule;
use grammar::ROWS;

// How many of the n argument words of an operation are occurrences: a constant is none.
fn argument_count(op: usize, n: usize) -> usize
    ensures value { result ≡ cond (table.is_constant op) 0 n }
    ensures upper_bound { result ≤ n }
{
    if op == 0 {
        return 0;
    }
    n
}

// Marks the arc from a to b.
fn mark(rows: &mut [u64; ROWS], a: usize, b: usize)
    requires { (a < 64) × (b < 64) }
    ensures { Marked rows.old (Only a b) rows.new }
{
    rows[a] = bits::with(rows[a], b);
}

// Marks the arcs of the function at word f, from each of its arguments to its target, and answers where the next function starts.
fn mark_function(words: &[u16], f: usize, rows: &mut [u64; ROWS]) -> usize
    requires f_bound { f < 1000000 }
    requires function_small { said.FunctionSmall words.now f }
    ensures value { (result ≡ places.next_function words.now f) × (result ≤ f + 6) }
    ensures marked { Marked rows.old (said.FunctionArc words.now f (said.arguments_at words.now f)) rows.new }
{
    let target = access::known(words, f);
    let op = access::known(words, f + 1);
    let n = access::argument_words(op);
    let count = argument_count(op, n);
    for j in 0..count {
        let a = access::known(words, f + 2 + j);
        mark(rows, a, target);
    }
    f + 2 + n
}

// Marks those of all functions of a rule.
pub fn mark_rule(rule: &Rule<'_>, rows: &mut [u64; ROWS])
    requires few { table.functions_at rule.now.words.now rule.now.at ≤ 64 }
    requires functions_small { said.FunctionsSmall rule.now.words.now rule.now.at }
    ensures { Marked rows.old (said.RuleArc rule.now.words.now rule.now.at (table.functions_at rule.now.words.now rule.now.at)) rows.new }
{
    let count = rule.function_count();
    let mut f = rule.first_function();
    for k in 0..count {
        f = mark_function(rule.words, f, rows);
    }
}
