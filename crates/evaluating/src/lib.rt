// The value of a function at a node of a tree. The words and values that it reads are there: that is asked of the caller, so nothing is tested.
#![tactic(auto)]

ghost use Rattle.std.specs.Prelude.{◌≡◌, ◌+◌, ◌≤◌, ◌<◌, length};
ghost use Rattle.basics.specs.Lists.{word};
ghost use Rattle.values.specs.Value.{constant};
ghost use Rattle.trees.specs.Tree as trees;
ghost use Rattle.evaluating.specs.FunctionPlaces as places;

use access::known;

// The node at position i of the rule at node n: itself at 0, else its child.
fn node_at(tree: &[u16], n: usize, i: usize) -> usize
    requires { (n < trees.nodes tree.now) × ((n < 65536) × (i < 8)) }
    ensures { (result ≡ trees.node_at tree.now n i) × (result < 65536) }
{
    if i == 0 {
        return n;
    }
    known(tree, 8 * n + i)
}

// Where the value of occurrence o of the rule at node n stands.
pub fn cell(tree: &[u16], n: usize, o: usize) -> usize
    requires { (n < trees.nodes tree.now) × ((n < 65536) × (o < 64)) }
    ensures { result ≡ trees.cell tree.now n o }
{
    8 * node_at(tree, n, o / 8) + o % 8
}

// The value of the occurrence that the argument word q names.
fn argument_value(words: &[u16], q: usize, tree: &[u16], values: &[i32], n: usize) -> i32
    requires { places.Named words.now q tree.now n (length values.now) }
    ensures { result ≡ places.occurrence_value tree.now values.now n (word words.now q) }
{
    let c = cell(tree, n, known(words, q));
    values[c]
}

// The constant of the function at word f.
fn constant_value(words: &[u16], f: usize) -> i32
    requires { f + 2 < length words.now }
    ensures { result ≡ constant (places.argument_at words.now f 0) }
{
    values::constant(words[f + 2])
}

// The value of the function at word f, whose operation op has two arguments.
fn of_two(op: u16, words: &[u16], f: usize, tree: &[u16], values: &[i32], n: usize) -> i32
    requires valued { places.Valued words.now f tree.now n (length values.now) }
    requires op_value { (op ≡ places.operation_at words.now f) × ((2 ≤ op) × (op ≤ 6)) }
    ensures { result ≡ places.value_from words.now tree.now values.now n f }
{
    let x = argument_value(words, f + 2, tree, values, n);
    let y = argument_value(words, f + 3, tree, values, n);
    values::result(op, x, y, 0, 0)
}

// Operation 7 has three.
fn of_three(words: &[u16], f: usize, tree: &[u16], values: &[i32], n: usize) -> i32
    requires valued { places.Valued words.now f tree.now n (length values.now) }
    requires value { 7 ≡ places.operation_at words.now f }
    ensures { result ≡ places.value_from words.now tree.now values.now n f }
{
    let x = argument_value(words, f + 2, tree, values, n);
    let y = argument_value(words, f + 3, tree, values, n);
    let z = argument_value(words, f + 4, tree, values, n);
    values::result(7, x, y, z, 0)
}

// What is above has four.
fn of_four(op: u16, words: &[u16], f: usize, tree: &[u16], values: &[i32], n: usize) -> i32
    requires valued { places.Valued words.now f tree.now n (length values.now) }
    requires op_value { (op ≡ places.operation_at words.now f) × (8 ≤ op) }
    ensures { result ≡ places.value_from words.now tree.now values.now n f }
{
    let x = argument_value(words, f + 2, tree, values, n);
    let y = argument_value(words, f + 3, tree, values, n);
    let z = argument_value(words, f + 4, tree, values, n);
    let t = argument_value(words, f + 5, tree, values, n);
    values::result(op, x, y, z, t)
}

// The value that the function at word f gives at node n. It looks at no more words and values than its operation has arguments,
// and names the operation at each call, so that it is chosen once.
pub fn function_value(words: &[u16], f: usize, tree: &[u16], values: &[i32], n: usize) -> i32
    requires { places.Valued words.now f tree.now n (length values.now) }
    ensures { result ≡ places.value_from words.now tree.now values.now n f }
{
    let op = words[f + 1];
    match op {
        0 => constant_value(words, f),
        1 => argument_value(words, f + 2, tree, values, n),
        2 => of_two(2, words, f, tree, values, n),
        3 => of_two(3, words, f, tree, values, n),
        4 => of_two(4, words, f, tree, values, n),
        5 => of_two(5, words, f, tree, values, n),
        6 => of_two(6, words, f, tree, values, n),
        7 => of_three(words, f, tree, values, n),
        _ => of_four(op, words, f, tree, values, n),
    }
}
