use crate::quoting::Quoted;
use bench::report;
use std::alloc::Global;

// Two cells and the instruction that works on them; one that takes one cell takes the second.
#[derive(Clone, Copy)]
pub(crate) struct Sum(i32, &'static str, i32);

pub(crate) const SUMS: [Sum; 45] = [
    Sum(-7, "DIV", 2),
    Sum(-7, "MOD", 2),
    Sum(7, "DIV", -2),
    Sum(7, "MOD", -2),
    Sum(-7, "DIV", -2),
    Sum(-7, "MOD", -2),
    Sum(i32::MIN, "DIV", -1),
    Sum(i32::MIN, "MOD", -1),
    Sum(i32::MIN, "DIV", 1),
    Sum(1, "DIV", 0),
    Sum(1, "MOD", 0),
    Sum(i32::MAX, "ADD", 1),
    Sum(i32::MIN, "ADD", -1),
    Sum(i32::MAX, "ADD", i32::MIN),
    Sum(i32::MIN, "SUB", 1),
    Sum(0, "SUB", i32::MIN),
    Sum(-1, "SUB", i32::MIN),
    Sum(65536, "MUL", 32768),
    Sum(-65536, "MUL", 32768),
    Sum(46341, "MUL", 46341),
    Sum(46340, "MUL", -46341),
    Sum(i32::MIN, "MUL", -1),
    Sum(i32::MIN, "MUL", 1),
    Sum(0, "NEG", i32::MAX),
    Sum(0, "NEG", i32::MIN),
    Sum(0, "NOT", 0),
    Sum(0, "NOT", 1),
    Sum(0, "NOT", 5),
    Sum(0, "NOT", i32::MAX),
    Sum(0, "NOT", i32::MIN),
    Sum(0, "NOT", i32::MIN + 1),
    Sum(0, "NOT", i32::MIN + 2),
    Sum(-1, "LT", 1),
    Sum(-1, "GT", 1),
    Sum(i32::MIN, "LT", i32::MAX),
    Sum(i32::MIN, "LE", i32::MIN),
    Sum(i32::MAX, "GE", i32::MIN),
    Sum(-1, "GE", 0),
    Sum(-1, "EQ", -1),
    Sum(1, "NE", -1),
    Sum(i32::MAX, "LE", i32::MIN),
    Sum(2, "AND", -1),
    Sum(0, "AND", 5),
    Sum(0, "OR", -3),
    Sum(0, "OR", 0),
];

// What the bench reports of a sum.
pub(crate) fn sum_answer(heap: Global, sum: &Sum) -> anyhow::Result<String> {
    let Sum(first, mnemonic, second) = *sum;
    let text = format!(in heap; "PUSH {first}\nPUSH {second}\n{mnemonic}\nIPRINT\nHALT\n")?;
    let answer = report(heap, text.as_bytes())?;
    Ok(format!(in heap; "{first} {mnemonic} {second}: {}", Quoted(&answer))?)
}
