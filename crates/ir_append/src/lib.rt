// A row of the graph with its texts, each text in its spelling. `writer`: the graph sheet that rows are added to. `row0`: row 0 of a graph sheet.
// The two texts of the schema's row stand apart: nothing is known of them together, and a struct would only be made for a row and taken apart for each text.
// `at ≤ length names`: the names are cut there, and only here.
#![tactic(auto)]

pub mod row0;
pub mod writer;

ghost use Rattle.std.specs.Prelude.{if◌then◌else◌, Some, ◌≡◌, ◌+◌, ◌≤◌, length};
ghost use Rattle.names.specs.Answers.{Put};
ghost use Rattle.sheet.specs.Limits.{names_limit};
ghost use Rattle.ir_append.specs.Spelled.{text_by_spelling};
ghost use Rattle.ir_append.specs.Stored.{Stores, Spreads, recipe_numbers};

use names::snake::xml_to_snake_case;
use names::{code_to_pascal_case, normalize_type_name, put_same};

// How a text of a graph's row is spelled from the first or second text of the schema's row.
#[derive(Clone, Copy)]
pub enum Spelling {
    First,
    FirstNormalized,
    FirstSnake,
    FirstPascal,
    Second,
    SecondNormalized,
}

// A row of the graph: its numbers, and how its texts are spelled.
#[derive(Clone, Copy)]
pub struct Recipe {
    pub tag: u32,
    pub a: u32,
    pub b: u32,
    pub c: u32,
    pub first: Option<Spelling>,
    pub second: Option<Spelling>,
    pub third: Option<Spelling>,
}

// A text in its spelling. `put_spelled` is inlined for each of a row's three texts and this is not, with no attribute: with `inline(never)` lowering takes the same 764,399
// instructions on pain.001.001.09 and the same stack (a library of lowering and columns).
fn put_text(part: &mut [u8], how: Spelling, first: &[u8], second: &[u8]) -> Option<usize>
    ensures { Put (text_by_spelling (Some how) first.now second.now) part.old result part.new }
{
    match how {
        Spelling::First => put_same(first, part),
        Spelling::FirstNormalized => normalize_type_name(first, part),
        Spelling::FirstSnake => xml_to_snake_case(first, part),
        Spelling::FirstPascal => code_to_pascal_case(first, part),
        Spelling::Second => put_same(second, part),
        Spelling::SecondNormalized => normalize_type_name(second, part),
    }
}

// Inlined, down from `append_spelled`: a row asks for three texts, and has one or two.
#[inline(always)]
fn put_spelled(part: &mut [u8], how: Option<Spelling>, first: &[u8], second: &[u8]) -> Option<usize>
    ensures { Put (text_by_spelling how first.now second.now) part.old result part.new }
{
    match how {
        None => Some(0),
        Some(how) => put_text(part, how, first, second),
    }
}

// The text stored in the names from `at`.
#[inline(always)]
fn put_behind(
    names: &mut [u8],
    at: usize,
    how: Option<Spelling>,
    first: &[u8],
    second: &[u8],
) -> Option<usize>
    requires { at ≤ length names.old }
    ensures { Stores names.old at (text_by_spelling how first.now second.now) names.new result }
{
    put_spelled(&mut names[at..], how, first, second)
}

// How long each of the row's three texts is; they stand in the names one behind the other.
#[inline(always)]
fn put_texts(
    names: &mut [u8],
    at: usize,
    recipe: Recipe,
    first: &[u8],
    second: &[u8],
) -> Option<(usize, usize, usize)>
    requires { at ≤ length names.old }
    ensures { Spreads names.old at recipe first.now second.now names.new result }
{
    let n = put_behind(names, at, recipe.first, first, second)?;
    let m = put_behind(names, at + n, recipe.second, first, second)?;
    let k = put_behind(names, at + n + m, recipe.third, first, second)?;
    Some((n, m, k))
}

// "an unused pair is 0 0"
pub fn offset(used: bool, at: usize) -> u32
    requires { at ≤ names_limit }
    ensures { result ≡ (if used then at else 0) }
{
    if used { at as u32 } else { 0 }
}

// `n`, `m`, `k`: how long the three texts are, not the used part of a buffer.
#[inline(always)]
fn spelled_row(recipe: Recipe, at: usize, n: usize, m: usize, k: usize) -> [u32; 10]
    requires { at + (n + (m + k)) ≤ names_limit }
    ensures { result ≡ recipe_numbers recipe at n m k }
{
    [
        recipe.tag,
        offset(recipe.first.is_some(), at),
        n as u32,
        offset(recipe.second.is_some(), at + n),
        m as u32,
        offset(recipe.third.is_some(), at + n + m),
        k as u32,
        recipe.a,
        recipe.b,
        recipe.c,
    ]
}
