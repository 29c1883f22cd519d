//! What is read of the words of a command, one after the other.

ghost use Rattle.std.specs.Prelude.{◌≡◌, ◌≤◌, ◌^◌, Some, IfSome, if◌then◌else◌, true, map, option_map, unsigned_abs};
ghost use Rattle.std.specs.Prelude.{bytes_eq, codes};
ghost use Rattle.run_words.specs.Table.{row_of as row_of_seen};
ghost use Rattle.run_words.specs.TableView.{row_seen};
ghost use Rattle.run_words.specs.Words.{number_word, error_word, coordinate_word, greatest_error, state, step, nothing};
ghost use Rattle.run_words.specs.Words.{chosen, is_prefix as is_prefix_seen, fill as fill_seen, next as next_seen};
ghost use Rattle.run_words.specs.ShowView.{IsPrefixLength};
ghost use Rattle.run_words.specs.FoundView.{found_seen, IsFound};

use crate::fit_words::Goal;
use crate::table::{Kind, Row, Stage, Wanted, commands, goals, row_of, tasks};
use mesh_defs::{
    CAMERA_REACH, GREATEST_ERROR, GREATEST_FILE_LEVEL, LEAST_TRIANGLES, MOST_TRIANGLES,
};
use roam_edge::LONGEST_PREFIX;
use roam_num::{read_dec, read_signed, read_thousandths};
use wedgie_tree::GREATEST_SPACING;

/// The least budget: the two base triangles.
pub const LEAST_BUDGET: u32 = LEAST_TRIANGLES;

/// The greatest budget.
pub const GREATEST_BUDGET: u32 = MOST_TRIANGLES;

/// The greatest tolerance.
pub const GREATEST_TOLERANCE: u64 = 999_999_999_999;

/// The greatest seed.
pub const GREATEST_SEED: u32 = u32::MAX;

/// The greatest size of a coordinate of a camera.
pub const REACH: u64 = CAMERA_REACH;

/// What is read of the words of a command: which one it is, and what stands in each kind of place.
#[derive(Clone, Copy)]
pub(crate) struct Found<'a> {
    pub(crate) kind: Kind,
    pub(crate) grid: &'a str,
    pub(crate) script: &'a str,
    pub(crate) prefix: &'a str,
    pub(crate) mesh: &'a str,
    pub(crate) certificate: &'a str,
    pub(crate) points: Option<&'a str>,
    pub(crate) x: i64,
    pub(crate) y: i64,
    pub(crate) z: i64,
    pub(crate) level: u32,
    pub(crate) seed: u32,
    pub(crate) budget: u32,
    pub(crate) tolerance: u64,
    pub(crate) thousandths: u32,
    pub(crate) goal: Goal,
    pub(crate) spacing: u32,
}

impl<'a> Found<'a> {
    /// Before the first word: a value within its bounds for each place that a command may lack.
    pub(crate) fn nothing() -> Found<'a>
        ensures value { found_seen result ≡ nothing }
        ensures bounds { IsFound result }
    {
        Found {
            kind: Kind::Info,
            grid: "",
            script: "",
            prefix: "o",
            mesh: "",
            certificate: "",
            points: None,
            x: 0,
            y: 0,
            z: 0,
            level: 1,
            seed: 0,
            budget: LEAST_BUDGET,
            tolerance: 0,
            thousandths: 0,
            goal: Goal::AtError(0),
            spacing: 1,
        }
    }
}

/// What is wanted behind this word; None where it is wrong.
pub(crate) fn stage_behind<'a>(stage: Stage, word: &'a str, found: &mut Found<'a>) -> Option<Stage>
    requires found { IsFound found.old }
    ensures value { option_map (λ behind. state (found_seen found.new) behind.now) result ≡
        step (Some (state (found_seen found.old) stage.now)) word.now }
    ensures bounds { IsFound found.new }
{
    match stage {
        [] => None,
        [wanted, rest @ ..] => next_stage(*wanted, rest, word, found),
    }
}

/// What is wanted behind a word that stands where this is wanted, and this rest behind it; None where the word does not
/// fit.
fn next_stage<'a>(
    wanted: Wanted,
    rest: Stage,
    word: &'a str,
    found: &mut Found<'a>,
) -> Option<Stage>
    requires found { IsFound found.old }
    ensures value { option_map (λ behind. state (found_seen found.new) behind.now) result ≡
        next_seen wanted rest.now word.now (found_seen found.old) }
    ensures bounds { IsFound found.new }
{
    match wanted {
        Wanted::Command => choose(commands(), word, found),
        Wanted::Task => choose(tasks(), word, found),
        Wanted::Goal => choose(goals(), word, found),
        _ => {
            fill(wanted, word, found)?;
            Some(rest)
        }
    }
}

/// What is wanted behind the word that names a row.
fn choose(rows: &'static [Row], word: &str, found: &mut Found<'_>) -> Option<Stage>
    requires found { IsFound found.old }
    ensures value { option_map (λ behind. state (found_seen found.new) behind.now) result ≡
        chosen (found_seen found.old) (row_of_seen (map row_seen rows.now) word.now) }
    ensures bounds { IsFound found.new }
{
    let row = row_of(rows, word)?;
    found.kind = row.kind.unwrap_or(found.kind);
    Some(row.behind)
}

/// Notes a word in its place; None where it does not fit.
fn fill<'a>(wanted: Wanted, word: &'a str, found: &mut Found<'a>) -> Option<()>
    requires found { IsFound found.old }
    ensures value { option_map (λ _. found_seen found.new) result ≡ fill_seen wanted word.now (found_seen found.old) }
    ensures bounds { IsFound found.new }
{
    match wanted {
        Wanted::Grid => found.grid = word,
        Wanted::Script => found.script = word,
        Wanted::Mesh => found.mesh = word,
        Wanted::Certificate => found.certificate = word,
        Wanted::Points => found.points = Some(word),
        Wanted::Prefix => found.prefix = prefix_in(word)?,
        Wanted::X => found.x = coordinate_in(word)?,
        Wanted::Y => found.y = coordinate_in(word)?,
        Wanted::Z => found.z = coordinate_in(word)?,
        Wanted::Level => found.level = small_number(word, 1, GREATEST_FILE_LEVEL)?,
        Wanted::Seed => found.seed = small_number(word, 0, GREATEST_SEED)?,
        Wanted::Budget => {
            found.budget = small_number(word, LEAST_BUDGET, GREATEST_BUDGET)?;
            found.goal = Goal::InBudget(found.budget);
        }
        Wanted::Error => {
            found.thousandths = error_in(word)?;
            found.goal = Goal::AtError(found.thousandths);
        }
        Wanted::Tolerance => found.tolerance = number_in_word(word, 0, GREATEST_TOLERANCE)?,
        Wanted::Spacing => found.spacing = small_number(word, 1, GREATEST_SPACING)?,
        Wanted::Keep => return keep_in(word),
        Wanted::Command | Wanted::Task | Wanted::Goal => return None,
    }
    Some(())
}

/// The word, if the names of meshes may begin so: it has at least 1 byte, and no more than a mesh sink takes.
fn prefix_in(word: &str) -> Option<&str>
    ensures value { option_map (λ prefix. prefix.now) result ≡ (if is_prefix_seen word.now then Some word.now else None) }
    ensures within { IfSome result (λ prefix. IsPrefixLength prefix.now) }
{
    if 1 <= word.len() && word.len() <= LONGEST_PREFIX {
        Some(word)
    } else {
        None
    }
}

/// Whether the word is `keep`.
fn keep_in(word: &str) -> Option<()>
    ensures { result ≡ (if bytes_eq word.now (codes "keep") then Some tt else None) }
{
    if word == "keep" { Some(()) } else { None }
}

/// The number of a word of 1 to 19 digits, if it lies within these bounds of 32 bits.
fn small_number(word: &str, low: u32, high: u32) -> Option<u32>
    ensures value { result ≡ number_word low high word.now }
    ensures within { IfSome result (λ number. (low ≤ number) × (number ≤ high)) }
{
    let number = number_in_word(word, u64::from(low), u64::from(high))?;
    Some(number as u32)
}

/// The number of a word of 1 to 19 digits, if it lies within these bounds.
fn number_in_word(word: &str, low: u64, high: u64) -> Option<u64>
    ensures value { result ≡ number_word low high word.now }
    ensures within { IfSome result (λ number. (low ≤ number) × (number ≤ high)) }
{
    let number = read_dec(word.as_bytes())?;
    if low <= number && number <= high {
        Some(number)
    } else {
        None
    }
}

/// The thousandths of a word, if they lie within their bound.
fn error_in(word: &str) -> Option<u32>
    ensures value { result ≡ error_word word.now }
    ensures within { IfSome result (λ thousandths. thousandths ≤ greatest_error) }
{
    let thousandths = read_thousandths(word.as_bytes())?;
    if thousandths <= u64::from(GREATEST_ERROR) {
        Some(thousandths as u32)
    } else {
        None
    }
}

/// The number of a word, if it is within a camera's reach.
fn coordinate_in(word: &str) -> Option<i64>
    ensures value { result ≡ coordinate_word word.now }
    ensures within { IfSome result (λ v. unsigned_abs v ≤ 2 ^ 30) }
{
    let value = read_signed(word.as_bytes())?;
    if value.unsigned_abs() <= REACH {
        Some(value)
    } else {
        None
    }
}
