//! The head of a page: the file, and what its run comes to as a whole.
ghost use Rattle.std.specs.Prelude.{◌≡◌, ◌++◌, OnOk, option_copied};
ghost use Rattle.k_page.specs.Facts as spec;

use crate::amount::push_share;
use crate::cells::push_number_cell;
use crate::escape::push_escaped;
use crate::markup::{Attribute, Tag, finish, push_element, start, start_with};
use itoa::Integer;
use k_num::NoMemory;
use k_plan::Advice;
use k_text::{push, push_named, push_number};

/// The head of a line: what it is about.
#[tactic(auto, unfolding(crate::specs::Facts::fact_head))]
fn push_fact_head(text: &mut Vec<u8>, words: &str) -> Result<(), NoMemory>
    ensures { OnOk result (text.new.items ≡ text.old.items ++ spec.fact_head words.now) }
{
    start_with(text, Tag::HeadCell, Attribute::Scope, "row")?;
    push(text, words)?;
    finish(text, Tag::HeadCell)
}

/// A number with what it is.
#[tactic(auto, unfolding(crate::specs::Facts::fact))]
fn push_fact<I: Integer>(text: &mut Vec<u8>, words: &str, number: I) -> Result<(), NoMemory>
    ensures { OnOk result (text.new.items ≡ text.old.items ++ spec.fact words.now (I.text number)) }
{
    start(text, Tag::Row)?;
    push_fact_head(text, words)?;
    push_number_cell(text, number)?;
    finish(text, Tag::Row)
}

/// The name of the file in its cell.
#[tactic(auto, unfolding(crate::specs::Facts::file_cell))]
fn push_file_cell(text: &mut Vec<u8>, name: &str) -> Result<(), NoMemory>
    ensures { OnOk result (text.new.items ≡ text.old.items ++ spec.file_cell name.now) }
{
    start_with(text, Tag::Cell, Attribute::Class, "w")?;
    push_escaped(text, name.as_bytes())?;
    finish(text, Tag::Cell)
}

/// The name of the file, with what it is.
#[tactic(auto, unfolding(crate::specs::Facts::file_fact))]
fn push_file(text: &mut Vec<u8>, name: &str) -> Result<(), NoMemory>
    ensures { OnOk result (text.new.items ≡ text.old.items ++ spec.file_fact name.now) }
{
    start(text, Tag::Row)?;
    push_fact_head(text, "file")?;
    push_file_cell(text, name)?;
    finish(text, Tag::Row)
}

/// What a plan saves of the work.
#[tactic(auto, unfolding(crate::specs::Facts::total))]
fn push_total(text: &mut Vec<u8>, total: u64, whole: u64) -> Result<(), NoMemory>
    ensures { OnOk result (text.new.items ≡ text.old.items ++ spec.total total whole) }
{
    push_number(text, total)?;
    push_named(text, " of ", whole)?;
    push(text, ", ")?;
    push_share(text, total, whole)
}

/// What a plan saves in its cell.
#[tactic(auto, unfolding(crate::specs::Facts::total_cell))]
fn push_total_cell(text: &mut Vec<u8>, total: u64, whole: u64) -> Result<(), NoMemory>
    ensures { OnOk result (text.new.items ≡ text.old.items ++ spec.total_cell total whole) }
{
    start(text, Tag::Cell)?;
    push_total(text, total, whole)?;
    finish(text, Tag::Cell)
}

/// A plan as a whole.
#[tactic(auto, unfolding(crate::specs::Facts::advice_fact))]
fn push_advice(text: &mut Vec<u8>, advice: &Advice, whole: u64) -> Result<(), NoMemory>
    ensures { OnOk result (text.new.items ≡ text.old.items ++ spec.advice_fact whole advice.now) }
{
    start(text, Tag::Row)?;
    push_fact_head(text, "the plan saves")?;
    push_total_cell(text, advice.total, whole)?;
    finish(text, Tag::Row)
}

/// The plan as a whole, where there is one.
fn push_plan(text: &mut Vec<u8>, plan: Option<&Advice>, whole: u64) -> Result<(), NoMemory>
    ensures { OnOk result (text.new.items ≡ text.old.items ++ spec.plan_fact whole (option_copied plan.entry)) }
{
    match plan {
        None => Ok(()),
        Some(advice) => push_advice(text, advice, whole),
    }
}

/// What main returned, and how many operations were made.
#[tactic(auto, unfolding(crate::specs::Facts::run_facts))]
fn push_run(text: &mut Vec<u8>, exit: i32, ops: u64) -> Result<(), NoMemory>
    ensures { OnOk result (text.new.items ≡ text.old.items ++ spec.run_facts exit ops) }
{
    push_fact(text, "exit", exit)?;
    push_fact(text, "operations", ops)
}

/// What the operations come to.
#[tactic(auto, unfolding(crate::specs::Facts::work_facts))]
fn push_work(text: &mut Vec<u8>, whole: u64, path: u64) -> Result<(), NoMemory>
    ensures { OnOk result (text.new.items ≡ text.old.items ++ spec.work_facts whole path) }
{
    push_fact(text, "work", whole)?;
    push_fact(text, "path", path)
}

/// All these numbers.
#[tactic(auto, unfolding(crate::specs::Facts::number_facts))]
fn push_numbers(
    text: &mut Vec<u8>,
    exit: i32,
    ops: u64,
    whole: u64,
    path: u64,
) -> Result<(), NoMemory>
    ensures { OnOk result (text.new.items ≡ text.old.items ++ spec.number_facts exit ops whole path) }
{
    push_run(text, exit, ops)?;
    push_work(text, whole, path)
}

/// The head of a page as a table.
#[tactic(auto, unfolding(crate::specs::Facts::facts_table))]
pub(crate) fn push_facts(
    text: &mut Vec<u8>,
    name: &str,
    exit: i32,
    ops: u64,
    whole: u64,
    path: u64,
    plan: Option<&Advice>,
) -> Result<(), NoMemory>
    ensures { OnOk result (text.new.items ≡ text.old.items ++ spec.facts_table name.now exit ops whole path (option_copied plan.entry)) }
{
    start(text, Tag::Table)?;
    push_element(text, Tag::Caption, "The run")?;
    push_file(text, name)?;
    push_numbers(text, exit, ops, whole, path)?;
    push_plan(text, plan, whole)?;
    finish(text, Tag::Table)
}

/// The head of a page as a table, where there is no profile.
#[tactic(auto, unfolding(crate::specs::Facts::large_facts))]
pub(crate) fn push_large_facts(
    text: &mut Vec<u8>,
    name: &str,
    exit: i32,
    ops: u64,
) -> Result<(), NoMemory>
    ensures { OnOk result (text.new.items ≡ text.old.items ++ spec.large_facts name.now exit ops) }
{
    start(text, Tag::Table)?;
    push_element(text, Tag::Caption, "The run")?;
    push_file(text, name)?;
    push_run(text, exit, ops)?;
    finish(text, Tag::Table)
}
