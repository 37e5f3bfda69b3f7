//! A profile as one page of HTML.
ghost use Rattle.std.specs.Prelude.{◌≡◌, ◌++◌, IfOk, OnOk, option_copied};
ghost use Rattle.k_page.specs.Page as spec;

use crate::escape::push_escaped;
use crate::facts::{push_facts, push_large_facts};
use crate::lists::{push_dictionary, push_plan, push_rows};
use crate::markup::{Tag, finish, push_element, start};
use crate::picture::{push_legend, push_picture};
use crate::prose::{Prose, push_closing, push_opening, push_prose, words};
use crate::source::push_source;
use crate::tiles::tiles_of;
use k_dict_entries::Dict;
use k_num::{NoMemory, Seq};
use k_optab::Region;
use k_plan::{Advice, Pick};
use k_selfpar::{Context, ContextList, Row};
use k_text::push;
use std::alloc::Global;

/// The picks of a plan, where there is one.
fn picks_of(plan: Option<&Advice>) -> &[Pick]
    ensures { result.now ≡ spec.picks_of (option_copied plan.entry) }
{
    match plan {
        None => &[],
        Some(advice) => advice.picks.as_slice(),
    }
}

/// The title of the page.
#[tactic(auto, unfolding(crate::specs::Page::title))]
fn push_title(text: &mut Vec<u8>, name: &str) -> Result<(), NoMemory>
    ensures { OnOk result (text.new.items ≡ text.old.items ++ spec.title name.now) }
{
    start(text, Tag::Title)?;
    push_escaped(text, name.as_bytes())?;
    finish(text, Tag::Title)
}

/// The head of the page.
#[tactic(auto, unfolding(crate::specs::Page::heading))]
fn push_heading(text: &mut Vec<u8>, name: &str) -> Result<(), NoMemory>
    ensures { OnOk result (text.new.items ≡ text.old.items ++ spec.heading name.now) }
{
    start(text, Tag::Heading)?;
    push(text, words(Prose::Heading))?;
    push_escaped(text, name.as_bytes())?;
    finish(text, Tag::Heading)
}

/// The title, the head, and what the run comes to.
#[tactic(auto, unfolding(crate::specs::Page::head_part))]
fn push_head(
    text: &mut Vec<u8>,
    name: &str,
    exit: i32,
    ops: u64,
    whole: u64,
    path: u64,
    plan: Option<&Advice>,
) -> Result<(), NoMemory>
    ensures { OnOk result (text.new.items ≡ text.old.items ++ spec.head_part name.now exit ops whole path (option_copied plan.entry)) }
{
    push_title(text, name)?;
    push_heading(text, name)?;
    push_facts(text, name, exit, ops, whole, path, plan)
}

/// The plan and the picture.
#[tactic(auto, unfolding(crate::specs::Page::views_part))]
fn push_views(
    alloc: Global,
    text: &mut Vec<u8>,
    regions: &[Region],
    whole: u64,
    contexts: &[Context],
    plan: Option<&Advice>,
) -> Result<(), NoMemory>
    ensures { OnOk result (text.new.items ≡ text.old.items ++ spec.views_part regions.now whole contexts.now (option_copied plan.entry)) }
{
    let tiles = tiles_of(alloc, contexts)?;
    push_element(text, Tag::Chapter, "Plan")?;
    push_plan(text, regions, contexts, whole, plan)?;
    push_element(text, Tag::Chapter, "Picture")?;
    push_legend(text)?;
    push_picture(text, regions, picks_of(plan), whole, tiles.as_slice())
}

/// The source, the rows and the dictionary.
#[tactic(auto, unfolding(crate::specs::Page::texts_part))]
fn push_texts(
    text: &mut Vec<u8>,
    source: &[u8],
    regions: &[Region],
    whole: u64,
    rows: &[Row],
    dict: Option<&Dict>,
    contexts: &[Context],
    plan: Option<&Advice>,
) -> Result<(), NoMemory>
    ensures { OnOk result (text.new.items ≡ text.old.items
        ++ spec.texts_part source.now regions.now whole rows.now (option_copied dict.entry) contexts.now (option_copied plan.entry)) }
{
    push_element(text, Tag::Chapter, "Source")?;
    push_source(text, regions, contexts, picks_of(plan), whole, rows, source)?;
    push_element(text, Tag::Chapter, "Rows")?;
    push_rows(text, regions, whole, rows)?;
    push_dictionary(text, regions, dict)
}

/// What the numbers mean, in five paragraphs.
#[tactic(auto, unfolding(crate::specs::Page::explanations))]
fn push_explanations(text: &mut Vec<u8>) -> Result<(), NoMemory>
    ensures { OnOk result (text.new.items ≡ text.old.items ++ spec.explanations) }
{
    push_prose(text, Tag::Paragraph, Prose::Work)?;
    push_prose(text, Tag::Paragraph, Prose::Parallel)?;
    push_prose(text, Tag::Paragraph, Prose::Saving)?;
    push_prose(text, Tag::Paragraph, Prose::Picture)?;
    push_prose(text, Tag::Paragraph, Prose::OneRun)
}

/// What the numbers mean.
#[tactic(auto, unfolding(crate::specs::Page::meaning_part))]
fn push_meaning(text: &mut Vec<u8>) -> Result<(), NoMemory>
    ensures { OnOk result (text.new.items ≡ text.old.items ++ spec.meaning_part) }
{
    push_prose(text, Tag::Chapter, Prose::Meaning)?;
    push_explanations(text)
}

/// All that stands between the opening and the end.
#[tactic(auto, unfolding(crate::specs::Page::body_part))]
fn push_body(
    alloc: Global,
    text: &mut Vec<u8>,
    name: &str,
    source: &[u8],
    exit: i32,
    ops: u64,
    whole: u64,
    path: u64,
    regions: &[Region],
    rows: &[Row],
    dict: Option<&Dict>,
    contexts: &[Context],
    plan: Option<&Advice>,
) -> Result<(), NoMemory>
    ensures { OnOk result (text.new.items ≡ text.old.items
        ++ spec.body_part name.now source.now exit ops whole path regions.now rows.now (option_copied dict.entry) contexts.now (option_copied plan.entry)) }
{
    push_head(text, name, exit, ops, whole, path, plan)?;
    push_views(alloc, text, regions, whole, contexts, plan)?;
    push_texts(text, source, regions, whole, rows, dict, contexts, plan)?;
    push_meaning(text)
}

/// A profile as one page of HTML that stands alone: no script, nothing that is loaded. `name` is that of the source's file, `work` and `path`
/// are those of the run as a whole, and the rest is what a report is made of; where there are too many contexts for a plan, `contexts` may be empty. Want
/// of memory is answered too where a sum passes 2^64, which no profile brings about.
pub fn page(
    alloc: Global,
    name: &str,
    source: &[u8],
    exit: i32,
    ops: u64,
    work: u64,
    path: u64,
    regions: &Seq<Region>,
    rows: &Seq<Row>,
    dict: Option<&Dict>,
    contexts: &ContextList,
    plan: Option<&Advice>,
) -> Result<Vec<u8>, NoMemory>
    ensures { IfOk result (λ text. text.items
        ≡ spec.page_text name.now source.now exit ops work path regions.now rows.now (option_copied dict.entry) contexts.now (option_copied plan.entry)) }
{
    let mut text = Vec::new(alloc);
    push_opening(&mut text)?;
    push_body(
        alloc,
        &mut text,
        name,
        source,
        exit,
        ops,
        work,
        path,
        regions.as_slice(),
        rows.as_slice(),
        dict,
        contexts.as_slice(),
        plan,
    )?;
    push_closing(&mut text)?;
    Ok(text)
}

/// What stands between the opening and the end where there is no profile.
#[tactic(auto, unfolding(crate::specs::Page::large_part))]
fn push_large(text: &mut Vec<u8>, name: &str, exit: i32, ops: u64) -> Result<(), NoMemory>
    ensures { OnOk result (text.new.items ≡ text.old.items ++ spec.large_part name.now exit ops) }
{
    push_title(text, name)?;
    push_heading(text, name)?;
    push_large_facts(text, name, exit, ops)?;
    push_prose(text, Tag::Paragraph, Prose::Large)
}

/// The page of a run whose profile is over the limits of its dictionary: what main returned, how many operations were made, and why there is no more.
pub fn large_page(alloc: Global, name: &str, exit: i32, ops: u64) -> Result<Vec<u8>, NoMemory>
    ensures { IfOk result (λ text. text.items ≡ spec.large_page_text name.now exit ops) }
{
    let mut text = Vec::new(alloc);
    push_opening(&mut text)?;
    push_large(&mut text, name, exit, ops)?;
    push_closing(&mut text)?;
    Ok(text)
}
