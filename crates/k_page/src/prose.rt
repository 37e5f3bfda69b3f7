//! What a page says in its own words.
ghost use Rattle.std.specs.Prelude.{◌≡◌, ◌++◌, OnOk};
ghost use Rattle.k_page.specs.Markup as markup;
ghost use Rattle.k_page.specs.Prose as spec;

use crate::markup::{Tag, push_element};
use k_num::NoMemory;
use k_text::push;

/// A text of the page.
#[derive(Clone, Copy, Debug, PartialEq, Eq)]
pub enum Prose {
    Work,
    Parallel,
    Saving,
    Picture,
    OneRun,
    NoPlan,
    Large,
    Heading,
    Meaning,
    RowsCaption,
    PlanCaption,
    DictionaryCaption,
    ShadesCaption,
    PictureTitle,
    PictureText,
    SourceNotes,
    BelowTwo,
    BelowFive,
    BelowTwentyFive,
    BelowHundred,
    HundredAndMore,
}

/// What work and path are.
const WORK: &str =
    "Every operation costs what a table of latencies says. The work of a function, a loop or a loop body is what all its operations cost together, \
over all n times that it was entered. Its path is what the longest chain of operations costs that wait for one another: with any number of processors it takes no less.";

/// What self-parallelism is.
const PARALLEL: &str =
    "The self-parallelism sp tells how many times faster it could be at best by making itself parallel, and nothing within it: for a loop, its turns. \
It is a fraction; 1/1 says that nothing is gained.";

/// What a loop of the plan saves.
const SAVING: &str =
    "A loop of the plan saves its work less its work over its self-parallelism. It is doall where its turns hardly waited for one another, \
and doacross where they did in part, or differ much in length. Of loops inside one another at most one is in the plan.";

/// What the boxes of the picture are.
const PICTURE: &str =
    "Each box is a function, loop or body as it was reached from main; it is as wide as its share of the work, and stands under the one that it was reached from. \
Its own work stands at its left, what was reached from it beside that. Boxes that are too narrow are left out.";

/// That the numbers are of one run.
const ONE_RUN: &str =
    "All numbers are of one run with one input: other runs may have other dependences. Look at a loop before you change it.";

/// Why there is no plan where regions are reached on too many ways.
const NO_PLAN: &str =
    "There are more than 65536 ways on which regions were reached, and so there are no plan and no picture.";

/// Why there are no rows where the dictionary is too large.
const LARGE: &str =
    "The profile is over the limits of its dictionary, which lists each shape of instances once; so there are no rows, no plan and no picture. \
A smaller --depth tracks fewer levels, and has fewer shapes.";

/// The caption of the dictionary.
const DICTIONARY_CAPTION: &str =
    "The dictionary: each shape of instances, with its children as entry*count";

/// The picture in words.
const PICTURE_TEXT: &str =
    "Boxes for functions, loops and bodies, each under the one around it, as wide as its share of the work. \
Their numbers stand in the tables below.";

/// A text of the page, in words.
#[tactic(auto, unfolding(crate::specs::Prose::words))]
pub(crate) fn words(prose: Prose) -> &'static str
    ensures { result.now ≡ spec.words prose }
{
    match prose {
        Prose::Work => WORK,
        Prose::Parallel => PARALLEL,
        Prose::Saving => SAVING,
        Prose::Picture => PICTURE,
        Prose::OneRun => ONE_RUN,
        Prose::NoPlan => NO_PLAN,
        Prose::Large => LARGE,
        Prose::Heading => "Profile of ",
        Prose::Meaning => "What the numbers mean",
        Prose::RowsCaption => "All functions, loops and bodies that were entered",
        Prose::PlanCaption => "Loops to make parallel first",
        Prose::DictionaryCaption => DICTIONARY_CAPTION,
        Prose::ShadesCaption => "Shades of the boxes, by sp; boxes of the plan are outlined",
        Prose::PictureTitle => "Where the work is",
        Prose::PictureText => PICTURE_TEXT,
        Prose::SourceNotes => "what begins there, with its share of the work",
        Prose::BelowTwo => "below 2",
        Prose::BelowFive => "2 to below 5",
        Prose::BelowTwentyFive => "5 to below 25",
        Prose::BelowHundred => "25 to below 100",
        Prose::HundredAndMore => "100 and more",
    }
}

/// A text of the page as an element.
pub(crate) fn push_prose(text: &mut Vec<u8>, tag: Tag, prose: Prose) -> Result<(), NoMemory>
    ensures { OnOk result (text.new.items ≡ text.old.items ++ markup.texted tag (spec.words prose)) }
{
    push_element(text, tag, words(prose))
}

/// What stands before the page's title: its type, its language, and how it looks.
const OPENING: &str = "\
<!DOCTYPE html>
<html lang=\"en\">
<meta charset=\"utf-8\">
<meta name=\"viewport\" content=\"width=device-width\">
<style>
body{font:15px/1.4 system-ui,sans-serif;color:#111;background:#fff;margin:1em auto;max-width:80em;padding:0 1em}
table{border-collapse:collapse;margin:1em 0}
caption{text-align:left;font-weight:bold;padding:.3em 0}
th,td{padding:.1em .6em;text-align:right;vertical-align:top;border-bottom:1px solid #ddd}
th[scope=row],.w{text-align:left}
code{white-space:pre;font:13px/1.4 monospace}
td p{margin:0}
meter{width:6em}
svg{max-width:100%;height:auto}
svg svg{max-width:none}
text{font:12px sans-serif;fill:#111}
rect{stroke:#fff;stroke-width:1}
.s1{fill:#ffffcc;background:#ffffcc}
.s2{fill:#a1dab4;background:#a1dab4}
.s3{fill:#41b6c4;background:#41b6c4}
.s4{fill:#2c7fb8;background:#2c7fb8;color:#fff}
.s5{fill:#253494;background:#253494;color:#fff}
.s4+text,.s5+text{fill:#fff}
.picked{stroke:#d00000;stroke-width:5}
</style>
";

/// The opening of the page.
#[tactic(auto, unfolding(crate::specs::Prose::opening))]
pub(crate) fn push_opening(text: &mut Vec<u8>) -> Result<(), NoMemory>
    ensures { OnOk result (text.new.items ≡ text.old.items ++ spec.opening) }
{
    push(text, OPENING)
}

/// What stands behind the page.
#[tactic(auto, unfolding(crate::specs::Prose::closing))]
pub(crate) fn push_closing(text: &mut Vec<u8>) -> Result<(), NoMemory>
    ensures { OnOk result (text.new.items ≡ text.old.items ++ spec.closing) }
{
    push(text, "</html>\n")
}
