//! The answer of `graph`: the events of a run, and one heaviest path for each instance.
ghost use Rattle.std.specs.Prelude.{IfOk};
ghost use Rattle.k_top_answers.specs.Answers.{IsListed};
ghost use Rattle.k_top_lemmas.specs.Parts.{IsFit, running_of};

use k_graph::instances;
use k_num::{NoMemory, Seq};
use k_report::graph_text;
use k_top_answers::Answer;
use k_top_lemmas::Ready;
use k_top_programs::listing;
use std::alloc::Global;

/// The answer of `graph`, with the instances below a depth, however the run ended.
pub fn graph_answer(alloc: Global, ready: &Ready, depth: u32) -> Result<Answer, NoMemory>
    requires { IsFit ready.now depth }
    ensures { IfOk result (λ answer. IsListed depth answer (running_of ready.now)) }
{
    let listing = listing(alloc, ready)?;
    let tree = instances(alloc, &listing.events, depth)?;
    let text = graph_text(alloc, &listing, &tree)?;
    Ok(Answer::ended(Seq::from_vec(text), ready.steps, listing.end))
}
