//! The machine that expands a list.
ghost use Rattle.std.specs.Prelude.{◌≡◌, ◌≤◌, [], length, drop, slice_get};
ghost use Rattle.k_lex_expansion.specs.Replacing.{replaced};
ghost use Rattle.k_lex_expansion.specs.Uses.{Puts};
ghost use Rattle.k_lex_expanding.specs.Macros.{body_of};
ghost use Rattle.k_lex_expanding.specs.Machine.{Begins, ComesTo, Proceeds, Ran, Steps, Turned, ends_at, start_of, source_left, turn_as, weight, with_first};

use crate::calls::{Frame, Level, OpenCall, list_of, skip};
use crate::first::{First, look};
use crate::macros::body_at;
use crate::turn::Turn;
use k_lex_expansion::uses::{counted, put_in};
use k_lex_expansion::{Argument, Failure, Listed, Macro, Names, Spelled};
use k_num::{NoMemory, Seq, Stack};
use std::alloc::Global;
use std::mem::replace;

/// How far the expansion of a list is.
#[derive(Drop)]
pub struct Machine {
    pub level: Level,
    /// The calls of which an argument is being expanded, the innermost on top.
    pub frames: Stack<Frame>,
    /// How much is made.
    pub made: usize,
    /// How many tokens of the source are taken.
    pub taken: usize,
}

/// The body with its arguments takes the place of the call.
fn finish(
    alloc: Global,
    nothing: &Names,
    macros: &[Macro],
    limit: usize,
    call: &OpenCall,
    list: &mut Stack<Listed>,
    made: &mut usize,
) -> Result<Option<Failure>, NoMemory>
    requires { nothing.now ≡ [] }
    ensures { Puts result limit call.now.names call.now.spaced (replaced call.now.complete (body_of (slice_get macros.now call.now.number))) list.old made.old list.new made.new }
{
    put_in(
        alloc,
        nothing,
        limit,
        &call.names,
        call.spaced,
        call.complete.as_slice(),
        body_at(macros, call.number),
        list,
        made,
    )
}

/// What comes of a step that fails, or does not.
fn turn_of(failure: Option<Failure>) -> Turn
    ensures { result ≡ turn_as failure }
{
    match failure {
        None => Turn::Goes,
        Some(failure) => Turn::Fails(failure),
    }
}

/// The tokens behind those that are taken.
fn left(source: &[Spelled], taken: usize) -> &[Spelled]
    requires { taken ≤ length source.now }
    ensures { result.now ≡ drop taken source.now }
{
    let (_, behind) = source.split_at(taken);
    behind
}

impl Machine {
    /// Nothing of the list is expanded.
    pub fn new(alloc: Global, list: Stack<Listed>, made: usize) -> Machine
        ensures { result ≡ start_of list made }
    {
        Machine {
            level: Level {
                list,
                tokens: Seq::new(alloc),
            },
            frames: Stack::new(alloc),
            made,
            taken: 0,
        }
    }

    /// The tokens of the source behind the list. There are none behind an argument.
    fn source<'s>(&self, source: &'s [Spelled]) -> &'s [Spelled]
        requires { self.now.taken ≤ length source.now }
        ensures { result.now ≡ source_left self.now source.now }
    {
        match self.frames.top() {
            None => left(source, self.taken),
            Some(_) => &[],
        }
    }

    /// Whether the source ends with the tokens behind the list. Behind an argument it does.
    fn ends(&self, ends: bool) -> bool
        ensures { result ≡ ends_at self.now.frames ends }
    {
        match self.frames.top() {
            None => ends,
            Some(_) => true,
        }
    }

    /// An argument is expanded alone, and the call waits for it.
    #[tactic(auto, using(crate::proofs::StepLaws::begin_many))]
    fn begin(
        &mut self,
        alloc: Global,
        limit: usize,
        call: OpenCall,
        written: Seq<Listed>,
    ) -> Result<Turn, NoMemory>
        ensures { Begins result limit call written self.old self.new }
    {
        match counted(limit, self.made, written.len()) {
            None => Ok(Turn::Fails(Failure::TokensMany)),
            Some(made) => {
                let list = list_of(alloc, written.as_slice())?;
                let tokens = Seq::new(alloc);
                let behind = replace(&mut self.level, Level { list, tokens });
                self.frames.push(Frame {
                    call,
                    written,
                    behind,
                })?;
                self.made = made;
                Ok(Turn::Goes)
            }
        }
    }

    /// Goes on with a call: the next argument that its body asks for is expanded, or the body takes the call's place.
    fn proceed(
        &mut self,
        alloc: Global,
        nothing: &Names,
        macros: &[Macro],
        limit: usize,
        call: OpenCall,
    ) -> Result<Turn, NoMemory>
        requires { nothing.now ≡ [] }
        ensures { Proceeds result macros.now limit call self.old self.new }
    {
        let mut call = call;
        let body = body_at(macros, call.number);
        match skip(alloc, body, &mut call.complete, &mut call.waiting)? {
            Some(written) => self.begin(alloc, limit, call, written),
            None => {
                let list = &mut self.level.list;
                let failure = finish(alloc, nothing, macros, limit, &call, list, &mut self.made)?;
                Ok(turn_of(failure))
            }
        }
    }

    /// The list is at its end: all is expanded, or the argument of a call.
    #[tactic(auto, using(crate::proofs::StepLaws::end_over))]
    fn end(
        &mut self,
        alloc: Global,
        nothing: &Names,
        macros: &[Macro],
        limit: usize,
    ) -> Result<Turn, NoMemory>
        requires nothing { nothing.now ≡ [] }
        requires over { self.old.level.list ≡ [] }
        ensures { Steps result macros.now limit self.old self.new }
    {
        match self.frames.pop() {
            None => Ok(Turn::Over),
            Some(frame) => {
                let Frame {
                    mut call,
                    written,
                    behind,
                } = frame;
                let Level {
                    list: _,
                    tokens: expanded,
                } = replace(&mut self.level, behind);
                call.complete.push(Argument { written, expanded })?;
                self.proceed(alloc, nothing, macros, limit, call)
            }
        }
    }

    /// Takes a token that was the first of the list.
    #[tactic(auto, using(crate::proofs::StepLaws::take_replaced, crate::proofs::StepLaws::take_fails))]
    fn take(
        &mut self,
        alloc: Global,
        nothing: &Names,
        macros: &[Macro],
        limit: usize,
        token: Listed,
        source: &[Spelled],
        ends: bool,
    ) -> Result<Turn, NoMemory>
        requires nothing { nothing.now ≡ [] }
        requires within { self.old.taken ≤ length source.now }
        ensures { Turned result macros.now limit source.now ends (ComesTo macros.now limit source.now ends (with_first token self.old)) (weight limit source.now (with_first token self.old)) self.new }
    {
        let behind = self.source(source);
        let ends = self.ends(ends);
        let list = &mut self.level.list;
        match look(
            alloc,
            nothing,
            macros,
            limit,
            token,
            list,
            &mut self.made,
            behind,
            ends,
        )? {
            First::Kept(token) => {
                self.level.tokens.push(token)?;
                Ok(Turn::Goes)
            }
            First::Replaced => Ok(Turn::Goes),
            First::Fails(failure) => Ok(Turn::Fails(failure)),
            First::Calls { call, taken } => {
                self.taken += taken;
                self.proceed(alloc, nothing, macros, limit, call)
            }
        }
    }

    /// One step.
    fn step(
        &mut self,
        alloc: Global,
        nothing: &Names,
        macros: &[Macro],
        limit: usize,
        source: &[Spelled],
        ends: bool,
    ) -> Result<Turn, NoMemory>
        requires nothing { nothing.now ≡ [] }
        requires within { self.old.taken ≤ length source.now }
        ensures { Turned result macros.now limit source.now ends (ComesTo macros.now limit source.now ends self.old) (weight limit source.now self.old) self.new }
    {
        match self.level.list.pop() {
            None => self.end(alloc, nothing, macros, limit),
            Some(token) => self.take(alloc, nothing, macros, limit, token, source, ends),
        }
    }

    /// Goes on until all is expanded. Why it is not, if it fails.
    pub fn run(
        &mut self,
        alloc: Global,
        nothing: &Names,
        macros: &[Macro],
        limit: usize,
        source: &[Spelled],
        ends: bool,
    ) -> Result<Option<Failure>, NoMemory>
        requires nothing { nothing.now ≡ [] }
        requires within { self.old.taken ≤ length source.now }
        ensures { Ran result macros.now limit source.now ends self.old self.new }
    {
        loop {
            match self.step(alloc, nothing, macros, limit, source, ends)? {
                Turn::Goes => {}
                Turn::Over => return Ok(None),
                Turn::Fails(failure) => return Ok(Some(failure)),
            }
        }
    }
}
