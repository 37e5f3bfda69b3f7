//! Macros: found by number and by name, and written out.
ghost use Rattle.std.specs.Prelude.{◌≡◌, ℕ, ◌+◌, ◌<◌, ◌||◌, List, length, map, take, ◌++◌, [], ◌∷◌, Some, None, if◌then◌else◌, IfOk, IfSome, OnOk};
ghost use Rattle.std.specs.Option.{option_or};
ghost use Rattle.k_lex_pieces.specs.Bytes as bytes;
ghost use Rattle.k_lex_macros.specs.Macros as spec;
ghost use Rattle.k_lex_macros.specs.Table.{listed, count_of, number_in, is_in, IsIndexed, token_at, owed, turns, sizes_shown, AreSteps, IsNewPlan, ArePlanned};

use crate::copies::copy_of;
use crate::plans::{Plan, Step, push_steps};
use k_lex_pieces::words::is_same;
use k_num::{NoMemory, Place, Seq};
use k_tree::{Token, TokenKind};
use std::alloc::Global;
use std::collections::{HashMap, HashSet};

/// A token of a macro's body, and how many bytes spell it.
#[derive(Debug, PartialEq, Eq, Drop)]
pub struct Lexeme {
    pub what: TokenKind,
    pub size: usize,
}

/// A macro: its body as it is written, and how what it is replaced by is written out.
#[derive(Debug, Drop)]
struct Definition {
    name: Seq<u8>,
    body: Seq<Lexeme>,
    plan: Plan,
}

/// The macros so far, which are found by their numbers and by their names.
#[derive(Drop)]
pub struct Macros {
    list: Vec<Definition>,
    /// The number of each macro, by its name.
    numbers: HashMap<Vec<u8>, usize>,
    /// The names that stand in the bodies.
    mentioned: HashSet<Vec<u8>>,
}

/// Whether the token is this name.
pub fn is_named(name: &[u8], what: &TokenKind) -> bool
    ensures { result ≡ spec.is_named name.now what.now }
{
    match what {
        TokenKind::Name(other) => is_same(other.as_str().as_bytes(), name),
        _ => false,
    }
}

/// Whether two bodies have equal tokens.
pub fn same_body(a: &[Lexeme], b: &[Lexeme]) -> bool
    ensures { result ≡ spec.same_body a.now b.now }
{
    let mut left = a;
    let mut right = b;
    while let Some((x, xs)) = left.split_first() {
        match right.split_first() {
            None => return false,
            Some((y, ys)) => {
                if x.what != y.what {
                    return false;
                }
                left = xs;
                right = ys;
            }
        }
    }
    right.is_empty()
}

/// Adds a copy of the token at a place of a body.
fn write_token(
    alloc: Global,
    place: Place,
    body: &[Lexeme],
    at: usize,
    tokens: &mut Seq<Token>,
) -> Result<(), NoMemory>
    requires { at < length body.now }
    ensures { OnOk result (tokens.new ≡ tokens.old ++ map (spec.placed place) (token_at body.now at)) }
{
    let what = copy_of(alloc, &body[at].what)?;
    tokens.push(Token { what, place })?;
    Ok(())
}

/// Adds a name with its number, unless there is one of this name.
fn add_number(
    alloc: Global,
    numbers: &mut HashMap<Vec<u8>, usize>,
    name: &[u8],
    number: usize,
) -> Result<(), NoMemory>
    ensures { OnOk result ((q : List ℕ) → number_in numbers.new q ≡ option_or (number_in numbers.old q) (if bytes.same name.now q then Some number else None)) }
{
    if !numbers.contains_key(name) {
        let key = Vec::from_slice(alloc, name)?;
        numbers.insert(key, number)?;
    }
    Ok(())
}

/// Adds a name to the set.
fn add_name(alloc: Global, names: &mut HashSet<Vec<u8>>, name: &[u8]) -> Result<(), NoMemory>
    ensures { OnOk result ((q : List ℕ) → is_in names.new q ≡ (is_in names.old q || bytes.same name.now q)) }
{
    if !names.contains(name) {
        let key = Vec::from_slice(alloc, name)?;
        names.insert(key)?;
    }
    Ok(())
}

/// Adds the name that a token is.
fn add_named(alloc: Global, names: &mut HashSet<Vec<u8>>, what: &TokenKind) -> Result<(), NoMemory>
    ensures { OnOk result ((q : List ℕ) → is_in names.new q ≡ (is_in names.old q || spec.is_named q what.now)) }
{
    match what {
        TokenKind::Name(name) => add_name(alloc, names, name.as_str().as_bytes()),
        _ => Ok(()),
    }
}

/// Adds the names that stand in a body.
fn add_names(alloc: Global, names: &mut HashSet<Vec<u8>>, body: &[Lexeme]) -> Result<(), NoMemory>
    ensures { OnOk result ((q : List ℕ) → is_in names.new q ≡ (is_in names.old q || spec.stands_in q body.now)) }
{
    for x in body {
        add_named(alloc, names, &x.what)?;
    }
    Ok(())
}

impl Macros {
    /// No macros.
    pub fn new(alloc: Global) -> Macros
        ensures empty { listed result ≡ [] }
        ensures indexed { IsIndexed result }
        ensures planned { ArePlanned result }
    {
        Macros {
            list: Vec::new(alloc),
            numbers: HashMap::new(alloc),
            mentioned: HashSet::new(alloc),
        }
    }

    /// The number of the macro of this name.
    pub fn find(&self, name: &[u8]) -> Option<usize>
        requires { IsIndexed self.now }
        ensures found { result ≡ spec.find (listed self.now) name.now }
        ensures within { IfSome result (λ k. k < count_of self.now) }
    {
        self.numbers.get(name).copied()
    }

    /// The number of the macro that a token uses.
    pub fn used(&self, what: &TokenKind) -> Option<usize>
        requires { IsIndexed self.now }
        ensures found { result ≡ spec.used (listed self.now) what.now }
        ensures within { IfSome result (λ k. k < count_of self.now) }
    {
        match what {
            TokenKind::Name(name) => self.find(name.as_str().as_bytes()),
            _ => None,
        }
    }

    /// Whether the name stands in the body of some macro.
    pub fn mentions(&self, name: &[u8]) -> bool
        requires { IsIndexed self.now }
        ensures { result ≡ spec.mentions (listed self.now) name.now }
    {
        self.mentioned.contains(name)
    }

    /// The body of the macro of this number.
    pub fn body_at(&self, number: usize) -> &[Lexeme]
        ensures { result.now ≡ spec.body_at (listed self.now) number }
    {
        if number < self.list.len() {
            self.list[number].body.as_slice()
        } else {
            &[]
        }
    }

    /// How many tokens the macro of this number is replaced by, and how many bytes spell them; no count goes
    /// beyond the greatest number.
    pub fn size_of(&self, number: usize) -> (usize, usize)
        requires planned { ArePlanned self.now }
        requires there { number < count_of self.now }
        ensures { result ≡ sizes_shown (spec.full_at (spec.fulls (listed self.now)) number) }
    {
        let plan = &self.list[number].plan;
        (plan.count, plan.bytes)
    }

    /// Goes one step on in writing out a macro: a token is written, or the steps of a macro come in.
    fn take_step(
        &self,
        alloc: Global,
        place: Place,
        step: Step,
        stack: &mut Vec<Step>,
        tokens: &mut Seq<Token>,
    ) -> Result<(), NoMemory>
        requires planned { ArePlanned self.now }
        requires step { AreSteps self.now (step ∷ []) }
        requires stack { AreSteps self.now stack.old.items }
        ensures tokens { OnOk result (tokens.new ++ map (spec.placed place) (owed self.now stack.new.items) ≡ tokens.old ++ map (spec.placed place) (owed self.now (stack.old.items ++ step ∷ []))) }
        ensures stack { OnOk result (AreSteps self.now stack.new.items) }
        ensures nearer { OnOk result (turns self.now stack.new.items < turns self.now (stack.old.items ++ step ∷ [])) }
    {
        match step {
            Step::Token { number, at } => {
                write_token(alloc, place, self.body_at(number), at, tokens)?;
            }
            Step::Whole(number) => {
                push_steps(stack, self.list[number].plan.steps.as_slice())?;
            }
        }
        Ok(())
    }

    /// Adds copies of what the macro of this number is replaced by, all at one place.
    pub fn write_out(
        &self,
        alloc: Global,
        place: Place,
        number: usize,
        tokens: &mut Seq<Token>,
    ) -> Result<(), NoMemory>
        requires planned { ArePlanned self.now }
        requires there { number < count_of self.now }
        ensures { OnOk result (tokens.new ≡ tokens.old ++ map (spec.placed place) (spec.full_at (spec.fulls (listed self.now)) number)) }
    {
        let mut stack = Vec::new(alloc);
        push_steps(&mut stack, self.list[number].plan.steps.as_slice())?;
        while let Some(step) = stack.pop() {
            self.take_step(alloc, place, step, &mut stack, tokens)?;
        }
        Ok(())
    }

    /// Adds the step for a token of a new body.
    fn add_step(&self, plan: &mut Plan, body: &[Lexeme], at: usize) -> Result<(), NoMemory>
        requires indexed { IsIndexed self.now }
        requires planned { ArePlanned self.now }
        requires there { at < length body.now }
        requires plan { IsNewPlan self.now body.now plan.old (take at body.now) }
        ensures { OnOk result (IsNewPlan self.now body.now plan.new (take (at + 1) body.now)) }
    {
        let x = &body[at];
        match self.used(&x.what) {
            None => plan.add_token(self.list.len(), at, x.size)?,
            Some(number) => plan.add_macro(number, &self.list[number].plan)?,
        }
        Ok(())
    }

    /// How what a new body is replaced by is written out.
    fn plan_of(&self, alloc: Global, body: &[Lexeme]) -> Result<Plan, NoMemory>
        requires indexed { IsIndexed self.now }
        requires planned { ArePlanned self.now }
        ensures { IfOk result (λ plan. IsNewPlan self.now body.now plan body.now) }
    {
        let mut plan = Plan::new(alloc);
        for at in 0..body.len() {
            self.add_step(&mut plan, body, at)?;
        }
        Ok(plan)
    }

    /// Adds a macro.
    pub fn define(
        &mut self,
        alloc: Global,
        name: Seq<u8>,
        body: Seq<Lexeme>,
    ) -> Result<(), NoMemory>
        requires indexed { IsIndexed self.old }
        requires planned { ArePlanned self.old }
        ensures listed { OnOk result (listed self.new ≡ spec.defined (listed self.old) name body) }
        ensures indexed { OnOk result (IsIndexed self.new) }
        ensures planned { OnOk result (ArePlanned self.new) }
    {
        let plan = match self.plan_of(alloc, body.as_slice()) {
            Ok(plan) => plan,
            Err(NoMemory) => {
                drop(body);
                drop(name);
                return Err(NoMemory);
            }
        };
        let new = Definition { name, body, plan };
        let number = self.list.len();
        if let Err(NoMemory) = add_number(alloc, &mut self.numbers, new.name.as_slice(), number) {
            drop(new);
            return Err(NoMemory);
        }
        if let Err(NoMemory) = add_names(alloc, &mut self.mentioned, new.body.as_slice()) {
            drop(new);
            return Err(NoMemory);
        }
        self.list.push(new)?;
        Ok(())
    }
}
