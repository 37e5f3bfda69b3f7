//! The arguments of a call.
ghost use Rattle.std.specs.Prelude.{◌≡◌, ◌+◌, ◌-◌, ◌≤◌, [], ◌∷◌, ◌++◌, length, map, drop, Some, None, IfOk, OnOk};
ghost use Rattle.k_lex_expansion.specs.Calls as spec;
ghost use Rattle.k_lex_expansion.specs.Listing as listing;
ghost use Rattle.k_lex_expansion.specs.Gathering.{Feeds, Gathers, GathersList, GathersSource, all_of, begun};

use crate::listing::{is_spelled, unhidden};
use crate::tokens::{Listed, Names, Spelled};
use k_num::{NoMemory, Seq, Stack};
use std::alloc::Global;
use std::mem::replace;

/// What was read of a call: the arguments that are complete, the one that is being read, and how many parentheses are open in it.
#[derive(Drop)]
pub struct Gathering {
    pub complete: Seq<Seq<Listed>>,
    pub current: Seq<Listed>,
    depth: usize,
}

impl Gathering {
    /// The `(` of a call was read.
    pub fn new(alloc: Global) -> Gathering
        ensures { result ≡ begun }
    {
        Gathering {
            complete: Seq::new(alloc),
            current: Seq::new(alloc),
            depth: 0,
        }
    }

    /// How many parentheses are open behind the token. So many that no number counts them take more memory than there is.
    fn depth_behind(&self, token: &Listed) -> Result<usize, NoMemory>
        ensures { IfOk result (λ depth. depth ≡ spec.depth_behind token.now self.now.depth) }
    {
        if self.depth > 0 && is_spelled(b")", token) {
            Ok(self.depth - 1)
        } else if is_spelled(b"(", token) {
            self.depth.checked_add(1).ok_or(NoMemory)
        } else {
            Ok(self.depth)
        }
    }

    /// Whether the token is that mark, and no parenthesis within the call is open.
    fn is_outside(&self, mark: &[u8], token: &Listed) -> bool
        ensures { result ≡ spec.is_outside mark.now token.now self.now.depth }
    {
        self.depth == 0 && is_spelled(mark, token)
    }

    /// Takes the next token of a call, and tells whether the call ends with it.
    #[tactic(auto, using(crate::proofs::CallLaws::closes, crate::proofs::CallLaws::parts, crate::proofs::CallLaws::goes_on))]
    fn feed(&mut self, alloc: Global, token: Listed) -> Result<bool, NoMemory>
        ensures { Feeds result self.old token self.new }
    {
        if self.is_outside(b")", &token) {
            Ok(true)
        } else if self.is_outside(b",", &token) {
            self.complete
                .push(replace(&mut self.current, Seq::new(alloc)))?;
            Ok(false)
        } else {
            self.depth = self.depth_behind(&token)?;
            self.current.push(token)?;
            Ok(false)
        }
    }
}

/// Takes tokens of a list up to the `)` of a call. The names that it hides, if it is there.
#[tactic(auto, using(crate::proofs::CallLaws::list_on, crate::proofs::CallLaws::list_ends, crate::proofs::CallLaws::list_left))]
fn gather_list(
    alloc: Global,
    list: &mut Stack<Listed>,
    call: &mut Gathering,
) -> Result<Option<Names>, NoMemory>
    ensures { GathersList result list.old call.old list.new call.new }
{
    while let Some(token) = list.pop() {
        let hidden = token.hidden.share()?;
        if call.feed(alloc, token)? {
            return Ok(Some(hidden));
        }
    }
    Ok(None)
}

/// Takes tokens of the source up to the `)` of a call. How many these are, if it is there.
#[tactic(auto, using(crate::proofs::CallLaws::source_on, crate::proofs::CallLaws::source_ends))]
fn gather_source(
    alloc: Global,
    nothing: &Names,
    source: &[Spelled],
    call: &mut Gathering,
) -> Result<Option<usize>, NoMemory>
    requires { nothing.now ≡ [] }
    ensures { GathersSource result source.now call.old call.new }
{
    let mut rest = source;
    while let Some((token, more)) = rest.split_first() {
        if call.feed(alloc, unhidden(token, nothing)?)? {
            return Ok(Some(source.len() - more.len()));
        }
        rest = more;
    }
    Ok(None)
}

/// A call that was read to its `)`: its arguments, the names that the `)` hides, and how many tokens of the source it takes.
#[derive(Drop)]
pub struct Closed {
    pub arguments: Seq<Seq<Listed>>,
    pub hidden: Names,
    pub taken: usize,
}

/// The call ends here.
fn ended(call: Gathering, hidden: Names, taken: usize) -> Result<Closed, NoMemory>
    ensures { IfOk result (λ c. (c.arguments ≡ all_of call) × (c.hidden ≡ hidden) × (c.taken ≡ taken)) }
{
    let Gathering {
        complete: mut arguments,
        current,
        depth: _,
    } = call;
    arguments.push(current)?;
    Ok(Closed {
        arguments,
        hidden,
        taken,
    })
}

/// Takes a token off the list, if it has one. How many are to be taken of the source in its place.
fn take_first(list: &mut Stack<Listed>) -> usize
    ensures list { list.new ≡ drop 1 list.old }
    ensures taken { result ≡ 1 - length list.old }
{
    match list.pop() {
        None => 1,
        Some(_) => 0,
    }
}

/// Takes the tokens of a call, which are at the front of the list and the source behind it, if its `)` is there.
#[tactic(auto, using(crate::proofs::GatherLaws::in_list, crate::proofs::GatherLaws::in_source, crate::proofs::GatherLaws::not_closed))]
pub fn gather(
    alloc: Global,
    nothing: &Names,
    list: &mut Stack<Listed>,
    source: &[Spelled],
) -> Result<Option<Closed>, NoMemory>
    requires nothing { nothing.now ≡ [] }
    requires open { 1 ≤ length list.old + length source.now }
    ensures { Gathers result list.old source.now list.new }
{
    let first = take_first(list);
    let mut call = Gathering::new(alloc);
    match gather_list(alloc, list, &mut call)? {
        Some(hidden) => Ok(Some(ended(call, hidden, first)?)),
        None => match gather_source(alloc, nothing, &source[first..], &mut call)? {
            None => Ok(None),
            Some(count) => Ok(Some(ended(call, nothing.share()?, first + count)?)),
        },
    }
}

/// Whether there is one argument, without tokens.
fn is_one_empty(arguments: &[Seq<Listed>]) -> bool
    ensures { result ≡ spec.is_one_empty arguments.now }
{
    match arguments {
        [one] => one.is_empty(),
        _ => false,
    }
}

/// Whether there are as many arguments as parameters.
pub fn fits(count: usize, arguments: &[Seq<Listed>]) -> bool
    ensures { result ≡ spec.fits count arguments.now }
{
    arguments.len() == count || (count == 0 && is_one_empty(arguments))
}

/// The arguments, the first one on top.
pub fn stack_of(
    alloc: Global,
    mut arguments: Seq<Seq<Listed>>,
) -> Result<Stack<Seq<Listed>>, NoMemory>
    ensures { IfOk result (λ stack. stack ≡ arguments) }
{
    let mut stack = Stack::new(alloc);
    while let Some(argument) = arguments.pop() {
        stack.push(argument)?;
    }
    Ok(stack)
}
