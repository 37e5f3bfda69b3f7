//! The dimensions of elements. How many numbers there are in them is counted once, when they are put together, and not
//! by each expression that names an array.
ghost use Rattle.std.specs.Prelude.{◌≡◌, ◌*◌, [], IfOk, IfSome};
ghost use Rattle.k_types_meaning.specs.Counts.{elements};

use k_num::{NoMemory, Seq};
use std::alloc::Global;
use std::marker::Model;

/// The sizes of dimensions, the outermost first. `each` is the count of numbers in them.
#[derive(Drop)]
pub struct Dims {
    sizes: Seq<u32>,
    each: u64,
}

impl Model for Dims {
    ghost use Rattle.std.specs.Prelude.{◌≡◌, ℕ, List};
    ghost use Rattle.k_types_meaning.specs.Counts.{elements};

    ghost Value = { List ℕ };

    ghost view = { λ d. d.sizes };

    ghost invariant = { λ d. d.each ≡ elements d.sizes };
}

impl Dims {
    /// No dimensions.
    pub fn none(alloc: Global) -> Dims
        ensures { result ≡ [] }
    {
        Dims {
            sizes: Seq::new(alloc),
            each: 1,
        }
    }

    /// Dimensions of these sizes. More numbers in them than can be counted are want of memory.
    pub fn of(sizes: Seq<u32>) -> Result<Dims, NoMemory>
        ensures { IfOk result (λ dims. dims ≡ sizes) }
    {
        let Some(each) = count(sizes.as_slice()) else {
            return Err(NoMemory);
        };
        Ok(Dims { sizes, each })
    }

    /// The same dimensions.
    pub fn copy_of(alloc: Global, dims: &Dims) -> Result<Dims, NoMemory>
        ensures { IfOk result (λ copy. copy ≡ dims.now) }
    {
        let sizes = Seq::copy_of(alloc, dims.sizes.as_slice())?;
        Ok(Dims {
            sizes,
            each: dims.each,
        })
    }

    /// The sizes, the outermost first.
    pub fn as_slice(&self) -> &[u32]
        ensures { result.now ≡ self.now }
    {
        self.sizes.as_slice()
    }

    /// How many numbers there are in them.
    pub fn each(&self) -> u64
        ensures { result ≡ elements self.now }
    {
        self.each
    }
}

/// How many numbers there are in one of so many parts that have `each` together, and these dimensions each. Where
/// there are no parts they are counted; more than can be counted are want of memory.
pub fn part(each: u64, parts: u32, dims: &[u32]) -> Result<u64, NoMemory>
    requires { each ≡ parts * elements dims.now }
    ensures { IfOk result (λ part. part ≡ elements dims.now) }
{
    if parts == 0 {
        let Some(numbers) = count(dims) else {
            return Err(NoMemory);
        };
        return Ok(numbers);
    }
    Ok(each / u64::from(parts))
}

/// How many numbers there are in these dimensions, where that is held.
fn count(dims: &[u32]) -> Option<u64>
    ensures { IfSome result (λ n. n ≡ elements dims.now) }
{
    let mut total = 1u64;
    let mut rest = dims;
    while let Some((first, more)) = rest.split_first() {
        total = total.checked_mul(u64::from(*first))?;
        rest = more;
    }
    Some(total)
}
