//! Where the elements of a live object stand among the cells.
ghost use Rattle.std.specs.Prelude.{◌≡◌, ◌+◌, ◌<◌, ◌≤◌, ◌^◌, ◌+ℤ◌, Some, pos, length, slice_get, option_map, IfOk, IfSome};
ghost use Rattle.k_mem.specs.declared.extent.Extent.{Extent};
ghost use Rattle.k_mem.specs.Calls.{where_live, where_within, where_both_live, offset_within, difference, is_same};
ghost use Rattle.k_mem.specs.Layout.{AreExtents, extent_with, element_among, store_among, fill_among, shift_among};

use crate::{MemTrap, Pointer};

/// A live object, and where its elements stand among the cells of all live objects.
#[derive(Clone, Copy, Debug)]
pub struct Extent {
    pub number: u64,
    pub first: u32,
    pub length: u32,
    pub writable: bool,
}

impl Extent {
    /// The number of the element at that offset.
    #[inline(always)]
    fn element(self, offset: u64) -> Result<u32, MemTrap>
        requires { self.first + self.length < 2 ^ 32 }
        ensures { result ≡ where_within self.length offset (Ok (self.first + offset)) }
    {
        if offset < u64::from(self.length) {
            Ok(self.first + offset as u32)
        } else {
            Err(MemTrap::OutOfBounds)
        }
    }

    /// The offset that lies `by` elements further on, where the object has it or ends there.
    fn offset(self, offset: u64, by: i128) -> Option<u64>
        ensures { result ≡ offset_within self.length (pos offset +ℤ by) }
    {
        let offset = i128::from(offset).checked_add(by)?;
        if 0 <= offset && offset <= i128::from(self.length) {
            Some(offset as u64)
        } else {
            None
        }
    }
}

/// The extent of the live object of that number. Most stand where their number says, as all do until an object has died.
#[inline(always)]
fn extent_of(extents: &[Extent], number: u64) -> Result<Extent, MemTrap>
    requires { AreExtents extents.now }
    ensures extent { result ≡ where_live (extent_with extents.now number) (λ e. Ok e) }
    ensures small { IfOk result (λ e. e.first + e.length ≤ 4194304) }
{
    match extent_in_place(extents, number) {
        Some(extent) => Ok(extent),
        None => extent_searched(extents, number),
    }
}

/// The extent of the object of that number, where its number is its place.
#[inline(always)]
fn extent_in_place(extents: &[Extent], number: u64) -> Option<Extent>
    requires { AreExtents extents.now }
    ensures extent { IfSome result (λ e. extent_with extents.now number ≡ Some e) }
    ensures small { IfSome result (λ e. e.first + e.length ≤ 4194304) }
{
    let place = number as usize;
    if place < extents.len() && extents[place].number == number {
        Some(extents[place])
    } else {
        None
    }
}

/// The extent of the live object of that number, wherever it stands.
#[inline(never)]
fn extent_searched(extents: &[Extent], number: u64) -> Result<Extent, MemTrap>
    requires { AreExtents extents.now }
    ensures extent { result ≡ where_live (extent_with extents.now number) (λ e. Ok e) }
    ensures small { IfOk result (λ e. e.first + e.length ≤ 4194304) }
{
    match extents.binary_search_by_key(&number, |extent| extent.number) {
        Ok(at) => Ok(extents[at]),
        Err(_) => Err(MemTrap::Dangling),
    }
}

/// The extent at that place.
pub fn extent_at(extents: &[Extent], at: usize) -> Extent
    requires { at < length extents.now }
    ensures { slice_get extents.now at ≡ Some result }
{
    extents[at]
}

/// The number of the object whose extent is at that place.
#[inline(always)]
pub fn number_at(extents: &[Extent], at: usize) -> Option<u64>
    ensures { result ≡ option_map (λ (e : Extent). e.number) (slice_get extents.now at) }
{
    match extents.get(at) {
        Some(extent) => Some(extent.number),
        None => None,
    }
}

/// The number of the element pointed to.
#[inline(always)]
pub fn element_at(extents: &[Extent], at: Pointer) -> Result<u32, MemTrap>
    requires { AreExtents extents.now }
    ensures { result ≡ element_among extents.now at }
{
    extent_of(extents, at.object)?.element(at.offset)
}

/// The number of the element pointed to, which may be written.
#[inline(always)]
pub fn writable_at(extents: &[Extent], at: Pointer) -> Result<u32, MemTrap>
    requires { AreExtents extents.now }
    ensures { result ≡ store_among extents.now at }
{
    let extent = extent_of(extents, at.object)?;
    let element = extent.element(at.offset)?;
    if extent.writable {
        Ok(element)
    } else {
        Err(MemTrap::ReadOnly)
    }
}

/// The extent of a live object that may be written.
pub fn writable_of(extents: &[Extent], number: u64) -> Result<Extent, MemTrap>
    requires { AreExtents extents.now }
    ensures { result ≡ fill_among extents.now number }
{
    let extent = extent_of(extents, number)?;
    if extent.writable {
        Ok(extent)
    } else {
        Err(MemTrap::ReadOnly)
    }
}

/// The number of a live object's first element.
pub fn first_of(extents: &[Extent], number: u64) -> Result<u32, MemTrap>
    requires { AreExtents extents.now }
    ensures { result ≡ where_live (extent_with extents.now number) (λ e. Ok e.first) }
{
    Ok(extent_of(extents, number)?.first)
}

/// How many elements a live object has.
#[inline(always)]
pub fn length_of(extents: &[Extent], number: u64) -> Result<u32, MemTrap>
    requires { AreExtents extents.now }
    ensures { result ≡ where_live (extent_with extents.now number) (λ e. Ok e.length) }
{
    Ok(extent_of(extents, number)?.length)
}

/// The pointer that lies `by` elements further on.
pub fn shifted(extents: &[Extent], at: Pointer, by: i128) -> Result<Pointer, MemTrap>
    requires { AreExtents extents.now }
    ensures { result ≡ shift_among extents.now at by }
{
    let extent = extent_of(extents, at.object)?;
    match extent.offset(at.offset, by) {
        Some(offset) => Ok(Pointer {
            object: at.object,
            offset,
        }),
        None => Err(MemTrap::PointerRange),
    }
}

/// How many elements `a` lies after `b` in their object.
pub fn order_among(extents: &[Extent], a: Pointer, b: Pointer) -> Result<i128, MemTrap>
    requires { AreExtents extents.now }
    ensures { result ≡ where_both_live (extent_with extents.now a.object) (extent_with extents.now b.object) (difference a b) }
{
    extent_of(extents, a.object)?;
    extent_of(extents, b.object)?;
    if a.object == b.object {
        Ok(i128::from(a.offset) - i128::from(b.offset))
    } else {
        Err(MemTrap::PointerOrder)
    }
}

/// Whether the two pointers are equal.
pub fn same_among(extents: &[Extent], a: Pointer, b: Pointer) -> Result<bool, MemTrap>
    requires { AreExtents extents.now }
    ensures { result ≡ where_both_live (extent_with extents.now a.object) (extent_with extents.now b.object) (Ok (is_same a b)) }
{
    extent_of(extents, a.object)?;
    extent_of(extents, b.object)?;
    Ok(a == b)
}
