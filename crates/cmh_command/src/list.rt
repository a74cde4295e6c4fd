//! Lists of numbers on the command line.

ghost use Rattle.std.specs.Prelude.{◌≡◌, ◌⊎◌, ◌≤◌, length, map, IfOk, IfErr};
ghost use Rattle.cmh_command.specs.List.{items_of, number_of, IsFirstListFault, IsListOf};
ghost use Rattle.cmh_command.specs.declared.TheConstants.{MAX_NUMBERS};
ghost use Rattle.cmh_command.specs.declared.list.ListFault.TheVariants.{Memory};

use crate::MAX_NUMBERS;
use cmh_memory::{Allocated, Refusal};
use std::alloc::{AllocFailed, Global};
use std::error::Error;
use std::fmt;

/// The first fault of a list from the left. Places count from 0.
#[derive(Clone, Copy, PartialEq, Eq, Hash, Debug)]
pub enum ListFault {
    /// This item is no number.
    BadNumber(usize),
    /// There is an item past the first `MAX_NUMBERS`.
    TooManyNumbers,
    /// Memory was refused.
    Memory,
}

impl fmt::Display for ListFault {
    ghost use Rattle.std.specs.Prelude.{Some};
    ghost use Rattle.cmh_command.specs.List.{list_fault_text};

    ghost output = { λ e. Some (list_fault_text e) };

    fn fmt<W: fmt::Write>(&self, f: &mut fmt::Formatter<W>) -> fmt::Result {
        match self {
            ListFault::BadNumber(i) => write!(f, "bad number {i}"),
            ListFault::TooManyNumbers => f.write_str("too many numbers"),
            ListFault::Memory => f.write_str("out of memory"),
        }
    }
}

impl Error for ListFault {}

impl From<Refusal> for ListFault {
    ghost from_gives = { λ _ e. e ≡ Memory };

    fn from(_e: Refusal) -> ListFault {
        ListFault::Memory
    }
}

impl<T: Drop> From<AllocFailed<T>> for ListFault {
    ghost from_gives = { λ _ e. e ≡ Memory };

    fn from(_e: AllocFailed<T>) -> ListFault {
        ListFault::Memory
    }
}

/// The numbers of a list: items separated by one comma, each of one or more decimal digits. The empty text is the empty
/// list. It takes time linear in the text.
///
/// # Errors
///
/// The first fault from the left, or `Memory` where memory is refused.
pub fn read_list(alloc: Global, text: &str) -> Result<Vec<u64>, ListFault>
    ensures ok { IfOk result (λ list. IsListOf text.now list.items) }
    ensures few { IfOk result (λ list. length list.items ≤ MAX_NUMBERS) }
    ensures fault { IfErr result (λ e. (e ≡ Memory) ⊎ IsFirstListFault text.now e) }
{
    let items = items_of(alloc, text)?;
    let mut numbers = Vec::new(alloc);
    for (i, item) in items.iter().enumerate() {
        if i == MAX_NUMBERS {
            return Err(ListFault::TooManyNumbers);
        }
        let Some(number) = read_number(item) else {
            return Err(ListFault::BadNumber(i));
        };
        numbers.push(number)?;
    }
    Ok(numbers)
}

/// The items of a list.
fn items_of<'a>(alloc: Global, text: &'a str) -> Allocated<Vec<&'a str>>
    ensures { IfOk result (λ list. map (λ item. item.now) list.items ≡ items_of text.now) }
{
    if text.is_empty() {
        return Ok(Vec::new(alloc));
    }
    text.split(',').collect(alloc)
}

/// The number that an item writes, if it writes one.
pub(crate) fn read_number(item: &str) -> Option<u64>
    ensures { result ≡ number_of item.now }
{
    // `parse` alone would take a sign.
    if item.starts_with('+') {
        return None;
    }
    item.parse::<u64>().ok()
}
