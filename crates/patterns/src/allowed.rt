ghost use Rattle.patterns.specs.declared.offer.Offer.{Offer};
ghost use Rattle.patterns.specs.Allowed.{FitsBook, full_lists, part_below, part_from, with_list};
ghost use Rattle.patterns.specs.Split.{IsSplit, PartsFit, SplitFails};
ghost use Rattle.station.specs.Allowed.{numbers};
ghost use Rattle.std.specs.Prelude.{◌≡◌, ◌<◌, ◌≤◌, List, length, IfOk, MatchResult};

use crate::book::Book;
use sequence::Sequence;
use std::alloc::{AllocError, Global};

/// For each train the numbers of the patterns that it may still take, strictly ascending.
#[derive(Drop)]
pub struct Allowed {
    pub lists: Sequence<Sequence<u16>>,
}

/// The two sides of a split: they differ in the list of one train.
#[derive(Drop)]
pub struct TwoParts {
    pub below: Allowed,
    pub rest: Allowed,
}

/// Why lists weren't split.
#[derive(Clone, Copy, PartialEq, Eq, Debug, Drop)]
pub enum SplitFault {
    /// No memory was found.
    Memory,
    /// One side would have no number.
    Part,
}

impl Allowed {
    /// All numbers of all trains.
    ///
    /// # Errors
    /// `AllocError` where the lists find no memory.
    pub fn all(alloc: Global, book: &Book) -> Result<Allowed, AllocError>
        ensures lists { IfOk result (λ a. a.lists ≡ full_lists book.now) }
        ensures fits { IfOk result (λ a. FitsBook a.lists book.now) }
    {
        let mut lists = Vec::new(alloc);
        for train in 0..book.trains() {
            let list = first_numbers(alloc, book.count(train))?;
            lists.push(list)?;
        }
        Ok(Allowed {
            lists: Sequence::from_vec(lists),
        })
    }

    /// The lists with the train's numbers below `at`, and those with its numbers from `at` on. These lists stay as they are.
    ///
    /// # Errors
    /// `Part` exactly where one side would have no number of the train, and `Memory` where none was found.
    pub fn split(&self, alloc: Global, train: usize, at: u16) -> Result<TwoParts, SplitFault>
        requires { train < length self.now.lists }
        ensures parts { MatchResult result (IsSplit self.now.lists train at) (SplitFails self.now.lists train at) }
        // Where the lists fit a book, the lists of both parts do.
        ensures fits { (book : List (List Offer)) → FitsBook self.now.lists book → IfOk result (PartsFit book) }
    {
        let list = &self.lists.as_slice()[train];
        let (Ok(below), Ok(rest)) = (
            numbers_below(alloc, list.as_slice(), at),
            numbers_from(alloc, list.as_slice(), at),
        ) else {
            return Err(SplitFault::Memory);
        };
        if below.len() == 0 || rest.len() == 0 {
            return Err(SplitFault::Part);
        }
        let (Ok(below), Ok(rest)) = (
            self.with(alloc, train, below),
            self.with(alloc, train, rest),
        ) else {
            return Err(SplitFault::Memory);
        };
        Ok(TwoParts { below, rest })
    }

    /// The lists, with another list for one train.
    fn with(&self, alloc: Global, train: usize, list: Sequence<u16>) -> Result<Allowed, AllocError>
        requires { train < length self.now.lists }
        ensures { IfOk result (λ a. a.lists ≡ with_list self.now.lists train list) }
    {
        let mut lists = copy_lists(alloc, self.lists.as_slice())?;
        lists[train] = list;
        Ok(Allowed {
            lists: Sequence::from_vec(lists),
        })
    }
}

fn copy_lists(alloc: Global, lists: &[Sequence<u16>]) -> Result<Vec<Sequence<u16>>, AllocError>
    ensures { IfOk result (λ v. v.items ≡ lists.now) }
{
    let mut copies = Vec::new(alloc);
    for list in lists {
        let copy = copy_list(alloc, list)?;
        copies.push(copy)?;
    }
    Ok(copies)
}

fn copy_list(alloc: Global, list: &Sequence<u16>) -> Result<Sequence<u16>, AllocError>
    ensures { IfOk result (λ s. s ≡ list.now) }
{
    let numbers = Vec::from_slice(alloc, list.as_slice())?;
    Ok(Sequence::from_vec(numbers))
}

#[tactic(auto, unfolding(crate::specs::Allowed::part_below))]
fn numbers_below(alloc: Global, list: &[u16], at: u16) -> Result<Sequence<u16>, AllocError>
    ensures { IfOk result (λ s. s ≡ part_below at list.now) }
{
    let numbers = list.iter().copied().filter(|n| *n < at).collect(alloc)?;
    Ok(Sequence::from_vec(numbers))
}

#[tactic(auto, unfolding(crate::specs::Allowed::part_from))]
fn numbers_from(alloc: Global, list: &[u16], at: u16) -> Result<Sequence<u16>, AllocError>
    ensures { IfOk result (λ s. s ≡ part_from at list.now) }
{
    let numbers = list.iter().copied().filter(|n| at <= *n).collect(alloc)?;
    Ok(Sequence::from_vec(numbers))
}

fn first_numbers(alloc: Global, count: usize) -> Result<Sequence<u16>, AllocError>
    requires { count ≤ 4096 }
    ensures { IfOk result (λ s. s ≡ numbers count) }
{
    let mut found = Vec::new(alloc);
    for number in 0..count as u16 {
        found.push(number)?;
    }
    Ok(Sequence::from_vec(found))
}
