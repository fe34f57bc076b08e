ghost use Rattle.proof_check.specs.declared.splits.Subtree.TheVariants.{Rest};
ghost use Rattle.proof_check.specs.Due.{due_now, due_of, later_of, AreOpen, IsDivided};
ghost use Rattle.leaf_bounds.specs.Expansion.{in_list};
ghost use Rattle.patterns.specs.Allowed.{full_lists, list_of, part_below, part_from, with_list};
ghost use Rattle.std.specs.List.{list_any};
ghost use Rattle.std.specs.List.Sorted.{IsStrictlyIncreasing};
ghost use Rattle.std.specs.Prelude.{◌≡◌, ◌==◌, ◌<◌, ◌++◌, ◌∷◌, [], length, IfOk, OnOk};

use crate::stop::Stop;
use leaf_bounds::Cut;
use patterns::{Allowed, Book};
use proof_rules::ProofKind;
use sequence::Sequence;
use std::alloc::{AllocError, Global};
use std::mem;

/// The subtree of an open split that is being read.
#[derive(Clone, Copy, Drop)]
pub(crate) enum Subtree {
    Below,
    Rest,
}

/// A split of which not both subtrees were read.
#[derive(Drop)]
pub(crate) struct OpenSplit {
    pub train: u16,
    pub reads: Subtree,
    /// The train's numbers in the other subtree.
    pub other: Sequence<u16>,
}

/// The lists at the node that is due, and the open splits above it, the innermost last. An open split keeps the one list that
/// differs, so no other is ever copied.
#[derive(Drop)]
pub(crate) struct Splits {
    pub lists: Allowed,
    pub above: Vec<OpenSplit>,
}

impl Splits {
    /// The full lists, with no split.
    pub(crate) fn new(alloc: Global, book: &Book) -> Result<Splits, AllocError>
        ensures due { IfOk result (λ s. due_of s ≡ full_lists book.now ∷ []) }
        ensures open { IfOk result AreOpen }
    {
        let lists = Allowed::all(alloc, book)?;
        Ok(Splits {
            lists,
            above: Vec::new(alloc),
        })
    }

    /// The lists at the node that is due.
    pub(crate) fn lists(&self) -> &Allowed
        ensures { result.now ≡ self.now.lists }
    {
        &self.lists
    }

    /// Whether the number is in the train's list.
    pub(crate) fn contains(&self, train: u16, number: u16) -> bool
        requires train { train < length self.now.lists.lists }
        requires ascends { IsStrictlyIncreasing (list_of self.now.lists.lists train) }
        ensures { result ≡ in_list self.now.lists.lists train number }
    {
        is_among(self.numbers(train), number)
    }

    /// The train's list.
    pub(crate) fn numbers(&self, train: u16) -> &[u16]
        requires { train < length self.now.lists.lists }
        ensures { result.now ≡ list_of self.now.lists.lists train }
    {
        self.lists.lists.as_slice()[usize::from(train)].as_slice()
    }

    /// Goes to the first subtree of a split.
    pub(crate) fn split(&mut self, alloc: Global, cut: &Cut) -> Result<(), Stop>
        requires train { cut.now.train < length self.old.lists.lists }
        requires ascends { IsStrictlyIncreasing (list_of self.old.lists.lists cut.now.train) }
        requires open { AreOpen self.old }
        ensures divided { IsDivided self.old cut.now self.new result }
        ensures open { OnOk result (AreOpen self.new) }
    {
        let numbers = self.numbers(cut.train);
        let below = numbers_below(alloc, numbers, cut.at)?;
        let rest = numbers_from(alloc, numbers, cut.at)?;
        if below.len() == 0 || rest.len() == 0 {
            return Err(Stop::Refused(ProofKind::Part));
        }
        self.above.push(OpenSplit {
            train: cut.train,
            reads: Subtree::Below,
            other: rest,
        })?;
        exchange(alloc, &mut self.lists, cut.train, below);
        Ok(())
    }

    /// Goes to the subtree that is due after this one. Whether there is one.
    pub(crate) fn advance(&mut self, alloc: Global) -> Result<bool, AllocError>
        requires { AreOpen self.old }
        ensures due { IfOk result (λ more. later_of self.old ≡ due_now self.new more) }
        ensures open { OnOk result (AreOpen self.new) }
    {
        while let Some(split) = self.above.pop() {
            match split.reads {
                Subtree::Below => {
                    self.turn(alloc, split)?;
                    return Ok(true);
                }
                Subtree::Rest => self.rejoin(alloc, split)?,
            }
        }
        Ok(false)
    }

    /// Goes to the second subtree of the split.
    fn turn(&mut self, alloc: Global, split: OpenSplit) -> Result<(), AllocError>
        requires { split.train < length self.old.lists.lists }
        ensures lists { OnOk result (self.new.lists.lists ≡ with_list self.old.lists.lists split.train split.other) }
        ensures open { OnOk result (self.new.above.items ≡ self.old.above.items
            ++ record { train = split.train; reads = Rest; other = list_of self.old.lists.lists split.train } ∷ []) }
    {
        let OpenSplit { train, other, .. } = split;
        let below = exchange(alloc, &mut self.lists, train, other);
        self.above.push(OpenSplit {
            train,
            reads: Subtree::Rest,
            other: below,
        })?;
        Ok(())
    }

    /// Gives the train the list back that it has at the split, both of whose subtrees were read.
    fn rejoin(&mut self, alloc: Global, split: OpenSplit) -> Result<(), AllocError>
        requires { split.train < length self.old.lists.lists }
        ensures lists { OnOk result (self.new.lists.lists ≡ with_list self.old.lists.lists split.train
            (split.other ++ list_of self.old.lists.lists split.train)) }
        ensures open { OnOk result (self.new.above ≡ self.old.above) }
    {
        let OpenSplit { train, other, .. } = split;
        let rest = exchange(
            alloc,
            &mut self.lists,
            train,
            Sequence::from_vec(Vec::new(alloc)),
        );
        let mut whole = other.into_vec();
        whole.extend_from_slice(rest.as_slice())?;
        exchange(alloc, &mut self.lists, train, Sequence::from_vec(whole));
        Ok(())
    }
}

/// Gives the train another list, and its list back.
fn exchange(alloc: Global, lists: &mut Allowed, train: u16, list: Sequence<u16>) -> Sequence<u16>
    requires { train < length lists.old.lists }
    ensures old { result ≡ list_of lists.old.lists train }
    ensures new { lists.new.lists ≡ with_list lists.old.lists train list }
{
    let none = Sequence::from_vec(Vec::new(alloc));
    let mut all = mem::replace(&mut lists.lists, none).into_vec();
    let old = mem::replace(&mut all[usize::from(train)], list);
    lists.lists = Sequence::from_vec(all);
    old
}

/// Whether the number is in the ascending list.
pub(crate) fn is_among(numbers: &[u16], number: u16) -> bool
    requires { IsStrictlyIncreasing numbers.now }
    ensures { result ≡ list_any (λ n. n == number) numbers.now }
{
    numbers.binary_search(&number).is_ok()
}

#[tactic(auto, unfolding(patterns::specs::Allowed::part_below))]
fn numbers_below(alloc: Global, list: &[u16], at: u16) -> Result<Sequence<u16>, AllocError>
    ensures { IfOk result (λ s. s ≡ part_below at list.now) }
{
    let numbers = list.iter().copied().filter(|n| *n < at).collect(alloc)?;
    Ok(Sequence::from_vec(numbers))
}

#[tactic(auto, unfolding(patterns::specs::Allowed::part_from))]
fn numbers_from(alloc: Global, list: &[u16], at: u16) -> Result<Sequence<u16>, AllocError>
    ensures { IfOk result (λ s. s ≡ part_from at list.now) }
{
    let numbers = list.iter().copied().filter(|n| at <= *n).collect(alloc)?;
    Ok(Sequence::from_vec(numbers))
}
