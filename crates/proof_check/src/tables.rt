ghost use Rattle.leaf_bounds.specs.Listed.{Ascends};
ghost use Rattle.proof_check.specs.Going.{IsFound, IsPlaced};
ghost use Rattle.proof_check.specs.Tables.{AreThere, alpha_added, beta_added, is_alpha_due, is_beta_due, group_of, groups_of};
ghost use Rattle.proof_rules.specs.Fault.{is_above, is_some_value, with_last};
ghost use Rattle.std.specs.Option.{option_map};
ghost use Rattle.std.specs.Prelude.{◌≡◌, ◌==◌, ◌&&◌, ◌<◌, ◌++◌, ◌∷◌, [], length, nat_lt, pos, slice_get};

use crate::order::is_number_next;
use crate::stop::{Stop, placed};
use crate::table::Table;
use leaf_bounds::NumberValue;
use patterns::Book;
use proof_file::TableHead;
use std::alloc::Global;

/// The tables of the file, by number.
#[derive(Drop)]
pub(crate) struct Tables {
    pub tables: Vec<Table>,
}

impl Tables {
    pub(crate) fn new(alloc: Global) -> Tables
        ensures { groups_of result ≡ [] }
    {
        Tables {
            tables: Vec::new(alloc),
        }
    }

    /// The table of this number, if it is there.
    pub(crate) fn get(&self, number: u32) -> Option<&Table>
        ensures { option_map (λ t. group_of t.now) result ≡ slice_get (groups_of self.now) number }
    {
        self.tables.get(number as usize)
    }

    /// Adds an empty table.
    pub(crate) fn push(&mut self, alloc: Global, book: &Book, head: &TableHead) -> Result<(), Stop>
        ensures { IsPlaced (head.now.table == length (groups_of self.old) && nat_lt head.now.first head.now.second
            && nat_lt head.now.second (length book.now))
            (groups_of self.new ≡ groups_of self.old ++ record { first = head.now.first; second = head.now.second; alpha = []; beta = [] } ∷ [])
            result }
    {
        placed(
            head.table as usize == self.tables.len()
                && head.first < head.second
                && usize::from(head.second) < book.trains(),
        )?;
        self.tables.push(Table {
            first: head.first,
            second: head.second,
            alpha: Vec::new(alloc),
            beta: Vec::new(alloc),
        })?;
        Ok(())
    }

    /// Adds a potential of the first train to the last table.
    pub(crate) fn push_alpha(&mut self, book: &Book, x: &NumberValue) -> Result<(), Stop>
        requires { AreThere (length book.now) (groups_of self.old) }
        ensures { IsFound (with_last (alpha_added book.now x.now) (groups_of self.old)) (groups_of self.new) result }
    {
        match self.tables.last_mut() {
            Some(table) => table.push_alpha(book, x),
            None => placed(false),
        }
    }

    /// Adds a potential of the second train to the last table.
    pub(crate) fn push_beta(&mut self, book: &Book, x: &NumberValue) -> Result<(), Stop>
        requires { AreThere (length book.now) (groups_of self.old) }
        ensures { IsFound (with_last (beta_added book.now x.now) (groups_of self.old)) (groups_of self.new) result }
    {
        match self.tables.last_mut() {
            Some(table) => table.push_beta(book, x),
            None => placed(false),
        }
    }
}

impl Table {
    fn push_alpha(&mut self, book: &Book, x: &NumberValue) -> Result<(), Stop>
        requires { self.old.second < length book.now }
        ensures { IsFound (alpha_added book.now x.now (group_of self.old)) (group_of self.new) result }
    {
        placed(self.is_alpha_due(book, x))?;
        self.alpha.push(*x)?;
        Ok(())
    }

    fn push_beta(&mut self, book: &Book, x: &NumberValue) -> Result<(), Stop>
        requires { self.old.second < length book.now }
        ensures { IsFound (beta_added book.now x.now (group_of self.old)) (group_of self.new) result }
    {
        placed(self.is_beta_due(book, x))?;
        self.beta.push(*x)?;
        Ok(())
    }

    fn is_alpha_due(&self, book: &Book, x: &NumberValue) -> bool
        requires { self.now.second < length book.now }
        ensures { result ≡ is_alpha_due book.now x.now (group_of self.now) }
    {
        self.beta.is_empty()
            && comes_next(&self.alpha, x)
            && usize::from(x.number) < book.count(usize::from(self.first))
    }

    fn is_beta_due(&self, book: &Book, x: &NumberValue) -> bool
        requires { self.now.second < length book.now }
        ensures { result ≡ is_beta_due book.now x.now (group_of self.now) }
    {
        comes_next(&self.beta, x) && usize::from(x.number) < book.count(usize::from(self.second))
    }
}

/// Whether the entry has a value, and a number above those before it.
fn comes_next(entries: &[NumberValue], x: &NumberValue) -> bool
    requires { Ascends (λ y. pos y.number) entries.now }
    ensures { result ≡ is_above (λ y. pos y.number) entries.now x.now && is_some_value x.now.value }
{
    is_number_next(entries, x) && x.value != 0
}
