ghost use Rattle.std.specs.Prelude.{◌≡◌, ℕ, pos, ◌+◌, ◌*◌, ◌%◌, ◌≤ℤ◌, length, IfOk, All, if◌then◌else◌, ◌==◌};
ghost use Rattle.transport.specs.Coupling.{total};
ghost use Rattle.std.proofs.Common.{arith};
ghost use Rattle.std.proofs.lemmas.Bool.Decides.{nat_tests};

use std::alloc::{AllocError, Global};
use std::test::Fail;
use transport::{Cost, NoCouple, TableCell, couple, couple_cells, least_cost};

/// Costs 0 where row and column are the same, and 5 elsewhere.
#[derive(Clone, Copy)]
struct Apart {
    size: usize,
}

impl Cost for Apart {
    ghost row_count = { λ a. a.size };

    ghost column_count = { λ a. a.size };

    ghost table = { λ _ i j. if i == j then 0 else 5 };

    fn rows(&self) -> usize {
        self.size
    }

    fn columns(&self) -> usize {
        self.size
    }

    fn cost(&self, i: usize, j: usize) -> i64 {
        if i == j { 0 } else { 5 }
    }

    ghost bounded = { λ a i j il jl. Prim.grind (arith, nat_tests) };
}

const TAKEN: i128 = 1_000_000_000_000_000_000_000_000;

const REFUSED: i128 = 1_000_000_000_000_000_000_000_001;

/// Costs without order.
#[derive(Clone, Copy)]
struct Mixed {
    size: usize,
}

fn mixed_cost(i: usize, j: usize) -> i64
    ensures { result ≡ pos ((i % 7 + 2) * (j % 7 + 3) % 11) }
{
    ((i % 7 + 2) * (j % 7 + 3) % 11) as i64
}

impl Cost for Mixed {
    ghost row_count = { λ m. m.size };

    ghost column_count = { λ m. m.size };

    ghost table = { λ _ i j. (i % 7 + 2) * (j % 7 + 3) % 11 };

    fn rows(&self) -> usize {
        self.size
    }

    fn columns(&self) -> usize {
        self.size
    }

    fn cost(&self, i: usize, j: usize) -> i64 {
        mixed_cost(i, j)
    }

    ghost bounded = { λ a i j il jl. Prim.omega arith };
}

fn cell(row: usize, column: usize, weight: i128) -> TableCell {
    TableCell {
        row,
        column,
        weight,
    }
}

#[test]
fn least_cells(rt: HostRuntime) -> Result<(), Fail> {
    let apart = Apart { size: 2 };
    match couple(rt.alloc(), &[2, 1], &[1, 2], &apart) {
        Ok(coupled) => {
            let wanted = [cell(0, 0, 1), cell(0, 1, 1), cell(1, 1, 1)];
            assert_eq!(rt; coupled.cells.as_slice(), wanted.as_slice());
        }
        Err(_) => assert!(rt; false),
    }
    match least_cost(rt.alloc(), &[2, 1], &[1, 2], &apart) {
        Ok(least) => assert_eq!(rt; least, 5),
        Err(_) => assert!(rt; false),
    }
    match couple_cells(rt.alloc(), &[2, 1], &[1, 2], &apart) {
        Ok(cells) => assert_eq!(rt; cells.as_slice().len(), 3),
        Err(_) => assert!(rt; false),
    }
    Ok(())
}

#[test]
fn greatest_total(rt: HostRuntime) -> Result<(), Fail> {
    let apart = Apart { size: 1 };
    match couple(rt.alloc(), &[TAKEN], &[TAKEN], &apart) {
        Ok(coupled) => assert_eq!(rt; coupled.cells.as_slice(), [cell(0, 0, TAKEN)].as_slice()),
        Err(_) => assert!(rt; false),
    }
    match couple(rt.alloc(), &[REFUSED], &[REFUSED], &apart) {
        Err(NoCouple::Scale(total)) => assert_eq!(rt; total, REFUSED),
        _ => assert!(rt; false),
    }
    match least_cost(rt.alloc(), &[REFUSED], &[REFUSED], &apart) {
        Err(NoCouple::Scale(total)) => assert_eq!(rt; total, REFUSED),
        _ => assert!(rt; false),
    }
    Ok(())
}

/// What the cells cost.
fn mixed_total(cells: &[TableCell]) -> i128 {
    let mut cost: i128 = 0;
    for cell in cells {
        let each = i128::from(mixed_cost(cell.row, cell.column));
        cost = cost.wrapping_add(each.wrapping_mul(cell.weight));
    }
    cost
}

/// `zeros` weights of 0 and then `ones` of 1.
fn ones_last(alloc: Global, zeros: usize, ones: usize) -> Result<Vec<i128>, AllocError>
    ensures length { IfOk result (λ v. length v.items ≡ zeros + ones) }
    ensures weights { IfOk result (λ v. All (λ w. pos 0 ≤ℤ w) v.items) }
    ensures total { IfOk result (λ v. total v.items ≡ pos ones) }
{
    let mut weights = vec![in alloc; 0i128; zeros]?;
    let some = vec![in alloc; 1i128; ones]?;
    weights.extend_from_slice(&some)?;
    Ok(weights)
}

/// `ones` weights of 1 and then `zeros` of 0.
fn ones_first(alloc: Global, ones: usize, zeros: usize) -> Result<Vec<i128>, AllocError>
    ensures length { IfOk result (λ v. length v.items ≡ ones + zeros) }
    ensures weights { IfOk result (λ v. All (λ w. pos 0 ≤ℤ w) v.items) }
    ensures total { IfOk result (λ v. total v.items ≡ pos ones) }
{
    let mut weights = vec![in alloc; 1i128; ones]?;
    let none = vec![in alloc; 0i128; zeros]?;
    weights.extend_from_slice(&none)?;
    Ok(weights)
}

#[test]
fn many_ways(rt: HostRuntime) -> Result<(), Fail> {
    let left = [3, 1, 4, 1, 5, 9];
    let right = [2, 6, 5, 3, 5, 2];
    let mixed = Mixed { size: 6 };
    match couple(rt.alloc(), &left, &right, &mixed) {
        Ok(coupled) => assert_eq!(rt; mixed_total(coupled.cells.as_slice()), 48),
        Err(_) => assert!(rt; false),
    }
    match least_cost(rt.alloc(), &left, &right, &mixed) {
        Ok(least) => assert_eq!(rt; least, 48),
        Err(_) => assert!(rt; false),
    }
    Ok(())
}

#[test]
fn few_weights_in_long_lists(rt: HostRuntime) -> Result<(), Fail> {
    let left = ones_last(rt.alloc(), 1980, 20)?;
    let right = ones_first(rt.alloc(), 20, 1980)?;
    let mixed = Mixed { size: 2000 };
    match couple(rt.alloc(), &left, &right, &mixed) {
        Ok(coupled) => {
            assert_eq!(rt; mixed_total(coupled.cells.as_slice()), 30);
            assert_eq!(rt; coupled.alpha.as_slice().len(), 2000);
        }
        Err(_) => assert!(rt; false),
    }
    Ok(())
}
