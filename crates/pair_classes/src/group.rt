// Lines of prices, those that are equal in one class.
ghost use Rattle.pair_classes.specs.Groups.{AreGroups, Joins, line_at};
ghost use Rattle.std.specs.Prelude.{◌≡◌, ◌≢◌, ℕ, ◌<◌, ◌≤◌, length, slice_index, All, IfOk};

use sequence::Sequence;
use std::alloc::{AllocError, Global};

/// The class of each line, and for each class the number of the first line of it.
#[derive(Drop)]
pub(crate) struct Groups {
    pub(crate) classes: Vec<u16>,
    pub(crate) heads: Vec<u16>,
}

/// Puts equal lines into one class. Classes are numbered as they come.
pub(crate) fn group(alloc: Global, lines: &[Sequence<i64>]) -> Result<Groups, AllocError>
    requires { length lines.now ≤ 4096 }
    ensures { IfOk result (λ g. AreGroups lines.now g.classes.items g.heads.items) }
{
    let mut classes = Vec::new(alloc);
    let mut heads = Vec::new(alloc);
    for number in 0..lines.len() {
        let class = class_of(lines, number, &mut heads)?;
        classes.push(class)?;
    }
    Ok(Groups { classes, heads })
}

/// The class of a line, a new one where the line equals none of those that stand for a class.
fn class_of(lines: &[Sequence<i64>], number: usize, heads: &mut Vec<u16>) -> Result<u16, AllocError>
    requires line { number < length lines.now }
    requires lines { length lines.now ≤ 4096 }
    requires heads { All (λ h. h < number) heads.old.items }
    requires count { length heads.old.items ≤ number }
    ensures { IfOk result (λ class. Joins lines.now number class heads.old.items heads.new.items) }
{
    let class = find_equal(lines, heads, lines[number].as_slice());
    if class == heads.len() {
        heads.push(number as u16)?;
    }
    Ok(class as u16)
}

/// The place of the first head that is equal to the line, or the number of heads.
fn find_equal(lines: &[Sequence<i64>], heads: &[u16], line: &[i64]) -> usize
    requires { All (λ h. h < length lines.now) heads.now }
    ensures most { result ≤ length heads.now }
    ensures first { (k : ℕ) → k < result → line_at lines.now (slice_index heads.now k) ≢ line.now }
    ensures same { result < length heads.now → line_at lines.now (slice_index heads.now result) ≡ line.now }
{
    for place in 0..heads.len() {
        if lines[heads[place] as usize].as_slice() == line {
            return place;
        }
    }
    heads.len()
}
