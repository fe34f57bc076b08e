ghost use Rattle.proof_file.specs.Kind.{is_in_range};
ghost use Rattle.proof_file.specs.Text.{AreInRange, end_of, node_records, numbers_of, proof_records, proof_text, shared_node_records, shared_records, shared_text, table_records, tables_from, text_of};
ghost use Rattle.std.specs.Prelude.{◌≡◌, ◌++◌, IsTrue, IfOk, OnOk, List, Contains, flat_map, map};

use crate::line::push_record;
use crate::record::{HeadRecord, ProofRecord, TableHead};
use leaf_bounds::{Bound, Leaf, Node, PotTable, SharedLeaf, SharedNode, SharedTree, Tree};
use std::alloc::{AllocError, Global};

/// The proof file of a tree and its bound, in version 1 (`docs/FORMATS.md`).
pub fn write_proof(
    alloc: Global,
    trains: u16,
    tree: &Tree,
    bound: &Bound,
) -> Result<Vec<u8>, AllocError>
    // Each number is in its field's range.
    requires { AreInRange (proof_records trains tree.now.nodes bound.now) }
    ensures { IfOk result (λ text. text.items ≡ proof_text trains tree.now.nodes bound.now) }
{
    let mut text = Vec::new(alloc);
    push_record(alloc, &head(1, trains), &mut text)?;
    push_all(alloc, tree.nodes.as_slice(), &mut text)?;
    push_record(alloc, &last_record(bound), &mut text)?;
    Ok(text)
}

/// The proof file of a tree with tables and its bound, in version 2 (`docs/FORMATS.md`).
pub fn write_shared(
    alloc: Global,
    trains: u16,
    tree: &SharedTree,
    bound: &Bound,
) -> Result<Vec<u8>, AllocError>
    // Each number is in its field's range, those of the tables too: there are at most 65,536.
    requires { AreInRange (shared_records trains tree.now.tables tree.now.nodes bound.now) }
    ensures { IfOk result (λ text. text.items ≡ shared_text trains tree.now.tables tree.now.nodes bound.now) }
{
    let mut text = Vec::new(alloc);
    push_record(alloc, &head(2, trains), &mut text)?;
    push_tables(alloc, tree.tables.as_slice(), &mut text)?;
    push_all(alloc, tree.nodes.as_slice(), &mut text)?;
    push_record(alloc, &last_record(bound), &mut text)?;
    Ok(text)
}

fn head(version: u8, trains: u16) -> ProofRecord
    ensures { result ≡ ProofRecord.Head (record { version = version; trains = trains }) }
{
    ProofRecord::Head(HeadRecord { version, trains })
}

fn last_record(bound: &Bound) -> ProofRecord
    ensures { result ≡ end_of bound.now }
{
    match bound {
        Bound::AtLeast(value) => ProofRecord::End(*value),
        Bound::Nothing => ProofRecord::Nothing,
    }
}

/// What stands in a proof file as some records.
trait Written {
    ghost use Rattle.proof_file.specs.declared.record.ProofRecord.{ProofRecord};
    ghost use Rattle.proof_file.specs.Text.{AreInRange, text_of};
    ghost use Rattle.std.specs.Prelude.{◌≡◌, ◌++◌, List, OnOk};

    ghost records: { Self → List ProofRecord };

    /// Adds the lines of the records.
    fn push(&self, alloc: Global, into: &mut Vec<u8>) -> Result<(), AllocError>
        requires { AreInRange (records self.now) }
        ensures { OnOk result (into.new.items ≡ into.old.items ++ text_of (records self.now)) };
}

impl Written for Node {
    ghost records = { node_records };

    fn push(&self, alloc: Global, into: &mut Vec<u8>) -> Result<(), AllocError> {
        match self {
            Node::Split(cut) => push_record(alloc, &ProofRecord::Split(*cut), into),
            Node::Leaf(leaf) => {
                push_numbers(alloc, leaf, into)?;
                push_record(alloc, &ProofRecord::Close, into)
            }
        }
    }
}

impl Written for SharedNode {
    ghost records = { shared_node_records };

    fn push(&self, alloc: Global, into: &mut Vec<u8>) -> Result<(), AllocError> {
        match self {
            SharedNode::Split(cut) => push_record(alloc, &ProofRecord::Split(*cut), into),
            SharedNode::Leaf(leaf) => {
                push_numbers(alloc, &leaf.rest, into)?;
                push_each(alloc, leaf.uses.as_slice(), ProofRecord::Use, into)?;
                push_record(alloc, &ProofRecord::Close, into)?;
                Ok(())
            }
        }
    }
}

fn push_all<W: Written>(alloc: Global, items: &[W], into: &mut Vec<u8>) -> Result<(), AllocError>
    requires { AreInRange (flat_map W.records items.now) }
    ensures { OnOk result (into.new.items ≡ into.old.items ++ text_of (flat_map W.records items.now)) }
{
    for item in items {
        item.push(alloc, into)?;
    }
    Ok(())
}

/// Adds a leaf's lines but for its uses and its `close`.
fn push_numbers(alloc: Global, leaf: &Leaf, into: &mut Vec<u8>) -> Result<(), AllocError>
    requires { AreInRange (numbers_of leaf.now) }
    ensures { OnOk result (into.new.items ≡ into.old.items ++ text_of (numbers_of leaf.now)) }
{
    push_record(alloc, &ProofRecord::Leaf(leaf.q), into)?;
    push_each(alloc, leaf.u.as_slice(), ProofRecord::U, into)?;
    push_each(alloc, leaf.v.as_slice(), ProofRecord::V, into)?;
    push_each(alloc, leaf.alpha.as_slice(), ProofRecord::A, into)?;
    push_each(alloc, leaf.beta.as_slice(), ProofRecord::B, into)?;
    Ok(())
}

/// Adds the lines of tables, which are numbered from 0.
fn push_tables(alloc: Global, tables: &[PotTable], into: &mut Vec<u8>) -> Result<(), AllocError>
    requires { AreInRange (tables_from 0 tables.now) }
    ensures { OnOk result (into.new.items ≡ into.old.items ++ text_of (tables_from 0 tables.now)) }
{
    for number in 0..tables.len() {
        push_table(alloc, number, &tables[number], into)?;
    }
    Ok(())
}

fn push_table(
    alloc: Global,
    number: usize,
    table: &PotTable,
    into: &mut Vec<u8>,
) -> Result<(), AllocError>
    requires { AreInRange (table_records number table.now) }
    ensures { OnOk result (into.new.items ≡ into.old.items ++ text_of (table_records number table.now)) }
{
    let head = TableHead {
        table: number as u32,
        first: table.first,
        second: table.second,
    };
    push_record(alloc, &ProofRecord::Table(head), into)?;
    push_each(alloc, table.alpha.as_slice(), ProofRecord::Ta, into)?;
    push_each(alloc, table.beta.as_slice(), ProofRecord::Tb, into)?;
    Ok(())
}

/// Adds the lines of the records that these values make.
fn push_each<T: Copy, F: Fn(T) -> ProofRecord>(
    alloc: Global,
    values: &[T],
    make: F,
    into: &mut Vec<u8>,
) -> Result<(), AllocError>
    requires callable { F.IsAlwaysCallable make }
    requires range { (x : T) (r : ProofRecord) → Contains values.now x → F.post make x r → IsTrue (is_in_range r) }
    ensures { (made : T → ProofRecord) → ((x : T) (r : ProofRecord) → F.post make x r → r ≡ made x)
        → OnOk result (into.new.items ≡ into.old.items ++ text_of (map made values.now)) }
{
    for value in values {
        push_record(alloc, &make(*value), into)?;
    }
    Ok(())
}
