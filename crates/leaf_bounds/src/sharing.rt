ghost use Rattle.leaf_bounds.specs.Group.{group_in};
ghost use Rattle.leaf_bounds.specs.Sharing.{carried, common_groups, groups_at, is_twice, same_group, shared_groups, ArePairsInOrder, IsSharing};
ghost use Rattle.std.specs.List.{list_any};
ghost use Rattle.std.specs.Prelude.{◌≡◌, ◌≤◌, ◌++◌, ◌&&◌, ◌∷◌, [], if◌then◌else◌, length, map, not, IfOk, OnOk};

use crate::groups::{is_same, push_groups_of};
use crate::lists::copy_plain;
use crate::shared::SharedTree;
use crate::shared_leaf::shared_nodes;
use crate::table::PotTable;
use crate::tree::{Node, Tree};
use sequence::Sequence;
use std::alloc::{AllocError, Global};

/// There are at most so many tables.
const MOST_TABLES: usize = 65_536;

/// The tree with the potentials that at least two of its leaves have in common named once, in tables. A leaf uses them with
/// factor 1.
///
/// # Errors
/// `AllocError` where the tree finds no memory.
pub fn share(alloc: Global, tree: &Tree) -> Result<SharedTree, AllocError>
    requires { ArePairsInOrder tree.now.nodes }
    ensures { IfOk result (λ s. IsSharing tree.now.nodes s.tables s.nodes) }
{
    let tables = shared_tables(alloc, tree.nodes.as_slice())?;
    let nodes = shared_nodes(alloc, tree.nodes.as_slice(), tables.as_slice())?;
    Ok(SharedTree {
        tables: Sequence::from_vec(tables),
        nodes: Sequence::from_vec(nodes),
    })
}

/// The groups that at least two leaves carry, at most so many as there may be tables.
fn shared_tables(alloc: Global, nodes: &[Node]) -> Result<Vec<PotTable>, AllocError>
    ensures groups { IfOk result (λ v. map group_in v.items ≡ shared_groups nodes.now) }
    ensures count { IfOk result (λ v. length v.items ≤ 65536) }
{
    let mut tables = common_tables(alloc, nodes)?;
    tables.truncate(MOST_TABLES);
    Ok(tables)
}

fn common_tables(alloc: Global, nodes: &[Node]) -> Result<Vec<PotTable>, AllocError>
    ensures { IfOk result (λ v. map group_in v.items ≡ common_groups (carried nodes.now)) }
{
    let all = all_groups(alloc, nodes)?;
    repeated_once(alloc, all.as_slice())
}

/// The groups that stand there at least twice, each once.
fn repeated_once(alloc: Global, all: &[PotTable]) -> Result<Vec<PotTable>, AllocError>
    ensures { IfOk result (λ v. map group_in v.items ≡ common_groups (map group_in all.now)) }
{
    let mut tables = Vec::new(alloc);
    for group in all {
        let new = is_new(group, all, tables.as_slice());
        push_new(alloc, &mut tables, group, new)?;
    }
    Ok(tables)
}

fn push_new(
    alloc: Global,
    tables: &mut Vec<PotTable>,
    group: &PotTable,
    new: bool,
) -> Result<(), AllocError>
    ensures { OnOk result (map group_in tables.new.items
        ≡ map group_in tables.old.items ++ (if new then (group_in group.now ∷ []) else [])) }
{
    if new {
        tables.push(copy_of(alloc, group)?)?;
    }
    Ok(())
}

fn copy_of(alloc: Global, table: &PotTable) -> Result<PotTable, AllocError>
    ensures { IfOk result (λ t. group_in t ≡ group_in table.now) }
{
    Ok(PotTable {
        first: table.first,
        second: table.second,
        alpha: copy_plain(alloc, table.alpha.as_slice())?,
        beta: copy_plain(alloc, table.beta.as_slice())?,
    })
}

/// Whether the group is one of at least two, and isn't in the tables yet.
fn is_new(group: &PotTable, all: &[PotTable], tables: &[PotTable]) -> bool
    ensures { result ≡ (not (list_any (λ h. same_group (group_in h) (group_in group.now)) tables.now) && is_twice (map group_in all.now) (group_in group.now)) }
{
    !is_in(tables, group) && is_repeated(all, group)
}

fn is_in(tables: &[PotTable], group: &PotTable) -> bool
    ensures { result ≡ list_any (λ h. same_group (group_in h) (group_in group.now)) tables.now }
{
    tables.iter().any(|table| is_same(table, group))
}

fn is_repeated(all: &[PotTable], group: &PotTable) -> bool
    ensures { result ≡ is_twice (map group_in all.now) (group_in group.now) }
{
    let mut count = 0;
    for other in all {
        let same = is_same(group, other);
        count += usize::from(same);
    }
    count >= 2
}

/// The groups of all leaves.
fn all_groups(alloc: Global, nodes: &[Node]) -> Result<Vec<PotTable>, AllocError>
    ensures { IfOk result (λ v. map group_in v.items ≡ carried nodes.now) }
{
    let mut all = Vec::new(alloc);
    for node in nodes {
        push_groups_at(alloc, node, &mut all)?;
    }
    Ok(all)
}

fn push_groups_at(alloc: Global, node: &Node, all: &mut Vec<PotTable>) -> Result<(), AllocError>
    ensures { OnOk result (map group_in all.new.items ≡ map group_in all.old.items ++ groups_at node.now) }
{
    match node {
        Node::Split(_) => Ok(()),
        Node::Leaf(leaf) => push_groups_of(alloc, leaf, all),
    }
}
