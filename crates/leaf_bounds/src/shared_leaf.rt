ghost use Rattle.leaf_bounds.specs.Group.{group_in};
ghost use Rattle.leaf_bounds.specs.Sharing.{groups_of, is_entry_of, same_group, used_pairs, uses_from, AreSharedNodesOf, IsSharedLeafOf, IsSharedNodeOf, IsRestOf};
ghost use Rattle.std.specs.List.{list_any};
ghost use Rattle.std.specs.Prelude.{◌≡◌, ◌≤◌, ◌++◌, ◌∷◌, [], if◌then◌else◌, filter, length, map, not, pos, IfOk, OnOk};

use crate::groups::{groups_in, is_same};
use crate::leaf::Leaf;
use crate::lists::copy_plain;
use crate::narrow::push_kept;
use crate::number::PairValue;
use crate::shared::{SharedLeaf, SharedNode};
use crate::table::PotTable;
use crate::tree::Node;
use crate::uses::{TablePair, UseOf};
use sequence::Sequence;
use std::alloc::{AllocError, Global};

/// The nodes, their leaves with uses of the tables.
pub(crate) fn shared_nodes(
    alloc: Global,
    nodes: &[Node],
    tables: &[PotTable],
) -> Result<Vec<SharedNode>, AllocError>
    requires { length tables.now ≤ 65536 }
    ensures { IfOk result (λ v. AreSharedNodesOf (map group_in tables.now) nodes.now v.items) }
{
    let mut shared = Vec::new(alloc);
    for node in nodes {
        let other = shared_node(alloc, node, tables)?;
        shared.push(other)?;
    }
    Ok(shared)
}

fn shared_node(alloc: Global, node: &Node, tables: &[PotTable]) -> Result<SharedNode, AllocError>
    requires { length tables.now ≤ 65536 }
    ensures { IfOk result (λ n. IsSharedNodeOf (map group_in tables.now) node.now n) }
{
    match node {
        Node::Split(cut) => Ok(SharedNode::Split(*cut)),
        Node::Leaf(leaf) => {
            let shared = shared_leaf(alloc, leaf, tables)?;
            Ok(SharedNode::Leaf(shared))
        }
    }
}

fn shared_leaf(alloc: Global, leaf: &Leaf, tables: &[PotTable]) -> Result<SharedLeaf, AllocError>
    requires { length tables.now ≤ 65536 }
    ensures { IfOk result (λ s. IsSharedLeafOf (map group_in tables.now) leaf.now s) }
{
    let groups = groups_in(alloc, leaf)?;
    let uses = uses_of(alloc, leaf, groups.as_slice(), tables)?;
    let pairs = pairs_used(alloc, leaf, groups.as_slice(), tables)?;
    let rest = rest_of(alloc, leaf, pairs.as_slice())?;
    Ok(SharedLeaf {
        rest,
        uses: Sequence::from_vec(uses),
    })
}

/// The uses of the tables that the leaf carries.
fn uses_of(
    alloc: Global,
    _leaf: &Leaf,
    groups: &[PotTable],
    tables: &[PotTable],
) -> Result<Vec<UseOf>, AllocError>
    requires few { length tables.now ≤ 65536 }
    requires groups { map group_in groups.now ≡ groups_of _leaf.now }
    ensures { IfOk result (λ v. v.items ≡ uses_from 0 _leaf.now (map group_in tables.now)) }
{
    let mut uses = Vec::new(alloc);
    for k in 0..tables.len() {
        let is_used = carries(groups, &tables[k]);
        push_use(&mut uses, k as u32, is_used)?;
    }
    Ok(uses)
}

fn push_use(uses: &mut Vec<UseOf>, table: u32, is_used: bool) -> Result<(), AllocError>
    ensures { OnOk result (uses.new.items
        ≡ uses.old.items ++ (if is_used then (record { table = table; factor = pos 1 } ∷ []) else [])) }
{
    if is_used {
        uses.push(UseOf { table, factor: 1 })?;
    }
    Ok(())
}

/// Whether the table is one of the groups.
fn carries(groups: &[PotTable], table: &PotTable) -> bool
    ensures { result ≡ list_any (λ h. same_group (group_in table.now) (group_in h)) groups.now }
{
    groups.iter().any(|group| is_same(table, group))
}

/// The pairs of the tables that the leaf carries.
fn pairs_used(
    alloc: Global,
    _leaf: &Leaf,
    groups: &[PotTable],
    tables: &[PotTable],
) -> Result<Vec<TablePair>, AllocError>
    requires { map group_in groups.now ≡ groups_of _leaf.now }
    ensures { IfOk result (λ v. v.items ≡ used_pairs (map group_in tables.now) _leaf.now) }
{
    let mut pairs = Vec::new(alloc);
    for table in tables {
        let is_used = carries(groups, table);
        push_pair(&mut pairs, table, is_used)?;
    }
    Ok(pairs)
}

fn push_pair(pairs: &mut Vec<TablePair>, table: &PotTable, is_used: bool) -> Result<(), AllocError>
    ensures { OnOk result (pairs.new.items
        ≡ pairs.old.items ++ (if is_used then (record { first = table.now.first; second = table.now.second } ∷ []) else [])) }
{
    if is_used {
        pairs.push(TablePair {
            first: table.first,
            second: table.second,
        })?;
    }
    Ok(())
}

/// The leaf without its potentials of these pairs.
fn rest_of(alloc: Global, leaf: &Leaf, pairs: &[TablePair]) -> Result<Leaf, AllocError>
    ensures { IfOk result (λ n. IsRestOf pairs.now leaf.now n) }
{
    Ok(Leaf {
        q: leaf.q,
        u: copy_plain(alloc, leaf.u.as_slice())?,
        v: copy_plain(alloc, leaf.v.as_slice())?,
        alpha: others_of(alloc, leaf.alpha.as_slice(), pairs)?,
        beta: others_of(alloc, leaf.beta.as_slice(), pairs)?,
    })
}

/// The entries that aren't of these pairs.
fn others_of(
    alloc: Global,
    entries: &[PairValue],
    pairs: &[TablePair],
) -> Result<Sequence<PairValue>, AllocError>
    ensures { IfOk result (λ s. s ≡ filter (λ x. not (is_entry_of pairs.now x)) entries.now) }
{
    let mut others = Vec::new(alloc);
    for x in entries {
        let stays = !is_of_pairs(x, pairs);
        push_kept(&mut others, x, stays)?;
    }
    Ok(Sequence::from_vec(others))
}

fn is_of_pairs(x: &PairValue, pairs: &[TablePair]) -> bool
    ensures { result ≡ is_entry_of pairs.now x.now }
{
    pairs
        .iter()
        .any(|p| p.first == x.first && p.second == x.second)
}
