ghost use Rattle.leaf_bounds.specs.Sharing.{ArePairsInOrder};
ghost use Rattle.std.specs.Prelude.{◌≡◌, ◌∷◌, [], if◌then◌else◌, IfOk};

use leaf_bounds::{
    Bound, Cut, Leaf, LeafValue, Node, NumberValue, PairValue, PotTable, SharedNode, Tree, UseOf,
    leaf_check, plain_leaf, share,
};
use pair_prices::Case;
use patterns::Allowed;
use sequence::Sequence;
use shared_trees::written_proof;
use std::alloc::{AllocError, Global};
use std::test::Fail;
use tests_stations::{R1, Train, case_of, s};

/// The number of the first pair's first pattern.
const ENTRY: PairValue = PairValue {
    first: 0,
    second: 1,
    number: 0,
    value: 5,
};

/// A leaf that lists just `a 0 1 0 5`.
fn one_number(alloc: Global) -> Result<Leaf, AllocError>
    ensures alpha { IfOk result (λ l. l.alpha ≡ (ENTRY ∷ [])) }
    ensures beta { IfOk result (λ l. l.beta ≡ []) }
{
    Ok(Leaf {
        q: 1,
        u: Sequence::from_vec(Vec::new(alloc)),
        v: Sequence::from_vec(Vec::new(alloc)),
        alpha: Sequence::from_vec(vec![in alloc; ENTRY]?),
        beta: Sequence::from_vec(Vec::new(alloc)),
    })
}

/// One split of two such leaves.
fn one_split(alloc: Global) -> Result<Tree, AllocError>
    ensures { IfOk result (λ t. ArePairsInOrder t.nodes) }
{
    let cut = Cut { train: 0, at: 1 };
    let below = Node::Leaf(one_number(alloc)?);
    let rest = Node::Leaf(one_number(alloc)?);
    Ok(Tree {
        nodes: Sequence::from_vec(vec![in alloc; Node::Split(cut), below, rest]?),
    })
}

fn holds_the_number(table: &PotTable) -> bool {
    let entry = NumberValue {
        number: 0,
        value: 5,
    };
    table.first == 0
        && table.second == 1
        && table.alpha.as_slice() == [entry].as_slice()
        && table.beta.len() == 0
}

fn uses_the_table(node: &SharedNode) -> bool {
    let table = UseOf {
        table: 0,
        factor: 1,
    };
    match node {
        SharedNode::Split(_) => false,
        SharedNode::Leaf(leaf) => {
            leaf.uses.as_slice() == [table].as_slice()
                && leaf.rest.alpha.len() == 0
                && leaf.rest.beta.len() == 0
        }
    }
}

#[test]
fn names_a_common_number_once(rt: HostRuntime) -> Result<(), Fail> {
    let alloc = rt.alloc();
    let tree = one_split(alloc)?;
    let shared = share(alloc, &tree)?;
    assert_eq!(rt; shared.tables.len(), 1);
    assert!(rt; shared.tables.as_slice().iter().all(holds_the_number));
    assert_eq!(rt; shared.nodes.len(), 3);
    assert!(rt; shared.nodes.as_slice().iter().skip(1).all(uses_the_table));
    Ok(())
}

/// The bound that a leaf's check answers.
fn bound_of(value: &LeafValue) -> Bound
    ensures { result ≡ (if value.now.empty then Bound.Nothing else Bound.AtLeast value.now.bound) }
{
    if value.empty {
        Bound::Nothing
    } else {
        Bound::AtLeast(value.bound)
    }
}

/// The proof of a tree of the plain leaf alone.
fn plain_proof(alloc: Global, case: &Case) -> Result<Option<Vec<u8>>, AllocError> {
    let all = Allowed::all(alloc, case.book())?;
    let leaf = plain_leaf(alloc, case, &all)?;
    let Ok(value) = leaf_check(case, &all, &leaf) else {
        return Ok(None);
    };
    let bound = bound_of(&value);
    let tree = Tree {
        nodes: Sequence::from_vec(vec![in alloc; Node::Leaf(leaf)]?),
    };
    Ok(Some(written_proof(alloc, case, &tree, &bound)?))
}

#[test]
fn writes_a_proof(rt: HostRuntime) -> Result<(), Fail> {
    let alloc = rt.alloc();
    // It pays 100 on `D`.
    let on_dummy = Train {
        platforms: r#""D""#,
        ..R1
    };
    let case = case_of(alloc, &s(alloc, "", &[on_dummy])?)?;
    let proof = plain_proof(alloc, &case)?.unwrap_or(Vec::new(alloc));
    assert_eq!(rt;
        proof.as_slice(),
        b"tpp-proof 2 1\nleaf 1\nu 0 100\nclose\nend 100\n".as_slice()
    );
    Ok(())
}
