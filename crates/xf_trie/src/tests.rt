//! A run of changes against a plain list, and that the calls answer where there is room.
ghost use Rattle.std.specs.Prelude.{◌≡◌, ◌≤◌, true, IfOk};
ghost use Rattle.xf_trie.specs.Keys.{key_of as key_for};
ghost use Rattle.xf_trie.specs.Nodes.{Lies};
ghost use Rattle.xf_trie.specs.Pools.{IsPrefixSet};
ghost use Rattle.xf_trie.specs.Spares.{spare_of};
ghost use Rattle.xf_trie.specs.Walks.{find_of};

use super::*;
use arrayvec::ArrayVec;
use std::alloc::Global;
use std::process::Abort;
use std::test::Fail;
use xf_cells::{Cells, Load, NoMemory, VecCells};
use xf_types::{Addr, Prefix};

// The node of a prefix, in words that stand still.
fn find_in<C: Cells>(tree: &Trie, c: &mut C, p: &Prefix) -> Option<u32>
    requires { Lies tree.now (C.size c.old) }
    ensures size { C.size c.new ≡ C.size c.old }
    ensures begun { C.begun c.new ≡ C.begun c.old }
    ensures words { C.words c.new ≡ C.words c.old }
    ensures answer { result ≡ find_of tree.now (C.words c.old) (key_for p.now.addr) p.now.len }
{
    tree.find(c, p)
}

// How many nodes are free, in words that stand still.
fn spare_in<C: Cells>(tree: &Trie, c: &mut C) -> u32
    requires { Lies tree.now (C.size c.old) }
    ensures size { C.size c.new ≡ C.size c.old }
    ensures begun { C.begun c.new ≡ C.begun c.old }
    ensures words { C.words c.new ≡ C.words c.old }
    ensures answer { result ≡ spare_of tree.now (C.words c.old) }
{
    tree.spare(c)
}

// The nodes of the prefixes that hold an address, in words that stand still.
fn visit_in<C: Cells>(tree: &Trie, c: &mut C, addr: &Addr) -> ArrayVec<u32, 129>
    requires { Lies tree.now (C.size c.old) }
    ensures size { C.size c.new ≡ C.size c.old }
    ensures begun { C.begun c.new ≡ C.begun c.old }
    ensures words { C.words c.new ≡ C.words c.old }
{
    tree.visit(c, addr)
}

// Removes a prefix that is there; inserts one that isn't, where there is room, and answers its node.
fn change<C: Cells>(tree: &Trie, c: &mut C, p: &Prefix) -> Option<u32>
    requires lies { Lies tree.now (C.size c.old) }
    requires begun { C.begun c.old ≡ true }
    requires prefixes { IsPrefixSet tree.now (C.words c.old) }
    ensures size { C.size c.new ≡ C.size c.old }
    ensures begun { C.begun c.new ≡ true }
    ensures prefixes { IsPrefixSet tree.now (C.words c.new) }
{
    if find_in(tree, c, p).is_some() {
        tree.remove(c, p);
        return None;
    }
    if spare_in(tree, c) < 2 {
        return None;
    }
    Some(tree.insert(c, p))
}

// A tree in words of zeros, with room for 140 nodes.
fn empty_tree(alloc: Global) -> Result<(Trie, VecCells), NoMemory>
    ensures lies { IfOk result (λ made. Lies made.0 (⟦<VecCells as Load>⟧.size made.1)) }
    ensures prefixes { IfOk result (λ made. IsPrefixSet made.0 (⟦<VecCells as Cells>⟧.words made.1)) }
{
    let cells = VecCells::new(alloc, 1123)?;
    let tree = Trie {
        root: 0,
        nodes: 3,
        free: 1,
        count: 140,
    };
    Ok((tree, cells))
}

// Prefixes that nest, of each length from 0 to 32, and beside each of them the one that differs in its last bit.
fn candidate(k: u32) -> Prefix {
    let len = (k / 2).min(32) as u8;
    let bits: u32 = 0x0A40_55F3;
    if k % 2 == 1 && len > 0 {
        Prefix::new(Addr::V4(bits ^ (1 << (32 - len))), len)
    } else {
        Prefix::new(Addr::V4(bits), len)
    }
}

// The tree answers what the plain list of nodes does.
fn compare<C: Cells>(
    rt: &impl Abort,
    tree: &Trie,
    c: &mut C,
    nodes: &[Option<u32>; 66],
    addr: &Addr,
)
    requires { Lies tree.now (C.size c.old) }
    ensures size { C.size c.new ≡ C.size c.old }
    ensures begun { C.begun c.new ≡ C.begun c.old }
    ensures words { C.words c.new ≡ C.words c.old }
{
    let visited = visit_in(tree, c, addr);
    let mut left = visited.as_slice().iter();
    'prefixes: for k in 1..66u32 {
        let p = candidate(k);
        assert_eq!(rt; find_in(tree, c, &p), nodes[k as usize]);
        if nodes[k as usize].is_some() && p.holds(addr) {
            assert_eq!(rt; left.next().copied(), nodes[k as usize]);
        }
    }
    assert_eq!(rt; left.next(), None);
}

// Random changes of a tree and of a plain list, compared after each; all that is left is removed at the end.
fn run<C: Cells>(rt: &impl Abort, tree: &Trie, c: &mut C)
    requires lies { Lies tree.now (C.size c.old) }
    requires begun { C.begun c.old ≡ true }
    requires prefixes { IsPrefixSet tree.now (C.words c.old) }
    ensures size { C.size c.new ≡ C.size c.old }
{
    let mut nodes: [Option<u32>; 66] = [None; 66];
    let mut state: u64 = 7;
    'changes: for _ in 0..300u32 {
        state = state
            .wrapping_mul(6_364_136_223_846_793_005)
            .wrapping_add(1_442_695_040_888_963_407);
        let k = 1 + (state >> 33) % 65;
        nodes[k as usize] = change(tree, c, &candidate(k as u32));
        let addr = candidate(((state >> 20) % 66) as u32).addr;
        compare(rt, tree, c, &nodes, &addr);
    }
    'rest: for k in 1..66u32 {
        if nodes[k as usize].is_some() {
            assert_eq!(rt; change(tree, c, &candidate(k)), None);
        }
    }
}

#[test]
fn changes_are_those_of_a_list(rt: HostRuntime) -> Result<(), Fail> {
    let (tree, mut cells) = empty_tree(rt.alloc())?;
    run(&rt, &tree, &mut cells);
    assert_eq!(rt; tree.spare(&mut cells), 140);
    assert_eq!(rt; cells.load(0), 0);
    Ok(())
}

#[test]
fn shortest_comes_first(rt: HostRuntime) -> Result<(), Fail> {
    let (tree, mut cells) = empty_tree(rt.alloc())?;
    let addr = Addr::V6(0x2001_0db8_0000_0000_0000_0000_0000_0001);
    let one = change(&tree, &mut cells, &Prefix::new(addr, 128));
    let beside = change(
        &tree,
        &mut cells,
        &Prefix::new(Addr::V6(0x2001_0db8_8000_0000_0000_0000_0000_0000), 33),
    );
    let all = change(&tree, &mut cells, &Prefix::new(addr, 0));
    let most = change(&tree, &mut cells, &Prefix::new(addr, 127));
    let visited = tree.visit(&mut cells, &addr);
    for (place, node) in [all, most, one].iter().enumerate() {
        assert_eq!(rt; visited.as_slice().get(place).copied(), *node);
    }
    assert_eq!(rt; visited.len(), 3);
    assert!(rt; beside.is_some());
    assert_eq!(rt; tree.find(&mut cells, &Prefix::new(addr, 64)), None);
    Ok(())
}
