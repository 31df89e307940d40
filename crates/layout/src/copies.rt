// Lists of numbers copied: a node's part to the work area.
ghost use Rattle.std.specs.Prelude.{◌≡◌, length};
ghost use Rattle.layout.specs.Loaded.{with_node};
ghost use Rattle.layout.specs.Nodes.{IsPart};
ghost use Rattle.layout.specs.Parts.{PartRoom, PartPut};

use crate::node::Node;
use crate::place::part_range;
use crate::store::store_items;
use geometry::copy;

// Copies a list to another one that is as long.
#[tactic(auto, using(crate::proofs::CopyLaws::all_copied))]
pub fn copy_all(from: &[u32], to: &mut [u32])
    requires { length to.old ≡ length from.now }
    ensures { to.new ≡ from.now }
{
    copy(from, from.len(), to);
}

// Copies a part to the part next of the work area.
pub fn copy_part(p: &[u32], work: &mut [u32], next: u32)
    requires part { IsPart p.now }
    requires part_room { PartRoom work.old next }
    ensures { PartPut work.old next p.now work.new }
{
    copy_all(p, &mut work[part_range(next)]);
}

// Copies a part to the part next of the work area, with another node in it: the polygon is kept.
pub fn copy_node(p: &[u32], node: Node, work: &mut [u32], next: u32)
    requires part { IsPart p.now }
    requires part_room { PartRoom work.old next }
    ensures { PartPut work.old next (with_node p.now node) work.new }
{
    let part = &mut work[part_range(next)];
    copy_all(p, part);
    store_items(part, node);
}
