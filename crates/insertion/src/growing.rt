// The tree after, in place: where no node is split, the leaf gets the entry, and each node on the path its polygon as
// grown.
ghost use Rattle.std.specs.Prelude.{◌≡◌, ◌<◌};
ghost use Rattle.layout.specs.Entries.{tree_entry};
ghost use Rattle.layout.specs.Nodes.{count_at};
ghost use Rattle.path.specs.Path.{part_on};
ghost use Rattle.insertion.specs.Growing.{leaf_grown, node_grown, LevelIn, Growing, Grown};

use layout::{Entry, node_at, replace_node};
use path::Level;

// Writes the entry and the polygon to the leaf on the path.
fn grow_leaf(m: &mut [u32], path: &[Level], e: Entry)
    requires level_in { LevelIn 0 path.now m.old }
    requires path_bound { count_at m.old (part_on path.now 0) < 8 }
    ensures { m.new ≡ leaf_grown path.now m.old (tree_entry e) }
{
    let k = path[0].part;
    let leaf = node_at(m, k);
    replace_node(m, k, path[0].polygon, leaf.with_entry(e));
}

// Writes the polygon to the node on the path at a level.
fn grow_node(m: &mut [u32], path: &[Level], level: u32)
    requires { LevelIn level path.now m.old }
    ensures { m.new ≡ node_grown level path.now m.old }
{
    let n = level as usize;
    let k = path[n].part;
    let node = node_at(m, k);
    replace_node(m, k, path[n].polygon, node);
}

// Writes the nodes on the path from a level down to their parts, the leaf first.
pub fn grow_path(m: &mut [u32], path: &[Level], level: u32, e: Entry)
    requires { Growing level path.now m.old }
    ensures { Grown level path.now m.old (tree_entry e) m.new }
{
    if level == 0 {
        grow_leaf(m, path, e);
        return;
    }
    grow_path(m, path, level - 1, e);
    grow_node(m, path, level);
}
