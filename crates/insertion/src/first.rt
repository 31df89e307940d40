// The first entry of an index.
ghost use Rattle.std.specs.Prelude.{◌≡◌, true, length, Ok};
ghost use Rattle.std.proofs.Math.Option.{none, some};
ghost use Rattle.geometry.specs.Cells.{on_grid};
ghost use Rattle.plane.specs.Fanout.{fanout};
ghost use Rattle.memory.specs.Reading.{reading};
ghost use Rattle.layout.specs.Entries.{tree_entry};
ghost use Rattle.insertion.specs.Insert.{Built};

use answers::Inserted;
use geometry::{Polygon, Rect};
use layout::{Entry, Node, put_node, put_tree};

// 'an empty index gets a leaf with that cell alone'
pub fn insert_first(m: &mut [u32], work: &mut [u32], e: Entry) -> Inserted
    requires m_value { reading fanout m.old ≡ some none }
    requires work_len { length work.old ≡ length m.old }
    requires cell_value { on_grid e.cell ≡ true }
    ensures { Built m.old work.old (tree_entry e) m.new work.new (Ok result) }
{
    let c = e.cell;
    let r = Rect {
        llx: c.x,
        lly: c.y,
        urx: c.x + 1,
        ury: c.y + 1,
    };
    let empty = Node::empty();
    put_node(work, 0, Polygon::of(r), empty.with_entry(e));
    put_tree(m, work, 1, 1);
    Inserted {
        held: 1,
        removed: 0,
    }
}
