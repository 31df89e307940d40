// Opening an index: what its memory reads as. 'memory reads as no sound tree' is refusal 4.
ghost use Rattle.std.specs.Prelude.{◌≡◌, true};
ghost use Rattle.memory.specs.Layout.{is_index_length};
ghost use Rattle.memory.specs.TreeIn.{Reads, Known};
ghost use Rattle.soundness.specs.Open.{OpenedAs};

use crate::check::check_node;
use answers::Refusal;
use layout::{
    all_zero, bits_set, head_rest_zero, others_zero, part_at, rect_count, root_part, tree_height,
};

// The root of a sound tree: its part, and how many steps below it the leaves lie.
#[derive(Clone, Copy, Debug, PartialEq, Eq)]
pub struct Root {
    pub level: u32,
    pub part: u32,
}

// What the memory reads as: the empty index, all zeros, has no root.
pub fn open(m: &[u32]) -> Result<Option<Root>, Refusal>
    requires { is_index_length m.now ≡ true }
    ensures { OpenedAs m.now result }
{
    let height = tree_height(m);
    if height == 0 {
        if all_zero(m) {
            return Ok(None);
        }
        return Err(Refusal::NoSoundTree);
    }
    // each level down takes a lower part: this bounds the recursion by the number of parts
    let level = height - 1;
    let part = root_part(m);
    if part < level {
        return Err(Refusal::NoSoundTree);
    }
    if !head_rest_zero(m) {
        return Err(Refusal::NoSoundTree);
    }
    let Some(nodes) = check_node(m, level, 0, part) else {
        return Err(Refusal::NoSoundTree);
    };
    if nodes != bits_set(m) {
        return Err(Refusal::NoSoundTree);
    }
    // the root's polygon is one rectangle
    if rect_count(part_at(m, part)) != 1 {
        return Err(Refusal::NoSoundTree);
    }
    if !others_zero(m) {
        return Err(Refusal::NoSoundTree);
    }
    Ok(Some(Root { level, part }))
}

// What a memory reads as that is known to read as an index: nothing is tested.
fn reopen(m: &[u32]) -> Result<Option<Root>, Refusal>
    requires { Reads m.now }
    ensures { OpenedAs m.now result }
{
    let height = tree_height(m);
    if height == 0 {
        return Ok(None);
    }
    let level = height - 1;
    let part = root_part(m);
    Ok(Some(Root { level, part }))
}

// Opens a memory of the right length: it is tested, unless it is known to read as an index.
pub fn open_known(m: &[u32], known: bool) -> Result<Option<Root>, Refusal>
    requires m_value { is_index_length m.now ≡ true }
    requires known { Known m.now known }
    ensures { OpenedAs m.now result }
{
    if known {
        return reopen(m);
    }
    open(m)
}
