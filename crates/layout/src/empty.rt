// A memory that holds no tree.
ghost use Rattle.std.specs.Prelude.{◌≡◌, ◌≤◌, length};
ghost use Rattle.layout.specs.PartSet.{no_tree};

use crate::numbers::{HEIGHT, ROOT};

// Takes the height and the root's part back to zero.
pub fn no_tree(m: &mut [u32])
    requires { 64 ≤ length m.old }
    ensures { m.new ≡ no_tree m.old }
{
    m[HEIGHT] = 0;
    m[ROOT] = 0;
}
