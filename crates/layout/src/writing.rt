// The tree after, written to the index from the work area.
ghost use Rattle.std.specs.Prelude.{◌≡◌, ◌+◌, ◌*◌, ◌≤◌, ◌<◌, length};
ghost use Rattle.memory.specs.Image.{bits_word, head_numbers};
ghost use Rattle.layout.specs.Writing.{written};

use crate::copies::copy_all;
use crate::numbers::{HEAD, HEIGHT, PART, ROOT};
use crate::zeros::fill_zeros;

// The j-th word of bits where the first n parts are in use.
#[tactic(auto, unfolding(memory::specs::Image::bits_word))]
fn bits_word(n: u32, j: u32) -> u32
    requires n_bound { n ≤ 256 }
    requires j_bound { j < 8 }
    ensures { result ≡ bits_word n j }
{
    let used = n.saturating_sub(32 * j).min(32);
    ((1u64 << used) - 1) as u32
}

// Writes the first 64 numbers of an index whose first parts are in use, the last of them the root's.
fn put_head(head: &mut [u32], parts: u32, height: u32)
    requires head_len { length head.old ≡ 64 }
    requires le_parts { 1 ≤ parts }
    requires parts_bound { parts ≤ 256 }
    ensures { head.new ≡ head_numbers parts height }
{
    fill_zeros(head);
    for j in 0..8 {
        head[j as usize] = bits_word(parts, j);
    }
    head[HEIGHT] = height;
    head[ROOT] = parts - 1;
}

// Writes the first parts of the work area to the index, which has no others then.
pub fn put_tree(m: &mut [u32], work: &[u32], parts: u32, height: u32)
    requires le_parts { 1 ≤ parts }
    requires parts_bound { parts ≤ 256 }
    requires parts_in_bounds { 64 + 128 * parts ≤ length m.old }
    requires work_len { length work.now ≡ length m.old }
    ensures { m.new ≡ written (length m.old) parts height work.now }
{
    let end = HEAD + PART * (parts as usize);
    put_head(&mut m[0..HEAD], parts, height);
    copy_all(&work[HEAD..end], &mut m[HEAD..end]);
    fill_zeros(&mut m[end..]);
}
