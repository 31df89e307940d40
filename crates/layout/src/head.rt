// The numbers before the first part, and the length of the memory.
ghost use Rattle.std.specs.Prelude.{◌≡◌, ◌≤◌, length, take, drop};
ghost use Rattle.memory.specs.Layout.{parts_of, is_index_length, height_in, root_in, all_zero};
ghost use Rattle.memory.proofs.ReadingLaws.{IndexLength};

use crate::numbers::{HEAD, HEAD_END, HEIGHT, MOST_PARTS, PART, ROOT};
use crate::zeros::all_zero;

// Whether the length is that of an index of 1 to 256 parts.
#[tactic(auto, unfolding(memory::specs::Layout::is_index_length))]
pub fn is_index_length(m: &[u32]) -> bool
    ensures { result ≡ is_index_length m.now }
{
    let len = m.len();
    let n = len.saturating_sub(HEAD) / PART;
    len == HEAD + PART * n && 1 <= n && n <= MOST_PARTS
}

// How many parts the memory has.
pub fn part_count(m: &[u32]) -> u32
    requires { IndexLength m.now }
    ensures { result ≡ parts_of m.now }
{
    ((m.len() - HEAD) / PART) as u32
}

// The height of the tree; 0 of the empty index.
pub fn tree_height(m: &[u32]) -> u32
    requires { 64 ≤ length m.now }
    ensures { result ≡ height_in m.now }
{
    m[HEIGHT]
}

// The part of its root.
pub fn root_part(m: &[u32]) -> u32
    requires { 64 ≤ length m.now }
    ensures { result ≡ root_in m.now }
{
    m[ROOT]
}

// Whether the numbers between the root's part and the first part are zero.
pub fn head_rest_zero(m: &[u32]) -> bool
    requires { 64 ≤ length m.now }
    ensures { result ≡ all_zero (drop 10 (take 64 m.now)) }
{
    all_zero(&m[HEAD_END..HEAD])
}
