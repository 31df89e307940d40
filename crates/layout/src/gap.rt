// Closing the gap that an item leaves: the later ones move down.
ghost use Rattle.std.specs.Prelude.{◌+◌, ◌≤◌, length};
ghost use Rattle.layout.specs.Gap.{MovedDown};

// Gives each number from `from` to before `end` the value that stands w places behind it.
pub fn move_down(list: &mut [u32], w: usize, from: usize, end: usize)
    requires from_le_end { from ≤ end }
    requires w_in_bounds { end + w ≤ length list.old }
    ensures { MovedDown w from end list.old list.new }
{
    list.copy_within(from + w..end + w, from);
}
