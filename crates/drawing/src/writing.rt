// A polygon written as Well-Known Binary, for a map program.
ghost use Rattle.drawing.specs.Wkb.{WkbWritten};

use crate::answer::Refusal;
use crate::arguments::{accept, is_list};
use geometry::{MOST_OF_POLYGON, Rects};
use wkb::put_collection;

// Writes the polygon to the front of the output. The output's length is tested before anything is written.
pub fn write_wkb(polygon: &[u32], out: &mut [u8]) -> Result<usize, Refusal>
    ensures { WkbWritten polygon.now out.old result out.new }
{
    accept(is_list(polygon, MOST_OF_POLYGON))?;
    let n = polygon.len() / 4;
    let bytes = 9 + 93 * n;
    if out.len() < bytes {
        return Err(Refusal::ShortOutput);
    }
    put_collection(Rects::new(polygon, n), out);
    Ok(bytes)
}
