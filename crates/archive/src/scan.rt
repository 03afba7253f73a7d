// Judging the records of an image, however deep they nest, with nothing written.
ghost use Rattle.std.specs.Prelude.{◌≡◌, ◌+◌, ◌≤◌, ◌<◌, length};
ghost use Rattle.datatype.specs.Limits.{max_rows};
ghost use Rattle.archive.specs.Archive.{records_at};
ghost use Rattle.archive.specs.Internal.Said.{room_said, read_means};
ghost use Rattle.archive.specs.Internal.Chain.{left_of, between};

use crate::NotRead;
use crate::record::{Room, record};
use datatype::rows::MAX_ROWS;

// The room left behind the records from one place of an image to another. The ends of the records
// that it stands in are kept in an array, so that no image takes more stack than another: there are
// no more of them than rows. Its array is no part of the stack of whoever calls it.
#[inline(never)]
#[tactic(auto, using(crate::proofs::Chain::scanning))]
pub(crate) fn scan(image: &[u8], start: usize, end: usize, lent: Room) -> Result<Room, NotRead>
    requires ordered { start ≤ end }
    requires within { end ≤ length image.now }
    requires few { lent.rows < max_rows }
    ensures { read_means room_said result ≡ left_of (records_at (length image.now) (between image.now start end) (room_said lent)) }
{
    let mut ends = [0; MAX_ROWS];
    ends[0] = end;
    let mut deep = 1;
    let mut at = start;
    let mut room = lent;
    // No range has the places: each record begins where the one before it, or its parent's own
    // bytes, ended.
    while 0 < deep {
        let end = ends[deep - 1];
        if at == end {
            deep -= 1;
        } else {
            let head = record(&image[at..end], room)?;
            let own = end - head.behind.len();
            at = own - head.below.len();
            ends[deep] = own;
            deep += 1;
            room = head.room;
        }
    }
    Ok(room)
}
