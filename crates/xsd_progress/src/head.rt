// The open type in a schema sheet: the tag of its head.
ghost use Rattle.xsd_progress.specs.Open.{TagOfHead};

use sheet::limits;
use xsd_types::contexts;

// The answer where no type is open: no Option, since 0 is no row's tag, the definitions have 0 there, and a decision only compares the answer with tags.
const NO_HEAD: u32 = 0;

// The tag of the open type's head.
pub fn head_tag(rows: &[u32], context: u32, head: usize) -> u32
    ensures { TagOfHead rows.now context head result }
{
    if context < contexts::SIMPLE_TYPE {
        return NO_HEAD;
    }
    if head < rows.len() / limits::ROW {
        rows[limits::ROW * head]
    } else {
        NO_HEAD
    }
}
