// What is reached from row 1, by a queue of the places that are marked. `to[row]` is the place of the head that a row leads to, 0 for nowhere.
// That the marks are 4,096 at most, so that a place is a u32, and that there is room for those of the rows, are clauses: the queue borrows arrays that its callers own.
ghost use Rattle.std.specs.Prelude.{◌≡◌, ◌&&◌, ◌≤◌, ◌<◌, ltb, length, get_or};
ghost use Rattle.ir_reduce.specs.Marks.{head_at};
ghost use Rattle.ir_reduce.specs.Queue.{MarksPlace, MarksTarget, HasRoom, MarksGroup, MarksAll};

use graph_form::row::is_type;
use rows::part::SheetPart;

// Whether a row ends the group of the head at p.
fn is_behind(part: &SheetPart, p: usize, row: usize) -> bool
    requires { row < part.now.end }
    ensures { result ≡ (ltb p row && head_at part.now.rows.now row) }
{
    p < row && is_type(part.tag(row))
}

// The marks of the places, and the places that are marked, `count` of them, in the order in which they were. A mark is a byte, 0 where there is none, and no `bool`: callers
// may mark with any other byte.
#[derive(Drop)]
pub struct Queue<'a> {
    pub marks: &'a mut [u8],
    pub places: &'a mut [u32],
    pub count: usize,
}

impl Queue<'_> {
    // Marks a place and puts it into the queue, where it is not marked.
    pub fn mark(&mut self, place: usize)
        requires { (place < length self.old.marks.now) × (length self.old.marks.now ≤ 4096) × (get_or self.old.marks.now place 0 ≡ 0 → self.old.count < length self.old.places.now) }
        ensures { MarksPlace self.old place self.new }
    {
        if self.marks[place] != 0 {
            return;
        }
        self.marks[place] = 1;
        self.places[self.count] = place as u32;
        self.count += 1;
    }

    // Marks what a row leads to. 0 is nowhere, as the array of targets holds it (`put_targets` says why).
    fn mark_target(&mut self, q: usize)
        requires { (q < length self.old.marks.now) × (length self.old.marks.now ≤ 4096) × (get_or self.old.marks.now q 0 ≡ 0 → self.old.count < length self.old.places.now) }
        ensures { MarksTarget self.old q self.new }
    {
        if q == 0 {
            return;
        }
        self.mark(q);
    }

    // Marks what the rows of a head's group lead to.
    fn mark_group(&mut self, part: &SheetPart, to: &[u32], p: usize)
        requires { HasRoom part.now to.now self.old × (part.now.end ≤ 4096) }
        ensures { MarksGroup part.now to.now p self.old self.new }
    {
        for row in p..part.end {
            if is_behind(part, p, row) {
                return;
            }
            self.mark_target(to[row] as usize);
        }
    }

    // Marks all that is reached from what is marked. A `while`: the queue grows as it is walked.
    pub fn mark_all(&mut self, part: &SheetPart, to: &[u32])
        requires { HasRoom part.now to.now self.old × (part.now.end ≤ 4096) }
        ensures { MarksAll part.now to.now self.old self.new }
    {
        let mut k = 0;
        while k < self.count {
            let p = self.places[k] as usize;
            self.mark_group(part, to, p);
            k += 1;
        }
    }
}
