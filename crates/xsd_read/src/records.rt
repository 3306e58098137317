// The records of a piece of a tape, read into a schema sheet one after the other.
ghost use Rattle.std.specs.Prelude.{true, ◌≡◌};
ghost use Rattle.text.specs.Text.{is_plain};
ghost use Rattle.xsd_progress.specs.Progress.{Standing};
ghost use Rattle.xsd_read.specs.Records.{stopped_at, RecordsRead};

use crate::event::on_event;
use rows::answers::{Answer, Refused};
use rows::writer::SheetWriter;
use sheet::refusal::Refusal;
use tape::record_at;
use tape::view::View;
use xsd_progress::Progress;

// How far a reading came: the events read or the refusal, and where it stands.
#[derive(Clone, Copy)]
pub struct ReadTo {
    pub answer: Answer,
    pub progress: Progress,
}

// Whether the whole text is plain, so that no record's bytes are judged for 5 again; not asked where a long text has few marks.
fn is_plain(text: &[u8], marks: usize) -> bool
    ensures { result ≡ true → is_plain text.now ≡ true }
{
    if text.len() / 64 <= marks {
        return text::is_plain(text);
    }
    false
}

// A reading that stops at a record.
fn stopped_at(refusal: Refusal, place: usize, progress: Progress) -> ReadTo
    ensures { result ≡ stopped_at refusal place progress }
{
    ReadTo {
        answer: Err(Refused { refusal, place }),
        progress,
    }
}

// Reads the records of a piece in order, up to the first that is refused.
pub fn read_records(sheet: &mut SheetWriter, v: View<'_, '_>, from: Progress) -> ReadTo
    requires { Standing sheet.old from }
    ensures { RecordsRead sheet.old v.entry.text.now v.entry.marks.now from result sheet.new }
{
    let plain = is_plain(v.text, v.marks.len());
    let mut progress = from;
    let mut place = 0;
    let mut at = 0;
    // No `for`: each record says where the next starts, and how many there are is known at the end.
    loop {
        let t = match record_at(v, at, plain) {
            Ok(Some(t)) => t,
            Ok(None) => {
                return ReadTo {
                    answer: Ok(place),
                    progress,
                };
            }
            Err(refusal) => return stopped_at(refusal, place, progress),
        };
        progress = match on_event(sheet, v, t, progress) {
            Ok(next) => next,
            Err(refusal) => return stopped_at(refusal, place, progress),
        };
        at = t.next;
        place += 1;
    }
}
