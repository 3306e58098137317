// The two label calls exported.
ghost use Rattle.ir_types.specs.Label.{label, LabelNumberIs};
ghost use Rattle.lubiksan.specs.Exported.{LabelStored};

// Gives the number of the label of a row of a graph sheet, 0 or 16. Stored: 0 for a part of the names and 1 for one of the word list, where the part
// starts there, and its length.
#[unsafe(no_mangle)]
pub extern "C" fn lubiksan_label(
    graph_rows: &[u32],
    graph_names: &[u8],
    words: &[u8],
    row: usize,
    in_words: &mut u32,
    start: &mut usize,
    length: &mut usize,
) -> u32
    ensures { LabelStored (label graph_rows.now graph_names.now words.now row) result in_words.new start.new length.new }
{
    match ir_label::find_label(graph_rows, graph_names, words, row) {
        Ok(s) => {
            *in_words = u32::from(s.buffer);
            *start = s.at;
            *length = s.len;
            0
        }
        Err(refusal) => {
            *in_words = 0;
            *start = 0;
            *length = 0;
            u32::from(refusal)
        }
    }
}

// Gives the number alone.
#[unsafe(no_mangle)]
pub extern "C" fn lubiksan_label_number(
    graph_rows: &[u32],
    graph_names: &[u8],
    words: &[u8],
    row: usize,
) -> u32
    ensures { LabelNumberIs graph_rows.now graph_names.now words.now row result }
{
    ir_label::label_number(graph_rows, graph_names, words, row)
}
