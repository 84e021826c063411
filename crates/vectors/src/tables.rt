// Records of a run of offers to one spline table: five words (64, the record's bytes, how many colours, entries and
// offers), the colours, the entries, three words an offer (a, b and the answer), and the colours and the entries after
// the last offer.
use crate::words::{Reader, within};
use capi::spline_table::merelsplum_try_add_edge;

const MOST_OFFERS: usize = 4096;

// Makes a recorded offer: whether the answer is as recorded.
fn is_offer(offer: &[u8], coloring: &mut [u8], edge_matrix: &mut [u8]) -> bool {
    let [a, b, answer] = Reader::new(offer).words::<3>();
    merelsplum_try_add_edge(coloring, edge_matrix, a as usize, b as usize) == answer
}

// Makes the offers of the run s: whether every answer, and the table that they leave, are as recorded.
pub(crate) fn is_right(s: &[u8]) -> bool {
    let mut record = Reader::body(s);
    let [colors, entries, count] = record.words::<3>();
    let mut colors_before = [0; 128];
    let mut entries_before = [0; 8192];
    let coloring = record.load(colors, &mut colors_before);
    let edge_matrix = record.load(entries, &mut entries_before);
    let offers = record.words_of(3 * within(count, MOST_OFFERS));
    if !offers
        .chunks_exact(24)
        .all(|offer| is_offer(offer, coloring, edge_matrix))
    {
        return false;
    }
    *coloring == *record.part(coloring.len()) && *edge_matrix == *record.part(edge_matrix.len())
}
