// Records of job files (69): seven words (the number, the record's bytes, how many bytes the file and its listing have,
// how many contours are asked for, what checking answers, whether teardrops are balanced), two words for each contour
// (the place of its part and how many bytes it has), the file, and its listing, each filled up to words.
use crate::shapes::BYTE;
use crate::words::{MOST_FILE_BYTES, Reader, are_bytes, within};
use capi::job_file::{
    BYTES, merelsplum_job_balanced, merelsplum_job_check, merelsplum_job_contour_part,
    merelsplum_job_listing,
};
use job::limits::MAX_TEXT;
use job::part::contour_part;

// The most contours that are asked for.
const MOST_ASKED: usize = 300;

// Whether the part of a contour is where two words say, and has the bytes that stand there.
fn is_part(file: &[u8], contour: usize, words: &[u8]) -> bool {
    let [start, bytes] = Reader::new(words).words::<2>();
    let place = merelsplum_job_contour_part(file, contour);
    if place % BYTES != start || place / BYTES != bytes {
        return false;
    }
    let mut part = Reader::new(file);
    part.part(start as usize);
    contour_part(file, contour) == part.part(bytes as usize)
}

// Whether the listing of a file is s, and what stood beyond it is still there.
fn is_listing(file: &[u8], s: &[u8]) -> bool {
    let mut text = [BYTE; 5619];
    merelsplum_job_listing(file, &mut text) == s.len() as u64 && are_bytes(s, &text, BYTE)
}

pub(crate) fn is_right(s: &[u8]) -> bool {
    let mut record = Reader::body(s);
    let [file_bytes, listing_bytes, contours, check, balanced] = record.words::<5>();
    let places = record.words_of(2 * within(contours, MOST_ASKED));
    let file_bytes = within(file_bytes, MOST_FILE_BYTES);
    let file = record.part(file_bytes);
    record.part(file_bytes.next_multiple_of(8) - file_bytes);
    merelsplum_job_check(file) == check
        && merelsplum_job_balanced(file) == balanced
        && places
            .chunks_exact(16)
            .enumerate()
            .all(|(contour, words)| is_part(file, contour, words))
        && is_listing(file, record.part(within(listing_bytes, MAX_TEXT)))
}
