// Records of reading a job file (70): thirteen words (the number, the record's bytes, how many bytes the file has, how
// many distances, contours and edges the job, 0, how many places the buffers for lengths, kinds, points and distances
// have, the answer, where the job begins); the six numbers at the end; the file; and the job: lengths, kinds, point
// places, distances. A length is a word.
use crate::shapes::{BYTE, LENGTH, PLACE, are_lengths, are_points};
use crate::words::{
    MOST_CONTOURS, MOST_DISTANCES, MOST_EDGES, MOST_FILE_BYTES, MOST_START, Reader, are_bytes,
    first, within,
};
use capi::job_file::merelsplum_job_read;
use math::bits::float;

// Makes the call of the record s: whether its answer, the numbers and all four buffers are as recorded.
pub(crate) fn is_right(s: &[u8]) -> bool {
    let mut record = Reader::body(s);
    let [bytes, pairs, contours, edges, _] = record.words::<5>();
    let [out_lengths, out_kinds, out_points, out_distances] = record.words::<4>();
    let [answer, start] = record.words::<2>();
    let expected = record.words::<6>();
    let mut job = Reader::new(s);
    job.part(within(start, MOST_START));
    let mut lengths = [LENGTH; 90];
    let mut kinds = [BYTE; 540];
    let mut points = [float(PLACE); 2120];
    let mut distances = [float(PLACE); 2100];
    let mut numbers = [PLACE; 6];
    let found = merelsplum_job_read(
        record.part(within(bytes, MOST_FILE_BYTES)),
        first(&mut lengths, out_lengths),
        first(&mut kinds, out_kinds),
        first(&mut points, out_points),
        first(&mut distances, out_distances),
        &mut numbers,
    );
    let edges = within(edges, MOST_EDGES);
    found == answer
        && numbers == expected
        && are_lengths(job.words_of(within(contours, MOST_CONTOURS)), &lengths)
        && are_bytes(job.part(edges), &kinds, BYTE)
        && are_points(job.words_of(8 * edges), &points)
        && are_points(job.words_of(within(pairs, MOST_DISTANCES)), &distances)
}
