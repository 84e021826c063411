// The exports of the C library: each calls the function of `capi` that has its name, and states its clauses again.
// Kept apart from `capi`: a crate is a library or an archive, and `vectors` uses `capi`.
#![tactic(auto)]

ghost use Rattle.std.specs.Prelude.{◌≡◌, []};
ghost use Rattle.coloring.specs.declared.settings.Strategy.TheVariants.{Simple, InkTrap};
ghost use Rattle.coloring.specs.declared.settings.Marking.TheVariants.{Colors, Numbers, Distances};
ghost use Rattle.coloring.specs.declared.settings.Division.TheVariants.{Balanced};
ghost use Rattle.coloring.specs.Outline.{given, at_entry, at_exit};
ghost use Rattle.coloring.specs.EdgeColoring.{edge_coloring, settings_of, collect_splines};
ghost use Rattle.coloring.specs.EdgeColoring.{edge_coloring_by_distance, edge_coloring_simple, edge_coloring_ink_trap};
ghost use Rattle.capi.specs.EdgeColoring.{collected_code, colored_code, handed, hand_out};
ghost use Rattle.coloring.specs.Directions.{edge_directions, buffers_at_entry, buffers_at_exit};
ghost use Rattle.capi.specs.Answers.{handed_buffer, hand_out_buffer};
ghost use Rattle.job.specs.Progress.{answer_of};
ghost use Rattle.job.specs.Reader.{job_at_entry, job_at_exit, read_into};
ghost use Rattle.job.specs.Color.{color_file, check_file, accept_job};
ghost use Rattle.job.specs.Listing.{list_file};
ghost use Rattle.job.specs.Part.{contour_place};
ghost use Rattle.capi.specs.JobFile.{handed_job, hand_out_job, balanced_code, place_code};
ghost use Rattle.coloring.specs.SplineTable.{offer, table_of};
ghost use Rattle.capi.specs.SplineTable.{answer_code};

use capi::{balanced, by_distance, directions, edge_coloring, job_file, spline_table};

#[unsafe(no_mangle)]
pub extern "C" fn merelsplum_edge_coloring_simple(
    lengths: &[u16],
    kinds: &[u8],
    points: &[f64],
    threshold: f64,
    seed: u64,
    out_lengths: &mut [u16],
    out_kinds: &mut [u8],
    out_points: &mut [f64],
    out_colors: &mut [u8],
) -> u64
    ensures { handed result (at_exit out_lengths out_kinds out_points out_colors)
        ≡ hand_out colored_code (edge_coloring_simple (given lengths kinds points) threshold seed
        (at_entry out_lengths out_kinds out_points out_colors)) }
{
    edge_coloring::merelsplum_edge_coloring_simple(
        lengths,
        kinds,
        points,
        threshold,
        seed,
        out_lengths,
        out_kinds,
        out_points,
        out_colors,
    )
}

#[unsafe(no_mangle)]
pub extern "C" fn merelsplum_edge_coloring_ink_trap(
    lengths: &[u16],
    kinds: &[u8],
    points: &[f64],
    threshold: f64,
    seed: u64,
    out_lengths: &mut [u16],
    out_kinds: &mut [u8],
    out_points: &mut [f64],
    out_colors: &mut [u8],
) -> u64
    ensures { handed result (at_exit out_lengths out_kinds out_points out_colors)
        ≡ hand_out colored_code (edge_coloring_ink_trap (given lengths kinds points) threshold seed
        (at_entry out_lengths out_kinds out_points out_colors)) }
{
    edge_coloring::merelsplum_edge_coloring_ink_trap(
        lengths,
        kinds,
        points,
        threshold,
        seed,
        out_lengths,
        out_kinds,
        out_points,
        out_colors,
    )
}

#[unsafe(no_mangle)]
pub extern "C" fn merelsplum_edge_coloring_by_distance(
    lengths: &[u16],
    kinds: &[u8],
    points: &[f64],
    threshold: f64,
    seed: u64,
    distances: &[f64],
    out_lengths: &mut [u16],
    out_kinds: &mut [u8],
    out_points: &mut [f64],
    out_colors: &mut [u8],
) -> u64
    ensures { handed result (at_exit out_lengths out_kinds out_points out_colors)
        ≡ hand_out colored_code (edge_coloring_by_distance (given lengths kinds points) threshold seed
        distances.now
        (at_entry out_lengths out_kinds out_points out_colors)) }
{
    by_distance::merelsplum_edge_coloring_by_distance(
        lengths,
        kinds,
        points,
        threshold,
        seed,
        distances,
        out_lengths,
        out_kinds,
        out_points,
        out_colors,
    )
}

#[unsafe(no_mangle)]
pub extern "C" fn merelsplum_collect_splines(
    lengths: &[u16],
    kinds: &[u8],
    points: &[f64],
    threshold: f64,
    out_lengths: &mut [u16],
    out_kinds: &mut [u8],
    out_points: &mut [f64],
    out_splines: &mut [u8],
) -> u64
    ensures { handed result (at_exit out_lengths out_kinds out_points out_splines)
        ≡ hand_out collected_code (collect_splines (given lengths kinds points) threshold
        (at_entry out_lengths out_kinds out_points out_splines)) }
{
    by_distance::merelsplum_collect_splines(
        lengths,
        kinds,
        points,
        threshold,
        out_lengths,
        out_kinds,
        out_points,
        out_splines,
    )
}

#[unsafe(no_mangle)]
pub extern "C" fn merelsplum_edge_coloring_simple_balanced(
    lengths: &[u16],
    kinds: &[u8],
    points: &[f64],
    threshold: f64,
    seed: u64,
    out_lengths: &mut [u16],
    out_kinds: &mut [u8],
    out_points: &mut [f64],
    out_colors: &mut [u8],
) -> u64
    ensures { handed result (at_exit out_lengths out_kinds out_points out_colors)
        ≡ hand_out colored_code (edge_coloring (settings_of Balanced (Colors Simple seed) threshold) (given lengths kinds points) []
        (at_entry out_lengths out_kinds out_points out_colors)) }
{
    balanced::merelsplum_edge_coloring_simple_balanced(
        lengths,
        kinds,
        points,
        threshold,
        seed,
        out_lengths,
        out_kinds,
        out_points,
        out_colors,
    )
}

#[unsafe(no_mangle)]
pub extern "C" fn merelsplum_edge_coloring_ink_trap_balanced(
    lengths: &[u16],
    kinds: &[u8],
    points: &[f64],
    threshold: f64,
    seed: u64,
    out_lengths: &mut [u16],
    out_kinds: &mut [u8],
    out_points: &mut [f64],
    out_colors: &mut [u8],
) -> u64
    ensures { handed result (at_exit out_lengths out_kinds out_points out_colors)
        ≡ hand_out colored_code (edge_coloring (settings_of Balanced (Colors InkTrap seed) threshold) (given lengths kinds points) []
        (at_entry out_lengths out_kinds out_points out_colors)) }
{
    balanced::merelsplum_edge_coloring_ink_trap_balanced(
        lengths,
        kinds,
        points,
        threshold,
        seed,
        out_lengths,
        out_kinds,
        out_points,
        out_colors,
    )
}

#[unsafe(no_mangle)]
pub extern "C" fn merelsplum_edge_coloring_by_distance_balanced(
    lengths: &[u16],
    kinds: &[u8],
    points: &[f64],
    threshold: f64,
    seed: u64,
    distances: &[f64],
    out_lengths: &mut [u16],
    out_kinds: &mut [u8],
    out_points: &mut [f64],
    out_colors: &mut [u8],
) -> u64
    ensures { handed result (at_exit out_lengths out_kinds out_points out_colors)
        ≡ hand_out colored_code (edge_coloring (settings_of Balanced (Distances seed) threshold) (given lengths kinds points) distances.now
        (at_entry out_lengths out_kinds out_points out_colors)) }
{
    balanced::merelsplum_edge_coloring_by_distance_balanced(
        lengths,
        kinds,
        points,
        threshold,
        seed,
        distances,
        out_lengths,
        out_kinds,
        out_points,
        out_colors,
    )
}

#[unsafe(no_mangle)]
pub extern "C" fn merelsplum_collect_splines_balanced(
    lengths: &[u16],
    kinds: &[u8],
    points: &[f64],
    threshold: f64,
    out_lengths: &mut [u16],
    out_kinds: &mut [u8],
    out_points: &mut [f64],
    out_splines: &mut [u8],
) -> u64
    ensures { handed result (at_exit out_lengths out_kinds out_points out_splines)
        ≡ hand_out collected_code (edge_coloring (settings_of Balanced Numbers threshold) (given lengths kinds points) []
        (at_entry out_lengths out_kinds out_points out_splines)) }
{
    balanced::merelsplum_collect_splines_balanced(
        lengths,
        kinds,
        points,
        threshold,
        out_lengths,
        out_kinds,
        out_points,
        out_splines,
    )
}

#[unsafe(no_mangle)]
pub extern "C" fn merelsplum_edge_directions(
    lengths: &[u16],
    kinds: &[u8],
    points: &[f64],
    out_directions: &mut [f64],
    out_stand_ins: &mut [u8],
) -> u64
    ensures { handed_buffer result (buffers_at_exit out_directions out_stand_ins)
        ≡ hand_out_buffer (edge_directions (given lengths kinds points) (buffers_at_entry out_directions out_stand_ins)) }
{
    directions::merelsplum_edge_directions(lengths, kinds, points, out_directions, out_stand_ins)
}

#[unsafe(no_mangle)]
pub extern "C" fn merelsplum_try_add_edge(
    coloring: &mut [u8],
    edge_matrix: &mut [u8],
    a: usize,
    b: usize,
) -> u64
    ensures answer { result ≡ answer_code (offer (table_of coloring.old edge_matrix.old) a b).answer }
    ensures buffers { table_of coloring.new edge_matrix.new
        ≡ (offer (table_of coloring.old edge_matrix.old) a b).table }
{
    spline_table::merelsplum_try_add_edge(coloring, edge_matrix, a, b)
}

#[unsafe(no_mangle)]
pub extern "C" fn merelsplum_job_read(
    file: &[u8],
    lengths: &mut [u16],
    kinds: &mut [u8],
    points: &mut [f64],
    distances: &mut [f64],
    numbers: &mut [u64; 6],
) -> u64
    ensures { handed_job result (job_at_exit lengths kinds points distances) numbers.new
        ≡ hand_out_job (read_into (accept_job file.now) (job_at_entry lengths kinds points distances)) numbers.old }
{
    job_file::merelsplum_job_read(file, lengths, kinds, points, distances, numbers)
}

#[unsafe(no_mangle)]
pub extern "C" fn merelsplum_job_balanced(file: &[u8]) -> u64
    ensures { result ≡ balanced_code (answer_of (accept_job file.now)) }
{
    job_file::merelsplum_job_balanced(file)
}

#[unsafe(no_mangle)]
pub extern "C" fn merelsplum_job_check(file: &[u8]) -> u64
    ensures { result ≡ colored_code (check_file file.now) }
{
    job_file::merelsplum_job_check(file)
}

#[unsafe(no_mangle)]
pub extern "C" fn merelsplum_job_color(
    file: &[u8],
    out_lengths: &mut [u16],
    out_kinds: &mut [u8],
    out_points: &mut [f64],
    out_colors: &mut [u8],
) -> u64
    ensures { handed result (at_exit out_lengths out_kinds out_points out_colors)
        ≡ hand_out colored_code (color_file file.now
        (at_entry out_lengths out_kinds out_points out_colors)) }
{
    job_file::merelsplum_job_color(file, out_lengths, out_kinds, out_points, out_colors)
}

#[unsafe(no_mangle)]
pub extern "C" fn merelsplum_job_listing(file: &[u8], out: &mut [u8]) -> u64
    ensures { handed_buffer result out.new ≡ hand_out_buffer (list_file file.now out.old) }
{
    job_file::merelsplum_job_listing(file, out)
}

#[unsafe(no_mangle)]
pub extern "C" fn merelsplum_job_contour_part(file: &[u8], contour: usize) -> u64
    ensures { result ≡ place_code (contour_place file.now contour) }
{
    job_file::merelsplum_job_contour_part(file, contour)
}
