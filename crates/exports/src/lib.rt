// The entry points for C and Rust to link. A slice is a pointer and then a length. A call answers 0, or a refusal's number with its place as the
// report's first number. A report of another length than the call's is refused by 3, in its turn after the tests before 3.
// C lends each list by itself, so every function has a parameter for each; where the call takes them as one, its body makes that struct. Route and mark
// are numbers, as C has them.
#![tactic(auto)]

mod codes;

ghost use Rattle.std.specs.Prelude.{◌≡◌, not, eqb, length};
ghost use Rattle.exports.specs.Codes.{Unreported};
ghost use Rattle.std.specs.Float.{binary64};
ghost use Rattle.sqrt.specs.Root.{root};
ghost use Rattle.network.specs.Network.{content, shape as shape_of, graph as graph_of, network as network_of};
ghost use Rattle.recover.specs.Calls.{placed as placed_of};
ghost use Rattle.placement.specs.Routes.{submission};
ghost use Rattle.image.specs.Calls.{lists as lists_of};
ghost use Rattle.exports.specs.Calls.{ConnectedCall, PartsCall, LengthCall, DotsCall, ScalesCall, SolveCall};
ghost use Rattle.exports.specs.Calls.{CountsCall, ReadCall, WriteCall, ListCall};

use codes::{counted, finish, nothing, one, solved, unreported, yes_or_no};
use network::lent::{Content, Network};
use network::{Refusal, Shape, check_counts};
use recover::{dots, scales as new_scales};

// Makes the call where the report has so many numbers; else the verdict of the tests before 3 decides, which are made only then.
// The call stores what it tells by itself: the borrow checker does not cover a bound that names the N of an answer [usize; N].
fn reported<F: FnMut(&mut [usize]) -> usize, T: FnOnce() -> Result<(), Refusal>>(
    report: &mut [usize],
    count: usize,
    earlier: T,
    call: &mut F,
) -> usize
    requires called { (r : _) → length r.now ≡ count → F.pre call.old r }
    requires tested { T.IsAlwaysCallable earlier }
    ensures whole { length report.old ≡ count → (r : _) × (q : _) × (r.now ≡ report.old)
        × F.step call.old r result q call.new × (q.now ≡ report.new) }
    ensures otherwise { (length report.old ≡ count → ⊥) → (v : _) × T.post earlier v
        × Unreported v result report.old report.new × (call.new ≡ call.old) }
{
    if report.len() == count {
        call(report)
    } else {
        unreported(report, earlier())
    }
}

// The square root, correctly rounded.
#[unsafe(no_mangle)]
pub extern "C" fn vobzeile_sqrt(x: f64) -> f64
    ensures { result ≡ root binary64 x }
{
    sqrt::sqrt(x)
}

// Whether a walk of joined nodes leads from camera 0 to every camera: reports 1 or 0.
#[unsafe(no_mangle)]
pub extern "C" fn vobzeile_connected(
    n: usize,
    m: usize,
    b: usize,
    e: usize,
    ends: &[usize],
    weights: &[f64],
    nodes: &mut [usize],
    report: &mut [usize],
) -> usize
    ensures { ConnectedCall (graph_of (shape_of n m b e) ends.now weights.now) result
        nodes.old nodes.new report.old report.new }
{
    let s = Shape::new(n, m, b, e);
    let mut call = |told: &mut [usize]| finish(
        told,
        graph::is_connected(s, ends, weights, nodes).map(yes_or_no),
    );
    reported(report, 1, || check_counts(s), &mut call)
}

// The parts listing: reports the number of parts.
#[unsafe(no_mangle)]
pub extern "C" fn vobzeile_parts(
    n: usize,
    m: usize,
    b: usize,
    e: usize,
    ends: &[usize],
    weights: &[f64],
    nodes: &mut [usize],
    labels: &mut [usize],
    report: &mut [usize],
) -> usize
    ensures { PartsCall (graph_of (shape_of n m b e) ends.now weights.now) result
        nodes.old nodes.new labels.old labels.new report.old report.new }
{
    let s = Shape::new(n, m, b, e);
    let mut call = |told: &mut [usize]| finish(
        told,
        graph::parts(s, ends, weights, nodes, labels).map(one),
    );
    reported(report, 1, || check_counts(s), &mut call)
}

// Reports the doubles that the work buffer of a solve needs.
#[unsafe(no_mangle)]
pub extern "C" fn vobzeile_work_length(
    n: usize,
    m: usize,
    b: usize,
    e: usize,
    route: usize,
    limit: usize,
    report: &mut [usize],
) -> usize
    ensures { LengthCall (shape_of n m b e) route limit result report.old report.new }
{
    let s = Shape::new(n, m, b, e);
    let mut call = |told: &mut [usize]| finish(
        told,
        system::work::work_length(s, route, limit).map(one),
    );
    reported(report, 1, || check_counts(s), &mut call)
}

// The dot of each row with its baseline, bearings first: reports 0. The cameras are those of `trial` where the mark is not 0, else of `current`.
#[unsafe(no_mangle)]
pub extern "C" fn vobzeile_dots(
    n: usize,
    m: usize,
    b: usize,
    e: usize,
    ends: &[usize],
    rays: &[f64],
    weights: &[f64],
    scales: &[f64],
    points: &[f64],
    offsets: &[usize],
    listed: &[usize],
    marks: &mut [usize],
    current: &[f64],
    trial: &[f64],
    mark: usize,
    out: &mut [f64],
    report: &mut [usize],
) -> usize
    ensures { DotsCall (placed_of
        (network_of (shape_of n m b e) ends.now rays.now weights.now scales.now
        points.now offsets.now listed.now)
        (length marks.old) current.now trial.now (not (eqb mark 0)) (length out.old))
        result marks.old marks.new out.old out.new report.old report.new }
{
    let s = Shape::new(n, m, b, e);
    let net = Network {
        shape: s,
        ends,
        rays,
        weights,
        scales,
        points,
        offsets,
        listed,
    };
    let mut call = |told: &mut [usize]| finish(
        told,
        dots(&net, marks, current, trial, mark != 0, out).map(nothing),
    );
    reported(report, 1, || check_counts(s), &mut call)
}

// The scale of each row, kept or renewed, bearings first: reports 0. The cameras are those of `trial` where the mark is not 0, else of `current`.
#[unsafe(no_mangle)]
pub extern "C" fn vobzeile_scales(
    n: usize,
    m: usize,
    b: usize,
    e: usize,
    ends: &[usize],
    rays: &[f64],
    weights: &[f64],
    scales: &[f64],
    points: &[f64],
    offsets: &[usize],
    listed: &[usize],
    marks: &mut [usize],
    current: &[f64],
    trial: &[f64],
    mark: usize,
    out: &mut [f64],
    report: &mut [usize],
) -> usize
    ensures { ScalesCall (placed_of
        (network_of (shape_of n m b e) ends.now rays.now weights.now scales.now
        points.now offsets.now listed.now)
        (length marks.old) current.now trial.now (not (eqb mark 0)) (length out.old))
        result marks.old marks.new out.old out.new report.old report.new }
{
    let s = Shape::new(n, m, b, e);
    let net = Network {
        shape: s,
        ends,
        rays,
        weights,
        scales,
        points,
        offsets,
        listed,
    };
    let mut call = |told: &mut [usize]| finish(
        told,
        new_scales(&net, marks, current, trial, mark != 0, out).map(nothing),
    );
    reported(report, 1, || check_counts(s), &mut call)
}

// The solve: reports anchor, route, rounds and few.
#[unsafe(no_mangle)]
pub extern "C" fn vobzeile_solve(
    n: usize,
    m: usize,
    b: usize,
    e: usize,
    ends: &[usize],
    rays: &[f64],
    weights: &[f64],
    scales: &[f64],
    points: &[f64],
    offsets: &[usize],
    listed: &[usize],
    marks: &mut [usize],
    route: usize,
    limit: usize,
    work: &mut [f64],
    cameras: &mut [f64],
    placed: &mut [f64],
    report: &mut [usize],
) -> usize
    ensures { SolveCall (submission
        (network_of (shape_of n m b e) ends.now rays.now weights.now scales.now
        points.now offsets.now listed.now)
        (length marks.old) route limit (length work.old) (length cameras.old) (length placed.old))
        result marks.old marks.new work.old work.new cameras.old cameras.new
        placed.old placed.new report.old report.new }
{
    let s = Shape::new(n, m, b, e);
    let net = Network {
        shape: s,
        ends,
        rays,
        weights,
        scales,
        points,
        offsets,
        listed,
    };
    let mut call = |told: &mut [usize]| finish(
        told,
        placement::solve(&net, marks, route, limit, work, cameras, placed).map(solved),
    );
    reported(report, 4, || check_counts(s), &mut call)
}

// The counts of an image: reports n, m, B, E.
#[unsafe(no_mangle)]
pub extern "C" fn vobzeile_counts(bytes: &[u8], report: &mut [usize]) -> usize
    ensures { CountsCall bytes.now result report.old report.new }
{
    let mut call = |told: &mut [usize]| finish(told, image::counts(bytes).map(counted));
    reported(report, 4, || image::check_counted(bytes), &mut call)
}

// Reads an image into slices that its counts fit: reports n, m, B, E.
#[unsafe(no_mangle)]
pub extern "C" fn vobzeile_read(
    bytes: &[u8],
    ends: &mut [usize],
    rays: &mut [f64],
    weights: &mut [f64],
    scales: &mut [f64],
    points: &mut [f64],
    report: &mut [usize],
) -> usize
    ensures { ReadCall bytes.now
        (lists_of ends.old rays.old weights.old scales.old points.old)
        (lists_of ends.new rays.new weights.new scales.new points.new)
        result report.old report.new }
{
    let mut call = |told: &mut [usize]| finish(
        told,
        image::read(bytes, ends, rays, weights, scales, points).map(counted),
    );
    reported(report, 4, || image::check_counted(bytes), &mut call)
}

// Writes the image of a network: reports the bytes written.
#[unsafe(no_mangle)]
pub extern "C" fn vobzeile_write(
    n: usize,
    m: usize,
    b: usize,
    e: usize,
    ends: &[usize],
    rays: &[f64],
    weights: &[f64],
    scales: &[f64],
    points: &[f64],
    out: &mut [u8],
    report: &mut [usize],
) -> usize
    ensures { WriteCall
        (content (shape_of n m b e) ends.now rays.now weights.now scales.now points.now)
        out.old out.new result report.old report.new }
{
    let s = Shape::new(n, m, b, e);
    let content = Content {
        shape: s,
        ends,
        rays,
        weights,
        scales,
        points,
    };
    let mut call = |told: &mut [usize]| finish(told, image::write(&content, out).map(one));
    reported(report, 1, || check_counts(s), &mut call)
}

// The point lists of a network's rows: reports 0.
#[unsafe(no_mangle)]
pub extern "C" fn vobzeile_list_points(
    m: usize,
    b: usize,
    ends: &[usize],
    offsets: &mut [usize],
    listed: &mut [usize],
    report: &mut [usize],
) -> usize
    ensures { ListCall m b ends.now offsets.old offsets.new listed.old listed.new result
        report.old report.new }
{
    let mut call = |told: &mut [usize]| finish(
        told,
        lists::list_points(m, b, ends, offsets, listed).map(nothing),
    );
    reported(report, 1, || Ok(()), &mut call)
}
