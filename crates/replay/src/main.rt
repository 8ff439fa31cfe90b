// Replays a sample of the oracle's answers, read from standard input, and compares them bit for bit.
// What it must print is the file `stdout`; each comparison that fails is a line more.
// No heap: the buffers are arrays for 64 of each count. Printed piece by piece: `println!` takes the runtime through each function, and answers a result.
// Numbers stand for route and refusal as the text has them.
#![tactic(auto)]

ghost use Rattle.std.specs.Prelude.{◌≤◌, length};

use io::{print_decimal, write_all};
use network::lent::Network;
use network::{Refusal, Shape};
use placement::Report;
use records::text::Text;
use std::marker::Model;
use system::work::work_length;

// What the buffers hold before a call: the work buffer, and every output.
const JUNK: f64 = 1.5e300;

const CANARY: f64 = -7.25;

// What the mark buffers hold before a call.
const MARK: usize = 9;

// The counts of a case, each at most 64, and what is asked of the solve.
#[derive(Drop)]
struct Head {
    number: usize,
    shape: Shape,
    route: usize,
    limit: usize,
}

impl Model for Head {
    ghost use Rattle.std.specs.Prelude.{◌≤◌};
    ghost use Rattle.network.specs.declared.Shape.{Shape};

    ghost Value = { Shape };

    ghost view = { λ h. h.shape };

    ghost invariant = { λ h. (h.shape.cameras ≤ 64) × (h.shape.points ≤ 64) × (h.shape.bearings ≤ 64) × (h.shape.directions ≤ 64) };
}

impl Head {
    fn shape(&self) -> Shape
        ensures { (result.cameras ≤ 64) × (result.points ≤ 64) × (result.bearings ≤ 64) × (result.directions ≤ 64) }
    {
        self.shape
    }

    // Says which comparison of which case fails.
    fn judge(&self, what: &[u8], same: bool) -> bool {
        if !same {
            write_all(1, b"case ");
            print_decimal(1, self.number as u64);
            write_all(1, b": ");
            write_all(1, what);
            write_all(1, b"\n");
        }
        same
    }

    // The doubles that the solve's work buffer needs; 0 of a refusal.
    fn needed(&self) -> usize
        ensures { result ≤ 8192 }
    {
        work_length(self.shape(), self.route, self.limit).map_or(0, |length| length.min(8192))
    }
}

// A case: its lists too, and the positions that dots and scales take.
#[derive(Drop)]
struct Case<'a> {
    head: Head,
    net: Network<'a>,
    positions: &'a [f64],
}

// How many cases there are and how many agree; how many solves each route accepts, and how many are refused with each number.
#[derive(Clone, Copy)]
struct Tally {
    cases: usize,
    agree: usize,
    accepted: [usize; 4],
    refused: [usize; 24],
}

// A refusal of a text: its number and place, and the camera that 11 to 13 have.
#[derive(Clone, Copy)]
struct Refused {
    number: usize,
    place: usize,
    camera: Option<usize>,
}

// An answer of a text: an accepted solve, or a refusal.
fn read_answer(text: &mut Text) -> Result<Report, Refused> {
    text.word(b"answer");
    let first = text.whole();
    let second = text.whole();
    let answer = if first == 0 {
        Ok(Report {
            anchor: second,
            route: text.whole(),
            rounds: text.whole(),
            few: text.whole(),
        })
    } else {
        let summed = 11 <= first && first <= 13;
        Err(Refused {
            number: first,
            place: second,
            camera: if summed { Some(text.whole()) } else { None },
        })
    };
    text.end();
    answer
}

fn same_answer(answer: Result<Report, Refusal>, wanted: Result<Report, Refused>) -> bool {
    match (answer, wanted) {
        (Ok(a), Ok(b)) => a == b,
        (Err(r), Err(w)) => {
            r.number() == w.number && r.place() == w.place && r.camera() == w.camera
        }
        _ => false,
    }
}

// Whether each number has the bits of x.
fn all_are(numbers: &[f64], x: f64) -> bool {
    numbers
        .iter()
        .all(|y| double::to_bits(*y) == double::to_bits(x))
}

// The first `count` marks are zero, and the others untouched.
fn unmarked(marks: &[usize], count: usize) -> bool {
    marks
        .iter()
        .enumerate()
        .all(|(i, mark)| *mark == if i < count { 0 } else { MARK })
}

// A line of doubles, compared with the first of an output; the others must be untouched.
fn same_output(word: &[u8], out: &[f64], count: usize, text: &mut Text) -> bool
    requires { count ≤ length out.now }
{
    let same = text.same_reals(word, &out[..count]);
    same && all_are(&out[count..], CANARY)
}

// One more, where the place is there.
fn count(tally: &mut [usize], place: usize) {
    if let Some(old) = tally.get_mut(place) {
        *old = old.saturating_add(1);
    }
}

// An answer among those met.
fn count_answer(answer: Result<Report, Refusal>, tally: &mut Tally) {
    match answer {
        Err(r) => count(&mut tally.refused, r.number()),
        Ok(report) => count(&mut tally.accepted, report.route),
    }
}

// The doubles that are needed end as zeros, and the others untouched.
fn is_cleared(work: &[f64], needed: usize) -> bool
    requires { needed ≤ length work.now }
{
    all_are(&work[..needed], 0.0) && all_are(&work[needed..], JUNK)
}

impl<'a> Case<'a> {
    fn check_connected(&self, text: &mut Text) -> bool {
        let mut nodes = [7usize; 128];
        let net = &self.net;
        // 1 or 0, or 2 of a refusal. Compared as numbers, so that what is printed of a text that has 2 there stays: it agrees.
        let answer = graph::is_connected(
            self.head.shape(),
            net.ends,
            net.weights,
            &mut nodes,
        ).map_or(2, usize::from);
        text.word(b"connected");
        let same = text.whole() == answer;
        text.end();
        self.head.judge(b"connected", same)
    }

    fn check_parts(&self, text: &mut Text) -> bool {
        let mut nodes = [7usize; 128];
        let mut labels = [7usize; 64];
        let s = self.head.shape();
        let labels = &mut labels[..s.cameras];
        let net = &self.net;
        // 0 of a refusal. Compared as numbers, as above.
        let count = graph::parts(s, net.ends, net.weights, &mut nodes, labels).unwrap_or(0);
        text.word(b"parts");
        let same = text.whole() == count;
        let labelled = text.same_wholes(labels);
        self.head.judge(b"parts", same && labelled)
    }

    fn check_solve(&self, text: &mut Text, tally: &mut Tally) -> bool {
        let head = &self.head;
        let s = head.shape();
        let needed = head.needed();
        // as many doubles as it needs, or one or two more
        let lent = needed + head.number % 3;
        let mut marks = [MARK; 64];
        let mut work = [JUNK; 8194];
        let mut cameras = [CANARY; 192];
        let mut placed = [CANARY; 192];
        let answer = placement::solve(
            &self.net,
            &mut marks[..s.bearings],
            head.route,
            head.limit,
            &mut work[..lent],
            &mut cameras[..3 * s.cameras],
            &mut placed[..3 * s.points],
        );
        count_answer(answer, tally);
        let wanted = read_answer(text);
        let answered = head.judge(b"answer", same_answer(answer, wanted));
        let cleared = head.judge(b"work", is_cleared(&work, needed));
        // of a refused solve the outputs are untouched
        let (k, q) = if wanted.is_ok() {
            (3 * s.cameras, 3 * s.points)
        } else {
            (0, 0)
        };
        let first = head.judge(b"cameras", same_output(b"cameras", &cameras, k, text));
        let second = head.judge(b"placed", same_output(b"placed", &placed, q, text));
        let unmarked = head.judge(b"marks", unmarked(&marks, s.bearings));
        answered && cleared && first && second && unmarked
    }

    // The dots, or the new scales: `fill` fills a number for each row.
    fn check_rows<F>(&self, word: &[u8], text: &mut Text, fill: F) -> bool
    where
        F: FnOnce(&mut [usize], &mut [f64]) -> Result<(), Refusal>,
        requires { F.IsAlwaysCallable fill }
    {
        let s = self.head.shape();
        let k = s.bearings + s.directions;
        let mut marks = [MARK; 64];
        let mut out = [CANARY; 128];
        let same = match fill(&mut marks[..s.bearings], &mut out[..k]) {
            Ok(()) => same_output(word, &out, k, text),
            Err(_) => {
                // there is nothing to compare
                text.at = None;
                false
            }
        };
        let same = self.head.judge(word, same);
        let unmarked = self.head.judge(b"marks", unmarked(&marks, s.bearings));
        same && unmarked
    }

    fn check_dots(&self, text: &mut Text) -> bool {
        let net = &self.net;
        let positions = self.positions;
        let trial = [CANARY; 192];
        let trial = &trial[..3 * self.head.shape().cameras];
        let dots = self.check_rows(b"dots", text, |marks, out| {
            recover::dots(net, marks, positions, trial, false, out)
        });
        let renewed = self.check_rows(b"renewed", text, |marks, out| {
            recover::scales(net, marks, positions, trial, false, out)
        });
        dots && renewed
    }

    // No `?` on a lost place: each comparison of a broken case is printed.
    fn check_all(&self, text: &mut Text, tally: &mut Tally) -> bool {
        let connected = self.check_connected(text);
        let parts = self.check_parts(text);
        let solved = self.check_solve(text, tally);
        let rows = self.check_dots(text);
        let whole = self.head.judge(b"text", text.at.is_some());
        connected && parts && solved && rows && whole
    }
}

// Reads the first three lines of a case: None where a count is over 64.
fn read_head(text: &mut Text) -> Option<Head> {
    text.word(b"case");
    let number = text.whole();
    text.end();
    text.word(b"counts");
    let s = Shape {
        cameras: text.whole(),
        points: text.whole(),
        bearings: text.whole(),
        directions: text.whole(),
    };
    text.end();
    text.word(b"solve");
    let route = text.whole();
    let limit = text.whole();
    text.end();
    if 64 < s.cameras || 64 < s.points || 64 < s.bearings || 64 < s.directions {
        return None;
    }
    Some(Head {
        number,
        shape: s,
        route,
        limit,
    })
}

// Reads the lists of a case, and compares its answers.
fn replay_lists(head: Head, text: &mut Text, tally: &mut Tally) -> bool {
    let s = head.shape();
    let k = s.bearings + s.directions;
    let mut ends = [0usize; 256];
    let mut rays = [0.0; 384];
    let mut weights = [0.0; 128];
    let mut scales = [0.0; 128];
    let mut points = [0.0; 192];
    let mut offsets = [0usize; 65];
    let mut listed = [0usize; 64];
    let mut positions = [0.0; 192];
    text.wholes(b"ends", &mut ends[..2 * k]);
    text.reals(b"rays", &mut rays[..3 * k]);
    text.reals(b"weights", &mut weights[..k]);
    text.reals(b"scales", &mut scales[..k]);
    text.reals(b"points", &mut points[..3 * s.points]);
    text.wholes(b"offsets", &mut offsets[..s.points + 1]);
    text.wholes(b"rows", &mut listed[..s.bearings]);
    text.reals(b"positions", &mut positions[..3 * s.cameras]);
    let net = Network {
        shape: s,
        ends: &ends[..2 * k],
        rays: &rays[..3 * k],
        weights: &weights[..k],
        scales: &scales[..k],
        points: &points[..3 * s.points],
        offsets: &offsets[..s.points + 1],
        listed: &listed[..s.bearings],
    };
    let case = Case {
        head,
        net,
        positions: &positions[..3 * s.cameras],
    };
    case.check_all(text, tally)
}

fn replay(text: &mut Text, tally: &mut Tally) -> bool {
    let Some(head) = read_head(text) else {
        write_all(1, b"case too large\n");
        text.at = None;
        return false;
    };
    replay_lists(head, text, tally)
}

// The place of the first case.
fn skip_comments(input: &[u8]) -> usize {
    let mut starts = true;
    for (place, byte) in input.iter().enumerate() {
        if starts && *byte != b'#' {
            return place;
        }
        starts = *byte == b'\n';
    }
    input.len()
}

// Up to the end of the text, or to where it is lost.
fn replay_all(input: &[u8]) -> Tally {
    let mut tally = Tally {
        cases: 0,
        agree: 0,
        accepted: [0; 4],
        refused: [0; 24],
    };
    let mut at = skip_comments(input);
    let mut text = Text::new(input, at);
    // no `for`: where a case ends is known once it is replayed
    while at < input.len() {
        let same = replay(&mut text, &mut tally);
        // where the text is lost, no case is left
        let next = text.at.unwrap_or(input.len());
        // a case that is read is not empty
        if next <= at {
            break;
        }
        tally.cases = tally.cases.saturating_add(1);
        if same {
            tally.agree = tally.agree.saturating_add(1);
        }
        at = next;
    }
    tally
}

// The counts that are met.
fn print_counts(name: &[u8], counts: &[usize]) {
    for (number, count) in counts.iter().enumerate() {
        if 0 < *count {
            write_all(1, name);
            print_decimal(1, number as u64);
            write_all(1, b": ");
            print_decimal(1, *count as u64);
            write_all(1, b"\n");
        }
    }
}

fn run(input: &[u8]) {
    let tally = replay_all(input);
    print_counts(b"accepted by route ", &tally.accepted);
    print_counts(b"refused ", &tally.refused);
    write_all(1, b"cases ");
    print_decimal(1, tally.cases as u64);
    write_all(1, b" agree ");
    print_decimal(1, tally.agree as u64);
    write_all(1, b"\n");
}

fn read_and_run(space: &mut [u8]) {
    let n = io::read_full(0, space);
    run(&space[..n]);
}

fn main() {
    let mut space = [0u8; 524288];
    read_and_run(&mut space);
}
