// How an answer goes to C (specs/Codes).
ghost use Rattle.std.specs.Prelude.{◌≡◌, ◌<◌, [], ◌∷◌, length, set};
ghost use Rattle.network.specs.Refusals.{number};
ghost use Rattle.exports.specs.Codes.{code_of, refused_report, report_of, yes_or_no, one, solved, counted, Unreported};

use network::{Cause, Refusal, Shape};
use placement::Report;

// What an accepted call tells: 1 or 0; a number; nothing; a solve's anchor, route, rounds and few; an image's n, m, B and E.

pub(crate) fn yes_or_no(yes: bool) -> [usize; 1]
    ensures { result ≡ yes_or_no yes }
{
    [usize::from(yes)]
}

pub(crate) fn one(number: usize) -> [usize; 1]
    ensures { result ≡ one number }
{
    [number]
}

pub(crate) fn nothing(_: ()) -> [usize; 1]
    ensures { result ≡ 0 ∷ [] }
{
    [0]
}

// Not by `From`: it and the types, here and in `counted`, are other crates'.
pub(crate) fn solved(p: Report) -> [usize; 4]
    ensures { result ≡ solved p }
{
    [p.anchor, p.route, p.rounds, p.few]
}

pub(crate) fn counted(s: Shape) -> [usize; 4]
    ensures { result ≡ counted s }
{
    [s.cameras, s.points, s.bearings, s.directions]
}

// Stores number i, where the report has it.
fn put(report: &mut [usize], i: usize, x: usize)
    ensures { report.new ≡ set report.old i x }
{
    if i < report.len() {
        report[i] = x;
    }
}

// Stores the place of a refusal as the first number, and its camera as the second, where it has one. The code is the refusal's number.
fn refused(report: &mut [usize], r: Refusal) -> usize
    ensures coded { result ≡ number r }
    ensures reported { report.new ≡ refused_report r report.old }
{
    put(report, 0, r.place());
    if let Some(camera) = r.camera() {
        put(report, 1, camera);
    }
    r.number()
}

// Stores N numbers that an accepted call tells, or what a refusal tells. The code is 0, or the refusal's number.
pub(crate) fn finish<const N: usize>(
    report: &mut [usize],
    answer: Result<[usize; N], Refusal>,
) -> usize
    requires { (0 < N) × (length report.old ≡ N) }
    ensures coded { result ≡ code_of answer.entry }
    ensures reported { report.new ≡ report_of (λ told. told) answer.entry report.old }
{
    match answer {
        Ok(told) => {
            report.copy_from_slice(&told);
            0
        }
        Err(r) => refused(report, r),
    }
}

// The code where the report has not its length, by the verdict of the tests before 3: their refusal, and what it tells as far as the report has
// room; else 3, and the report is left.
pub(crate) fn unreported(report: &mut [usize], earlier: Result<(), Refusal>) -> usize
    ensures { Unreported earlier result report.old report.new }
{
    match earlier {
        Err(first) => refused(report, first),
        Ok(()) => Cause::Lengths as usize,
    }
}
