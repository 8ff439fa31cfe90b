// What is printed.
ghost use Rattle.std.specs.Prelude.{◌≤◌, length, Ok};
ghost use Rattle.command.specs.Command.{Prints};
ghost use Rattle.command.specs.inner.Steps.{RefusedAs, AnsweredAs, printed};

use crate::{Printed, Reported};
use network::{Refusal, Shape};
use placement::Report;
use text::{put_placed, put_refused};

// A refusal.
pub fn refuse(refusal: Refusal, text: &mut [u8; 65536]) -> Printed
    ensures { Prints (RefusedAs refusal) result text.old text.new }
{
    let length = put_refused(refusal, text);
    Printed {
        answer: Err(refusal),
        length,
    }
}

// A report, with the cameras and points.
pub(crate) fn print(
    s: Shape,
    parts: usize,
    report: Report,
    cameras: &[f64],
    points: &[f64],
    text: &mut [u8; 65536],
) -> Reported
    requires { (length cameras.now ≤ 192) × (length points.now ≤ 2040) }
    ensures { Prints (AnsweredAs s parts (Ok report) cameras.now points.now) (printed result)
        text.old text.new }
{
    let length = put_placed(s, parts, report, cameras, points, text);
    Reported { report, length }
}
