// What the solve program does, from the bytes of its input to the text that it prints.
// No heap: each step has the buffers of the largest network that is taken, as arrays, and lends the parts that the counts say.
// `ContentSound` stays a clause of four steps: two have a content and two a network with its lists, so types for it would be two, for two steps each.
#![tactic(auto)]

mod listing;
mod output;
mod parts;
mod reading;
mod solving;

ghost use Rattle.command.specs.Command.{Outcome, Prints};

use network::Refusal;
use output::refuse;
use placement::Report;
use reading::run_image;

// The answer, and how many bytes of text stand at the front of the buffer.
// Not the part of the text itself: it would keep the buffer lent, of which the bytes after the text are promised too.
#[derive(Clone, Copy)]
pub struct Printed {
    pub answer: Result<Report, Refusal>,
    pub length: usize,
}

// The report of a network that was solved and printed, and how many bytes its text has.
#[derive(Clone, Copy)]
pub(crate) struct Reported {
    report: Report,
    length: usize,
}

// The answer to an image and its text: 'refused N place P', or the counts, the parts, the report, the cameras and the points.
// More than 16,384 bytes are refused.
pub fn run(bytes: &[u8], text: &mut [u8; 65536]) -> Printed
    ensures { Prints (Outcome bytes.now) result text.old text.new }
{
    match run_image(bytes, text) {
        Err(r) => refuse(r, text),
        Ok(p) => Printed {
            answer: Ok(p.report),
            length: p.length,
        },
    }
}
