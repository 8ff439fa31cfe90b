// What the solve program prints, into a lent buffer of bytes.
// Not by `write!`: its contract lets it fail where there is room, and `put_placed` promises the text there.
#![tactic(auto)]

ghost use Rattle.std.specs.Prelude.{◌≡◌, [], ◌∷◌, ◌++◌, ◌+◌, ◌/◌, ◌≤◌, ◌<◌, leb, length};
ghost use Rattle.field.specs.Buffer.{vectors_in};
ghost use Rattle.text.specs.Text.{digit, hex, decimal, spaced, named, newline, coordinates, vector_line, vector_lines, camera_text, refused_text};
ghost use Rattle.text.specs.Lent.{PutIfRoom, PutPlaced, room};
ghost use Rattle.text.specs.inner.Steps.{HasRoom, Wrote, counts_of, report_of, head_of, line_room};

use double::to_bits;
use field::{Vec3, get3};
use network::{Refusal, Shape};
use placement::Report;

// A digit below 16 as a byte.
fn digit_byte(d: usize) -> u8
    requires { d < 16 }
    ensures { result ≡ digit d }
{
    if d < 10 {
        return 48 + d as u8;
    }
    87 + d as u8
}

// The buffer, which is filled from the front, and the place of the next byte.
// No `impl Model`: with one, the caller would know of the buffer afterwards no more than its length.
#[derive(Drop)]
struct Writer<'a> {
    out: &'a mut [u8],
    at: usize,
}

impl<'a> Writer<'a> {
    fn byte(&mut self, x: u8)
        requires { HasRoom self.old 1 }
        ensures { Wrote self.old self.new (x ∷ []) 1 }
    {
        self.out[self.at] = x;
        self.at += 1;
    }

    // Some bytes as they are.
    fn bytes(&mut self, src: &[u8])
        requires { HasRoom self.old (length src.now) }
        ensures { Wrote self.old self.new src.now (length src.now) }
    {
        let next = self.at + src.len();
        self.out[self.at..next].copy_from_slice(src);
        self.at = next;
    }

    // The last k hex digits of x.
    fn hex(&mut self, k: usize, x: usize)
        requires { HasRoom self.old k }
        ensures { Wrote self.old self.new (hex k x) k }
    {
        if k > 0 {
            self.hex(k - 1, x / 16);
            self.byte(digit_byte(x % 16));
        }
    }

    // x in decimal, which takes at most 20 digits.
    fn decimal(&mut self, x: usize)
        requires { HasRoom self.old 20 }
        ensures { Wrote self.old self.new (decimal x) 20 }
    {
        if x < 10 {
            return self.byte(digit_byte(x));
        }
        self.decimal(x / 10);
        self.byte(digit_byte(x % 10));
    }

    // A space and the bits of x.
    fn spaced(&mut self, x: f64)
        requires { HasRoom self.old 17 }
        ensures { Wrote self.old self.new (spaced x) 17 }
    {
        self.byte(b' ');
        let bits = to_bits(x);
        self.hex(16, bits as usize);
    }

    // A label and a number.
    fn named(&mut self, label: &[u8], x: usize)
        requires { HasRoom self.old (length label.now + 20) }
        ensures { Wrote self.old self.new (named label.now x) (length label.now + 20) }
    {
        self.bytes(label);
        self.decimal(x);
    }

    // Two labels, each with a number.
    fn pair(&mut self, one: &[u8], x: usize, two: &[u8], y: usize)
        requires { HasRoom self.old (length one.now + 20 + (length two.now + 20)) }
        ensures { Wrote self.old self.new (named one.now x ++ named two.now y) (length one.now + 20 + (length two.now + 20)) }
    {
        self.named(one, x);
        self.named(two, y);
    }

    // The camera of a refusal, where it has one.
    fn camera(&mut self, camera: Option<usize>)
        requires { HasRoom self.old 28 }
        ensures { Wrote self.old self.new (camera_text camera) 28 }
    {
        if let Some(c) = camera {
            self.named(b" camera ", c);
        }
    }

    // A line of a label and a number.
    fn number_line(&mut self, label: &[u8], x: usize)
        requires { HasRoom self.old (length label.now + 20 + 1) }
        ensures { Wrote self.old self.new (named label.now x ++ newline) (length label.now + 20 + 1) }
    {
        self.named(label, x);
        self.byte(b'\n');
    }

    // The bits of x, y and z.
    fn coordinates(&mut self, v: Vec3)
        requires { HasRoom self.old 51 }
        ensures { Wrote self.old self.new (coordinates v) 51 }
    {
        self.spaced(v.x);
        self.spaced(v.y);
        self.spaced(v.z);
    }
}

// The line of the i-th camera or point.
fn put_vector_line(w: &mut Writer, tag: u8, i: usize, v: Vec3)
    requires { HasRoom w.old 74 }
    ensures { Wrote w.old w.new (vector_line tag i v) 74 }
{
    w.named(&[tag, b' '], i);
    w.coordinates(v);
    w.byte(b'\n');
}

// The lines of the cameras or points whose numbers are s.
fn put_vectors(w: &mut Writer, tag: u8, s: &[f64])
    requires { HasRoom w.old (line_room s.now) }
    ensures { Wrote w.old w.new (vector_lines tag (vectors_in s.now)) (line_room s.now) }
{
    for i in 0..s.len() / 3 {
        put_vector_line(w, tag, i, get3(s, 3 * i));
    }
}

// The line of the counts.
fn put_counts(w: &mut Writer, counts: Shape)
    requires { HasRoom w.old 119 }
    ensures { Wrote w.old w.new (counts_of counts) 119 }
{
    w.pair(b"cameras ", counts.cameras, b" points ", counts.points);
    w.pair(
        b" bearings ",
        counts.bearings,
        b" directions ",
        counts.directions,
    );
    w.byte(b'\n');
}

// The line of the report.
fn put_report(w: &mut Writer, report: Report)
    requires { HasRoom w.old 83 }
    ensures { Wrote w.old w.new (report_of report) 83 }
{
    w.pair(b"anchor ", report.anchor, b" route ", report.route);
    w.named(b" rounds ", report.rounds);
    w.byte(b'\n');
}

// The lines above those of the vectors.
fn put_head(w: &mut Writer, counts: Shape, parts: usize, report: Report)
    requires { HasRoom w.old 254 }
    ensures { Wrote w.old w.new (head_of counts parts report) 254 }
{
    put_counts(w, counts);
    w.number_line(b"parts ", parts);
    put_report(w, report);
    w.number_line(b"few ", report.few);
}

// Whether the buffer has room for the lines of so many vectors and those before them.
fn has_room(vectors: usize, out: &[u8]) -> bool
    ensures { result ≡ leb (room vectors) (length out.now) }
{
    256 <= out.len() && vectors <= (out.len() - 256) / 74
}

// What a solve that is not refused prints, at the front of `out`. `cameras` and `points` hold three numbers for each.
// The answer is the number of bytes written: 0, and `out` stays as it was, where it is shorter than 256 bytes and 74 for each vector.
// A count and no `Option`: it is the length of what was put in both cases, of which one clause speaks, and 0 is that of nothing.
// The five are no struct: they come from three places, and the one caller would make it for this call.
pub fn put_placed(
    counts: Shape,
    parts: usize,
    report: Report,
    cameras: &[f64],
    points: &[f64],
    out: &mut [u8],
) -> usize
    ensures { PutPlaced counts parts report cameras.now points.now out.old out.new result }
{
    if has_room(cameras.len() / 3 + points.len() / 3, out) {
        let mut w = Writer { out, at: 0 };
        put_head(&mut w, counts, parts, report);
        put_vectors(&mut w, b'c', cameras);
        put_vectors(&mut w, b'p', points);
        return w.at;
    }
    0
}

// What a refusal prints, at the front of `out`.
// The answer is the number of bytes written, as that of `put_placed`: 0, and `out` stays as it was, where it is shorter than 256 bytes.
pub fn put_refused(refusal: Refusal, out: &mut [u8]) -> usize
    ensures { PutIfRoom out.old out.new 0 (refused_text refusal) result }
{
    if has_room(0, out) {
        let mut w = Writer { out, at: 0 };
        w.pair(b"refused ", refusal.number(), b" place ", refusal.place());
        w.camera(refusal.camera());
        w.byte(b'\n');
        return w.at;
    }
    0
}
