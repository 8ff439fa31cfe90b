// The network as it is lent, and refusals 1 to 8 in stages. A call makes the tests of its stages one after another.
#![tactic(auto)]

pub mod answers;
pub mod domain;
pub mod ends;
pub mod graph;
pub mod lengths;
pub mod lent;
pub mod links;
mod lists;
pub mod route;

ghost use Rattle.std.specs.Prelude.{◌≡◌, [], ◌∷◌, length, ◌+◌, ◌*◌};
ghost use Rattle.network.specs.Network.{graph, rows, shape};
ghost use Rattle.network.specs.Refusals.{camera, number, place, verdict, count_tests, end_tests, link_tests, graph_row_tests, network_row_tests, marks_after};
ghost use Rattle.network.specs.Refusals.{section, bad_vector};
ghost use Rattle.network.specs.inner.Sound.{ShapeSound, NetworkLengths};

use answers::{refused_at, refused_if};
use domain::{check_domain, check_placed_domain, find_bad_weight};
use ends::check_ends;
use lent::Network;
use lists::check_lists;

// The four counts: cameras n, points m, bearings B, directions E. That they passed 1 and 2 is `ShapeSound`, asked where a function needs it:
// the definitions speak of a `Shape`, and a second type with the same four counts would need a conversion at each of them.
#[derive(Clone, Copy)]
pub struct Shape {
    pub cameras: usize,
    pub points: usize,
    pub bearings: usize,
    pub directions: usize,
}

impl Shape {
    pub fn new(cameras: usize, points: usize, bearings: usize, directions: usize) -> Shape
        ensures { result ≡ shape cameras points bearings directions }
    {
        Shape {
            cameras,
            points,
            bearings,
            directions,
        }
    }
}

// Places of the point lists: so many, from the first on. (Not the part of the slice itself: `Links::listed` tells with each read that the bearing is in range.)
#[derive(Clone, Copy)]
pub struct Span {
    pub first: usize,
    pub size: usize,
}

// Why a call is refused at a place, with the number that goes out. What the place counts stands behind it; without a word it is 0.
#[derive(Clone, Copy, Debug, PartialEq, Eq)]
pub enum Cause {
    // n is 0 or over 4,096
    Cameras = 1,
    // m, B or E over its limit
    Sizes = 2,
    // a length differs from its count, or the work buffer is too short
    Lengths = 3,
    // a camera or point number out of range: row
    OutOfRange = 4,
    // a direction with source = target: row
    Loop = 5,
    // the point lists break their rule
    PointLists = 6,
    // a weight, scale, ray, direction or position outside the domain: row
    Domain = 7,
    // the route is not 1 to 3, or the dense limit over 256
    Route = 8,
    // iterative: diagonal + 1e-6 not finite: camera. (10, the same not above 0, cannot be met.)
    Diagonal = 9,
    // route 1 and n - 1 over the dense limit: n - 1
    Dimension = 14,
    // dense: pivot not finite or not above 0: row
    Pivot = 15,
    // factor entry not finite: row
    Factor = 16,
    // back-substituted number not finite: row
    Solution = 17,
    // image under 36 bytes, version not 1 or section count not 4
    Head = 20,
    // offsets or lengths break the image rule: pair
    Pairs = 21,
    // a section's length differs from what the counts say: section
    Section = 22,
    // writer's output shorter than the image: bytes needed
    Room = 23,
}

// The sum of products over the cameras for which an iterative solve is refused, with the number that goes out.
#[derive(Clone, Copy, Debug, PartialEq, Eq)]
pub enum CameraSum {
    // curvature not finite, or at most 2^-52 × size of old product
    Curvature = 11,
    // new product not finite, or old product at or below 0
    Product = 12,
    // final residual not finite or above the allowed
    Residual = 13,
}

// A refused call: for a cause at a place; or for a sum, of the component 0, 1 or 2 for x, y or z, with the first camera at which the running sum is
// not finite, n where it stays finite.
#[derive(Clone, Copy, Debug, PartialEq, Eq)]
pub enum Refusal {
    At {
        cause: Cause,
        place: usize,
    },
    Sum {
        sum: CameraSum,
        component: usize,
        camera: usize,
    },
}

impl Refusal {
    // (No `From`: the name says what the number is.)
    pub fn number(self) -> usize
        ensures { result ≡ number self }
    {
        match self {
            Refusal::At { cause, .. } => cause as usize,
            Refusal::Sum { sum, .. } => sum as usize,
        }
    }

    // The place, which of a sum is the component.
    pub fn place(self) -> usize
        ensures { result ≡ place self }
    {
        match self {
            Refusal::At { place, .. } => place,
            Refusal::Sum { component, .. } => component,
        }
    }

    // The camera, of a sum.
    pub fn camera(self) -> Option<usize>
        ensures { result ≡ camera self }
    {
        match self {
            Refusal::At { .. } => None,
            Refusal::Sum { camera, .. } => Some(camera),
        }
    }
}

// 1 and 2.
pub fn check_counts(s: Shape) -> Result<(), Refusal>
    ensures { result ≡ verdict (count_tests s) }
{
    let n = s.cameras;
    refused_if(Cause::Cameras, (n == 0) | (4096 < n))?;
    refused_if(
        Cause::Sizes,
        (65536 < s.points) | (262144 < s.bearings) | (65536 < s.directions),
    )
}

// 4, 5 and the weight part of 7. (What a graph call is lent stays flat until it is tested: graph, src/checks.rt.)
pub fn check_graph_rows(s: Shape, ends: &[usize], weights: &[f64]) -> Result<(), Refusal>
    requires shape_sound { ShapeSound s }
    requires ends_len { (length ends.now ≡ 2 * rows s) × (length weights.now ≡ rows s) }
    ensures { result ≡ verdict (graph_row_tests (graph s ends.now weights.now)) }
{
    check_ends(s, ends)?;
    refused_at(Cause::Domain, find_bad_weight(weights))
}

// 4 to 6. Once 6 has been tested, the marks are all zero. (The slices one by one: a `Network` would ask for numbers that are not read.)
pub fn check_links(
    s: Shape,
    ends: &[usize],
    offsets: &[usize],
    listed: &[usize],
    marks: &mut [usize],
) -> Result<(), Refusal>
    requires shape_sound { ShapeSound s }
    requires ends_len { length ends.now ≡ 2 * rows s }
    requires offsets_len { length offsets.now ≡ s.points + 1 }
    requires listed_len { (length listed.now ≡ s.bearings) × (length marks.old ≡ s.bearings) }
    ensures value { result ≡ verdict (link_tests s ends.now offsets.now listed.now) }
    ensures marks_after { marks.new ≡ marks_after (verdict (end_tests s ends.now)) s.bearings marks.old }
{
    check_ends(s, ends)?; // before a mark is touched
    check_lists(s, ends, offsets, listed, marks)
}

// 4 to 7 of the whole network. (With the cameras of the next function as an `Option`, each contract here and in domain.rt would match on it, and each body too.
// Both ask what 1 to 3 have shown: a type for that would be made in each of the three calls, and opened here at once.)
pub fn check_network_rows(net: &Network<'_>, marks: &mut [usize]) -> Result<(), Refusal>
    requires shape_sound { ShapeSound net.now.shape }
    requires network_lengths { NetworkLengths net.now }
    requires marks_len { length marks.old ≡ net.now.shape.bearings }
    ensures value { result ≡ verdict (network_row_tests
        net.now
        []) }
    ensures marks_after { marks.new ≡ marks_after (verdict (end_tests net.now.shape net.now.ends)) net.now.shape.bearings marks.old }
{
    check_links(net.shape, net.ends, net.offsets, net.listed, marks)?;
    check_domain(&net.content())
}

// 4 to 7 of the whole network and of n camera positions.
pub fn check_placed_rows(
    net: &Network<'_>,
    marks: &mut [usize],
    cameras: &[f64],
) -> Result<(), Refusal>
    requires shape_sound { ShapeSound net.now.shape }
    requires network_lengths { NetworkLengths net.now }
    requires marks_len { (length marks.old ≡ net.now.shape.bearings) × (length cameras.now ≡ 3 * net.now.shape.cameras) }
    ensures value { result ≡ verdict (network_row_tests
        net.now
        (section net.now.shape.cameras (bad_vector cameras.now) ∷ [])) }
    ensures marks_after { marks.new ≡ marks_after (verdict (end_tests net.now.shape net.now.ends)) net.now.shape.bearings marks.old }
{
    check_links(net.shape, net.ends, net.offsets, net.listed, marks)?;
    check_placed_domain(&net.content(), cameras)
}
