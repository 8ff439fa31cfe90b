// Runs the rows of document 01's 'Values at the edges' through the public functions and prints what they answer.
// What it must print is the file `stdout`; the rows that are proved of the definitions stand in specs/Edges.antt.
// The most rounds stand only there: no public function answers them. No heap: the buffers are arrays.
// Printed by io's functions: `println!` takes the runtime, a handle that the program needs for nothing else.
#![tactic(auto)]

ghost use Rattle.std.specs.Prelude.{◌≡◌, ◌≤◌};
ghost use Rattle.network.specs.Network.{shape};

use io::{print_hex, write_all};
use network::lent::Network;
use network::{Refusal, Shape};
use placement::Report;

fn root(name: &[u8], bits: u64) {
    write_all(1, b"root of ");
    write_all(1, name);
    write_all(1, b": ");
    match double::from_bits(bits) {
        double::Decoded::Finite(x) => print_hex(1, double::to_bits(sqrt::sqrt(x)), 16),
        double::Decoded::Infinite(_) => write_all(1, b"infinite"),
        double::Decoded::NotANumber => write_all(1, b"not a number"),
    };
    write_all(1, b"\n");
}

fn number(x: usize) {
    write_all(1, b" ");
    io::print_decimal(1, x as u64);
}

// n=3, direction 0-1 weight 1, 1-2 weight 0.
fn two_parts() {
    let s = Shape::new(3, 0, 0, 2);
    let ends = [0usize, 1, 1, 2];
    let weights = [1.0, 0.0];
    let mut nodes = [0usize; 3];
    let mut labels = [9usize; 3];
    match graph::is_connected(s, &ends, &weights, &mut nodes) {
        Err(_) => write_all(1, b"refused"),
        Ok(true) => write_all(1, b"connected"),
        Ok(false) => write_all(1, b"not connected"),
    };
    match graph::parts(s, &ends, &weights, &mut nodes, &mut labels) {
        Err(_) => write_all(1, b", refused"),
        Ok(_) => write_all(1, b", labels"),
    };
    for label in &labels {
        number(*label);
    }
    write_all(1, b"\n");
}

// n=2, one direction, (1,0,0).
fn directed<'a>(weights: &'a [f64], scales: &'a [f64]) -> Network<'a>
    ensures { result.shape ≡ shape 2 0 0 1 }
{
    Network {
        shape: Shape::new(2, 0, 0, 1),
        ends: &[0, 1],
        rays: &[1.0, 0.0, 0.0],
        weights,
        scales,
        points: &[],
        offsets: &[0],
        listed: &[],
    }
}

// Cameras (0,0,0) and (x,0,0), direction (1,0,0), weight 1, old scale 1.
fn scale(name: &[u8], x: f64) {
    let mut out = [0.0];
    write_all(1, b"scale with target x = ");
    write_all(1, name);
    write_all(1, b": ");
    match recover::scales(
        &directed(&[1.0], &[1.0]),
        &mut [9usize; 0],
        &[0.0, 0.0, 0.0, x, 0.0, 0.0],
        &[0.0f64; 6],
        false,
        &mut out,
    ) {
        Err(_) => write_all(1, b"refused"),
        Ok(_) => print_hex(1, double::to_bits(out[0]), 16),
    };
    write_all(1, b"\n");
}

fn scales() {
    scale(b"2", 2.0);
    scale(b"-2", -2.0);
    scale(b"2^-20", 0.00000095367431640625);
    scale(b"2^-19", 0.0000019073486328125);
}

fn answer(name: &[u8], given: Result<Report, Refusal>) {
    write_all(1, name);
    match given {
        Err(r) => {
            write_all(1, b": refused");
            number(r.number());
            write_all(1, b" place");
            number(r.place());
            if let Some(camera) = r.camera() {
                write_all(1, b" camera");
                number(camera);
            }
        }
        Ok(p) => {
            write_all(1, b": anchor");
            number(p.anchor);
            write_all(1, b" route");
            number(p.route);
            write_all(1, b" rounds");
            number(p.rounds);
            write_all(1, b" few");
            number(p.few);
        }
    }
    write_all(1, b"\n");
}

fn position(name: &[u8], numbers: &[f64]) {
    write_all(1, name);
    for x in numbers {
        write_all(1, b" ");
        print_hex(1, double::to_bits(*x), 16);
    }
    write_all(1, b"\n");
}

// Solves in buffers of the largest network's sizes, cut to this one's, with a work buffer of so many doubles, and shows what an accepted solve leaves of
// camera 0 and point 0.
fn solve(name: &[u8], net: &Network<'_>, route: usize, limit: usize, lent: usize)
    requires { (net.now.shape.cameras ≤ 3) × (net.now.shape.points ≤ 2) × (net.now.shape.bearings ≤ 3) × (lent ≤ 93) }
{
    let mut marks = [9usize; 3];
    let mut work = [7.0; 93];
    let mut cameras = [7.0; 9];
    let mut placed = [7.0; 6];
    let s = net.shape;
    let given = placement::solve(
        net,
        &mut marks[..s.bearings],
        route,
        limit,
        &mut work[..lent],
        &mut cameras[..3 * s.cameras],
        &mut placed[..3 * s.points],
    );
    answer(name, given);
    if given.is_ok() {
        position(b"c 0", &cameras[..3]);
        position(b"p 0", &placed[..3]);
    }
}

// n=1, m=1, B=1, E=0: camera 0 sees point 0 along (0,0,1), old point (5,5,5). Route 3 with limit 48.
fn one_camera(name: &[u8], weight: f64, scale: f64) {
    let net = Network {
        shape: Shape::new(1, 1, 1, 0),
        ends: &[0, 0],
        rays: &[0.0, 0.0, 1.0],
        weights: &[weight],
        scales: &[scale],
        points: &[5.0, 5.0, 5.0],
        offsets: &[0, 1],
        listed: &[0],
    };
    solve(name, &net, 3, 48, 29);
}

// n=3, cameras 1 and 2 see point 0 with weight 1e200, camera 0 sees point 1 with 1e201, scales 1. Route 1.
fn three_cameras(name: &[u8], limit: usize) {
    let net = Network {
        shape: Shape::new(3, 2, 3, 0),
        ends: &[1, 0, 2, 0, 0, 1],
        rays: &[0.0, 0.0, 1.0, 0.0, 0.0, 1.0, 0.0, 0.0, 1.0],
        weights: &[1e200, 1e200, 1e201],
        scales: &[1.0; 3],
        points: &[0.0; 6],
        offsets: &[0, 2, 3],
        listed: &[0, 1, 2],
    };
    solve(name, &net, 1, limit, 93);
}

fn solves() {
    one_camera(b"weight 1, scale 0.5", 1.0, 0.5);
    one_camera(b"weight 0, scale 0.5", 0.0, 0.5);
    one_camera(b"weight 1e-12, scale 1", 1e-12, 1.0);
    let pair = directed(&[1e300], &[1e10]);
    solve(b"weight 1e300, scale 1e10, route 2", &pair, 2, 1, 53);
    solve(
        b"weight 1e300, scale 1e10, route 1, limit 1",
        &pair,
        1,
        1,
        53,
    );
    three_cameras(b"weights 1e200 and 1e201, route 1, limit 1", 1);
    three_cameras(b"weights 1e200 and 1e201, route 1, limit 2", 2);
}

fn main() {
    root(b"2^-1074", 1);
    root(b"2", 0x4000_0000_0000_0000);
    root(b"-0", 0x8000_0000_0000_0000);
    root(b"-1", 0xbff0_0000_0000_0000);
    root(b"the largest double", 0x7fef_ffff_ffff_ffff);
    root(b"infinity", 0x7ff0_0000_0000_0000);
    root(b"a signalling NaN", 0xfff0_0000_0000_0001);
    two_parts();
    scales();
    solves();
}
