// Calls the tests 1 to 8 and the graph calls on good and bad input at the limits and prints number and place of each refusal.
// What it must print is the file `stdout`.
// Printed by io's functions: `println!` takes the runtime, a handle that the program needs for nothing else.
#![tactic(auto)]

mod stages;

use io::{print_decimal, write_all};
use network::lent::Network;
use network::{Refusal, Shape, check_counts};
use stages::{check_solve, check_step};
use system::work::work_length;

fn number(x: usize) {
    print_decimal(1, x as u64);
}

fn refusal(r: Refusal) {
    write_all(1, b"refused ");
    number(r.number());
    write_all(1, b" place ");
    number(r.place());
}

fn told(name: &[u8], v: Result<(), Refusal>) {
    write_all(1, name);
    write_all(1, b": ");
    match v {
        Err(r) => refusal(r),
        Ok(_) => {
            write_all(1, b"passed");
        }
    }
}

fn verdict(name: &[u8], v: Result<(), Refusal>) {
    told(name, v);
    write_all(1, b"\n");
}

// With what the marks hold after it.
fn marked(name: &[u8], v: Result<(), Refusal>, marks: &[usize]) {
    told(name, v);
    write_all(1, b", marks");
    shown(marks);
}

fn length(n: usize, route: usize, limit: usize) {
    write_all(1, b"work length, n ");
    number(n);
    write_all(1, b" route ");
    number(route);
    write_all(1, b" limit ");
    number(limit);
    write_all(1, b": ");
    match work_length(Shape::new(n, 2, 3, 1), route, limit) {
        Err(r) => refusal(r),
        Ok(t) => number(t),
    }
    write_all(1, b"\n");
}

// The network of the tests: three cameras, two points; bearings 0-0, 1-0, 2-1 and the direction 0-1.
const ENDS: [usize; 8] = [0, 0, 1, 0, 2, 1, 0, 1];

const RAYS: [f64; 12] = [0.0, 0.0, 1.0, 0.0, 0.0, 1.0, 0.0, 0.0, 1.0, 1.0, 0.0, 0.0];

const WEIGHTS: [f64; 4] = [1.0, 1.0, 1.0, 1.0];

const SCALES: [f64; 4] = [1.0, 1.0, 1.0, 1.0];

const POINTS: [f64; 6] = [5.0, 5.0, 5.0, 6.0, 6.0, 6.0];

fn good<'a>() -> Network<'a> {
    Network {
        shape: Shape::new(3, 2, 3, 1),
        ends: &ENDS,
        rays: &RAYS,
        weights: &WEIGHTS,
        scales: &SCALES,
        points: &POINTS,
        offsets: &[0, 2, 3],
        listed: &[0, 1, 2],
    }
}

// 1 to 8 of the good network, changed so.
fn solve<'a, F: FnOnce(&mut Network<'a>)>(name: &[u8], route: usize, limit: usize, change: F)
    requires { F.IsAlwaysCallable change }
{
    let mut net = good();
    change(&mut net);
    let mut marks = [7usize; 3];
    let v = check_solve(&net, &mut marks, route, limit);
    marked(name, v, &marks);
}

// The list with x at this place.
fn changed<T: Copy, const N: usize>(mut list: [T; N], at: usize, x: T) -> [T; N] {
    if at < N {
        list[at] = x;
    }
    list
}

// Each of these changes a list of its own: one function of them all would be told the list and the field at every call.

fn with_end(name: &[u8], at: usize, x: usize) {
    let ends = changed(ENDS, at, x);
    solve(name, 1, 2, |net| net.ends = &ends);
}

fn with_weight(name: &[u8], x: f64) {
    let weights = changed(WEIGHTS, 2, x);
    solve(name, 2, 0, |net| net.weights = &weights);
}

fn with_scale(name: &[u8], x: f64) {
    let scales = changed(SCALES, 3, x);
    solve(name, 2, 0, |net| net.scales = &scales);
}

fn with_ray(name: &[u8], at: usize, x: f64) {
    let rays = changed(RAYS, at, x);
    solve(name, 2, 0, |net| net.rays = &rays);
}

fn with_point(name: &[u8], at: usize, x: f64) {
    let points = changed(POINTS, at, x);
    solve(name, 2, 0, |net| net.points = &points);
}

fn with_lists(name: &[u8], offsets: &[usize], listed: &[usize]) {
    solve(name, 2, 0, |net| {
        net.offsets = offsets;
        net.listed = listed;
    });
}

// 1 to 7 of such a network.
fn step(name: &[u8], net: &Network<'_>, marks: &mut [usize]) {
    let v = check_step(net, marks);
    marked(name, v, marks);
}

// 1 to 7 of the good network, changed so.
fn with<'a, F: FnOnce(&mut Network<'a>)>(name: &[u8], change: F)
    requires { F.IsAlwaysCallable change }
{
    let mut net = good();
    change(&mut net);
    step(name, &net, &mut [7usize; 3]);
}

// A graph of n cameras, the direction 0-1 of weight 1 and 1-2 of weight v.
fn connectivity(name: &[u8], n: usize, v: f64, nodes: &mut [usize]) {
    let ends = [0usize, 1, 1, 2];
    let weights = [1.0, v];
    write_all(1, name);
    write_all(1, b": ");
    match graph::is_connected(Shape::new(n, 0, 0, 2), &ends, &weights, nodes) {
        Err(r) => refusal(r),
        Ok(true) => {
            write_all(1, b"connected");
        }
        Ok(false) => {
            write_all(1, b"not connected");
        }
    }
    write_all(1, b", node numbers");
    shown(nodes);
}

// The first and the last of some numbers.
fn shown(s: &[usize]) {
    if 0 < s.len() {
        write_all(1, b" ");
        number(s[0]);
        write_all(1, b" .. ");
        number(s[s.len() - 1]);
    }
    write_all(1, b"\n");
}

fn listing(name: &[u8], nodes: &mut [usize], labels: &mut [usize]) {
    let ends = [0usize, 1, 1, 2];
    let weights = [1.0, 0.0];
    write_all(1, name);
    write_all(1, b": ");
    match graph::parts(Shape::new(3, 0, 0, 2), &ends, &weights, nodes, labels) {
        Err(r) => refusal(r),
        Ok(parts) => {
            write_all(1, b"parts ");
            number(parts);
        }
    }
    write_all(1, b", labels");
    shown(labels);
}

fn lengths() {
    let asked = [
        (0, 1, 0),
        (1, 1, 0),
        (3, 1, 1),
        (3, 1, 2),
        (3, 2, 2),
        (3, 3, 2),
        (3, 4, 2),
        (3, 0, 2),
        (3, 1, 257),
        (257, 1, 256),
        (258, 3, 256),
        (4096, 3, 256),
        (4097, 3, 256),
    ];
    for (n, route, limit) in asked {
        length(n, route, limit);
    }
}

fn counts() {
    verdict(b"n 0", check_counts(Shape::new(0, 0, 0, 0)));
    verdict(b"n 1", check_counts(Shape::new(1, 0, 0, 0)));
    verdict(
        b"n 4096",
        check_counts(Shape::new(4096, 65536, 262144, 65536)),
    );
    verdict(b"n 4097", check_counts(Shape::new(4097, 65537, 0, 0)));
    verdict(b"m 65537", check_counts(Shape::new(1, 65537, 0, 0)));
    verdict(b"B 262145", check_counts(Shape::new(1, 0, 262145, 0)));
    verdict(b"E 65537", check_counts(Shape::new(1, 0, 0, 65537)));
    verdict(
        b"n largest",
        check_counts(Shape::new(0xffff_ffff_ffff_ffff, 0, 0, 0)),
    );
}

// Each case names its own list and length, so `short` and `long` are two tables.

fn short() {
    with(b"ends one short", |net| net.ends = &[0usize; 7]);
    with(b"rays one short", |net| net.rays = &[0.0; 11]);
    with(b"weights one short", |net| net.weights = &[1.0; 3]);
    with(b"scales one short", |net| net.scales = &[1.0; 3]);
    with(b"points one short", |net| net.points = &[0.0; 5]);
    with(b"offsets one short", |net| net.offsets = &[0usize; 2]);
    with(b"listed one short", |net| net.listed = &[0usize; 2]);
    step(b"marks one short", &good(), &mut [7usize; 2]);
}

fn long() {
    with(b"ends one long", |net| net.ends = &[0usize; 9]);
    with(b"rays one long", |net| net.rays = &[0.0; 13]);
    with(b"weights one long", |net| net.weights = &[1.0; 5]);
    with(b"scales one long", |net| net.scales = &[1.0; 5]);
    with(b"points one long", |net| net.points = &[0.0; 7]);
    with(b"offsets one long", |net| net.offsets = &[0usize; 4]);
    with(b"listed one long", |net| net.listed = &[0usize; 4]);
    step(b"marks one long", &good(), &mut [7usize; 4]);
}

fn rows() {
    solve(b"good network", 1, 2, |_| {});
    with_end(b"bearing 1's camera 3", 2, 3);
    with_end(b"bearing 2's point 2", 5, 2);
    with_end(b"direction's source 3", 6, 3);
    with_end(b"direction's target 3", 7, 3);
    with_end(b"direction 0-0", 7, 0);
    with_weight(b"weight NaN", 0.0 / 0.0);
    with_weight(b"weight infinite", 1.0 / 0.0);
    with_weight(b"weight -1", -1.0);
    with_weight(b"weight -0.0", -0.0);
    with_scale(b"scale 0", 0.0);
    with_scale(b"scale NaN", 0.0 / 0.0);
    with_ray(b"ray 0's y infinite", 1, 1.0 / 0.0);
    with_ray(b"direction's x NaN", 9, 0.0 / 0.0);
    with_point(b"point 1's z NaN", 5, 0.0 / 0.0);
    with_lists(b"lists: offsets from 1", &[1, 2, 3], &[0, 1, 2]);
    with_lists(b"lists: offsets to 2", &[0, 2, 2], &[0, 1, 2]);
    with_lists(b"lists: offsets fall", &[0, 4, 3], &[0, 1, 2]);
    with_lists(b"lists: row repeated", &[0, 2, 3], &[0, 0, 2]);
    with_lists(b"lists: descending", &[0, 2, 3], &[1, 0, 2]);
    with_lists(b"lists: row of another point", &[0, 2, 3], &[0, 2, 1]);
    with_lists(b"lists: no bearing", &[0, 2, 3], &[0, 1, 3]);
    with_lists(b"lists: row under another point", &[0, 1, 3], &[0, 1, 2]);
    solve(b"route 0", 0, 0, |_| {});
    solve(b"route 4", 4, 0, |_| {});
    solve(b"limit 257", 2, 257, |_| {});
}

fn graphs() {
    connectivity(b"graph of 3", 3, 1.0, &mut [7usize; 3]);
    connectivity(
        b"graph of 3, a surplus node number",
        3,
        1.0,
        &mut [7usize; 4],
    );
    connectivity(b"graph of 3, 1-2 of weight 0", 3, 0.0, &mut [7usize; 3]);
    connectivity(b"graph of 3, 1-2 of weight -1", 3, -1.0, &mut [7usize; 3]);
    connectivity(
        b"graph of 3, one node number short",
        3,
        1.0,
        &mut [7usize; 2],
    );
    connectivity(b"graph of 2", 2, 1.0, &mut [7usize; 3]);
    connectivity(b"graph of 0", 0, 1.0, &mut [7usize; 3]);
}

fn large_graphs() {
    connectivity(b"graph of 4096", 4096, 1.0, &mut [7usize; 4096]);
    connectivity(b"graph of 4097", 4097, 1.0, &mut [7usize; 4097]);
}

fn listings() {
    listing(b"parts of 3", &mut [7usize; 3], &mut [9usize; 3]);
    listing(
        b"parts of 3, one label short",
        &mut [7usize; 3],
        &mut [9usize; 2],
    );
    listing(
        b"parts of 3, one label long",
        &mut [7usize; 3],
        &mut [9usize; 4],
    );
    listing(
        b"parts of 3, one node number short",
        &mut [7usize; 2],
        &mut [9usize; 3],
    );
}

fn main() {
    counts();
    lengths();
    short();
    long();
    rows();
    graphs();
    large_graphs();
    listings();
}
