// Vectors of three doubles, and how they lie in a lent buffer.
#![tactic(auto)]

ghost use Rattle.std.specs.Prelude.{◌≡◌, cond, ◌++◌, ◌+◌, ◌*◌, ◌≤◌, eqb, length, drop, replicate};
ghost use Rattle.field.specs.Vec.{null, origin, plus, minus, scale, over, dot as product};
ghost use Rattle.field.specs.Buffer.{get, put, load, store, vector};

use std::ops::{Add, Div, Mul, Sub};

#[derive(Clone, Copy)]
pub struct Vec3 {
    pub x: f64,
    pub y: f64,
    pub z: f64,
}

impl Vec3 {
    pub fn dot(self, other: Vec3) -> f64
        ensures { result ≡ product self other }
    {
        self.x * other.x + self.y * other.y + self.z * other.z
    }
}

impl Add for Vec3 {
    type Output = Vec3;

    ghost add_gives = { λ a b r. r ≡ plus a b };

    fn add(self, other: Vec3) -> Vec3 {
        Vec3 {
            x: self.x + other.x,
            y: self.y + other.y,
            z: self.z + other.z,
        }
    }
}

impl Sub for Vec3 {
    type Output = Vec3;

    ghost sub_gives = { λ a b r. r ≡ minus a b };

    fn sub(self, other: Vec3) -> Vec3 {
        Vec3 {
            x: self.x - other.x,
            y: self.y - other.y,
            z: self.z - other.z,
        }
    }
}

impl Mul<f64> for Vec3 {
    type Output = Vec3;

    ghost mul_gives = { λ v s r. r ≡ scale v s };

    fn mul(self, s: f64) -> Vec3 {
        Vec3 {
            x: self.x * s,
            y: self.y * s,
            z: self.z * s,
        }
    }
}

impl Div<f64> for Vec3 {
    type Output = Vec3;

    ghost div_gives = { λ v s r. r ≡ over v s };

    fn div(self, s: f64) -> Vec3 {
        Vec3 {
            x: self.x / s,
            y: self.y / s,
            z: self.z / s,
        }
    }
}

// A function, as std's `Default` is one too: `Vec3::default()` would be longer at each use and say less.
pub fn zero() -> Vec3
    ensures { result ≡ origin }
{
    Vec3 {
        x: 0.0,
        y: 0.0,
        z: 0.0,
    }
}

// u at the anchor, v at any other camera i.
pub fn anchored(i: usize, anchor: usize, u: Vec3, v: Vec3) -> Vec3
    ensures { result ≡ cond (eqb i anchor) u v }
{
    if i == anchor { u } else { v }
}

// The vector that stands at p.
pub fn get3(s: &[f64], p: usize) -> Vec3
    requires { p + 3 ≤ length s.now }
    ensures { result ≡ get vector s.now p }
{
    Vec3 {
        x: s[p],
        y: s[p + 1],
        z: s[p + 2],
    }
}

pub fn put3(s: &mut [f64], p: usize, v: Vec3)
    requires { p + 3 ≤ length s.old }
    ensures { s.new ≡ put vector s.old p v }
{
    s[p] = v.x;
    s[p + 1] = v.y;
    s[p + 2] = v.z;
}

// v added to the vector that stands at p.
pub fn gain3(s: &mut [f64], p: usize, v: Vec3)
    requires { p + 3 ≤ length s.old }
    ensures { s.new ≡ put vector s.old p (plus (get vector s.old p) v) }
{
    let u = get3(s, p) + v;
    put3(s, p, u);
}

// A field of n vectors from one buffer to another. (Here and not at its caller, so that the contract can tell it of vectors, which the slices hold as numbers.
// Not by `copy_from_slice`: the static library would need `memmove` from outside for it.)
pub fn copy3(src: &[f64], from: usize, dst: &mut [f64], into: usize, n: usize)
    requires { (from + 3 * n ≤ length src.now) × (into + 3 * n ≤ length dst.old) }
    ensures { dst.new ≡ store vector dst.old into (load vector src.now from n) }
{
    for i in 0..n {
        let v = get3(src, from + 3 * i);
        put3(dst, into + 3 * i, v);
    }
}

// The first m items become `zero`, of which each copy is the same. (Callers would read `s[..m].fill(zero)` as a list cut and joined; this tells it of the whole.)
pub fn clear<T: Copy>(s: &mut [T], m: usize, zero: T)
    requires in_bounds { m ≤ length s.old }
    requires copies { T.is_infallible zero }
    requires same { (y : T) → T.is_clone zero y → y ≡ zero }
    ensures { s.new ≡ replicate m zero ++ drop m s.old }
{
    s[..m].fill(zero);
}
