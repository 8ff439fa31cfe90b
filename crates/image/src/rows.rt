// 4, 5 and 7 of the rows and points of an image, before any number is stored.
// Not network's tests over a trait of rows: each read of it, of bytes and of slices, would need a contract over the list that it stands for, more text than
// the rules and searches that stand twice.
ghost use Rattle.std.specs.Prelude.{◌≡◌, [], ◌∷◌, ◌+◌, ◌*◌, ◌≤◌, ◌<◌, length};
ghost use Rattle.field.specs.Count.{lowest};
ghost use Rattle.network.specs.Network.{rows};
ghost use Rattle.network.specs.Refusals.{verdict, running, strays, loops, end_tests, bad_weight, bad_scale, bad_vector, domain_tests};
ghost use Rattle.layout.specs.Bytes.{u32_at, double_at};
ghost use Rattle.image.specs.Reading.{ends_from, points_from, content_from};
ghost use Rattle.image.specs.Tests.{content_sections, row_tests};
ghost use Rattle.image.specs.inner.Sound.{bad_row_from, finite_at, image_rows};

use double::{Decoded, from_bits};
use layout::bytes::{u32_at, u64_at};
use network::answers::refused_at;
use network::{Cause, Refusal, Shape};
use std::marker::Model;

// The rows of an image and the points behind them, as a type: a value stands for bytes that hold so many, from `at` on.
#[derive(Drop)]
pub(crate) struct ImageRows<'a> {
    bytes: &'a [u8],
    at: usize,
    shape: Shape,
}

impl<'a> Model for ImageRows<'a> {
    ghost use Rattle.std.specs.Prelude.{◌+◌, ◌*◌, ◌≤◌, length};
    ghost use Rattle.network.specs.Network.{rows};
    ghost use Rattle.image.specs.inner.Sound.{ImageRows, image_rows};

    ghost Value = { ImageRows };

    ghost view = { λ i. image_rows i.bytes.now i.at i.shape };

    ghost invariant = { λ i. i.at + 48 * rows i.shape + 24 * i.shape.points ≤ length i.bytes.now };
}

impl<'a> ImageRows<'a> {
    pub(crate) fn new(bytes: &'a [u8], at: usize, shape: Shape) -> ImageRows<'a>
        requires { at + 48 * rows shape + 24 * shape.points ≤ length bytes.now }
        ensures { result ≡ image_rows bytes.now at shape }
    {
        ImageRows { bytes, at, shape }
    }

    pub(crate) fn shape(&self) -> Shape
        ensures { result ≡ self.now.shape }
    {
        self.shape
    }

    // How many rows there are.
    fn count(&self) -> usize
        ensures value { result ≡ rows self.now.shape }
        ensures places_fit { rows self.now.shape + self.now.shape.points < 0x1_0000_0000_0000_0000 }
    {
        let s = self.shape;
        s.bearings + s.directions
    }

    // The camera and point of a bearing, the source and target of a direction.
    fn ends(&self, r: usize) -> (usize, usize)
        requires { r < rows self.now.shape }
        ensures first { result.0 ≡ u32_at self.now.bytes (self.now.at + 48 * r) }
        ensures second { result.1 ≡ u32_at self.now.bytes (self.now.at + 48 * r + 4) }
    {
        let p = self.at + 48 * r;
        (u32_at(self.bytes, p), u32_at(self.bytes, p + 4))
    }

    // Row r has a number that is out of range.
    fn strays(&self, r: usize) -> bool
        requires { r < rows self.now.shape }
        ensures { let s = self.now.shape in
            result ≡ strays s.cameras s.points s.bearings (ends_from self.now.at (rows s) self.now.bytes) r }
    {
        let s = self.shape();
        let others = if r < s.bearings { s.points } else { s.cameras };
        let (first, second) = self.ends(r);
        (s.cameras <= first) | (others <= second)
    }

    // Row r is a direction with source = target.
    fn loops(&self, r: usize) -> bool
        requires { r < rows self.now.shape }
        ensures { let s = self.now.shape in
            result ≡ loops s.bearings (ends_from self.now.at (rows s) self.now.bytes) r }
    {
        let s = self.shape();
        let (first, second) = self.ends(r);
        (s.bearings <= r) & (first == second)
    }

    // The weight, scale or ray of row r is outside the domain.
    fn bad_row(&self, r: usize) -> bool
        requires { r < rows self.now.shape }
        ensures { result ≡ bad_row_from self.now.at (rows self.now.shape) self.now.bytes r }
    {
        let p = self.at + 48 * r;
        let bytes = self.bytes;
        bad_weight_at(bytes, p + 32) | bad_scale_at(bytes, p + 40) | bad_vector_at(bytes, p + 8)
    }

    // Point i is not finite.
    fn bad_point(&self, i: usize) -> bool
        requires { i < self.now.shape.points }
        ensures { let s = self.now.shape in
            result ≡ bad_vector (points_from (self.now.at + 48 * rows s) s.points self.now.bytes) i }
    {
        let s = self.shape;
        bad_vector_at(
            self.bytes,
            self.at + 48 * (s.bearings + s.directions) + 24 * i,
        )
    }
}

// The double at p, where it is finite.
pub(crate) fn finite_at(bytes: &[u8], p: usize) -> Option<f64>
    requires { p + 8 ≤ length bytes.now }
    ensures { result ≡ finite_at bytes.now p }
{
    match from_bits(u64_at(bytes, p)) {
        Decoded::Finite(x) => Some(x),
        Decoded::Infinite(_) => None,
        Decoded::NotANumber => None,
    }
}

// The double at p is no weight: not finite, or below zero.
fn bad_weight_at(bytes: &[u8], p: usize) -> bool
    requires { p + 8 ≤ length bytes.now }
    ensures { result ≡ bad_weight (double_at bytes.now p ∷ []) 0 }
{
    match finite_at(bytes, p) {
        Some(w) => w < 0.0,
        None => true,
    }
}

// The double at p is no scale: not finite, or not above zero.
fn bad_scale_at(bytes: &[u8], p: usize) -> bool
    requires { p + 8 ≤ length bytes.now }
    ensures { result ≡ bad_scale (double_at bytes.now p ∷ []) 0 }
{
    match finite_at(bytes, p) {
        Some(s) => !(0.0 < s),
        None => true,
    }
}

// The three doubles from p on are no vector: one is not finite.
fn bad_vector_at(bytes: &[u8], p: usize) -> bool
    requires { p + 24 ≤ length bytes.now }
    ensures { result ≡ bad_vector (points_from p 1 bytes.now) 0 }
{
    !(finite_at(bytes, p).is_some()
        & finite_at(bytes, p + 8).is_some()
        & finite_at(bytes, p + 16).is_some())
}

// The lowest row with a number that is out of range.
fn find_stray(image: &ImageRows) -> Option<usize>
    ensures { let s = image.now.shape in
        result ≡ lowest (strays s.cameras s.points s.bearings (ends_from image.now.at (rows s) image.now.bytes)) (rows s) }
{
    (0..image.count()).find(|&r| image.strays(r))
}

// The lowest row that is a direction with source = target.
fn find_loop(image: &ImageRows) -> Option<usize>
    ensures { let s = image.now.shape in
        result ≡ lowest (loops s.bearings (ends_from image.now.at (rows s) image.now.bytes)) (rows s) }
{
    (0..image.count()).find(|&r| image.loops(r))
}

// 4 and 5.
fn check_ends(image: &ImageRows) -> Result<(), Refusal>
    ensures { let s = image.now.shape in
        result ≡ verdict (end_tests s (ends_from image.now.at (rows s) image.now.bytes)) }
{
    refused_at(Cause::OutOfRange, find_stray(image))?;
    refused_at(Cause::Loop, find_loop(image))
}

// The lowest row that is outside the domain.
fn find_bad_row(image: &ImageRows) -> Option<usize>
    ensures { let count = rows image.now.shape in
        result ≡ lowest (bad_row_from image.now.at count image.now.bytes) count }
{
    (0..image.count()).find(|&r| image.bad_row(r))
}

// The lowest point that is not finite.
fn find_bad_point(image: &ImageRows) -> Option<usize>
    ensures { let s = image.now.shape in
        result ≡ lowest (bad_vector (points_from (image.now.at + 48 * rows s) s.points image.now.bytes)) s.points }
{
    let s = image.shape();
    (0..s.points).find(|&i| image.bad_point(i))
}

// The lowest place outside the domain, counted through the rows and the points behind them.
fn find_outside(image: &ImageRows) -> Option<usize>
    ensures { result ≡ running (content_sections (content_from image.now.at image.now.shape image.now.bytes)) }
{
    if let Some(r) = find_bad_row(image) {
        return Some(r);
    }
    let p = find_bad_point(image)?;
    Some(image.count() + p)
}

// 7.
fn check_domain(image: &ImageRows) -> Result<(), Refusal>
    ensures { result ≡ verdict (domain_tests (content_sections (content_from image.now.at image.now.shape image.now.bytes))) }
{
    refused_at(Cause::Domain, find_outside(image))
}

// 4, 5 and 7.
pub(crate) fn check_rows(image: &ImageRows) -> Result<(), Refusal>
    ensures { result ≡ verdict (row_tests (content_from image.now.at image.now.shape image.now.bytes)) }
{
    check_ends(image)?;
    check_domain(image)
}
