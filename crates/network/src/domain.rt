// 7: the domain. Its functions ask what 1 to 3 have shown of the content: as a type it would want a model and five reads, where it is two lines of a contract.
ghost use Rattle.std.specs.Prelude.{◌≡◌, ◌+◌, ◌*◌, ◌<◌, ◌≤◌, length, [], ◌∷◌, ◌++◌};
ghost use Rattle.field.specs.Count.{lowest};
ghost use Rattle.network.specs.Network.{rows};
ghost use Rattle.network.specs.Refusals.{verdict, section, running, bad_weight, bad_scale, bad_vector, bad_row, row_sections};
ghost use Rattle.network.specs.Refusals.{domain_tests};
ghost use Rattle.network.specs.inner.Sound.{ShapeSound, DomainLengths};

use crate::answers::refused_at;
use crate::lent::Content;
use crate::{Cause, Refusal};
use double::{all_finite, is_nonnegative, is_positive};
use field::get3;

// The weight of row r is not finite, or below zero.
fn bad_weight_at(weights: &[f64], r: usize) -> bool
    requires { r < length weights.now }
    ensures { result ≡ bad_weight weights.now r }
{
    !is_nonnegative(weights[r])
}

// The lowest row whose weight is outside the domain.
pub(crate) fn find_bad_weight(weights: &[f64]) -> Option<usize>
    ensures { result ≡ lowest (bad_weight weights.now) (length weights.now) }
{
    (0..weights.len()).find(|&r| bad_weight_at(weights, r))
}

// The scale of row r is not finite, or not above zero.
fn bad_scale_at(scales: &[f64], r: usize) -> bool
    requires { r < length scales.now }
    ensures { result ≡ bad_scale scales.now r }
{
    !is_positive(scales[r])
}

// Vector i of a slice of them is not finite.
fn bad_vector_at(s: &[f64], i: usize) -> bool
    requires { 3 * i + 3 ≤ length s.now }
    ensures { result ≡ bad_vector s.now i }
{
    let v = get3(s, 3 * i);
    !all_finite(v.x, v.y, v.z)
}

// The lowest of `count` vectors that is not finite. (Three numbers to a vector, so the slice's length is not the count.)
pub fn find_bad_vector(s: &[f64], count: usize) -> Option<usize>
    requires { 3 * count ≤ length s.now }
    ensures { result ≡ lowest (bad_vector s.now) count }
{
    (0..count).find(|&i| bad_vector_at(s, i))
}

// The weight, scale or ray of row r is outside the domain.
fn bad_row_at(c: &Content<'_>, r: usize) -> bool
    requires r_in_bounds { r < rows c.now.shape }
    requires domain_lengths { DomainLengths c.now.shape c.now.rays c.now.weights c.now.scales c.now.positions }
    ensures { result ≡ bad_row c.now.weights c.now.scales c.now.rays r }
{
    bad_weight_at(c.weights, r) | bad_scale_at(c.scales, r) | bad_vector_at(c.rays, r)
}

// The lowest row that is outside the domain.
fn find_bad_row(c: &Content<'_>) -> Option<usize>
    requires shape_sound { ShapeSound c.now.shape }
    requires domain_lengths { DomainLengths c.now.shape c.now.rays c.now.weights c.now.scales c.now.positions }
    ensures { result ≡ lowest (bad_row c.now.weights c.now.scales c.now.rays) (rows c.now.shape) }
{
    let s = c.shape();
    (0..s.bearings + s.directions).find(|&r| bad_row_at(c, r))
}

// The lowest place outside the domain, counted through the rows and the points.
fn find_outside(c: &Content<'_>) -> Option<usize>
    requires shape_sound { ShapeSound c.now.shape }
    requires domain_lengths { DomainLengths c.now.shape c.now.rays c.now.weights c.now.scales c.now.positions }
    ensures { result ≡ running (row_sections c.now.shape c.now.rays c.now.weights c.now.scales c.now.positions) }
{
    let s = c.shape;
    if let Some(r) = find_bad_row(c) {
        return Some(r);
    }
    let p = find_bad_vector(c.points, s.points)?;
    Some(s.bearings + s.directions + p)
}

// The same, and then through the n cameras.
fn find_placed_outside(c: &Content<'_>, cameras: &[f64]) -> Option<usize>
    requires shape_sound { ShapeSound c.now.shape }
    requires domain_lengths { DomainLengths c.now.shape c.now.rays c.now.weights c.now.scales c.now.positions }
    requires cameras_len { length cameras.now ≡ 3 * c.now.shape.cameras }
    ensures { result ≡ running (row_sections c.now.shape c.now.rays c.now.weights c.now.scales c.now.positions
        ++ (section c.now.shape.cameras (bad_vector cameras.now) ∷ [])) }
{
    if let Some(r) = find_outside(c) {
        return Some(r);
    }
    let s = c.shape();
    let i = find_bad_vector(cameras, s.cameras)?;
    Some(s.bearings + s.directions + (s.points + i))
}

// 7 of rows and points.
pub fn check_domain(c: &Content<'_>) -> Result<(), Refusal>
    requires shape_sound { ShapeSound c.now.shape }
    requires domain_lengths { DomainLengths c.now.shape c.now.rays c.now.weights c.now.scales c.now.positions }
    ensures { result ≡ verdict (domain_tests (row_sections c.now.shape c.now.rays c.now.weights c.now.scales c.now.positions)) }
{
    refused_at(Cause::Domain, find_outside(c))
}

// 7 of rows, points and the n cameras.
pub(crate) fn check_placed_domain(c: &Content<'_>, cameras: &[f64]) -> Result<(), Refusal>
    requires shape_sound { ShapeSound c.now.shape }
    requires domain_lengths { DomainLengths c.now.shape c.now.rays c.now.weights c.now.scales c.now.positions }
    requires cameras_len { length cameras.now ≡ 3 * c.now.shape.cameras }
    ensures { result ≡ verdict (domain_tests (row_sections c.now.shape c.now.rays c.now.weights c.now.scales c.now.positions
        ++ (section c.now.shape.cameras (bad_vector cameras.now) ∷ []))) }
{
    refused_at(Cause::Domain, find_placed_outside(c, cameras))
}
