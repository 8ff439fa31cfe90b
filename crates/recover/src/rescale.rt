// Scales from placed cameras (`update_trial_scales`): the bearings point by point, then the directions.
// `keeps` goes down to the row (`Sites::answer`): were it decided above, the loop over a list would stand twice, for rows that are kept and the others.
ghost use Rattle.std.specs.Prelude.{◌≡◌, ◌+◌, ◌<◌, ◌≤◌, length, set};
ghost use Rattle.field.specs.Buffer.{vectors_in};
ghost use Rattle.network.specs.Network.{links_of, rows, span_of};
ghost use Rattle.network.specs.inner.Sound.{LinksSound};
ghost use Rattle.recover.specs.Recover.{direction_kept, new_scale_in, new_scale, scales_of};
ghost use Rattle.recover.specs.inner.Order.{listed_row, own_row, stored_at, direction_scale};

use crate::row::{Sites, put_scale};
use network::Span;

// The scale of row r; `keeps` says whether its weight keeps it.
fn rescale_row(i: &Sites<'_>, keeps: bool, r: usize, out: &mut [f64])
    requires { (r < rows i.now.net.shape) × (rows i.now.net.shape ≤ length out.old) }
    ensures { let net = i.now.net in
        out.new ≡ set out.old r (new_scale_in keeps net.shape net.ends net.rays net.scales
        net.positions (vectors_in i.now.cameras) r) }
{
    let scale = i.answer(keeps, r);
    put_scale(out, r, i.rows().scale(r), scale);
}

// The scales of the bearings at the places k of the lists; `keeps` says whether their point's weight keeps them. (`listed` tells the range of each row,
// as numbers of a slice would not.)
fn rescale_list(i: &Sites<'_>, keeps: bool, k: Span, out: &mut [f64])
    requires size_bound { k.first + k.size ≤ i.now.net.shape.bearings }
    requires out_len { rows i.now.net.shape ≤ length out.old }
    ensures { let net = i.now.net in
        out.new ≡ stored_at (listed_row net.listed) (new_scale_in keeps net.shape net.ends net.rays
        net.scales net.positions (vectors_in i.now.cameras)) k.first k.size out.old }
{
    let links = i.rows().links();
    for j in 0..k.size {
        let r = links.listed(k.first + j);
        rescale_row(i, keeps, r, out);
    }
}

// The scales of the bearings that point p lists.
fn rescale_point(i: &Sites<'_>, p: usize, out: &mut [f64])
    requires { (p < i.now.net.shape.points) × (rows i.now.net.shape ≤ length out.old) }
    ensures { out.new ≡ stored_at (listed_row i.now.net.listed)
        (new_scale i.now.net (vectors_in i.now.cameras))
        (span_of i.now.net.offsets p).first (span_of i.now.net.offsets p).size out.old }
{
    let rows = i.rows();
    let k = rows.links().span(p);
    let keeps = rows.list_weight(k) < 1e-12;
    rescale_list(i, keeps, k, out);
}

// The scales of all bearings, point by point.
fn rescale_bearings(i: &Sites<'_>, out: &mut [f64])
    requires { rows i.now.net.shape ≤ length out.old }
    ensures value { out.new ≡ stored_at (listed_row i.now.net.listed)
        (new_scale i.now.net (vectors_in i.now.cameras))
        0 i.now.net.shape.bearings out.old }
    ensures links_sound { LinksSound (links_of i.now.net) }
{
    for p in 0..i.rows().links().shape().points {
        rescale_point(i, p, out);
    }
}

// Whether a direction's weight keeps its scale: only where there are no bearings.
fn keeps_direction(b: usize, weight: f64) -> bool
    ensures { result ≡ direction_kept b weight }
{
    if b == 0 { weight < 1e-12 } else { false }
}

// The scales of all directions.
fn rescale_directions(i: &Sites<'_>, out: &mut [f64])
    requires { rows i.now.net.shape ≤ length out.old }
    ensures { let net = i.now.net in
        out.new ≡ stored_at own_row
        (direction_scale net.shape net.ends net.rays net.weights net.scales net.positions
        (vectors_in i.now.cameras))
        net.shape.bearings net.shape.directions out.old }
{
    let rows = i.rows();
    let s = rows.shape();
    let b = s.bearings;
    for r in b..b + s.directions {
        let keeps = keeps_direction(b, rows.weight(r));
        rescale_row(i, keeps, r, out);
    }
}

// The scale of each row.
pub(crate) fn fill_scales(i: &Sites<'_>, out: &mut [f64])
    requires { length out.old ≡ rows i.now.net.shape }
    ensures { out.new ≡ scales_of i.now.net (vectors_in i.now.cameras) }
{
    rescale_bearings(i, out);
    rescale_directions(i, out);
}
