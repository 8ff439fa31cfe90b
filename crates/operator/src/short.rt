// A point that few cameras see: each of its bearings is read once.
ghost use Rattle.std.specs.Prelude.{◌≡◌, ◌+◌, ◌*◌, ◌<◌, ◌≤◌, ℕ, length, get_or};
ghost use Rattle.field.specs.Vec.{minus, scale};
ghost use Rattle.field.specs.Buffer.{load, store, vector};
ghost use Rattle.operator.specs.Operator.{span_pass};
ghost use Rattle.operator.specs.inner.Applied.{PlacesIn, FieldsIn, Seen, SeenFrom, sight_at, summed, added, applied, pushed, pushed_all};

use crate::{Fields, gain};
use field::{Vec3, get3, zero};
use network::links::Links;
use system::reads::row_weight;

// What a point has of one bearing: its camera, its effective weight, and the camera's vector.
#[derive(Clone, Copy)]
pub(crate) struct Sight {
    camera: usize,
    weight: f64,
    at: Vec3,
}

impl Sight {
    // A sum with camera × weight added.
    fn added(self, sum: Vec3) -> Vec3
        ensures { result ≡ added self sum }
    {
        sum + self.at * self.weight
    }

    // (camera - u) × weight.
    fn pull(self, u: Vec3) -> Vec3
        ensures { result ≡ scale (minus self.at u) self.weight }
    {
        (self.at - u) * self.weight
    }
}

// The bearing at place k of the point lists.
fn seen(links: &Links<'_>, work: &[f64], from: usize, k: usize) -> Sight
    requires { PlacesIn links.now.shape from k 1 (length work.now) }
    ensures { Seen links.now.shape links.now.ends work.now from (get_or links.now.listed k 0) result }
{
    let r = links.listed(k);
    let c = links.ends().camera(r);
    let v = get3(work, from + 3 * c);
    Sight {
        camera: c,
        weight: row_weight(links.shape(), work, r),
        at: v,
    }
}

// Those at N places from k on. (No `from_fn`: it tells of its closure call by call, and the lemma that follows the calls would be longer than this loop.)
fn seen_from<const N: usize>(links: &Links<'_>, work: &[f64], from: usize, k: usize) -> [Sight; N]
    requires { PlacesIn links.now.shape from k N (length work.now) }
    ensures { SeenFrom links.now.shape links.now.ends links.now.listed work.now from k N result }
{
    let none = Sight {
        camera: 0,
        weight: 0.0,
        at: zero(),
    };
    let mut sights = [none; N];
    for i in 0..N {
        sights[i] = seen(links, work, from, k + i);
    }
    sights
}

// The sum of the cameras of N sights, by weight.
fn sum_of<const N: usize>(sights: &[Sight; N]) -> Vec3
    ensures { result ≡ summed sights.now N }
{
    let mut sum = zero();
    for s in sights {
        sum = s.added(sum);
    }
    sum
}

// The camera of a sight gains (camera - u) × weight.
fn push(work: &mut [f64], n: usize, f: Fields, s: Sight, u: Vec3)
    requires { (n ≤ 4096) × (s.camera < n) × (f.into + 3 * n ≤ length work.old) }
    ensures { work.new ≡ store vector work.old f.into (pushed f.anchor u s (load vector work.old f.into n)) }
{
    gain(work, n, f, s.camera, s.pull(u));
}

// N of them, one after another.
fn push_all<const N: usize>(work: &mut [f64], n: usize, f: Fields, sights: &[Sight; N], u: Vec3)
    requires n_bound { (n ≤ 4096) × (f.into + 3 * n ≤ length work.old) }
    requires camera_lt_n { (i : ℕ) → i < N → (sight_at sights.now i).camera < n }
    ensures { work.new ≡ store vector work.old f.into
        (pushed_all f.anchor u sights.now N (load vector work.old f.into n)) }
{
    for &s in sights {
        push(work, n, f, s, u);
    }
}

// A point of weight t that N cameras see, by the places from k on: each gains (camera - their mean) × weight.
pub(crate) fn few_rows<const N: usize>(
    links: &Links<'_>,
    work: &mut [f64],
    f: Fields,
    k: usize,
    t: f64,
)
    requires fields_in { FieldsIn links.now.shape f.from f.into (length work.old) }
    requires k_bound { k + N ≤ links.now.shape.bearings }
    ensures { work.new ≡ applied links.now.shape f.from f.into
        (span_pass links.now.ends links.now.listed f.anchor (record { first = k; size = N }) t) work.old }
{
    let sights: [Sight; N] = seen_from(links, work, f.from, k);
    let u = sum_of(&sights) / t;
    push_all(work, links.shape().cameras, f, &sights, u);
}
