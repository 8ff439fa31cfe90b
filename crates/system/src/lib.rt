// The system of the linear step: effective weights, point sums, assembly, anchor.
#![tactic(auto)]

mod assembly;
pub mod numbers;
pub mod points;
pub mod reads;
pub mod work;

ghost use Rattle.std.specs.Prelude.{◌≡◌, ◌+◌, ◌*◌, ◌<◌, ◌≤◌, length};
ghost use Rattle.field.specs.Buffer.{get, put};
ghost use Rattle.system.specs.System.{effective_in, pull_in, row_sums, sees as seen, joins as joined, departs as departed, arrives as arrived};
ghost use Rattle.system.specs.Work.{term, term_place, matrix_at};
ghost use Rattle.system.specs.inner.Formed.{Formed};

use assembly::{assemble, pick_anchor};
use field::{Vec3, get3, put3};
use numbers::Rows;
use points::{fill_effective, sum_points};
use work::term_at;

// What the system keeps of a camera: diagonal, right side, weighted degree, and the count of the rows that entered its diagonal.
#[derive(Clone, Copy)]
pub struct CameraTerm {
    pub diagonal: f64,
    pub right: Vec3,
    pub degree: f64,
    pub count: f64,
}

impl CameraTerm {
    // A bearing of effective weight e adds to its camera. The point has the weight w and the mean offset `mean`.
    pub(crate) fn sees(self, e: f64, w: f64, mean: Vec3, pull: Vec3) -> CameraTerm
        ensures { result ≡ seen e w mean pull self }
    {
        let old = self.right;
        let degree = self.degree + e;
        if w < 1e-12 {
            return CameraTerm {
                diagonal: self.diagonal,
                right: old,
                degree: degree,
                count: self.count,
            };
        }
        let right = old + (mean * e - pull);
        let count = self.count + 1.0;
        CameraTerm {
            diagonal: self.diagonal + e * (1.0 - e / w),
            right: right,
            degree: degree,
            count: count,
        }
    }

    // A direction of effective weight e adds to one of its ends, whose right side becomes `right`.
    fn joins(self, e: f64, right: Vec3) -> CameraTerm
        ensures { result ≡ joined e right self }
    {
        CameraTerm {
            diagonal: self.diagonal + e,
            right: right,
            degree: self.degree + e,
            count: self.count + 1.0,
        }
    }

    // A direction of effective weight e adds to its source.
    pub(crate) fn departs(self, e: f64, pull: Vec3) -> CameraTerm
        ensures { result ≡ departed e pull self }
    {
        let right = self.right - pull;
        self.joins(e, right)
    }

    // And to its target.
    pub(crate) fn arrives(self, e: f64, pull: Vec3) -> CameraTerm
        ensures { result ≡ arrived e pull self }
    {
        let right = self.right + pull;
        self.joins(e, right)
    }
}

// The term of camera c.
pub fn get_term(work: &[f64], c: usize) -> CameraTerm
    requires { (c ≤ 4096) × (term_place (c + 1) ≤ length work.now) }
    ensures { result ≡ get term work.now (term_place c) }
{
    let p = term_at(c);
    let right = get3(work, p + 1);
    CameraTerm {
        diagonal: work[p],
        right: right,
        degree: work[p + 4],
        count: work[p + 5],
    }
}

pub(crate) fn put_term(work: &mut [f64], c: usize, t: CameraTerm)
    requires { (c ≤ 4096) × (term_place (c + 1) ≤ length work.old) }
    ensures { work.new ≡ put term work.old (term_place c) t }
{
    let p = term_at(c);
    let right = t.right;
    work[p] = t.diagonal;
    put3(work, p + 1, right);
    work[p + 4] = t.degree;
    work[p + 5] = t.count;
}

// The effective weight of row r: (weight × scale) × scale.
pub fn effective(weights: &[f64], scales: &[f64], r: usize) -> f64
    requires { (r < length weights.now) × (r < length scales.now) }
    ensures { result ≡ effective_in weights.now scales.now r }
{
    let scale = scales[r];
    (weights[r] * scale) * scale
}

// The pull of row r: ray × (weight × scale).
pub fn pull(rays: &[f64], weights: &[f64], scales: &[f64], r: usize) -> Vec3
    requires { (r < length weights.now) × (r < length scales.now) × (3 * r + 3 ≤ length rays.now) }
    ensures { result ≡ pull_in rays.now weights.now scales.now r }
{
    get3(rays, 3 * r) * (weights[r] * scales[r])
}

// Forms the system in the work buffer, and returns the anchor: `update_point_statistics`, `assemble_camera_system`, `pick_anchor`.
pub fn form(rows: &Rows<'_>, work: &mut [f64]) -> usize
    requires { matrix_at rows.now.links.shape ≤ length work.old }
    ensures { Formed rows.now.links.shape rows.now.links.ends (row_sums rows.now) work.old work.new result }
{
    fill_effective(rows, work);
    sum_points(rows, work);
    assemble(rows, work);
    pick_anchor(work, rows.links().shape().cameras)
}
