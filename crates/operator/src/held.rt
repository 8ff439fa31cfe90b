// The operator as a struct that holds the lent work buffer, in which the effective weights and the point weights stand, thin over the
// core on plain slices (document 01, 'Where the Rust's shape cannot stay').
ghost use Rattle.std.specs.Prelude.{◌≡◌, length};
ghost use Rattle.operator.specs.inner.Applied.{FieldsIn, reduced_in};

use crate::{Fields, apply_core};
use network::links::Links;

#[derive(Drop)]
pub struct ReducedOperator<'a> {
    work: &'a mut [f64],
}

impl<'a> ReducedOperator<'a> {
    // The struct is taken apart, and the core is called, on links of its own: from the lent ones each store would make it read them anew.
    pub fn apply(self, links: &Links<'_>, f: Fields)
        requires { FieldsIn links.now.shape f.from f.into (length self.work.now) }
        ensures { self.exit.0.now ≡ reduced_in links.now f.anchor f.from f.into self.entry.work.now }
    {
        let links = links.copied();
        apply_core(self.work, &links, f)
    }
}

// The system applied to the field at `from`: every application goes through the struct.
pub fn apply(work: &mut [f64], links: &Links<'_>, f: Fields)
    requires { FieldsIn links.now.shape f.from f.into (length work.old) }
    ensures { work.new ≡ reduced_in links.now f.anchor f.from f.into work.old }
{
    ReducedOperator { work: work }.apply(links, f)
}
