ghost use Rattle.std.specs.Prelude.{◌≡◌};
ghost use Rattle.gcl_names.specs.Scope.{nothing_defined};

use crate::points::PointNames;
use crate::table::Names;
use std::alloc::Global;

/// What is defined so far, and how many statements are to be proved.
#[derive(Drop)]
pub struct Scope<'f> {
    pub names: Names<'f>,
    pub points: PointNames,
    pub lines: u32,
    pub circles: u32,
    pub proves: u32,
}

impl<'f> Scope<'f> {
    pub fn new(alloc: Global) -> Scope<'f>
        ensures { result ≡ nothing_defined }
    {
        Scope {
            names: Names::new(alloc),
            points: PointNames::new(alloc),
            lines: 0,
            circles: 0,
            proves: 0,
        }
    }
}
