// A list of names in a form.
ghost use Rattle.std.specs.Prelude.{◌≡◌};
ghost use Rattle.reader.specs.Nests.{first_of};
ghost use Rattle.reader.specs.Parts.{list_faults};

use crate::definition::Names;
use crate::elements::Survey;
use crate::fault::FormFault;

// A list of names, its place, and what was found of its elements.
#[derive(Clone, Copy)]
pub(crate) struct List<'a> {
    pub(crate) place: usize,
    pub(crate) names: Names<'a>,
    pub(crate) found: Survey,
}

impl List<'_> {
    // Whether it is of names, and of so many at most.
    pub(crate) fn admit(&self, most: usize) -> Result<(), FormFault>
        ensures { result ≡ first_of (list_faults self.now most) tt }
    {
        if self.found.only_names && self.found.count <= most {
            Ok(())
        } else {
            Err(FormFault::NoShape(self.place))
        }
    }
}
