//! Laws of the definitions. The functions do nothing.
ghost use Rattle.grant_region.specs.Laws.{PartsJoin};

use grant_model::what_is_laid_is_read_back;

/// How the two parts of a block join: areas that are left in the kernel's part, and an area that is
/// left at the end of the process's own part, below the others.
pub fn parts_join()
    ensures { PartsJoin }
{
    what_is_laid_is_read_back();
}
