//! Laws of the definitions. The functions do nothing.
ghost use Rattle.grant_model.specs.Laws.{
  IsReadBack,
  AreasAreFound,
  PairsAreFound,
  PairsStandByKind,
  ValuesAreFound,
};

use grant_values::words_in_bytes;

/// Another pair of a grant is that pair, and the others stay: each has a place of its own, by its
/// kind and its number.
pub fn pairs_stand_by_kind()
    ensures { PairsStandByKind }
{}

/// Grants that were laid as bytes are read back from them.
pub fn what_is_laid_is_read_back()
    ensures { IsReadBack }
{
    words_in_bytes();
}

/// At a driver's place stands the area of its grant. A driver that has no place has no grant.
pub fn areas_are_found()
    ensures { AreasAreFound }
{
    words_in_bytes();
}

/// Two words of the kernel's bytes are a pair of a driver's grant. Other words put there make the
/// grants with that pair changed, and nothing else.
pub fn pairs_are_found()
    ensures { PairsAreFound }
{
    words_in_bytes();
}

/// The words of a driver's value stand after its pairs. Other words put there make the grants with
/// that value, and nothing else.
pub fn values_are_found()
    ensures { ValuesAreFound }
{
    words_in_bytes();
}
