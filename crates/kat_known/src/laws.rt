//! The laws of what a list tells. Such a function does nothing: its contract is the law.

ghost use Rattle.kat_known.specs.Bounded.{BoundsHold, BoundsRest};
ghost use Rattle.kat_known.specs.First.{AreFoundByParts, FoundHaveValues};
ghost use Rattle.kat_known.specs.Kept.{AtomsKeepTypes, AtomsKeepValues, KnownHolds, NormalKeepsTypes, NormalKeepsValues, ReducedKeepsTypes, ReducedKeepsValues, StrictlyKeepsTypes, StrictlyKeepsValues};

use kat_norm::{normal_forms_keep_types, normal_forms_keep_values};
use kat_rules::{told_types_hold, values_of_operations};
use kat_term::{equal_terms_are_tested, terms_by_parts, types_are_values, worlds_grow};
use kat_value::{equality_is_tested, types_of_values};

/// Bounds are at rest: a list that was read as often as they are read changes nothing more. They
/// hold: under a valuation that makes the list true, the number of a term is within them.
pub fn bounds_hold()
    ensures rest { BoundsRest }
    ensures hold { BoundsHold }
{
    equality_is_tested();
    types_of_values();
    equal_terms_are_tested();
    terms_by_parts();
    types_are_values();
    told_types_hold();
    values_of_operations();
}

/// What is known of an atom is so under each valuation that makes the list true, so that the
/// literal of a known atom keeps its value; it keeps its type as well.
pub fn known_atoms_hold()
    ensures known { KnownHolds }
    ensures values { AtomsKeepValues }
    ensures types { AtomsKeepTypes }
{
    equality_is_tested();
    types_of_values();
    equal_terms_are_tested();
    terms_by_parts();
    types_are_values();
    told_types_hold();
    values_of_operations();
    worlds_grow();
}

/// Reducing keeps values and types where replacing an atom and norming do, and norming does.
pub fn reducing_keeps()
    ensures normal_values { NormalKeepsValues }
    ensures normal_types { NormalKeepsTypes }
    ensures values { ReducedKeepsValues }
    ensures types { ReducedKeepsTypes }
    ensures strict_values { StrictlyKeepsValues }
    ensures strict_types { StrictlyKeepsTypes }
{
    normal_forms_keep_values();
    normal_forms_keep_types();
    terms_by_parts();
}

/// The first part of a term that a test finds is the term itself or the first in its parts; where
/// the term has a value, that part has one.
pub fn parts_are_found()
    ensures parts { AreFoundByParts }
    ensures values { FoundHaveValues }
{
    terms_by_parts();
}
