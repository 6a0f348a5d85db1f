//! The laws of terms. Such a function does nothing: its contract is the law.

ghost use Rattle.kat_term.specs.Equality.{TestsOperations, TestsTerms};
ghost use Rattle.kat_term.specs.Growth.{FreshValuesExtend, FreshValuesAreTerms, ValuesStay, TypesStay, FormulasNarrow, WorldsStay, WorldsHaveValuations};
ghost use Rattle.kat_term.specs.Parts.{TermsByParts};
ghost use Rattle.kat_term.specs.Types.{TypesAreValues};

use kat_value::{equality_is_tested, operations_are_exact, values_show_types};

/// The tests that compute whether two operations or two terms are equal hold of equal ones, and of
/// no others.
pub fn equal_terms_are_tested()
    ensures operations { TestsOperations }
    ensures terms { TestsTerms }
{
    equality_is_tested();
}

/// A term is of a type exactly where it has a value of that type, under every valuation alike: an
/// operation, a constructor or a record has a value exactly on values of types that it takes.
pub fn types_are_values()
    ensures { TypesAreValues }
{
    values_show_types();
    operations_are_exact();
}

/// Worlds only grow. Each old term keeps its value and its type; a fresh value is a term of its
/// type and may have every value of it; a formula narrows the valuations that fit to those that
/// make it true.
pub fn worlds_grow()
    ensures values { ValuesStay }
    ensures types { TypesStay }
    ensures fresh { FreshValuesExtend }
    ensures terms { FreshValuesAreTerms }
    ensures formulas { FormulasNarrow }
    ensures worlds { WorldsStay }
    ensures valuations { WorldsHaveValuations }
{}

/// The value and the type of a term are those that its parts give.
pub fn terms_by_parts()
    ensures { TermsByParts }
{}
