// What holds of ground values and of the types of a script. The contract of each function is a law; its answer says only that it stands.
ghost use Rattle.std.specs.Prelude.{◌≡◌, true};
ghost use Rattle.ground.specs.Laws.{PutStandsHere, PutLeavesOthers, EmptyIsAbsent, FieldsTellRows};
ghost use Rattle.ground.specs.Laws.{HeadsBuildOnce, HeadsAskSorts, OthersPlayNoPart, WithoutTakesOne, BuiltTellsChildren, BuiltTellsHead, RowsHaveTwoHeads, RowBuildsEmpty, HeadsBuildAll};
ghost use Rattle.ground.specs.Parts.{NoTypeInItself, NoFieldInItself, NoRowInItsFields};
ghost use Rattle.ground.specs.Depths.{AgreementIsEquality};
ghost use Rattle.ground.specs.Members.{CompatibleSetsHaveMembers, NoMemberAlone};
ghost use Rattle.ground.specs.Swaps.{SwapMovesFields, SwapUndoesItself, SwapKeepsHeads, SwapKeepsClasses};
ghost use Rattle.ground.specs.Swaps.{UnnamedLabelsSwap, DefinitionsSwap, BuiltInNamesSwap, ScriptsSwap};
ghost use Rattle.ground.specs.Laws.{BuiltInNamesListed, BuiltInNamesGiven, TypesOfNamesDecide};

use crate::environment::{Classed, Environment, Plain};

// Rows are told by their fields.
pub fn rows_stand() -> bool
    ensures here { PutStandsHere }
    ensures elsewhere { PutLeavesOthers }
    ensures empty { EmptyIsAbsent }
    ensures equal { FieldsTellRows }
    ensures answer { result ≡ true }
{
    true
}

// Heads build values of their sorts, and every value.
pub fn heads_build() -> bool
    ensures once { HeadsBuildOnce }
    ensures sorts { HeadsAskSorts }
    ensures others { OthersPlayNoPart }
    ensures without { WithoutTakesOne }
    ensures all { HeadsBuildAll }
    ensures answer { result ≡ true }
{
    true
}

// A built value tells how it was built.
pub fn built_tells() -> bool
    ensures children { BuiltTellsChildren }
    ensures head { BuiltTellsHead }
    ensures rows { RowsHaveTwoHeads }
    ensures empty { RowBuildsEmpty }
    ensures answer { result ≡ true }
{
    true
}

// No type or field is a part of itself.
pub fn parts_are_smaller() -> bool
    ensures types { NoTypeInItself }
    ensures fields { NoFieldInItself }
    ensures rows { NoRowInItsFields }
    ensures answer { result ≡ true }
{
    true
}

// To agree to every depth is to be equal.
pub fn depths_decide() -> bool
    ensures law { AgreementIsEquality }
    ensures answer { result ≡ true }
{
    true
}

// Which sets of classes have members, and that none has one alone.
pub fn members_stand() -> bool
    ensures members { CompatibleSetsHaveMembers }
    ensures another { NoMemberAlone }
    ensures answer { result ≡ true }
{
    true
}

// The names that stand below all definitions.
pub fn built_in_names_stand() -> bool
    ensures listed { BuiltInNamesListed }
    ensures given { BuiltInNamesGiven }
    ensures answer { result ≡ true }
{
    true
}

// Environments that give each name the same types.
pub fn names_decide<E: Environment, F: Environment>() -> bool
    ensures law { TypesOfNamesDecide E.Environment.names F.Environment.names }
    ensures answer { result ≡ true }
{
    true
}

// Two labels exchanged in a value.
pub fn swaps_stand() -> bool
    ensures fields { SwapMovesFields }
    ensures twice { SwapUndoesItself }
    ensures heads { SwapKeepsHeads }
    ensures classes { SwapKeepsClasses }
    ensures names { BuiltInNamesSwap }
    ensures scripts { ScriptsSwap }
    ensures answer { result ≡ true }
{
    true
}

// Labels that stand nowhere in a form may be exchanged in its types.
pub fn unnamed_labels_swap<E: Environment>() -> bool
    ensures types { UnnamedLabelsSwap E.Environment.names }
    ensures definitions { DefinitionsSwap E.Environment.names }
    ensures answer { result ≡ true }
{
    true
}

// All these laws stand.
pub fn laws_stand() -> bool
    ensures { result ≡ true }
{
    rows_stand()
        && heads_build()
        && built_tells()
        && parts_are_smaller()
        && depths_decide()
        && members_stand()
        && built_in_names_stand()
        && names_decide::<Plain, Classed>()
        && swaps_stand()
        && unnamed_labels_swap::<Classed>()
}
