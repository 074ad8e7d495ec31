//! Laws of typing, proved. The functions do nothing.
ghost use Rattle.model.specs.TypingExamples.{AreTyped};
ghost use Rattle.model.specs.Typing.{CyclesAreOfAncestors, SupertypesAreThoseAbove};

/// In a well-typed pair, the supertypes of a type are exactly the type and its ancestors.
pub fn supertypes_are_those_above()
    ensures { SupertypesAreThoseAbove }
{}

/// The types that are refused as their own ancestors are exactly those that descend from themselves.
pub fn cycles_are_of_ancestors()
    ensures { CyclesAreOfAncestors }
{}

/// The worked examples of typing: small pairs of trees with their task or their faults.
pub fn examples_are_typed()
    ensures { AreTyped }
{}
