//! What a core, and the two types of a reason come to, as contracts of functions that do nothing.
ghost use Rattle.um_reasons.specs.CoreLaws.{
  CoresAreSmallest,
  CutCoresAreSolvable,
  CoresAreUnique,
  FirstUnsolvableEnds,
  FirstUnsolvableEndsAlone,
};
ghost use Rattle.um_reasons.specs.Laws.{ToldTypesAreMostGeneral, ToldTypesNeverAgree, ToldTypesHoldSlots};

/// A core that isn't cut off has no joint solution, and each smaller part of it has one. A core that is cut off has
/// one. Rows have one core.
pub fn cores()
    ensures smallest { CoresAreSmallest }
    ensures cut_off { CutCoresAreSolvable }
    ensures unique { CoresAreUnique }
{}

/// Rows up to the first unsolvable one have a core, since they end with it. If they have no joint solution without the
/// equations of unit parameters, they have a core without them.
pub fn first_unsolvable()
    ensures ends { FirstUnsolvableEnds }
    ensures alone { FirstUnsolvableEndsAlone }
{}

/// What any joint solution of the core's other rows gives for the two types is an instance of those that are told, and
/// no instance makes these equal. They hold the slots of the rows alone.
pub fn reasons()
    ensures general { ToldTypesAreMostGeneral }
    ensures never { ToldTypesNeverAgree }
    ensures slots { ToldTypesHoldSlots }
{}
