//! Worked examples, letter for letter.

ghost use Rattle.link_lines.specs.Examples.{AllocationIsTold, FaultsAreTold, FragmentsAreTold, NewStreamsAreTold, PartIsToldLater, TwoAreTold};

pub fn allocation_is_told()
    ensures { AllocationIsTold }
{}

pub fn part_is_told_later()
    ensures { PartIsToldLater }
{}

pub fn two_are_told()
    ensures { TwoAreTold }
{}

pub fn new_streams_are_told()
    ensures { NewStreamsAreTold }
{}

pub fn faults_are_told()
    ensures { FaultsAreTold }
{}

pub fn fragments_are_told()
    ensures { FragmentsAreTold }
{}
