ghost use Rattle.proxy_examples.specs.Releases.{SecondReleaseFreesNothing, RefusedReleaseFreesNothing, LateReleaseFreesNothing, WhatWasAskedIsFreed, ReleasersHoldTheirIds};

pub fn a_second_release_frees_nothing()
    ensures { SecondReleaseFreesNothing }
{}

pub fn a_refused_release_frees_nothing()
    ensures { RefusedReleaseFreesNothing }
{}

pub fn a_late_release_frees_nothing()
    ensures { LateReleaseFreesNothing }
{}

pub fn what_was_asked_is_freed()
    ensures { WhatWasAskedIsFreed }
{}

pub fn releasers_hold_their_ids()
    ensures { ReleasersHoldTheirIds }
{}
